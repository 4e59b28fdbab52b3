// Shows the cuts of one column: nine measured aspect ratios, sorted. For each cut it prints its place, the threshold's bits, and how many
// rows go left there, which is proved to be the place itself.
#![tactic(auto)]

use digits::HEX_PLACES;
use std::io;
use threshold::parting::left_of_cut;
use threshold::threshold_between;

fn print_cuts(rt: &impl Print, ratios: &[f64]) -> io::Result<()> {
    for at in 1..ratios.len() {
        let lower = ratios[at - 1];
        let upper = ratios[at];
        if lower < upper {
            let bits = digits::bits_of(threshold_between(lower, upper));
            let left = left_of_cut(ratios, at);
            println!(rt; "cut place={at} at={bits:0HEX_PLACES$x} left={left}")?;
        }
    }
    Ok(())
}

fn main(rt: HostRuntime) -> io::Result<()> {
    let ratios = [1.19, 1.33, 1.33, 1.37, 1.66, 1.85, 2.0, 2.35, 2.39];
    print_cuts(&rt, &ratios)
}
