// Asks our lookups and pruning steps all cases that the original was asked, and prints of each step how many they are and for how many lists ours
// answers otherwise. Standard input has the digests of the original's answers.
#![tactic(auto)]

mod code;
mod lookups;
mod neighbourhood;
mod shrinking;
mod tally;

use crate::code::{BOUNDS, LISTS, MOST_CUTS};
use crate::tally::Tally;
use basics::reading::read_full;
use interval_pruner::Bound;
use std::io::Read;
use std::{fmt, io};

// Of one step: how many cases there are, and for how many lists ours answers otherwise.
#[derive(Clone, Copy, Default)]
struct Count {
    cases: u64,
    differ: u64,
}

impl fmt::Display for Count {
    fn fmt<W: fmt::Write>(&self, f: &mut fmt::Formatter<W>) -> fmt::Result {
        write!(f, "cases={} differ={}", self.cases, self.differ)
    }
}

impl Count {
    // No sum comes near wrapping.
    fn count(&mut self, ours: Tally, recorded: Tally) {
        self.cases = self.cases.wrapping_add(ours.cases);
        self.differ = self.differ.wrapping_add(u64::from(ours != recorded));
    }
}

// Eight bytes, the lowest first; what is missing is 0, which no digest is.
fn read_number(reader: &mut impl Read) -> io::Result<u64> {
    let mut bytes = [0u8; 8];
    read_full(reader, &mut bytes)?;
    Ok(u64::from_le_bytes(bytes))
}

fn read_tally(reader: &mut impl Read) -> io::Result<Tally> {
    Ok(Tally {
        cases: read_number(reader)?,
        digest: read_number(reader)?,
    })
}

// A step at every interval of a list.
fn every_bound<F: Fn(&[u16], Bound, &mut Tally)>(cuts: &[u16], step: F) -> Tally
    requires { F.IsAlwaysCallable step }
{
    let mut tally = Tally::default();
    for code in 0..BOUNDS {
        step(cuts, code::bound_of(code), &mut tally);
    }
    tally
}

// What is asked of every list, beside what was recorded of it.
fn compare<F: Fn(&[u16]) -> Tally>(reader: &mut impl Read, ask: F) -> io::Result<Count>
    requires { F.IsAlwaysCallable ask }
{
    let mut count = Count::default();
    for mask in 0..LISTS {
        let mut list = [0u16; MOST_CUTS];
        let length = code::places(&mut list, mask);
        count.count(ask(&list[..length]), read_tally(reader)?);
    }
    Ok(count)
}

fn main(rt: HostRuntime) -> io::Result<()> {
    let mut input = rt.stdin();
    let lookups = compare(&mut input, lookups::every)?;
    println!(rt; "lookups {lookups}")?;
    let shrinking = compare(&mut input, |cuts| every_bound(cuts, shrinking::of_bound))?;
    println!(rt; "shrinking {shrinking}")?;
    let neighbourhood = compare(
        &mut input,
        |cuts| every_bound(cuts, neighbourhood::of_bound),
    )?;
    println!(rt; "neighbourhood {neighbourhood}")
}
