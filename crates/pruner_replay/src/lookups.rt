// Every case of the feasible cuts and of the two lookups that a small list has, asked of ours: oracle/recorded/README.md says which, and in which order.
use crate::code::MOST_CUTS;
use crate::tally::Tally;
use cuts::feasible_cuts::support_feasible_splits;

// Looked-up values, 0 to one past the highest place; rows have the same.
const VALUES: usize = 10;
// A value, a last cut, and a first one or the list's end.
const LOOKUPS: usize = 720;
// Rows and a support up to 5, each asked before the lookup of the same number.
const FEASIBLE: usize = 60;

pub fn every(cuts: &[u16]) -> Tally {
    let mut tally = Tally::default();
    for code in 0..LOOKUPS {
        let value = code % VALUES;
        let last = code / VALUES % MOST_CUTS;
        let first = code / VALUES / MOST_CUTS;
        if code < FEASIBLE {
            let run = support_feasible_splits(cuts, value, last);
            tally.tell(run.first | (run.end << 8));
        }
        if first <= cuts.len() && last < cuts.len() {
            let lower = cuts::lower_bound(cuts, first, last, value);
            let upper = cuts::upper_bound(cuts, first, last, value);
            tally.tell(lower | (upper << 8));
        }
    }
    tally
}
