// Every case of step 5, and of the record of a try, that a small list has, asked of ours: oracle/recorded/README.md says which, and in which order.
use crate::code;
use crate::code::{NONE, number_of};
use crate::tally::Tally;
use interval_pruner::neighbourhood_pruning::neighbourhood_pruning;
use interval_pruner::{Bound, Reach, Zeros};

const CUTS: u32 = 8;
// Gaps 0 to 4.
const GAPS: u32 = 5;
// What two errors up to 3 can have above a best.
const DIFFERENCES: u32 = 7;
// A cut, a gap and a difference with support 1.
const SMALL_TERMS: u32 = 280;
// The same with support 1 and then with support 2.
const TERMS: u32 = 560;

// Where the upper part is empty, only that counts: if the last cut is too near the original says one past it, and ours the next cut that is far enough,
// or the list's end.
fn start_of(upper: usize, last: usize) -> usize {
    if last < upper { NONE } else { upper }
}

// The gap and the difference serve as the two errors of a try as well, since they take all values up to 3.
fn answer(cuts: &[u16], bound: Bound, cut: usize, term: u32) -> usize {
    let zeros = Zeros {
        left: bound.left,
        right: bound.right,
    };
    let reach = Reach {
        gap: term / CUTS % GAPS,
        small: term < SMALL_TERMS,
        excess: term / CUTS / GAPS % DIFFERENCES,
    };
    let found = neighbourhood_pruning(cuts, zeros, reach, bound.first, cut);
    let start = start_of(found.upper, bound.last);
    let mut table = [0u32; 16];
    let after = interval_pruner::add_result(&mut table, zeros, cut, reach.gap, reach.excess);
    start | (found.lower << 8) | (number_of(after.left) << 16) | (number_of(after.right) << 24)
}

// The interval's two cuts are the marks, which need not fit what was tried.
pub fn of_bound(cuts: &[u16], bound: Bound, tally: &mut Tally) {
    if !code::listed(bound, cuts.len(), cuts.len(), 0) {
        return;
    }
    for term in 0..TERMS {
        let cut = (term % CUTS) as usize;
        if bound.first <= cut && cut <= bound.last {
            tally.tell(answer(cuts, bound, cut, term));
        }
    }
}
