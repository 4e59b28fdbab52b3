// Every case of steps 1 and 2 that a small list has, asked of ours: oracle/recorded/README.md says which, and in which order.
use crate::code;
use crate::code::{MARKINGS, number_of};
use crate::tally::Tally;
use interval_pruner::interval_shrinking::interval_shrinking;
use interval_pruner::subinterval_pruning::subinterval_pruning;
use interval_pruner::{Bound, Target, Tries, Zeros, add_result};

// Gaps 0 to 4, and bests too.
const LEVELS: u32 = 5;
// Errors 0 to 3.
const ERRORS: u32 = 4;
// The two of a cut.
const PAIRS: u32 = 16;
// Both 3, which alone stands for the errors of no cut, since it sets no mark.
const LAST_PAIR: u32 = 15;
// Those of two cuts.
const FOURS: u32 = 256;
// In an answer: step 2 leaves some of the interval; step 1 drops it.
const KEPT: usize = 1;

const HOPELESS: usize = 2;

fn answer(tries: &Tries, bound: Bound, target: Target) -> usize {
    let shrunk = match interval_shrinking(tries, bound, target) {
        None => 0,
        Some(left) => KEPT | (left.first << 8) | (left.last << 16),
    };
    if subinterval_pruning(tries.table, bound, target) {
        shrunk | HOPELESS
    } else {
        shrunk
    }
}

// Every gap. The tally goes by value, here and below: behind a reference it would be stored and read again at every case.
fn with_gaps(tries: &Tries, bound: Bound, target: Target, mut tally: Tally) -> Tally {
    for gap in 0..LEVELS {
        tally.tell(answer(tries, bound, Target { gap, ..target }));
    }
    tally
}

// Every best, and every gap with it.
fn with_bests(tries: &Tries, bound: Bound, target: Target, mut tally: Tally) -> Tally {
    for best in 0..LEVELS {
        tally = with_gaps(tries, bound, Target { best, ..target }, tally);
    }
    tally
}

// Both with support 1 and then with support 2.
fn tell_every_term(tries: &Tries, bound: Bound, tally: &mut Tally) {
    let target = Target {
        gap: 0,
        best: 0,
        small: true,
    };
    let small = with_bests(tries, bound, target, *tally);
    let other = Target {
        small: false,
        ..target
    };
    *tally = with_bests(tries, bound, other, small);
}

// Of no cut there are no errors.
fn has_errors(cut: Option<usize>, pair: u32) -> bool {
    cut.is_some() || pair == LAST_PAIR
}

// With the marks that the errors set, and with none. No cut is past the table, so that nothing is stored of it.
fn tell_with_errors(
    cuts: &[u16],
    bound: Bound,
    left_pair: u32,
    right_pair: u32,
    tally: &mut Tally,
) {
    let mut table = [0u32; 16];
    let left = number_of(bound.left);
    let once = add_result(
        &mut table,
        Zeros::default(),
        left,
        left_pair / ERRORS,
        left_pair % ERRORS,
    );
    let right = number_of(bound.right);
    let zeros = add_result(
        &mut table,
        once,
        right,
        right_pair / ERRORS,
        right_pair % ERRORS,
    );
    let tries = Tries {
        cuts,
        table: &table,
        zeros,
    };
    tell_every_term(&tries, bound, tally);
    let unmarked = Tries {
        zeros: Zeros::default(),
        ..tries
    };
    tell_every_term(&unmarked, bound, tally);
}

fn tell_every_error(cuts: &[u16], bound: Bound, tally: &mut Tally) {
    for errors in 0..FOURS {
        let left_pair = errors / PAIRS;
        let right_pair = errors % PAIRS;
        if has_errors(bound.left, left_pair) && has_errors(bound.right, right_pair) {
            tell_with_errors(cuts, bound, left_pair, right_pair, tally);
        }
    }
}

// Marks need not fit the errors, which are 0 here: with all errors they would be too many.
fn tell_every_marking(cuts: &[u16], bound: Bound, tally: &mut Tally) {
    for code in 1..MARKINGS {
        let marks = code::bound_of(code);
        if code::listed(marks, cuts.len(), cuts.len(), 0) {
            let zeros = Zeros {
                left: marks.left,
                right: marks.right,
            };
            let tries = Tries {
                cuts,
                table: &[0; 16],
                zeros,
            };
            tell_every_term(&tries, bound, tally);
        }
    }
}

// A search remembers a tried cut below the interval on its left, and one that is not below its last on its right.
pub fn of_bound(cuts: &[u16], bound: Bound, tally: &mut Tally) {
    if code::listed(bound, cuts.len(), bound.first, bound.last) {
        tell_every_error(cuts, bound, tally);
        tell_every_marking(cuts, bound, tally);
    }
}
