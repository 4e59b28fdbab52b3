// The record of what was tried in one column (interval_pruner.rs), and steps 1, 2 and 5 of its search, each in a module of its own.
#![tactic(auto)]

pub mod interval_shrinking;
pub mod neighbourhood_pruning;
pub mod subinterval_pruning;

ghost use Rattle.std.specs.Prelude.{◌≡◌, ◌+◌, ◌*◌, ◌^◌, ◌<◌, get_or, set};
ghost use Rattle.interval_pruner.specs.Column.{recorded};
ghost use Rattle.interval_pruner.specs.Pruner.{recorded_after, short};
ghost use Rattle.interval_pruner.specs.Promise.{ResultAdded};

// An interval of cut numbers, both ends in it, and the tried cuts that it remembers on its left and on its right.
#[derive(Clone, Copy)]
pub struct Bound {
    pub first: usize,
    pub last: usize,
    pub left: Option<usize>,
    pub right: Option<usize>,
}

// The highest tried cut with left error 0, and the lowest with right error 0.
#[derive(Clone, Copy, Default)]
pub struct Zeros {
    pub left: Option<usize>,
    pub right: Option<usize>,
}

// What was tried in one column: its cuts' places, the table of the errors of those tried, and the zero marks.
#[derive(Clone, Copy)]
pub struct Tries<'a> {
    pub cuts: &'a [u16],
    pub table: &'a [u32],
    pub zeros: Zeros,
}

// What a better rule must beat (`best`), the gap that is allowed, and whether support is at most 1 (`small`).
#[derive(Clone, Copy)]
pub struct Target {
    pub gap: u32,
    pub best: u32,
    pub small: bool,
}

// What step 5 takes from the terms, and how far a try's error is above the best.
#[derive(Clone, Copy)]
pub struct Reach {
    pub gap: u32,
    pub small: bool,
    pub excess: u32,
}

// Where the part above a tried cut begins, and where the part below it ends.
#[derive(Clone, Copy)]
pub struct Parts {
    pub upper: usize,
    pub lower: usize,
}

// ---- numbers. An error, a gap and a bound are u32, so that their sums fit a usize: the Rust's saturating sums have nothing to do here.

// ---- what was tried

fn store(table: &mut [u32], i: usize, error: u32)
    ensures { table.new ≡ set table.old i error }
{
    if i < table.len() {
        table[i] = error;
    }
}

// A cut past the table is not stored, and twice its number is not asked for, since that might not fit.
#[tactic(auto, unfolding(crate::specs::Pruner::recorded_after))]
fn store_both(table: &mut [u32], cut: usize, left: u32, right: u32)
    ensures { table.new ≡ recorded_after table.old cut left right }
{
    if cut < table.len() {
        store(table, 2 * cut, left);
        store(table, 2 * cut + 1, right);
    }
}

// The errors of a tried cut are kept, and the zero marks moved.
#[tactic(auto, unfolding(crate::specs::Pruner::zeros_after, crate::specs::Pruner::highest_zero, crate::specs::Pruner::lowest_zero, basics::specs::Choice::pick))]
pub fn add_result(table: &mut [u32], zeros: Zeros, cut: usize, left: u32, right: u32) -> Zeros
    ensures { ResultAdded table.old zeros cut left right result table.new }
{
    store_both(table, cut, left, right);
    let mut after = zeros;
    if left == 0 {
        after.left = Some(zeros.left.map_or(cut, |z| z.max(cut)));
    }
    if right == 0 {
        after.right = Some(zeros.right.map_or(cut, |z| z.min(cut)));
    }
    after
}

// ---- what the steps ask of it

fn at(table: &[u32], i: usize) -> usize
    ensures value { result ≡ get_or table.now i 0 }
    ensures fits { result < 2 ^ 32 }
{
    table.get(i).map_or(0, |error| *error as usize)
}

// A tried cut's left error and its right one. A cut past the table is not asked for, as in `store_both`.
#[tactic(auto, unfolding(crate::specs::Column::recorded))]
pub(crate) fn errors_at(table: &[u32], cut: usize) -> (usize, usize)
    ensures value { result ≡ recorded table.now cut }
    ensures fits { (result.0 < 2 ^ 32) × (result.1 < 2 ^ 32) }
{
    if cut < table.len() {
        (at(table, 2 * cut), at(table, 2 * cut + 1))
    } else {
        (0, 0)
    }
}

#[tactic(auto, unfolding(crate::specs::Pruner::short))]
pub(crate) fn short_of(zero: Option<usize>, last: usize) -> usize
    ensures { result ≡ short zero last }
{
    match zero {
        None => last,
        Some(z) => last.min(z.saturating_sub(1)),
    }
}

// A tried cut's error plus the gap.
pub(crate) fn sum_at(table: &[u32], cut: usize, gap: u32) -> usize
    ensures value { result ≡ (recorded table.now cut).0 + (recorded table.now cut).1 + gap }
    ensures fits { result < 3 * 2 ^ 32 }
{
    let (left, right) = errors_at(table, cut);
    left + right + gap as usize
}
