// Step 2 of one column's search (interval_pruner.rs): what is left of an interval after what was tried beside it.
ghost use Rattle.std.specs.Prelude.{◌≡◌, ◌+◌, ◌*◌, ◌^◌, ◌<◌, ◌≤◌, true, [], IfSome};
ghost use Rattle.cuts.specs.Lookups.{Ascending};
ghost use Rattle.interval_pruner.specs.Column.{recorded_column};
ghost use Rattle.interval_pruner.specs.Pruner.{past, short, interval_within, start_after, end_above, end_before};
ghost use Rattle.interval_pruner.specs.Steps.{kept_off};
ghost use Rattle.interval_pruner.specs.Promise.{ShrunkTo};

use crate::{Bound, Target, Tries, Zeros};

// The interval from `first` to `last` that remembers what `bound` does, if it is not empty.
#[tactic(auto, using(crate::proofs::Shrinking::within_some, crate::proofs::Shrinking::within_none))]
fn between(bound: Bound, first: usize, last: usize) -> Option<Bound>
    ensures { result ≡ interval_within bound first last }
{
    (first <= last).then_some(Bound {
        first,
        last,
        ..bound
    })
}

// Past the highest cut with left error 0, and short of the lowest with right error 0.
#[tactic(auto, using(crate::proofs::Shrinking::within_none), unfolding(crate::specs::Pruner::past))]
fn between_zeros(zeros: Zeros, bound: Bound) -> Option<Bound>
    ensures { result ≡ interval_within bound (past zeros.left bound.first) (short zeros.right bound.last) }
{
    let last = crate::short_of(zeros.right, bound.last);
    let Some(z) = zeros.left else {
        return between(bound, bound.first, last);
    };
    if z < last {
        return between(bound, bound.first.max(z + 1), last);
    }
    None
}

// Where a remembered cut's error says that the cuts near it are no better: its place, and how far from it a better one stands at least.
#[tactic(auto, using(crate::proofs::Shrinking::kept_under, crate::proofs::Shrinking::kept_over), unfolding(crate::specs::Steps::kept_off, crate::specs::Column::left_error, crate::specs::Column::right_error))]
fn kept_off(tries: &Tries, target: Target, tried: Option<usize>) -> Option<(usize, usize)>
    ensures value { result ≡ kept_off (recorded_column tries.now.cuts.now tries.now.table.now target.gap true) target.best tried }
    ensures fits { IfSome result (λ r. (r.0 < 2 ^ 16) × (r.1 ≤ 3 * 2 ^ 32)) }
{
    let cut = tried?;
    let over = crate::sum_at(tries.table, cut, target.gap).checked_sub(target.best as usize)?;
    Some((cuts::place_at(tries.cuts, cut), over + 1))
}

// The cuts near the one remembered on the left are too near to be better.
#[tactic(auto, using(crate::proofs::Shrinking::start_kept, crate::proofs::Shrinking::start_moved))]
fn away_from_left(tries: &Tries, bound: Bound, target: Target) -> Option<Bound>
    ensures { Ascending tries.now.cuts.now →
        result ≡ interval_within bound
        (start_after (recorded_column tries.now.cuts.now tries.now.table.now target.gap true) target.best bound.left bound.first) bound.last }
{
    let Some((place, distance)) = kept_off(tries, target, bound.left) else {
        return between(bound, bound.first, bound.last);
    };
    let start = cuts::lower_bound(tries.cuts, bound.first, bound.last, place + distance);
    between(bound, start, bound.last)
}

// The interval up to the first cut placed above `x`.
#[tactic(auto, using(cuts::proofs::Lookups::sought_min), unfolding(crate::specs::Pruner::end_above, cuts::specs::Lookups::upper_bound_of, basics::specs::Choice::pick))]
fn up_to(cuts: &[u16], bound: Bound, x: usize) -> Option<Bound>
    ensures { Ascending cuts.now →
        result ≡ end_above (recorded_column cuts.now [] 0 true) bound x bound.first bound.last }
{
    if x < cuts::place_at(cuts, bound.first) {
        return None;
    }
    let end = cuts::upper_bound(cuts, bound.first, bound.last, x);
    between(bound, bound.first, bound.last.min(end))
}

// The cuts near the one remembered on the right are too near to be better.
#[tactic(auto, using(crate::proofs::Shrinking::end_kept, crate::proofs::Shrinking::end_moved), unfolding(crate::specs::Pruner::end_above))]
fn away_from_right(tries: &Tries, bound: Bound, target: Target) -> Option<Bound>
    ensures { Ascending tries.now.cuts.now →
        result ≡ end_before (recorded_column tries.now.cuts.now tries.now.table.now target.gap true) target.best bound.right bound
        bound.first bound.last }
{
    let Some((place, distance)) = kept_off(tries, target, bound.right) else {
        return between(bound, bound.first, bound.last);
    };
    up_to(tries.cuts, bound, place.saturating_sub(distance))
}

// What is left of an interval after what has been tried beside it.
pub fn interval_shrinking(tries: &Tries, bound: Bound, target: Target) -> Option<Bound>
    ensures { ShrunkTo tries.now.cuts.now tries.now.table.now tries.now.zeros bound target.gap target.best target.small result }
{
    if !target.small {
        return between(bound, bound.first, bound.last);
    }
    let open = between_zeros(tries.zeros, bound)?;
    let rest = away_from_left(tries, open, target)?;
    away_from_right(tries, rest, target)
}
