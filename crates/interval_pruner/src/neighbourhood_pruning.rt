// Step 5 of one column's search (interval_pruner.rs): the two parts that are left round a tried cut.
ghost use Rattle.std.specs.Prelude.{◌≡◌, suc, ◌+◌, ◌*◌, ◌^◌, ◌<◌, min, []};
ghost use Rattle.cuts.specs.Lookups.{Ascending};
ghost use Rattle.interval_pruner.specs.Column.{recorded_column};
ghost use Rattle.interval_pruner.specs.Pruner.{past, upper_from, lower_near, lower_to, Held, PartsListed};
ghost use Rattle.interval_pruner.specs.Promise.{PartedAt};

use crate::{Parts, Reach, Zeros};

impl Reach {
    // How far from a tried cut's place a better one stands at least, less one.
    fn distance(self) -> usize
        ensures value { result ≡ self.excess + self.gap }
        ensures fits { result < 2 * 2 ^ 32 }
    {
        self.excess as usize + self.gap as usize
    }
}

// The number after a cut's; past a list of `count` cuts there is none to go to.
fn after(count: usize, cut: usize) -> usize
    ensures { result ≡ min (suc cut) count }
{
    count.min(cut.saturating_add(1))
}

#[tactic(auto, unfolding(crate::specs::Pruner::past))]
fn past_zero(count: usize, zero: Option<usize>, first: usize) -> usize
    ensures { Held (λ k. k < count) zero → result ≡ past zero first }
{
    match zero {
        None => first,
        Some(z) => first.max(after(count, z)),
    }
}

// Where the part above the tried cut begins. The Rust answers one past the interval where none of its cuts is far enough; here the lookup runs along
// the list, since its end is not above its first cut, and what is queued is the same.
#[tactic(auto, using(crate::proofs::Neighbours::upper_far, crate::proofs::Neighbours::upper_near, crate::proofs::Neighbours::upper_large))]
fn upper_from(cuts: &[u16], zeros: Zeros, reach: Reach, cut: usize) -> usize
    ensures { PartsListed cuts.now zeros cut →
        result ≡ upper_from (recorded_column cuts.now [] reach.gap reach.small) zeros (reach.excess + reach.gap) cut }
{
    let count = cuts.len();
    let next = after(count, cut);
    let from = past_zero(count, zeros.left, next);
    let distance = reach.distance();
    if reach.small && 0 < distance {
        let nearest = cuts::place_at(cuts, cut) + distance + 1;
        return cuts::lower_bound(cuts, from, from, nearest);
    }
    next
}

// Where the part below the tried cut ends if some distance is to be kept from it.
#[tactic(auto, using(crate::proofs::Neighbours::lower_none, crate::proofs::Neighbours::lower_some))]
fn lower_near(cuts: &[u16], zeros: Zeros, reach: Reach, cut: usize, first: usize) -> usize
    ensures { Ascending cuts.now →
        result ≡ lower_near (recorded_column cuts.now [] reach.gap reach.small) zeros (reach.excess + reach.gap) cut first }
{
    let x = cuts::place_at(cuts, cut).saturating_sub(reach.distance() + 1);
    if x < cuts::place_at(cuts, first) {
        return first.saturating_sub(1);
    }
    let last = crate::short_of(zeros.right, cut.saturating_sub(1));
    cuts::upper_bound(cuts, first, last, x)
}

// Where the part below the tried cut ends. At distance 0 it keeps the tried cut.
#[tactic(auto, using(crate::proofs::Neighbours::lower_far, crate::proofs::Neighbours::lower_near_lem, crate::proofs::Neighbours::lower_large), unfolding(crate::specs::Pruner::lower_near))]
fn lower_to(cuts: &[u16], zeros: Zeros, reach: Reach, cut: usize, first: usize) -> usize
    ensures { Ascending cuts.now →
        result ≡ lower_to (recorded_column cuts.now [] reach.gap reach.small) zeros (reach.excess + reach.gap) cut first }
{
    let before = cut.saturating_sub(1);
    if reach.small {
        if 0 < reach.distance() {
            return lower_near(cuts, zeros, reach, cut, first);
        }
        return cut;
    }
    before
}

// The two parts round a tried cut of an interval that begins at `first`.
#[tactic(auto, unfolding(crate::specs::Pruner::parts_of))]
pub fn neighbourhood_pruning(
    cuts: &[u16],
    zeros: Zeros,
    reach: Reach,
    first: usize,
    cut: usize,
) -> Parts
    ensures { PartedAt cuts.now zeros reach.gap reach.excess first cut reach.small result }
{
    Parts {
        upper: upper_from(cuts, zeros, reach, cut),
        lower: lower_to(cuts, zeros, reach, cut, first),
    }
}
