// Step 1 of one column's search (interval_pruner.rs): whether an interval can be dropped for what is known of the cuts beside it.
ghost use Rattle.std.specs.Prelude.{◌≡◌, ◌^◌, ◌<◌};
ghost use Rattle.interval_pruner.specs.Column.{recorded};
ghost use Rattle.interval_pruner.specs.Pruner.{held_error};
ghost use Rattle.interval_pruner.specs.Promise.{DroppedOf};

use crate::{Bound, Target};

// The left error of a remembered cut and its right one; 0 where none is remembered.
#[tactic(auto, unfolding(crate::specs::Pruner::held_error))]
fn held(table: &[u32], tried: Option<usize>) -> (usize, usize)
    ensures left { result.0 ≡ held_error (λ k. (recorded table.now k).0) tried }
    ensures right { result.1 ≡ held_error (λ k. (recorded table.now k).1) tried }
    ensures fits { (result.0 < 2 ^ 32) × (result.1 < 2 ^ 32) }
{
    match tried {
        None => (0, 0),
        Some(cut) => crate::errors_at(table, cut),
    }
}

// Whether the interval can be dropped for what is known of the cuts beside it. It holds whatever the cuts' places are.
#[tactic(auto, unfolding(crate::specs::Pruner::hopeless, crate::specs::Column::left_error, crate::specs::Column::right_error))]
pub fn subinterval_pruning(table: &[u32], bound: Bound, target: Target) -> bool
    ensures { DroppedOf table.now bound target.gap target.best target.small result }
{
    if target.small {
        let sum = held(table, bound.left).0 + held(table, bound.right).1 + target.gap as usize;
        return target.best as usize <= sum;
    }
    false
}
