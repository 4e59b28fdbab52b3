// What one interval's turn decides (depth2.rs): what steps 1 and 2 leave of the interval, and what a try makes of the standing.
ghost use Rattle.std.specs.Prelude.{◌≡◌, ◌+◌, ◌*◌, ◌≤◌};
ghost use Rattle.sheet.specs.Limits.{most_columns};
ghost use Rattle.column_turns.specs.Promise.{most_tries};
ghost use Rattle.column_turns.specs.Steps.{PrunedBy, reach_of, improved_by, ends_column};

use crate::Words;
use interval_pruner::interval_shrinking::interval_shrinking;
use interval_pruner::subinterval_pruning::subinterval_pruning;
use interval_pruner::{Bound, Reach, Target, Tries, Zeros};
use sheet::Terms;
use tree::Tree;

// The state between two columns: the current error, the cuts tried so far, and the rule held, if one was found.
#[derive(Clone, Copy)]
pub struct Standing {
    pub error: u32,
    pub tried: u32,
    pub held: Option<Tree>,
}

// Steps 1 and 2: what is left of an interval.
#[tactic(auto, unfolding(crate::specs::Steps::pruned_of, basics::specs::Choice::pick))]
pub(crate) fn prune(
    terms: Terms,
    places: &[u16],
    zeros: Zeros,
    bound: Bound,
    error: u32,
    words: &Words,
) -> Option<Bound>
    ensures { PrunedBy terms places.now zeros bound error words.now.table.now result }
{
    let best = error.min(terms.bound);
    let target = Target {
        gap: terms.gap,
        best,
        small: terms.support <= 1,
    };
    let table: &[u32] = words.table;
    if subinterval_pruning(table, bound, target) {
        return None;
    }
    let tries = Tries {
        cuts: places,
        table,
        zeros,
    };
    interval_shrinking(&tries, bound, target)
}

// Steps 3 and 4: one more try; a strictly lower error replaces the tree.
#[tactic(auto, unfolding(crate::specs::Steps::improved_by, basics::specs::Choice::pick))]
pub(crate) fn improved(standing: Standing, tree: Tree) -> Standing
    requires { standing.tried ≤ most_columns * most_tries + most_tries }
    ensures { result ≡ improved_by standing tree }
{
    let tried = standing.tried + 1;
    if tree.error < standing.error {
        return Standing {
            error: tree.error,
            tried,
            held: Some(tree),
        };
    }
    Standing { tried, ..standing }
}

pub(crate) fn ends_column(error: u32, current: u32) -> bool
    ensures { result ≡ ends_column error current }
{
    error < current && error == 0
}

pub(crate) fn reach_of(terms: Terms, error: u32, current: u32) -> Reach
    ensures { result ≡ reach_of terms error current }
{
    Reach {
        gap: terms.gap,
        small: terms.support <= 1,
        excess: error.saturating_sub(current.min(terms.bound)),
    }
}
