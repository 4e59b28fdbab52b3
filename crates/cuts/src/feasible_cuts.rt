// The feasible cuts of one column, by two lookups in its list.
ghost use Rattle.cuts.specs.Feasible.{FeasibleRun};

use crate::Run;

// The cuts that leave at least `support` rows, and at least one, on each side.
#[tactic(auto, using(crate::proofs::Feasible::run_none, crate::proofs::Feasible::run_some))]
pub fn support_feasible_splits(cuts: &[u16], rows: usize, support: usize) -> Run
    ensures { FeasibleRun cuts.now rows support result }
{
    let least = support.max(1);
    // Half of the rows is compared, since twice the support might not fit.
    if rows / 2 < least {
        return Run { first: 0, end: 0 };
    }
    let short = least - 1;
    let most = rows - least;
    let count = cuts.len();
    let first = crate::first_above(cuts, 0, count, short);
    let end = crate::first_above(cuts, 0, count, most).max(first);
    Run { first, end }
}
