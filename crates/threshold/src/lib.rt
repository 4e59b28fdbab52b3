// The threshold between two neighbouring values of a column, which way a value goes at it, and which values a sheet may hold.
#![tactic(auto)]

pub mod order;
pub mod parting;

ghost use Rattle.std.specs.Prelude.{◌≡◌};
ghost use Rattle.threshold.specs.Threshold.{threshold_of, goes_left, within};

// The largest magnitude of a value.
const LARGEST: f64 = 1_000_000_000_000.0;

const LOWEST: f64 = -1_000_000_000_000.0;

// Half of the rounded sum; where that rounds up to the upper value, which would then go left, the lower value.
pub fn threshold_between(lower: f64, upper: f64) -> f64
    ensures { result ≡ threshold_of lower upper }
{
    let midpoint = (lower + upper) / 2.0;
    if midpoint < upper { midpoint } else { lower }
}

// A NaN goes right, as in the original; no sheet holds one.
#[tactic(auto, unfolding(crate::specs::Threshold::goes_left))]
pub fn goes_left(value: f64, threshold: f64) -> bool
    ensures { result ≡ goes_left value threshold }
{
    value <= threshold
}

// Neither a NaN nor an infinity passes: each fails one of the two comparisons.
pub fn in_range(value: f64) -> bool
    ensures { result ≡ within value }
{
    LOWEST <= value && value <= LARGEST
}
