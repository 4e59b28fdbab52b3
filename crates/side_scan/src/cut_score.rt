// One cut of a side scored, by numbers: which rows are only counted, what the cut comes to, and the split that it makes.
ghost use Rattle.std.specs.Prelude.{◌≡◌, ◌≤◌};
ghost use Rattle.sheet.specs.Limits.{most_rows};
ghost use Rattle.side_scan.specs.Scored.{repeated, quiet_by, total_by, taken_by, closed_by, verdict_of, split_by};

use crate::best_counts::Peaks;
use tree::{Leaf, Question};

// The best that a side has found: the rows that it gets right, and the split that does. Before a split is taken only the score is read.
#[derive(Clone, Copy)]
pub struct Best {
    pub score: u32,
    pub question: Question,
    pub left: Leaf,
    pub right: Leaf,
}

// What a scored cut comes to: whether its split is taken, its total, the new skip, and whether the side closes.
#[derive(Clone, Copy)]
pub(crate) struct CutVerdict {
    pub taken: bool,
    pub total: u32,
    pub skip: u32,
    pub closed: bool,
}

// A side's first row has no previous value.
fn is_same(previous: Option<f64>, value: f64) -> bool
    ensures { result ≡ repeated previous value }
{
    previous.is_some_and(|before| before == value)
}

// So the cut before a side's first row is scored.
pub(crate) fn is_quiet(previous: Option<f64>, value: f64, skip: u32) -> bool
    ensures { result ≡ quiet_by previous value skip }
{
    is_same(previous, value) || 0 < skip
}

// The cut before a row: the best counts about it, how many rows are before it, and how many from it on.
#[derive(Clone, Copy)]
pub(crate) struct Cut {
    pub peaks: Peaks,
    pub counted: u32,
    pub rest: u32,
}

impl Cut {
    fn is_closing(self, skip: u32) -> bool
        ensures { result ≡ closed_by self skip }
    {
        self.peaks.after.count == self.rest || self.rest <= skip
    }
}

// A cut of a side's rows: no label has more rows than its part, so that a leaf's error is a number, and the total fits.
#[derive(Clone, Copy)]
pub(crate) struct CutOfRows {
    pub cut: Cut,
    ghost some_before: { cut.peaks.before.count ≤ cut.counted },
    ghost some_after: { cut.peaks.after.count ≤ cut.rest },
    ghost few: { total_by cut ≤ most_rows },
}

impl CutOfRows {
    fn total(self) -> u32
        ensures { result ≡ total_by self.cut }
    {
        self.cut.peaks.before.count + self.cut.peaks.after.count
    }

    fn is_taken(self, least: u32, score: u32) -> bool
        ensures { result ≡ taken_by self.cut least score }
    {
        least <= self.cut.counted && least <= self.cut.rest && score < self.total()
    }

    // By numbers alone; `skip` has fallen already.
    pub(crate) fn judge(self, least: u32, score: u32, skip: u32) -> CutVerdict
        ensures { result ≡ verdict_of self.cut least score skip }
    {
        let total = self.total();
        let taken = self.is_taken(least, score);
        let next = if taken {
            skip
        } else {
            score.saturating_sub(total)
        };
        CutVerdict {
            taken,
            total,
            skip: next,
            closed: self.cut.is_closing(next),
        }
    }

    // Its split.
    #[tactic(auto, unfolding(crate::specs::Scored::split_by))]
    pub(crate) fn split(self, column: usize, previous: f64, value: f64) -> Best
        ensures { result ≡ split_by self.cut column previous value }
    {
        let threshold = threshold::threshold_between(previous, value);
        let left = self.cut.peaks.before.leaf(self.cut.counted);
        let right = self.cut.peaks.after.leaf(self.cut.rest);
        Best {
            score: self.total(),
            question: Question { column, threshold },
            left,
            right,
        }
    }
}
