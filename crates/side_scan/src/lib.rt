// One side of a root split as the scan keeps it: its rows, the best question found, and what the next row of a column does to that.
#![tactic(auto)]

mod best_counts;
pub mod cut_score;

ghost use Rattle.std.specs.Prelude.{◌≡◌, ◌≤◌, ◌<◌};
ghost use Rattle.sheet.specs.Limits.{most_labels, most_rows};
ghost use Rattle.side_scan.specs.OneSide.{restarted, quiet, cut_scored, gone_past, only_counted, step_of, side_of};
ghost use Rattle.side_scan.specs.Scored.{fallen};
ghost use Rattle.side_scan.specs.Step.{Cuttable, Ready, Steppable, leaf_scan, SideSized};

use crate::best_counts::{commonest_label, find_peaks};
use crate::cut_score::{Best, Cut, CutOfRows, is_quiet};
use sheet::MOST_LABELS;
use tree::{Leaf, Question, Side};

// The scan of one side. Its own rows: how many of each label, how many in all, how many labels the sheet has, and how many rows each part of a
// split must have. Then the best found, and where the scan of the column at hand stands: rows counted of each label and in all, the rows
// still to skip, whether the side is closed, and the value of the side's previous row, if there was one.
#[derive(Clone, Copy)]
pub struct SideScan {
    pub own: [u16; MOST_LABELS],
    pub size: u32,
    pub labels: usize,
    pub least: u32,
    pub best: Best,
    pub seen: [u16; MOST_LABELS],
    pub counted: u32,
    pub skip: u32,
    pub closed: bool,
    pub previous: Option<f64>,
}

impl SideScan {
    // A side before its first column: a leaf.
    pub fn begin(own: [u16; MOST_LABELS], size: u32, labels: usize, least: u32) -> SideScan
        requires { (1 ≤ labels) × (labels ≤ most_labels) }
        ensures { result ≡ leaf_scan own size labels least }
    {
        let commonest = commonest_label(&own, labels);
        let question = Question {
            column: 0,
            threshold: 0.0,
        };
        let none = Leaf { label: 0, error: 0 };
        SideScan {
            own,
            size,
            labels,
            least,
            best: Best {
                score: commonest.count,
                question,
                left: none,
                right: none,
            },
            seen: [0; MOST_LABELS],
            counted: 0,
            skip: 0,
            closed: false,
            previous: None,
        }
    }

    // A side at the start of a column.
    #[tactic(auto, unfolding(crate::specs::OneSide::restarted))]
    pub fn restart(&mut self)
        ensures { self.new ≡ restarted self.old }
    {
        self.seen = [0; MOST_LABELS];
        self.counted = 0;
        self.skip = 0;
        self.closed = false;
        self.previous = None;
    }

    // The skip at the next row.
    fn fallen(&self) -> u32
        ensures { result ≡ fallen self.now.skip }
    {
        self.skip.saturating_sub(1)
    }

    // One row of the side, the whole record by value. A closed side stays as it is. The counts with the row are made before its cut is scored, so
    // that they are ready when the record is stored.
    fn step(mut self, column: usize, label: usize, value: f64) -> SideScan
        requires { Steppable self label }
        ensures { result ≡ step_of self column label value }
    {
        if self.closed {
            return self;
        }
        let mut raised = self.seen;
        raised[label] += 1;
        self.skip = self.fallen();
        if !is_quiet(self.previous, value, self.skip) {
            self.score_cut(column, value);
        }
        self.seen = raised;
        self.go_past(value);
        self
    }

    // The same in place.
    pub fn advance(&mut self, column: usize, label: usize, value: f64)
        requires { Steppable self.old label }
        ensures { self.new ≡ step_of self.old column label value }
    {
        *self = self.step(column, label, value);
    }

    // From a record to a record, by way of `advance`.
    pub fn advanced(mut self, column: usize, label: usize, value: f64) -> SideScan
        requires { Steppable self label }
        ensures { result ≡ step_of self column label value }
    {
        self.advance(column, label, value);
        self
    }

    // Whether a row of that value is only counted.
    #[tactic(auto, unfolding(crate::specs::OneSide::quiet))]
    pub fn is_only_counting(&self, value: f64) -> bool
        ensures { result ≡ quiet self.now value }
    {
        is_quiet(self.previous, value, self.fallen())
    }

    // Such a row of an open side, counted in its place: the same as `advance`, but no record is copied.
    #[tactic(auto, unfolding(crate::specs::OneSide::count_row, crate::specs::OneSide::only_counted, crate::specs::OneSide::raised))]
    pub fn count(&mut self, label: usize, value: f64)
        requires { Ready self.old label }
        ensures { self.new ≡ only_counted self.old label value }
    {
        self.seen[label] += 1;
        self.skip = self.fallen();
        self.go_past(value);
    }

    // The cut before a row, scored.
    fn score_cut(&mut self, column: usize, value: f64)
        requires { Cuttable self.old }
        ensures { self.new ≡ cut_scored self.old column value }
    {
        // the counts are read beside the record, so that its numbers can stay in registers
        let own = self.own;
        let seen = self.seen;
        let cut = CutOfRows {
            cut: Cut {
                peaks: find_peaks(&own, &seen, self.labels),
                counted: self.counted,
                rest: self.size - self.counted,
            },
        };
        let verdict = cut.judge(self.least, self.best.score, self.skip);
        self.skip = verdict.skip;
        self.closed = verdict.closed;
        if verdict.taken {
            // a cut before the side's first row is never taken, as no row is before it
            let previous = self.previous.unwrap_or(0.0);
            self.best = cut.split(column, previous, value);
        }
    }

    // A row gone past, but for its label and the skip.
    fn go_past(&mut self, value: f64)
        requires { self.old.counted < most_rows }
        ensures { self.new ≡ gone_past self.old value }
    {
        self.counted += 1;
        self.previous = Some(value);
    }

    // The side that the scan ends in.
    pub fn to_side(&self) -> Side
        requires { SideSized self.now }
        ensures { result ≡ side_of self.now }
    {
        let commonest = commonest_label(&self.own, self.labels);
        if self.best.score == commonest.count {
            return Side::Leaf(commonest.leaf(self.size));
        }
        Side::Split {
            question: self.best.question,
            left: self.best.left,
            right: self.best.right,
        }
    }
}
