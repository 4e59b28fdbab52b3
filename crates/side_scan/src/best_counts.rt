// The best counts of a side's labels: before a cut and from it on, and over all of its rows.
ghost use Rattle.std.specs.Prelude.{◌≡◌, ◌≤◌, ◌≤ℤ◌, pos};
ghost use Rattle.sheet.specs.Limits.{most_labels};
ghost use Rattle.side_scan.specs.Commonest.{no_label, run_on};
ghost use Rattle.side_scan.specs.Counts.{Countable, peaks_of, peak_of, leaf_by};

use sheet::MOST_LABELS;
use tree::Leaf;

// A label, and how many rows it has.
#[derive(Clone, Copy)]
pub(crate) struct Peak {
    pub label: usize,
    pub count: u32,
}

impl Peak {
    // A leaf of that label on that many rows.
    pub(crate) fn leaf(self, rows: u32) -> Leaf
        requires { self.count ≤ rows }
        ensures { result ≡ leaf_by self rows }
    {
        Leaf {
            label: self.label,
            error: rows - self.count,
        }
    }
}

// The best counts of the labels before a cut and from it on.
#[derive(Clone, Copy)]
pub(crate) struct Peaks {
    pub before: Peak,
    pub after: Peak,
}

// A running maximum over the labels' counts: the greatest so far, and the first label that has it.
#[derive(Clone, Copy)]
pub(crate) struct Run {
    pub score: i32,
    pub label: usize,
}

// It begins below every count, so that the first label is taken even where it has no rows.
const NO_LABEL: Run = Run {
    score: -1,
    label: 0,
};

impl Run {
    fn and(self, label: usize, count: u16) -> Run
        ensures { result ≡ run_on self label count }
    {
        let score = i32::from(count);
        if score > self.score {
            Run { score, label }
        } else {
            self
        }
    }

    fn peak(self) -> Peak
        requires { pos 0 ≤ℤ self.score }
        ensures same_label { result.label ≡ self.label }
        ensures same_count { pos result.count ≡ self.score }
    {
        Peak {
            label: self.label,
            count: self.score as u32,
        }
    }
}

pub(crate) fn find_peaks(
    own: &[u16; MOST_LABELS],
    seen: &[u16; MOST_LABELS],
    labels: usize,
) -> Peaks
    requires { Countable own.now seen.now labels }
    ensures { result ≡ peaks_of own.now seen.now labels }
{
    let mut before = NO_LABEL;
    let mut after = NO_LABEL;
    for label in 0..labels {
        before = before.and(label, seen[label]);
        after = after.and(label, own[label] - seen[label]);
    }
    Peaks {
        before: before.peak(),
        after: after.peak(),
    }
}

// The commonest label of a side, and how many rows it has. Before a row is counted all are to come.
pub(crate) fn commonest_label(own: &[u16; MOST_LABELS], labels: usize) -> Peak
    requires { (1 ≤ labels) × (labels ≤ most_labels) }
    ensures { result ≡ peak_of own.now labels }
{
    find_peaks(own, &[0; MOST_LABELS], labels).after
}
