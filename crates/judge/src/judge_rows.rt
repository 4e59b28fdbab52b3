// A tree run over the rows of a sheet: what comes to each leaf, and its support.
ghost use Rattle.std.specs.Prelude.{◌≡◌, ◌*◌, ◌<◌, ◌≤◌, not, length, T};
ghost use Rattle.sheet.specs.Lent.{measured_in};
ghost use Rattle.sheet.specs.Limits.{most_rows};
ghost use Rattle.sheet.specs.Rows.{sent_left};
ghost use Rattle.judge.specs.Mistakes.{wrong_sum, judgement_of};
ghost use Rattle.judge.specs.Passing.{JudgeShaped, Few, SeenWithin, Asking, reached_by, passed_of, next_of, wrong_seen};
ghost use Rattle.judge.specs.Judge.{bad_column};

use sheet::lent::Measured;
use tree::{Leaf, Question, Side, Tree};

// What came to a leaf: its mistakes.
#[derive(Clone, Copy, Debug, PartialEq, Eq)]
pub struct Reached {
    pub wrong: u32,
}

// What came to each leaf of a side.
#[derive(Clone, Copy, Debug, PartialEq, Eq)]
pub enum Wrong {
    AtLeaf(Reached),
    AtSplit(Reached, Reached),
}

// The mistakes of a tree, in all and at each leaf, and its support.
#[derive(Clone, Copy, Debug, PartialEq, Eq)]
pub struct Judgement {
    pub mistakes: u32,
    pub left: Wrong,
    pub right: Wrong,
    pub support: u32,
}

// The rows that came to a side so far, and what came to its left and its right leaf. A side that is a leaf has the left one only.
#[derive(Clone, Copy)]
pub struct Seen {
    pub rows: u32,
    pub left: Reached,
    pub right: Reached,
}

// What was seen of the two sides of the first question.
#[derive(Clone, Copy)]
pub struct Passed {
    pub left: Seen,
    pub right: Seen,
}

// A row more comes to a leaf.
#[tactic(auto, unfolding(crate::specs::Passing::reached_by, basics::specs::Choice::bit))]
fn reach(code: usize, leaf: Leaf, reached: Reached) -> Reached
    requires { Few reached most_rows }
    ensures { result ≡ reached_by code leaf reached }
{
    Reached {
        wrong: reached.wrong + u32::from(code != leaf.label),
    }
}

// Whether a row goes left at a question.
#[tactic(auto, unfolding(sheet::specs::Rows::sent_left, sheet::specs::Sheet::value_of))]
fn sent_left(measured: &Measured, question: Question, row: usize) -> bool
    requires { JudgeShaped measured.now × (question.column < measured.now.size.columns) × (row < measured.now.size.rows) }
    ensures { result ≡ sent_left (measured_in measured.now) question row }
{
    let value = measured.values[question.column * measured.size.rows + row];
    threshold::goes_left(value, question.threshold)
}

// A row that came to the side goes on to its leaf.
#[tactic(auto, using(crate::proofs::Passing::asked), unfolding(crate::specs::Passing::next_of, sheet::specs::Sheet::label_of, basics::specs::Choice::pick))]
fn next(measured: &Measured, side: Side, row: usize, seen: Seen) -> Seen
    requires { JudgeShaped measured.now × T (not (bad_column measured.now.size.columns side)) × (row < measured.now.size.rows) × SeenWithin seen row }
    ensures { result ≡ next_of (measured_in measured.now) side row seen }
{
    let code = usize::from(measured.codes[row]);
    let rows = seen.rows + 1;
    match side {
        Side::Leaf(leaf) => Seen {
            rows,
            left: reach(code, leaf, seen.left),
            ..seen
        },
        Side::Split {
            question,
            left,
            right,
        } => {
            if sent_left(measured, question, row) {
                Seen {
                    rows,
                    left: reach(code, left, seen.left),
                    ..seen
                }
            } else {
                Seen {
                    rows,
                    right: reach(code, right, seen.right),
                    ..seen
                }
            }
        }
    }
}

// Every row goes to a side of the first question, and on to a leaf there.
fn pass(measured: &Measured, tree: Tree) -> Passed
    requires { JudgeShaped measured.now × Asking measured.now.size.columns tree }
    ensures { result ≡ passed_of (measured_in measured.now) tree measured.now.size.rows }
{
    let none = Reached { wrong: 0 };
    let mut left = Seen {
        rows: 0,
        left: none,
        right: none,
    };
    let mut right = left;
    for row in 0..measured.size.rows {
        if sent_left(measured, tree.question, row) {
            left = next(measured, tree.left, row, left);
        } else {
            right = next(measured, tree.right, row, right);
        }
    }
    Passed { left, right }
}

#[tactic(auto, unfolding(crate::specs::Passing::wrong_seen))]
fn wrong_of(side: Side, seen: Seen) -> Wrong
    ensures { result ≡ wrong_seen side seen }
{
    match side {
        Side::Leaf(..) => Wrong::AtLeaf(seen.left),
        Side::Split { .. } => Wrong::AtSplit(seen.left, seen.right),
    }
}

#[tactic(auto, unfolding(crate::specs::Mistakes::wrong_sum))]
fn wrong_sum(wrong: Wrong) -> u32
    requires { wrong_sum wrong ≤ 2 * most_rows }
    ensures { result ≡ wrong_sum wrong }
{
    match wrong {
        Wrong::AtLeaf(reached) => reached.wrong,
        Wrong::AtSplit(left, right) => left.wrong + right.wrong,
    }
}

pub(crate) fn judge_rows(measured: &Measured, tree: Tree) -> Judgement
    requires { JudgeShaped measured.now × Asking measured.now.size.columns tree }
    ensures { result ≡ judgement_of (measured_in measured.now) tree }
{
    let passed = pass(measured, tree);
    let left = wrong_of(tree.left, passed.left);
    let right = wrong_of(tree.right, passed.right);
    Judgement {
        mistakes: wrong_sum(left) + wrong_sum(right),
        left,
        right,
        support: passed.left.rows.min(passed.right.rows),
    }
}
