// The judge: the reasons against a sheet and a tree, and then the tree run over the rows.
#![tactic(auto)]

pub mod judge_rows;

ghost use Rattle.std.specs.Prelude.{◌≡◌, ◌≤◌, not};
ghost use Rattle.std.specs.Float.Ieee.Scale.{finite};
ghost use Rattle.basics.specs.Walk.{walk, place_among};
ghost use Rattle.sheet.specs.Lent.{measured_in};
ghost use Rattle.sheet.specs.Limits.{most_rows, most_columns};
ghost use Rattle.judge.specs.Passing.{JudgeShaped};
ghost use Rattle.judge.specs.Reasons.{places};
ghost use Rattle.judge.specs.Judge.{judged_holds, bad_leaf, bad_threshold, bad_at, tree_checked, judge_of, bad_column};

use crate::judge_rows::Judgement;
use sheet::lent::Measured;
use sheet::refusals::{Reason, Refusal};
use tree::{Question, Side, Tree};

// Whether a question's threshold is an infinity or a NaN.
#[tactic(auto, using(crate::proofs::Finite::finite_same))]
fn is_endless(question: Question) -> bool
    ensures { result ≡ not (finite question.threshold) }
{
    !question.threshold.is_finite()
}

#[tactic(auto, unfolding(crate::specs::Judge::bad_column))]
fn bad_column(columns: usize, side: Side) -> bool
    ensures { result ≡ bad_column columns side }
{
    match side {
        Side::Leaf(..) => false,
        Side::Split { question, .. } => columns <= question.column,
    }
}

#[tactic(auto, unfolding(crate::specs::Judge::bad_leaf))]
fn bad_leaf(labels: usize, side: Side) -> bool
    ensures { result ≡ bad_leaf labels side }
{
    match side {
        Side::Leaf(leaf) => labels <= leaf.label,
        Side::Split { left, right, .. } => labels <= left.label || labels <= right.label,
    }
}

#[tactic(auto, unfolding(crate::specs::Judge::bad_threshold))]
fn bad_threshold(side: Side) -> bool
    ensures { result ≡ bad_threshold side }
{
    match side {
        Side::Leaf(..) => false,
        Side::Split { question, .. } => is_endless(question),
    }
}

// The first of the places 0 root, 1 left and 2 right at which a test fails the tree.
#[tactic(auto, unfolding(crate::specs::Judge::bad_at, basics::specs::Walk::walk, basics::specs::Choice::pick))]
fn first_place(root: bool, left: bool, right: bool) -> Option<usize>
    ensures { result ≡ place_among places (walk (bad_at root left right) places 0) }
{
    [root, left, right].iter().position(|bad| *bad)
}

// Reasons 10, 11 and 12, and then the judgement.
#[tactic(auto, unfolding(crate::specs::Judge::tree_checked, crate::specs::Judge::back_first, crate::specs::Judge::back, basics::specs::Choice::pick))]
fn judge_tree(measured: &Measured, tree: Tree) -> Result<Judgement, Refusal>
    requires { JudgeShaped measured.now }
    ensures { result ≡ tree_checked (measured_in measured.now) tree }
{
    let columns = measured.size.columns;
    let column = first_place(
        columns <= tree.question.column,
        bad_column(columns, tree.left),
        bad_column(columns, tree.right),
    );
    if let Some(place) = column {
        return Err(Reason::ColumnHigh.at(place));
    }
    // The root has no leaf of its own.
    let labels = measured.size.labels;
    let label = first_place(
        false,
        bad_leaf(labels, tree.left),
        bad_leaf(labels, tree.right),
    );
    if let Some(place) = label {
        return Err(Reason::LeafHigh.at(place));
    }
    let threshold = first_place(
        is_endless(tree.question),
        bad_threshold(tree.left),
        bad_threshold(tree.right),
    );
    if let Some(place) = threshold {
        return Err(Reason::ThresholdEndless.at(place));
    }
    Ok(judge_rows::judge_rows(measured, tree))
}

// Whether the values have an entry for each cell and the labels one for each row.
#[tactic(auto, unfolding(crate::specs::Judge::judged_holds))]
fn lengths_hold(measured: &Measured) -> bool
    requires { (measured.now.size.rows ≤ most_rows) × (measured.now.size.columns ≤ most_columns) }
    ensures { result ≡ judged_holds (measured_in measured.now) }
{
    let size = measured.size;
    measured.values.len() == size.columns * size.rows && measured.codes.len() == size.rows
}

// The lowest reason that holds, and its first place; else the tree's mistakes and its support.
#[tactic(auto, unfolding(crate::specs::Judge::judge_of, crate::specs::Judge::back_first, crate::specs::Judge::back, basics::specs::Choice::pick))]
pub fn judge(measured: &Measured, tree: Tree) -> Result<Judgement, Refusal>
    ensures { result ≡ judge_of (measured_in measured.now) tree }
{
    if !sheet::size_holds(measured.size) {
        return Err(Reason::SizeOutside.whole());
    }
    if !lengths_hold(measured) {
        return Err(Reason::LengthWrong.whole());
    }
    if let Some(index) = sheet::first_bad_value(measured.values) {
        return Err(Reason::ValueOutside.at(index));
    }
    if let Some(row) = sheet::first_bad_label(measured.codes, measured.size.labels) {
        return Err(Reason::LabelHigh.at(row));
    }
    judge_tree(measured, tree)
}
