// One cut tried as the first question: its threshold, the rows' marks, and the best of each side below it.
ghost use Rattle.std.specs.Prelude.{◌≡◌, ◌+◌, ◌*◌, ◌≤◌, ◌<◌, ltb, length, get_or};
ghost use Rattle.basics.specs.Choice.{pick};
ghost use Rattle.sheet.specs.Lent.{sheet_in};
ghost use Rattle.sheet.specs.Limits.{most_rows};
ghost use Rattle.tree.specs.Answer.{side_error};
ghost use Rattle.leaves_score.specs.Root.{cut_question};
ghost use Rattle.column_turns.specs.Ready.{Marking, MarkedTo, MarkingCut, CutMarked, place_before, TryingCut, Trying, CutTried};

use sheet::Size;
use sheet::lent::LentSheet;
use tree::{Question, Side, Tree};

// 0 for a place before the cut's, else 1.
#[tactic(auto, unfolding(basics::specs::Choice::pick))]
fn side_mark(i: usize, place: usize) -> u32
    ensures { result ≡ pick (ltb i place) 0 1 }
{
    if i < place { 0 } else { 1 }
}

// Every row is marked with the side that it goes to: the rows placed before the cut go left.
fn mark_sides(size: Size, order: &[u16], column: usize, place: usize, marks: &mut [u32])
    requires { Marking size order.now column marks.old }
    ensures marks_len { length marks.new ≡ length marks.old }
    ensures marked { MarkedTo size order.now column place marks.new size.rows }
{
    let base = column * size.rows;
    for i in 0..size.rows {
        let row = usize::from(order[base + i]);
        marks[row] = side_mark(i, place);
    }
}

// Where the lower value of a cut's threshold stands.
#[tactic(auto, using(crate::proofs::Try::before_next, crate::proofs::Try::before_first))]
fn preceding_place(cuts: &[u16], base: usize, cut: usize) -> usize
    requires { base + cut < length cuts.now }
    ensures { result ≡ place_before cuts.now base cut }
{
    if cut == 0 {
        return 0;
    }
    usize::from(cuts[base + cut - 1])
}

// A cut as the first question.
#[tactic(auto, using(crate::proofs::Try::read_place, crate::proofs::Try::before_placed, crate::proofs::Try::threshold_is), unfolding(sheet::specs::Sheet::value_listed, leaves_score::specs::Root::cut_question))]
fn root_question(sheet: &LentSheet, column: usize, cut: usize) -> Question
    requires { TryingCut sheet.now column cut }
    ensures { result ≡ cut_question (sheet_in sheet.now) column cut }
{
    let values = sheet.measured.values;
    let base = column * sheet.measured.size.rows;
    let from = preceding_place(sheet.cuts, base, cut);
    let place = usize::from(sheet.cuts[base + cut]);
    let lower = sheet::value_at(values, sheet.order, base, from);
    let upper = sheet::value_at(values, sheet.order, base, place);
    let threshold = threshold::threshold_between(lower, upper);
    Question { column, threshold }
}

// A side's error; a side has no more rows than the sheet.
pub(crate) fn side_error(side: Side) -> u32
    requires { side_error side ≤ most_rows }
    ensures { result ≡ side_error side }
{
    match side {
        Side::Leaf(leaf) => leaf.error,
        Side::Split {
            question: _,
            left,
            right,
        } => left.error + right.error,
    }
}

// The rows' marks at a cut.
fn mark_cut(sheet: &LentSheet, column: usize, cut: usize, marks: &mut [u32])
    requires { MarkingCut sheet.now column cut marks.old }
    ensures { CutMarked sheet.now column cut marks.old marks.new }
{
    let size = sheet.measured.size;
    let place = usize::from(sheet.cuts[column * size.rows + cut]);
    mark_sides(size, sheet.order, column, place, marks);
}

// One cut as the first question: the tree that it makes.
pub(crate) fn try_cut(
    sheet: &LentSheet,
    support: u32,
    column: usize,
    cut: usize,
    marks: &mut [u32],
) -> Tree
    requires { Trying (sheet_in sheet.now) column cut marks.old }
    ensures { CutTried (sheet_in sheet.now) support column cut marks.old result marks.new }
{
    let question = root_question(sheet, column, cut);
    mark_cut(sheet, column, cut, marks);
    let sides = leaves_score::get_leaves_score(sheet, support, marks);
    let left = sides.left;
    let right = sides.right;
    let error = side_error(left) + side_error(right);
    Tree {
        question,
        left,
        right,
        error,
    }
}
