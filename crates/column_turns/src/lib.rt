// The search of one column, turn by turn (depth2.rs): the first interval that waits is pruned, its middle cut tried, and what is left of it waits in parts.
#![tactic(auto)]

pub mod cut_try;
pub mod interval_steps;

ghost use Rattle.std.specs.Prelude.{◌≡◌, ◌≤◌, ◌<◌, length};
ghost use Rattle.sheet.specs.Limits.{most_rows};
ghost use Rattle.sheet.specs.Sheet.{places_of};
ghost use Rattle.sheet.specs.Lent.{sheet_in};
ghost use Rattle.interval_queue.specs.Ring.{slots_of, taken};
ghost use Rattle.column_search.specs.Search.{part, upper_part, lower_part};
ghost use Rattle.column_turns.specs.Promise.{Searching, ColumnSearched, standing_after_column};
ghost use Rattle.column_turns.specs.Ready.{SameWords, Trying, PlacedIn};
ghost use Rattle.column_turns.specs.Parts.{PartsWaiting, Pushing, Queued, QueuedAfter, parted};
ghost use Rattle.column_turns.specs.Course.{Attempted, Attempting, IntervalTried, Turning, Turned, Opened, Starting, SearchingIn, CutsSearched};

use crate::cut_try::{side_error, try_cut};
use crate::interval_steps::{Standing, ends_column, improved, prune, reach_of};
use cuts::Run;
use cuts::feasible_cuts::support_feasible_splits;
use interval_pruner::neighbourhood_pruning::neighbourhood_pruning;
use interval_pruner::{Bound, Reach, Zeros};
use interval_queue::{Popped, Queue};
use sheet::Terms;
use sheet::lent::LentSheet;
use tree::Tree;

// The lent words in words a row: first the errors of the cuts tried, two a cut, then the ring of intervals, four a slot, then a side mark.
const TABLE_WORDS: usize = 2;

const RING_WORDS: usize = 4;

// The lent words of a column's search: the errors of the cuts tried, the ring of intervals, and the rows' side marks.
#[derive(Drop)]
pub(crate) struct Words<'a> {
    pub(crate) table: &'a mut [u32],
    pub(crate) ring: &'a mut [u32],
    pub(crate) marks: &'a mut [u32],
}

// The first interval that waits.
fn next_interval(words: &Words, queue: Queue) -> Option<Popped>
    ensures { result ≡ taken words.now.ring.now queue }
{
    interval_queue::pop(words.ring, queue)
}

// A part is queued if it is not empty.
#[tactic(auto, using(crate::proofs::Queueing::part_pushed, crate::proofs::Queueing::none_queued, crate::proofs::Queueing::part_none))]
fn queue_part(words: &mut Words, queue: Queue, bound: Bound) -> Queue
    requires { Pushing words.old queue bound }
    ensures { Queued words.old words.new queue result (part bound) }
{
    if bound.first <= bound.last {
        return interval_queue::push(words.ring, queue, bound);
    }
    queue
}

// The part of an interval above a tried cut.
fn upper_part(bound: Bound, cut: usize, first: usize) -> Bound
    ensures { result ≡ upper_part bound cut first }
{
    Bound {
        first,
        left: Some(cut),
        ..bound
    }
}

// The part below it.
fn lower_part(bound: Bound, cut: usize, last: usize) -> Bound
    ensures { result ≡ lower_part bound cut last }
{
    Bound {
        last,
        right: Some(cut),
        ..bound
    }
}

// An interval to be parted round its tried cut: the zero marks after the try, and what step 5 takes from it.
#[derive(Clone, Copy)]
struct Parting {
    bound: Bound,
    cut: usize,
    zeros: Zeros,
    reach: Reach,
}

// Step 5: the upper part, then the lower.
fn queue_parts(words: &mut Words, places: &[u16], parting: Parting, queue: Queue) -> Queue
    requires { PartsWaiting places.now parting queue words.old }
    ensures { Queued words.old words.new queue result (parted places.now parting) }
{
    let Parting {
        bound,
        cut,
        zeros,
        reach,
    } = parting;
    if bound.first == bound.last {
        return queue;
    }
    let parts = neighbourhood_pruning(places, zeros, reach, bound.first, cut);
    let upper = upper_part(bound, cut, parts.upper);
    let lower = lower_part(bound, cut, parts.lower);
    let more = queue_part(words, queue, upper);
    queue_part(words, more, lower)
}

// What waits after a try: nothing if the column is over, else the parts of its interval too.
#[tactic(auto, unfolding(basics::specs::Choice::pick))]
fn next_queue(
    words: &mut Words,
    places: &[u16],
    parting: Parting,
    over: bool,
    queue: Queue,
) -> Queue
    requires { PartsWaiting places.now parting queue words.old }
    ensures { QueuedAfter places.now parting over queue words.old result words.new }
{
    if over {
        return Queue {
            waiting: 0,
            ..queue
        };
    }
    queue_parts(words, places, parting, queue)
}

// ---- one interval

// The places of a column's cuts.
#[tactic(auto, using(crate::proofs::Places::places_part))]
fn places_of<'a>(sheet: &LentSheet<'a>, column: usize) -> &'a [u16]
    requires { PlacedIn sheet.now column }
    ensures { result.now ≡ places_of (sheet_in sheet.now) column }
{
    let base = column * sheet.measured.size.rows;
    let end = base + usize::from(sheet.counts[column]);
    &sheet.cuts[base..end]
}

// The state between two intervals of a column.
#[derive(Clone, Copy)]
pub struct Course {
    pub standing: Standing,
    pub zeros: Zeros,
    pub queue: Queue,
}

// A try, and the zero marks after it.
#[derive(Clone, Copy)]
struct Attempt {
    tree: Tree,
    zeros: Zeros,
}

// Step 3: a cut is tried, and its errors are kept.
fn try_and_keep(
    sheet: &LentSheet,
    support: u32,
    column: usize,
    cut: usize,
    zeros: Zeros,
    words: &mut Words,
) -> Attempt
    requires { Trying (sheet_in sheet.now) column cut words.old.marks.now }
    ensures { Attempted (sheet_in sheet.now) support column cut zeros words.old words.new result }
{
    let tree = try_cut(sheet, support, column, cut, words.marks);
    let left = side_error(tree.left);
    let right = side_error(tree.right);
    let zeros = interval_pruner::add_result(words.table, zeros, cut, left, right);
    Attempt { tree, zeros }
}

// Steps 3 to 5 of an interval.
fn try_interval(
    sheet: &LentSheet,
    terms: Terms,
    column: usize,
    course: Course,
    bound: Bound,
    words: &mut Words,
) -> Course
    requires { Attempting (sheet_in sheet.now) terms column words.old course bound }
    ensures { IntervalTried (sheet_in sheet.now) terms column course bound words.old result words.new }
{
    let cut = (bound.first + bound.last) / 2;
    let tried = try_and_keep(sheet, terms.support, column, cut, course.zeros, words);
    let tree = tried.tree;
    let zeros = tried.zeros;
    let standing = improved(course.standing, tree);
    let over = ends_column(tree.error, course.standing.error);
    let reach = reach_of(terms, tree.error, standing.error);
    let places = places_of(sheet, column);
    let parting = Parting {
        bound,
        cut,
        zeros,
        reach,
    };
    let queue = next_queue(words, places, parting, over, course.queue);
    Course {
        standing,
        zeros,
        queue,
    }
}

// One interval, the first that waited: steps 1 to 5.
fn turn(
    sheet: &LentSheet,
    terms: Terms,
    column: usize,
    course: Course,
    first: Popped,
    words: &mut Words,
) -> Course
    requires { Turning (sheet_in sheet.now) terms column words.old course first }
    ensures { Turned (sheet_in sheet.now) terms column course words.old result words.new }
{
    let others = Course {
        queue: first.queue,
        ..course
    };
    let error = course.standing.error;
    let places = places_of(sheet, column);
    let pruned = prune(terms, places, course.zeros, first.bound, error, words);
    let Some(left) = pruned else {
        return others;
    };
    try_interval(sheet, terms, column, others, left, words)
}

// ---- a column

// One interval waits, the feasible cuts.
fn begin_column(words: &mut Words, first: usize, last: usize, standing: Standing) -> Course
    requires { (1 ≤ slots_of words.old.ring.now) × (first ≤ last) × (last < most_rows) }
    ensures opened { Opened words.new first last standing result }
    ensures lent { SameWords words.old words.new }
{
    let all = Bound {
        first,
        last,
        left: None,
        right: None,
    };
    let queue = queue_part(words, Queue::default(), all);
    Course {
        standing,
        zeros: Zeros::default(),
        queue,
    }
}

// Turn by turn, from the one interval of the feasible cuts, until nothing waits.
fn search_cuts(
    sheet: &LentSheet,
    terms: Terms,
    column: usize,
    run: Run,
    standing: Standing,
    words: &mut Words,
) -> Standing
    requires { Starting (sheet_in sheet.now) terms column run standing words.old }
    ensures { CutsSearched (sheet_in sheet.now) terms column standing words.old result words.new }
{
    let mut course = begin_column(words, run.first, run.end - 1, standing);
    while let Some(first) = next_interval(words, course.queue) {
        course = turn(sheet, terms, column, course, first, words);
    }
    course.standing
}

// One column's search in the three parts of its words, if it has a feasible cut.
fn search_in(
    sheet: &LentSheet,
    terms: Terms,
    column: usize,
    standing: Standing,
    table: &mut [u32],
    ring: &mut [u32],
    marks: &mut [u32],
) -> Standing
    requires { SearchingIn (sheet_in sheet.now) column standing table.old ring.old marks.old }
    ensures standing_is { result ≡ standing_after_column (sheet_in sheet.now) terms column standing }
    ensures table_size { length table.new ≡ length table.old }
    ensures ring_size { length ring.new ≡ length ring.old }
    ensures marks_size { length marks.new ≡ length marks.old }
{
    let rows = sheet.measured.size.rows;
    let run = support_feasible_splits(places_of(sheet, column), rows, terms.support as usize);
    if run.end <= run.first {
        return standing;
    }
    let mut words = Words { table, ring, marks };
    search_cuts(sheet, terms, column, run, standing, &mut words)
}

// One column's search.
pub fn search_column(
    sheet: &LentSheet,
    terms: Terms,
    column: usize,
    standing: Standing,
    scratch: &mut [u32],
) -> Standing
    requires { Searching (sheet_in sheet.now) column standing scratch.old }
    ensures { ColumnSearched (sheet_in sheet.now) terms column standing scratch.old result scratch.new }
{
    let rows = sheet.measured.size.rows;
    let (table, others) = scratch.split_at_mut(TABLE_WORDS * rows);
    let (ring, others) = others.split_at_mut(RING_WORDS * rows);
    let (marks, _) = others.split_at_mut(rows);
    search_in(sheet, terms, column, standing, table, ring, marks)
}
