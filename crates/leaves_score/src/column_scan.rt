// A column of the two sides of a root split: its rows in sorted order, each advancing its own side, until no row to come could change either.
ghost use Rattle.std.specs.Prelude.{◌≡◌, false, ◌&&◌, ◌||◌, ◌≤◌, ◌<◌};
ghost use Rattle.sheet.specs.Lent.{sheet_in};
ghost use Rattle.side_scan.specs.OneSide.{step_of};
ghost use Rattle.side_scan.specs.Step.{Ready};
ghost use Rattle.leaves_score.specs.Column.{idle, ended, scan_column};
ghost use Rattle.leaves_score.specs.SideLists.{ReadyColumn, side_at, both_of, Within};
ghost use Rattle.leaves_score.specs.Lists.{scan_of, go_left};

use crate::two_sides::SIDES;
use sheet::lent::{LentSheet, Measured};
use side_scan::SideScan;

// Whether a side's skip is at least its rows not yet counted.
#[tactic(auto, unfolding(crate::specs::Column::idle))]
fn is_idle(side: &SideScan) -> bool
    requires { side.now.counted ≤ side.now.size }
    ensures { result ≡ idle side.now }
{
    side.size - side.counted <= side.skip
}

// Whether no row to come could change a side: it is closed, or idle.
fn is_still(side: &SideScan) -> bool
    requires { side.now.counted ≤ side.now.size }
    ensures { result ≡ (side.now.closed || idle side.now) }
{
    side.closed || is_idle(side)
}

// Whether the column ends early: both sides are closed, or each side's skip is at least its rows not yet counted.
#[tactic(auto, unfolding(crate::specs::Column::ended))]
fn is_ended(left: &SideScan, right: &SideScan) -> bool
    requires { (left.now.counted ≤ left.now.size) × (right.now.counted ≤ right.now.size) }
    ensures { result ≡ ended (record { left = left.now; right = right.now }) }
{
    left.closed && right.closed || is_idle(left) && is_idle(right)
}

// The same after a row of the side `own`, which is asked first: mostly it is open and its skip short, and then no number of the other is read.
fn is_over(sides: &[SideScan; SIDES], own: usize) -> bool
    requires own_in { own < SIDES }
    requires within { Within sides.now }
    ensures { result ≡ (((side_at sides.now own).closed || idle (side_at sides.now own)) && ended (both_of sides.now)) }
{
    is_still(&sides[own]) && is_ended(&sides[0], &sides[1])
}

// One row of an open side. One that is only counted is counted in its place, and only a row whose cut is scored takes the record by value.
fn take_row(side: &mut SideScan, column: usize, label: usize, value: f64)
    requires ready { Ready side.old label }
    requires open { side.old.closed ≡ false }
    ensures { side.new ≡ step_of side.old column label value }
{
    if side.is_only_counting(value) {
        side.count(label, value);
    } else {
        *side = side.advanced(column, label, value);
    }
}

// A column. The sides lie by their numbers, so that no row waits for the guess of its side.
pub(crate) fn scan_column(
    sides: &mut [SideScan; SIDES],
    sheet: &LentSheet,
    column: usize,
    marks: &[u32],
)
    requires { ReadyColumn (scan_of (sheet_in sheet.now)) marks.now column (both_of sides.old) }
    ensures { both_of sides.new ≡ scan_column (scan_of (sheet_in sheet.now)) (go_left marks.now) column (both_of sides.old) }
{
    sides[0].restart();
    sides[1].restart();
    let Measured {
        size,
        values,
        codes,
    } = sheet.measured;
    let order = sheet.order;
    let base = column * size.rows;
    for i in 0..size.rows {
        let row = usize::from(order[base + i]);
        let side = marks[row] as usize;
        if !sides[side].closed {
            let label = usize::from(codes[row]);
            take_row(&mut sides[side], column, label, values[base + row]);
            if is_over(sides, side) {
                break;
            }
        }
    }
}
