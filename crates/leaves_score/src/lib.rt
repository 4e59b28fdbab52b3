// The scan of the two sides of a root split: the best single question for each side, in one pass over each column.
#![tactic(auto)]

mod column_scan;
mod two_sides;

ghost use Rattle.std.specs.Prelude.{◌≡◌};
ghost use Rattle.sheet.specs.Lent.{sheet_in};
ghost use Rattle.leaves_score.specs.Scan.{perfect, sides_of};
ghost use Rattle.leaves_score.specs.SideLists.{both_of};
ghost use Rattle.leaves_score.specs.Lists.{Scannable, scan_of, go_left};

use crate::column_scan::scan_column;
use crate::two_sides::{SIDES, part_rows};
use sheet::lent::LentSheet;
use side_scan::SideScan;
use tree::Side;

// The two sides of a root split.
#[derive(Clone, Copy)]
pub struct Sides {
    pub left: Side,
    pub right: Side,
}

#[tactic(auto, unfolding(crate::specs::Scan::perfect))]
fn is_perfect(sides: &[SideScan; SIDES]) -> bool
    ensures { result ≡ perfect (both_of sides.now) }
{
    sides[0].best.score == sides[0].size && sides[1].best.score == sides[1].size
}

// The two sides of the root split that sends the rows with mark 0 left. The search calls it on an accepted sheet only, which is what it asks for. The
// records stay where they are: a function that hands both of them on copies them by `memcpy`, which a C caller's archive would want from outside.
pub fn get_leaves_score(sheet: &LentSheet, support: u32, marks: &[u32]) -> Sides
    requires { Scannable (scan_of (sheet_in sheet.now)) marks.now }
    ensures { result ≡ sides_of (scan_of (sheet_in sheet.now)) support (go_left marks.now) }
{
    let size = sheet.measured.size;
    let parts = part_rows(size.rows, sheet.measured.codes, marks);
    let least = support.max(1);
    let left = SideScan::begin(parts[0].own, parts[0].size, size.labels, least);
    let right = SideScan::begin(parts[1].own, parts[1].size, size.labels, least);
    let mut sides = [left, right];
    for column in 0..size.columns {
        scan_column(&mut sides, sheet, column, marks);
        if is_perfect(&sides) {
            break;
        }
    }
    let left = sides[0].to_side();
    let right = sides[1].to_side();
    Sides { left, right }
}
