// Reason 7 of the input check: the order list has each row of the sheet once in each column.
ghost use Rattle.std.specs.Prelude.{◌≡◌, ℕ, ◌+◌, ◌*◌, ◌<◌, ◌≤◌, not, length, get_or, T};
ghost use Rattle.basics.specs.Walk.{walk, place_among};
ghost use Rattle.sheet.specs.Check.{bad_order, at_index};
ghost use Rattle.sheet.specs.Lent.{sheet_in};
ghost use Rattle.sheet.specs.Ready.{Shaped};
ghost use Rattle.sheet_check.specs.Steps.{Taken, Left, Entering};

use sheet::lent::LentSheet;

// Whether it is a row of the sheet without the column's mark, which it has from then on.
pub(crate) fn take_row(rows: usize, row: usize, mark: u32, marks: &mut [u32]) -> bool
    requires { rows ≤ length marks.old }
    ensures taken { T result → Taken rows row mark marks.old marks.new }
    ensures left { T (not result) → Left rows row mark marks.old marks.new }
{
    if rows <= row || marks[row] == mark {
        return false;
    }
    marks[row] = mark;
    true
}

// The first sorted place of the column whose order entry is not below rows or was met before. A row's word becomes the column's mark as it is met:
// no column before this one has that mark, so nothing is cleared between columns.
fn first_bad_place(sheet: &LentSheet, column: usize, marks: &mut [u32]) -> Option<usize>
    requires { Entering (sheet_in sheet.now) column marks.old }
    ensures place { let rows = sheet.now.measured.size.rows in result ≡ place_among rows (walk (bad_order (sheet_in sheet.now) column) rows 0) }
    ensures marked { (r : ℕ) → get_or marks.new r 0 ≤ column + 1 }
{
    let order = sheet.order;
    let rows = sheet.measured.size.rows;
    let base = column * rows;
    let mark = (column + 1) as u32;
    for place in 0..rows {
        let row = usize::from(order[base + place]);
        if !take_row(rows, row, mark, marks) {
            return Some(place);
        }
    }
    None
}

// The first index of the order list whose entry is not below rows or was met before in its column.
pub(crate) fn first_bad_order(sheet: &LentSheet, marks: &mut [u32]) -> Option<usize>
    requires { Shaped (sheet_in sheet.now) × (length marks.old ≡ sheet.now.measured.size.rows) }
    ensures { let s = sheet_in sheet.now in result ≡ place_among (s.columns * s.rows) (walk (at_index (bad_order s) s.rows) (s.columns * s.rows) 0) }
{
    let size = sheet.measured.size;
    sheet::clear(marks, size.rows);
    for column in 0..size.columns {
        if let Some(place) = first_bad_place(sheet, column, marks) {
            return Some(column * size.rows + place);
        }
    }
    None
}
