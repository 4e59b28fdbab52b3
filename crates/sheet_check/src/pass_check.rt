// One pass over each column, which shows of a good sheet that it gives none of reasons 5 to 9. Of any other it does not tell the reason.
ghost use Rattle.std.specs.Prelude.{◌≡◌, ℕ, ◌+◌, ◌<◌, ◌≤◌, length, get_or, T};
ghost use Rattle.sheet.specs.Check.{content_of};
ghost use Rattle.sheet.specs.Lent.{sheet_in};
ghost use Rattle.sheet.specs.Ready.{Shaped, Listed};
ghost use Rattle.sheet_check.specs.Steps.{Entering, Passed, ends_hold};

use crate::order_check::take_row;
use sheet::lent::{LentSheet, Measured};

// Whether the column's order list has each row once, the values ascend along it, and the cuts are the places where they rise. What the cut list holds past
// the count is not asked on the way: were a rise found there, there would be more of them than the count in the end. A NaN neither rises nor is equal.
fn column_passes(sheet: &LentSheet, column: usize, marks: &mut [u32]) -> bool
    requires { Entering (sheet_in sheet.now) column marks.old }
    ensures { T result → Passed (sheet_in sheet.now) column × ((r : ℕ) → get_or marks.new r 0 ≤ column + 1) }
{
    let LentSheet {
        measured: Measured { size, values, .. },
        order,
        cuts,
        counts,
    } = *sheet;
    let base = column * size.rows;
    let mark = (column + 1) as u32;
    let first = usize::from(order[base]);
    if !take_row(size.rows, first, mark, marks) {
        return false;
    }
    let mut last = values[base + first];
    let mut found: usize = 0;
    for place in 1..size.rows {
        let row = usize::from(order[base + place]);
        if !take_row(size.rows, row, mark, marks) {
            return false;
        }
        let value = values[base + row];
        if last < value {
            if usize::from(cuts[base + found]) != place {
                return false;
            }
            found += 1;
        } else if value != last {
            return false;
        }
        last = value;
    }
    found == usize::from(counts[column])
}

// Whether the column's lowest and highest value, which stand first and last in its order list, are in range.
fn ends_hold(sheet: &LentSheet, column: usize) -> bool
    requires { Listed (sheet_in sheet.now) column }
    ensures { result ≡ ends_hold (sheet_in sheet.now) column }
{
    let Measured { size, values, .. } = sheet.measured;
    let base = column * size.rows;
    let first = sheet::value_at(values, sheet.order, base, 0);
    let last = sheet::value_at(values, sheet.order, base, size.rows - 1);
    threshold::in_range(first) && threshold::in_range(last)
}

// Whether none of reasons 5 to 9 is given. Values that ascend lie between the first and the last, so these two alone are looked at for reason 5.
pub(crate) fn lists_pass(sheet: &LentSheet, marks: &mut [u32]) -> bool
    requires { Shaped (sheet_in sheet.now) × (length marks.old ≡ sheet.now.measured.size.rows) }
    ensures { T result → content_of (sheet_in sheet.now) ≡ Ok tt }
{
    let size = sheet.measured.size;
    if sheet::first_bad_label(sheet.measured.codes, size.labels).is_some() {
        return false;
    }
    sheet::clear(marks, size.rows);
    for column in 0..size.columns {
        if !column_passes(sheet, column, marks) || !ends_hold(sheet, column) {
            return false;
        }
    }
    true
}
