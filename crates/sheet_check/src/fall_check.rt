// Reason 8 of the input check: along the order list the values of a column ascend.
ghost use Rattle.std.specs.Prelude.{◌≡◌, ◌*◌};
ghost use Rattle.basics.specs.Walk.{walk, place_among};
ghost use Rattle.sheet.specs.Check.{falls, at_index};
ghost use Rattle.sheet.specs.Lent.{sheet_in};
ghost use Rattle.sheet.specs.Ready.{Listed, Ordered};

use sheet::lent::{LentSheet, Measured};

// The first sorted place of the column whose value is below its predecessor.
fn first_fall_place(sheet: &LentSheet, column: usize) -> Option<usize>
    requires { Listed (sheet_in sheet.now) column }
    ensures { let s = sheet_in sheet.now in result ≡ place_among s.rows (walk (falls s column) s.rows 0) }
{
    let Measured { size, values, .. } = sheet.measured;
    let base = column * size.rows;
    for here in 1..size.rows {
        if sheet::value_at(values, sheet.order, base, here)
            < sheet::value_at(values, sheet.order, base, here - 1)
        {
            return Some(here);
        }
    }
    None
}

// The first index of the order list whose value is below its predecessor in its column.
pub(crate) fn first_fall(sheet: &LentSheet) -> Option<usize>
    requires { Ordered (sheet_in sheet.now) }
    ensures { let s = sheet_in sheet.now in result ≡ place_among (s.columns * s.rows) (walk (at_index (falls s) s.rows) (s.columns * s.rows) 0) }
{
    let size = sheet.measured.size;
    for column in 0..size.columns {
        if let Some(fall) = first_fall_place(sheet, column) {
            return Some(column * size.rows + fall);
        }
    }
    None
}
