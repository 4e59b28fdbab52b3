// Reason 9 of the input check: a column's count and cuts are exactly its value changes.
ghost use Rattle.std.specs.Prelude.{◌≡◌, ◌+◌, ◌<◌, ◌&&◌, length, get_or, ltb, eqb};
ghost use Rattle.basics.specs.Walk.{walk, place_among};
ghost use Rattle.sheet.specs.Check.{bad_cuts};
ghost use Rattle.sheet.specs.Lent.{sheet_in};
ghost use Rattle.sheet.specs.Ready.{Listed, Ordered};
ghost use Rattle.sheet_check.specs.Steps.{cuts_match};

use sheet::lent::{LentSheet, Measured};

// Whether cut number `number` of the column whose entries start at base is listed, at that place.
fn is_listed(cuts: &[u16], base: usize, count: usize, number: usize, place: usize) -> bool
    requires { base + number < length cuts.now }
    ensures { result ≡ (ltb number count && eqb (get_or cuts.now (base + number) 0) place) }
{
    number < count && usize::from(cuts[base + number]) == place
}

// Whether the column's count and cuts are exactly its value changes. The count is not trusted: each change must be listed, and none be left.
fn cuts_match(sheet: &LentSheet, column: usize) -> bool
    requires { Listed (sheet_in sheet.now) column }
    ensures { result ≡ cuts_match (sheet_in sheet.now) column }
{
    let Measured { size, values, .. } = sheet.measured;
    let base = column * size.rows;
    let count = usize::from(sheet.counts[column]);
    let mut found: usize = 0;
    for place in 1..size.rows {
        if sheet::value_at(values, sheet.order, base, place - 1)
            < sheet::value_at(values, sheet.order, base, place)
        {
            if !is_listed(sheet.cuts, base, count, found, place) {
                return false;
            }
            found += 1;
        }
    }
    found == count
}

// The first column whose count or cuts are not exactly its value changes.
pub(crate) fn first_bad_cuts(sheet: &LentSheet) -> Option<usize>
    requires { Ordered (sheet_in sheet.now) }
    ensures { let s = sheet_in sheet.now in result ≡ place_among s.columns (walk (bad_cuts s) s.columns 0) }
{
    for column in 0..sheet.measured.size.columns {
        if !cuts_match(sheet, column) {
            return Some(column);
        }
    }
    None
}
