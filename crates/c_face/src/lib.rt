// The finder's functions for C and Rust callers: numbers and slices only, and any of them may hold anything.
#![tactic(auto)]

mod c_numbers;
mod c_told;
mod c_words;

ghost use Rattle.std.specs.Prelude.{◌≡◌};
ghost use Rattle.sheet.specs.Lent as lent;
ghost use Rattle.c_face.specs.Face.{sheet_in, PrepareCalled, CheckCalled, SearchCalled};

use crate::c_numbers::{COLUMNS, ROWS, size_in, size_number, terms_in};
use crate::c_told::tell_verdict;
use crate::c_words::tell_searched;
use sheet::lent::{LentSheet, Measured};

// The sheet that a call hands over.
fn sheet_in<'a>(
    numbers: &[u32],
    values: &'a [f64],
    codes: &'a [u8],
    order: &'a [u16],
    cuts: &'a [u16],
    counts: &'a [u16],
) -> LentSheet<'a>
    ensures { lent.sheet_in result ≡ sheet_in numbers.now values.now codes.now order.now cuts.now counts.now }
{
    LentSheet {
        measured: Measured {
            size: size_in(numbers),
            values,
            codes,
        },
        order,
        cuts,
        counts,
    }
}

// The preparer. Numbers: rows, columns.
pub fn finder_prepare(
    numbers: &[u32],
    values: &[f64],
    order: &mut [u16],
    cuts: &mut [u16],
    counts: &mut [u16],
    answer: &mut [u64],
)
    ensures { PrepareCalled numbers.now values.now order.old cuts.old counts.old answer.old
        order.new cuts.new counts.new answer.new }
{
    let rows = size_number(numbers, ROWS);
    let columns = size_number(numbers, COLUMNS);
    let done = prepare::prepare(rows, columns, values, order, cuts, counts);
    tell_verdict(answer, done);
}

// The input check. Numbers: rows, columns, labels, support, gap, error, bound.
pub fn finder_check(
    numbers: &[u32],
    values: &[f64],
    codes: &[u8],
    order: &[u16],
    cuts: &[u16],
    counts: &[u16],
    scratch: &mut [u32],
    answer: &mut [u64],
)
    ensures { CheckCalled numbers.now values.now codes.now order.now cuts.now counts.now scratch.old answer.old
        scratch.new answer.new }
{
    let sheet = sheet_in(numbers, values, codes, order, cuts, counts);
    let checked = sheet_check::check(&sheet, terms_in(numbers), scratch);
    tell_verdict(answer, checked);
}

// The search. Numbers: rows, columns, labels, support, gap, error, bound.
pub fn finder_search(
    numbers: &[u32],
    values: &[f64],
    codes: &[u8],
    order: &[u16],
    cuts: &[u16],
    counts: &[u16],
    scratch: &mut [u32],
    answer: &mut [u64],
)
    ensures { SearchCalled numbers.now values.now codes.now order.now cuts.now counts.now scratch.old answer.old
        scratch.new answer.new }
{
    let sheet = sheet_in(numbers, values, codes, order, cuts, counts);
    let found = depth2::search(&sheet, terms_in(numbers), scratch);
    tell_searched(answer, found);
}
