// The numbers that a call from C hands over, read one by one.
ghost use Rattle.std.specs.Prelude.{◌≡◌, get_or};
ghost use Rattle.c_face.specs.Numbers.{size_in, terms_in};

use sheet::{Size, Terms};

// A call's numbers, in the order that include/finder.h gives C callers.
pub(crate) const ROWS: usize = 0;

pub(crate) const COLUMNS: usize = 1;

const LABELS: usize = 2;

const SUPPORT: usize = 3;

const GAP: usize = 4;

const ERROR: usize = 5;

const BOUND: usize = 6;

// A number of the call; 0 if it is not there.
fn number(numbers: &[u32], at: usize) -> u32
    ensures { result ≡ get_or numbers.now at 0 }
{
    numbers.get(at).copied().unwrap_or(0)
}

pub(crate) fn size_number(numbers: &[u32], at: usize) -> usize
    ensures { result ≡ get_or numbers.now at 0 }
{
    number(numbers, at) as usize
}

pub(crate) fn size_in(numbers: &[u32]) -> Size
    ensures { result ≡ size_in numbers.now }
{
    Size {
        rows: size_number(numbers, ROWS),
        columns: size_number(numbers, COLUMNS),
        labels: size_number(numbers, LABELS),
    }
}

pub(crate) fn terms_in(numbers: &[u32]) -> Terms
    ensures { result ≡ terms_in numbers.now }
{
    Terms {
        support: number(numbers, SUPPORT),
        gap: number(numbers, GAP),
        error: number(numbers, ERROR),
        bound: number(numbers, BOUND),
    }
}
