// The sheet: its limits, its lists, what the input check answers, and the parts of the check that others share.
#![tactic(auto)]

pub mod lent;
pub mod refusals;

ghost use Rattle.std.specs.Prelude.{◌≡◌, ◌+◌, ◌<◌, ◌≤◌, length, get_or};
ghost use Rattle.basics.specs.Walk.{place_among};
ghost use Rattle.sheet.specs.Check.{grid_holds, size_holds, terms_hold, cleared, first_bad_value, first_bad_label};
ghost use Rattle.sheet.specs.Sheet.{value_listed};

// The numbers of a sheet; they may hold anything until the check has accepted them.
#[derive(Clone, Copy)]
pub struct Size {
    pub rows: usize,
    pub columns: usize,
    pub labels: usize,
}

// The numbers of a search.
#[derive(Clone, Copy)]
pub struct Terms {
    pub support: u32,
    pub gap: u32,
    pub error: u32,
    pub bound: u32,
}

// The limits: document 01, "The sheet and its numbers".
pub const MOST_ROWS: usize = 4096;

pub const MOST_COLUMNS: usize = 16;

pub const MOST_LABELS: usize = 32;

const MOST_SUPPORT: u32 = 4096;

const MOST_ERROR: u32 = 1_000_000;

pub const WORDS_PER_ROW: usize = 8;

// The first words become 0.
pub fn clear(scratch: &mut [u32], words: usize)
    requires { words ≤ length scratch.old }
    ensures { scratch.new ≡ cleared words scratch.old }
{
    scratch[..words].fill(0);
}

// The index of the first value that is not finite or too large.
pub fn first_bad_value(values: &[f64]) -> Option<usize>
    ensures { result ≡ place_among (length values.now) (first_bad_value values.now) }
{
    values.iter().position(|value| !threshold::in_range(*value))
}

// The first row whose label code is too high.
pub fn first_bad_label(codes: &[u8], labels: usize) -> Option<usize>
    ensures { result ≡ place_among (length codes.now) (first_bad_label codes.now labels) }
{
    codes.iter().position(|code| labels <= usize::from(*code))
}

// The value at a sorted place of the column whose entries start at base.
pub fn value_at(values: &[f64], order: &[u16], base: usize, place: usize) -> f64
    requires { (base + place < length order.now) × (base + get_or order.now (base + place) 0 < length values.now) }
    ensures { result ≡ value_listed values.now order.now base place }
{
    values[base + usize::from(order[base + place])]
}

#[tactic(auto, unfolding(crate::specs::Check::grid_holds))]
pub fn grid_holds(rows: usize, columns: usize) -> bool
    ensures { result ≡ grid_holds rows columns }
{
    (1..=MOST_ROWS).contains(&rows) && (1..=MOST_COLUMNS).contains(&columns)
}

#[tactic(auto, unfolding(crate::specs::Check::size_holds))]
pub fn size_holds(size: Size) -> bool
    ensures { result ≡ size_holds size.rows size.columns size.labels }
{
    grid_holds(size.rows, size.columns) && (1..=MOST_LABELS).contains(&size.labels)
}

#[tactic(auto, unfolding(crate::specs::Check::terms_hold))]
pub fn terms_hold(terms: Terms) -> bool
    ensures { result ≡ terms_hold terms }
{
    terms.support <= MOST_SUPPORT
        && terms.gap <= MOST_ERROR
        && terms.error <= MOST_ERROR
        && terms.bound <= MOST_ERROR
}
