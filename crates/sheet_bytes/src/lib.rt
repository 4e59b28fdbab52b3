// A sheet's bytes, read into lent memory. Everything is checked before anything is written.
#![tactic(auto)]

pub mod sheet_room;

ghost use Rattle.std.specs.Prelude.{◌≡◌, ℕ, ◌+◌, ◌*◌, ◌^◌, ◌≤◌, ◌<◌, Bool, length, get_or};
ghost use Rattle.std.proofs.lemmas.List.Edits.{sets};
ghost use Rattle.std.specs.Float.{binary64};
ghost use Rattle.std.specs.Float.Ieee.{of_bits};
ghost use Rattle.basics.specs.Walk.{walk, place_among};
ghost use Rattle.threshold.specs.Threshold.{within};
ghost use Rattle.sheet.specs.Limits.{most_columns};
ghost use Rattle.sheet_bytes.specs.Room.{most_read};
ghost use Rattle.sheet_bytes.specs.Bytes.{byte_at, number_at, marked};
ghost use Rattle.sheet_bytes.specs.Read.{head_of, row_start, code_of, head_cells, cell_at, bits_of, values_of, codes_of, from_terms, read_of, ReadInto};
ghost use Rattle.sheet_bytes.specs.Read.{head_bad, too_large, row_bad, further, value_bad, code_bad};
ghost use Rattle.sheet_bytes.specs.Reading.{last_start, SmallHead, Valued};

use crate::sheet_room::{HEAD_SIZE, MOST_CELLS, MOST_READ, ROW_FIXED, VALUE_SIZE};
use sheet::refusals::{Reason, Refusal};
use sheet::{Size, Terms, WORDS_PER_ROW};

// The numbers of the header.
#[derive(Clone, Copy)]
pub struct Head {
    pub size: Size,
    pub terms: Terms,
}

// Where the header's numbers begin, after its two mark bytes, and where a row's label code stands.
const ROWS_AT: usize = 2;

const COLUMNS_AT: usize = 4;

const LABELS_AT: usize = 5;

const SUPPORT_AT: usize = 6;

const GAP_AT: usize = 8;

const ERROR_AT: usize = 12;

const BOUND_AT: usize = 16;

const CODE_PLACE: usize = 2;

// The words of scratch that the largest sheet asks for.
pub const MOST_WORDS: usize = WORDS_PER_ROW * MOST_READ;

// An infinity's bits without its sign: those above are a NaN's.
const INFINITE: u64 = 0x7FF0_0000_0000_0000;

const SIGN: u64 = 0x8000_0000_0000_0000;

// The byte at a place, 0 past the end.
fn byte_at(bytes: &[u8], at: usize) -> u8
    ensures { result ≡ byte_at bytes.now at }
{
    bytes.get(at).copied().unwrap_or(0)
}

// The bytes from a place on, 0 past the end.
fn bytes_at<const N: usize>(bytes: &[u8], at: usize) -> [u8; N]
    ensures { (i : ℕ) → i < N → get_or result i 0 ≡ byte_at bytes.now (at + i) }
{
    let rest = bytes.get(at..).unwrap_or(&[]);
    let mut read = [0; N];
    for i in 0..N {
        read[i] = byte_at(rest, i);
    }
    read
}

fn u16_at(bytes: &[u8], at: usize) -> u16
    ensures { result ≡ number_at 2 bytes.now at }
{
    u16::from_le_bytes(bytes_at(bytes, at))
}

fn u32_at(bytes: &[u8], at: usize) -> u32
    ensures { result ≡ number_at 4 bytes.now at }
{
    u32::from_le_bytes(bytes_at(bytes, at))
}

fn u64_at(bytes: &[u8], at: usize) -> u64
    ensures { result ≡ number_at 8 bytes.now at }
{
    u64::from_le_bytes(bytes_at(bytes, at))
}

fn is_marked(bytes: &[u8], at: usize, mark: &[u8; 2]) -> bool
    requires { at + 2 ≤ length bytes.now }
    ensures { result ≡ marked (record { first = get_or mark.now 0 0; second = get_or mark.now 1 0 }) bytes.now at }
{
    bytes[at..at + 2] == mark[..]
}

#[tactic(auto, using(crate::proofs::Numbers::number_1), unfolding(crate::specs::Read::head_of))]
fn head_of(bytes: &[u8]) -> Head
    ensures { result ≡ head_of bytes.now }
{
    Head {
        size: Size {
            rows: usize::from(u16_at(bytes, ROWS_AT)),
            columns: usize::from(byte_at(bytes, COLUMNS_AT)),
            labels: usize::from(byte_at(bytes, LABELS_AT)),
        },
        terms: Terms {
            support: u32::from(u16_at(bytes, SUPPORT_AT)),
            gap: u32_at(bytes, GAP_AT),
            error: u32_at(bytes, ERROR_AT),
            bound: u32_at(bytes, BOUND_AT),
        },
    }
}

#[tactic(auto, unfolding(crate::specs::Read::head_bad))]
fn head_bad(bytes: &[u8]) -> bool
    ensures { result ≡ head_bad bytes.now }
{
    bytes.len() < HEAD_SIZE || !is_marked(bytes, 0, b"HD")
}

#[tactic(auto, unfolding(crate::specs::Read::too_large))]
fn too_large(head: Head) -> bool
    requires { head.size.columns ≤ most_columns }
    ensures { result ≡ too_large head }
{
    MOST_READ < head.size.rows || MOST_CELLS < head.size.columns * head.size.rows
}

// A NaN is refused by its bits: no float is made of it.
#[tactic(auto, using(crate::proofs::Numbers::no_nan, crate::proofs::Numbers::nan_refused))]
fn bits_within(bits: u64) -> bool
    ensures { result ≡ within (of_bits binary64 bits) }
{
    bits % SIGN <= INFINITE && threshold::in_range(f64::from_bits(bits))
}

// The first of so many places that is bad.
fn first_bad<F: Fn(usize) -> bool>(count: usize, bad: F) -> Option<usize>
    requires { (place : ℕ) → place < count → F.pre bad place }
    ensures { (test : ℕ → Bool) → ((place : ℕ) (said : Bool) → place < count → F.post bad place said → said ≡ test place) → result ≡ place_among count (walk test count 0) }
{
    for place in 0..count {
        if bad(place) {
            return Some(place);
        }
    }
    None
}

// A sheet's bytes, with the numbers of their header, once these have passed their tests.
#[derive(Clone, Copy)]
struct SheetBytes<'a> {
    bytes: &'a [u8],
    head: Head,
    ghost small: { SmallHead head },
}

impl SheetBytes<'_> {
    // Where a row's record starts; that of the row past the last is the end.
    #[tactic(auto, unfolding(crate::specs::Read::row_start))]
    fn start_of(&self, row: usize) -> usize
        requires { row ≤ most_read }
        ensures place { result ≡ row_start self.now.head.size.columns row }
        ensures low { result ≤ last_start }
    {
        HEAD_SIZE + row * (ROW_FIXED + VALUE_SIZE * self.head.size.columns)
    }

    #[tactic(auto, unfolding(crate::specs::Read::row_bad))]
    fn row_bad(&self, row: usize) -> bool
        requires { row < self.now.head.size.rows }
        ensures { result ≡ row_bad self.now.bytes.now self.now.head row }
    {
        let start = self.start_of(row);
        self.bytes.len() < self.start_of(row + 1) || !is_marked(self.bytes, start, b"RW")
    }

    #[tactic(auto, unfolding(crate::specs::Read::further))]
    fn has_further(&self) -> bool
        ensures { result ≡ further self.now.bytes.now self.now.head }
    {
        self.start_of(self.head.size.rows) < self.bytes.len()
    }

    // Where the bits of a value stand.
    #[tactic(auto, unfolding(crate::specs::Read::cell_at))]
    fn cell_at(&self, index: usize) -> usize
        requires { index < head_cells self.now.head }
        ensures { result ≡ cell_at self.now.head index }
    {
        let row = index % self.head.size.rows;
        let column = index / self.head.size.rows;
        self.start_of(row) + ROW_FIXED + VALUE_SIZE * column
    }

    #[tactic(auto, unfolding(crate::specs::Read::bits_of))]
    fn bits_at(&self, index: usize) -> u64
        requires { index < head_cells self.now.head }
        ensures { result ≡ bits_of self.now.bytes.now self.now.head index }
    {
        u64_at(self.bytes, self.cell_at(index))
    }

    #[tactic(auto, unfolding(crate::specs::Read::value_bad, crate::specs::Read::value_read))]
    fn value_bad(&self, index: usize) -> bool
        requires { index < head_cells self.now.head }
        ensures { result ≡ value_bad self.now.bytes.now self.now.head index }
    {
        !bits_within(self.bits_at(index))
    }

    #[tactic(auto, unfolding(crate::specs::Read::code_of))]
    fn code_at(&self, row: usize) -> u8
        requires { row < self.now.head.size.rows }
        ensures { result ≡ code_of self.now.bytes.now self.now.head row }
    {
        byte_at(self.bytes, self.start_of(row) + CODE_PLACE)
    }

    #[tactic(auto, unfolding(crate::specs::Read::code_bad))]
    fn code_bad(&self, row: usize) -> bool
        requires { row < self.now.head.size.rows }
        ensures { result ≡ code_bad self.now.bytes.now self.now.head row }
    {
        self.head.size.labels <= usize::from(self.code_at(row))
    }

    // Reasons 4, 5 and 6.
    #[tactic(auto, unfolding(crate::specs::Read::from_terms, crate::specs::Read::terms_bad, crate::specs::Read::first_bad, basics::specs::Choice::pick))]
    fn check_cells(&self) -> Result<Head, Refusal>
        ensures { result ≡ from_terms self.now.bytes.now self.now.head }
    {
        let head = self.head;
        if !sheet::terms_hold(head.terms) {
            return Err(Reason::TermAbove.whole());
        }
        let cells = head.size.columns * head.size.rows;
        if let Some(index) = first_bad(cells, |index| self.value_bad(index)) {
            return Err(Reason::ValueOutside.at(index));
        }
        if let Some(row) = first_bad(head.size.rows, |row| self.code_bad(row)) {
            return Err(Reason::LabelHigh.at(row));
        }
        Ok(head)
    }

    fn fill_values(&self, values: &mut [f64])
        requires { (head_cells self.now.head ≤ length values.old) × Valued self.now.bytes.now self.now.head }
        ensures { values.new ≡ sets values.old 0 (values_of self.now.bytes.now self.now.head) }
    {
        for index in 0..self.head.size.columns * self.head.size.rows {
            values[index] = f64::from_bits(self.bits_at(index));
        }
    }

    fn fill_codes(&self, codes: &mut [u8])
        requires { self.now.head.size.rows ≤ length codes.old }
        ensures { codes.new ≡ sets codes.old 0 (codes_of self.now.bytes.now self.now.head) }
    {
        for row in 0..self.head.size.rows {
            codes[row] = self.code_at(row);
        }
    }
}

// All reasons, in document 01's order.
#[tactic(auto, using(crate::proofs::Stages::columns_most), unfolding(crate::specs::Read::read_of, crate::specs::Read::size_bad, crate::specs::Read::first_bad, basics::specs::Choice::pick))]
fn check_sheet(bytes: &[u8]) -> Result<Head, Refusal>
    ensures { result ≡ read_of bytes.now }
{
    if head_bad(bytes) {
        return Err(Reason::HeadWrong.whole());
    }
    let head = head_of(bytes);
    if !sheet::size_holds(head.size) {
        return Err(Reason::SizeOutside.whole());
    }
    if too_large(head) {
        return Err(Reason::SheetLarge.whole());
    }
    let read = SheetBytes { bytes, head };
    if let Some(row) = first_bad(head.size.rows, |row| read.row_bad(row)) {
        return Err(Reason::RowWrong.at(row));
    }
    if read.has_further() {
        return Err(Reason::BytesLeft.whole());
    }
    read.check_cells()
}

// The header's numbers, with the values and the label codes at the start of the lent memory; or why the bytes are refused, and then nothing
// is written. The memory must hold the largest sheet, whatever the sheet.
#[tactic(auto, unfolding(crate::specs::Read::read_answer, crate::specs::Read::values_in, crate::specs::Read::codes_in, basics::specs::Choice::pick))]
pub fn read_sheet(bytes: &[u8], values: &mut [f64], codes: &mut [u8]) -> Result<Head, Refusal>
    ensures { ReadInto bytes.now values.old codes.old result values.new codes.new }
{
    if values.len() < MOST_CELLS || codes.len() < MOST_READ {
        return Err(Reason::ScratchShort.whole());
    }
    let head = check_sheet(bytes)?;
    let read = SheetBytes { bytes, head };
    read.fill_values(values);
    read.fill_codes(codes);
    Ok(head)
}
