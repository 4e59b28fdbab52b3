// The input check on small sheets: each reason at its first and its last place, two reasons at once, and every word of scratch.
#![tactic(auto)]

ghost use Rattle.std.specs.Prelude.{◌<◌};

use basics::runs::run_length;
use sheet::lent::{LentSheet, Measured};
use sheet::refusals::Refusal;
use sheet::{Size, Terms};
use std::io;

// The five lists of a sheet of four rows and two columns, with one entry to spare in each.
#[derive(Clone, Copy)]
struct Lists {
    values: [f64; 9],
    codes: [u8; 5],
    order: [u16; 9],
    cuts: [u16; 9],
    counts: [u16; 3],
}

// How much of each is lent, and of scratch.
#[derive(Clone, Copy)]
struct Lent {
    values: usize,
    codes: usize,
    order: usize,
    cuts: usize,
    counts: usize,
    words: usize,
}

// What a check is asked.
#[derive(Clone, Copy)]
struct Case {
    size: Size,
    terms: Terms,
    lists: Lists,
    lent: Lent,
}

// A sheet that is accepted; the cases are this one but for what they name.
const GOOD: Case = Case {
    size: Size {
        rows: 4,
        columns: 2,
        labels: 2,
    },
    terms: Terms {
        support: 1,
        gap: 0,
        error: 4,
        bound: 1000000,
    },
    // Column 0 has the values 1, 2, 2, 3; column 1 has 4, minus zero, zero and -5, sorted -5, minus zero, zero, 4.
    lists: Lists {
        values: [1.0, 2.0, 2.0, 3.0, 4.0, -0.0, 0.0, -5.0, 0.0],
        codes: [0, 1, 0, 1, 0],
        order: [0, 1, 2, 3, 3, 1, 2, 0, 0],
        cuts: [1, 3, 0, 0, 1, 3, 0, 0, 0],
        counts: [2, 2, 0],
    },
    lent: Lent {
        values: 8,
        codes: 4,
        order: 8,
        cuts: 8,
        counts: 2,
        words: 36,
    },
};

fn first<T>(items: &[T], count: usize) -> &[T] {
    &items[..count.min(items.len())]
}

impl Case {
    // The check of what is lent of each list.
    fn check(&self, scratch: &mut [u32]) -> Result<(), Refusal> {
        let lent = self.lent;
        let sheet = LentSheet {
            measured: Measured {
                size: self.size,
                values: first(&self.lists.values, lent.values),
                codes: first(&self.lists.codes, lent.codes),
            },
            order: first(&self.lists.order, lent.order),
            cuts: first(&self.lists.cuts, lent.cuts),
            counts: first(&self.lists.counts, lent.counts),
        };
        let words = lent.words.min(scratch.len());
        sheet_check::check(&sheet, self.terms, &mut scratch[..words])
    }

    // The line says what was answered, and what became of scratch. Every word of it was 7 before: up to which word it is 0, and from there up to which
    // it is 7 still. That is the last one, 40.
    fn show(&self, rt: &impl Print, name: &str) -> io::Result<()> {
        let mut scratch = [7u32; 40];
        let answer = self.check(&mut scratch);
        let zeros = run_length(&scratch, 0);
        let kept = zeros + run_length(&scratch[zeros..], 7);
        match answer {
            Ok(()) => print!(rt; "{name}: accepted")?,
            Err(refusal) => {
                let number = refusal.reason.number();
                print!(rt; "{name}: refused {number} place={}", refusal.place)?;
            }
        }
        println!(rt; ", 0 to {zeros}, 7 to {kept}")
    }
}

fn of_size(rows: usize, columns: usize, labels: usize) -> Case {
    let size = Size {
        rows,
        columns,
        labels,
    };
    Case { size, ..GOOD }
}

fn of_lengths(values: usize, codes: usize, order: usize, cuts: usize, counts: usize) -> Case {
    let lent = Lent {
        values,
        codes,
        order,
        cuts,
        counts,
        ..GOOD.lent
    };
    Case { lent, ..GOOD }
}

fn of_words(words: usize) -> Case {
    let lent = Lent { words, ..GOOD.lent };
    Case { lent, ..GOOD }
}

fn of_terms(support: u32, gap: u32, error: u32, bound: u32) -> Case {
    let terms = Terms {
        support,
        gap,
        error,
        bound,
    };
    Case { terms, ..GOOD }
}

// One value another one.
fn of_value(index: usize, value: f64) -> Case
    requires { index < 9 }
{
    let mut case = GOOD;
    case.lists.values[index] = value;
    case
}

fn of_code(row: usize, code: u8) -> Case
    requires { row < 5 }
{
    let mut case = GOOD;
    case.lists.codes[row] = code;
    case
}

// Two neighbours of the order list others.
fn of_order(index: usize, here: u16, next: u16) -> Case
    requires { index < 8 }
{
    let mut case = GOOD;
    case.lists.order[index] = here;
    case.lists.order[index + 1] = next;
    case
}

fn of_count(column: usize, count: u16) -> Case
    requires { column < 3 }
{
    let mut case = GOOD;
    case.lists.counts[column] = count;
    case
}

fn of_cut(index: usize, place: u16) -> Case
    requires { index < 9 }
{
    let mut case = GOOD;
    case.lists.cuts[index] = place;
    case
}

fn of_constant_column() -> Case {
    let mut case = GOOD;
    case.lists.values[0] = 2.0;
    case.lists.values[3] = 2.0;
    case.lists.counts[0] = 0;
    case
}

// Document 01's own cases: one row, and two rows with the values 1, 2.
fn of_one_row(words: usize) -> Case {
    let mut case = of_size(1, 1, 1);
    case.lent = Lent {
        values: 1,
        codes: 1,
        order: 1,
        cuts: 1,
        counts: 1,
        words,
    };
    case.lists.counts[0] = 0;
    case
}

fn of_two_rows(first: u16, second: u16, count: u16) -> Case {
    let mut case = of_size(2, 1, 2);
    case.lent = of_lengths(2, 2, 2, 2, 1).lent;
    case.lists.order[0] = first;
    case.lists.order[1] = second;
    case.lists.counts[0] = count;
    case
}

fn accepted(rt: &impl Print) -> io::Result<()> {
    GOOD.show(rt, "good")?;
    of_constant_column().show(rt, "a constant column")?;
    of_value(3, 1000000000000.0).show(rt, "the largest value")?;
    of_value(7, -1000000000000.0).show(rt, "the lowest value")
}

fn still_accepted(rt: &impl Print) -> io::Result<()> {
    of_order(5, 2, 1).show(rt, "zero before minus zero")?;
    of_cut(2, 9).show(rt, "an entry past the count")?;
    of_terms(4096, 1000000, 1000000, 1000000).show(rt, "the largest terms")?;
    of_size(4, 2, 32).show(rt, "32 labels")
}

fn small(rt: &impl Print) -> io::Result<()> {
    of_one_row(36).show(rt, "one row")?;
    of_one_row(7).show(rt, "one row, a word short")?;
    of_two_rows(0, 1, 1).show(rt, "values 1, 2")?;
    of_two_rows(1, 0, 1).show(rt, "values 1, 2 in order 1, 0")?;
    of_two_rows(0, 1, 0).show(rt, "values 1, 2 with no cut")
}

// Reason 1.
fn sizes(rt: &impl Print) -> io::Result<()> {
    of_size(0, 2, 2).show(rt, "no rows")?;
    of_size(4097, 2, 2).show(rt, "4097 rows")?;
    of_size(4, 0, 2).show(rt, "no columns")?;
    of_size(4, 17, 2).show(rt, "17 columns")
}

// The number of labels, and limits that are still inside.
fn labels(rt: &impl Print) -> io::Result<()> {
    of_size(4, 2, 0).show(rt, "no labels")?;
    of_size(4, 2, 33).show(rt, "33 labels")?;
    of_size(4096, 16, 32).show(rt, "the largest size, other lengths")
}

// Reason 2.
fn row_lengths(rt: &impl Print) -> io::Result<()> {
    of_lengths(7, 4, 8, 8, 2).show(rt, "7 values")?;
    of_lengths(9, 4, 8, 8, 2).show(rt, "9 values")?;
    of_lengths(8, 3, 8, 8, 2).show(rt, "3 codes")?;
    of_lengths(8, 5, 8, 8, 2).show(rt, "5 codes")
}

fn order_lengths(rt: &impl Print) -> io::Result<()> {
    of_lengths(8, 4, 7, 8, 2).show(rt, "7 entries of order")?;
    of_lengths(8, 4, 9, 8, 2).show(rt, "9 entries of order")
}

fn cut_lengths(rt: &impl Print) -> io::Result<()> {
    of_lengths(8, 4, 8, 7, 2).show(rt, "7 cuts")?;
    of_lengths(8, 4, 8, 9, 2).show(rt, "9 cuts")?;
    of_lengths(8, 4, 8, 8, 1).show(rt, "1 count")?;
    of_lengths(8, 4, 8, 8, 3).show(rt, "3 counts")
}

// Reason 3.
fn words(rt: &impl Print) -> io::Result<()> {
    of_words(0).show(rt, "0 words")?;
    of_words(31).show(rt, "31 words")?;
    of_words(32).show(rt, "32 words")
}

// Reason 4.
fn terms(rt: &impl Print) -> io::Result<()> {
    of_terms(4097, 0, 4, 1000000).show(rt, "support 4097")?;
    of_terms(1, 1000001, 4, 1000000).show(rt, "gap 1000001")?;
    of_terms(1, 0, 1000001, 1000000).show(rt, "error 1000001")?;
    of_terms(1, 0, 4, 4294967295).show(rt, "bound 4294967295")
}

// Reason 5.
fn values(rt: &impl Print) -> io::Result<()> {
    of_value(0, 1000000000000.0001).show(rt, "the next double first")?;
    of_value(7, -1000000000000.0001).show(rt, "the next double last, negative")?;
    of_value(4, f64::INFINITY).show(rt, "an infinity")?;
    of_value(3, f64::NAN).show(rt, "no number")
}

// Reason 6.
fn codes(rt: &impl Print) -> io::Result<()> {
    of_code(0, 2).show(rt, "the first label 2")?;
    of_code(3, 255).show(rt, "the last label 255")
}

// Reason 7.
fn order(rt: &impl Print) -> io::Result<()> {
    of_order(0, 4, 1).show(rt, "row 4 first")?;
    of_order(6, 2, 65535).show(rt, "row 65535 last")?;
    of_order(0, 0, 0).show(rt, "the first row again")?;
    of_order(6, 2, 2).show(rt, "the last row again")?;
    of_order(3, 0, 4).show(rt, "again at the end of the first column")
}

// Reason 8.
fn falls(rt: &impl Print) -> io::Result<()> {
    of_order(0, 1, 0).show(rt, "a fall at the first place that can")?;
    of_order(4, 1, 3).show(rt, "a fall at the first of the second column")?;
    of_order(6, 0, 2).show(rt, "a fall at the last place")
}

// Reason 9.
fn counts(rt: &impl Print) -> io::Result<()> {
    of_count(0, 1).show(rt, "a missing cut")?;
    of_count(1, 1).show(rt, "a missing cut in the last column")?;
    of_count(0, 3).show(rt, "one cut more")?;
    of_count(1, 65535).show(rt, "a count of 65535")
}

fn cuts(rt: &impl Print) -> io::Result<()> {
    of_cut(0, 2).show(rt, "a cut between equal values")?;
    of_cut(5, 2).show(rt, "a cut between the zeros")?;
    of_cut(5, 1).show(rt, "the same cut twice")
}

// Two reasons at once: the lower number wins, wherever the places lie.
fn of_contents(value: f64, code: u8, last: u16, count: u16) -> Case {
    let mut case = GOOD;
    case.lists.values[7] = value;
    case.lists.codes[3] = code;
    case.lists.order[0] = 1;
    case.lists.order[1] = 0;
    case.lists.order[7] = last;
    case.lists.counts[0] = count;
    case
}

fn of_shape(rows: usize, cuts: usize, words: usize) -> Case {
    let mut case = GOOD;
    case.size.rows = rows;
    case.terms.gap = 1000001;
    case.lent.cuts = cuts;
    case.lent.words = words;
    case.lists.values[0] = 1000000000000.0001;
    case
}

fn shapes(rt: &impl Print) -> io::Result<()> {
    of_shape(4097, 7, 31).show(rt, "1 and 2")?;
    of_shape(4, 7, 31).show(rt, "2 and 3")?;
    of_shape(4, 8, 31).show(rt, "3 and 4")?;
    of_shape(4, 8, 32).show(rt, "4 and 5")
}

fn contents(rt: &impl Print) -> io::Result<()> {
    of_contents(1000000000000.0001, 2, 3, 0).show(rt, "5 and 6")?;
    of_contents(-5.0, 2, 3, 0).show(rt, "6 and 7")?;
    of_contents(-5.0, 1, 3, 0).show(rt, "7 and 8")?;
    of_contents(-5.0, 1, 0, 0).show(rt, "8 and 9")
}

fn main(rt: HostRuntime) -> io::Result<()> {
    accepted(&rt)?;
    still_accepted(&rt)?;
    small(&rt)?;
    sizes(&rt)?;
    labels(&rt)?;
    row_lengths(&rt)?;
    order_lengths(&rt)?;
    cut_lengths(&rt)?;
    words(&rt)?;
    terms(&rt)?;
    values(&rt)?;
    codes(&rt)?;
    order(&rt)?;
    falls(&rt)?;
    counts(&rt)?;
    cuts(&rt)?;
    shapes(&rt)?;
    contents(&rt)
}
