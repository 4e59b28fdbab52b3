// Document 01's table T and its run cases, through the code. A case's line says what became of scratch: how many words are 0 from the start on, and
// how many after them are as they were. The search's own answer follows as its listing.
#![tactic(auto)]

ghost use Rattle.std.specs.Prelude.{◌<◌, ◌≤◌, length};
ghost use Rattle.search_runs.specs.declared.TheConstants.{MOST_ROWS};

use basics::runs::run_length;
use digits::HEX_PLACES;
use listing::LONGEST;
use sheet::lent::{LentSheet, Measured};
use sheet::{Size, Terms};
use std::io;

// Scratch: words for five rows, each of which holds this before a search. No error, cut number or mark of these sheets is that large.
const WORDS: usize = 40;

const BEFORE: u32 = 777;

const MOST_ROWS: usize = 6;

// Document 01's four-row sheet, and two rows more that go on as it does.
const VALUES: [f64; MOST_ROWS] = [1.0, 2.0, 3.0, 4.0, 5.0, 6.0];

const CODES: [u8; MOST_ROWS] = [0, 1, 0, 1, 0, 1];

// The terms of T5; those of the other cases are these but for what they name.
const T5: Terms = Terms {
    support: 1,
    gap: 0,
    error: 2,
    bound: 1000000,
};

fn show_threshold(rt: &impl Print, name: &str, lower: f64, upper: f64) -> io::Result<()> {
    let bits = digits::bits_of(threshold::threshold_between(lower, upper));
    println!(rt; "{name}: {bits:0HEX_PLACES$x}")
}

// T1 to T4; the decimals are those of the bits in document 01.
fn thresholds(rt: &impl Print) -> io::Result<()> {
    show_threshold(rt, "T1", 1.0, 2.0)?;
    show_threshold(rt, "T2", 1.0000000000000002, 1.0000000000000004)?;
    show_threshold(rt, "T3", 1.0, 1.0000000000000002)?;
    show_threshold(rt, "T4", 5.0e-324, 1.0e-323)
}

// The search of a sheet whose order, cuts and counts are given.
fn search_case(rt: &impl Print, name: &str, sheet: &LentSheet, terms: Terms) -> io::Result<()> {
    let mut scratch = [BEFORE; WORDS];
    let answer = depth2::search(sheet, terms, &mut scratch);
    let cleared = run_length(&scratch, 0);
    let untouched = run_length(&scratch[cleared..], BEFORE);
    println!(rt; "{name}: scratch {cleared} cleared, {untouched} untouched")?;
    let mut text = [0u8; LONGEST];
    let length = listing::write_answer(answer, &mut text);
    rt.write_all(&text[..length])
}

// A sheet of one column, prepared and searched. The preparer is lent as much as the values ask for; where it turns them back, the search says why.
fn run_case(
    rt: &impl Print,
    name: &str,
    labels: usize,
    terms: Terms,
    values: &[f64],
    codes: &[u8],
) -> io::Result<()>
    requires { length values.now ≤ MOST_ROWS }
{
    let rows = values.len();
    let mut order = [0u16; MOST_ROWS];
    let mut cuts = [0u16; MOST_ROWS];
    let mut counts = [0u16; 1];
    let _ = prepare::prepare(
        rows,
        1,
        values,
        &mut order[..rows],
        &mut cuts[..rows],
        &mut counts,
    );
    let size = Size {
        rows,
        columns: 1,
        labels,
    };
    let sheet = LentSheet {
        measured: Measured {
            size,
            values,
            codes,
        },
        order: &order[..rows],
        cuts: &cuts[..rows],
        counts: &counts,
    };
    search_case(rt, name, &sheet, terms)
}

fn four_rows(rt: &impl Print, name: &str, terms: Terms) -> io::Result<()> {
    run_case(rt, name, 2, terms, &VALUES[..4], &CODES[..4])
}

// T5 to T7.
fn gaps_and_bounds(rt: &impl Print) -> io::Result<()> {
    four_rows(rt, "T5", T5)?;
    four_rows(rt, "T6", Terms { gap: 2, ..T5 })?;
    four_rows(rt, "T7", Terms { bound: 0, ..T5 })
}

// T8 and T9, and a support above the limit.
fn supports(rt: &impl Print) -> io::Result<()> {
    let t8 = Terms { support: 2, ..T5 };
    four_rows(rt, "T8", t8)?;
    four_rows(rt, "T8, starting error 3", Terms { error: 3, ..t8 })?;
    four_rows(rt, "T9", Terms { support: 3, ..T5 })?;
    four_rows(
        rt,
        "support 4097",
        Terms {
            support: 4097,
            ..T5
        },
    )
}

// The first rows; a label list may stop earlier.
fn first_rows(
    rt: &impl Print,
    name: &str,
    rows: usize,
    coded: usize,
    labels: usize,
) -> io::Result<()>
    requires { (rows ≤ MOST_ROWS) × (coded ≤ MOST_ROWS) }
{
    let terms = Terms { error: 1, ..T5 };
    run_case(rt, name, labels, terms, &VALUES[..rows], &CODES[..coded])
}

// One row more than there are words for stands among them.
fn other_sizes(rt: &impl Print) -> io::Result<()> {
    first_rows(rt, "T10", 2, 2, 2)?;
    first_rows(rt, "one row", 1, 1, 2)?;
    first_rows(rt, "33 labels allowed", 4, 4, 33)?;
    first_rows(rt, "three labels of four", 4, 3, 2)?;
    first_rows(rt, "words for five rows of six", 6, 6, 2)
}

// Labels 0 and 1.
fn two_rows(rt: &impl Print, name: &str, first: f64, second: f64) -> io::Result<()> {
    let terms = Terms { error: 1, ..T5 };
    run_case(rt, name, 2, terms, &[first, second], &[0, 1])
}

fn other_values(rt: &impl Print) -> io::Result<()> {
    two_rows(rt, "a constant column", 7.0, 7.0)?;
    two_rows(rt, "10^12", 1.0, 1000000000000.0)?;
    two_rows(rt, "the next double", 1.0, 1000000000000.0001)
}

// Values 1, 2 with that order and that count of cuts.
fn listed(rt: &impl Print, name: &str, order: [u16; 2], count: u16) -> io::Result<()> {
    let (values, codes) = ([1.0, 2.0], [0, 1]);
    let (cuts, counts) = ([1, 0], [count]);
    let sheet = LentSheet {
        measured: Measured {
            size: Size {
                rows: 2,
                columns: 1,
                labels: 2,
            },
            values: &values,
            codes: &codes,
        },
        order: &order,
        cuts: &cuts,
        counts: &counts,
    };
    search_case(rt, name, &sheet, Terms { error: 1, ..T5 })
}

fn other_lists(rt: &impl Print) -> io::Result<()> {
    listed(rt, "order 1, 0", [1, 0], 1)?;
    listed(rt, "a missing cut", [0, 1], 0)
}

fn main(rt: HostRuntime) -> io::Result<()> {
    thresholds(&rt)?;
    gaps_and_bounds(&rt)?;
    supports(&rt)?;
    other_sizes(&rt)?;
    other_values(&rt)?;
    other_lists(&rt)
}
