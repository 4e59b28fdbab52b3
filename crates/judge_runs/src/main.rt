// Runs the judge and prints each verdict: document 01's trees on the four-row sheet, and each refusal at each of its places.
#![tactic(auto)]

use judge::judge;
use judge::judge_rows::{Judgement, Wrong};
use sheet::Size;
use sheet::lent::Measured;
use sheet::refusals::Refusal;
use std::{fmt, io};
use tree::{Leaf, Question, Side, Tree};

// The four-row sheet: one column, two labels.
const SIZE: Size = Size {
    rows: 4,
    columns: 1,
    labels: 2,
};

const VALUES: [f64; 4] = [1.0, 2.0, 3.0, 4.0];

const CODES: [u8; 4] = [0, 1, 0, 1];

// The mistakes at the leaf or the two leaves of a side.
#[derive(Drop)]
struct Mistakes(Wrong);

impl fmt::Display for Mistakes {
    fn fmt<W: fmt::Write>(&self, f: &mut fmt::Formatter<W>) -> fmt::Result {
        match self.0 {
            Wrong::AtLeaf(reached) => write!(f, "{}", reached.wrong),
            Wrong::AtSplit(left, right) => write!(f, "{}/{}", left.wrong, right.wrong),
        }
    }
}

#[derive(Drop)]
struct Verdict(Result<Judgement, Refusal>);

impl fmt::Display for Verdict {
    fn fmt<W: fmt::Write>(&self, f: &mut fmt::Formatter<W>) -> fmt::Result {
        match self.0 {
            Err(refusal) => write!(
                f,
                "REFUSED {} place={}",
                refusal.reason.number(),
                refusal.place
            ),
            Ok(judgement) => write!(
                f,
                "mistakes={} left={} right={} support={}",
                judgement.mistakes,
                Mistakes(judgement.left),
                Mistakes(judgement.right),
                judgement.support
            ),
        }
    }
}

fn labelled(label: usize) -> Leaf {
    Leaf { label, error: 0 }
}

fn leaf(label: usize) -> Side {
    Side::Leaf(labelled(label))
}

fn split(column: usize, threshold: f64, left: usize, right: usize) -> Side {
    Side::Split {
        question: Question { column, threshold },
        left: labelled(left),
        right: labelled(right),
    }
}

fn rule(column: usize, threshold: f64, left: Side, right: Side) -> Tree {
    Tree {
        question: Question { column, threshold },
        left,
        right,
        error: 0,
    }
}

fn run(rt: &impl Print, name: &str, sheet: &Measured, tree: Tree) -> io::Result<()> {
    println!(rt; "{name}: {}", Verdict(judge(sheet, tree)))
}

// A sheet, and a tree that asks a column that no sheet has: the sheet's own reasons come first.
fn run_sheet(rt: &impl Print, name: &str, sheet: &Measured) -> io::Result<()> {
    run(rt, name, sheet, rule(16, 2.5, leaf(0), leaf(0)))
}

// The trees on the four-row sheet.
fn run_trees(rt: &impl Print, trees: &[(&str, Tree)]) -> io::Result<()> {
    let sheet = Measured {
        size: SIZE,
        values: &VALUES,
        codes: &CODES,
    };
    for (name, tree) in trees {
        run(rt, name, &sheet, *tree)?;
    }
    Ok(())
}

fn both_sides(rt: &impl Print) -> io::Result<()> {
    let low = split(0, 1.5, 0, 1);
    let high = split(0, 3.5, 0, 1);
    run_trees(
        rt,
        &[
            ("two questions", rule(0, 2.5, low, high)),
            ("left leaf", rule(0, 2.5, leaf(0), high)),
            ("right leaf", rule(0, 2.5, low, leaf(1))),
            ("two leaves", rule(0, 2.5, leaf(0), leaf(0))),
            ("labels swapped", rule(0, 2.5, split(0, 1.5, 1, 0), high)),
        ],
    )
}

fn at_thresholds(rt: &impl Print) -> io::Result<()> {
    run_trees(
        rt,
        &[
            ("value at the threshold", rule(0, 1.0, leaf(0), leaf(1))),
            (
                "value at the second threshold",
                rule(0, 2.5, split(0, 1.0, 0, 1), leaf(1)),
            ),
            ("all left", rule(0, 4.0, split(0, 3.5, 0, 1), leaf(1))),
            ("all right", rule(0, 0.5, leaf(0), split(0, 1.5, 0, 1))),
            ("largest threshold", rule(0, 1.0e308, leaf(0), leaf(1))),
        ],
    )
}

fn high_columns(rt: &impl Print) -> io::Result<()> {
    let fair = split(0, 1.5, 0, 1);
    let high = split(1, 1.5, 0, 1);
    run_trees(
        rt,
        &[
            ("column of the root", rule(1, 2.5, high, high)),
            ("column on the left", rule(0, 2.5, high, high)),
            ("column on the right", rule(0, 2.5, fair, high)),
        ],
    )
}

fn high_labels(rt: &impl Print) -> io::Result<()> {
    let fair = split(0, 1.5, 0, 1);
    run_trees(
        rt,
        &[
            ("left leaf's label", rule(0, 2.5, leaf(2), leaf(2))),
            (
                "left side's left label",
                rule(0, 2.5, split(0, 1.5, 2, 1), fair),
            ),
            (
                "left side's right label",
                rule(0, 2.5, split(0, 1.5, 0, 2), fair),
            ),
            ("right leaf's label", rule(0, 2.5, fair, leaf(2))),
            (
                "right side's left label",
                rule(0, 2.5, fair, split(0, 3.5, 2, 1)),
            ),
            (
                "right side's right label",
                rule(0, 2.5, leaf(1), split(0, 3.5, 0, 2)),
            ),
        ],
    )
}

fn endless_roots(rt: &impl Print) -> io::Result<()> {
    let fair = split(0, 1.5, 0, 1);
    let endless = split(0, f64::INFINITY, 0, 1);
    run_trees(
        rt,
        &[
            (
                "infinite at the root",
                rule(0, f64::INFINITY, endless, fair),
            ),
            (
                "minus infinite at the root",
                rule(0, f64::NEG_INFINITY, fair, fair),
            ),
            ("no number at the root", rule(0, f64::NAN, fair, fair)),
        ],
    )
}

fn endless_sides(rt: &impl Print) -> io::Result<()> {
    let endless = split(0, f64::INFINITY, 0, 1);
    let neither = split(0, f64::NAN, 0, 1);
    let fair = split(0, 1.5, 0, 1);
    run_trees(
        rt,
        &[
            ("infinite on the left", rule(0, 2.5, endless, endless)),
            ("no number on the left", rule(0, 2.5, neither, leaf(0))),
            ("infinite on the right", rule(0, 2.5, fair, endless)),
            ("no number on the right", rule(0, 2.5, leaf(0), neither)),
        ],
    )
}

fn two_reasons(rt: &impl Print) -> io::Result<()> {
    let fair = split(0, 1.5, 0, 1);
    let endless = split(1, f64::INFINITY, 0, 1);
    run_trees(
        rt,
        &[
            ("column before label", rule(0, 2.5, leaf(2), endless)),
            (
                "label before threshold",
                rule(0, f64::INFINITY, fair, leaf(2)),
            ),
        ],
    )
}

// The four rows as of another size.
fn run_size(
    rt: &impl Print,
    name: &str,
    rows: usize,
    columns: usize,
    labels: usize,
) -> io::Result<()> {
    let sheet = Measured {
        size: Size {
            rows,
            columns,
            labels,
        },
        values: &VALUES,
        codes: &CODES,
    };
    run_sheet(rt, name, &sheet)
}

fn bad_sizes(rt: &impl Print) -> io::Result<()> {
    run_size(rt, "no rows", 0, 1, 2)?;
    run_size(rt, "17 columns", 4, 17, 2)?;
    run_size(rt, "33 labels", 4, 1, 33)?;
    run_size(rt, "values short", 4, 2, 2)?;
    run_size(rt, "labels long", 2, 2, 2)
}

fn bad_lists(rt: &impl Print) -> io::Result<()> {
    let sheet = Measured {
        size: SIZE,
        values: &VALUES,
        codes: &[0, 1, 2, 2],
    };
    let large = Measured {
        values: &[1.0, 2.0, 1000000000001.0, 4.0],
        ..sheet
    };
    run_sheet(rt, "value too large", &large)?;
    run_sheet(rt, "label too high", &sheet)?;
    run_size(rt, "sheet fair", 4, 1, 2)
}

fn main(rt: HostRuntime) -> io::Result<()> {
    both_sides(&rt)?;
    at_thresholds(&rt)?;
    high_columns(&rt)?;
    high_labels(&rt)?;
    endless_roots(&rt)?;
    endless_sides(&rt)?;
    two_reasons(&rt)?;
    bad_sizes(&rt)?;
    bad_lists(&rt)
}
