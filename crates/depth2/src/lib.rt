// The search of a whole sheet (depth2.rs): every column's cuts as the first question, the two-side scan below it.
#![tactic(auto)]

ghost use Rattle.std.specs.Prelude.{◌≡◌};
ghost use Rattle.sheet.specs.Lent.{sheet_in};
ghost use Rattle.column_turns.specs.Lent.{Enough};
ghost use Rattle.column_turns.specs.Promise.{Whole};
ghost use Rattle.depth2.specs.Promise.{SearchedOf};
ghost use Rattle.depth2.specs.Columns.{answer_held, ColumnsSearched, AllDouble};

use column_turns::interval_steps::Standing;
use sheet::lent::LentSheet;
use sheet::{Terms, WORDS_PER_ROW};
use tree::Answer;

// ---- the columns

// The columns in order. After a column, the search stops if the error is at most the gap.
fn search_columns(sheet: &LentSheet, terms: Terms, scratch: &mut [u32]) -> Standing
    requires { Whole (sheet_in sheet.now) × Enough sheet.now.measured.size.rows scratch.old }
    ensures { ColumnsSearched (sheet_in sheet.now) terms scratch.old result scratch.new }
{
    let mut standing = Standing {
        error: terms.error,
        tried: 0,
        held: None,
    };
    for column in 0..sheet.measured.size.columns {
        standing = column_turns::search_column(sheet, terms, column, standing, scratch);
        if standing.error <= terms.gap {
            return standing;
        }
    }
    standing
}

// ---- the search

// What a proof may count on of every slice of f64.
fn are_doubles(values: &[f64])
    ensures { AllDouble values.now }
{}

#[tactic(auto, unfolding(crate::specs::Columns::answer_held))]
fn answer_of(standing: Standing) -> Answer
    ensures { result ≡ answer_held standing.error standing.tried standing.held }
{
    let Standing { error, tried, held } = standing;
    match held {
        None => Answer::Kept { error, tried },
        Some(tree) => Answer::Found { tree, tried },
    }
}

// The search of a whole sheet: the input check, then the columns, then the lent words cleared.
pub fn search(sheet: &LentSheet, terms: Terms, scratch: &mut [u32]) -> Answer
    ensures { SearchedOf (sheet_in sheet.now) terms scratch.old result scratch.new }
{
    are_doubles(sheet.measured.values);
    if let Err(refusal) = sheet_check::check(sheet, terms, scratch) {
        return Answer::from(refusal);
    }
    let standing = search_columns(sheet, terms, scratch);
    sheet::clear(scratch, WORDS_PER_ROW * sheet.measured.size.rows);
    answer_of(standing)
}
