// The input check as a whole: the lowest of reasons 1 to 9 that holds, and its first place.
#![tactic(auto)]

mod cuts_check;
mod fall_check;
mod order_check;
mod pass_check;

ghost use Rattle.std.specs.Prelude.{◌≡◌, length};
ghost use Rattle.sheet.specs.Check.{lengths_hold, content_of};
ghost use Rattle.sheet.specs.Lent.{sheet_in};
ghost use Rattle.sheet.specs.Ready.{Shaped};
ghost use Rattle.sheet.specs.Sound.{Limited};
ghost use Rattle.sheet_check.specs.Promise.{CheckedOf};

use sheet::lent::LentSheet;
use sheet::refusals::{Reason, Refusal};
use sheet::{Terms, WORDS_PER_ROW};

#[tactic(auto, unfolding(sheet::specs::Check::lengths_hold))]
fn lengths_hold(sheet: &LentSheet) -> bool
    requires { Limited (sheet_in sheet.now) }
    ensures { result ≡ lengths_hold (sheet_in sheet.now) }
{
    let size = sheet.measured.size;
    let cells = size.columns * size.rows;
    sheet.measured.values.len() == cells
        && sheet.measured.codes.len() == size.rows
        && sheet.order.len() == cells
        && sheet.cuts.len() == cells
        && sheet.counts.len() == size.columns
}

// Reasons 5 to 9, one after the other. The marks may hold anything, before and after.
fn first_reason(sheet: &LentSheet, marks: &mut [u32]) -> Result<(), Refusal>
    requires { Shaped (sheet_in sheet.now) × (length marks.old ≡ sheet.now.measured.size.rows) }
    ensures { result ≡ content_of (sheet_in sheet.now) }
{
    let measured = sheet.measured;
    if let Some(index) = sheet::first_bad_value(measured.values) {
        return Err(Reason::ValueOutside.at(index));
    }
    if let Some(row) = sheet::first_bad_label(measured.codes, measured.size.labels) {
        return Err(Reason::LabelHigh.at(row));
    }
    if let Some(entry) = crate::order_check::first_bad_order(sheet, marks) {
        return Err(Reason::OrderWrong.at(entry));
    }
    if let Some(fall) = crate::fall_check::first_fall(sheet) {
        return Err(Reason::ValueFalls.at(fall));
    }
    if let Some(column) = crate::cuts_check::first_bad_cuts(sheet) {
        return Err(Reason::CutsWrong.at(column));
    }
    Ok(())
}

// Reasons 5 to 9. That a sheet gives none is shown in one pass; only where that fails are they looked for one after the other.
fn check_lists(sheet: &LentSheet, marks: &mut [u32]) -> Result<(), Refusal>
    requires { Shaped (sheet_in sheet.now) × (length marks.old ≡ sheet.now.measured.size.rows) }
    ensures { result ≡ content_of (sheet_in sheet.now) }
{
    if crate::pass_check::lists_pass(sheet, marks) {
        return Ok(());
    }
    first_reason(sheet, marks)
}

// The input check: the lowest reason that holds, and its first place; else that the sheet is accepted.
pub fn check(sheet: &LentSheet, terms: Terms, scratch: &mut [u32]) -> Result<(), Refusal>
    ensures { CheckedOf (sheet_in sheet.now) terms scratch.old result scratch.new }
{
    let size = sheet.measured.size;
    if !sheet::size_holds(size) {
        return Err(Reason::SizeOutside.whole());
    }
    if !lengths_hold(sheet) {
        return Err(Reason::LengthWrong.whole());
    }
    let words = WORDS_PER_ROW * size.rows;
    if scratch.len() < words {
        return Err(Reason::ScratchShort.whole());
    }
    if !sheet::terms_hold(terms) {
        return Err(Reason::TermAbove.whole());
    }
    let answer = check_lists(sheet, &mut scratch[..size.rows]);
    sheet::clear(scratch, words);
    answer
}
