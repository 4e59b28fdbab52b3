// What the search's answer is worth: the search, with the three sentences that a signer relies on as a clause of its contract.
#![tactic(auto)]

ghost use Rattle.sheet.specs.Lent.{sheet_in};
ghost use Rattle.depth2.specs.Columns.{AllDouble};
ghost use Rattle.certificate.specs.Promise.{SignedOf};

use sheet::Terms;
use sheet::lent::LentSheet;
use tree::Answer;

// What a proof may count on of every slice of f64.
fn are_doubles(values: &[f64])
    ensures { AllDouble values.now }
{}

// The search of a sheet. Its answer is the definition's, nothing better was passed over, it is never worse than the start, and a rule that
// it names makes just the mistakes that it says.
pub fn certified_search(sheet: &LentSheet, terms: Terms, scratch: &mut [u32]) -> Answer
    ensures { SignedOf (sheet_in sheet.now) terms scratch.old result scratch.new }
{
    are_doubles(sheet.measured.values);
    depth2::search(sheet, terms, scratch)
}
