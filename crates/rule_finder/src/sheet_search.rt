// A sheet that was read, prepared and searched, with the room that this needs.
ghost use Rattle.std.specs.Prelude.{◌≡◌, length};
ghost use Rattle.prepare.specs.Prepared.{prepare_of};
ghost use Rattle.depth2.specs.Search.{search_of};
ghost use Rattle.rule_finder.specs.Ready.{Prepares};
ghost use Rattle.rule_finder.specs.Run.{prepared_in, words_lent};

use sheet::lent::{LentSheet, Measured};
use sheet::{MOST_COLUMNS, Terms};
use sheet_bytes::MOST_WORDS;
use sheet_bytes::sheet_room::MOST_CELLS;
use tree::Answer;

// The preparer turns back no sheet that was read.
fn prepare_and_search(
    measured: &Measured,
    terms: Terms,
    order: &mut [u16],
    cuts: &mut [u16],
    counts: &mut [u16],
    scratch: &mut [u32],
) -> Answer
    requires { Ok tt ≡ prepare_of measured.now.size.rows measured.now.size.columns measured.now.values.now (length order.old) (length cuts.old) (length counts.old) }
    ensures { result ≡ search_of (prepared_in measured.now) terms (length scratch.old) }
{
    let Measured { size, values, .. } = *measured;
    prepare::prepare(size.rows, size.columns, values, order, cuts, counts).unwrap();
    let sheet = LentSheet {
        measured: *measured,
        order,
        cuts,
        counts,
    };
    certificate::certified_search(&sheet, terms, scratch)
}

// A sheet's answer, with the room that the preparer and the search ask for.
pub(crate) fn find(measured: &Measured, terms: Terms) -> Answer
    requires { Prepares measured.now }
    ensures { result ≡ search_of (prepared_in measured.now) terms words_lent }
{
    let mut order = [0u16; MOST_CELLS];
    let mut cuts = [0u16; MOST_CELLS];
    let mut counts = [0u16; MOST_COLUMNS];
    let mut scratch = [0u32; MOST_WORDS];
    let cells = measured.values.len();
    prepare_and_search(
        measured,
        terms,
        &mut order[..cells],
        &mut cuts[..cells],
        &mut counts[..measured.size.columns],
        &mut scratch,
    )
}
