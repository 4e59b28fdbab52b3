// The rule that the search finds for a sheet's bytes, run over the rows by the judge.
use crate::count::Count;
use judge::judge;
use judge::judge_rows::{Judgement, Wrong};
use prepare::prepare;
use sheet::lent::{LentSheet, Measured};
use sheet::refusals::Refusal;
use sheet::{MOST_COLUMNS, Terms};
use sheet_bytes::sheet_room::{MOST_CELLS, MOST_READ};
use sheet_bytes::{Head, MOST_WORDS, read_sheet};
use tree::{Answer, Side, Tree};

fn same_mistakes(wrong: Wrong, side: Side) -> bool {
    match (wrong, side) {
        (Wrong::AtLeaf(reached), Side::Leaf(leaf)) => reached.wrong == leaf.error,
        (Wrong::AtSplit(first, second), Side::Split { left, right, .. }) => {
            first.wrong == left.error && second.wrong == right.error
        }
        _ => false,
    }
}

// The judge's mistakes are the rule's own, in total and at each leaf, and its support is enough.
fn confirms(judgement: Judgement, tree: Tree, support: u32) -> bool {
    judgement.mistakes == tree.error
        && support.max(1) <= judgement.support
        && same_mistakes(judgement.left, tree.left)
        && same_mistakes(judgement.right, tree.right)
}

// The lists are lent as long as the sheet asks for.
fn find(measured: Measured, terms: Terms) -> Result<Answer, Refusal> {
    let mut order = [0u16; MOST_CELLS];
    let mut cuts = [0u16; MOST_CELLS];
    let mut counts = [0u16; MOST_COLUMNS];
    let mut scratch = [0u32; MOST_WORDS];
    let cells = measured.values.len().min(MOST_CELLS);
    let columns = measured.size.columns.min(MOST_COLUMNS);
    prepare(
        measured.size.rows,
        columns,
        measured.values,
        &mut order[..cells],
        &mut cuts[..cells],
        &mut counts[..columns],
    )?;
    let sheet = LentSheet {
        measured,
        order: &order[..cells],
        cuts: &cuts[..cells],
        counts: &counts[..columns],
    };
    Ok(depth2::search(&sheet, terms, &mut scratch))
}

fn judge_sheet(measured: &Measured, terms: Terms) -> Count {
    let Ok(Answer::Found { tree, .. }) = find(*measured, terms) else {
        return Count::default();
    };
    let Ok(judgement) = judge(measured, tree) else {
        return Count::tree(false);
    };
    Count::tree(confirms(judgement, tree, terms.support))
}

// The room is the largest sheet's: only its start is the sheet's own. A sheet that was read is within the limits, so that nothing of it is cut off.
pub fn judge_bytes(bytes: &[u8]) -> Count {
    let mut values = [0.0f64; MOST_CELLS];
    let mut codes = [0u8; MOST_READ];
    let Ok(Head { size, terms }) = read_sheet(bytes, &mut values, &mut codes) else {
        return Count::default();
    };
    let cells = size.rows.saturating_mul(size.columns).min(MOST_CELLS);
    let rows = size.rows.min(MOST_READ);
    let measured = Measured {
        size,
        values: &values[..cells],
        codes: &codes[..rows],
    };
    judge_sheet(&measured, terms)
}
