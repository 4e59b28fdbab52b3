// The finder as one function: a sheet's bytes in, the text of its answer out.
#![tactic(auto)]

mod sheet_search;

ghost use Rattle.std.specs.Prelude.{◌≡◌};
ghost use Rattle.listing.specs.Listing.{ListedIn};
ghost use Rattle.rule_finder.specs.Run.{run_of};

use crate::sheet_search::find;
use sheet::lent::Measured;
use sheet_bytes::sheet_room::{MOST_CELLS, MOST_READ};
use tree::Answer;

fn answer_to(bytes: &[u8]) -> Answer
    ensures { result ≡ run_of bytes.now }
{
    let mut values = [0.0f64; MOST_CELLS];
    let mut codes = [0u8; MOST_READ];
    match sheet_bytes::read_sheet(bytes, &mut values, &mut codes) {
        Err(refusal) => Answer::from(refusal),
        Ok(head) => {
            let rows = head.size.rows;
            let cells = head.size.columns * rows;
            let measured = Measured {
                size: head.size,
                values: &values[..cells],
                codes: &codes[..rows],
            };
            find(&measured, head.terms)
        }
    }
}

// The answer to a sheet's bytes, as text at the start of `out`, and its length. Nothing is written where there is no room for every answer.
pub fn run(bytes: &[u8], out: &mut [u8]) -> usize
    ensures { ListedIn (run_of bytes.now) out.old result out.new }
{
    let answer = answer_to(bytes);
    listing::write_answer(answer, out)
}
