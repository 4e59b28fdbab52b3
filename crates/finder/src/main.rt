// The finder: one sheet on standard input, its answer on standard output. Where either fails, a line on standard error says why, and the
// program ends with that error.
#![tactic(auto)]

ghost use Rattle.std.specs.Prelude.{◌≡◌, take};
ghost use Rattle.std.specs.Counts.{IsPrefixLen};
ghost use Rattle.listing.specs.Listing.{listing_of};
ghost use Rattle.rule_finder.specs.Run.{run_of};

use basics::reading::read_full;
use listing::LONGEST;
use std::io;

// The answer's text in room for the longest, and its length.
fn answer(bytes: &[u8], text: &mut [u8; LONGEST]) -> usize
    ensures within { IsPrefixLen result text.new }
    ensures said { take result text.new ≡ listing_of (run_of bytes.now) }
{
    rule_finder::run(bytes, text)
}

// All of the answer is written, or an error is answered.
fn print_answer(rt: &impl Print, bytes: &[u8]) -> io::Result<()> {
    let mut text = [0u8; LONGEST];
    let length = answer(bytes, &mut text);
    rt.write_all(&text[..length])
}

// Says on standard error what failed and why, and answers the error.
fn fail(rt: &impl Eprint, what: &str, error: io::Error) -> io::Result<()> {
    eprintln!(rt; "{what}: {error}")?;
    Err(error)
}

fn main(rt: HostRuntime) -> io::Result<()> {
    let mut bytes = sheet_bytes::sheet_room::empty_room();
    let count = match read_full(&mut rt.stdin(), &mut bytes) {
        Ok(count) => count,
        Err(error) => return fail(&rt, "standard input", error),
    };
    match print_answer(&rt, &bytes[..count]) {
        Ok(()) => Ok(()),
        Err(error) => fail(&rt, "standard output", error),
    }
}
