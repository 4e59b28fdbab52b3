// Asks the finder every recorded sheet and compares its text with the recorded answer, byte by byte. Then searches the sheet again for the rule itself,
// and has the judge run it over the rows. Where the text is the recorded one, the search's rule is the recorded rule: so the judge is run over recorded
// trees and sheets, and over the search's own answers. Prints for each file how many sheets it has, how many the finder answers otherwise, how many rules
// were judged, and how many of those the judge tells otherwise than the rule does.
#![tactic(auto)]

mod count;
mod judged;

use basics::reading::read_full;
use count::Count;
use listing::LONGEST;
use std::fs::File;
use std::io;
use std::io::Read;
use std::rt::Files;

// Nothing says that a file ends, so reading stops at this many records; the longer file has 2,400.
const MOST_RECORDS: u64 = 65536;

// Room for the bytes of the longest recorded sheet.
const ROOM: usize = 4096;

// The two lengths at a record's start.
const LENGTHS: usize = 4;

fn replayed(bytes: &[u8], recorded: &[u8]) -> Count {
    let mut text = [0u8; LONGEST];
    let length = rule_finder::run(bytes, &mut text);
    let mut count = Count::sheet(&text[..length] != recorded);
    count += judged::judge_bytes(bytes);
    count
}

// The next bytes of a file, as many as `size`; none where there is no room for so many, or the file ends before.
fn read_part<'a>(
    file: &mut impl Read,
    room: &'a mut [u8],
    size: usize,
) -> io::Result<Option<&'a [u8]>> {
    if room.len() < size {
        return Ok(None);
    }
    let came = read_full(file, &mut room[..size])?;
    if came < size {
        return Ok(None);
    }
    Ok(Some(&room[..size]))
}

// A record that is cut short, or longer than any that was recorded, is told otherwise.
fn replay_record(file: &mut impl Read, size: u16, length: u16) -> io::Result<Count> {
    let mut bytes = [0u8; ROOM];
    let mut text = [0u8; LONGEST];
    let sheet = read_part(file, &mut bytes, usize::from(size))?;
    let recorded = read_part(file, &mut text, usize::from(length))?;
    match (sheet, recorded) {
        (Some(sheet), Some(recorded)) => Ok(replayed(sheet, recorded)),
        _ => Ok(Count::sheet(true)),
    }
}

// What the next record counts; none at the file's end. oracle/recorded/README.md has a record's layout.
fn replay_next(file: &mut impl Read) -> io::Result<Option<Count>> {
    let mut lengths = [0u8; LENGTHS];
    let came = read_full(file, &mut lengths)?;
    if came == 0 {
        return Ok(None);
    }
    if came < LENGTHS {
        return Ok(Some(Count::sheet(true)));
    }
    let [a, b, c, d] = lengths;
    let count = replay_record(file, u16::from_le_bytes([a, b]), u16::from_le_bytes([c, d]))?;
    Ok(Some(count))
}

fn replay_all(file: &mut impl Read) -> io::Result<Count> {
    let mut total = Count::default();
    for _ in 0..MOST_RECORDS {
        let Some(count) = replay_next(file)? else {
            return Ok(total);
        };
        total += count;
    }
    Ok(total)
}

// A file that cannot be opened has no line, and the run fails.
fn replay<R: Files + Print + Eprint>(rt: &R, path: &str) -> io::Result<()> {
    match File::open(rt, path) {
        Ok(mut file) => {
            let total = replay_all(&mut file)?;
            println!(rt; "{path} {total}")
        }
        Err(error) => {
            eprintln!(rt; "{path}: {error}")?;
            Err(error)
        }
    }
}

fn main(rt: HostRuntime) -> io::Result<()> {
    replay(&rt, "sheets.bin")?;
    replay(&rt, "refused.bin")
}
