// The two sides of a root split: which rows are whose.
ghost use Rattle.std.specs.Prelude.{◌≡◌};
ghost use Rattle.leaves_score.specs.SideLists.{ReadyRows, parts_of};

use sheet::MOST_LABELS;

// The left side is number 0, the right side number 1: a row's mark is the number of its side.
pub(crate) const SIDES: usize = 2;

// The rows of a side: how many of each label, and how many in all.
#[derive(Clone, Copy)]
pub(crate) struct Part {
    pub own: [u16; MOST_LABELS],
    pub size: u32,
}

// The rows of each side, by its number.
pub(crate) fn part_rows(rows: usize, codes: &[u8], marks: &[u32]) -> [Part; SIDES]
    requires { ReadyRows rows codes.now marks.now }
    ensures { result ≡ parts_of rows codes.now marks.now }
{
    let none = Part {
        own: [0; MOST_LABELS],
        size: 0,
    };
    let mut parts = [none; SIDES];
    for row in 0..rows {
        let label = usize::from(codes[row]);
        let part = &mut parts[marks[row] as usize];
        part.own[label] += 1;
        part.size += 1;
    }
    parts
}
