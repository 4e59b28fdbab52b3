// What the numbers of lists and of cases say. They are those of the recorded digests, and so are the numbers of the cuts in them: digests of other numbers
// could not be compared.
ghost use Rattle.std.specs.Counts.{IsPrefixLen};

use interval_pruner::Bound;

// In the place of a cut's number: no cut.
pub const NONE: usize = 255;
// The highest place in a list, and so the most cuts that it has.
pub const MOST_CUTS: usize = 8;

// Lists are the numbers below this: each of 8 places is in a list or not.
pub const LISTS: usize = 256;
// One of the cuts or none, and two such.
const MARKS: usize = 9;

pub const MARKINGS: usize = 81;
// Two such, and two cuts as the ends of an interval.
pub const BOUNDS: usize = 5184;

// No cut is 0, and cut k is k + 1.
fn cut_of(code: usize) -> Option<usize> {
    code.checked_sub(1)
}

pub fn number_of(cut: Option<usize>) -> usize {
    cut.unwrap_or(NONE)
}

// A number of two marks alone is that of the interval from cut 0 to cut 0 with them.
pub fn bound_of(code: usize) -> Bound {
    Bound {
        first: code / MARKINGS % MOST_CUTS,
        last: code / MARKINGS / MOST_CUTS,
        left: cut_of(code % MARKS),
        right: cut_of(code / MARKS % MARKS),
    }
}

// The ends are in order and in a list of `count` cuts; the left cut, if there is one, is below `left_end`, and the right one in the list from
// `right_from` on.
pub fn listed(bound: Bound, count: usize, left_end: usize, right_from: usize) -> bool {
    bound.first <= bound.last
        && bound.last < count
        && bound.left.is_none_or(|left| left < left_end)
        && bound
            .right
            .is_none_or(|right| right_from <= right && right < count)
}

// The places of a list that is given as one number: bit k says that place k + 1 is in it. Answers how many there are.
pub fn places(list: &mut [u16; MOST_CUTS], mask: usize) -> usize
    ensures { IsPrefixLen result list.new }
{
    let mut count = 0;
    for bit in 0..8u16 {
        if mask >> bit & 1 == 1 {
            list[count] = bit + 1;
            count += 1;
        }
    }
    count
}
