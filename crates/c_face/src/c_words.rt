// The words that a C caller gets back from a search.
ghost use Rattle.std.specs.Prelude.{◌≡◌};
ghost use Rattle.c_face.specs.Told.{written};
ghost use Rattle.c_face.specs.Rule.{side_words, found_words, short_words, search_words};

use crate::c_told::{TURNED_BACK, write};
use tree::{Answer, Side, Tree};

// The words of a side, and of a search's answer, as in include/finder.h.
const SIDE_WORDS: usize = 7;

const SEARCH_WORDS: usize = 19;

// Where the sides begin in an answer, as in include/finder.h.
const SEARCH_LEFT: usize = 5;

const SEARCH_RIGHT: usize = 12;

// What a side's first word says, as in include/finder.h.
const LEAF: u64 = 0;

const SPLIT: u64 = 1;

// What the first word of a search's answer says, where it is not turned back, as in include/finder.h.
const KEPT: u64 = 1;

const FOUND: u64 = 2;

#[tactic(auto, unfolding(crate::specs::Rule::side_words))]
fn side_words(side: Side) -> [u64; SIDE_WORDS]
    ensures { result ≡ side_words side }
{
    match side {
        Side::Leaf(leaf) => [LEAF, leaf.label as u64, u64::from(leaf.error), 0, 0, 0, 0],
        Side::Split {
            question,
            left,
            right,
        } => [
            SPLIT,
            question.column as u64,
            digits::bits_of(question.threshold),
            left.label as u64,
            right.label as u64,
            u64::from(left.error),
            u64::from(right.error),
        ],
    }
}

fn found_words(tree: Tree, tried: u32) -> [u64; SEARCH_WORDS]
    ensures { result ≡ found_words tree tried }
{
    let mut words = [0; SEARCH_WORDS];
    words[..SEARCH_LEFT].copy_from_slice(&[
        FOUND,
        u64::from(tree.error),
        u64::from(tried),
        tree.question.column as u64,
        digits::bits_of(tree.question.threshold),
    ]);
    words[SEARCH_LEFT..SEARCH_RIGHT].copy_from_slice(&side_words(tree.left));
    words[SEARCH_RIGHT..].copy_from_slice(&side_words(tree.right));
    words
}

// A case that says two numbers, and 0 in the sixteen words past them.
#[tactic(auto, unfolding(crate::specs::Rule::short_words))]
fn short_words(kind: u64, first: u64, second: u64) -> [u64; SEARCH_WORDS]
    ensures { result ≡ short_words kind first second }
{
    let mut words = [0; SEARCH_WORDS];
    words[..3].copy_from_slice(&[kind, first, second]);
    words
}

#[tactic(auto, unfolding(crate::specs::Rule::search_words))]
fn search_words(answer: Answer) -> [u64; SEARCH_WORDS]
    ensures { result ≡ search_words answer }
{
    match answer {
        Answer::TurnedBack { number, place } => {
            short_words(TURNED_BACK, u64::from(number), place as u64)
        }
        Answer::Kept { error, tried } => short_words(KEPT, u64::from(error), u64::from(tried)),
        Answer::Found { tree, tried } => found_words(tree, tried),
    }
}

pub(crate) fn tell_searched(answer: &mut [u64], found: Answer)
    ensures { answer.new ≡ written (search_words found) answer.old }
{
    write(answer, &search_words(found));
}
