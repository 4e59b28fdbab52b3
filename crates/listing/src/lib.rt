// An answer as text, in the words of document 01.
#![tactic(auto)]

ghost use Rattle.std.specs.Prelude.{◌+◌, ◌≤◌, ◌≡◌};
ghost use Rattle.digits.specs.Put.{HasRoom, SameMemory, Wrote};
ghost use Rattle.listing.specs.Listing.{field, spot_of, question_of, score_of, line_of, leaf_of, split_of, side_line, found_of, rule_lines, listing_of, ListedIn};
ghost use Rattle.listing.specs.Listing.{most_field, spot_length, most_question, most_score, most_line, most_leaf, most_split, most_side, most_found, longest};

use digits::Text;
use tree::{Answer, Leaf, Question, Side, Tree};

// Room for every listing.
pub const LONGEST: usize = 410;

const LEFT_MARK: u8 = b'L';

const RIGHT_MARK: u8 = b'R';

// A word and a number.
fn put_field(text: &mut Text, word: &[u8], n: u64)
    requires { HasRoom text.old (most_field word.now) }
    ensures same_memory { SameMemory text.old text.new }
    ensures stored { Wrote text.old (field word.now n) text.new }
    ensures room { text.new.at ≤ text.old.at + most_field word.now }
{
    text.put_bytes(word);
    text.put_decimal(n);
}

#[tactic(auto, using(digits::proofs::Puts::joined), unfolding(crate::specs::Listing::spot_of))]
fn put_threshold(text: &mut Text, threshold: f64)
    requires { HasRoom text.old spot_length }
    ensures same_memory { SameMemory text.old text.new }
    ensures stored { Wrote text.old (spot_of threshold) text.new }
    ensures room { text.new.at ≡ text.old.at + spot_length }
{
    text.put_bytes(b" at=");
    text.put_hex(digits::bits_of(threshold));
}

// A word, a question's column, and its threshold.
fn put_question(text: &mut Text, word: &[u8], question: Question)
    requires { HasRoom text.old (most_question word.now) }
    ensures same_memory { SameMemory text.old text.new }
    ensures stored { Wrote text.old (question_of word.now question) text.new }
    ensures room { text.new.at ≤ text.old.at + most_question word.now }
{
    put_field(text, word, question.column as u64);
    put_threshold(text, question.threshold);
}

// A word, a leaf's label, and its error.
fn put_score(text: &mut Text, word: &[u8], leaf: Leaf)
    requires { HasRoom text.old (most_score word.now) }
    ensures same_memory { SameMemory text.old text.new }
    ensures stored { Wrote text.old (score_of word.now leaf) text.new }
    ensures room { text.new.at ≤ text.old.at + most_score word.now }
{
    put_field(text, word, leaf.label as u64);
    put_field(text, b"/", u64::from(leaf.error));
}

// Two words, each with a number, and the line's end.
fn put_line(text: &mut Text, one: &[u8], m: u64, two: &[u8], n: u64)
    requires { HasRoom text.old (most_line one.now two.now) }
    ensures same_memory { SameMemory text.old text.new }
    ensures stored { Wrote text.old (line_of one.now m two.now n) text.new }
    ensures room { text.new.at ≤ text.old.at + most_line one.now two.now }
{
    put_field(text, one, m);
    put_field(text, two, n);
    text.put_bytes(b"\n");
}

// Past a leaf's mark.
#[tactic(auto, unfolding(crate::specs::Listing::leaf_of))]
fn put_leaf(text: &mut Text, leaf: Leaf)
    requires { HasRoom text.old most_leaf }
    ensures same_memory { SameMemory text.old text.new }
    ensures stored { Wrote text.old (leaf_of leaf) text.new }
    ensures room { text.new.at ≤ text.old.at + most_leaf }
{
    put_line(
        text,
        b" LEAF label=",
        leaf.label as u64,
        b" error=",
        u64::from(leaf.error),
    );
}

// Past a split's mark.
fn put_split(text: &mut Text, question: Question, left: Leaf, right: Leaf)
    requires { HasRoom text.old most_split }
    ensures same_memory { SameMemory text.old text.new }
    ensures stored { Wrote text.old (split_of question left right) text.new }
    ensures room { text.new.at ≤ text.old.at + most_split }
{
    put_question(text, b" SPLIT column=", question);
    put_score(text, b" left=", left);
    put_score(text, b" right=", right);
    text.put_bytes(b"\n");
}

#[tactic(auto, using(digits::proofs::Puts::joined), unfolding(crate::specs::Listing::side_line))]
fn put_side(text: &mut Text, mark: u8, side: Side)
    requires { HasRoom text.old most_side }
    ensures same_memory { SameMemory text.old text.new }
    ensures stored { Wrote text.old (side_line mark side) text.new }
    ensures room { text.new.at ≤ text.old.at + most_side }
{
    text.put_bytes(&[mark]);
    match side {
        Side::Leaf(leaf) => put_leaf(text, leaf),
        Side::Split {
            question,
            left,
            right,
        } => put_split(text, question, left, right),
    }
}

// A rule's first line.
fn put_found(text: &mut Text, tree: Tree, tried: u32)
    requires { HasRoom text.old most_found }
    ensures same_memory { SameMemory text.old text.new }
    ensures stored { Wrote text.old (found_of tree tried) text.new }
    ensures room { text.new.at ≤ text.old.at + most_found }
{
    put_field(text, b"FOUND error=", u64::from(tree.error));
    put_question(text, b" column=", tree.question);
    put_field(text, b" tried=", u64::from(tried));
    text.put_bytes(b"\n");
}

fn put_rule(text: &mut Text, tree: Tree, tried: u32)
    requires { HasRoom text.old longest }
    ensures same_memory { SameMemory text.old text.new }
    ensures stored { Wrote text.old (rule_lines tree tried) text.new }
{
    put_found(text, tree, tried);
    put_side(text, LEFT_MARK, tree.left);
    put_side(text, RIGHT_MARK, tree.right);
}

#[tactic(auto, unfolding(crate::specs::Listing::listing_of, crate::specs::Listing::refused_of, crate::specs::Listing::kept_of))]
fn put_answer(text: &mut Text, answer: Answer)
    requires { HasRoom text.old longest }
    ensures same_memory { SameMemory text.old text.new }
    ensures stored { Wrote text.old (listing_of answer) text.new }
{
    match answer {
        Answer::TurnedBack { number, place } => put_line(
            text,
            b"REFUSED ",
            u64::from(number),
            b" place=",
            place as u64,
        ),
        Answer::Kept { error, tried } => put_line(
            text,
            b"KEPT error=",
            u64::from(error),
            b" tried=",
            u64::from(tried),
        ),
        Answer::Found { tree, tried } => put_rule(text, tree, tried),
    }
}

// The answer's listing at the start of `out`, and its length. Nothing is written where there is no room for every listing.
#[tactic(auto, using(crate::proofs::Room::none_written, crate::proofs::Room::out_kept))]
pub fn write_answer(answer: Answer, out: &mut [u8]) -> usize
    ensures { ListedIn answer out.old result out.new }
{
    if out.len() < LONGEST {
        return 0;
    }
    let mut text = Text { out, at: 0 };
    put_answer(&mut text, answer);
    text.at
}
