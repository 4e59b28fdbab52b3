// The intervals that wait, first in first out: a ring in lent words, four words an interval (the original's `VecDeque`).
#![tactic(auto)]

ghost use Rattle.std.specs.Prelude.{◌≡◌, ◌+◌, ◌/◌, ◌<◌, ◌≤◌, length};
ghost use Rattle.interval_queue.specs.Ring.{slot_of, word_of, word_of_tried, tried_in, stored, loaded, taken, PushedTo};

use interval_pruner::Bound;

// Where the first interval stands, and how many wait.
#[derive(Clone, Copy, Default)]
pub struct Queue {
    pub head: usize,
    pub waiting: usize,
}

// The first interval, and the queue without it.
#[derive(Clone, Copy)]
pub struct Popped {
    pub bound: Bound,
    pub queue: Queue,
}

// An interval's words: its first cut, its last, and the cuts remembered on its left and on its right.
const LAST: usize = 1;

const LEFT: usize = 2;

const RIGHT: usize = 3;

const WORDS: usize = 4;

// The ring's slot k places after the head.
#[tactic(auto, unfolding(crate::specs::Ring::slot_of, basics::specs::Choice::pick))]
fn slot(head: usize, k: usize, slots: usize) -> usize
    requires { (head < slots) × (k ≤ slots) × (slots ≤ 0xffff_ffff_ffff_ffff / 4) }
    ensures { (result ≡ slot_of head k slots) × (result < slots) }
{
    let at = head + k;
    if at < slots { at } else { at - slots }
}

// A number as a word. Cut numbers are far below the largest word.
#[tactic(auto, unfolding(crate::specs::Ring::word_of))]
fn word(n: usize) -> u32
    ensures { result ≡ word_of n }
{
    u32::try_from(n).unwrap_or(u32::MAX)
}

// A remembered cut as a word, since the ring lies in lent words: 0 for none, else one more than its number.
#[tactic(auto, unfolding(crate::specs::Ring::word_of_tried, crate::specs::Ring::word_of))]
fn mark(tried: Option<usize>) -> u32
    ensures { result ≡ word_of_tried tried }
{
    match tried {
        None => 0,
        Some(k) => word(k.saturating_add(1)),
    }
}

// The remembered cut that `mark` keeps as this word.
#[tactic(auto, using(crate::proofs::Cases::tried_none, crate::proofs::Cases::tried_some))]
fn cut(word: u32) -> Option<usize>
    ensures { result ≡ tried_in word }
{
    (word as usize).checked_sub(1)
}

#[tactic(auto, unfolding(crate::specs::Ring::stored))]
fn store(words: &mut [u32], at: usize, bound: Bound)
    requires { at + 4 ≤ length words.old }
    ensures { words.new ≡ stored words.old at bound }
{
    words[at] = word(bound.first);
    words[at + LAST] = word(bound.last);
    words[at + LEFT] = mark(bound.left);
    words[at + RIGHT] = mark(bound.right);
}

#[tactic(auto, unfolding(crate::specs::Ring::loaded))]
fn load(words: &[u32], at: usize) -> Bound
    requires { at + 4 ≤ length words.now }
    ensures { result ≡ loaded words.now at }
{
    Bound {
        first: words[at] as usize,
        last: words[at + LAST] as usize,
        left: cut(words[at + LEFT]),
        right: cut(words[at + RIGHT]),
    }
}

// One interval more at the end; a full ring stays as it is.
#[tactic(auto, using(crate::proofs::Cases::push_room, crate::proofs::Cases::push_room_words))]
pub fn push(words: &mut [u32], queue: Queue, bound: Bound) -> Queue
    ensures { PushedTo words.old queue bound result words.new }
{
    let slots = words.len() / WORDS;
    let Queue { head, waiting } = queue;
    if slots <= head {
        return queue;
    }
    if slots <= waiting {
        return queue;
    }
    let at = slot(head, waiting, slots) * WORDS;
    store(words, at, bound);
    Queue {
        head,
        waiting: waiting + 1,
    }
}

// The first interval off the queue; none where none waits, or the head is no slot.
#[tactic(auto, using(crate::proofs::Cases::take_out, crate::proofs::Cases::take_none, crate::proofs::Cases::take_some, crate::proofs::Cases::pop_some))]
pub fn pop(words: &[u32], queue: Queue) -> Option<Popped>
    ensures { result ≡ taken words.now queue }
{
    let slots = words.len() / WORDS;
    let Queue { head, waiting } = queue;
    if slots <= head {
        return None;
    }
    let waiting = waiting.checked_sub(1)?;
    let bound = load(words, head * WORDS);
    let head = slot(head, 1, slots);
    Some(Popped {
        bound,
        queue: Queue { head, waiting },
    })
}
