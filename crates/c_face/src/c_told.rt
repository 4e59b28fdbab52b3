// What the check and the preparer tell a C caller, and how words come into a lent answer, which may be of any length.
ghost use Rattle.std.specs.Prelude.{◌≡◌};
ghost use Rattle.c_face.specs.Told.{written, verdict_words, verdict_told};

use sheet::refusals::Refusal;

// The words that the check and the preparer answer, as in include/finder.h.
const TOLD_WORDS: usize = 3;

// What the first word of an answer says, as in include/finder.h.
pub(crate) const TURNED_BACK: u64 = 0;

const TAKEN: u64 = 1;

// The words at the start of the answer; one too short for them is left alone.
#[tactic(auto, using(crate::proofs::Writing::left_alone, crate::proofs::Writing::all_written))]
pub(crate) fn write(answer: &mut [u64], words: &[u64])
    ensures { answer.new ≡ written words.now answer.old }
{
    if answer.len() < words.len() {
        return;
    }
    answer[..words.len()].copy_from_slice(words);
}

#[tactic(auto, unfolding(crate::specs::Told::verdict_words))]
fn verdict_words(verdict: Result<(), Refusal>) -> [u64; TOLD_WORDS]
    ensures { result ≡ verdict_words verdict }
{
    match verdict {
        Ok(()) => [TAKEN, 0, 0],
        Err(refusal) => [
            TURNED_BACK,
            u64::from(refusal.reason.number()),
            refusal.place as u64,
        ],
    }
}

pub(crate) fn tell_verdict(answer: &mut [u64], verdict: Result<(), Refusal>)
    ensures { answer.new ≡ verdict_told verdict answer.old }
{
    write(answer, &verdict_words(verdict));
}
