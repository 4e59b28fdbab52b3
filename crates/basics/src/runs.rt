// Runs of one number at the front of lent words.
ghost use Rattle.std.specs.Prelude.{◌≡◌, ◌≢◌, ◌<◌, ◌≤◌, length, take, slice_index, All};

// How many words at the front hold that number.
pub fn run_length(words: &[u32], number: u32) -> usize
    ensures within { result ≤ length words.now }
    ensures held { All (λ word. word ≡ number) (take result words.now) }
    ensures ended { result < length words.now → slice_index words.now result ≢ number }
{
    words
        .iter()
        .position(|word| *word != number)
        .unwrap_or(words.len())
}
