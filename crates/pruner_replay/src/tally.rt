// What was answered about a list, as one number: millions of cases then need a few bytes of a file.

#[derive(Clone, Copy, PartialEq, Eq)]
pub struct Tally {
    pub cases: u64,
    pub digest: u64,
}

impl Default for Tally {
    // The digest begins at 1, since a 0 that takes in zeros stays 0.
    fn default() -> Self {
        Tally {
            cases: 0,
            digest: 1,
        }
    }
}

impl Tally {
    // One more case. The step is Marsaglia's xorshift: it is linear over bits and has the period 2^64 - 1, so that a single difference always shows, and so
    // does one that is the same in every case.
    pub fn tell(&mut self, answer: usize) {
        let begun = self.digest ^ (answer as u64);
        let spread = begun ^ (begun << 13);
        let mixed = spread ^ (spread >> 7);
        self.cases = self.cases.wrapping_add(1);
        self.digest = mixed ^ (mixed << 17);
    }
}
