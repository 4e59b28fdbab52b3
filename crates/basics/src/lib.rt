// What every crate stands on: in specs/ a choice by a test, counts over a list and the first number that passes, with their laws in proofs/; a reader's
// bytes; and a run of one number.
#![tactic(auto)]

pub mod reading;
pub mod runs;
