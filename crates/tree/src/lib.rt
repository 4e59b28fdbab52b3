// A found rule's shape (tree/mod.rs), and what a search answers.
#![tactic(auto)]

// "Is column c at most t?"
#[derive(Clone, Copy)]
pub struct Question {
    pub column: usize,
    pub threshold: f64,
}

// The label that the rows which come here are given, and how many of them have another.
#[derive(Clone, Copy)]
pub struct Leaf {
    pub label: usize,
    pub error: u32,
}

// What a side of the first question answers: a leaf, or one question more with a leaf on each of its own sides.
#[derive(Clone, Copy)]
pub enum Side {
    Leaf(Leaf),
    Split {
        question: Question,
        left: Leaf,
        right: Leaf,
    },
}

// The first question, its two sides, and the error of the whole.
#[derive(Clone, Copy)]
pub struct Tree {
    pub question: Question,
    pub left: Side,
    pub right: Side,
    pub error: u32,
}

// A sheet turned back, with the reason's number and its place; no rule better than the starting error; or the rule found.
#[derive(Clone, Copy)]
pub enum Answer {
    TurnedBack { number: u32, place: usize },
    Kept { error: u32, tried: u32 },
    Found { tree: Tree, tried: u32 },
}
