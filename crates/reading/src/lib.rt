// What is found of a source, and the job `read`: a source to its table, or a numbered refusal with its place.
#![tactic(auto)]

use answers::{Refusal, Verdict};

pub mod finding; // the front end, for every job that takes a source
mod moving; // a prelude and a scheme brought together
mod preluding; // a prelude by itself
pub mod behind; // a scheme behind a prelude: the front end, for every job that takes both
pub mod schemes; // the job that takes a prelude and two schemes
pub mod reading; // the job

// How much of the lent arrays an accepted source fills: symbols, words of nodes, rows of four words, uses.
#[derive(Clone, Copy)]
pub struct Sizes {
    pub symbols: usize,
    pub nodes: usize,
    pub rows: usize,
    pub uses: usize,
}

// What a prelude and a scheme fill: both as one program, the prelude by itself, and how many words of nodes the scheme has by itself.
#[derive(Clone, Copy)]
pub struct Both {
    pub all: Sizes,
    pub before: Sizes,
    pub own: usize,
}

// The answers to two schemes.
#[derive(Clone, Copy)]
pub struct TwoAnswers {
    pub first: Verdict,
    pub second: Verdict,
}
