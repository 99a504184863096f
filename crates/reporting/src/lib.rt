// A report over many runs of one program.
#![tactic(auto)]

ghost use Rattle.std.specs.Prelude.{◌≡◌};
ghost use Rattle.reporting.specs.declared.Refused.TheVariants.{Bad};

use machine::Ran;
use records::BadWord;

pub mod numbers; // a report's numbers in order
pub mod reporting; // the job
pub mod tallies; // what is counted and gathered

// How many runs ended with each answer.
#[derive(Clone, Copy)]
pub struct Counts {
    pub ended: u32,
    pub limit: u32,
    pub range: u32,
    pub divisor: u32,
    pub unassigned: u32,
    pub input: u32,
    pub output: u32,
    pub cells: u32,
    pub activations: u32,
    pub channel: u32,
    pub instruction: u32,
    pub variable: u32,
}

// The counts; how many ended without a whole-number output; and the least, the greatest and the sum of the first whole-number outputs of those
// that ended with one.
#[derive(Clone, Copy)]
pub struct Report {
    pub counts: Counts,
    pub without: u32,
    pub least: i32,
    pub greatest: i32,
    pub sum: i64,
}

// Why there is no report: more than 65,535 sets; or the index of the first bad word.
#[derive(Clone, Copy)]
pub enum Refused {
    TooMany,
    Bad(usize),
}

impl From<BadWord> for Refused {
    ghost from_gives = { λ word refused. refused ≡ Bad word.index };

    fn from(word: BadWord) -> Refused {
        Refused::Bad(word.index)
    }
}

// How far a report is: what is gathered, how many sets are left, and where the words of the next one begin.
#[derive(Clone, Copy)]
pub struct Going {
    pub report: Report,
    pub left: usize,
    pub at: usize,
}

// A member's run, and how far the report is with it.
#[derive(Clone, Copy)]
pub struct Member {
    pub going: Going,
    pub ran: Ran,
}
