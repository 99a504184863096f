// Recorded runs: the words of a record, each with its range; a run with its record; and a record held against a fresh run.
#![tactic(auto)]

ghost use Rattle.std.specs.Prelude.{◌≡◌};
ghost use Rattle.records.specs.Numbers.{kind_of, number_of, place_of};

use machine::Ran;

pub mod keeping; // a run, and its record written down
pub mod ranges; // the ranges, and the rows of a table of sections
pub mod replaying; // the job
pub mod scanning; // the first bad word

// What a word may be.
#[derive(Clone, Copy)]
pub enum Range {
    Any, // a number of 32 bits
    Natural, // from 0 on: a count, a length
    One, // 1: how many entries a section has that always has one
    Answer, // 0, or 20 to 30
    Kind, // 0 before a whole number, 1 before a real
    Nought, // 0
}

// A section, by what its entries are.
#[derive(Clone, Copy)]
pub enum Section {
    Numbers, // any numbers
    Limit, // two halves
    Length, // a length
    Answer, // a numbered answer
    Outputs, // output entries
}

// What stands in turn: a record's six sections, or sets of numbers.
#[derive(Clone, Copy)]
pub enum Table {
    Record,
    Sets,
}

// A word that is out of its range, is missing or is one too many: its index, from 0.
#[derive(Clone, Copy)]
pub struct BadWord {
    pub index: usize,
}

// What a replay answers: all entries agree; the first that differs, from 0; the index of the first bad word; or the store or output that is lent is
// shorter than the record's.
// Kept: no plainer, four ways, each with a kind and a number of its own.
#[derive(Clone, Copy)]
pub enum Replayed {
    Agrees,
    Differs(usize),
    Bad(usize),
    Short,
}

impl Replayed {
    // Which of the four: 0 to 3.
    pub fn kind(self) -> u16
        ensures { result ≡ kind_of self }
    {
        match self {
            Replayed::Agrees => 0,
            Replayed::Differs(_) => 1,
            Replayed::Bad(_) => 2,
            Replayed::Short => 3,
        }
    }

    // The answer's number: 1 where too little is lent, else 0.
    pub fn number(self) -> u16
        ensures { result ≡ number_of self }
    {
        match self {
            Replayed::Agrees | Replayed::Differs(_) | Replayed::Bad(_) => 0,
            Replayed::Short => 1,
        }
    }

    // The entry or the index; else 0.
    pub fn place(self) -> usize
        ensures { result ≡ place_of self }
    {
        match self {
            Replayed::Agrees | Replayed::Short => 0,
            Replayed::Differs(entry) => entry,
            Replayed::Bad(index) => index,
        }
    }
}

// What a run came to, and how many words its record took; none where a length is no word or the room too short.
#[derive(Clone, Copy)]
pub struct Kept {
    pub ran: Ran,
    pub filled: Option<usize>,
}
