// Other people's cross-reference lists, checked: whether a list is the uses of a source.
#![tactic(auto)]

ghost use Rattle.std.specs.Prelude.{◌≡◌};
ghost use Rattle.checking.specs.Numbers.{kind_of, number_of, place_of};

use answers::Refusal;

pub mod checking; // the job

// What is said of a list: that it is the uses of the source; the source's refusal, with its number and place; or the index, from 0, of its first
// wrong word.
// Kept: no plainer, the three answers are of one rank: that a list is wrong is what was asked, and no failure
#[derive(Clone, Copy)]
pub enum Checked {
    Yes,
    Refused(Refusal),
    Wrong(usize),
}

impl Checked {
    // Which of the three: 0, 1, 2.
    pub fn kind(self) -> u16
        ensures { result ≡ kind_of self }
    {
        match self {
            Checked::Yes => 0,
            Checked::Refused(_) => 1,
            Checked::Wrong(_) => 2,
        }
    }

    // The refusal's number, or 0.
    pub fn number(self) -> u16
        ensures { result ≡ number_of self }
    {
        match self {
            Checked::Yes => 0,
            Checked::Refused(r) => r.answer.number,
            Checked::Wrong(_) => 0,
        }
    }

    // The refusal's place, or the index; 0 for a yes.
    pub fn place(self) -> usize
        ensures { result ≡ place_of self }
    {
        match self {
            Checked::Yes => 0,
            Checked::Refused(r) => r.place.at,
            Checked::Wrong(i) => i,
        }
    }
}
