// Paper 02, request 2: an accepted source written out in the house layout, or its refusal.
#![tactic(auto)]

ghost use Rattle.std.specs.Prelude.{◌≡◌};
ghost use Rattle.clean.specs.Numbers.{number_of, place_of, length_of};

use answers::{Answer, Refusal};

mod bytes; // bytes put on a page
mod spelling; // how a symbol is written
mod lines; // where lines begin
mod layout; // a page
pub mod writing; // the job

// What is answered, as numbers: a text, with how many bytes it has, is an acceptance.
pub fn answer(written: Result<usize, Refusal>) -> Answer
    ensures { result.number ≡ number_of written }
{
    match written {
        Ok(_) => Answer::ACCEPTED,
        Err(r) => r.answer,
    }
}

pub fn place(written: Result<usize, Refusal>) -> usize
    ensures { result ≡ place_of written }
{
    match written {
        Ok(_) => 0,
        Err(r) => r.place.at,
    }
}

pub fn length(written: Result<usize, Refusal>) -> usize
    ensures { result ≡ length_of written }
{
    written.unwrap_or(0)
}
