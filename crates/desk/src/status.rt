// How the tool ended, for a script. A program of this kit has no exit status of its own, so it is written to descriptor 9, which the script
// `deed` opens; where that is not open, nothing is written.
ghost use Rattle.std.specs.Prelude.{◌≡◌, ◌&&◌, max, ltb};
ghost use Rattle.desk.specs.Status.{of_verdict, of_end, of_taken};

use answers::{Stop, Verdict};

// Kept: what may not change, `good_taken` and `one_of_three` hold it: a status is a number, and they speak of any number.
// Accepted, a run that ended, or a list that is right.
pub const GOOD: u8 = 0;
// Refused, a run that was stopped, or a list that is wrong.
pub const BAD: u8 = 1;
// Nothing was done, or what was said could not be written.
pub const NOTHING: u8 = 2;

const DESCRIPTOR: i32 = 9;

pub fn of_verdict(v: Verdict) -> u8
    ensures { result ≡ of_verdict v }
{
    match v {
        Verdict::Accepted => GOOD,
        Verdict::Refused(_) => BAD,
    }
}

// Whether a run that is to take all its numbers left some.
pub fn is_left(strict: bool, given: usize, taken: usize) -> bool
    ensures { result ≡ (strict && ltb taken given) }
{
    strict && taken < given
}

// Of a run, and whether it left numbers that it was to take.
pub fn of_end(left: bool, s: Stop) -> u8
    ensures { result ≡ of_end left s }
{
    match s {
        Stop::Ended => { if left { BAD } else { GOOD } }
        Stop::Limit | Stop::Fault(_) | Stop::Wrong(_) => BAD,
    }
}

// Of what was done, and whether all that was written was taken: 0 only if it was.
pub fn of_taken(taken: bool, status: u8) -> u8
    ensures { result ≡ of_taken taken status }
{
    if taken { status } else { NOTHING }
}

pub fn greater(a: u8, b: u8) -> u8
    ensures { result ≡ max a b }
{
    a.max(b)
}

fn tell(digit: &[u8]) {
    io::write_all(DESCRIPTOR, digit);
}

pub fn leave(status: u8) {
    match status {
        0 => tell(b"0"),
        1 => tell(b"1"),
        _ => tell(b"2"),
    }
}
