// What is answered as numbers: which case it is, its number and its place; and a report's numbers in order, the twelve counts, how many ended without
// a whole-number output, the least, the greatest, the sum.
ghost use Rattle.std.specs.Prelude.{◌≡◌, pos, get_or};
ghost use Rattle.reporting.specs.Numbers.{kind_of, number_of, place_of, figures_of, figures_in, figures_after};

use crate::{Refused, Report};
use answers::Answer;

// How many there are.
pub const FIGURES: usize = 16;

// Which of the three: 0 a report, 1 too many sets, 2 a bad word.
pub fn kind(reported: Result<Report, Refused>) -> u16
    ensures { result ≡ kind_of reported }
{
    match reported {
        Ok(_) => 0,
        Err(Refused::TooMany) => 1,
        Err(Refused::Bad(_)) => 2,
    }
}

// The answer's number: 31 for too many sets, else 0.
pub fn number(reported: Result<Report, Refused>) -> u16
    ensures { result ≡ number_of reported }
{
    match reported {
        Err(Refused::TooMany) => Answer::too_many_sets().number,
        Ok(_) | Err(Refused::Bad(_)) => 0,
    }
}

// The index of the bad word, else 0.
pub fn place(reported: Result<Report, Refused>) -> usize
    ensures { result ≡ place_of reported }
{
    match reported {
        Err(Refused::Bad(index)) => index,
        Ok(_) | Err(Refused::TooMany) => 0,
    }
}

// All of them.
fn figures(r: Report) -> [i64; FIGURES]
    ensures { result ≡ figures_of r }
{
    let c = r.counts;
    [
        i64::from(c.ended),
        i64::from(c.limit),
        i64::from(c.range),
        i64::from(c.divisor),
        i64::from(c.unassigned),
        i64::from(c.input),
        i64::from(c.output),
        i64::from(c.cells),
        i64::from(c.activations),
        i64::from(c.channel),
        i64::from(c.instruction),
        i64::from(c.variable),
        i64::from(r.without),
        i64::from(r.least),
        i64::from(r.greatest),
        r.sum,
    ]
}

// Number k of them; 0 behind the last.
pub fn figure(r: Report, k: usize) -> i64
    ensures { result ≡ get_or (figures_of r) k (pos 0) }
{
    let all = figures(r);
    if k < FIGURES { all[k] } else { 0 }
}

// They go into the first of some numbers, as many as there are.
pub fn figures_into(r: Report, room: &mut [i64])
    ensures { room.new ≡ figures_in r room.old }
{
    for k in 0..FIGURES.min(room.len()) {
        room[k] = figure(r, k);
    }
}

// Those of an answer that is a report; else nothing changes.
pub fn reported_into(reported: Result<Report, Refused>, room: &mut [i64])
    ensures { room.new ≡ figures_after reported room.old }
{
    if let Ok(r) = reported {
        figures_into(r, room);
    }
}
