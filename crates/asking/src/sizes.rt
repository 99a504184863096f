// How large a run may be, as its options ask.
ghost use Rattle.std.specs.Prelude.{◌≡◌};
ghost use Rattle.asking.specs.Sorts.{asked_from};
ghost use Rattle.asking.specs.Options.{first_number, option_of, together, sizes_of};

use crate::numerals::natural_in;
use crate::sorts::next_word;
use crate::words::is_word;

// Instructions at most, cells and room for numbers written, three an entry, where nothing else is asked. No more cells and no more room
// can be asked.
const LIMIT: u64 = 1000000;

const CELLS: u64 = 8192;

const ROOM: u64 = 196608;

#[derive(Clone, Copy)]
pub struct Sizes {
    pub limit: u64,
    pub cells: usize,
    pub room: usize,
}

// The number that the next word is.
fn number_from(line: &[u8], at: usize) -> Option<u64>
    ensures { result ≡ first_number (asked_from line.now at) }
{
    let w = next_word(line, at);
    let a = w.from;
    let b = w.to;
    natural_in(&line[a..b])
}

// The number behind an option's word from `from` on; the usual one where the option is not there.
fn option(line: &[u8], from: usize, name: &[u8], usual: u64) -> Option<u64>
    ensures { result ≡ option_of name.now usual (asked_from line.now from) }
{
    let mut at = from;
    // Kept: no plainer, the place moves on by the word that was read.
    while at < line.len() {
        let w = next_word(line, at);
        let a = w.from;
        let b = w.to;
        if a == b {
            return Some(usual);
        }
        if is_word(line, a, b, name) {
            return number_from(line, b);
        }
        at = b;
    }
    Some(usual)
}

// The three sizes together, where they are numbers and within what there is.
#[tactic(auto, unfolding(crate::specs::Options::together))]
fn sizes_in(limit: Option<u64>, cells: Option<u64>, room: Option<u64>) -> Option<Sizes>
    ensures { result ≡ together limit cells room }
{
    let limit = limit?;
    let cells = cells?;
    let room = room?;
    if CELLS < cells || ROOM < room {
        return None;
    }
    Some(Sizes {
        limit,
        cells: cells as usize,
        room: room as usize,
    })
}

// What a line asks of a run's size, from `from` on, where that can be had.
pub fn sizes_of(line: &[u8], from: usize) -> Option<Sizes>
    ensures { result ≡ sizes_of (asked_from line.now from) }
{
    let limit = option(line, from, b"-l", LIMIT);
    let cells = option(line, from, b"-c", CELLS);
    let room = option(line, from, b"-o", ROOM);
    sizes_in(limit, cells, room)
}
