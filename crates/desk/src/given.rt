// The numbers that a run is given.
ghost use Rattle.std.specs.Prelude.{◌≡◌, ◌≤◌, min, length};

use crate::files::{is_standard, take_in};
use asking::numerals::whole_in;
use asking::options::next_operand;
use asking::words::{Word, has_word, line_of, word_from};
use showing::system::{STDERR, System};
use showing::text::{complain, tell_typed};

fn misspelled(system: &System, text: &[u8]) {
    complain(
        system,
        b"deed: this is no whole number from -2147483648 to 2147483647: ",
    );
    tell_typed(system, STDERR, text);
    complain(system, b"\n");
}

// Puts the number that a text spells behind n others; how many there are then, where it is a number and there is room. In a
// command - is none, and stands for those of standard input.
fn put_number(
    system: &System,
    text: &[u8],
    command: bool,
    input: &mut [i32],
    n: usize,
) -> Option<usize>
    ensures { length input.new ≡ length input.old }
{
    if command && is_standard(text) {
        return Some(n);
    }
    let Some(x) = whole_in(text) else {
        misspelled(system, text);
        return None;
    };
    if input.len() <= n {
        complain(system, b"deed: there are too many numbers\n");
        return None;
    }
    input[n] = x;
    Some(n + 1)
}

// The next word of a line that is to be a number. In a command some words are something else.
fn number_word(line: &[u8], at: usize, command: bool) -> Word
    ensures { (min at (length line.now) ≤ result.from) × (result.from ≤ result.to) × (result.to ≤ length line.now) }
{
    if command {
        return next_operand(line, at);
    }
    word_from(line, at)
}

// Puts the numbers of a line, from `from` on, behind n others; how many there are then, where all can be put.
fn put_numbers(
    system: &System,
    line: &[u8],
    from: usize,
    command: bool,
    input: &mut [i32],
    n: usize,
) -> Option<usize>
    ensures { length input.new ≡ length input.old }
{
    let mut at = from;
    let mut count = n;
    // Kept: no plainer, the place moves on by the word that was read.
    while at < line.len() {
        let w = number_word(line, at, command);
        if w.from == w.to {
            break;
        }
        count = put_number(system, &line[w.from..w.to], command, input, count)?;
        at = w.to;
    }
    Some(count)
}

// Puts the numbers of standard input behind n others. What fills the room may go on behind it, and none of it is taken.
fn put_standard(system: &System, input: &mut [i32], n: usize) -> Option<usize>
    ensures { length input.new ≡ length input.old }
{
    let mut room = io::large_buffer();
    let mut row = io::large_buffer();
    let k = take_in(system, &mut system.input(), b"standard input", &mut room)?;
    if 65536 <= k {
        complain(system, b"deed: standard input has under 65,536 bytes\n");
        return None;
    }
    let m = line_of(&room[..k], &mut row);
    put_numbers(system, &row[..m], 0, false, input, n)
}

// Puts the numbers that a command asks for from `from` on: its own, and where it says - those of standard input; how many,
// where all can be put.
pub fn put_input(system: &System, line: &[u8], from: usize, input: &mut [i32]) -> Option<usize>
    ensures { length input.new ≡ length input.old }
{
    let n = put_numbers(system, line, from, true, input, 0)?;
    if has_word(line, from, b"-") {
        return put_standard(system, input, n);
    }
    Some(n)
}
