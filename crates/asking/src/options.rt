// The options that have a number behind them, and the words that are no option.
ghost use Rattle.std.specs.Prelude.{◌≡◌, ◌≤◌, length};
ghost use Rattle.asking.specs.Words.{First};
ghost use Rattle.asking.specs.Options.{operands_from, Behind};

use crate::sorts::{is_option, next_word};
use crate::words::Word;

// The place behind a word, and behind the number of one that is an option.
fn behind(line: &[u8], from: usize, to: usize) -> usize
    requires { (from ≤ to) × (to ≤ length line.now) }
    ensures { Behind line.now from to result }
{
    if is_option(&line[from..to]) {
        let v = next_word(line, to);
        return v.to;
    }
    to
}

// The next word from `at` on that is no option and not the number of one.
pub fn next_operand(line: &[u8], at: usize) -> Word
    ensures { First (operands_from line.now) line.now at result }
{
    let mut i = at;
    loop {
        let w = next_word(line, i);
        let a = w.from;
        let b = w.to;
        if !is_option(&line[a..b]) {
            return w;
        }
        i = behind(line, a, b);
    }
}
