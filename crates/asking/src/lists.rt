// The numbers of a list that somebody sent.
ghost use Rattle.std.specs.Prelude.{◌≡◌};
ghost use Rattle.asking.specs.Numerals.{spelled, number_of, counted, negated};
ghost use Rattle.asking.specs.Words.{words_of};
ghost use Rattle.asking.specs.Lists.{standing, sent_of, Lists};

use crate::numerals::natural_in;
use crate::words::word_from;
use symbols::text::is_digit;

// No word of a source is greater.
const MOST: u64 = 65535;

// Stands for a number that is no word of a source.
const NONE: i64 = -1;

// Why words are no list: the index of the first that is no number; or there are more numbers than the room takes.
#[derive(Clone, Copy, Debug, PartialEq, Eq)]
pub enum Unlisted {
    NoNumber(usize),
    Full,
}

// Whether a text is digits, at least one.
fn is_spelled(text: &[u8]) -> bool
    ensures { result ≡ spelled text.now }
{
    !text.is_empty() && text.iter().all(|b| is_digit(*b))
}

// What stands for the number that digits spell, however many they are.
fn magnitude(text: &[u8]) -> Option<i64>
    ensures { result ≡ standing (counted (number_of text.now)) }
{
    if !is_spelled(text) {
        return None;
    }
    match natural_in(text) {
        Some(v) if v <= MOST => Some(v as i64),
        _ => Some(NONE),
    }
}

// The same with the sign - before the digits: only 0 is a word then.
fn below(text: &[u8]) -> Option<i64>
    ensures { result ≡ standing (negated (number_of text.now)) }
{
    if !is_spelled(text) {
        return None;
    }
    match natural_in(text) {
        Some(v) if v == 0 => Some(0),
        _ => Some(NONE),
    }
}

// What a word of a list stands for.
pub fn sent_in(text: &[u8]) -> Option<i64>
    ensures { result ≡ sent_of text.now }
{
    if text.is_empty() {
        return None;
    }
    let b = text[0];
    if b == b'-' {
        return below(&text[1..]);
    }
    if b == b'+' {
        return magnitude(&text[1..]);
    }
    magnitude(text)
}

// The numbers of a list's words, into the room that is lent, and how many they are.
pub fn list_in(line: &[u8], list: &mut [i64]) -> Result<usize, Unlisted>
    ensures { Lists (words_of line.now) list.old result list.new }
{
    let mut at: usize = 0;
    let mut n: usize = 0;
    // Kept: no plainer, the place moves on by the word that was read.
    while at < line.len() {
        let w = word_from(line, at);
        let a = w.from;
        let b = w.to;
        if a == b {
            return Ok(n);
        }
        let Some(x) = sent_in(&line[a..b]) else {
            return Err(Unlisted::NoNumber(n));
        };
        if list.len() <= n {
            return Err(Unlisted::Full);
        }
        list[n] = x;
        n += 1;
        at = b;
    }
    Ok(n)
}
