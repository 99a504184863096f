// A line of words, each ended by a zero, so that a word can hold blanks. An empty word is none.
ghost use Rattle.std.specs.Prelude.{◌≡◌, ◌+◌, drop};
ghost use Rattle.asking.specs.Words.{words_of, leading_zeros, has, plain, is_part, unblanked, separates, unlisted, laid_as, WordFrom, LineBy, LineOf};
ghost use Rattle.asking.specs.Lists.{ListLine};

use symbols::text::{find, is_blank, same_bytes};

// A word of a line: its first byte, and the byte behind it. Where there is none, both are the line's end.
#[derive(Clone, Copy)]
pub struct Word {
    pub from: usize,
    pub to: usize,
}

// The first place from `at` on that has no zero.
fn zeros_end(line: &[u8], at: usize) -> usize
    ensures { result ≡ at + leading_zeros (drop at line.now) }
{
    for i in at..line.len() {
        if line[i] != 0 {
            return i;
        }
    }
    at.max(line.len())
}

// The next word from `at` on.
pub fn word_from(line: &[u8], at: usize) -> Word
    ensures { WordFrom line.now at result }
{
    if line.len() <= at {
        return Word {
            from: line.len(),
            to: line.len(),
        };
    }
    let from = zeros_end(line, at);
    let to = find(line, from, 0);
    Word { from, to }
}

// Whether the bytes from `from` up to `to` are this text. Where there are no such bytes they are not.
pub fn is_word(line: &[u8], from: usize, to: usize, text: &[u8]) -> bool
    ensures { result ≡ is_part line.now from to text.now }
{
    if to < from {
        return false;
    }
    if line.len() < to {
        return false;
    }
    same_bytes(&line[from..to], text)
}

// Whether the line has this word from `from` on.
pub fn has_word(line: &[u8], from: usize, text: &[u8]) -> bool
    ensures { result ≡ has (words_of (drop from line.now)) text.now }
{
    let mut at = from;
    // Kept: no plainer, the place moves on by the word that was read.
    while at < line.len() {
        let w = word_from(line, at);
        let a = w.from;
        let b = w.to;
        if a == b {
            return false;
        }
        if is_word(line, a, b, text) {
            return true;
        }
        at = b;
    }
    false
}

// Whether the line has the word --plain.
pub fn is_plain(line: &[u8]) -> bool
    ensures { result ≡ has (words_of line.now) plain }
{
    has_word(line, 0, b"--plain")
}

// A byte of a text whose words are ended by blanks, as one of a line.
fn unblank(b: u8) -> u8
    ensures { result ≡ unblanked b }
{
    if is_blank(b) { 0 } else { b }
}

// Whether a byte stands between numbers.
#[tactic(auto, unfolding(crate::specs::Words::separates))]
fn is_between(b: u8) -> bool
    ensures { result ≡ separates b }
{
    is_blank(b) || b == b','
}

// A byte of a list as one of a line of words.
fn unlist(b: u8) -> u8
    ensures { result ≡ unlisted b }
{
    if is_between(b) {
        return 0;
    }
    if b == 0 { b'?' } else { b }
}

// A byte of a text as one of a line: of a list, or of words that blanks end.
fn laid(list: bool, b: u8) -> u8
    ensures { result ≡ laid_as list b }
{
    if list {
        return unlist(b);
    }
    unblank(b)
}

// A text as a line, as much as the row takes; gives how many bytes. Each byte stands where it did.
fn lay(list: bool, text: &[u8], row: &mut [u8]) -> usize
    ensures { LineBy (laid_as list) text.now row.old result row.new }
{
    let n = text.len().min(row.len());
    for i in 0..n {
        row[i] = laid(list, text[i]);
    }
    n
}

// A text of words that blanks end.
pub fn line_of(text: &[u8], row: &mut [u8]) -> usize
    ensures { LineOf text.now row.old result row.new }
{
    lay(false, text, row)
}

// A list that somebody sent.
pub fn list_line(text: &[u8], row: &mut [u8]) -> usize
    ensures { ListLine text.now row.old result row.new }
{
    lay(true, text, row)
}
