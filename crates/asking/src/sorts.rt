// Sorts of words, and the first word of a line that is of one.
ghost use Rattle.std.specs.Prelude.{◌≡◌, ◌≤◌, length, drop};
ghost use Rattle.asking.specs.Words.{words_of, part, First};
ghost use Rattle.asking.specs.Sorts.{looks, is_option, is_flag, is_named, is_misfit, is_twice, is_capital, of_sort, those, asked_from};

use crate::words::{Word, has_word, word_from};
use symbols::text::{find, is_digit, same_bytes};

// What is looked for, of the words of a line and of the rows of a table.
#[derive(Clone, Copy)]
pub enum Sort {
    Asked, // no flag
    Named, // a row whose first word is this one
    Misfit, // an option that is none of these words
    Twice, // an option that stands once more behind
    Capital, // the name of a word that is wanted, as FILE
}

// Whether a word is an option: - and no digit behind it. - alone is standard input.
#[tactic(auto, unfolding(crate::specs::Sorts::looks))]
fn looks_so(word: &[u8]) -> bool
    ensures { result ≡ looks word.now }
{
    word.len() >= 2 && word[0] == b'-' && !is_digit(word[1])
}

// Whether an option has a number behind it.
#[tactic(auto, unfolding(crate::specs::Sorts::is_option))]
pub fn is_option(word: &[u8]) -> bool
    ensures { result ≡ is_option word.now }
{
    same_bytes(word, b"-l") || same_bytes(word, b"-c") || same_bytes(word, b"-o")
}

// Whether a word is an option that stands for itself.
#[tactic(auto, unfolding(crate::specs::Sorts::is_flag))]
fn is_flag(word: &[u8]) -> bool
    ensures { result ≡ is_flag word.now }
{
    !is_option(word) && looks_so(word)
}

// Whether a row's first word is this one.
fn is_named(row: &[u8], word: &[u8]) -> bool
    ensures { result ≡ is_named word.now row.now }
{
    let n = find(row, 0, b' ');
    same_bytes(&row[..n], word)
}

// Whether a word is an option and none of a row's words.
#[tactic(auto, unfolding(crate::specs::Sorts::is_misfit))]
fn is_misfit(word: &[u8], row: &[u8]) -> bool
    ensures { result ≡ is_misfit row.now word.now }
{
    !has_word(row, 0, word) && looks_so(word)
}

// Whether a word is an option and stands once more from a place on.
#[tactic(auto, unfolding(crate::specs::Sorts::is_twice))]
fn is_twice(word: &[u8], line: &[u8], from: usize) -> bool
    ensures { result ≡ is_twice word.now (words_of (drop from line.now)) }
{
    has_word(line, from, word) && looks_so(word)
}

// Whether a word begins with a capital.
#[tactic(auto, unfolding(crate::specs::Sorts::is_capital))]
fn is_capital(word: &[u8]) -> bool
    ensures { result ≡ is_capital word.now }
{
    !word.is_empty() && word[0].is_ascii_uppercase()
}

// Whether a word of a line is of a sort.
fn is_of(line: &[u8], from: usize, to: usize, sort: Sort, arg: &[u8]) -> bool
    requires { (from ≤ to) × (to ≤ length line.now) }
    ensures { result ≡ of_sort sort arg.now (part line.now from to) (words_of (drop to line.now)) }
{
    match sort {
        Sort::Asked => !is_flag(&line[from..to]),
        Sort::Named => is_named(&line[from..to], arg),
        Sort::Misfit => is_misfit(&line[from..to], arg),
        Sort::Twice => is_twice(&line[from..to], line, to),
        Sort::Capital => is_capital(&line[from..to]),
    }
}

// The first word from `at` on that is of a sort.
pub fn first(line: &[u8], at: usize, sort: Sort, arg: &[u8]) -> Word
    ensures { First (λ p. those sort arg.now (words_of (drop p line.now))) line.now at result }
{
    let mut i = at;
    loop {
        let w = word_from(line, i);
        let a = w.from;
        let b = w.to;
        if a == b {
            return w;
        }
        if is_of(line, a, b, sort, arg) {
            return w;
        }
        i = b;
    }
}

// The next word from `at` on that is no flag.
pub fn next_word(line: &[u8], at: usize) -> Word
    ensures { First (asked_from line.now) line.now at result }
{
    first(line, at, Sort::Asked, b"")
}
