// When two names are the same: letter case aside.
ghost use Rattle.std.specs.Prelude.{◌≡◌};
ghost use Rattle.symbols.specs.Names.{letters_at, same_name};
ghost use Rattle.symbols.specs.model.Steps.{NextLetter};

use crate::text::{is_blank, is_name_byte, same_letter};
use answers::Place;

// The place of the next letter or digit of a name from `from` on; none where the name has ended.
fn next_letter(source: &[u8], from: usize) -> Option<usize>
    ensures { NextLetter source.now from result }
{
    for i in from..source.len() {
        let b = source[i];
        if is_name_byte(b) {
            return Some(i);
        }
        if !is_blank(b) {
            return None;
        }
    }
    None
}

// Whether the names at two places of the source are the same.
pub fn same_name(source: &[u8], a: Place, b: Place) -> bool
    ensures { result ≡ same_name (letters_at source.now a.at) (letters_at source.now b.at) }
{
    let mut i = next_letter(source, a.at);
    let mut j = next_letter(source, b.at);
    while let Some(p) = i {
        let Some(q) = j else {
            return false;
        };
        if !same_letter(source[p], source[q]) {
            return false;
        }
        i = next_letter(source, p + 1);
        j = next_letter(source, q + 1);
    }
    j.is_none()
}

// Whether the name at a place of the source is spelled so.
#[inline(always)] // so that each word that it is called with is known to the code: five are tried for every symbol
pub fn spells(source: &[u8], a: Place, word: &[u8]) -> bool
    ensures { result ≡ same_name word.now (letters_at source.now a.at) }
{
    let mut j = next_letter(source, a.at);
    for b in word {
        let Some(q) = j else {
            return false;
        };
        if !same_letter(*b, source[q]) {
            return false;
        }
        j = next_letter(source, q + 1);
    }
    j.is_none()
}
