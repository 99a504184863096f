// Delimiter words: each is a fixed byte string in small letters, compared with the bytes between two apostrophes, letter case aside.
ghost use Rattle.std.specs.Prelude.{◌≡◌, cond, ◌+◌, true, ◌||◌, eqb, Some, None};
ghost use Rattle.symbols.specs.Names.{same_name};
ghost use Rattle.symbols.specs.model.Steps.{all_small};
ghost use Rattle.symbols.specs.Scan.{spelled};
ghost use Rattle.symbols.specs.Symbols.{words};

use crate::Symbol;
use crate::text::fold;

// Whether a byte is this one, or stands 32 below it as a capital below its small letter.
// Kept: speed, the library folds both bytes: 1.35 of the instructions for 2,048 delimiter words, where 1.1 was asked (docs/changes/08.md).
fn is_or_below(b: u8, x: u8) -> bool
    ensures { result ≡ (eqb b x || eqb (b + 32) x) }
{
    b == x || u32::from(b) + 32 == u32::from(x)
}

// Whether bytes are a word of small letters, letter case aside.
fn is_word(w: &[u8], word: &[u8]) -> bool
    requires { all_small word.now ≡ true }
    ensures { result ≡ same_name w.now word.now }
{
    if w.len() != word.len() {
        return false;
    }
    for (i, b) in w.iter().enumerate() {
        if !is_or_below(*b, word[i]) {
            return false;
        }
    }
    true
}

// The one word that these bytes may be, or none. Bytes of another length are told before any is compared.
fn only(w: &[u8], word: &[u8], s: Symbol) -> Option<Symbol>
    requires { all_small word.now ≡ true }
    ensures { result ≡ cond (same_name w.now word.now) (Some s) None }
{
    is_word(w, word).then_some(s)
}

// The first of two words that these bytes may be, or what is said of the other.
fn either(w: &[u8], one: &[u8], s: Symbol, other: &[u8], t: Symbol) -> Option<Symbol>
    requires one_value { all_small one.now ≡ true }
    requires other_value { all_small other.now ≡ true }
    ensures { result ≡ cond (same_name w.now one.now) (Some s) (cond (same_name w.now other.now) (Some t) None) }
{
    if is_word(w, one) {
        return Some(s);
    }
    only(w, other, t)
}

// The delimiter word that these bytes spell, if they spell one. Only 'then' and 'true' share length and first letter, so by these one word
// is left to compare, or those two; where the letter leaves one, `only` looks at the length.
pub fn spelled_word(w: &[u8]) -> Option<Symbol>
    ensures { result ≡ spelled words w.now }
{
    if w.is_empty() {
        return None;
    }
    let first = fold(w[0]);
    match first {
        b'a' => only(w, b"and", Symbol::And),
        b'b' => match w.len() {
            5 => only(w, b"begin", Symbol::Begin),
            _ => only(w, b"boolean", Symbol::Boolean),
        },
        b'c' => only(w, b"comment", Symbol::Comment),
        b'd' => only(w, b"do", Symbol::Do),
        b'e' => match w.len() {
            3 => only(w, b"end", Symbol::End),
            4 => only(w, b"else", Symbol::Else),
            _ => only(w, b"equiv", Symbol::Equiv),
        },
        b'f' => match w.len() {
            3 => only(w, b"for", Symbol::For),
            _ => only(w, b"false", Symbol::False),
        },
        b'i' => match w.len() {
            2 => only(w, b"if", Symbol::If),
            4 => only(w, b"impl", Symbol::Impl),
            _ => only(w, b"integer", Symbol::Integer),
        },
        b'n' => only(w, b"not", Symbol::Not),
        b'o' => only(w, b"or", Symbol::Or),
        b'p' => only(w, b"procedure", Symbol::Procedure),
        b'r' => only(w, b"real", Symbol::Real),
        b's' => only(w, b"step", Symbol::Step),
        b't' => either(w, b"then", Symbol::Then, b"true", Symbol::True),
        b'u' => only(w, b"until", Symbol::Until),
        b'v' => only(w, b"value", Symbol::Value),
        b'w' => only(w, b"while", Symbol::While),
        _ => None,
    }
}
