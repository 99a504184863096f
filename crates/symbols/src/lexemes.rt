// What begins at a byte of the source, which is no blank.
ghost use Rattle.std.specs.Prelude.{◌≡◌, ◌+◌, ◌-◌, ◌*◌, ◌<◌, ◌≤◌, length, get_or, drop, true};
ghost use Rattle.symbols.specs.Symbols.{signs};
ghost use Rattle.symbols.specs.Names.{letter, digit, reach};
ghost use Rattle.symbols.specs.model.Steps.{capped, digits_from, pointed_at, joined_of, lexeme_at};
ghost use Rattle.symbols.specs.Scan.{name as name_of, number as number_of, word as word_of, sign as sign_of, sized as sized_of, valued as valued_of, pointed as pointed_of, point as point_of};

use crate::text::{blanks_end, find, is_blank, is_digit, is_letter, is_name_byte};
use crate::words::spelled_word;
use crate::{Lexeme, Symbol};

// A letter at `at`, and the letters and digits behind it.
fn name(source: &[u8], at: usize) -> Lexeme
    requires at_in_bounds { at < length source.now }
    requires at_value { letter (get_or source.now at 0) ≡ true }
    ensures { result ≡ name_of (get_or source.now at 0) (drop (at + 1) source.now) }
{
    let mut size = 1;
    for i in at + 1..source.len() {
        let b = source[i];
        if is_name_byte(b) {
            size += 1;
        } else if !is_blank(b) {
            return sized(size, i - at - 1);
        }
    }
    sized(size, source.len() - at - 1)
}

// A name of so many letters and digits.
#[tactic(auto, unfolding(crate::specs::Scan::sized))]
fn sized(size: usize, more: usize) -> Lexeme
    ensures { result ≡ sized_of size more }
{
    if 32 < size {
        Lexeme::Large(more)
    } else {
        Lexeme::Is(Symbol::Name, more)
    }
}

// Digits read one after the other: their value, kept at 10^15 where it is over; how many they are; and where they end.
#[derive(Clone, Copy, PartialEq, Eq, Debug)]
pub struct Digits {
    pub value: u64,
    pub count: usize,
    pub end: usize,
}

// The digits from `from` on, behind others of this value and count.
fn digits_from(source: &[u8], from: usize, value: u64, count: usize) -> Digits
    requires { (from ≤ length source.now) × (count ≤ from) × (value ≤ 1000000000000000) }
    ensures { result ≡ digits_from source.now from value count }
{
    let mut v = value;
    let mut n = count;
    for i in from..source.len() {
        let b = source[i];
        if is_digit(b) {
            v = with_digit(v, b);
            n += 1;
        } else if !is_blank(b) {
            return Digits {
                value: v,
                count: n,
                end: i,
            };
        }
    }
    Digits {
        value: v,
        count: n,
        end: source.len(),
    }
}

// Over every limit: where a value is kept.
const CAP: u64 = 1_000_000_000_000_000;

// One digit more, up to 10^15.
#[tactic(auto, using(crate::proofs::Laws::digit_range), unfolding(crate::specs::model::Steps::capped))]
fn with_digit(v: u64, b: u8) -> u64
    requires { (v ≤ 1000000000000000) × (digit b ≡ true) }
    ensures { result ≡ capped (10 * v + (b - 48)) }
{
    (10 * v + u64::from(b - b'0')).min(CAP)
}

// A number of this value.
#[tactic(auto, unfolding(crate::specs::Scan::valued))]
fn valued(v: u64, more: usize) -> Lexeme
    ensures { result ≡ valued_of v more }
{
    if 2147483647 < v {
        Lexeme::Large(more)
    } else {
        Lexeme::Is(Symbol::Number(v), more)
    }
}

// A number with a point, of so many digits.
#[tactic(auto, unfolding(crate::specs::Scan::pointed))]
fn pointed(v: u64, count: usize, behind: usize, more: usize) -> Lexeme
    requires { (v ≤ 1000000000000000) × (behind ≤ count) }
    ensures { result ≡ pointed_of v count behind more }
{
    if 15 < count {
        Lexeme::Large(more)
    } else {
        Lexeme::Is(Symbol::Decimal(16 * v + (behind as u64)), more)
    }
}

// Behind the digits from `at` on stands a point: with digits behind it the number goes on.
fn with_point(source: &[u8], at: usize, front: Digits, plain: Lexeme) -> Lexeme
    requires { (front ≡ digits_from source.now at 0 0) × (at + reach digit (drop at source.now) < length source.now) }
    ensures { result ≡ pointed_at source.now at plain }
{
    let dot = front.end;
    let all = digits_from(source, dot + 1, front.value, front.count);
    if all.count == front.count {
        return plain;
    }
    pointed(
        all.value,
        all.count,
        all.count - front.count,
        all.end - at - 1,
    )
}

// A digit at `at`, and those behind it.
fn number(source: &[u8], at: usize) -> Lexeme
    requires at_in_bounds { at < length source.now }
    requires at_value { digit (get_or source.now at 0) ≡ true }
    ensures { result ≡ number_of (get_or source.now at 0) (drop (at + 1) source.now) }
{
    let front = digits_from(source, at, 0, 0);
    let end = front.end;
    let plain = valued(front.value, end - at - 1);
    if end < source.len() && source[end] == b'.' {
        return with_point(source, at, front, plain);
    }
    plain
}

// A point at `at`.
fn point(source: &[u8], at: usize) -> Lexeme
    requires at_in_bounds { at < length source.now }
    requires at_value { get_or source.now at 0 ≡ 46 }
    ensures { result ≡ point_of (drop (at + 1) source.now) }
{
    let front = digits_from(source, at, 0, 0);
    with_point(source, at, front, Lexeme::Nothing)
}

// An apostrophe at `at`: the word up to the next one.
fn word(source: &[u8], at: usize) -> Lexeme
    requires { at < length source.now }
    ensures { result ≡ word_of (drop (at + 1) source.now) }
{
    let from = at + 1;
    let end = find(source, from, b'\'');
    if source.len() <= end {
        return Lexeme::Nothing;
    }
    match spelled_word(&source[from..end]) {
        Some(s) => Lexeme::Is(s, end - at),
        None => Lexeme::Nothing,
    }
}

// A sign that may be joined with `=`, blanks between them passed over.
fn joined(source: &[u8], at: usize, alone: Symbol, both: Symbol) -> Lexeme
    requires { at < length source.now }
    ensures { result ≡ joined_of alone both (drop (at + 1) source.now) }
{
    let end = blanks_end(source, at + 1);
    if end < source.len() && source[end] == b'=' {
        return Lexeme::Is(both, end - at);
    }
    Lexeme::Is(alone, 0)
}

#[tactic(auto, unfolding(crate::specs::Scan::sign, crate::specs::model::Steps::joined_of))]
fn sign(source: &[u8], at: usize) -> Lexeme
    requires { at < length source.now }
    ensures { result ≡ sign_of signs (get_or source.now at 0) (drop (at + 1) source.now) }
{
    match source[at] {
        b'+' => Lexeme::Is(Symbol::Plus, 0),
        b'-' => Lexeme::Is(Symbol::Minus, 0),
        b'*' => Lexeme::Is(Symbol::Times, 0),
        b'%' => Lexeme::Is(Symbol::Divide, 0),
        b'<' => joined(source, at, Symbol::Less, Symbol::LessEqual),
        b'=' => Lexeme::Is(Symbol::Equal, 0),
        b'>' => joined(source, at, Symbol::Greater, Symbol::GreaterEqual),
        b'#' => Lexeme::Is(Symbol::NotEqual, 0),
        b',' => Lexeme::Is(Symbol::Comma, 0),
        b':' => joined(source, at, Symbol::Colon, Symbol::Becomes),
        b';' => Lexeme::Is(Symbol::Semicolon, 0),
        b'(' => Lexeme::Is(Symbol::Open, 0),
        b')' => Lexeme::Is(Symbol::Close, 0),
        b'/' => Lexeme::Is(Symbol::Slash, 0),
        _ => Lexeme::Nothing,
    }
}

// What the byte at `at` and those behind it begin with.
pub fn lexeme(source: &[u8], at: usize) -> Lexeme
    ensures { result ≡ lexeme_at source.now at }
{
    if source.len() <= at {
        return Lexeme::Nothing;
    }
    let b = source[at];
    if is_letter(b) {
        return name(source, at);
    }
    if is_digit(b) {
        return number(source, at);
    }
    if b == b'.' {
        return point(source, at);
    }
    if b == b'\'' {
        return word(source, at);
    }
    sign(source, at)
}
