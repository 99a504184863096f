// Numbers as people type them.
ghost use Rattle.std.specs.Prelude.{◌≡◌};
ghost use Rattle.asking.specs.Numerals.{natural_of, whole_of, within, negated, counted};

use symbols::text::is_digit;

// The number that digits spell. What is past 64 bits is none, so that no digit is lost.
pub fn natural_in(text: &[u8]) -> Option<u64>
    ensures { result ≡ natural_of text.now }
{
    let mut value: u64 = 0;
    for b in text {
        if !is_digit(*b) {
            return None;
        }
        let d = u64::from(*b - b'0');
        if (u64::MAX - d) / 10 < value {
            return None;
        }
        value = 10 * value + d;
    }
    if text.is_empty() { None } else { Some(value) }
}

// A magnitude with the sign -.
#[tactic(auto, unfolding(crate::specs::Numerals::negated, crate::specs::Numerals::within))]
fn negative(n: Option<u64>) -> Option<i32>
    ensures { result ≡ within (negated n) }
{
    i32::try_from(-i128::from(n?)).ok()
}

// A magnitude with the sign + or with none.
#[tactic(auto, unfolding(crate::specs::Numerals::counted, crate::specs::Numerals::within))]
fn positive(n: Option<u64>) -> Option<i32>
    ensures { result ≡ within (counted n) }
{
    i32::try_from(n?).ok()
}

// The whole number of 32 bits that a text spells, with or without a sign.
pub fn whole_in(text: &[u8]) -> Option<i32>
    ensures { result ≡ whole_of text.now }
{
    if text.is_empty() {
        return None;
    }
    let b = text[0];
    if b == b'-' {
        return negative(natural_in(&text[1..]));
    }
    if b == b'+' {
        return positive(natural_in(&text[1..]));
    }
    positive(natural_in(text))
}
