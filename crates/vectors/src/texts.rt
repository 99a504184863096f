// Room for a text; and numbers in it: digits, behind a minus sign or none, and one byte between two numbers.
ghost use Rattle.std.specs.Prelude.{◌≡◌, ◌<◌, min, length};
ghost use Rattle.vectors.specs.Listed.{digits_at, number_at, whole_of, second_line, page_at, third_line};

use symbols::text::is_digit;

// Room for the bytes of a file, of which the index has the most.
pub fn buffer() -> [u8; 131072]
    ensures { 131072 ≡ length result }
{
    [0; 131072]
}

// A number, and where the next one begins.
// Kept: no plainer, a number below zero is read too, as a value and its sign.
#[derive(Clone, Copy)]
pub struct Numeral {
    pub minus: bool,
    pub value: u64,
    pub next: usize,
}

// The number whose digits begin at `from`.
fn digits_at(text: &[u8], from: usize, minus: bool) -> Numeral
    ensures value_bound { result.value < 10000000000 }
    ensures value { result ≡ digits_at text.now from minus }
{
    let mut value: u64 = 0;
    // Kept: no plainer, the place where the digits end is asked for too.
    let mut i = from;
    while i < text.len() {
        let b = text[i];
        if !is_digit(b) {
            return Numeral {
                minus,
                value,
                next: i + 1,
            };
        }
        value = (10 * value + (b % 16) as u64) % 10000000000;
        i += 1;
    }
    Numeral {
        minus,
        value,
        next: i,
    }
}

// The number that begins at `from`; 0 behind the end.
pub fn number_at(text: &[u8], from: usize) -> Numeral
    ensures value_bound { result.value < 10000000000 }
    ensures value { result ≡ number_at text.now from }
{
    if from < text.len() {
        if text[from] == 45 {
            return digits_at(text, from + 1, true);
        }
    }
    digits_at(text, from, false)
}

// A number as one of 32 bits; 0 where it is none.
pub fn whole(n: Numeral) -> i32
    ensures { result ≡ whole_of n }
{
    let value = n.value;
    if 2147483648 < value {
        return 0;
    }
    if n.minus {
        return (0 - value as i64) as i32;
    }
    if value == 2147483648 {
        return 0;
    }
    value as i32
}

// A number, and no more than `most`.
pub fn clipped(value: u64, most: usize) -> usize
    ensures { result ≡ min value most }
{
    if value < most as u64 {
        value as usize
    } else {
        most
    }
}

// Where the text goes on behind its first line.
pub fn second_line(text: &[u8]) -> usize
    ensures { result ≡ second_line text.now }
{
    for i in 0..text.len() {
        if text[i] == 10 {
            return i + 1;
        }
    }
    text.len()
}

// Whether the line that begins at `from` is a page's.
#[tactic(auto, unfolding(crate::specs::Listed::page_at))]
pub fn page_at(text: &[u8], from: usize) -> bool
    ensures { result ≡ page_at text.now from }
{
    text.get(from).copied().unwrap_or(0) == b'w'
}

// Where the text goes on behind its second line, unless that is a page's.
pub fn third_line(text: &[u8]) -> usize
    ensures { result ≡ third_line text.now }
{
    let second = second_line(text);
    if page_at(text, second) {
        return text.len();
    }
    second + second_line(&text[second..])
}
