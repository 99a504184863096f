// Bytes put on a page, one behind the other: each is counted, and set down where the page reaches so far.
ghost use Rattle.std.specs.Prelude.{◌≡◌, cond, ◌||◌, [], ◌∷◌, ◌+◌, ◌*◌, ◌<◌, ◌≤◌, length, drop, replicate};
ghost use Rattle.symbols.specs.Names.{these, reach, decimals, digit, blank};
ghost use Rattle.symbols.specs.Spelling.{with_decimals};
ghost use Rattle.clean.specs.model.Bytes.{Puts, sort_of, most};

use symbols::text::{is_blank, is_digit, is_name_byte};

// One byte.
pub fn put(page: &mut [u8], at: usize, b: u8) -> usize
    requires { at < most }
    ensures { Puts page.old page.new at result (b ∷ []) }
{
    if page.len() <= at {
        return at + 1;
    }
    page[at] = b;
    at + 1
}

// A byte so many times.
pub fn repeat(page: &mut [u8], at: usize, b: u8, times: usize) -> usize
    requires { at + times ≤ most }
    ensures { Puts page.old page.new at result (replicate times b) }
{
    let mut to = at;
    for _ in 0..times {
        to = put(page, to, b);
    }
    to
}

// The bytes of a word.
pub fn word(page: &mut [u8], at: usize, w: &[u8]) -> usize
    requires { at + length w.now ≤ most }
    ensures { Puts page.old page.new at result w.now }
{
    let mut to = at;
    for b in w {
        to = put(page, to, *b);
    }
    to
}

// Whether a byte belongs to a name, or to a number.
fn belongs(b: u8, name: bool) -> bool
    ensures { result ≡ sort_of name b }
{
    if name { is_name_byte(b) } else { is_digit(b) }
}

// Whether a name or number goes on with a byte.
fn goes_on(b: u8, name: bool) -> bool
    ensures { result ≡ sort_of name b || blank b }
{
    belongs(b, name) || is_blank(b)
}

// A byte of a name or number; a blank inside it is left out.
fn put_one(page: &mut [u8], at: usize, b: u8, name: bool) -> usize
    requires { at < most }
    ensures { Puts page.old page.new at result (cond (sort_of name b) (b ∷ []) []) }
{
    if belongs(b, name) {
        put(page, at, b)
    } else {
        at
    }
}

// The letters and digits of the name, or the digits of the number, that stands at a place of the source.
pub fn letters(page: &mut [u8], at: usize, source: &[u8], from: usize, name: bool) -> usize
    requires { at + length source.now < most }
    ensures { Puts page.old page.new at result (these (sort_of name) (drop from source.now)) }
{
    let mut to = at;
    for i in from..source.len() {
        if !goes_on(source[i], name) {
            return to;
        }
        to = put_one(page, to, source[i], name);
    }
    to
}

// Where the digits end that stand at a place of the source, blanks among them passed over.
fn digits_end(source: &[u8], from: usize) -> usize
    ensures { result ≡ from + reach digit (drop from source.now) }
{
    for i in from..source.len() {
        if !goes_on(source[i], false) {
            return i;
        }
    }
    from.max(source.len())
}

// The digits behind the point at a place of the source; none where no point stands there.
fn behind_point(page: &mut [u8], at: usize, source: &[u8], dot: usize) -> usize
    requires { at + length source.now < most }
    ensures { Puts page.old page.new at result (decimals (drop dot source.now)) }
{
    if source.len() <= dot {
        return at;
    }
    if source[dot] == b'.' {
        return letters(page, at, source, dot + 1, false);
    }
    at
}

// The number with a point that stands at a place of the source: its digits, the point and the digits behind it.
pub fn decimal(page: &mut [u8], at: usize, source: &[u8], from: usize) -> usize
    requires { at + 1 + 2 * length source.now < most }
    ensures { Puts page.old page.new at result (with_decimals (drop from source.now)) }
{
    let front = letters(page, at, source, from, false);
    let to = put(page, front, b'.');
    behind_point(page, to, source, digits_end(source, from))
}
