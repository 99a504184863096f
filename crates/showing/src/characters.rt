// Characters of UTF-8, and which of them are shown as they are: none that controls a terminal, shows nothing or turns the writing round.
ghost use Rattle.std.specs.Prelude.{◌≡◌, ◌&&◌, ◌+◌, ◌-◌, ◌<◌, ◌≤◌, eqb, leb, ltb, get_or};
ghost use Rattle.showing.specs.Characters.{between, two, starts_three, hidden, three, starts_four, four, width_at, begun_before, inside};

// A character of two bytes.
#[tactic(auto, unfolding(crate::specs::Characters::two))]
fn is_two(a: u8, b: u8) -> bool
    ensures { result ≡ two a b }
{
    match a {
        194 => matches!(b, 160..=191),
        216 if b == 156 => false,
        195..=223 => matches!(b, 128..=191),
        _ => false,
    }
}

// The first two bytes of a character of three.
#[tactic(auto, unfolding(crate::specs::Characters::starts_three))]
fn starts_three(a: u8, b: u8) -> bool
    ensures { result ≡ starts_three a b }
{
    match a {
        224 => matches!(b, 160..=191),
        237 => matches!(b, 128..=159),
        225..=239 => matches!(b, 128..=191),
        _ => false,
    }
}

// Characters of three bytes that show nothing or turn the writing round.
#[tactic(auto, unfolding(crate::specs::Characters::hidden))]
fn hides(a: u8, b: u8, c: u8) -> bool
    ensures { result ≡ hidden a b c }
{
    match (a, b) {
        (226, 128) => matches!(c, 139..=143 | 168..=174),
        (226, 129) => matches!(c, 160..=175),
        (239, 187) => c == 191,
        _ => false,
    }
}

// A character of three bytes.
#[tactic(auto, unfolding(crate::specs::Characters::three))]
fn is_three(a: u8, b: u8, c: u8) -> bool
    ensures { result ≡ three a b c }
{
    starts_three(a, b) && !hides(a, b, c) && matches!(c, 128..=191)
}

// The first two bytes of a character of four.
#[tactic(auto, unfolding(crate::specs::Characters::starts_four))]
fn starts_four(a: u8, b: u8) -> bool
    ensures { result ≡ starts_four a b }
{
    match a {
        240 => matches!(b, 144..=191),
        244 => matches!(b, 128..=143),
        241..=243 => matches!(b, 128..=191),
        _ => false,
    }
}

// A character of four bytes.
#[tactic(auto, unfolding(crate::specs::Characters::four))]
fn is_four(a: u8, b: u8, c: u8, d: u8) -> bool
    ensures { result ≡ four a b c d }
{
    starts_four(a, b) && matches!(c, 128..=191) && matches!(d, 128..=191)
}

// The byte k behind a place; 0 behind the end.
fn byte_from(text: &[u8], at: usize, k: usize) -> u8
    ensures { result ≡ get_or text.now (at + k) 0 }
{
    match text.get(at..) {
        Some(rest) => rest.get(k).copied().unwrap_or(0),
        None => 0,
    }
}

// How many bytes are shown together from a place on: a character, or one byte.
#[tactic(auto, unfolding(crate::specs::Characters::width_at, crate::specs::Characters::width_of))]
pub fn width(text: &[u8], at: usize) -> usize
    ensures value { result ≡ width_at text.now at }
    ensures result_nonzero { (0 < result) × (result < 5) }
{
    let a = byte_from(text, at, 0);
    let b = byte_from(text, at, 1);
    let c = byte_from(text, at, 2);
    let d = byte_from(text, at, 3);
    if is_two(a, b) {
        return 2;
    }
    if is_three(a, b, c) {
        return 3;
    }
    if is_four(a, b, c, d) {
        return 4;
    }
    1
}

// Whether a character that begins k bytes before a place goes on there.
#[tactic(auto, unfolding(crate::specs::Characters::begun_before))]
fn begun_before(text: &[u8], at: usize, k: usize) -> bool
    ensures { result ≡ begun_before text.now at k }
{
    k <= at && k < width(text, at - k)
}

// Whether a place is inside a character, behind its first byte.
#[tactic(auto, unfolding(crate::specs::Characters::inside))]
pub fn is_inside(text: &[u8], at: usize) -> bool
    ensures { result ≡ inside text.now at }
{
    begun_before(text, at, 1) || begun_before(text, at, 2) || begun_before(text, at, 3)
}

// The place where the character of a place begins.
pub fn beginning(text: &[u8], at: usize) -> usize
    ensures { result ≤ at }
{
    for i in (1..=at).rev() {
        if !is_inside(text, i) {
            return i;
        }
    }
    0
}

// How many of n bytes from a place on are whole characters; at the end of the text all are.
pub fn whole(text: &[u8], from: usize, n: usize) -> usize
    ensures { result ≤ n }
{
    for k in (1..=n).rev() {
        if text.len() <= from {
            return n;
        }
        if text.len() - from <= k {
            return n;
        }
        if !is_inside(text, from + k) {
            return k;
        }
    }
    0
}
