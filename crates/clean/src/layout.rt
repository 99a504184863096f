// A page: what stands before each symbol, the symbol, and LF at the end.
ghost use Rattle.std.specs.Prelude.{◌≡◌, ◌+◌, ◌<◌, ◌≤◌, length, get_or};
ghost use Rattle.clean.specs.House.{tight as tightOf, ends_operand, closes as closesOf, opens_call, begins_sum};
ghost use Rattle.clean.specs.model.Bytes.{Puts, most, AllKinds};
ghost use Rattle.clean.specs.model.Pen.{gap_of, written_of, Small};

use crate::bytes::{put, repeat};
use crate::lines::{State, early, first, late};
use crate::spelling::spelled;
use answers::Place;
use symbols::kinds;

// A name, a number, with a point or without, `)` or a logical value: a sign that follows it does not begin a sum.
#[tactic(auto, unfolding(crate::specs::House::ends_operand))]
fn ends_operand(kind: u8) -> bool
    ensures { result ≡ ends_operand kind }
{
    matches!(
        kind,
        kinds::NAME | kinds::NUMBER | kinds::DECIMAL | kinds::CLOSE | kinds::TRUE | kinds::FALSE
    )
}

// A closing parenthesis, a comma or `;`.
#[tactic(auto, unfolding(crate::specs::House::closes))]
fn closes(kind: u8) -> bool
    ensures { result ≡ closesOf kind }
{
    matches!(kind, kinds::CLOSE | kinds::COMMA | kinds::SEMICOLON)
}

// A sign behind what is no operand.
#[tactic(auto, unfolding(crate::specs::House::begins_sum))]
fn begins_sum(a: u8, b: u8) -> bool
    ensures { result ≡ begins_sum a b }
{
    matches!(b, kinds::PLUS | kinds::MINUS) && !ends_operand(a)
}

// A parenthesis behind a name.
#[tactic(auto, unfolding(crate::specs::House::opens_call))]
fn opens_call(b: u8, c: u8) -> bool
    ensures { result ≡ opens_call b c }
{
    b == kinds::NAME && c == kinds::OPEN
}

// Whether no space stands between two symbols of a line, b and c, where a stands before them.
#[tactic(auto, unfolding(crate::specs::House::tight))]
fn tight(a: u8, b: u8, c: u8) -> bool
    ensures { result ≡ tightOf a b c }
{
    b == kinds::OPEN || closes(c) || opens_call(b, c) || begins_sum(a, b)
}

// What stands before a symbol: the lines begun, and the spaces of the last one's level; or a space, or nothing.
fn gap(page: &mut [u8], at: usize, s: State, kind: u8) -> usize
    requires { (at + 32768 ≤ most) × Small s }
    ensures { Puts page.old page.new at result (gap_of s kind) }
{
    if s.lines == 0 {
        if tight(s.before, s.last, kind) {
            return at;
        }
        return put(page, at, b' ');
    }
    let to = repeat(page, at, b'\n', s.lines);
    repeat(page, to, b' ', 2 * s.line)
}

// The kind of a symbol; `:`, which no program has, behind the last.
fn kind_at(kinds: &[u8], i: usize) -> u8
    ensures { result ≡ get_or kinds.now i 33 }
{
    kinds.get(i).copied().unwrap_or(kinds::COLON)
}

// The page of some symbols, for any of them: how many bytes it has. As many as there is room for are set down.
pub fn lay_out(
    source: &[u8],
    kinds: &[u8],
    places: &[usize; 2048],
    held: &mut [usize],
    page: &mut [u8],
) -> usize
    requires { (length source.now ≤ 16384) × (length kinds.now ≤ 2048) × (length held.old ≡ 2048) × AllKinds kinds.now }
    ensures { Puts page.old page.new 0 result (written_of source.now places.now kinds.now) }
{
    let mut s = first();
    let mut at = 0;
    for i in 0..kinds.len() {
        let kind = kinds[i];
        let here = early(s, held, kind);
        let from = gap(page, at, here, kind);
        let place = Place { at: places[i] };
        at = spelled(page, from, source, kind, place);
        s = late(here, held, kind, kind_at(kinds, i + 1));
    }
    put(page, at, b'\n')
}
