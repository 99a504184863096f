// At which level a symbol stands: 1 in the outermost block, and one more in each block and each procedure's body inside. What follows a
// procedure's name in its heading belongs to the body, where its formals are.
ghost use Rattle.webpage.specs.Looks.{Behind};

use crate::looks::{about_of, at, look, paint, style_of};
use symbols::Symbol;
use symbols::kinds::decode;

// What is open, newest last, each as a look: what it is, about the level inside of it. A compound statement, and 'procedure' up to its
// name, have no level of their own; a block, a procedure's heading and its body do.
const COMPOUND: u32 = 1;

const NAMING: u32 = 2;

const BLOCK: u32 = 3;

const HEADING: u32 = 4;

const BODY: u32 = 5;

fn level_of(open: usize, stack: &[u32; 2048]) -> u32 {
    about_of(at(stack, open)) as u32
}

fn push(open: usize, stack: &mut [u32; 2048], thing: u32) -> usize {
    let outside = level_of(open, stack) as usize;
    let inside = if thing < BLOCK { outside } else { outside + 1 };
    let n = open.min(2046) + 1;
    paint(stack, n, n + 1, look(thing, inside));
    n
}

fn pop(open: usize) -> usize {
    open.saturating_sub(1)
}

// Whether a symbol begins a declaration.
fn declares(s: Symbol) -> bool {
    matches!(
        s,
        Symbol::Integer | Symbol::Boolean | Symbol::Real | Symbol::Procedure
    )
}

// Whether it goes on with a heading.
fn heads(s: Symbol) -> bool {
    matches!(
        s,
        Symbol::Value | Symbol::Integer | Symbol::Boolean | Symbol::Real
    )
}

// The newest thing that is open becomes another, if it is a certain one.
fn becomes(open: usize, stack: &mut [u32; 2048], from: u32, to: u32) -> usize {
    if style_of(at(stack, open)) != from {
        return open;
    }
    push(pop(open), stack, to)
}

// How much is open where a symbol stands; `then` is the symbol behind it.
fn before(open: usize, stack: &mut [u32; 2048], s: Symbol, then: Symbol) -> usize {
    match s {
        Symbol::Begin => {
            let thing = if declares(then) { BLOCK } else { COMPOUND };
            push(open, stack, thing)
        }
        Symbol::Semicolon => {
            let ends = style_of(at(stack, open)) == BODY;
            if ends { pop(open) } else { open }
        }
        _ => open,
    }
}

// How much is open behind it.
fn after(open: usize, stack: &mut [u32; 2048], s: Symbol, then: Symbol) -> usize {
    match s {
        Symbol::End => pop(open),
        Symbol::Procedure => push(open, stack, NAMING),
        Symbol::Name => becomes(open, stack, NAMING, HEADING),
        Symbol::Semicolon => {
            if heads(then) {
                return open;
            }
            becomes(open, stack, HEADING, BODY)
        }
        _ => open,
    }
}

// Symbol k; `:`, which no program has, where there is none.
fn symbol_at(kinds: &[u8; 2048], k: usize) -> Symbol {
    match kinds.get(k) {
        Some(kind) => decode(*kind, 0),
        None => Symbol::Colon,
    }
}

// Passes symbol k, which has the bytes from `from` up to `to` with what is no symbol behind it: they have its level. Gives how much is open.
pub fn pass(
    open: usize,
    stack: &mut [u32; 2048],
    kinds: &[u8; 2048],
    k: usize,
    levels: &mut [u32],
    from: usize,
    to: usize,
) -> usize
    ensures { Behind to levels.old levels.new }
{
    let s = symbol_at(kinds, k);
    let then = symbol_at(kinds, k.min(2047) + 1);
    let here = before(open, stack, s, then);
    paint(levels, from, to, level_of(here, stack));
    after(here, stack, s, then)
}
