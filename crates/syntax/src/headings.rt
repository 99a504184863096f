// Types, lists of names and procedure headings.
ghost use Rattle.std.specs.Prelude.{[], ◌∷◌, ◌≡◌};
ghost use Rattle.grammar.specs.Grammar.{part, sy, type, list as a_list, formals as the_formals, values as the_values, specifications as the_specifications, heading as a_heading};
ghost use Rattle.grammar.specs.model.Marked.{entry_node};
ghost use Rattle.symbols.specs.Symbols.{kind};
ghost use Rattle.symbols.specs.declared.Symbol.TheVariants.{Colon};
ghost use Rattle.grammar.specs.model.Text.{text};
ghost use Rattle.syntax.specs.model.Says.{Room, TellsAll};

use crate::faults::wrong;
use crate::text::{expect, peek};
use crate::writing::{leaf, put};
use grammar::{Entry, Parsed, Read, nodes};
use symbols::{Symbol, kinds};

// 'integer', 'Boolean' or 'real'.
pub fn type_symbol(kinds: &[u8], pos: usize, nodes: &mut [u16], free: usize) -> Parsed
    requires { Room (text kinds.now) nodes.old pos free }
    ensures { TellsAll (text kinds.now) nodes.old nodes.new (part type ∷ []) pos free result }
{
    match peek(kinds, pos) {
        Symbol::Integer => Ok(leaf(nodes, free, pos, nodes::TYPE, 0, 1)),
        Symbol::Boolean => Ok(leaf(nodes, free, pos, nodes::TYPE, 0, 2)),
        Symbol::Real => Ok(leaf(nodes, free, pos, nodes::TYPE, 0, 3)),
        _ => Err(wrong(pos)),
    }
}

// Kept: no plainer, a node's kind is one of several numbers of an entry, and the name says which; From would not.
fn entry_node(e: Entry) -> u16
    ensures { result ≡ entry_node e }
{
    match e {
        Entry::Variable => nodes::VARIABLE,
        Entry::Formal => nodes::FORMAL,
        Entry::Valued => nodes::VALUE,
        Entry::Specified => nodes::SPECIFIED,
    }
}

// A list of names.
pub fn list(kinds: &[u8], pos: usize, nodes: &mut [u16], free: usize, e: Entry) -> Parsed
    requires { Room (text kinds.now) nodes.old pos free }
    ensures { TellsAll (text kinds.now) nodes.old nodes.new (part (a_list e) ∷ []) pos free result }
{
    let next = expect(kinds, pos, kinds::NAME)?;
    let used = put(nodes, free, entry_node(e), pos, 0, 0);
    match peek(kinds, next) {
        Symbol::Comma => list(kinds, next + 1, nodes, used, e),
        _ => Ok(Read { next, used }),
    }
}

// A list of names, and the symbol of a kind that ends it.
fn list_to(kinds: &[u8], pos: usize, nodes: &mut [u16], free: usize, e: Entry, last: u8) -> Parsed
    requires { Room (text kinds.now) nodes.old pos free × (last ≡ kind Colon → ⊥) }
    ensures { TellsAll (text kinds.now) nodes.old nodes.new (part (a_list e) ∷ sy last ∷ []) pos free result }
{
    let Read { next, used } = list(kinds, pos, nodes, free, e)?;
    let next = expect(kinds, next, last)?;
    Ok(Read { next, used })
}

// The formal parameter part.
fn formals(kinds: &[u8], pos: usize, nodes: &mut [u16], free: usize) -> Parsed
    requires { Room (text kinds.now) nodes.old pos free }
    ensures { TellsAll (text kinds.now) nodes.old nodes.new (part the_formals ∷ []) pos free result }
{
    match peek(kinds, pos) {
        Symbol::Open => list_to(kinds, pos + 1, nodes, free, Entry::Formal, kinds::CLOSE),
        _ => Ok(Read {
            next: pos,
            used: free,
        }),
    }
}

// The value part.
fn values(kinds: &[u8], pos: usize, nodes: &mut [u16], free: usize) -> Parsed
    requires { Room (text kinds.now) nodes.old pos free }
    ensures { TellsAll (text kinds.now) nodes.old nodes.new (part the_values ∷ []) pos free result }
{
    match peek(kinds, pos) {
        Symbol::Value => list_to(kinds, pos + 1, nodes, free, Entry::Valued, kinds::SEMICOLON),
        _ => Ok(Read {
            next: pos,
            used: free,
        }),
    }
}

// The specification part.
fn specifications(kinds: &[u8], pos: usize, nodes: &mut [u16], free: usize) -> Parsed
    requires { Room (text kinds.now) nodes.old pos free }
    ensures { TellsAll (text kinds.now) nodes.old nodes.new (part the_specifications ∷ []) pos free result }
{
    match peek(kinds, pos) {
        Symbol::Integer | Symbol::Boolean | Symbol::Real => {
            let Read { next, used } = type_symbol(kinds, pos, nodes, free)?;
            let Read { next, used } = list(kinds, next, nodes, used, Entry::Specified)?;
            let next = expect(kinds, next, kinds::SEMICOLON)?;
            specifications(kinds, next, nodes, used)
        }
        _ => Ok(Read {
            next: pos,
            used: free,
        }),
    }
}

// A procedure's heading, from its name on.
pub fn heading(kinds: &[u8], pos: usize, nodes: &mut [u16], free: usize) -> Parsed
    requires { Room (text kinds.now) nodes.old pos free }
    ensures { TellsAll (text kinds.now) nodes.old nodes.new (part a_heading ∷ []) pos free result }
{
    let next = expect(kinds, pos, kinds::NAME)?;
    let used = put(nodes, free, nodes::PROCEDURE, pos, 0, 0);
    let Read { next, used } = formals(kinds, next, nodes, used)?;
    let next = expect(kinds, next, kinds::SEMICOLON)?;
    let Read { next, used } = values(kinds, next, nodes, used)?;
    specifications(kinds, next, nodes, used)
}
