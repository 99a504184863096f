// What begins with a name, and for clauses: statements' parts that hold expressions alone.
ghost use Rattle.std.specs.Prelude.{[], ◌∷◌, ◌+◌, ◌<◌, ◌≤◌};
ghost use Rattle.grammar.specs.Grammar.{part, named as a_named, right as a_right, value as a_value, for_clause as a_for_clause, elements as the_elements, further as the_further, element as an_element, progress as a_progress, stepping as a_stepping, amount as an_amount, expression as an_expression};
ghost use Rattle.grammar.specs.model.Text.{text};
ghost use Rattle.syntax.specs.model.Says.{Room, Behind, Tells, TellsOf, TellsMarked};

use crate::expressions::{actuals, expression};
use crate::text::{expect, peek};
use crate::writing::put;
use grammar::{Parsed, Read, Use, nodes};
use symbols::{Symbol, kinds};

// An assignment or a procedure statement, behind the name that begins it.
pub fn named(kinds: &[u8], name: usize, depth: u16, nodes: &mut [u16], free: usize) -> Parsed
    requires { Behind (text kinds.now) nodes.old name free }
    ensures { Tells (text kinds.now) nodes.old nodes.new depth (part a_named ∷ []) (name + 1) free result }
{
    let next = name + 1;
    match peek(kinds, next) {
        Symbol::Becomes => {
            let left = put(nodes, free, nodes::LEFT, name, depth, 0);
            right(kinds, next, depth, nodes, left)
        }
        _ => actuals(kinds, name, depth, nodes, free, Use::AsStatement),
    }
}

// What stands behind a `:=`: a further left part, or the right side.
fn right(kinds: &[u8], becomes: usize, depth: u16, nodes: &mut [u16], free: usize) -> Parsed
    requires { Behind (text kinds.now) nodes.old becomes free }
    ensures { Tells (text kinds.now) nodes.old nodes.new depth (part a_right ∷ []) (becomes + 1) free result }
{
    let name = becomes + 1;
    match peek(kinds, name) {
        Symbol::Name => {
            let next = name + 1;
            match peek(kinds, next) {
                Symbol::Becomes => {
                    let left = put(nodes, free, nodes::LEFT, name, depth, 0);
                    right(kinds, next, depth, nodes, left)
                }
                _ => value(kinds, becomes, depth, nodes, free),
            }
        }
        _ => value(kinds, becomes, depth, nodes, free),
    }
}

// An expression, and behind it a node of a kind with a symbol.
fn expression_and(
    kinds: &[u8],
    pos: usize,
    depth: u16,
    nodes: &mut [u16],
    free: usize,
    kind: u16,
    symbol: usize,
) -> Parsed
    requires { Room (text kinds.now) nodes.old pos free × (symbol ≤ pos) }
    ensures { TellsMarked (text kinds.now) nodes.old nodes.new depth an_expression kind symbol pos free result }
{
    let Read { next, used } = expression(kinds, pos, depth, nodes, free)?;
    let end = put(nodes, used, kind, symbol, 0, 0);
    Ok(Read { next, used: end })
}

// The right side of an assignment.
fn value(kinds: &[u8], becomes: usize, depth: u16, nodes: &mut [u16], free: usize) -> Parsed
    requires { Behind (text kinds.now) nodes.old becomes free }
    ensures { TellsOf (text kinds.now) nodes.old nodes.new depth a_value (becomes + 1) free result }
{
    expression_and(
        kinds,
        becomes + 1,
        depth,
        nodes,
        free,
        nodes::ASSIGN,
        becomes,
    )
}

// 'for', the controlled variable, the elements and 'do'.
pub fn for_clause(kinds: &[u8], pos: usize, depth: u16, nodes: &mut [u16], free: usize) -> Parsed
    requires { Room (text kinds.now) nodes.old pos free }
    ensures { Tells (text kinds.now) nodes.old nodes.new depth (part a_for_clause ∷ []) pos free result }
{
    let name = expect(kinds, pos, kinds::FOR)?;
    let next = expect(kinds, name, kinds::NAME)?;
    let controlled = put(nodes, free, nodes::FOR, name, depth, 0);
    elements(kinds, next, depth, nodes, controlled)
}

// From the `:=` of a for clause to its 'do'.
fn elements(kinds: &[u8], pos: usize, depth: u16, nodes: &mut [u16], free: usize) -> Parsed
    requires { Room (text kinds.now) nodes.old pos free }
    ensures { Tells (text kinds.now) nodes.old nodes.new depth (part the_elements ∷ []) pos free result }
{
    let next = expect(kinds, pos, kinds::BECOMES)?;
    let Read { next, used } = element(kinds, next, depth, nodes, free)?;
    let Read { next, used } = further(kinds, next, depth, nodes, used)?;
    let next = expect(kinds, next, kinds::DO)?;
    let end = put(nodes, used, nodes::DO, 0, 0, 0);
    Ok(Read { next, used: end })
}

// Further elements, each behind a comma.
fn further(kinds: &[u8], pos: usize, depth: u16, nodes: &mut [u16], free: usize) -> Parsed
    requires { Room (text kinds.now) nodes.old pos free }
    ensures { Tells (text kinds.now) nodes.old nodes.new depth (part the_further ∷ []) pos free result }
{
    match peek(kinds, pos) {
        Symbol::Comma => {
            let Read { next, used } = element(kinds, pos + 1, depth, nodes, free)?;
            further(kinds, next, depth, nodes, used)
        }
        _ => Ok(Read {
            next: pos,
            used: free,
        }),
    }
}

fn element(kinds: &[u8], pos: usize, depth: u16, nodes: &mut [u16], free: usize) -> Parsed
    requires { Room (text kinds.now) nodes.old pos free }
    ensures { Tells (text kinds.now) nodes.old nodes.new depth (part an_element ∷ []) pos free result }
{
    let Read { next, used } = expression(kinds, pos, depth, nodes, free)?;
    let start = put(nodes, used, nodes::START, pos, 0, 0);
    progress(kinds, next, depth, nodes, start)
}

// What makes an element one value, 'while' or 'step' .. 'until'.
fn progress(kinds: &[u8], pos: usize, depth: u16, nodes: &mut [u16], free: usize) -> Parsed
    requires { (Room (text kinds.now) nodes.old pos free) × (0 < pos) }
    ensures { Tells (text kinds.now) nodes.old nodes.new depth (part a_progress ∷ []) pos free result }
{
    match peek(kinds, pos) {
        Symbol::Step => stepping(kinds, pos, depth, nodes, free),
        Symbol::While => {
            let Read { next, used } = expression(kinds, pos + 1, depth, nodes, free)?;
            let end = put(nodes, used, nodes::WHILE, pos, 0, 0);
            Ok(Read { next, used: end })
        }
        _ => {
            let end = put(nodes, free, nodes::ONCE, 0, 0, 0);
            Ok(Read {
                next: pos,
                used: end,
            })
        }
    }
}

fn stepping(kinds: &[u8], pos: usize, depth: u16, nodes: &mut [u16], free: usize) -> Parsed
    requires { Room (text kinds.now) nodes.old pos free }
    ensures { Tells (text kinds.now) nodes.old nodes.new depth (part a_stepping ∷ []) pos free result }
{
    let next = expect(kinds, pos, kinds::STEP)?;
    let begun = put(nodes, free, nodes::STEP, pos, 0, 0);
    let Read { next, used } = amount(kinds, next, depth, nodes, begun)?;
    let next = expect(kinds, next, kinds::UNTIL)?;
    amount(kinds, next, depth, nodes, used)
}

// The step or the bound.
fn amount(kinds: &[u8], pos: usize, depth: u16, nodes: &mut [u16], free: usize) -> Parsed
    requires { Room (text kinds.now) nodes.old pos free }
    ensures { Tells (text kinds.now) nodes.old nodes.new depth (part an_amount ∷ []) pos free result }
{
    expression_and(kinds, pos, depth, nodes, free, nodes::AMOUNT, pos)
}
