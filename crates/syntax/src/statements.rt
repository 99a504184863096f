// Statements, blocks and declarations: their readers call each other, with remaining symbols or depth falling.
ghost use Rattle.std.specs.Prelude.{◌≡◌, [], ◌∷◌, true, false, ◌+◌};
ghost use Rattle.symbols.specs.Symbols.{kind};
ghost use Rattle.symbols.specs.declared.Symbol.TheVariants.{End, If, Semicolon};
ghost use Rattle.grammar.specs.Grammar.{part, deeper, block as a_block, inner as an_inner, head as a_head, tail as a_tail, declarations as the_declarations, declaration as a_declaration, declared as a_declared, procedure as a_procedure, statements as the_statements, statement as a_statement, conditional as a_conditional, consequence as a_consequence, alternative as an_alternative, repetition as a_repetition, unconditional as an_unconditional};
ghost use Rattle.grammar.specs.model.Text.{text, kind_at};
ghost use Rattle.syntax.specs.model.Says.{behind, Room, Behind, Tells, Says, SaysOf};

use crate::clauses::{for_clause, named};
use crate::expressions::expression;
use crate::headings::{heading, list, type_symbol};
use crate::limits;
use crate::text::{expect, peek};
use crate::writing::put;
use grammar::{Entry, Parsed, Read, nodes};
use symbols::{Symbol, kinds};

// 'begin' .. 'end'.
#[cycle(statements)]
pub fn block(kinds: &[u8], pos: usize, depth: u16, nodes: &mut [u16], free: usize) -> Parsed
    requires { Room (text kinds.now) nodes.old pos free }
    ensures { Tells (text kinds.now) nodes.old nodes.new depth (part a_block ∷ []) pos free result }
{
    expect(kinds, pos, kinds::BEGIN)?;
    let Read { next, used } = inner(kinds, pos, depth, nodes, free)?;
    let next = expect(kinds, next, kinds::END)?;
    Ok(Read { next, used })
}

// What stands between 'begin' and 'end': a block if there are declarations.
#[cycle(statements)]
fn inner(kinds: &[u8], begin: usize, depth: u16, nodes: &mut [u16], free: usize) -> Parsed
    requires { Behind (text kinds.now) nodes.old begin free }
    ensures { Says (text kinds.now) nodes.old nodes.new depth (begin + 1) (kind End ∷ []) (part an_inner ∷ []) (begin + 1) free result }
{
    match peek(kinds, begin + 1) {
        Symbol::Integer | Symbol::Boolean | Symbol::Procedure | Symbol::Real => {
            let opened = put(nodes, free, nodes::BLOCK, begin, 0, 0);
            let Read { next, used } = head(kinds, begin + 1, depth, nodes, opened)?;
            let first = put(nodes, used, nodes::STATEMENTS, begin, 0, 0);
            let Read { next, used } = tail(kinds, next, depth, nodes, first)?;
            let end = put(nodes, used, nodes::BLOCK_END, begin, 0, 0);
            Ok(Read { next, used: end })
        }
        _ => tail(kinds, begin + 1, depth, nodes, free),
    }
}

// One declaration or more.
#[cycle(statements)]
fn head(kinds: &[u8], pos: usize, depth: u16, nodes: &mut [u16], free: usize) -> Parsed
    requires { Room (text kinds.now) nodes.old pos free }
    ensures { Tells (text kinds.now) nodes.old nodes.new depth (part a_head ∷ []) pos free result }
{
    let Read { next, used } = declaration(kinds, pos, depth, nodes, free)?;
    let next = expect(kinds, next, kinds::SEMICOLON)?;
    declarations(kinds, next, depth, nodes, used)
}

#[cycle(statements)]
fn declarations(kinds: &[u8], pos: usize, depth: u16, nodes: &mut [u16], free: usize) -> Parsed
    requires { Room (text kinds.now) nodes.old pos free }
    ensures { Tells (text kinds.now) nodes.old nodes.new depth (part the_declarations ∷ []) pos free result }
{
    match peek(kinds, pos) {
        Symbol::Integer | Symbol::Boolean | Symbol::Procedure | Symbol::Real => head(
            kinds, pos, depth, nodes, free,
        ),
        _ => Ok(Read {
            next: pos,
            used: free,
        }),
    }
}

// A declaration of what is at the depth given: a procedure's body is one deeper.
#[cycle(statements)]
pub fn declaration(kinds: &[u8], pos: usize, depth: u16, nodes: &mut [u16], free: usize) -> Parsed
    requires { Room (text kinds.now) nodes.old pos free }
    ensures { Says (text kinds.now) nodes.old nodes.new depth pos (kind Semicolon ∷ []) (part a_declaration ∷ []) pos free result }
{
    match peek(kinds, pos) {
        Symbol::Procedure => {
            let untyped = put(nodes, free, nodes::TYPE, 0, 0, 0);
            procedure(kinds, pos + 1, depth, nodes, untyped)
        }
        _ => {
            let Read { next, used } = type_symbol(kinds, pos, nodes, free)?;
            declared(kinds, next, depth, nodes, used)
        }
    }
}

// What is declared with a type.
#[cycle(statements)]
fn declared(kinds: &[u8], pos: usize, depth: u16, nodes: &mut [u16], free: usize) -> Parsed
    requires { Room (text kinds.now) nodes.old pos free }
    ensures { Says (text kinds.now) nodes.old nodes.new depth pos (kind Semicolon ∷ []) (part a_declared ∷ []) pos free result }
{
    match peek(kinds, pos) {
        Symbol::Procedure => procedure(kinds, pos + 1, depth, nodes, free),
        _ => list(kinds, pos, nodes, free, Entry::Variable),
    }
}

// A procedure's heading and body.
#[cycle(statements)]
pub fn procedure(kinds: &[u8], pos: usize, depth: u16, nodes: &mut [u16], free: usize) -> Parsed
    requires { Room (text kinds.now) nodes.old pos free }
    ensures { Says (text kinds.now) nodes.old nodes.new depth pos (kind Semicolon ∷ []) (part a_procedure ∷ []) pos free result }
{
    let Read { next, used } = heading(kinds, pos, nodes, free)?;
    let body = put(nodes, used, nodes::BODY, pos, 0, 0);
    let Read { next, used } = nested_statement(kinds, next, depth, nodes, body, false)?;
    let end = put(nodes, used, nodes::PROCEDURE_END, pos, 0, 0);
    Ok(Read { next, used: end })
}

// The statements of a block or compound.
#[cycle(statements)]
fn tail(kinds: &[u8], pos: usize, depth: u16, nodes: &mut [u16], free: usize) -> Parsed
    requires { Room (text kinds.now) nodes.old pos free }
    ensures { Says (text kinds.now) nodes.old nodes.new depth pos (kind End ∷ []) (part a_tail ∷ []) pos free result }
{
    let Read { next, used } = nested_statement(kinds, pos, depth, nodes, free, true)?;
    statements(kinds, next, depth, nodes, used)
}

// Further statements, each behind a `;`.
#[cycle(statements)]
fn statements(kinds: &[u8], pos: usize, depth: u16, nodes: &mut [u16], free: usize) -> Parsed
    requires { Room (text kinds.now) nodes.old pos free }
    ensures { Says (text kinds.now) nodes.old nodes.new depth pos (kind End ∷ []) (part the_statements ∷ []) pos free result }
{
    match peek(kinds, pos) {
        Symbol::Semicolon => tail(kinds, pos + 1, depth, nodes, free),
        _ => Ok(Read {
            next: pos,
            used: free,
        }),
    }
}

// A statement one level deeper; 'end' may follow it where ends says so.
#[cycle(statements)]
fn nested_statement(
    kinds: &[u8],
    pos: usize,
    depth: u16,
    nodes: &mut [u16],
    free: usize,
    ends: bool,
) -> Parsed
    requires { Room (text kinds.now) nodes.old pos free }
    ensures { Says (text kinds.now) nodes.old nodes.new depth pos (behind ends) (deeper a_statement ∷ []) pos free result }
{
    if 64 <= depth {
        return Err(limits::statement(kinds, pos, ends));
    }
    statement(kinds, pos, depth + 1, nodes, free, ends)
}

#[cycle(statements)]
fn statement(
    kinds: &[u8],
    pos: usize,
    depth: u16,
    nodes: &mut [u16],
    free: usize,
    ends: bool,
) -> Parsed
    requires { Room (text kinds.now) nodes.old pos free }
    ensures { Says (text kinds.now) nodes.old nodes.new depth pos (behind ends) (part a_statement ∷ []) pos free result }
{
    match peek(kinds, pos) {
        Symbol::If => conditional(kinds, pos, depth, nodes, free, ends),
        Symbol::For => repetition(kinds, pos, depth, nodes, free, ends),
        _ => unconditional(kinds, pos, depth, nodes, free),
    }
}

// A conditional statement, from its 'if' on.
#[cycle(statements)]
fn conditional(
    kinds: &[u8],
    pos: usize,
    depth: u16,
    nodes: &mut [u16],
    free: usize,
    ends: bool,
) -> Parsed
    requires { (Room (text kinds.now) nodes.old pos free) × (kind_at (text kinds.now) pos ≡ kind If) }
    ensures { SaysOf (text kinds.now) nodes.old nodes.new depth pos (behind ends) a_conditional pos free result }
{
    let Read { next, used } = expression(kinds, pos + 1, depth, nodes, free)?;
    let next = expect(kinds, next, kinds::THEN)?;
    let then = put(nodes, used, nodes::THEN, pos, 0, 0);
    let Read { next, used } = consequence(kinds, next, depth, nodes, then, ends)?;
    let end = put(nodes, used, nodes::IF_END, pos, 0, 0);
    Ok(Read { next, used: end })
}

// What stands behind 'then'.
#[cycle(statements)]
fn consequence(
    kinds: &[u8],
    pos: usize,
    depth: u16,
    nodes: &mut [u16],
    free: usize,
    ends: bool,
) -> Parsed
    requires { Room (text kinds.now) nodes.old pos free }
    ensures { Says (text kinds.now) nodes.old nodes.new depth pos (behind ends) (part a_consequence ∷ []) pos free result }
{
    if 64 <= depth {
        return Err(limits::consequence(kinds, pos, ends));
    }
    match peek(kinds, pos) {
        Symbol::For => repetition(kinds, pos, depth + 1, nodes, free, ends),
        _ => {
            let Read { next, used } = unconditional(kinds, pos, depth + 1, nodes, free)?;
            alternative(kinds, next, depth, nodes, used, ends)
        }
    }
}

// 'else' and its statement, or nothing.
#[cycle(statements)]
fn alternative(
    kinds: &[u8],
    pos: usize,
    depth: u16,
    nodes: &mut [u16],
    free: usize,
    ends: bool,
) -> Parsed
    requires { Room (text kinds.now) nodes.old pos free }
    ensures { Says (text kinds.now) nodes.old nodes.new depth pos (behind ends) (part an_alternative ∷ []) pos free result }
{
    match peek(kinds, pos) {
        Symbol::Else => {
            let other = put(nodes, free, nodes::ELSE, 0, 0, 0);
            nested_statement(kinds, pos + 1, depth, nodes, other, ends)
        }
        _ => Ok(Read {
            next: pos,
            used: free,
        }),
    }
}

// A for statement.
#[cycle(statements)]
fn repetition(
    kinds: &[u8],
    pos: usize,
    depth: u16,
    nodes: &mut [u16],
    free: usize,
    ends: bool,
) -> Parsed
    requires { Room (text kinds.now) nodes.old pos free }
    ensures { Says (text kinds.now) nodes.old nodes.new depth pos (behind ends) (part a_repetition ∷ []) pos free result }
{
    let Read { next, used } = for_clause(kinds, pos, depth, nodes, free)?;
    let Read { next, used } = nested_statement(kinds, next, depth, nodes, used, ends)?;
    let end = put(nodes, used, nodes::FOR_END, pos, 0, 0);
    Ok(Read { next, used: end })
}

#[cycle(statements)]
fn unconditional(kinds: &[u8], pos: usize, depth: u16, nodes: &mut [u16], free: usize) -> Parsed
    requires { Room (text kinds.now) nodes.old pos free }
    ensures { Tells (text kinds.now) nodes.old nodes.new depth (part an_unconditional ∷ []) pos free result }
{
    match peek(kinds, pos) {
        Symbol::Name => named(kinds, pos, depth, nodes, free),
        Symbol::Begin => block(kinds, pos, depth, nodes, free),
        _ => Ok(Read {
            next: pos,
            used: free,
        }),
    }
}
