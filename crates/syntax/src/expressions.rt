// Expressions: their readers call each other, with remaining symbols or binding falling. From `chain` to `primary`, one that ends with
// another's answer takes the two numbers out and answers them. Passed on whole, the answer would be copied in parts, since two bytes of a
// fault lie where `next` lies, and the processor would wait for these at every operand.
ghost use Rattle.std.specs.Prelude.{◌≡◌, [], ◌∷◌, ◌+◌};
ghost use Rattle.symbols.specs.Symbols.{kind};
ghost use Rattle.symbols.specs.declared.Symbol.TheVariants.{If};
ghost use Rattle.grammar.specs.Grammar.{part, deeper, level as a_level, operand as an_operand, expression as an_expression, a_condition, otherwise as an_otherwise, chain as a_chain, more as the_more, negation as a_negation, relation as a_relation, comparison as a_comparison, primary as a_primary, actuals as the_actuals, actual as an_actual, further_actuals};
ghost use Rattle.grammar.specs.model.Marked.{use_number};
ghost use Rattle.grammar.specs.declared.Level.TheVariants.{Sum, Equivalence};
ghost use Rattle.grammar.specs.model.Text.{text, kind_at};
ghost use Rattle.syntax.specs.model.Says.{Room, Behind, Tells, TellsOf};

use crate::faults::wrong;
use crate::limits;
use crate::operators::{operator, relational};
use crate::text::{expect, peek};
use crate::writing::{leaf, put};
use grammar::{Level, Parsed, Read, Use, nodes};
use symbols::{Symbol, kinds};

#[cycle(expressions)]
pub fn expression(kinds: &[u8], pos: usize, depth: u16, nodes: &mut [u16], free: usize) -> Parsed
    requires { Room (text kinds.now) nodes.old pos free }
    ensures { Tells (text kinds.now) nodes.old nodes.new depth (part an_expression ∷ []) pos free result }
{
    match peek(kinds, pos) {
        Symbol::If => condition(kinds, pos, depth, nodes, free),
        _ => chain(kinds, pos, depth, nodes, free, Level::Equivalence),
    }
}

// A conditional expression, from its 'if' on.
#[cycle(expressions)]
fn condition(kinds: &[u8], pos: usize, depth: u16, nodes: &mut [u16], free: usize) -> Parsed
    requires { (Room (text kinds.now) nodes.old pos free) × (kind_at (text kinds.now) pos ≡ kind If) }
    ensures { TellsOf (text kinds.now) nodes.old nodes.new depth a_condition pos free result }
{
    let Read { next, used } = nested(kinds, pos + 1, depth, nodes, free)?;
    let next = expect(kinds, next, kinds::THEN)?;
    let then = put(nodes, used, nodes::THEN, pos, 0, 0);
    let Read { next, used } = nested_simple(kinds, next, depth, nodes, then)?;
    otherwise(kinds, next, depth, nodes, used)
}

// The 'else' part of a conditional expression.
#[cycle(expressions)]
fn otherwise(kinds: &[u8], pos: usize, depth: u16, nodes: &mut [u16], free: usize) -> Parsed
    requires { Room (text kinds.now) nodes.old pos free }
    ensures { Tells (text kinds.now) nodes.old nodes.new depth (part an_otherwise ∷ []) pos free result }
{
    let next = expect(kinds, pos, kinds::ELSE)?;
    let otherwise = put(nodes, free, nodes::ELSE, 0, 0, 0);
    let Read { next, used } = nested(kinds, next, depth, nodes, otherwise)?;
    let end = put(nodes, used, nodes::CONDITION_END, pos, 0, 0);
    Ok(Read { next, used: end })
}

// An expression one level deeper.
#[cycle(expressions)]
fn nested(kinds: &[u8], pos: usize, depth: u16, nodes: &mut [u16], free: usize) -> Parsed
    requires { Room (text kinds.now) nodes.old pos free }
    ensures { Tells (text kinds.now) nodes.old nodes.new depth (deeper an_expression ∷ []) pos free result }
{
    if 64 <= depth {
        return Err(limits::expression(kinds, pos));
    }
    expression(kinds, pos, depth + 1, nodes, free)
}

// An expression one level deeper that is not conditional.
#[cycle(expressions)]
fn nested_simple(kinds: &[u8], pos: usize, depth: u16, nodes: &mut [u16], free: usize) -> Parsed
    requires { Room (text kinds.now) nodes.old pos free }
    ensures { Tells (text kinds.now) nodes.old nodes.new depth (deeper (a_level Equivalence) ∷ []) pos free result }
{
    if 64 <= depth {
        return Err(limits::simple(kinds, pos));
    }
    chain(kinds, pos, depth + 1, nodes, free, Level::Equivalence)
}

// Operands of a level with its operators between them.
#[cycle(expressions)]
fn chain(kinds: &[u8], pos: usize, depth: u16, nodes: &mut [u16], free: usize, l: Level) -> Parsed
    requires { Room (text kinds.now) nodes.old pos free }
    ensures { TellsOf (text kinds.now) nodes.old nodes.new depth (a_chain l) pos free result }
{
    let Read { next, used } = operand(kinds, pos, depth, nodes, free, l)?;
    let Read { next, used } = more(kinds, next, depth, nodes, used, l)?;
    Ok(Read { next, used })
}

// Further operands of a level, each behind its operator.
#[cycle(expressions)]
fn more(kinds: &[u8], pos: usize, depth: u16, nodes: &mut [u16], free: usize, l: Level) -> Parsed
    requires { Room (text kinds.now) nodes.old pos free }
    ensures { Tells (text kinds.now) nodes.old nodes.new depth (part (the_more l) ∷ []) pos free result }
{
    let Some(o) = operator(l, peek(kinds, pos)) else {
        return Ok(Read {
            next: pos,
            used: free,
        });
    };
    let Read { next, used } = operand(kinds, pos + 1, depth, nodes, free, l)?;
    let end = put(nodes, used, nodes::BINARY, pos, o, 0);
    let Read { next, used } = more(kinds, next, depth, nodes, end, l)?;
    Ok(Read { next, used })
}

// What the operators of a level stand between.
#[cycle(expressions)]
fn operand(kinds: &[u8], pos: usize, depth: u16, nodes: &mut [u16], free: usize, l: Level) -> Parsed
    requires { Room (text kinds.now) nodes.old pos free }
    ensures { Tells (text kinds.now) nodes.old nodes.new depth (part (an_operand l) ∷ []) pos free result }
{
    let Read { next, used } = match l {
        Level::Product => primary(kinds, pos, depth, nodes, free),
        Level::Sum => chain(kinds, pos, depth, nodes, free, Level::Product),
        Level::Conjunction => negation(kinds, pos, depth, nodes, free),
        Level::Disjunction => chain(kinds, pos, depth, nodes, free, Level::Conjunction),
        Level::Implication => chain(kinds, pos, depth, nodes, free, Level::Disjunction),
        Level::Equivalence => chain(kinds, pos, depth, nodes, free, Level::Implication),
    }?;
    Ok(Read { next, used })
}

#[cycle(expressions)]
fn negation(kinds: &[u8], pos: usize, depth: u16, nodes: &mut [u16], free: usize) -> Parsed
    requires { Room (text kinds.now) nodes.old pos free }
    ensures { Tells (text kinds.now) nodes.old nodes.new depth (part a_negation ∷ []) pos free result }
{
    match peek(kinds, pos) {
        Symbol::Not => {
            let Read { next, used } = relation(kinds, pos + 1, depth, nodes, free)?;
            let end = put(nodes, used, nodes::UNARY, pos, kinds::NOT as u16, 0);
            Ok(Read { next, used: end })
        }
        _ => {
            let Read { next, used } = relation(kinds, pos, depth, nodes, free)?;
            Ok(Read { next, used })
        }
    }
}

#[cycle(expressions)]
fn relation(kinds: &[u8], pos: usize, depth: u16, nodes: &mut [u16], free: usize) -> Parsed
    requires { Room (text kinds.now) nodes.old pos free }
    ensures { Tells (text kinds.now) nodes.old nodes.new depth (part a_relation ∷ []) pos free result }
{
    let Read { next, used } = sum(kinds, pos, depth, nodes, free)?;
    let Read { next, used } = comparison(kinds, next, depth, nodes, used)?;
    Ok(Read { next, used })
}

// A relational operator and its second operand, or nothing.
#[cycle(expressions)]
fn comparison(kinds: &[u8], pos: usize, depth: u16, nodes: &mut [u16], free: usize) -> Parsed
    requires { Room (text kinds.now) nodes.old pos free }
    ensures { Tells (text kinds.now) nodes.old nodes.new depth (part a_comparison ∷ []) pos free result }
{
    let Some(o) = relational(peek(kinds, pos)) else {
        return Ok(Read {
            next: pos,
            used: free,
        });
    };
    let Read { next, used } = sum(kinds, pos + 1, depth, nodes, free)?;
    let end = put(nodes, used, nodes::BINARY, pos, o, 0);
    Ok(Read { next, used: end })
}

// A sum, with or without a sign before its first term.
#[cycle(expressions)]
fn sum(kinds: &[u8], pos: usize, depth: u16, nodes: &mut [u16], free: usize) -> Parsed
    requires { Room (text kinds.now) nodes.old pos free }
    ensures { Tells (text kinds.now) nodes.old nodes.new depth (part (a_level Sum) ∷ []) pos free result }
{
    let Some(o) = operator(Level::Sum, peek(kinds, pos)) else {
        let Read { next, used } = chain(kinds, pos, depth, nodes, free, Level::Sum)?;
        return Ok(Read { next, used });
    };
    let Read { next, used } = operand(kinds, pos + 1, depth, nodes, free, Level::Sum)?;
    let end = put(nodes, used, nodes::UNARY, pos, o, 0);
    let Read { next, used } = more(kinds, next, depth, nodes, end, Level::Sum)?;
    Ok(Read { next, used })
}

#[cycle(expressions)]
fn primary(kinds: &[u8], pos: usize, depth: u16, nodes: &mut [u16], free: usize) -> Parsed
    requires { Room (text kinds.now) nodes.old pos free }
    ensures { Tells (text kinds.now) nodes.old nodes.new depth (part a_primary ∷ []) pos free result }
{
    match peek(kinds, pos) {
        Symbol::Number(_) => Ok(leaf(nodes, free, pos, nodes::NUMBER, pos, 0)),
        Symbol::True => Ok(leaf(nodes, free, pos, nodes::LOGICAL, pos, 1)),
        Symbol::False => Ok(leaf(nodes, free, pos, nodes::LOGICAL, pos, 0)),
        Symbol::Name => {
            let Read { next, used } = actuals(kinds, pos, depth, nodes, free, Use::AsPrimary)?;
            Ok(Read { next, used })
        }
        Symbol::Open => {
            let Read { next, used } = nested(kinds, pos + 1, depth, nodes, free)?;
            let next = expect(kinds, next, kinds::CLOSE)?;
            Ok(Read { next, used })
        }
        Symbol::Decimal(_) => Ok(leaf(nodes, free, pos, nodes::DECIMAL, pos, 0)),
        _ => Err(wrong(pos)),
    }
}

// Kept: no plainer, the name says which number of a use it is; From would not.
fn use_number(u: Use) -> u16
    ensures { result ≡ use_number u }
{
    match u {
        Use::AsPrimary => 0,
        Use::AsStatement => 1,
    }
}

// What follows a name: its actuals, or nothing of it.
#[cycle(expressions)]
pub fn actuals(
    kinds: &[u8],
    name: usize,
    depth: u16,
    nodes: &mut [u16],
    free: usize,
    u: Use,
) -> Parsed
    requires { Behind (text kinds.now) nodes.old name free }
    ensures { Tells (text kinds.now) nodes.old nodes.new depth (part (the_actuals u) ∷ []) (name + 1) free result }
{
    let n = use_number(u);
    let open = name + 1;
    match peek(kinds, open) {
        Symbol::Open => {
            let call = put(nodes, free, nodes::CALL, name, depth, n);
            let Read { next, used } = actual(kinds, open + 1, depth, nodes, call)?;
            let Read { next, used } = further_actuals(kinds, next, depth, nodes, used)?;
            let next = expect(kinds, next, kinds::CLOSE)?;
            let end = put(nodes, used, nodes::CALL_END, name, 0, n);
            Ok(Read { next, used: end })
        }
        _ => {
            let end = put(nodes, free, nodes::USE, name, depth, n);
            Ok(Read {
                next: open,
                used: end,
            })
        }
    }
}

#[cycle(expressions)]
fn actual(kinds: &[u8], pos: usize, depth: u16, nodes: &mut [u16], free: usize) -> Parsed
    requires { Room (text kinds.now) nodes.old pos free }
    ensures { Tells (text kinds.now) nodes.old nodes.new depth (part an_actual ∷ []) pos free result }
{
    let Read { next, used } = nested(kinds, pos, depth, nodes, free)?;
    let end = put(nodes, used, nodes::ACTUAL, pos, 0, 0);
    Ok(Read { next, used: end })
}

// Further actuals, each behind a comma.
#[cycle(expressions)]
fn further_actuals(kinds: &[u8], pos: usize, depth: u16, nodes: &mut [u16], free: usize) -> Parsed
    requires { Room (text kinds.now) nodes.old pos free }
    ensures { Tells (text kinds.now) nodes.old nodes.new depth (part further_actuals ∷ []) pos free result }
{
    match peek(kinds, pos) {
        Symbol::Comma => {
            let Read { next, used } = actual(kinds, pos + 1, depth, nodes, free)?;
            further_actuals(kinds, next, depth, nodes, used)
        }
        _ => Ok(Read {
            next: pos,
            used: free,
        }),
    }
}
