// What is said where something of depth 65 would begin: 6 if the symbol can stand there, else 5.
ghost use Rattle.std.specs.Prelude.{[], ◌∷◌, Err};
ghost use Rattle.grammar.specs.Grammar.{part, deeper, expression as an_expression, level, statement as a_statement, consequence as a_consequence};
ghost use Rattle.grammar.specs.declared.Level.TheVariants.{Equivalence};
ghost use Rattle.grammar.specs.model.Text.{text};
ghost use Rattle.syntax.specs.model.Says.{Limits, LimitsAll, behind};

use crate::faults::{too_deep, wrong};
use crate::text::peek;
use grammar::Fault;
use symbols::Symbol;

// An expression.
pub fn expression(kinds: &[u8], pos: usize) -> Fault
    ensures { LimitsAll (text kinds.now) (deeper an_expression ∷ []) pos (Err result) }
{
    match peek(kinds, pos) {
        Symbol::If
        | Symbol::True
        | Symbol::False
        | Symbol::Not
        | Symbol::Plus
        | Symbol::Minus
        | Symbol::Open
        | Symbol::Name
        | Symbol::Number(_)
        | Symbol::Decimal(_) => too_deep(pos),
        _ => wrong(pos),
    }
}

// An expression that is not conditional.
pub fn simple(kinds: &[u8], pos: usize) -> Fault
    ensures { LimitsAll (text kinds.now) (deeper (level Equivalence) ∷ []) pos (Err result) }
{
    match peek(kinds, pos) {
        Symbol::True
        | Symbol::False
        | Symbol::Not
        | Symbol::Plus
        | Symbol::Minus
        | Symbol::Open
        | Symbol::Name
        | Symbol::Number(_)
        | Symbol::Decimal(_) => too_deep(pos),
        _ => wrong(pos),
    }
}

// A statement, behind which `;` may stand, and 'end' where ends says so.
pub fn statement(kinds: &[u8], pos: usize, ends: bool) -> Fault
    ensures { Limits (text kinds.now) (behind ends) (deeper a_statement ∷ []) pos (Err result) }
{
    match peek(kinds, pos) {
        Symbol::Begin | Symbol::If | Symbol::For | Symbol::Name | Symbol::Semicolon => too_deep(
            pos,
        ),
        Symbol::End => { if ends { too_deep(pos) } else { wrong(pos) } }
        _ => wrong(pos),
    }
}

// A statement behind 'then': also 'else' may follow it where it is empty.
pub fn consequence(kinds: &[u8], pos: usize, ends: bool) -> Fault
    ensures { Limits (text kinds.now) (behind ends) (part a_consequence ∷ []) pos (Err result) }
{
    match peek(kinds, pos) {
        Symbol::For => too_deep(pos),
        Symbol::Begin | Symbol::Name | Symbol::Else | Symbol::Semicolon => too_deep(pos),
        Symbol::End => { if ends { too_deep(pos) } else { wrong(pos) } }
        _ => wrong(pos),
    }
}
