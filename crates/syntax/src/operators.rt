// Operators by their kinds.
ghost use Rattle.std.specs.Prelude.{◌≡◌, MatchOption};
ghost use Rattle.symbols.specs.Symbols.{kind};
ghost use Rattle.symbols.specs.declared.Symbol.TheVariants.{Begin};
ghost use Rattle.syntax.specs.model.Operators.{operator_of, relation_of};

use grammar::Level;
use symbols::{Symbol, kinds};

// The operator of a level.
pub fn operator(l: Level, s: Symbol) -> Option<u16>
    ensures { MatchOption result (operator_of l (kind s) ≡ kind Begin) (λ o. (o ≡ operator_of l (kind s)) × (o ≡ kind Begin → ⊥)) }
{
    match l {
        Level::Product => match s {
            Symbol::Times => Some(kinds::TIMES as u16),
            Symbol::Divide => Some(kinds::DIVIDE as u16),
            Symbol::Slash => Some(kinds::SLASH as u16),
            _ => None,
        },
        Level::Sum => match s {
            Symbol::Plus => Some(kinds::PLUS as u16),
            Symbol::Minus => Some(kinds::MINUS as u16),
            _ => None,
        },
        Level::Conjunction => match s {
            Symbol::And => Some(kinds::AND as u16),
            _ => None,
        },
        Level::Disjunction => match s {
            Symbol::Or => Some(kinds::OR as u16),
            _ => None,
        },
        Level::Implication => match s {
            Symbol::Impl => Some(kinds::IMPL as u16),
            _ => None,
        },
        Level::Equivalence => match s {
            Symbol::Equiv => Some(kinds::EQUIV as u16),
            _ => None,
        },
    }
}

// A relation.
pub fn relational(s: Symbol) -> Option<u16>
    ensures { MatchOption result (relation_of (kind s) ≡ kind Begin) (λ o. (o ≡ relation_of (kind s)) × (o ≡ kind Begin → ⊥)) }
{
    match s {
        Symbol::Less => Some(kinds::LESS as u16),
        Symbol::LessEqual => Some(kinds::LESS_EQUAL as u16),
        Symbol::Equal => Some(kinds::EQUAL as u16),
        Symbol::GreaterEqual => Some(kinds::GREATER_EQUAL as u16),
        Symbol::Greater => Some(kinds::GREATER as u16),
        Symbol::NotEqual => Some(kinds::NOT_EQUAL as u16),
        _ => None,
    }
}
