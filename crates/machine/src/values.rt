// What numbers of an instruction stand for: operators, types and channels.
ghost use Rattle.std.specs.Prelude.{◌≡◌, ◌≤◌, ◌<◌};
ghost use Rattle.machine.specs.Operations.{o_minus, o_plus};
ghost use Rattle.machine.specs.Data.{arithmetic, suits as suitsOf};
ghost use Rattle.machine.specs.Instructions.{unary_of, binary_of};
ghost use Rattle.std.specs.Int.{w32};
ghost use Rattle.std.proofs.Common.{of_z};
ghost use Rattle.machine.specs.model.Holding.{line_of, typed_of, raised_of};

use crate::{Line, codes};
use reals::words::{long_word, real_of};
use reals::{Binary, Form, Outcome, Unary, Value};

// The sign -, 'not' and iabs.
// Kept: no plainer, Unary and Binary are another crate's, so no From or TryFrom of a number can be written for them here.
#[tactic(auto, unfolding(crate::specs::Instructions::unary_of))]
pub fn unary_of(k: u32) -> Unary
    requires { (o_minus ≤ k) × (k < o_plus) }
    ensures { result ≡ unary_of k }
{
    match k {
        codes::MINUS => Unary::Minus,
        codes::NOT => Unary::Negation,
        _ => Unary::Absolute,
    }
}

// The operators on two values.
#[tactic(auto, unfolding(crate::specs::Instructions::binary_of))]
pub fn binary_of(k: u32) -> Binary
    requires { o_plus ≤ k }
    ensures { result ≡ binary_of k }
{
    match k {
        codes::PLUS => Binary::Plus,
        codes::LESS => Binary::Less,
        codes::TIMES => Binary::Times,
        codes::OVER => Binary::Over,
        codes::BELOW => Binary::Below,
        codes::AT_MOST => Binary::AtMost,
        codes::EQUAL => Binary::Equal,
        codes::AT_LEAST => Binary::AtLeast,
        codes::ABOVE => Binary::Above,
        codes::UNEQUAL => Binary::Unequal,
        codes::AND => Binary::And,
        codes::OR => Binary::Or,
        codes::IMPL => Binary::Impl,
        _ => Binary::Equiv,
    }
}

// The type of a number, if it is a type's.
#[tactic(auto, unfolding(crate::specs::model::Holding::typed_of))]
pub fn typed(n: usize) -> Option<Form>
    ensures { result ≡ typed_of n }
{
    match n {
        0 => Some(Form::Wholes),
        1 => Some(Form::Reals),
        2 => Some(Form::Truths),
        _ => None,
    }
}

// The channel of ininteger and outinteger.
#[tactic(auto, unfolding(crate::specs::model::Holding::line_of))]
pub fn line(v: Value) -> Line
    ensures { result ≡ line_of v }
{
    match v {
        Value::Whole(k) => {
            if k == 1 {
                return Line::One;
            }
            Line::Other
        }
        Value::Real(_) => Line::Not,
        Value::Truth(_) => Line::Not,
    }
}

// Whole numbers and reals.
pub fn is_number(form: Form) -> bool
    ensures { result ≡ arithmetic form }
{
    match form {
        Form::Wholes | Form::Reals => true,
        Form::Truths => false,
    }
}

// Whether values of the one type become values of the other.
pub fn suits(form: Form, other: Form) -> bool
    ensures { result ≡ suitsOf form other }
{
    is_number(form) == is_number(other)
}

// A number's 32 bits.
fn word(z: i32) -> u32
    ensures { result ≡ of_z w32 z }
{
    (long_word(z as i64) % 4294967296) as u32
}

// A real constant: its lower half as a whole number, and its upper half.
pub fn raised(v: Value, high: u32) -> Outcome
    ensures { result ≡ raised_of v high }
{
    match v {
        Value::Whole(z) => match real_of(word(z), high) {
            Some(x) => Outcome::Is(Value::Real(x)),
            None => Outcome::Stray,
        },
        Value::Real(_) => Outcome::Stray,
        Value::Truth(_) => Outcome::Stray,
    }
}
