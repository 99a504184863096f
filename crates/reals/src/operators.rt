// The operators on values. Sums and products of whole numbers are worked out in 64 bits, where none is lost; those of
// reals are the language's own.
ghost use Rattle.std.specs.Prelude.{◌≡◌};
ghost use Rattle.reals.specs.Values.{apply1, apply2, both_of, cut as cut_of, quotient as quotient_of};

use crate::numbers::{real, whole};
use crate::{Binary, Both, Outcome, Unary, Value};
use answers::Answer;

// The sign - and iabs.
fn one_whole(op: Unary, x: i32) -> Outcome
    ensures { result ≡ apply1 op (Value.Whole x) }
{
    match op {
        Unary::Minus => whole(0 - x as i64),
        Unary::Absolute if x < 0 => whole(0 - x as i64),
        Unary::Absolute => Outcome::Is(Value::Whole(x)),
        Unary::Negation => Outcome::Stray,
    }
}

// The sign - turns a real's.
#[tactic(auto, unfolding(crate::specs::Values::apply1))]
fn one_real(op: Unary, x: f64) -> Outcome
    ensures { result ≡ apply1 op (Value.Real x) }
{
    match op {
        Unary::Minus => Outcome::Is(Value::Real(-x)),
        Unary::Absolute | Unary::Negation => Outcome::Stray,
    }
}

// 'not'.
#[tactic(auto, unfolding(crate::specs::Values::apply1))]
fn one_truth(op: Unary, b: bool) -> Outcome
    ensures { result ≡ apply1 op (Value.Truth b) }
{
    match op {
        Unary::Negation => Outcome::Is(Value::Truth(!b)),
        Unary::Minus | Unary::Absolute => Outcome::Stray,
    }
}

// The operators on one value.
pub fn unary(op: Unary, v: Value) -> Outcome
    ensures { result ≡ apply1 op v }
{
    match v {
        Value::Whole(x) => one_whole(op, x),
        Value::Real(x) => one_real(op, x),
        Value::Truth(b) => one_truth(op, b),
    }
}

// Two values as an operator takes them.
#[tactic(auto, unfolding(crate::specs::Values::both_of))]
pub fn paired(a: Value, b: Value) -> Both
    ensures { result ≡ both_of a b }
{
    match (a, b) {
        (Value::Whole(x), Value::Whole(y)) => Both::Wholes(x, y),
        (Value::Whole(x), Value::Real(y)) => Both::Reals(x as f64, y),
        (Value::Real(x), Value::Whole(y)) => Both::Reals(x, y as f64),
        (Value::Real(x), Value::Real(y)) => Both::Reals(x, y),
        (Value::Truth(x), Value::Truth(y)) => Both::Truths(x, y),
        _ => Both::Neither,
    }
}

// %, toward zero.
fn cut(x: i32, y: i32) -> Outcome
    ensures { result ≡ cut_of x y }
{
    if y == 0 {
        return Outcome::Fault(Answer::ZERO_DIVISOR);
    }
    whole(x as i64 / y as i64)
}

// /
fn quotient(x: f64, y: f64) -> Outcome
    ensures { result ≡ quotient_of x y }
{
    if y == 0.0 {
        return Outcome::Fault(Answer::ZERO_DIVISOR);
    }
    real(x / y)
}

#[tactic(auto, unfolding(crate::specs::Values::apply2, crate::specs::Values::both_of, crate::specs::Values::on_truths))]
pub fn wholes(op: Binary, x: i32, y: i32) -> Outcome
    ensures { result ≡ apply2 op (Value.Whole x) (Value.Whole y) }
{
    match op {
        Binary::Plus => whole(x as i64 + y as i64),
        Binary::Less => whole(x as i64 - y as i64),
        Binary::Times => whole(x as i64 * y as i64),
        Binary::Over => cut(x, y),
        Binary::Divide => quotient(x as f64, y as f64),
        Binary::Below => Outcome::Is(Value::Truth(x < y)),
        Binary::AtMost => Outcome::Is(Value::Truth(x <= y)),
        Binary::Equal => Outcome::Is(Value::Truth(x == y)),
        Binary::AtLeast => Outcome::Is(Value::Truth(x >= y)),
        Binary::Above => Outcome::Is(Value::Truth(x > y)),
        Binary::Unequal => Outcome::Is(Value::Truth(x != y)),
        Binary::And | Binary::Or | Binary::Impl | Binary::Equiv => Outcome::Stray,
    }
}

#[tactic(auto, unfolding(crate::specs::Values::apply2, crate::specs::Values::both_of, crate::specs::Values::on_numbers, crate::specs::Values::on_truths))]
fn reals(op: Binary, x: f64, y: f64) -> Outcome
    ensures { result ≡ apply2 op (Value.Real x) (Value.Real y) }
{
    match op {
        Binary::Plus => real(x + y),
        Binary::Less => real(x - y),
        Binary::Times => real(x * y),
        Binary::Over => Outcome::Stray,
        Binary::Divide => quotient(x, y),
        Binary::Below => Outcome::Is(Value::Truth(x < y)),
        Binary::AtMost => Outcome::Is(Value::Truth(x <= y)),
        Binary::Equal => Outcome::Is(Value::Truth(x == y)),
        Binary::AtLeast => Outcome::Is(Value::Truth(x >= y)),
        Binary::Above => Outcome::Is(Value::Truth(x > y)),
        Binary::Unequal => Outcome::Is(Value::Truth(x != y)),
        Binary::And | Binary::Or | Binary::Impl | Binary::Equiv => Outcome::Stray,
    }
}

#[tactic(auto, unfolding(crate::specs::Values::apply2, crate::specs::Values::both_of, crate::specs::Values::on_numbers, crate::specs::Values::on_truths))]
fn truths(op: Binary, x: bool, y: bool) -> Outcome
    ensures { result ≡ apply2 op (Value.Truth x) (Value.Truth y) }
{
    match op {
        Binary::And => Outcome::Is(Value::Truth(x & y)),
        Binary::Or => Outcome::Is(Value::Truth(x | y)),
        Binary::Impl => Outcome::Is(Value::Truth(!x | y)),
        Binary::Equiv => Outcome::Is(Value::Truth(x == y)),
        _ => Outcome::Stray,
    }
}

// The operators on two values.
pub fn binary(op: Binary, a: Value, b: Value) -> Outcome
    ensures { result ≡ apply2 op a b }
{
    match paired(a, b) {
        Both::Wholes(x, y) => wholes(op, x, y),
        Both::Reals(x, y) => reals(op, x, y),
        Both::Truths(x, y) => truths(op, x, y),
        Both::Neither => Outcome::Stray,
    }
}
