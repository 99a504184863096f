// The test of a step element.
ghost use Rattle.std.specs.Prelude.{◌≡◌};
ghost use Rattle.reals.specs.Values.{sign as sign_of, past as past_of, past_r, past_by, leaves as leavesOf};

use crate::operators::paired;
use crate::{Both, Outcome, Value};

fn sign(x: i32) -> i64
    ensures { result ≡ sign_of x }
{
    i64::from(x.signum())
}

// Whole numbers: v the variable, x the step and y the bound. The difference is one of 64 bits.
fn past(v: i32, x: i32, y: i32) -> bool
    ensures { result ≡ past_of v x y }
{
    (v as i64 - y as i64) * sign(x) > 0
}

// Reals: no difference is taken, since it would be rounded.
fn past_real(v: f64, x: f64, y: f64) -> bool
    ensures { result ≡ past_r v x y }
{
    if x > 0.0 {
        return v > y;
    }
    if x < 0.0 {
        return v < y;
    }
    false
}

fn past_wholes(v: i32, y: i32, x: Value) -> Outcome
    ensures { result ≡ past_by (Both.Wholes v y) x }
{
    match x {
        Value::Whole(s) => Outcome::Is(Value::Truth(past(v, s, y))),
        Value::Real(s) => Outcome::Is(Value::Truth(past_real(v as f64, s, y as f64))),
        Value::Truth(_) => Outcome::Stray,
    }
}

fn past_reals(v: f64, y: f64, x: Value) -> Outcome
    ensures { result ≡ past_by (Both.Reals v y) x }
{
    match x {
        Value::Whole(s) => Outcome::Is(Value::Truth(past_real(v, s as f64, y))),
        Value::Real(s) => Outcome::Is(Value::Truth(past_real(v, s, y))),
        Value::Truth(_) => Outcome::Stray,
    }
}

// Whether a loop is left, with the variable at v, by the step x and the bound y.
#[tactic(auto, unfolding(crate::specs::Values::past_by))]
pub fn leaves(v: Value, x: Value, y: Value) -> Outcome
    ensures { result ≡ leavesOf v x y }
{
    match paired(v, y) {
        Both::Wholes(a, b) => past_wholes(a, b, x),
        Both::Reals(a, b) => past_reals(a, b, x),
        Both::Truths(_, _) | Both::Neither => Outcome::Stray,
    }
}
