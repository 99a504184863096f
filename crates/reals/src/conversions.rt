// A value's type, and a value as one of another type.
ghost use Rattle.std.specs.Prelude.{◌≡◌};
ghost use Rattle.reals.specs.Values.{form_of, convert as convert_of};

use crate::rounding::rounded;
use crate::{Form, Outcome, Value};

pub fn form_of(v: Value) -> Form
    ensures { result ≡ form_of v }
{
    match v {
        Value::Whole(_) => Form::Wholes,
        Value::Real(_) => Form::Reals,
        Value::Truth(_) => Form::Truths,
    }
}

// A whole number becomes a real exactly, a real entier(x + 0.5); a logical value becomes none.
#[tactic(auto, unfolding(crate::specs::Values::convert))]
pub fn convert(form: Form, v: Value) -> Outcome
    ensures { result ≡ convert_of form v }
{
    match (form, v) {
        (Form::Wholes, Value::Whole(_)) => Outcome::Is(v),
        (Form::Wholes, Value::Real(x)) => rounded(x),
        (Form::Reals, Value::Whole(z)) => Outcome::Is(Value::Real(z as f64)),
        (Form::Reals, Value::Real(_)) => Outcome::Is(v),
        (Form::Truths, Value::Truth(_)) => Outcome::Is(v),
        _ => Outcome::Stray,
    }
}
