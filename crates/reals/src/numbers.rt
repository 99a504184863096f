// Whole numbers of 32 bits and finite reals of 64, or their fault.
ghost use Rattle.std.specs.Prelude.{◌≡◌};
ghost use Rattle.reals.specs.Values.{whole as whole_of, real as realOf};

use crate::{Outcome, Value};
use answers::Answer;

// x, where it is a whole number of 32 bits.
#[tactic(auto, unfolding(crate::specs::Values::whole))]
pub fn whole(x: i64) -> Outcome
    ensures { result ≡ whole_of x }
{
    match i32::try_from(x) {
        Ok(z) => Outcome::Is(Value::Whole(z)),
        Err(_) => Outcome::Fault(Answer::RANGE),
    }
}

// x, where it is finite.
#[tactic(auto, unfolding(crate::specs::Values::real), using(crate::proofs::Finite::finite_is))]
pub fn real(x: f64) -> Outcome
    ensures { result ≡ realOf x }
{
    if x.is_finite() {
        Outcome::Is(Value::Real(x))
    } else {
        Outcome::Fault(Answer::RANGE)
    }
}
