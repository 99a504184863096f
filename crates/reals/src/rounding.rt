// A real stored in an integer.
ghost use Rattle.std.specs.Prelude.{◌≡◌, true, false, pos};
ghost use Rattle.std.specs.Float.{fin, binary64};
ghost use Rattle.std.specs.Float.Ieee.{add, lt, le};
ghost use Rattle.reals.specs.Values.{entier as entierOf, whole_of, half};

use crate::{Outcome, Value};
use answers::Answer;

// The greatest whole number that is not above t, which is a number of 32 bits.
fn entier(t: f64) -> i64
    requires { (lt t (fin false 1 (pos 31)) ≡ true) × (le (fin true 1 (pos 31)) t ≡ true) }
    ensures { result ≡ entierOf t }
{
    if t >= 0.0 {
        return std::num::truncating_f64_to_u64(t) as i64;
    }
    let u = std::num::truncating_f64_to_u64(-t);
    if std::num::nearest_u64_to_f64(u) < -t {
        return -1 - (u as i64);
    }
    0 - (u as i64)
}

// entier(x + 0.5), the sum rounded once. Both tests fail for what is no number.
pub fn rounded(x: f64) -> Outcome
    ensures { result ≡ whole_of (add binary64 x half) }
{
    let t = x + 0.5;
    if t < 2147483648.0 && t >= -2147483648.0 {
        Outcome::Is(Value::Whole(entier(t) as i32))
    } else {
        Outcome::Fault(Answer::RANGE)
    }
}
