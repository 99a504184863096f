// What a name means as one number: a declaration's, behind all of them the environment's five, behind those nothing.
ghost use Rattle.std.specs.Prelude.{◌≡◌};
ghost use Rattle.names.specs.model.Rows.{meant_number, meant_of};

use crate::Meant;
use answers::{Declaration, Environment};

// Kept: what may not change, `resolve` holds it: uses are words, of which each has a meaning (docs/TABLE.md).
pub const GIVEN: u16 = 8192;

pub const NOTHING: u16 = 8197;

// The number of a meaning; one too large for its part is kept as nothing.
pub fn number(m: Meant) -> u16
    ensures { result ≡ meant_number m }
{
    match m {
        Meant::Declared(d) if d.number < 8192 => d.number as u16,
        Meant::Given(e) if e.number < 5 => GIVEN + e.number,
        _ => NOTHING,
    }
}

// The meaning of a number.
pub fn meant(word: u16) -> Meant
    ensures { result ≡ meant_of word }
{
    if word < GIVEN {
        return Meant::Declared(Declaration {
            number: word as usize,
        });
    }
    if word < NOTHING {
        return Meant::Given(Environment {
            number: word - GIVEN,
        });
    }
    Meant::Nothing
}
