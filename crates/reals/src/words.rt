// Bits as numbers in two's complement, and reals as bits.
ghost use Rattle.std.specs.Prelude.{◌≡◌, ◌+◌, ◌*◌, to_bits};
ghost use Rattle.std.specs.Float.{binary64};
ghost use Rattle.std.specs.Int.{w32, w64};
ghost use Rattle.std.proofs.Common.{to_z, of_z};
ghost use Rattle.reals.specs.model.Stored.{bits_in};

// What the definition has for what is no number: the language leaves it open.
const NO_NUMBER: u64 = 9221120237041090560;

// 32 bits as a number.
pub fn number(w: u32) -> i32
    ensures { result ≡ to_z w32 w }
{
    w.cast_signed()
}

// 64 bits as a number.
pub fn long_number(b: u64) -> i64
    ensures { result ≡ to_z w64 b }
{
    b.cast_signed()
}

// A number's 64 bits.
pub fn long_word(x: i64) -> u64
    ensures { result ≡ of_z w64 x }
{
    x.cast_unsigned()
}

// A real's bits.
#[tactic(auto, using(crate::proofs::Finite::nan_pattern))]
pub fn bits_of(x: f64) -> u64
    ensures { result ≡ to_bits binary64 x }
{
    if x.is_nan() { NO_NUMBER } else { x.to_bits() }
}

// The finite real of 64 bits. An infinity and what is no number have all ones where the exponent stands.
pub fn bits_in(b: u64) -> Option<f64>
    ensures { result ≡ bits_in b }
{
    if b % 9223372036854775808 / 4503599627370496 == 2047 {
        return None;
    }
    Some(f64::from_bits(b))
}

// The finite real of two halves.
pub fn real_of(low: u32, high: u32) -> Option<f64>
    ensures { result ≡ bits_in (high * 4294967296 + low) }
{
    bits_in((high as u64) * 4294967296 + low as u64)
}
