// Numbers with a point: at most 15 digits, read as one whole number, and one division.
ghost use Rattle.std.specs.Prelude.{◌≡◌, ◌/◌, ◌%◌, ◌^◌, ◌≤◌, to_bits};
ghost use Rattle.std.specs.Float.{binary64};
ghost use Rattle.reals.specs.Values.{reading};

use crate::Halves;
use crate::words::bits_of;

// n with the point before its last k digits: 0 where there are over 15.
pub fn decimal(n: u64, k: u64) -> f64
    ensures { result ≡ reading n k }
{
    if n >= 1000000000000000 || k > 15 {
        return 0.0;
    }
    (n as f64) / (10u64.pow(k as u32) as f64)
}

// The bits of that real: what the code of a program has of it, in two words.
pub fn constant(n: u64, k: u64) -> Halves
    ensures { (result.low ≡ to_bits binary64 (reading n k) % 4294967296) × (result.high ≡ to_bits binary64 (reading n k) / 4294967296) }
{
    let b = bits_of(decimal(n, k));
    Halves {
        low: (b % 4294967296) as u32,
        high: (b / 4294967296) as u32,
    }
}
