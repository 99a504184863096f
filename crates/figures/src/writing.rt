// The bytes of a real.
ghost use Rattle.std.specs.Prelude.{◌≡◌, [], ◌∷◌, ◌+◌, ◌*◌, ◌/◌, ◌^◌, ◌<◌, ◌≤◌, length};
ghost use Rattle.figures.specs.Digits.{places_to};
ghost use Rattle.figures.specs.Written.{numeral, width as width_of, pointed, power, Plain, plainly, scientific, decimal_text, Puts, Row};
ghost use Rattle.figures.specs.Fewest.{Small};

use crate::fewest::{Decimal, figures_of};

// How many digits a number has; 0 has none.
fn places_of(c: u64) -> usize
    ensures { result ≡ places_to 20 c }
{
    match c.checked_ilog10() {
        Some(n) => n as usize + 1,
        None => 0,
    }
}

// How many digits it takes to write a number.
fn width(c: u64) -> usize
    ensures { result ≡ width_of c }
{
    places_of(c).max(1)
}

// The number without its f lowest digits.
fn without(c: u64, f: usize) -> u64
    ensures { result ≡ c / 10 ^ f }
{
    let mut rest = c;
    for _ in 0..f {
        rest /= 10;
    }
    rest
}

// The number with k zeros behind it.
fn with_zeros(c: u64, k: usize) -> u64
    requires { c * 10 ^ k < 2 ^ 64 }
    ensures { result ≡ c * 10 ^ k }
{
    let mut all = c;
    for _ in 0..k {
        all *= 10;
    }
    all
}

// A byte. This function and those that follow give back the place behind what they put.
fn put(row: &mut [u8], at: usize, b: u8) -> usize
    requires { at < length row.old }
    ensures { Puts row.old row.new at result (b ∷ []) }
{
    row[at] = b;
    at + 1
}

// The n lowest digits of a number.
fn put_digits(row: &mut [u8], at: usize, n: usize, c: u64) -> usize
    requires { at + n ≤ length row.old }
    ensures { Puts row.old row.new at result (numeral n c) }
{
    let mut rest = c;
    for i in (0..n).rev() {
        row[at + i] = b'0' + (rest % 10) as u8;
        rest /= 10;
    }
    at + n
}

// A number over 10^f, with f digits behind the point.
fn put_pointed(row: &mut [u8], at: usize, c: u64, f: usize) -> usize
    requires { (at ≤ 1) × (c < 10 ^ 18) × (f ≤ 22) × (32 ≤ length row.old) }
    ensures puts { Puts row.old row.new at result (pointed c f) }
    ensures upper_bound { result ≤ 25 }
{
    let w = without(c, f);
    let n = width(w);
    let point = put_digits(row, at, n, w);
    let behind = put(row, point, b'.');
    put_digits(row, behind, f, c)
}

// The power of ten a - b behind an e.
fn put_power(row: &mut [u8], at: usize, a: usize, b: usize) -> usize
    requires { (at ≤ 25) × (a < 10 ^ 4) × (b < 10 ^ 4) × (32 ≤ length row.old) }
    ensures { Puts row.old row.new at result (power a b) }
{
    let sign = put(row, at, b'e');
    if b <= a {
        let n = (a - b) as u64;
        let w = width(n);
        return put_digits(row, sign, w, n);
    }
    let digit = put(row, sign, b'-');
    let n = (b - a) as u64;
    let w = width(n);
    put_digits(row, digit, w, n)
}

// Without a power of ten.
fn put_plain(row: &mut [u8], at: usize, d: Decimal) -> usize
    requires { (at ≤ 1) × (32 ≤ length row.old) × Plain d }
    ensures { Puts row.old row.new at result (plainly d) }
{
    if d.down <= d.up {
        return put_pointed(row, at, with_zeros(d.figures, d.up - d.down + 1), 1);
    }
    put_pointed(row, at, d.figures, d.down - d.up)
}

// With a power of ten, and one digit before the point; n digits in all.
fn put_scientific(row: &mut [u8], at: usize, d: Decimal, n: usize) -> usize
    requires { (at ≤ 1) × (32 ≤ length row.old) × Small d × (n ≤ 17) }
    ensures { Puts row.old row.new at result (scientific n d) }
{
    if n < 2 {
        let to = put_pointed(row, at, d.figures * 10, 1);
        return put_power(row, to, d.up, d.down);
    }
    let to = put_pointed(row, at, d.figures, n - 1);
    put_power(row, to, n - 1 + d.up, d.down)
}

fn put_decimal(row: &mut [u8], at: usize, d: Decimal) -> usize
    requires { (at ≤ 1) × (32 ≤ length row.old) × Small d }
    ensures { Puts row.old row.new at result (decimal_text d) }
{
    let n = places_of(d.figures);
    if d.down + 15 < n + d.up || n + d.up + 5 < d.down {
        return put_scientific(row, at, d, n);
    }
    put_plain(row, at, d)
}

// The real with these bits at the front of a row, and how many bytes it has. A row of fewer than 32 bytes, or one for what is no finite number, is left as it is.
pub fn write_real(bits: u64, row: &mut [u8]) -> usize
    ensures { Row row.old row.new result bits }
{
    let x = bits / 4503599627370496 % 2048;
    if row.len() < 32 || x == 2047 {
        return 0;
    }
    let d = figures_of(x, bits % 4503599627370496);
    if 9223372036854775808 <= bits {
        let at = put(row, 0, b'-');
        return put_decimal(row, at, d);
    }
    put_decimal(row, 0, d)
}

// The same for C: `figures_c` exports it.
pub fn deed_real(bits: u64, row: &mut [u8]) -> usize
    ensures { Row row.old row.new result bits }
{
    write_real(bits, row)
}
