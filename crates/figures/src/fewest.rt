// The fewest digits that give a real back.
ghost use Rattle.std.specs.Prelude.{◌≡◌, ◌+◌, ◌*◌, ◌-◌, ◌/◌, ◌%◌, ◌^◌, ◌<◌, ◌≤◌, leb};
ghost use Rattle.figures.specs.Digits.{value, Number};
ghost use Rattle.figures.specs.Fewest.{near, between, least, trimmed as trimmed_of, decimal_of, figures_of, Ready, Finite, Small};

use crate::digits::{clean, head, places, scaled};

// figures · 10^up / 10^down.
#[derive(Clone, Copy)]
pub struct Decimal {
    pub figures: u64,
    pub up: usize,
    pub down: usize,
}

// The digits above the `j` lowest, rounded to the nearest, a tie to the even.
fn nearest(a: &[u8; 772], j: usize) -> u64
    requires number { Number a.now }
    requires j_nonzero { (0 < j) × (j ≤ 772) × (value a.now / 10 ^ (j - 1) < 2 ^ 63) }
    ensures { result ≡ near (value a.now) j }
{
    let h = head(a, j - 1);
    let q = h / 10;
    let d = h % 10;
    if d < 5 {
        return q;
    }
    if 5 < d {
        return q + 1;
    }
    if clean(a, j - 1) {
        return q + q % 2;
    }
    q + 1
}

// Whether c · 10^j is not below a number.
fn reaches(a: &[u8; 772], c: u64, j: usize) -> bool
    requires number { Number a.now }
    requires j_bound { (j ≤ 772) × (value a.now / 10 ^ j < 2 ^ 64) }
    ensures { result ≡ leb (value a.now) (c * 10 ^ j) }
{
    let h = head(a, j);
    if h == c {
        return clean(a, j);
    }
    h < c
}

// Whether c · 10^j gives the real back.
fn gives_back(low: &[u8; 772], high: &[u8; 772], c: u64, j: usize) -> bool
    requires number { Number low.now }
    requires number_2 { Number high.now }
    requires j_bound { (j ≤ 772) × (value low.now / 10 ^ j < 2 ^ 64) × (value high.now / 10 ^ j < 2 ^ 64) }
    ensures { result ≡ between (value low.now) (value high.now) (c * 10 ^ j) }
{
    if reaches(high, c, j) {
        return false;
    }
    reaches(low, c, j)
}

// How many digits of `v`, which has `t`, give the real back.
fn enough(v: &[u8; 772], low: &[u8; 772], high: &[u8; 772], t: usize) -> usize
    requires number { Number v.now }
    requires number_2 { Number low.now }
    requires number_3 { Number high.now }
    requires ready { Ready (value v.now) (value low.now) (value high.now) t }
    ensures { result ≡ least (value v.now) (value low.now) (value high.now) t }
{
    for p in 1..17 {
        if gives_back(low, high, nearest(v, t - p), t - p) {
            return p;
        }
    }
    17
}

// Without the 0 of one digit that was rounded up to ten.
fn trimmed(c: u64, up: usize, down: usize) -> Decimal
    requires { (c ≤ 10 ^ 17) × (up < 999) × (down < 1100) }
    ensures is { result ≡ trimmed_of c up down }
    ensures small { Small result }
{
    if c % 10 == 0 {
        return Decimal {
            figures: c / 10,
            up: up + 1,
            down,
        };
    }
    Decimal {
        figures: c,
        up,
        down,
    }
}

// Of m · 2^(y - 1075), whose lower neighbour is `under` 16ths of the last place below it.
fn decimal_of(m: u64, under: u64, y: usize) -> Decimal
    requires { Finite m under y }
    ensures is { result ≡ decimal_of m under y }
    ensures small { Small result }
{
    let v = scaled(32 * m, y, 0);
    let low = scaled(32 * m - under, y, m % 2);
    let high = scaled(32 * m + 16, y, 1 - m % 2);
    let t = places(&v);
    let p = enough(&v, &low, &high, t);
    trimmed(nearest(&v, t - p), t - p, 1080usize.saturating_sub(y))
}

// Of the real with the exponent's field x and the digits' field t.
pub fn figures_of(x: u64, t: u64) -> Decimal
    requires { (x < 2047) × (t < 2 ^ 52) }
    ensures is { result ≡ figures_of x t }
    ensures small { Small result }
{
    if x == 0 {
        if t == 0 {
            return Decimal {
                figures: 0,
                up: 0,
                down: 0,
            };
        }
        return decimal_of(t, 16, 1);
    }
    if t == 0 && 1 < x {
        return decimal_of(4503599627370496, 8, x as usize);
    }
    decimal_of(4503599627370496 + t, 16, x as usize)
}
