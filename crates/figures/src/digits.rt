// Whole numbers of up to 772 digits, the lowest digit first.
ghost use Rattle.std.specs.Prelude.{◌≡◌, ◌+◌, ◌*◌, ◌-◌, ◌/◌, ◌%◌, ◌^◌, ◌<◌, ◌≤◌, eqb};
ghost use Rattle.figures.specs.Digits.{value, Number, Spells, places_to};
ghost use Rattle.figures.specs.Fewest.{scaled as scaled_of};

// k times the number, and c more.
fn times(a: &mut [u8; 772], k: u64, c: u64)
    requires number { Number a.old }
    requires k_bound { (k < 10) × (c < 2 ^ 60) × (value a.old * k + c < 10 ^ 772) }
    ensures { Spells a.new (value a.old * k + c) }
{
    let mut carry = c;
    for d in a.iter_mut() {
        let n = u64::from(*d) * k + carry;
        *d = (n % 10) as u8;
        carry = n / 10;
    }
}

// k times the number, so many times over.
fn times_power(a: &mut [u8; 772], k: u64, count: usize)
    requires number { Number a.old }
    requires k_nonzero { (0 < k) × (k < 10) × (value a.old * k ^ count < 10 ^ 772) }
    ensures { Spells a.new (value a.old * k ^ count) }
{
    for _ in 0..count {
        times(a, k, 0);
    }
}

// The digits of n 32nds of the last binary place of a real with the exponent y, and of `more` on top.
pub fn scaled(n: u64, y: usize, more: u64) -> [u8; 772]
    requires { (n < 2 ^ 58) × (0 < y) × (y ≤ 2046) × (more < 2) }
    ensures { Spells result (scaled_of y n + more) }
{
    let mut a = [0; 772];
    times(&mut a, 1, n);
    times_power(&mut a, 2, y.saturating_sub(1080));
    times_power(&mut a, 5, 1080usize.saturating_sub(y));
    times(&mut a, 1, more);
    a
}

// How many digits there are without leading zeros.
pub fn places(a: &[u8; 772]) -> usize
    requires { Number a.now }
    ensures { result ≡ places_to 772 (value a.now) }
{
    for t in (0..772).rev() {
        if a[t] != 0 {
            return t + 1;
        }
    }
    0
}

// The number without its `j` lowest digits.
pub fn head(a: &[u8; 772], j: usize) -> u64
    requires number { Number a.now }
    requires j_bound { (j ≤ 772) × (value a.now / 10 ^ j < 2 ^ 64) }
    ensures { result ≡ value a.now / 10 ^ j }
{
    let mut h = 0;
    for i in (j..772).rev() {
        h = h * 10 + u64::from(a[i]);
    }
    h
}

// Whether the `j` lowest digits are all 0.
pub fn clean(a: &[u8; 772], j: usize) -> bool
    requires number { Number a.now }
    requires j_bound { j ≤ 772 }
    ensures { result ≡ eqb (value a.now % 10 ^ j) 0 }
{
    a[..j].iter().all(|d| *d == 0)
}
