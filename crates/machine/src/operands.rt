// The three parts of an operand, of 6, 13 and 13 bits: taken apart, and put together.
ghost use Rattle.std.specs.Prelude.{◌≡◌, ◌<◌};
ghost use Rattle.machine.specs.Instructions.{high, mid, low, packed};

// Numbers of so many bits are below these.
pub const SIX_BITS: usize = 64;

pub const TEN_BITS: usize = 1024;

pub const THIRTEEN_BITS: usize = 8192;

pub const TWENTY_SIX_BITS: usize = 67108864;

// The offset that no variable has, and that stands for the cell found.
pub const FOUND_OFFSET: usize = 8191;

// Levels out, or the nesting.
pub fn high(v: usize) -> usize
    ensures { result ≡ high v }
{
    v / TWENTY_SIX_BITS
}

// An offset, a number of cells or a position.
pub fn mid(v: usize) -> usize
    ensures { result ≡ mid v }
{
    v / THIRTEEN_BITS % THIRTEEN_BITS
}

// An address.
pub fn low(v: usize) -> usize
    ensures { result ≡ low v }
{
    v % THIRTEEN_BITS
}

// An operand, each part cut to its range.
pub fn packed(u: usize, o: usize, l: usize) -> usize
    ensures value { result ≡ packed u o l }
    ensures upper_bound { result < 4294967296 }
{
    TWENTY_SIX_BITS * (u % SIX_BITS) + THIRTEEN_BITS * (o % THIRTEEN_BITS) + l % THIRTEEN_BITS
}
