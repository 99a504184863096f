// The least fault: "the smallest place wins, and at one place the lower number".
ghost use Rattle.std.specs.Prelude.{◌≡◌, min};
ghost use Rattle.names.specs.model.Rows.{fault_key, noted_if};

use answers::{Answer, Ordinal};

// No fault.
// Kept: what may not change, `OutlineLeft` and `UsesLeft` hold it: the least fault is one number there, and none is more than every fault's.
pub const NONE: usize = 1048576;

// The least of the faults so far and one more, at a symbol.
pub fn noted(least: usize, symbol: Ordinal, a: Answer) -> usize
    ensures { result ≡ min least (fault_key symbol.number a.number) }
{
    least.min(16 * usize::from(symbol.number) + usize::from(a.number))
}

// The same where a test says so.
pub fn noted_if(test: bool, least: usize, symbol: Ordinal, a: Answer) -> usize
    ensures { result ≡ noted_if test least symbol.number a.number }
{
    if test { noted(least, symbol, a) } else { least }
}
