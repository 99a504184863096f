// Output entries of three numbers.
ghost use Rattle.std.specs.Prelude.{◌≡◌};
ghost use Rattle.reals.specs.Values.{entry_w, entry_b, entry_r};
ghost use Rattle.reals.specs.model.Stored.{three_of};

use crate::Entry;
use crate::words::{bits_of, number};

pub fn whole_entry(z: i32) -> Entry
    ensures { three_of result ≡ entry_w z }
{
    Entry {
        first: 0,
        second: z,
        third: 0,
    }
}

fn halves(b: u64) -> Entry
    ensures { three_of result ≡ entry_b b }
{
    Entry {
        first: 1,
        second: number((b % 4294967296) as u32),
        third: number((b / 4294967296) as u32),
    }
}

pub fn real_entry(x: f64) -> Entry
    ensures { three_of result ≡ entry_r x }
{
    halves(bits_of(x))
}
