// What a run wrote: entries of three numbers, 0, a whole number and 0, or 1 and the two halves of a real's bits, the lower one first.
ghost use Rattle.std.specs.Prelude.{◌≡◌, ◌+◌, ◌*◌, length};
ghost use Rattle.std.specs.Int.{w32};
ghost use Rattle.std.proofs.Common.{of_z};

use figures::writing::write_real;
use showing::system::System;
use showing::text::{say, say_whole};

// The bits of a real, of the 32 bits of its two halves.
fn bits_of(low: i32, high: i32) -> u64
    ensures { result ≡ of_z w32 high * 4294967296 + of_z w32 low }
{
    u64::from(high.cast_unsigned()) * 4294967296 + u64::from(low.cast_unsigned())
}

// A real with the fewest digits that give it back.
fn say_real(system: &System, low: i32, high: i32) {
    let mut row = [0u8; 32];
    let n = write_real(bits_of(low, high), &mut row);
    say(system, &row[..n]);
}

// An entry, on a line.
fn show_entry(system: &System, entry: &[i32])
    requires { length entry.now ≡ 3 }
{
    if entry[0] == 0 {
        say_whole(system, i64::from(entry[1]));
    } else {
        say_real(system, entry[1], entry[2]);
    }
    say(system, b"\n");
}

// The outputs, for people.
pub fn show_entries(system: &System, output: &[i32]) {
    for entry in output.chunks_exact(3) {
        show_entry(system, entry);
    }
}

// The numbers of the output as they are, each behind a blank.
pub fn say_numbers(system: &System, output: &[i32]) {
    for &x in output {
        say(system, b" ");
        say_whole(system, i64::from(x));
    }
}
