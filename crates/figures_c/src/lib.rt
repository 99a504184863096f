// A real as text, for C: the function of the library `figures`, which promises the same.
#![tactic(auto)]

ghost use Rattle.figures.specs.Written.{Row};

// The digits of a real of 64 bits, as people write it; gives how many bytes of the row it takes.
#[unsafe(no_mangle)]
pub extern "C" fn deed_real(bits: u64, row: &mut [u8]) -> usize
    ensures { Row row.old row.new result bits }
{
    figures::writing::deed_real(bits, row)
}
