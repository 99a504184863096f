// What is to be seen of a byte, as one number: its style, and the number that it is about. Two things next to each other never look the
// same, as between two names there is always another symbol.
ghost use Rattle.std.specs.Prelude.{◌≡◌, ◌+◌, ◌*◌, ◌/◌, ◌%◌, ◌<◌, ◌≤◌, min, length, get_or};
ghost use Rattle.webpage.specs.Looks.{Painted, Behind};

pub const PLAIN: u32 = 0;

pub const WORD: u32 = 1;
// A note or a remark.
pub const NOTE: u32 = 2;
// A declaring name, about its declaration's number.
pub const DECLARED: u32 = 3;
// A use, about the number of the declaration that it means.
pub const USE: u32 = 4;
// A use of what the environment gives, about its number.
pub const GIVEN: u32 = 5;
// A name of a value part or specification, about its formal's number.
pub const LISTED: u32 = 6;
// What is refused.
pub const MARKED: u32 = 7;

pub fn look(style: u32, about: usize) -> u32
    ensures value { about < 65536 → result ≡ about * 8 + style % 8 }
    ensures result_bound { result % 8 ≤ style }
{
    if about < 65536 {
        (about as u32) * 8 + style % 8
    } else {
        PLAIN
    }
}

pub fn style_of(look: u32) -> u32
    ensures { result ≡ look % 8 }
{
    look % 8
}

pub fn about_of(look: u32) -> u64
    ensures { result ≡ look / 8 }
{
    look as u64 / 8
}

// Gives a look, or a level, to the bytes from `from` up to `to`.
pub fn paint(row: &mut [u32], from: usize, to: usize, x: u32)
    ensures painted { Painted from (min to (length row.old)) x row.old row.new }
    ensures behind { Behind to row.old row.new }
{
    for i in from..to.min(row.len()) {
        row[i] = x;
    }
}

pub fn at(row: &[u32], i: usize) -> u32
    ensures value { i < length row.now → result ≡ get_or row.now i 0 }
    ensures value_2 { length row.now ≤ i → result ≡ 0 }
{
    row.get(i).copied().unwrap_or(0)
}
