// Words in lent arrays, and operands with an address.
ghost use Rattle.std.specs.Prelude.{◌≡◌, cond, ◌*◌, ◌<◌, ltb, length, get_or, set, replicate, take};
ghost use Rattle.emitting.specs.model.Layout.{packed};
ghost use Rattle.emitting.specs.model.Emission.{place_at, mark_at};

use answers::{Address, Declaration, Ordinal, Place};
use machine::operands;

// A word of some, 0 behind them.
pub fn word_at(words: &[u32], i: usize) -> usize
    ensures value { result ≡ get_or words.now i 0 }
    ensures upper_bound { result < 4294967296 }
{
    words.get(i).copied().unwrap_or(0) as usize
}

// A word is written, if there is one.
pub fn set_word(words: &mut [u32], i: usize, v: usize)
    requires { v < 4294967296 }
    ensures { words.new ≡ set words.old i v }
{
    if i < words.len() {
        words[i] = v as u32;
    }
}

// Sets every word to zero.
pub fn clear(words: &mut [u32])
    ensures { words.new ≡ replicate (length words.old) 0 }
{
    words.fill(0);
}

// The words of d rows, of which there are no more than 8,192.
pub fn row_words(d: usize) -> usize
    ensures { result ≡ cond (ltb d 8192) (4 * d) 32768 }
{
    4 * d.min(8192)
}

// The first n words, or all where there are no more.
pub fn front(words: &[u16], n: usize) -> &[u16]
    ensures { result.now ≡ take n words.now }
{
    &words[..n.min(words.len())]
}

// The place of a symbol, as an instruction has it: of 16 bits, 0 behind the last one.
pub fn place_in(places: &[usize], symbol: Ordinal) -> Place
    ensures at_value { result.at ≡ place_at places.now symbol.number }
    ensures at_bound { result.at < 65536 }
{
    let place = places.get(symbol.number as usize).copied().unwrap_or(0);
    Place { at: place % 65536 }
}

// The value of a symbol, 0 behind the last one.
pub fn value_of(values: &[u64], symbol: Ordinal) -> u64
    ensures { result ≡ get_or values.now symbol.number 0 }
{
    values.get(symbol.number as usize).copied().unwrap_or(0)
}

// The mark of a symbol, 0 behind the last one.
pub fn mark_of(marks: &[u16], symbol: Ordinal) -> usize
    ensures value { result ≡ mark_at marks.now symbol.number }
    ensures upper_bound { result < 65536 }
{
    marks.get(symbol.number as usize).copied().unwrap_or(0) as usize
}

// The address in a slot, 0 behind the last one.
pub fn address_at(ahead: &[u32], slot: usize) -> Address
    ensures { result.at ≡ get_or ahead.now slot 0 }
{
    Address {
        at: ahead.get(slot).copied().unwrap_or(0),
    }
}

// The address of a procedure, by its declaration.
pub fn entry_of(entries: &[u32], d: Declaration) -> Address
    ensures { result.at ≡ get_or entries.now d.number 0 }
{
    address_at(entries, d.number)
}

// It is noted.
pub fn set_entry(entries: &mut [u32], d: Declaration, a: Address)
    ensures { entries.new ≡ set entries.old d.number a.at }
{
    set_word(entries, d.number, a.at as usize)
}

// An operand whose last part is an address.
pub fn operand(u: usize, o: usize, a: Address) -> usize
    ensures value { result ≡ packed u o a.at }
    ensures upper_bound { result < 4294967296 }
{
    operands::packed(u, o, a.at as usize)
}

// An operand that is an address alone.
pub fn going_to(a: Address) -> usize
    ensures value { result ≡ packed 0 0 a.at }
    ensures upper_bound { result < 4294967296 }
{
    operand(0, 0, a)
}
