// A source once more, every small letter a capital: against the same text as the source itself, and its table against the source's. Case means nothing.
ghost use Rattle.std.specs.Prelude.{◌≡◌, length, get_or};
ghost use Rattle.symbols.specs.Names.{equal};
ghost use Rattle.vectors.specs.Capitals.{capital as capitalOf, capitals_from, AlikeTold, TriedTold, CapitalsTold};

use crate::tally::Tally;
use crate::texts::{buffer, clipped};
use crate::{reads, runs};
use reading::reading::read;

// A small letter as its capital; every other byte as it is.
#[tactic(auto, unfolding(crate::specs::Capitals::capital))]
fn capital(b: u8) -> u8
    ensures { result ≡ capitalOf b }
{
    match b {
        b'a'..=b'z' => b - 32,
        _ => b,
    }
}

// A byte; 0 where there is none.
fn byte_at(source: &[u8], i: usize) -> u8
    ensures { result ≡ get_or source.now i 0 }
{
    source.get(i).copied().unwrap_or(0)
}

// The bytes of a source in capitals, as many as there is room for.
fn capitals_into(source: &[u8], room: &mut [u8])
    ensures { room.new ≡ capitals_from source.now (length room.old) 0 }
{
    for i in 0..room.len() {
        let x = capital(byte_at(source, i));
        room[i] = x;
    }
}

// Two tables are equal, word by word.
fn same_tables(a: &[u16], b: &[u16]) -> bool
    ensures { result ≡ equal a.now b.now }
{
    if a.len() != b.len() {
        return false;
    }
    for i in 0..a.len() {
        if a[i] != b[i] {
            return false;
        }
    }
    true
}

// Two sources read, and their tables compared.
fn alike(t: Tally, name: &[u8], source: &[u8], other: &[u8]) -> Tally
    ensures { AlikeTold source.now other.now t result }
{
    let mut table = [0u16; 32768];
    let mut second = [0u16; 32768];
    read(source, &mut table);
    read(other, &mut second);
    t.check(
        same_tables(&table, &second),
        name,
        b"in capitals the table differs",
    )
}

// Another source against the text of this one: read, held against it, translated and run.
fn tried(t: Tally, name: &[u8], source: &[u8], other: &[u8], text: &[u8]) -> Tally
    ensures { TriedTold source.now other.now text.now t result }
{
    let told = reads::compare(t.source(), name, other, text);
    let held = alike(told, name, source, other);
    runs::compare(held, name, other, text)
}

// A source in capitals, and compared.
pub fn compare(t: Tally, name: &[u8], source: &[u8], text: &[u8]) -> Tally
    ensures { CapitalsTold source.now text.now t result }
{
    let mut room = buffer();
    let n = clipped(source.len() as u64, 131072);
    capitals_into(source, &mut room[..n]);
    tried(t, name, source, &room[..n], text)
}
