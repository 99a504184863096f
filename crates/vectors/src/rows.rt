// The rows of `index`: each names a source and the text with what is to come of it.
ghost use Rattle.std.specs.Prelude.{List, ◌≡◌, ℕ, ◌+◌, ◌/◌, ◌≤◌, length};
ghost use Rattle.vectors.specs.Capitals.{CapitalsTold};
ghost use Rattle.vectors.specs.Counted.{RowTold, Rows, CapitalRows};

use crate::tally::{Tallies, Tally, print};
use crate::texts::buffer;
use crate::{capitals, lists, reads, runs, writes};
use std::fs::File;
use std::os::fd::AsRawFd;

// A row: the two names, 24 bytes each, and the line's end.
pub const ROW: usize = 49;

// Where the name in the row that starts at `from` ends.
pub fn name_end(text: &[u8], from: usize) -> usize
    requires { from ≤ length text.now }
    ensures { (from ≤ result) × (result ≤ length text.now) }
{
    for i in from..text.len() {
        if text[i] == 32 {
            return i;
        }
    }
    text.len()
}

// A file, opened for reading; none where it is missing. Its name is text.
fn opened(rt: &HostRuntime, name: &[u8]) -> Option<File> {
    let Ok(path) = str::from_utf8(name) else {
        return None;
    };
    File::open(rt, path).ok()
}

// The bytes of a file; none, and a word about it, where it is missing.
pub fn load(rt: &HostRuntime, name: &[u8], buf: &mut [u8; 131072]) -> usize
    ensures { result ≤ length buf.new }
{
    let Some(file) = opened(rt, name) else {
        print(name);
        print(b" is missing\n");
        return 0;
    };
    io::read_full(file.as_raw_fd(), buf)
}

// A source read, translated, run and written, lists for it checked, and all compared.
fn compare(t: Tally, name: &[u8], source: &[u8], text: &[u8]) -> Tally
    ensures { RowTold source.now text.now t result }
{
    let told = reads::compare(t.source(), name, source, text);
    let ran = runs::compare(told, name, source, text);
    let paged = writes::compare(ran, name, source, text);
    lists::compare(paged, name, source, text)
}

// The row at `from`: its source as it is, and in capitals.
fn row(rt: &HostRuntime, t: Tallies, index: &[u8], from: usize) -> Tallies
    requires { from + 49 ≤ length index.now }
    ensures { (source text : List ℕ) × RowTold source text t.plain result.plain × CapitalsTold source text t.capitals result.capitals }
{
    let mut source = buffer();
    let mut text = buffer();
    let end = name_end(index, from);
    let n = load(rt, &index[from..end], &mut source);
    let last = name_end(index, from + 24);
    let m = load(rt, &index[from + 24..last], &mut text);
    let counted = t.plain;
    let plain = compare(counted, &index[from..end], &source[..n], &text[..m]);
    let tried = t.capitals;
    let capitals = capitals::compare(tried, &index[from..end], &source[..n], &text[..m]);
    Tallies { plain, capitals }
}

// Every row counts, whatever its files hold.
pub fn rows(rt: &HostRuntime, index: &[u8]) -> Tallies
    ensures { Rows (length index.now / 49) result.plain × CapitalRows (length index.now / 49) result.capitals }
{
    let mut t = Tallies::new();
    for k in 0..index.len() / ROW {
        t = row(rt, t, index, ROW * k);
    }
    t
}
