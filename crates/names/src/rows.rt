// Rows of four words, as nodes have: kind, symbol, scope, type.
ghost use Rattle.std.specs.Prelude.{◌≡◌, cond, List, [], ◌∷◌, ◌++◌, ℕ, ◌+◌, ◌*◌, ◌<◌, ◌≤◌, length, take, set};
ghost use Rattle.names.specs.model.Rows.{row_in, identity_in, sought_row, found_row, has_row, said_in};
ghost use Rattle.names.specs.model.Arrays.{PutRow, SaidRows};

use crate::{Row, Sought};
use answers::{Declaration, Ordinal};

// The identities of the environment's names come behind all symbols.
pub const OUTSIDE: u16 = 2048;

// The identity of a symbol; 0 behind the last one.
pub fn identity_of(ids: &[u16; 2048], symbol: Ordinal) -> u16
    ensures { result ≡ identity_in ids.now symbol.number }
{
    ids.get(usize::from(symbol.number)).copied().unwrap_or(0)
}

// A row; zeros behind the last one.
pub fn row(rows: &[u16], d: Declaration) -> Row
    ensures { result ≡ row_in rows.now d.number }
{
    let words = rows.as_chunks::<4>().0.get(d.number).copied();
    Row::from(words.unwrap_or([0; 4]))
}

// The words of the first n rows.
pub fn first(rows: &[u16], n: usize) -> &[u16]
    requires { 4 * n ≤ length rows.now }
    ensures { result.now ≡ take (4 * n) rows.now }
{
    &rows[..4 * n]
}

// Whether row d is what is looked for.
#[tactic(auto, unfolding(crate::specs::model::Rows::sought))]
fn is_sought(rows: &[u16], ids: &[u16; 2048], want: Sought, d: Declaration) -> bool
    ensures { result ≡ sought_row ids.now want (row_in rows.now d.number) }
{
    let r = row(rows, d);
    want.low <= r.kind
        && r.kind <= want.high
        && r.scope == want.scope
        && identity_of(ids, r.symbol) == want.id
}

// The first row that is looked for.
pub fn find(rows: &[u16], ids: &[u16; 2048], want: Sought) -> Option<Declaration>
    ensures { result ≡ found_row ids.now want rows.now }
{
    (0..rows.len() / 4)
        .map(|number| Declaration { number })
        .find(|d| is_sought(rows, ids, want, *d))
}

// Whether there is one.
pub fn has(rows: &[u16], ids: &[u16; 2048], want: Sought) -> bool
    ensures { result ≡ has_row ids.now want rows.now }
{
    find(rows, ids, want).is_some()
}

// What it says of its type and mode; where there is none, as if all were said.
pub fn says(rows: &[u16], ids: &[u16; 2048], want: Sought) -> u16
    ensures { result ≡ said_in ids.now want rows.now }
{
    match find(rows, ids, want) {
        Some(d) => row(rows, d).sort,
        None => 1,
    }
}

// Row d says another word, if it is looked for.
fn say_row(rows: &mut [u16], d: Declaration, ids: &[u16; 2048], want: Sought, word: u16)
    requires { 4 * d.number + 3 < length rows.old }
    ensures { rows.new ≡ cond (sought_row ids.now want (row_in rows.old d.number)) (set rows.old (4 * d.number + 3) word) rows.old }
{
    if is_sought(rows, ids, want, d) {
        rows[4 * d.number + 3] = word;
    }
}

// Every row that is looked for among the first n does.
pub fn say(rows: &mut [u16], n: usize, ids: &[u16; 2048], want: Sought, word: u16)
    requires { 4 * n ≤ length rows.old }
    ensures { SaidRows ids.now want word n rows.old rows.new }
{
    for number in 0..n {
        say_row(rows, Declaration { number }, ids, want, word);
    }
}

// Writes row n.
pub fn put(rows: &mut [u16; 32768], n: usize, r: Row)
    requires { n < 8192 }
    ensures { PutRow rows.old rows.new n r }
{
    let words = [r.kind, r.symbol.number, r.scope, r.sort];
    rows[4 * n..4 * n + 4].copy_from_slice(&words);
}
