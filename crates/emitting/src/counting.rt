// The variables of a block by their types, counted in the rows of the declarations.
ghost use Rattle.std.specs.Prelude.{◌≡◌, ◌+◌, ◌*◌, ◌≤◌, ◌<◌, length};
ghost use Rattle.emitting.specs.model.Layout.{is_of, counting, count_of, first_for, among_for, counts_for};

use crate::{parts, uses};
use grammar::nodes;
use names::Row;

// The types of variables, as a row has them.
const INTEGER: usize = 1;

pub const BOOLEAN: usize = 2;

pub const REAL: usize = 3;

// Whether a row is a variable's of a scope and a type.
#[tactic(auto, unfolding(crate::specs::model::Layout::is_of))]
fn is_of(scope: usize, sort: usize, row: Row) -> bool
    ensures { result ≡ is_of scope sort row.kind row.scope row.sort }
{
    row.kind == nodes::VARIABLE && row.scope as usize == scope && row.sort as usize == sort
}

// How many more there are behind such a row.
#[tactic(auto, unfolding(crate::specs::model::Layout::counting))]
fn counted(scope: usize, sort: usize, row: Row, n: usize) -> usize
    requires { n < 4611686018427387904 }
    ensures value { result ≡ counting scope sort row.kind row.symbol.number row.scope row.sort n }
    ensures upper_bound { result ≤ n + 1 }
{
    n + usize::from(is_of(scope, sort, row))
}

// How many some rows have.
fn count_of(scope: usize, sort: usize, rows: &[u16]) -> usize
    ensures value { result ≡ count_of scope sort rows.now }
    ensures result_in_bounds { 4 * result ≤ length rows.now }
{
    let mut n = 0;
    for &words in rows.as_chunks::<4>().0 {
        n = counted(scope, sort, Row::from(words), n);
    }
    n
}

// How many cells of a block lie before the first one of a type: integers first, then reals, then Booleans.
#[tactic(auto, unfolding(crate::specs::model::Layout::first_for))]
fn first_for(scope: usize, sort: usize, rows: &[u16]) -> usize
    ensures value { result ≡ first_for scope sort rows.now }
    ensures result_in_bounds { 2 * result ≤ length rows.now }
{
    if sort == INTEGER {
        return 0;
    }
    let integers = count_of(scope, INTEGER, rows);
    if sort == REAL {
        return integers;
    }
    integers + count_of(scope, REAL, rows)
}

// The place of the variable d among the cells of its block.
#[tactic(auto, unfolding(crate::specs::model::Layout::among_for))]
pub fn among_for(rows: &[u16], d: usize) -> usize
    requires { d < 65536 }
    ensures value { result ≡ among_for rows.now d }
    ensures upper_bound { result ≤ length rows.now }
{
    let scope = uses::row_word(rows, 4 * d + 2);
    let sort = uses::row_word(rows, 4 * d + 3);
    let before = count_of(scope, sort, parts::front(rows, 4 * d));
    first_for(scope, sort, rows) + before
}

// The counts of the scope of the declaration d, as an instruction has them, of 10 bits each.
#[tactic(auto, unfolding(crate::specs::model::Layout::counts_for))]
pub fn counts_for(rows: &[u16], d: usize) -> usize
    requires { d < 8589934592 }
    ensures value { result ≡ counts_for rows.now d }
    ensures upper_bound { result < 4294967296 }
{
    let scope = uses::row_word(rows, 4 * d + 2);
    let integers = count_of(scope, INTEGER, rows) % 1024;
    let reals = count_of(scope, REAL, rows) % 1024;
    let logicals = count_of(scope, BOOLEAN, rows) % 1024;
    integers + 1024 * (reals + 1024 * logicals)
}
