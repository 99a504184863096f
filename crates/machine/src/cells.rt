// The cells in the store: read and written here and nowhere else.
ghost use Rattle.std.specs.Prelude.{◌≡◌, true, ◌<◌};
ghost use Rattle.machine.specs.Data.{plain};
ghost use Rattle.machine.specs.model.Holding.{cell_at, put_at, room_of};
ghost use Rattle.machine.specs.model.Quick.{NumberIn, TakesWholes};

use crate::bounds::CELL_NUMBERS;
use reals::Cell;
use reals::stored::{decode, encode};

// The kinds of an unassigned whole number and of one that is held, as `encode` has them: whole numbers are told by them alone.
// Kept: speed, where the cell is taken apart for it a loop takes 3 to 6 times as long (docs/BENCHMARK.md).
const UNSET_WHOLE: i64 = 0;

const WHOLE: i64 = 4;

// How many cells there are.
#[tactic(auto, unfolding(crate::specs::model::Holding::room_of))]
pub fn room(store: &[i64]) -> usize
    ensures { result ≡ room_of store.now }
{
    store.len() / CELL_NUMBERS
}

#[tactic(auto, unfolding(crate::specs::model::Holding::cell_at, crate::specs::model::Holding::room_of))]
pub fn cell_at(store: &[i64], c: usize) -> Cell
    requires { c < room_of store.now }
    ensures { result ≡ cell_at store.now c }
{
    let kind = store[CELL_NUMBERS * c];
    let load = store[CELL_NUMBERS * c + 1];
    decode(kind, load)
}

// Whether cell c is no name formal's.
pub fn is_plain(store: &[i64], c: usize) -> bool
    requires { c < room_of store.now }
    ensures { result ≡ plain (cell_at store.now c) }
{
    !matches!(cell_at(store, c), Cell::Named(_))
}

#[tactic(auto, unfolding(crate::specs::model::Holding::put_at, crate::specs::model::Holding::room_of))]
pub fn put_cell(store: &mut [i64], c: usize, x: Cell)
    requires { c < room_of store.old }
    ensures { store.new ≡ put_at store.old c x }
{
    let two = encode(x);
    store[CELL_NUMBERS * c] = two.kind;
    store[CELL_NUMBERS * c + 1] = two.load;
}

// The whole number that cell c holds, if it holds one.
pub fn whole_at(store: &[i64], c: usize) -> Option<i32>
    requires { c < room_of store.now }
    ensures { NumberIn result (cell_at store.now c) }
{
    let kind = store[CELL_NUMBERS * c];
    if kind != WHOLE {
        return None;
    }
    let load = store[CELL_NUMBERS * c + 1];
    i32::try_from(load).ok()
}

// Whether cell c is a whole number's.
pub fn takes_wholes(store: &[i64], c: usize) -> bool
    requires { c < room_of store.now }
    ensures { result ≡ true → TakesWholes (cell_at store.now c) }
{
    let kind = store[CELL_NUMBERS * c];
    kind == WHOLE || kind == UNSET_WHOLE
}
