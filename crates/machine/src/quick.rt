// Whole numbers, which most values of most programs are: the instructions that most programs do most, where all that they use is whole numbers and
// nothing is at fault. They are told by the store's own numbers, so that no value is taken apart. Where it is not so nothing is done, and the
// instruction is left to the operations on values of any type. What one came to is the next counter and how many cells are in use.
ghost use Rattle.std.specs.Prelude.{◌≡◌, true, false, ℕ, ◌+◌, ◌≤◌, ◌<◌};
ghost use Rattle.std.proofs.Math.Option.{some};
ghost use Rattle.std.specs.Int.{w32};
ghost use Rattle.std.proofs.Common.{to_z};
ghost use Rattle.reals.specs.Values.{leaves as leavesOf};
ghost use Rattle.reals.specs.model.Stored.{FittingC};
ghost use Rattle.machine.specs.Limits.{most_instructions, most_cells, most_links};
ghost use Rattle.machine.specs.Data.{Act, Test};
ghost use Rattle.machine.specs.Instructions.{Location, Instruction, thirteen_bits, variable, low, with_form, logical as logicalOf, decode};
ghost use Rattle.machine.specs.model.Holding.{Sound, Lives, links_of};
ghost use Rattle.machine.specs.model.Quick.{OnWholes, Spots, Fills, Quickly};

use crate::activations::{FOUND, LINKS, Memory, around, first_cell, link_form, word};
use crate::cells::{put_cell, room, takes_wholes, whole_at};
use crate::operands::{FOUND_OFFSET, high, low, mid};
use crate::{Counts, codes};
use reals::loops::leaves;
use reals::operators::wholes;
use reals::words::number;
use reals::{Binary, Cell, Form, Outcome, Value};

// Whether each of the k formals on the way is a whole number's: it converts none.
fn whole_way(own: &Memory, k: usize) -> bool
    requires { k ≤ most_links }
    ensures { result ≡ true → OnWholes (links_of own.now k) }
{
    for j in (0..k).rev() {
        let Form::Wholes = link_form(own, j) else {
            return false;
        };
    }
    true
}

// The variable's cell, where the running activation's first cell is below `most` and no formal on the way converts; else one that is not in use.
fn cell_of(live: usize, n: Counts, own: &Memory, v: u32, most: usize) -> usize
    requires { Lives own.now live × (n.cells ≤ most_cells) × (n.cells ≤ most) }
    ensures spots { Spots result v most n live own.now }
    ensures upper_bound { result < 4294967296 + thirteen_bits }
{
    let cells = n.cells;
    let b = first_cell(own, live);
    let o = mid(v as usize);
    if o == FOUND_OFFSET {
        if b >= most {
            return cells;
        }
        if whole_way(own, word(own, 0, LINKS) as usize) {
            return word(own, 0, FOUND) as usize;
        }
        return cells;
    }
    let u = high(v as usize);
    if u == 0 {
        return b + o;
    }
    if b >= most {
        return cells;
    }
    first_cell(own, around(own, live, u)) + o
}

// The value of a variable in a new cell.
fn load(
    at: u32,
    live: usize,
    n: Counts,
    v: u32,
    store: &mut [i64],
    own: &Memory,
) -> Option<(u32, usize)>
    requires { Sound n store.old × Lives own.now live × (at < most_instructions) }
    ensures { Quickly (λ q. some (Instruction.DO (Act.load q (variable v)))) at live n result store.old store.new own.now }
{
    let m = n.cells;
    let c = cell_of(live, n, own, v, m + 1);
    if c >= m {
        return None;
    }
    if m + n.held >= room(store) {
        return None;
    }
    let z = whole_at(store, c)?;
    put_cell(store, m, Cell::Holds(Value::Whole(z)));
    Some((at + 1, m + 1))
}

// The newest value to a variable.
fn save(
    at: u32,
    live: usize,
    n: Counts,
    v: u32,
    store: &mut [i64],
    own: &Memory,
) -> Option<(u32, usize)>
    requires { Sound n store.old × Lives own.now live × (at < most_instructions) }
    ensures { Quickly (λ q. some (Instruction.DO (Act.store q (variable v)))) at live n result store.old store.new own.now }
{
    let m = n.cells;
    let c = cell_of(live, n, own, v, m);
    if c + 1 >= m {
        return None;
    }
    let z = whole_at(store, m - 1)?;
    if !takes_wholes(store, c) {
        return None;
    }
    put_cell(store, c, Cell::Holds(Value::Whole(z)));
    Some((at + 1, m - 1))
}

// A new cell that holds x.
fn fill(
    at: u32,
    live: usize,
    n: Counts,
    x: Cell,
    store: &mut [i64],
    own: &Memory,
) -> Option<(u32, usize)>
    requires { Sound n store.old × Lives own.now live × (at < most_instructions) × FittingC x }
    ensures { (f : ℕ → Act Location) → Fills x f → Quickly (λ q. some (Instruction.DO (f q))) at live n result store.old store.new own.now }
{
    let m = n.cells;
    if first_cell(own, live) > m {
        return None;
    }
    if m + n.held >= room(store) {
        return None;
    }
    put_cell(store, m, x);
    Some((at + 1, m + 1))
}

// A constant.
fn constant(
    at: u32,
    live: usize,
    n: Counts,
    v: u32,
    store: &mut [i64],
    own: &Memory,
) -> Option<(u32, usize)>
    requires { Sound n store.old × Lives own.now live × (at < most_instructions) }
    ensures { Quickly (λ q. some (Instruction.DO (Act.push q (Value.Whole (to_z w32 v))))) at live n result store.old store.new own.now }
{
    fill(
        at,
        live,
        n,
        Cell::Holds(Value::Whole(number(v))),
        store,
        own,
    )
}

// 'false' or 'true'.
fn logical(
    at: u32,
    live: usize,
    n: Counts,
    v: u32,
    store: &mut [i64],
    own: &Memory,
) -> Option<(u32, usize)>
    requires { Sound n store.old × Lives own.now live × (at < most_instructions) }
    ensures { Quickly (λ q. logicalOf q (low v)) at live n result store.old store.new own.now }
{
    let b = low(v as usize);
    if b > 1 {
        return None;
    }
    fill(at, live, n, Cell::Holds(Value::Truth(b == 1)), store, own)
}

// A result cell of whole numbers.
fn result(
    at: u32,
    live: usize,
    n: Counts,
    v: u32,
    store: &mut [i64],
    own: &Memory,
) -> Option<(u32, usize)>
    requires { Sound n store.old × Lives own.now live × (at < most_instructions) }
    ensures { Quickly (λ q. with_form (low v) (λ t. Instruction.DO (Act.reserve q t))) at live n result store.old store.new own.now }
{
    if low(v as usize) > 0 {
        return None;
    }
    fill(at, live, n, Cell::Unset(Form::Wholes), store, own)
}

// An operator. Each has its own arm below, so that it is told once.
fn binary(
    at: u32,
    live: usize,
    n: Counts,
    op: Binary,
    store: &mut [i64],
    own: &Memory,
) -> Option<(u32, usize)>
    requires { Sound n store.old × Lives own.now live × (at < most_instructions) }
    ensures { Quickly (λ q. some (Instruction.DO (Act.binary q op))) at live n result store.old store.new own.now }
{
    let m = n.cells;
    if first_cell(own, live) + 2 > m {
        return None;
    }
    let y = whole_at(store, m - 1)?;
    let x = whole_at(store, m - 2)?;
    let Outcome::Is(z) = wholes(op, x, y) else {
        return None;
    };
    put_cell(store, m - 2, Cell::Holds(z));
    Some((at + 1, m - 1))
}

// The newest value, a whole number, becomes one.
fn turn(
    at: u32,
    live: usize,
    n: Counts,
    v: u32,
    store: &[i64],
    own: &Memory,
) -> Option<(u32, usize)>
    requires { Sound n store.now × Lives own.now live × (at < most_instructions) }
    ensures { Quickly (λ q. with_form (low v) (λ t. Instruction.DO (Act.turn q t))) at live n result store.now store.now own.now }
{
    let m = n.cells;
    if first_cell(own, live) + 1 > m {
        return None;
    }
    if low(v as usize) > 0 {
        return None;
    }
    whole_at(store, m - 1)?;
    Some((at + 1, m))
}

// Whether a loop goes on, with the variable at v, by the step x and the bound y.
fn stays(v: i32, x: i32, y: i32) -> bool
    ensures { result ≡ true → leavesOf (Value.Whole v) (Value.Whole x) (Value.Whole y) ≡ Outcome.Is (Value.Truth false) }
{
    match leaves(Value::Whole(v), Value::Whole(x), Value::Whole(y)) {
        Outcome::Is(Value::Truth(b)) => !b,
        _ => false,
    }
}

// The test of a step element, where the loop goes on.
fn upto(
    at: u32,
    live: usize,
    n: Counts,
    v: u32,
    store: &[i64],
    own: &Memory,
) -> Option<(u32, usize)>
    requires { Sound n store.now × Lives own.now live × (at < most_instructions) }
    ensures { Quickly (λ q. some (Instruction.IF (Test.upto q (variable v)) (low v))) at live n result store.now store.now own.now }
{
    let m = n.cells;
    let c = cell_of(live, n, own, v, m);
    if c + 1 >= m {
        return None;
    }
    let h = n.held;
    if h == 0 {
        return None;
    }
    let y = whole_at(store, m - 1)?;
    let x = whole_at(store, room(store) - h)?;
    let z = whole_at(store, c)?;
    if stays(z, x, y) {
        Some((at + 1, m - 1))
    } else {
        None
    }
}

// A variable and the newest value, a step, added; the step is held in the place of the old one.
fn sum(
    at: u32,
    live: usize,
    n: Counts,
    v: u32,
    store: &mut [i64],
    own: &Memory,
) -> Option<(u32, usize)>
    requires { Sound n store.old × Lives own.now live × (at < most_instructions) }
    ensures { Quickly (λ q. some (Instruction.DO (Act.sum q (variable v)))) at live n result store.old store.new own.now }
{
    let m = n.cells;
    let c = cell_of(live, n, own, v, m);
    if c + 1 >= m {
        return None;
    }
    let h = n.held;
    if h == 0 {
        return None;
    }
    let x = whole_at(store, m - 1)?;
    let z = whole_at(store, c)?;
    let Outcome::Is(u) = wholes(Binary::Plus, z, x) else {
        return None;
    };
    let top = room(store);
    put_cell(store, top - h, Cell::Holds(Value::Whole(x)));
    put_cell(store, m - 1, Cell::Holds(u));
    Some((at + 1, m))
}

// One of the instructions that most programs do most, on whole numbers alone.
pub fn obey(
    at: u32,
    live: usize,
    n: Counts,
    k: u32,
    v: u32,
    store: &mut [i64],
    own: &Memory,
) -> Option<(u32, usize)>
    requires { Sound n store.old × Lives own.now live × (at < most_instructions) }
    ensures { Quickly (λ q. decode k q v) at live n result store.old store.new own.now }
{
    match k {
        codes::JUMP => Some((low(v as usize) as u32, n.cells)),
        codes::LOAD => load(at, live, n, v, store, own),
        codes::STORE => save(at, live, n, v, store, own),
        codes::TEST => upto(at, live, n, v, store, own),
        codes::SUM => sum(at, live, n, v, store, own),
        codes::CONST => constant(at, live, n, v, store, own),
        codes::AS => turn(at, live, n, v, store, own),
        codes::RESULT => result(at, live, n, v, store, own),
        codes::LOGICAL => logical(at, live, n, v, store, own),
        codes::PLUS => binary(at, live, n, Binary::Plus, store, own),
        codes::LESS => binary(at, live, n, Binary::Less, store, own),
        codes::TIMES => binary(at, live, n, Binary::Times, store, own),
        codes::OVER => binary(at, live, n, Binary::Over, store, own),
        codes::BELOW => binary(at, live, n, Binary::Below, store, own),
        codes::AT_MOST => binary(at, live, n, Binary::AtMost, store, own),
        codes::EQUAL => binary(at, live, n, Binary::Equal, store, own),
        codes::AT_LEAST => binary(at, live, n, Binary::AtLeast, store, own),
        codes::ABOVE => binary(at, live, n, Binary::Above, store, own),
        codes::UNEQUAL => binary(at, live, n, Binary::Unequal, store, own),
        _ => None,
    }
}
