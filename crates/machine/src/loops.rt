// The held steps, which stand at the store's end, and what a step element does with them.
ghost use Rattle.std.specs.Prelude.{◌≡◌, List, ◌+◌, ◌-◌, ◌≤◌, ◌<◌, ℤ};
ghost use Rattle.reals.specs.Values.{apply2, leaves as leavesOf};
ghost use Rattle.reals.specs.model.Stored.{Fitting, FittingO};
ghost use Rattle.machine.specs.Run.{Event};
ghost use Rattle.machine.specs.Data.{Result, Act, Test, Two, back as backOf, hold as holdOf, unhold, counting, reaching, read_from, valued, picking};
ghost use Rattle.machine.specs.model.Holding.{Own, Sound, SoundD, SoundT, Does, Tests, HeldIn, holding, data_of, trace_of, seen_d, seen_t, told, fine, room_of, put_at, way_of};

use crate::activations::Memory;
use crate::cells::{cell_at, put_cell, room};
use crate::operations::{back, newest};
use crate::values::suits;
use crate::ways::{reading, turned};
use crate::{Counts, Trouble, Way};
use reals::conversions::form_of;
use reals::loops::leaves;
use reals::{Binary, Cell, Form, Outcome, Value, operators};

// One more held value, at the store's end.
fn hold(mut n: Counts, store: &mut [i64], v: Value) -> Counts
    requires { n.held < room_of store.old }
    ensures value { result ≡ holding n }
    ensures store_after { store.new ≡ put_at store.old (room_of store.old - 1 - n.held) (Cell.Holds v) }
{
    let h = n.held;
    let top = room(store);
    put_cell(store, top - 1 - h, Cell::Holds(v));
    n.held = h + 1;
    n
}

// The newest value, a step, is held.
pub fn keep(n: Counts, store: &mut [i64]) -> Result<Counts, Trouble>
    requires { Sound n store.old }
    ensures does { Does Act.keep n result store.old store.new }
    ensures sound_d { SoundD n result store.new }
{
    let (x, m) = newest(n, store).ok_or(Trouble::Stray)?;
    Ok(hold(m, store, x))
}

// The newest step that is held.
fn held(n: Counts, store: &[i64]) -> Cell
    requires { Sound n store.now }
    ensures { HeldIn n result store.now }
{
    let h = n.held;
    if h == 0 {
        return Cell::Unset(Form::Wholes);
    }
    cell_at(store, room(store) - h)
}

// The step x is held in the place of the newest one, and the sum s has the cell that x left.
fn renew(mut n: Counts, store: &mut [i64], x: Value, s: Value) -> Result<Counts, Trouble>
    requires { Sound n store.old × (n.cells + n.held < room_of store.old) × (1 ≤ n.held) × Fitting x × Fitting s }
    ensures o_after { (a : Own) (i o : List ℤ) → seen_d result a store.new i o ≡ fine (backOf s (holdOf x (unhold (data_of n a store.old i o)))) (trace_of n o) }
    ensures sound_d { SoundD n result store.new }
{
    let h = n.held;
    n.held = h - 1;
    let m = hold(n, store, x);
    back(m, store, s)
}

// The sum of a variable's value and the step x, or its fault.
fn renewed(n: Counts, store: &mut [i64], q: usize, x: Value, r: Outcome) -> Result<Counts, Trouble>
    requires { Sound n store.old × (n.cells + n.held < room_of store.old) × (1 ≤ n.held) × Fitting x × FittingO r }
    ensures o_after { (a : Own) (i o : List ℤ) → seen_d result a store.new i o ≡ told (trace_of n o) (valued q (λ u. Result.good Event.quiet (backOf u (holdOf x (unhold (data_of n a store.old i o))))) r) }
    ensures sound_d { SoundD n result store.new }
{
    let s = turned(q, r)?;
    renew(n, store, x, s)
}

// The sum of a variable and the step x.
fn total(
    n: Counts,
    store: &mut [i64],
    own: &Memory,
    q: usize,
    w: Way,
    x: Value,
) -> Result<Counts, Trouble>
    requires { Sound n store.old × (n.cells + n.held < room_of store.old) × (1 ≤ n.held) × Fitting x }
    ensures o_after { (a : Own) (i o : List ℤ) → seen_d result a store.new i o ≡ told (trace_of n o) (reaching Form.Wholes (way_of own.now w) (data_of n a store.old i o) (read_from q (way_of own.now w) (data_of n a store.old i o) (λ v. valued q (λ u. Result.good Event.quiet (backOf u (holdOf x (unhold (data_of n a store.old i o))))) (apply2 Binary.Plus v x)))) }
    ensures sound_d { SoundD n result store.new }
{
    if w.cell >= n.cells {
        return Err(Trouble::Stray);
    }
    let v = reading(own, w.links, q, Form::Wholes, cell_at(store, w.cell))?;
    renewed(n, store, q, x, operators::binary(Binary::Plus, v, x))
}

// A variable and the newest value, a step, added; the step is held in the place of the old one.
#[inline(never)] // so that the loop of the run keeps its registers
pub fn sum(n: Counts, store: &mut [i64], own: &Memory, q: usize, w: Way) -> Result<Counts, Trouble>
    requires { Sound n store.old }
    ensures does { Does (Act.sum q (way_of own.now w)) n result store.old store.new }
    ensures sound_d { SoundD n result store.new }
{
    let (x, m) = newest(n, store).ok_or(Trouble::Stray)?;
    if m.held == 0 {
        return Err(Trouble::Stray);
    }
    if !suits(Form::Wholes, form_of(x)) {
        return Err(Trouble::Stray);
    }
    total(m, store, own, q, w, x)
}

// Where a loop is left the step goes.
fn decided(mut n: Counts, q: usize, r: Outcome) -> Result<(bool, Counts), Trouble>
    requires { 1 ≤ n.held }
    ensures o_value { (a : Own) (s i o : List ℤ) → seen_t result a s i o ≡ told (trace_of n o) (valued q (λ b. picking b (Two.nay (unhold (data_of n a s i o))) (Two.yea (data_of n a s i o))) r) }
    ensures sound_t { (s : List ℤ) → Sound n s → SoundT n result s }
{
    let h = n.held;
    let v = turned(q, r)?;
    match v {
        Value::Truth(b) => {
            if b {
                n.held = h - 1;
                return Ok((false, n));
            }
            Ok((true, n))
        }
        Value::Whole(_) | Value::Real(_) => Err(Trouble::Stray),
    }
}

// Whether the loop over a variable goes on, with the step x and the bound y.
fn goes_on(
    n: Counts,
    store: &[i64],
    own: &Memory,
    q: usize,
    w: Way,
    x: Value,
    y: Value,
) -> Result<(bool, Counts), Trouble>
    requires { Sound n store.now × (1 ≤ n.held) }
    ensures o_value { (a : Own) (i o : List ℤ) → seen_t result a store.now i o ≡ told (trace_of n o) (reaching Form.Wholes (way_of own.now w) (data_of n a store.now i o) (read_from q (way_of own.now w) (data_of n a store.now i o) (λ v. valued q (λ b. picking b (Two.nay (unhold (data_of n a store.now i o))) (Two.yea (data_of n a store.now i o))) (leavesOf v x y)))) }
    ensures sound_t { SoundT n result store.now }
{
    if w.cell >= n.cells {
        return Err(Trouble::Stray);
    }
    let v = reading(own, w.links, q, Form::Wholes, cell_at(store, w.cell))?;
    decided(n, q, leaves(v, x, y))
}

// Step and bound are numbers.
fn count(
    n: Counts,
    store: &[i64],
    own: &Memory,
    q: usize,
    w: Way,
    x: Value,
    y: Value,
) -> Result<(bool, Counts), Trouble>
    requires { Sound n store.now × (1 ≤ n.held) }
    ensures o_value { (a : Own) (i o : List ℤ) → seen_t result a store.now i o ≡ told (trace_of n o) (counting y (counting x (reaching Form.Wholes (way_of own.now w) (data_of n a store.now i o) (read_from q (way_of own.now w) (data_of n a store.now i o) (λ v. valued q (λ b. picking b (Two.nay (unhold (data_of n a store.now i o))) (Two.yea (data_of n a store.now i o))) (leavesOf v x y)))))) }
    ensures sound_t { SoundT n result store.now }
{
    if !suits(Form::Wholes, form_of(y)) {
        return Err(Trouble::Stray);
    }
    if !suits(Form::Wholes, form_of(x)) {
        return Err(Trouble::Stray);
    }
    goes_on(n, store, own, q, w, x, y)
}

// The test of a step element: the newest value is the bound, and the variable is read after it.
#[inline(never)] // so that the loop of the run keeps its registers
pub fn upto(
    n: Counts,
    store: &[i64],
    own: &Memory,
    q: usize,
    w: Way,
) -> Result<(bool, Counts), Trouble>
    requires { Sound n store.now }
    ensures tests { Tests (Test.upto q (way_of own.now w)) n result store.now }
    ensures sound_t { SoundT n result store.now }
{
    let (y, m) = newest(n, store).ok_or(Trouble::Stray)?;
    match held(m, store) {
        Cell::Holds(x) => count(m, store, own, q, w, x, y),
        Cell::Unset(_) | Cell::Named(_) => Err(Trouble::Stray),
    }
}
