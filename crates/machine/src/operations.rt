// The operations on the cells in use, which stand at the store's beginning: values, variables and operators.
ghost use Rattle.std.specs.Prelude.{◌≡◌, List, [], ◌∷◌, ◌+◌, ◌≤◌, ◌<◌, ℤ};
ghost use Rattle.reals.specs.model.Stored.{Fitting, FittingC, FittingO};
ghost use Rattle.machine.specs.Run.{Event};
ghost use Rattle.machine.specs.Data.{to, Data, Result, Act, Test, newest as newestOf, two, back as backOf, put as put_of, new_cells, valued};
ghost use Rattle.machine.specs.model.Holding.{Own, Sound, SoundD, SoundT, Does, Tests, UsedIn, PairIn, data_of, trace_of, seen_u, seen_d, on_pair, on_turned, told, fine, room_of, links_of, in_t, way_of};

use crate::activations::Memory;
use crate::cells::{cell_at, put_cell, room};
use crate::values::{line, raised};
use crate::ways::{form_in, inward, reach, reading, turned};
use crate::{Counts, Line, Trouble, Way};
use answers::Answer;
use reals::conversions::{convert, form_of};
use reals::{Binary, Cell, Form, Outcome, Unary, Value, operators};

// The value in the newest cell, which goes, and the counts after it.
pub fn newest(mut n: Counts, store: &[i64]) -> Option<(Value, Counts)>
    requires { Sound n store.now }
    ensures o_value { (a : Own) (i o : List ℤ) → newestOf (data_of n a store.now i o) ≡ seen_u result a store.now i o }
    ensures used_in { UsedIn n result }
{
    let last = n.cells.checked_sub(1)?;
    match cell_at(store, last) {
        Cell::Holds(v) => {
            n.cells = last;
            Some((v, n))
        }
        Cell::Unset(_) | Cell::Named(_) => None,
    }
}

// The values in the two newest cells, which go, the older one first, and the counts after them.
pub fn newest_two(n: Counts, store: &[i64]) -> Option<(Value, Value, Counts)>
    requires { Sound n store.now }
    ensures o_value { (a : Own) (i o : List ℤ) (f : Value → Value → Data → Result Data) → two f (data_of n a store.now i o) ≡ on_pair f result a store.now i o }
    ensures pair_in { PairIn n result }
{
    let (y, m) = newest(n, store)?;
    let (x, l) = newest(m, store)?;
    Some((x, y, l))
}

// A value in the place of one that was used.
pub fn back(mut n: Counts, store: &mut [i64], v: Value) -> Result<Counts, Trouble>
    requires { Sound n store.old × (n.cells + n.held < room_of store.old) × Fitting v }
    ensures o_after { (a : Own) (i o : List ℤ) → seen_d result a store.new i o ≡ fine (backOf v (data_of n a store.old i o)) (trace_of n o) }
    ensures sound_d { SoundD n result store.new }
{
    let k = n.cells;
    put_cell(store, k, Cell::Holds(v));
    n.cells = k + 1;
    Ok(n)
}

// A value to cell c, which is of its type.
fn put(n: Counts, store: &mut [i64], c: usize, v: Value) -> Result<Counts, Trouble>
    requires { Sound n store.old × (c < n.cells) × Fitting v }
    ensures o_after { (a : Own) (i o : List ℤ) → seen_d result a store.new i o ≡ fine (put_of c v (data_of n a store.old i o)) (trace_of n o) }
    ensures sound_d { SoundD n result store.new }
{
    put_cell(store, c, Cell::Holds(v));
    Ok(n)
}

// A new cell, for what stands at q.
pub fn new_cell(mut n: Counts, store: &mut [i64], q: usize, x: Cell) -> Result<Counts, Trouble>
    requires { Sound n store.old × FittingC x }
    ensures o_after { (a : Own) (i o : List ℤ) → seen_d result a store.new i o ≡ told (trace_of n o) (new_cells q (x ∷ []) (data_of n a store.old i o)) }
    ensures sound_d { SoundD n result store.new }
{
    let k = n.cells;
    let h = n.held;
    if k + h >= room(store) {
        return Err(Trouble::Fault(Answer::CELLS, q));
    }
    put_cell(store, k, x);
    n.cells = k + 1;
    Ok(n)
}

// The value of a variable in a new cell.
pub fn load(n: Counts, store: &mut [i64], own: &Memory, q: usize, w: Way) -> Result<Counts, Trouble>
    requires { Sound n store.old }
    ensures does { Does (Act.load q (way_of own.now w)) n result store.old store.new }
    ensures sound_d { SoundD n result store.new }
{
    if w.cell >= n.cells {
        return Err(Trouble::Stray);
    }
    let x = cell_at(store, w.cell);
    let v = reading(own, w.links, q, form_in(x), x)?;
    new_cell(n, store, q, Cell::Holds(v))
}

// A value to a variable, whose cell takes values of the type.
pub fn put_through(
    n: Counts,
    store: &mut [i64],
    own: &Memory,
    q: usize,
    w: Way,
    form: Form,
    v: Value,
) -> Result<Counts, Trouble>
    requires { Sound n store.old × (w.cell < n.cells) × Fitting v }
    ensures o_after { (a : Own) (i o : List ℤ) → seen_d result a store.new i o ≡ told (trace_of n o) (on_turned (λ u. Result.good Event.quiet (put_of w.cell u (data_of n a store.old i o))) (in_t q form (links_of own.now w.links) v)) }
    ensures sound_d { SoundD n result store.new }
{
    let u = inward(own, w.links, q, form, v)?;
    put(n, store, w.cell, u)
}

// The newest value to a variable.
pub fn save(n: Counts, store: &mut [i64], own: &Memory, q: usize, w: Way) -> Result<Counts, Trouble>
    requires { Sound n store.old }
    ensures does { Does (Act.store q (way_of own.now w)) n result store.old store.new }
    ensures sound_d { SoundD n result store.new }
{
    let (v, m) = newest(n, store).ok_or(Trouble::Stray)?;
    if w.cell >= m.cells {
        return Err(Trouble::Stray);
    }
    let form = reach(own, w.links, form_of(v), cell_at(store, w.cell)).ok_or(Trouble::Stray)?;
    put_through(m, store, own, q, w, form, v)
}

// The same, and the value v stays.
fn assign_through(
    n: Counts,
    store: &mut [i64],
    own: &Memory,
    q: usize,
    w: Way,
    form: Form,
    v: Value,
) -> Result<Counts, Trouble>
    requires { Sound n store.old × (w.cell < n.cells) × Fitting v × (n.cells + n.held < room_of store.old) }
    ensures o_after { (a : Own) (i o : List ℤ) → seen_d result a store.new i o ≡ told (trace_of n o) (on_turned (λ u. Result.good Event.quiet (backOf v (put_of w.cell u (data_of n a store.old i o)))) (in_t q form (links_of own.now w.links) v)) }
    ensures sound_d { SoundD n result store.new }
{
    let u = inward(own, w.links, q, form, v)?;
    put_cell(store, w.cell, Cell::Holds(u));
    back(n, store, v)
}

#[inline(never)] // so that the loop of the run keeps its registers
pub fn assign(
    n: Counts,
    store: &mut [i64],
    own: &Memory,
    q: usize,
    w: Way,
) -> Result<Counts, Trouble>
    requires { Sound n store.old }
    ensures does { Does (Act.assign q (way_of own.now w)) n result store.old store.new }
    ensures sound_d { SoundD n result store.new }
{
    let (v, m) = newest(n, store).ok_or(Trouble::Stray)?;
    if w.cell >= m.cells {
        return Err(Trouble::Stray);
    }
    let form = reach(own, w.links, form_of(v), cell_at(store, w.cell)).ok_or(Trouble::Stray)?;
    assign_through(m, store, own, q, w, form, v)
}

// The newest value goes.
pub fn forget(n: Counts, store: &[i64]) -> Result<Counts, Trouble>
    requires { Sound n store.now }
    ensures does { Does Act.forget n result store.now store.now }
    ensures sound_d { SoundD n result store.now }
{
    let (_, m) = newest(n, store).ok_or(Trouble::Stray)?;
    Ok(m)
}

// A value in the place of those that were used, or an operator's fault.
fn give(n: Counts, store: &mut [i64], q: usize, r: Outcome) -> Result<Counts, Trouble>
    requires { Sound n store.old × (n.cells + n.held < room_of store.old) × FittingO r }
    ensures o_after { (a : Own) (i o : List ℤ) → seen_d result a store.new i o ≡ told (trace_of n o) (valued q (λ w. Result.good Event.quiet (backOf w (data_of n a store.old i o))) r) }
    ensures sound_d { SoundD n result store.new }
{
    let v = turned(q, r)?;
    back(n, store, v)
}

pub fn unary(n: Counts, store: &mut [i64], q: usize, op: Unary) -> Result<Counts, Trouble>
    requires { Sound n store.old }
    ensures does { Does (Act.unary q op) n result store.old store.new }
    ensures sound_d { SoundD n result store.new }
{
    let (x, m) = newest(n, store).ok_or(Trouble::Stray)?;
    give(m, store, q, operators::unary(op, x))
}

pub fn binary(n: Counts, store: &mut [i64], q: usize, op: Binary) -> Result<Counts, Trouble>
    requires { Sound n store.old }
    ensures does { Does (Act.binary q op) n result store.old store.new }
    ensures sound_d { SoundD n result store.new }
{
    let (x, y, m) = newest_two(n, store).ok_or(Trouble::Stray)?;
    give(m, store, q, operators::binary(op, x, y))
}

// The newest value becomes one of the type.
pub fn turn(n: Counts, store: &mut [i64], q: usize, form: Form) -> Result<Counts, Trouble>
    requires { Sound n store.old }
    ensures does { Does (Act.turn q form) n result store.old store.new }
    ensures sound_d { SoundD n result store.new }
{
    let (x, m) = newest(n, store).ok_or(Trouble::Stray)?;
    give(m, store, q, convert(form, x))
}

// The newest value, a whole number, is the lower half of a real's bits, and h the upper half.
pub fn heighten(n: Counts, store: &mut [i64], h: u32) -> Result<Counts, Trouble>
    requires { Sound n store.old }
    ensures does { Does (Act.heighten h) n result store.old store.new }
    ensures sound_d { SoundD n result store.new }
{
    let (x, m) = newest(n, store).ok_or(Trouble::Stray)?;
    give(m, store, 0, raised(x, h))
}

// The newest value is the channel 1, and stays.
#[inline(never)] // so that the loop of the run keeps its registers
pub fn channel(n: Counts, store: &mut [i64], q: usize) -> Result<Counts, Trouble>
    requires { Sound n store.old }
    ensures does { Does (Act.channel q) n result store.old store.new }
    ensures sound_d { SoundD n result store.new }
{
    let (v, m) = newest(n, store).ok_or(Trouble::Stray)?;
    match line(v) {
        Line::One => back(m, store, v),
        Line::Other => Err(Trouble::Fault(Answer::CHANNEL, q)),
        Line::Not => Err(Trouble::Stray),
    }
}

// Whether the newest value, which goes, is 'true'.
pub fn condition(n: Counts, store: &[i64]) -> Result<(bool, Counts), Trouble>
    requires { Sound n store.now }
    ensures tests { Tests Test.condition n result store.now }
    ensures sound_t { SoundT n result store.now }
{
    let (v, m) = newest(n, store).ok_or(Trouble::Stray)?;
    match v {
        Value::Truth(b) => Ok((b, m)),
        Value::Whole(_) | Value::Real(_) => Err(Trouble::Stray),
    }
}
