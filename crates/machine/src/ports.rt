// Input and output: ininteger, outinteger and outreal.
ghost use Rattle.std.specs.Prelude.{◌≡◌, List, ◌≤◌, ◌<◌, ℤ, length};
ghost use Rattle.reals.specs.model.Stored.{three_of};
ghost use Rattle.machine.specs.Data.{Data, Result, Act, work, on_channel, taking, input as input_of, writing, written, reaching, form_in};
ghost use Rattle.machine.specs.model.Holding.{Own, Sound, SoundD, SoundO, data_of, trace_of, seen_d, told, cell_at, on_entered, way_of};

use crate::activations::Memory;
use crate::bounds::ENTRY_NUMBERS;
use crate::cells::cell_at;
use crate::operations::{newest, newest_two, put_through};
use crate::values::line;
use crate::ways::reach;
use crate::{Counts, Line, Trouble, Way};
use answers::Answer;
use reals::entries::{real_entry, whole_entry};
use reals::{Entry, Form, Value};

// The next input number to a variable, whose cell is of the type.
fn take_in(
    mut n: Counts,
    input: &[i32],
    store: &mut [i64],
    own: &Memory,
    q: usize,
    w: Way,
    form: Form,
) -> Result<Counts, Trouble>
    requires { Sound n store.old × (w.cell < n.cells) × (form ≡ form_in (cell_at store.old w.cell)) }
    ensures o_after { (a : Own) (o : List ℤ) → seen_d result a store.new input.now o ≡ told (trace_of n o) (taking q (way_of own.now w) (data_of n a store.old input.now o) (input_of (data_of n a store.old input.now o))) }
    ensures sound_d { SoundD n result store.new }
{
    let t = n.taken;
    if t >= input.len() {
        return Err(Trouble::Fault(Answer::INPUT_ENDED, q));
    }
    let z = input[t];
    n.taken = t + 1;
    put_through(n, store, own, q, w, form, Value::Whole(z))
}

// The same, on the channel v: the cell takes numbers.
fn listen(
    n: Counts,
    input: &[i32],
    store: &mut [i64],
    own: &Memory,
    q: usize,
    w: Way,
    v: Value,
) -> Result<Counts, Trouble>
    requires { Sound n store.old }
    ensures o_after { (a : Own) (o : List ℤ) → seen_d result a store.new input.now o ≡ told (trace_of n o) (reaching Form.Wholes (way_of own.now w) (data_of n a store.old input.now o) (on_channel q v (taking q (way_of own.now w) (data_of n a store.old input.now o) (input_of (data_of n a store.old input.now o))))) }
    ensures sound_d { SoundD n result store.new }
{
    if w.cell >= n.cells {
        return Err(Trouble::Stray);
    }
    let form = reach(own, w.links, Form::Wholes, cell_at(store, w.cell)).ok_or(Trouble::Stray)?;
    match line(v) {
        Line::One => take_in(n, input, store, own, q, w, form),
        Line::Other => Err(Trouble::Fault(Answer::CHANNEL, q)),
        Line::Not => Err(Trouble::Stray),
    }
}

// ininteger.
#[inline(never)] // so that the loop of the run keeps its registers
pub fn receive(
    n: Counts,
    input: &[i32],
    store: &mut [i64],
    own: &Memory,
    q: usize,
    w: Way,
) -> Result<Counts, Trouble>
    requires { Sound n store.old }
    ensures o_after { (a : Own) (o : List ℤ) → seen_d result a store.new input.now o ≡ told (trace_of n o) (work (Act.receive q (way_of own.now w)) (data_of n a store.old input.now o)) }
    ensures sound_d { SoundD n result store.new }
{
    let (v, m) = newest(n, store).ok_or(Trouble::Stray)?;
    listen(m, input, store, own, q, w, v)
}

// A value's entry, if it has one there: outinteger writes whole numbers, outreal reals.
#[tactic(auto, unfolding(crate::specs::Data::written))]
fn entry_of(form: Form, v: Value) -> Option<Entry>
    ensures { (f : List ℤ → Result Data) → written form v f ≡ on_entered f result }
{
    match (v, form) {
        (Value::Whole(z), Form::Wholes) => Some(whole_entry(z)),
        (Value::Real(x), Form::Reals) => Some(real_entry(x)),
        _ => None,
    }
}

// An entry goes to the output.
fn put_out(mut n: Counts, output: &mut [i32], q: usize, e: Entry) -> Result<Counts, Trouble>
    requires { n.written ≤ length output.old }
    ensures output_after { (a : Own) (s i : List ℤ) → seen_d result a s i output.new ≡ told (trace_of n output.old) (writing q (three_of e) (data_of n a s i output.old)) }
    ensures sound_o { (s : List ℤ) → Sound n s → SoundO result s output.old output.new }
{
    let w = n.written;
    if output.len() - w < ENTRY_NUMBERS {
        return Err(Trouble::Fault(Answer::OUTPUT_FULL, q));
    }
    output[w] = e.first;
    output[w + 1] = e.second;
    output[w + 2] = e.third;
    n.written = w + ENTRY_NUMBERS;
    Ok(n)
}

// The same, on the channel v.
fn speak(n: Counts, output: &mut [i32], q: usize, v: Value, e: Entry) -> Result<Counts, Trouble>
    requires { n.written ≤ length output.old }
    ensures output_after { (a : Own) (s i : List ℤ) → seen_d result a s i output.new ≡ told (trace_of n output.old) (on_channel q v (writing q (three_of e) (data_of n a s i output.old))) }
    ensures sound_o { (s : List ℤ) → Sound n s → SoundO result s output.old output.new }
{
    match line(v) {
        Line::One => put_out(n, output, q, e),
        Line::Other => Err(Trouble::Fault(Answer::CHANNEL, q)),
        Line::Not => Err(Trouble::Stray),
    }
}

// outinteger and outreal, by the type of what they write.
#[inline(never)] // so that the loop of the run keeps its registers
pub fn send(
    n: Counts,
    store: &[i64],
    output: &mut [i32],
    q: usize,
    form: Form,
) -> Result<Counts, Trouble>
    requires { Sound n store.now × (n.written ≤ length output.old) }
    ensures output_after { (a : Own) (i : List ℤ) → seen_d result a store.now i output.new ≡ told (trace_of n output.old) (work (Act.send q form) (data_of n a store.now i output.old)) }
    ensures sound_o { SoundO result store.now output.old output.new }
{
    let (k, v, m) = newest_two(n, store).ok_or(Trouble::Stray)?;
    let e = entry_of(form, v).ok_or(Trouble::Stray)?;
    speak(m, output, q, k, e)
}
