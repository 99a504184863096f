// One instruction, and the run.
ghost use Rattle.std.specs.Prelude.{◌≡◌, not, List, [], ℕ, ◌+◌, ◌≤◌, ◌<◌, min, leb, ℤ, pos, length, replicate};
ghost use Rattle.machine.specs.Limits.{most_words, most_instructions, most_cells, most_live, most_links};
ghost use Rattle.machine.specs.Operations.{o_const, o_result, o_name, o_divide};
ghost use Rattle.machine.specs.Data.{to, Act, Test, cells as cells_in, work as workOf, downs as downsOf};
ghost use Rattle.machine.specs.Instructions.{Location, Instruction, variable, low, with_form, logical as logicalOf, act_of, decode};
ghost use Rattle.machine.specs.Machine.{base, floor, target_in, exec, obey as obeyOf, step as step_of, machine as machine_of, exit, job};
ghost use Rattle.machine.specs.model.Moves.{Apart, OnMoved};
ghost use Rattle.machine.specs.model.Holding.{Sound, SoundO, SoundG, Lives, Drove, data_of, trace_of, mach_of, seen_d, seen_o, told, stepped, positions_of, frames_of, own_of, found_of, Own, word_of, room_of, way_of};

use crate::activations::{FOUND, LINKS, MEMORY, Memory, around, first_cell, note, word};
use crate::cells::is_plain;
use crate::control::stray;
use crate::operands::{FOUND_OFFSET, high, low, mid};
use crate::{
    Counts, Outcome, Ran, Trouble, Way, activations, blocks, bounds, codes, control, loops,
    operations, ports, quick, values,
};
use answers::{Address, Refusal, Stop};
use reals::words::number;
use reals::{Binary, Cell, Form, Value};

// What names a variable in the operand v: activations out and offset, or what was found. b is the first cell of the running activation: most
// variables are its own.
fn way_of(b: usize, live: usize, own: &Memory, v: u32) -> Way
    requires { Lives own.now live × (b ≡ base (frames_of own.now live) live) × (b < 4294967296) }
    ensures result_value { (n : Counts) (s i o : List ℤ) → way_of own.now result ≡ target_in (frames_of own.now live) (data_of n (own_of own.now live) s i o) (variable v) }
    ensures links_le_most_links { result.links ≤ most_links }
{
    let o = mid(v as usize);
    if o == FOUND_OFFSET {
        return Way {
            cell: word(own, 0, FOUND) as usize,
            links: word(own, 0, LINKS) as usize,
        };
    }
    let u = high(v as usize);
    if u == 0 {
        return Way {
            cell: b + o,
            links: 0,
        };
    }
    Way {
        cell: first_cell(own, around(own, live, u)) + o,
        links: 0,
    }
}

// How many values operation k uses.
fn downs(k: u32) -> usize
    requires { (o_const ≤ k) × (k < o_name) × (k ≡ o_result → ⊥) }
    ensures by_index { (q v : ℕ) (x : Location) → result ≡ downsOf (act_of k q x v) }
    ensures upper_bound { result ≤ 2 }
{
    match k {
        codes::CONST => 0,
        codes::LOAD => 0,
        codes::STORE => 1,
        codes::ASSIGN => 1,
        codes::DROP => 1,
        codes::IN => 1,
        codes::OUT => 2,
        codes::HOLD => 1,
        codes::SUM => 1,
        _ => {
            if k < codes::PLUS {
                return 1;
            }
            2
        }
    }
}

// The operations on the data: at q, over the variable w and the operand v.
fn work(
    k: u32,
    q: usize,
    w: Way,
    v: u32,
    n: Counts,
    input: &[i32],
    store: &mut [i64],
    output: &mut [i32],
    own: &Memory,
) -> Result<Counts, Trouble>
    requires { Sound n store.old × (n.written ≤ length output.old) × (o_const ≤ k) × (k < o_name) × (k ≡ o_result → ⊥) }
    ensures output_after { (a : Own) → seen_d result a store.new input.now output.new ≡ told (trace_of n output.old) (workOf (act_of k q (way_of own.now w) v) (data_of n a store.old input.now output.old)) }
    ensures sound_o { SoundO result store.new output.old output.new }
{
    match k {
        codes::CONST => operations::new_cell(n, store, q, Cell::Holds(Value::Whole(number(v)))),
        codes::LOAD => operations::load(n, store, own, q, w),
        codes::STORE => operations::save(n, store, own, q, w),
        codes::ASSIGN => operations::assign(n, store, own, q, w),
        codes::DROP => operations::forget(n, store),
        codes::IN => ports::receive(n, input, store, own, q, w),
        codes::OUT => ports::send(n, store, output, q, Form::Wholes),
        codes::HOLD => loops::keep(n, store),
        codes::SUM => loops::sum(n, store, own, q, w),
        _ => {
            if k < codes::PLUS {
                return operations::unary(n, store, q, values::unary_of(k));
            }
            operations::binary(n, store, q, values::binary_of(k))
        }
    }
}

// One of these, which uses values of the running activation alone.
fn act(
    at: u32,
    live: usize,
    n: Counts,
    k: u32,
    q: usize,
    v: u32,
    input: &[i32],
    store: &mut [i64],
    output: &mut [i32],
    own: &Memory,
) -> Outcome
    requires { Sound n store.old × Lives own.now live × (n.written ≤ length output.old) × (at < most_instructions) × (o_const ≤ k) × (k < o_name) × (k ≡ o_result → ⊥) }
    ensures output_after { seen_o result store.new own.now input.now output.new ≡ stepped (trace_of n output.old) (exec (Instruction.DO (act_of k q (variable v) v)) at (positions_of own.now live) (frames_of own.now live) (data_of n (own_of own.now live) store.old input.now output.old)) }
    ensures sound_g { SoundG result store.new own.now output.old output.new }
{
    let b = first_cell(own, live);
    if b + downs(k) > n.cells {
        return stray(at);
    }
    let w = way_of(b, live, own, v);
    control::lift(
        at,
        at + 1,
        live,
        work(k, q, w, v, n, input, store, output, own),
    )
}

// The value of a variable in a new cell. LOAD and STORE are every other instruction of most programs, so they are told by the first choice.
fn load(
    at: u32,
    live: usize,
    n: Counts,
    q: usize,
    v: u32,
    store: &mut [i64],
    own: &Memory,
) -> Outcome
    requires { Sound n store.old × Lives own.now live × (at < most_instructions) }
    ensures o_after { (i o : List ℤ) → seen_o result store.new own.now i o ≡ stepped (trace_of n o) (exec (Instruction.DO (Act.load q (variable v))) at (positions_of own.now live) (frames_of own.now live) (data_of n (own_of own.now live) store.old i o)) }
    ensures sound_g { (o : List ℤ) → n.written ≤ length o → SoundG result store.new own.now o o }
{
    let b = first_cell(own, live);
    if b > n.cells {
        return stray(at);
    }
    let w = way_of(b, live, own, v);
    control::lift(at, at + 1, live, operations::load(n, store, own, q, w))
}

// The newest value to a variable.
fn save(
    at: u32,
    live: usize,
    n: Counts,
    q: usize,
    v: u32,
    store: &mut [i64],
    own: &Memory,
) -> Outcome
    requires { Sound n store.old × Lives own.now live × (at < most_instructions) }
    ensures o_after { (i o : List ℤ) → seen_o result store.new own.now i o ≡ stepped (trace_of n o) (exec (Instruction.DO (Act.store q (variable v))) at (positions_of own.now live) (frames_of own.now live) (data_of n (own_of own.now live) store.old i o)) }
    ensures sound_g { (o : List ℤ) → n.written ≤ length o → SoundG result store.new own.now o o }
{
    let b = first_cell(own, live);
    if b + 1 > n.cells {
        return stray(at);
    }
    let w = way_of(b, live, own, v);
    control::lift(at, at + 1, live, operations::save(n, store, own, q, w))
}

// A condition.
fn unless(at: u32, live: usize, n: Counts, v: u32, store: &[i64], own: &Memory) -> Outcome
    requires { Sound n store.now × Lives own.now live × (at < most_instructions) }
    ensures o_value { (i o : List ℤ) → seen_o result store.now own.now i o ≡ stepped (trace_of n o) (exec (Instruction.IF Test.condition (low v)) at (positions_of own.now live) (frames_of own.now live) (data_of n (own_of own.now live) store.now i o)) }
    ensures sound_g { (o : List ℤ) → n.written ≤ length o → SoundG result store.now own.now o o }
{
    if first_cell(own, live) + 1 > n.cells {
        return stray(at);
    }
    control::lift_test(
        at,
        low(v as usize) as u32,
        live,
        operations::condition(n, store),
    )
}

// The test of a step element, which uses the bound.
fn upto(at: u32, live: usize, n: Counts, q: usize, v: u32, store: &[i64], own: &Memory) -> Outcome
    requires { Sound n store.now × Lives own.now live × (at < most_instructions) }
    ensures o_value { (i o : List ℤ) → seen_o result store.now own.now i o ≡ stepped (trace_of n o) (exec (Instruction.IF (Test.upto q (variable v)) (low v)) at (positions_of own.now live) (frames_of own.now live) (data_of n (own_of own.now live) store.now i o)) }
    ensures sound_g { (o : List ℤ) → n.written ≤ length o → SoundG result store.now own.now o o }
{
    let b = first_cell(own, live);
    if b + 1 > n.cells {
        return stray(at);
    }
    let w = way_of(b, live, own, v);
    control::lift_test(
        at,
        low(v as usize) as u32,
        live,
        loops::upto(n, store, own, q, w),
    )
}

// A variable is found for a store.
fn lend(at: u32, live: usize, n: Counts, v: u32, store: &[i64], own: &mut Memory) -> Outcome
    requires { Sound n store.now × Lives own.old live × (at < most_instructions) }
    ensures o_after { (i o : List ℤ) → seen_o result store.now own.new i o ≡ stepped (trace_of n o) (exec (Instruction.DO (Act.lend (variable v))) at (positions_of own.old live) (frames_of own.old live) (data_of n (own_of own.old live) store.now i o)) }
    ensures sound_g { (o : List ℤ) → n.written ≤ length o → SoundG result store.now own.new o o }
{
    let b = first_cell(own, live);
    if b > n.cells {
        return stray(at);
    }
    let w = way_of(b, live, own, v);
    let c = w.cell;
    if c >= n.cells {
        return stray(at);
    }
    if !is_plain(store, c) {
        return stray(at);
    }
    note(own, 0, FOUND, c as u32);
    note(own, 0, LINKS, 0);
    Outcome::Goes(at + 1, live, n)
}

// The channel of an ininteger is tested.
fn channel(at: u32, live: usize, n: Counts, q: usize, store: &mut [i64], own: &Memory) -> Outcome
    requires { Sound n store.old × Lives own.now live × (at < most_instructions) }
    ensures o_after { (i o : List ℤ) → seen_o result store.new own.now i o ≡ stepped (trace_of n o) (exec (Instruction.DO (Act.channel q)) at (positions_of own.now live) (frames_of own.now live) (data_of n (own_of own.now live) store.old i o)) }
    ensures sound_g { (o : List ℤ) → n.written ≤ length o → SoundG result store.new own.now o o }
{
    if lacks(own, live, n, 1) {
        return stray(at);
    }
    control::lift(at, at + 1, live, operations::channel(n, store, q))
}

// Whether fewer than k cells are in use above the running activation's first one.
fn lacks(own: &Memory, live: usize, n: Counts, k: usize) -> bool
    requires { (live ≤ most_live) × (k ≤ 2) }
    ensures { (s i o : List ℤ) → not result ≡ leb (floor (frames_of own.now live) + k) (cells_in (data_of n (own_of own.now live) s i o)) }
{
    first_cell(own, live) + k > n.cells
}

// A result cell of the type in the operand.
fn result(
    at: u32,
    live: usize,
    n: Counts,
    q: usize,
    v: u32,
    store: &mut [i64],
    own: &Memory,
) -> Outcome
    requires { Sound n store.old × Lives own.now live × (at < most_instructions) }
    ensures o_after { (i o : List ℤ) → seen_o result store.new own.now i o ≡ stepped (trace_of n o) (obeyOf (with_form (low v) (λ t. Instruction.DO (Act.reserve q t))) at (positions_of own.now live) (frames_of own.now live) (data_of n (own_of own.now live) store.old i o)) }
    ensures sound_g { (o : List ℤ) → n.written ≤ length o → SoundG result store.new own.now o o }
{
    match values::typed(low(v as usize)) {
        None => stray(at),
        Some(form) => {
            if lacks(own, live, n, 0) {
                return stray(at);
            }
            control::lift(
                at,
                at + 1,
                live,
                operations::new_cell(n, store, q, Cell::Unset(form)),
            )
        }
    }
}

// The newest value becomes one of the type in the operand.
fn turn(
    at: u32,
    live: usize,
    n: Counts,
    q: usize,
    v: u32,
    store: &mut [i64],
    own: &Memory,
) -> Outcome
    requires { Sound n store.old × Lives own.now live × (at < most_instructions) }
    ensures o_after { (i o : List ℤ) → seen_o result store.new own.now i o ≡ stepped (trace_of n o) (obeyOf (with_form (low v) (λ t. Instruction.DO (Act.turn q t))) at (positions_of own.now live) (frames_of own.now live) (data_of n (own_of own.now live) store.old i o)) }
    ensures sound_g { (o : List ℤ) → n.written ≤ length o → SoundG result store.new own.now o o }
{
    match values::typed(low(v as usize)) {
        None => stray(at),
        Some(form) => {
            if lacks(own, live, n, 1) {
                return stray(at);
            }
            control::lift(at, at + 1, live, operations::turn(n, store, q, form))
        }
    }
}

// 'false' or 'true'.
fn logical(
    at: u32,
    live: usize,
    n: Counts,
    q: usize,
    v: u32,
    store: &mut [i64],
    own: &Memory,
) -> Outcome
    requires { Sound n store.old × Lives own.now live × (at < most_instructions) }
    ensures o_after { (i o : List ℤ) → seen_o result store.new own.now i o ≡ stepped (trace_of n o) (obeyOf (logicalOf q (low v)) at (positions_of own.now live) (frames_of own.now live) (data_of n (own_of own.now live) store.old i o)) }
    ensures sound_g { (o : List ℤ) → n.written ≤ length o → SoundG result store.new own.now o o }
{
    let b = low(v as usize);
    if b > 1 {
        return stray(at);
    }
    if lacks(own, live, n, 0) {
        return stray(at);
    }
    control::lift(
        at,
        at + 1,
        live,
        operations::new_cell(n, store, q, Cell::Holds(Value::Truth(b == 1))),
    )
}

// The upper half of a real constant.
fn high_half(at: u32, live: usize, n: Counts, v: u32, store: &mut [i64], own: &Memory) -> Outcome
    requires { Sound n store.old × Lives own.now live × (at < most_instructions) }
    ensures o_after { (i o : List ℤ) → seen_o result store.new own.now i o ≡ stepped (trace_of n o) (exec (Instruction.DO (Act.heighten v)) at (positions_of own.now live) (frames_of own.now live) (data_of n (own_of own.now live) store.old i o)) }
    ensures sound_g { (o : List ℤ) → n.written ≤ length o → SoundG result store.new own.now o o }
{
    if lacks(own, live, n, 1) {
        return stray(at);
    }
    control::lift(at, at + 1, live, operations::heighten(n, store, v))
}

// The operator /.
fn divide(at: u32, live: usize, n: Counts, q: usize, store: &mut [i64], own: &Memory) -> Outcome
    requires { Sound n store.old × Lives own.now live × (at < most_instructions) }
    ensures o_after { (i o : List ℤ) → seen_o result store.new own.now i o ≡ stepped (trace_of n o) (exec (Instruction.DO (Act.binary q Binary.Divide)) at (positions_of own.now live) (frames_of own.now live) (data_of n (own_of own.now live) store.old i o)) }
    ensures sound_g { (o : List ℤ) → n.written ≤ length o → SoundG result store.new own.now o o }
{
    if lacks(own, live, n, 2) {
        return stray(at);
    }
    control::lift(
        at,
        at + 1,
        live,
        operations::binary(n, store, q, Binary::Divide),
    )
}

// outreal.
fn outreal(
    at: u32,
    live: usize,
    n: Counts,
    q: usize,
    store: &[i64],
    output: &mut [i32],
    own: &Memory,
) -> Outcome
    requires { Sound n store.now × Lives own.now live × (n.written ≤ length output.old) × (at < most_instructions) }
    ensures output_after { (i : List ℤ) → seen_o result store.now own.now i output.new ≡ stepped (trace_of n output.old) (exec (Instruction.DO (Act.send q Form.Reals)) at (positions_of own.now live) (frames_of own.now live) (data_of n (own_of own.now live) store.now i output.old)) }
    ensures sound_g { SoundG result store.now own.now output.old output.new }
{
    if lacks(own, live, n, 2) {
        return stray(at);
    }
    control::lift(
        at,
        at + 1,
        live,
        ports::send(n, store, output, q, Form::Reals),
    )
}

// The instructions of values with their types. They stand apart, so that the others are told as quickly as without them.
fn by_type(
    at: u32,
    live: usize,
    n: Counts,
    k: u32,
    q: usize,
    v: u32,
    store: &mut [i64],
    output: &mut [i32],
    own: &Memory,
) -> Outcome
    requires { Sound n store.old × Lives own.now live × (n.written ≤ length output.old) × (at < most_instructions) × (o_divide ≤ k) }
    ensures output_after { (i : List ℤ) → seen_o result store.new own.now i output.new ≡ stepped (trace_of n output.old) (obeyOf (decode k q v) at (positions_of own.now live) (frames_of own.now live) (data_of n (own_of own.now live) store.old i output.old)) }
    ensures sound_g { SoundG result store.new own.now output.old output.new }
{
    match k {
        codes::DIVIDE => divide(at, live, n, q, store, own),
        codes::OUTREAL => outreal(at, live, n, q, store, output, own),
        codes::LOGICAL => logical(at, live, n, q, v, store, own),
        codes::HIGH => high_half(at, live, n, v, store, own),
        codes::AS => turn(at, live, n, q, v, store, own),
        _ => stray(at),
    }
}

// The instructions of formals called by name that find nothing. They stand apart, so that the others are told as quickly as without them.
fn by_name(
    at: u32,
    live: usize,
    n: Counts,
    k: u32,
    q: u32,
    v: u32,
    store: &mut [i64],
    own: &Memory,
) -> Outcome
    requires { Sound n store.old × Lives own.now live × (at < most_instructions) × (o_name ≤ k) × (k < o_divide) × Apart k }
    ensures o_after { (i o : List ℤ) → seen_o result store.new own.now i o ≡ stepped (trace_of n o) (obeyOf (decode k q v) at (positions_of own.now live) (frames_of own.now live) (data_of n (own_of own.now live) store.old i o)) }
    ensures sound_g { (o : List ℤ) → n.written ≤ length o → SoundG result store.new own.now o o }
{
    if k == codes::NAME {
        return control::lift(
            at,
            low(v as usize) as u32,
            live,
            operations::new_cell(n, store, q as usize, Cell::Named(at + 1)),
        );
    }
    if k == codes::REFUSE {
        return control::refuse(at, live, own);
    }
    channel(at, live, n, q as usize, store, own)
}

// The instructions of control, and those of formals called by name that are worked out: where the run goes on is all that they come to, so they
// are told before the others.
fn moves(
    at: u32,
    live: usize,
    n: Counts,
    k: u32,
    q: u32,
    v: u32,
    store: &[i64],
    own: &mut Memory,
) -> Option<Outcome>
    requires { Sound n store.now × Lives own.old live × (at < most_instructions) }
    ensures on_moved { OnMoved (λ x. (i o : List ℤ) → seen_o x store.now own.new i o ≡ stepped (trace_of n o) (obeyOf (decode k q v) at (positions_of own.old live) (frames_of own.old live) (data_of n (own_of own.old live) store.now i o))) (own.new ≡ own.old) result }
    ensures on_moved_2 { OnMoved (λ x. (o : List ℤ) → n.written ≤ length o → SoundG x store.now own.new o o) (Apart k) result }
{
    match k {
        codes::CALL_NEEDED => Some(control::call(at, live, n, own, q, v, activations::KEPT)),
        codes::CALL => Some(control::call(at, live, n, own, q, v, activations::GONE)),
        codes::RETURN => Some(control::leave(at, live, n, own, store, q, v)),
        codes::GO => Some(control::go(at, live, n, own, v)),
        codes::NEXT => Some(control::next(at, live, n, own, v)),
        codes::UNLESS => Some(unless(at, live, n, v, store, own)),
        codes::LEND => Some(lend(at, live, n, v, store, own)),
        codes::WORK..=codes::PASS => Some(control::seek(at, live, n, own, store, k, q, v)),
        _ => None,
    }
}

// Any other instruction of operation k, place q and operand v.
fn other(
    at: u32,
    live: usize,
    n: Counts,
    k: u32,
    q: u32,
    v: u32,
    input: &[i32],
    store: &mut [i64],
    output: &mut [i32],
    own: &Memory,
) -> Outcome
    requires { Sound n store.old × Lives own.now live × (n.written ≤ length output.old) × (at < most_instructions) × Apart k }
    ensures output_after { seen_o result store.new own.now input.now output.new ≡ stepped (trace_of n output.old) (obeyOf (decode k q v) at (positions_of own.now live) (frames_of own.now live) (data_of n (own_of own.now live) store.old input.now output.old)) }
    ensures sound_g { SoundG result store.new own.now output.old output.new }
{
    match k {
        codes::NONE => stray(at),
        codes::END => Outcome::Ends,
        codes::JUMP => Outcome::Goes(low(v as usize) as u32, live, n),
        codes::ENTER => control::lift(
            at,
            at + 1,
            live,
            blocks::open(n, store, q as usize, v as usize),
        ),
        codes::LEAVE => control::close(at, live, n, own, mid(v as usize)),
        codes::TEST => upto(at, live, n, q as usize, v, store, own),
        codes::LOAD => load(at, live, n, q as usize, v, store, own),
        codes::STORE => save(at, live, n, q as usize, v, store, own),
        codes::RESULT => result(at, live, n, q as usize, v, store, own),
        codes::NAME..=codes::CHANNEL => by_name(at, live, n, k, q, v, store, own),
        _ => {
            if k < codes::NAME {
                return act(at, live, n, k, q as usize, v, input, store, output, own);
            }
            by_type(at, live, n, k, q as usize, v, store, output, own)
        }
    }
}

// The instruction of operation k, place q and operand v.
fn obey_any(
    at: u32,
    live: usize,
    n: Counts,
    k: u32,
    q: u32,
    v: u32,
    input: &[i32],
    store: &mut [i64],
    output: &mut [i32],
    own: &mut Memory,
) -> Outcome
    requires { Sound n store.old × Lives own.old live × (n.written ≤ length output.old) × (at < most_instructions) }
    ensures output_after { seen_o result store.new own.new input.now output.new ≡ stepped (trace_of n output.old) (obeyOf (decode k q v) at (positions_of own.old live) (frames_of own.old live) (data_of n (own_of own.old live) store.old input.now output.old)) }
    ensures sound_g { SoundG result store.new own.new output.old output.new }
{
    match moves(at, live, n, k, q, v, store, own) {
        Some(x) => x,
        None => other(at, live, n, k, q, v, input, store, output, own),
    }
}

// The same. What whole numbers alone are used for is tried first, since most instructions of most programs are so.
fn obey(
    at: u32,
    live: usize,
    mut n: Counts,
    k: u32,
    q: u32,
    v: u32,
    input: &[i32],
    store: &mut [i64],
    output: &mut [i32],
    own: &mut Memory,
) -> Outcome
    requires { Sound n store.old × Lives own.old live × (n.written ≤ length output.old) × (at < most_instructions) }
    ensures output_after { seen_o result store.new own.new input.now output.new ≡ stepped (trace_of n output.old) (obeyOf (decode k q v) at (positions_of own.old live) (frames_of own.old live) (data_of n (own_of own.old live) store.old input.now output.old)) }
    ensures sound_g { SoundG result store.new own.new output.old output.new }
{
    match quick::obey(at, live, n, k, v, store, own) {
        Some((a, c)) => {
            n.cells = c;
            Outcome::Goes(a, live, n)
        }
        None => obey_any(at, live, n, k, q, v, input, store, output, own),
    }
}

// The instruction at the counter.
fn step(
    at: u32,
    live: usize,
    n: Counts,
    code: &[u32],
    input: &[i32],
    store: &mut [i64],
    output: &mut [i32],
    own: &mut Memory,
) -> Outcome
    requires { Sound n store.old × Lives own.old live × (n.written ≤ length output.old) × (length code.now ≤ most_words) }
    ensures output_after { seen_o result store.new own.new input.now output.new ≡ stepped (trace_of n output.old) (step_of code.now (mach_of at live n store.old own.old input.now output.old)) }
    ensures sound_g { SoundG result store.new own.new output.old output.new }
{
    let c = at as usize;
    if 2 * c + 1 >= code.len() {
        return stray(at);
    }
    let w = code[2 * c];
    let v = code[2 * c + 1];
    obey(
        at,
        live,
        n,
        w % codes::BASE,
        w / codes::BASE,
        v,
        input,
        store,
        output,
        own,
    )
}

// What a run answers that ends so, with its counts at the end.
fn ended(stop: Stop, done: u64, n: Counts) -> Ran
    ensures { result ≡ record { stop = stop; done = done; taken = n.taken; written = n.written } }
{
    Ran {
        stop,
        done,
        taken: n.taken,
        written: n.written,
    }
}

// Instruction after instruction, the limit tested before each.
fn drive(
    code: &[u32],
    input: &[i32],
    limit: u64,
    store: &mut [i64],
    output: &mut [i32],
    own: &mut Memory,
) -> Ran
    requires { (length code.now ≤ most_words) × (room_of store.old ≤ most_cells) × Lives own.old 0 × (word_of own.old 0 5 ≡ 0) × (found_of own.old ≡ to 0 []) }
    ensures { Drove result output.old output.new (machine_of code.now input.now limit (room_of store.old) (length output.old)) }
{
    let mut at: u32 = 0;
    let mut live: usize = 0;
    let mut n = Counts {
        cells: 0,
        held: 0,
        taken: 0,
        written: 0,
    };
    for done in 0..limit {
        match step(at, live, n, code, input, store, output, own) {
            Outcome::Goes(a, l, m) => {
                at = a;
                live = l;
                n = m;
            }
            Outcome::Ends => return ended(Stop::Ended, done + 1, n),
            Outcome::Faults(a, q) => return ended(Stop::Fault(Refusal::new(a, q)), done + 1, n),
            Outcome::Strays(c) => return ended(Stop::Wrong(Address { at: c }), done + 1, n),
        }
    }
    ended(Stop::Limit, limit, n)
}

// The run on what it may use, with the machine's own memory. Every number of the store becomes zero.
fn used(code: &[u32], input: &[i32], limit: u64, store: &mut [i64], output: &mut [i32]) -> Ran
    requires { (length code.now ≤ most_words) × (room_of store.old ≤ most_cells) }
    ensures drove { Drove result output.old output.new (machine_of code.now input.now limit (room_of store.old) (length output.old)) }
    ensures store_after { store.new ≡ replicate (length store.old) (pos 0) }
{
    let mut own = [0u32; MEMORY];
    let ran = drive(code, input, limit, store, output, &mut own);
    store.fill(0);
    ran
}

// Any words, any lengths, any limit.
pub fn run(code: &[u32], input: &[i32], limit: u64, store: &mut [i64], output: &mut [i32]) -> Ran
    ensures { exit result store.new output.new ≡ job code.now input.now limit store.old output.old }
{
    let words = bounds::WORDS.min(code.len());
    let cells = bounds::CELLS.min(store.len() / bounds::CELL_NUMBERS);
    let numbers = bounds::CELL_NUMBERS * cells;
    used(&code[..words], input, limit, &mut store[..numbers], output)
}
