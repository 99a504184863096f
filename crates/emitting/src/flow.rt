// Conditions, blocks and procedures.
ghost use Rattle.std.specs.Prelude.{◌≡◌, cond, List, ℕ, ◌+◌, ◌-◌, ◌≤◌, ◌<◌};
ghost use Rattle.emitting.specs.model.Layout.{packed};
ghost use Rattle.emitting.specs.model.Emission.{Used, put, within, with_slot, with_variable, pushed, popped, nameless, ahead_at, widened, otherwise, joined, choice_node, opening, block_node, skipped, proceeding, procedure_node};
ghost use Rattle.emitting.specs.model.Arrays.{seen, see, Alike, Slim, Fit};

use crate::{Thing, Writing, codes, counting, parts};
use answers::{Address, Declaration, Place};
use grammar::nodes;
use machine::operands;

// Behind a condition: the slot of where it goes on, and the mark of its 'if'.
#[tactic(auto, unfolding(crate::specs::model::Emission::ahead_at))]
fn conditioned(
    t: Writing,
    mark: usize,
    ahead: &[u32],
    things: &mut [Thing; 8192],
    code: &mut [u32],
) -> Writing
    requires { Fit t }
    ensures { (vs ly es : List ℕ) (us : List Used) (ah en : List ℕ) → see result us things.new code.new ah en ≡ with_slot (pushed t.slots mark 0 0 (put 10 0 (packed 0 0 (ahead_at vs ly ahead.now es t.slots)) (see t us things.old code.old ah en))) }
{
    let next = parts::going_to(parts::address_at(ahead, t.slots));
    let r = t.put(code, codes::UNLESS, codes::NOWHERE, next);
    r.push(things, t.slots, mark, 0, 0).slot()
}

// A part of a conditional expression ends: it becomes a real, where the mark says so, which has no fault.
#[tactic(auto, unfolding(crate::specs::model::Emission::widened))]
fn widened(t: Writing, part: usize, c: Thing, code: &mut [u32]) -> Writing
    requires { t.here.at < 262144 }
    ensures en_after { (vs ly ks es : List ℕ) (us : List Used) (op : List Thing) (ah en : List ℕ) → see result us op code.new ah en ≡ widened vs ly ks es part (seen c) (see t us op code.old ah en) }
    ensures alike { Alike t result × (result.here.at ≤ t.here.at + 1) × (result.open ≡ t.open) }
{
    if c.second == part {
        return t.put(code, codes::AS, codes::NOWHERE, 1);
    }
    t
}

// Behind the 'then' part, where there is another.
fn otherwise(
    t: Writing,
    c: Thing,
    ahead: &[u32],
    things: &mut [Thing; 8192],
    next_ahead: &mut [u32],
    code: &mut [u32],
) -> Writing
    requires { (t.here.at < 1048000) × (t.slots < 262144) × (t.open ≤ 8192) }
    ensures { (vs ly es : List ℕ) (us : List Used) (en : List ℕ) → see result us things.new code.new next_ahead.new en ≡ otherwise vs ly ahead.now es (seen c) (see t us things.old code.old next_ahead.old en) }
{
    let next = parts::going_to(parts::address_at(ahead, t.slots));
    let behind = Address { at: t.here.at + 1 };
    parts::set_word(next_ahead, c.first, parts::going_to(behind));
    let r = t.put(code, codes::JUMP, codes::NOWHERE, next);
    r.replace(things, t.slots, c.second, 0, 0).slot()
}

// Behind it all.
fn joined(t: Writing, c: Thing, next_ahead: &mut [u32]) -> Writing
    ensures { (vs ly ks es : List ℕ) (us : List Used) (op : List Thing) (co en : List ℕ) → see result us op co next_ahead.new en ≡ joined vs ly ks es (seen c) (see t us op co next_ahead.old en) }
{
    parts::set_word(next_ahead, c.first, parts::going_to(t.here));
    t.pop().nameless()
}

// A node of a condition, whose 'if' has a mark.
#[tactic(auto, unfolding(crate::specs::model::Emission::choice_node))]
pub fn choice_node(
    t: Writing,
    kind: u16,
    c: Thing,
    mark: usize,
    ahead: &[u32],
    things: &mut [Thing; 8192],
    next_ahead: &mut [u32],
    code: &mut [u32],
) -> Writing
    requires { Fit t }
    ensures { (vs ly es : List ℕ) (us : List Used) (en : List ℕ) → see result us things.new code.new next_ahead.new en ≡ choice_node vs ly ahead.now es kind (seen c) mark (see t us things.old code.old next_ahead.old en) }
{
    match kind {
        nodes::THEN => conditioned(t, mark, ahead, things, code),
        nodes::ELSE => {
            let w = widened(t, 1, c, code);
            otherwise(w, c, ahead, things, next_ahead, code)
        }
        _ => {
            let w = widened(t, 2, c, code);
            joined(w, c, next_ahead)
        }
    }
}

// A block begins: the slot of its opening, the number of its first declaration, and the variables of the block around.
fn entered(t: Writing, things: &mut [Thing; 8192]) -> Writing
    requires { Fit t }
    ensures { (us : List Used) (co ah en : List ℕ) → see result us things.new co ah en ≡ within t.level t.loops 0 (with_slot (pushed t.slots 0 t.declared t.cells (nameless (see t us things.old co ah en)))) }
{
    let mut s = t.push(things, t.slots, 0, t.declared, t.cells).slot();
    s.cells = 0;
    s.variable = 0;
    s
}

// Behind its declarations and procedures: its opening.
fn begun(
    t: Writing,
    c: Thing,
    place: Place,
    rows: &[u16],
    things: &mut [Thing; 8192],
    next_ahead: &mut [u32],
    code: &mut [u32],
) -> Writing
    requires { Fit t × Slim 262143 (seen c) × (place.at < 65536) }
    ensures { (vs ly ks es : List ℕ) (us : List Used) (en : List ℕ) → see result us things.new code.new next_ahead.new en ≡ opening vs ly ks es rows.now (seen c) place.at (see t us things.old code.old next_ahead.old en) }
{
    parts::set_word(next_ahead, c.first, parts::going_to(t.here));
    let counts = counting::counts_for(rows, c.third);
    let r = t.put(code, codes::ENTER, place, counts);
    r.replace(things, c.first, 0, t.cells, c.fourth)
}

// It ends.
fn left(t: Writing, c: Thing, code: &mut [u32]) -> Writing
    requires { Fit t }
    ensures { (us : List Used) (op : List Thing) (ah en : List ℕ) → see result us op code.new ah en ≡ within t.level t.loops c.fourth (popped (put 4 0 (packed 0 c.third 0) (see t us op code.old ah en))) }
{
    let cells = operands::packed(0, c.third, 0);
    let mut r = t.put(code, codes::LEAVE, codes::NOWHERE, cells).pop();
    r.cells = c.fourth;
    r
}

// A node of a block.
#[tactic(auto, unfolding(crate::specs::model::Emission::block_node))]
pub fn block_node(
    t: Writing,
    kind: u16,
    c: Thing,
    place: Place,
    rows: &[u16],
    things: &mut [Thing; 8192],
    next_ahead: &mut [u32],
    code: &mut [u32],
) -> Writing
    requires { Fit t × Slim 262143 (seen c) × (place.at < 65536) }
    ensures { (vs ly ks es : List ℕ) (us : List Used) (en : List ℕ) → see result us things.new code.new next_ahead.new en ≡ block_node vs ly ks es rows.now kind (seen c) place.at (see t us things.old code.old next_ahead.old en) }
{
    match kind {
        nodes::BLOCK => entered(t, things),
        nodes::STATEMENTS => begun(t, c, place, rows, things, next_ahead, code),
        _ => left(t, c, code),
    }
}

// Before the first procedure of a block: to its opening.
#[tactic(auto, unfolding(crate::specs::model::Emission::skipped, crate::specs::model::Emission::ahead_at))]
fn skipped(t: Writing, c: Thing, ahead: &[u32], code: &mut [u32]) -> Writing
    requires { t.here.at < 262144 }
    ensures by_index { (vs ly es : List ℕ) (us : List Used) (op : List Thing) (ah en : List ℕ) → see result us op code.new ah en ≡ skipped vs ly ahead.now es (seen c) (see t us op code.old ah en) }
    ensures alike { Alike t result × (result.open ≡ t.open) }
{
    if t.variable == 0 {
        let next = parts::going_to(parts::address_at(ahead, c.first));
        return t.put(code, codes::JUMP, codes::NOWHERE, next);
    }
    t
}

// A procedure: the for statements around.
fn declared(t: Writing, things: &mut [Thing; 8192], next_entries: &mut [u32]) -> Writing
    requires { (t.level < 262144) × (t.declared < 262144) × (t.open < 8192) }
    ensures { (vs ly ks es : List ℕ) (us : List Used) (co ah : List ℕ) → see result us things.new co ah next_entries.new ≡ proceeding vs ly ks es (see t us things.old co ah next_entries.old) }
{
    let d = Declaration { number: t.declared };
    parts::set_entry(next_entries, d, t.here);
    let mut r = t.push(things, t.loops, 0, 0, 0);
    r.declared += 1;
    r.level += 1;
    r.loops = 0;
    r
}

// Its end.
fn returned(t: Writing, c: Thing, code: &mut [u32]) -> Writing
    requires { Fit t }
    ensures { (us : List Used) (op : List Thing) (ah en : List ℕ) → see result us op code.new ah en ≡ with_variable (cond t.awaits 1 0) 1 (within (t.level - 1) c.first t.cells (popped (put 7 0 0 (see t us op code.old ah en)))) }
{
    let mut r = t.put(code, codes::RETURN, codes::NOWHERE, 0).pop();
    r.level = t.level.saturating_sub(1);
    r.loops = c.first;
    r.variable = 1;
    r
}

// A node of a procedure.
#[tactic(auto, unfolding(crate::specs::model::Emission::procedure_node))]
pub fn procedure_node(
    t: Writing,
    kind: u16,
    c: Thing,
    ahead: &[u32],
    things: &mut [Thing; 8192],
    next_entries: &mut [u32],
    code: &mut [u32],
) -> Writing
    requires { Fit t }
    ensures { (vs ly es : List ℕ) (us : List Used) (ah : List ℕ) → see result us things.new code.new ah next_entries.new ≡ procedure_node vs ly ahead.now es kind (seen c) (see t us things.old code.old ah next_entries.old) }
{
    match kind {
        nodes::PROCEDURE => {
            let s = skipped(t, c, ahead, code);
            declared(s, things, next_entries)
        }
        _ => returned(t, c, code),
    }
}
