// For statements.
ghost use Rattle.std.specs.Prelude.{◌≡◌, List, [], ℕ, ◌+◌, ◌-◌, ◌≤◌, ◌<◌};
ghost use Rattle.emitting.specs.model.Layout.{packed};
ghost use Rattle.emitting.specs.model.Emission.{Used, put, noted, within, popped, replaced, on_cell, ahead_at, element, bodied, tested, added, step_begun, step_held, step_again, turning, stepping, amount, element_node, loop_node};
ghost use Rattle.emitting.specs.model.Arrays.{seen, see, Alike, Slim, Small, Fit};

use crate::{Thing, Writing, cells, codes, parts};
use answers::{Address, Place};
use grammar::nodes;
use machine::operands;

// Behind an element: it goes on there, if it is not the last.
fn element(t: Writing, f: Thing, things: &mut [Thing; 8192], next_ahead: &mut [u32]) -> Writing
    requires { (t.slots < 1048576) × (t.open ≤ 8192) }
    ensures { (vs ly ks es : List ℕ) (us : List Used) (co en : List ℕ) → see result us things.new co next_ahead.new en ≡ element vs ly ks es (seen f) (see t us things.old co next_ahead.old en) }
{
    parts::set_word(next_ahead, t.slots, parts::going_to(t.here));
    t.replace(things, f.first, f.second, f.third, t.here.at as usize)
        .slot()
}

// The address that stands last in what is open: of an element, or of a step.
fn element_at(f: Thing) -> Address
    requires { f.fourth < 4294967296 }
    ensures { result.at ≡ f.fourth }
{
    Address {
        at: f.fourth as u32,
    }
}

// To the body, with the place to return to.
#[tactic(auto, unfolding(crate::specs::model::Emission::bodied, crate::specs::model::Emission::ahead_at))]
fn bodied(t: Writing, f: Thing, back: Address, ahead: &[u32], code: &mut [u32]) -> Writing
    requires { t.here.at < 1048576 }
    ensures by_index { (vs ly es : List ℕ) (us : List Used) (op : List Thing) (ah en : List ℕ) → see result us op code.new ah en ≡ bodied vs ly ahead.now es (seen f) back.at (see t us op code.old ah en) }
    ensures alike { Alike t result × (result.here.at ≡ t.here.at + 1) × (result.open ≡ t.open) }
{
    let v = parts::operand(t.loops, back.at as usize, parts::address_at(ahead, f.first));
    t.put(code, codes::GO, codes::NOWHERE, v)
}

// The test of a step element; next: where it goes on.
#[tactic(auto, unfolding(crate::specs::model::Emission::tested))]
fn tested(t: Writing, f: Thing, next: Address, code: &mut [u32]) -> Writing
    requires { (t.here.at < 1048575) × Slim 262143 (seen f) }
    ensures en_after { (vs ly ks es : List ℕ) (us : List Used) (op : List Thing) (ah en : List ℕ) → see result us op code.new ah en ≡ tested vs ly ks es f.third f.second next.at (see t us op code.old ah en) }
    ensures alike { Alike t result × (result.here.at ≤ t.here.at + 2) × (result.open ≡ t.open) }
{
    let name = Place { at: f.third };
    if operands::low(f.second) == 2 {
        let sought = t.put(code, codes::SEEK, name, cells::bare(f.second));
        return sought.put(code, codes::TEST, name, parts::operand(0, 8191, next));
    }
    let test = parts::operand(operands::high(f.second), operands::mid(f.second), next);
    t.put(code, codes::TEST, name, test)
}

// The addition and its store; the place is that of 'step'.
#[tactic(auto, unfolding(crate::specs::model::Emission::added))]
fn added(t: Writing, f: Thing, place: Place, code: &mut [u32]) -> Writing
    requires { (t.here.at < 1048000) × Slim 262143 (seen f) × (place.at < 262144) }
    ensures en_after { (vs ly ks es : List ℕ) (us : List Used) (op : List Thing) (ah en : List ℕ) → see result us op code.new ah en ≡ added vs ly ks es f.third f.second place.at (see t us op code.old ah en) }
    ensures alike { Alike t result × (result.here.at ≤ t.here.at + 4) × (result.open ≡ t.open) }
{
    let name = Place { at: f.third };
    let summed = cells::on_cell(t, code, codes::SUM, place, name, f.second);
    cells::on_cell(summed, code, codes::STORE, name, name, f.second)
}

// A step element begins: to its step, and on where a slot tells.
#[tactic(auto, unfolding(crate::specs::model::Emission::step_begun, crate::specs::model::Emission::ahead_at))]
fn step_begun(
    t: Writing,
    place: Place,
    ahead: &[u32],
    things: &mut [Thing; 8192],
    code: &mut [u32],
) -> Writing
    requires { Fit t }
    ensures { (vs ly es : List ℕ) (us : List Used) (ah en : List ℕ) → see result us things.new code.new ah en ≡ step_begun vs ly ahead.now es place.at (see t us things.old code.old ah en) }
{
    let step = Address { at: t.here.at + 1 };
    let next = parts::address_at(ahead, t.slots);
    let v = parts::operand(t.loops, next.at as usize, step);
    let gone = t.put(code, codes::GO, codes::NOWHERE, v);
    gone.push(things, t.slots, 0, place.at, step.at as usize)
        .slot()
}

// Behind the step: on to where it is wanted, the first time to the next instruction, which holds it.
fn step_held(
    t: Writing,
    c: Thing,
    things: &mut [Thing; 8192],
    next_ahead: &mut [u32],
    code: &mut [u32],
) -> Writing
    requires { Fit t }
    ensures { (vs ly ks es : List ℕ) (us : List Used) (en : List ℕ) → see result us things.new code.new next_ahead.new en ≡ step_held vs ly ks es (seen c) (see t us things.old code.old next_ahead.old en) }
{
    let back = operands::packed(t.loops, 0, 0);
    let gone = t.put(code, codes::NEXT, codes::NOWHERE, back);
    let held = gone.put(code, codes::HOLD, codes::NOWHERE, 0);
    parts::set_word(next_ahead, c.first, parts::going_to(gone.here));
    held.replace(things, held.here.at as usize, 1, c.third, c.fourth)
}

// To the step again, and then to what follows here.
#[tactic(auto, unfolding(crate::specs::model::Emission::step_again))]
fn step_again(t: Writing, c: Thing, code: &mut [u32]) -> Writing
    requires { (t.here.at < 1048000) × Slim 262143 (seen c) }
    ensures en_after { (vs ly ks es : List ℕ) (us : List Used) (op : List Thing) (ah en : List ℕ) → see result us op code.new ah en ≡ step_again vs ly ks es (seen c) (see t us op code.old ah en) }
    ensures alike { Alike t result × (result.here.at ≡ t.here.at + 1) × (result.open ≡ t.open) }
{
    let v = parts::operand(t.loops, t.here.at as usize + 1, element_at(c));
    t.put(code, codes::GO, codes::NOWHERE, v)
}

// Behind the bound: the test, and to the body.
#[tactic(auto, unfolding(crate::specs::model::Emission::turning, crate::specs::model::Emission::ahead_at))]
fn turning(t: Writing, f: Thing, ahead: &[u32], code: &mut [u32]) -> Writing
    requires { (t.here.at < 262144) × Slim 262143 (seen f) }
    ensures by_index { (vs ly es : List ℕ) (us : List Used) (op : List Thing) (ah en : List ℕ) → see result us op code.new ah en ≡ turning vs ly ahead.now es (seen f) (see t us op code.old ah en) }
    ensures alike { Alike t result × (result.here.at ≤ t.here.at + 3) × (result.open ≡ t.open) }
{
    let compared = tested(t, f, parts::address_at(ahead, t.slots), code);
    let back = Address {
        at: compared.here.at + 1,
    };
    bodied(compared, f, back, ahead, code)
}

// Then the step again, the addition, and back to the bound.
#[tactic(auto, unfolding(crate::specs::model::Emission::stepping))]
fn stepping(t: Writing, f: Thing, c: Thing, ahead: &[u32], code: &mut [u32]) -> Writing
    requires { (t.here.at < 262144) × Slim 262143 (seen f) × Slim 262143 (seen c) }
    ensures by_index { (vs ly es : List ℕ) (us : List Used) (op : List Thing) (ah en : List ℕ) → see result us op code.new ah en ≡ stepping vs ly ahead.now es (seen f) (seen c) (see t us op code.old ah en) }
    ensures slots_value { (result.slots ≡ t.slots) × (result.open ≡ t.open) }
{
    let gone = turning(t, f, ahead, code);
    let again = step_again(gone, c, code);
    let stored = added(again, f, Place { at: c.third }, code);
    let bound = Address { at: c.first as u32 };
    stored.put(code, codes::JUMP, codes::NOWHERE, parts::going_to(bound))
}

// Behind the step, and behind the bound.
fn amount(
    t: Writing,
    c: Thing,
    ahead: &[u32],
    things: &mut [Thing; 8192],
    next_ahead: &mut [u32],
    code: &mut [u32],
) -> Writing
    requires { Small 262143 8191 (see t [] things.old [] [] []) × Slim 262143 (seen c) }
    ensures { (vs ly es : List ℕ) (us : List Used) (en : List ℕ) → see result us things.new code.new next_ahead.new en ≡ amount vs ly ahead.now es (seen c) (see t us things.old code.old next_ahead.old en) }
{
    if c.second == 0 {
        return step_held(t, c, things, next_ahead, code);
    }
    let around = t.pop();
    let f = around.top(things);
    element(stepping(around, f, c, ahead, code), f, things, next_ahead)
}

// An element of one value.
#[tactic(auto, unfolding(crate::specs::model::Emission::ahead_at))]
fn once(
    t: Writing,
    f: Thing,
    ahead: &[u32],
    things: &mut [Thing; 8192],
    next_ahead: &mut [u32],
    code: &mut [u32],
) -> Writing
    requires { Fit t }
    ensures { (vs ly es : List ℕ) (us : List Used) (en : List ℕ) → see result us things.new code.new next_ahead.new en ≡ element vs ly ahead.now es (seen f) (bodied vs ly ahead.now es (seen f) (ahead_at vs ly ahead.now es t.slots) (see t us things.old code.old next_ahead.old en)) }
{
    let next = parts::address_at(ahead, t.slots);
    element(bodied(t, f, next, ahead, code), f, things, next_ahead)
}

// An element with a condition.
#[tactic(auto, unfolding(crate::specs::model::Emission::ahead_at))]
fn whiled(
    t: Writing,
    f: Thing,
    ahead: &[u32],
    things: &mut [Thing; 8192],
    next_ahead: &mut [u32],
    code: &mut [u32],
) -> Writing
    requires { Fit t × Slim 262143 (seen f) }
    ensures { (vs ly es : List ℕ) (us : List Used) (en : List ℕ) → see result us things.new code.new next_ahead.new en ≡ element vs ly ahead.now es (seen f) (bodied vs ly ahead.now es (seen f) f.fourth (put 10 0 (packed 0 0 (ahead_at vs ly ahead.now es t.slots)) (see t us things.old code.old next_ahead.old en))) }
{
    let next = parts::going_to(parts::address_at(ahead, t.slots));
    let tested = t.put(code, codes::UNLESS, codes::NOWHERE, next);
    element(
        bodied(tested, f, element_at(f), ahead, code),
        f,
        things,
        next_ahead,
    )
}

// The value of an element is stored.
fn started(t: Writing, f: Thing, code: &mut [u32]) -> Writing
    requires { (t.here.at < 262144) × Slim 262143 (seen f) }
    ensures { (us : List Used) (op : List Thing) (ah en : List ℕ) → see result us op code.new ah en ≡ on_cell 14 f.third f.third f.second (see t us op code.old ah en) }
{
    let name = Place { at: f.third };
    cells::on_cell(t, code, codes::STORE, name, name, f.second)
}

// A node of an element.
#[tactic(auto, unfolding(crate::specs::model::Emission::element_node))]
pub fn element_node(
    t: Writing,
    kind: u16,
    f: Thing,
    place: Place,
    ahead: &[u32],
    things: &mut [Thing; 8192],
    next_ahead: &mut [u32],
    code: &mut [u32],
) -> Writing
    requires { Fit t × Slim 262143 (seen f) × Small 262143 8191 (see t [] things.old [] [] []) }
    ensures { (vs ly es : List ℕ) (us : List Used) (en : List ℕ) → see result us things.new code.new next_ahead.new en ≡ element_node vs ly ahead.now es kind (seen f) place.at (see t us things.old code.old next_ahead.old en) }
{
    match kind {
        nodes::START => started(t, f, code),
        nodes::ONCE => once(t, f, ahead, things, next_ahead, code),
        nodes::WHILE => whiled(t, f, ahead, things, next_ahead, code),
        nodes::STEP => step_begun(t, place, ahead, things, code),
        _ => amount(t, f, ahead, things, next_ahead, code),
    }
}

// Behind the last element: the slot of where it goes on, which is behind the loop.
fn begun(t: Writing, f: Thing, things: &mut [Thing; 8192], next_ahead: &mut [u32]) -> Writing
    requires { Fit t }
    ensures { (us : List Used) (co en : List ℕ) → see result us things.new co next_ahead.new en ≡ within t.level (t.loops + 1) t.cells (noted f.first (packed 0 0 t.here.at) (replaced (t.slots - 1) 0 0 0 (see t us things.old co next_ahead.old en))) }
{
    parts::set_word(next_ahead, f.first, parts::going_to(t.here));
    let mut r = t.replace(things, t.slots.saturating_sub(1), 0, 0, 0);
    r.loops += 1;
    r
}

// Behind the body.
fn ended(t: Writing, f: Thing, next_ahead: &mut [u32], code: &mut [u32]) -> Writing
    requires { Fit t }
    ensures { (us : List Used) (op : List Thing) (en : List ℕ) → see result us op code.new next_ahead.new en ≡ noted f.first (packed 0 0 (t.here.at + 1)) (popped (within t.level (t.loops - 1) t.cells (put 9 0 (packed (t.loops - 1) 0 0) (see t us op code.old next_ahead.old en)))) }
{
    let around = t.loops.saturating_sub(1);
    let mut r = t.put(
        code,
        codes::NEXT,
        codes::NOWHERE,
        operands::packed(around, 0, 0),
    );
    r.loops = around;
    let behind = Address { at: t.here.at + 1 };
    parts::set_word(next_ahead, f.first, parts::going_to(behind));
    r.pop()
}

// A node around the body.
#[tactic(auto, unfolding(crate::specs::model::Emission::loop_node))]
pub fn loop_node(
    t: Writing,
    kind: u16,
    f: Thing,
    things: &mut [Thing; 8192],
    next_ahead: &mut [u32],
    code: &mut [u32],
) -> Writing
    requires { Fit t }
    ensures { (vs ly ks es : List ℕ) (us : List Used) (en : List ℕ) → see result us things.new code.new next_ahead.new en ≡ loop_node vs ly ks es kind (seen f) (see t us things.old code.old next_ahead.old en) }
{
    match kind {
        nodes::DO => begun(t, f, things, next_ahead),
        _ => ended(t, f, next_ahead, code),
    }
}
