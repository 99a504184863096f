// The actuals of calls, and those of formals called by name: code of their own, in which an activation more is around.
ghost use Rattle.std.specs.Prelude.{◌≡◌, cond, ◌&&◌, List, ℕ, ◌+◌, ◌%◌, ◌≤◌, ◌<◌, eqb, ltb};
ghost use Rattle.emitting.specs.model.Emission.{Used, put, with_variable, replaced, ahead_at, lending, name_begun, name_ended, given_turned, begun, actual_in};
ghost use Rattle.emitting.specs.model.Arrays.{seen, see, Alike, Slim, Fit};

use crate::{Known, Thing, Writing, cells, codes, parts, uses};
use answers::{Address, Place};

// The place in a slot, of 16 bits.
#[tactic(auto, unfolding(crate::specs::model::Emission::ahead_at))]
fn place_ahead(ahead: &[u32], slot: usize) -> Place
    ensures by_index { (vs ly es : List ℕ) → result.at ≡ ahead_at vs ly ahead.now es slot % 65536 }
    ensures at_bound { result.at < 65536 }
{
    Place {
        at: parts::word_at(ahead, slot) % 65536,
    }
}

// Where its code begins: the cell that holds it, and the part that a store goes to, for a formal of the type `form`.
fn opening(t: Writing, form: usize, ahead: &[u32], code: &mut [u32]) -> Writing
    requires { (t.here.at < 1048000) × (t.slots < 1048576) × (form < 3) }
    ensures by_index { (vs ly es : List ℕ) (us : List Used) (op : List Thing) (ah en : List ℕ) → see result us op code.new ah en ≡ put 7 (ahead_at vs ly ahead.now es (t.slots + 1) % 65536) form (lending vs ly ahead.now es (ahead_at vs ly ahead.now es (t.slots + 2)) (ahead_at vs ly ahead.now es (t.slots + 1) % 65536) (put 39 (ahead_at vs ly ahead.now es (t.slots + 1) % 65536) (ahead_at vs ly ahead.now es t.slots) (see t us op code.old ah en))) }
    ensures alike { Alike t result × (result.open ≡ t.open) }
{
    let slot = t.slots;
    let place = place_ahead(ahead, slot + 1);
    let held = t.put(code, codes::NAME, place, parts::word_at(ahead, slot));
    let lent = cells::lending(held, parts::word_at(ahead, slot + 2), place, code);
    lent.put(code, codes::RETURN, place, form)
}

// Actual j of a call of the procedure m, whose formal is called by name and of the type `form`, d deep, begins: three slots,
// of where it ends, its place and its word.
fn name_begun(
    t: Writing,
    m: usize,
    j: usize,
    d: usize,
    form: usize,
    ahead: &[u32],
    things: &mut [Thing; 8192],
    code: &mut [u32],
) -> Writing
    requires { (t.here.at < 1048000) × (t.slots < 1048000) × (t.level < 1048000) × (t.open ≤ 8192) × (form < 3) }
    ensures { (vs ly es : List ℕ) (us : List Used) (ah en : List ℕ) → see result us things.new code.new ah en ≡ name_begun vs ly ahead.now es m j d form (see t us things.old code.old ah en) }
{
    let mut r = opening(t, form, ahead, code).replace(things, 4 + t.slots, m, j, d);
    r.slots += 3;
    r.level += 1;
    r
}

// It ends; the place is that of its first symbol.
fn name_ended(
    t: Writing,
    c: Thing,
    place: Place,
    form: usize,
    next_ahead: &mut [u32],
    code: &mut [u32],
) -> Writing
    requires { Fit t × Slim 262143 (seen c) × (place.at < 65536) × (form < 3) }
    ensures en_after { (vs ly ks es : List ℕ) (us : List Used) (op : List Thing) (en : List ℕ) → see result us op code.new next_ahead.new en ≡ name_ended vs ly ks es (seen c) place.at form (see t us op code.old next_ahead.old en) }
    ensures at_value { (result.here.at ≡ t.here.at + 2) × (result.slots ≡ t.slots) × (result.level ≤ t.level) × (result.open ≡ t.open) }
{
    let slot = c.first.saturating_sub(4);
    let behind = Address {
        at: t.here.at + 1 + 1,
    };
    parts::set_word(next_ahead, slot + 2, t.variable);
    parts::set_word(next_ahead, slot + 1, place.at);
    parts::set_word(next_ahead, slot, parts::going_to(behind));
    let turned = t.put(code, codes::AS, place, form);
    let mut r = turned.put(code, codes::RETURN, codes::NOWHERE, 0);
    r.level = t.level.saturating_sub(1);
    r
}

// Actual j of a call of the procedure m begins, d deep.
#[tactic(auto, unfolding(crate::specs::model::Emission::begun))]
pub fn begun(
    t: Writing,
    m: usize,
    j: usize,
    d: usize,
    known: &Known,
    things: &mut [Thing; 8192],
    code: &mut [u32],
) -> Writing
    requires { (t.here.at < 1048000) × (t.slots < 1048000) × (t.level < 1048000) × (t.open ≤ 8192) × (m < 4294967296) × (j < 1048576) }
    ensures { (vs ly es : List ℕ) (us : List Used) (ah en : List ℕ) → see result us things.new code.new ah en ≡ begun vs ly known.now.ahead.now es known.now.rows.now m j d (see t us things.old code.old ah en) }
{
    if uses::is_by_name(known.rows, m + 1 + j) {
        let form = uses::form_at(known.rows, m + 1 + j);
        return name_begun(t, m, j, d, form, known.ahead, things, code);
    }
    t
}

// Whether the next actual of the environment's is one that a number is taken to: the second one of ininteger.
fn awaited(c: Thing) -> bool
    ensures { result ≡ (eqb c.second 2 && eqb c.third 0) }
{
    c.second == 2 && c.third == 0
}

// The type that a value becomes which is an actual of the environment's: a real as the second one of outreal.
fn given_form(c: Thing) -> usize
    ensures value { result ≡ cond (eqb c.second 4) 1 0 }
    ensures upper_bound { result < 3 }
{
    if c.second == 4 { 1 } else { 0 }
}

// It becomes one, but that the second one of ininteger is no value.
#[tactic(auto, unfolding(crate::specs::model::Emission::given_turned))]
fn given_turned(t: Writing, c: Thing, place: Place, code: &mut [u32]) -> Writing
    requires { Fit t × (place.at < 65536) }
    ensures en_after { (vs ly ks es : List ℕ) (us : List Used) (op : List Thing) (ah en : List ℕ) → see result us op code.new ah en ≡ given_turned vs ly ks es (seen c) place.at (see t us op code.old ah en) }
    ensures alike { Alike t result × (result.open ≡ t.open) }
{
    if c.third == 1 {
        if c.second == 2 {
            return t;
        }
        return t.put(code, codes::AS, place, given_form(c));
    }
    t.put(code, codes::AS, place, 0)
}

// The end of an actual of the environment's.
fn given_in(
    t: Writing,
    c: Thing,
    place: Place,
    things: &mut [Thing; 8192],
    code: &mut [u32],
) -> Writing
    requires { Fit t × Slim 262143 (seen c) × (place.at < 65536) }
    ensures { (vs ly ks es : List ℕ) (us : List Used) (ah en : List ℕ) → see result us things.new code.new ah en ≡ with_variable (cond (eqb c.second 2 && eqb c.third 0) 1 0) t.variable (replaced 0 c.second (c.third + 1) place.at (given_turned vs ly ks es (seen c) place.at (see t us things.old code.old ah en))) }
{
    let turned = given_turned(t, c, place, code);
    let mut r = turned.replace(things, 0, c.second, c.third + 1, place.at);
    r.awaits = awaited(c);
    r.variable = t.variable;
    r
}

// The end of one of a procedure's, whose formal is of the type `form` and may be called by name.
fn ended(
    t: Writing,
    c: Thing,
    place: Place,
    form: usize,
    next_ahead: &mut [u32],
    code: &mut [u32],
) -> Writing
    requires { Fit t × Slim 262143 (seen c) × (place.at < 65536) × (form < 3) }
    ensures en_after { (vs ly ks es : List ℕ) (us : List Used) (op : List Thing) (en : List ℕ) → see result us op code.new next_ahead.new en ≡ cond (ltb c.first 4) (put 50 place.at form (see t us op code.old next_ahead.old en)) (name_ended vs ly ks es (seen c) place.at form (see t us op code.old next_ahead.old en)) }
    ensures at_bound { (result.here.at ≤ t.here.at + 2) × (result.slots ≡ t.slots) × (result.level ≤ t.level) × (result.open ≡ t.open) }
{
    if c.first < 4 {
        return t.put(code, codes::AS, place, form);
    }
    name_ended(t, c, place, form, next_ahead, code)
}

// The end of an actual, whose first symbol's place is given; the next begins.
#[tactic(auto, unfolding(crate::specs::model::Emission::actual_in))]
pub fn actual_in(
    t: Writing,
    c: Thing,
    place: Place,
    known: &Known,
    things: &mut [Thing; 8192],
    next_ahead: &mut [u32],
    code: &mut [u32],
) -> Writing
    requires { Fit t × Slim 262143 (seen c) × (place.at < 65536) }
    ensures { (vs ly es : List ℕ) (us : List Used) (en : List ℕ) → see result us things.new code.new next_ahead.new en ≡ actual_in vs ly known.now.ahead.now es known.now.rows.now (seen c) place.at (see t us things.old code.old next_ahead.old en) }
{
    if c.first == 0 {
        return given_in(t, c, place, things, code);
    }
    let form = uses::form_at(known.rows, c.second + 1 + c.third);
    let j = c.third + 1;
    let e = ended(t, c, place, form, next_ahead, code);
    let r = e.replace(things, 2, c.second, j, c.fourth);
    begun(r, c.second, j, c.fourth, known, things, code)
}
