// Names and calls.
ghost use Rattle.std.specs.Prelude.{◌≡◌, cond, List, ℕ, ◌+◌, ◌≤◌, ◌<◌, eqb, drop};
ghost use Rattle.emitting.specs.model.Emission.{Used, uses_in, kind_next, means_next, others_next, with_uses, with_lefts, put, pushed, cell_of, result_of, called_with, result_for, dropped, named, word_of, named_or, calling, taken_in, call_ended, repeated, use_node};
ghost use Rattle.emitting.specs.model.Arrays.{seen, see, Alike, Slim, Fit};

use crate::{Known, Named, Thing, Writing, actuals, cells, codes, parts, uses};
use answers::Place;
use grammar::nodes;
use machine::operands;

// The low part of the word of a name of kind k: 1 for one that has its cell, 2 for a formal called by name.
fn sought(k: usize) -> usize
    ensures { result ≡ cond (eqb k 4) 2 1 }
{
    if k == Named::BY_NAME { 2 } else { 1 }
}

// The word of a use of kind k that means a declaration; of a procedure that of its result.
#[tactic(auto, unfolding(crate::specs::model::Emission::cell_of))]
fn cell_of(level: usize, name: Named, layout: &[u32]) -> usize
    ensures by_index { (vs ks es : List ℕ) → result ≡ cell_of vs layout.now ks es level name.kind name.means }
    ensures upper_bound { result < 4294967296 }
{
    let w = parts::word_at(layout, name.means);
    let out = operands::high(w);
    if name.kind == Named::PROCEDURE {
        return operands::packed(level.saturating_sub(out + 1), 0, 1);
    }
    operands::packed(
        level.saturating_sub(out),
        operands::mid(w),
        sought(name.kind),
    )
}

// 1 where it is a procedure with a result.
#[tactic(auto, unfolding(crate::specs::model::Emission::result_of))]
fn result_of(name: Named, layout: &[u32]) -> usize
    ensures by_index { (vs ks es : List ℕ) → result ≡ result_of vs layout.now ks es name.kind name.means }
    ensures upper_bound { result < 8192 }
{
    if name.kind == Named::PROCEDURE {
        return operands::mid(parts::word_at(layout, name.means));
    }
    0
}

// A call of it with n actuals; u: 0 as a primary, 1 as a statement.
#[tactic(auto, unfolding(crate::specs::model::Emission::called_with))]
fn called_with(
    t: Writing,
    name: Named,
    n: usize,
    u: usize,
    place: Place,
    known: &Known,
    code: &mut [u32],
) -> Writing
    requires { (t.here.at < 1048576) × (n < 1048576) × (u < 65536) × (place.at < 65536) }
    ensures { (vs ks : List ℕ) (us : List Used) (op : List Thing) (ah en : List ℕ) → see result us op code.new ah en ≡ called_with vs known.now.layout.now ks known.now.entries.now name.kind name.means n u place.at (see t us op code.old ah en) }
{
    let around = operands::high(parts::word_at(known.layout, name.means));
    let out = t.level.saturating_sub(around);
    let cells = result_of(name, known.layout) + n;
    let entry = parts::entry_of(known.entries, name.declaration());
    let v = parts::operand(out, cells, entry);
    t.put(code, codes::CALL_NEEDED + u, place, v)
}

// A result's cell, where there is a result; it is of the type `form`.
#[tactic(auto, unfolding(crate::specs::model::Emission::result_for))]
fn result_for(
    t: Writing,
    name: Named,
    place: Place,
    form: usize,
    layout: &[u32],
    code: &mut [u32],
) -> Writing
    requires { (t.here.at < 1048576) × (place.at < 65536) × (form < 3) }
    ensures by_index { (vs ks es : List ℕ) (us : List Used) (op : List Thing) (ah en : List ℕ) → see result us op code.new ah en ≡ result_for vs layout.now ks es name.kind name.means place.at form (see t us op code.old ah en) }
    ensures alike { Alike t result × (result.here.at ≤ t.here.at + 1) × (result.open ≡ t.open) }
{
    if result_of(name, layout) == 0 {
        return t;
    }
    t.put(code, codes::RESULT, place, form)
}

// What a statement does not need.
#[tactic(auto, unfolding(crate::specs::model::Emission::dropped))]
fn dropped(t: Writing, u: usize, code: &mut [u32]) -> Writing
    requires { t.here.at < 1048576 }
    ensures { (vs ly ks es : List ℕ) (us : List Used) (op : List Thing) (ah en : List ℕ) → see result us op code.new ah en ≡ dropped vs ly ks es u (see t us op code.old ah en) }
{
    if u == 0 {
        return t;
    }
    t.put(code, codes::DROP, codes::NOWHERE, 0)
}

// The operation that reads a variable or formal.
fn reading(k: usize) -> usize
    ensures value { result ≡ cond (eqb k 4) 40 13 }
    ensures upper_bound { result < 64 }
{
    if k == Named::BY_NAME {
        codes::WORK
    } else {
        codes::LOAD
    }
}

// A name alone: a variable or formal, a procedure, maxint.
#[tactic(auto, unfolding(crate::specs::model::Emission::named))]
fn named(
    t: Writing,
    name: Named,
    u: usize,
    place: Place,
    form: usize,
    known: &Known,
    code: &mut [u32],
) -> Writing
    requires { (t.here.at < 262144) × (u < 65536) × (place.at < 65536) × (form < 3) }
    ensures { (vs ks : List ℕ) (us : List Used) (op : List Thing) (ah en : List ℕ) → see result us op code.new ah en ≡ named vs known.now.layout.now ks known.now.entries.now name.kind name.means u place.at form (see t us op code.old ah en) }
{
    match name.kind {
        Named::GIVEN => {
            let r = t.put(code, codes::CONST, place, 2147483647);
            dropped(r, u, code)
        }
        Named::PROCEDURE => {
            let r = result_for(t, name, place, form, known.layout, code);
            called_with(r, name, 0, u, place, known, code)
        }
        _ => {
            let v = cells::bare(cell_of(t.level, name, known.layout));
            t.put(code, reading(name.kind), place, v)
        }
    }
}

// The word that an actual has which is this name and nothing else, not even in parentheses: those are deeper, by d, than the
// call that is open.
#[tactic(auto, unfolding(crate::specs::model::Emission::word_of))]
fn word_of(t: Writing, name: Named, d: usize, layout: &[u32], things: &[Thing; 8192]) -> usize
    requires { t.open ≤ 8192 }
    ensures by_index { (vs ks es : List ℕ) (us : List Used) (co ah en : List ℕ) → result ≡ word_of vs layout.now ks es name.kind name.means d (see t us things.now co ah en) }
    ensures upper_bound { result < 4294967296 }
{
    if name.kind == Named::GIVEN || name.kind == Named::PROCEDURE {
        return 0;
    }
    let c = t.top(things);
    if d == c.fourth {
        return cell_of(t.level, name, layout);
    }
    0
}

// A name, d deep; the second actual of ininteger is stored to, not loaded.
#[tactic(auto, unfolding(crate::specs::model::Emission::named_or, crate::specs::model::Emission::with_variable))]
fn named_or(
    mut t: Writing,
    name: Named,
    u: usize,
    place: Place,
    d: usize,
    form: usize,
    known: &Known,
    things: &[Thing; 8192],
    code: &mut [u32],
) -> Writing
    requires { (t.here.at < 262144) × (t.open ≤ 8192) × (u < 65536) × (place.at < 65536) × (form < 3) }
    ensures { (vs ks : List ℕ) (us : List Used) (ah en : List ℕ) → see result us things.now code.new ah en ≡ named_or vs known.now.layout.now ks known.now.entries.now name.kind name.means u place.at d form (see t us things.now code.old ah en) }
{
    if t.awaits {
        t.awaits = false;
        t.variable = cell_of(t.level, name, known.layout);
        return t;
    }
    let w = word_of(t, name, d, known.layout, things);
    let mut r = named(t, name, u, place, form, known, code);
    r.awaits = false;
    r.variable = w;
    r
}

// An open call, of a procedure with its actuals d deep.
#[tactic(auto, unfolding(crate::specs::model::Emission::calling))]
fn calling(
    t: Writing,
    name: Named,
    place: Place,
    d: usize,
    known: &Known,
    things: &mut [Thing; 8192],
    code: &mut [u32],
) -> Writing
    requires { (t.here.at < 262144) × (t.slots < 262144) × (t.level < 262144) × (t.open < 8192) × (name.means < 4294967296) × (place.at < 65536) × (d < 65536) }
    ensures { (vs es : List ℕ) (us : List Used) (ah en : List ℕ) → see result us things.new code.new ah en ≡ calling vs known.now.layout.now known.now.ahead.now es known.now.rows.now name.kind name.means place.at d (see t us things.old code.old ah en) }
{
    let form = uses::form_at(known.rows, name.means);
    let r = result_for(t, name, place, form, known.layout, code);
    if name.kind == Named::PROCEDURE {
        let s = r.push(things, 2, name.means, 0, d + 1);
        return actuals::begun(s, name.means, 0, d + 1, known, things, code);
    }
    r.push(things, name.kind, name.means, 0, 0)
}

// What is taken in goes to the cell of the last name, whose place is given.
#[tactic(auto, unfolding(crate::specs::model::Emission::taken_in))]
fn taken_in(t: Writing, place: Place, name: Place, code: &mut [u32]) -> Writing
    requires { (t.here.at < 262144) × (place.at < 65536) × (name.at < 262144) }
    ensures { (vs ly ks es : List ℕ) (us : List Used) (op : List Thing) (ah en : List ℕ) → see result us op code.new ah en ≡ taken_in vs ly ks es place.at name.at (see t us op code.old ah en) }
{
    if operands::low(t.variable) == 2 {
        let s = t.put(code, codes::CHANNEL, place, 0);
        return cells::on_cell(s, code, codes::IN, place, name, t.variable);
    }
    cells::on_cell(t, code, codes::IN, place, name, t.variable)
}

// The operation of outinteger, or of outreal.
fn sending(c: Thing) -> usize
    ensures value { result ≡ cond (eqb c.second 4) 47 19 }
    ensures upper_bound { result < 64 }
{
    if c.second == 4 {
        codes::OUTREAL
    } else {
        codes::OUT
    }
}

// The end of a call of what the environment gives.
fn given_ended(t: Writing, c: Thing, place: Place, u: usize, code: &mut [u32]) -> Writing
    requires { Fit t × Slim 262143 (seen c) × (place.at < 65536) }
    ensures { (vs ly ks es : List ℕ) (us : List Used) (op : List Thing) (ah en : List ℕ) → see result us op code.new ah en ≡ cond (eqb c.second 0) (dropped vs ly ks es u (put 24 place.at 0 (see t us op code.old ah en))) (cond (eqb c.second 2) (taken_in vs ly ks es place.at c.fourth (see t us op code.old ah en)) (put (cond (eqb c.second 4) 47 19) place.at 0 (see t us op code.old ah en))) }
{
    if c.second == 0 {
        return dropped(t.put(code, codes::IABS, place, 0), u, code);
    }
    if c.second == 2 {
        return taken_in(t, place, Place { at: c.fourth }, code);
    }
    t.put(code, sending(c), place, 0)
}

// The end of a call.
#[tactic(auto, unfolding(crate::specs::model::Emission::call_ended))]
pub fn call_ended(
    t: Writing,
    c: Thing,
    place: Place,
    u: usize,
    known: &Known,
    code: &mut [u32],
) -> Writing
    requires { Fit t × Slim 262143 (seen c) × (u < 65536) × (place.at < 65536) }
    ensures { (vs ks : List ℕ) (us : List Used) (op : List Thing) (ah en : List ℕ) → see result us op code.new ah en ≡ call_ended vs known.now.layout.now ks known.now.entries.now (seen c) place.at u (see t us op code.old ah en) }
{
    if c.first == 2 {
        let name = Named {
            kind: Named::PROCEDURE,
            means: c.second,
        };
        let r = called_with(t, name, c.third, u, place, known, code);
        return r.nameless();
    }
    let r = given_ended(t, c, place, u, code);
    r.nameless()
}

// A left part.
fn left_part(
    t: Writing,
    name: Named,
    place: Place,
    layout: &[u32],
    things: &mut [Thing; 8192],
) -> Writing
    requires { (t.lefts < 1048576) × (t.open < 8192) }
    ensures { (vs ks es : List ℕ) (us : List Used) (co ah en : List ℕ) → see result us things.new co ah en ≡ with_lefts (t.lefts + 1) (pushed 0 (cell_of vs layout.now ks es t.level name.kind name.means) place.at 0 (see t us things.old co ah en)) }
{
    let v = cell_of(t.level, name, layout);
    let mut r = t.push(things, 0, v, place.at, 0);
    r.lefts += 1;
    r
}

// A for statement with its elements: slot of the body's address, the variable, its place, the address of the element.
#[tactic(auto, unfolding(crate::specs::model::Emission::repeated))]
fn repeated(
    t: Writing,
    name: Named,
    place: Place,
    layout: &[u32],
    things: &mut [Thing; 8192],
) -> Writing
    requires { (t.slots < 1048576) × (t.open < 8192) }
    ensures { (vs ks es : List ℕ) (us : List Used) (co ah en : List ℕ) → see result us things.new co ah en ≡ repeated vs layout.now ks es name.kind name.means place.at (see t us things.old co ah en) }
{
    let v = cell_of(t.level, name, layout);
    t.push(things, t.slots, v, place.at, t.here.at as usize)
        .slot()
}

// A node of a name's use.
pub fn use_node(
    t: Writing,
    kind: u16,
    place: Place,
    one: usize,
    u: usize,
    uses: &[u16],
    known: &Known,
    things: &mut [Thing; 8192],
    code: &mut [u32],
) -> Writing
    requires { Fit t × (one < 65536) × (u < 65536) × (place.at < 65536) }
    ensures { (vs ah en : List ℕ) → see result (uses_in known.now.rows.now uses.now) things.new code.new ah en ≡ use_node vs known.now.layout.now known.now.ahead.now known.now.entries.now known.now.rows.now kind (kind_next (drop t.uses (uses_in known.now.rows.now uses.now))) (means_next (drop t.uses (uses_in known.now.rows.now uses.now))) u place.at one (with_uses (others_next (drop t.uses (uses_in known.now.rows.now uses.now))) (see t (uses_in known.now.rows.now uses.now) things.old code.old ah en)) }
{
    let name = uses::next(t, uses, known.rows);
    let r = uses::passed(t, uses);
    match kind {
        nodes::USE => {
            let form = uses::form_at(known.rows, name.means);
            named_or(r, name, u, place, one, form, known, things, code)
        }
        nodes::CALL => calling(r, name, place, one, known, things, code),
        nodes::LEFT => left_part(r, name, place, known.layout, things),
        _ => repeated(r, name, place, known.layout, things),
    }
}
