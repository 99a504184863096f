// The nodes with what is known behind some of them.
ghost use Rattle.std.specs.Prelude.{◌≡◌, cond, ◌||◌, List, [], ℕ, ◌+◌, ◌*◌, ◌-◌, ◌≤◌, ◌<◌, eqb, length};
ghost use Rattle.grammar.specs.NodeKinds.{n_do, n_for_end, n_procedure, n_procedure_end};
ghost use Rattle.emitting.specs.model.Emission.{Used, uses_in, place_at, put, top, lower_of, upper_of, operation_of, signed, stored, lefts_of, assigned, plain_node, is_element, is_choice, is_block, code_node, emitted};
ghost use Rattle.emitting.specs.model.Arrays.{things_of, seen, see, AllSlim, Small, Fit, rest_node, fresh_in, emitted_from};

use crate::{Addresses, Known, Thing, Writing, actuals, calls, cells, codes, flow, loops, parts};
use answers::{Address, Place};
use grammar::nodes;
use names::{Node, is_use};
use reals::decimals::constant;

// The operation of an operator, by its symbol's kind.
#[tactic(auto, unfolding(crate::specs::model::Emission::operation_of))]
fn operation_of(k: usize) -> usize
    requires { k < 65536 }
    ensures value { result ≡ operation_of k }
    ensures upper_bound { result < 131072 }
{
    match k {
        ..=18 => k + 18,
        19..=21 => k + 17,
        22..=31 => k + 3,
        _ => k + 5,
    }
}

// A sign or 'not'.
#[tactic(auto, unfolding(crate::specs::model::Emission::signed))]
fn signed(t: Writing, k: usize, place: Place, code: &mut [u32]) -> Writing
    requires { (t.here.at < 262144) × (place.at < 65536) }
    ensures { (us : List Used) (op : List Thing) (ah en : List ℕ) → see result us op code.new ah en ≡ signed k place.at (see t us op code.old ah en) }
{
    if k == 19 {
        return t.put(code, codes::NOT, place, 0);
    }
    if k == 23 {
        return t.put(code, codes::MINUS, place, 0);
    }
    t
}

// The left part with n behind it.
fn left_at(mut t: Writing, things: &[Thing; 8192], n: usize) -> Thing
    requires { t.open ≤ 8192 }
    ensures { seen result ≡ top (things_of (t.open - n) things.now) }
{
    t.open = t.open.saturating_sub(n);
    t.top(things)
}

// The operation that stores to a left part with n behind it.
fn storing(n: usize) -> usize
    ensures value { result ≡ cond (eqb n 0) 14 15 }
    ensures upper_bound { result < 16 }
{
    if n == 0 { codes::STORE } else { codes::ASSIGN }
}

// Left parts, from the first to the last.
fn stored(mut t: Writing, things: &[Thing; 8192], code: &mut [u32]) -> Writing
    requires { (t.here.at + 2 * t.lefts < 262144) × (t.open ≤ 8192) × AllSlim 262143 (things_of t.open things.now) }
    ensures { (vs ly ks es : List ℕ) (us : List Used) (ah en : List ℕ) → see result us things.now code.new ah en ≡ stored vs ly ks es (lefts_of vs ly ks es t.lefts (things_of t.open things.now) []) (see t us things.now code.old ah en) }
{
    for n in (0..t.lefts).rev() {
        let f = left_at(t, things, n);
        let name = Place { at: f.third };
        t = cells::on_cell(t, code, storing(n), name, name, f.second);
    }
    t
}

// The end of an assignment.
#[tactic(auto, using(crate::proofs::LeftParts::behind_things), unfolding(crate::specs::model::Emission::assigned, crate::specs::model::Emission::with_lefts, crate::specs::model::Emission::with_open))]
fn assigned(t: Writing, things: &[Thing; 8192], code: &mut [u32]) -> Writing
    requires { (t.here.at + 2 * t.lefts < 262144) × (t.open ≤ 8192) × AllSlim 262143 (things_of t.open things.now) }
    ensures { (vs ly ks es : List ℕ) (us : List Used) (ah en : List ℕ) → see result us things.now code.new ah en ≡ assigned vs ly ks es (see t us things.now code.old ah en) }
{
    let mut r = stored(t, things, code);
    r.open = t.open.saturating_sub(t.lefts);
    r.lefts = 0;
    r
}

// A number with a point: the lower half of its bits, then the upper one.
#[tactic(auto, unfolding(crate::specs::model::Emission::lower_of, crate::specs::model::Emission::upper_of, crate::specs::model::Emission::bits_of))]
fn pointed(t: Writing, w: u64, place: Place, code: &mut [u32]) -> Writing
    requires { (t.here.at < 262144) × (place.at < 65536) }
    ensures { (us : List Used) (op : List Thing) (ah en : List ℕ) → see result us op code.new ah en ≡ put 49 0 (upper_of w) (put 12 place.at (lower_of w) (see t us op code.old ah en)) }
{
    let halves = constant(w / 16, w % 16);
    let lower = t.put(code, codes::CONST, place, halves.low as usize);
    lower.put(code, codes::HIGH, codes::NOWHERE, halves.high as usize)
}

// A node that is of no name and opens nothing.
fn plain_node(
    mut t: Writing,
    n: Node,
    place: Place,
    values: &[u64],
    things: &[Thing; 8192],
    code: &mut [u32],
) -> Writing
    requires { Fit t × AllSlim 262143 (things_of t.open things.now) × (place.at < 65536) }
    ensures { (ly ks es : List ℕ) (us : List Used) (ah en : List ℕ) → see result us things.now code.new ah en ≡ plain_node values.now ly ks es n.kind n.symbol.number place.at n.one (see t us things.now code.old ah en) }
{
    let one = n.one as usize;
    match n.kind {
        nodes::NUMBER => {
            let v = parts::value_of(values, n.symbol) % 4294967296;
            let r = t.put(code, codes::CONST, place, v as usize);
            r.nameless()
        }
        nodes::DECIMAL => {
            let r = pointed(t, parts::value_of(values, n.symbol), place, code);
            r.nameless()
        }
        nodes::LOGICAL => {
            let r = t.put(code, codes::LOGICAL, place, one);
            r.nameless()
        }
        nodes::UNARY => {
            let r = signed(t, one, place, code);
            r.nameless()
        }
        nodes::BINARY => {
            let r = t.put(code, operation_of(one), place, 0);
            r.nameless()
        }
        nodes::ASSIGN => assigned(t, things, code),
        nodes::VARIABLE => {
            t.cells += 1;
            t.declared += 1;
            t
        }
        nodes::FORMAL => {
            t.declared += 1;
            t
        }
        _ => t,
    }
}

// Whether a node is of an element.
fn is_element(kind: u16) -> bool
    ensures { (vs ly ks es : List ℕ) → result ≡ is_element vs ly ks es kind }
{
    matches!(
        kind,
        nodes::START | nodes::ONCE | nodes::WHILE | nodes::STEP | nodes::AMOUNT
    )
}

// Whether it is around a loop's body.
fn is_loop(kind: u16) -> bool
    ensures { result ≡ eqb kind n_do || eqb kind n_for_end }
{
    matches!(kind, nodes::DO | nodes::FOR_END)
}

// Whether it is of a condition.
fn is_choice(kind: u16) -> bool
    ensures { (vs ly ks es : List ℕ) → result ≡ is_choice vs ly ks es kind }
{
    matches!(
        kind,
        nodes::THEN | nodes::ELSE | nodes::IF_END | nodes::CONDITION_END
    )
}

// Whether it is of a block.
fn is_block(kind: u16) -> bool
    ensures { (vs ly ks es : List ℕ) → result ≡ is_block vs ly ks es kind }
{
    matches!(kind, nodes::BLOCK | nodes::STATEMENTS | nodes::BLOCK_END)
}

// Whether it is of a procedure.
fn is_procedure(kind: u16) -> bool
    ensures { result ≡ eqb kind n_procedure || eqb kind n_procedure_end }
{
    matches!(kind, nodes::PROCEDURE | nodes::PROCEDURE_END)
}

// What a node adds that is of no name and no call.
fn rest_node(
    t: Writing,
    n: Node,
    place: Place,
    known: &Known,
    things: &mut [Thing; 8192],
    next: &mut Addresses,
    code: &mut [u32],
) -> Writing
    requires { Small 262143 8191 (see t [] things.old [] [] []) × (place.at < 65536) }
    ensures { (ly es : List ℕ) (us : List Used) → see result us things.new code.new next.new.ahead next.new.entries ≡ rest_node known.now.values.now ly known.now.ahead.now es known.now.rows.now known.now.marks.now n.kind n.symbol.number place.at n.one (see t us things.old code.old next.old.ahead next.old.entries) }
{
    let c = t.top(things);
    let ahead = known.ahead;
    if is_element(n.kind) {
        return loops::element_node(t, n.kind, c, place, ahead, things, &mut next.ahead, code);
    }
    if is_loop(n.kind) {
        return loops::loop_node(t, n.kind, c, things, &mut next.ahead, code);
    }
    if is_choice(n.kind) {
        let mark = parts::mark_of(known.marks, n.symbol);
        return flow::choice_node(t, n.kind, c, mark, ahead, things, &mut next.ahead, code);
    }
    if is_block(n.kind) {
        return flow::block_node(
            t,
            n.kind,
            c,
            place,
            known.rows,
            things,
            &mut next.ahead,
            code,
        );
    }
    if is_procedure(n.kind) {
        return flow::procedure_node(t, n.kind, c, ahead, things, &mut next.entries, code);
    }
    plain_node(t, n, place, known.values, things, code)
}

// What a node adds.
fn node(
    t: Writing,
    n: Node,
    uses: &[u16],
    known: &Known,
    things: &mut [Thing; 8192],
    next: &mut Addresses,
    code: &mut [u32],
) -> Writing
    requires { Small 262143 8191 (see t [] things.old [] [] []) }
    ensures { see result (uses_in known.now.rows.now uses.now) things.new code.new next.new.ahead next.new.entries ≡ code_node known.now.values.now known.now.layout.now known.now.ahead.now known.now.entries.now known.now.rows.now known.now.marks.now n.kind n.symbol.number (place_at known.now.places.now n.symbol.number) n.one n.two (see t (uses_in known.now.rows.now uses.now) things.old code.old next.old.ahead next.old.entries) }
{
    let p = parts::place_in(known.places, n.symbol);
    let u = n.two as usize;
    if is_use(n.kind) {
        return calls::use_node(t, n.kind, p, n.one as usize, u, uses, known, things, code);
    }
    match n.kind {
        nodes::ACTUAL => {
            let c = t.top(things);
            actuals::actual_in(t, c, p, known, things, &mut next.ahead, code)
        }
        nodes::CALL_END => {
            let c = t.top(things);
            calls::call_ended(t.pop(), c, p, u, known, code)
        }
        _ => rest_node(t, n, p, known, things, next, code),
    }
}

// All nodes, and the end.
fn walk(
    nodes: &[u16],
    uses: &[u16],
    known: &Known,
    things: &mut [Thing; 8192],
    next: &mut Addresses,
    code: &mut [u32],
)
    requires { length nodes.now ≤ 32768 }
    ensures code_after { code.new ≡ (emitted_from (place_at known.now.places.now) known.now.values.now known.now.layout.now known.now.ahead.now known.now.entries.now known.now.rows.now known.now.marks.now nodes.now (fresh_in (uses_in known.now.rows.now uses.now) code.old next.old.ahead next.old.entries)).code }
    ensures ahead_after { next.new.ahead ≡ (emitted_from (place_at known.now.places.now) known.now.values.now known.now.layout.now known.now.ahead.now known.now.entries.now known.now.rows.now known.now.marks.now nodes.now (fresh_in (uses_in known.now.rows.now uses.now) code.old next.old.ahead next.old.entries)).ahead }
    ensures entries_after { next.new.entries ≡ (emitted_from (place_at known.now.places.now) known.now.values.now known.now.layout.now known.now.ahead.now known.now.entries.now known.now.rows.now known.now.marks.now nodes.now (fresh_in (uses_in known.now.rows.now uses.now) code.old next.old.ahead next.old.entries)).entries }
{
    let mut t = Writing {
        uses: 0,
        here: Address { at: 0 },
        slots: 0,
        level: 0,
        loops: 0,
        cells: 0,
        lefts: 0,
        awaits: false,
        variable: 0,
        declared: 0,
        open: 0,
    };
    for &words in nodes.as_chunks::<4>().0 {
        t = node(t, Node::from(words), uses, known, things, next, code);
    }
    t.put(code, codes::END, codes::NOWHERE, 0);
}

// The code of a program's nodes, with the addresses ahead and the procedures' as they are known; and those that are found. What was
// open and what was found before do not matter.
pub fn pass(
    nodes: &[u16],
    uses: &[u16],
    known: &Known,
    things: &mut [Thing; 8192],
    next: &mut Addresses,
    code: &mut [u32],
)
    requires { length nodes.now ≤ 32768 }
    ensures code_after { code.new ≡ (emitted known.now.values.now known.now.layout.now known.now.ahead.now known.now.entries.now known.now.rows.now known.now.marks.now (length code.old) (place_at known.now.places.now) nodes.now (uses_in known.now.rows.now uses.now)).code }
    ensures ahead_after { next.new.ahead ≡ (emitted known.now.values.now known.now.layout.now known.now.ahead.now known.now.entries.now known.now.rows.now known.now.marks.now (length code.old) (place_at known.now.places.now) nodes.now (uses_in known.now.rows.now uses.now)).ahead }
    ensures entries_after { next.new.entries ≡ (emitted known.now.values.now known.now.layout.now known.now.ahead.now known.now.entries.now known.now.rows.now known.now.marks.now (length code.old) (place_at known.now.places.now) nodes.now (uses_in known.now.rows.now uses.now)).entries }
{
    next.ahead = [0; 8192];
    next.entries = [0; 2048];
    parts::clear(code);
    walk(nodes, uses, known, things, next, code);
}
