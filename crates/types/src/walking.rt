// The nodes with a stack of types.
ghost use Rattle.std.specs.Prelude.{◌≡◌, List, ◌∷◌, ℕ, ◌+◌, ◌*◌, ◌≤◌, ◌<◌, eqb, length, set, drop};
ghost use Rattle.names.specs.model.Rows.{opens_of, meant_of};
ghost use Rattle.types.specs.model.Passes.{noted, with_rows, with_bodies, top_of, below, pushed, popped, taken_as, signed_as, operated_as, condition_as, chosen_as, assigned_as, next_use, named_as, called_as, left_as, use_typed, misfit_of, actual_in, call_ended, plain_typed, type_node, typed_of, mark_of, marks_of};
ghost use Rattle.types.specs.declared.Call.{Call};
ghost use Rattle.types.specs.model.Arrays.{see, calls_of, Within, CountsWithin};

use crate::{Call, Pending, Seen, Want, meanings, sorts};
use answers::{Answer, Ordinal};
use grammar::nodes;
use names::meanings::{NOTHING, meant};
use names::{Node, faults, is_use};

// A type fault at a symbol, where a test says so.
fn note(mut t: Seen, wrong: bool, symbol: Ordinal) -> Seen
    ensures b_value { (u s : List ℕ) (c : List Call) (b : List ℕ) → see result u s c b ≡ noted wrong symbol.number (see t u s c b) }
    ensures depth_value { result.depth ≡ t.depth }
{
    t.least = faults::noted_if(wrong, t.least, symbol, Answer::TYPES);
    t
}

// A type is put on the stack.
fn push(mut t: Seen, sort: u16, stack: &mut [u16; 8192]) -> Seen
    requires { t.depth < 8192 }
    ensures { (u : List ℕ) (c : List Call) (b : List ℕ) → see result u stack.new c b ≡ pushed sort (see t u stack.old c b) }
{
    stack[t.depth] = sort;
    t.depth += 1;
    t
}

// The type on top.
fn top(t: Seen, stack: &[u16; 8192]) -> u16
    requires { t.depth ≤ 8192 }
    ensures { result ≡ top_of (opens_of t.depth stack.now) }
{
    stack[..t.depth].last().copied().unwrap_or(0)
}

// It is taken away.
fn pop(mut t: Seen) -> Seen
    ensures b_value { (u s : List ℕ) (c : List Call) (b : List ℕ) → see result u s c b ≡ popped (see t u s c b) }
    ensures depth_le_depth { result.depth ≤ t.depth }
{
    t.depth = t.depth.saturating_sub(1);
    t
}

// A type is taken, which should be this one; a fault is at the symbol.
fn take(t: Seen, sort: u16, symbol: Ordinal, stack: &[u16; 8192]) -> Seen
    requires { t.depth ≤ 8192 }
    ensures by_index { (u : List ℕ) (c : List Call) (b : List ℕ) → see result u stack.now c b ≡ taken_as sort symbol.number (see t u stack.now c b) }
    ensures depth_le_depth { result.depth ≤ t.depth }
{
    note(pop(t), sorts::apart(top(t, stack), sort), symbol)
}

// An operator between two operands.
fn binary(t: Seen, symbol: Ordinal, kind: u16, stack: &mut [u16; 8192]) -> Seen
    requires { t.depth < 8192 }
    ensures { (u : List ℕ) (c : List Call) (b : List ℕ) → see result u stack.new c b ≡ operated_as kind symbol.number (see t u stack.old c b) }
{
    let second = top(t, stack);
    let one = pop(t);
    let first = top(one, stack);
    let both = note(pop(one), sorts::unfit_one(kind, first, second), symbol);
    push(both, sorts::gives(kind, first, second), stack)
}

// A sign or 'not'.
fn unary(t: Seen, symbol: Ordinal, kind: u16, stack: &mut [u16; 8192]) -> Seen
    requires { t.depth < 8192 }
    ensures { (u : List ℕ) (c : List Call) (b : List ℕ) → see result u stack.new c b ≡ signed_as kind symbol.number (see t u stack.old c b) }
{
    let sort = sorts::sign_gives(kind, top(t, stack));
    push(take(t, sorts::sign_takes(kind), symbol, stack), sort, stack)
}

// A condition: its 'if' is put below the parts.
fn condition(t: Seen, symbol: Ordinal, stack: &mut [u16; 8192]) -> Seen
    requires { t.depth < 8192 }
    ensures { (u : List ℕ) (c : List Call) (b : List ℕ) → see result u stack.new c b ≡ condition_as symbol.number (see t u stack.old c b) }
{
    push(take(t, sorts::BOOLEAN, symbol, stack), symbol.number, stack)
}

// The end of a conditional expression.
fn conditional(t: Seen, symbol: Ordinal, stack: &mut [u16; 8192]) -> Seen
    requires { t.depth < 8192 }
    ensures { (u : List ℕ) (c : List Call) (b : List ℕ) → see result u stack.new c b ≡ chosen_as symbol.number (see t u stack.old c b) }
{
    let second = top(t, stack);
    let one = pop(t);
    let first = top(one, stack);
    let both = note(pop(pop(one)), sorts::apart(first, second), symbol);
    push(both, sorts::armed(first, second), stack)
}

// The next use: what it means.
fn next_use(mut t: Seen, uses: &[u16]) -> Seen
    ensures by_index { (s : List ℕ) (c : List Call) (b : List ℕ) → see result uses.now s c b ≡ next_use (drop t.uses uses.now) (see t uses.now s c b) }
    ensures depth_value { (result.depth ≡ t.depth) × (result.calls ≡ t.calls) × (result.bodies ≡ t.bodies) }
{
    if let Some(&last) = uses.get(t.uses) {
        t.uses += 1;
        t.last = last;
    }
    t
}

// A name without actuals: as a primary, or as a statement.
fn name(
    t: Seen,
    symbol: Ordinal,
    depth: u16,
    as_statement: u16,
    rows: &[u16],
    stack: &mut [u16; 8192],
) -> Seen
    requires { (t.depth < 8192) × (length rows.now ≤ 32768) }
    ensures { (u : List ℕ) (c : List Call) (b : List ℕ) → see result u stack.new c b ≡ named_as rows.now symbol.number depth as_statement (see t u stack.old c b) }
{
    let m = meant(t.last);
    if as_statement == 1 {
        return note(t, meanings::miscalled(rows, m, 0), symbol);
    }
    let j = meanings::in_expression(rows, m, 0);
    let mut p = push(note(t, j.wrong, symbol), j.sort, stack);
    p.bare = depth;
    p
}

// A call begins: its name's meaning, its depth, and no actual so far are kept.
fn call(mut t: Seen, depth: u16, calls: &mut [Call; 8192]) -> Seen
    requires { t.calls < 8192 }
    ensures { (u s b : List ℕ) → see result u s calls.new b ≡ called_as depth (see t u s calls.old b) }
{
    calls[t.calls] = Call {
        meaning: t.last,
        depth,
        count: 0,
    };
    t.calls += 1;
    t
}

// Whether an actual is not what is wanted; alone: it is a name alone.
fn misfit(t: Seen, wanted: Want, alone: bool, rows: &[u16], stack: &[u16; 8192]) -> bool
    requires { (t.depth ≤ 8192) × (length rows.now ≤ 32768) }
    ensures { result ≡ misfit_of rows.now wanted alone (top_of (opens_of t.depth stack.now)) (meant_of t.last) }
{
    match wanted {
        Want::An(sort) => sorts::apart(top(t, stack), sort),
        Want::Variable(sort) => !alone || !meanings::is_variable(rows, meant(t.last), sort),
        Want::Nothing => false,
    }
}

// The end of an actual.
fn actual(
    t: Seen,
    bare: u16,
    symbol: Ordinal,
    rows: &[u16],
    stack: &[u16; 8192],
    calls: &mut [Call; 8192],
) -> Seen
    requires { (t.depth ≤ 8192) × (t.calls ≤ 8192) × CountsWithin (calls_of t.calls calls.old) 8191 × (length rows.now ≤ 32768) }
    ensures { (u b : List ℕ) → see result u stack.now calls.new b ≡ actual_in rows.now (calls_of t.calls calls.old) bare symbol.number (see t u stack.now calls.old b) }
{
    let Some(n) = t.calls.checked_sub(1) else {
        return pop(t);
    };
    let c = calls[n];
    let w = meanings::wanted(rows, meant(c.meaning), c.count as usize);
    let alone = bare as usize == c.depth as usize + 1;
    let wrong = misfit(t, w, alone, rows, stack);
    calls[n].count += 1;
    note(pop(t), wrong, symbol)
}

// The end of a call: as a primary, or as a statement.
fn call_end(
    mut t: Seen,
    symbol: Ordinal,
    as_statement: u16,
    rows: &[u16],
    stack: &mut [u16; 8192],
    calls: &[Call; 8192],
) -> Seen
    requires { (t.depth < 8192) × (t.calls ≤ 8192) × (length rows.now ≤ 32768) }
    ensures { (u b : List ℕ) → see result u stack.new calls.now b ≡ call_ended rows.now (calls_of t.calls calls.now) symbol.number as_statement (see t u stack.old calls.now b) }
{
    let Some(n) = t.calls.checked_sub(1) else {
        return t;
    };
    let m = meant(calls[n].meaning);
    let has = calls[n].count as usize;
    t.calls = n;
    if as_statement == 1 {
        return note(t, meanings::miscalled(rows, m, has), symbol);
    }
    let j = meanings::in_expression(rows, m, has);
    push(note(t, j.wrong, symbol), j.sort, stack)
}

// A left part: "or is not of the first one's type".
fn left(mut t: Seen, symbol: Ordinal, rows: &[u16], bodies: &[u16; 8192]) -> Seen
    requires { (t.bodies ≤ 8192) × (length rows.now ≤ 32768) }
    ensures { (u s : List ℕ) (c : List Call) → see result u s c bodies.now ≡ left_as rows.now symbol.number (see t u s c bodies.now) }
{
    let j = meanings::as_left(rows, meant(t.last), bodies, t.bodies);
    if t.begun {
        return note(t, j.wrong || sorts::differ(t.left, j.sort), symbol);
    }
    t.begun = true;
    t.left = j.sort;
    note(t, j.wrong, symbol)
}

// The end of an assignment.
fn assign(mut t: Seen, symbol: Ordinal, stack: &[u16; 8192]) -> Seen
    requires { t.depth ≤ 8192 }
    ensures { (u : List ℕ) (c : List Call) (b : List ℕ) → see result u stack.now c b ≡ assigned_as symbol.number (see t u stack.now c b) }
{
    t.begun = false;
    note(pop(t), sorts::apart(t.left, top(t, stack)), symbol)
}

// A procedure's body is entered.
fn body(mut t: Seen, bodies: &mut [u16; 8192]) -> Seen
    requires { (t.bodies < 8192) × (t.rows < 8192) }
    ensures { (u s : List ℕ) (c : List Call) → see result u s c bodies.new ≡ with_rows (t.rows + 1) (with_bodies (t.rows ∷ opens_of t.bodies bodies.old) (see t u s c bodies.old)) }
{
    bodies[t.bodies] = t.rows as u16;
    t.bodies += 1;
    t.rows += 1;
    t
}

// It is left.
fn body_end(mut t: Seen) -> Seen
    ensures { (u s : List ℕ) (c : List Call) (b : List ℕ) → see result u s c b ≡ with_bodies (below (opens_of t.bodies b)) (see t u s c b) }
{
    t.bodies = t.bodies.saturating_sub(1);
    t
}

// A node of an expression that is no name.
fn plain(t: Seen, n: Node, stack: &mut [u16; 8192]) -> Seen
    requires { t.depth < 8192 }
    ensures { (u : List ℕ) (c : List Call) (b : List ℕ) → see result u stack.new c b ≡ plain_typed n.kind n.symbol.number n.one (see t u stack.old c b) }
{
    match n.kind {
        nodes::NUMBER => push(t, sorts::INTEGER, stack),
        nodes::DECIMAL => push(t, sorts::REAL, stack),
        nodes::LOGICAL => push(t, sorts::BOOLEAN, stack),
        nodes::UNARY => unary(t, n.symbol, n.one, stack),
        nodes::BINARY => binary(t, n.symbol, n.one, stack),
        nodes::THEN => condition(t, n.symbol, stack),
        nodes::WHILE => take(t, sorts::BOOLEAN, n.symbol, stack),
        nodes::START | nodes::AMOUNT => take(t, sorts::INTEGER, n.symbol, stack),
        nodes::IF_END => pop(t),
        nodes::CONDITION_END => conditional(t, n.symbol, stack),
        nodes::ASSIGN => assign(t, n.symbol, stack),
        _ => t,
    }
}

// A node of a name's use.
fn use_node(t: Seen, n: Node, uses: &[u16], rows: &[u16], pending: &mut Pending) -> Seen
    requires { (t.depth < 8192) × (t.calls < 8192) × (t.bodies ≤ 8192) × (length rows.now ≤ 32768) }
    ensures { see result uses.now pending.new.sorts pending.new.calls pending.new.bodies ≡ use_typed rows.now n.kind n.symbol.number n.one n.two (next_use (drop t.uses uses.now) (see t uses.now pending.old.sorts pending.old.calls pending.old.bodies)) }
{
    let u = next_use(t, uses);
    match n.kind {
        nodes::USE => name(u, n.symbol, n.one, n.two, rows, &mut pending.sorts),
        nodes::CALL => call(u, n.one, &mut pending.calls),
        nodes::LEFT => left(u, n.symbol, rows, &pending.bodies),
        _ => note(
            u,
            !meanings::is_variable(rows, meant(u.last), sorts::INTEGER),
            n.symbol,
        ),
    }
}

// What a node adds.
fn node(mut t: Seen, n: Node, uses: &[u16], rows: &[u16], pending: &mut Pending) -> Seen
    requires { Within 8191 (see t uses.now pending.old.sorts pending.old.calls pending.old.bodies) × (length rows.now ≤ 32768) }
    ensures { see result uses.now pending.new.sorts pending.new.calls pending.new.bodies ≡ type_node rows.now n.kind n.symbol.number n.one n.two (see t uses.now pending.old.sorts pending.old.calls pending.old.bodies) }
{
    let bare = t.bare;
    t.bare = 0;
    if is_use(n.kind) {
        return use_node(t, n, uses, rows, pending);
    }
    match n.kind {
        nodes::ACTUAL => actual(t, bare, n.symbol, rows, &pending.sorts, &mut pending.calls),
        nodes::CALL_END => call_end(t, n.symbol, n.two, rows, &mut pending.sorts, &pending.calls),
        nodes::VARIABLE | nodes::FORMAL => {
            t.rows += 1;
            t
        }
        nodes::PROCEDURE => body(t, &mut pending.bodies),
        nodes::PROCEDURE_END => body_end(t),
        _ => plain(t, n, &mut pending.sorts),
    }
}

// A mark is kept at a symbol, where there is room.
fn keep(marks: &mut [u16], symbol: usize, mark: u16)
    ensures { marks.new ≡ set marks.old symbol mark }
{
    if symbol < marks.len() {
        marks[symbol] = mark;
    }
}

// The mark of a conditional expression, where a node ends one.
fn mark(t: Seen, kind: u16, stack: &[u16; 8192], marks: &mut [u16])
    requires { t.depth ≤ 8192 }
    ensures { marks.new ≡ mark_of kind (opens_of t.depth stack.now) marks.old }
{
    if kind != nodes::CONDITION_END {
        return;
    }
    let second = top(t, stack);
    let one = pop(t);
    let first = top(one, stack);
    let symbol = top(pop(one), stack);
    keep(marks, usize::from(symbol), sorts::wide(first, second));
}

// All nodes.
fn walk(
    nodes: &[u16],
    uses: &[u16],
    rows: &[u16],
    pending: &mut Pending,
    marks: &mut [u16],
) -> usize
    requires { (length nodes.now ≤ 32768) × (length rows.now ≤ 32768) }
    ensures value { result ≡ typed_of rows.now uses.now nodes.now }
    ensures marks_after { marks.new ≡ marks_of rows.now uses.now nodes.now marks.old }
{
    let mut t = Seen {
        uses: 0,
        rows: 0,
        depth: 0,
        calls: 0,
        bodies: 0,
        begun: false,
        left: 0,
        bare: 0,
        last: NOTHING,
        least: faults::NONE,
    };
    for &words in nodes.as_chunks::<4>().0 {
        let n = Node::from(words);
        mark(t, n.kind, &pending.sorts, marks);
        t = node(t, n, uses, rows, pending);
    }
    t.least
}

// The least type fault of a program, of which the nodes, the uses and the declarations are lent; and the marks of its conditional expressions.
pub fn check(nodes: &[u16], uses: &[u16], rows: &[u16], marks: &mut [u16]) -> usize
    requires { (length nodes.now ≤ 32768) × (length rows.now ≤ 32768) }
    ensures value { result ≡ typed_of rows.now uses.now nodes.now }
    ensures marks_after { marks.new ≡ marks_of rows.now uses.now nodes.now marks.old }
{
    let none = Call {
        meaning: 0,
        depth: 0,
        count: 0,
    };
    let mut pending = Pending {
        sorts: [0; 8192],
        calls: [none; 8192],
        bodies: [0; 8192],
    };
    walk(nodes, uses, rows, &mut pending, marks)
}
