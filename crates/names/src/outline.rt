// Declarations and formals in source order, and the faults 7 and 9.
ghost use Rattle.std.specs.Prelude.{◌≡◌, ◌&&◌, List, ℕ, ◌+◌, ◌*◌, ◌≤◌, ◌<◌, eqb, length, take};
ghost use Rattle.names.specs.model.Rows.{row_in, identity_in, declared_in, here_in, declared, procedured, formalled, marked, valued, specified_as, lacking, missing_in, bodied, outline_node, outline_of};
ghost use Rattle.names.specs.model.Arrays.{see_open, see_outline, OutlineWithin};

use crate::rows::{first, has, identity_of, put, row, say, says};
use crate::scopes::{enter, here, leave};
use crate::{Declaring, Node, Open, Row, Sought, faults, modes};
use answers::{Answer, Declaration, Ordinal};
use grammar::nodes;

// The rows of a name in the innermost scope.
fn rows_here(o: Declaring, symbol: Ordinal, ids: &[u16; 2048], stack: &[u16; 8192]) -> Sought
    requires { OutlineWithin o 8192 }
    ensures { result ≡ declared_in (here_in (see_open o.around stack.now)) (identity_in ids.now symbol.number) }
{
    Sought {
        low: nodes::VARIABLE,
        high: nodes::FORMAL,
        scope: here(o.around, stack),
        id: identity_of(ids, symbol),
    }
}

// A name is declared: 7 where its scope has it already.
fn declare(
    mut o: Declaring,
    kind: u16,
    symbol: Ordinal,
    sort: u16,
    ids: &[u16; 2048],
    rows: &mut [u16; 32768],
    stack: &[u16; 8192],
) -> Declaring
    requires { OutlineWithin o 8191 }
    ensures stack_after { see_outline result rows.new stack.now ≡ declared ids.now kind symbol.number sort (see_outline o rows.old stack.now) }
    ensures by_index { (i : ℕ) → OutlineWithin o i → OutlineWithin result (i + 1) }
    ensures around_value { result.around ≡ o.around }
{
    let want = rows_here(o, symbol, ids, stack);
    let again = has(first(rows, o.rows), ids, want);
    o.least = faults::noted_if(again, o.least, symbol, Answer::TWICE);
    let row = Row {
        kind,
        symbol,
        scope: want.scope,
        sort,
    };
    put(rows, o.rows, row);
    o.rows += 1;
    o
}

// A procedure's name is declared, and its body's scope opened.
fn procedure(
    o: Declaring,
    symbol: Ordinal,
    ids: &[u16; 2048],
    rows: &mut [u16; 32768],
    stack: &mut [u16; 8192],
) -> Declaring
    requires { OutlineWithin o 8191 }
    ensures stack_after { see_outline result rows.new stack.new ≡ procedured ids.now symbol.number (see_outline o rows.old stack.old) }
    ensures by_index { (i : ℕ) → OutlineWithin o i → OutlineWithin result (i + 1) }
{
    let mut p = declare(o, nodes::PROCEDURE, symbol, o.sort, ids, rows, stack);
    p.heading = symbol;
    p.around = enter(p.around, stack);
    p
}

// A formal: 7 also where it is named as its procedure. It has no type yet, and is called by name until the value part says other.
fn formal(
    o: Declaring,
    symbol: Ordinal,
    ids: &[u16; 2048],
    rows: &mut [u16; 32768],
    stack: &[u16; 8192],
) -> Declaring
    requires { OutlineWithin o 8191 }
    ensures stack_after { see_outline result rows.new stack.now ≡ formalled ids.now symbol.number (see_outline o rows.old stack.now) }
    ensures by_index { (i : ℕ) → OutlineWithin o i → OutlineWithin result (i + 1) }
{
    let unsaid = modes::word(0, modes::NAME);
    let mut p = declare(o, nodes::FORMAL, symbol, unsaid, ids, rows, stack);
    let same = identity_of(ids, symbol) == identity_of(ids, o.heading);
    p.least = faults::noted_if(same, p.least, symbol, Answer::TWICE);
    p
}

// A name of the value part or of a specification: 9 where a test says so; else the rows that are looked for say a word.
fn mark(
    mut o: Declaring,
    again: bool,
    word: u16,
    symbol: Ordinal,
    want: Sought,
    ids: &[u16; 2048],
    rows: &mut [u16; 32768],
) -> Declaring
    requires { OutlineWithin o 8192 }
    ensures by_index { (stack : List ℕ) → see_outline result rows.new stack ≡ marked ids.now want again word symbol.number (see_outline o rows.old stack) }
    ensures rows_value { (result.rows ≡ o.rows) × (result.around ≡ o.around) }
{
    if again {
        o.least = faults::noted(o.least, symbol, Answer::HEADING);
        return o;
    }
    say(rows, o.rows, ids, want, word);
    o
}

// A name of the value part: 9 where it is no formal, or stands there again.
fn value(
    o: Declaring,
    symbol: Ordinal,
    ids: &[u16; 2048],
    rows: &mut [u16; 32768],
    stack: &[u16; 8192],
) -> Declaring
    requires { OutlineWithin o 8192 }
    ensures stack_after { see_outline result rows.new stack.now ≡ valued ids.now symbol.number (see_outline o rows.old stack.now) }
    ensures rows_value { (result.rows ≡ o.rows) × (result.around ≡ o.around) }
{
    let want = rows_here(o, symbol, ids, stack);
    let said = says(first(rows, o.rows), ids, want);
    let again = modes::mode(said) == modes::VALUE;
    let word = modes::word(modes::sort(said), modes::VALUE);
    mark(o, again, word, symbol, want, ids, rows)
}

// A name in a specification: 9 where it is no formal, or has a type already.
fn specify(
    o: Declaring,
    symbol: Ordinal,
    ids: &[u16; 2048],
    rows: &mut [u16; 32768],
    stack: &[u16; 8192],
) -> Declaring
    requires { OutlineWithin o 8192 }
    ensures stack_after { see_outline result rows.new stack.now ≡ specified_as ids.now symbol.number (see_outline o rows.old stack.now) }
    ensures rows_value { (result.rows ≡ o.rows) × (result.around ≡ o.around) }
{
    let want = rows_here(o, symbol, ids, stack);
    let said = says(first(rows, o.rows), ids, want);
    let again = modes::sort(said) != 0;
    let word = modes::word(modes::sort(o.sort), modes::mode(said));
    mark(o, again, word, symbol, want, ids, rows)
}

// Whether row d is one of a scope, and says no type.
fn is_missing(rows: &[u16], scope: u16, d: Declaration) -> bool
    ensures { result ≡ eqb (row_in rows.now d.number).scope scope && lacking (row_in rows.now d.number).sort }
{
    let r = row(rows, d);
    r.scope == scope && modes::sort(r.sort) == 0
}

// Whether a formal of a scope is missing in the specifications.
fn missing(rows: &[u16], scope: u16) -> bool
    ensures { result ≡ missing_in scope rows.now }
{
    (0..rows.len() / 4).any(|number| is_missing(rows, scope, Declaration { number }))
}

// The end of a heading: 9 at the procedure's name where a formal is missing.
fn body(mut o: Declaring, symbol: Ordinal, rows: &[u16; 32768], stack: &[u16; 8192]) -> Declaring
    requires { OutlineWithin o 8192 }
    ensures stack_value { see_outline result rows.now stack.now ≡ bodied symbol.number (see_outline o rows.now stack.now) }
    ensures rows_value { (result.rows ≡ o.rows) × (result.around ≡ o.around) }
{
    let scope = here(o.around, stack);
    let wrong = missing(first(rows, o.rows), scope);
    o.least = faults::noted_if(wrong, o.least, symbol, Answer::HEADING);
    o
}

// What a node adds.
fn node(
    mut o: Declaring,
    n: Node,
    ids: &[u16; 2048],
    rows: &mut [u16; 32768],
    stack: &mut [u16; 8192],
) -> Declaring
    requires { OutlineWithin o 8191 }
    ensures by_index { (b : ℕ) → see_outline result rows.new stack.new ≡ outline_node ids.now n.kind n.symbol.number n.one b (see_outline o rows.old stack.old) }
    ensures by_index_2 { (i : ℕ) → OutlineWithin o i → OutlineWithin result (i + 1) }
{
    match n.kind {
        nodes::BLOCK => {
            o.around = enter(o.around, stack);
            o
        }
        nodes::BLOCK_END | nodes::PROCEDURE_END => {
            o.around = leave(o.around);
            o
        }
        nodes::TYPE => {
            o.sort = n.one;
            o
        }
        nodes::VARIABLE => declare(o, n.kind, n.symbol, o.sort, ids, rows, stack),
        nodes::PROCEDURE => procedure(o, n.symbol, ids, rows, stack),
        nodes::FORMAL => formal(o, n.symbol, ids, rows, stack),
        nodes::VALUE => value(o, n.symbol, ids, rows, stack),
        nodes::SPECIFIED => specify(o, n.symbol, ids, rows, stack),
        nodes::BODY => body(o, n.symbol, rows, stack),
        _ => o,
    }
}

// All nodes.
fn walk(
    nodes: &[u16],
    ids: &[u16; 2048],
    rows: &mut [u16; 32768],
    stack: &mut [u16; 8192],
) -> Declaring
    requires { length nodes.now ≤ 32768 }
    ensures stack_after { see_outline result rows.new stack.new ≡ outline_of ids.now nodes.now }
    ensures outline_within { OutlineWithin result 8192 }
{
    let mut o = Declaring {
        rows: 0,
        around: Open {
            depth: 0,
            scopes: 0,
        },
        sort: 0,
        heading: Ordinal { number: 0 },
        least: faults::NONE,
    };
    for &words in nodes.as_chunks::<4>().0 {
        o = node(o, Node::from(words), ids, rows, stack);
    }
    o
}

// The declarations of a program, of which the nodes are lent.
pub fn outline(nodes: &[u16], ids: &[u16; 2048], rows: &mut [u16; 32768]) -> Declaring
    requires { length nodes.now ≤ 32768 }
    ensures rows_after { take (4 * result.rows) rows.new ≡ (outline_of ids.now nodes.now).rows }
    ensures least_value { result.least ≡ (outline_of ids.now nodes.now).least }
    ensures outline_within { OutlineWithin result 8192 }
{
    let mut stack = [0u16; 8192];
    walk(nodes, ids, rows, &mut stack)
}
