// Where the cells of a program lie: the first pass over the nodes.
ghost use Rattle.std.specs.Prelude.{◌≡◌, List, ◌∷◌, ℕ, ◌+◌, ◌≤◌, ◌<◌, length};
ghost use Rattle.names.specs.model.Rows.{opens_of, fold_nodes};
ghost use Rattle.emitting.specs.model.Layout.{among_for, one_of, outermost, celled, blocked, procedured, closed, lay_node, layout_of};
ghost use Rattle.emitting.specs.model.Arrays.{lain, unlaid_in, Spread};

use crate::{Laid, counting, parts};
use grammar::nodes;
use machine::operands;
use names::Node;

// 1 where there is a type.
#[tactic(auto, unfolding(crate::specs::model::Layout::one_of))]
fn one_of(sort: usize) -> usize
    ensures { result ≡ one_of sort }
{
    usize::from(sort != 0)
}

// A variable or a formal, whose cell is at an offset.
#[tactic(auto, unfolding(crate::specs::model::Layout::celled))]
fn celled(mut t: Laid, offset: usize, table: &mut [u32]) -> Laid
    requires { (t.reach < 65536) × (t.declared < 65536) }
    ensures { (a : List ℕ) → lain result a table.new ≡ celled offset (lain t a table.old) }
{
    parts::set_word(table, t.declared, operands::packed(t.level, offset, 0));
    t.reach += 1;
    t.declared += 1;
    t
}

// The cells outside the innermost scope.
#[tactic(auto, unfolding(crate::specs::model::Layout::outermost, names::specs::model::Rows::opens_of))]
fn outside(t: Laid, around: &[usize; 8192]) -> usize
    requires { t.open ≤ 8192 }
    ensures { result ≡ outermost (opens_of t.open around.now) }
{
    let n = t.open;
    if n == 0 {
        return 0;
    }
    around[n - 1]
}

// A variable: the cells of its block lie by their types, behind those outside.
#[tactic(auto, using(crate::proofs::Spreading::length_opens, crate::proofs::Spreading::outermost_within))]
fn varied(t: Laid, rows: &[u16], around: &[usize; 8192], table: &mut [u32]) -> Laid
    requires { Spread 8191 (lain t around.now table.old) }
    ensures { lain result around.now table.new ≡ celled (outermost (opens_of t.open around.now) + among_for rows.now t.declared) (lain t around.now table.old) }
{
    let offset = outside(t, around) + counting::among_for(rows, t.declared);
    celled(t, offset, table)
}

// A number of an array is written.
#[tactic(auto, using(names::proofs::RowLaws::opens_enter))]
fn keep(around: &mut [usize], n: usize, reach: usize)
    requires { n < length around.old }
    ensures { opens_of (n + 1) around.new ≡ reach ∷ opens_of n around.old }
{
    around[n] = reach;
}

// A block opens: the cells outside are kept.
#[tactic(auto, unfolding(crate::specs::model::Layout::blocked))]
fn blocked(mut t: Laid, around: &mut [usize; 8192]) -> Laid
    requires { t.open < 8192 }
    ensures by_index { (w : List ℕ) → lain result around.new w ≡ blocked (lain t around.old w) }
    ensures level_value { (result.level ≡ t.level) × (result.declared ≡ t.declared) }
{
    let at = t.open;
    keep(around, at, t.reach);
    t.open = at + 1;
    t
}

// A procedure opens: its result is the first cell of its activation.
fn procedured(t: Laid, around: &mut [usize; 8192], table: &mut [u32]) -> Laid
    requires { (t.open < 8192) × (t.level < 65536) × (t.declared < 65536) }
    ensures { lain result around.new table.new ≡ procedured (lain t around.old table.old) }
{
    let one = one_of(t.sort);
    parts::set_word(table, t.declared, operands::packed(t.level, one, 0));
    let mut r = blocked(t, around);
    r.level += 1;
    r.declared += 1;
    r.reach = one;
    r
}

// The innermost scope closes, back to so many activations around.
#[tactic(auto, unfolding(crate::specs::model::Layout::closed, crate::specs::model::Layout::outermost, crate::specs::model::Layout::further, names::specs::model::Rows::opens_of))]
fn closed(mut t: Laid, level: usize, around: &[usize; 8192]) -> Laid
    requires { t.open ≤ 8192 }
    ensures { (w : List ℕ) → lain result around.now w ≡ closed level (lain t around.now w) }
{
    t.level = level;
    let n = t.open;
    if n == 0 {
        t.reach = 0;
        return t;
    }
    let at = n - 1;
    t.open = at;
    t.reach = around[at];
    t
}

// What a node adds.
fn lay_node(
    mut t: Laid,
    n: Node,
    rows: &[u16],
    around: &mut [usize; 8192],
    table: &mut [u32],
) -> Laid
    requires { Spread 8191 (lain t around.old table.old) }
    ensures { (s b : ℕ) → lain result around.new table.new ≡ lay_node rows.now n.kind s n.one b (lain t around.old table.old) }
{
    match n.kind {
        nodes::TYPE => {
            t.sort = n.one as usize;
            t
        }
        nodes::VARIABLE => varied(t, rows, around, table),
        nodes::FORMAL => celled(t, t.reach, table),
        nodes::PROCEDURE => procedured(t, around, table),
        nodes::PROCEDURE_END => closed(t, t.level.saturating_sub(1), around),
        nodes::BLOCK => blocked(t, around),
        nodes::BLOCK_END => closed(t, t.level, around),
        _ => t,
    }
}

// All nodes.
fn lay(nodes: &[u16], rows: &[u16], around: &mut [usize; 8192], table: &mut [u32])
    requires { length nodes.now ≤ 32768 }
    ensures { table.new ≡ (fold_nodes (lay_node rows.now) nodes.now (unlaid_in table.old)).table }
{
    let mut t = Laid::default();
    for &words in nodes.as_chunks::<4>().0 {
        t = lay_node(t, Node::from(words), rows, around, table);
    }
}

// For each declaration or formal, by its number: the activations around its scope, and the offset of its cell in its
// activation; of a procedure whether it has a result.
pub fn layout(nodes: &[u16], rows: &[u16], table: &mut [u32; 2048])
    requires { length nodes.now ≤ 32768 }
    ensures { table.new ≡ layout_of rows.now nodes.now }
{
    let mut around = [0usize; 8192];
    parts::clear(table);
    lay(nodes, rows, &mut around, table)
}
