// What each use means: the innermost declaration or formal around it, else the environment's; and the fault 8.
ghost use Rattle.std.specs.Prelude.{◌≡◌, [], ◌∷◌, ◌++◌, ℕ, ◌+◌, ◌≤◌, ◌<◌, length, take};
ghost use Rattle.names.specs.model.Rows.{opens_of, outside_of, meant_in, is_nothing as isNothing, is_use, used as usedIn, use_node, uses_of};
ghost use Rattle.names.specs.model.Arrays.{see_uses, UsesWithin};

use crate::meanings::number;
use crate::rows::{OUTSIDE, find, identity_of};
use crate::scopes::{enter, leave};
use crate::{Meant, Node, Open, Sought, Using, faults};
use answers::{Answer, Environment, Ordinal};
use grammar::nodes;

// What a name means that no scope around it declares.
fn outside(id: u16) -> Meant
    ensures { result ≡ outside_of id }
{
    match id.checked_sub(OUTSIDE) {
        Some(number) if number < 5 => Meant::Given(Environment { number }),
        _ => Meant::Nothing,
    }
}

// What a name means: the scopes that are open are searched from the innermost outward.
fn meaning(rows: &[u16], ids: &[u16; 2048], depth: usize, stack: &[u16; 8192], id: u16) -> Meant
    requires { (length rows.now ≤ 32768) × (depth ≤ 8192) }
    ensures { result ≡ meant_in ids.now rows.now (opens_of depth stack.now) id }
{
    for &scope in stack[..depth].iter().rev() {
        let want = Sought {
            low: nodes::VARIABLE,
            high: nodes::FORMAL,
            scope,
            id,
        };
        if let Some(d) = find(rows, ids, want) {
            return Meant::Declared(d);
        }
    }
    outside(id)
}

// Whether a node is of a use.
#[tactic(auto, unfolding(crate::specs::model::Rows::is_use))]
pub fn is_use(kind: u16) -> bool
    ensures { result ≡ is_use kind }
{
    matches!(kind, nodes::FOR | nodes::LEFT | nodes::USE | nodes::CALL)
}

// Whether a name means nothing.
fn is_nothing(m: Meant) -> bool
    ensures { result ≡ isNothing m }
{
    matches!(m, Meant::Nothing)
}

// A use: 8 where it means nothing.
fn used(
    mut u: Using,
    symbol: Ordinal,
    rows: &[u16],
    ids: &[u16; 2048],
    stack: &[u16; 8192],
    uses: &mut [u16; 8192],
) -> Using
    requires { UsesWithin u 8191 × (length rows.now ≤ 32768) }
    ensures stack_after { see_uses result uses.new stack.now ≡ usedIn ids.now rows.now symbol.number (see_uses u uses.old stack.now) }
    ensures by_index { (i : ℕ) → UsesWithin u i → UsesWithin result (i + 1) }
{
    let m = meaning(rows, ids, u.around.depth, stack, identity_of(ids, symbol));
    uses[u.count] = number(m);
    u.count += 1;
    u.least = faults::noted_if(is_nothing(m), u.least, symbol, Answer::UNDECLARED);
    u
}

// What a node adds.
fn node(
    mut u: Using,
    n: Node,
    rows: &[u16],
    ids: &[u16; 2048],
    stack: &mut [u16; 8192],
    uses: &mut [u16; 8192],
) -> Using
    requires { UsesWithin u 8191 × (length rows.now ≤ 32768) }
    ensures by_index { (a b : ℕ) → see_uses result uses.new stack.new ≡ use_node ids.now rows.now n.kind n.symbol.number a b (see_uses u uses.old stack.old) }
    ensures by_index_2 { (i : ℕ) → UsesWithin u i → UsesWithin result (i + 1) }
{
    match n.kind {
        nodes::BLOCK | nodes::PROCEDURE => {
            u.around = enter(u.around, stack);
            u
        }
        nodes::BLOCK_END | nodes::PROCEDURE_END => {
            u.around = leave(u.around);
            u
        }
        nodes::FOR | nodes::LEFT | nodes::USE | nodes::CALL => {
            used(u, n.symbol, rows, ids, stack, uses)
        }
        _ => u,
    }
}

// All nodes.
fn walk(
    nodes: &[u16],
    rows: &[u16],
    ids: &[u16; 2048],
    stack: &mut [u16; 8192],
    uses: &mut [u16; 8192],
) -> Using
    requires { (length nodes.now ≤ 32768) × (length rows.now ≤ 32768) }
    ensures stack_after { see_uses result uses.new stack.new ≡ uses_of ids.now rows.now nodes.now }
    ensures uses_within { UsesWithin result 8192 }
{
    let mut u = Using {
        count: 0,
        around: Open {
            depth: 0,
            scopes: 0,
        },
        least: faults::NONE,
    };
    for &words in nodes.as_chunks::<4>().0 {
        u = node(u, Node::from(words), rows, ids, stack, uses);
    }
    u
}

// The uses of a program, of which the nodes and the declarations are lent: what each means.
pub fn resolve(nodes: &[u16], rows: &[u16], ids: &[u16; 2048], uses: &mut [u16; 8192]) -> Using
    requires { (length nodes.now ≤ 32768) × (length rows.now ≤ 32768) }
    ensures uses_after { take result.count uses.new ≡ (uses_of ids.now rows.now nodes.now).uses }
    ensures least_value { result.least ≡ (uses_of ids.now rows.now nodes.now).least }
    ensures uses_within { UsesWithin result 8192 }
{
    let mut stack = [0u16; 8192];
    walk(nodes, rows, ids, &mut stack, uses)
}
