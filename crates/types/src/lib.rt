// Paper 01, "Names and types": the type faults of a program.
#![tactic(auto)]

ghost use Rattle.std.specs.Prelude.{◌≡◌, ◌*◌, take};
ghost use Rattle.types.specs.model.Passes.{typed_of, marks_of};

use names::passes::{first_rows, front};

mod sorts; // types by number, and the operators
mod meanings; // what a name that means something is used as
mod walking; // the nodes with a stack of types

// A type, 0 where it has none, and whether the name is at fault.
// Kept: no plainer, a name at fault has a type beside it all the same, so that this is no `Result`.
#[derive(Clone, Copy)]
pub struct Judgement {
    pub sort: u16,
    pub wrong: bool,
}

// What an actual must be: an expression of a type, a variable or formal of it alone, or nothing is asked.
// Kept: no plainer, three ways side by side; an `Option` would be two layers.
#[derive(Clone, Copy)]
pub enum Want {
    An(u16),
    Variable(u16),
    Nothing,
}

// An open call: what its name means, how deep it stands, and how many actuals it had so far.
#[derive(Clone, Copy)]
pub struct Call {
    pub meaning: u16,
    pub depth: u16,
    pub count: u16,
}

// What is pending, oldest first: types, with an 'if' below the parts that it chooses from; calls; the bodies of procedures.
#[derive(Drop)]
pub struct Pending {
    pub sorts: [u16; 8192],
    pub calls: [Call; 8192],
    pub bodies: [u16; 8192],
}

// What is known behind some nodes: how many uses and declarations there were; how many types are on the stack; how many
// calls and bodies are open; whether left parts stand before, and the first one's type; the depth of a name that was the
// last node, and what it means; the least fault.
#[derive(Clone, Copy)]
pub struct Seen {
    pub uses: usize,
    pub rows: usize,
    pub depth: usize,
    pub calls: usize,
    pub bodies: usize,
    // Kept: what may not change, `typed_of` holds it: of any nodes, an assignment with no left part compares with the type of the last one.
    pub begun: bool,
    pub left: u16,
    pub bare: u16,
    pub last: u16,
    pub least: usize,
}

// The least type fault of a program, for any words: of each array how much is in use, of the rows how many; what is past that is
// cut off. And at the 'if' of each conditional expression the mark of the part that is a whole number beside a real: 1 'then', 2 'else', 0 none.
pub fn check(
    nodes: &[u16; 32768],
    count: usize,
    uses: &[u16; 8192],
    used: usize,
    rows: &[u16; 32768],
    declared: usize,
    marks: &mut [u16; 2048],
) -> usize
    ensures value { result ≡ typed_of (take (4 * declared) rows.now) (take used uses.now) (take count nodes.now) }
    ensures marks_after { marks.new ≡ marks_of (take (4 * declared) rows.now) (take used uses.now) (take count nodes.now) marks.old }
{
    walking::check(
        front(nodes, count),
        front(uses, used),
        first_rows(rows, declared),
        marks,
    )
}
