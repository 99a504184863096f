// The passes that write a program's code from what the front end fills: where cells lie, then the instructions. `emit` is
// for others, with any words lent to it; `clear` leaves no code.
#![tactic(auto)]

mod codes; // the operations' numbers
mod parts; // the parts of an operand, and words in lent arrays
mod uses; // what a use means
mod counting; // the variables of a block by their types
mod layout; // where the cells of a program lie
mod putting; // an instruction, and what is open
mod cells; // operations on the cells of names
mod actuals; // the actuals of calls
mod calls; // names and calls
mod loops; // for statements
mod flow; // conditions, blocks and procedures
mod emission; // the pass over the nodes
mod passes; // one pass after the other

ghost use Rattle.std.specs.Prelude.{◌≡◌, ◌*◌, length, take, replicate};
ghost use Rattle.emitting.specs.model.Layout.{layout_of};
ghost use Rattle.emitting.specs.model.Emission.{uses_in, place_at, code_of};

use answers::{Address, Declaration};

// Kept: what may not change, code_of holds for any rows, also for those that say another kind.
// What a use means: its kind (0 environment, 1 variable, 2 procedure, 3 formal called by value, 4 formal called by name), and
// the declaration's number or the environment's.
#[derive(Clone, Copy, Default)]
pub struct Named {
    pub kind: usize,
    pub means: usize,
}

impl Named {
    // The kinds that code is written by. Another one is a variable or a formal called by value.
    pub const GIVEN: usize = 0;

    pub const PROCEDURE: usize = 2;

    pub const BY_NAME: usize = 4;

    // The declaration that is meant.
    pub(crate) fn declaration(self) -> Declaration
        ensures { result.number ≡ self.means }
    {
        Declaration { number: self.means }
    }
}

// What is looked up where code is written: the rows of the declarations; the places, marks and values of the symbols; where
// cells lie; the addresses that lie ahead, and those of procedures by their declarations' numbers, as far as they are known.
#[derive(Clone, Copy)]
pub struct Known<'a> {
    pub rows: &'a [u16],
    pub places: &'a [usize],
    pub marks: &'a [u16],
    pub values: &'a [u64],
    pub layout: &'a [u32],
    pub ahead: &'a [u32],
    pub entries: &'a [u32],
}

// What a pass finds: the addresses that lay ahead, by their slots, and those of procedures, by their declarations' numbers.
#[derive(Clone, Copy)]
pub struct Addresses {
    pub ahead: [u32; 8192],
    pub entries: [u32; 2048],
}

// What is known behind some nodes of where cells lie: the type before; the activations around; the cells of the running
// activation's scopes; how many scopes are open; how many declarations and formals there were.
#[derive(Clone, Copy, Default)]
pub struct Laid {
    pub sort: usize,
    pub level: usize,
    pub reach: usize,
    pub open: usize,
    pub declared: usize,
}

// What is known behind some nodes of the code: how many uses were passed; the address of the next instruction; how many
// addresses lie ahead so far; the activations and the for statements of the running one that are around; the variables of
// the block so far; the left parts before; whether a name stands there that a number is taken to; the word of the name that
// was the last node, 0 where it was no such name, and among declarations 1 behind a procedure; how many declarations and
// formals there were; how much is open.
#[derive(Clone, Copy)]
pub struct Writing {
    pub uses: usize,
    pub here: Address,
    pub slots: usize,
    pub level: usize,
    pub loops: usize,
    pub cells: usize,
    pub lefts: usize,
    pub awaits: bool,
    pub variable: usize,
    pub declared: usize,
    pub open: usize,
}

// Kept: what may not change, code_of holds for any nodes: each reads what is open as its own, whatever opened it.
// Something open, or a left part.
#[derive(Clone, Copy, Default)]
pub struct Thing {
    pub first: usize,
    pub second: usize,
    pub third: usize,
    pub fourth: usize,
}

// Kept: what may not change, emit holds any counts beside the words.
// The code of a program, of which the first n words of the nodes, the first u uses, the first d rows, and the places, marks
// and values of the symbols are lent: it fills the words that are lent for it, with zeros behind.
pub fn emit(
    nodes: &[u16; 32768],
    n: usize,
    uses: &[u16; 8192],
    u: usize,
    rows: &[u16; 32768],
    d: usize,
    places: &[usize; 2048],
    marks: &[u16; 2048],
    values: &[u64; 2048],
    code: &mut [u32],
)
    ensures { code.new ≡ code_of (length code.old) (place_at places.now) values.now (layout_of (take (4 * d) rows.now) (take n nodes.now)) (take (4 * d) rows.now) marks.now (take n nodes.now) (uses_in (take (4 * d) rows.now) (take u uses.now)) }
{
    passes::laid_out(
        parts::front(nodes, n),
        parts::front(uses, u),
        parts::front(rows, parts::row_words(d)),
        places,
        marks,
        values,
        code,
    )
}

// No code: all words are zero.
pub fn clear(code: &mut [u32])
    ensures { code.new ≡ replicate (length code.old) 0 }
{
    parts::clear(code)
}
