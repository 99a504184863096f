// Paper 01, "Names and types": which declaration each name means, and the faults that names have.
#![tactic(auto)]

ghost use Rattle.std.specs.Prelude.{◌≡◌};
ghost use Rattle.names.specs.Words.{node_of_words, row_of_words};

use answers::{Declaration, Environment, Ordinal};

pub mod faults; // the least fault
pub mod meanings; // what a name means as one number
mod identity; // when two symbols are the same name
mod modes; // the last word of a row
mod rows; // rows of four words
mod scopes; // the scopes that are open
mod outline; // declarations and formals; 7 and 9
mod uses; // what each use means; 8
pub mod passes; // the passes, for any words

pub use modes::{mode, sort};
pub use rows::row as row_at;
pub use uses::is_use;

// A node: its kind, its symbol, and its two operands.
// Kept: what may not change, `passes::outline` and `passes::resolve` hold it: of any words, a kind that no node has is a node without meaning.
#[derive(Clone, Copy)]
pub struct Node {
    pub kind: u16,
    pub symbol: Ordinal,
    pub one: u16,
    pub two: u16,
}

impl From<[u16; 4]> for Node {
    ghost from_gives = { λ words n. n ≡ node_of_words words };

    fn from(words: [u16; 4]) -> Node {
        let [kind, symbol, one, two] = words;
        Node {
            kind,
            symbol: Ordinal { number: symbol },
            one,
            two,
        }
    }
}

// A row: of a declaration or formal its kind, its name's symbol, the number of its scope, and its type with how a formal is called.
#[derive(Clone, Copy)]
pub struct Row {
    pub kind: u16,
    pub symbol: Ordinal,
    pub scope: u16,
    pub sort: u16,
}

impl From<[u16; 4]> for Row {
    ghost from_gives = { λ words r. r ≡ row_of_words words };

    fn from(words: [u16; 4]) -> Row {
        let [kind, symbol, scope, sort] = words;
        Row {
            kind,
            symbol: Ordinal { number: symbol },
            scope,
            sort,
        }
    }
}

// Kept: no plainer, the kinds looked for are a range of node kinds, as numbers are.
// What is looked for among rows: kinds from low to high, in a scope, with an identity.
#[derive(Clone, Copy)]
pub struct Sought {
    pub low: u16,
    pub high: u16,
    pub scope: u16,
    pub id: u16,
}

// What a name means: a declaration or formal, something of the environment, or nothing.
// Kept: no plainer, three ways of one kind, which paper and table list side by side; an `Option` would be two layers.
#[derive(Clone, Copy)]
pub enum Meant {
    Declared(Declaration),
    Given(Environment),
    Nothing,
}

// The scopes that are open, and how many were opened.
#[derive(Clone, Copy)]
pub struct Open {
    pub depth: usize,
    pub scopes: u16,
}

// What is known of the declarations behind some nodes: how many declarations and formals there are; the open scopes; the
// type read last; the procedure whose heading was read last; the least fault.
#[derive(Clone, Copy)]
pub struct Declaring {
    pub rows: usize,
    pub around: Open,
    pub sort: u16,
    pub heading: Ordinal,
    pub least: usize,
}

// What a pass left: how many rows or uses, and the least fault.
#[derive(Clone, Copy)]
pub struct Passed {
    pub count: usize,
    pub least: usize,
}

// What is known of the uses behind some nodes: how many there are, the open scopes, the least fault.
#[derive(Clone, Copy)]
pub struct Using {
    pub count: usize,
    pub around: Open,
    pub least: usize,
}
