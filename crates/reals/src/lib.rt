// Values that carry their type: logical values, whole numbers of 32 bits and reals of 64. The operators on them, the
// conversions, and the two numbers of the store that a cell is kept in.
#![tactic(auto)]

use answers::Answer;

pub mod conversions; // a value as one of another type
pub mod decimals; // numbers with a point
pub mod entries; // what goes to the output
pub mod loops; // the test of a step element
mod numbers;
pub mod operators;
mod rounding;
pub mod stored; // the two numbers of a cell
pub mod words; // bits as numbers

// The type of a value, or of a cell.
#[derive(Clone, Copy)]
pub enum Form {
    Truths,
    Wholes,
    Reals,
}

#[derive(Clone, Copy)]
pub enum Value {
    Truth(bool),
    Whole(i32),
    Real(f64),
}

// What an operator gives: a value, its fault, or that a value was of another type than it takes.
#[derive(Clone, Copy)]
pub enum Outcome {
    Is(Value),
    Fault(Answer),
    Stray,
}

// Two values as an operator takes them: a whole number beside a real has become one.
#[derive(Clone, Copy)]
pub enum Both {
    Truths(bool, bool),
    Wholes(i32, i32),
    Reals(f64, f64),
    Neither,
}

// The operators on one value: the sign -, 'not' and iabs.
#[derive(Clone, Copy)]
pub enum Unary {
    Minus,
    Negation,
    Absolute,
}

// The operators on two values, in the order of the paper's signs and words.
#[derive(Clone, Copy)]
pub enum Binary {
    Plus,
    Less,
    Times,
    Over,
    Divide,
    Below,
    AtMost,
    Equal,
    AtLeast,
    Above,
    Unequal,
    And,
    Or,
    Impl,
    Equiv,
}

// What a cell holds: nothing yet, but it has its type; a value; or where the code of a name formal's actual is.
#[derive(Clone, Copy)]
pub enum Cell {
    Unset(Form),
    Holds(Value),
    Named(u32),
}

// The two numbers of the store that a cell is kept in.
#[derive(Clone, Copy)]
pub struct Two {
    pub kind: i64,
    pub load: i64,
}

// An output entry.
#[derive(Clone, Copy)]
pub struct Entry {
    pub first: i32,
    pub second: i32,
    pub third: i32,
}

// The two halves of a real's bits.
#[derive(Clone, Copy)]
pub struct Halves {
    pub low: u32,
    pub high: u32,
}
