// The machine: it runs code words, any words at all, and stops by itself at its limit. docs/MACHINE.md has its instructions, and specs/ what
// they do.
#![tactic(auto)]

ghost use Rattle.std.specs.Prelude.{◌≤◌};
ghost use Rattle.machine.specs.Limits.{most_links};

use answers::{Answer, Stop};

mod activations;
mod blocks;
pub mod bounds; // the limits of a run
mod cells;
pub mod codes; // the numbers of the operations
mod control;
mod loops;
pub mod operands; // the parts of an operand
mod operations;
mod ports;
mod quick;
mod steps;
mod values;
mod ways;

pub use steps::run;

// How many cells are in use and how many are held, and how many numbers were taken and written.
#[derive(Clone, Copy)]
pub struct Counts {
    pub cells: usize,
    pub held: usize,
    pub taken: usize,
    pub written: usize,
}

// A variable's cell, and how many name formals are on the way to it.
#[derive(Clone, Copy)]
pub struct Way {
    pub cell: usize,
    pub links: usize,
    ghost few: { links ≤ most_links },
}

// A channel's number: 1, another one, or no whole number.
#[derive(Clone, Copy)]
pub enum Line {
    One,
    Other,
    Not,
}

// Why nothing came of a value or of an operation on the data: a fault and its place; or no value or no such cell was found, or a value of another
// type than is taken there.
#[derive(Clone, Copy)]
pub enum Trouble {
    Fault(Answer, usize),
    Stray,
}

// What an instruction came to: the next counter, the live activations and the counts; or a stop: the end, a fault and its place, or 29 at
// the counter.
#[derive(Clone, Copy)]
pub enum Outcome {
    Goes(u32, usize, Counts),
    Ends,
    Faults(Answer, usize),
    Strays(u32),
}

// What a run answers.
#[derive(Clone, Copy)]
pub struct Ran {
    pub stop: Stop,
    pub done: u64,
    pub taken: usize,
    pub written: usize,
}
