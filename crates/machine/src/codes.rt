// The numbers of the operations, as docs/MACHINE.md lays them down: `o_end` .. of specs/Operations.
// Kept: C interface, the words of the code have these numbers (bindings/words.h), and a run takes any words at all.

// An instruction's first word is its operation + 64 · its place.
pub const BASE: u32 = 64;

// No instruction.
pub const NONE: u32 = 0;

// The run, jumps, blocks.
pub const END: u32 = 1;

pub const JUMP: u32 = 2;

pub const ENTER: u32 = 3;

pub const LEAVE: u32 = 4;

// Calls: with a result that is needed, and any other.
pub const CALL_NEEDED: u32 = 5;

pub const CALL: u32 = 6;

pub const RETURN: u32 = 7;

// Loops: to a body and from it, a condition, the test of a step element.
pub const GO: u32 = 8;

pub const NEXT: u32 = 9;

pub const UNLESS: u32 = 10;

pub const TEST: u32 = 11;

// Values and variables.
pub const CONST: u32 = 12;

pub const LOAD: u32 = 13;

pub const STORE: u32 = 14;

pub const ASSIGN: u32 = 15;

pub const RESULT: u32 = 16;

pub const DROP: u32 = 17;

// Ininteger, outinteger.
pub const IN: u32 = 18;

pub const OUT: u32 = 19;

// A step held; a new one and a variable added.
pub const HOLD: u32 = 20;

pub const SUM: u32 = 21;

// The sign -, 'not' and iabs.
pub const MINUS: u32 = 22;

pub const NOT: u32 = 23;

pub const IABS: u32 = 24;

// + - * %.
pub const PLUS: u32 = 25;

pub const LESS: u32 = 26;

pub const TIMES: u32 = 27;

pub const OVER: u32 = 28;

// < <= = >= > #.
pub const BELOW: u32 = 29;

pub const AT_MOST: u32 = 30;

pub const EQUAL: u32 = 31;

pub const AT_LEAST: u32 = 32;

pub const ABOVE: u32 = 33;

pub const UNEQUAL: u32 = 34;

// 'and' 'or' 'impl' 'equiv'.
pub const AND: u32 = 35;

pub const OR: u32 = 36;

pub const IMPL: u32 = 37;

pub const EQUIV: u32 = 38;

// Formals called by name: the cell, an actual worked out for a read, for a store and for a store passed on, the cell found, no variable.
pub const NAME: u32 = 39;

pub const WORK: u32 = 40;

pub const SEEK: u32 = 41;

pub const PASS: u32 = 42;

pub const LEND: u32 = 43;

pub const REFUSE: u32 = 44;

// The channel of an ininteger tested.
pub const CHANNEL: u32 = 45;

// The operator /; outreal; a logical value; the upper half of a real constant; a value becomes one of a type.
pub const DIVIDE: u32 = 46;

pub const OUTREAL: u32 = 47;

pub const LOGICAL: u32 = 48;

pub const HIGH: u32 = 49;

pub const AS: u32 = 50;

// No operation from here on.
pub const BEHIND: u32 = 51;
