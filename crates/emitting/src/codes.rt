// The operations' numbers, as the machine has them.
use answers::Place;
use machine::codes;

// Kept: no plainer, an instruction's word is the number itself.
// The run, jumps, blocks.
pub const END: usize = codes::END as usize;

pub const JUMP: usize = codes::JUMP as usize;

pub const ENTER: usize = codes::ENTER as usize;

pub const LEAVE: usize = codes::LEAVE as usize;

// Calls: with a result that is needed; the next number is any other.
pub const CALL_NEEDED: usize = codes::CALL_NEEDED as usize;

pub const RETURN: usize = codes::RETURN as usize;

// Loops: to a body and from it, a condition, the test of a step element.
pub const GO: usize = codes::GO as usize;

pub const NEXT: usize = codes::NEXT as usize;

pub const UNLESS: usize = codes::UNLESS as usize;

pub const TEST: usize = codes::TEST as usize;

// Values and variables.
pub const CONST: usize = codes::CONST as usize;

pub const LOAD: usize = codes::LOAD as usize;

pub const STORE: usize = codes::STORE as usize;

pub const ASSIGN: usize = codes::ASSIGN as usize;

pub const RESULT: usize = codes::RESULT as usize;

pub const DROP: usize = codes::DROP as usize;

// Ininteger, outinteger.
pub const IN: usize = codes::IN as usize;

pub const OUT: usize = codes::OUT as usize;

// Step and bound held; the step added.
pub const HOLD: usize = codes::HOLD as usize;

pub const SUM: usize = codes::SUM as usize;

// The sign -, 'not' and iabs.
pub const MINUS: usize = codes::MINUS as usize;

pub const NOT: usize = codes::NOT as usize;

pub const IABS: usize = codes::IABS as usize;

// Formals called by name: an actual's code, its work for a read, for a store and for a store that passes on, what it stores to.
pub const NAME: usize = codes::NAME as usize;

pub const WORK: usize = codes::WORK as usize;

pub const SEEK: usize = codes::SEEK as usize;

pub const PASS: usize = codes::PASS as usize;

pub const LEND: usize = codes::LEND as usize;

pub const REFUSE: usize = codes::REFUSE as usize;

// Ininteger to a cell that is sought: its channel; the step added to one.
pub const CHANNEL: usize = codes::CHANNEL as usize;

// Outreal; a logical value; the upper half of a real constant; a value becomes one of a type.
pub const OUTREAL: usize = codes::OUTREAL as usize;

pub const LOGICAL: usize = codes::LOGICAL as usize;

pub const HIGH: usize = codes::HIGH as usize;

pub const AS: usize = codes::AS as usize;

// The place of an instruction that has none.
pub const NOWHERE: Place = Place { at: 0 };
