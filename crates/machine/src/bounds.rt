// The limits of a run, as paper 01 has them: specs/Limits.

// Code words that are read, two an instruction.
pub const WORDS: usize = 16384;

// Cells that are used.
pub const CELLS: usize = 8192;

// Numbers of the store that a cell takes.
pub const CELL_NUMBERS: usize = 2;

// Numbers of an output entry.
pub const ENTRY_NUMBERS: usize = 3;

// Activations that are live, besides the program.
pub const LIVE: usize = 256;
