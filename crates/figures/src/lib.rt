// A real as people write it: the fewest digits, at most 17, that give the same 64-bit real back.
#![tactic(auto)]

mod digits; // whole numbers of any size, as arrays of their digits
mod fewest; // the digits and the power of ten of a real
pub mod writing; // the bytes
