// The translation of a program to code.
#![tactic(auto)]

pub mod translating; // the job
pub mod schemes; // the job with a prelude
