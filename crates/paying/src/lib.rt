// The commands of the tool that run a program.
#![tactic(auto)]

pub mod run; // deed run
