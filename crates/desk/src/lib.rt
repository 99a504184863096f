// What the commands of the tool share: what comes in, what goes out, and how it ended.
#![tactic(auto)]

pub mod files; // files and arguments, brought in whole or not at all
pub mod given; // the numbers that a run is given
pub mod outputs; // what a run wrote
pub mod misuse; // what is said of a command that asks wrongly
pub mod status; // how it ended, for a script
