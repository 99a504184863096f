// What the tool shows: lines and columns, sentences for answers, names and levels, instructions.
#![tactic(auto)]

pub mod system; // files, arguments, and what is written to
pub mod taken; // what is written, and whether it was taken
pub mod characters; // characters of UTF-8
pub mod text; // lines, columns, printing
pub mod words; // sentences for answers
pub mod uses; // what each name means
pub mod levels; // the scopes
pub mod code; // instructions
