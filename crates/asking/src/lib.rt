// What a command line asks: the numbers and words that people type, with what each function gives back.
#![tactic(auto)]

pub mod numerals; // numbers as digits
pub mod words; // a line of words
pub mod sorts; // sorts of words
pub mod options; // options, and the words that are none
pub mod table; // the commands
pub mod sizes; // how large a run may be
pub mod lists; // the numbers of a list that somebody sent
