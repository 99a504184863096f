// The table of an accepted source: its format (specs/Table), its writer and its reader.

#![tactic(auto)]

pub mod writing; // a program's arrays as a table
pub mod sections; // a table's words, and where its sections begin
