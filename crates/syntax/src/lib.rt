// Paper 01, "Symbols to program".
#![tactic(auto)]

ghost use Rattle.std.specs.Prelude.{◌≡◌, length, take, ◌≤◌};
ghost use Rattle.grammar.specs.model.Text.{text};
ghost use Rattle.grammar.specs.model.Parsing.{node_words_lem, ParseSays};
ghost use Rattle.syntax.specs.model.Preludes.{PreludeSays};

use grammar::Parsed;

mod clauses; // what begins with a name, and for clauses
mod expressions; // expressions
mod faults; // what readers find wrong
mod headings; // types, lists of names, procedure headings
mod limits; // what is said where something too deep would begin
mod operators; // operators by their level
mod preludes; // preludes
mod statements; // statements, blocks and declarations
mod text; // the symbols
mod writing; // the words of the nodes

// Reads the first count symbols, of which the kinds are lent, as a program; there are at most 2,048. The nodes of a program that is
// accepted stand in the first words, and all other words are zero.
pub fn parse(kinds: &[u8; 2048], count: usize, nodes: &mut [u16; 32768]) -> Parsed
    ensures { ParseSays (text (take count kinds.now)) nodes.new result }
{
    program(text::first(kinds, count), nodes)
}

// Reads the first count symbols as a prelude; the nodes of one that is accepted stand in the first words, and all other words are zero.
pub fn parse_prelude(kinds: &[u8; 2048], count: usize, nodes: &mut [u16; 32768]) -> Parsed
    ensures { PreludeSays (text (take count kinds.now)) nodes.new result }
{
    preludes::all(text::first(kinds, count), nodes)
}

// All symbols as a program.
fn program(kinds: &[u8], nodes: &mut [u16]) -> Parsed
    requires { (length kinds.now ≤ 2048) × (length nodes.old ≡ node_words_lem) }
    ensures { ParseSays (text kinds.now) nodes.new result }
{
    let one = statements::block(kinds, 0, 1, nodes, 0);
    writing::settle(one, kinds.len(), nodes)
}
