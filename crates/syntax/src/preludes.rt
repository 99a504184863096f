// Preludes: procedure declarations, each ended by `;`. Two readers call each other, with remaining symbols falling.
ghost use Rattle.std.specs.Prelude.{◌≡◌, [], ◌∷◌, length, ◌≤◌};
ghost use Rattle.symbols.specs.declared.Symbol.TheVariants.{Semicolon};
ghost use Rattle.grammar.specs.Grammar.{part, the, procedure as a_procedure, prelude as a_prelude};
ghost use Rattle.grammar.specs.model.Text.{text};
ghost use Rattle.grammar.specs.model.Parsing.{node_words_lem};
ghost use Rattle.syntax.specs.model.Says.{Room, Tells};
ghost use Rattle.syntax.specs.model.Preludes.{PreludeSays};

use crate::headings::type_symbol;
use crate::statements::procedure;
use crate::text::{expect, peek};
use crate::writing::{put, settle};
use grammar::{Parsed, Read, nodes};
use symbols::{Symbol, kinds};

// A prelude, which ends where no procedure begins; it is at depth 0, so that its bodies are at 1.
#[cycle(prelude_procedures)]
pub fn prelude(kinds: &[u8], pos: usize, nodes: &mut [u16], free: usize) -> Parsed
    requires { Room (text kinds.now) nodes.old pos free }
    ensures { Tells (text kinds.now) nodes.old nodes.new 0 (part a_prelude ∷ []) pos free result }
{
    match peek(kinds, pos) {
        Symbol::Procedure => {
            let untyped = put(nodes, free, nodes::TYPE, 0, 0, 0);
            procedures(kinds, pos + 1, nodes, untyped)
        }
        Symbol::Integer | Symbol::Boolean | Symbol::Real => {
            let Read { next, used } = type_symbol(kinds, pos, nodes, free)?;
            let next = expect(kinds, next, kinds::PROCEDURE)?;
            procedures(kinds, next, nodes, used)
        }
        _ => Ok(Read {
            next: pos,
            used: free,
        }),
    }
}

// What stands behind a 'procedure': its heading and body, `;` and the further ones.
#[cycle(prelude_procedures)]
fn procedures(kinds: &[u8], pos: usize, nodes: &mut [u16], free: usize) -> Parsed
    requires { Room (text kinds.now) nodes.old pos free }
    ensures { Tells (text kinds.now) nodes.old nodes.new 0 (part a_procedure ∷ the Semicolon ∷ part a_prelude ∷ []) pos free result }
{
    let Read { next, used } = procedure(kinds, pos, 0, nodes, free)?;
    let next = expect(kinds, next, kinds::SEMICOLON)?;
    prelude(kinds, next, nodes, used)
}

// All symbols as a prelude.
pub fn all(kinds: &[u8], nodes: &mut [u16]) -> Parsed
    requires { (length kinds.now ≤ 2048) × (length nodes.old ≡ node_words_lem) }
    ensures { PreludeSays (text kinds.now) nodes.new result }
{
    let one = prelude(kinds, 0, nodes, 0);
    settle(one, kinds.len(), nodes)
}
