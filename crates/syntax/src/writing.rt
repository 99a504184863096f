// The words of the nodes are written here, and set to zero.
ghost use Rattle.std.specs.Prelude.{length, MatchResult, ◌+◌, ◌≤◌, ◌<◌, ◌≡◌};
ghost use Rattle.syntax.specs.model.Says.{Put, Clear, Settles, Refuses};

use crate::faults::wrong;
use grammar::{Parsed, Read};

// Writes the words of a node, as one array: `copy_from_slice` would put them in memory first, and the processor wait for them there.
fn put_words(node: &mut [u16], words: [u16; 4])
    requires { length node.old ≡ 4 }
    ensures { node.new ≡ words }
{
    if let Some(all) = node.as_mut_array() {
        *all = words;
    }
}

// Writes a node behind the words used, and gives the words used then.
pub fn put(nodes: &mut [u16], used: usize, kind: u16, symbol: usize, one: u16, two: u16) -> usize
    requires { (used + 4 ≤ length nodes.old) × (symbol < 65536) }
    ensures { Put nodes.old nodes.new used result kind symbol one two }
{
    let end = used + 4;
    put_words(&mut nodes[used..end], [kind, symbol as u16, one, two]);
    end
}

// Reads one symbol, and writes a node for it.
pub fn leaf(nodes: &mut [u16], used: usize, pos: usize, kind: u16, symbol: usize, one: u16) -> Read
    requires { (used + 4 ≤ length nodes.old) × (symbol < 65536) × (pos < 65536) }
    ensures { Put nodes.old nodes.new used result.used kind symbol one 0 × (result.next ≡ pos + 1) }
{
    let end = put(nodes, used, kind, symbol, one, 0);
    Read {
        next: pos + 1,
        used: end,
    }
}

// Sets the words from a place on to zero.
pub fn clear(nodes: &mut [u16], from: usize)
    ensures { Clear nodes.old nodes.new from }
{
    if from < nodes.len() {
        nodes[from..].fill(0);
    }
}

// What a reader has read must be all symbols, of which there are count. Behind the nodes of what is accepted all words are zero.
pub fn settle(one: Parsed, count: usize, nodes: &mut [u16]) -> Parsed
    ensures { MatchResult one (λ g. Settles g count nodes.old nodes.new result) (λ f. Refuses f nodes.old nodes.new result) }
{
    match one {
        Ok(read) if read.next == count => {
            clear(nodes, read.used);
            Ok(read)
        }
        Ok(read) => {
            clear(nodes, 0);
            Err(wrong(read.next))
        }
        Err(fault) => {
            clear(nodes, 0);
            Err(fault)
        }
    }
}
