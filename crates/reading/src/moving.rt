// Request 7: a prelude and a scheme brought together. Their texts stand on one page; the scheme's symbols and nodes stand behind the prelude's.
ghost use Rattle.std.specs.Prelude.{◌≡◌, cond, List, ◌++◌, ℕ, ◌+◌, ◌*◌, ◌<◌, ◌≤◌, length, take, get_or};
ghost use Rattle.grammar.specs.model.Parsing.{zeros};
ghost use Rattle.names.specs.Nodes.{mark as the-mark};
ghost use Rattle.reading.specs.Two.{beyond as the-beyond};
ghost use Rattle.reading.specs.model.Moves.{laid, first_raised, page as the_page, without, first_shifted, Symbols, marked};

use grammar::nodes;

// Lays words over others, from a place on.
// Kept: what may not change, an archive for C that needs no more of the C library than before: `copy_from_slice` asks it for memmove.
fn lay<T: Copy>(words: &mut [T], at: usize, own: &[T])
    requires { at + length own.now ≤ length words.old }
    ensures { words.new ≡ laid words.old at own.now }
{
    for i in 0..own.len() {
        words[at + i] = own[i];
    }
}

// Adds 32,768 to the first places: those of a prelude's symbols.
pub fn beyond(places: &mut [usize], count: usize)
    requires { (count ≤ length places.old) × ((i : ℕ) → i < count → get_or places.old i 0 ≤ 16384) }
    ensures { places.new ≡ first_raised the-beyond count places.old }
{
    for place in &mut places[..count] {
        *place += 32768;
    }
}

// The page of a scheme and a prelude.
pub fn page(words: &mut [u8; 65536], scheme: &[u8], prelude: &[u8])
    requires { (length scheme.now ≤ 16384) × (length prelude.now ≤ 16384) }
    ensures { words.new ≡ the_page scheme.now prelude.now }
{
    words.fill(0);
    lay(words, 0, scheme);
    lay(words, 32768, prelude);
}

// A node's symbol behind m others, where its kind has one.
fn moved(kind: u16, symbol: u16, m: u16) -> u16
    requires { symbol + m < 65536 }
    ensures { result ≡ cond (without kind) symbol (symbol + m) }
{
    match kind {
        nodes::TYPE | nodes::ELSE | nodes::ONCE | nodes::DO => symbol,
        _ => symbol + m,
    }
}

// Adds m to the symbol of each of the first nodes that has one: these are a scheme's behind m symbols.
pub fn shift(nodes: &mut [u16], count: usize, m: u16)
    requires { (4 * count ≤ length nodes.old) × (m ≤ 2048) × Symbols 2048 count nodes.old }
    ensures { nodes.new ≡ first_shifted m (4 * count) nodes.old }
{
    for i in 0..count {
        let k = 4 * i;
        nodes[k + 1] = moved(nodes[k], nodes[k + 1], m);
    }
}

// A scheme's symbols behind a prelude's m: places and values.
pub fn symbols(
    places: &mut [usize; 2048],
    values: &mut [u64; 2048],
    m: usize,
    ownplaces: &[usize],
    ownvalues: &[u64],
)
    requires { (m + length ownplaces.now ≤ 2048) × (length ownvalues.now ≡ length ownplaces.now) }
    ensures places_after { take (m + length ownplaces.now) places.new ≡ take m places.old ++ ownplaces.now }
    ensures values_after { take (m + length ownplaces.now) values.new ≡ take m values.old ++ ownvalues.now }
{
    lay(places, m, ownplaces);
    lay(values, m, ownvalues);
}

// A mark: a node without operands.
fn mark(out: &mut [u16], at: usize, kind: u16, symbol: u16)
    requires { at + 4 ≤ length out.old }
    ensures { out.new ≡ laid out.old at (the-mark kind symbol) }
{
    lay(out, at, &[kind, symbol, 0, 0]);
}

// A prelude's nodes and a scheme's in the marks of one block; without a prelude's the scheme's alone. Gives how many words these are.
pub fn around(out: &mut [u16], prelude: &[u16], own: &[u16], symbol: u16) -> usize
    requires { length prelude.now + length own.now + 12 ≤ length out.old }
    ensures out_after { take result out.new ≡ marked symbol prelude.now own.now }
    ensures value { result ≡ length (marked symbol prelude.now own.now) }
{
    let p = prelude.len();
    let n = own.len();
    if p == 0 {
        lay(out, 0, own);
        return n;
    }
    mark(out, 0, nodes::BLOCK, symbol);
    lay(out, 4, prelude);
    mark(out, p + 4, nodes::STATEMENTS, symbol);
    lay(out, p + 8, own);
    mark(out, p + n + 8, nodes::BLOCK_END, symbol);
    p + n + 12
}
