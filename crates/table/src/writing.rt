// The table: uses, declarations and nodes, each after its count.
ghost use Rattle.std.specs.Prelude.{◌≡◌, List, [], ◌∷◌, ℕ, ◌+◌, ◌-◌, ◌≤◌, ◌<◌, length, get_or, cond};
ghost use Rattle.names.specs.model.Rows.{is_use, meant_of};
ghost use Rattle.table.specs.Table.{has_none, declaration_words, node_words};
ghost use Rattle.table.specs.model.Writing.{Wrote, Enters, Writes, among, place_of, meant_words, use_model, table_model, table_behind, fourth_kind, fourths as the-fourths};

use answers::Ordinal;
use grammar::nodes;
use names::meanings::{NOTHING, meant};
use names::{Meant, Node, Row, is_use};

// The place of a symbol in 16 bits, as the table holds it; 0 behind the last one.
fn place_word(places: &[usize; 2048], symbol: Ordinal) -> u16
    ensures { result ≡ place_of places.now symbol.number }
{
    let place = places.get(symbol.number as usize).copied().unwrap_or(0);
    (place % 65536) as u16
}

// A word of some, 0 behind them.
fn word_at(words: &[u16], at: usize) -> u16
    ensures { result ≡ get_or words.now at 0 }
{
    words.get(at).copied().unwrap_or(0)
}

// Writes words over a part that is as long, as one array: `copy_from_slice` would put them in memory first, and the processor wait for
// them there.
fn put_words<const N: usize>(part: &mut [u16], words: [u16; N])
    requires { length part.old ≡ N }
    ensures { part.new ≡ words.entry }
{
    if let Some(all) = part.as_mut_array() {
        *all = words;
    }
}

// Writes words from a place on.
fn put<const N: usize>(table: &mut [u16], at: usize, words: [u16; N])
    requires { at + N ≤ length table.old }
    ensures { Wrote table.old table.new at words.entry }
{
    put_words(&mut table[at..at + N], words);
}

// A kind of a declaration in the table.
fn kind_number(kind: u16) -> u16
    ensures { result ≡ kind - 4 }
{
    kind.saturating_sub(4)
}

// A use: its place, its kind, and the place of the declaring name or the environment number.
fn put_use(
    table: &mut [u16],
    at: usize,
    symbol: Ordinal,
    word: u16,
    rows: &[u16],
    places: &[usize; 2048],
)
    requires { at + 3 ≤ length table.old }
    ensures { Wrote table.old table.new at (meant_words (place_of places.now) rows.now symbol.number (meant_of word)) }
{
    let p = place_word(places, symbol);
    match meant(word) {
        Meant::Declared(d) => {
            let r = 4 * d.number;
            let kind = kind_number(word_at(rows, r));
            let symbol = word_at(rows, r + 1);
            let declared = place_word(places, Ordinal { number: symbol });
            put(table, at, [p, kind, declared])
        }
        Meant::Given(e) => put(table, at, [p, 0, e.number]),
        Meant::Nothing => put(table, at, [p, 0, 0]),
    }
}

// The meaning of use u; nothing where there is none.
fn use_at(uses: &[u16], u: usize) -> u16
    ensures { result ≡ get_or uses.now u 8197 }
{
    uses.get(u).copied().unwrap_or(NOTHING)
}

// The uses among the nodes, from a place on; gives the place behind them.
fn put_uses(
    table: &mut [u16],
    from: usize,
    nodes: &[u16],
    uses: &[u16],
    rows: &[u16],
    places: &[usize; 2048],
) -> usize
    requires { from + length (use_model (place_of places.now) rows.now nodes.now uses.now) ≤ length table.old }
    ensures wrote { Wrote table.old table.new from (use_model (place_of places.now) rows.now nodes.now uses.now) }
    ensures value { result ≡ from + length (use_model (place_of places.now) rows.now nodes.now uses.now) }
{
    // Kept: no plainer, both are cursors, which move on only where a use stands.
    let mut at = from;
    let mut u = 0;
    for &words in nodes.as_chunks::<4>().0 {
        let n = Node::from(words);
        if is_use(n.kind) {
            put_use(table, at, n.symbol, use_at(uses, u), rows, places);
            at += 3;
            u += 1;
        }
    }
    at
}

// The declarations, from a place on; gives the place behind them.
fn put_declarations(table: &mut [u16], from: usize, rows: &[u16], places: &[usize; 2048]) -> usize
    requires { from + length (declaration_words (place_of places.now) rows.now) ≤ length table.old }
    ensures wrote { Wrote table.old table.new from (declaration_words (place_of places.now) rows.now) }
    ensures value { result ≡ from + length (declaration_words (place_of places.now) rows.now) }
{
    let mut at = from;
    for &words in rows.as_chunks::<4>().0 {
        let r = Row::from(words);
        let place = place_word(places, r.symbol);
        let kind = kind_number(r.kind);
        put(table, at, [place, kind, r.scope, r.sort]);
        at += 4;
    }
    at
}

// The second word of a node: its symbol's place, where it has one.
fn node_place(kind: u16, symbol: Ordinal, places: &[usize; 2048]) -> u16
    ensures { result ≡ cond (has_none (place_of places.now) kind) 0 (place_of places.now symbol.number) }
{
    match kind {
        nodes::TYPE | nodes::ELSE | nodes::ONCE | nodes::DO => 0,
        _ => place_word(places, symbol),
    }
}

// The nodes, from a place on; gives the place behind them.
fn put_nodes(table: &mut [u16], from: usize, nodes: &[u16], places: &[usize; 2048]) -> usize
    requires { from + length (node_words (place_of places.now) nodes.now) ≤ length table.old }
    ensures wrote { Wrote table.old table.new from (node_words (place_of places.now) nodes.now) }
    ensures value { result ≡ from + length (node_words (place_of places.now) nodes.now) }
{
    let mut at = from;
    for &words in nodes.as_chunks::<4>().0 {
        let n = Node::from(words);
        let place = node_place(n.kind, n.symbol, places);
        put(table, at, [n.kind, place, n.one, n.two]);
        at += 4;
    }
    at
}

// The three sections, each after its count. The rows of `own` are listed; those of `rows` tell what a use means.
fn put_all(
    table: &mut [u16],
    nodes: &[u16],
    uses: &[u16],
    rows: &[u16],
    own: &[u16],
    places: &[usize; 2048],
)
    requires { (length (table_behind (place_of places.now) rows.now own.now nodes.now uses.now) ≤ length table.old) × (length nodes.now ≤ 32768) × (length own.now ≤ 32768) × (length uses.now ≤ 8192) }
    ensures { Wrote table.old table.new 0 (table_behind (place_of places.now) rows.now own.now nodes.now uses.now) }
{
    put(table, 0, [uses.len() as u16]);
    let a = put_uses(table, 1, nodes, uses, rows, places);
    put(table, a, [(own.len() / 4) as u16]);
    let b = put_declarations(table, a + 1, own, places);
    put(table, b, [(nodes.len() / 4) as u16]);
    put_nodes(table, b + 1, nodes, places);
}

// How many nodes are of a use.
fn uses_among(nodes: &[u16]) -> usize
    requires { length nodes.now ≤ 32768 }
    ensures value { result ≡ among is_use nodes.now }
    ensures upper_bound { result ≤ 8192 }
{
    nodes
        .as_chunks::<4>()
        .0
        .iter()
        .filter(|node| is_use(node[0]))
        .count()
}

// How many words the table of some arrays has.
fn needed(nodes: &[u16], own: &[u16]) -> usize
    requires { (length nodes.now ≤ 32768) × (length own.now ≤ 32768) }
    ensures { (place : ℕ → ℕ) (rows uses : List ℕ) → result ≡ length (table_behind place rows own.now nodes.now uses) }
{
    3 + 3 * uses_among(nodes) + 4 * (own.len() / 4) + 4 * (nodes.len() / 4)
}

// The table of some arrays, written over the front of the one that is lent; where they are longer than a front end's, or the
// table is too short for them, nothing is written. Says whether it was. The rows of `own` are listed; those of `rows`, which are
// more where a program stands behind a prelude, tell what a use means.
pub fn write_behind(
    table: &mut [u16],
    nodes: &[u16],
    uses: &[u16],
    rows: &[u16],
    own: &[u16],
    places: &[usize; 2048],
) -> bool
    ensures { Writes (Enters nodes.now uses.now own.now table.old (table_behind (place_of places.now) rows.now own.now nodes.now uses.now)) table.old table.new (table_behind (place_of places.now) rows.now own.now nodes.now uses.now) result }
{
    if 32768 < nodes.len() {
        return false;
    }
    if 32768 < own.len() {
        return false;
    }
    if 8192 < uses.len() {
        return false;
    }
    if table.len() < needed(nodes, own) {
        return false;
    }
    put_all(table, nodes, uses, rows, own, places);
    true
}

// The table of a program by itself.
pub fn write(
    table: &mut [u16],
    nodes: &[u16],
    uses: &[u16],
    rows: &[u16],
    places: &[usize; 2048],
) -> bool
    ensures { Writes (Enters nodes.now uses.now rows.now table.old (table_model (place_of places.now) rows.now nodes.now uses.now)) table.old table.new (table_model (place_of places.now) rows.now nodes.now uses.now) result }
{
    write_behind(table, nodes, uses, rows, rows, places)
}

// The kind of a use that means a name at a place: 4 for one of a prelude's.
fn fourth_kind(kind: u16, place: u16) -> u16
    ensures { result ≡ fourth_kind kind place }
{
    if kind == 0 {
        return 0;
    }
    if place < 32768 { kind } else { 4 }
}

// Of uses, three words each: those that mean a name of a prelude, whose places are from 32,768 on, get kind 4.
pub fn fourths(words: &mut [u16])
    ensures { words.new ≡ the-fourths words.old }
{
    for i in 0..words.len() / 3 {
        words[3 * i + 1] = fourth_kind(words[3 * i + 1], words[3 * i + 2]);
    }
}
