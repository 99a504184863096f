// Request 7: a prelude by itself.
ghost use Rattle.std.specs.Prelude.{◌≡◌, List, ℕ, take};
ghost use Rattle.reading.specs.Judging.{kinds_in};
ghost use Rattle.reading.specs.Two.{symbols};
ghost use Rattle.reading.specs.model.Preluding.{SymbolsIn, PreludeNodes, PreludeTold, PreludeFound};

use crate::Sizes;
use crate::finding::{passed, place_at};
use crate::moving::around;
use answers::{Answer, Ordinal, Refusal};
use grammar::{Fault, Read};
use names::passes::{first_rows, front};
use symbols::scanning::scan;
use syntax::parse_prelude;

// The first uses.
fn first_uses(uses: &[u16; 8192], count: usize) -> &[u16]
    ensures { result.now ≡ take count uses.now }
{
    front(uses, count)
}

// The nodes of a prelude, in the marks of a block around nothing: 7 to 10, or it is without a fault, and its rows and uses are counted.
fn checked(
    prelude: &[u8],
    places: &[usize; 2048],
    count: usize,
    nodes: &[u16; 32768],
    words: usize,
) -> Result<Sizes, Refusal>
    requires { (values : List ℕ) × PreludeNodes prelude.now places.now values nodes.now count words }
    ensures { (values : List ℕ) → PreludeNodes prelude.now places.now values nodes.now count words → PreludeTold prelude.now places.now values nodes.now result }
{
    let mut block = [0u16; 32768];
    let mut rows = [0u16; 32768];
    let mut uses = [0u16; 8192];
    let mut marks = [0u16; 2048];
    let all = around(&mut block, &nodes[..words], &[], 0);
    let z = passed(
        prelude,
        prelude.len(),
        places,
        count,
        &block,
        all,
        &mut rows,
        &mut uses,
        &mut marks,
    )?;
    Ok(Sizes {
        symbols: count,
        nodes: words,
        rows: first_rows(&rows, z.rows).len() / 4,
        uses: first_uses(&uses, z.uses).len(),
    })
}

// The symbols of a prelude: 5 or 6, or on.
fn parsed(
    prelude: &[u8],
    kinds: &[u8; 2048],
    places: &[usize; 2048],
    count: usize,
    nodes: &mut [u16; 32768],
) -> Result<Sizes, Refusal>
    requires { ((values : List ℕ) × SymbolsIn symbols prelude.now places.now values count) × (take count kinds.now ≡ kinds_in symbols prelude.now) }
    ensures { (values : List ℕ) → SymbolsIn symbols prelude.now places.now values count → PreludeTold prelude.now places.now values nodes.new result }
{
    match parse_prelude(kinds, count, nodes) {
        Ok(Read { next: _, used }) => checked(prelude, places, count, nodes, used),
        Err(Fault { answer, at }) => {
            let symbol = Ordinal { number: at as u16 };
            let place = place_at(prelude.len(), places, count, symbol);
            Err(Refusal::new(answer, place.at))
        }
    }
}

// A prelude, for any bytes, before 32,768 is added.
fn told(
    prelude: &[u8],
    places: &mut [usize; 2048],
    values: &mut [u64; 2048],
    nodes: &mut [u16; 32768],
) -> Result<Sizes, Refusal>
    ensures { PreludeTold prelude.now places.new values.new nodes.new result }
{
    let mut kinds = [0u8; 2048];
    if 16384 < prelude.len() {
        return Err(Refusal::new(Answer::LONG, 16384));
    }
    match scan(prelude, 1024, &mut kinds, places, values) {
        Ok(n) => parsed(prelude, &kinds, places, n, nodes),
        Err(r) => Err(r),
    }
}

// A prelude, for any bytes: 2 to 10 with 32,768 added, or its symbols and nodes, and how many rows and uses it has.
pub fn find_prelude(
    prelude: &[u8],
    places: &mut [usize; 2048],
    values: &mut [u64; 2048],
    nodes: &mut [u16; 32768],
) -> Result<Sizes, Refusal>
    ensures { PreludeFound prelude.now places.new values.new nodes.new result }
{
    match told(prelude, places, values, nodes) {
        Ok(z) => Ok(z),
        Err(r) => Err(Refusal::new(r.answer, r.place.at + 32768)),
    }
}
