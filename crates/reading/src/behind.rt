// Request 7: a scheme behind a prelude. Each is scanned and parsed by itself; then names and types are passed over both as one program.
ghost use Rattle.std.specs.Prelude.{◌≡◌, List, ℕ, ◌≤◌, take};
ghost use Rattle.reading.specs.Judging.{kinds_in};
ghost use Rattle.reading.specs.Two.{count_of, left};
ghost use Rattle.reading.specs.model.Preluding.{SymbolsIn, SchemeTold, PreludeFills, Apart, JoinTold, FindsBoth};

use crate::finding::{passed, place_at};
use crate::moving::{around, beyond, page, shift, symbols};
use crate::preluding::find_prelude;
use crate::{Both, Sizes};
use answers::{Answer, Ordinal, Refusal};
use grammar::{Fault, Read};
use symbols::scanning::scan;
use syntax::parse;

// The symbols of a scheme: 5 or 6, or its nodes.
fn parsed(
    scheme: &[u8],
    kinds: &[u8; 2048],
    places: &[usize; 2048],
    count: usize,
    nodes: &mut [u16; 32768],
) -> Result<Sizes, Refusal>
    requires { (most : ℕ) × (values : List ℕ) × (most ≤ 1024) × SymbolsIn most scheme.now places.now values count × (take count kinds.now ≡ kinds_in most scheme.now) }
    ensures { (prelude values : List ℕ) → SymbolsIn (left prelude) scheme.now places.now values count → take count kinds.now ≡ kinds_in (left prelude) scheme.now → SchemeTold prelude scheme.now places.now values nodes.new result }
{
    match parse(kinds, count, nodes) {
        Ok(Read { next: _, used }) => Ok(Sizes {
            symbols: count,
            nodes: used,
            rows: 0,
            uses: 0,
        }),
        Err(Fault { answer, at }) => {
            let symbol = Ordinal { number: at as u16 };
            let place = place_at(scheme.len(), places, count, symbol);
            Err(Refusal::new(answer, place.at))
        }
    }
}

// A scheme behind the m symbols of a prelude, by itself: 2 to 6, or its symbols and nodes.
fn told(
    scheme: &[u8],
    m: usize,
    places: &mut [usize; 2048],
    values: &mut [u64; 2048],
    nodes: &mut [u16; 32768],
) -> Result<Sizes, Refusal>
    requires { m ≤ 1024 }
    ensures { (prelude : List ℕ) → m ≡ count_of prelude → SchemeTold prelude scheme.now places.new values.new nodes.new result }
{
    let mut kinds = [0u8; 2048];
    if 16384 < scheme.len() {
        return Err(Refusal::new(Answer::LONG, 16384));
    }
    match scan(scheme, 1024 - m, &mut kinds, places, values) {
        Ok(n) => parsed(scheme, &kinds, places, n, nodes),
        Err(r) => Err(r),
    }
}

// The scheme's symbols and nodes behind the prelude's, and names and types over both: 7 to 10 of the scheme, or the one program.
fn joined(
    prelude: &[u8],
    scheme: &[u8],
    places: &mut [usize; 2048],
    values: &mut [u64; 2048],
    m: usize,
    ownplaces: &[usize; 2048],
    ownvalues: &[u64; 2048],
    n: usize,
    first: &[u16; 32768],
    before: usize,
    own: &mut [u16; 32768],
    behind: usize,
    nodes: &mut [u16; 32768],
    rows: &mut [u16; 32768],
    uses: &mut [u16; 8192],
    marks: &mut [u16; 2048],
) -> Result<Sizes, Refusal>
    requires { Apart prelude.now scheme.now places.old values.old ownplaces.now ownvalues.now first.now own.old m n before behind }
    ensures { (a : Apart prelude.now scheme.now places.old values.old ownplaces.now ownvalues.now first.now own.old m n before behind) → JoinTold prelude.now scheme.now places.new values.new nodes.new own.new rows.new uses.new marks.old marks.new a.whole a.behind.read behind result }
{
    beyond(places, m);
    symbols(places, values, m, &ownplaces[..n], &ownvalues[..n]);
    shift(own, behind / 4, m as u16);
    let words = around(nodes, &first[..before], &own[..behind], m as u16);
    let mut text = [0u8; 65536];
    page(&mut text, scheme, prelude);
    passed(
        &text,
        scheme.len(),
        places,
        m + n,
        nodes,
        words,
        rows,
        uses,
        marks,
    )
}

// A scheme behind a prelude that is without a fault.
fn behind(
    prelude: &[u8],
    scheme: &[u8],
    p: Sizes,
    first: &[u16; 32768],
    places: &mut [usize; 2048],
    values: &mut [u64; 2048],
    nodes: &mut [u16; 32768],
    own: &mut [u16; 32768],
    rows: &mut [u16; 32768],
    uses: &mut [u16; 8192],
    marks: &mut [u16; 2048],
) -> Result<Both, Refusal>
    requires { PreludeFills prelude.now places.old values.old first.now p }
    ensures { FindsBoth prelude.now scheme.now places.new values.new nodes.new own.new rows.new uses.new marks.old marks.new result }
{
    let mut ownplaces = [0usize; 2048];
    let mut ownvalues = [0u64; 2048];
    let s = told(scheme, p.symbols, &mut ownplaces, &mut ownvalues, own)?;
    let all = joined(
        prelude, scheme, places, values, p.symbols, &ownplaces, &ownvalues, s.symbols, first,
        p.nodes, own, s.nodes, nodes, rows, uses, marks,
    )?;
    Ok(Both {
        all,
        before: p,
        own: s.nodes,
    })
}

// What a prelude and a scheme hold, for any bytes: 2 to 10 of the prelude, then of the scheme; or places and values of the symbols of both, the nodes, rows
// and uses of both as one program, the marks of its conditional expressions, and the scheme's nodes by themselves.
pub fn find_both(
    prelude: &[u8],
    scheme: &[u8],
    places: &mut [usize; 2048],
    values: &mut [u64; 2048],
    nodes: &mut [u16; 32768],
    own: &mut [u16; 32768],
    rows: &mut [u16; 32768],
    uses: &mut [u16; 8192],
    marks: &mut [u16; 2048],
) -> Result<Both, Refusal>
    ensures { FindsBoth prelude.now scheme.now places.new values.new nodes.new own.new rows.new uses.new marks.old marks.new result }
{
    let mut first = [0u16; 32768];
    let p = find_prelude(prelude, places, values, &mut first)?;
    behind(
        prelude, scheme, p, &first, places, values, nodes, own, rows, uses, marks,
    )
}
