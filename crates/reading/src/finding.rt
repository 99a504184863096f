// The front end, stage after stage: symbols, nodes, rows and uses of a source, in arrays that are lent; or its refusal. Of each array it is said how
// much is in use.
ghost use Rattle.std.specs.Prelude.{◌≡◌, ◌<◌, min, take};
ghost use Rattle.names.specs.model.Rows.{no_fault};
ghost use Rattle.reading.specs.model.Passing.{place_from, refused_for, Passes};
ghost use Rattle.reading.specs.model.Stages.{Symbols, Tells, Declared, Finds};

use crate::Sizes;
use answers::{Answer, Ordinal, Place, Refusal};
use grammar::{Fault, Read};
use names::faults;
use names::passes::{identify, outline, resolve};
use symbols::scanning::scan;
use syntax::parse;
use types::check;

// The place of a symbol; behind the last one, the end that is handed in.
pub fn place_at(end: usize, places: &[usize; 2048], count: usize, symbol: Ordinal) -> Place
    ensures { result.at ≡ place_from places.now count end symbol.number }
{
    let s = symbol.number as usize;
    let at = if s < count.min(places.len()) {
        places[s]
    } else {
        end
    };
    Place { at }
}

// The refusal at a fault's symbol.
fn refused(fault: usize, end: usize, places: &[usize; 2048], count: usize) -> Refusal
    requires { fault < no_fault }
    ensures { result ≡ refused_for (place_from places.now count end) fault }
{
    let symbol = Ordinal {
        number: (fault / 16) as u16,
    };
    let place = place_at(end, places, count, symbol);
    let number = (fault % 16) as u16;
    Refusal::new(Answer { number }, place.at)
}

// Names and types, over nodes and the page on which their names stand: 7 to 10, or rows, uses and marks. A program by itself, a prelude, and both as one
// program take this.
pub fn passed(
    page: &[u8],
    end: usize,
    places: &[usize; 2048],
    count: usize,
    nodes: &[u16; 32768],
    words: usize,
    rows: &mut [u16; 32768],
    uses: &mut [u16; 8192],
    marks: &mut [u16; 2048],
) -> Result<Sizes, Refusal>
    ensures { Passes page.now places.now (take words nodes.now) rows.new uses.new marks.old marks.new count end words result }
{
    let mut ids = [0u16; 2048];
    identify(page, places, count, &mut ids);
    let o = outline(nodes, words, &ids, rows);
    let declared = o.count;
    let u = resolve(nodes, words, rows, declared, &ids, uses);
    let used = u.count;
    let fault = o.least.min(u.least);
    if fault < faults::NONE {
        return Err(refused(fault, end, places, count));
    }
    let mistake = check(nodes, words, uses, used, rows, declared, marks);
    if mistake < faults::NONE {
        return Err(refused(mistake, end, places, count));
    }
    Ok(Sizes {
        symbols: count,
        nodes: words,
        rows: declared,
        uses: used,
    })
}

// The symbols of a source: 5 or 6, or on.
fn parsed(
    source: &[u8],
    kinds: &[u8; 2048],
    places: &[usize; 2048],
    count: usize,
    nodes: &mut [u16; 32768],
    rows: &mut [u16; 32768],
    uses: &mut [u16; 8192],
    marks: &mut [u16; 2048],
) -> Result<Sizes, Refusal>
    requires { Symbols source.now kinds.now places.now count }
    ensures { Tells source.now (Declared source.now places.now nodes.new rows.new uses.new marks.old marks.new count) result }
{
    match parse(kinds, count, nodes) {
        Ok(Read { next: _, used }) => passed(
            source,
            source.len(),
            places,
            count,
            nodes,
            used,
            rows,
            uses,
            marks,
        ),
        Err(Fault { answer, at }) => {
            let symbol = Ordinal { number: at as u16 };
            let place = place_at(source.len(), places, count, symbol);
            Err(Refusal::new(answer, place.at))
        }
    }
}

// What a source holds, for any bytes: 2 to 10, or its symbols' kinds, places and values, its nodes, its rows, what each use means,
// and the marks of its conditional expressions.
pub fn find(
    source: &[u8],
    kinds: &mut [u8; 2048],
    places: &mut [usize; 2048],
    values: &mut [u64; 2048],
    nodes: &mut [u16; 32768],
    rows: &mut [u16; 32768],
    uses: &mut [u16; 8192],
    marks: &mut [u16; 2048],
) -> Result<Sizes, Refusal>
    ensures { Finds source.now kinds.new places.new values.new nodes.new rows.new uses.new marks.old marks.new result }
{
    if 16384 < source.len() {
        return Err(Refusal::new(Answer::LONG, 16384));
    }
    match scan(source, 2048, kinds, places, values) {
        Ok(n) => parsed(source, kinds, places, n, nodes, rows, uses, marks),
        Err(r) => Err(r),
    }
}
