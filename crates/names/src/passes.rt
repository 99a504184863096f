// The passes of this crate, for any words: arrays by reference, each with how much of it is in use; what is past that is cut off.
ghost use Rattle.std.specs.Prelude.{◌≡◌, ◌*◌, ◌≤◌, min, length, take};
ghost use Rattle.names.specs.model.Identity.{Identified};
ghost use Rattle.names.specs.model.Arrays.{OutlineLeft, UsesLeft};

use crate::{Passed, identity, outline as declaring, uses as using};

// The first words of those that are lent; all of them where there are no more.
pub fn front(words: &[u16], end: usize) -> &[u16]
    ensures { result.now ≡ take end words.now }
{
    words.get(..end).unwrap_or(words)
}

// The words of the first rows, which are four each.
pub fn first_rows(rows: &[u16; 32768], count: usize) -> &[u16]
    ensures result_value { result.now ≡ take (4 * count) rows.now }
    ensures result_len_bound { length result.now ≤ 32768 }
{
    front(rows, count.saturating_mul(4))
}

// The identities of the first symbols.
pub fn identify(source: &[u8], places: &[usize; 2048], count: usize, ids: &mut [u16; 2048])
    ensures { Identified source.now places.now ids.new (min count 2048) }
{
    identity::identify(source, places, count, ids);
}

// The declarations of a program: their rows, how many there are, and the least fault 7 or 9.
pub fn outline(
    nodes: &[u16; 32768],
    count: usize,
    ids: &[u16; 2048],
    rows: &mut [u16; 32768],
) -> Passed
    ensures { OutlineLeft ids.now (take count nodes.now) rows.new result }
{
    let o = declaring::outline(front(nodes, count), ids, rows);
    Passed {
        count: o.rows,
        least: o.least,
    }
}

// The uses of a program, whose first `declared` rows are lent: the number of what each means, how many there are, and the least fault 8.
pub fn resolve(
    nodes: &[u16; 32768],
    count: usize,
    rows: &[u16; 32768],
    declared: usize,
    ids: &[u16; 2048],
    uses: &mut [u16; 8192],
) -> Passed
    ensures { UsesLeft ids.now (take (4 * declared) rows.now) (take count nodes.now) uses.new result }
{
    let u = using::resolve(front(nodes, count), first_rows(rows, declared), ids, uses);
    Passed {
        count: u.count,
        least: u.least,
    }
}
