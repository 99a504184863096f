// The symbols of a source.
ghost use Rattle.std.specs.Prelude.{◌≡◌, ◌≤◌, min, length};
ghost use Rattle.symbols.specs.model.Steps.{step_at, Filled};

use crate::kinds::store;
use crate::notes::turn;
use crate::{Context, Cursor, Step, Turn};
use answers::Refusal;

// What stands at a cursor, where `room` more symbols may come.
pub fn next(source: &[u8], cursor: Cursor, room: usize) -> Step
    ensures { result ≡ step_at room source.now cursor }
{
    let at = cursor.at;
    let c = cursor.context;
    if source.len() <= at {
        return Step::End;
    }
    match turn(source, at, room, c) {
        Turn::Pass(d, k) => Step::Passed(Cursor {
            at: at + 1 + k,
            context: d,
        }),
        Turn::Keep(s, d, k) => Step::Read(
            s,
            Cursor {
                at: at + 1 + k,
                context: d,
            },
        ),
        Turn::Refuse(a) => Step::Refused(Refusal::new(a, at)),
    }
}

// The symbols of a source, of which `room` may come, into slices that hold as many.
// Kept: what may not change, `Filled` holds three arrays, one of kinds, one of places and one of values.
fn fill(
    source: &[u8],
    room: usize,
    kinds: &mut [u8],
    places: &mut [usize],
    values: &mut [u64],
) -> Result<usize, Refusal>
    requires { (room ≤ length kinds.old) × (room ≤ length places.old) × (room ≤ length values.old) }
    ensures { Filled room source.now result kinds.old kinds.new places.old places.new values.old values.new }
{
    let mut cursor = Cursor {
        at: 0,
        context: Context::Plain,
    };
    let mut n = 0;
    loop {
        match next(source, cursor, room - n) {
            Step::Read(s, c) => {
                let t = store(s);
                kinds[n] = t.kind;
                places[n] = cursor.at;
                values[n] = t.value;
                n += 1;
                cursor = c;
            }
            Step::Passed(c) => {
                cursor = c;
            }
            Step::Refused(r) => {
                return Err(r);
            }
            Step::End => {
                return Ok(n);
            }
        }
    }
}

// The symbols of a source, of which `limit` may come and no more than the arrays hold: kinds, places and values.
pub fn scan(
    source: &[u8],
    limit: usize,
    kinds: &mut [u8; 2048],
    places: &mut [usize; 2048],
    values: &mut [u64; 2048],
) -> Result<usize, Refusal>
    ensures { Filled (min limit 2048) source.now result kinds.old kinds.new places.old places.new values.old values.new }
{
    fill(source, limit.min(2048), kinds, places, values)
}
