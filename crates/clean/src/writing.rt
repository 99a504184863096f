// The job `write`: a source to its clean page, or a numbered refusal with its place.
ghost use Rattle.clean.specs.Job.{Fits, Writes};
ghost use Rattle.clean.specs.model.Bytes.{Lendable};
ghost use Rattle.clean.specs.model.Pen.{written_of};

use crate::layout::lay_out;
use answers::{Answer, Refusal};
use reading::finding::find;

// An accepted source, of which the symbols are lent. The length is found first, with no room, so that a refusal leaves the room as it was.
fn written(
    source: &[u8],
    kinds: &[u8],
    places: &[usize; 2048],
    room: &mut [u8],
) -> Result<usize, Refusal>
    requires { Lendable source.now kinds.now }
    ensures { Fits (written_of source.now places.now kinds.now) room.old result room.new }
{
    let mut held = [0usize; 2048];
    let size = lay_out(source, kinds, places, &mut held, &mut room[..0]);
    if 16384 < size {
        return Err(Refusal::new(Answer::LONG, 16384));
    }
    if room.len() < size {
        return Err(Refusal::new(Answer::SHORT, 0));
    }
    lay_out(source, kinds, places, &mut held, room);
    Ok(size)
}

// Any source, any room.
pub fn write(source: &[u8], room: &mut [u8]) -> Result<usize, Refusal>
    ensures { Writes source.now room.old result room.new }
{
    let mut kinds = [0u8; 2048];
    let mut places = [0usize; 2048];
    let mut values = [0u64; 2048];
    let mut nodes = [0u16; 32768];
    let mut rows = [0u16; 32768];
    let mut uses = [0u16; 8192];
    let mut marks = [0u16; 2048];
    let found = find(
        source,
        &mut kinds,
        &mut places,
        &mut values,
        &mut nodes,
        &mut rows,
        &mut uses,
        &mut marks,
    )?;
    written(source, &kinds[..found.symbols], &places, room)
}
