// A record written down: what a run was given and what it came to, as words in lent room.
ghost use Rattle.std.specs.Prelude.{◌≡◌, List, ◌+◌, ◌≤◌, length};
ghost use Rattle.machine.specs.Machine.{exit, job};
ghost use Rattle.records.specs.Record.{Entry, entry_words, record_as, record_words};
ghost use Rattle.records.specs.Keeping.{filling, has_room, kept_in};
ghost use Rattle.records.specs.Replay.{recorded};
ghost use Rattle.records.specs.model.Keeping.{Puts, Room};

use crate::Kept;
use machine::run;
use reals::words::number;

// No word is greater.
const MOST: usize = 2147483647;

// How many words a record has besides its input numbers and its output entries.
const BESIDES: usize = 11;

// Words from an index on; the next index.
fn copy(room: &mut [i32], at: usize, words: &[i32]) -> usize
    requires { at + length words.now ≤ length room.old }
    ensures { Puts room.old at words.now room.new result }
{
    let end = at + words.len();
    room[at..end].copy_from_slice(words);
    end
}

// The words of a record: input numbers, limit, lengths of store and output, and what the run answered and wrote.
fn written_down(
    input: &[i32],
    limit: u64,
    store: usize,
    output: usize,
    answer: u16,
    written: &[i32],
    room: &mut [i32],
) -> usize
    requires { Room (length input.now) store output (length written.now) (length room.old) }
    ensures { (es : List Entry) → written.now ≡ entry_words es → Puts room.old 0 (record_words (record_as input.now limit store output answer es)) room.new result }
{
    let lengths = [
        1,
        number((limit % 4294967296) as u32),
        number((limit / 4294967296) as u32),
        1,
        store as i32,
        1,
        output as i32,
        1,
        answer as i32,
        (written.len() / 3) as i32,
    ];
    let a = copy(room, 0, &[input.len() as i32]);
    let b = copy(room, a, input);
    let c = copy(room, b, &lengths);
    copy(room, c, written)
}

// Whether every length is a word, and all words have room.
fn has_room(inputs: usize, store: usize, output: usize, written: usize, room: usize) -> bool
    ensures { result ≡ has_room inputs store output written room }
{
    inputs <= MOST
        && store <= MOST
        && output <= MOST
        && written <= MOST
        && BESIDES + inputs + written <= room
}

// The same for any lengths, into any room.
fn keep(
    input: &[i32],
    limit: u64,
    store: usize,
    output: usize,
    answer: u16,
    written: &[i32],
    room: &mut [i32],
) -> Option<usize>
    ensures { (es : List Entry) → written.now ≡ entry_words es → filling result room.new ≡ kept_in (record_as input.now limit store output answer es) room.old }
{
    if !has_room(input.len(), store, output, written.len(), room.len()) {
        return None;
    }
    Some(written_down(input, limit, store, output, answer, written, room))
}

// A run, and its record.
pub fn run_kept(
    code: &[u32],
    input: &[i32],
    limit: u64,
    store: &mut [i64],
    output: &mut [i32],
    room: &mut [i32],
) -> Kept
    ensures { (exit result.ran store.new output.new ≡ job code.now input.now limit store.old output.old) × (filling result.filled room.new ≡ kept_in (recorded code.now input.now limit (length store.old) (length output.old)) room.old) }
{
    let s = store.len();
    let o = output.len();
    let ran = run(code, input, limit, store, output);
    let stop = ran.stop;
    let answer = stop.answer();
    let w = ran.written;
    let filled = keep(input, limit, s, o, answer.number, &output[..w], room);
    Kept { ran, filled }
}
