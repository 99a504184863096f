// Records replayed: of each run that a row of `index` lists, as it is kept, and with its answer changed, one entry more, one missing and one changed;
// and the records that the rows of `replays` list, each with the kind and the place of its answer, how many numbers of store and output are lent, how
// many words there are, and these.
ghost use Rattle.std.specs.Prelude.{◌≡◌, ◌+◌, ◌≤◌, min, length, take};
ghost use Rattle.vectors.specs.Months.{fresh as freshCount, one_record, one_replay, one_listed, checked, said_by, after_replay};

use crate::reads::accepted;
use crate::rows::{ROW, load, name_end};
use crate::runs::{fresh_output, fresh_store, inputs_at};
use crate::tally::{more, print, print_count};
use crate::texts::{buffer, clipped, number_at, page_at, second_line};
use records::keeping::run_kept;
use records::replaying::replay;
use records::{Kept, Replayed};
use translating::translating::translate;

// Where a record of n input numbers has its answer and the number of its entries, and how many words stand before the first value of an entry but one.
const ANSWER: usize = 9;

const ENTRIES: usize = 10;

const VALUE: usize = 9;

// The runs that were recorded, the replays, how many of them were listed, and the differences.
#[derive(Clone, Copy)]
pub struct Count {
    pub records: u32,
    pub replays: u32,
    pub listed: u32,
    pub differences: u32,
}

impl Count {
    pub fn new() -> Count
        ensures { result ≡ freshCount }
    {
        Count {
            records: 0,
            replays: 0,
            listed: 0,
            differences: 0,
        }
    }

    pub fn record(mut self) -> Count
        ensures { result ≡ one_record self }
    {
        self.records = more(self.records);
        self
    }

    pub fn replay(mut self) -> Count
        ensures { result ≡ one_replay self }
    {
        self.replays = more(self.replays);
        self
    }

    pub fn listed(mut self) -> Count
        ensures { result ≡ one_listed self }
    {
        self.listed = more(self.listed);
        self
    }

    // Where what was found is not what is due, a line that says of what source, and of what.
    pub fn check(mut self, same: bool, name: &[u8], what: &[u8]) -> Count
        ensures { result ≡ checked same self }
    {
        if same {
            return self;
        }
        print(name);
        print(b": ");
        print(what);
        print(b"\n");
        self.differences = more(self.differences);
        self
    }

    pub fn show(self) {
        print_count(self.records);
        print(b" runs recorded, ");
        print_count(self.replays);
        print(b" replays, ");
        print_count(self.listed);
        print(b" of them listed, ");
        print_count(self.differences);
        print(b" differences\n");
    }
}

// Whether this is said: the kind of the answer, and its place.
fn is_said(a: Replayed, kind: u64, place: u64) -> bool
    ensures { result ≡ said_by a kind place }
{
    if a.kind() as u64 != kind {
        return false;
    }
    a.place() as u64 == place
}

// The first w of some words replayed in so much store and output, and compared with the kind and the place that are due.
fn told(
    t: Count,
    name: &[u8],
    code: &[u32],
    words: &[i32],
    w: usize,
    store: u64,
    room: u64,
    kind: u64,
    place: u64,
) -> Count
    ensures { result ≡ after_replay code.now (take (min w (length words.now)) words.now) store room kind place t }
{
    let mut cells = fresh_store();
    let mut output = fresh_output();
    let k = clipped(w as u64, words.len());
    let s = clipped(store, 16386);
    let o = clipped(room, 1536);
    let answer = replay(code, &words[..k], &mut cells[..s], &mut output[..o]);
    let same = is_said(answer, kind, place);
    t.replay()
        .check(same, name, b"the record is answered otherwise")
}

// Another number: 20, or 0 where it is not 0.
fn other(x: i32) -> i32 {
    if x == 0 { 20 } else { 0 }
}

// A count as a word; 0 where it is none.
fn as_word(n: usize) -> i32 {
    if 2147483647 < n {
        return 0;
    }
    n as i32
}

// The word at an index; 0 behind the last.
fn word_at(words: &[i32], i: usize) -> i32 {
    if i < words.len() {
        return words[i];
    }
    0
}

// A word at an index, where there is one.
fn put(words: &mut [i32], i: usize, x: i32) {
    if i < words.len() {
        words[i] = x;
    }
}

// A record's words with n input numbers and m entries, the first w of these: as they are, with another answer, and with one entry more.
fn three(
    t: Count,
    name: &[u8],
    code: &[u32],
    words: &mut [i32],
    n: usize,
    m: usize,
    w: usize,
    store: u64,
    room: u64,
) -> Count {
    let q = clipped(n as u64, 128) + ANSWER;
    let e = clipped(n as u64, 128) + ENTRIES;
    let k = clipped(m as u64, 512);
    let v = clipped(w as u64, 1675);
    let a = told(t, name, code, words, v, store, room, 0, 0);
    let answer = word_at(words, q);
    put(words, q, other(answer));
    let b = told(a, name, code, words, v, store, room, 1, 0);
    put(words, q, answer);
    put(words, e, as_word(k + 1));
    let c = told(b, name, code, words, v + 3, store, room, 1, k as u64 + 1);
    put(words, e, as_word(k));
    c
}

// With one entry less, where there is one, and with one of them changed.
fn two(
    t: Count,
    name: &[u8],
    code: &[u32],
    words: &mut [i32],
    n: usize,
    m: usize,
    w: usize,
    store: u64,
    room: u64,
) -> Count {
    if m == 0 {
        return t;
    }
    if w < 3 {
        return t;
    }
    let e = clipped(n as u64, 128) + ENTRIES;
    let k = clipped(m as u64, 512);
    put(words, e, as_word(m - 1));
    let d = told(t, name, code, words, w - 3, store, room, 1, m as u64);
    put(words, e, as_word(m));
    let j = (k + 1) / 2;
    let i = clipped(n as u64, 128) + VALUE + 3 * j;
    let x = word_at(words, i);
    put(words, i, other(x));
    told(d, name, code, words, w, store, room, 1, j as u64)
}

// Room for a record, and three words more.
fn fresh_words() -> [i32; 1680]
    ensures { 1680 ≡ length result }
{
    [0; 1680]
}

// The first n of some numbers are read from a text; and where the next one begins.
fn read_into(text: &[u8], from: usize, words: &mut [i32], n: usize) -> usize {
    let k = clipped(n as u64, words.len());
    inputs_at(text, from, &mut words[..k])
}

// A run in so much store and output, and its record.
fn kept_in(
    code: &[u32],
    input: &[i32],
    n: usize,
    limit: u64,
    store: u64,
    room: u64,
    words: &mut [i32],
) -> Kept {
    let mut cells = fresh_store();
    let mut output = fresh_output();
    let k = clipped(n as u64, input.len());
    let s = clipped(store, 16386);
    let o = clipped(room, 1536);
    run_kept(
        code,
        &input[..k],
        limit,
        &mut cells[..s],
        &mut output[..o],
        words,
    )
}

// The run that is listed from `from` on, recorded and replayed.
fn recorded(t: Count, name: &[u8], code: &[u32], text: &[u8], from: usize) -> Count {
    let mut input = fresh_words();
    let mut words = fresh_words();
    let count = number_at(text, from);
    let n = clipped(count.value, 128);
    let next = read_into(text, count.next, &mut input, n);
    let store = number_at(text, next);
    let room = number_at(text, store.next);
    let limit = number_at(text, room.next);
    let kept = kept_in(
        code,
        &input,
        n,
        limit.value,
        store.value,
        room.value,
        &mut words,
    );
    let ran = kept.ran;
    let filled = kept.filled;
    let Some(k) = filled else {
        return t.check(false, name, b"no record is kept");
    };
    let m = ran.written / 3;
    let u = three(
        t.record(),
        name,
        code,
        &mut words,
        n,
        m,
        k,
        store.value,
        room.value,
    );
    two(u, name, code, &mut words, n, m, k, store.value, room.value)
}

// A source's run, where one is listed.
fn kept(t: Count, name: &[u8], source: &[u8], text: &[u8]) -> Count {
    let from = second_line(text);
    if text.len() <= from {
        return t;
    }
    if page_at(text, from) {
        return t;
    }
    let mut code = [0u32; 16384];
    let verdict = translate(source, &mut code);
    if accepted(verdict) {
        return recorded(t, name, &code, text, from);
    }
    t
}

// The first w of some words replayed with the code of a source, and compared.
fn told_of(
    t: Count,
    name: &[u8],
    source: &[u8],
    words: &[i32],
    w: usize,
    store: u64,
    room: u64,
    kind: u64,
    place: u64,
) -> Count {
    let mut code = [0u32; 16384];
    let verdict = translate(source, &mut code);
    if !accepted(verdict) {
        return t.check(false, name, b"refused");
    }
    told(t, name, &code, words, w, store, room, kind, place)
}

// The record that a text lists for a source.
fn listed(t: Count, name: &[u8], source: &[u8], text: &[u8]) -> Count {
    let mut words = fresh_words();
    let kind = number_at(text, 0);
    let place = number_at(text, kind.next);
    let store = number_at(text, place.next);
    let room = number_at(text, store.next);
    let count = number_at(text, room.next);
    let k = clipped(count.value, 1680);
    read_into(text, count.next, &mut words, k);
    told_of(
        t.listed(),
        name,
        source,
        &words,
        k,
        store.value,
        room.value,
        kind.value,
        place.value,
    )
}

// The record that is listed, or that of the run.
fn one(t: Count, name: &[u8], source: &[u8], text: &[u8], records: bool) -> Count {
    if records {
        return listed(t, name, source, text);
    }
    kept(t, name, source, text)
}

// The row at `from`.
fn row(rt: &HostRuntime, t: Count, index: &[u8], from: usize, records: bool) -> Count
    requires { from + 49 ≤ length index.now }
{
    let mut source = buffer();
    let mut text = buffer();
    let end = name_end(index, from);
    let n = load(rt, &index[from..end], &mut source);
    let last = name_end(index, from + 24);
    let m = load(rt, &index[from + 24..last], &mut text);
    one(
        t,
        &index[from + 24..last],
        &source[..n],
        &text[..m],
        records,
    )
}

// Each row: its record where records are listed, else the record of its run.
fn rows(rt: &HostRuntime, t: Count, index: &[u8], records: bool) -> Count {
    let mut u = t;
    for k in 0..index.len() / ROW {
        u = row(rt, u, index, ROW * k, records);
    }
    u
}

// The rows of both files, counted and shown.
pub fn all(rt: &HostRuntime) {
    let mut buf = buffer();
    let n = load(rt, b"index", &mut buf);
    let t = rows(rt, Count::new(), &buf[..n], false);
    let m = load(rt, b"replays", &mut buf);
    rows(rt, t, &buf[..m], true).show();
}
