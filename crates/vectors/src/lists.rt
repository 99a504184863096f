// What `check_list` says of lists: of an accepted source's own uses, of a part of them, of these with one word more and with one word changed; and of
// the list that the third line of a text has: the kind of the answer, its number and place, how many words there are, and of how many of them the
// numbers are listed, with these; the others are 0.
ghost use Rattle.std.specs.Prelude.{◌≡◌, ◌+◌, pos, length};
ghost use Rattle.vectors.specs.Ended.{numbers};
ghost use Rattle.vectors.specs.Sent.{said_by, ListTold, words_from, fresh_list, FourTold, OwnTold, SentTold, ListsTold};

use crate::reads::{accepted, word_at};
use crate::tally::Tally;
use crate::texts::{clipped, number_at, third_line, whole};
use checking::Checked;
use checking::checking::check_list;
use reading::reading::read;

// The most words of a list that is sent.
const MOST: usize = 70016;

// Whether this is said: the kind of the answer, its number and its place.
fn is_said(c: Checked, kind: u64, number: u64, place: u64) -> bool
    ensures { result ≡ said_by c kind number place }
{
    if c.kind() as u64 != kind {
        return false;
    }
    if c.number() as u64 != number {
        return false;
    }
    c.place() as u64 == place
}

// A list checked, and compared with the kind, number and place that are due.
fn told(
    t: Tally,
    name: &[u8],
    source: &[u8],
    list: &[i64],
    kind: u64,
    number: u64,
    place: u64,
) -> Tally
    ensures { ListTold source.now list.now kind number place t result }
{
    let same = is_said(check_list(source, list), kind, number, place);
    t.list()
        .check(same, name, b"the list is answered otherwise")
}

// A word as a number of a list.
fn as_number(word: u16) -> i64
    ensures { result ≡ pos word }
{
    word as i64
}

// One more than a word.
fn raised(word: u16) -> i64
    ensures { result ≡ pos (word + 1) }
{
    (word as u32 + 1) as i64
}

// The words of a table as a list, as many as there is room for.
fn words_into(table: &[u16], list: &mut [i64])
    ensures { list.new ≡ words_from table.now (length list.old) 0 }
{
    for i in 0..list.len() {
        let x = as_number(word_at(table, i));
        list[i] = x;
    }
}

// The lists of a source with this table.
fn four(t: Tally, name: &[u8], source: &[u8], table: &[u16]) -> Tally
    ensures { FourTold source.now table.now t result }
{
    let mut list = [0i64; 32768];
    words_into(table, &mut list);
    let n = clipped(3 * word_at(table, 0) as u64 + 1, 32767);
    let i = n / 2;
    let a = told(t, name, source, &list[..n], 0, 0, 0);
    let b = told(a, name, source, &list[..i], 2, 0, i as u64);
    let c = told(b, name, source, &list[..n + 1], 2, 0, n as u64);
    let x = raised(word_at(table, i));
    list[i] = x;
    told(c, name, source, &list[..n], 2, 0, i as u64)
}

// The lists of a source's own, where it is accepted.
fn own(t: Tally, name: &[u8], source: &[u8]) -> Tally
    ensures { OwnTold source.now t result }
{
    let mut table = [0u16; 32768];
    let verdict = read(source, &mut table);
    if accepted(verdict) {
        return four(t, name, source, &table);
    }
    t
}

// A number of 32 bits as one of a list.
fn long(x: i32) -> i64
    ensures { result ≡ x }
{
    x as i64
}

// The numbers of a text from `from` on, as many as there is room for.
fn numbers_into(text: &[u8], from: usize, list: &mut [i64])
    ensures { list.new ≡ numbers text.now (length list.old) from }
{
    let mut at = from;
    for i in 0..list.len() {
        let n = number_at(text, at);
        let x = long(whole(n));
        list[i] = x;
        at = n.next;
    }
}

fn fresh_list() -> [i64; 70016]
    ensures { result ≡ fresh_list }
{
    [0; 70016]
}

// The list that is sent from `from` on.
fn sent(t: Tally, name: &[u8], source: &[u8], text: &[u8], from: usize) -> Tally
    ensures { SentTold source.now text.now from t result }
{
    let mut list = fresh_list();
    let kind = number_at(text, from);
    let number = number_at(text, kind.next);
    let place = number_at(text, number.next);
    let all = number_at(text, place.next);
    let some = number_at(text, all.next);
    let k = clipped(some.value, MOST);
    numbers_into(text, some.next, &mut list[..k]);
    let n = clipped(all.value, MOST);
    told(
        t,
        name,
        source,
        &list[..n],
        kind.value,
        number.value,
        place.value,
    )
}

// The lists of a source, and compared.
pub fn compare(t: Tally, name: &[u8], source: &[u8], text: &[u8]) -> Tally
    ensures { ListsTold source.now text.now t result }
{
    let mine = own(t, name, source);
    let from = third_line(text);
    if from < text.len() {
        return sent(mine, name, source, text, from);
    }
    mine
}
