// What `write` answers and leaves, against a text: it answers as `read` does, or 2 where an accepted source has too long a page; what is written is
// read back as the same program, and written again as the same bytes. And where the second line is a page's it has: the letter w, the length of the
// room, the answer and its place; behind it stands the page.
ghost use Rattle.std.specs.Prelude.{◌≡◌, ◌<◌, ◌+◌, ◌*◌, length, drop};
ghost use Rattle.vectors.specs.Pages.{all, same_page, declaration_at, alike_at, same_meanings, numbered, written_by, fresh_room, AgainTold, BackTold, PageTold, LentTold, ListedTold, WriteTold};

use crate::reads::accepted;
use crate::tally::Tally;
use crate::texts::{clipped, number_at, page_at, second_line};
use answers::Refusal;
use clean::writing::write;
use reading::reading::read;
use symbols::text::same_bytes;
use table::sections::{sections_of, word};

// The bytes that are lent hold this before, and those behind a page afterwards.
const BEFORE: u8 = 7;

// Whether each byte from `from` on is as before.
fn untouched(room: &[u8], from: usize) -> bool
    ensures { result ≡ all 7 (drop from room.now) }
{
    for i in from..room.len() {
        if room[i] != BEFORE {
            return false;
        }
    }
    true
}

// Whether the room has this page in its first n bytes, and behind them what it had.
fn same_page(room: &[u8], n: usize, page: &[u8]) -> bool
    ensures { result ≡ same_page room.now n page.now }
{
    if room.len() < n {
        return false;
    }
    same_bytes(&room[..n], page) && untouched(room, n)
}

// The number of the declaration whose name stands at a place; how many there are where it is none's.
fn declaration_at(table: &[u16], place: usize) -> usize
    ensures { result ≡ declaration_at table.now place }
{
    let at = sections_of(table).declarations;
    let count = word(table, at);
    for j in 0..count {
        if word(table, at + 1 + 4 * j) == place {
            return j;
        }
    }
    count
}

// Whether the uses of which the words begin at `at` have the same kind and, of the environment or by its declaration, the same number.
fn alike_at(a: &[u16], b: &[u16], at: usize) -> bool
    requires { at < 262144 }
    ensures { result ≡ alike_at a.now b.now at }
{
    let kind = word(a, at + 1);
    if kind != word(b, at + 1) {
        return false;
    }
    let x = word(a, at + 2);
    let y = word(b, at + 2);
    if kind == 0 {
        return x == y;
    }
    declaration_at(a, x) == declaration_at(b, y)
}

// Whether two tables have as many uses, each paired with its declaration alike.
fn same_meanings(a: &[u16], b: &[u16]) -> bool
    ensures { result ≡ same_meanings a.now b.now }
{
    let count = word(a, 0);
    if count != word(b, 0) {
        return false;
    }
    for k in 0..count {
        if !alike_at(a, b, 3 * k + 1) {
            return false;
        }
    }
    true
}

fn fresh_room() -> [u8; 16386]
    ensures { result ≡ fresh_room }
{
    [BEFORE; 16386]
}

// A page, read back: the source's program.
fn back(t: Tally, name: &[u8], source: &[u8], page: &[u8]) -> Tally
    ensures { BackTold source.now page.now t result }
{
    let mut table = [0u16; 32768];
    let mut other = [0u16; 32768];
    read(source, &mut table);
    let verdict = read(page, &mut other);
    if accepted(verdict) && same_meanings(&table, &other) {
        return t.back();
    }
    t.check(false, name, b"the page is another program")
}

// A page, written again: the same bytes.
fn again(t: Tally, name: &[u8], page: &[u8]) -> Tally
    ensures { AgainTold page.now t result }
{
    let mut room = fresh_room();
    let w = write(page, &mut room);
    if clean::answer(w).number == 0 && same_page(&room, clean::length(w), page) {
        return t.again();
    }
    t.check(false, name, b"the page is written otherwise")
}

// Whether an answer is this one at this place.
fn is_answer(w: Result<usize, Refusal>, answer: u64, place: u64) -> bool
    ensures { result ≡ numbered w answer place }
{
    clean::answer(w).number as u64 == answer && clean::place(w) as u64 == place
}

// Whether an answer is the one that is listed for `read`, or 2 of an accepted source.
fn answered(w: Result<usize, Refusal>, text: &[u8]) -> bool
    ensures { result ≡ written_by w text.now }
{
    let answer = number_at(text, 0);
    if answer.value == 0 && clean::answer(w).number == 2 {
        return clean::place(w) == 16384;
    }
    let place = number_at(text, answer.next);
    is_answer(w, answer.value, place.value)
}

// A source written, and compared.
fn written(t: Tally, name: &[u8], source: &[u8], text: &[u8]) -> Tally
    ensures { PageTold source.now text.now t result }
{
    let mut room = fresh_room();
    let w = write(source, &mut room);
    let n = clean::length(w);
    let told = t.check(answered(w, text), name, b"write answers otherwise");
    let kept = told.check(
        untouched(&room, n),
        name,
        b"a byte behind the page is not as before",
    );
    if clean::answer(w).number != 0 {
        return kept;
    }
    let turned = back(kept.page(), name, source, &room[..n]);
    again(turned, name, &room[..n])
}

// A source written into this room, against the answer, the place and the page that are listed from `from` on.
fn lent(t: Tally, name: &[u8], source: &[u8], room: &mut [u8], text: &[u8], from: usize) -> Tally
    ensures { LentTold source.now room.old text.now from t result }
{
    let w = write(source, room);
    let answer = number_at(text, from);
    let place = number_at(text, answer.next);
    let start = clipped(place.next as u64, text.len());
    let told = t.check(
        is_answer(w, answer.value, place.value),
        name,
        b"write answers otherwise in this room",
    );
    told.check(
        same_page(room, clean::length(w), &text[start..]),
        name,
        b"another page, or a byte behind it is not as before",
    )
}

// The page that is listed, if one is.
fn listed(t: Tally, name: &[u8], source: &[u8], text: &[u8]) -> Tally
    ensures { ListedTold source.now text.now t result }
{
    let from = second_line(text);
    if from < text.len() {
        if page_at(text, from) {
            let mut room = fresh_room();
            let size = number_at(text, from + 2);
            let n = clipped(size.value, 16386);
            return lent(t, name, source, &mut room[..n], text, size.next);
        }
    }
    t
}

pub fn compare(t: Tally, name: &[u8], source: &[u8], text: &[u8]) -> Tally
    ensures { WriteTold source.now text.now t result }
{
    let told = listed(t, name, source, text);
    written(told, name, source, text)
}
