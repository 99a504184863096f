// What `read_two` and `translate_scheme` answer and leave, against what is listed of a prelude and two schemes in the rows of `twos`; and of each accepted source
// behind an empty prelude, and behind two procedures whose names it does not use, against what `read` leaves of it.
ghost use Rattle.std.specs.Prelude.{List, ◌≡◌, ℕ, ◌+◌, ◌/◌, ◌≤◌, length, drop};
ghost use Rattle.vectors.specs.Pages.{all};
ghost use Rattle.vectors.specs.Twos.{half_by, after_half, after_both, BothTold, SchemeTold, SchemesTold, fresh_table, PairTold, RowTold, Pairs, same_from, over_by, after_behind, BehindTold, SourceTold, Sources};

use crate::reads::{accepted, answered, same_uses, word_at};
use crate::rows::{ROW, load, name_end};
use crate::runs::coded;
use crate::tally::{Tally, print, print_count};
use crate::texts::{buffer, clipped, number_at};
use answers::Verdict;
use reading::reading::read;
use reading::schemes::read_two;
use translating::schemes::translate_scheme;

// The words of a table that is lent hold this before.
const BEFORE: u16 = 7;

// A row of `twos`: five names, 24 bytes each, how many words are lent, in 7, and the line's end.
const PAIR: usize = 128;

// Whether each word from `from` on is this one.
fn all_words(words: &[u16], from: usize, word: u16) -> bool
    ensures { result ≡ all word (drop from words.now) }
{
    for i in from..words.len() {
        if words[i] != word {
            return false;
        }
    }
    true
}

// Whether an accepted scheme's half has the uses that are listed, or a refused one's is zero.
fn is_half(verdict: Verdict, words: &[u16], text: &[u8]) -> bool
    ensures { result ≡ half_by verdict words.now text.now }
{
    if accepted(verdict) {
        return same_uses(words, text);
    }
    all_words(words, 0, 0)
}

// A scheme's answer and its half, compared.
fn half(t: Tally, name: &[u8], verdict: Verdict, words: &[u16], text: &[u8]) -> Tally
    ensures { result ≡ after_half verdict words.now text.now t }
{
    let told = t.check(answered(verdict, text), name, b"read_two answers otherwise");
    told.check(
        is_half(verdict, words, text),
        name,
        b"the uses differ, or a word of a refused half is not zero",
    )
}

// What `read_two` answered and left, compared.
fn compared(
    t: Tally,
    name: &[u8],
    a: Verdict,
    b: Verdict,
    table: &[u16],
    text: &[u8],
    other: &[u8],
) -> Tally
    ensures { result ≡ after_both a b table.now text.now other.now t }
{
    if table.len() < 32768 {
        let one = t.check(answered(a, text), name, b"read_two answers otherwise");
        let two = one.check(answered(b, other), name, b"read_two answers otherwise");
        return two.check(
            all_words(table, 0, BEFORE),
            name,
            b"too few words are lent, and one is not as before",
        );
    }
    let one = half(t, name, a, &table[..16384], text);
    let two = half(one, name, b, &table[16384..32768], other);
    two.check(
        all_words(table, 32768, BEFORE),
        name,
        b"a word behind the halves is not as before",
    )
}

// Two schemes read behind a prelude.
fn both(
    t: Tally,
    name: &[u8],
    prelude: &[u8],
    first: &[u8],
    second: &[u8],
    table: &mut [u16],
    text: &[u8],
    other: &[u8],
) -> Tally
    ensures { BothTold prelude.now first.now second.now table.old text.now other.now t result }
{
    let said = read_two(prelude, first, second, table);
    let a = said.first;
    let b = said.second;
    compared(t, name, a, b, table, text, other)
}

// A scheme translated behind a prelude, and compared.
fn scheme(t: Tally, name: &[u8], prelude: &[u8], source: &[u8], text: &[u8]) -> Tally
    ensures { SchemeTold prelude.now source.now text.now t result }
{
    let mut code = [7u32; 16386];
    let verdict = translate_scheme(prelude, source, &mut code);
    coded(t, name, verdict, &code, text)
}

// Both schemes translated, where as many words were lent as `read_two` asks for.
fn schemes(
    t: Tally,
    name: &[u8],
    prelude: &[u8],
    first: &[u8],
    second: &[u8],
    lent: usize,
    text: &[u8],
    other: &[u8],
) -> Tally
    ensures { SchemesTold prelude.now first.now second.now lent text.now other.now t result }
{
    if lent < 32768 {
        return t;
    }
    let one = scheme(t, name, prelude, first, text);
    scheme(one, name, prelude, second, other)
}

fn fresh_table() -> [u16; 40002]
    ensures { result ≡ fresh_table }
{
    [BEFORE; 40002]
}

// A pair of schemes, for which so many words are lent.
fn pair(
    t: Tally,
    name: &[u8],
    prelude: &[u8],
    first: &[u8],
    second: &[u8],
    lent: u64,
    text: &[u8],
    other: &[u8],
) -> Tally
    ensures { PairTold prelude.now first.now second.now lent text.now other.now t result }
{
    let mut table = fresh_table();
    let n = clipped(lent, 40002);
    let told = both(
        t.source(),
        name,
        prelude,
        first,
        second,
        &mut table[..n],
        text,
        other,
    );
    schemes(told, name, prelude, first, second, n, text, other)
}

// The bytes of the file whose name begins at `from`.
fn loaded(rt: &HostRuntime, index: &[u8], from: usize, buf: &mut [u8; 131072]) -> usize
    requires { from ≤ length index.now }
    ensures { result ≤ length buf.new }
{
    let end = name_end(index, from);
    load(rt, &index[from..end], buf)
}

// The row at `from`.
fn row(rt: &HostRuntime, t: Tally, index: &[u8], from: usize) -> Tally
    requires { from + 128 ≤ length index.now }
    ensures { RowTold t result }
{
    let mut prelude = buffer();
    let mut first = buffer();
    let mut second = buffer();
    let mut text = buffer();
    let mut other = buffer();
    let a = loaded(rt, index, from, &mut prelude);
    let b = loaded(rt, index, from + 24, &mut first);
    let c = loaded(rt, index, from + 48, &mut second);
    let d = loaded(rt, index, from + 72, &mut text);
    let e = loaded(rt, index, from + 96, &mut other);
    let lent = number_at(index, from + 120);
    let end = name_end(index, from + 24);
    pair(
        t,
        &index[from + 24..end],
        &prelude[..a],
        &first[..b],
        &second[..c],
        lent.value,
        &text[..d],
        &other[..e],
    )
}

// Every row counts, whatever its files hold.
fn pairs(rt: &HostRuntime, index: &[u8]) -> Tally
    ensures { Pairs (length index.now / 128) result }
{
    let mut t = Tally::new();
    for k in 0..index.len() / PAIR {
        t = row(rt, t, index, PAIR * k);
    }
    t
}

// Whether the first n words of a are those of b from `from` on.
fn same_front(a: &[u16], b: &[u16], from: usize, n: usize) -> bool
    requires { from + n ≤ 32768 }
    ensures { result ≡ same_from a.now b.now from 0 n }
{
    for i in 0..n {
        if word_at(a, i) != word_at(b, from + i) {
            return false;
        }
    }
    true
}

// Whether both are refused by 4.
fn is_over(a: Verdict, b: Verdict) -> bool
    ensures { result ≡ over_by a b }
{
    if a.answer().number == 4 {
        return b.answer().number == 4;
    }
    false
}

// What `read_two` answered and left of a source twice behind a prelude: the first n words of each half are those of its table, or there are too many symbols.
fn told(
    t: Tally,
    name: &[u8],
    a: Verdict,
    b: Verdict,
    words: &[u16],
    table: &[u16],
    n: usize,
) -> Tally
    requires { n ≤ 16384 }
    ensures { result ≡ after_behind a b words.now table.now n t }
{
    if accepted(a) {
        let taken = t
            .source()
            .check(accepted(b), name, b"refused behind a prelude");
        let one = taken.check(
            same_front(table, words, 0, n),
            name,
            b"other words behind a prelude",
        );
        return one.check(
            same_front(table, words, 16384, n),
            name,
            b"other words behind a prelude",
        );
    }
    t.check(is_over(a, b), name, b"refused behind a prelude")
}

// A source with this table, twice behind a prelude.
fn behind(t: Tally, name: &[u8], prelude: &[u8], source: &[u8], table: &[u16], n: usize) -> Tally
    requires { n ≤ 16384 }
    ensures { BehindTold prelude.now source.now table.now n t result }
{
    let mut words = [0u16; 32768];
    let said = read_two(prelude, source, source, &mut words);
    let a = said.first;
    let b = said.second;
    told(t, name, a, b, &words, table, n)
}

// A source, where `read` accepts it: every word of a half behind an empty prelude; or its uses behind two procedures whose names it does not use.
fn compare(t: Tally, name: &[u8], source: &[u8], named: bool) -> Tally
    ensures { SourceTold source.now named t result }
{
    let mut table = [0u16; 32768];
    let verdict = read(source, &mut table);
    if !accepted(verdict) {
        return t;
    }
    if named {
        let n = clipped(3 * word_at(&table, 0) as u64 + 1, 16384);
        return behind(
            t,
            name,
            b"'integer' 'procedure' zzone; zzone := 1; 'procedure' zztwo; ;",
            source,
            &table,
            n,
        );
    }
    behind(t, name, &source[..0], source, &table, 16384)
}

// The source of the row at `from` of `index`.
fn one(rt: &HostRuntime, t: Tally, index: &[u8], from: usize, named: bool) -> Tally
    requires { from + 49 ≤ length index.now }
    ensures { (source : List ℕ) × SourceTold source named t result }
{
    let mut source = buffer();
    let n = loaded(rt, index, from, &mut source);
    let end = name_end(index, from);
    compare(t, &index[from..end], &source[..n], named)
}

// Every row of `index` counts.
fn sources(rt: &HostRuntime, index: &[u8], named: bool) -> Tally
    ensures { Sources (length index.now / 49) named result }
{
    let mut t = Tally::new();
    for k in 0..index.len() / ROW {
        t = one(rt, t, index, ROW * k, named);
    }
    t
}

fn show(t: Tally, what: &[u8]) {
    print_count(t.sources);
    print(what);
    print_count(t.differences);
    print(b" differences");
}

// The rows of both files, counted and shown.
pub fn all(rt: &HostRuntime) {
    let mut buf = buffer();
    let n = load(rt, b"twos", &mut buf);
    let two = pairs(rt, &buf[..n]);
    let m = load(rt, b"index", &mut buf);
    let alone = sources(rt, &buf[..m], false);
    let named = sources(rt, &buf[..m], true);
    print_count(two.runs);
    print(b" runs of ");
    show(two, b" pairs of schemes, ");
    print(b"\nbehind an empty prelude: ");
    show(alone, b" sources, ");
    print(b"; behind two procedures: ");
    show(named, b" sources, ");
    print(b"\n");
}
