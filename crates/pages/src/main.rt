// Shows the symbols of the source that its argument names, and whether they are a program, or the refusal. With no
// argument it runs the sources that the file `index` lists and says which answers differ from those listed.
#![tactic(auto)]

ghost use Rattle.std.specs.Prelude.{◌≡◌, ◌<◌, ◌≤◌, length};

use grammar::Fault;
use showing::system::System;
use showing::text::{say, say_name, say_nth, say_number};
use std::os::fd::AsRawFd;
use symbols::Symbol;
use symbols::kinds::{decode, unpack};
use symbols::scanning::scan;
use syntax::parse;

// A row of `index`: a name of 24 bytes, an answer of 3 digits, a place or count of 6.
const ROW: usize = 36;

// A number with a point: its digits as one whole number, over ten to the power of how many stand behind the point.
fn say_decimal(system: &System, word: u64) {
    let u = unpack(word);
    say_number(system, u.digits);
    say(system, b" / 10^");
    say_number(system, u.behind as u64);
}

// A symbol's text: a name's letters stand in the source, a number's value beside its kind, and the others here, a line a kind.
fn say_symbol(system: &System, source: &[u8], kind: u8, value: u64, at: usize) {
    match decode(kind, value) {
        Symbol::Name => say_name(system, source, at),
        Symbol::Number(v) => say_number(system, v),
        Symbol::Decimal(w) => say_decimal(system, w),
        Symbol::Real => say(system, b"'real'"),
        Symbol::Slash => say(system, b"/"),
        _ => say_nth(
            system,
            b"'begin'
'end'
'if'
'then'
'else'
'for'
'do'
'step'
'until'
'while'
'comment'
'integer'
'Boolean'
'procedure'
'value'
'true'
'false'
'and'
'or'
'not'
'impl'
'equiv'
+
-
*
%
<
<=
=
>=
>
#
,
:
:=
;
(
)",
            kind as usize,
        ),
    }
}

fn show_symbol(system: &System, source: &[u8], kind: u8, value: u64, at: usize) {
    say_number(system, at as u64);
    say(system, b" ");
    say_symbol(system, source, kind, value, at);
    say(system, b"\n");
}

fn show_symbols(
    system: &System,
    source: &[u8],
    n: usize,
    kinds: &[u8; 2048],
    places: &[usize; 2048],
    values: &[u64; 2048],
) {
    for i in 0..n.min(2048) {
        show_symbol(system, source, kinds[i], values[i], places[i]);
    }
}

// An answer and a place or count.
#[derive(Clone, Copy)]
pub struct Told {
    pub answer: u16,
    pub number: usize,
}

fn refused(system: &System, answer: u16, place: usize) -> Told {
    say_number(system, answer as u64);
    say(system, b" at ");
    say_number(system, place as u64);
    say(system, b"\n");
    Told {
        answer,
        number: place,
    }
}

// The place of symbol k, or the source's length behind the last one.
fn place_of(source: &[u8], places: &[usize; 2048], n: usize, k: usize) -> usize {
    match places.get(k) {
        Some(place) if k < n => *place,
        _ => source.len(),
    }
}

// Whether the symbols are a program.
fn judge(
    system: &System,
    source: &[u8],
    n: usize,
    kinds: &[u8; 2048],
    places: &[usize; 2048],
) -> Told {
    let mut nodes = [0u16; 32768];
    match parse(kinds, n, &mut nodes) {
        Ok(_) => {
            say(system, b"a program\n");
            Told {
                answer: 0,
                number: n,
            }
        }
        Err(Fault { answer, at }) => refused(
            system,
            answer.number,
            place_of(source, places, n, at),
        ),
    }
}

// Reads a source and shows what it finds, the symbols only where `shown` says so. A source over 16,384 bytes is 2.
fn tell(system: &System, source: &[u8], shown: bool) -> Told {
    if 16384 < source.len() {
        return refused(system, 2, 16384);
    }
    let mut kinds = [0u8; 2048];
    let mut places = [0usize; 2048];
    let mut values = [0u64; 2048];
    match scan(source, 2048, &mut kinds, &mut places, &mut values) {
        Ok(n) => {
            say_number(system, n as u64);
            say(system, b" symbols\n");
            if shown {
                show_symbols(system, source, n, &kinds, &places, &values);
            }
            judge(system, source, n, &kinds, &places)
        }
        Err(r) => {
            let a = r.answer.number;
            let p = r.place.at;
            refused(system, a, p)
        }
    }
}

fn digit(b: u8) -> usize
    ensures { result < 10 }
{
    match b {
        b'0'..=b'9' => usize::from(b - b'0'),
        _ => 0,
    }
}

// The number that digits spell.
fn number_in(text: &[u8]) -> usize {
    let mut v: usize = 0;
    for b in text {
        v = (10 * v + digit(*b)) % 1000000;
    }
    v
}

// Where the name at the front of what is left of the index ends.
fn name_end(rest: &[u8]) -> usize
    ensures { result ≤ length rest.now }
{
    rest.iter().position(|b| *b == b' ').unwrap_or(rest.len())
}

// Runs the row that begins what is left of the index; true where the answer is the listed one.
fn run_row(system: &System, row: &[u8]) -> bool
    requires { 36 ≤ length row.now }
{
    let name = &row[..name_end(row)];
    let mut buf = io::large_buffer();
    say(system, name);
    say(system, b": ");
    let Ok(file) = system.open_read(name) else {
        say(system, b"missing\n");
        return false;
    };
    let n = io::read_full(file.as_raw_fd(), &mut buf);
    let told = tell(system, &buf[..n], n <= 300);
    let answer = number_in(&row[24..27]);
    let number = number_in(&row[28..34]);
    if usize::from(told.answer) == answer && told.number == number {
        return true;
    }
    say(system, b"  differs\n");
    false
}

fn say_counts(system: &System, rows: u64, differing: u64) {
    say_number(system, rows);
    say(system, b" sources, ");
    say_number(system, differing);
    say(system, b" differ\n");
}

fn run_rows(system: &System, index: &[u8]) {
    let rows = index.len() / ROW;
    let mut differing: u64 = 0;
    for i in 0..rows {
        let at = ROW * i;
        differing += u64::from(!run_row(system, &index[at..]));
    }
    say_counts(system, rows as u64, differing);
}

fn run_index(system: &System) {
    let mut buf = io::large_buffer();
    let file = match system.open_read(b"index") {
        Ok(file) => file,
        Err(error) => {
            system.fail(b"index", error);
            return;
        }
    };
    let n = io::read_full(file.as_raw_fd(), &mut buf);
    run_rows(system, &buf[..n]);
}

fn main(rt: HostRuntime) {
    let system = System::new(rt);
    if system.argument_count() < 2 {
        run_index(&system);
        return;
    }
    let mut path = io::buffer();
    let length = system.argument(1, &mut path).unwrap_or(0);
    let mut buf = io::large_buffer();
    let file = match system.open_read(&path[..length]) {
        Ok(file) => file,
        Err(error) => {
            system.fail(&path[..length], error);
            return;
        }
    };
    let n = io::read_full(file.as_raw_fd(), &mut buf);
    tell(&system, &buf[..n], true);
}
