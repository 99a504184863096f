// A source as people see it: lines and columns, a line with a mark under a place, the letters of a name. And what is
// printed: to standard output what was asked for, to standard error what was wrong with the asking.
ghost use Rattle.std.specs.Prelude.{◌≡◌, cond, ◌<◌, ◌≤◌, min, length, get_or};
ghost use Rattle.io.specs.Counts.{IsPrefixLen};
ghost use Rattle.showing.specs.Characters.{inside};
ghost use Rattle.showing.specs.Pages.{line_of, column_of, start_of, Fills, shown_byte, shown_start, shown_at, shown_from, under_byte, marks_from};
ghost use Rattle.symbols.specs.Names.{letters_at};

use crate::characters::{beginning, is_inside, whole, width};
use crate::system::{STDERR, STDOUT, System};
use crate::taken::{put, put_number};
use symbols::text::{find, is_blank, is_name_byte};

// No source is longer than the room that it is read into.
const LONGEST: usize = 65536;

// How far from its beginning a place is shown in the line as it stands; of a longer line only the part around it is.
const NEAR: usize = 80;

// How much of a long line stands before the place.
const BEFORE: usize = 60;

// A text to a descriptor: a refusal is said to standard output where it was asked for, and to standard error where a page was.
pub fn tell(system: &System, to: i32, text: &[u8]) {
    put(system, to, text);
}

pub fn tell_number(system: &System, to: i32, n: u64) {
    put_number(system, to, n);
}

pub fn say(system: &System, text: &[u8]) {
    tell(system, STDOUT, text);
}

pub fn say_number(system: &System, n: u64) {
    tell_number(system, STDOUT, n);
}

// A number, with the sign - where it is below 0.
pub fn say_whole(system: &System, x: i64) {
    if x >= 0 {
        say_number(system, x as u64);
        return;
    }
    say(system, b"-");
    say_number(system, (-1 - x) as u64 + 1);
}

pub fn complain(system: &System, text: &[u8]) {
    tell(system, STDERR, text);
}

// A text that somebody typed, byte by byte as it is shown.
pub fn tell_typed(system: &System, to: i32, text: &[u8]) {
    for i in 0..text.len() {
        tell(system, to, &[shown_at(text, i)]);
    }
}

// A file, as people know it.
pub fn tell_file(system: &System, to: i32, name: &[u8]) {
    if name == b"-".as_slice() {
        tell(system, to, b"standard input");
    } else {
        tell_typed(system, to, name);
    }
}

pub fn say_file(system: &System, name: &[u8]) {
    tell_file(system, STDOUT, name);
}

// A place as people count: line and column from 1, and the byte at which its line begins.
#[derive(Clone, Copy)]
pub struct Spot {
    pub line: u64,
    pub column: u64,
    pub start: usize,
}

// The spot of a place, also of one behind the end of the source; one past the longest source is cut.
pub fn spot_of(source: &[u8], place: usize) -> Spot
    ensures line { result.line ≡ line_of source.now (min place 65536) }
    ensures column { result.column ≡ column_of source.now (min place 65536) }
    ensures start { result.start ≡ start_of source.now (min place 65536) }
    ensures start_le_place { result.start ≤ place }
{
    let end = place.min(LONGEST);
    let mut line: u64 = 1;
    let mut start: usize = 0;
    for i in 0..end.min(source.len()) {
        if source[i] == b'\n' {
            line += 1;
            start = i + 1;
        }
    }
    Spot {
        line,
        column: (end - start) as u64 + 1,
        start,
    }
}

// LINE:COLUMN.
pub fn tell_spot(system: &System, to: i32, source: &[u8], place: usize) {
    let s = spot_of(source, place);
    tell_number(system, to, s.line);
    tell(system, to, b":");
    tell_number(system, to, s.column);
}

pub fn say_spot(system: &System, source: &[u8], place: usize) {
    tell_spot(system, STDOUT, source, place);
}

// Where what is shown of a line begins.
#[tactic(auto, unfolding(crate::specs::Pages::shown_start))]
fn shown_from(start: usize, place: usize) -> usize
    requires { start ≤ place }
    ensures value { result ≡ shown_start start place }
    ensures upper_bound { result ≤ place }
{
    if place - start < NEAR {
        start
    } else {
        place - BEFORE
    }
}

// A byte as it is shown: nothing in a source moves the cursor but a tab.
#[tactic(auto, unfolding(crate::specs::Pages::shown_byte))]
fn shown(b: u8) -> u8
    ensures { result ≡ shown_byte b }
{
    match b {
        9 => 9,
        13 => 32,
        0..=31 => 63,
        127 => 63,
        _ => b,
    }
}

// The byte of a place as it is shown: from 128 on as it stands if it is part of a character that is shown.
#[tactic(auto, unfolding(crate::specs::Pages::shown_at))]
fn shown_at(source: &[u8], i: usize) -> u8
    requires { i < length source.now }
    ensures { result ≡ shown_at source.now i }
{
    let b = source[i];
    if b < 128 {
        shown(b)
    } else if is_inside(source, i) || 1 < width(source, i) {
        b
    } else {
        63
    }
}

// The bytes of a line from a place on, as many as the row takes; gives how many.
fn line_row(source: &[u8], from: usize, row: &mut [u8]) -> usize
    ensures fills { Fills (shown_from source.now from) row.old row.new result }
    ensures prefix_len { IsPrefixLen result row.new }
{
    let mut n: usize = 0;
    for i in from..source.len() {
        if row.len() <= n || source[i] == b'\n' {
            return n;
        }
        row[n] = shown_at(source, i);
        n += 1;
    }
    n
}

// What stands under a place before the mark: a tab under a tab, a blank under anything else, and nothing inside a character.
#[tactic(auto, unfolding(crate::specs::Pages::under_byte))]
fn under(source: &[u8], i: usize) -> u8
    requires { i < length source.now }
    ensures { result ≡ cond (inside source.now i) 0 (under_byte (get_or source.now i 0)) }
{
    if is_inside(source, i) {
        0
    } else if source[i] == 9 {
        9
    } else {
        32
    }
}

// What stands before the mark, as many bytes as the row takes; gives how many.
fn mark_row(source: &[u8], from: usize, place: usize, row: &mut [u8]) -> usize
    ensures fills { Fills (marks_from source.now from place) row.old row.new result }
    ensures prefix_len { IsPrefixLen result row.new }
{
    let mut n: usize = 0;
    for i in from..place.min(source.len()) {
        if row.len() <= n {
            return n;
        }
        let b = under(source, i);
        if b != 0 {
            row[n] = b;
            n += 1;
        }
    }
    n
}

fn tell_line(system: &System, to: i32, source: &[u8], from: usize) {
    let mut row = [0u8; 100];
    let n = line_row(source, from, &mut row);
    let k = whole(source, from, n);
    tell(system, to, &row[..k]);
    tell(system, to, b"\n");
}

fn tell_mark(system: &System, to: i32, source: &[u8], from: usize, place: usize) {
    let mut row = [0u8; 100];
    let n = mark_row(source, from, place, &mut row);
    tell(system, to, b"    ");
    tell(system, to, &row[..n]);
    tell(system, to, b"^\n");
}

// The line of a place, and a mark under the place.
pub fn tell_place(system: &System, to: i32, source: &[u8], place: usize) {
    let s = spot_of(source, place);
    let start = s.start;
    let from = beginning(source, shown_from(start, place));
    if start < from {
        tell(system, to, b" .. ");
    } else {
        tell(system, to, b"    ");
    }
    tell_line(system, to, source, from);
    tell_mark(system, to, source, from, place);
}

// The letters and digits of the name at a place, as many as the row takes; gives how many.
fn name_row(source: &[u8], at: usize, row: &mut [u8]) -> usize
    ensures fills { Fills (letters_at source.now at) row.old row.new result }
    ensures prefix_len { IsPrefixLen result row.new }
{
    let mut n: usize = 0;
    for i in at..source.len() {
        let b = source[i];
        if is_name_byte(b) {
            if row.len() <= n {
                return n;
            }
            row[n] = b;
            n += 1;
        } else if !is_blank(b) {
            return n;
        }
    }
    n
}

// The name at a place, without the blanks in it.
pub fn say_name(system: &System, source: &[u8], at: usize) {
    let mut row = [0u8; 32];
    let n = name_row(source, at, &mut row);
    say(system, &row[..n]);
}

// Line n of a text, from 0 on; nothing behind the last one.
pub fn say_nth(system: &System, text: &[u8], n: usize) {
    let mut at: usize = 0;
    for _ in 0..n {
        let end = find(text, at, b'\n');
        if text.len() <= end {
            return;
        }
        at = end + 1;
    }
    say(system, &text[at..find(text, at, b'\n')]);
}

// A text so many times.
pub fn say_times(system: &System, text: &[u8], n: usize) {
    for _ in 0..n {
        say(system, text);
    }
}

// Blanks.
pub fn say_blanks(system: &System, n: usize) {
    say_times(system, b" ", n);
}
