// Which bytes of a source are words and names, and what each name means: one walk over the symbols, with the table's uses beside it, since
// both come in source order.
ghost use Rattle.std.specs.Prelude.{ℕ, ◌+◌, ◌<◌, ◌≤◌, length};
ghost use Rattle.webpage.specs.Looks.{Behind, Unmarked, Unmarking, Clean, Marked};

use crate::looks::{look, paint};
use crate::{levels, looks};
use answers::Place;
use symbols::Lexeme;
use symbols::lexemes::lexeme;
use symbols::names::same_name;
use symbols::scanning::scan;
use symbols::text::{is_letter, is_name_byte};
use table::sections::{sections_of, word};

// Where no symbol is.
const NOWHERE: usize = 65536;

// The byte behind a symbol, and behind the blanks after a name or number.
fn symbol_end(source: &[u8], at: usize) -> usize
    requires { at < length source.now }
    ensures { (at < result) × (result ≤ length source.now) }
{
    let more = match lexeme(source, at) {
        Lexeme::Is(_, k) => k,
        Lexeme::Large(k) => k,
        Lexeme::Nothing => 0,
    };
    at + 1 + more.min(source.len() - at - 1)
}

// Whether the declaration whose words begin at `row` has its name at a place, or is a formal before it with the name there.
fn is_row(source: &[u8], table: &[u16], row: usize, at: usize) -> bool
    requires { row < 1048576 }
{
    let place = word(table, row);
    if place < at && word(table, row + 1) == 3 {
        return same_name(source, Place { at: place }, Place { at });
    }
    place == at
}

// The number of the last such declaration, counted from 1; 0 where there is none.
fn number_of(source: &[u8], table: &[u16], at: usize) -> usize
    ensures { result < 65536 }
{
    let s = sections_of(table);
    for d in (1..=word(table, s.declarations)).rev() {
        if is_row(source, table, s.declarations + 4 * d - 3, at) {
            return d;
        }
    }
    0
}

// Whether the use whose words begin at `row` stands at a place.
fn is_use(table: &[u16], row: usize, at: usize) -> bool {
    let s = sections_of(table);
    row < s.declarations && word(table, row) == at
}

// The look of the symbol at a place, where the next use has its words at `row`. A name is that use, or declares, or stands in a value part
// or specification, or nothing is known of it.
fn symbol_look(source: &[u8], table: &[u16], row: usize, at: usize) -> u32
    requires { (row < 1048576) × (at < length source.now) }
    ensures { Unmarked result }
{
    let s = sections_of(table);
    let means = word(table, row + 2);
    if source[at] == b'\'' {
        return looks::WORD;
    }
    if !is_letter(source[at]) {
        return looks::PLAIN;
    }
    if is_use(table, row, at) {
        if word(table, row + 1) == 0 {
            return look(looks::GIVEN, means);
        }
        return look(looks::USE, number_of(source, table, means));
    }
    let d = number_of(source, table, at);
    if d == 0 {
        return looks::PLAIN;
    }
    if word(table, s.declarations + 4 * d - 3) == at {
        return look(looks::DECLARED, d);
    }
    look(looks::LISTED, d)
}

// Where the words of the next use begin behind a place.
fn next_use(table: &[u16], row: usize, at: usize) -> usize
    requires { row < 1048576 }
    ensures { result ≤ row + 3 }
{
    if is_use(table, row, at) { row + 3 } else { row }
}

// The place of symbol k, or the source's length where there is none.
fn place_at(source: &[u8], places: &[usize; 2048], k: usize) -> usize
    ensures { result ≤ length source.now }
{
    match places.get(k) {
        Some(place) => source.len().min(*place),
        None => source.len(),
    }
}

// The symbols of a source, with what the table says of its names.
fn paint_symbols(source: &[u8], table: &[u16], looks: &mut [u32], levels: &mut [u32])
    ensures unmarking { Unmarking (length source.now) looks.old looks.new }
    ensures behind { Behind (length source.now) levels.old levels.new }
{
    let mut kinds = [33u8; 2048];
    let mut places = [NOWHERE; 2048];
    let mut values = [0u64; 2048];
    let mut stack = [0u32; 2048];
    let mut open: usize = 0;
    let mut row: usize = 1;
    // The symbols before a refusal are painted too.
    let _ = scan(source, 2048, &mut kinds, &mut places, &mut values);
    for k in 0..2048 {
        let at = place_at(source, &places, k);
        if source.len() <= at {
            return;
        }
        let then = place_at(source, &places, k + 1);
        open = levels::pass(open, &mut stack, &kinds, k, levels, at, then);
        paint(
            looks,
            at,
            symbol_end(source, at),
            symbol_look(source, table, row, at),
        );
        row = next_use(table, row, at);
    }
}

// What is no symbol of an accepted source is a note, a remark or blank.
pub fn paint_accepted(source: &[u8], table: &[u16], looks: &mut [u32], levels: &mut [u32])
    ensures clean { Clean (length source.now) looks.old looks.new }
    ensures behind { Behind (length source.now) levels.old levels.new }
{
    paint(looks, 0, source.len(), looks::NOTE);
    paint_symbols(source, table, looks, levels);
}

// The byte behind what is refused at a place: a name or number, or else the character there, which has the look of its first byte.
fn mark_end(source: &[u8], place: usize, next: usize) -> usize
    ensures lower_bound { place < next → place < result }
    ensures by_index { (i : ℕ) → length source.now ≤ i → next ≤ i → result ≤ i }
{
    if place < source.len() && (is_name_byte(source[place]) || source[place] == b'.') {
        return symbol_end(source, place);
    }
    next
}

// How far the notes of a refused source are known: where all its symbols are, which the numbers from 5 on say.
fn notes_end(source: &[u8], number: u16) -> usize
    ensures { result ≤ length source.now }
{
    if 5 <= number { source.len() } else { 0 }
}

// A refused source has no names and no levels.
pub fn paint_refused(source: &[u8], number: u16, place: usize, looks: &mut [u32])
    ensures { Marked (length source.now) place looks.old looks.new }
{
    let none = [0u16; 1];
    let mut levels = [0u32; 1];
    paint(looks, 0, notes_end(source, number), looks::NOTE);
    paint_symbols(source, &none, looks, &mut levels);
    if looks.len() <= place {
        return;
    }
    paint(
        looks,
        place,
        mark_end(source, place, place + 1),
        looks::MARKED,
    );
}
