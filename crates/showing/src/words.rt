// Paper 01's words for its numbered answers, in one sentence each. Where a number has several cases, what stands at the
// place tells which ones it can be.
ghost use Rattle.std.specs.Prelude.{◌≡◌, get_or};
ghost use Rattle.showing.specs.Pages.{byte_behind};

use crate::system::{STDOUT, System};
use crate::text::{tell, tell_file, tell_number, tell_place, tell_spot};
use symbols::lexemes::lexeme;
use symbols::text::{is_blank, is_digit, is_letter, is_name_byte};
use symbols::{Lexeme, Symbol};

// A byte of the source; 0 behind its end.
fn byte_at(source: &[u8], at: usize) -> u8
    ensures { result ≡ get_or source.now at 0 }
{
    source.get(at).copied().unwrap_or(0)
}

fn tell_no_symbol(system: &System, to: i32, b: u8) {
    if b == b'\'' {
        tell(
            system,
            to,
            b"the apostrophe stays open, or the word is no delimiter word, or the note has no `;`",
        );
    } else if b == b'.' {
        tell(system, to, b"no digit stands behind the point");
    } else {
        tell(system, to, b"no symbol begins with this byte");
    }
}

fn tell_too_large(system: &System, to: i32, b: u8) {
    if is_digit(b) {
        tell(
            system,
            to,
            b"the number is over 2,147,483,647, or has a point and over 15 digits, or this is symbol 2,049",
        );
    } else if b == b'.' {
        tell(
            system,
            to,
            b"the number has over 15 digits, or this is symbol 2,049",
        );
    } else if is_letter(b) {
        tell(
            system,
            to,
            b"the name has over 32 characters, or this is symbol 2,049",
        );
    } else {
        tell(
            system,
            to,
            b"this is symbol 2,049, notes and remarks not counted",
        );
    }
}

fn tell_grammar(system: &System, to: i32, ended: bool) {
    if ended {
        tell(system, to, b"the source ends where no program can end");
    } else {
        tell(system, to, b"no program can have this symbol here");
    }
}

// A type fault at a delimiter word, by what it is.
fn tell_type_of_word(system: &System, to: i32, word: Symbol) {
    match word {
        Symbol::While => tell(system, to, b"the condition is not Boolean"),
        Symbol::If => tell(
            system,
            to,
            b"the condition is not Boolean, or a wrong actual or for expression begins here",
        ),
        Symbol::Else => tell(
            system,
            to,
            b"of the 'then' part and the 'else' part one is Boolean and the other is not",
        ),
        Symbol::Not => tell(
            system,
            to,
            b"the operand is of the wrong type, or a wrong actual or for expression begins here",
        ),
        Symbol::True | Symbol::False => tell(
            system,
            to,
            b"a wrong actual or for expression begins here",
        ),
        _ => tell(system, to, b"an operand is of the wrong type"),
    }
}

// The byte behind the name at a place and the blanks behind it; 0 where the source ends.
fn byte_behind(source: &[u8], at: usize) -> u8
    ensures { result ≡ byte_behind source.now at }
{
    for i in at..source.len() {
        let b = source[i];
        if !is_name_byte(b) && !is_blank(b) {
            return b;
        }
    }
    0
}

// A type fault at a name; a left part or controlled variable is known by the `:=` behind it.
fn tell_type_of_name(system: &System, to: i32, behind: u8) {
    if behind == b':' {
        tell(
            system,
            to,
            b"the left part is no variable, formal or typed procedure inside its own body, or not of the first one's type, ",
        );
        tell(
            system,
            to,
            b"or the controlled variable is no integer or real variable or formal",
        );
    } else {
        tell(
            system,
            to,
            b"the name is used as what it isn't, or with a wrong number of actuals, ",
        );
        tell(
            system,
            to,
            b"or a wrong actual or for expression begins here",
        );
    }
}

fn tell_type(system: &System, to: i32, source: &[u8], place: usize) {
    let b = byte_at(source, place);
    match b {
        b':' => tell(
            system,
            to,
            b"of the left part and the right side one is Boolean and the other is not",
        ),
        b'*' | b'/' | b'%' | b'<' | b'=' | b'>' | b'#' => tell(
            system,
            to,
            b"an operand is of the wrong type",
        ),
        b'+' | b'-' => {
            tell(
                system,
                to,
                b"an operand is of the wrong type, or a wrong actual or for expression begins here",
            )
        }
        b'\'' => {
            let l = lexeme(source, place);
            if let Lexeme::Is(word, _) = l {
                tell_type_of_word(system, to, word);
            }
        }
        b'(' | b'.' | b'0'..=b'9' => tell(
            system,
            to,
            b"a wrong actual or for expression begins here",
        ),
        _ => tell_type_of_name(system, to, byte_behind(source, place)),
    }
}

// Of names: 7 to 9.
fn tell_names(system: &System, to: i32, number: u16) {
    match number {
        7 => {
            tell(
                system,
                to,
                b"the name is declared twice in one block, or is a formal repeated or named as its procedure",
            )
        }
        8 => tell(
            system,
            to,
            b"the name has no declaration, formal or environment entry",
        ),
        _ => {
            tell(
                system,
                to,
                b"the value part or a specification names no formal or repeats one, ",
            );
            tell(
                system,
                to,
                b"or, at a procedure's name, a formal of it has no specification",
            )
        }
    }
}

// Of runs.
fn tell_run(system: &System, to: i32, number: u16) {
    match number {
        20 => tell(system, to, b"the instruction limit is reached"),
        21 => tell(
            system,
            to,
            b"the result is outside -2,147,483,648 to 2,147,483,647, or is no finite real",
        ),
        22 => tell(system, to, b"the divisor is zero"),
        23 => tell(
            system,
            to,
            b"an unassigned variable, formal or needed result is read",
        ),
        24 => tell(system, to, b"the input has ended"),
        25 => tell(system, to, b"the output is full"),
        26 => tell(system, to, b"one more cell is needed than the run may use"),
        27 => tell(system, to, b"a 257th activation would be live"),
        28 => tell(system, to, b"the channel is not 1"),
        30 => tell(
            system,
            to,
            b"a formal called by name is stored to, and its actual is no variable",
        ),
        _ => {
            tell(
                system,
                to,
                b"there is no instruction at the counter, or an operand is outside its range, ",
            );
            tell(
                system,
                to,
                b"or a value is taken where none is held, or is of another type than the instruction takes",
            )
        }
    }
}

// The sentence for an answer.
fn tell_sentence(system: &System, to: i32, number: u16, source: &[u8], place: usize) {
    match number {
        1 => tell(system, to, b"the table or the code is too short"),
        2 => tell(system, to, b"the source is over 16,384 bytes"),
        3 => tell_no_symbol(system, to, byte_at(source, place)),
        4 => tell_too_large(system, to, byte_at(source, place)),
        5 => tell_grammar(system, to, source.len() <= place),
        6 => tell(
            system,
            to,
            b"depth 65 would begin here, and the greatest depth is 64",
        ),
        7..=9 => tell_names(system, to, number),
        10 => tell_type(system, to, source, place),
        _ => tell_run(system, to, number),
    }
}

pub fn say_answer(system: &System, number: u16, source: &[u8], place: usize) {
    tell_sentence(system, STDOUT, number, source, place);
}

// An answer as people want it: file, line and column, how it was given, number, sentence, and the line with a mark under
// the place.
pub fn tell_answer(
    system: &System,
    to: i32,
    name: &[u8],
    source: &[u8],
    how: &[u8],
    number: u16,
    place: usize,
) {
    tell_file(system, to, name);
    tell(system, to, b":");
    tell_spot(system, to, source, place);
    tell(system, to, how);
    tell_number(system, to, number as u64);
    tell(system, to, b": ");
    tell_sentence(system, to, number, source, place);
    tell(system, to, b"\n");
    tell_place(system, to, source, place);
}

pub fn show_answer(
    system: &System,
    name: &[u8],
    source: &[u8],
    how: &[u8],
    number: u16,
    place: usize,
) {
    tell_answer(system, STDOUT, name, source, how, number, place);
}

// A run's answer that has no place in the source.
pub fn tell_placeless(system: &System, to: i32, name: &[u8], how: &[u8], number: u16) {
    tell_file(system, to, name);
    tell(system, to, how);
    tell_number(system, to, number as u64);
    tell(system, to, b": ");
    tell_run(system, to, number);
    tell(system, to, b"\n");
}
