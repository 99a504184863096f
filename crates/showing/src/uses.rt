// The cross-reference: each use with its place, its name, its kind, and where its declaration stands.
ghost use Rattle.std.specs.Prelude.{◌<◌};

use crate::system::System;
use crate::text::{say, say_name, say_number, say_spot};
use table::sections::word;

fn say_kind(system: &System, kind: usize) {
    match kind {
        1 => say(system, b"variable"),
        2 => say(system, b"procedure"),
        3 => say(system, b"formal"),
        _ => say(system, b"of the environment"),
    }
}

// The use whose words begin at `at`.
fn show_use(system: &System, source: &[u8], table: &[u16], at: usize)
    requires { at < 262144 }
{
    let place = word(table, at);
    let kind = word(table, at + 1);
    say_spot(system, source, place);
    say(system, b" ");
    say_name(system, source, place);
    say(system, b": ");
    say_kind(system, kind);
    if 0 < kind {
        say(system, b", declared at ");
        say_spot(system, source, word(table, at + 2));
    }
    say(system, b"\n");
}

pub fn show_uses(system: &System, source: &[u8], table: &[u16]) {
    let n = word(table, 0);
    for k in 0..n {
        show_use(system, source, table, 3 * k + 1);
    }
}

// The words of the use section, each after a blank.
pub fn say_use_words(system: &System, table: &[u16]) {
    let n = 3 * word(table, 0) + 1;
    for i in 0..n {
        say(system, b" ");
        say_number(system, word(table, i) as u64);
    }
}

// The words of the use that begins at `at`, on a line.
fn show_row(system: &System, table: &[u16], at: usize)
    requires { at < 262144 }
{
    say_number(system, word(table, at) as u64);
    say(system, b" ");
    say_number(system, word(table, at + 1) as u64);
    say(system, b" ");
    say_number(system, word(table, at + 2) as u64);
    say(system, b"\n");
}

// The use section alone, as lists of it are sent: the count on its line, then a use a line.
pub fn show_section(system: &System, table: &[u16]) {
    let n = word(table, 0);
    say_number(system, n as u64);
    say(system, b"\n");
    for k in 0..n {
        show_row(system, table, 3 * k + 1);
    }
}
