// Behind the source: its declarations with the places that use them, what it uses of the environment, and both tables as text.
ghost use Rattle.std.specs.Prelude.{◌<◌};

use crate::looks;
use showing::levels::show_levels;
use showing::system::System;
use showing::text::{say, say_name, say_nth, say_number, say_spot, spot_of};
use showing::uses::show_uses;
use table::sections::{sections_of, word};

// A place as a link to its line, after a comma where others come before it.
fn say_link(system: &System, source: &[u8], place: usize, more: bool) {
    let s = spot_of(source, place);
    if more {
        say(system, b", ");
    }
    say(system, b"<a href=\"#l");
    say_number(system, s.line);
    say(system, b"\">");
    say_spot(system, source, place);
    say(system, b"</a>");
}

// Use k as a link, if it is of a declaration, or else of the environment, and means this; gives whether there is one now.
fn show_use(
    system: &System,
    source: &[u8],
    table: &[u16],
    k: usize,
    declared: bool,
    what: usize,
    more: bool,
) -> bool
    requires { k < 65536 }
{
    let at = 1 + 3 * k;
    let of = 0 < word(table, at + 1);
    if of != declared || word(table, at + 2) != what {
        return more;
    }
    say_link(system, source, word(table, at), more);
    true
}

// The places of the uses that mean something.
fn show_used(system: &System, source: &[u8], table: &[u16], declared: bool, what: usize) {
    let n = word(table, 0);
    let mut more = false;
    for k in 0..n {
        more = show_use(system, source, table, k, declared, what, more);
    }
}

// Between two columns.
fn next_column(system: &System) {
    say(system, b"</td><td>");
}

// The declaration with a number, from 0 on.
fn show_declaration(system: &System, source: &[u8], table: &[u16], levels: &[u32], d: usize)
    requires { d < 65536 }
{
    let s = sections_of(table);
    let row = s.declarations + 1 + 4 * d;
    let place = word(table, row);
    let sort = word(table, row + 3);
    say(system, b"<tr><td><a href=\"#d");
    say_number(system, d as u64 + 1);
    say(system, b"\">");
    say_number(system, d as u64 + 1);
    say(system, b"</a></td><td>");
    say_name(system, source, place);
    next_column(system);
    say_nth(
        system,
        b"\nvariable\nprocedure\nformal by value\nformal by name",
        word(table, row + 1) + sort / 4,
    );
    next_column(system);
    say_nth(system, b"\ninteger\nBoolean\nreal", sort % 4);
    next_column(system);
    say_number(system, looks::at(levels, place) as u64);
    next_column(system);
    say_link(system, source, place, false);
    next_column(system);
    show_used(system, source, table, true, place);
    say(system, b"</td></tr>\n");
}

fn show_declarations(system: &System, source: &[u8], table: &[u16], levels: &[u32]) {
    let s = sections_of(table);
    let n = word(table, s.declarations);
    for d in 0..n {
        show_declaration(system, source, table, levels, d);
    }
}

// What the environment gives under a number, and where it is used.
fn show_given(
    system: &System,
    source: &[u8],
    table: &[u16],
    number: usize,
    name: &[u8],
    kind: &[u8],
) {
    say(system, b"<tr><td id=\"e");
    say_number(system, number as u64);
    say(system, b"\">");
    say(system, name);
    next_column(system);
    say(system, kind);
    next_column(system);
    show_used(system, source, table, false, number);
    say(system, b"</td></tr>\n");
}

pub fn show_lists(system: &System, source: &[u8], table: &[u16], levels: &[u32]) {
    say(
        system,
        b"<h2>Declarations</h2>\n<table class=\"list\">\n<tr><th>no.</th><th>name</th><th>kind</th><th>type</th><th>level</th><th>declared at</th><th>used at</th></tr>\n",
    );
    show_declarations(system, source, table, levels);
    say(
        system,
        b"</table>\n<h2>The environment</h2>\n<table class=\"list\">\n<tr><th>name</th><th>kind</th><th>used at</th></tr>\n",
    );
    show_given(system, source, table, 0, b"iabs", b"integer procedure");
    show_given(system, source, table, 1, b"maxint", b"integer procedure");
    show_given(system, source, table, 2, b"ininteger", b"procedure");
    show_given(system, source, table, 3, b"outinteger", b"procedure");
    show_given(system, source, table, 4, b"outreal", b"procedure");
    say(system, b"</table>\n<h2>Uses</h2>\n<pre class=\"text\">");
    show_uses(system, source, table);
    say(system, b"</pre>\n<h2>Levels</h2>\n<pre class=\"text\">");
    show_levels(system, source, table);
    say(system, b"</pre>\n");
}
