// The source as it stands, line by line: its number, its level, and its bytes with what is to be seen of them.
use crate::{html, looks};
use showing::system::System;
use showing::text::{say, say_nth, say_number, say_spot, say_times};
use showing::words::say_answer;
use symbols::text::{blanks_end, is_blank};

// The look of what is drawn at the moment, whether it goes on from the line before, and the line's number.
// Kept: no plainer, the look is drawn again in each line, and the flag says only that it was begun.
#[derive(Clone, Copy)]
struct Pen {
    look: u32,
    again: bool,
    line: usize,
}

pub fn head_accepted(system: &System, name: &[u8]) {
    say(system, b"<h1>");
    html::say_text(system, name);
    say(
        system,
        b": accepted</h1>
<p>A name carries the number of the declaration that it means; one without a number is of the environment.
Beside the number of a line stands its level.</p>
",
    );
}

pub fn head_refused(system: &System, name: &[u8], source: &[u8], number: u16, place: usize) {
    say(system, b"<h1>");
    html::say_text(system, name);
    say(system, b": refused, ");
    say_number(system, number as u64);
    say(system, b"</h1>\n<p>At <a href=\"#here\">");
    say_spot(system, source, place);
    say(system, b"</a>: ");
    say_answer(system, number, source, place);
    say(system, b".</p>\n");
}

// What opens a style, the first time and again, where it goes on in another line: a use has one link that counts, a name one place to lead to.
fn open_tag(system: &System, p: Pen) {
    let style = looks::style_of(p.look);
    let line = if p.again { style + 8 } else { style };
    say_nth(
        system,
        b"\n<span class=\"w\">\n<span class=\"o\">\n<b id=\"d\n<a class=\"u\" href=\"#d\n<a class=\"u\" href=\"#e\n<a href=\"#d\n<mark id=\"here\">\n\n<span class=\"w\">\n<span class=\"o\">\n<b>\n<a href=\"#d\n<a href=\"#e\n<a href=\"#d\n<mark>",
        line as usize,
    );
    let whole = p.again && style == looks::DECLARED;
    if looks::DECLARED <= style && style < looks::MARKED && !whole {
        say_number(system, looks::about_of(p.look));
        say(system, b"\">");
    }
}

fn close_tag(system: &System, look: u32) {
    say_nth(
        system,
        b"\n</span>\n</span>\n</b>\n</a>\n</a>\n</a>\n</mark>",
        looks::style_of(look) as usize,
    );
}

// The number of the declaration that a name means, behind the name. The browser makes its figures, so that who copies the program copies none.
fn say_sub(system: &System, look: u32) {
    match looks::style_of(look) {
        looks::DECLARED | looks::USE | looks::LISTED => {
            say(system, b"<sub data-n=\"");
            say_number(system, looks::about_of(look));
            say(system, b"\"></sub>");
        }
        _ => {}
    }
}

// From what is drawn to what comes next.
fn turn(system: &System, mut p: Pen, look: u32) -> Pen {
    if look == p.look {
        return p;
    }
    close_tag(system, p.look);
    say_sub(system, p.look);
    p.look = look;
    p.again = false;
    open_tag(system, p);
    p
}

// The look of byte i: a blank belongs to a note only behind its first byte and in one line, to a name only inside of it.
fn seen(p: Pen, source: &[u8], row: &[u32], i: usize) -> u32 {
    let look = looks::at(row, i);
    if source.len() <= i || !is_blank(source[i]) {
        return look;
    }
    if look == looks::NOTE && (source[i] == b'\n' || p.look != look) {
        return looks::PLAIN;
    }
    if 0 < i && look != looks::NOTE {
        if looks::at(row, i - 1) == look && looks::at(row, blanks_end(source, i)) != look {
            return looks::PLAIN;
        }
    }
    look
}

// The greatest level from a place on through the line's end, which is all that an empty line has.
fn line_level(source: &[u8], levels: &[u32], from: usize) -> u32 {
    let mut most: u32 = 0;
    for i in from..source.len() {
        most = most.max(looks::at(levels, i));
        if source[i] == b'\n' {
            return most;
        }
    }
    most
}

// A line begins: its number, and where there is one its level, as a number and as rules.
fn open_line(system: &System, line: usize, level: u32) {
    say(system, b"<tr id=\"l");
    say_number(system, line as u64);
    say(system, b"\"><td class=\"n\">");
    say_number(system, line as u64);
    say(system, b"</td><td class=\"v\">");
    if 0 < level {
        say_number(system, level as u64);
    }
    say(system, b"</td><td class=\"r\">");
    say_times(system, b"<i></i>", level as usize);
    say(system, b"</td><td class=\"k");
    say_number(system, level as u64 % 4);
    say(system, b"\"><pre>");
}

// A line ends, with a blank to be seen where what is refused has no look of its own: a line's end, or the source's.
fn close_line(system: &System, look: u32) {
    if looks::style_of(look) == looks::MARKED {
        say(system, b" ");
    }
    close_tag(system, look);
    say(system, b"</pre></td></tr>\n");
}

// Over a line's end: what is drawn goes on in the next line.
fn turn_line(system: &System, mut p: Pen, level: u32) -> Pen {
    let line = p.line.min(65535) + 1;
    close_line(system, p.look);
    open_line(system, line, level);
    p.line = line;
    p.again = true;
    open_tag(system, p);
    p
}

pub fn show_lines(system: &System, source: &[u8], row: &[u32], levels: &[u32]) {
    let mut p = Pen {
        look: looks::PLAIN,
        again: false,
        line: 1,
    };
    let mut i: usize = 0;
    say(system, b"<table class=\"page\">\n");
    open_line(system, 1, line_level(source, levels, 0));
    // Kept: no plainer, the place moves on by the character that was shown.
    while i < source.len() {
        p = turn(system, p, seen(p, source, row, i));
        if source[i] == b'\n' {
            i += 1;
            p = turn_line(system, p, line_level(source, levels, i));
        } else {
            i += html::say_at(system, source, i);
        }
    }
    end_lines(system, turn(system, p, looks::at(row, i)));
}

fn end_lines(system: &System, p: Pen) {
    close_line(system, p.look);
    say(system, b"</table>\n");
}
