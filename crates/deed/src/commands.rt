// Chooses what a line asks, by the table of commands, and says what is wrong with its words.
ghost use Rattle.std.specs.Prelude.{◌≡◌, ◌≤◌, length};
ghost use Rattle.asking.specs.Words.{words_of, part};
ghost use Rattle.asking.specs.Sorts.{asked_from};
ghost use Rattle.desk.specs.Status.{nothing};
ghost use Rattle.deed.specs.Commands.{helps, fitting, once, clash, full, sized, well_asked, settled, decided, Keeps};

use crate::help::{help, usage};
use crate::{check, code, levels, page, read, uses, write};
use asking::sizes::sizes_of;
use asking::sorts::{Sort, first, next_word};
use asking::table::{fits, row_line};
use asking::words::{has_word, is_plain};
use desk::misuse::misused;
use desk::status;
use paying::run;
use showing::system::{STDERR, System};
use showing::text::{complain, tell_typed};
use symbols::text::same_bytes;

// Whether a line asks for help, whatever else it says.
#[tactic(auto, unfolding(crate::specs::Commands::helps))]
fn asks_help(line: &[u8]) -> bool
    ensures { result ≡ helps (words_of line.now) }
{
    has_word(line, 0, b"--help") || has_word(line, 0, b"-h")
}

// Whether each option of a line is one of its command's; the first that is not is blamed.
fn options_fit(system: &System, line: &[u8], row: &[u8]) -> bool
    ensures { result ≡ fitting row.now (words_of line.now) }
{
    let w = first(line, 0, Sort::Misfit, row);
    let a = w.from;
    let b = w.to;
    if a < b {
        misused(system, b"this command has no such option: ", &line[a..b]);
        return false;
    }
    true
}

// Whether no option of a line stands twice.
fn options_once(system: &System, line: &[u8]) -> bool
    ensures { result ≡ once (words_of line.now) }
{
    let w = first(line, 0, Sort::Twice, b"");
    let a = w.from;
    let b = w.to;
    if a < b {
        misused(system, b"this option stands twice: ", &line[a..b]);
        return false;
    }
    true
}

// Whether a line asks for one line of numbers and for something else too.
#[tactic(auto, unfolding(crate::specs::Commands::clash))]
fn is_clash(line: &[u8]) -> bool
    ensures { result ≡ clash (words_of line.now) }
{
    is_plain(line) && (has_word(line, 0, b"--list") || has_word(line, 0, b"--values"))
}

// Whether the words behind a command's are those that it wants; the first that is missing or one too many is blamed.
fn words_fit(system: &System, line: &[u8], at: usize, row: &[u8]) -> bool
    ensures { result ≡ full row.now (asked_from line.now at) }
{
    let f = fits(row, line, at);
    if f.good {
        return true;
    }
    let a = f.missing.from;
    let b = f.missing.to;
    if a < b {
        misused(system, b"a word is missing: ", &row[a..b]);
        return false;
    }
    let c = f.extra.from;
    let d = f.extra.to;
    misused(system, b"this word is one too many: ", &line[c..d]);
    false
}

// Whether the sizes that a line asks for can be had.
fn sizes_fit(system: &System, line: &[u8], at: usize) -> bool
    ensures { result ≡ sized (asked_from line.now at) }
{
    let Some(_) = sizes_of(line, at) else {
        misused(
            system,
            b"-l, -c and -o want a number, -c at most 8192, -o at most 196608",
            b"",
        );
        return false;
    };
    true
}

// Whether a line is well asked, by the row of its command, whose word ends at `at`; if not, why is said.
pub fn well_asked(system: &System, line: &[u8], at: usize, row: &[u8]) -> bool
    ensures { result ≡ well_asked row.now (words_of line.now) (asked_from line.now at) }
{
    if !options_fit(system, line, row) {
        return false;
    }
    if !options_once(system, line) {
        return false;
    }
    if is_clash(line) {
        misused(
            system,
            b"--plain goes with neither --list nor --values",
            b"",
        );
        return false;
    }
    if !words_fit(system, line, at, row) {
        return false;
    }
    sizes_fit(system, line, at)
}

// The command whose word stands there, one that shows a source.
fn shows(system: &System, line: &[u8], from: usize, at: usize) -> u8
    requires { (from ≤ at) × (at ≤ length line.now) }
    ensures { result ≤ nothing }
{
    if same_bytes(&line[from..at], b"read") {
        return read::obey(system, line, at);
    }
    if same_bytes(&line[from..at], b"uses") {
        return uses::obey(system, line, at);
    }
    if same_bytes(&line[from..at], b"levels") {
        return levels::obey(system, line, at);
    }
    if same_bytes(&line[from..at], b"page") {
        return page::obey(system, line, at);
    }
    if same_bytes(&line[from..at], b"code") {
        return code::obey(system, line, at);
    }
    write::obey(system, line, at)
}

// The command whose word stands there.
fn does(system: &System, line: &[u8], from: usize, at: usize) -> u8
    requires { (from ≤ at) × (at ≤ length line.now) }
    ensures { result ≤ nothing }
{
    if same_bytes(&line[from..at], b"check") {
        return check::obey(system, line, at);
    }
    if same_bytes(&line[from..at], b"run") {
        return run::obey(system, line, at);
    }
    if same_bytes(&line[from..at], b"do") {
        misused(system, b"a file of commands has no do in it", b"");
        return status::NOTHING;
    }
    shows(system, line, from, at)
}

// What a line asks that is well asked.
fn settle(system: &System, line: &[u8], from: usize, at: usize) -> u8
    requires { (from ≤ at) × (at ≤ length line.now) }
    ensures { Keeps (settled (part line.now from at)) result }
{
    if same_bytes(&line[from..at], b"help") {
        help(system);
        return status::GOOD;
    }
    does(system, line, from, at)
}

// A word that is no command, or none at all: the commands are shown.
fn unknown(system: &System, word: &[u8]) {
    if word.len() == 0 {
        complain(system, b"deed: a command is missing\n");
    } else {
        complain(system, b"deed: there is no such command: ");
        tell_typed(system, STDERR, word);
        complain(system, b"\n");
    }
    usage(system);
}

// Does what a line asks.
pub fn obey(system: &System, line: &[u8]) -> u8
    ensures { Keeps (decided (words_of line.now)) result }
{
    if asks_help(line) {
        help(system);
        return status::GOOD;
    }
    let w = next_word(line, 0);
    let from = w.from;
    let to = w.to;
    let mut row = [0u8; 256];
    let n = row_line(&line[from..to], &mut row);
    if n == 0 {
        unknown(system, &line[from..to]);
        return status::NOTHING;
    }
    if !well_asked(system, line, to, &row[..n]) {
        return status::NOTHING;
    }
    settle(system, line, from, to)
}
