// deed do: the commands of a file, one a line.
ghost use Rattle.std.specs.Prelude.{◌≤◌};
ghost use Rattle.desk.specs.Status.{nothing};

use crate::commands;
use crate::commands::well_asked;
use crate::sources::on_file;
use asking::table::row_line;
use asking::words::{line_of, word_from};
use desk::status;
use showing::system::{STDOUT, System};
use showing::text::{complain, say, tell_typed};
use symbols::text::find;

// Whether a line of words is no command: it is empty, or begins with #.
fn is_note(line: &[u8]) -> bool {
    match line.get(word_from(line, 0).from) {
        Some(first) => *first == b'#',
        None => true,
    }
}

// One line of a file of commands.
fn obey_text(system: &System, text: &[u8]) -> u8
    ensures { result ≤ nothing }
{
    let mut row = io::large_buffer();
    let n = line_of(text, &mut row);
    if is_note(&row[..n]) {
        return status::GOOD;
    }
    say(system, b"> ");
    tell_typed(system, STDOUT, text);
    say(system, b"\n");
    commands::obey(system, &row[..n])
}

// The greatest status of the commands.
fn obey_each(system: &System, text: &[u8]) -> u8
    ensures { result ≤ nothing }
{
    let mut most = status::GOOD;
    let mut at: usize = 0;
    // Kept: no plainer, the place moves on by the line that was read.
    while at < text.len() {
        let end = find(text, at, b'\n');
        most = status::greater(most, obey_text(system, &text[at..end]));
        at = end + 1;
    }
    most
}

// The commands of a file. One that fills the room may go on behind it, and no part of it is done.
fn obey_file(system: &System, text: &[u8]) -> u8
    ensures { result ≤ nothing }
{
    if 65536 <= text.len() {
        complain(system, b"deed: a file of commands has under 65,536 bytes\n");
        return status::NOTHING;
    }
    obey_each(system, text)
}

// The file that a line names, whose command's word ends at `at`.
pub fn obey(system: &System, line: &[u8], at: usize) -> u8
    ensures { result ≤ nothing }
{
    let mut row = [0u8; 256];
    let n = row_line(b"do", &mut row);
    if !well_asked(system, line, at, &row[..n]) {
        return status::NOTHING;
    }
    on_file(system, line, at, |_, text| obey_file(system, text))
}
