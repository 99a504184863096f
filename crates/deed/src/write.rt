// deed write: a source in the house layout. After a refusal standard output has nothing, so that what a shell puts into a file from there is a page or is empty.
ghost use Rattle.std.specs.Prelude.{◌≤◌, ◌≡◌};
ghost use Rattle.desk.specs.Status.{nothing};
ghost use Rattle.deed.specs.Status.{of_written, WriteStatus};

use crate::sources::on_file;
use answers::{Answer, Refusal};
use asking::words::is_plain;
use clean::writing::write;
use desk::status;
use showing::system::{STDERR, System};
use showing::text::{complain, say, say_number, tell_file};
use showing::words::tell_answer;

// The answer, its place and the length of the text, as one line of numbers; the text is to stand behind it.
fn show_plain(system: &System, w: Result<usize, Refusal>) {
    say_number(system, clean::answer(w).number as u64);
    say(system, b" ");
    say_number(system, clean::place(w) as u64);
    say(system, b" ");
    say_number(system, clean::length(w) as u64);
    say(system, b"\n");
}

// Why there is no text: the words that `read` has for it. A text that is too long has no place in the source.
fn complain_of(system: &System, name: &[u8], source: &[u8], r: Refusal) {
    if r.answer.number == Answer::LONG.number {
        if source.len() <= 16384 {
            tell_file(system, STDERR, name);
            complain(
                system,
                b": refused, 2: the text in the house layout is over 16,384 bytes\n",
            );
            return;
        }
    }
    tell_answer(
        system,
        STDERR,
        name,
        source,
        b": refused, ",
        r.answer.number,
        r.place.at,
    );
}

fn of_written(w: Result<usize, Refusal>) -> u8
    ensures { result ≡ of_written w }
{
    match w {
        Ok(_) => status::GOOD,
        Err(_) => status::BAD,
    }
}

// No text is longer than a source may be.
fn tell_text(system: &System, name: &[u8], source: &[u8], plain: bool) -> u8
    ensures { WriteStatus source.now result }
{
    let mut room = [0u8; 16384];
    let w = write(source, &mut room);
    let n = clean::length(w);
    let ended = of_written(w);
    if plain {
        show_plain(system, w);
    } else if let Err(r) = w {
        complain_of(system, name, source, r);
    }
    say(system, &room[..n]);
    ended
}

// Kept: no plainer, one call is left of what the commands do alike, and each has its own closure.
pub fn obey(system: &System, line: &[u8], at: usize) -> u8
    ensures { result ≤ nothing }
{
    on_file(system, line, at, |name, source| {
        tell_text(system, name, source, is_plain(line))
    })
}
