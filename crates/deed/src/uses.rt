// deed uses: the uses of a source, for people, as a list, or as one line of numbers.
ghost use Rattle.std.specs.Prelude.{◌≤◌};
ghost use Rattle.desk.specs.Status.{nothing};
ghost use Rattle.deed.specs.Status.{ReadStatus};

use crate::sources::on_file;
use answers::Verdict;
use asking::words::{has_word, is_plain};
use desk::status;
use reading::reading::read;
use showing::system::{STDERR, STDOUT, System};
use showing::text::{say, say_number};
use showing::uses::{say_use_words, show_section, show_uses};
use showing::words::tell_answer;

// What is shown of the uses.
#[derive(Clone, Copy)]
enum Way {
    People,
    List,
    Plain,
}

fn way_of(line: &[u8]) -> Way {
    if is_plain(line) {
        return Way::Plain;
    }
    if has_word(line, 0, b"--list") {
        return Way::List;
    }
    Way::People
}

// What reading found, as one line of numbers.
fn show_plain(system: &System, v: Verdict, table: &[u16]) {
    say_number(system, v.answer().number as u64);
    say(system, b" ");
    say_number(system, v.place() as u64);
    say_use_words(system, table);
    say(system, b"\n");
}

// For people, and as a list: after a refusal standard output has nothing of it, so that what a shell hands on is a list or is empty.
fn show(system: &System, name: &[u8], source: &[u8], v: Verdict, table: &[u16], list: bool) {
    let to = if list { STDERR } else { STDOUT };
    match v {
        Verdict::Refused(r) => tell_answer(
            system,
            to,
            name,
            source,
            b": refused, ",
            r.answer.number,
            r.place.at,
        ),
        Verdict::Accepted => {
            if list {
                show_section(system, table);
            } else {
                show_uses(system, source, table);
            }
        }
    }
}

fn tell(system: &System, name: &[u8], source: &[u8], way: Way) -> u8
    ensures { ReadStatus source.now result }
{
    let mut table = [0u16; 32768];
    let v = read(source, &mut table);
    match way {
        Way::Plain => show_plain(system, v, &table),
        Way::List => show(system, name, source, v, &table, true),
        Way::People => show(system, name, source, v, &table, false),
    }
    status::of_verdict(v)
}

// Kept: no plainer, one call is left of what the commands do alike, and each has its own closure.
pub fn obey(system: &System, line: &[u8], at: usize) -> u8
    ensures { result ≤ nothing }
{
    on_file(system, line, at, |name, source| {
        tell(system, name, source, way_of(line))
    })
}
