// deed read: whether a source is accepted.
ghost use Rattle.std.specs.Prelude.{◌≤◌};
ghost use Rattle.desk.specs.Status.{nothing};
ghost use Rattle.deed.specs.Status.{ReadStatus};

use crate::sources::on_file;
use answers::Verdict;
use asking::words::is_plain;
use desk::status;
use reading::reading::read;
use showing::system::System;
use showing::text::{say, say_file, say_number};
use showing::words::show_answer;

// The answer and its place, as one line of numbers.
fn show_plain(system: &System, v: Verdict) {
    say_number(system, v.answer().number as u64);
    say(system, b" ");
    say_number(system, v.place() as u64);
    say(system, b"\n");
}

fn show(system: &System, name: &[u8], source: &[u8], v: Verdict) {
    match v {
        Verdict::Accepted => {
            say_file(system, name);
            say(system, b": accepted\n");
        }
        Verdict::Refused(r) => {
            show_answer(
                system,
                name,
                source,
                b": refused, ",
                r.answer.number,
                r.place.at,
            )
        }
    }
}

fn tell(system: &System, name: &[u8], source: &[u8], plain: bool) -> u8
    ensures { ReadStatus source.now result }
{
    let mut table = [0u16; 32768];
    let v = read(source, &mut table);
    if plain {
        show_plain(system, v);
    } else {
        show(system, name, source, v);
    }
    status::of_verdict(v)
}

pub fn obey(system: &System, line: &[u8], at: usize) -> u8
    ensures { result ≤ nothing }
{
    on_file(system, line, at, |name, source| {
        tell(system, name, source, is_plain(line))
    })
}
