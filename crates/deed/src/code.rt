// deed code: the translation of a source.
ghost use Rattle.std.specs.Prelude.{◌≤◌};
ghost use Rattle.desk.specs.Status.{nothing};
ghost use Rattle.deed.specs.Status.{CodeStatus};

use crate::sources::on_file;
use answers::Verdict;
use desk::status;
use showing::code::show_code;
use showing::system::System;
use showing::words::show_answer;
use translating::translating::translate;

fn tell(system: &System, name: &[u8], source: &[u8]) -> u8
    ensures { CodeStatus source.now result }
{
    let mut code = [0u32; 16384];
    let v = translate(source, &mut code);
    let ended = status::of_verdict(v);
    match v {
        Verdict::Accepted => show_code(system, source, &code),
        Verdict::Refused(r) => {
            show_answer(
                system,
                name,
                source,
                b": refused, ",
                r.answer.number,
                r.place.at,
            )
        }
    }
    ended
}

pub fn obey(system: &System, line: &[u8], at: usize) -> u8
    ensures { result ≤ nothing }
{
    on_file(system, line, at, |name, source| {
        tell(system, name, source)
    })
}
