// deed levels: the levels of a source.
ghost use Rattle.std.specs.Prelude.{◌≤◌};
ghost use Rattle.desk.specs.Status.{nothing};
ghost use Rattle.deed.specs.Status.{ReadStatus};

use crate::sources::on_file;
use answers::Verdict;
use desk::status;
use reading::reading::read;
use showing::levels::show_levels;
use showing::system::System;
use showing::words::show_answer;

fn tell(system: &System, name: &[u8], source: &[u8]) -> u8
    ensures { ReadStatus source.now result }
{
    let mut table = [0u16; 32768];
    let v = read(source, &mut table);
    let ended = status::of_verdict(v);
    match v {
        Verdict::Accepted => show_levels(system, source, &table),
        Verdict::Refused(r) => {
            show_answer(
                system,
                name,
                source,
                b": refused, ",
                r.answer.number,
                r.place.at,
            )
        }
    }
    ended
}

// Kept: no plainer, one call is left of what the commands do alike, and each has its own closure.
pub fn obey(system: &System, line: &[u8], at: usize) -> u8
    ensures { result ≤ nothing }
{
    on_file(system, line, at, |name, source| {
        tell(system, name, source)
    })
}
