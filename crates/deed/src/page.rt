// deed page: the page of a source, accepted or refused.
ghost use Rattle.std.specs.Prelude.{◌≤◌};
ghost use Rattle.desk.specs.Status.{nothing};
ghost use Rattle.deed.specs.Status.{ReadStatus};

use crate::sources::on_file;
use desk::status;
use reading::reading::read;
use showing::system::System;
use webpage::show_page;

fn tell(system: &System, name: &[u8], source: &[u8]) -> u8
    ensures { ReadStatus source.now result }
{
    let mut table = [0u16; 32768];
    let v = read(source, &mut table);
    show_page(system, name, source, v, &table);
    status::of_verdict(v)
}

// Kept: no plainer, one call is left of what the commands do alike, and each has its own closure.
pub fn obey(system: &System, line: &[u8], at: usize) -> u8
    ensures { result ≤ nothing }
{
    on_file(system, line, at, |name, source| {
        tell(system, name, source)
    })
}
