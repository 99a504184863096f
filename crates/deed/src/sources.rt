// The file that a command names.
ghost use Rattle.std.specs.Prelude.{◌≤◌};
ghost use Rattle.desk.specs.Status.{nothing};

use asking::options::next_operand;
use desk::files::load;
use desk::misuse::see_help;
use desk::status;
use showing::system::System;

// What a command does with the file that the next operand of its line names: with the name and the bytes. Where the file cannot be had, nothing is done.
#[inline(never)] // so that a command's room on the stack is its own, and not all commands' together
pub(crate) fn on_file<F: FnOnce(&[u8], &[u8]) -> u8>(
    system: &System,
    line: &[u8],
    at: usize,
    act: F,
) -> u8
    requires callable { F.IsAlwaysCallable act }
    requires most { (name source : _) (s : _) → F.post act name source s → s ≤ nothing }
    ensures { result ≤ nothing }
{
    let mut room = io::large_buffer();
    let w = next_operand(line, at);
    let a = w.from;
    let b = w.to;
    let name = &line[a..b];
    let Some(n) = load(system, name, &mut room) else {
        see_help(system);
        return status::NOTHING;
    };
    act(name, &room[..n])
}
