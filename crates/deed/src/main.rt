// The tool `deed`: it asks the proved jobs and shows their answers. Its arguments are one command; `deed do FILE` takes
// the commands of a file, one a line.
#![tactic(auto)]

use asking::sorts::next_word;
use asking::words::is_word;
use commands::obey;
use desk::files::arguments;
use desk::misuse::see_help;
use desk::status;
use help::help;
use showing::system::{STDERR, System};
use showing::taken::{all_taken, is_open};

mod check; // deed check
mod code; // deed code
mod commands; // what a line asks
mod help; // what the tool says of itself
mod levels; // deed levels
mod orders; // deed do
mod page; // deed page
mod read; // deed read
mod sources; // the file that a command names
mod uses; // deed uses
mod write; // deed write

fn start(system: &System, line: &[u8]) -> u8 {
    if line.len() == 0 {
        help(system);
        return status::GOOD;
    }
    let w = next_word(line, 0);
    let to = w.to;
    if is_word(line, w.from, to, b"do") {
        return orders::obey(system, line, to);
    }
    obey(system, line)
}

fn begin(system: &System) -> u8 {
    let mut line = io::large_buffer();
    let Some(n) = arguments(system, &mut line) else {
        see_help(system);
        return status::NOTHING;
    };
    start(system, &line[..n])
}

fn main(rt: HostRuntime) {
    let system = System::new(rt);
    let heard = is_open(&system, STDERR);
    let done = begin(&system);
    status::leave(status::of_taken(all_taken(&system, heard), done));
}
