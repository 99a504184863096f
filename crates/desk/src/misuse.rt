// What is said of a command that asks wrongly.
use showing::system::{STDERR, System};
use showing::text::{complain, tell_typed};

// What is wrong with the words of a command, and where to look.
pub fn misused(system: &System, what: &[u8], word: &[u8]) {
    complain(system, b"deed: ");
    complain(system, what);
    tell_typed(system, STDERR, word);
    complain(system, b"\n");
    see_help(system);
}

pub fn see_help(system: &System) {
    complain(system, b"see ./deed help\n");
}
