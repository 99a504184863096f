// What is written, and whether all of it was taken. Where a descriptor does not take something, nothing more is written to it: nothing is to
// stand behind a gap, and at the end it is known by that that something was lost. A reader that closes a pipe is told nothing of it.
use crate::system::{STDERR, STDOUT, System, is_not_open};
use std::io::{Error, ErrorKind};

// The first loss is said, with the system's reason.
fn lost(system: &System, to: i32, error: Error) {
    system.lose(to);
    if to == STDERR || error.kind() == ErrorKind::BrokenPipe {
        return;
    }
    if !is_not_open(error) {
        system.fail(b"deed: not all of the output could be written", error);
    }
}

// A text to a descriptor.
pub fn put(system: &System, to: i32, text: &[u8]) {
    if system.has_lost(to) {
        return;
    }
    if let Err(error) = system.write(to, text) {
        lost(system, to, error);
    }
}

// A number to a descriptor.
pub fn put_number(system: &System, to: i32, n: u64) {
    let mut digits = [0u8; 20];
    let k = io::decimal(n, &mut digits);
    put(system, to, &digits[..k]);
}

// Whether a descriptor is open.
pub fn is_open(system: &System, to: i32) -> bool {
    system.is_open(to)
}

// Whether a descriptor took all that was written.
fn took(system: &System, to: i32) -> bool {
    if system.has_lost(to) {
        return false;
    }
    is_open(system, to)
}

// Whether standard output took all, and standard error too if it was open.
pub fn all_taken(system: &System, heard: bool) -> bool {
    let said = took(system, STDOUT);
    if heard {
        return took(system, STDERR) && said;
    }
    said
}
