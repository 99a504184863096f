// Files and arguments, brought in whole or not at all.
ghost use Rattle.std.specs.Prelude.{◌≡◌, ◌≤◌, length, IfSome};
ghost use Rattle.io.specs.Counts.{IsPrefixLen};
ghost use Rattle.symbols.specs.Text.{bytes};
ghost use Rattle.symbols.specs.Names.{equal};

use showing::system::{STDERR, System};
use showing::text::{complain, tell_file};
use std::io::{Error, Read};
use std::os::fd::AsRawFd;
use symbols::text::same_bytes;

// Says why a file cannot be had.
fn fail(system: &System, name: &[u8], error: Error) {
    complain(system, b"deed: ");
    tell_file(system, STDERR, name);
    system.fail(b"", error);
}

// The rest of a file of which the first n bytes are there; how many bytes there are then.
fn rest(fd: i32, room: &mut [u8], n: usize) -> usize
    requires { n ≤ length room.old }
    ensures { IsPrefixLen result room.new }
{
    n + io::read_full(fd, &mut room[n..])
}

// The first bytes of an open file, as many as there is room for; how many, where it can be read.
pub fn take_in<R: Read + AsRawFd>(
    system: &System,
    from: &mut R,
    name: &[u8],
    room: &mut [u8],
) -> Option<usize>
    ensures { IfSome result (λ n. IsPrefixLen n room.new) }
{
    match from.read(room) {
        Ok(n) => Some(rest(from.as_raw_fd(), room, n)),
        Err(error) => {
            fail(system, name, error);
            None
        }
    }
}

// Whether a file is standard input.
pub fn is_standard(name: &[u8]) -> bool
    ensures { result ≡ equal name.now (bytes "-") }
{
    same_bytes(name, b"-")
}

// The first bytes of a file, or of standard input, as many as there is room for; how many, where it can be read.
pub fn load(system: &System, name: &[u8], room: &mut [u8]) -> Option<usize>
    ensures { IfSome result (λ n. IsPrefixLen n room.new) }
{
    if is_standard(name) {
        return take_in(system, &mut system.input(), b"standard input", room);
    }
    match system.open_read(name) {
        Ok(mut file) => take_in(system, &mut file, name, room),
        Err(error) => {
            fail(system, name, error);
            None
        }
    }
}

// Puts argument i at a place of the line, which is zero from there on; gives the place behind its zero, where the argument
// fits.
fn put_argument(system: &System, i: usize, line: &mut [u8], at: usize) -> Option<usize>
    requires { at ≤ length line.old }
    ensures upper_bound { IfSome result (λ end. end ≤ length line.new) }
    ensures line_len_unchanged { length line.new ≡ length line.old }
{
    let mut space = io::buffer();
    let n = system.argument(i, &mut space)?;
    if line.len() - at <= n {
        return None;
    }
    line[at..at + n].copy_from_slice(&space[..n]);
    Some(at + n + 1)
}

// The arguments as a line of words; how long it is, where they fit.
pub fn arguments(system: &System, line: &mut [u8]) -> Option<usize>
    ensures { IfSome result (λ n. IsPrefixLen n line.new) }
{
    let mut at = 0;
    for i in 1..system.argument_count() {
        let Some(end) = put_argument(system, i, line, at) else {
            complain(system, b"deed: the arguments are too long\n");
            return None;
        };
        at = end;
    }
    Some(at)
}
