// What the tool has of the system: files, arguments, and standard output and standard error with what they have taken so far.
ghost use Rattle.std.specs.Prelude.{◌≡◌, ◌≤◌, ◌↔◌, IfOk, IfSome, IsTrue, length, pos};
ghost use Rattle.std.specs.IoError.{raw_os_error};
ghost use Rattle.std.specs.Str.{IsUtf8};

use std::cell::Cell;
use std::env::{Env, FillError};
use std::fs::File;
use std::io::{Error, ErrorKind, Stderr, Stdin, Stdout, Write};
use std::os::fd::AsFd;

// The descriptors that every program has.
// Kept: what may not change, `taken::put` and `is_open` take any number: of any but STDERR it is standard output that is written to.
pub const STDOUT: i32 = 1;

pub const STDERR: i32 = 2;

// The system's number for a descriptor that is not open.
const NOT_OPEN: i32 = 9;

// The runtime, and whether standard output and standard error did not take something.
#[derive(Drop)]
pub struct System {
    runtime: HostRuntime,
    output_lost: Cell<bool>,
    errors_lost: Cell<bool>,
}

impl System {
    pub fn new(runtime: HostRuntime) -> System {
        System {
            runtime,
            output_lost: Cell::new(false),
            errors_lost: Cell::new(false),
        }
    }

    fn output(&self) -> Stdout {
        self.runtime.stdout()
    }

    fn errors(&self) -> Stderr {
        self.runtime.stderr()
    }

    pub fn input(&self) -> Stdin {
        self.runtime.stdin()
    }

    // Writes all of a text, or stops where it is not taken.
    pub(crate) fn write(&self, to: i32, text: &[u8]) -> std::io::Result<()> {
        if to == STDERR {
            return self.errors().write_all(text);
        }
        self.output().write_all(text)
    }

    // Whether a descriptor did not take something.
    pub(crate) fn has_lost(&self, to: i32) -> bool {
        if to == STDERR {
            return self.errors_lost.get();
        }
        self.output_lost.get()
    }

    // Nothing more is written to a descriptor.
    pub(crate) fn lose(&self, to: i32) {
        if to == STDERR {
            self.errors_lost.set(true);
        } else {
            self.output_lost.set(true);
        }
    }

    // Whether a descriptor is open: only one that is not has no second one of the same file for that reason.
    pub(crate) fn is_open(&self, to: i32) -> bool {
        let second = if to == STDERR {
            self.errors().as_fd().try_clone_to_owned()
        } else {
            self.output().as_fd().try_clone_to_owned()
        };
        match second {
            Ok(_) => true,
            Err(error) => !is_not_open(error),
        }
    }

    // A line to standard error: what failed, and the system's reason.
    pub fn fail(&self, what: &[u8], error: Error) {
        self.note(what);
        self.note(b": ");
        if let Ok(text) = format!(in self.runtime.alloc(); "{error}") {
            if let Some(reason) = text.as_str().split(" (os error ").next() {
                self.note(reason.as_bytes());
            }
        }
        self.note(b"\n");
    }

    fn note(&self, text: &[u8]) {
        if self.has_lost(STDERR) {
            return;
        }
        if self.write(STDERR, text).is_err() {
            self.lose(STDERR);
        }
    }

    // A file, opened for reading. Its name is text.
    pub fn open_read(&self, name: &[u8]) -> std::io::Result<File>
        ensures { IfOk result (λ _. IsUtf8 name.now) }
    {
        match str::from_utf8(name) {
            Ok(path) => File::open(&self.runtime, path),
            Err(_) => Err(Error::new(ErrorKind::InvalidInput, "the name is no UTF-8")),
        }
    }

    // How many arguments there are; the first is the program's name.
    pub fn argument_count(&self) -> usize {
        for i in 0..usize::MAX {
            if let Err(FillError::NotPresent) = self.runtime.arg(i, &mut []) {
                return i;
            }
        }
        0
    }

    // Puts argument i at the front of a row; gives its length, or nothing where the row is too short or there is no such argument.
    pub fn argument(&self, i: usize, row: &mut [u8]) -> Option<usize>
        ensures { IfSome result (λ n. n ≤ length row.new) × (length row.new ≡ length row.old) }
    {
        self.runtime.arg(i, row).ok()
    }
}

// Whether a call failed since a descriptor is not open.
pub(crate) fn is_not_open(error: Error) -> bool
    ensures { IsTrue result ↔ raw_os_error error ≡ Some (pos 9) }
{
    error.raw_os_error() == Some(NOT_OPEN)
}
