//! Why nothing was mended.

ghost use Rattle.std.specs.Prelude.{◌≡◌};
ghost use Rattle.jr_mend.specs.declared.stop.Stop.TheVariants.{Memory};
ghost use Rattle.jr_mend.specs.inner.Stopping as spec;

use std::alloc::{AllocError, AllocFailed};
use std::fmt;
use std::io::ErrorKind;

/// Why nothing was mended. What the program prints of that is after `jr_mend: `.
#[derive(Clone, Copy)]
pub enum Stop {
    /// The command line is not one path.
    Arguments,
    /// A file cannot be opened.
    File(u8, ErrorKind),
    /// Another program has the journal open.
    InUse,
    /// A file cannot be read, or is too long.
    Read,
    /// The copies cannot be written.
    Copy,
    /// The file cannot be cut.
    Write,
    /// A gateway would refuse the journal for the fault of this number, without zeros too.
    Journal(u8),
    /// Memory ran out.
    Memory,
}

impl fmt::Display for Stop {
    fn fmt<W: fmt::Write>(&self, f: &mut fmt::Formatter<W>) -> fmt::Result {
        match self {
            Stop::File(file, kind) => write!(f, "the file PATH.{file} cannot be opened: {kind}"),
            Stop::Journal(fault) => write!(f, "journal J{fault}"),
            stop => f.write_str(words(*stop)),
        }
    }
}

/// What is said of a reason, but for what stands in it.
fn words(stop: Stop) -> &'static str {
    match stop {
        Stop::Arguments => "arguments",
        Stop::File(_, _) | Stop::Journal(_) => "",
        Stop::InUse => "another program has the journal open",
        Stop::Read => "a file cannot be read",
        Stop::Copy => "the copies cannot be written",
        Stop::Write => "the file cannot be cut",
        Stop::Memory => "out of memory",
    }
}

impl Stop {
    /// The program's status: 2 for what a person has to look at, and else 1.
    pub(crate) fn status(self) -> u8
        ensures { result ≡ spec.mend_status self }
    {
        match self {
            Stop::Journal(_) => 2,
            Stop::Arguments | Stop::File(_, _) | Stop::InUse | Stop::Read => 1,
            Stop::Copy | Stop::Write | Stop::Memory => 1,
        }
    }
}

impl From<AllocError> for Stop {
    ghost from_gives = { λ _ e. e ≡ Memory };

    fn from(_error: AllocError) -> Stop {
        Stop::Memory
    }
}

impl<T: Drop> From<AllocFailed<T>> for Stop {
    ghost from_gives = { λ _ e. e ≡ Memory };

    fn from(_error: AllocFailed<T>) -> Stop {
        Stop::Memory
    }
}
