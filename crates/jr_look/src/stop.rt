//! Why the program has nothing to show.

use octets::NoMemory;
use std::alloc::AllocError;
use std::fmt;
use std::io::ErrorKind;

/// Why the program has nothing to show.
#[derive(Clone, Copy)]
pub enum Stop {
    /// The command line does not say what to look at.
    Arguments,
    /// A file cannot be read.
    File {
        ending: &'static str,
        kind: ErrorKind,
    },
    /// A file has more than 1,073,741,824 octets.
    Long {
        ending: &'static str,
    },
    /// What there is to show cannot be written.
    Output,
    /// Memory ran out.
    Memory,
}

impl fmt::Display for Stop {
    fn fmt<W: fmt::Write>(&self, f: &mut fmt::Formatter<W>) -> fmt::Result {
        match self {
            Stop::Arguments => f.write_str("arguments"),
            Stop::File { ending, kind } => {
                write!(f, "the file PATH.{ending} cannot be read: {kind}")
            }
            Stop::Long { ending } => {
                write!(f, "the file PATH.{ending} has more than 1073741824 octets")
            }
            Stop::Output => f.write_str("the output cannot be written"),
            Stop::Memory => f.write_str("out of memory"),
        }
    }
}

impl From<AllocError> for Stop {
    fn from(_error: AllocError) -> Stop {
        Stop::Memory
    }
}

impl From<NoMemory> for Stop {
    fn from(_error: NoMemory) -> Stop {
        Stop::Memory
    }
}
