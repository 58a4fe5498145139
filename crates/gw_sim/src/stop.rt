//! Why nothing is played.

use gw_play::ReadFault;
use gw_random::RandomFault;
use std::alloc::AllocError;
use std::fmt;

/// Why nothing is played.
#[derive(Clone, Copy)]
pub(crate) enum Stop {
    /// The words of the command line do not parse, `--help` among them.
    Words,
    /// The text cannot be read.
    Read(ReadFault),
    /// The text is not UTF-8.
    Text,
    /// The text does not begin with a name, or ends within one.
    Name,
    /// A script begins as one that stands for others, and does not go on so.
    Random,
    /// Scripts from a seed are not played.
    Seed(RandomFault),
    /// Memory ran out.
    Memory,
}

impl fmt::Display for Stop {
    fn fmt<W: fmt::Write>(&self, f: &mut fmt::Formatter<W>) -> fmt::Result {
        let words = match self {
            Stop::Words => "arguments",
            Stop::Read(fault) => return write!(f, "{fault}"),
            Stop::Text => "the text is not UTF-8",
            Stop::Name => "a script stands behind a line == NAME",
            Stop::Random => "random SEED EVENTS GATEWAYS",
            Stop::Seed(fault) => return write!(f, "{fault}"),
            Stop::Memory => "out of memory",
        };
        f.write_str(words)
    }
}

impl From<ReadFault> for Stop {
    fn from(fault: ReadFault) -> Stop {
        Stop::Read(fault)
    }
}

impl From<AllocError> for Stop {
    fn from(_error: AllocError) -> Stop {
        Stop::Memory
    }
}
