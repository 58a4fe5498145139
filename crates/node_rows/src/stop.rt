//! Why a line is not played.

use gw_node::{Answer, NodeFault};
use rep_ops::OpsFault;
use std::{fmt, io};

/// Why a line is not played.
#[derive(Clone, Copy)]
pub(crate) enum Stop {
    /// The line is none of the language, or wants what is not there.
    Line,
    /// Memory ran out.
    Memory,
    /// Standard input or output failed.
    Stream,
    /// A call that a work makes was refused.
    Work,
    /// A datagram, or its answer, came too late over a socket. A thread that is refused runs after
    /// the other ones.
    TooLate,
}

impl fmt::Display for Stop {
    fn fmt<W: fmt::Write>(&self, f: &mut fmt::Formatter<W>) -> fmt::Result {
        let words = match self {
            Stop::Line => "no such line",
            Stop::Memory => "out of memory",
            Stop::Stream => "standard input or output failed",
            Stop::Work => "a call of a work was refused",
            Stop::TooLate => "too late: memory or a thread was refused",
        };
        f.write_str(words)
    }
}

/// Whether memory ran out in a call of a gateway, or in its disk.
pub(crate) fn is_short(answer: &Answer, is_starved: bool) -> bool {
    is_starved || matches!(answer, Err(NodeFault::Memory))
}

/// Why octets of a line are not read: memory ran out, or they spell nothing.
pub(crate) fn misread(fault: &OpsFault) -> Stop {
    match fault {
        OpsFault::Memory => Stop::Memory,
        _ => Stop::Line,
    }
}

/// Why a work stops at a refused call.
pub(crate) fn unworked(fault: &OpsFault) -> Stop {
    match fault {
        OpsFault::Memory => Stop::Memory,
        _ => Stop::Work,
    }
}

/// Why a stream of the program failed.
pub(crate) fn broken(error: &io::Error) -> Stop {
    match error.kind() {
        io::ErrorKind::OutOfMemory => Stop::Memory,
        _ => Stop::Stream,
    }
}

/// Why a socket or a file of a line is not there.
pub(crate) fn missing(error: &io::Error) -> Stop {
    match error.kind() {
        io::ErrorKind::OutOfMemory => Stop::Memory,
        _ => Stop::Line,
    }
}
