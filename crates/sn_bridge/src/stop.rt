//! Why the program ends early.

use octets::NoMemory;
use std::alloc::{AllocError, AllocFailed};
use thiserror::Error;

/// Why the program ends early. What it prints of that stands after `sn_bridge: `.
#[derive(Clone, Copy, Debug, PartialEq, Eq, Error)]
pub enum Stop {
    /// The command line does not parse.
    #[error("arguments")]
    Arguments,
    /// The settings file cannot be read, or is larger than 1,048,576 octets.
    #[error("settings file")]
    File,
    /// The settings file is no TOML document, or not UTF-8.
    #[error("settings text")]
    Text,
    /// A key is missing, or what stands there is not good.
    #[error("settings {0}")]
    Key(&'static str),
    /// The spool cannot be opened, or cannot hold a reading, for the fault of this number.
    #[error("spool J{0}")]
    Spool(u8),
    /// A socket cannot be had.
    #[error("socket")]
    Socket,
    /// Memory ran out.
    #[error("memory")]
    Memory,
}

impl Stop {
    /// The program's status.
    pub(crate) fn status(self) -> u8 {
        match self {
            Stop::Arguments | Stop::File | Stop::Text | Stop::Key(_) => 1,
            Stop::Spool(_) => 2,
            Stop::Socket => 3,
            Stop::Memory => 4,
        }
    }
}

impl From<AllocError> for Stop {
    fn from(_error: AllocError) -> Stop {
        Stop::Memory
    }
}

impl From<NoMemory> for Stop {
    fn from(_error: NoMemory) -> Stop {
        Stop::Memory
    }
}

impl<T: Drop> From<AllocFailed<T>> for Stop {
    fn from(_error: AllocFailed<T>) -> Stop {
        Stop::Memory
    }
}
