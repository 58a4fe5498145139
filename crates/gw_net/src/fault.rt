//! Why a link is given up, and why a message was not written.

ghost use Rattle.std.specs.Prelude.{◌≡◌};
ghost use Rattle.gw_net.specs.Faults.{link_fault_number};
ghost use Rattle.gw_net.specs.declared.fault.LinkFault.TheVariants.{Memory};
ghost use Rattle.gw_net.specs.declared.fault.LinkOutFault.TheVariants.{Memory as OutMemory};

use octets::NoMemory;
use std::alloc::{AllocError, AllocFailed};
use std::fmt;
use thiserror::Error;

/// Why what came over a link is no message, or is not read.
#[derive(Clone, Copy, Debug, PartialEq, Eq, Error)]
pub enum LinkFault {
    /// Fault 1: the body of a message is longer than 8,388,608 octets.
    TooLong,
    /// Fault 2: there is no such kind of message.
    Kind,
    /// Fault 3: the body is none of its kind.
    Body,
    /// Fault 4: memory ran out. Nothing was taken.
    Memory,
    /// Fault 5: an earlier piece had a fault.
    Failed,
}

impl fmt::Display for LinkFault {
    /// Says why the link cannot go on.
    fn fmt<W: fmt::Write>(&self, f: &mut fmt::Formatter<W>) -> fmt::Result {
        f.write_str(match self {
            LinkFault::TooLong => "a message of the link is longer than 8388608 octets",
            LinkFault::Kind => "a message of the link is of no known kind",
            LinkFault::Body => "the body of a message of the link is none of its kind",
            LinkFault::Memory => "out of memory",
            LinkFault::Failed => "the link has failed before",
        })
    }
}

impl LinkFault {
    /// Its number, from 1 to 5.
    pub fn number(&self) -> u8
        ensures { result ≡ link_fault_number self.now }
    {
        match self {
            LinkFault::TooLong => 1,
            LinkFault::Kind => 2,
            LinkFault::Body => 3,
            LinkFault::Memory => 4,
            LinkFault::Failed => 5,
        }
    }
}

impl From<AllocError> for LinkFault {
    ghost from_gives = { λ _ e. e ≡ Memory };

    fn from(_error: AllocError) -> LinkFault {
        LinkFault::Memory
    }
}

impl From<NoMemory> for LinkFault {
    ghost from_gives = { λ _ e. e ≡ Memory };

    fn from(_error: NoMemory) -> LinkFault {
        LinkFault::Memory
    }
}

impl<T: Drop> From<AllocFailed<T>> for LinkFault {
    ghost from_gives = { λ _ e. e ≡ Memory };

    fn from(_error: AllocFailed<T>) -> LinkFault {
        LinkFault::Memory
    }
}

/// Why a message was not written.
#[derive(Clone, Copy, Debug, PartialEq, Eq, Error)]
pub enum LinkOutFault {
    /// A write failed, or took no octet: this many octets of the message went out.
    #[error("the link took {written} octets of a message")]
    Write { written: usize },
    /// Memory ran out. Nothing was written.
    #[error("out of memory")]
    Memory,
}

impl From<AllocError> for LinkOutFault {
    ghost from_gives = { λ _ e. e ≡ OutMemory };

    fn from(_error: AllocError) -> LinkOutFault {
        LinkOutFault::Memory
    }
}

impl From<NoMemory> for LinkOutFault {
    ghost from_gives = { λ _ e. e ≡ OutMemory };

    fn from(_error: NoMemory) -> LinkOutFault {
        LinkOutFault::Memory
    }
}

impl<T: Drop> From<AllocFailed<T>> for LinkOutFault {
    ghost from_gives = { λ _ e. e ≡ OutMemory };

    fn from(_error: AllocFailed<T>) -> LinkOutFault {
        LinkOutFault::Memory
    }
}
