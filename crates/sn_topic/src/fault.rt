//! Why a topic name, a filter or a table of predefined ids is refused.

ghost use Rattle.std.specs.Prelude.{◌≡◌};
ghost use Rattle.sn_topic.specs.Fault.{topic_fault_number};
ghost use Rattle.sn_topic.specs.declared.fault.TopicFault.TheVariants as faults;

use octets::NoMemory;
use std::alloc::{AllocError, AllocFailed};
use std::fmt;
use thiserror::Error;

/// Why octets are no topic name or filter, or entries no table of predefined ids.
#[derive(Debug, Drop, PartialEq, Eq, Error)]
pub enum TopicFault {
    /// There is no octet.
    Empty,
    /// There are more than 256 octets.
    TooLong,
    /// A wildcard stands where none may.
    Wildcard,
    /// Memory ran out.
    Memory,
    /// A topic id is reserved, or stands twice.
    Id,
}

impl fmt::Display for TopicFault {
    /// Says why the topic is refused.
    fn fmt<W: fmt::Write>(&self, f: &mut fmt::Formatter<W>) -> fmt::Result {
        f.write_str(match self {
            TopicFault::Empty => "a topic without octets",
            TopicFault::TooLong => "a topic of more than 256 octets",
            TopicFault::Wildcard => "a wildcard where none may stand",
            TopicFault::Memory => "out of memory",
            TopicFault::Id => "a topic id that is reserved or stands twice",
        })
    }
}

impl TopicFault {
    /// The number by which reports name the fault, 1 to 5.
    pub fn number(&self) -> u8
        ensures { result ≡ topic_fault_number self.now }
    {
        match self {
            TopicFault::Empty => 1,
            TopicFault::TooLong => 2,
            TopicFault::Wildcard => 3,
            TopicFault::Memory => 4,
            TopicFault::Id => 5,
        }
    }
}

impl From<AllocError> for TopicFault {
    ghost from_gives = { λ _ e. e ≡ faults.Memory };

    fn from(_e: AllocError) -> TopicFault {
        TopicFault::Memory
    }
}

impl From<NoMemory> for TopicFault {
    ghost from_gives = { λ _ e. e ≡ faults.Memory };

    fn from(_e: NoMemory) -> TopicFault {
        TopicFault::Memory
    }
}

impl<T: Drop> From<AllocFailed<T>> for TopicFault {
    ghost from_gives = { λ _ e. e ≡ faults.Memory };

    fn from(_e: AllocFailed<T>) -> TopicFault {
        TopicFault::Memory
    }
}
