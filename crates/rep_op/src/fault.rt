//! Why operations, or the bytes of a delta, are refused.

ghost use Rattle.std.specs.Prelude.{◌≡◌};
ghost use Rattle.rep_op.specs.declared.fault.OpsFault.TheVariants.{Memory};
ghost use Rattle.rep_op.specs.Faults.{fault_of_topic, ops_fault_number};

use octets::NoMemory;
use sn_topic::TopicFault;
use std::alloc::{AllocError, AllocFailed};
use std::fmt;
use thiserror::Error;

/// Why operations, or the bytes of a delta, are refused.
#[derive(Clone, Copy, Debug, PartialEq, Eq, Error)]
pub enum OpsFault {
    /// Fault 1: two operations have one name.
    Twice,
    /// Fault 2: the bytes of the delta would pass 8,388,608.
    Limit,
    /// Fault 3: memory ran out.
    Memory,
    /// Fault 4: the bytes end before the delta does.
    Truncated,
    /// Fault 5: the version is not known.
    Version,
    /// Fault 6: a value is out of range or over its limit.
    Kind,
    /// Fault 7: the operations are not in the order of their names.
    Order,
    /// Fault 8: bytes stand after the delta.
    Trailing,
}

impl fmt::Display for OpsFault {
    /// Says why the operations or the bytes are refused.
    fn fmt<W: fmt::Write>(&self, f: &mut fmt::Formatter<W>) -> fmt::Result {
        f.write_str(match self {
            OpsFault::Twice => "two operations have the same name",
            OpsFault::Limit => "the delta is longer than 8388608 bytes",
            OpsFault::Memory => "out of memory",
            OpsFault::Truncated => "the bytes end before the delta does",
            OpsFault::Version => "the version of the delta is not known",
            OpsFault::Kind => "a value is out of range or over its limit",
            OpsFault::Order => "the operations are not in the order of their names",
            OpsFault::Trailing => "bytes stand behind the delta",
        })
    }
}

impl OpsFault {
    /// The number by which reports name the fault, 1 to 8.
    pub fn number(&self) -> u8
        ensures { result ≡ ops_fault_number self.now }
    {
        match self {
            OpsFault::Twice => 1,
            OpsFault::Limit => 2,
            OpsFault::Memory => 3,
            OpsFault::Truncated => 4,
            OpsFault::Version => 5,
            OpsFault::Kind => 6,
            OpsFault::Order => 7,
            OpsFault::Trailing => 8,
        }
    }
}

impl From<AllocError> for OpsFault {
    ghost from_gives = { λ _ e. e ≡ Memory };

    fn from(_error: AllocError) -> OpsFault {
        OpsFault::Memory
    }
}

impl From<NoMemory> for OpsFault {
    ghost from_gives = { λ _ e. e ≡ Memory };

    fn from(_error: NoMemory) -> OpsFault {
        OpsFault::Memory
    }
}

impl<T: Drop> From<AllocFailed<T>> for OpsFault {
    ghost from_gives = { λ _ e. e ≡ Memory };

    fn from(_error: AllocFailed<T>) -> OpsFault {
        OpsFault::Memory
    }
}

impl From<TopicFault> for OpsFault {
    ghost from_gives = { λ t e. e ≡ fault_of_topic t };

    fn from(error: TopicFault) -> OpsFault {
        match error {
            TopicFault::Memory => OpsFault::Memory,
            TopicFault::Empty | TopicFault::TooLong | TopicFault::Wildcard | TopicFault::Id =>
                OpsFault::Kind,
        }
    }
}
