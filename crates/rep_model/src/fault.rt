//! Why a replica refuses a delta.

ghost use Rattle.std.specs.Prelude.{◌≡◌};
ghost use Rattle.rep_model.specs.declared.fault.TakeFault.TheVariants.{Memory};
ghost use Rattle.rep_model.specs.Faults.{take_fault_number};

use octets::NoMemory;
use rep_op::Subject;
use std::alloc::AllocError;
use std::fmt;
use thiserror::Error;

/// The most clients that a replica holds.
pub const MOST_CLIENTS: usize = 4096;

/// The most messages that wait for a client.
pub const MOST_PENDING: usize = 16384;

/// The most session operations of a client that wait for earlier ones.
pub const MOST_PARKED: usize = 4096;

/// The most acknowledgements of a client's messages above one that is not acknowledged.
pub const MOST_EXCEPTIONS: u64 = 16384;

/// The most topics of which something is retained, or ever was.
pub const MOST_RETAINED: usize = 4096;

/// What a replica can hold too much of.
#[derive(Clone, Copy, Debug, PartialEq, Eq)]
pub enum Limit {
    /// More than [`MOST_CLIENTS`] clients, 4,096.
    Clients,
    /// More than [`MOST_PENDING`] messages that wait for one client, 16,384.
    Pending,
    /// More than [`MOST_PARKED`] session operations of one client that wait for earlier ones,
    /// 4,096.
    Parked,
    /// More than [`MOST_EXCEPTIONS`] acknowledgements of one client's messages above one that is
    /// not acknowledged, 16,384.
    Exceptions,
    /// More than [`MOST_RETAINED`] topics of which something was ever retained, 4,096.
    Retained,
}

/// Why a replica refuses a delta. It is as it was then.
#[derive(Debug, Drop, PartialEq, Eq, Error)]
pub enum TakeFault {
    /// Fault 1: an operation kept under a name of the delta differs from the delta's.
    Conflict { of: Subject },
    /// Fault 2: more would be held than the limit.
    Full { limit: Limit },
    /// Fault 3: memory ran out.
    Memory,
}

impl fmt::Display for TakeFault {
    /// Says why the delta is refused.
    fn fmt<W: fmt::Write>(&self, f: &mut fmt::Formatter<W>) -> fmt::Result {
        match self {
            TakeFault::Conflict { of } => {
                write!(
                    f,
                    "an operation of {of:?} contradicts one that is kept under the same name"
                )
            }
            TakeFault::Full { limit } => write!(f, "the limit {limit:?} would be passed"),
            TakeFault::Memory => f.write_str("out of memory"),
        }
    }
}

impl TakeFault {
    /// The number by which reports name the fault, 1 to 3.
    pub fn number(&self) -> u8
        ensures { result ≡ take_fault_number self.now }
    {
        match self {
            TakeFault::Conflict { .. } => 1,
            TakeFault::Full { .. } => 2,
            TakeFault::Memory => 3,
        }
    }
}

impl From<AllocError> for TakeFault {
    ghost from_gives = { λ _ e. e ≡ Memory };

    fn from(_error: AllocError) -> TakeFault {
        TakeFault::Memory
    }
}

impl From<NoMemory> for TakeFault {
    ghost from_gives = { λ _ e. e ≡ Memory };

    fn from(_error: NoMemory) -> TakeFault {
        TakeFault::Memory
    }
}
