//! Why an operation was not applied.

ghost use Rattle.std.specs.Prelude.{◌≡◌};
ghost use Rattle.sn_tables.specs.Fault.{session_fault_number};
ghost use Rattle.sn_tables.specs.declared.fault.SessionFault.TheVariants as faults;

use sn_topic::octets::NoMemory;
use std::alloc::AllocError;
use thiserror::Error;

/// Why an operation was not applied. The session is as it was.
#[derive(Clone, Copy, Debug, PartialEq, Eq, Error)]
pub enum SessionFault {
    /// A table would have more than 256 entries.
    #[error("a table of a session is full")]
    Full,
    /// Memory ran out.
    #[error("out of memory while a session was changed or copied")]
    Memory,
}

impl SessionFault {
    /// The number by which reports name the fault, 1 or 2.
    pub fn number(&self) -> u8
        ensures { result ≡ session_fault_number self.now }
    {
        match self {
            SessionFault::Full => 1,
            SessionFault::Memory => 2,
        }
    }
}

impl From<AllocError> for SessionFault {
    ghost from_gives = { λ _ e. e ≡ faults.Memory };

    fn from(_error: AllocError) -> SessionFault {
        SessionFault::Memory
    }
}

impl From<NoMemory> for SessionFault {
    ghost from_gives = { λ _ e. e ≡ faults.Memory };

    fn from(_error: NoMemory) -> SessionFault {
        SessionFault::Memory
    }
}
