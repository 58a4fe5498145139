//! Why readings make no delta.

ghost use Rattle.std.specs.Prelude.{◌≡◌};
ghost use Rattle.br_spool.specs.declared.fault.SpoolFault.TheVariants.{Memory};

use octets::NoMemory;
use std::alloc::{AllocError, AllocFailed};
use thiserror::Error;

/// Why readings make no delta, or a delta no readings.
#[derive(Clone, Copy, Debug, PartialEq, Eq, Error)]
pub enum SpoolFault {
    /// A reading has a topic or octets that no message of a journal has.
    #[error("a reading that no journal can hold")]
    Reading,
    /// Two readings have one number, or they have more octets than a delta.
    #[error("readings that make no delta")]
    Delta,
    /// Memory ran out.
    #[error("out of memory")]
    Memory,
}

impl From<NoMemory> for SpoolFault {
    ghost from_gives = { λ _ e. e ≡ Memory };

    fn from(_error: NoMemory) -> SpoolFault {
        SpoolFault::Memory
    }
}

impl From<AllocError> for SpoolFault {
    ghost from_gives = { λ _ e. e ≡ Memory };

    fn from(_error: AllocError) -> SpoolFault {
        SpoolFault::Memory
    }
}

impl<T: Drop> From<AllocFailed<T>> for SpoolFault {
    ghost from_gives = { λ _ e. e ≡ Memory };

    fn from(_error: AllocFailed<T>) -> SpoolFault {
        SpoolFault::Memory
    }
}
