//! Why there is no report.

ghost use Rattle.std.specs.Prelude.{◌≡◌};
ghost use Rattle.gw_random.specs.declared.fault.RandomFault.TheVariants.{Memory};

use octets::NoMemory;
use std::alloc::{AllocError, AllocFailed};
use thiserror::Error;

/// Why there is no report.
#[derive(Clone, Copy, Debug, PartialEq, Eq, Error)]
pub enum RandomFault {
    /// There are to be no gateways, or more than eight.
    #[error("a field has 1 to 8 gateways")]
    Gateways,
    /// Memory ran out.
    #[error("out of memory")]
    Memory,
}

impl From<AllocError> for RandomFault {
    ghost from_gives = { λ _ e. e ≡ Memory };

    fn from(_error: AllocError) -> RandomFault {
        RandomFault::Memory
    }
}

impl From<NoMemory> for RandomFault {
    ghost from_gives = { λ _ e. e ≡ Memory };

    fn from(_error: NoMemory) -> RandomFault {
        RandomFault::Memory
    }
}

impl<T: Drop> From<AllocFailed<T>> for RandomFault {
    ghost from_gives = { λ _ e. e ≡ Memory };

    fn from(_error: AllocFailed<T>) -> RandomFault {
        RandomFault::Memory
    }
}
