//! Why a step has no plan.

ghost use Rattle.std.specs.Prelude.{◌≡◌};
ghost use Rattle.sn_local.specs.declared.fault.StepFault.TheVariants.{Memory};
ghost use Rattle.sn_local.specs.Faults.{step_fault_number};

use octets::NoMemory;
use std::alloc::{AllocError, AllocFailed};
use thiserror::Error;

/// Why a step has no plan. Nothing was changed.
#[derive(Clone, Copy, Debug, PartialEq, Eq, Error)]
pub enum StepFault {
    /// Fault 1: the step needs an epoch, a sequence number or a clock after the last one.
    #[error("an epoch, a sequence number or a clock is at its last value")]
    Exhausted,
    /// Fault 2: memory ran out.
    #[error("out of memory")]
    Memory,
}

impl StepFault {
    /// The number by which reports name the fault, 1 or 2.
    pub fn number(&self) -> u8
        ensures { result ≡ step_fault_number self.now }
    {
        match self {
            StepFault::Exhausted => 1,
            StepFault::Memory => 2,
        }
    }
}

impl From<AllocError> for StepFault {
    ghost from_gives = { λ _ e. e ≡ Memory };

    fn from(_error: AllocError) -> StepFault {
        StepFault::Memory
    }
}

impl From<NoMemory> for StepFault {
    ghost from_gives = { λ _ e. e ≡ Memory };

    fn from(_error: NoMemory) -> StepFault {
        StepFault::Memory
    }
}

impl<T: Drop> From<AllocFailed<T>> for StepFault {
    ghost from_gives = { λ _ e. e ≡ Memory };

    fn from(_error: AllocFailed<T>) -> StepFault {
        StepFault::Memory
    }
}
