//! Why a line, or a script, is refused.

ghost use Rattle.std.specs.Prelude.{◌≡◌};
ghost use Rattle.gw_script.specs.declared.fault.LineFault.TheVariants as line_faults;
ghost use Rattle.gw_script.specs.declared.fault.ScriptFault.TheVariants as script_faults;

use octets::NoMemory;
use std::alloc::{AllocError, AllocFailed};
use thiserror::Error;

/// Why a line is refused.
#[derive(Clone, Copy, Debug, PartialEq, Eq, Error)]
pub enum LineFault {
    /// It is no command, or none that may stand there.
    #[error("not a command")]
    NotACommand,
    /// Memory ran out.
    #[error("out of memory")]
    Memory,
}

impl From<AllocError> for LineFault {
    ghost from_gives = { λ _ e. e ≡ line_faults.Memory };

    fn from(_error: AllocError) -> LineFault {
        LineFault::Memory
    }
}

impl From<NoMemory> for LineFault {
    ghost from_gives = { λ _ e. e ≡ line_faults.Memory };

    fn from(_error: NoMemory) -> LineFault {
        LineFault::Memory
    }
}

/// Why a script is refused.
#[derive(Clone, Copy, Debug, PartialEq, Eq, Error)]
pub enum ScriptFault {
    /// The first bad line. Lines are numbered from 1, empty ones too.
    #[error("line {number}: not a command")]
    Line { number: usize },
    /// The first line that is no call of those that are to come together, or the number that it
    /// would have if it were there.
    #[error("line {number}: not a call")]
    Call { number: usize },
    /// Memory ran out.
    #[error("out of memory")]
    Memory,
}

impl<T: Drop> From<AllocFailed<T>> for LineFault {
    ghost from_gives = { λ _ e. e ≡ line_faults.Memory };

    fn from(_error: AllocFailed<T>) -> LineFault {
        LineFault::Memory
    }
}

impl<T: Drop> From<AllocFailed<T>> for ScriptFault {
    ghost from_gives = { λ _ e. e ≡ script_faults.Memory };

    fn from(_error: AllocFailed<T>) -> ScriptFault {
        ScriptFault::Memory
    }
}

impl From<AllocError> for ScriptFault {
    ghost from_gives = { λ _ e. e ≡ script_faults.Memory };

    fn from(_error: AllocError) -> ScriptFault {
        ScriptFault::Memory
    }
}

impl From<NoMemory> for ScriptFault {
    ghost from_gives = { λ _ e. e ≡ script_faults.Memory };

    fn from(_error: NoMemory) -> ScriptFault {
        ScriptFault::Memory
    }
}
