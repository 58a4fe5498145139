//! Why a journal refuses.

ghost use Rattle.std.specs.Prelude.{◌≡◌};
ghost use Rattle.jr_journal.specs.Faults.{fault_number};
ghost use Rattle.jr_journal.specs.declared.fault.JournalFault.TheVariants.{Memory};

use jr_disk::Slot;
use octets::NoMemory;
use std::alloc::{AllocError, AllocFailed};
use std::fmt;
use thiserror::Error;

/// Why a journal refuses.
#[derive(Clone, Copy, Debug, PartialEq, Eq, Error)]
pub enum JournalFault {
    /// Fault 1: the disk failed.
    Disk,
    /// Fault 2: the slots are no journal of this gateway; of a compaction, that no further
    /// generation can be told.
    Foreign,
    /// Fault 3: what stands at this place of a slot is no record and no seal that may stand there.
    BadRecord { slot: Slot, at: usize },
    /// Fault 4: memory ran out.
    Memory,
    /// Fault 5: the journal is halted: a write has failed since it was opened, or a try to open it
    /// again.
    Halted,
}

impl fmt::Display for JournalFault {
    /// Says why the journal refuses.
    fn fmt<W: fmt::Write>(&self, f: &mut fmt::Formatter<W>) -> fmt::Result {
        let words = match self {
            JournalFault::Disk => "the disk failed",
            JournalFault::Foreign => "the slots are no journal of this gateway",
            JournalFault::BadRecord { at, slot } => {
                return write!(f, "no record at byte {at} of slot {slot:?}");
            }
            JournalFault::Memory => "out of memory",
            JournalFault::Halted => "the journal is halted",
        };
        f.write_str(words)
    }
}

impl JournalFault {
    /// The number by which programs tell it, from 1 to 5: 3 is told as `J3`.
    pub fn number(&self) -> u8
        ensures { result ≡ fault_number self.now }
    {
        match self {
            JournalFault::Disk => 1,
            JournalFault::Foreign => 2,
            JournalFault::BadRecord { .. } => 3,
            JournalFault::Memory => 4,
            JournalFault::Halted => 5,
        }
    }
}

impl From<AllocError> for JournalFault {
    ghost from_gives = { λ _ e. e ≡ Memory };

    fn from(_error: AllocError) -> JournalFault {
        JournalFault::Memory
    }
}

impl From<NoMemory> for JournalFault {
    ghost from_gives = { λ _ e. e ≡ Memory };

    fn from(_error: NoMemory) -> JournalFault {
        JournalFault::Memory
    }
}
