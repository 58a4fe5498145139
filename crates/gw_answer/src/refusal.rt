//! Why a node refuses, with three shares of what is answered.

ghost use Rattle.std.specs.Prelude.{◌≡◌, Ok, Err};
ghost use Rattle.gw_answer.specs.Answers.{refusal_of_fault, said};
ghost use Rattle.gw_answer.specs.declared.refusal.Refusal.TheVariants.{Memory};

use super::fault::NodeFault;
use super::out::Out;
use super::shares::{Shares, Subjects};
use jr_journal::JournalFault;
use octets::NoMemory;
use sn_frame::FrameFault;
use std::alloc::{AllocError, AllocFailed};
use std::sync::Arc;

/// What a node answers.
pub type Answer = Result<Arc<Out>, NodeFault>;

/// Why a node refuses. Contracts see of what is answered its value, whoever has a share of it.
#[derive(Drop)]
pub enum Refusal {
    /// The datagram is no frame.
    Frame { fault: FrameFault },
    /// A write of the journal has failed before.
    Halted,
    /// The disk of the journal failed, and this is answered.
    Disk { excuse: Shares },
    /// The delta contradicts what was taken of the client or the topic.
    Conflict { of: Subjects },
    /// More would be held than may be, or the operations make no delta.
    Full,
    /// A number is at its last value.
    Exhausted,
    /// The slots are no journal of this gateway.
    Journal { fault: JournalFault },
    /// Memory ran out.
    Memory,
}

impl From<AllocError> for Refusal {
    ghost from_gives = { λ _ e. e ≡ Memory };

    fn from(_error: AllocError) -> Refusal {
        Refusal::Memory
    }
}

impl<T: Drop> From<AllocFailed<T>> for Refusal {
    ghost from_gives = { λ _ e. e ≡ Memory };

    fn from(_error: AllocFailed<T>) -> Refusal {
        Refusal::Memory
    }
}

impl From<NoMemory> for Refusal {
    ghost from_gives = { λ _ e. e ≡ Memory };

    fn from(_error: NoMemory) -> Refusal {
        Refusal::Memory
    }
}

/// An equal fault.
fn same_fault(fault: &FrameFault) -> FrameFault
    ensures { result ≡ fault.now }
{
    match fault {
        FrameFault::Empty => FrameFault::Empty,
        FrameFault::Length { said, held } => FrameFault::Length {
            said: *said,
            held: *held,
        },
        FrameFault::Encapsulated => FrameFault::Encapsulated,
        FrameFault::UnknownType { value } => FrameFault::UnknownType { value: *value },
        FrameFault::Body => FrameFault::Body,
        FrameFault::Memory => FrameFault::Memory,
    }
}

impl Refusal {
    /// The refusal, with one share of its answer.
    pub fn into_one(self) -> NodeFault
        ensures { refusal_of_fault result ≡ self }
    {
        match self {
            Refusal::Frame { fault } => NodeFault::Frame { fault },
            Refusal::Halted => NodeFault::Halted,
            Refusal::Disk { excuse } => NodeFault::Disk {
                out: excuse.into_one(),
            },
            Refusal::Conflict { of } => NodeFault::Conflict { of: of.into_one() },
            Refusal::Full => NodeFault::Full,
            Refusal::Exhausted => NodeFault::Exhausted,
            Refusal::Journal { fault } => NodeFault::Journal { fault },
            Refusal::Memory => NodeFault::Memory,
        }
    }

    /// The refusal three times, with one share of its answer each.
    fn into_three(self) -> (NodeFault, NodeFault, NodeFault)
        ensures first { refusal_of_fault result.0 ≡ self }
        ensures second { refusal_of_fault result.1 ≡ self }
        ensures third { refusal_of_fault result.2 ≡ self }
    {
        match self {
            Refusal::Frame { fault } => (
                NodeFault::Frame {
                    fault: same_fault(&fault),
                },
                NodeFault::Frame {
                    fault: same_fault(&fault),
                },
                NodeFault::Frame { fault },
            ),
            Refusal::Halted => (NodeFault::Halted, NodeFault::Halted, NodeFault::Halted),
            Refusal::Disk { excuse } => {
                let (first, second, third) = excuse.into_three();
                (
                    NodeFault::Disk { out: first },
                    NodeFault::Disk { out: second },
                    NodeFault::Disk { out: third },
                )
            }
            Refusal::Conflict { of } => {
                let (first, second, third) = of.into_three();
                (
                    NodeFault::Conflict { of: first },
                    NodeFault::Conflict { of: second },
                    NodeFault::Conflict { of: third },
                )
            }
            Refusal::Full => (NodeFault::Full, NodeFault::Full, NodeFault::Full),
            Refusal::Exhausted => (
                NodeFault::Exhausted,
                NodeFault::Exhausted,
                NodeFault::Exhausted,
            ),
            Refusal::Journal { fault } => (
                NodeFault::Journal { fault },
                NodeFault::Journal { fault },
                NodeFault::Journal { fault },
            ),
            Refusal::Memory => (NodeFault::Memory, NodeFault::Memory, NodeFault::Memory),
        }
    }
}

/// The answer, once.
pub fn one_share(answer: Result<Shares, Refusal>) -> Answer
    ensures { said result ≡ answer }
{
    match answer {
        Ok(shares) => Ok(shares.into_one()),
        Err(refusal) => Err(refusal.into_one()),
    }
}

/// The answer, three times.
pub fn three_shares(answer: Result<Shares, Refusal>) -> (Answer, Answer, Answer)
    ensures first { said result.0 ≡ answer }
    ensures second { said result.1 ≡ answer }
    ensures third { said result.2 ≡ answer }
{
    match answer {
        Ok(shares) => {
            let (first, second, third) = shares.into_three();
            (Ok(first), Ok(second), Ok(third))
        }
        Err(refusal) => {
            let (first, second, third) = refusal.into_three();
            (Err(first), Err(second), Err(third))
        }
    }
}
