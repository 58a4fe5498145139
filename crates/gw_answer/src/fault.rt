//! Why a node refuses.

ghost use Rattle.std.specs.Prelude.{◌≡◌};
ghost use Rattle.gw_answer.specs.Answers.{refusal_of_fault, refusal_number};

use super::out::Out;
use jr_journal::JournalFault;
use rep_ops::Subject;
use sn_frame::FrameFault;
use std::fmt;
use std::sync::Arc;
use thiserror::Error;

/// Why a node refuses. A call of a node looks for them in this order: Halted, Frame, Exhausted,
/// Conflict, Full, Disk. `Journal` is told by `Node::open`, `Node::reopen` and `Node::compact`
/// alone. Memory may stand in the place of each.
///
/// After a call that is refused the node is as it was, but for Disk, after which it is halted.
/// Where `Node::open` refuses there is no node, and the disk comes back; where `Node::reopen`
/// refuses for another cause than Memory, the node is halted.
#[derive(Debug, Drop, Error)]
pub enum NodeFault {
    /// Fault 1: the datagram is no frame (MQTT-SN 1.2 sections 5.2 and 5.4).
    Frame { fault: FrameFault },
    /// Fault 2: a write of the journal has failed since the node was opened, or an attempt to open
    /// it again has. It must be opened again from its disk.
    Halted,
    /// Fault 3: the disk of the journal failed; where a node is opened, this may be a read too.
    /// `out` is what is to be sent in the place of the answer: for a datagram the refusal that its
    /// client waits for, if its answer has a return code, else nothing. What the call would have
    /// made or taken is not taken, and nothing of it was sent.
    Disk { out: Arc<Out> },
    /// Fault 4: the delta contradicts what the gateway has taken of the client or the topic.
    Conflict { of: Subject },
    /// Fault 5: the gateway would hold more than a limit allows, or the operations of its step make
    /// no delta, as where that would have more than 8 MiB.
    Full,
    /// Fault 6: an epoch, a sequence number or a clock is at its last value.
    Exhausted,
    /// Fault 7: memory ran out.
    Memory,
    /// Fault 8: the slots are no journal of this gateway; where the journal is compacted, its
    /// generation is the last there is.
    Journal { fault: JournalFault },
}

impl fmt::Display for NodeFault {
    /// Says why the node refuses.
    fn fmt<W: fmt::Write>(&self, f: &mut fmt::Formatter<W>) -> fmt::Result {
        let words = match self {
            NodeFault::Frame { fault } => {
                return write!(f, "the datagram is no frame: {fault}");
            }
            NodeFault::Halted => {
                "the gateway is halted: a write of its journal has failed, and it must be opened again from its disk"
            }
            NodeFault::Disk { .. } => "the disk of the journal failed",
            NodeFault::Conflict { of } => {
                return write!(
                    f,
                    "an operation of {of:?} contradicts one that was taken under the same name"
                );
            }
            NodeFault::Full => {
                "the gateway would hold more than it may, or make a delta of more than 8 MiB"
            }
            NodeFault::Exhausted => "an epoch, a sequence number or a clock is at its last value",
            NodeFault::Memory => "out of memory",
            NodeFault::Journal { fault } => {
                return write!(f, "the journal cannot be opened: {fault}");
            }
        };
        f.write_str(words)
    }
}

impl NodeFault {
    /// The number by which programs tell it, from 1 to 8: 3 is told as `N3`.
    pub fn number(&self) -> u8
        ensures { result ≡ refusal_number (refusal_of_fault self.now) }
    {
        match self {
            NodeFault::Frame { .. } => 1,
            NodeFault::Halted => 2,
            NodeFault::Disk { .. } => 3,
            NodeFault::Conflict { .. } => 4,
            NodeFault::Full => 5,
            NodeFault::Exhausted => 6,
            NodeFault::Memory => 7,
            NodeFault::Journal { .. } => 8,
        }
    }
}
