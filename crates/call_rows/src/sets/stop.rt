//! Why a line is not played.

use octets::NoMemory;
use rep_ops::OpsFault;
use sn_topic::TopicFault;

/// Why a line is not played.
#[derive(Clone, Copy)]
pub(crate) enum Stop {
    /// The line is none of the language.
    Line,
    /// The message has more than 4,096 octets, so that there is none of it.
    Message,
    /// Memory ran out.
    Memory,
}

impl Stop {
    /// The reason in words.
    pub(crate) fn reason(self) -> &'static str {
        match self {
            Stop::Line => "no such line",
            Stop::Message => "a message of more than 4096 octets",
            Stop::Memory => "out of memory",
        }
    }
}

impl From<NoMemory> for Stop {
    fn from(_error: NoMemory) -> Stop {
        Stop::Memory
    }
}

/// A client that a line names and that is none.
impl From<OpsFault> for Stop {
    fn from(fault: OpsFault) -> Stop {
        match fault {
            OpsFault::Memory => Stop::Memory,
            _ => Stop::Line,
        }
    }
}

/// A topic that a line wants and that is none.
impl From<TopicFault> for Stop {
    fn from(fault: TopicFault) -> Stop {
        match fault {
            TopicFault::Memory => Stop::Memory,
            _ => Stop::Line,
        }
    }
}
