//! Why a datagram is no frame, and why a frame has no octets.

ghost use Rattle.std.specs.Prelude.{◌≡◌};
ghost use Rattle.sn_frame.specs.declared.fault.FrameFault.TheVariants as frame_faults;
ghost use Rattle.sn_frame.specs.declared.fault.EncodeFault.TheVariants as encode_faults;

use octets::NoMemory;
use std::alloc::AllocError;
use thiserror::Error;

/// Why a datagram was refused: the first cause in the order Empty, Encapsulated, Length,
/// UnknownType, Body. Memory is wanted only for a datagram that has none of them.
#[derive(Debug, Drop, PartialEq, Eq, Error)]
pub enum FrameFault {
    /// No octet is there.
    #[error("the datagram is empty")]
    Empty,
    /// The total that Length says is not the datagram's size, or has no room for a MsgType. `said`
    /// is 1 where the first octet is 01 and fewer than three octets are there.
    #[error("Length says {said} octets in all and the datagram has {held}: both must be equal, with room for MsgType")]
    Length { said: u16, held: usize },
    /// MsgType is FE.
    #[error("the datagram is a forwarder's encapsulation (MsgType fe), which is not supported")]
    Encapsulated,
    /// MsgType is none that MQTT-SN 1.2 section 5.2.2 lists.
    #[error("MsgType {value:02x} is no message of MQTT-SN 1.2")]
    UnknownType { value: u8 },
    /// The octets after MsgType are too few or too many for the message.
    #[error("the octets behind MsgType have a size that this message does not allow")]
    Body,
    /// A copy of the message's octets could not be made.
    #[error("out of memory")]
    Memory,
}

/// Why a frame was not written.
#[derive(Debug, Drop, PartialEq, Eq, Error)]
pub enum EncodeFault {
    /// The frame has more octets than its Length can say.
    #[error("the frame has more than 65535 octets, the most that Length can say")]
    TooLong,
    /// A field has a size that the message does not allow: the id of CONNECT or PINGREQ, or the
    /// topic of SUBSCRIBE or UNSUBSCRIBE.
    #[error("a field of the frame has a size that its message does not allow")]
    Body,
    /// There was no room to write in.
    #[error("out of memory")]
    Memory,
}

impl FrameFault {
    ghost use Rattle.sn_frame.specs.Faults.{frame_fault_number};

    /// The number that programs print for it, from 1 to 6.
    pub fn number(&self) -> u8
        ensures { result ≡ frame_fault_number self.now }
    {
        match self {
            FrameFault::Empty => 1,
            FrameFault::Length { .. } => 2,
            FrameFault::Encapsulated => 3,
            FrameFault::UnknownType { .. } => 4,
            FrameFault::Body => 5,
            FrameFault::Memory => 6,
        }
    }
}

impl From<AllocError> for FrameFault {
    ghost from_gives = { λ _ e. e ≡ frame_faults.Memory };

    fn from(_e: AllocError) -> FrameFault {
        FrameFault::Memory
    }
}

impl From<NoMemory> for FrameFault {
    ghost from_gives = { λ _ e. e ≡ frame_faults.Memory };

    fn from(_e: NoMemory) -> FrameFault {
        FrameFault::Memory
    }
}

impl From<AllocError> for EncodeFault {
    ghost from_gives = { λ _ e. e ≡ encode_faults.Memory };

    fn from(_e: AllocError) -> EncodeFault {
        EncodeFault::Memory
    }
}

impl From<NoMemory> for EncodeFault {
    ghost from_gives = { λ _ e. e ≡ encode_faults.Memory };

    fn from(_e: NoMemory) -> EncodeFault {
        EncodeFault::Memory
    }
}
