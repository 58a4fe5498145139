//! Why octets are no packet, and why a packet has no octets.

ghost use Rattle.std.specs.Prelude.{◌≡◌};
ghost use Rattle.mq_packet.specs.declared.fault.PacketFault.TheVariants as packet_faults;
ghost use Rattle.mq_packet.specs.declared.fault.EncodeFault.TheVariants as encode_faults;

use octets::NoMemory;
use std::alloc::AllocError;
use std::fmt;
use thiserror::Error;

/// Why octets were refused: the first cause in the order of the variants. The first octet decides
/// UnknownType, QosTwo and Flags. Memory is asked for only if the octets have none of the faults.
#[derive(Clone, Copy, Debug, PartialEq, Eq, Error)]
pub enum PacketFault {
    /// The type in the first octet is 0 or 15, which MQTT 3.1.1 section 2.2.1 reserves.
    UnknownType { octet: u8 },
    /// A PUBLISH at quality of service 2, PUBREC, PUBREL or PUBCOMP: a bridge asks for none.
    QosTwo { octet: u8 },
    /// The flags in the first octet are not those of its type (MQTT 3.1.1 section 2.2.2).
    Flags { octet: u8 },
    /// The octets end before Remaining Length does.
    Short,
    /// Remaining Length says in its fourth octet that a fifth follows (MQTT 3.1.1 section 2.2.3).
    TooLong,
    /// Remaining Length is not the size of what is after it.
    Length { said: u32, held: usize },
    /// The octets after Remaining Length are no body of this type: too few or too many of them, a
    /// string that is no UTF-8 or has the octet 0, a topic that is empty or has a wildcard, packet
    /// id 0, or a code that MQTT 3.1.1 does not have. So are several filters or return codes.
    Body,
    /// A copy of the packet's octets could not be made.
    Memory,
}

impl fmt::Display for PacketFault {
    /// Says why the octets are refused.
    fn fmt<W: fmt::Write>(&self, f: &mut fmt::Formatter<W>) -> fmt::Result {
        let words = match self {
            PacketFault::UnknownType { octet } => {
                return of_octet(f, *octet, "has no type of MQTT 3.1.1");
            }
            PacketFault::QosTwo { octet } => {
                let words = "is of quality of service 2, which was not asked for";
                return of_octet(f, *octet, words);
            }
            PacketFault::Flags { octet } => {
                return of_octet(f, *octet, "has flags that its type does not allow");
            }
            PacketFault::Short => "the packet ends before its Remaining Length does",
            PacketFault::TooLong => "Remaining Length has more than four octets",
            PacketFault::Length { said, held } => {
                return write!(
                    f,
                    "Remaining Length says {said} octets and the packet has {held}"
                );
            }
            PacketFault::Body => "what is after Remaining Length is no body of this packet",
            PacketFault::Memory => "out of memory",
        };
        f.write_str(words)
    }
}

/// Says what is wrong with a first octet.
fn of_octet<W: fmt::Write>(f: &mut fmt::Formatter<W>, octet: u8, words: &str) -> fmt::Result {
    write!(f, "the first octet {octet:02x} {words}")
}

/// Why a packet was not written.
#[derive(Clone, Copy, Debug, PartialEq, Eq, Error)]
pub enum EncodeFault {
    /// A field of the packet has a value that MQTT 3.1.1 does not allow: a string, a topic, a
    /// packet id or a return code.
    Body,
    /// The body has more octets than Remaining Length can say.
    TooLong,
    /// There was no room to write in.
    Memory,
}

impl fmt::Display for EncodeFault {
    /// Says why the packet is not written.
    fn fmt<W: fmt::Write>(&self, f: &mut fmt::Formatter<W>) -> fmt::Result {
        f.write_str(match self {
            EncodeFault::Body => "a field of the packet has a value that MQTT 3.1.1 does not allow",
            EncodeFault::TooLong =>
                "the packet has more than 268435455 octets after Remaining Length",
            EncodeFault::Memory => "out of memory",
        })
    }
}

impl PacketFault {
    ghost use Rattle.mq_packet.specs.Faults.{packet_fault_number};

    /// The number that programs print for it, from 1 to 8.
    pub fn number(&self) -> u8
        ensures { result ≡ packet_fault_number self.now }
    {
        match self {
            PacketFault::UnknownType { .. } => 1,
            PacketFault::QosTwo { .. } => 2,
            PacketFault::Flags { .. } => 3,
            PacketFault::Short => 4,
            PacketFault::TooLong => 5,
            PacketFault::Length { .. } => 6,
            PacketFault::Body => 7,
            PacketFault::Memory => 8,
        }
    }
}

impl From<NoMemory> for PacketFault {
    ghost from_gives = { λ _ e. e ≡ packet_faults.Memory };

    fn from(_e: NoMemory) -> PacketFault {
        PacketFault::Memory
    }
}

impl From<AllocError> for EncodeFault {
    ghost from_gives = { λ _ e. e ≡ encode_faults.Memory };

    fn from(_e: AllocError) -> EncodeFault {
        EncodeFault::Memory
    }
}
