//! The first octet of a packet: its type and flags (MQTT 3.1.1 sections 2.2.1 and 2.2.2).

ghost use Rattle.std.specs.Prelude.{◌≡◌, IfOk, IfErr};
ghost use Rattle.mq_packet.specs.Faults.{IsOctetFault, first_octet_fault};
ghost use Rattle.mq_packet.specs.Headers.{header_octet};
ghost use Rattle.mq_packet.specs.Headers as spec;

use crate::fault::PacketFault;

/// What the first octet of a packet says. Types of quality of service 2 are none of these.
#[derive(Clone, Copy)]
pub enum Header {
    /// A client connects (section 3.1).
    Connect,
    /// The answer to CONNECT (section 3.2).
    ConnAck,
    /// A publication at quality of service 0 (section 3.3).
    PublishOnce { retain: bool },
    /// A publication at quality of service 1 (section 3.3).
    PublishAcknowledged { dup: bool, retain: bool },
    /// The answer to it (section 3.4).
    PubAck,
    /// A subscription (section 3.8).
    Subscribe,
    /// The answer to SUBSCRIBE (section 3.9).
    SubAck,
    /// The end of a subscription (section 3.10).
    Unsubscribe,
    /// The answer to UNSUBSCRIBE (section 3.11).
    UnsubAck,
    /// A sign of life (section 3.12).
    PingReq,
    /// The answer to PINGREQ (section 3.13).
    PingResp,
    /// The end of a connection (section 3.14).
    Disconnect,
}

impl Header {
    /// What an octet says as the first of a packet. The faults are UnknownType, QosTwo and Flags.
    pub fn from_octet(octet: u8) -> Result<Header, PacketFault>
        ensures ok { IfOk result (λ header. header_octet header ≡ octet) }
        ensures err { IfErr result (IsOctetFault octet) }
    {
        let header = match octet {
            0x10 => Header::Connect,
            0x20 => Header::ConnAck,
            0x30 => Header::PublishOnce { retain: false },
            0x31 => Header::PublishOnce { retain: true },
            0x32 => Header::PublishAcknowledged {
                dup: false,
                retain: false,
            },
            0x33 => Header::PublishAcknowledged {
                dup: false,
                retain: true,
            },
            0x3a => Header::PublishAcknowledged {
                dup: true,
                retain: false,
            },
            0x3b => Header::PublishAcknowledged {
                dup: true,
                retain: true,
            },
            0x40 => Header::PubAck,
            0x82 => Header::Subscribe,
            0x90 => Header::SubAck,
            0xa2 => Header::Unsubscribe,
            0xb0 => Header::UnsubAck,
            0xc0 => Header::PingReq,
            0xd0 => Header::PingResp,
            0xe0 => Header::Disconnect,
            _ => return Err(refusal(octet)),
        };
        Ok(header)
    }

    /// The octet.
    pub fn octet(self) -> u8
        ensures { result ≡ header_octet self }
    {
        match self {
            Header::Connect => 0x10,
            Header::ConnAck => 0x20,
            Header::PublishOnce { retain: false } => 0x30,
            Header::PublishOnce { retain: true } => 0x31,
            Header::PublishAcknowledged {
                dup: false,
                retain: false,
            } => 0x32,
            Header::PublishAcknowledged {
                dup: false,
                retain: true,
            } => 0x33,
            Header::PublishAcknowledged {
                dup: true,
                retain: false,
            } => 0x3a,
            Header::PublishAcknowledged {
                dup: true,
                retain: true,
            } => 0x3b,
            Header::PubAck => 0x40,
            Header::Subscribe => 0x82,
            Header::SubAck => 0x90,
            Header::Unsubscribe => 0xa2,
            Header::UnsubAck => 0xb0,
            Header::PingReq => 0xc0,
            Header::PingResp => 0xd0,
            Header::Disconnect => 0xe0,
        }
    }
}

/// Why no packet begins with this octet.
fn refusal(octet: u8) -> PacketFault
    ensures { result ≡ first_octet_fault octet }
{
    if octet < 0x10 || 0xf0 <= octet {
        PacketFault::UnknownType { octet }
    } else if is_qos_two(octet) {
        PacketFault::QosTwo { octet }
    } else {
        PacketFault::Flags { octet }
    }
}

/// Whether a packet of quality of service 2 begins with this octet.
fn is_qos_two(octet: u8) -> bool
    ensures { result ≡ spec.is_qos_two octet }
{
    matches!(octet, 0x34 | 0x35 | 0x3c | 0x3d | 0x50 | 0x62 | 0x70)
}
