//! From octets to a packet (MQTT 3.1.1 sections 2 and 3).

ghost use Rattle.std.specs.Prelude.{◌≡◌, ◌≢◌, ◌⊎◌, IfOk, IfErr, Ok, Err};
ghost use Rattle.mq_packet.specs.declared.packet.Packet.{Packet};
ghost use Rattle.mq_packet.specs.Bodies.{IsPacketValue};
ghost use Rattle.mq_packet.specs.Faults.{IsFirstPacketFault};
ghost use Rattle.mq_packet.specs.Grammar.{IsPacketFramed, SpellsPacket};
ghost use Rattle.mq_packet.specs.Headers.{header_octet};
ghost use Rattle.mq_packet.specs.inner.Reading.{packet_of, ReadsPacket};

use crate::fault::PacketFault;
use crate::header::Header;
use crate::length::remaining;
use crate::packet::Packet;
use std::alloc::Global;

mod bodies;
mod connection;
mod parts;

use bodies::{conn_ack, publish_acknowledged, publish_once, sub_ack, subscribe, unsubscribe};
use connection::connect;
use parts::{bare, only_id};

/// The packet that these octets spell, all of them. Remaining Length is taken in up to four octets,
/// whatever the size.
pub fn decode(alloc: Global, octets: &[u8]) -> Result<Packet, PacketFault>
    // What is read is spelled so.
    ensures ok { IfOk result (SpellsPacket octets.now) }
    ensures value { IfOk result IsPacketValue }

    // What is spelled so is read, unless memory runs out.
    ensures only { (p : Packet) → IsPacketValue p → SpellsPacket octets.now p → (result ≡ Ok p)
        ⊎ (result ≡ Err PacketFault.Memory) }

    // A refusal names the first thing that is wrong.
    ensures fault { IfErr result (IsFirstPacketFault octets.now) }
{
    let (header, body) = open(octets)?;
    packet(alloc, header, body)
}

/// What the first octet says, and the body.
fn open(octets: &[u8]) -> Result<(Header, &[u8]), PacketFault>
    ensures ok { IfOk result (λ x. IsPacketFramed octets.now (header_octet x.0) x.1.now) }
    ensures fault { IfErr result (λ e. (e ≢ PacketFault.Memory) × IsFirstPacketFault octets.now e) }
{
    let [first, after @ ..] = octets else {
        return Err(PacketFault::Short);
    };
    let header = Header::from_octet(*first)?;
    let (said, body) = remaining(after)?;
    let held = body.len();
    if said as usize != held {
        return Err(PacketFault::Length { said, held });
    }
    Ok((header, body))
}

/// The packet with this header and this body.
fn packet(alloc: Global, header: Header, body: &[u8]) -> Result<Packet, PacketFault>
    ensures { ReadsPacket (packet_of header body.now) result }
{
    match header {
        Header::Connect => connect(alloc, body),
        Header::ConnAck => conn_ack(body),
        Header::PublishOnce { retain } => publish_once(alloc, retain, body),
        Header::PublishAcknowledged { dup, retain } => {
            publish_acknowledged(alloc, dup, retain, body)
        }
        Header::PubAck => match only_id(body) {
            None => Err(PacketFault::Body),
            Some(id) => Ok(Packet::PubAck { id }),
        },
        Header::Subscribe => subscribe(alloc, body),
        Header::SubAck => sub_ack(body),
        Header::Unsubscribe => unsubscribe(alloc, body),
        Header::UnsubAck => match only_id(body) {
            None => Err(PacketFault::Body),
            Some(id) => Ok(Packet::UnsubAck { id }),
        },
        Header::PingReq => bare(body, Packet::PingReq),
        Header::PingResp => bare(body, Packet::PingResp),
        Header::Disconnect => bare(body, Packet::Disconnect),
    }
}
