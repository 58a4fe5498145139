//! First octet, Remaining Length and body (MQTT 3.1.1 section 2).

ghost use Rattle.std.specs.Prelude.{◌≡◌, ◌≢◌, ◌<◌, ◌+◌, ◌%◌, ◌^◌, length, ◌++◌, ◌↔◌, OnOk, OnErr, Err};
ghost use Rattle.mq_packet.specs.declared.packet.TheConstants.{MAX_REMAINING};
ghost use Rattle.mq_packet.specs.Bodies as spec;
ghost use Rattle.mq_packet.specs.Grammar.{packet_size, packet_spelling};

use crate::fault::EncodeFault;
use crate::header::Header;
use crate::packet::{Delivery, MAX_REMAINING, Packet};

/// What the first octet of a packet says.
fn header_of(packet: &Packet) -> Header
    ensures { result ≡ spec.header_of packet.now }
{
    match packet {
        Packet::Connect { .. } => Header::Connect,
        Packet::ConnAck { .. } => Header::ConnAck,
        Packet::Publish {
            delivery,
            retain,
            ..
        } => publication_of(*delivery, *retain),
        Packet::PubAck { .. } => Header::PubAck,
        Packet::Subscribe { .. } => Header::Subscribe,
        Packet::SubAck { .. } => Header::SubAck,
        Packet::Unsubscribe { .. } => Header::Unsubscribe,
        Packet::UnsubAck { .. } => Header::UnsubAck,
        Packet::PingReq => Header::PingReq,
        Packet::PingResp => Header::PingResp,
        Packet::Disconnect => Header::Disconnect,
    }
}

/// Which publication it is.
fn publication_of(delivery: Delivery, retain: bool) -> Header
    ensures { result ≡ spec.publication_of delivery retain }
{
    match delivery {
        Delivery::Once => Header::PublishOnce { retain },
        Delivery::Acknowledged { dup, .. } => Header::PublishAcknowledged { dup, retain },
    }
}

/// Appends the canonical spelling of a packet whose body is made of these parts, or nothing.
pub(super) fn append_spelling(
    out: &mut Vec<u8>,
    packet: &Packet,
    front: &[u8],
    tail: &[u8],
) -> Result<(), EncodeFault>
    requires { spec.packet_body packet.now ≡ front.now ++ tail.now }
    ensures ok { OnOk result (out.new.items ≡ out.old.items ++ packet_spelling packet.now) }
    ensures body { result ≢ Err EncodeFault.Body }
    ensures too_long { (result ≡ Err EncodeFault.TooLong) ↔
        (MAX_REMAINING < packet_size packet.now) }
    ensures err { OnErr result (out.new.items ≡ out.old.items) }
{
    let first = header_of(packet).octet();
    let size = front.len() + tail.len();
    if size < 0x80 {
        append_parts(out, &[first, size as u8], front, tail)
    } else if size < 0x4000 {
        append_parts(out, &[first, low(size), (size / 0x80) as u8], front, tail)
    } else if size < 0x20_0000 {
        let head = [first, low(size), low(size / 0x80), (size / 0x4000) as u8];
        append_parts(out, &head, front, tail)
    } else if size <= MAX_REMAINING {
        let head = [
            first,
            low(size),
            low(size / 0x80),
            low(size / 0x4000),
            (size / 0x20_0000) as u8,
        ];
        append_parts(out, &head, front, tail)
    } else {
        Err(EncodeFault::TooLong)
    }
}

/// The lowest seven bits of a number, with the mark that another octet follows.
fn low(n: usize) -> u8
    ensures { result ≡ n % 128 + 128 }
{
    (n % 128) as u8 + 128
}

/// Appends all three, or nothing: the room for all of them is reserved first.
fn append_parts(
    out: &mut Vec<u8>,
    head: &[u8],
    front: &[u8],
    tail: &[u8],
) -> Result<(), EncodeFault>
    requires { length head.now + length front.now + length tail.now < 2 ^ 64 }
    ensures ok { OnOk result (out.new.items ≡ out.old.items ++ (head.now ++ front.now
        ++ tail.now)) }
    ensures err { OnErr result (out.new.items ≡ out.old.items) }
    ensures body { result ≢ Err EncodeFault.Body }
    ensures too_long { result ≢ Err EncodeFault.TooLong }
{
    out.reserve(head.len() + front.len() + tail.len())?;
    out.extend_from_slice(head)?;
    out.extend_from_slice(front)?;
    out.extend_from_slice(tail)?;
    Ok(())
}
