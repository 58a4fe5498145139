//! Bodies that one packet alone has.

ghost use Rattle.std.specs.Prelude.{◌≡◌};
ghost use Rattle.mq_packet.specs.inner.Reading as spec;
ghost use Rattle.mq_packet.specs.inner.Reading.{ReadsPacket, publish_packet, read_conn_ack, read_once, read_acknowledged, read_subscribe, read_sub_ack_packet, read_unsubscribe};

use crate::decoder::parts::{data, id, qos_of_number};
use crate::fault::PacketFault;
use crate::packet::{Delivery, Packet, Qos};
use crate::text::{is_filter_text, is_topic_text};
use octets::Octets;
use std::alloc::Global;

/// CONNACK.
pub(super) fn conn_ack(body: &[u8]) -> Result<Packet, PacketFault>
    ensures { ReadsPacket (read_conn_ack body.now) result }
{
    let [flags, code] = body else {
        return Err(PacketFault::Body);
    };
    if *flags == 0 && *code <= 5 {
        return Ok(Packet::ConnAck {
            session: false,
            code: *code,
        });
    }
    if *flags == 1 && *code == 0 {
        return Ok(Packet::ConnAck {
            session: true,
            code: *code,
        });
    }
    Err(PacketFault::Body)
}

/// PUBLISH with this topic and this message.
fn publish(
    alloc: Global,
    delivery: Delivery,
    retain: bool,
    topic: &[u8],
    message: &[u8],
) -> Result<Packet, PacketFault>
    ensures { ReadsPacket (publish_packet delivery retain topic.now message.now) result }
{
    if !is_topic_text(topic) {
        return Err(PacketFault::Body);
    }
    Ok(Packet::Publish {
        delivery,
        retain,
        topic: Octets::from_slice(alloc, topic)?,
        body: Octets::from_slice(alloc, message)?,
    })
}

/// PUBLISH at quality of service 0.
pub(super) fn publish_once(alloc: Global, retain: bool, body: &[u8]) -> Result<Packet, PacketFault>
    ensures { ReadsPacket (read_once retain body.now) result }
{
    let Some((topic, message)) = data(body) else {
        return Err(PacketFault::Body);
    };
    publish(alloc, Delivery::Once, retain, topic, message)
}

/// PUBLISH at quality of service 1.
pub(super) fn publish_acknowledged(
    alloc: Global,
    dup: bool,
    retain: bool,
    body: &[u8],
) -> Result<Packet, PacketFault>
    ensures { ReadsPacket (read_acknowledged dup retain body.now) result }
{
    let Some((topic, rest)) = data(body) else {
        return Err(PacketFault::Body);
    };
    let Some((id, message)) = id(rest) else {
        return Err(PacketFault::Body);
    };
    publish(
        alloc,
        Delivery::Acknowledged { id, dup },
        retain,
        topic,
        message,
    )
}

/// SUBSCRIBE.
pub(super) fn subscribe(alloc: Global, body: &[u8]) -> Result<Packet, PacketFault>
    ensures { ReadsPacket (read_subscribe body.now) result }
{
    let Some((id, rest)) = id(body) else {
        return Err(PacketFault::Body);
    };
    let Some((filter, rest)) = data(rest) else {
        return Err(PacketFault::Body);
    };
    if !is_filter_text(filter) {
        return Err(PacketFault::Body);
    }
    let [octet] = rest else {
        return Err(PacketFault::Body);
    };
    let Some(qos) = qos_of_number(*octet) else {
        return Err(PacketFault::Body);
    };
    let filter = Octets::from_slice(alloc, filter)?;
    Ok(Packet::Subscribe { id, filter, qos })
}

/// A return code of SUBACK.
fn grant_at(octet: u8) -> Option<Option<Qos>>
    ensures { result ≡ spec.grant_at octet }
{
    if octet == 0x80 {
        return Some(None);
    }
    match qos_of_number(octet) {
        None => None,
        Some(qos) => Some(Some(qos)),
    }
}

/// SUBACK.
pub(super) fn sub_ack(body: &[u8]) -> Result<Packet, PacketFault>
    ensures { ReadsPacket (read_sub_ack_packet body.now) result }
{
    let Some((id, rest)) = id(body) else {
        return Err(PacketFault::Body);
    };
    let [octet] = rest else {
        return Err(PacketFault::Body);
    };
    match grant_at(*octet) {
        None => Err(PacketFault::Body),
        Some(granted) => Ok(Packet::SubAck { id, granted }),
    }
}

/// UNSUBSCRIBE.
pub(super) fn unsubscribe(alloc: Global, body: &[u8]) -> Result<Packet, PacketFault>
    ensures { ReadsPacket (read_unsubscribe body.now) result }
{
    let Some((id, rest)) = id(body) else {
        return Err(PacketFault::Body);
    };
    let Some((filter, rest)) = data(rest) else {
        return Err(PacketFault::Body);
    };
    if !is_filter_text(filter) || !rest.is_empty() {
        return Err(PacketFault::Body);
    }
    let filter = Octets::from_slice(alloc, filter)?;
    Ok(Packet::Unsubscribe { id, filter })
}
