//! Whether a packet's parts have values that are allowed, and its body.

ghost use Rattle.std.specs.Prelude.{◌≡◌, ◌≢◌, ◌<◌, ◌++◌, ◌↔◌, ◌⊎◌, IfOk, OnOk, OnErr, Err, IsTrue, IfSome};
ghost use Rattle.mq_packet.specs.declared.packet.TheConstants.{MAX_REMAINING};
ghost use Rattle.mq_packet.specs.Bodies.{IsConnAckCode, IsDelivery, IsLogin, IsAllowedPacket, IsWill, packet_body};
ghost use Rattle.mq_packet.specs.Grammar.{packet_size, packet_spelling};
ghost use Rattle.mq_packet.specs.Text.{IsData};

use crate::encoder::fronts::{connect, octets_of, publish, sub_ack, subscribe, unsubscribe};
use crate::encoder::whole::append_spelling;
use crate::fault::EncodeFault;
use crate::marks::bit;
use crate::packet::{Delivery, Login, MAX_DATA, Packet, Will};
use crate::text::{is_filter_text, is_text, is_topic_text};
use octets::Octets;
use std::alloc::{AllocError, Global};

/// Whether the packet's parts have values that MQTT 3.1.1 allows.
pub(super) fn is_message(packet: &Packet) -> bool
    ensures { IsTrue result ↔ IsAllowedPacket packet.now }
{
    match packet {
        Packet::Connect {
            client,
            will,
            login,
            ..
        } => { is_text(client.as_slice()) && are_wills(will) && are_logins(login) }
        Packet::ConnAck { session, code } => is_answer(*session, *code),
        Packet::Publish {
            delivery,
            topic,
            ..
        } => { is_delivery(*delivery) && is_topic_text(topic.as_slice()) }
        Packet::Subscribe { id, filter, .. } | Packet::Unsubscribe { id, filter } => {
            *id != 0 && is_filter_text(filter.as_slice())
        }
        Packet::PubAck { id } | Packet::SubAck { id, .. } | Packet::UnsubAck { id } => *id != 0,
        Packet::PingReq | Packet::PingResp | Packet::Disconnect => true,
    }
}

/// Whether a will, if there is one, has a topic, and a message that is short enough.
fn are_wills(will: &Option<Will>) -> bool
    ensures { IsTrue result ↔ IfSome will.now IsWill }
{
    match will {
        None => true,
        Some(will) => is_topic_text(will.topic.as_slice()) && will.message.len() <= MAX_DATA,
    }
}

/// Whether a login, if there is one, has a user, and a password that is short enough.
fn are_logins(login: &Option<Login>) -> bool
    ensures { IsTrue result ↔ IfSome login.now IsLogin }
{
    match login {
        None => true,
        Some(login) => is_text(login.user.as_slice()) && are_few(&login.password),
    }
}

/// Whether octets, if there are any, are few enough.
fn are_few(octets: &Option<Octets>) -> bool
    ensures { IsTrue result ↔ IfSome octets.now IsData }
{
    match octets {
        None => true,
        Some(octets) => octets.len() <= MAX_DATA,
    }
}

/// Whether CONNACK may say so.
fn is_answer(session: bool, code: u8) -> bool
    ensures { IsTrue result ↔ IsConnAckCode session code }
{
    if session { code == 0 } else { code <= 5 }
}

/// Whether the packet id of a publication, if it has one, is not 0.
fn is_delivery(delivery: Delivery) -> bool
    ensures { IsTrue result ↔ IsDelivery delivery }
{
    match delivery {
        Delivery::Once => true,
        Delivery::Acknowledged { id, .. } => id != 0,
    }
}

/// Appends the spelling of a packet whose body begins with what was made, or nothing.
fn append_made(
    out: &mut Vec<u8>,
    packet: &Packet,
    made: Result<Vec<u8>, AllocError>,
    tail: &[u8],
) -> Result<(), EncodeFault>
    requires { IfOk made (λ front. packet_body packet.now ≡ front.items ++ tail.now) }
    ensures ok { OnOk result (out.new.items ≡ out.old.items ++ packet_spelling packet.now) }
    ensures body { result ≢ Err EncodeFault.Body }
    ensures too_long { result ≡ Err EncodeFault.TooLong → MAX_REMAINING < packet_size packet.now }
    ensures refused { MAX_REMAINING < packet_size packet.now
        → (result ≡ Err EncodeFault.TooLong) ⊎ (result ≡ Err EncodeFault.Memory) }
    ensures err { OnErr result (out.new.items ≡ out.old.items) }
{
    let front = made?;
    append_spelling(out, packet, &front, tail)
}

/// Appends the canonical spelling of a packet, or nothing. The body of a publication is lent and
/// copied once.
pub(super) fn append_packet(
    alloc: Global,
    out: &mut Vec<u8>,
    packet: &Packet,
) -> Result<(), EncodeFault>
    requires { IsAllowedPacket packet.now }
    ensures ok { OnOk result (out.new.items ≡ out.old.items ++ packet_spelling packet.now) }
    ensures body { result ≢ Err EncodeFault.Body }
    ensures too_long { result ≡ Err EncodeFault.TooLong → MAX_REMAINING < packet_size packet.now }
    ensures refused { MAX_REMAINING < packet_size packet.now
        → (result ≡ Err EncodeFault.TooLong) ⊎ (result ≡ Err EncodeFault.Memory) }
    ensures err { OnErr result (out.new.items ≡ out.old.items) }
{
    match packet {
        Packet::Connect {
            clean,
            keep_alive,
            client,
            will,
            login,
        } => {
            let front = connect(alloc, *clean, *keep_alive, client.as_slice(), will, login);
            append_made(out, packet, front, &[])
        }
        Packet::ConnAck { session, code } => {
            append_spelling(out, packet, &[bit(*session), *code], &[])
        }
        Packet::Publish {
            delivery,
            topic,
            body,
            ..
        } => {
            let front = publish(alloc, *delivery, topic.as_slice());
            append_made(out, packet, front, body.as_slice())
        }
        Packet::PubAck { id } | Packet::UnsubAck { id } => {
            append_spelling(out, packet, &octets_of(*id), &[])
        }
        Packet::Subscribe { id, filter, qos } => {
            append_made(
                out,
                packet,
                subscribe(alloc, *id, filter.as_slice(), *qos),
                &[],
            )
        }
        Packet::SubAck { id, granted } => {
            append_spelling(out, packet, &sub_ack(*id, *granted), &[])
        }
        Packet::Unsubscribe { id, filter } => {
            append_made(out, packet, unsubscribe(alloc, *id, filter.as_slice()), &[])
        }
        Packet::PingReq | Packet::PingResp | Packet::Disconnect => {
            append_spelling(out, packet, &[], &[])
        }
    }
}
