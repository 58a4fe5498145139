//! What clients send.

use super::draw::Draw;
use super::writing::{PREDEFINED, PREDEFINED_ID};
use octets::{NoMemory, Octets, append_u16};
use sn_frame::{Flags, Frame, Qos, Will, encode};
use std::alloc::Global;

/// Names that clients register, subscribe to and publish under.
const NAMES: [&[u8]; 5] = [b"a/b", b"a/c", b"d", b"xy", PREDEFINED];

/// Filters with wildcards.
const WILD: [&[u8]; 4] = [b"a/+", b"#", b"+/b", b"a/#"];

/// The name `xy` in the place of a topic id.
const SHORT_NAME: u16 = 0x7879;

/// How long a client may be silent, in seconds.
const SILENCE: [u16; 4] = [0, 5, 60, 600];

/// The octets of a frame. None where it cannot be spelled.
pub(crate) fn octets_of(alloc: Global, frame: &Frame) -> Result<Octets, NoMemory> {
    let mut octets = Vec::new(alloc);
    match encode(alloc, frame, &mut octets) {
        Ok(()) => Octets::new(octets),
        Err(_) => Err(NoMemory),
    }
}

/// The name of the client of this number.
pub(crate) fn name_of(client: u8) -> [u8; 2] {
    [b'c', client]
}

/// One of the names.
fn name(draw: &mut Draw) -> &'static [u8] {
    match draw.one_of(&NAMES) {
        Some(name) => name,
        None => PREDEFINED,
    }
}

/// A name or a filter with wildcards.
fn filter(draw: &mut Draw) -> &'static [u8] {
    if draw.is_once_in(2) {
        return name(draw);
    }
    match draw.one_of(&WILD) {
        Some(filter) => filter,
        None => PREDEFINED,
    }
}

/// How long the client may be silent.
fn silence(draw: &mut Draw) -> u16 {
    match draw.one_of(&SILENCE) {
        Some(seconds) => *seconds,
        None => 0,
    }
}

/// A message id, of few.
fn msg_id(draw: &mut Draw) -> u16 {
    u16::from(draw.octet_below(5)) + 1
}

/// A message of up to three octets.
fn message(alloc: Global, draw: &mut Draw) -> Result<Octets, NoMemory> {
    let mut octets = Vec::new(alloc);
    for _ in 0..draw.octet_below(4) {
        octets.push(draw.octet_below(255))?;
    }
    Octets::new(octets)
}

/// The bits of a quality of service of 0 to 2.
fn service(draw: &mut Draw) -> u8 {
    draw.octet_below(3) * 32
}

/// The Retain bit, or none.
fn retain_bit(draw: &mut Draw) -> u8 {
    if draw.is_once_in(3) { 16 } else { 0 }
}

/// What a client sends of itself.
#[derive(Clone, Copy)]
pub(crate) enum Kind {
    /// CONNECT.
    Connect,
    /// PINGREQ.
    Ping,
    /// Any frame but CONNECT.
    Any,
}

/// A frame of this kind that a client sends of itself.
pub(crate) fn frame_of(
    alloc: Global,
    draw: &mut Draw,
    client: u8,
    kind: Kind,
) -> Result<Frame, NoMemory> {
    match kind {
        Kind::Connect => connect(alloc, draw, client),
        Kind::Ping => ping(alloc, draw, client),
        Kind::Any => any_frame(alloc, draw, client),
    }
}

/// A frame that a client sends once it has connected.
fn any_frame(alloc: Global, draw: &mut Draw, client: u8) -> Result<Frame, NoMemory> {
    match draw.octet_below(20) {
        0..=2 => register(alloc, draw),
        3..=6 => subscribe(alloc, draw),
        7 => unsubscribe(alloc, draw),
        8..=13 => publish(alloc, draw),
        14 => unconnected(alloc, draw),
        15 => will_update(alloc, draw),
        17 => ping(alloc, draw, client),
        other => Ok(plain_frame(draw, other)),
    }
}

/// A frame without octets of its own, by the number that was drawn.
fn plain_frame(draw: &mut Draw, drawn: u8) -> Frame {
    match drawn {
        16 => Frame::Disconnect { duration: None },
        18 => odd(draw),
        _ => Frame::Disconnect {
            duration: Some(silence(draw)),
        },
    }
}

/// CONNECT, clean or not, with a will or without.
fn connect(alloc: Global, draw: &mut Draw, client: u8) -> Result<Frame, NoMemory> {
    let clean = if draw.is_once_in(3) { 4 } else { 0 };
    let will = if draw.is_once_in(3) { 8 } else { 0 };
    Ok(Frame::Connect {
        flags: Flags { bits: clean | will },
        protocol: 1,
        duration: silence(draw),
        client: Octets::from_slice(alloc, &name_of(client))?,
    })
}

/// REGISTER of a name.
fn register(alloc: Global, draw: &mut Draw) -> Result<Frame, NoMemory> {
    Ok(Frame::Register {
        topic_id: 0,
        msg_id: msg_id(draw),
        name: Octets::from_slice(alloc, name(draw))?,
    })
}

/// The flags and the topic of a SUBSCRIBE or UNSUBSCRIBE: in full, by its predefined id, or a short
/// name.
fn topic_asked(alloc: Global, draw: &mut Draw) -> Result<(Flags, Octets), NoMemory> {
    let bits = service(draw);
    let (kind, topic) = match draw.octet_below(6) {
        0 => (1, id_octets(alloc)),
        1 => (2, Octets::from_slice(alloc, b"xy")),
        _ => (0, Octets::from_slice(alloc, filter(draw))),
    };
    Ok((Flags { bits: bits | kind }, topic?))
}

/// The predefined topic id as octets.
fn id_octets(alloc: Global) -> Result<Octets, NoMemory> {
    let mut octets = Vec::new(alloc);
    append_u16(&mut octets, PREDEFINED_ID)?;
    Octets::new(octets)
}

/// SUBSCRIBE.
fn subscribe(alloc: Global, draw: &mut Draw) -> Result<Frame, NoMemory> {
    let (flags, topic) = topic_asked(alloc, draw)?;
    Ok(Frame::Subscribe {
        flags,
        msg_id: msg_id(draw),
        topic,
    })
}

/// UNSUBSCRIBE.
fn unsubscribe(alloc: Global, draw: &mut Draw) -> Result<Frame, NoMemory> {
    let (flags, topic) = topic_asked(alloc, draw)?;
    Ok(Frame::Unsubscribe {
        flags,
        msg_id: msg_id(draw),
        topic,
    })
}

/// The bits of a topic field's type, and the field: an id of the session, the predefined id, or a
/// short name.
fn topic_field(draw: &mut Draw) -> (u8, u16) {
    match draw.octet_below(4) {
        0 => (1, PREDEFINED_ID),
        1 => (2, SHORT_NAME),
        _ => (0, u16::from(draw.octet_below(5)) + 1),
    }
}

/// PUBLISH at quality of service 0 to 2, with Retain or without.
fn publish(alloc: Global, draw: &mut Draw) -> Result<Frame, NoMemory> {
    let (kind, topic) = topic_field(draw);
    let bits = service(draw) | kind;
    let kept = retain_bit(draw);
    let again = if draw.is_once_in(8) { 128 } else { 0 };
    Ok(Frame::Publish {
        flags: Flags {
            bits: bits | kept | again,
        },
        topic,
        msg_id: msg_id(draw),
        body: message(alloc, draw)?,
    })
}

/// PUBLISH at quality of service -1, with Retain or without.
fn unconnected(alloc: Global, draw: &mut Draw) -> Result<Frame, NoMemory> {
    let (kind, topic) = topic_field(draw);
    let kept = retain_bit(draw);
    Ok(Frame::Publish {
        flags: Flags {
            bits: 96 | kind | kept,
        },
        topic,
        msg_id: 0,
        body: message(alloc, draw)?,
    })
}

/// A will's flags, with Retain or without, and its topic; or no will.
fn will(alloc: Global, draw: &mut Draw) -> Result<Option<Will>, NoMemory> {
    if draw.is_once_in(5) {
        return Ok(None);
    }
    let bits = service(draw);
    let kept = retain_bit(draw);
    Ok(Some(Will {
        flags: Flags { bits: bits | kept },
        topic: Octets::from_slice(alloc, name(draw))?,
    }))
}

/// An update of the will: of its topic, or of its message.
fn will_update(alloc: Global, draw: &mut Draw) -> Result<Frame, NoMemory> {
    if draw.is_once_in(2) {
        return Ok(Frame::WillTopicUpd {
            will: will(alloc, draw)?,
        });
    }
    Ok(Frame::WillMsgUpd {
        message: message(alloc, draw)?,
    })
}

/// PINGREQ with the client's id, or without one.
fn ping(alloc: Global, draw: &mut Draw, client: u8) -> Result<Frame, NoMemory> {
    if draw.is_once_in(4) {
        return Ok(Frame::PingReq {
            client: Octets::new(Vec::new(alloc))?,
        });
    }
    Ok(Frame::PingReq {
        client: Octets::from_slice(alloc, &name_of(client))?,
    })
}

/// A frame that answers nothing, or that no client sends.
fn odd(draw: &mut Draw) -> Frame {
    let msg_id = msg_id(draw);
    match draw.octet_below(6) {
        0 => Frame::PubRel { msg_id },
        1 => Frame::PubRec { msg_id },
        2 => Frame::PubComp { msg_id },
        3 => Frame::SearchGw { radius: 1 },
        4 => Frame::PubAck {
            topic_id: 1,
            msg_id,
            code: draw.octet_below(4),
        },
        _ => Frame::RegAck {
            topic_id: 1,
            msg_id,
            code: draw.octet_below(4),
        },
    }
}

/// What a client answers to a frame that it was sent, if it answers.
pub(crate) fn reply(
    alloc: Global,
    draw: &mut Draw,
    sent: &Frame,
) -> Result<Option<Frame>, NoMemory> {
    match sent {
        Frame::WillTopicReq => Ok(Some(Frame::WillTopic {
            will: will(alloc, draw)?,
        })),
        Frame::WillMsgReq => Ok(Some(Frame::WillMsg {
            message: message(alloc, draw)?,
        })),
        other => Ok(acknowledgement(draw, other)),
    }
}

/// What a client acknowledges a frame by, if it does.
fn acknowledgement(draw: &mut Draw, sent: &Frame) -> Option<Frame> {
    match sent {
        Frame::Register {
            topic_id,
            msg_id,
            ..
        } => Some(Frame::RegAck {
            topic_id: *topic_id,
            msg_id: *msg_id,
            code: code(draw),
        }),
        Frame::Publish {
            flags,
            topic,
            msg_id,
            ..
        } => received(draw, *flags, *topic, *msg_id),
        Frame::PubRec { msg_id } => Some(Frame::PubRel { msg_id: *msg_id }),
        Frame::PubRel { msg_id } => Some(Frame::PubComp { msg_id: *msg_id }),
        _ => None,
    }
}

/// A return code, accepted most times.
fn code(draw: &mut Draw) -> u8 {
    if draw.is_once_in(8) {
        draw.octet_below(4)
    } else {
        0
    }
}

/// What a client answers to a publication.
fn received(draw: &mut Draw, flags: Flags, topic: u16, msg_id: u16) -> Option<Frame> {
    match flags.qos() {
        Qos::One => Some(Frame::PubAck {
            topic_id: topic,
            msg_id,
            code: code(draw),
        }),
        Qos::Two => Some(Frame::PubRec { msg_id }),
        Qos::Zero | Qos::MinusOne => None,
    }
}
