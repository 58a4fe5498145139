//! Frames in words.

use octets::read_u16;
use sn_frame::{Flags, Frame, Qos, TopicIdType};
use std::fmt;
use std::str::from_utf8;

/// A frame, to be told.
#[derive(Clone, Copy)]
pub(crate) struct Told<'a>(pub &'a Frame);

/// Octets in hexadecimal digits.
#[derive(Clone, Copy)]
pub(crate) struct Hex<'a>(pub &'a [u8]);

/// Octets as a text between quotation marks, or else in hexadecimal digits.
#[derive(Clone, Copy)]
struct Text<'a>(&'a [u8]);

/// A return code (MQTT-SN 1.2 section 5.3.10).
#[derive(Clone, Copy)]
struct Code(u8);

/// Flags of a publication, subscription or will.
#[derive(Clone, Copy)]
struct Level(Flags);

/// What the topic field of a SUBSCRIBE or an UNSUBSCRIBE has.
#[derive(Clone, Copy)]
struct Wanted<'a>(TopicIdType, &'a [u8]);

/// What the topic field of a PUBLISH has.
#[derive(Clone, Copy)]
struct TopicField(TopicIdType, u16);

impl fmt::Display for Hex<'_> {
    fn fmt<W: fmt::Write>(&self, f: &mut fmt::Formatter<W>) -> fmt::Result {
        for octet in self.0 {
            write!(f, "{octet:02x}")?;
        }
        Ok(())
    }
}

impl fmt::Display for Text<'_> {
    fn fmt<W: fmt::Write>(&self, f: &mut fmt::Formatter<W>) -> fmt::Result {
        let octets = self.0;
        match from_utf8(octets) {
            Ok(text) => write!(f, "{text:?}"),
            Err(_) => {
                let digits = Hex(octets);
                write!(f, "octets {digits}")
            }
        }
    }
}

impl fmt::Display for Code {
    fn fmt<W: fmt::Write>(&self, f: &mut fmt::Formatter<W>) -> fmt::Result {
        let code = self.0;
        match code_words(code) {
            Some(words) => f.write_str(words),
            None => write!(f, "refused, return code {code}"),
        }
    }
}

/// What a return code says, if it is a known one.
fn code_words(code: u8) -> Option<&'static str> {
    match code {
        0 => Some("accepted"),
        1 => Some("refused, congestion"),
        2 => Some("refused, invalid topic id"),
        3 => Some("refused, not supported"),
        _ => None,
    }
}

impl fmt::Display for Level {
    fn fmt<W: fmt::Write>(&self, f: &mut fmt::Formatter<W>) -> fmt::Result {
        let level = level_words(self.0.qos());
        let marks = mark_words(self.0.retain(), self.0.dup());
        write!(f, "{level}{marks}")
    }
}

/// A quality of service.
fn level_words(qos: Qos) -> &'static str {
    match qos {
        Qos::Zero => "QoS 0",
        Qos::One => "QoS 1",
        Qos::Two => "QoS 2",
        Qos::MinusOne => "QoS -1",
    }
}

/// Whether it is kept, and whether it was sent before.
fn mark_words(retain: bool, again: bool) -> &'static str {
    match (retain, again) {
        (false, false) => "",
        (true, false) => ", retain",
        (false, true) => ", sent before",
        (true, true) => ", retain, sent before",
    }
}

impl fmt::Display for TopicField {
    fn fmt<W: fmt::Write>(&self, f: &mut fmt::Formatter<W>) -> fmt::Result {
        let (words, number) = (type_words(self.0), self.1);
        if self.0 == TopicIdType::Short {
            let octets = number.to_be_bytes();
            let name = Text(octets.as_slice());
            write!(f, "{words} {name}")
        } else {
            write!(f, "{words} {number}")
        }
    }
}

/// What the topic field of a PUBLISH has, in front of its number or name.
fn type_words(kind: TopicIdType) -> &'static str {
    match kind {
        TopicIdType::Normal => "topic id",
        TopicIdType::Predefined => "predefined topic id",
        TopicIdType::Short => "topic",
        TopicIdType::Reserved => "a topic of no type,",
    }
}

impl fmt::Display for Wanted<'_> {
    fn fmt<W: fmt::Write>(&self, f: &mut fmt::Formatter<W>) -> fmt::Result {
        match (self.0, read_u16(self.1)) {
            (TopicIdType::Predefined, Some((id, []))) => write!(f, "predefined topic id {id}"),
            _ => {
                let name = Text(self.1);
                write!(f, "{name}")
            }
        }
    }
}

impl fmt::Display for Told<'_> {
    fn fmt<W: fmt::Write>(&self, f: &mut fmt::Formatter<W>) -> fmt::Result {
        match self.0 {
            Frame::Publish {
                flags,
                topic,
                msg_id,
                body,
            } => publication(f, *flags, *topic, *msg_id, body.as_slice()),
            Frame::PubAck {
                topic_id,
                msg_id,
                code,
            } => answer(f, ("PUBACK", *code), ("topic", *topic_id), *msg_id),
            other => handshake(f, other),
        }
    }
}

/// Frames by which a publication at QoS 2 goes on.
fn handshake<W: fmt::Write>(f: &mut fmt::Formatter<W>, frame: &Frame) -> fmt::Result {
    match frame {
        Frame::PubRec { msg_id } => numbered(f, "PUBREC: received", *msg_id),
        Frame::PubRel { msg_id } => numbered(f, "PUBREL: released", *msg_id),
        Frame::PubComp { msg_id } => numbered(f, "PUBCOMP: complete", *msg_id),
        other => connection(f, other),
    }
}

/// Words and a message id.
fn numbered<W: fmt::Write>(f: &mut fmt::Formatter<W>, words: &str, msg_id: u16) -> fmt::Result {
    write!(f, "{words}, message id {msg_id}")
}

/// A frame that answers with a return code, about a topic.
fn answer<W: fmt::Write>(
    f: &mut fmt::Formatter<W>,
    (name, code): (&str, u8),
    (topic, number): (&str, u16),
    msg_id: u16,
) -> fmt::Result {
    let code = Code(code);
    write!(f, "{name}: {code}, {topic} {number}, message id {msg_id}")
}

/// A PUBLISH.
fn publication<W: fmt::Write>(
    f: &mut fmt::Formatter<W>,
    flags: Flags,
    topic: u16,
    msg_id: u16,
    body: &[u8],
) -> fmt::Result {
    let (field, text, level) = (TopicField(flags.kind(), topic), Text(body), Level(flags));
    write!(f, "PUBLISH {text} on {field}, {level}, message id {msg_id}")
}

/// Frames by which a gateway is found, and a connection begins.
fn connection<W: fmt::Write>(f: &mut fmt::Formatter<W>, frame: &Frame) -> fmt::Result {
    match frame {
        Frame::SearchGw { .. } => f.write_str("SEARCHGW"),
        Frame::GwInfo { gateway, .. } => write!(f, "GWINFO: gateway {gateway}"),
        Frame::Connect {
            flags,
            duration,
            client,
            ..
        } => connect(f, *flags, *duration, client.as_slice()),
        Frame::ConnAck { code } => {
            let code = Code(*code);
            write!(f, "CONNACK: {code}")
        }
        other => presence(f, other),
    }
}

/// A CONNECT.
fn connect<W: fmt::Write>(
    f: &mut fmt::Formatter<W>,
    flags: Flags,
    duration: u16,
    client: &[u8],
) -> fmt::Result {
    let name = Text(client);
    let session = if flags.clean() { "clean" } else { "kept" };
    let will = if flags.will() { ", with a will" } else { "" };
    write!(
        f,
        "CONNECT as {name}, session {session}, keep alive {duration} s{will}"
    )
}

/// Frames by which a connection goes on and ends.
fn presence<W: fmt::Write>(f: &mut fmt::Formatter<W>, frame: &Frame) -> fmt::Result {
    match frame {
        Frame::PingReq { client } if client.is_empty() => f.write_str("PINGREQ"),
        Frame::PingReq { client } => {
            let name = Text(client.as_slice());
            write!(f, "PINGREQ as {name}")
        }
        Frame::PingResp => f.write_str("PINGRESP: nothing else waits"),
        Frame::Disconnect { duration: None } => f.write_str("DISCONNECT"),
        Frame::Disconnect {
            duration: Some(duration),
        } => { write!(f, "DISCONNECT, asleep for {duration} s") }
        other => topics(f, other),
    }
}

/// Frames about the ids of topics, and about subscriptions.
fn topics<W: fmt::Write>(f: &mut fmt::Formatter<W>, frame: &Frame) -> fmt::Result {
    match frame {
        Frame::Register {
            topic_id,
            msg_id,
            name,
        } => {
            let name = Text(name.as_slice());
            write!(
                f,
                "REGISTER {name}, topic id {topic_id}, message id {msg_id}"
            )
        }
        Frame::RegAck {
            topic_id,
            msg_id,
            code,
        } => answer(f, ("REGACK", *code), ("topic id", *topic_id), *msg_id),
        Frame::UnsubAck { msg_id } => numbered(f, "UNSUBACK", *msg_id),
        other => subscriptions(f, other),
    }
}

/// Frames about subscriptions.
fn subscriptions<W: fmt::Write>(f: &mut fmt::Formatter<W>, frame: &Frame) -> fmt::Result {
    match frame {
        Frame::Subscribe {
            flags,
            msg_id,
            topic,
        } => subscription(f, *flags, *msg_id, topic.as_slice()),
        Frame::SubAck {
            flags,
            topic_id,
            msg_id,
            code,
        } => granted(f, *flags, (*topic_id, *msg_id), *code),
        Frame::Unsubscribe {
            flags,
            msg_id,
            topic,
        } => {
            let topic = Wanted(flags.kind(), topic.as_slice());
            write!(f, "UNSUBSCRIBE from {topic}, message id {msg_id}")
        }
        other => wills(f, other),
    }
}

/// A SUBSCRIBE.
fn subscription<W: fmt::Write>(
    f: &mut fmt::Formatter<W>,
    flags: Flags,
    msg_id: u16,
    topic: &[u8],
) -> fmt::Result {
    let (topic, level) = (Wanted(flags.kind(), topic), Level(flags));
    write!(f, "SUBSCRIBE to {topic}, {level}, message id {msg_id}")
}

/// A SUBACK.
fn granted<W: fmt::Write>(
    f: &mut fmt::Formatter<W>,
    flags: Flags,
    (topic_id, msg_id): (u16, u16),
    code: u8,
) -> fmt::Result {
    let (code, level) = (Code(code), Level(flags));
    write!(
        f,
        "SUBACK: {code}, {level}, topic id {topic_id}, message id {msg_id}"
    )
}

/// Frames about wills.
fn wills<W: fmt::Write>(f: &mut fmt::Formatter<W>, frame: &Frame) -> fmt::Result {
    match frame {
        Frame::WillTopicReq => f.write_str("WILLTOPICREQ: where is the will published?"),
        Frame::WillTopic { will: Some(will) } => {
            let topic = Text(will.topic.as_slice());
            let level = Level(will.flags);
            write!(f, "WILLTOPIC {topic}, {level}")
        }
        Frame::WillMsgReq => f.write_str("WILLMSGREQ: what does it say?"),
        Frame::WillMsg { message } => {
            let message = Text(message.as_slice());
            write!(f, "WILLMSG {message}")
        }
        _ => f.write_str("another frame"),
    }
}
