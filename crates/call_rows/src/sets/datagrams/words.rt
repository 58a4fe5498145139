//! Frames in the words of MQTT-SN 1.2 section 5.

mod bits;

use crate::sets::datagrams::shown::{print_digits, print_text};
use crate::sets::datagrams::words::bits::{
    print_code, print_flags, print_octets_topic, print_topic,
};
use crate::sets::page::Page;
use sn_frame::{Flags, Frame, Will};
use std::fmt::Display;

/// The name of a frame's message (section 5.2.2).
pub(crate) fn message_name(frame: &Frame) -> &'static str {
    match frame {
        Frame::Advertise { .. } => "ADVERTISE",
        Frame::SearchGw { .. } => "SEARCHGW",
        Frame::GwInfo { .. } => "GWINFO",
        Frame::Connect { .. } => "CONNECT",
        Frame::ConnAck { .. } => "CONNACK",
        Frame::WillTopicReq => "WILLTOPICREQ",
        Frame::WillTopic { .. } => "WILLTOPIC",
        Frame::WillMsgReq => "WILLMSGREQ",
        Frame::WillMsg { .. } => "WILLMSG",
        Frame::Register { .. } => "REGISTER",
        Frame::RegAck { .. } => "REGACK",
        Frame::Publish { .. } => "PUBLISH",
        Frame::PubAck { .. } => "PUBACK",
        Frame::PubComp { .. } => "PUBCOMP",
        Frame::PubRec { .. } => "PUBREC",
        Frame::PubRel { .. } => "PUBREL",
        Frame::Subscribe { .. } => "SUBSCRIBE",
        Frame::SubAck { .. } => "SUBACK",
        Frame::Unsubscribe { .. } => "UNSUBSCRIBE",
        Frame::UnsubAck { .. } => "UNSUBACK",
        Frame::PingReq { .. } => "PINGREQ",
        Frame::PingResp => "PINGRESP",
        Frame::Disconnect { .. } => "DISCONNECT",
        Frame::WillTopicUpd { .. } => "WILLTOPICUPD",
        Frame::WillTopicResp { .. } => "WILLTOPICRESP",
        Frame::WillMsgUpd { .. } => "WILLMSGUPD",
        Frame::WillMsgResp { .. } => "WILLMSGRESP",
    }
}

/// Prints a frame with all its fields.
pub(crate) fn print_told(page: &mut Page, frame: &Frame) {
    page.text(message_name(frame));
    print_gateway(page, frame);
    page.end();
}

/// Prints the name of a field and its value.
fn field<D: Display + Drop>(page: &mut Page, name: &str, value: D) {
    page.text(name);
    page.value(value);
}

/// Prints the name of a field and its octets.
fn text_field(page: &mut Page, name: &str, octets: &[u8]) {
    page.text(name);
    print_text(page, octets);
}

/// The fields of messages by which a gateway is found.
fn print_gateway(page: &mut Page, frame: &Frame) {
    match frame {
        Frame::Advertise { gateway, duration } => print_advertise(page, *gateway, *duration),
        Frame::SearchGw { radius } => field(page, " Radius ", *radius),
        Frame::GwInfo { gateway, address } => print_info(page, *gateway, address.as_slice()),
        other => print_client(page, other),
    }
}

/// The fields of ADVERTISE (section 5.4.1).
fn print_advertise(page: &mut Page, gateway: u8, duration: u16) {
    field(page, " GwId ", gateway);
    field(page, ", Duration ", duration);
    page.text(" s");
}

/// The fields of GWINFO (section 5.4.3).
fn print_info(page: &mut Page, gateway: u8, address: &[u8]) {
    field(page, " GwId ", gateway);
    page.text(", GwAdd ");
    print_digits(page, address);
}

/// The fields of messages by which a client comes, waits and goes.
fn print_client(page: &mut Page, frame: &Frame) {
    match frame {
        Frame::Connect {
            flags,
            protocol,
            duration,
            client,
        } => print_connect(page, *flags, *protocol, *duration, client.as_slice()),
        Frame::PingReq { client } => text_field(page, " ClientId ", client.as_slice()),
        Frame::Disconnect { duration } => print_sleep(page, *duration),
        other => print_will_message(page, other),
    }
}

/// The fields of CONNECT (section 5.4.4).
fn print_connect(page: &mut Page, flags: Flags, protocol: u8, duration: u16, client: &[u8]) {
    print_flags(page, flags);
    field(page, ", ProtocolId ", protocol);
    field(page, ", Duration ", duration);
    text_field(page, " s, ClientId ", client);
}

/// How long a client sleeps (section 5.4.21), where that is said.
fn print_sleep(page: &mut Page, duration: Option<u16>) {
    match duration {
        None => page.text(" without Duration"),
        Some(duration) => {
            field(page, " Duration ", duration);
            page.text(" s");
        }
    }
}

/// The fields of messages of wills, and of answers that are a return code.
fn print_will_message(page: &mut Page, frame: &Frame) {
    match frame {
        Frame::WillTopic { will } | Frame::WillTopicUpd { will } => print_will(page, will),
        Frame::WillMsg { message } | Frame::WillMsgUpd { message } => {
            text_field(page, " WillMsg ", message.as_slice());
        }
        Frame::ConnAck { code } | Frame::WillTopicResp { code } | Frame::WillMsgResp { code } => {
            page.text(" ");
            print_code(page, *code);
        }
        other => print_topic_id(page, other),
    }
}

/// The fields of a will's topic (section 5.4.7), where there are any.
fn print_will(page: &mut Page, will: &Option<Will>) {
    match will {
        None => page.text(" without Flags and WillTopic"),
        Some(will) => {
            print_flags(page, will.flags);
            text_field(page, ", WillTopic ", will.topic.as_slice());
        }
    }
}

/// The fields of messages of topic ids, and of answers with one.
fn print_topic_id(page: &mut Page, frame: &Frame) {
    match frame {
        Frame::Register {
            topic_id,
            msg_id,
            name,
        } => {
            print_ids(page, " TopicId ", *topic_id, *msg_id);
            text_field(page, ", TopicName ", name.as_slice());
        }
        Frame::RegAck {
            topic_id,
            msg_id,
            code,
        }
        | Frame::PubAck {
            topic_id,
            msg_id,
            code,
        } => {
            print_ids(page, " TopicId ", *topic_id, *msg_id);
            page.text(", ");
            print_code(page, *code);
        }
        other => print_subscription(page, other),
    }
}

/// A topic id and a message id.
fn print_ids(page: &mut Page, name: &str, topic_id: u16, msg_id: u16) {
    field(page, name, topic_id);
    field(page, ", MsgId ", msg_id);
}

/// The fields of messages of subscriptions.
fn print_subscription(page: &mut Page, frame: &Frame) {
    match frame {
        Frame::Subscribe {
            flags,
            msg_id,
            topic,
        }
        | Frame::Unsubscribe {
            flags,
            msg_id,
            topic,
        } => print_asked(page, *flags, *msg_id, topic.as_slice()),
        Frame::SubAck {
            flags,
            topic_id,
            msg_id,
            code,
        } => {
            print_flags(page, *flags);
            print_ids(page, ", TopicId ", *topic_id, *msg_id);
            page.text(", ");
            print_code(page, *code);
        }
        other => print_publication(page, other),
    }
}

/// The fields of SUBSCRIBE and UNSUBSCRIBE (sections 5.4.15 and 5.4.17).
fn print_asked(page: &mut Page, flags: Flags, msg_id: u16, topic: &[u8]) {
    print_flags(page, flags);
    field(page, ", MsgId ", msg_id);
    page.text(", ");
    print_octets_topic(page, flags.kind(), topic);
}

/// The fields of messages of publications.
fn print_publication(page: &mut Page, frame: &Frame) {
    match frame {
        Frame::Publish {
            flags,
            topic,
            msg_id,
            body,
        } => print_publish(page, *flags, *topic, *msg_id, body.as_slice()),
        Frame::PubComp { msg_id }
        | Frame::PubRec { msg_id }
        | Frame::PubRel { msg_id }
        | Frame::UnsubAck { msg_id } => field(page, " MsgId ", *msg_id),
        _ => {}
    }
}

/// The fields of PUBLISH (section 5.4.12).
fn print_publish(page: &mut Page, flags: Flags, topic: u16, msg_id: u16, body: &[u8]) {
    print_flags(page, flags);
    page.text(", ");
    print_topic(page, flags.kind(), topic);
    field(page, ", MsgId ", msg_id);
    text_field(page, ", Data ", body);
}
