//! A message, whatever form its Length had.

use crate::flags::Flags;
use octets::Octets;

/// The most octets of a frame: more cannot be said by Length (section 5.2.1).
pub const MAX_FRAME: usize = 65_535;

/// The topic and the flags of a will (MQTT-SN 1.2 section 5.4.7).
#[derive(Debug, PartialEq, Eq)]
pub struct Will {
    /// QoS and Retain of the will's publication.
    pub flags: Flags,
    /// The topic's name.
    pub topic: Octets,
}

impl Drop for Will {
    fn drop(self) {
        let Will { flags: _, topic } = self;
        drop(topic);
    }
}

/// A message (MQTT-SN 1.2 section 5.4). Durations are in seconds, and `code` is a return code: 0
/// accepted, 1 congestion, 2 invalid topic id, 3 not supported.
#[derive(Debug, PartialEq, Eq)]
pub enum Frame {
    /// A gateway says that it is there, and when it will say so again.
    Advertise {
        gateway: u8,
        duration: u16,
    },
    /// A client looks for a gateway.
    SearchGw {
        radius: u8,
    },
    /// An answer to it. A client that answers for a gateway gives the gateway's address.
    GwInfo {
        gateway: u8,
        address: Octets,
    },
    /// A client sets up a connection. Its id has 1 to 23 octets.
    Connect {
        flags: Flags,
        protocol: u8,
        duration: u16,
        client: Octets,
    },
    /// The answer to it.
    ConnAck {
        code: u8,
    },
    /// The gateway asks for the will's topic.
    WillTopicReq,
    /// The will's topic; nothing deletes the will.
    WillTopic {
        will: Option<Will>,
    },
    /// The gateway asks for the will's message.
    WillMsgReq,
    /// The will's message.
    WillMsg {
        message: Octets,
    },
    /// A topic id for a name. From a client the id means nothing.
    Register {
        topic_id: u16,
        msg_id: u16,
        name: Octets,
    },
    /// The answer to it.
    RegAck {
        topic_id: u16,
        msg_id: u16,
        code: u8,
    },
    /// A publication. `topic` is an id, or the two octets of a short name.
    Publish {
        flags: Flags,
        topic: u16,
        msg_id: u16,
        body: Octets,
    },
    /// A publication was taken or refused.
    PubAck {
        topic_id: u16,
        msg_id: u16,
        code: u8,
    },
    /// A publication at QoS 2 is complete.
    PubComp {
        msg_id: u16,
    },
    /// A publication at QoS 2 was received.
    PubRec {
        msg_id: u16,
    },
    /// A publication at QoS 2 is released.
    PubRel {
        msg_id: u16,
    },
    /// A client subscribes. `topic` is a filter, or two octets of a predefined id or a short name.
    Subscribe {
        flags: Flags,
        msg_id: u16,
        topic: Octets,
    },
    /// The answer to it.
    SubAck {
        flags: Flags,
        topic_id: u16,
        msg_id: u16,
        code: u8,
    },
    /// A client unsubscribes. `topic` is as in SUBSCRIBE.
    Unsubscribe {
        flags: Flags,
        msg_id: u16,
        topic: Octets,
    },
    /// The answer to it.
    UnsubAck {
        msg_id: u16,
    },
    /// A sign of life; with an id, of at most 23 octets, a sleeping client asks for its messages.
    PingReq {
        client: Octets,
    },
    /// The answer to it, and the end of what a sleeping client asked for.
    PingResp,
    /// The end of a connection; with a duration, a client falls asleep.
    Disconnect {
        duration: Option<u16>,
    },
    /// A new topic of the will; nothing deletes the will.
    WillTopicUpd {
        will: Option<Will>,
    },
    /// The answer to it.
    WillTopicResp {
        code: u8,
    },
    /// A new message of the will.
    WillMsgUpd {
        message: Octets,
    },
    /// The answer to it.
    WillMsgResp {
        code: u8,
    },
}

impl Drop for Frame {
    fn drop(self) {
        match self {
            Frame::Advertise {
                gateway: _,
                duration: _,
            } => {}
            Frame::SearchGw { radius: _ } => {}
            Frame::GwInfo {
                gateway: _,
                address,
            } => drop(address),
            Frame::Connect {
                flags: _,
                protocol: _,
                duration: _,
                client,
            } => drop(client),
            Frame::ConnAck { code: _ } => {}
            Frame::WillTopicReq => {}
            Frame::WillTopic { will } => drop(will),
            Frame::WillMsgReq => {}
            Frame::WillMsg { message } => drop(message),
            Frame::Register {
                topic_id: _,
                msg_id: _,
                name,
            } => drop(name),
            Frame::RegAck {
                topic_id: _,
                msg_id: _,
                code: _,
            } => {}
            Frame::Publish {
                flags: _,
                topic: _,
                msg_id: _,
                body,
            } => drop(body),
            Frame::PubAck {
                topic_id: _,
                msg_id: _,
                code: _,
            } => {}
            Frame::PubComp { msg_id: _ } => {}
            Frame::PubRec { msg_id: _ } => {}
            Frame::PubRel { msg_id: _ } => {}
            Frame::Subscribe {
                flags: _,
                msg_id: _,
                topic,
            } => drop(topic),
            Frame::SubAck {
                flags: _,
                topic_id: _,
                msg_id: _,
                code: _,
            } => {}
            Frame::Unsubscribe {
                flags: _,
                msg_id: _,
                topic,
            } => drop(topic),
            Frame::UnsubAck { msg_id: _ } => {}
            Frame::PingReq { client } => drop(client),
            Frame::PingResp => {}
            Frame::Disconnect { duration: _ } => {}
            Frame::WillTopicUpd { will } => drop(will),
            Frame::WillTopicResp { code: _ } => {}
            Frame::WillMsgUpd { message } => drop(message),
            Frame::WillMsgResp { code: _ } => {}
        }
    }
}
