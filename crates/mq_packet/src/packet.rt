//! A packet, whatever octets its Remaining Length had.

use octets::Octets;

/// The most octets of a body: more cannot be said by Remaining Length (MQTT 3.1.1 section 2.2.3).
pub const MAX_REMAINING: usize = 268_435_455;

/// The most octets of a string, or of a will's message or a password (MQTT 3.1.1 section 1.5.3).
pub const MAX_DATA: usize = 65_535;

/// How often a publication is to arrive (MQTT 3.1.1 section 4.3).
#[derive(Clone, Copy, PartialEq, Eq)]
pub enum Qos {
    /// At most once.
    Zero,
    /// At least once.
    One,
}

/// How a publication is sent (MQTT 3.1.1 section 3.3.1).
#[derive(Clone, Copy)]
pub enum Delivery {
    /// At quality of service 0.
    Once,
    /// At quality of service 1: PUBACK answers with the packet id, which is not 0. DUP says that it
    /// was sent before.
    Acknowledged { id: u16, dup: bool },
}

/// What the broker is to publish if the connection breaks (MQTT 3.1.1 section 3.1.2.5).
pub struct Will {
    /// The topic's name.
    pub topic: Octets,
    /// The body of the publication, of at most 65,535 octets.
    pub message: Octets,
    /// How often it is to arrive.
    pub qos: Qos,
    /// Whether the broker is to keep it for later subscribers.
    pub retain: bool,
}

impl Drop for Will {
    fn drop(self) {
        let Will {
            topic,
            message,
            qos: _,
            retain: _,
        } = self;
        drop(topic);
        drop(message);
    }
}

/// Who connects (MQTT 3.1.1 sections 3.1.3.4 and 3.1.3.5).
pub struct Login {
    /// The name of the user, which is text.
    pub user: Octets,
    /// The password, any octets, at most 65,535.
    pub password: Option<Octets>,
}

impl Drop for Login {
    fn drop(self) {
        let Login { user, password } = self;
        drop(user);
        drop(password);
    }
}

/// A packet (MQTT 3.1.1 section 3). A packet id is not 0.
pub enum Packet {
    /// A client sets up a connection (section 3.1). `keep_alive` is in seconds, and the client's id
    /// is text.
    Connect {
        clean: bool,
        keep_alive: u16,
        client: Octets,
        will: Option<Will>,
        login: Option<Login>,
    },
    /// The answer to it (section 3.2): whether the broker has a session of the client, and the
    /// return code, 0 to 5. With another code than 0 it has none.
    ConnAck {
        session: bool,
        code: u8,
    },
    /// A publication (section 3.3).
    Publish {
        delivery: Delivery,
        retain: bool,
        topic: Octets,
        body: Octets,
    },
    /// A publication was taken (section 3.4).
    PubAck {
        id: u16,
    },
    /// A client subscribes to one filter (section 3.8).
    Subscribe {
        id: u16,
        filter: Octets,
        qos: Qos,
    },
    /// The answer to it (section 3.9): the quality of service that is granted, or nothing.
    SubAck {
        id: u16,
        granted: Option<Qos>,
    },
    /// A client ends one subscription (section 3.10).
    Unsubscribe {
        id: u16,
        filter: Octets,
    },
    /// The answer to it (section 3.11).
    UnsubAck {
        id: u16,
    },
    /// A sign of life (section 3.12).
    PingReq,
    /// The answer to it (section 3.13).
    PingResp,
    /// The end of a connection (section 3.14).
    Disconnect,
}

impl Drop for Packet {
    fn drop(self) {
        match self {
            Packet::Connect {
                clean: _,
                keep_alive: _,
                client,
                will,
                login,
            } => {
                drop(client);
                drop(will);
                drop(login);
            }
            Packet::ConnAck {
                session: _,
                code: _,
            } => {}
            Packet::Publish {
                delivery: _,
                retain: _,
                topic,
                body,
            } => {
                drop(topic);
                drop(body);
            }
            Packet::PubAck { id: _ } => {}
            Packet::Subscribe {
                id: _,
                filter,
                qos: _,
            } => drop(filter),
            Packet::SubAck { id: _, granted: _ } => {}
            Packet::Unsubscribe { id: _, filter } => drop(filter),
            Packet::UnsubAck { id: _ } => {}
            Packet::PingReq => {}
            Packet::PingResp => {}
            Packet::Disconnect => {}
        }
    }
}
