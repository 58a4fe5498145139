//! What a bridge is asked to carry.

use mq_packet::{Login, Qos, Will};
use octets::{Octets, Sequence};

/// A name of the field that a lane subscribes to, and the broker's topic of its messages.
pub struct UpName {
    /// The field's topic. One of two octets is a short name, which takes no topic id.
    pub name: Octets,
    /// The broker's topic.
    pub topic: Octets,
    /// The greatest quality of service towards the broker.
    pub qos: Qos,
    /// Whether the broker is to keep the last message.
    pub retain: bool,
}

impl Drop for UpName {
    fn drop(self) {
        let UpName {
            name,
            topic,
            qos: _,
            retain: _,
        } = self;
        drop(name);
        drop(topic);
    }
}

/// A lane: a client of the field that takes readings.
pub struct LaneSettings {
    /// Its client id.
    pub client: Octets,
    /// The names that it subscribes to, at most 250 of them longer than two octets.
    pub names: Sequence<UpName>,
}

impl Drop for LaneSettings {
    fn drop(self) {
        let LaneSettings { client, names } = self;
        drop(client);
        drop(names);
    }
}

/// A filter of the broker whose messages are commands for the field.
pub struct DownFilter {
    /// What is subscribed to at the broker.
    pub filter: Octets,
    /// What is taken away in front; the rest is the field's topic.
    pub strip: Octets,
    /// Whether a message that the broker kept is handed on too.
    pub retained: bool,
}

impl Drop for DownFilter {
    fn drop(self) {
        let DownFilter {
            filter,
            strip,
            retained: _,
        } = self;
        drop(filter);
        drop(strip);
    }
}

/// What a bridge is asked to carry.
pub struct Settings {
    /// The lanes for readings.
    pub lanes: Sequence<LaneSettings>,
    /// The client id of the lane for commands.
    pub commands: Octets,
    /// The filters of commands.
    pub downs: Sequence<DownFilter>,
    /// The client id at the broker, which keeps the session under it.
    pub client: Octets,
    /// What the broker publishes when the connection breaks.
    pub will: Option<Will>,
    /// Who connects to the broker.
    pub login: Option<Login>,
    /// The broker's topic that tells whether the bridge is there.
    pub state: Octets,
    /// What is published there, and kept, as soon as the broker is there.
    pub here: Octets,
    /// How many publications to the broker may be unacknowledged, 1 to 64.
    pub window: usize,
    /// How many readings wait at most: no further one is taken from a lane.
    pub room: usize,
    /// Whether readings of quality of service 1 go into a spool.
    pub spools: bool,
}

impl Drop for Settings {
    fn drop(self) {
        let Settings {
            lanes,
            commands,
            downs,
            client,
            will,
            login,
            state,
            here,
            window: _,
            room: _,
            spools: _,
        } = self;
        drop(lanes);
        drop(commands);
        drop(downs);
        drop(client);
        drop(will);
        drop(login);
        drop(state);
        drop(here);
    }
}
