//! What comes to a bridge.

use crate::item::Item;
use mq_packet::Packet;
use sn_frame::Frame;

/// What comes to a bridge, each at a moment in seconds.
#[derive(Drop)]
pub enum Event {
    /// A frame of the gateway of a lane.
    Field { lane: usize, frame: Frame },
    /// A frame of the gateway of the lane for commands.
    Commands { frame: Frame },
    /// A packet of the broker.
    Broker { packet: Packet },
    /// The broker took the connection.
    BrokerOpen,
    /// The connection to the broker ended, or something came that is no packet.
    BrokerLost,
    /// The line of this number is on the disk.
    Kept { line: u64 },
    /// Readings of smaller numbers than this one came before the bridge began.
    Resumed { number: u64 },
    /// A reading that came before the bridge began, and that the spool has kept. They are found in
    /// the order of their numbers.
    Found { item: Item },
    /// The spool takes readings. It has each one of a smaller number than this that it was given,
    /// and is synced.
    Stored { below: u64 },
    /// The spool cannot be written.
    StoreFailed,
    /// Time has gone by.
    Tick,
}
