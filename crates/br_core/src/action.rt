//! What a bridge has done.

use crate::item::{Command, Item};
use mq_packet::Packet;
use sn_frame::Frame;

/// Why no side will have a command.
#[derive(Clone, Copy)]
pub enum Why {
    /// The field has no such topic: it is empty, too long or has a wildcard.
    Topic,
    /// The message is longer than the field carries.
    Body,
    /// The gateway does not take it.
    Gateway,
}

/// What is to be done, in the order of the list.
pub enum Action {
    /// A frame to the gateway of a lane.
    ToField {
        lane: usize,
        frame: Frame,
    },
    /// A frame to the gateway of the lane for commands.
    ToCommands {
        frame: Frame,
    },
    /// A packet to the broker.
    ToBroker {
        packet: Packet,
    },
    /// A packet to the broker with the reading of this number, which goes out for the first time.
    Reading {
        number: u64,
        packet: Packet,
    },
    /// A line of what no side will have, synced; then `Kept` with its number.
    Refuse {
        line: u64,
        command: Command,
        why: Why,
    },
    /// The reading goes into the spool, which is synced; then `Stored` with a greater number.
    Store {
        item: Item,
    },
    /// The spool need not keep the reading of this number: the broker has it.
    Forget {
        number: u64,
    },
    /// The next address of the gateways, for a lane.
    NextGateway {
        lane: usize,
    },
    /// The next address, for the lane for commands.
    NextCommands,
    /// Dial the broker.
    Dial,
    /// End the connection to the broker.
    HangUp,
}

impl Drop for Action {
    fn drop(self) {
        match self {
            Action::ToField { lane: _, frame } => drop(frame),
            Action::ToCommands { frame } => drop(frame),
            Action::ToBroker { packet } => drop(packet),
            Action::Reading { number: _, packet } => drop(packet),
            Action::Refuse {
                line: _,
                command,
                why: _,
            } => drop(command),
            Action::Store { item } => drop(item),
            Action::Forget { number: _ } => {}
            Action::NextGateway { lane: _ } => {}
            Action::NextCommands => {}
            Action::Dial => {}
            Action::HangUp => {}
        }
    }
}
