//! What can happen in a field, and what is answered.

use gw_node::{NodeFault, Out};
use octets::{Octets, Sequence};
use rep_model::ClientView;
use rep_ops::{ClientId, Retained};
use sn_local::Addr;
use sn_topic::TopicName;
use std::sync::Arc;

/// A call that comes to a gateway with others.
#[derive(PartialEq, Eq)]
pub enum Call {
    /// A datagram comes, at a moment in seconds.
    Frame { from: Addr, bytes: Octets, now: u64 },
    /// Time goes by: a moment in seconds.
    Tick { now: u64 },
    /// The gateway takes a delta of the list, which is numbered from 1.
    Take { delta: u64 },
}

impl Drop for Call {
    fn drop(self) {
        match self {
            Call::Frame {
                from: _,
                bytes,
                now: _,
            } => drop(bytes),
            Call::Tick { now: _ } => {}
            Call::Take { delta: _ } => {}
        }
    }
}

/// What can happen in a field. Gateways go by their numbers.
#[derive(Drop)]
pub enum Event {
    /// A datagram comes to a gateway, at a moment in seconds.
    Frame {
        gateway: u8,
        from: Addr,
        bytes: Octets,
        now: u64,
    },
    /// Time goes by at a gateway: a moment in seconds.
    Tick {
        gateway: u8,
        now: u64,
    },
    /// A gateway takes a delta of the list, which is numbered from 1.
    Take {
        gateway: u8,
        delta: u64,
    },
    /// Calls come to a gateway, one after the other, and what they make and take goes out in one
    /// write. A delta that one of them takes stands in the list before the first.
    Together {
        gateway: u8,
        calls: Sequence<Call>,
    },
    /// A gateway's digest goes to a peer, and what the peer answers joins the list.
    Answer {
        gateway: u8,
        peer: u8,
    },
    /// The next append to a gateway's journal goes wrong: it stops after so many bytes, or after
    /// all where there are fewer; or, where `sync` is true, all goes out and the sync after it
    /// fails. A failure that was arranged before is forgotten.
    WriteFails {
        gateway: u8,
        bytes: u64,
        sync: bool,
    },
    /// A gateway writes its journal anew: what it must keep takes the place of all records.
    Compact {
        gateway: u8,
    },
    /// A gateway stops and is opened again. Of each slot of its disk the synced bytes are left, and
    /// of the others the first `keep`, or all where there are fewer.
    Restart {
        gateway: u8,
        keep: u64,
    },
    /// What a gateway knows is shown.
    Show {
        gateway: u8,
    },
}

impl Event {
    ghost use Rattle.std.specs.Prelude.{◌≡◌};
    ghost use Rattle.gw_world.specs.Field.{gateway_of_event, peer_of};

    /// The number of the gateway that the event is at.
    pub fn gateway(&self) -> u8
        ensures { result ≡ gateway_of_event self.now }
    {
        match self {
            Event::Frame { gateway, .. } => *gateway,
            Event::Tick { gateway, .. } => *gateway,
            Event::Take { gateway, .. } => *gateway,
            Event::Together { gateway, .. } => *gateway,
            Event::Answer { gateway, .. } => *gateway,
            Event::WriteFails { gateway, .. } => *gateway,
            Event::Compact { gateway } => *gateway,
            Event::Restart { gateway, .. } => *gateway,
            Event::Show { gateway } => *gateway,
        }
    }

    /// The number of the other gateway that the event names, if it names one.
    pub fn peer(&self) -> Option<u8>
        ensures { result ≡ peer_of self.now }
    {
        match self {
            Event::Answer { peer, .. } => Some(*peer),
            Event::Frame { .. } | Event::Tick { .. } | Event::Take { .. } => None,
            Event::Together { .. } => None,
            Event::WriteFails { .. } | Event::Compact { .. } => None,
            Event::Restart { .. } | Event::Show { .. } => None,
        }
    }
}

/// The answer to an event.
pub enum Answer {
    /// A gateway's answer to a frame, a tick, a delta or a compaction; a peer's answer to a digest,
    /// or why there is no digest.
    Node(Result<Arc<Out>, NodeFault>),
    /// A gateway's answer to each of the calls that came together, in their order.
    Row(Sequence<Result<Arc<Out>, NodeFault>>),
    /// The clients that a gateway knows, in ascending order, with their views; and the topics of
    /// which something was ever retained, in ascending order, with what is.
    Views(Sequence<(ClientId, ClientView)>, Sequence<(TopicName, Retained)>),
    /// How many records a gateway read when it was opened again.
    Records(u64),
    /// Nothing was to be said: a failure was arranged.
    Nothing,
}

impl Drop for Answer {
    fn drop(self) {
        match self {
            Answer::Node(inner) => drop(inner),
            Answer::Row(inner) => drop(inner),
            Answer::Views(a, b) => {
                drop(a);
                drop(b);
            }
            Answer::Records(_) => {}
            Answer::Nothing => {}
        }
    }
}
