//! What can be told of a client at a glance.

use rep_op::{ClientId, Stamp};
use sn_local::Addr;
use sn_session::{Phase, Presence};

/// A client's session at a glance.
#[derive(Clone, Copy)]
pub struct SessionGlimpse {
    /// Where the client is (MQTT-SN 1.2 section 6.14).
    pub presence: Presence,
    /// Whether the session began clean.
    pub clean: bool,
    /// The keep-alive, or for how long the client sleeps, in seconds.
    pub duration: u16,
    /// How many topic ids it has.
    pub topics: usize,
    /// How many subscriptions.
    pub subscriptions: usize,
    /// How many message ids that were received at quality of service 2 and are not released.
    pub received: usize,
    /// The exchange that has begun, if one has.
    pub exchange: Option<Phase>,
}

/// What a gateway alone knows of a client that it owns.
#[derive(Clone, Copy)]
pub struct LocalGlimpse {
    /// Where the client is reached.
    pub address: Addr,
    /// The moment at which it was last heard of.
    pub heard: u64,
    /// How often the last frame was sent again.
    pub tries: u8,
}

/// The name of a message that waits.
#[derive(Clone, Copy)]
pub struct First {
    /// Its number.
    pub seq: u64,
    /// The gateway that put it.
    pub origin: u8,
}

/// A client at a glance.
pub struct Glimpse {
    /// Its id.
    pub client: ClientId,
    /// The stamp of its session, if it has one.
    pub stamp: Option<Stamp>,
    /// How many operations of that stamp are there from 0 on without a gap.
    pub prefix: u16,
    /// Its session, if it has one.
    pub session: Option<SessionGlimpse>,
    /// How many messages wait for it.
    pub waiting: usize,
    /// The first message that waits.
    pub first: Option<First>,
    /// What this gateway alone knows of it; nothing of a client of another gateway.
    pub local: Option<LocalGlimpse>,
}

impl Drop for Glimpse {
    fn drop(self) {
        let Glimpse {
            client,
            stamp: _,
            prefix: _,
            session: _,
            waiting: _,
            first,
            local: _,
        } = self;
        drop(client);
        drop(first);
    }
}

/// A glimpse, and what earlier ones add to it.
pub struct Seen {
    /// The glimpse.
    pub glimpse: Glimpse,
    /// Seconds since the client was heard of.
    pub silence: Option<u64>,
    /// Seconds for which the first message has been the same.
    pub since: Option<u64>,
}

impl Drop for Seen {
    fn drop(self) {
        let Seen {
            glimpse,
            silence: _,
            since: _,
        } = self;
        drop(glimpse);
    }
}
