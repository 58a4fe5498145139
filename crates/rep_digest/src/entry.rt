//! What a digest says of a client, of one origin's messages for it, and of a topic.

ghost use Rattle.std.specs.Prelude.{◌≡◌};

use octets::Sequence;
use rep_ops::{ClientId, Stamp};
use sn_topic::TopicName;

/// What a digest says of one origin's messages for a client. Ranges of sequence numbers are in
/// ascending order, and neither overlap nor touch.
pub struct OriginEntry {
    /// The gateway that made the messages.
    pub origin: u8,
    /// The messages that are acknowledged: ranges, first and last.
    pub acknowledged: Sequence<(u64, u64)>,
    /// The messages that wait: ranges, first and last.
    pub waiting: Sequence<(u64, u64)>,
}

impl Drop for OriginEntry {
    fn drop(self) {
        let OriginEntry {
            origin: _,
            acknowledged,
            waiting,
        } = self;
        drop(acknowledged);
        drop(waiting);
    }
}

impl OriginEntry {
    ghost use Rattle.rep_digest.specs.Digests as spec;

    /// Whether anything is said of the origin.
    pub fn has_ranges(&self) -> bool
        ensures { result ≡ spec.has_ranges self.now }
    {
        self.acknowledged.len() > 0 || self.waiting.len() > 0
    }
}

/// What a digest says of a client.
pub struct ClientEntry {
    /// Whose entry it is.
    pub client: ClientId,
    /// The visible stamp.
    pub stamp: Option<Stamp>,
    /// How many operations of that stamp are there from 0 on without a gap; at most 256.
    pub prefix: u16,
    /// The origins of messages that wait or are acknowledged, ascending.
    pub origins: Sequence<OriginEntry>,
}

impl Drop for ClientEntry {
    fn drop(self) {
        let ClientEntry {
            client,
            stamp: _,
            prefix: _,
            origins,
        } = self;
        drop(client);
        drop(origins);
    }
}

/// What a digest says of a topic: what was retained of it last.
pub struct RetainedEntry {
    /// The topic.
    pub topic: TopicName,
    /// The clock under which it was retained.
    pub clock: u64,
    /// The gateway that retained it.
    pub gateway: u8,
}

impl Drop for RetainedEntry {
    fn drop(self) {
        let RetainedEntry {
            topic,
            clock: _,
            gateway: _,
        } = self;
        drop(topic);
    }
}
