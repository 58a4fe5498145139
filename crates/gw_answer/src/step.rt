//! A call as a value.

use octets::Octets;
use rep_digest::Digest;
use rep_ops::{ClientId, Delta};
use sn_local::Addr;

/// A call of a node, with its arguments. Moments are in seconds.
pub enum Step {
    /// A datagram comes from an address at a moment.
    Frame {
        /// The address that it comes from.
        from: Addr,
        /// Its bytes.
        bytes: Octets,
        /// The moment.
        now: u64,
    },
    /// A delta comes.
    Take {
        /// The delta.
        delta: Delta,
    },
    /// Time goes by: a moment.
    Tick {
        /// The moment.
        now: u64,
    },
    /// Somebody asks for a client's view.
    View {
        /// The client.
        client: ClientId,
    },
    /// A gateway asks for the digest.
    Digest,
    /// A gateway asks for what its digest does not cover.
    Answer {
        /// The digest of that gateway.
        digest: Digest,
    },
    /// The journal is to hold what is kept, and nothing else.
    Compact,
    /// The node is opened again, from what its disk holds.
    Reopen,
}

impl Drop for Step {
    fn drop(self) {
        match self {
            Step::Frame {
                from: _,
                bytes,
                now: _,
            } => drop(bytes),
            Step::Take { delta } => drop(delta),
            Step::Tick { now: _ } => {}
            Step::View { client } => drop(client),
            Step::Digest => {}
            Step::Answer { digest } => drop(digest),
            Step::Compact => {}
            Step::Reopen => {}
        }
    }
}
