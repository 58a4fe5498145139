//! Whom a step serves.

use rep_ops::{ClientId, Put};
use sn_local::Addr;
use sn_session::Session;
use sn_topic::Predefined;

/// A client, the address that it speaks from, and the moment of the step in seconds.
pub struct Peer {
    /// Where its frames go to.
    pub address: Addr,
    /// Its name.
    pub client: ClientId,
    /// The moment of the step, in seconds.
    pub moment: u64,
}

impl Drop for Peer {
    fn drop(self) {
        let Peer {
            address: _,
            client,
            moment: _,
        } = self;
        drop(client);
    }
}

/// What a step reads where it serves a client.
#[derive(Clone, Copy)]
pub struct Visit<'a> {
    /// The topic ids that stand for names without registration.
    pub predefined: &'a Predefined,
    /// The client, at its address.
    pub peer: &'a Peer,
    /// Its session.
    pub session: &'a Session,
    /// The messages that wait for it.
    pub pending: &'a [Put],
}
