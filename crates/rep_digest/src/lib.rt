//! Digests: what a gateway has taken, in few words.
//!
//! A gateway that was away sends its digest to a peer, and the peer answers with what the digest
//! does not cover (rep_answer). A digest is made of what a replica keeps, and has one spelling as
//! octets.
//!
//! - `entry`: what a digest says of a client, of one origin's messages for it, and of a topic.
//! - `digest`: a digest (`Digest`), written as octets and read again.
//! - `write`, `size`, `read`: the format, one function for each type of it.
//! - `working`, `groups`, `draft`, `topics`: the digest of what a replica keeps (`digest_of`).
//! - `origins`: where the entry of an origin is.
//! - `laws`: that a digest is read off its spelling.
//!
//! The definitions are in `specs/`: `Digests` (the digest of a set), `WellMade` (which entries make
//! a digest), `Spelling` (its octets), `Reading` (what octets say, up to the first fault).
#![tactic(auto)]

mod digest;
mod draft;
mod entry;
mod groups;
mod laws;
mod origins;
mod read;
mod size;
mod topics;
mod working;
mod write;

pub use digest::Digest;
pub use entry::{ClientEntry, OriginEntry, RetainedEntry};
pub use laws::one_reading;
pub use origins::find_origin;
pub use working::digest_of;
