//! Links between gateways.
//!
//! Two gateways that are linked say their numbers, then what they have (digests), then what the
//! other lacks (deltas). A link carries octets in pieces of any size.
//!
//! - `message`: what is said (`LinkMessage`).
//! - `fault`: why a link is given up.
//! - `framing`: the message in front of a stream.
//! - `stream`: the end of a link at which pieces come in (`LinkIn`).
//! - `outgoing`: the end at which messages go out (`link_out`).
//! - `laws`: that a stream says one thing, however it is cut, and that no message or digest begins
//!   another.
//!
//! The definitions are in `specs/`: `Messages` (messages and their octets), `Streams` (what a
//! stream says), `Pieces` (what pieces of it give), `Writing` (what goes out).
#![tactic(auto)]

mod fault;
mod framing;
mod laws;
mod message;
mod outgoing;
mod stream;

pub use fault::{LinkFault, LinkOutFault};
pub use laws::{no_digest_begins_another, no_message_begins_another, one_stream};
pub use message::LinkMessage;
pub use outgoing::link_out;
pub use stream::{Fed, LinkIn};
