//! The plain replica of a set of operations (`Plain`).
//!
//! It keeps every operation of a client that it has taken, client by client, and beside them the
//! view that they give; of topics what was retained last (`rep_retain`). Operations are taken in two
//! steps: `prepare` finds out what of it is new, works out fresh entries for the clients of the new
//! operations, and makes places for clients that had none; `commit` moves the entries into their
//! places, for which no memory is needed. What brings nothing new costs nothing but the look-ups.
//!
//! - `plain`: the replica of clients, and what it promises (`PlainClients`, `Staged`).
//! - `table`, `room`: the table of clients, the limits, and the move of fresh entries.
//! - `news`, `fresh`: what is new, and the entries that it makes.
//! - `asides`: what lies aside, and the way back.
//! - `held`: what must be kept.
//! - `entry`: a client's operations and what they come to.
//! - `reading`, `replay`, `waiting`, `ranges`: visible stamp, prefix and session, messages that
//!   wait, acknowledgements.
//!
//! What clients with their operations are, and what the folded replica needs as well, is in
//! `rep_shared`. The definitions here are in `specs/`: `Entries` and `Tables` (what the replica's
//! table keeps).
#![tactic(auto)]

mod asides;
mod entry;
mod fresh;
mod held;
mod news;
mod plain;
mod ranges;
mod reading;
mod replay;
mod room;
mod table;
mod waiting;

pub use plain::{PlainClients, Staged};
pub use rep_model::{ClientView, Limit, Puts, Replica, TakeFault};
pub use rep_retain::Whole;

/// The plain replica: the plain one of clients, and a table of topics.
pub type Plain = Whole<PlainClients>;
