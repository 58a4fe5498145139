//! Readings of a bridge as messages in the journal of a gateway.
//!
//! A spool is a gateway of its own, with the number `SPOOL`, which talks to nobody: it takes
//! deltas, keeps their messages until they are acknowledged, and has its journal in two files. So
//! its crashes are those of a gateway. Each reading is a message for one of 64 clients, its queues,
//! since a client has at most 16,384 messages that wait.
//!
//! - `place`: the queue of a reading, and its place in it.
//! - `writing`: readings as a delta (`delta_of`).
//! - `reading`: the readings of deltas (`held_in`).
//! - `fault`: why readings make no delta (`SpoolFault`).
//! - `laws`: what was taken and not acknowledged is found again, and no number comes again.
//!
//! The definitions are in `specs/`.
#![tactic(auto)]

mod fault;
mod laws;
mod place;
mod reading;
mod writing;

pub use fault::SpoolFault;
pub use laws::{counts_above, found_again, never_again, one_place, one_reading};
pub use place::{LAST_SEQ, MAX_ROOM, QUEUES, SPOOL, TURN, number_at_place, number_seq, queue_of};
pub use reading::{Held, held_in};
pub use writing::delta_of;
