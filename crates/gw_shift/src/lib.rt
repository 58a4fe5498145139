//! One gateway that threads share, and one legal history of what they did.
//!
//! A shift holds a gateway under a lock, with the history of the calls that were made of it. Who
//! calls has a *pass*, which holds what its calls were, what they were answered, and their numbers
//! in the history. When the shift is over the passes are given back, and it is closed: history and
//! passes are compared, and where they do not agree nothing is closed. So what the passes say is
//! one history, in which each call stands once, and which leads from what the gateway held at the
//! opening to the gateway that is handed back.
//!
//! - `shift`: a gateway under a lock, with its history (`Shift`): open, call, call several at once,
//!   read what was made, end.
//! - `pass`: who may call it (`Pass`).
//! - `ended`: the shift is over (`Ended`), and is closed with its passes (`Closed`).
//! - `entry`: a call as the history and as a pass have it.
//! - `locked`: what is under the lock.
//! - `row`: several calls with one sync: what is made ready before the lock is taken, and what they
//!   leave.
//! - `first`: what it was when the shift was opened, for contracts alone (`First`).
//! - `gathering`: the deltas that calls made: shares of them are taken under the lock, copies
//!   outside.
//! - `closing`: whether passes hold the calls of a history.
//! - `fault`: why something is refused.
//! - `tallying`: how many calls of each kind a closed history has, by answer. The history was compared
//!   with its passes, so these numbers are exact; they are late by one shift.
//! - `laws`: passes that account for a history have no stranger among them, and one that made no
//!   call may be left out.
//!
//! The definitions are in `specs/`: `Calls` (a call, and what contracts see of a pass), `Legal` (a
//! legal history), `Passes` (what passes hold, and which deltas calls made), `Calling` (what a call
//! leaves), `Closing` (when passes and history agree), `Tallies` (the calls of a history by kind and
//! answer).
//!
//! `gw_node` is passed on, since types of it stand in ours.
#![tactic(auto)]

mod closing;
mod ended;
mod entry;
mod fault;
mod first;
mod gathering;
mod laws;
mod locked;
mod pass;
mod row;
mod shift;
mod tallying;

pub use ended::{Closed, Ended};
pub use entry::Entry;
pub use fault::{CallFault, CloseFault, ShiftFault};
pub use gw_node;
pub use laws::{strangers_are_not_known, unused_passes_may_go};
pub use pass::Pass;
pub use shift::{MAX_STEPS, Shift};
pub use tallying::tally;
