//! Whom a gateway owns, and how it excuses itself: what a node asks that needs no journal.
//!
//! - `ownership`: whether each address and each timer is of a client that the gateway owns.
//! - `excuse`: what a client is told where its frame came to nothing for want of a disk.
//!
//! The definitions of `ownership` are in `specs/`, those of `excuse` in the crate `gw_event`.
#![tactic(auto)]

mod excuse;
mod ownership;

pub use excuse::excuses;
pub use ownership::{apply_local_after_delta, keep_owned, note_changes};
