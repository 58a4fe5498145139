//! An operation as octets.
//!
//! An operation has one spelling, and a session and its changes, which are parts of it, have one
//! each; rep_op has the definitions (`Sessions`, `Spelling`). There is a writer for each type of
//! the format. A writer leaves the spelling after what was there, or, if memory runs out, at least
//! what was there.
//!
//! - `write`: an operation (`write_op`), its client (`write_client`) and its message.
//! - `write_session`: a session, and a change of one.
//!
//! `specs/Writing` says what a writer leaves. Lemmas on it are in `proofs/Writing`; formats above
//! use them too.
#![tactic(auto)]

mod write;
mod write_session;

pub use write::{write_client, write_op};
pub use write_session::write_text;
