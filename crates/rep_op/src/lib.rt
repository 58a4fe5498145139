//! What operations are, one at a time: what they are about, how they are named, and which values they
//! may have.
//!
//! A gateway's state is a *set of operations*. There are four kinds (`Op`): a change of a client's
//! session, a message put for a client, the acknowledgement of messages, and what is retained of a
//! topic. Each has a name, and a name has one content for ever, so two sets join by union, in any
//! order and any number of times.
//!
//! - `client_id`: who a session is of.
//! - `op`: stamps, puts and operations.
//! - `order`: the order of their names, and names in common.
//! - `range`, `well_made`: which values of a session, of a change and of an operation are in range.
//! - `value`: what the types promise of an operation's parts.
//! - `version`: the versions of the format, and which of them an operation needs.
//! - `fault`: why operations, or octets, are refused.
//!
//! The definitions are in `specs/`: `Orders` (names, their order, names in common), `Sets` (what a
//! set has under a name, equal sets, consistent sets), `Ranges` and `WellMade` (values in range),
//! `Values` (what the types promise), `Versions`, `Sessions` and `Spelling` (the octets of a
//! session, of a change, of an operation, which rep_write writes and rep_read reads), `ClientIds`
//! and `Faults`. Lemmas on names and on sets are in `proofs/`: `Names`, `Sets`.
#![tactic(auto)]

mod client_id;
mod fault;
mod op;
mod order;
mod range;
mod value;
mod version;
mod well_made;

pub use client_id::ClientId;
pub use fault::OpsFault;
pub use op::{MAX_OPERATIONS, Op, Put, Retained, Stamp, Subject};
pub use order::{clock_order, name_order, share_name, topic_order};
pub use value::is_value;
pub use version::{Version, needs_two};
pub use well_made::is_well_made;
