//! Deltas: sets of operations that travel in one piece.
//!
//! A set of operations has one delta: the operations in the order of their names, each name once,
//! ranges of acknowledgements that touch joined. A delta has one spelling of at most 8,388,608
//! octets, and is what gateways send to one another and what a record of a journal holds. rep_op
//! says what operations are and how one of them is spelled, rep_write writes one, and rep_read
//! reads one. They are passed on from here.
//!
//! - `delta`: a set of operations that travels in one piece (`Delta`): made of operations, copied,
//!   written as octets and read again.
//! - `join`: what makes a list of operations the list of a delta: order, no name twice, ranges
//!   joined.
//! - `size`, `session_size`: what a delta may hold, and how many octets it is spelled in.
//! - `version`: the version that it is spelled in.
//! - `side`: its operations of clients, and those of topics.
//! - `split`, `measure`: a set of any size as deltas that fit (`deltas_of`).
//! - `write`, `read`: the format.
//!
//! The definitions are in `specs/`: `Deltas` (what a delta may hold), `Making` (which operations
//! make one), `Splitting` (a set as deltas that fit), `Spelling` (the octets of a delta), `Reading`
//! (what octets say, up to the first fault), `Formats` (both as a relation). `one_delta`,
//! `one_reading`, `one_older_reading` and `no_prefix` state the laws: a set has one delta, a delta
//! one spelling, what reads version 1 alone reads what needs no other, and no spelling begins
//! another.
#![tactic(auto)]

mod delta;
mod join;
mod measure;
mod read;
mod session_size;
mod side;
mod size;
mod split;
mod version;
mod write;

pub use delta::{Delta, no_prefix, one_delta, one_older_reading, one_reading};
pub use rep_op::{ClientId, MAX_OPERATIONS, Op, OpsFault, Put, Retained, Stamp, Subject, Version};
pub use rep_read::{
    read_client, read_counted_eight, read_counted_octet, read_eight, read_four, read_octet,
    read_topic, read_two,
};
pub use rep_write::{write_client, write_text};
pub use size::MAX_OCTETS;
pub use split::deltas_of;
pub use version::version_of;
