//! An operation from octets.
//!
//! There is a reader for each type of the format that rep_op spells. A reader gives what the octets
//! say, and the octets after it, up to the first fault.
//!
//! - `field`: octets, numbers and texts. Formats above are made of the same fields (`read_octet`,
//!   `read_client`).
//! - `part`, `table`, `session`: the parts and tables of a session, sessions and changes.
//! - `op`: operations (`read_op`).
//!
//! The definitions are in `specs/Reading`: readers, what they are put together of, and what a
//! function returned against them. That each reader is the reader of its spelling is in `proofs/`:
//! `Laws` (of readers put together), `Fields`, `Tables`, `Parts`, `Changes`, `Operations`.
#![tactic(auto)]

mod field;
mod op;
mod part;
mod session;
mod table;

pub use field::{
    read_client, read_counted_eight, read_counted_octet, read_eight, read_four, read_octet,
    read_topic, read_two,
};
pub use op::read_op;
