//! What a replica that forgets keeps of one client (`Entry`), and what a delta changes of it.
//!
//! The view and the counts stand in the entry, and are never worked out from the past again. What a
//! delta makes of a client is worked out operation by operation (`Fresh`): each may be new, may
//! wait, may be below the visible stamp or acknowledged already, and after each of them what is
//! held is exactly what must be kept of all that came. What is worked out is then moved into its
//! place, or after what is there (`Change`), for which no memory is needed.
//!
//! What a delta acknowledges anew lies between two sequence numbers, which are noted as its
//! operations come (`Span`). Messages are in the order of these numbers, so those between the two
//! are found without a walk. Where few of them are there (eight at most), no other message is asked
//! whether it is acknowledged, neither where they are counted nor where they are dropped; where
//! more are, all are passed through once where they are dropped.
//!
//! What a delta does not touch of a client is not copied: a change has a log where a session
//! operation came, and acknowledgements where one came; else those of the entry stay. A session
//! operation that comes after all that are there is moved after them, so that a step costs the
//! same however long the log is.
//!
//! - `entry`, `fresh`: what is kept of a client, and what a delta changes of it.
//! - `change`: that as it is staged, and its move into its place.
//! - `searching`, `news`: a message by its name; those that are new, in the order of their names.
//! - `weaving`, `settling`: messages that wait, with new ones in their places, without the
//!   acknowledged ones.
//! - `span`: sequence numbers from one to another, and where the messages that have them stand.
//! - `interest`: which topics a client's filters may ask for, as a few marks.
//!
//! The definitions are in `specs/`: `Spans`, `Entries` (what holds of an entry, what a change
//! builds on, and what holds of a change), `Staging` (the same as it is staged) and `Interests`
//! (marks). Lemmas that carry the step from one operation to the next are in `proofs/`: `Steps`,
//! `One`, `Changes`, `Changing`; of names in order: `Rising`, `Names`, `Newcomers`; of marks:
//! `Asking`.
#![tactic(auto)]

mod change;
mod entry;
mod fresh;
mod interest;
mod news;
mod searching;
mod settling;
mod span;
mod weaving;

pub use change::{Change, put_into};
pub use entry::Entry;
pub use fresh::Fresh;
pub use interest::{has_mark, mark_of, marks_of};
pub use news::News;
pub use octets::NoMemory;
pub use searching::find_put;
pub use span::Span;
