//! The promise of a field, in one law: `nothing_accepted_vanishes`. What a gateway said yes to
//! waits for each recipient, until a step acknowledges it for a cause.
//!
//! - `promise`: that law.
//! - `yes`: its first half. What was accepted is in a delta, and stays, on the disk too; and who
//!   gets a publication, in words that the step table does not use.
//! - `why`: its other half. Each acknowledgement of a field was written by a step, for a cause.
//! - `links`: what a gateway has once it took a delta or the answer of a peer; and that two gateways
//!   that took each other's answers show the same.
//! - `received`: where received message ids come from. A PUBREC for an id that was received before
//!   means that an earlier PUBLISH with the id was accepted.
//!
//! Each function does nothing; its contract is a law, proved for all runs. Nothing is built on
//! them.
#![tactic(auto)]

mod links;
mod promise;
mod received;
mod why;
mod yes;

pub use links::exchanged_field;
pub use promise::nothing_accepted_vanishes;
pub use received::received_in_a_run;
pub use why::acknowledged_in_a_run;
pub use yes::{accepted_stays, asked_is_served};
