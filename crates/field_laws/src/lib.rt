//! The laws of a field: what holds of every run, whatever happens and fails in it. They stand
//! beside the chain: nothing is built on them.
//!
//! - `fields`: no message vanishes, what is retained makes way only for something later, a field
//!   never contradicts itself, nothing is made twice, gateways that have taken the same show the
//!   same, the answer to its digest completes a gateway, and calls that come together are calls one
//!   by one.
//! - `again`: nothing but the events fixes a run.
//! - `laws`: in every run each plan of a gateway is well made, so that a gateway refuses what it
//!   made itself only where a limit would be passed, or the delta be too long; a client that is
//!   bound at a gateway is its own, and up; and what a gateway made is in its own journal from then
//!   on, whatever fails.
#![tactic(auto)]

mod again;
mod fields;
mod laws;

pub use again::one_run;
pub use fields::{
    answered_field, consistent_field, made_once, nothing_vanishes, settled_field, steady_field,
    together_field,
};
pub use laws::{bound_clients, own_full, own_plans, stored, takes_at_zero};
