//! What a set of operations means, and what a gateway must keep of it.
//!
//! A client's *view* is read off the set of operations that a gateway has taken: the visible stamp,
//! how many of its operations are there without a gap, the session that they make, and the messages
//! that wait. Nothing else counts: not the order in which the operations came, nor how often.
//!
//! - `view`: the view of a client, as a value (`ClientView`).
//! - `laws`: the laws of sets and views, proved of all sets.
//! - `fault`: why a replica refuses a delta, and how much it holds at most (`MOST_CLIENTS` and the
//!   others).
//! - `replica`: what every replica of a set promises (`Replica`), however it keeps it.
//!
//! What is retained of a topic is read off the set likewise: what was retained last.
//!
//! The definitions are in `specs/`: `Views` (visible stamp, prefix, session, pending), `Topics`
//! (what is retained), `Fresh` (the next epoch, sequence number and clock), `Keep` (what may not be
//! forgotten), `Held` (that as deltas), `Ranges` (of acknowledgements), `Limits` (how much a
//! replica holds), `Roomy` (deltas that fit one after the other), `Asking` (whom a publication
//! passes over), `Moments` (from which on messages need not wait). The lemmas that crates above
//! cite are in `proofs/`: `Joins`, `Thin`, `Ranges`, `Named`, `Fresh`, `Limits`, `Agreeing`,
//! `Occurring`, `Roomy`.
//!
//! `rep_ops` is passed on, since types of it stand in ours.
#![tactic(auto)]

mod fault;
mod laws;
mod replica;
mod view;

pub use fault::{
    Limit, MOST_CLIENTS, MOST_EXCEPTIONS, MOST_PARKED, MOST_PENDING, MOST_RETAINED, TakeFault,
};
pub use laws::{
    base_laws, client_laws, consistency, count_laws, join_laws, keep_laws, leaves_only, order_laws,
    pending_laws, range_laws, retained_laws, topic_laws,
};
pub use rep_ops;
pub use replica::Replica;
pub use view::{ClientView, Puts};
