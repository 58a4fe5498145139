//! The tables of a session: topic ids, subscriptions, and message ids that were received.
//!
//! Each has at most 256 entries in strictly ascending order, so that equal tables are equal lists.
//! Of a session as a whole, and of the operations that change it, `sn_session` speaks.
//!
//! - `topics`: which id stands for which name, and which is free (`Topics`).
//! - `subscriptions`: what the client asks for, and how often it is to arrive (`Subscriptions`).
//! - `received`: the ids of messages that are not released yet (`Received`).
//! - `table`: what the three share.
//! - `qos_level`: a level of quality of service.
//! - `fault`: why an operation is refused: a table is full, or memory ran out.
//!
//! The definitions are in `specs/`: `Tables` (lists that are tables), `Topics`, `Subscriptions`,
//! `Received`, `Levels` and `Fault`. What a search in a table finds, and what a change at that
//! place makes, is in `proofs/`: `Ascending` and `Places` of any table, `TopicPlaces`,
//! `SubscriptionPlaces` and `ReceivedPlaces` of the three.
//!
//! `sn_topic` is passed on, since types of it stand in ours.
#![tactic(auto)]

mod fault;
mod qos_level;
mod received;
mod subscriptions;
mod table;
mod topics;

pub use fault::SessionFault;
pub use qos_level::QosLevel;
pub use received::Received;
pub use sn_topic;
pub use subscriptions::{Subscription, Subscriptions};
pub use table::MAX_ENTRIES;
pub use topics::{TopicEntry, Topics};
