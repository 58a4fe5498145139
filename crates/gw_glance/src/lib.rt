//! The clients of a gateway at a glance: read from what it keeps and knows, and no call of it.
//!
//! - `glimpse`: a client at a glance, by its view and by what this gateway alone knows.
//! - `glancing`: the clients above an id, so many of them (`glance`).
//! - `knowing`: how many messages of a gateway are known for a client (`messages_known`).
//!
//! The definitions are in `specs/`: `Glimpses`, `Glancing`, `Knowing`.
#![tactic(auto)]

mod glancing;
mod glimpse;
mod knowing;

pub use glancing::glance;
pub use glimpse::glimpse_of;
pub use knowing::messages_known;
