//! The session operations of one client, and its acknowledged numbers, as a replica that forgets
//! keeps them.
//!
//! Of session operations only those of the visible stamp and those above it are kept, which wait
//! for their Take. A delta's come after those that are there, or the list is given up and made
//! anew (`Log`). Per origin the acknowledged numbers are ranges (`Acks`), so that what was
//! acknowledged in order is one range for ever.
//!
//! - `named_ops`: session operations by their names (`Known`).
//! - `log`: those of a client as a delta changes them, with the visible stamp, the prefix and the
//!   session (`Log`).
//! - `replay`: the session that operations without a gap make.
//! - `acks`: acknowledged numbers (`Acks`).
//! - `behind`: lists that are moved behind others, without memory.
//!
//! The definitions are in `specs/`: `Logs`, `Mail` and `Origins` (of session operations, messages
//! and acknowledgements), and `Kept` (all three as a list of operations).
#![tactic(auto)]

mod acks;
mod behind;
mod log;
mod named_ops;
mod replay;

pub use acks::Acks;
pub use behind::append_reusing;
pub use log::Log;
pub use named_ops::{Known, NamedOp};
pub use octets::NoMemory;
