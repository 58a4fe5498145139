//! What a call may do to a gateway, as its operator believes it: definitions and their laws, and no
//! machinery.
//!
//! A gateway is its settings, the set of operations that it has made and taken, what else it knows
//! (addresses, timers, will dialogs), the disk under it, octet by octet, and the deltas that it
//! refused when that disk failed. What a call does to it is one relation, `Event`, with all cases:
//! datagrams, ticks, deltas, views, digests, answers, compactions, reopenings; a gateway that is
//! halted, a write that fails, and memory that runs out. A node meets it call by call (`gw_node`).
//! A field is a list of such gateways (`gw_world`), and each call in the history of a gateway that
//! many threads call is such an event (`gw_shift`).
//!
//! The definitions are in `specs/`, to be read in this order:
//!
//! - `Drives`: the disk under a gateway: its slots, the one in use, whether a write has failed, and
//!   the failure that is arranged.
//! - `Gateways`: a gateway, a new one, and one that is opened again.
//! - `Occasions`: a datagram or a tick, and the plan for it by the step table.
//! - `Excuses`: what a client is answered if the disk failed.
//! - `Event`: what each call may do, and answer.
//! - `Together`: what several calls may do of which all goes out in one write.
//!
//! `laws` says how several calls follow from one (`calls_together`), and what they write
//! (`written_together`).
#![tactic(auto)]

mod laws;

pub use laws::{calls_together, written_together};
