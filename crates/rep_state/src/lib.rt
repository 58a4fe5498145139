//! The folded replica of a set of operations (`Folded`): it forgets what no answer needs.
//!
//! Of topics what was retained last is held (`rep_retain`). Of a client only what must be kept is
//! held (`rep_entry`): the session operations of the visible stamp and those above it, which wait
//! for their Take; the messages that wait, in the order of delivery; and per origin the
//! acknowledged numbers as ranges. The view and the counts stand beside them, and are never worked
//! out from the past again.
//!
//! Operations are taken in two steps. `prepare` tests it against what is kept, before it changes
//! anything; works out what it makes of each client that it names; counts what the limits speak of;
//! and makes places for new clients, and room for new messages and session operations. `commit`
//! moves what was worked out into its places, or after what is there, for which no memory is
//! needed.
//!
//! - `replica`: the replica of clients and what it promises (`FoldedClients`, `Staged`).
//! - `table`, `room`: the table of clients, the limits, room for fresh entries and their move.
//! - `asides`: what lies aside, and the way back.
//! - `places`: the clients in order, each with the marks of what it asks for; the next that a
//!   publication may be for.
//! - `agreeing`: whether a delta contradicts what is kept.
//! - `grouping`: what a delta changes of each client that it names.
//! - `numbers`, `held`: the last numbers of a client; all clients in order, and what is kept of
//!   them.
//!
//! The definitions are in `specs/`: `Tables` (of clients), `Interests` (places with marks); for
//! private functions, `Groups` (the changes of a delta, client by client) and `Staging` (the same
//! as they are staged). Lemmas from a client to all of them are in `proofs/`: `Groups`, `Working`,
//! `Passing`, `Fitting`, `Staging`; of places and moves: `Rows`, `Placing`, `Walking`.
#![tactic(auto)]

mod agreeing;
mod asides;
mod grouping;
mod held;
mod numbers;
mod places;
mod replica;
mod room;
mod table;

pub use octets::NoMemory;
pub use rep_model::{ClientView, Limit, Puts, Replica, TakeFault};
pub use rep_retain::Whole;
pub use replica::{FoldedClients, Staged};

/// The folded replica: the folded one of clients, and a table of topics.
pub type Folded = Whole<FoldedClients>;
