//! One gateway, with its journal.
//!
//! A datagram, a tick or a delta from another gateway is one call of a `Node`. What it makes or
//! takes is written to the journal, and synced, before the replica has it and before anything is
//! answered. Where the journal cannot be written the call is refused, the replica and the local
//! state are as before, and the node is halted: it refuses every such call until it is opened
//! again, from what its disk holds. A journal does not grow for ever: it is compacted to what the
//! replica keeps.
//!
//! - `node`: a gateway (`Node`) and its calls.
//! - `opening`: a gateway is opened, and takes what its journal holds.
//! - `handling`: what the calls do, up to the answer.
//! - `carrying`: a plan is carried out, a delta is taken: room, delta, journal, replica, local
//!   state, in this order.
//! - `row`: several calls with one write. `looking` finds what has something to write, and `ahead`
//!   carries a call out, but for the write.
//! - `rewriting`: the journal is written anew from what is kept, or read anew.
//! - `retained`: what it retains of topics.
//! - `laws`: what an opening finds that goes on with what was taken (`opening_laws`), what is said
//!   of one delta that was refused (`single_refusal`), and which set a node has taken after a call
//!   (`calls_carry_on`).
//!
//! A call as a value (`Step`), and what is answered (`Out`, `NodeFault`), are in the crate
//! `gw_answer`. Whom a gateway owns, and how it excuses itself, is in `gw_own`.
//!
//! What a gateway is to its operator, and what each call does to it, is in the crate `gw_event`
//! (`Event`); that a node stands for such a gateway, before each call and after it, is in
//! `Standing` here.
//!
//! The other definitions are in `specs/`: `Parts` (what contracts see of a node), `Glancing` (its
//! clients at a glance), `Plans` (what a
//! plan comes to), `Calls` (what each call may answer), `Failures` (which answers tell of the
//! disk), `Writing` (what becomes of the journal), `Taking` (what a node has taken, and what a
//! crash leaves of it), `Arranging` (a failure is arranged), `Carrying` (how a call carries that
//! on), `Opening`. `Handling` is for private functions.
#![tactic(auto)]

mod ahead;
mod carrying;
mod handling;
mod laws;
mod looking;
mod node;
mod opening;
mod retained;
mod rewriting;
mod row;

pub use gw_answer::{Answer, NodeFault, Out, Refusal, Shares, Step, same_answer, same_step};
pub use laws::{calls_carry_on, opening_laws, single_refusal};
pub use node::Node;
pub use rep_same::same_deltas;
pub use row::{MOST_OF_A_ROW, Reply};
