//! A field of gateways, run from a list of events.
//!
//! `run` is the whole system without sockets and clocks: gateways start empty, with their journals
//! on disks in memory, events come one after the other, and the result is what each gateway
//! answered, what deltas were made or answered, and the gateways as they then are. A disk may fail
//! in any write, after any number of bytes. A gateway may write its journal anew, and it may stop
//! and be opened again from what its disk then has: its set stays, and what it refused when the
//! disk failed is in it whole, or not at all. What `run` must give is defined over sets of
//! operations: what a call does to one gateway in `gw_event` (`Event`, `Gateways`, `Drives`), the
//! rest here in `specs/`: `Field` (a field, and what events may do to it), `Places`, `Steps` (a
//! gateway stops and is opened again, a digest goes to a peer), `Worlds` (the result), `Keeping`
//! (nodes and the gateways that they stand for).
//!
//! - `event`: what can happen (`Event`, `Call`), and what is answered (`Answer`).
//! - `world`: the result of a run (`World`), or why there is none (`WorldFault`).
//! - `field`: one event at one gateway, or between two.
//! - `rows`: calls that come to a gateway together.
//! - `running`: the run.
//!
//! What holds of every run is said in the crate `field_laws`.
#![tactic(auto)]

mod event;
mod field;
mod rows;
mod running;
mod world;

pub use event::{Answer, Call, Event};
pub use gw_node::{NodeFault, Out};
pub use running::run;
pub use world::{World, WorldFault};
