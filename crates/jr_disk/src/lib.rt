//! The disk under a journal: two slots of bytes, of which any call may fail.
//!
//! On an honest disk each call does what its clauses say, and a crash leaves of a slot what is
//! synced and a front part of the rest. Of any other disk nothing is known but that a call that
//! fails raises the count of failures by one, and that no other call changes it.
//!
//! - `disk`: what a journal asks of a disk (`Disk`), with its slots, faults and the failures that
//!   can be arranged.
//! - `memory`: a disk in memory (`MemoryDisk`), proved to do what `Disk` says; failures can be
//!   arranged.
//! - `once`: a disk in memory of which one sync, cut or read fails (`OnceDisk`).
//! - `failures`: a count without an upper end, which contracts alone see.
//!
//! The definitions are in `specs/`: `Disk` (slots, what a crash leaves, when a call may fail),
//! `Memory` and `Once` (disks in memory).
#![tactic(auto)]

mod disk;
mod failures;
mod memory;
mod once;

pub use disk::{Disk, DiskFault, Failure, Short, Slot};
pub use failures::Failures;
pub use memory::{MemoryDisk, memory_disk_is_honest};
pub use once::{OnceCall, OnceDisk, once_disk_is_honest};
