//! The disk of a running gateway: two files.
//!
//! No contract can say what the system's files hold, so whether they are honest (`SlotFile`) is a
//! premise. What is proved: on honest files the disk is honest, that is each call goes to the file
//! of its slot and to the place that is asked for, a sync makes durable what it says, and one that
//! may have done nothing is not answered as done. On all files: a call that fails raises the count
//! of failures by one, no other call changes it, and a short write names no more octets than were
//! given.
//!
//! - `file`: what a disk asks of a file (`SlotFile`).
//! - `system`, `memory`: the system's files, and a file in memory (`MemoryFile`), which is proved
//!   honest.
//! - `cutting`: octets that go out to a file, and what of them is taken away again.
//! - `slot`, `slots`: one file as a slot, and two of them.
//! - `files`: two files as a disk (`FileDisk`).
//! - `names`: their names, and how they are opened.
//!
//! The definitions are in `specs/`: `Files` (what contracts see of a file).
#![tactic(auto)]

mod cutting;
mod file;
mod files;
mod memory;
mod names;
mod slot;
mod slots;
mod system;

pub use file::{FileFault, SlotFile};
pub use files::{FileDisk, disk_of_honest_files};
pub use memory::{MemoryFile, memory_files_are_honest};
pub use names::FileDiskFault;
