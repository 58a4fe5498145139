//! The journal of a gateway: what it has taken, on a disk that may fail.
//!
//! Each delta is one record, and a record counts once it is synced. After any crash the journal
//! gives every record that was acknowledged, in order, and at most one more: the one whose write
//! was cut off. Several records may be written at once, with one sync; then it is some first ones
//! of these, each whole.
//!
//! A journal does not grow for ever. A compaction writes what must be kept, its base, into the
//! other slot, and the journal goes on there; a crash in it leaves the records from before, or the
//! base. The slot in use is not touched before the other one is sealed and synced.
//!
//! - `piece`, `content`: reading a slot, one function for each definition.
//! - `record`: a record as it is written; `records`: several, one behind the other.
//! - `syncing`: bytes that are appended to a slot and synced.
//! - `opening`: the steps of an opening: sync both slots, read them, go on in the sealed one of the
//!   greater generation and cut its torn end away, or begin a new journal.
//! - `compacting`: what must be kept, written into the other slot.
//! - `journal`: `Journal`, with `open`, `append`, `append_all`, `compact` and `reopen`.
//! - `fault`: why a journal refuses.
//!
//! What a journal asks of a disk (`Disk`), and disks in memory, are in the crate `jr_disk`. The
//! definitions are in `specs/`: `Records` (from the bytes of a slot to its records), `Readable`
//! (records that are read again), `Faults` (which fault there is in two slots), `Crashes` (what a
//! crash leaves, and what the next opening makes of that), `Journals` (slots, generations, and
//! which faults an append and a compaction may tell), `Opening` (where an opened journal goes on),
//! `Arranged` (what failures that are arranged make of a call), `Parts` (what contracts see of a
//! journal).
#![tactic(auto)]

mod compacting;
mod content;
mod fault;
mod journal;
mod opening;
mod piece;
mod record;
mod records;
mod syncing;

pub use content::HEADER;
pub use fault::JournalFault;
pub use journal::Journal;
pub use jr_disk::{
    Disk, DiskFault, Failure, Failures, MemoryDisk, OnceCall, OnceDisk, Short, Slot,
    memory_disk_is_honest, once_disk_is_honest,
};
pub use piece::SEAL;
pub use records::Records;
