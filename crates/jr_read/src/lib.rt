//! What an opening would read of the two slots of a journal, without a disk: nothing is written.
//!
//! - `reading`: the records of two slots, or the fault that an opening tells of them (`read`);
//!   whose journal it is (`owner`), and which generation a slot has (`generation`).
//! - `places`: where the records stand in their slot (`Place`).
//! - `folding`: records are taken by a replica, one after the other (`take_all`).
//!
//! The definitions are in `specs/`: `Places` (where a record stands), `Folding` (what records come
//! to). What the records and the faults of two slots are is defined in `jr_journal`.
#![tactic(auto)]

mod folding;
mod places;
mod reading;

pub use folding::{Misfit, take_all};
pub use places::Place;
pub use reading::{Reading, generation, owner, read};
