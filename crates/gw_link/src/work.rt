//! What a thread of a shift works with.

use crate::stage::Stage;
use gw_shift::Shift;
use jr_disk::Disk;
use rep_model::Replica;
use std::alloc::Global;
use std::sync::Wait;

/// What a thread of a shift works with. It is lent for the shift, and all its threads share it.
#[derive(Drop)]
pub struct Work<'a, T: Wait, R: Replica, D: Disk> {
    /// How threads wait, and what time it is.
    pub rt: &'a T,
    /// The memory.
    pub alloc: Global,
    /// The shift that the calls are of.
    pub shift: &'a Shift<R, D>,
    /// How far it is, and how many of its calls are claimed.
    pub stage: &'a Stage,
}
