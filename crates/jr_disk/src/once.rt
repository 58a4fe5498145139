//! A disk in memory of which one call fails.

ghost use Rattle.std.specs.Prelude.{Some, None, ◌≡◌, ◌↔◌, IsTrue};

use crate::disk::{Disk, DiskFault, Short, Slot};
use crate::memory::MemoryDisk;
use std::alloc::Global;
use std::marker::Model;

/// The kinds of calls of which one can fail.
#[derive(Clone, Copy, PartialEq, Eq)]
pub enum OnceCall {
    /// `sync`.
    Sync,
    /// `cut`.
    Cut,
    /// `read_at`.
    Read,
}

/// A disk in memory of which one call of a kind fails, without doing anything; that counts as a
/// failure. Each other call is that of the disk in memory.
#[derive(Drop)]
pub struct OnceDisk {
    disk: MemoryDisk,
    call: OnceCall,
    due: Option<usize>,
}

impl Model for OnceDisk {
    ghost use Rattle.jr_disk.specs.Once.{OnceState};

    ghost Value = { OnceState };

    ghost view = { λ d. record { disk = d.disk; call = d.call; due = d.due } };
}

impl OnceDisk {
    ghost use Rattle.jr_disk.specs.Memory.{empty_disk};

    /// A disk with two empty slots, of which one call of this kind fails, after so many of them.
    pub fn new(alloc: Global, call: OnceCall, after: usize) -> OnceDisk
        ensures { result ≡ record { disk = empty_disk; call = call; due = Some after } }
    {
        OnceDisk::over(MemoryDisk::new(alloc), call, after)
    }

    /// The disk as it stands, of which one call of this kind fails, after so many of them.
    pub fn over(disk: MemoryDisk, call: OnceCall, after: usize) -> OnceDisk
        ensures { result ≡ record { disk = disk; call = call; due = Some after } }
    {
        OnceDisk {
            disk,
            call,
            due: Some(after),
        }
    }

    /// The disk as it stands, which fails from here on as a disk in memory does.
    pub fn into_inner(self) -> MemoryDisk
        ensures { result ≡ self.disk }
    {
        self.disk
    }

    /// Whether the call is still to fail.
    pub fn is_due(&self) -> bool
        ensures { IsTrue result ↔ (¬ (self.now.due ≡ None)) }
    {
        self.due.is_some()
    }

    /// A call of this kind is made: whether it is the one that fails.
    fn meets(&mut self, call: OnceCall) -> bool
        ensures disk { self.new.disk ≡ self.old.disk }
        ensures call { self.new.call ≡ self.old.call }
        ensures met { IsTrue result → (self.old.due ≡ Some 0) × (self.new.due ≡ None) }
        ensures gone { self.old.due ≡ None → self.new.due ≡ None }
    {
        if self.call != call {
            return false;
        }
        match self.due {
            None => false,
            Some(after) => {
                self.due = after.checked_sub(1);
                after == 0
            }
        }
    }
}

impl Disk for OnceDisk {
    ghost use Rattle.jr_disk.specs.Once.{outlook_of};

    ghost honest = { Unit {0} };

    ghost slots = { λ d. d.disk.slots };

    ghost failures = { λ d. d.disk.failures };

    ghost starved = { λ d. d.disk.starved };

    ghost outlook = { λ d. outlook_of d.due d.disk.plan };

    fn len(&mut self, slot: Slot) -> Result<usize, DiskFault> {
        self.disk.len(slot)
    }

    fn read_at(&mut self, slot: Slot, from: usize, buffer: &mut [u8]) -> Result<(), DiskFault> {
        if self.meets(OnceCall::Read) {
            self.disk.count_failure();
            return Err(DiskFault);
        }
        self.disk.read_at(slot, from, buffer)
    }

    fn append(&mut self, slot: Slot, bytes: &[u8]) -> Result<(), Short> {
        self.disk.append(slot, bytes)
    }

    fn sync(&mut self, slot: Slot) -> Result<(), DiskFault> {
        if self.meets(OnceCall::Sync) {
            self.disk.count_failure();
            return Err(DiskFault);
        }
        self.disk.sync(slot)
    }

    fn cut(&mut self, slot: Slot, len: usize) -> Result<(), DiskFault> {
        if self.meets(OnceCall::Cut) {
            self.disk.count_failure();
            return Err(DiskFault);
        }
        self.disk.cut(slot, len)
    }
}

/// The law that the disk of which one call fails is honest. The function does nothing; its contract
/// is the law.
pub fn once_disk_is_honest()
    ensures { ⟦<OnceDisk as Disk>⟧.honest }
{}
