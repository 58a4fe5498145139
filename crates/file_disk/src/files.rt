//! Two files as a disk.

ghost use Rattle.std.specs.Prelude.{◌≡◌, ◌+◌, IfOk};

use crate::file::SlotFile;
use crate::names::{FileDiskFault, existing, is_lost, made_durable};
use crate::slots::FileSlots;
use jr_disk::{Disk, DiskFault, Failures, Short, Slot};
use std::alloc::Global;
use std::fs::{File, Files};

/// Two files, and the count of the calls that failed.
#[derive(Drop)]
pub struct FileDisk<F: SlotFile = File> {
    slots: FileSlots<F>,
    /// How many calls have failed. Contracts alone see it.
    pub failures: Failures,
}

impl FileDisk<File> {
    /// The files at a path with `.0` and `.1` after it. Where there is no journal yet they are
    /// made, first the one and then the other, and their names are made durable. No call has
    /// failed.
    ///
    /// The faults: `Files`, a file cannot be opened or made; `InUse`, another program has one open
    /// as its journal; `Lost`, one of them is not there any more; `Memory`.
    pub fn at<R: Files<File = File>>(
        rt: &R,
        alloc: Global,
        path: &str,
    ) -> Result<FileDisk<File>, FileDiskFault>
        ensures { IfOk result (λ disk. disk.failures.count ≡ 0) }
    {
        let first = existing(rt, alloc, path, "0")?;
        match existing(rt, alloc, path, "1") {
            Ok(second) => FileDisk::of_those(rt, alloc, path, first, second),
            Err(fault) => {
                drop(first);
                Err(fault)
            }
        }
    }

    /// The files at a path, of which those are there already.
    fn of_those<R: Files<File = File>>(
        rt: &R,
        alloc: Global,
        path: &str,
        first: Option<File>,
        second: Option<File>,
    ) -> Result<FileDisk<File>, FileDiskFault>
        ensures { IfOk result (λ disk. disk.failures.count ≡ 0) }
    {
        if is_lost(&first, &second) {
            drop(first);
            drop(second);
            return Err(FileDiskFault::Lost);
        }
        let first = match made_durable(first, rt, alloc, path, "0") {
            Ok(first) => first,
            Err(fault) => {
                drop(second);
                return Err(fault);
            }
        };
        match made_durable(second, rt, alloc, path, "1") {
            Ok(second) => Ok(FileDisk::over(first, second)),
            Err(fault) => {
                drop(first);
                Err(fault)
            }
        }
    }
}

impl<F: SlotFile> FileDisk<F> {
    ghost use Rattle.file_disk.specs.Files.{IsCertain};

    /// These two files as a disk: its first slot, and its second one. Of neither of them anything
    /// is in doubt. No call has failed.
    pub fn over(first: F, second: F) -> FileDisk<F>
        requires first { F.honest → IsCertain (F.state first) }
        requires second { F.honest → IsCertain (F.state second) }
        ensures slots { result.slots ≡ record {
          first = (F.state first).octets;
          second = (F.state second).octets;
        } }
        ensures failures { result.failures.count ≡ 0 }
    {
        FileDisk {
            slots: FileSlots::over(first, second),
            failures: Failures::none(),
        }
    }

    /// One more failure.
    fn fail(&mut self)
        ensures slots { self.new.slots ≡ self.old.slots }
        ensures failures { self.new.failures.count ≡ self.old.failures.count + 1 }
    {
        self.failures = Failures::next(&self.failures);
    }
}

impl<F: SlotFile> Disk for FileDisk<F> {
    ghost use Rattle.std.specs.Prelude.{None, false};

    ghost honest = { F.honest };

    ghost slots = { λ disk. disk.slots };

    ghost failures = { λ disk. disk.failures.count };

    ghost starved = { λ _. false };

    ghost outlook = { λ _. None };

    fn len(&mut self, slot: Slot) -> Result<usize, DiskFault> {
        if let Ok(size) = self.slots.len(slot) {
            return Ok(size);
        }
        self.fail();
        Err(DiskFault)
    }

    fn read_at(&mut self, slot: Slot, from: usize, buffer: &mut [u8]) -> Result<(), DiskFault> {
        if self.slots.read_at(slot, from, buffer).is_ok() {
            return Ok(());
        }
        self.fail();
        Err(DiskFault)
    }

    fn append(&mut self, slot: Slot, bytes: &[u8]) -> Result<(), Short> {
        match self.slots.append(slot, bytes) {
            Ok(()) => Ok(()),
            Err(short) => {
                self.fail();
                Err(short)
            }
        }
    }

    fn sync(&mut self, slot: Slot) -> Result<(), DiskFault> {
        if self.slots.sync(slot).is_ok() {
            return Ok(());
        }
        self.fail();
        Err(DiskFault)
    }

    fn cut(&mut self, slot: Slot, len: usize) -> Result<(), DiskFault> {
        if self.slots.cut(slot, len).is_ok() {
            return Ok(());
        }
        self.fail();
        Err(DiskFault)
    }
}

/// The law that a disk of two honest files is honest: it does what the clauses of `Disk` say of
/// such a disk. The function does nothing; its contract is the law.
pub fn disk_of_honest_files<F: SlotFile>()
    ensures { F.honest → ⟦<FileDisk<F> as Disk>⟧.honest }
{}
