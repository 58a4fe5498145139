//! Two files as the slots of a disk.

ghost use Rattle.std.specs.Prelude.{◌≡◌, ◌≤◌, ◌+◌, ◌⊎◌, length, take, drop, OnOk, OnErr, IfOk, IfErr};
ghost use Rattle.jr_disk.specs.Disk.{Slots, at, replaced, bytes_of, appended, all_synced, cut_to};
ghost use Rattle.file_disk.specs.Files.{IsCertain};

use crate::file::{FileFault, SlotFile};
use crate::slot::FileSlot;
use jr_disk::{Short, Slot};
use std::marker::Model;

/// Both slots.
#[derive(Drop)]
pub(crate) struct FileSlots<F: SlotFile> {
    first: FileSlot<F>,
    second: FileSlot<F>,
}

impl<F: SlotFile> Model for FileSlots<F> {
    ghost Value = { Slots };

    ghost view = { λ s. record { first = s.first; second = s.second } };
}

impl<F: SlotFile> FileSlots<F> {
    pub(crate) fn over(first: F, second: F) -> FileSlots<F>
        requires first { F.honest → IsCertain (F.state first) }
        requires second { F.honest → IsCertain (F.state second) }
        ensures { result ≡ record {
          first = (F.state first).octets;
          second = (F.state second).octets;
        } }
    {
        FileSlots {
            first: FileSlot::over(first),
            second: FileSlot::over(second),
        }
    }

    pub(crate) fn len(&self, slot: Slot) -> Result<usize, FileFault>
        ensures { F.honest → IfOk result (λ n. n ≡ length (bytes_of (at self.now slot))) }
    {
        match slot {
            Slot::First => self.first.len(),
            Slot::Second => self.second.len(),
        }
    }

    pub(crate) fn read_at(
        &self,
        slot: Slot,
        from: usize,
        buffer: &mut [u8],
    ) -> Result<(), FileFault>
        ensures { F.honest → from + length buffer.old ≤ length (bytes_of (at self.now slot)) →
            OnOk result (buffer.new
            ≡ take (length buffer.old) (drop from (bytes_of (at self.now slot)))) }
    {
        match slot {
            Slot::First => self.first.read_at(from, buffer),
            Slot::Second => self.second.read_at(from, buffer),
        }
    }

    /// On an error the first `written` octets went out.
    pub(crate) fn append(&mut self, slot: Slot, bytes: &[u8]) -> Result<(), Short>
        ensures within { IfErr result (λ short. short.written ≤ length bytes.now) }
        ensures ok { F.honest → OnOk result (self.new ≡ replaced self.old slot
            (appended (at self.old slot) bytes.now)) }
        ensures err { F.honest → IfErr result (λ short. self.new ≡ replaced self.old slot
            (appended (at self.old slot) (take short.written bytes.now))) }
    {
        match slot {
            Slot::First => self.first.append(bytes),
            Slot::Second => self.second.append(bytes),
        }
    }

    /// On an error the slots are as they were.
    pub(crate) fn sync(&mut self, slot: Slot) -> Result<(), FileFault>
        ensures ok { F.honest → OnOk result (self.new ≡ replaced self.old slot
            (all_synced (at self.old slot))) }
        ensures err { F.honest → OnErr result (self.new ≡ self.old) }
    {
        match slot {
            Slot::First => self.first.sync(),
            Slot::Second => self.second.sync(),
        }
    }

    /// On an error the slot is as it was, or it is cut.
    pub(crate) fn cut(&mut self, slot: Slot, len: usize) -> Result<(), FileFault>
        ensures ok { F.honest → OnOk result (self.new ≡ replaced self.old slot
            (cut_to (at self.old slot) len)) }
        ensures err { F.honest → OnErr result ((self.new ≡ self.old)
            ⊎ (self.new ≡ replaced self.old slot (cut_to (at self.old slot) len))) }
    {
        match slot {
            Slot::First => self.first.cut(len),
            Slot::Second => self.second.cut(len),
        }
    }
}
