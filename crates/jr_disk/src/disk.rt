//! What a journal asks of a disk.
//!
//! A disk keeps two books, which contracts alone see. `failures` counts: each call that fails adds
//! one, and no other call does. `starved` excuses: once memory was refused in an append, what is
//! arranged may stay undone. So no other call may turn it, or a disk could excuse what it did.

/// The slots of a disk. The first is slot 0, the second slot 1.
#[derive(Clone, Copy, Debug, PartialEq, Eq)]
pub enum Slot {
    /// Slot 0.
    First,
    /// Slot 1.
    Second,
}

/// A call of the disk failed.
#[derive(Clone, Copy, Debug, PartialEq, Eq)]
pub struct DiskFault;

/// An append failed, and so many bytes, from the first on, went out.
#[derive(Clone, Copy, Debug, PartialEq, Eq)]
pub struct Short {
    /// How many octets went out, from the front.
    pub written: usize,
}

/// A failure that is arranged.
#[derive(Clone, Copy, PartialEq, Eq)]
pub enum Failure {
    /// The next append fails after so many bytes, or after all where there are fewer.
    Stop { after: usize },
    /// The next append goes out, and the sync after it fails.
    KeepBack,
    /// The next sync fails.
    FailSync,
}

/// Two slots of bytes. A crash leaves of a slot what is synced, and any number of the bytes
/// appended since, from the first on.
///
/// On an honest disk each call does what its clauses say. Of any other those hold that have no such
/// premise: a call that fails raises the count of failures by one, and no other call changes it;
/// only an append says that memory was refused; and what becomes of a failure that is arranged.
pub trait Disk {
    ghost use Rattle.std.specs.Prelude.{Bool, Option, Some, None, true, false, ℕ, ◌≡◌, ◌≤◌, ◌+◌, ◌⊎◌, length, take, drop, OnOk, OnErr, IfOk, IfErr, IsErr};
    ghost use Rattle.jr_disk.specs.Disk.{Slots, HasCause, at, replaced, bytes_of, appended, all_synced, cut_to};
    ghost use Rattle.jr_disk.specs.Disk.{AppendsAs, SyncsAs, GoesAs, StaysArranged, WantsMemory};
    ghost use Rattle.jr_disk.specs.declared.disk.Failure.{Failure};

    /// The disk does what the clauses under this premise say.
    ghost honest: { Type 0 };

    /// What the slots hold, and what of it is synced.
    ghost slots: { Self → Slots };

    /// How many calls have failed.
    ghost failures: { Self → ℕ };

    /// Memory was refused in it. Only an append asks for memory, and so no other call turns this.
    ghost starved: { Self → Bool };

    /// The failure that is arranged: nothing is known of it, there is none, or this one.
    ghost outlook: { Self → Option (Option Failure) };

    /// How many bytes a slot holds.
    fn len(&mut self, slot: Slot) -> Result<usize, DiskFault>
        ensures cause { HasCause (failures self.old) (failures self.new) result }
        ensures starved { starved self.new ≡ starved self.old }
        ensures outlook { GoesAs (outlook self.old) result (outlook self.new) }
        ensures same { honest → slots self.new ≡ slots self.old }
        ensures length { honest → IfOk result
            (λ n. n ≡ length (bytes_of (at (slots self.old) slot))) };

    /// Reads bytes, from a place of the slot on, into all of the buffer.
    fn read_at(&mut self, slot: Slot, from: usize, buffer: &mut [u8]) -> Result<(), DiskFault>
        ensures cause { HasCause (failures self.old) (failures self.new) result }
        ensures starved { starved self.new ≡ starved self.old }
        ensures keeps { StaysArranged (outlook self.old) (outlook self.new) }
        // Of a read after the end nothing is said here.
        ensures outlook { from + length buffer.old ≤ length (bytes_of (at (slots self.old) slot)) →
            GoesAs (outlook self.old) result (outlook self.new) }
        ensures same { honest → slots self.new ≡ slots self.old }
        ensures bytes { honest → from + length buffer.old
            ≤ length (bytes_of (at (slots self.old) slot)) →
            OnOk result (buffer.new
            ≡ take (length buffer.old) (drop from (bytes_of (at (slots self.old) slot)))) };

    /// Adds bytes at the end of a slot. On an error the first `written` of them went out.
    ///
    /// The first append that finds no memory fails, and changes nothing: the slots and the arranged
    /// failure stay. A later one goes as arranged, or finds no memory again.
    fn append(&mut self, slot: Slot, bytes: &[u8]) -> Result<(), Short>
        ensures cause { HasCause (failures self.old) (failures self.new) result }
        ensures starved { starved self.old ≡ true → starved self.new ≡ true }
        ensures outlook { starved self.new ≡ false
            → AppendsAs (outlook self.old) (length bytes.now) result (outlook self.new) }
        // Where memory was refused in it nothing went out, and the failure that is arranged still
        // is.
        ensures wanting { starved self.old ≡ false → starved self.new ≡ true →
            WantsMemory result (slots self.old) (slots self.new) (outlook self.old)
            (outlook self.new) }
        // Where memory was refused before, the call goes as arranged, or it is refused again.
        ensures again { starved self.old ≡ true →
            AppendsAs (outlook self.old) (length bytes.now) result (outlook self.new)
            ⊎ WantsMemory result (slots self.old) (slots self.new) (outlook self.old)
            (outlook self.new) }
        ensures within { IfErr result (λ short. short.written ≤ length bytes.now) }
        ensures ok { honest → OnOk result (slots self.new ≡ replaced (slots self.old) slot
            (appended (at (slots self.old) slot) bytes.now)) }
        ensures err { honest → IfErr result (λ short. slots self.new ≡ replaced (slots self.old)
            slot (appended (at (slots self.old) slot) (take short.written bytes.now))) };

    /// Makes all bytes of a slot durable: after it a crash leaves them all.
    fn sync(&mut self, slot: Slot) -> Result<(), DiskFault>
        ensures cause { HasCause (failures self.old) (failures self.new) result }
        ensures starved { starved self.new ≡ starved self.old }
        ensures outlook { SyncsAs (outlook self.old) result (outlook self.new) }
        ensures ok { honest → OnOk result (slots self.new ≡ replaced (slots self.old) slot
            (all_synced (at (slots self.old) slot))) }
        ensures err { honest → OnErr result (slots self.new ≡ slots self.old) };

    /// Cuts a slot to a length, for good. On an error the slot is as it was, or it is cut.
    fn cut(&mut self, slot: Slot, len: usize) -> Result<(), DiskFault>
        ensures cause { HasCause (failures self.old) (failures self.new) result }
        ensures starved { starved self.new ≡ starved self.old }
        ensures outlook { GoesAs (outlook self.old) result (outlook self.new) }
        ensures ok { honest → OnOk result (slots self.new ≡ replaced (slots self.old) slot
            (cut_to (at (slots self.old) slot) len)) }
        ensures err { honest → OnErr result ((slots self.new ≡ slots self.old)
            ⊎ (slots self.new ≡ replaced (slots self.old) slot
            (cut_to (at (slots self.old) slot) len))) };
}
