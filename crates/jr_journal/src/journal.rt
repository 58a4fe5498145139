//! The journal.

ghost use Rattle.std.specs.Prelude.{IsTrue, ◌||◌};
ghost use Rattle.jr_journal.specs.inner.Journals.{is_in_use};

use crate::compacting::{base_of, other_slot, write_anew};
use crate::fault::JournalFault;
use crate::opening::{Recovered, recover};
use crate::record::record_of;
use crate::records::Records;
use crate::syncing::append_synced;
use jr_disk::{Disk, MemoryDisk, Slot};
use rep_ops::Delta;
use std::alloc::Global;

/// A journal on a disk.
#[derive(Drop)]
pub struct Journal<D: Disk> {
    disk: D,
    gateway: u8,
    slot: Slot,
    generation: u64,
    halted: bool,
    ghost settled: { D.honest → IsTrue (halted || is_in_use gateway slot generation
        (D.slots disk)) },
}

impl<D: Disk + Drop> Journal<D> {
    ghost use Rattle.std.specs.Prelude.{◌≡◌, ◌≢◌, ◌≤◌, ◌<◌, ◌+◌, ◌↔◌, true, false, None, [], ◌∷◌, ◌++◌, IfOk, IfErr, OnOk, OnErr, IsErrOf, IsTrue, MatchResult};
    ghost use Rattle.jr_disk.specs.Disk.{at, image};
    ghost use Rattle.jr_journal.specs.Records.{written, written_all, base_bytes, slot_content, generation_in, records};
    ghost use Rattle.jr_journal.specs.Faults.{is_fresh, IsImageFault, fault_of};
    ghost use Rattle.jr_journal.specs.Crashes.{Leaves, LeavesOneMore, LeavesSome, LeavesEither, recovered, LeavesNoMore};
    ghost use Rattle.jr_journal.specs.Arranged.{after_append, IsStruck, AppendedAs, misses_failure, IsUnhurt};
    ghost use Rattle.jr_journal.specs.Journals.{IsAppendFault, IsWriteFault, emptied, last_generation, IsCompactFault, IsBeforeWriting, IsTried};
    ghost use Rattle.jr_journal.specs.Opening.{synced_slots, slot_read, generation_read};
    ghost use Rattle.jr_journal.specs.Journals as spec;
    ghost use Rattle.jr_journal.specs.Parts.{disk_under, gateway_of, slot_of, generation_of};
    ghost use Rattle.jr_journal.specs.Parts as parts;

    /// Opens the journal of a gateway on a disk, and gives the deltas of its records. First all
    /// bytes of both slots are made durable, then they are read; a record that the end cuts is cut
    /// away, and on an empty disk a journal is begun.
    ///
    /// With a fault the disk comes back. `Foreign` and `BadRecord` are told of what is in the
    /// slots, `Disk` only where the disk failed, `Memory` where memory ran out.
    pub fn open(
        alloc: Global,
        disk: D,
        gateway: u8,
    ) -> Result<(Journal<D>, Vec<Delta>), (D, JournalFault)>
        ensures starts { IfOk result (λ made. (parts.is_stopped made.0 ≡ false)
            × (gateway_of made.0 ≡ gateway)) }
        ensures counts { MatchResult result
            (λ made. D.failures disk ≤ D.failures (disk_under made.0))
            (λ refused. D.failures disk ≤ D.failures refused.0) }
        ensures cause { IfErr result (λ refused. refused.1 ≡ JournalFault.Disk
            → D.failures disk < D.failures refused.0) }
        ensures starved { D.starved disk ≡ true
            → MatchResult result (λ made. D.starved (disk_under made.0) ≡ true)
            (λ refused. D.starved refused.0 ≡ true) }
        ensures running { IfErr result (λ refused. refused.1 ≢ JournalFault.Halted) }
        // It goes on in the slot that is read.
        ensures place { D.honest → IfOk result
            (λ made. (slot_of made.0 ≡ slot_read gateway (image (D.slots disk)))
            × (generation_of made.0 ≡ generation_read gateway (image (D.slots disk)))) }
        // The records are those of the slots as they were found.
        ensures records { D.honest → IfOk result (λ made. made.1.items ≡ records gateway
            (image (D.slots disk))) }
        ensures known { D.honest
            → IfOk result (λ made. D.slots (disk_under made.0) ≡ recovered gateway
            (image (D.slots disk))) }
        // What was given stands after every crash.
        ensures durable { D.honest
            → IfOk result (λ made. Leaves gateway (D.slots (disk_under made.0))
            made.1.items) }
        // It is refused exactly where the format says so, or the disk failed, or memory ran out.
        ensures found { D.honest → OnOk result (fault_of gateway (image (D.slots disk)) ≡ None) }
        ensures fault { D.honest → IfErr result
            (λ refused. IsImageFault (fault_of gateway (image (D.slots disk))) refused.1) }
        // Refused for another cause than the disk, it has synced the slots and changed nothing.
        ensures kept { D.honest → IfErr result (λ refused. refused.1 ≢ JournalFault.Disk
            → D.slots refused.0 ≡ synced_slots (D.slots disk)) }
        // Whatever refused it, no crash leaves what it could not have left before.
        ensures leaves { D.honest → IfErr result (λ refused. LeavesNoMore gateway (D.slots disk)
            (D.slots refused.0)) }
        // A failure that is arranged for an append stays arranged, unless a journal is begun.
        ensures quiet { D.honest → IsTrue (misses_failure (D.outlook disk)
            (is_fresh (image (D.slots disk)))) →
            IfOk result (λ made. D.starved (disk_under made.0) ≡ false
            → D.outlook (disk_under made.0) ≡ D.outlook disk) }
        ensures blameless { D.honest → IsTrue
            (misses_failure (D.outlook disk) (is_fresh (image (D.slots disk)))) →
            IfErr result (λ refused. D.starved refused.0 ≡ false
            → (refused.1 ≢ JournalFault.Disk) × (D.outlook refused.0 ≡ D.outlook disk)) }
    {
        let mut disk = disk;
        match recover(alloc, &mut disk, gateway) {
            Ok(
                Recovered {
                    deltas,
                    slot,
                    generation,
                },
            ) => {
                let journal = Journal {
                    disk,
                    gateway,
                    slot,
                    generation,
                    halted: false,
                };
                Ok((journal, deltas))
            }
            Err(fault) => Err((disk, fault)),
        }
    }

    /// Adds a record. At `Ok` it is synced. After `Disk` the journal is halted, and a crash leaves
    /// the records from before, or these and the new one.
    ///
    /// `Halted` where the journal is halted; else `Memory`, and nothing was written; else `Disk`.
    pub fn append(&mut self, alloc: Global, delta: &Delta) -> Result<(), JournalFault>
        ensures halted { IsErrOf result JournalFault.Halted ↔ (parts.is_stopped self.old ≡ true) }
        ensures same { (gateway_of self.new ≡ gateway_of self.old)
            × (slot_of self.new ≡ slot_of self.old) }
        ensures generation { generation_of self.new ≡ generation_of self.old }
        ensures faults { IfErr result IsAppendFault }
        ensures goes_on { OnOk result (parts.is_stopped self.new ≡ false) }
        ensures halts { IsErrOf result JournalFault.Disk → parts.is_stopped self.new ≡ true }
        ensures counts { D.failures (disk_under self.old) ≤ D.failures (disk_under self.new) }
        ensures cause { IsErrOf result JournalFault.Disk
            → D.failures (disk_under self.old) < D.failures (disk_under self.new) }
        ensures refused { IsErrOf result JournalFault.Memory
            → ((disk_under self.new) ≡ (disk_under self.old))
            × (parts.is_stopped self.new ≡ parts.is_stopped self.old) }
        ensures stays { IsErrOf result JournalFault.Halted
            → ((disk_under self.new) ≡ (disk_under self.old)) × (parts.is_stopped self.new ≡ true) }
        ensures starved { D.starved (disk_under self.old) ≡ true
            → D.starved (disk_under self.new) ≡ true }
        ensures exact { D.honest → OnOk result (D.slots (disk_under self.new) ≡ after_append None
            (D.slots (disk_under self.old)) (slot_of self.old) (written delta.now)) }
        // After it every crash leaves the records from before and the new one.
        ensures durable { D.honest → OnOk result
            (Leaves (gateway_of self.old) (D.slots (disk_under self.new))
            (records (gateway_of self.old) (image (D.slots (disk_under self.old))) ++
            delta.now ∷ [])) }
        // Where it failed, the new one may be missing.
        ensures torn { D.honest → IsErrOf result JournalFault.Disk
            → LeavesOneMore (gateway_of self.old) (D.slots (disk_under self.new))
            (records (gateway_of self.old) (image (D.slots (disk_under self.old)))) delta.now }
        // The slots are as one of the failures leaves them.
        ensures struck { IsErrOf result JournalFault.Disk
            → IsStruck D.honest (D.slots (disk_under self.old)) (slot_of self.old)
            (written delta.now) (D.slots (disk_under self.new)) }
        // Where it is known which failure is arranged, so are the outcome and the slots.
        ensures known { D.honest → D.starved (disk_under self.new) ≡ false
            → AppendedAs (D.outlook (disk_under self.old)) (D.slots (disk_under self.old))
            (slot_of self.old) (written delta.now) result (D.slots (disk_under self.new))
            (D.outlook (disk_under self.new)) }
    {
        if self.halted {
            return Err(JournalFault::Halted);
        }
        let bytes = record_of(alloc, delta)?;
        self.halted = true;
        if self.disk.append(self.slot, &bytes).is_err() {
            return Err(JournalFault::Disk);
        }
        if self.disk.sync(self.slot).is_err() {
            return Err(JournalFault::Disk);
        }
        self.halted = false;
        Ok(())
    }

    /// Adds records, all of them in one append of the disk and one sync. At `Ok` they are synced.
    /// After `Disk` the journal is halted, and a crash leaves the records from before and some
    /// first ones of these, each whole.
    ///
    /// `Halted` where the journal is halted; else `Disk`. It takes no memory.
    pub fn append_all(&mut self, more: &Records) -> Result<(), JournalFault>
        ensures halted { IsErrOf result JournalFault.Halted ↔ (parts.is_stopped self.old ≡ true) }
        ensures same { (gateway_of self.new ≡ gateway_of self.old)
            × (slot_of self.new ≡ slot_of self.old) }
        ensures generation { generation_of self.new ≡ generation_of self.old }
        ensures faults { IfErr result IsWriteFault }
        ensures goes_on { OnOk result (parts.is_stopped self.new ≡ false) }
        ensures halts { IsErrOf result JournalFault.Disk → parts.is_stopped self.new ≡ true }
        ensures counts { D.failures (disk_under self.old) ≤ D.failures (disk_under self.new) }
        ensures cause { IsErrOf result JournalFault.Disk
            → D.failures (disk_under self.old) < D.failures (disk_under self.new) }
        ensures stays { IsErrOf result JournalFault.Halted
            → ((disk_under self.new) ≡ (disk_under self.old)) × (parts.is_stopped self.new ≡ true) }
        ensures starved { D.starved (disk_under self.old) ≡ true
            → D.starved (disk_under self.new) ≡ true }
        ensures exact { D.honest → OnOk result (D.slots (disk_under self.new) ≡ after_append None
            (D.slots (disk_under self.old)) (slot_of self.old) (written_all more.now)) }
        // After it every crash leaves the records from before and all of these.
        ensures durable { D.honest → OnOk result
            (Leaves (gateway_of self.old) (D.slots (disk_under self.new))
            (records (gateway_of self.old) (image (D.slots (disk_under self.old))) ++ more.now)) }
        // Where it failed, some last ones of these may be missing.
        ensures torn { D.honest → IsErrOf result JournalFault.Disk
            → LeavesSome (gateway_of self.old) (D.slots (disk_under self.new))
            (records (gateway_of self.old) (image (D.slots (disk_under self.old)))) more.now }
        // The slots are as one of the failures leaves them.
        ensures struck { IsErrOf result JournalFault.Disk
            → IsStruck D.honest (D.slots (disk_under self.old)) (slot_of self.old)
            (written_all more.now) (D.slots (disk_under self.new)) }
        // Where it is known which failure is arranged, so are the outcome and the slots.
        ensures known { D.honest → D.starved (disk_under self.new) ≡ false
            → AppendedAs (D.outlook (disk_under self.old)) (D.slots (disk_under self.old))
            (slot_of self.old) (written_all more.now) result (D.slots (disk_under self.new))
            (D.outlook (disk_under self.new)) }
    {
        let halted = self.halted;
        if halted {
            return Err(JournalFault::Halted);
        }
        let bytes = more.as_slice();
        self.halted = true;
        append_synced(&mut self.disk, self.slot, bytes)?;
        self.halted = false;
        Ok(())
    }

    /// Writes the journal anew: the other slot gets a header of the next generation, the base and
    /// the seal, in one append that is synced, and the journal goes on there. The base takes the
    /// place of all records that were there.
    ///
    /// `Halted` where the journal is halted; else `Foreign` where the generation is the last
    /// that a header can hold; else `Memory`: nothing was written then. Else `Disk`: the journal is
    /// halted, and a crash leaves the records from before, or the base.
    #[tactic(auto, using(crate::proofs::Appending::number_kept))]
    pub fn compact(&mut self, alloc: Global, base: &[Delta]) -> Result<(), JournalFault>
        ensures halted { IsErrOf result JournalFault.Halted ↔ (parts.is_stopped self.old ≡ true) }
        // The generation is the one that the header of the slot in use tells.
        ensures number { D.honest → parts.is_stopped self.old ≡ false
            → generation_of self.old ≡ generation_in (slot_content (gateway_of self.old)
            (at (D.slots (disk_under self.old)) (slot_of self.old)).synced) }
        ensures last { IsErrOf result JournalFault.Foreign ↔ ((parts.is_stopped self.old ≡ false)
            × (generation_of self.old ≡ last_generation)) }
        ensures same { gateway_of self.new ≡ gateway_of self.old }
        ensures faults { IfErr result IsCompactFault }
        ensures goes_on { OnOk result ((parts.is_stopped self.new ≡ false)
            × (slot_of self.new ≡ spec.other_slot (slot_of self.old))
            × (generation_of self.new ≡ generation_of self.old + 1)) }
        ensures stays { OnErr result ((slot_of self.new ≡ slot_of self.old)
            × (generation_of self.new ≡ generation_of self.old)) }
        ensures halts { IsErrOf result JournalFault.Disk → parts.is_stopped self.new ≡ true }
        ensures refused { IfErr result (λ fault. IsBeforeWriting fault
            → (disk_under self.new ≡ disk_under self.old)
            × (parts.is_stopped self.new ≡ parts.is_stopped self.old)) }
        ensures counts { D.failures (disk_under self.old) ≤ D.failures (disk_under self.new) }
        ensures cause { IsErrOf result JournalFault.Disk
            → D.failures (disk_under self.old) < D.failures (disk_under self.new) }
        ensures starved { D.starved (disk_under self.old) ≡ true
            → D.starved (disk_under self.new) ≡ true }
        ensures exact { D.honest → OnOk result (D.slots (disk_under self.new) ≡
            after_append None (emptied (D.slots (disk_under self.old))
            (spec.other_slot (slot_of self.old)))
            (spec.other_slot (slot_of self.old))
            (base_bytes (gateway_of self.old) (generation_of self.old + 1) base.now)) }
        // After it every crash leaves the base and nothing else.
        ensures durable { D.honest → OnOk result
            (Leaves (gateway_of self.old) (D.slots (disk_under self.new)) base.now) }
        // Where it failed, the records from before may still be there.
        ensures torn { D.honest → IsErrOf result JournalFault.Disk
            → LeavesEither (gateway_of self.old) (D.slots (disk_under self.new))
            (records (gateway_of self.old) (image (D.slots (disk_under self.old)))) base.now }
        // Where it is known which failure is arranged, so are the outcome and the slots.
        ensures known { D.honest → D.starved (disk_under self.new) ≡ false → IsTried result →
            AppendedAs (D.outlook (disk_under self.old))
            (emptied (D.slots (disk_under self.old)) (spec.other_slot (slot_of self.old)))
            (spec.other_slot (slot_of self.old))
            (base_bytes (gateway_of self.old) (generation_of self.old + 1) base.now) result
            (D.slots (disk_under self.new)) (D.outlook (disk_under self.new)) }
    {
        if self.is_halted() {
            return Err(JournalFault::Halted);
        }
        let Some(generation) = self.generation.checked_add(1) else {
            return Err(JournalFault::Foreign);
        };
        let bytes = base_of(alloc, self.gateway, generation, base)?;
        let slot = other_slot(self.slot);
        self.halted = true;
        write_anew(&mut self.disk, slot, &bytes)?;
        self.slot = slot;
        self.generation = generation;
        self.halted = false;
        Ok(())
    }

    /// Opens the journal once more, as it stands on its disk, halted or not, and gives the deltas
    /// of its records.
    ///
    /// The faults are those of an opening. After `Memory` the journal is halted or not as before;
    /// after each other fault it is halted.
    pub fn reopen(&mut self, alloc: Global) -> Result<Vec<Delta>, JournalFault>
        ensures same { gateway_of self.new ≡ gateway_of self.old }
        ensures starts { OnOk result (parts.is_stopped self.new ≡ false) }
        ensures halts { IfErr result (λ fault. fault ≢ JournalFault.Memory
            → parts.is_stopped self.new ≡ true) }
        ensures wanting { IsErrOf result JournalFault.Memory
            → parts.is_stopped self.new ≡ parts.is_stopped self.old }
        ensures stays { OnErr result ((slot_of self.new ≡ slot_of self.old)
            × (generation_of self.new ≡ generation_of self.old)) }
        ensures counts { D.failures (disk_under self.old) ≤ D.failures (disk_under self.new) }
        ensures cause { IsErrOf result JournalFault.Disk
            → D.failures (disk_under self.old) < D.failures (disk_under self.new) }
        ensures starved { D.starved (disk_under self.old) ≡ true
            → D.starved (disk_under self.new) ≡ true }
        ensures running { IsErrOf result JournalFault.Halted → ⊥ }
        // It goes on in the slot that is read.
        ensures place { D.honest → OnOk result
            ((slot_of self.new ≡ slot_read (gateway_of self.old)
            (image (D.slots (disk_under self.old))))
            × (generation_of self.new ≡ generation_read (gateway_of self.old)
            (image (D.slots (disk_under self.old))))) }
        // The records are those of the slots as they were found.
        ensures records { D.honest → IfOk result (λ deltas. deltas.items
            ≡ records (gateway_of self.old) (image (D.slots (disk_under self.old)))) }
        ensures known { D.honest → OnOk result (D.slots (disk_under self.new) ≡ recovered
            (gateway_of self.old) (image (D.slots (disk_under self.old)))) }
        // What was given stands after every crash.
        ensures durable { D.honest → IfOk result (λ deltas. Leaves (gateway_of self.old)
            (D.slots (disk_under self.new)) deltas.items) }
        // It is refused exactly where the format says so, or the disk failed, or memory ran out.
        ensures found { D.honest → OnOk result
            (fault_of (gateway_of self.old) (image (D.slots (disk_under self.old))) ≡ None) }
        ensures fault { D.honest → IfErr result
            (λ fault. IsImageFault (fault_of (gateway_of self.old)
            (image (D.slots (disk_under self.old)))) fault) }
        // Refused for another cause than the disk, it has synced the slots and changed nothing.
        ensures kept { D.honest → IfErr result (λ fault. fault ≢ JournalFault.Disk
            → D.slots (disk_under self.new) ≡ synced_slots (D.slots (disk_under self.old))) }
        // Whatever refused it, no crash leaves what it could not have left before.
        ensures leaves { D.honest → OnErr result (LeavesNoMore (gateway_of self.old)
            (D.slots (disk_under self.old)) (D.slots (disk_under self.new))) }
        // A failure that is arranged for an append stays arranged, unless a journal is begun.
        ensures quiet { D.honest → D.starved (disk_under self.new) ≡ false
            → IsTrue (misses_failure (D.outlook (disk_under self.old))
            (is_fresh (image (D.slots (disk_under self.old))))) →
            IsUnhurt result (D.outlook (disk_under self.old)) (D.outlook (disk_under self.new)) }
    {
        let halted = self.halted;
        self.halted = true;
        match recover(alloc, &mut self.disk, self.gateway) {
            Ok(
                Recovered {
                    deltas,
                    slot,
                    generation,
                },
            ) => {
                self.slot = slot;
                self.generation = generation;
                self.halted = false;
                Ok(deltas)
            }
            Err(JournalFault::Memory) => {
                self.halted = halted;
                Err(JournalFault::Memory)
            }
            Err(fault) => Err(fault),
        }
    }

    /// Halts the journal: nothing more is written until it is opened once more. The disk stays as
    /// it is.
    pub fn halt(&mut self)
        ensures halted { parts.is_stopped self.new ≡ true }
        ensures disk { disk_under self.new ≡ disk_under self.old }
        ensures same { (gateway_of self.new ≡ gateway_of self.old)
            × (slot_of self.new ≡ slot_of self.old)
            × (generation_of self.new ≡ generation_of self.old) }
    {
        self.halted = true;
    }

    /// The slot that it writes.
    pub fn slot(&self) -> Slot
        ensures { result ≡ slot_of self.now }
    {
        self.slot
    }

    /// The generation of that slot: 1 for a new journal, and one more with each compaction.
    pub fn generation(&self) -> u64
        ensures { result ≡ generation_of self.now }
    {
        self.generation
    }

    /// The disk as it stands.
    pub fn into_disk(self) -> D
        ensures { result ≡ disk_under self }
    {
        self.disk
    }

    /// Whether a write has failed since the journal was opened, or a try to open it again, or it
    /// was halted.
    pub fn is_halted(&self) -> bool
        ensures { result ≡ parts.is_stopped self.now }
    {
        self.halted
    }
}

impl Journal<MemoryDisk> {
    ghost use Rattle.std.specs.Prelude.{◌≡◌};
    ghost use Rattle.jr_disk.specs.Memory.{failing};
    ghost use Rattle.jr_journal.specs.Parts.{disk_under, gateway_of, slot_of, generation_of};
    ghost use Rattle.jr_journal.specs.Parts as parts;

    /// Whether memory was refused in the disk.
    pub fn starved(&self) -> bool
        ensures { result ≡ (disk_under self.now).starved }
    {
        self.disk.starved()
    }

    /// Arranges a failure on its disk, in place of one that was arranged before, and changes
    /// nothing else: the next append goes out and its sync fails, or the next append stops after so
    /// many bytes.
    pub fn fail_next(&mut self, bytes: usize, sync: bool)
        ensures disk { disk_under self.new ≡ failing bytes sync (disk_under self.old) }
        ensures same { (gateway_of self.new ≡ gateway_of self.old)
            × (slot_of self.new ≡ slot_of self.old)
            × (generation_of self.new ≡ generation_of self.old) }
        ensures halted { parts.is_stopped self.new ≡ parts.is_stopped self.old }
    {
        self.disk.fail_next(bytes, sync);
    }
}
