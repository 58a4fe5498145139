//! Opening a journal: sync both slots, read both, and go on in the sealed one of the greater
//! generation, of which a torn end is cut away; or begin a new journal.

ghost use Rattle.std.specs.Prelude.{◌≡◌, ◌≢◌, ◌==◌, ◌≤◌, ◌<◌, nat_lt, ◌&&◌, ◌⊎◌, ◌+◌, [], true, false, length, IfOk, IfErr, OnOk, OnErr, IsErrOf, IsTrue, None, Some, if◌then◌else◌};
ghost use Rattle.jr_disk.specs.Disk.{at, replaced, bytes_of, image, all_synced, cut_to};
ghost use Rattle.jr_journal.specs.inner.Disk.{is_calm};
ghost use Rattle.jr_journal.specs.Records.{new_journal, slot_content, records};
ghost use Rattle.jr_journal.specs.Crashes.{synced_bytes, reads_first, recovered, LeavesNoMore, Leaves};
ghost use Rattle.jr_journal.specs.Arranged.{misses_failure, IsUnhurt};
ghost use Rattle.jr_journal.specs.Opening.{synced_slots, slot_read, generation_read};
ghost use Rattle.jr_journal.specs.inner.Opening.{held_in_slot, opening_of, deltas_of, opening_slot, opening_generation, IsOpening, IsSized, settled, is_new, IsBegun, IsPartly};
ghost use Rattle.jr_journal.specs.Faults.{is_fresh, IsImageFault, slots_fault, fault_of};
ghost use Rattle.jr_journal.specs.inner.Journals.{is_in_use};

use crate::content::{HEADER, MAGIC, SlotContent, read_content};
use crate::fault::JournalFault;
use crate::piece::{Found, SEAL};
use jr_disk::{Disk, Slot};
use rep_ops::Delta;
use std::alloc::Global;

/// How many bytes a header has with the seal after it.
const SEALED_HEADER: usize = 14;

/// What is to be done with the slots.
#[derive(Drop)]
pub enum Opening {
    /// There is no journal yet.
    New,
    /// A journal of this generation and with these pieces, in a slot of so many bytes.
    Held {
        slot: Slot,
        generation: u64,
        found: Found,
        size: usize,
    },
}

/// What an opening has read, and where the journal goes on.
#[derive(Drop)]
pub(crate) struct Recovered {
    pub(crate) deltas: Vec<Delta>,
    pub(crate) slot: Slot,
    pub(crate) generation: u64,
}

/// Makes all bytes of both slots durable.
#[tactic(auto, using(crate::proofs::Calm::calm_sync, crate::proofs::Calm::calm_goes, crate::proofs::Calm::not_starved))]
pub(crate) fn sync_both<D: Disk>(disk: &mut D) -> Result<(), JournalFault>
    ensures cause { D.failures disk.old ≤ D.failures disk.new }
    ensures starved { D.starved disk.old ≡ true → D.starved disk.new ≡ true }
    ensures calm { D.honest → D.starved disk.new ≡ false → IsTrue (is_calm (D.outlook disk.old))
        → IsUnhurt result (D.outlook disk.old) (D.outlook disk.new) }
    ensures err { IfErr result (λ fault. (fault ≡ JournalFault.Disk)
        × (D.failures disk.old < D.failures disk.new)) }
    ensures ok { D.honest → OnOk result (D.slots disk.new ≡ synced_slots (D.slots disk.old)) }
    ensures part { D.honest → OnErr result ((D.slots disk.new ≡ D.slots disk.old)
        ⊎ (D.slots disk.new ≡ replaced (D.slots disk.old) Slot.First
        (all_synced (at (D.slots disk.old) Slot.First)))) }
{
    if disk.sync(Slot::First).is_err() {
        return Err(JournalFault::Disk);
    }
    if disk.sync(Slot::Second).is_err() {
        return Err(JournalFault::Disk);
    }
    Ok(())
}

/// All bytes of a slot.
fn read_slot<D: Disk>(alloc: Global, disk: &mut D, slot: Slot) -> Result<Vec<u8>, JournalFault>
    ensures cause { D.failures disk.old ≤ D.failures disk.new }
    ensures starved { D.starved disk.old ≡ true → D.starved disk.new ≡ true }
    ensures calm { D.honest → D.starved disk.new ≡ false → IsTrue (is_calm (D.outlook disk.old))
        → IsUnhurt result (D.outlook disk.old) (D.outlook disk.new) }
    ensures err { IfErr result (λ fault. (fault ≡ JournalFault.Memory)
        ⊎ ((fault ≡ JournalFault.Disk) × (D.failures disk.old < D.failures disk.new))) }
    ensures same { D.honest → D.slots disk.new ≡ D.slots disk.old }
    ensures ok { D.honest → IfOk result (λ bytes. bytes.items
        ≡ bytes_of (at (D.slots disk.old) slot)) }
{
    let Ok(size) = disk.len(slot) else {
        return Err(JournalFault::Disk);
    };
    let mut bytes = vec![in alloc; 0u8; size]?;
    if disk.read_at(slot, 0, &mut bytes).is_err() {
        return Err(JournalFault::Disk);
    }
    Ok(bytes)
}

/// What a slot is, and how many bytes it has.
fn see_slot<D: Disk>(
    alloc: Global,
    disk: &mut D,
    gateway: u8,
    slot: Slot,
) -> Result<(SlotContent, usize), JournalFault>
    ensures cause { D.failures disk.old ≤ D.failures disk.new }
    ensures starved { D.starved disk.old ≡ true → D.starved disk.new ≡ true }
    ensures calm { D.honest → D.starved disk.new ≡ false → IsTrue (is_calm (D.outlook disk.old))
        → IsUnhurt result (D.outlook disk.old) (D.outlook disk.new) }
    ensures err { IfErr result (λ fault. (fault ≡ JournalFault.Memory)
        ⊎ ((fault ≡ JournalFault.Disk) × (D.failures disk.old < D.failures disk.new))) }
    ensures same { D.honest → D.slots disk.new ≡ D.slots disk.old }
    ensures ok { D.honest → IfOk result (λ seen.
        (seen.0 ≡ slot_content gateway (bytes_of (at (D.slots disk.old) slot)))
        × (seen.1 ≡ length (bytes_of (at (D.slots disk.old) slot)))) }
{
    let bytes = read_slot(alloc, disk, slot)?;
    let content = read_content(alloc, gateway, &bytes)?;
    Ok((content, bytes.len()))
}

/// Why two slots are no journal, if they are none.
fn fault_in(first: &SlotContent, second: &SlotContent, fresh: bool) -> Option<JournalFault>
    ensures { result ≡ slots_fault first.now second.now fresh }
{
    match (first, second) {
        (SlotContent::Alien, _) | (_, SlotContent::Alien) => Some(JournalFault::Foreign),
        (SlotContent::Broken { at }, _) => Some(bad_record(Slot::First, *at)),
        (_, SlotContent::Broken { at }) => Some(bad_record(Slot::Second, *at)),
        (SlotContent::Unsealed, SlotContent::Unsealed) => foreign_unless(fresh),
        (
            SlotContent::Sealed { generation, .. },
            SlotContent::Sealed {
                generation: beside,
                ..
            },
        ) => foreign_unless(*generation < *beside || *beside < *generation),
        _ => None,
    }
}

/// There is no record at a place of a slot.
fn bad_record(slot: Slot, at: usize) -> JournalFault
    ensures { result ≡ JournalFault.BadRecord slot at }
{
    JournalFault::BadRecord { slot, at }
}

/// The slots are no journal, unless something holds.
fn foreign_unless(fine: bool) -> Option<JournalFault>
    ensures { result ≡ (if fine then None else Some JournalFault.Foreign) }
{
    if fine {
        None
    } else {
        Some(JournalFault::Foreign)
    }
}

/// Whether the first of two slots is the one that is read.
fn is_first_read(first: &SlotContent, second: &SlotContent) -> bool
    ensures { result ≡ reads_first first.now second.now }
{
    match (first, second) {
        (
            SlotContent::Sealed { generation, .. },
            SlotContent::Sealed {
                generation: beside,
                ..
            },
        ) => *beside < *generation,
        (SlotContent::Sealed { .. }, _) => true,
        _ => false,
    }
}

/// A journal in a slot of so many bytes, where the slot is sealed.
fn hold(slot: Slot, content: SlotContent, size: usize) -> Opening
    ensures { result ≡ held_in_slot slot content size }
{
    match content {
        SlotContent::Sealed { generation, found } => Opening::Held {
            slot,
            generation,
            found,
            size,
        },
        _ => Opening::New,
    }
}

/// Begins a journal in the first slot: a header of generation 1, and the seal.
fn begin<D: Disk>(disk: &mut D, gateway: u8) -> Result<(), JournalFault>
    ensures cause { D.failures disk.old ≤ D.failures disk.new }
    ensures starved { D.starved disk.old ≡ true → D.starved disk.new ≡ true }
    ensures calm { D.honest → D.starved disk.new ≡ false
        → IsTrue (misses_failure (D.outlook disk.old) true)
        → IsUnhurt result (D.outlook disk.old) (D.outlook disk.new) }
    ensures err { IfErr result (λ fault. (fault ≡ JournalFault.Disk)
        × (D.failures disk.old < D.failures disk.new)) }
    ensures ok { D.honest → OnOk result (D.slots disk.new ≡ replaced (D.slots disk.old) Slot.First
        (synced_bytes (new_journal gateway))) }
    ensures part { D.honest → OnErr result (IsBegun gateway (D.slots disk.old) (D.slots disk.new)) }
{
    let [a, b, c, d] = MAGIC;
    let header = [a, b, c, d, gateway, 0, 0, 0, 0, 0, 0, 0, 1, SEAL];
    if disk.cut(Slot::First, 0).is_err() {
        return Err(JournalFault::Disk);
    }
    if disk.append(Slot::First, &header).is_err() {
        return Err(JournalFault::Disk);
    }
    if disk.sync(Slot::First).is_err() {
        return Err(JournalFault::Disk);
    }
    Ok(())
}

/// Cuts away what stands after the whole pieces of a slot.
#[tactic(auto, using(crate::proofs::Opened::cut_nothing))]
fn cut_torn<D: Disk>(
    disk: &mut D,
    slot: Slot,
    whole: usize,
    size: usize,
) -> Result<(), JournalFault>
    ensures cause { D.failures disk.old ≤ D.failures disk.new }
    ensures starved { D.starved disk.old ≡ true → D.starved disk.new ≡ true }
    ensures calm { D.honest → D.starved disk.new ≡ false → IsTrue (is_calm (D.outlook disk.old))
        → IsUnhurt result (D.outlook disk.old) (D.outlook disk.new) }
    ensures err { IfErr result (λ fault. (fault ≡ JournalFault.Disk)
        × (D.failures disk.old < D.failures disk.new)) }
    ensures ok { D.honest → size ≡ length (bytes_of (at (D.slots disk.old) slot))
        → OnOk result (D.slots disk.new ≡ replaced (D.slots disk.old) slot
        (cut_to (at (D.slots disk.old) slot) (13 + whole))) }
    ensures part { D.honest → OnErr result ((D.slots disk.new ≡ D.slots disk.old)
        ⊎ (D.slots disk.new ≡ replaced (D.slots disk.old) slot (cut_to (at (D.slots disk.old) slot)
        (13 + whole)))) }
{
    if size < HEADER || size - HEADER <= whole {
        return Ok(());
    }
    if disk.cut(slot, HEADER + whole).is_err() {
        return Err(JournalFault::Disk);
    }
    Ok(())
}

/// Does what is to be done with the slots.
pub(crate) fn settle<D: Disk>(
    disk: &mut D,
    gateway: u8,
    opening: &Opening,
) -> Result<(), JournalFault>
    ensures cause { D.failures disk.old ≤ D.failures disk.new }
    ensures starved { D.starved disk.old ≡ true → D.starved disk.new ≡ true }
    ensures calm { D.honest → D.starved disk.new ≡ false
        → IsTrue (misses_failure (D.outlook disk.old) (is_new opening.now))
        → IsUnhurt result (D.outlook disk.old) (D.outlook disk.new) }
    ensures err { IfErr result (λ fault. (fault ≡ JournalFault.Disk)
        × (D.failures disk.old < D.failures disk.new)) }
    ensures ok { D.honest → IsSized opening.now (D.slots disk.old)
        → OnOk result (D.slots disk.new ≡ settled gateway opening.now (D.slots disk.old)) }
    ensures part { D.honest → OnErr result (IsPartly gateway opening.now (D.slots disk.old)
        (D.slots disk.new)) }
{
    match opening {
        Opening::New => begin(disk, gateway),
        Opening::Held {
            slot,
            found,
            size,
            ..
        } => cut_torn(disk, *slot, found.whole, *size),
    }
}

/// What is to be done with two slots of so many bytes, or why they are no journal.
fn opening_in(
    first: SlotContent,
    size: usize,
    second: SlotContent,
    beside: usize,
) -> Result<Opening, JournalFault>
    ensures ok { IfOk result (λ opening. opening ≡ opening_of first size second beside) }
    ensures none { OnOk result (slots_fault first second (beside == 0 && nat_lt size 14) ≡ None) }
    ensures fault { IfErr result
        (λ fault. slots_fault first second (beside == 0 && nat_lt size 14) ≡ Some fault) }
{
    if let Some(fault) = fault_in(&first, &second, beside == 0 && size < SEALED_HEADER) {
        return Err(fault);
    }
    if is_first_read(&first, &second) {
        return Ok(hold(Slot::First, first, size));
    }
    Ok(hold(Slot::Second, second, beside))
}

/// Reads both slots: what is to be done with them.
pub(crate) fn read_slots<D: Disk>(
    alloc: Global,
    disk: &mut D,
    gateway: u8,
) -> Result<Opening, JournalFault>
    ensures cause { D.failures disk.old ≤ D.failures disk.new }
    ensures starved { D.starved disk.old ≡ true → D.starved disk.new ≡ true }
    ensures calm { D.honest → D.starved disk.new ≡ false → IsTrue (is_calm (D.outlook disk.old))
        → IsUnhurt result (D.outlook disk.old) (D.outlook disk.new) }
    ensures err { IsErrOf result JournalFault.Disk → D.failures disk.old < D.failures disk.new }
    ensures running { IsErrOf result JournalFault.Halted → ⊥ }
    ensures same { D.honest → D.slots disk.new ≡ D.slots disk.old }
    ensures opening { D.honest → IfOk result (λ opening. IsOpening gateway
        (image (D.slots disk.old)) opening × IsSized opening (D.slots disk.old)) }
    ensures fault { D.honest → IfErr result (λ fault.
        IsImageFault (fault_of gateway (image (D.slots disk.old))) fault) }
{
    let (first, size) = see_slot(alloc, disk, gateway, Slot::First)?;
    let (second, beside) = see_slot(alloc, disk, gateway, Slot::Second)?;
    opening_in(first, size, second, beside)
}

/// The deltas of a journal, with the slot in which it goes on.
fn recovered_by(alloc: Global, opening: Opening) -> Recovered
    ensures deltas { result.deltas.items ≡ deltas_of opening }
    ensures slot { result.slot ≡ opening_slot opening }
    ensures generation { result.generation ≡ opening_generation opening }
{
    match opening {
        Opening::New => Recovered {
            deltas: Vec::new(alloc),
            slot: Slot::First,
            generation: 1,
        },
        Opening::Held {
            slot,
            generation,
            found,
            ..
        } => Recovered {
            deltas: found.deltas.into_vec(),
            slot,
            generation,
        },
    }
}

/// The records of a journal, which is settled after it: both slots are synced, a torn end is cut
/// away, and where there was no journal one is begun.
pub(crate) fn recover<D: Disk>(
    alloc: Global,
    disk: &mut D,
    gateway: u8,
) -> Result<Recovered, JournalFault>
    ensures cause { D.failures disk.old ≤ D.failures disk.new }
    ensures starved { D.starved disk.old ≡ true → D.starved disk.new ≡ true }
    ensures calm { D.honest → D.starved disk.new ≡ false
        → IsTrue (misses_failure (D.outlook disk.old) (is_fresh (image (D.slots disk.old))))
        → IsUnhurt result (D.outlook disk.old) (D.outlook disk.new) }
    ensures err { IsErrOf result JournalFault.Disk → D.failures disk.old < D.failures disk.new }
    ensures running { IsErrOf result JournalFault.Halted → ⊥ }
    ensures records { D.honest → IfOk result (λ made. made.deltas.items ≡ records gateway
        (image (D.slots disk.old))) }
    ensures place { D.honest → IfOk result (λ made.
        (made.slot ≡ slot_read gateway (image (D.slots disk.old)))
        × (made.generation ≡ generation_read gateway (image (D.slots disk.old)))) }
    ensures known { D.honest → OnOk result (D.slots disk.new ≡ recovered gateway
        (image (D.slots disk.old))) }
    ensures settled { D.honest → IfOk result (λ made.
        IsTrue (is_in_use gateway made.slot made.generation (D.slots disk.new))) }
    ensures durable { D.honest → IfOk result (λ made. Leaves gateway (D.slots disk.new)
        made.deltas.items) }
    ensures found { D.honest → OnOk result (fault_of gateway (image (D.slots disk.old)) ≡ None) }
    ensures fault { D.honest → IfErr result (λ fault.
        IsImageFault (fault_of gateway (image (D.slots disk.old))) fault) }
    ensures kept { D.honest → IfErr result (λ fault. fault ≢ JournalFault.Disk
        → D.slots disk.new ≡ synced_slots (D.slots disk.old)) }
    ensures leaves { D.honest → OnErr result (LeavesNoMore gateway (D.slots disk.old)
        (D.slots disk.new)) }
{
    sync_both(disk)?;
    let opening = read_slots(alloc, disk, gateway)?;
    settle(disk, gateway, &opening)?;
    Ok(recovered_by(alloc, opening))
}
