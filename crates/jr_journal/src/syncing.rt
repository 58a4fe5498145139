//! Bytes that are appended to a slot and synced.

ghost use Rattle.std.specs.Prelude.{◌≡◌, ◌≤◌, ◌<◌, ℕ, true, false, None, take, IfErr, OnOk, OnErr};
ghost use Rattle.jr_disk.specs.Disk.{at, replaced, appended};
ghost use Rattle.jr_journal.specs.Arranged.{after_append, IsStruck, AppendedAs};

use crate::fault::JournalFault;
use jr_disk::{Disk, Slot};

/// Writes bytes behind those of a slot, in one append, and syncs the slot.
pub(crate) fn append_synced<D: Disk>(
    disk: &mut D,
    slot: Slot,
    bytes: &[u8],
) -> Result<(), JournalFault>
    ensures cause { D.failures disk.old ≤ D.failures disk.new }
    ensures starved { D.starved disk.old ≡ true → D.starved disk.new ≡ true }
    ensures err { IfErr result (λ fault. (fault ≡ JournalFault.Disk)
        × (D.failures disk.old < D.failures disk.new)) }
    ensures exact { D.honest → OnOk result (D.slots disk.new
        ≡ after_append None (D.slots disk.old) slot bytes.now) }
    ensures part { D.honest → OnErr result ((n : ℕ) × (D.slots disk.new
        ≡ replaced (D.slots disk.old) slot
        (appended (at (D.slots disk.old) slot) (take n bytes.now)))) }
    ensures struck { OnErr result (IsStruck D.honest (D.slots disk.old) slot bytes.now
        (D.slots disk.new)) }
    ensures known { D.honest → D.starved disk.new ≡ false
        → AppendedAs (D.outlook disk.old) (D.slots disk.old) slot bytes.now result
        (D.slots disk.new) (D.outlook disk.new) }
{
    if disk.append(slot, bytes).is_err() {
        return Err(JournalFault::Disk);
    }
    if disk.sync(slot).is_err() {
        return Err(JournalFault::Disk);
    }
    Ok(())
}
