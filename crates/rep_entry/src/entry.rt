//! What the replica keeps of one client.

ghost use Rattle.std.specs.Prelude.{◌≡◌, ◌||◌, ◌==◌, not, length, ℕ, List, [], None, IfOk};
ghost use Rattle.rep_shared.specs.Rows.{has_any};

use octets::NoMemory;
use rep_log::{Acks, Known, NamedOp};
use rep_model::{ClientView, Puts};
use rep_ops::Put;
use std::alloc::Global;

/// What the replica keeps of one client. What its operations say is read off here, and nowhere
/// worked out again.
pub struct Entry {
    /// The view: stamp, prefix and session of the operations below, and the messages that wait.
    pub seen: ClientView,
    /// The operations of the visible stamp, and those above it, which wait for their Take.
    pub known: Known,
    /// What is acknowledged.
    pub acks: Acks,
    /// How many session operations wait for earlier ones.
    pub parked: usize,
    /// How many acknowledgements stand above a number that is not acknowledged.
    pub exceptions: u64,
}

impl Drop for Entry {
    fn drop(self) {
        let Entry {
            seen,
            known,
            acks,
            parked: _,
            exceptions: _,
        } = self;
        drop(seen);
        drop(known);
        drop(acks);
    }
}

impl Entry {
    ghost use Rattle.rep_entry.specs.Entries.{IsEntry, entry_row};
    ghost use Rattle.rep_entry.specs.Applied.{nothing_held};

    /// The place of a client of which nothing is known.
    pub fn empty(alloc: Global) -> Entry
        ensures entry { (c : List ℕ) → IsEntry c result }
        ensures row { (c : List ℕ) → entry_row c result ≡ [] }
        ensures pending { result.seen.pending ≡ [] }
        ensures session { result.seen.session ≡ None }
        ensures nothing { result ≡ nothing_held }
    {
        Entry {
            seen: ClientView {
                stamp: None,
                prefix: 0,
                session: None,
                pending: Puts::new(Vec::new(alloc)),
            },
            known: Known::new(alloc),
            acks: Acks::new(alloc),
            parked: 0,
            exceptions: 0,
        }
    }

    /// An equal entry.
    pub fn copied(&self, alloc: Global) -> Result<Entry, NoMemory>
        ensures { IfOk result (λ made. made ≡ self.now) }
    {
        let seen = self.seen.copied(alloc)?;
        let known = self.known.copied(alloc)?;
        let acks = self.acks.copied(alloc)?;
        Ok(Entry {
            seen,
            known,
            acks,
            parked: self.parked,
            exceptions: self.exceptions,
        })
    }

    /// Whether something is kept of the client.
    pub fn has_operations(&self) -> bool
        ensures { (c : List ℕ) → result ≡ has_any (entry_row c self.now) }
    {
        let log = any_change(self.known.as_slice());
        let mail = any_put(self.seen.pending.as_slice());
        any_of(log, mail, self.acks.has_ranges())
    }
}

/// Whether there are operations.
fn any_change(ops: &[NamedOp]) -> bool
    ensures { result ≡ not (length ops.now == 0) }
{
    !ops.is_empty()
}

/// Whether there are messages.
fn any_put(puts: &[Put]) -> bool
    ensures { result ≡ not (length puts.now == 0) }
{
    !puts.is_empty()
}

/// Whether one of them is true.
fn any_of(log: bool, mail: bool, acks: bool) -> bool
    ensures { result ≡ (log || (mail || acks)) }
{
    log || mail || acks
}
