//! The folded replica of the operations of clients.

ghost use Rattle.std.specs.Prelude.{◌≡◌};

use super::agreeing::check;
use super::asides::{count_all, put_all_back, save_all};
use super::grouping::{changes_by_client, staged_changes};
use super::held::{kept_ops, named_at, named_clients, next_asking};
use super::numbers::{last_epoch, last_seq};
use super::places::Place;
use super::room::{install_changes, make_room};
use super::table::{Table, count_new, entry_of, passed};
use indexmap::IndexMap;
use octets::NoMemory;
use rep_entry::Change;
use rep_model::{ClientView, TakeFault};
use rep_ops::{ClientId, Op};
use rep_shared::ClientSet;
use sn_topic::TopicName;
use std::alloc::Global;
use std::marker::Model;

/// Of each client what must be kept, and what it comes to.
#[derive(Drop)]
pub struct FoldedClients {
    /// The clients. An empty place is seen by no query.
    table: Table,
    /// Their names in ascending order, each with the index of its entry and the marks of what it
    /// may ask for.
    places: Vec<Place>,
    /// How many clients have operations.
    named: usize,
}

impl Model for FoldedClients {
    ghost use Rattle.std.specs.Prelude.{List, ℕ};
    ghost use Rattle.rep_op.specs.declared.op.Op.{Op};

    ghost Value = { List (List ℕ × List Op) };

    ghost use Rattle.rep_state.specs.Tables.{by_client, rows_of, IsEntryTable, ArePlaces};
    ghost use Rattle.rep_state.specs.Interests.{AreMarked};

    ghost view = { λ p. rows_of (by_client p.table.entries) };

    ghost invariant = { λ p. IsEntryTable (by_client p.table.entries) p.named
        × ArePlaces p.table.entries p.places.items
        × AreMarked (by_client p.table.entries) p.places.items };
}

/// Operations that fit: what becomes of the clients that they name once they are taken.
#[derive(Drop)]
pub struct Staged {
    /// The changes, each under the octets of its client.
    changes: Vec<(Vec<u8>, Change)>,
    /// How many clients have operations once they are in their places.
    named: usize,
}

impl Model for Staged {
    ghost use Rattle.std.specs.Prelude.{List, ℕ, ◌≤◌};
    ghost use Rattle.rep_entry.specs.declared.change.Change.{Change};
    ghost use Rattle.rep_entry.specs.Staging.{staged_of, AreStaged};
    ghost use Rattle.rep_model.specs.declared.fault.TheConstants.{MOST_CLIENTS};

    ghost Value = { List (List ℕ × Change) × ℕ };

    ghost view = { λ s. (staged_of s.changes.items, s.named) };

    ghost invariant = { λ s. AreStaged (staged_of s.changes.items) × (s.named ≤ MOST_CLIENTS) };
}

impl ClientSet for FoldedClients {
    ghost use Rattle.std.specs.Prelude.{◌≡◌};
    ghost use Rattle.rep_shared.specs.Rows.{flat, rows_with, count_named, CanGoBack, AreSaved};
    ghost use Rattle.rep_entry.specs.Staging.{planned_rows, AreReady};

    type Staged = Staged;

    ghost kept = { λ rows. flat rows };

    ghost after = { λ rows staged. flat (rows_with rows (planned_rows rows staged.0)) };

    ghost ready = { λ rows staged. AreReady rows staged.0
        × (staged.1 ≡ count_named (rows_with rows (planned_rows rows staged.0))) };

    ghost back = { λ rows aside. flat (rows_with rows aside) };

    ghost can_go_back = { λ rows aside. CanGoBack rows aside };

    ghost is_saved = { λ aside staged. AreSaved aside staged.0 };

    fn empty(alloc: Global) -> Result<FoldedClients, TakeFault> {
        Ok(FoldedClients {
            table: IndexMap::new(alloc),
            places: Vec::new(alloc),
            named: 0,
        })
    }

    fn prepare(&mut self, alloc: Global, ops: &[Op]) -> Result<Staged, TakeFault> {
        check(alloc, &self.table, ops)?;
        let groups = changes_by_client(alloc, &self.table, ops)?;
        let changes = staged_changes(alloc, &self.table, groups)?;
        let named = self.named + count_new(&self.table, changes.as_slice());
        if let Some(limit) = passed(named, changes.as_slice()) {
            return Err(TakeFault::Full { limit });
        }
        make_room(alloc, &mut self.table, &mut self.places, changes.as_slice())?;
        Ok(Staged { changes, named })
    }

    fn commit(&mut self, staged: Staged) {
        let Staged { changes, named } = staged;
        install_changes(&mut self.table, &mut self.places, changes);
        self.named = named;
    }

    fn aside(&self, alloc: Global) -> Result<FoldedClients, TakeFault> {
        let _ = &self.table;
        let named = 0;
        Ok(FoldedClients {
            table: IndexMap::new(alloc),
            places: Vec::new(alloc),
            named,
        })
    }

    fn save(
        &self,
        alloc: Global,
        aside: &mut FoldedClients,
        staged: &Staged,
    ) -> Result<(), TakeFault> {
        save_all(
            alloc,
            &self.table,
            &mut aside.table,
            &mut aside.places,
            &mut aside.named,
            staged.changes.as_slice(),
        )?;
        Ok(())
    }

    fn put_back(&mut self, aside: FoldedClients) {
        let FoldedClients { table, .. } = aside;
        put_all_back(&mut self.table, &mut self.places, table);
        self.named = count_all(&self.table, self.places.as_slice());
    }

    fn view_of(&self, client: &ClientId) -> Option<&ClientView> {
        let entry = entry_of(&self.table, client.bytes())?;
        if !entry.has_operations() {
            return None;
        }
        Some(&entry.seen)
    }

    fn clients(&self, alloc: Global) -> Result<Vec<ClientId>, TakeFault> {
        Ok(named_clients(alloc, &self.table, self.places.as_slice(), self.named)?)
    }

    fn client_at(&self, place: usize) -> Option<(usize, &ClientId, &ClientView)> {
        let places = self.places.as_slice();
        let (client, entry) = named_at(&self.table, places, self.named, place)?;
        Some((place + 1, client, &entry.seen))
    }

    fn next_candidate(
        &self,
        topic: &TopicName,
        place: usize,
    ) -> Option<(usize, &ClientId, &ClientView)> {
        let places = self.places.as_slice();
        let (behind, client, entry) = next_asking(&self.table, places, self.named, place, topic)?;
        Some((behind, client, &entry.seen))
    }

    fn next_epoch(&self, client: &ClientId) -> Option<u64> {
        last_epoch(&self.table, client).checked_add(1)
    }

    fn next_seq(&self, client: &ClientId, gateway: u8) -> Option<u64> {
        last_seq(&self.table, client, gateway).checked_add(1)
    }

    fn to_keep(&self, alloc: Global) -> Result<Vec<Op>, NoMemory> {
        kept_ops(alloc, &self.table, self.places.as_slice())
    }
}
