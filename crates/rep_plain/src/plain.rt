//! The plain replica of the operations of clients.

ghost use Rattle.std.specs.Prelude.{◌≡◌};

use super::asides::{count_all, put_all_back, save_all};
use super::entry::Entry;
use super::fresh::{grown, worked_out};
use super::held::kept_ops;
use super::news::news;
use super::reading::{greatest_epoch, greatest_seq};
use super::room::{make_room, move_in};
use super::table::{Table, count_new, named_at, named_clients, own_ops, passed};
use octets::NoMemory;
use rep_model::{ClientView, TakeFault};
use rep_ops::{ClientId, Op};
use rep_shared::ClientSet;
use sn_topic::TopicName;
use std::alloc::Global;
use std::collections::BTreeMap;
use std::marker::Model;

/// A table of clients, each with its operations and the view that they give.
#[derive(Drop)]
pub struct PlainClients {
    /// The clients. A place without operations is seen by no query.
    table: Table,
    /// How many clients have operations.
    named: usize,
}

impl Model for PlainClients {
    ghost use Rattle.std.specs.Prelude.{List, ℕ};
    ghost use Rattle.rep_op.specs.declared.op.Op.{Op};

    ghost Value = { List (List ℕ × List Op) };

    ghost use Rattle.rep_plain.specs.Tables.{rows_of, IsPlainTable};

    ghost view = { λ p. rows_of p.table.entries };

    ghost invariant = { λ p. IsPlainTable p.table.entries p.named };
}

/// Operations that fit: the entries of the clients that they name, with them.
#[derive(Drop)]
pub struct Staged {
    /// The entries, in the order of the clients.
    fresh: Vec<(ClientId, Entry)>,
    /// How many clients have operations once they are in their places.
    named: usize,
}

impl Model for Staged {
    ghost use Rattle.std.specs.Prelude.{List, ℕ, ◌≤◌};
    ghost use Rattle.rep_op.specs.declared.op.Op.{Op};
    ghost use Rattle.rep_model.specs.declared.fault.TheConstants.{MOST_CLIENTS};

    ghost Value = { List (List ℕ × List Op) × ℕ };

    ghost use Rattle.rep_plain.specs.Tables.{rows_of, AreEntries};

    ghost view = { λ s. (rows_of s.fresh.items, s.named) };

    ghost invariant = { λ s. AreEntries s.fresh.items × (s.named ≤ MOST_CLIENTS) };
}

impl ClientSet for PlainClients {
    ghost use Rattle.std.specs.Prelude.{◌≡◌};
    ghost use Rattle.rep_shared.specs.Rows.{flat, rows_with, count_named, CanGoBack, AreSaved};
    ghost use Rattle.rep_plain.specs.Tables.{HaveRoom};

    type Staged = Staged;

    ghost kept = { λ rows. flat rows };

    ghost after = { λ rows staged. flat (rows_with rows staged.0) };

    ghost ready = { λ rows staged. HaveRoom rows staged.0
        × (staged.1 ≡ count_named (rows_with rows staged.0)) };

    ghost back = { λ rows aside. flat (rows_with rows aside) };

    ghost can_go_back = { λ rows aside. CanGoBack rows aside };

    ghost is_saved = { λ aside staged. AreSaved aside staged.0 };

    fn empty(alloc: Global) -> Result<PlainClients, TakeFault> {
        Ok(PlainClients {
            table: BTreeMap::new(alloc),
            named: 0,
        })
    }

    fn prepare(&mut self, alloc: Global, ops: &[Op]) -> Result<Staged, TakeFault> {
        let news = news(alloc, &self.table, ops)?;
        let groups = grown(alloc, &self.table, news)?;
        let fresh = worked_out(alloc, groups)?;
        let named = self.named + count_new(&self.table, fresh.as_slice());
        if let Some(limit) = passed(named, fresh.as_slice()) {
            return Err(TakeFault::Full { limit });
        }
        make_room(alloc, &mut self.table, fresh.as_slice())?;
        Ok(Staged { fresh, named })
    }

    fn commit(&mut self, staged: Staged) {
        let Staged { fresh, named } = staged;
        move_in(&mut self.table, fresh);
        self.named = named;
    }

    fn aside(&self, alloc: Global) -> Result<PlainClients, TakeFault> {
        let _ = &self.table;
        let named = 0;
        Ok(PlainClients {
            table: BTreeMap::new(alloc),
            named,
        })
    }

    fn save(
        &self,
        alloc: Global,
        aside: &mut PlainClients,
        staged: &Staged,
    ) -> Result<(), TakeFault> {
        save_all(
            alloc,
            &self.table,
            &mut aside.table,
            &mut aside.named,
            staged.fresh.as_slice(),
        )?;
        Ok(())
    }

    fn put_back(&mut self, aside: PlainClients) {
        let PlainClients { table, .. } = aside;
        put_all_back(&mut self.table, table);
        self.named = count_all(&self.table);
    }

    fn view_of(&self, client: &ClientId) -> Option<&ClientView> {
        let entry = self.table.get(client)?;
        if entry.ops.as_slice().is_empty() {
            return None;
        }
        Some(&entry.seen)
    }

    fn clients(&self, alloc: Global) -> Result<Vec<ClientId>, TakeFault> {
        Ok(named_clients(alloc, &self.table)?)
    }

    fn client_at(&self, place: usize) -> Option<(usize, &ClientId, &ClientView)> {
        let (client, entry) = named_at(&self.table, place)?;
        Some((place + 1, client, &entry.seen))
    }

    fn next_candidate(
        &self,
        _topic: &TopicName,
        place: usize,
    ) -> Option<(usize, &ClientId, &ClientView)> {
        let (client, entry) = named_at(&self.table, place)?;
        Some((place + 1, client, &entry.seen))
    }

    fn next_epoch(&self, client: &ClientId) -> Option<u64> {
        greatest_epoch(own_ops(&self.table, client), client).checked_add(1)
    }

    fn next_seq(&self, client: &ClientId, gateway: u8) -> Option<u64> {
        greatest_seq(own_ops(&self.table, client), client, gateway).checked_add(1)
    }

    fn to_keep(&self, alloc: Global) -> Result<Vec<Op>, NoMemory> {
        kept_ops(alloc, &self.table)
    }
}
