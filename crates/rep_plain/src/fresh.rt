//! Fresh entries for the clients that a delta names.

ghost use Rattle.std.specs.Prelude.{◌≡◌, ◌++◌, ◌∷◌, [], List, T, IfOk, OnOk, ℕ, false, true};
ghost use Rattle.std.specs.Option.{unwrap_or};
ghost use Rattle.std.specs.Ordering.{is_eq};
ghost use Rattle.std.specs.List.{AllByRecursion};
ghost use Rattle.std.specs.FinMap.{find, is_sorted};
ghost use Rattle.rep_op.specs.declared.op.Op.{Op};
ghost use Rattle.rep_op.specs.Orders.{client_cmp, is_of_client, AreOfClients};
ghost use Rattle.rep_plain.specs.Entries.{IsWorkedOut};
ghost use Rattle.rep_shared.specs.Rows.{own};
ghost use Rattle.rep_plain.specs.inner.Rows.{IsGrown};
ghost use Rattle.rep_plain.specs.Tables.{rows_of};
ghost use Rattle.rep_plain.specs.inner.Tables.{groups_of};

use super::entry::Entry;
use super::news::push_copy;
use super::table::{Table, own_ops};
use octets::NoMemory;
use rep_ops::{ClientId, Op};
use std::alloc::Global;
use std::collections::BTreeMap;

/// For each client of the new operations: what the table has of it, and the new operations after.
pub(crate) fn grown(
    alloc: Global,
    table: &Table,
    news: Vec<Op>,
) -> Result<BTreeMap<ClientId, Vec<Op>>, NoMemory>
    requires { AreOfClients news.items }
    ensures { IfOk result (λ groups. IsGrown (rows_of table.now.entries) news.items
        (groups_of groups.entries)) }
{
    let mut groups = BTreeMap::new(alloc);
    for op in news {
        add_to_group(alloc, table, &mut groups, op)?;
    }
    Ok(groups)
}

/// Puts an operation after those of its client.
fn add_to_group(
    alloc: Global,
    table: &Table,
    groups: &mut BTreeMap<ClientId, Vec<Op>>,
    op: Op,
) -> Result<(), NoMemory>
    requires { is_of_client op ≡ true }
    ensures { (D : List Op)
        → IsGrown (rows_of table.now.entries) D (groups_of groups.old.entries)
        → OnOk result (IsGrown (rows_of table.now.entries) (D ++ op ∷ [])
        (groups_of groups.new.entries)) }
{
    let client = op.client().copied(alloc)?;
    match with_last(alloc, table, groups, &client, op) {
        Ok(ops) => {
            drop(groups.insert(client, ops)?);
            Ok(())
        }
        Err(fault) => {
            drop(client);
            Err(fault)
        }
    }
}

/// Takes the operations of a client out of the groups, with one more after them.
fn with_last(
    alloc: Global,
    table: &Table,
    groups: &mut BTreeMap<ClientId, Vec<Op>>,
    client: &ClientId,
    op: Op,
) -> Result<Vec<Op>, NoMemory>
    ensures ops { IfOk result (λ ops. ops.items ≡ unwrap_or
        (find client_cmp client.now (groups_of groups.old.entries))
        (own client.now (rows_of table.now.entries)) ++ op ∷ []) }
    ensures others { (c : List ℕ)
        → is_eq (client_cmp client.now c) ≡ false
        → find client_cmp c (groups_of groups.new.entries)
        ≡ find client_cmp c (groups_of groups.old.entries) }
{
    match take_group(alloc, table, groups, client) {
        Ok(mut ops) => {
            ops.push(op)?;
            Ok(ops)
        }
        Err(fault) => {
            drop(op);
            Err(fault)
        }
    }
}

/// Takes the operations of a client out of the groups, or else copies those that the table has of
/// it.
fn take_group(
    alloc: Global,
    table: &Table,
    groups: &mut BTreeMap<ClientId, Vec<Op>>,
    client: &ClientId,
) -> Result<Vec<Op>, NoMemory>
    ensures ops { IfOk result (λ ops. ops.items ≡ unwrap_or
        (find client_cmp client.now (groups_of groups.old.entries))
        (own client.now (rows_of table.now.entries))) }
    ensures others { (c : List ℕ)
        → is_eq (client_cmp client.now c) ≡ false
        → find client_cmp c (groups_of groups.new.entries)
        ≡ find client_cmp c (groups_of groups.old.entries) }
{
    match groups.remove(client) {
        Some(ops) => Ok(ops),
        None => copy_ops(alloc, own_ops(table, client)),
    }
}

/// Equal operations.
pub(crate) fn copy_ops(alloc: Global, ops: &[Op]) -> Result<Vec<Op>, NoMemory>
    ensures { IfOk result (λ made. made.items ≡ ops.now) }
{
    let mut made = Vec::with_capacity(alloc, ops.len())?;
    for op in ops {
        push_copy(alloc, &mut made, op)?;
    }
    Ok(made)
}

/// What the operations of each client come to.
pub(crate) fn worked_out(
    alloc: Global,
    groups: BTreeMap<ClientId, Vec<Op>>,
) -> Result<Vec<(ClientId, Entry)>, NoMemory>
    ensures rows { IfOk result (λ fresh. rows_of fresh.items ≡ groups_of groups.entries) }
    ensures worked_out { IfOk result (λ fresh. AllByRecursion (λ f. IsWorkedOut f.0 f.1)
        fresh.items) }
    ensures sorted { IfOk result (λ fresh. T (is_sorted client_cmp (rows_of fresh.items))) }
{
    let mut fresh = Vec::with_capacity(alloc, groups.len())?;
    for (client, ops) in groups {
        let entry = Entry::work_out(alloc, &client, ops)?;
        fresh.push((client, entry))?;
    }
    Ok(fresh)
}
