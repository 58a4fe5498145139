//! What a delta changes of each client that it names.

ghost use Rattle.std.specs.Prelude.{◌≡◌, ◌++◌, ◌∷◌, [], true, IsTrue, IfOk, OnOk, List, T};
ghost use Rattle.std.specs.List.{AllByRecursion};
ghost use Rattle.std.specs.FinMap.{is_sorted};
ghost use Rattle.sn_tables.specs.inner.Tables.{IsPlace};
ghost use Rattle.rep_op.specs.declared.op.Op.{Op};
ghost use Rattle.rep_op.specs.Orders.{client_cmp, client_of, is_of_client, AreOfClients};
ghost use Rattle.rep_op.specs.WellMade.{is_well_made};
ghost use Rattle.rep_entry.specs.Entries.{IsEntry, IsFresh, fresh_row};
ghost use Rattle.rep_state.specs.Tables.{by_client, rows_of, AreKept};
ghost use Rattle.rep_entry.specs.Staging.{staged_of};
ghost use Rattle.rep_state.specs.inner.Staging.{future, AreChangesWorkedOut};
ghost use Rattle.rep_state.specs.inner.Groups.{held_of, IsFirstChange, AreGroups, fresh_rows};
ghost use Rattle.rep_entry.specs.Applied.{nothing_held};

use super::table::{Table, copy_octets, entry_of};
use octets::NoMemory;
use rep_entry::{Change, Entry, Fresh};
use rep_ops::{ClientId, Op};
use std::alloc::Global;
use std::cmp::Ordering;

/// A client, and what is changed of it.
pub(crate) type Group = (ClientId, Fresh);

/// For each client that the operations name: what they change of it, in the order of the clients.
pub(crate) fn changes_by_client(
    alloc: Global,
    table: &Table,
    ops: &[Op],
) -> Result<Vec<Group>, NoMemory>
    requires kept { AreKept (by_client table.now.entries) }
    requires clients { AreOfClients ops.now }
    requires made { AllByRecursion (λ op. IsTrue (is_well_made op)) ops.now }
    ensures groups { IfOk result (λ groups.
        AreGroups (by_client table.now.entries) ops.now groups.items) }
    ensures sorted { IfOk result (λ groups. T (is_sorted client_cmp groups.items)) }
    ensures fresh { IfOk result (λ groups. AllByRecursion
        (λ g. IsFresh g.0 (held_of g.0 (by_client table.now.entries)) g.1) groups.items) }
{
    let nothing = Entry::empty(alloc);
    let groups = groups_of(alloc, table, &nothing, ops);
    drop(nothing);
    groups
}

/// The groups of these operations. `nothing` stands for the entry of a client that is not held.
fn groups_of(
    alloc: Global,
    table: &Table,
    nothing: &Entry,
    ops: &[Op],
) -> Result<Vec<Group>, NoMemory>
    requires kept { AreKept (by_client table.now.entries) }
    requires nothing { nothing.now ≡ nothing_held }
    requires clients { AreOfClients ops.now }
    requires made { AllByRecursion (λ op. IsTrue (is_well_made op)) ops.now }
    ensures groups { IfOk result (λ groups.
        AreGroups (by_client table.now.entries) ops.now groups.items) }
    ensures sorted { IfOk result (λ groups. T (is_sorted client_cmp groups.items)) }
    ensures fresh { IfOk result (λ groups. AllByRecursion
        (λ g. IsFresh g.0 (held_of g.0 (by_client table.now.entries)) g.1) groups.items) }
{
    let mut groups = Vec::with_capacity(alloc, 1)?;
    for op in ops {
        add_to_group(alloc, table, nothing, &mut groups, op)?;
    }
    Ok(groups)
}

/// Takes an operation into the group of its client.
fn add_to_group(
    alloc: Global,
    table: &Table,
    nothing: &Entry,
    groups: &mut Vec<Group>,
    op: &Op,
) -> Result<(), NoMemory>
    requires kept { AreKept (by_client table.now.entries) }
    requires nothing { nothing.now ≡ nothing_held }
    requires client { is_of_client op.now ≡ true }
    requires made { IsTrue (is_well_made op.now) }
    requires groups { (D : List Op) × AreGroups (by_client table.now.entries) D groups.old.items }
    requires sorted { T (is_sorted client_cmp groups.old.items) }
    ensures groups { (D : List Op)
        → AreGroups (by_client table.now.entries) D groups.old.items
        → OnOk result
        (AreGroups (by_client table.now.entries) (D ++ op.now ∷ []) groups.new.items) }
    ensures sorted { OnOk result (T (is_sorted client_cmp groups.new.items)) }
{
    let client = op.client();
    let entry = entry_or_nothing(table, nothing, client);
    match place_of(groups.as_slice(), client) {
        Ok(at) => {
            groups[at].1.note(alloc, entry, op)?;
            Ok(())
        }
        Err(at) => {
            let group = first_group(alloc, entry, op)?;
            groups.insert(at, group)?;
            Ok(())
        }
    }
}

/// The group of a client with its first operation.
fn first_group(alloc: Global, entry: &Entry, op: &Op) -> Result<Group, NoMemory>
    requires entry { IsEntry (client_of op.now) entry.now }
    requires client { is_of_client op.now ≡ true }
    requires made { IsTrue (is_well_made op.now) }
    ensures client { IfOk result (λ group. group.0 ≡ client_of op.now) }
    ensures fresh { IfOk result
        (λ group. IsFirstChange (client_of op.now) entry.now group.1 op.now) }
{
    let client = op.client().copied(alloc)?;
    let mut fresh = Fresh::new(alloc);
    match fresh.note(alloc, entry, op) {
        Ok(()) => Ok((client, fresh)),
        Err(fault) => {
            drop(client);
            drop(fresh);
            Err(fault)
        }
    }
}

/// Where the group of a client stands among groups in order, or where it would go. A delta's
/// operations are in the order of their clients, so the last group is looked at first.
fn place_of(groups: &[Group], client: &ClientId) -> Result<usize, usize>
    requires { T (is_sorted client_cmp groups.now) }
    ensures { IsPlace (λ group. client_cmp group.0 client.now) groups.now result }
{
    match groups.last() {
        None => Err(0),
        Some(last) => match last.0.cmp(client) {
            Ordering::Less => Err(groups.len()),
            Ordering::Equal => Ok(groups.len() - 1),
            Ordering::Greater => search(groups, client),
        },
    }
}

/// The same by binary search.
fn search(groups: &[Group], client: &ClientId) -> Result<usize, usize>
    requires { T (is_sorted client_cmp groups.now) }
    ensures { IsPlace (λ group. client_cmp group.0 client.now) groups.now result }
{
    groups.binary_search_by(|group| group.0.cmp(client))
}

/// What is held of the client: the entry of the table, or else the one where nothing is.
fn entry_or_nothing<'a>(table: &'a Table, nothing: &'a Entry, client: &ClientId) -> &'a Entry
    requires { nothing.now ≡ nothing_held }
    ensures { result.now ≡ held_of client.now (by_client table.now.entries) }
{
    match entry_of(table, client.bytes()) {
        Some(entry) => entry,
        None => nothing,
    }
}

/// What is staged of each client once its group is taken.
pub(crate) fn staged_changes(
    alloc: Global,
    table: &Table,
    groups: Vec<Group>,
) -> Result<Vec<(Vec<u8>, Change)>, NoMemory>
    requires { AllByRecursion
        (λ g. IsFresh g.0 (held_of g.0 (by_client table.now.entries)) g.1) groups.items }
    ensures rows { IfOk result (λ changes.
        rows_of (future (by_client table.now.entries) (staged_of changes.items))
        ≡ fresh_rows (by_client table.now.entries) groups.items) }
    ensures worked_out { IfOk result (λ changes.
        AreChangesWorkedOut (by_client table.now.entries) (staged_of changes.items)) }
{
    let nothing = Entry::empty(alloc);
    let made = changes_of(alloc, table, &nothing, groups);
    drop(nothing);
    made
}

/// The changes of these groups. `nothing` stands for the entry of a client that is not held.
fn changes_of(
    alloc: Global,
    table: &Table,
    nothing: &Entry,
    groups: Vec<Group>,
) -> Result<Vec<(Vec<u8>, Change)>, NoMemory>
    requires nothing { nothing.now ≡ nothing_held }
    requires fresh { AllByRecursion
        (λ g. IsFresh g.0 (held_of g.0 (by_client table.now.entries)) g.1) groups.items }
    ensures rows { IfOk result (λ changes.
        rows_of (future (by_client table.now.entries) (staged_of changes.items))
        ≡ fresh_rows (by_client table.now.entries) groups.items) }
    ensures worked_out { IfOk result (λ changes.
        AreChangesWorkedOut (by_client table.now.entries) (staged_of changes.items)) }
{
    let mut made = Vec::with_capacity(alloc, groups.len())?;
    for (client, fresh) in groups {
        stage_client(alloc, table, nothing, &mut made, &client, fresh)?;
    }
    Ok(made)
}

/// Puts what is staged of the client after the others.
fn stage_client(
    alloc: Global,
    table: &Table,
    nothing: &Entry,
    made: &mut Vec<(Vec<u8>, Change)>,
    client: &ClientId,
    fresh: Fresh,
) -> Result<(), NoMemory>
    requires nothing { nothing.now ≡ nothing_held }
    requires fresh { IsFresh client.now (held_of client.now (by_client table.now.entries)) fresh }
    ensures rows { OnOk result (rows_of (future (by_client table.now.entries)
        (staged_of made.new.items))
        ≡ rows_of (future (by_client table.now.entries) (staged_of made.old.items)) ++ (
          client.now,
          fresh_row client.now (held_of client.now (by_client table.now.entries)) fresh,
        ) ∷ []) }
    ensures worked_out { AreChangesWorkedOut (by_client table.now.entries)
        (staged_of made.old.items)
        → OnOk result (AreChangesWorkedOut (by_client table.now.entries)
        (staged_of made.new.items)) }
{
    let change = fresh.into_change(alloc, entry_or_nothing(table, nothing, client))?;
    match copy_octets(alloc, client.bytes()) {
        Ok(key) => Ok(made.push((key, change))?),
        Err(fault) => {
            drop(change);
            Err(fault)
        }
    }
}
