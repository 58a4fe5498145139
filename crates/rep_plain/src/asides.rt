//! What lies aside of the table: copies of entries, and the way back.

ghost use Rattle.std.specs.Prelude.{◌≡◌, ◌≤◌, ℕ, List, [], None, IsSome, IfOk, OnOk, T};
ghost use Rattle.std.specs.FinMap.{find, put, is_sorted};
ghost use Rattle.std.specs.Map.{lookup};
ghost use Rattle.std.specs.BTreeMap.{is_at};
ghost use Rattle.rep_op.specs.declared.op.Op.{Op};
ghost use Rattle.rep_op.specs.Orders.{client_cmp};
ghost use Rattle.rep_model.specs.declared.fault.TheConstants.{MOST_CLIENTS};
ghost use Rattle.rep_shared.specs.Rows.{own, rows_with, count_named, CanGoBack, AreSaved};
ghost use Rattle.rep_plain.specs.Tables.{rows_of, IsPlainEntry, AreEntries, IsPlainTable, HaveRoom};
ghost use Rattle.rep_plain.specs.inner.Tables.{AreMovable, IsSaving};

use super::entry::Entry;
use super::fresh::copy_ops;
use super::room::replace;
use super::table::Table;
use octets::NoMemory;
use rep_ops::ClientId;
use std::alloc::Global;

/// Puts aside what the table has of the clients of fresh entries, unless it lies there already.
pub(crate) fn save_all(
    alloc: Global,
    table: &Table,
    aside: &mut Table,
    named: &mut usize,
    fresh: &[(ClientId, Entry)],
) -> Result<(), NoMemory>
    requires sorted { T (is_sorted client_cmp table.now.entries) }
    requires each { AreEntries table.now.entries }
    requires room { HaveRoom (rows_of table.now.entries) (rows_of fresh.now) }
    requires aside { IsPlainTable aside.old.entries named.old }
    requires can { CanGoBack (rows_of table.now.entries) (rows_of aside.old.entries) }
    ensures table { IsPlainTable aside.new.entries named.new }
    ensures saving { IsSaving (rows_of table.now.entries) (rows_of aside.old.entries)
        (rows_of aside.new.entries) }
    ensures saved { OnOk result (AreSaved (rows_of aside.new.entries) (rows_of fresh.now)) }
{
    for row in fresh {
        save_one(alloc, table, aside, named, &row.0)?;
    }
    Ok(())
}

/// Puts aside what the table has of a client, unless it lies there already.
fn save_one(
    alloc: Global,
    table: &Table,
    aside: &mut Table,
    named: &mut usize,
    client: &ClientId,
) -> Result<(), NoMemory>
    requires sorted { T (is_sorted client_cmp table.now.entries) }
    requires each { AreEntries table.now.entries }
    requires there { IsSome (find client_cmp client.now (rows_of table.now.entries)) }
    requires aside { IsPlainTable aside.old.entries named.old }
    requires can { CanGoBack (rows_of table.now.entries) (rows_of aside.old.entries) }
    ensures table { IsPlainTable aside.new.entries named.new }
    ensures saving { IsSaving (rows_of table.now.entries) (rows_of aside.old.entries)
        (rows_of aside.new.entries) }
    ensures saved { OnOk result
        (IsSome (find client_cmp client.now (rows_of aside.new.entries))) }
{
    if aside.contains_key(client) {
        return Ok(());
    }
    match table.get(client) {
        Some(held) => put_aside(alloc, aside, named, client, held),
        None => unreachable!(),
    }
}

/// Puts a copy of a client's entry aside, where none lies.
fn put_aside(
    alloc: Global,
    aside: &mut Table,
    named: &mut usize,
    client: &ClientId,
    held: &Entry,
) -> Result<(), NoMemory>
    requires entry { IsPlainEntry client.now held.now }
    requires absent { lookup (is_at (client_cmp client.now)) aside.old.entries ≡ None }
    requires aside { IsPlainTable aside.old.entries named.old }
    requires few { count_named (put client_cmp client.now held.now.ops.items
        (rows_of aside.old.entries)) ≤ MOST_CLIENTS }
    ensures table { IsPlainTable aside.new.entries named.new }
    ensures saving { (rows : List (List ℕ × List Op)) → T (is_sorted client_cmp rows)
        → IsSome (find client_cmp client.now rows)
        → own client.now rows ≡ held.now.ops.items
        → IsSaving rows (rows_of aside.old.entries) (rows_of aside.new.entries) }
    ensures saved { OnOk result
        (IsSome (find client_cmp client.now (rows_of aside.new.entries))) }
{
    let copy = equal_entry(alloc, held)?;
    drop(aside.insert(client.copied(alloc)?, copy)?);
    if !held.ops.as_slice().is_empty() {
        *named += 1;
    }
    Ok(())
}

/// An equal entry.
fn equal_entry(alloc: Global, held: &Entry) -> Result<Entry, NoMemory>
    ensures ops { IfOk result (λ made. made.ops.items ≡ held.now.ops.items) }
    ensures entry { (c : List ℕ) → IsPlainEntry c held.now → IfOk result (IsPlainEntry c) }
{
    let ops = copy_ops(alloc, held.ops.as_slice())?;
    let seen = held.seen.copied(alloc)?;
    Ok(Entry {
        ops,
        seen,
        parked: held.parked,
        exceptions: held.exceptions,
    })
}

/// Moves what lies aside back into its places.
pub(crate) fn put_all_back(table: &mut Table, aside: Table)
    requires movable { AreMovable table.old.entries aside.entries }
    requires sorted { T (is_sorted client_cmp (rows_of aside.entries)) }
    requires room { HaveRoom (rows_of table.old.entries) (rows_of aside.entries) }
    ensures rows { rows_of table.new.entries ≡ rows_with (rows_of table.old.entries)
        (rows_of aside.entries) }
    ensures movable { AreMovable table.new.entries [] }
{
    for (client, entry) in aside {
        replace(table, client, entry);
    }
}

/// How many clients have operations.
pub(crate) fn count_all(table: &Table) -> usize
    requires { count_named (rows_of table.now.entries) ≤ MOST_CLIENTS }
    ensures { result ≡ count_named (rows_of table.now.entries) }
{
    let mut count = 0;
    for (client, entry) in table {
        let _ = client;
        if !entry.ops.as_slice().is_empty() {
            count += 1;
        }
    }
    count
}
