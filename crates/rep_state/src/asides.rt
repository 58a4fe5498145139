//! What lies aside of the table: copies of entries, and the way back.

ghost use Rattle.std.specs.Prelude.{◌≡◌, ◌≤◌, ℕ, List, None, IsSome, OnOk, T};
ghost use Rattle.std.specs.FinMap.{find, put, is_sorted};
ghost use Rattle.rep_op.specs.declared.op.Op.{Op};
ghost use Rattle.rep_op.specs.Orders.{client_cmp};
ghost use Rattle.rep_model.specs.declared.fault.TheConstants.{MOST_CLIENTS};
ghost use Rattle.rep_shared.specs.Rows.{own, rows_with, count_named, CanGoBack, AreSaved};
ghost use Rattle.rep_entry.specs.Entries.{entry_row};
ghost use Rattle.rep_entry.specs.Staging.{staged_of};
ghost use Rattle.rep_state.specs.Tables.{by_client, rows_of, IsKept, AreKept, IsEntryTable, ArePlaces};
ghost use Rattle.rep_state.specs.Interests.{AreMarked};
ghost use Rattle.rep_state.specs.inner.Tables.{IsSaving, HaveTheirPlaces, AreKeptAside};
ghost use Rattle.rep_state.specs.inner.Staging.{HavePlaces};
ghost use Rattle.rep_state.specs.declared.places.Place.{Place as AtPlace};

use super::places::{Place, client_at, enter, mark_place};
use super::room::named;
use super::table::{Table, copy_octets};
use octets::NoMemory;
use rep_entry::{Change, Entry, marks_of};
use std::alloc::Global;

/// Puts aside what the table has of the clients of changes, unless it lies there already.
pub(crate) fn save_all(
    alloc: Global,
    table: &Table,
    aside: &mut Table,
    places: &mut Vec<Place>,
    count: &mut usize,
    changes: &[(Vec<u8>, Change)],
) -> Result<(), NoMemory>
    requires kept { AreKept (by_client table.now.entries) }
    requires room { HavePlaces (by_client table.now.entries) (staged_of changes.now) }
    requires aside { IsEntryTable (by_client aside.old.entries) count.old }
    requires places { ArePlaces aside.old.entries places.old.items }
    requires marks { AreMarked (by_client aside.old.entries) places.old.items }
    requires can { CanGoBack (rows_of (by_client table.now.entries))
        (rows_of (by_client aside.old.entries)) }
    ensures table { IsEntryTable (by_client aside.new.entries) count.new }
    ensures places { ArePlaces aside.new.entries places.new.items }
    ensures marks { AreMarked (by_client aside.new.entries) places.new.items }
    ensures saving { IsSaving (rows_of (by_client table.now.entries))
        (rows_of (by_client aside.old.entries)) (rows_of (by_client aside.new.entries)) }
    ensures saved { OnOk result
        (AreSaved (rows_of (by_client aside.new.entries)) (staged_of changes.now)) }
{
    for row in changes {
        save_one(alloc, table, aside, places, count, row.0.as_slice())?;
    }
    Ok(())
}

/// Puts aside what the table has of a client, unless it lies there already.
fn save_one(
    alloc: Global,
    table: &Table,
    aside: &mut Table,
    places: &mut Vec<Place>,
    count: &mut usize,
    client: &[u8],
) -> Result<(), NoMemory>
    requires kept { AreKept (by_client table.now.entries) }
    requires there { IsSome (find client_cmp client.now
        (rows_of (by_client table.now.entries))) }
    requires aside { IsEntryTable (by_client aside.old.entries) count.old }
    requires places { ArePlaces aside.old.entries places.old.items }
    requires marks { AreMarked (by_client aside.old.entries) places.old.items }
    requires can { CanGoBack (rows_of (by_client table.now.entries))
        (rows_of (by_client aside.old.entries)) }
    ensures table { IsEntryTable (by_client aside.new.entries) count.new }
    ensures places { ArePlaces aside.new.entries places.new.items }
    ensures marks { AreMarked (by_client aside.new.entries) places.new.items }
    ensures saving { IsSaving (rows_of (by_client table.now.entries))
        (rows_of (by_client aside.old.entries)) (rows_of (by_client aside.new.entries)) }
    ensures saved { OnOk result
        (IsSome (find client_cmp client.now (rows_of (by_client aside.new.entries)))) }
{
    if aside.contains_key(client) {
        return Ok(());
    }
    match table.get(client) {
        Some(held) => put_aside(alloc, aside, places, count, client, held),
        None => unreachable!(),
    }
}

/// Puts a copy of a client's entry aside, where none lies.
fn put_aside(
    alloc: Global,
    aside: &mut Table,
    places: &mut Vec<Place>,
    count: &mut usize,
    client: &[u8],
    held: &Entry,
) -> Result<(), NoMemory>
    requires kept { IsKept client.now held.now }
    requires absent { find client_cmp client.now (by_client aside.old.entries) ≡ None }
    requires aside { IsEntryTable (by_client aside.old.entries) count.old }
    requires places { ArePlaces aside.old.entries places.old.items }
    requires marks { AreMarked (by_client aside.old.entries) places.old.items }
    requires few { count_named (put client_cmp client.now (entry_row client.now held.now)
        (rows_of (by_client aside.old.entries))) ≤ MOST_CLIENTS }
    ensures table { IsEntryTable (by_client aside.new.entries) count.new }
    ensures places { ArePlaces aside.new.entries places.new.items }
    ensures marks { AreMarked (by_client aside.new.entries) places.new.items }
    ensures saving { (rows : List (List ℕ × List Op)) → T (is_sorted client_cmp rows)
        → IsSome (find client_cmp client.now rows)
        → own client.now rows ≡ entry_row client.now held.now
        → IsSaving rows (rows_of (by_client aside.old.entries))
        (rows_of (by_client aside.new.entries)) }
    ensures saved { OnOk result
        (IsSome (find client_cmp client.now (rows_of (by_client aside.new.entries)))) }
{
    places.reserve(1)?;
    let name = named(alloc, client)?;
    let key = copy_octets(alloc, client)?;
    let copy = held.copied(alloc)?;
    let index = aside.len();
    let marks = marks_of(&held.seen.session);
    drop(aside.insert(key, copy)?);
    enter(places, Place { name, index, marks });
    if held.has_operations() {
        *count += 1;
    }
    Ok(())
}

/// Moves what lies aside back into its places, and notes what its clients may ask for.
pub(crate) fn put_all_back(table: &mut Table, places: &mut Vec<Place>, mut aside: Table)
    requires kept { AreKept (by_client table.old.entries) }
    requires aside { AreKeptAside (by_client aside.entries) }
    requires room { HaveTheirPlaces (by_client table.old.entries) (by_client aside.entries) }
    requires places { ArePlaces table.old.entries places.old.items }
    requires marks { AreMarked (by_client table.old.entries) places.old.items }
    ensures rows { rows_of (by_client table.new.entries)
        ≡ rows_with (rows_of (by_client table.old.entries)) (rows_of (by_client aside.entries)) }
    ensures kept { AreKept (by_client table.new.entries) }
    ensures places { ArePlaces table.new.entries places.new.items }
    ensures marks { AreMarked (by_client table.new.entries) places.new.items }
{
    while let Some((client, entry)) = aside.pop() {
        let marks = marks_of(&entry.seen.session);
        set_entry(table, client.as_slice(), entry);
        mark_place(places, client.as_slice(), marks);
    }
}

/// Puts an entry in the client's place.
fn set_entry(table: &mut Table, client: &[u8], entry: Entry)
    requires { IsSome (find client_cmp client.now (by_client table.old.entries)) }
    ensures put { by_client table.new.entries
        ≡ put client_cmp client.now entry (by_client table.old.entries) }
    ensures places { (places : List AtPlace)
        → ArePlaces table.old.entries places → ArePlaces table.new.entries places }
{
    match table.get_mut(client) {
        Some(place) => overwrite(place, entry),
        None => unreachable!(),
    }
}

/// The entry, instead of the one that is there.
fn overwrite(place: &mut Entry, entry: Entry)
    ensures { place.new ≡ entry }
{
    *place = entry;
}

/// How many clients have operations.
pub(crate) fn count_all(table: &Table, places: &[Place]) -> usize
    requires places { ArePlaces table.now.entries places.now }
    requires few { count_named (rows_of (by_client table.now.entries)) ≤ MOST_CLIENTS }
    ensures { result ≡ count_named (rows_of (by_client table.now.entries)) }
{
    let mut count = 0;
    for i in 0..places.len() {
        if let Some((_client, entry)) = client_at(table, places, i) {
            if entry.has_operations() {
                count += 1;
            }
        }
    }
    count
}
