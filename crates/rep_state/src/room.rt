//! Places for clients, and the move of what is staged into them.

ghost use Rattle.std.specs.Prelude.{◌≡◌, IsSome, IsTrue, is_some, IfOk, OnOk, List};
ghost use Rattle.std.specs.FinMap.{find, put};
ghost use Rattle.sn_tables.specs.Tables.{is_ascending};
ghost use Rattle.rep_op.specs.Orders.{client_cmp};
ghost use Rattle.rep_shared.specs.Rows.{rows_with};
ghost use Rattle.rep_state.specs.Tables.{by_client, rows_of, AreKept, ArePlaces};
ghost use Rattle.rep_state.specs.inner.Tables.{IsRoomier, place_cmp};
ghost use Rattle.rep_state.specs.Interests.{AreMarked};
ghost use Rattle.rep_state.specs.inner.Interests.{AreMarksOf, marks_noted};
ghost use Rattle.rep_state.specs.inner.Groups.{held_of, base_at};
ghost use Rattle.rep_entry.specs.Staging.{staged_of, IsChange, IsReady, AreStaged};
ghost use Rattle.rep_state.specs.inner.Staging.{future, HavePlaces, AreMovable};
ghost use Rattle.rep_entry.specs.Applied.{entry_applied};
ghost use Rattle.rep_state.specs.declared.places.Place.{Place as AtPlace};

use super::places::{Place, enter, mark_place};
use super::table::{Table, copy_octets};
use octets::NoMemory;
use rep_entry::{Change, Entry, marks_of, put_into};
use rep_log::Log;
use rep_ops::ClientId;
use std::alloc::Global;

/// Makes a place for each of the clients. An empty place is seen by no query.
pub(crate) fn make_room(
    alloc: Global,
    table: &mut Table,
    places: &mut Vec<Place>,
    changes: &[(Vec<u8>, Change)],
) -> Result<(), NoMemory>
    requires places { ArePlaces table.old.entries places.old.items }
    requires marks { AreMarked (by_client table.old.entries) places.old.items }
    ensures places { ArePlaces table.new.entries places.new.items }
    ensures marks { AreMarked (by_client table.new.entries) places.new.items }
    ensures roomier { IsRoomier (by_client table.old.entries) (by_client table.new.entries) }
    ensures room { OnOk result (HavePlaces (by_client table.new.entries) (staged_of changes.now)) }
{
    for row in changes {
        add_place(alloc, table, places, row.0.as_slice())?;
    }
    Ok(())
}

/// Makes a place for the client, if there is none.
fn add_place(
    alloc: Global,
    table: &mut Table,
    places: &mut Vec<Place>,
    client: &[u8],
) -> Result<(), NoMemory>
    requires places { ArePlaces table.old.entries places.old.items }
    requires marks { AreMarked (by_client table.old.entries) places.old.items }
    ensures places { ArePlaces table.new.entries places.new.items }
    ensures marks { AreMarked (by_client table.new.entries) places.new.items }
    ensures roomier { IsRoomier (by_client table.old.entries) (by_client table.new.entries) }
    ensures there { OnOk result
        (IsSome (find client_cmp client.now (rows_of (by_client table.new.entries)))) }
{
    if table.contains_key(client) {
        return Ok(());
    }
    places.reserve(1)?;
    let name = named(alloc, client)?;
    let key = copy_octets(alloc, client)?;
    let index = table.len();
    drop(table.insert(key, Entry::empty(alloc))?);
    enter(
        places,
        Place {
            name,
            index,
            marks: 0,
        },
    );
    Ok(())
}

/// The client of these octets. Some client has them, so nothing but memory can be wanting.
pub(crate) fn named(alloc: Global, client: &[u8]) -> Result<ClientId, NoMemory>
    ensures { IfOk result (λ name. name ≡ client.now) }
{
    match ClientId::new(alloc, client) {
        Ok(name) => Ok(name),
        Err(_) => Err(NoMemory),
    }
}

/// Moves the changes into their places, and notes what their clients may ask for.
pub(crate) fn install_changes(
    table: &mut Table,
    places: &mut Vec<Place>,
    mut changes: Vec<(Vec<u8>, Change)>,
)
    requires staged { AreStaged (staged_of changes.items) }
    requires movable { AreMovable (by_client table.old.entries) (staged_of changes.items) }
    requires kept { AreKept (by_client table.old.entries) }
    requires places { ArePlaces table.old.entries places.old.items }
    requires marks { AreMarked (by_client table.old.entries) places.old.items }
    ensures rows { rows_of (by_client table.new.entries)
        ≡ rows_with (rows_of (by_client table.old.entries))
        (rows_of (future (by_client table.old.entries) (staged_of changes.items))) }
    ensures kept { AreKept (by_client table.new.entries) }
    ensures places { ArePlaces table.new.entries places.new.items }
    ensures marks { AreMarked (by_client table.new.entries) places.new.items }
{
    while let Some((client, change)) = changes.pop() {
        let marks = marks_with(&change.log);
        move_one(table, client.as_slice(), change);
        note_marks(places, client.as_slice(), marks);
    }
}

/// The marks of what a client may ask for with a log, where one is staged.
fn marks_with(log: &Option<Log>) -> Option<u64>
    ensures { AreMarksOf log.now result }
{
    match log {
        Some(log) => Some(marks_of(&log.session)),
        None => None,
    }
}

/// Notes the marks of what a client may ask for, where there are any.
fn note_marks(places: &mut Vec<Place>, client: &[u8], marks: Option<u64>)
    requires { IsTrue (is_ascending place_cmp places.old.items) }
    ensures { places.new.items ≡ marks_noted client.now marks places.old.items }
{
    if let Some(marks) = marks {
        mark_place(places, client, marks);
    }
}

/// Puts the change in the client's place.
fn move_one(table: &mut Table, client: &[u8], change: Change)
    requires change { IsChange change }
    requires kept { AreKept (by_client table.old.entries) }
    requires ready { IsReady
        (is_some (find client_cmp client.now (by_client table.old.entries)))
        client.now
        (base_at client.now (by_client table.old.entries))
        change }
    ensures put { by_client table.new.entries
        ≡ put client_cmp client.now
        (entry_applied (held_of client.now (by_client table.old.entries)) change)
        (by_client table.old.entries) }
    ensures places { (places : List AtPlace)
        → ArePlaces table.old.entries places → ArePlaces table.new.entries places }
{
    match table.get_mut(client) {
        Some(place) => put_into(place, change),
        None => unreachable!(),
    }
}
