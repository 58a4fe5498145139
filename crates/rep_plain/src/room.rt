//! Places for fresh clients, and the move into them.

ghost use Rattle.std.specs.Prelude.{◌≡◌, IsSome, OnOk, []};
ghost use Rattle.std.specs.FinMap.{find};
ghost use Rattle.std.specs.Map.{lookup};
ghost use Rattle.std.specs.BTreeMap.{is_at, insert_entry};
ghost use Rattle.rep_op.specs.Orders.{client_cmp};
ghost use Rattle.rep_shared.specs.Rows.{rows_with};
ghost use Rattle.rep_plain.specs.Tables.{rows_of, HaveRoom};
ghost use Rattle.rep_plain.specs.inner.Tables.{IsRoomier, AreMovable};

use super::entry::Entry;
use super::table::Table;
use octets::NoMemory;
use rep_ops::ClientId;
use std::alloc::Global;

/// Makes a place for each of the fresh clients. An empty place is seen by no query.
pub(crate) fn make_room(
    alloc: Global,
    table: &mut Table,
    fresh: &[(ClientId, Entry)],
) -> Result<(), NoMemory>
    ensures roomier { IsRoomier table.old.entries table.new.entries }
    ensures room { OnOk result (HaveRoom (rows_of table.new.entries) (rows_of fresh.now)) }
{
    for row in fresh {
        add_place(alloc, table, &row.0)?;
    }
    Ok(())
}

/// Makes a place for the client, if there is none.
fn add_place(alloc: Global, table: &mut Table, client: &ClientId) -> Result<(), NoMemory>
    ensures roomier { IsRoomier table.old.entries table.new.entries }
    ensures there { OnOk result (IsSome (find client_cmp client.now (rows_of table.new.entries))) }
{
    if !table.contains_key(client) {
        drop(table.insert(client.copied(alloc)?, Entry::empty(alloc))?);
    }
    Ok(())
}

/// Moves the fresh entries into their places.
pub(crate) fn move_in(table: &mut Table, mut fresh: Vec<(ClientId, Entry)>)
    requires { HaveRoom (rows_of table.old.entries) (rows_of fresh.items) }
    ensures rows { rows_of table.new.entries ≡ rows_with (rows_of table.old.entries)
        (rows_of fresh.items) }
    ensures movable { AreMovable table.old.entries fresh.items → AreMovable table.new.entries [] }
{
    while let Some((client, entry)) = fresh.pop() {
        replace(table, client, entry);
    }
}

/// Puts the entry into the client's place.
pub(crate) fn replace(table: &mut Table, client: ClientId, entry: Entry)
    requires { IsSome (lookup (is_at (client_cmp client)) table.old.entries) }
    ensures { table.new.entries ≡ insert_entry client_cmp table.old.entries client entry }
{
    match table.insert(client, entry) {
        Ok(before) => drop(before),
        Err(_) => unreachable!(),
    }
}
