//! What of a delta is new.

ghost use Rattle.std.specs.Prelude.{◌≡◌, ◌⊎◌, ◌++◌, ◌∷◌, [], true, not, filter, List, IfOk, OnOk, IfErr};
ghost use Rattle.std.specs.List.{list_any};
ghost use Rattle.rep_op.specs.Orders.{is_of_client, AreOfClients, subject_of};
ghost use Rattle.rep_op.specs.Sets.{Agrees};
ghost use Rattle.rep_model.specs.Taking.{AllAgree, IsFaultOf};
ghost use Rattle.rep_shared.specs.Rows.{flat};
ghost use Rattle.rep_shared.specs.inner.Rows.{AreRows};
ghost use Rattle.rep_plain.specs.Tables.{rows_of};
ghost use Rattle.rep_plain.specs.inner.Tables.{one_new};
ghost use Rattle.rep_plain.specs.inner.Tables as spec;
ghost use Rattle.rep_shared.specs.inner.Tables.{IsRefusalOf};

use super::reading::{agrees, operation_at, put_at};
use super::table::{Table, own_ops};
use octets::NoMemory;
use rep_model::TakeFault;
use rep_ops::{ClientId, Op};
use std::alloc::Global;

/// The operations of a delta that are not there yet, if none contradicts what is there.
pub(crate) fn news(alloc: Global, table: &Table, delta: &[Op]) -> Result<Vec<Op>, TakeFault>
    requires rows { AreRows (rows_of table.now.entries) }
    requires clients { AreOfClients delta.now }
    ensures agree { OnOk result (AllAgree (flat (rows_of table.now.entries)) delta.now) }
    ensures news { IfOk result (λ news. news.items
        ≡ filter (λ op. not (spec.is_op_there (flat (rows_of table.now.entries)) op)) delta.now) }
    ensures fault { IfErr result (IsFaultOf (flat (rows_of table.now.entries)) delta.now) }
{
    let mut news = Vec::new(alloc);
    for op in delta {
        add_new(alloc, table, &mut news, op)?;
    }
    Ok(news)
}

/// Puts an operation after the others, if it is not there yet and contradicts nothing.
fn add_new(alloc: Global, table: &Table, news: &mut Vec<Op>, op: &Op) -> Result<(), TakeFault>
    requires rows { AreRows (rows_of table.now.entries) }
    requires client { is_of_client op.now ≡ true }
    ensures agrees { OnOk result (Agrees (flat (rows_of table.now.entries)) op.now) }
    ensures added { OnOk result (news.new.items ≡ news.old.items ++ one_new
        (flat (rows_of table.now.entries)) op.now) }
    ensures fault { IfErr result (IsRefusalOf (flat (rows_of table.now.entries)) op.now) }
{
    let kept = own_ops(table, op.client());
    if !agrees(kept, op) {
        return Err(conflict(alloc, op));
    }
    if !is_op_there(kept, op) {
        push_copy(alloc, news, op)?;
    }
    Ok(())
}

/// The refusal of a delta with an operation that contradicts another.
fn conflict(alloc: Global, op: &Op) -> TakeFault
    ensures { (result ≡ TakeFault.Conflict (subject_of op.now)) ⊎ (result ≡ TakeFault.Memory) }
{
    match op.subject(alloc) {
        Ok(of) => TakeFault::Conflict { of },
        Err(_) => TakeFault::Memory,
    }
}

/// Whether the operation's name is there.
fn is_op_there(ops: &[Op], op: &Op) -> bool
    ensures { result ≡ spec.is_op_there ops.now op.now }
{
    match op {
        Op::Session {
            client,
            stamp,
            counter,
            ..
        } => operation_at(ops, client, (*stamp, *counter)).is_some(),
        Op::Put { client, put } => put_at(ops, client, (put.seq, put.origin)).is_some(),
        Op::Ack {
            client,
            origin,
            first,
            last,
        } => any_has_range(ops, client, *origin, (*first, *last)),
        Op::Retain { .. } => false,
    }
}

/// Whether the range of acknowledgements lies within one of the operations.
fn any_has_range(ops: &[Op], client: &ClientId, wanted: u8, range: (u64, u64)) -> bool
    ensures { result ≡ list_any (spec.has_range client.now wanted range.0 range.1) ops.now }
{
    ops.iter().any(|op| has_range(client, wanted, range, op))
}

/// Whether the range of acknowledgements lies within the operation.
fn has_range(client: &ClientId, wanted: u8, range: (u64, u64), op: &Op) -> bool
    ensures { result ≡ spec.has_range client.now wanted range.0 range.1 op.now }
{
    match op {
        Op::Ack {
            client: owner,
            origin,
            first,
            last,
        } => client == owner && wanted == *origin && *first <= range.0 && range.1 <= *last,
        _ => false,
    }
}

/// Puts an equal operation after the others.
pub(crate) fn push_copy(alloc: Global, ops: &mut Vec<Op>, op: &Op) -> Result<(), NoMemory>
    ensures { OnOk result (ops.new.items ≡ ops.old.items ++ op.now ∷ []) }
{
    ops.push(op.copied(alloc)?)?;
    Ok(())
}
