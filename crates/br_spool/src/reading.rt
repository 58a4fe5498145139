//! The readings of deltas.

ghost use Rattle.std.specs.Prelude.{◌≡◌, ◌++◌, Some, IfOk, OnOk};
ghost use Rattle.std.specs.List.{flat_map};
ghost use Rattle.std.specs.List.Sorted.{IsPermutation, IsSortedBy};
ghost use Rattle.std.specs.Ordering.{is_lt, nat_cmp};
ghost use Rattle.br_spool.specs.Finding as spec;
ghost use Rattle.br_spool.specs.Places as places;

use crate::place::{LAST_SEQ, SPOOL, number_at_place, queue_in};
use br_core::Item;
use mq_packet::Qos;
use octets::{NoMemory, Octets};
use rep_op::{ClientId, Op, Put};
use rep_ops::Delta;
use std::alloc::Global;

/// What a spool holds.
#[derive(Drop)]
pub struct Held {
    /// Its readings, in the order of their numbers.
    pub items: Vec<Item>,
    /// A number above those of all readings that it ever held.
    pub next: u64,
}

/// The number of a place of a client's messages of this origin.
fn number_if_own(client: &ClientId, origin: u8, seq: u64) -> Option<u64>
    ensures { result ≡ spec.number_if_own (places.queue_in client.now) origin seq }
{
    let Some(queue) = queue_in(client.bytes()) else {
        return None;
    };
    if origin == SPOOL {
        number_at_place(queue, seq)
    } else {
        None
    }
}

/// The greatest number that an operation can speak of.
fn last_number_in(op: &Op) -> Option<u64>
    ensures { result ≡ spec.last_number_in op.now }
{
    match op {
        Op::Put { client, put } => number_if_own(client, put.origin, put.seq),
        Op::Ack {
            client,
            origin,
            last,
            ..
        } => number_if_own(client, *origin, (*last).min(LAST_SEQ)),
        Op::Session { .. } | Op::Retain { .. } => None,
    }
}

/// The reading of this number that a message is.
fn item_of(alloc: Global, number: u64, put: &Put) -> Result<Item, NoMemory>
    ensures { IfOk result (λ item. Some item ≡ spec.item_at (Some number) put.now) }
{
    Ok(Item {
        number,
        lane: 0,
        topic: Octets::from_slice(alloc, put.topic.bytes())?,
        qos: Qos::One,
        retain: put.retain,
        body: put.body.to_octets(alloc)?,
    })
}

/// The reading that an operation puts into the journal, if it is one.
fn item_in(alloc: Global, op: &Op) -> Result<Option<Item>, NoMemory>
    ensures { IfOk result (λ found. found ≡ spec.item_in op.now) }
{
    let Op::Put { client, put } = op else {
        return Ok(None);
    };
    match number_if_own(client, put.origin, put.seq) {
        None => Ok(None),
        Some(number) => Ok(Some(item_of(alloc, number, put)?)),
    }
}

/// Appends the reading of an operation, if it is one.
fn read_op(alloc: Global, op: &Op, items: &mut Vec<Item>) -> Result<(), NoMemory>
    ensures { OnOk result (items.new.items ≡ items.old.items ++ spec.read op.now) }
{
    match item_in(alloc, op)? {
        None => Ok(()),
        Some(item) => {
            items.push(item)?;
            Ok(())
        }
    }
}

/// Appends the readings of operations.
fn read_into(alloc: Global, ops: &[Op], items: &mut Vec<Item>) -> Result<(), NoMemory>
    ensures { OnOk result (items.new.items ≡ items.old.items ++ flat_map spec.read ops.now) }
{
    for op in ops {
        read_op(alloc, op, items)?;
    }
    Ok(())
}

/// A number above all that an operation speaks of, and above another one.
fn above(next: u64, op: &Op) -> u64
    ensures { result ≡ spec.above next op.now }
{
    match last_number_in(op) {
        None => next,
        Some(number) => next.max(number + 1),
    }
}

/// A number above all that operations speak of, and above another one.
fn above_all(next: u64, ops: &[Op]) -> u64
    ensures { result ≡ spec.above_all next ops.now }
{
    let mut top = next;
    for op in ops {
        top = above(top, op);
    }
    top
}

/// All readings of deltas.
fn items_in(alloc: Global, deltas: &[Delta]) -> Result<Vec<Item>, NoMemory>
    ensures { IfOk result (λ items. items.items ≡ spec.items_in deltas.now) }
{
    let mut items = Vec::new(alloc);
    for delta in deltas {
        read_into(alloc, delta.ops(), &mut items)?;
    }
    Ok(items)
}

/// A number above all that deltas speak of.
fn next_in(deltas: &[Delta]) -> u64
    ensures { result ≡ spec.next_in deltas.now }
{
    let mut next = 0;
    for delta in deltas {
        next = above_all(next, delta.ops());
    }
    next
}

/// Puts readings into the order of their numbers.
fn sort(items: &mut Vec<Item>)
    ensures same { IsPermutation items.old.items items.new.items }
    ensures sorted { IsSortedBy (λ a b. is_lt (nat_cmp a.number b.number)) items.new.items }
{
    items.sort_unstable_by(|a, b| a.number.cmp(&b.number));
}

/// What the deltas of a spool say: the readings that it holds, in the order of their numbers, and a
/// number for the next one. Other messages than its own are passed over.
pub fn held_in(alloc: Global, deltas: &[Delta]) -> Result<Held, NoMemory>
    ensures items { IfOk result
        (λ held. IsPermutation (spec.items_in deltas.now) held.items.items) }
    ensures order { IfOk result
        (λ held. IsSortedBy (λ a b. is_lt (nat_cmp a.number b.number)) held.items.items) }
    ensures next { IfOk result (λ held. held.next ≡ spec.next_in deltas.now) }
{
    let next = next_in(deltas);
    let mut items = items_in(alloc, deltas)?;
    sort(&mut items);
    Ok(Held { items, next })
}
