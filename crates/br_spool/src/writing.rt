//! Readings as a delta.

ghost use Rattle.std.specs.Prelude.{◌≡◌, ◌-◌, ◌++◌, map, IfOk, OnOk};
ghost use Rattle.rep_ops.specs.Making.{IsDeltaOf};
ghost use Rattle.br_spool.specs.Messages as spec;

use crate::fault::SpoolFault;
use crate::place::{SPOOL, number_seq, queue_client, queue_of};
use br_core::Item;
use rep_op::{Op, OpsFault, Put};
use rep_ops::Delta;
use sn_session::Message;
use sn_tables::QosLevel;
use sn_topic::{TopicFault, TopicName};
use std::alloc::Global;

/// The topic of a message.
fn topic_of(alloc: Global, topic: &[u8]) -> Result<TopicName, SpoolFault>
    ensures { IfOk result (λ name. name ≡ topic.now) }
{
    match TopicName::new(alloc, topic) {
        Ok(name) => Ok(name),
        Err(TopicFault::Memory) => Err(SpoolFault::Memory),
        Err(_) => Err(SpoolFault::Reading),
    }
}

/// The message that a reading is.
fn item_message(alloc: Global, item: &Item) -> Result<Put, SpoolFault>
    ensures { IfOk result (λ put. put ≡ spec.item_message item.now) }
{
    let Some(body) = Message::new(item.body.copied(alloc)?) else {
        return Err(SpoolFault::Reading);
    };
    Ok(Put {
        origin: SPOOL,
        seq: number_seq(item.number),
        topic: topic_of(alloc, item.topic.as_slice())?,
        qos: QosLevel::one(),
        retain: item.retain,
        expires: 0,
        body,
    })
}

/// The operation that puts a reading into the journal.
fn item_put(alloc: Global, item: &Item) -> Result<Op, SpoolFault>
    ensures { IfOk result (λ op. op ≡ spec.item_put item.now) }
{
    let put = item_message(alloc, item)?;
    let client = queue_client(alloc, queue_of(item.number))?;
    Ok(Op::Put { client, put })
}

/// The operation that acknowledges the reading of a number.
fn number_ack(alloc: Global, number: u64) -> Result<Op, SpoolFault>
    ensures { IfOk result (λ op. op ≡ spec.number_ack number) }
{
    let seq = number_seq(number);
    Ok(Op::Ack {
        client: queue_client(alloc, queue_of(number))?,
        origin: SPOOL,
        first: seq,
        last: seq,
    })
}

/// Appends readings as messages.
fn put_all(alloc: Global, items: &[Item], ops: &mut Vec<Op>) -> Result<(), SpoolFault>
    ensures { OnOk result (ops.new.items ≡ ops.old.items ++ map spec.item_put items.now) }
{
    for item in items {
        ops.push(item_put(alloc, item)?)?;
    }
    Ok(())
}

/// Appends acknowledgements of readings.
fn ack_all(alloc: Global, numbers: &[u64], ops: &mut Vec<Op>) -> Result<(), SpoolFault>
    ensures { OnOk result (ops.new.items ≡ ops.old.items ++ map spec.number_ack numbers.now) }
{
    for number in numbers {
        ops.push(number_ack(alloc, *number)?)?;
    }
    Ok(())
}

/// Whether a reading of this number is among these.
fn is_item_among(number: u64, items: &[Item]) -> bool
    ensures { result ≡ spec.is_item_among number items.now }
{
    items.iter().any(|item| item.number == number)
}

/// Appends the acknowledgement of a number, unless it is that of a reading.
fn ack_other(
    alloc: Global,
    number: u64,
    items: &[Item],
    ops: &mut Vec<Op>,
) -> Result<(), SpoolFault>
    ensures { OnOk result (ops.new.items ≡ ops.old.items
        ++ map spec.number_ack (spec.other_number number items.now)) }
{
    if is_item_among(number, items) {
        return Ok(());
    }
    ops.push(number_ack(alloc, number)?)?;
    Ok(())
}

/// Appends acknowledgements of all numbers from one on, below another one, but those of readings.
fn ack_others(
    alloc: Global,
    from: u64,
    below: u64,
    items: &[Item],
    ops: &mut Vec<Op>,
) -> Result<(), SpoolFault>
    ensures { OnOk result (ops.new.items ≡ ops.old.items
        ++ map spec.number_ack (spec.others_from from (below - from) items.now)) }
{
    for number in from..below {
        ack_other(alloc, number, items, ops)?;
    }
    Ok(())
}

/// The delta that puts these readings into the journal, which have numbers from one on, below
/// another one. It acknowledges the readings of these numbers, which the spool need not keep, and
/// all numbers in between that are of no reading: so a queue has no gaps.
///
/// `Reading` for a reading whose topic has more than 256 octets or a wildcard, or that has more
/// than 4,096 octets; `Delta` where two have one number, or they have more than 8 MiB together.
pub fn delta_of(
    alloc: Global,
    from: u64,
    below: u64,
    items: &[Item],
    numbers: &[u64],
) -> Result<Delta, SpoolFault>
    ensures { IfOk result (λ delta. IsDeltaOf
        (spec.spool_ops from below items.now numbers.now) delta) }
{
    let mut ops = Vec::new(alloc);
    put_all(alloc, items, &mut ops)?;
    ack_all(alloc, numbers, &mut ops)?;
    ack_others(alloc, from, below, items, &mut ops)?;
    match Delta::from_ops(alloc, ops) {
        Ok(delta) => Ok(delta),
        Err(OpsFault::Memory) => Err(SpoolFault::Memory),
        Err(_) => Err(SpoolFault::Delta),
    }
}
