//! The plan of a step.

ghost use Rattle.std.specs.Prelude.{◌≡◌, ◌++◌, [], map, option_and_then, IfOk};
ghost use Rattle.std.specs.Option.{option_map};
ghost use Rattle.rep_model.specs.Views.{view};
ghost use Rattle.rep_model.specs.Fresh.{next_clock, next_epoch, next_seq};
ghost use Rattle.sn_plan.specs.Numbering.{start_of, with_puts, with_handed, with_retain, numbered, ack_of, plan_with};
ghost use Rattle.sn_plan.specs.inner.Plans.{Becomes};
ghost use Rattle.sn_local.specs.Seen.{seen_of};
ghost use Rattle.sn_plan.specs.Plans.{GivesPlan};
ghost use Rattle.sn_plan.specs.Plans as spec;

use super::draft::{Draft, NewPut, Posted};
use super::numbering::{Origin, Writer, append_acks, number_handed, number_puts, number_retain};
use octets::{NoMemory, Sequence};
use rep_model::Replica;
use rep_model::rep_ops::{ClientId, Op};
use sn_local::{LocalChange, Send, StepFault};
use std::alloc::Global;

/// What a step does. Nothing of it is done yet.
#[derive(Drop)]
pub struct Plan {
    /// The operations, under names that no operation has had.
    pub ops: Sequence<Op>,
    /// The datagrams, in their order.
    pub sends: Sequence<Send>,
    /// The changes of the local state, in their order.
    pub local: Sequence<LocalChange>,
}

/// The parts of a draft that need new numbers.
#[derive(Drop)]
struct Unnumbered {
    /// What the client is handed.
    handed: Vec<Posted>,
    /// What is retained.
    retain: Option<Posted>,
    /// The messages.
    puts: Vec<NewPut>,
}

/// The writer of a client's session operations, at the start of a step.
fn writer_of<R: Replica>(
    alloc: Global,
    gateway: u8,
    replica: &R,
    client: &ClientId,
) -> Result<Writer, NoMemory>
    ensures { IfOk result (λ writer. writer ≡ start_of gateway
        (view client.now (R.kept replica.now)) (next_epoch client.now (R.kept replica.now))) }
{
    let next = replica.next_epoch(client);
    match replica.view_of(client) {
        Some(view) => Writer::start(alloc, gateway, view, next),
        None => Ok(Writer::start_unseen(alloc, next)),
    }
}

/// Appends what is retained, and then the messages.
fn number_posts<R: Replica>(
    gateway: u8,
    expires: u64,
    replica: &R,
    retain: Option<Posted>,
    puts: Vec<NewPut>,
    ops: &mut Vec<Op>,
) -> Result<(), StepFault>
    ensures { Becomes result ops.new.items (option_and_then
        (with_puts gateway expires (λ e. next_seq e gateway (R.kept replica.now)) puts.items)
        (with_retain gateway (λ t. next_clock t (R.kept replica.now)) retain ops.old.items)) }
{
    if let Err(fault) = number_retain(gateway, replica, retain, ops) {
        drop(puts);
        return Err(fault);
    }
    number_puts(gateway, expires, replica, puts, ops)
}

/// Appends what needs new numbers: what the client is handed, what is retained, the messages.
fn number_all<R: Replica>(
    alloc: Global,
    origin: Origin,
    replica: &R,
    client: &ClientId,
    unnumbered: Unnumbered,
    ops: &mut Vec<Op>,
) -> Result<(), StepFault>
    ensures { Becomes result ops.new.items (option_and_then
        (with_puts origin.gateway origin.expires
        (λ e. next_seq e origin.gateway (R.kept replica.now)) unnumbered.puts.items)
        (option_and_then (with_retain origin.gateway (λ t. next_clock t (R.kept replica.now))
        unnumbered.retain)
        (with_handed origin.gateway origin.expires client.now
        (next_seq client.now origin.gateway (R.kept replica.now)) unnumbered.handed.items
        ops.old.items))) }
{
    let Unnumbered {
        handed,
        retain,
        puts,
    } = unnumbered;
    if let Err(fault) = number_handed(alloc, origin, replica, client, handed, ops) {
        drop(retain);
        drop(puts);
        return Err(fault);
    }
    number_posts(origin.gateway, origin.expires, replica, retain, puts, ops)
}

/// The plan once the session operations are written.
fn rest_of<R: Replica>(
    alloc: Global,
    gateway: u8,
    replica: &R,
    client: &ClientId,
    mut ops: Vec<Op>,
    draft: Draft,
) -> Result<Plan, StepFault>
    ensures { GivesPlan result (option_map (plan_with draft)
        (numbered gateway client.now (λ e. next_seq e gateway (R.kept replica.now))
        (λ t. next_clock t (R.kept replica.now)) draft
        (ops.items ++ map (ack_of client.now) draft.acks))) }
{
    let Draft {
        changes: _,
        acks,
        handed,
        retain,
        puts,
        expires,
        sends,
        local,
    } = draft;
    append_acks(alloc, client, acks.as_slice(), &mut ops)?;
    let origin = Origin { gateway, expires };
    let unnumbered = Unnumbered {
        handed,
        retain,
        puts,
    };
    number_all(alloc, origin, replica, client, unnumbered, &mut ops)?;
    Ok(Plan {
        ops: Sequence::new(ops),
        sends: Sequence::new(sends),
        local: Sequence::new(local),
    })
}

/// The plan of a draft for a client. Where the session does not change it is not copied.
#[tactic(auto, unfolding(crate::specs::Numbering::planned))]
pub fn plan_of<R: Replica>(
    alloc: Global,
    gateway: u8,
    replica: &R,
    client: &ClientId,
    mut draft: Draft,
) -> Result<Plan, StepFault>
    ensures { GivesPlan result
        (spec.plan_of gateway client.now (seen_of (R.kept replica.now)) draft) }
{
    if draft.changes_nothing() {
        return rest_of(alloc, gateway, replica, client, Vec::new(alloc), draft);
    }
    let mut writer = match writer_of(alloc, gateway, replica, client) {
        Ok(writer) => writer,
        Err(_) => {
            drop(draft);
            return Err(StepFault::Memory);
        }
    };
    let changes = draft.take_changes(alloc);
    if let Err(fault) = writer.write_all(alloc, gateway, client, changes) {
        drop(writer);
        drop(draft);
        return Err(fault);
    }
    rest_of(alloc, gateway, replica, client, writer.into_ops(), draft)
}

/// The plan of a draft for nobody: of what is retained, messages, frames and local changes.
pub fn plan_of_puts<R: Replica>(
    alloc: Global,
    gateway: u8,
    replica: &R,
    draft: Draft,
) -> Result<Plan, StepFault>
    ensures { GivesPlan result (spec.plan_of_puts gateway (seen_of (R.kept replica.now)) draft) }
{
    let Draft {
        changes: _,
        acks: _,
        handed: _,
        retain,
        puts,
        expires,
        sends,
        local,
    } = draft;
    let mut ops = Vec::new(alloc);
    number_posts(gateway, expires, replica, retain, puts, &mut ops)?;
    Ok(Plan {
        ops: Sequence::new(ops),
        sends: Sequence::new(sends),
        local: Sequence::new(local),
    })
}

/// The plan of a draft without operations.
pub fn plan_without(alloc: Global, draft: Draft) -> Plan
    ensures { result ≡ spec.plan_without draft }
{
    let Draft {
        changes: _,
        acks: _,
        handed: _,
        retain: _,
        puts: _,
        expires: _,
        sends,
        local,
    } = draft;
    Plan {
        ops: Sequence::empty(alloc),
        sends: Sequence::new(sends),
        local: Sequence::new(local),
    }
}
