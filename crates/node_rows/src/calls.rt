//! Calls of the libraries. These functions say nothing of them: what a library promises would stay
//! in view of who makes the call, and no row needs it.

use gw_node::{Answer, Node, NodeFault, Step};
use gw_report::Glimpse;
use gw_shift::{CallFault, CloseFault, Closed, Ended, Pass, Shift};
use jr_journal::{Disk, Journal, JournalFault, MemoryDisk, Slot};
use octets::{NoMemory, Sequence};
use rep_digest::Digest;
use rep_model::{Replica, TakeFault};
use rep_ops::{ClientId, Delta, Op, OpsFault, Retained};
use sn_frame::{Frame, FrameFault};
use sn_local::{Addr, Config};
use sn_topic::{Predefined, TopicName};
use std::alloc::Global;
use std::sync::{Arc, Wait};

/// The client of this name: a copy of it, so that a row that names a client runs that call too.
pub(crate) fn read_client(alloc: Global, name: &[u8]) -> Result<ClientId, OpsFault> {
    match ClientId::new(alloc, name) {
        Ok(client) => copied(alloc, client),
        Err(fault) => Err(fault),
    }
}

/// A copy of a client in its place.
fn copied(alloc: Global, client: ClientId) -> Result<ClientId, OpsFault> {
    let copy = client.copy(alloc);
    drop(client);
    copy
}

/// The delta that octets spell.
pub(crate) fn read_delta(alloc: Global, octets: &[u8]) -> Result<Delta, OpsFault> {
    Delta::decode(alloc, octets)
}

/// The digest that octets spell.
pub(crate) fn read_digest(alloc: Global, octets: &[u8]) -> Result<Digest, OpsFault> {
    Digest::decode(alloc, octets)
}

/// The frame that octets spell.
pub(crate) fn read_frame(alloc: Global, octets: &[u8]) -> Result<Frame, FrameFault> {
    sn_frame::decode(alloc, octets)
}

/// The delta of operations.
pub(crate) fn delta_of(alloc: Global, ops: Vec<Op>) -> Result<Delta, OpsFault> {
    Delta::from_ops(alloc, ops)
}

/// Puts the octets of a delta after those that are there.
pub(crate) fn write_delta(alloc: Global, delta: &Delta, out: &mut Vec<u8>) -> Result<(), OpsFault> {
    delta.encode(alloc, out)
}

/// Puts the octets of a digest after those that are there.
pub(crate) fn write_digest(
    alloc: Global,
    digest: &Digest,
    out: &mut Vec<u8>,
) -> Result<(), OpsFault> {
    digest.encode(alloc, out)
}

/// What a gateway of this number is told that knows no topic id beforehand: a copy of it, so that
/// each opening runs that call too. Nothing if memory ran out.
pub(crate) fn told(
    alloc: Global,
    gateway: u8,
    advertise: u16,
    field: Sequence<Addr>,
) -> Option<Config> {
    match no_predefined(alloc) {
        Some(predefined) => {
            let config = Config {
                gateway,
                advertise,
                lifetime: 0,
                field,
                predefined,
            };
            told_again(alloc, config)
        }
        None => {
            drop(field);
            None
        }
    }
}

/// A copy of what a gateway is told in its place; nothing if memory ran out.
fn told_again(alloc: Global, config: Config) -> Option<Config> {
    let copy = config.copy(alloc).ok();
    drop(config);
    copy
}

/// The octets that stand in a slot; nothing if memory ran out.
pub(crate) fn slot_octets(alloc: Global, disk: &mut MemoryDisk, slot: Slot) -> Option<Vec<u8>> {
    let size = disk.len(slot).ok()?;
    let octets = vec![in alloc; 0u8; size].ok()?;
    filled(disk, slot, octets)
}

/// The octets from the beginning of a slot on, in place of these.
fn filled(disk: &mut MemoryDisk, slot: Slot, octets: Vec<u8>) -> Option<Vec<u8>> {
    let mut octets = octets;
    match disk.read_at(slot, 0, &mut octets) {
        Ok(()) => Some(octets),
        Err(_) => {
            drop(octets);
            None
        }
    }
}

/// No topic id is known beforehand; nothing if memory ran out.
pub(crate) fn no_predefined(alloc: Global) -> Option<Predefined> {
    Predefined::new(alloc, Vec::new(alloc)).ok()
}

/// A gateway is opened.
pub(crate) fn open_node<R: Replica>(
    alloc: Global,
    config: Config,
    disk: MemoryDisk,
) -> Result<Node<R, MemoryDisk>, (MemoryDisk, NodeFault)> {
    Node::open(alloc, config, disk)
}

/// The call of the method that a call as a value stands for.
pub(crate) fn call<R: Replica>(
    alloc: Global,
    node: &mut Node<R, MemoryDisk>,
    step: &Step,
) -> Answer {
    match step {
        Step::Frame { from, bytes, now } => node.frame(alloc, *from, bytes.as_slice(), *now),
        Step::Tick { now } => node.tick(alloc, *now),
        Step::Compact => node.compact(alloc),
        Step::Reopen => node.reopen(alloc),
        step => look(alloc, node, step),
    }
}

/// The same of the calls that bring or ask for what gateways tell one another.
fn look<R: Replica>(alloc: Global, node: &mut Node<R, MemoryDisk>, step: &Step) -> Answer {
    match step {
        Step::Take { delta } => node.take(alloc, delta),
        Step::View { client } => node.view(alloc, client),
        Step::Answer { digest } => node.answer(alloc, digest),
        _ => node.digest(alloc),
    }
}

/// A call as a value, with its answer three times.
pub(crate) fn call_thrice<R: Replica>(
    alloc: Global,
    node: &mut Node<R, MemoryDisk>,
    step: &Step,
) -> (Answer, Answer, Answer) {
    node.step(alloc, step)
}

/// The answer with a client's view.
pub(crate) fn view<R: Replica>(
    alloc: Global,
    node: &Node<R, MemoryDisk>,
    client: &ClientId,
) -> Answer {
    node.view(alloc, client)
}

/// What a gateway retains of each topic.
pub(crate) fn retained<R: Replica>(
    alloc: Global,
    node: &Node<R, MemoryDisk>,
) -> Result<Vec<(TopicName, Retained)>, NoMemory> {
    node.retained(alloc)
}

/// The clients that a gateway knows.
pub(crate) fn clients<R: Replica>(
    alloc: Global,
    node: &Node<R, MemoryDisk>,
) -> Result<Vec<ClientId>, NoMemory> {
    node.clients(alloc)
}

/// The clients above these octets at a glance, at most so many.
pub(crate) fn glimpses<R: Replica>(
    alloc: Global,
    node: &Node<R, MemoryDisk>,
    above: &[u8],
    most: usize,
) -> Result<Vec<Glimpse>, NoMemory> {
    node.glance(alloc, above, most)
}

/// How many messages of a gateway are known for a client.
pub(crate) fn messages_known<R: Replica>(
    node: &Node<R, MemoryDisk>,
    client: &ClientId,
    origin: u8,
) -> u64 {
    node.messages_known(client, origin)
}

/// The deltas of the calls of a shift above a number, at most so many.
pub(crate) fn after<W: Wait, R: Replica>(
    rt: &W,
    alloc: Global,
    shift: &Shift<R, MemoryDisk>,
    pass: &Pass,
    number: u64,
    most: usize,
) -> Result<Vec<(u64, Delta)>, CallFault> {
    shift.after(rt, alloc, pass, number, most)
}

/// A call to be shared; nothing if memory ran out.
pub(crate) fn shared_step(alloc: Global, step: Step) -> Option<Arc<Step>> {
    match Arc::new(alloc, step) {
        Ok(shared) => Some(shared),
        Err(refused) => {
            drop(refused);
            None
        }
    }
}

/// A shift is over.
pub(crate) fn over<R: Replica>(shift: Shift<R, MemoryDisk>) -> Ended<R, MemoryDisk> {
    shift.end()
}

/// A shift that is over is closed with passes, or comes back with them.
pub(crate) fn close_by<R: Replica>(
    over: Ended<R, MemoryDisk>,
    passes: Vec<Pass>,
) -> Result<Closed<R, MemoryDisk>, (Ended<R, MemoryDisk>, Vec<Pass>, CloseFault)> {
    over.close(passes)
}

/// A journal is opened on a disk.
pub(crate) fn open_journal(
    alloc: Global,
    disk: MemoryDisk,
    gateway: u8,
) -> Result<(Journal<MemoryDisk>, Vec<Delta>), (MemoryDisk, JournalFault)> {
    Journal::open(alloc, disk, gateway)
}

/// A delta is a new record of a journal.
pub(crate) fn append(
    alloc: Global,
    journal: &mut Journal<MemoryDisk>,
    delta: &Delta,
) -> Result<(), JournalFault> {
    journal.append(alloc, delta)
}

/// A replica takes a delta.
pub(crate) fn take_delta<R: Replica>(
    alloc: Global,
    replica: &mut R,
    delta: &Delta,
) -> Result<(), TakeFault> {
    match replica.prepare(alloc, delta) {
        Ok(staged) => {
            replica.commit(staged);
            Ok(())
        }
        Err(fault) => Err(fault),
    }
}

/// The digest of what a replica has.
pub(crate) fn digest_of<R: Replica>(alloc: Global, replica: &R) -> Result<Digest, OpsFault> {
    rep_digest::digest_of(alloc, replica)
}

/// A replica's answer to a digest.
pub(crate) fn answer_to<R: Replica>(
    alloc: Global,
    replica: &R,
    asked: &Digest,
) -> Result<Vec<Delta>, OpsFault> {
    rep_answer::answer(alloc, replica, asked)
}

/// All that a replica holds; nothing if memory ran out.
pub(crate) fn held_by<R: Replica>(alloc: Global, replica: &R) -> Option<Vec<Delta>> {
    replica.held(alloc).ok()
}
