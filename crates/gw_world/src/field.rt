//! One event in a field of gateways.

ghost use Rattle.std.specs.Prelude.{◌≡◌, ◌<◌, List, MatchOption, true, false, Ok, IfOk, OnOk, IfSome, length, map, vec_len};
ghost use Rattle.std.specs.List.{AllByRecursion};
ghost use Rattle.rep_model.specs.Views as spec;
ghost use Rattle.gw_answer.specs.declared.refusal.Refusal.TheVariants as refusals;
ghost use Rattle.gw_node.specs.Parts.{state_of, disk_of, records_of};
ghost use Rattle.gw_answer.specs.Answers.{refusal_of_fault, said};
ghost use Rattle.gw_answer.specs.declared.step.Step.TheVariants as steps;
ghost use Rattle.gw_world.specs.inner.Events.{IsFed, GoesOn, StartsAgain, FailsNext, IsStood, AnswersDigest, IsNoDigest, AskKept, IsListed, place_in, Moves, StepsAt};
ghost use Rattle.rep_op.specs.declared.op.Op.{Op};
ghost use Rattle.gw_world.specs.Field.{shown};

use gw_node::{Node, NodeFault, Out};
use jr_journal::MemoryDisk;
use octets::{NoMemory, Sequence};
use rep_digest::Digest;
use rep_model::{ClientView, Replica};
use rep_ops::{ClientId, Delta};
use sn_local::Addr;
use std::alloc::Global;
use std::sync::Arc;

/// The place of the gateway of this number.
pub fn place_of<R: Replica>(nodes: &[Node<R, MemoryDisk>], number: u8) -> Option<usize>
    ensures place { result ≡ place_in number 0 (map (λ node. state_of R.kept node) nodes.now) }
    ensures within { IfSome result (λ place. place < length nodes.now) }
{
    for place in 0..nodes.len() {
        if nodes[place].gateway() == number {
            return Some(place);
        }
    }
    None
}

/// The delta of this number; the first has number 1.
pub fn delta_at(deltas: &[Delta], number: u64) -> Option<&Delta>
    ensures { MatchOption result ((ops : List Op) → IsListed deltas.now number ops
        → ⊥) (λ delta. IsListed deltas.now number delta.now) }
{
    if number == 0 {
        return None;
    }
    deltas.get((number - 1) as usize)
}

/// An answer, unless memory ran out.
pub fn unless_memory(
    answer: Result<Arc<Out>, NodeFault>,
) -> Result<Result<Arc<Out>, NodeFault>, NoMemory>
    ensures same { IfOk result (λ given. said given ≡ said answer) }
    ensures memory { OnOk result (IsFed (said answer)) }
{
    match answer {
        Ok(out) => Ok(Ok(out)),
        Err(NodeFault::Memory) => Err(NoMemory),
        Err(fault) => Ok(Err(fault)),
    }
}

/// The answer of a gateway, unless memory ran out, in it or in its disk.
fn unless_starved<R: Replica>(
    node: &Node<R, MemoryDisk>,
    answer: Result<Arc<Out>, NodeFault>,
) -> Result<Result<Arc<Out>, NodeFault>, NoMemory>
    ensures same { IfOk result (λ given. said given ≡ said answer) }
    ensures memory { OnOk result (IsFed (said answer)) }
    ensures fed { OnOk result ((disk_of node.now).starved ≡ false) }
{
    if node.starved() {
        return Err(NoMemory);
    }
    unless_memory(answer)
}

/// A datagram comes to a gateway.
fn frame_to<R: Replica>(
    alloc: Global,
    node: &mut Node<R, MemoryDisk>,
    from: Addr,
    bytes: &[u8],
    now: u64,
) -> Result<Result<Arc<Out>, NodeFault>, NoMemory>
    ensures { IfOk result (λ answer. GoesOn (state_of R.kept node.old)
        (steps.Frame from bytes.now now) (said answer) (state_of R.kept node.new)) }
{
    let answer = node.frame(alloc, from, bytes, now);
    unless_starved(node, answer)
}

/// Time goes by at a gateway.
fn tick_to<R: Replica>(
    alloc: Global,
    node: &mut Node<R, MemoryDisk>,
    now: u64,
) -> Result<Result<Arc<Out>, NodeFault>, NoMemory>
    ensures { IfOk result (λ answer. GoesOn (state_of R.kept node.old) (steps.Tick now)
        (said answer) (state_of R.kept node.new)) }
{
    let answer = node.tick(alloc, now);
    unless_starved(node, answer)
}

/// A delta comes to a gateway.
fn take_to<R: Replica>(
    alloc: Global,
    node: &mut Node<R, MemoryDisk>,
    delta: &Delta,
) -> Result<Result<Arc<Out>, NodeFault>, NoMemory>
    ensures { IfOk result (λ answer. GoesOn (state_of R.kept node.old) (steps.Take delta.now)
        (said answer) (state_of R.kept node.new)) }
{
    let answer = node.take(alloc, delta);
    unless_starved(node, answer)
}

/// The journal of a gateway is written anew.
fn compact_in<R: Replica>(
    alloc: Global,
    node: &mut Node<R, MemoryDisk>,
) -> Result<Result<Arc<Out>, NodeFault>, NoMemory>
    ensures { IfOk result (λ answer. GoesOn (state_of R.kept node.old) steps.Compact
        (said answer) (state_of R.kept node.new)) }
{
    let answer = node.compact(alloc);
    unless_starved(node, answer)
}

/// The next write of a gateway is to fail.
fn fail_in<R: Replica>(node: &mut Node<R, MemoryDisk>, bytes: u64, sync: bool)
    ensures { FailsNext (state_of R.kept node.old) bytes sync (state_of R.kept node.new) }
{
    node.fail_next(bytes as usize, sync);
}

/// A datagram comes to the gateway in this place.
pub fn frame_at<R: Replica>(
    alloc: Global,
    nodes: &mut Vec<Node<R, MemoryDisk>>,
    place: usize,
    from: Addr,
    bytes: &[u8],
    now: u64,
) -> Result<Result<Arc<Out>, NodeFault>, NoMemory>
    requires { place < vec_len nodes.old }
    ensures { IfOk result (λ answer. StepsAt (map (λ node. state_of R.kept node) nodes.old.items)
        place (steps.Frame from bytes.now now) (said answer) (map (λ node. state_of R.kept node)
        nodes.new.items)) }
{
    let node = &mut nodes[place];
    frame_to(alloc, node, from, bytes, now)
}

/// Time goes by at the gateway in this place.
pub fn tick_at<R: Replica>(
    alloc: Global,
    nodes: &mut Vec<Node<R, MemoryDisk>>,
    place: usize,
    now: u64,
) -> Result<Result<Arc<Out>, NodeFault>, NoMemory>
    requires { place < vec_len nodes.old }
    ensures { IfOk result (λ answer. StepsAt (map (λ node. state_of R.kept node) nodes.old.items)
        place (steps.Tick now) (said answer) (map (λ node. state_of R.kept node) nodes.new.items)) }
{
    let node = &mut nodes[place];
    tick_to(alloc, node, now)
}

/// A delta comes to the gateway in this place.
pub fn take_at<R: Replica>(
    alloc: Global,
    nodes: &mut Vec<Node<R, MemoryDisk>>,
    place: usize,
    delta: &Delta,
) -> Result<Result<Arc<Out>, NodeFault>, NoMemory>
    requires { place < vec_len nodes.old }
    ensures { IfOk result (λ answer. StepsAt (map (λ node. state_of R.kept node) nodes.old.items)
        place (steps.Take delta.now) (said answer) (map (λ node. state_of R.kept node)
        nodes.new.items)) }
{
    let node = &mut nodes[place];
    take_to(alloc, node, delta)
}

/// The journal of the gateway in this place is written anew.
pub fn compact_at<R: Replica>(
    alloc: Global,
    nodes: &mut Vec<Node<R, MemoryDisk>>,
    place: usize,
) -> Result<Result<Arc<Out>, NodeFault>, NoMemory>
    requires { place < vec_len nodes.old }
    ensures { IfOk result (λ answer. StepsAt (map (λ node. state_of R.kept node) nodes.old.items)
        place steps.Compact (said answer) (map (λ node. state_of R.kept node) nodes.new.items)) }
{
    let node = &mut nodes[place];
    compact_in(alloc, node)
}

/// The next write of the gateway in this place is to fail.
pub fn fail_at<R: Replica>(
    nodes: &mut Vec<Node<R, MemoryDisk>>,
    place: usize,
    bytes: u64,
    sync: bool,
)
    requires { place < vec_len nodes.old }
    ensures { Moves (map (λ node. state_of R.kept node) nodes.old.items) place
        (λ old new. FailsNext old bytes sync new) (map (λ node. state_of R.kept node)
        nodes.new.items) }
{
    let node = &mut nodes[place];
    fail_in(node, bytes, sync)
}

/// What is said where a call was refused for want of memory.
pub(crate) fn want_of_memory(fault: NodeFault) -> NoMemory
    requires { refusal_of_fault fault ≡ refusals.Memory }
{
    let want = match &fault {
        NodeFault::Memory => NoMemory,
        NodeFault::Frame { .. } | NodeFault::Halted | NodeFault::Disk { .. } => unreachable!(),
        NodeFault::Conflict { .. } | NodeFault::Full | NodeFault::Exhausted => unreachable!(),
        NodeFault::Journal { .. } => unreachable!(),
    };
    drop(fault);
    want
}

/// A gateway stops, with so many bytes of each slot left that were not synced, and is opened again.
///
/// What a crash leaves of its disk stands for a set, and no journal is begun, so a failure that is
/// arranged is not met. So nothing refuses the opening but want of memory.
fn open_again<R: Replica>(
    alloc: Global,
    node: Node<R, MemoryDisk>,
    left: u64,
) -> Result<Node<R, MemoryDisk>, NoMemory>
    requires { IsStood (state_of R.kept node) }
    ensures { IfOk result (λ new. StartsAgain (state_of R.kept node) left (records_of new)
        (state_of R.kept new)) }
{
    let (config, mut disk) = node.into_parts();
    disk.crash(left as usize);
    match Node::open(alloc, config, disk) {
        Ok(opened) => {
            if opened.starved() {
                drop(opened);
                return Err(NoMemory);
            }
            Ok(opened)
        }
        Err((disk, fault)) => {
            if disk.starved() {
                drop(disk);
                drop(fault);
                return Err(NoMemory);
            }
            drop(disk);
            Err(want_of_memory(fault))
        }
    }
}

/// The gateway in this place stops, with so many bytes of each slot left that were not synced, and
/// is opened again: how many records it reads then.
pub fn restart_at<R: Replica>(
    alloc: Global,
    nodes: &mut Vec<Node<R, MemoryDisk>>,
    place: usize,
    left: u64,
) -> Result<u64, NoMemory>
    requires place { place < vec_len nodes.old }
    requires stood { AllByRecursion IsStood (map (λ node. state_of R.kept node) nodes.old.items) }
    ensures { IfOk result (λ count. Moves (map (λ node. state_of R.kept node) nodes.old.items)
        place (λ old new. StartsAgain old left count new) (map (λ node. state_of R.kept node)
        nodes.new.items)) }
{
    let old = nodes.remove(place);
    let node = open_again(alloc, old, left)?;
    let count = node.records();
    nodes.insert(place, node)?;
    Ok(count)
}

/// What a peer answers to a digest.
fn answer_of<R: Replica>(
    alloc: Global,
    peer: &Node<R, MemoryDisk>,
    digest: &Digest,
) -> Result<Arc<Out>, NoMemory>
    ensures { IfOk result (λ out.
        AnswersDigest digest.now (state_of R.kept peer.now).kept (said (Ok out))) }
{
    match peer.answer(alloc, digest) {
        Ok(out) => Ok(out),
        Err(fault) => Err(want_of_memory(fault)),
    }
}

/// What is said where there is no digest: it is too long, unless memory ran out.
fn too_long(fault: &NodeFault) -> Result<NodeFault, NoMemory>
    requires { IsNoDigest (refusal_of_fault fault.now) }
    ensures { IfOk result (λ given. (refusal_of_fault fault.now ≡ refusals.Full)
        × (refusal_of_fault given ≡ refusals.Full)) }
{
    match fault {
        NodeFault::Full => Ok(NodeFault::Full),
        NodeFault::Memory => Err(NoMemory),
        NodeFault::Frame { .. } | NodeFault::Halted | NodeFault::Disk { .. } => unreachable!(),
        NodeFault::Conflict { .. } | NodeFault::Exhausted => unreachable!(),
        NodeFault::Journal { .. } => unreachable!(),
    }
}

/// The digest of a gateway goes to a peer: what that one answers, or why there is no digest.
pub fn ask<R: Replica>(
    alloc: Global,
    asker: &Node<R, MemoryDisk>,
    peer: &Node<R, MemoryDisk>,
) -> Result<Result<Arc<Out>, NodeFault>, NoMemory>
    ensures { IfOk result (λ answer.
        AskKept (state_of R.kept asker.now).kept (state_of R.kept peer.now).kept (said answer)) }
{
    match asker.digest(alloc) {
        Ok(out) => match &out.digest {
            Some(digest) => Ok(Ok(answer_of(alloc, peer, digest)?)),
            None => unreachable!(),
        },
        Err(fault) => Ok(Err(too_long(&fault)?)),
    }
}

/// The view of a client that a gateway knows.
fn view_of<R: Replica>(
    alloc: Global,
    node: &Node<R, MemoryDisk>,
    client: &ClientId,
) -> Result<ClientView, NoMemory>
    requires { spec.is_named client.now (state_of R.kept node.now).kept ≡ true }
    ensures { IfOk result (λ seen. seen ≡ spec.view client.now (state_of R.kept node.now).kept) }
{
    match node.view(alloc, client) {
        Ok(out) => match &out.view {
            Some(view) => Ok(view.copied(alloc)?),
            None => unreachable!(),
        },
        Err(fault) => Err(want_of_memory(fault)),
    }
}

/// What a gateway knows.
pub fn show_at<R: Replica>(
    alloc: Global,
    node: &Node<R, MemoryDisk>,
) -> Result<Sequence<(ClientId, ClientView)>, NoMemory>
    ensures { IfOk result (λ views. views ≡ shown (state_of R.kept node.now).kept) }
{
    let clients = node.clients(alloc)?;
    let mut views = Vec::new(alloc);
    for client in clients {
        let view = view_of(alloc, node, &client)?;
        views.push((client, view))?;
    }
    Ok(Sequence::new(views))
}
