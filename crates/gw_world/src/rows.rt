//! Calls that come to a gateway together.
//!
//! The node writes the first ones of them at once, and says how many. The others are asked for
//! again. A failure of the disk comes with the first write, so where it comes, no call of the event
//! was written before. The node leaves a call out of a write only where memory runs out. So where
//! the write failed and a call is left, the event has no answer: which deltas were refused would not
//! follow from the calls.

ghost use Rattle.std.specs.Prelude.{◌≡◌, ◌⊎◌, ◌++◌, ◌<◌, ◌≤◌, false, IfOk, OnOk, IfErr, length, map, vec_len};
ghost use Rattle.std.specs.List.{AllByRecursion};
ghost use Rattle.std.specs.Arc.{arc_value};
ghost use Rattle.gw_event.specs.Together.{CanWrite};
ghost use Rattle.gw_node.specs.Parts.{state_of};
ghost use Rattle.gw_answer.specs.Answers.{said};
ghost use Rattle.gw_world.specs.Field.{IsStepOf, AreStepsOf};
ghost use Rattle.gw_world.specs.inner.Events.{IsFed, IsNoFailure, listing, CallMissing, CallsMissing, GoesTogether, RowDone, RowAt};

use super::event::Call;
use super::field::{delta_at, unless_memory};
use super::world::WorldFault;
use gw_answer::one_share;
use gw_node::{Node, NodeFault, Out, Refusal, Reply, Step};
use jr_journal::MemoryDisk;
use octets::NoMemory;
use rep_model::Replica;
use rep_ops::Delta;
use std::alloc::Global;
use std::sync::Arc;

/// A call as the node is asked it: a delta of the list goes by its number. Events are numbered.
fn step_of(alloc: Global, deltas: &[Delta], call: &Call, number: u64) -> Result<Step, WorldFault>
    ensures ok { IfOk result (IsStepOf (listing deltas.now) call.now) }
    ensures err { IfErr result (CallMissing deltas.now call.now number) }
{
    match call {
        Call::Frame { from, bytes, now } => Ok(Step::Frame {
            from: *from,
            bytes: bytes.copied(alloc)?,
            now: *now,
        }),
        Call::Tick { now } => Ok(Step::Tick { now: *now }),
        Call::Take { delta } => match delta_at(deltas, *delta) {
            Some(delta) => Ok(Step::Take {
                delta: delta.copied(alloc)?,
            }),
            None => Err(WorldFault::NoDelta { event: number }),
        },
    }
}

/// A share of a call.
fn shared(alloc: Global, step: Step) -> Result<Arc<Step>, NoMemory>
    ensures { IfOk result (λ made. arc_value made ≡ step) }
{
    Ok(Arc::new(alloc, step)?)
}

/// Calls as the node is asked them. Events are numbered.
pub fn steps_of(
    alloc: Global,
    deltas: &[Delta],
    calls: &[Call],
    number: u64,
) -> Result<Vec<Arc<Step>>, WorldFault>
    ensures ok { IfOk result (λ steps.
        AreStepsOf (listing deltas.now) calls.now (map arc_value steps.items)) }
    ensures err { IfErr result (CallsMissing deltas.now calls.now number) }
{
    let mut steps = Vec::with_capacity(alloc, calls.len())?;
    for call in calls {
        let step = match step_of(alloc, deltas, call, number) {
            Ok(step) => step,
            Err(fault) => return Err(fault),
        };
        let share = shared(alloc, step)?;
        steps.push(share)?;
    }
    Ok(steps)
}

/// Whether an answer is that the disk failed.
fn is_failure(reply: &Reply) -> bool
    ensures { result ≡ false → IsNoFailure reply.now }
{
    match reply {
        Ok(_) => false,
        Err(Refusal::Disk { .. }) => true,
        Err(Refusal::Frame { .. }) | Err(Refusal::Halted) | Err(Refusal::Conflict { .. }) => false,
        Err(Refusal::Full) | Err(Refusal::Exhausted) => false,
        Err(Refusal::Journal { .. }) | Err(Refusal::Memory) => false,
    }
}

/// Whether one of the answers is that the disk failed.
fn has_failure(replies: &[Reply]) -> bool
    ensures { result ≡ false → AllByRecursion IsNoFailure replies.now }
{
    for reply in replies {
        if is_failure(reply) {
            return true;
        }
    }
    false
}

/// Whether calls are left that were not in the write that failed, as memory ran out for them.
fn is_cut(has_failed: bool, answered: usize, asked: usize) -> bool
    ensures { result ≡ false → (has_failed ≡ false) ⊎ (asked ≤ answered) }
{
    has_failed && answered < asked
}

/// Puts answers of the node behind others.
fn tell_all(
    replies: Vec<Reply>,
    answers: &mut Vec<Result<Arc<Out>, NodeFault>>,
) -> Result<(), NoMemory>
    ensures told { OnOk result (map said answers.new.items
        ≡ map said answers.old.items ++ replies.items) }
    ensures fed { OnOk result (AllByRecursion IsFed replies.items) }
{
    for reply in replies {
        let answer = unless_memory(one_share(reply))?;
        answers.push(answer)?;
    }
    Ok(())
}

/// The node is asked the calls that have no answer yet: the first ones of them, and one at least,
/// are answered behind the others.
fn one_row<R: Replica>(
    alloc: Global,
    node: &mut Node<R, MemoryDisk>,
    steps: &[Arc<Step>],
    answers: &mut Vec<Result<Arc<Out>, NodeFault>>,
) -> Result<(), NoMemory>
    requires some { vec_len answers.old < length steps.now }
    requires write { AllByRecursion CanWrite (map arc_value steps.now) }
    ensures row { OnOk result (RowDone (state_of R.kept node.old) (map arc_value steps.now)
        (map said answers.old.items) (map said answers.new.items) (state_of R.kept node.new)) }
    ensures more { OnOk result (vec_len answers.old < vec_len answers.new) }
    ensures most { OnOk result (vec_len answers.new ≤ length steps.now) }
{
    let rest = &steps[answers.len()..];
    let room = Vec::with_capacity(alloc, rest.len())?;
    let replies = node.step_whole(alloc, rest, room);
    if node.starved() {
        drop(replies);
        return Err(NoMemory);
    }
    let has_failed = has_failure(replies.as_slice());
    tell_all(replies, answers)?;
    if is_cut(has_failed, answers.len(), steps.len()) {
        return Err(NoMemory);
    }
    Ok(())
}

/// Calls come to a gateway together.
fn row_to<R: Replica>(
    alloc: Global,
    node: &mut Node<R, MemoryDisk>,
    steps: &[Arc<Step>],
) -> Result<Vec<Result<Arc<Out>, NodeFault>>, NoMemory>
    requires { AllByRecursion CanWrite (map arc_value steps.now) }
    ensures { IfOk result (λ answers. GoesTogether (state_of R.kept node.old)
        (map arc_value steps.now) (map said answers.items) (state_of R.kept node.new)) }
{
    let mut answers = Vec::with_capacity(alloc, steps.len())?;
    'rows: while answers.len() < steps.len() {
        one_row(alloc, node, steps, &mut answers)?;
    }
    Ok(answers)
}

/// Calls come together to the gateway in this place.
pub fn row_at<R: Replica>(
    alloc: Global,
    nodes: &mut Vec<Node<R, MemoryDisk>>,
    place: usize,
    steps: &[Arc<Step>],
) -> Result<Vec<Result<Arc<Out>, NodeFault>>, NoMemory>
    requires place { place < vec_len nodes.old }
    requires write { AllByRecursion CanWrite (map arc_value steps.now) }
    ensures { IfOk result (λ answers. RowAt (map (λ node. state_of R.kept node) nodes.old.items)
        place (map arc_value steps.now) (map said answers.items)
        (map (λ node. state_of R.kept node) nodes.new.items)) }
{
    let node = &mut nodes[place];
    row_to(alloc, node, steps)
}
