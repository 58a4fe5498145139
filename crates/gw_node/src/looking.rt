//! What a call of a row is found to be, before anything is written.

ghost use Rattle.std.specs.Prelude.{◌≡◌, false, []};
ghost use Rattle.sn_frame.specs.Bodies.{IsMessage};
ghost use Rattle.gw_answer.specs.declared.step.Step.TheVariants as steps;
ghost use Rattle.gw_event.specs.Excuses as spec;
ghost use Rattle.gw_node.specs.Parts.{state_of};
ghost use Rattle.gw_node.specs.Parts as parts;
ghost use Rattle.gw_node.specs.inner.Handling.{planned_for};
ghost use Rattle.gw_node.specs.inner.Ahead.{NotedAs, LooksFor, LooksAt, IsLooked};

use super::carrying::apply_local;
use super::handling::{plan_for, plan_of_tick, read};
use super::node::Node;
use gw_answer::{Out, Refusal, Shares, Step};
use gw_own::excuses;
use jr_journal::Disk;
use octets::Sequence;
use rep_model::Replica;
use sn_frame::Frame;
use sn_local::Addr;
use sn_plan::Plan;
use std::alloc::Global;

/// What is left to do of a call.
#[derive(Drop)]
pub(crate) enum Left {
    /// Nothing: it has this answer, and nothing to write.
    Told(Result<Shares, Refusal>),
    /// Its plan has operations. This is answered where they cannot be written.
    Writes(Plan, Out),
    /// All: it has no plan.
    Alone,
}

/// Notes what a plan without operations notes.
fn noted<R: Replica, D: Disk + Drop>(
    alloc: Global,
    node: &mut Node<R, D>,
    plan: Plan,
) -> Result<Shares, Refusal>
    requires { plan.ops ≡ [] }
    ensures noted { NotedAs (state_of R.kept node.old) plan result (state_of R.kept node.new) }
    ensures replica { node.new.replica ≡ node.old.replica }
{
    match apply_local(alloc, node, plan) {
        Ok(answer) => Ok(answer),
        Err(_) => Err(Refusal::Memory),
    }
}

/// What is left to do of the plan for a frame from an address.
fn left_of_frame<R: Replica, D: Disk + Drop>(
    alloc: Global,
    node: &mut Node<R, D>,
    from: Addr,
    frame: &Frame,
    plan: Plan,
) -> Left
    ensures found { LooksFor (state_of R.kept node.old) plan
        (spec.excuses from frame.now plan.sends) result (state_of R.kept node.new) }
    ensures replica { node.new.replica ≡ node.old.replica }
{
    if plan.ops.is_empty() {
        return Left::Told(noted(alloc, node, plan));
    }
    let Ok(excuse) = excuses(alloc, from, frame, plan.sends.as_slice()) else {
        drop(plan);
        return Left::Told(Err(Refusal::Memory));
    };
    Left::Writes(plan, Out::of_sends(alloc, excuse))
}

/// What is left to do of the plan of a tick. Nobody waits for its answer.
fn left_of_tick<R: Replica, D: Disk + Drop>(
    alloc: Global,
    node: &mut Node<R, D>,
    plan: Plan,
) -> Left
    ensures found { LooksFor (state_of R.kept node.old) plan [] result (state_of R.kept node.new) }
    ensures replica { node.new.replica ≡ node.old.replica }
{
    if plan.ops.is_empty() {
        return Left::Told(noted(alloc, node, plan));
    }
    Left::Writes(plan, Out::of_sends(alloc, Sequence::empty(alloc)))
}

/// What is left to do of a frame from an address at a moment.
fn look_at<R: Replica, D: Disk + Drop>(
    alloc: Global,
    node: &mut Node<R, D>,
    from: Addr,
    frame: &Frame,
    now: u64,
) -> Left
    requires { IsMessage frame.now }
    ensures found { LooksAt (state_of R.kept node.old) (planned_for (state_of R.kept node.old) from
        frame.now now) (spec.excuses from frame.now) result (state_of R.kept node.new) }
    ensures replica { node.new.replica ≡ node.old.replica }
{
    match plan_for(alloc, node, from, frame, now) {
        Ok(plan) => left_of_frame(alloc, node, from, frame, plan),
        Err(refusal) => Left::Told(Err(refusal)),
    }
}

/// What is left to do of a datagram that comes from an address at a moment.
fn look_at_frame<R: Replica, D: Disk + Drop>(
    alloc: Global,
    node: &mut Node<R, D>,
    from: Addr,
    bytes: &[u8],
    now: u64,
) -> Left
    ensures found { IsLooked (state_of R.kept node.old) (steps.Frame from bytes.now now) result
        (state_of R.kept node.new) }
    ensures replica { node.new.replica ≡ node.old.replica }
{
    match read(alloc, bytes) {
        Ok(frame) => look_at(alloc, node, from, &frame, now),
        Err(refusal) => Left::Told(Err(refusal)),
    }
}

/// What is left to do of a tick of a moment.
fn look_at_tick<R: Replica, D: Disk + Drop>(alloc: Global, node: &mut Node<R, D>, now: u64) -> Left
    ensures found { IsLooked (state_of R.kept node.old) (steps.Tick now) result
        (state_of R.kept node.new) }
    ensures replica { node.new.replica ≡ node.old.replica }
{
    match plan_of_tick(alloc, node, now) {
        Ok(plan) => left_of_tick(alloc, node, plan),
        Err(refusal) => Left::Told(Err(refusal)),
    }
}

/// What is left to do of a call that is no delta. A call that has nothing to write is done, and has
/// its answer; of any other nothing is done yet.
pub(crate) fn look<R: Replica, D: Disk + Drop>(
    alloc: Global,
    node: &mut Node<R, D>,
    step: &Step,
) -> Left
    requires { parts.is_halted (state_of R.kept node.old) ≡ false }
    ensures found { IsLooked (state_of R.kept node.old) step.now result (state_of R.kept node.new) }
    ensures replica { node.new.replica ≡ node.old.replica }
{
    match step {
        Step::Frame { from, bytes, now } => {
            look_at_frame(alloc, node, *from, bytes.as_slice(), *now)
        }
        Step::Tick { now } => look_at_tick(alloc, node, *now),
        Step::Take { .. } | Step::View { .. } | Step::Digest | Step::Answer { .. } => Left::Alone,
        Step::Compact | Step::Reopen => Left::Alone,
    }
}
