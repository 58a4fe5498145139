//! What the calls of a node do, up to the answer.

ghost use Rattle.std.specs.Prelude.{◌≡◌, Some, [], false, IfOk, IfErr, IsTrue};
ghost use Rattle.rep_digest.specs.Spelling.{IsDigestWithinLimit};
ghost use Rattle.sn_frame.specs.Bodies.{IsMessage, IsValue};
ghost use Rattle.sn_frame.specs.Grammar.{Spells};
ghost use Rattle.gw_event.specs.Occasions.{Datagram, Clock};
ghost use Rattle.gw_event.specs.Excuses as spec;
ghost use Rattle.gw_node.specs.Parts.{state_of};
ghost use Rattle.gw_node.specs.Parts as parts;
ghost use Rattle.gw_answer.specs.Answers.{only_sends};
ghost use Rattle.gw_node.specs.Calls.{OwnCall, ViewCall, DigestCall, AnswerCall, StepCall};
ghost use Rattle.gw_node.specs.inner.Handling.{IsNoFrameBy, IsNoPlan, planned_for, ticked, CarriedOut, Answers, IsIdleAt};
ghost use Rattle.gw_event.specs.Event.{shows};

use super::carrying::{apply_local, write_and_apply, write_and_take};
use super::node::Node;
use super::rewriting::{handle_compact, handle_reopen};
use gw_answer::{Out, Refusal, Shares, Step};
use gw_own::excuses;
use jr_journal::Disk;
use octets::{NoMemory, Sequence};
use rep_answer::answer;
use rep_digest::{Digest, digest_of};
use rep_model::Replica;
use rep_ops::{ClientId, OpsFault};
use sn_deliver::step as plan_step;
use sn_frame::{Frame, FrameFault, decode};
use sn_local::{Addr, StepFault};
use sn_plan::Plan;
use sn_tick::{is_idle, tick as plan_tick};
use std::alloc::Global;

/// The frame that a datagram spells.
pub(crate) fn read(alloc: Global, bytes: &[u8]) -> Result<Frame, Refusal>
    ensures ok { IfOk result (λ frame. IsMessage frame × IsValue frame × Spells bytes.now frame) }
    ensures err { IfErr result (IsNoFrameBy bytes.now) }
{
    match decode(alloc, bytes) {
        Ok(frame) => Ok(frame),
        Err(FrameFault::Memory) => Err(Refusal::Memory),
        Err(fault) => Err(Refusal::Frame { fault }),
    }
}

/// The plan for a frame from an address at a moment.
pub(crate) fn plan_for<R: Replica, D: Disk>(
    alloc: Global,
    node: &Node<R, D>,
    from: Addr,
    frame: &Frame,
    now: u64,
) -> Result<Plan, Refusal>
    requires { IsMessage frame.now }
    ensures ok { IfOk result (λ plan. planned_for (state_of R.kept node.now) from frame.now now
        ≡ Some plan) }
    ensures err { IfErr result (IsNoPlan (planned_for (state_of R.kept node.now) from
        frame.now now)) }
{
    match plan_step(
        alloc,
        &node.config,
        &node.replica,
        &node.dialogs,
        from,
        frame,
        now,
    ) {
        Ok(plan) => Ok(plan),
        Err(StepFault::Exhausted) => Err(Refusal::Exhausted),
        Err(StepFault::Memory) => Err(Refusal::Memory),
    }
}

/// The plan of a tick at a moment.
pub(crate) fn plan_of_tick<R: Replica, D: Disk>(
    alloc: Global,
    node: &Node<R, D>,
    now: u64,
) -> Result<Plan, Refusal>
    ensures ok { IfOk result (λ plan. ticked (state_of R.kept node.now) now ≡ Some plan) }
    ensures err { IfErr result (IsNoPlan (ticked (state_of R.kept node.now) now)) }
{
    match plan_tick(alloc, &node.config, &node.replica, &node.dialogs, now) {
        Ok(plan) => Ok(plan),
        Err(StepFault::Exhausted) => Err(Refusal::Exhausted),
        Err(StepFault::Memory) => Err(Refusal::Memory),
    }
}

/// Carries out the plan for a frame from an address.
fn carry_for_frame<R: Replica, D: Disk + Drop>(
    alloc: Global,
    node: &mut Node<R, D>,
    from: Addr,
    frame: &Frame,
    plan: Plan,
) -> Result<Shares, Refusal>
    ensures { CarriedOut (state_of R.kept node.old) plan
        (only_sends (spec.excuses from frame.now plan.sends)) result (state_of R.kept node.new) }
{
    if plan.ops.is_empty() {
        return Ok(apply_local(alloc, node, plan)?);
    }
    let excuse = excuses(alloc, from, frame, plan.sends.as_slice())?;
    write_and_apply(alloc, node, plan, Out::of_sends(alloc, excuse))
}

/// Carries out the plan of a tick. Nobody waits for its answer.
fn carry_for_tick<R: Replica, D: Disk + Drop>(
    alloc: Global,
    node: &mut Node<R, D>,
    plan: Plan,
) -> Result<Shares, Refusal>
    ensures { CarriedOut (state_of R.kept node.old) plan (only_sends []) result
        (state_of R.kept node.new) }
{
    if plan.ops.is_empty() {
        return Ok(apply_local(alloc, node, plan)?);
    }
    write_and_apply(
        alloc,
        node,
        plan,
        Out::of_sends(alloc, Sequence::empty(alloc)),
    )
}

/// A frame comes from an address at a moment.
fn answer_frame<R: Replica, D: Disk + Drop>(
    alloc: Global,
    node: &mut Node<R, D>,
    from: Addr,
    frame: &Frame,
    now: u64,
) -> Result<Shares, Refusal>
    requires { IsMessage frame.now }
    ensures { Answers (state_of R.kept node.old) (planned_for (state_of R.kept node.old) from
        frame.now now) (spec.excuses from frame.now) result (state_of R.kept node.new) }
{
    match plan_for(alloc, node, from, frame, now) {
        Ok(plan) => carry_for_frame(alloc, node, from, frame, plan),
        Err(refusal) => Err(refusal),
    }
}

/// A datagram comes from an address at a moment.
pub(crate) fn handle_frame<R: Replica, D: Disk + Drop>(
    alloc: Global,
    node: &mut Node<R, D>,
    from: Addr,
    bytes: &[u8],
    now: u64,
) -> Result<Shares, Refusal>
    ensures { OwnCall (state_of R.kept node.old) (Datagram from bytes.now) now result
        (state_of R.kept node.new) }
{
    if node.is_halted() {
        return Err(Refusal::Halted);
    }
    match read(alloc, bytes) {
        Ok(frame) => answer_frame(alloc, node, from, &frame, now),
        Err(refusal) => Err(refusal),
    }
}

/// How many seconds ahead it is found out that ticks have nothing to do.
const AHEAD: u64 = 10;

/// Whether it is known that a tick of this moment has nothing to do. Where it was not known it is
/// looked for some seconds ahead, so that the ticks until then need not look, as long as nothing
/// changes.
fn is_idle_at<R: Replica, D: Disk>(node: &mut Node<R, D>, now: u64) -> bool
    ensures same { state_of R.kept node.new ≡ state_of R.kept node.old }
    ensures idle { IsTrue result → IsIdleAt (state_of R.kept node.old) now }
{
    if let Some(until) = node.idle {
        if now <= until {
            return true;
        }
    }
    let ahead = now.saturating_add(AHEAD);
    if !is_idle(&node.config, &node.replica, &node.dialogs, ahead) {
        return false;
    }
    node.idle = Some(ahead);
    true
}

/// What is answered where there is nothing to do: nothing is sent.
fn rest(alloc: Global) -> Result<Shares, NoMemory>
    ensures { IfOk result (λ out. out ≡ only_sends []) }
{
    Ok(Shares::new(alloc, Out::of_sends(alloc, Sequence::empty(alloc)))?)
}

/// A tick of a moment that may have something to do.
fn answer_tick<R: Replica, D: Disk + Drop>(
    alloc: Global,
    node: &mut Node<R, D>,
    now: u64,
) -> Result<Shares, Refusal>
    requires { parts.is_halted (state_of R.kept node.old) ≡ false }
    ensures { OwnCall (state_of R.kept node.old) Clock now result (state_of R.kept node.new) }
{
    match plan_of_tick(alloc, node, now) {
        Ok(plan) => carry_for_tick(alloc, node, plan),
        Err(refusal) => Err(refusal),
    }
}

/// Time goes by: a moment.
pub(crate) fn handle_tick<R: Replica, D: Disk + Drop>(
    alloc: Global,
    node: &mut Node<R, D>,
    now: u64,
) -> Result<Shares, Refusal>
    ensures { OwnCall (state_of R.kept node.old) Clock now result (state_of R.kept node.new) }
{
    if node.journal.is_halted() {
        return Err(Refusal::Halted);
    }
    if is_idle_at(node, now) {
        return Ok(rest(alloc)?);
    }
    answer_tick(alloc, node, now)
}

/// An answer that shows a client's view.
fn show<R: Replica, D: Disk>(
    alloc: Global,
    node: &Node<R, D>,
    client: &ClientId,
) -> Result<Shares, NoMemory>
    ensures { IfOk result (λ out. out ≡ shows (R.kept node.now.replica) client.now) }
{
    let view = match node.replica.view_of(client) {
        Some(view) => Some(view.copied(alloc)?),
        None => None,
    };
    Ok(Shares::new(alloc, Out::of_view(alloc, view))?)
}

/// Somebody asks for a client's view.
pub(crate) fn handle_view<R: Replica, D: Disk>(
    alloc: Global,
    node: &Node<R, D>,
    client: &ClientId,
) -> Result<Shares, Refusal>
    ensures { ViewCall (state_of R.kept node.now) client.now result (state_of R.kept node.now) }
{
    Ok(show(alloc, node, client)?)
}

/// An answer that gives a digest, of which its type promises that it is not too long.
fn give_digest(alloc: Global, digest: Digest) -> Result<Shares, NoMemory>
    ensures size { IsDigestWithinLimit digest }
    ensures ok { IfOk result (λ out. out ≡ record (only_sends []) { digest = Some digest }) }
{
    let _entries = digest.clients();
    Ok(Shares::new(alloc, Out::of_digest(alloc, digest))?)
}

/// The digest of what is kept.
pub(crate) fn handle_digest<R: Replica, D: Disk>(
    alloc: Global,
    node: &Node<R, D>,
) -> Result<Shares, Refusal>
    ensures { DigestCall (state_of R.kept node.now) result (state_of R.kept node.now) }
{
    match digest_of(alloc, &node.replica) {
        Ok(digest) => Ok(give_digest(alloc, digest)?),
        Err(OpsFault::Limit) => Err(Refusal::Full),
        Err(OpsFault::Memory) => Err(Refusal::Memory),
        Err(_) => unreachable!(),
    }
}

/// What a digest does not cover of what must be kept.
pub(crate) fn handle_answer<R: Replica, D: Disk>(
    alloc: Global,
    node: &Node<R, D>,
    digest: &Digest,
) -> Result<Shares, Refusal>
    ensures { AnswerCall (state_of R.kept node.now) digest.now result (state_of R.kept node.now) }
{
    let Ok(deltas) = answer(alloc, &node.replica, digest) else {
        return Err(Refusal::Memory);
    };
    Ok(Shares::new(alloc, Out::of_answer(alloc, deltas))?)
}

/// A call, as a value.
pub(crate) fn handle_step<R: Replica, D: Disk + Drop>(
    alloc: Global,
    node: &mut Node<R, D>,
    step: &Step,
) -> Result<Shares, Refusal>
    ensures { StepCall (state_of R.kept node.old) step.now result (state_of R.kept node.new) }
{
    match step {
        Step::Frame { from, bytes, now } => {
            handle_frame(alloc, node, *from, bytes.as_slice(), *now)
        }
        Step::Take { delta } => write_and_take(alloc, node, delta),
        Step::Tick { now } => handle_tick(alloc, node, *now),
        Step::View { client } => handle_view(alloc, node, client),
        Step::Digest => handle_digest(alloc, node),
        Step::Answer { digest } => handle_answer(alloc, node, digest),
        Step::Compact => handle_compact(alloc, node),
        Step::Reopen => handle_reopen(alloc, node),
    }
}
