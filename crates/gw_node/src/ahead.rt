//! A call of a row is carried out, but for the write. What its delta replaces is put aside, and the
//! record of the delta is put behind those of the calls before it. What can be refused, for want of
//! memory too, is refused before anything is done.

ghost use Rattle.std.specs.Prelude.{◌≡◌, ◌≢◌, ◌++◌, [], false, IfOk, OnOk, OnErr};
ghost use Rattle.std.specs.Option.{option_to_list};
ghost use Rattle.gw_answer.specs.Answers.{only_sends};
ghost use Rattle.gw_answer.specs.declared.step.Step.TheVariants as steps;
ghost use Rattle.gw_event.specs.Together.{if_any, put_by};
ghost use Rattle.gw_node.specs.Parts.{state_of};
ghost use Rattle.gw_node.specs.Parts as parts;
ghost use Rattle.gw_node.specs.inner.Ahead.{CarriedAhead, TakeAhead, made_in};
ghost use Rattle.gw_node.specs.inner.Rows.{CarriedAlong, WentAhead, made_if, put_if, IsFor};

use super::carrying::{make_ready, ops_of, prepare};
use super::looking::{Left, look};
use super::node::Node;
use gw_answer::{Out, Refusal, Shares, Step};
use gw_own::{apply_local_after_delta, keep_owned};
use jr_journal::{Disk, Records};
use octets::{NoMemory, Sequence};
use rep_model::Replica;
use rep_ops::Delta;
use sn_local::{LocalChange, Send};
use sn_plan::Plan;
use std::alloc::Global;

/// How much there is at most in a row.
#[derive(Clone, Copy)]
pub(crate) struct Most {
    /// How many operations a call of it has at most.
    pub(crate) operations: usize,
    /// How many octets of records there are at most before it ends.
    pub(crate) octets: usize,
}

/// Puts aside what a staged delta replaces, unless it lies there already.
fn save<R: Replica>(
    alloc: Global,
    replica: &R,
    aside: &mut R,
    staged: &R::Staged,
) -> Result<(), NoMemory>
    requires ready { R.ready replica.now staged.now }
    requires can { R.can_go_back replica.now aside.old }
    ensures can { R.can_go_back replica.now aside.new }
    ensures back { R.back replica.now aside.new ≡ R.back replica.now aside.old }
    ensures saved { OnOk result (R.is_saved aside.new staged.now) }
{
    match replica.save(alloc, aside, staged) {
        Ok(()) => Ok(()),
        Err(_) => Err(NoMemory),
    }
}

/// Puts the record of a delta that was made behind others, if there is one.
fn push_made(alloc: Global, records: &mut Records, made: &Option<Delta>) -> Result<(), NoMemory>
    ensures ok { OnOk result (records.new ≡ records.old ++ option_to_list made.now) }
    ensures err { OnErr result (records.new ≡ records.old) }
{
    match made {
        Some(delta) => records.push(alloc, delta),
        None => Ok(()),
    }
}

/// Puts the record of a delta that came behind others, if it has operations.
fn push_taken(alloc: Global, records: &mut Records, delta: &Delta) -> Result<(), NoMemory>
    ensures ok { OnOk result (records.new ≡ records.old ++ if_any delta.now) }
    ensures err { OnErr result (records.new ≡ records.old) }
{
    if delta.is_empty() {
        return Ok(());
    }
    records.push(alloc, delta)
}

/// Makes shares of an answer. What the staged delta replaces is put aside, and the record of the
/// delta that was made is put behind others.
fn answer_made<R: Replica>(
    alloc: Global,
    replica: &R,
    aside: &mut R,
    records: &mut Records,
    staged: &R::Staged,
    out: Out,
) -> Result<Shares, NoMemory>
    requires ready { R.ready replica.now staged.now }
    requires can { R.can_go_back replica.now aside.old }
    ensures can { R.can_go_back replica.now aside.new }
    ensures back { R.back replica.now aside.new ≡ R.back replica.now aside.old }
    ensures saved { OnOk result (R.is_saved aside.new staged.now) }
    ensures answer { IfOk result (λ answer. answer ≡ out) }
    ensures ok { OnOk result (records.new ≡ records.old ++ option_to_list out.made) }
    ensures err { OnErr result (records.new ≡ records.old) }
{
    let Ok(answer) = Shares::new(alloc, out) else {
        return Err(NoMemory);
    };
    let Ok(()) = save(alloc, replica, aside, staged) else {
        drop(answer);
        return Err(NoMemory);
    };
    let Ok(()) = push_made(alloc, records, &answer.out().made) else {
        drop(answer);
        return Err(NoMemory);
    };
    Ok(answer)
}

/// Makes shares of the answer to a delta that came, and does the same for that delta.
fn answer_taken<R: Replica>(
    alloc: Global,
    replica: &R,
    aside: &mut R,
    records: &mut Records,
    staged: &R::Staged,
    delta: &Delta,
) -> Result<Shares, NoMemory>
    requires ready { R.ready replica.now staged.now }
    requires can { R.can_go_back replica.now aside.old }
    ensures can { R.can_go_back replica.now aside.new }
    ensures back { R.back replica.now aside.new ≡ R.back replica.now aside.old }
    ensures saved { OnOk result (R.is_saved aside.new staged.now) }
    ensures answer { IfOk result (λ answer. answer ≡ only_sends []) }
    ensures ok { OnOk result (records.new ≡ records.old ++ if_any delta.now) }
    ensures err { OnErr result (records.new ≡ records.old) }
{
    let Ok(answer) = Shares::new(alloc, Out::of_sends(alloc, Sequence::empty(alloc))) else {
        return Err(NoMemory);
    };
    let Ok(()) = save(alloc, replica, aside, staged) else {
        drop(answer);
        return Err(NoMemory);
    };
    let Ok(()) = push_taken(alloc, records, delta) else {
        drop(answer);
        return Err(NoMemory);
    };
    Ok(answer)
}

/// A refusal of a plan, of which nothing is sent or noted.
fn let_go(refusal: Refusal, sends: Sequence<Send>, local: Sequence<LocalChange>) -> Refusal
    ensures { result ≡ refusal }
{
    drop(sends);
    drop(local);
    refusal
}

/// Carries out a plan with operations, but for the write.
pub(crate) fn carry_ahead<R: Replica, D: Disk + Drop>(
    alloc: Global,
    node: &mut Node<R, D>,
    aside: &mut R,
    records: &mut Records,
    plan: Plan,
) -> Result<Shares, Refusal>
    requires some { plan.ops ≢ [] }
    requires can { R.can_go_back node.old.replica aside.old }
    ensures call { CarriedAhead (state_of R.kept node.old) plan result (state_of R.kept node.new) }
    ensures records { records.new ≡ records.old ++ made_in result }
    ensures can { R.can_go_back node.new.replica aside.new }
    ensures back { R.back node.new.replica aside.new ≡ R.back node.old.replica aside.old }
{
    let Plan { ops, sends, local } = plan;
    let tidy = node.tidy;
    node.idle = None;
    node.tidy = false;
    let (staged, delta) = match make_ready(
        alloc,
        &mut node.replica,
        &mut node.dialogs,
        ops.into_vec(),
        local.as_slice(),
    ) {
        Ok(ready) => ready,
        Err(refusal) => return Err(let_go(refusal, sends, local)),
    };
    let out = Out::of_plan(alloc, sends, delta);
    let Ok(answer) = answer_made(alloc, &node.replica, aside, records, &staged, out) else {
        drop(staged);
        drop(local);
        return Err(Refusal::Memory);
    };
    node.replica.commit(staged);
    let made = ops_of(&answer.out().made);
    node.tidy = apply_local_after_delta(
        node.config.gateway,
        &node.replica,
        &mut node.dialogs,
        tidy,
        made,
        local,
    );
    Ok(answer)
}

/// Takes a delta, but for the write.
pub(crate) fn take_ahead<R: Replica, D: Disk + Drop>(
    alloc: Global,
    node: &mut Node<R, D>,
    aside: &mut R,
    records: &mut Records,
    delta: &Delta,
) -> Result<Shares, Refusal>
    requires { R.can_go_back node.old.replica aside.old }
    ensures call { TakeAhead (state_of R.kept node.old) delta.now result (state_of R.kept
        node.new) }
    ensures records { records.new ≡ records.old ++ put_by (steps.Take delta.now) result }
    ensures can { R.can_go_back node.new.replica aside.new }
    ensures back { R.back node.new.replica aside.new ≡ R.back node.old.replica aside.old }
{
    let tidy = node.tidy;
    node.idle = None;
    node.tidy = false;
    let staged = match prepare(alloc, &mut node.replica, delta) {
        Ok(staged) => staged,
        Err(refusal) => return Err(refusal),
    };
    let Ok(answer) = answer_taken(alloc, &node.replica, aside, records, &staged, delta) else {
        drop(staged);
        return Err(Refusal::Memory);
    };
    node.replica.commit(staged);
    keep_owned(
        node.config.gateway,
        &node.replica,
        &mut node.dialogs,
        tidy,
        delta.ops(),
    );
    node.tidy = true;
    Ok(answer)
}

/// The reply, unless memory ran out.
fn unless_wanting(reply: Result<Shares, Refusal>) -> Option<Result<Shares, Refusal>>
    ensures { IsFor reply result }
{
    match reply {
        Err(Refusal::Memory) => None,
        Ok(answer) => Some(Ok(answer)),
        Err(refusal) => Some(Err(refusal)),
    }
}

/// Carries out a plan with operations behind the first call of a row, if it is not too long.
fn carry_along<R: Replica, D: Disk + Drop>(
    alloc: Global,
    node: &mut Node<R, D>,
    aside: &mut R,
    records: &mut Records,
    most: Most,
    plan: Plan,
) -> Option<Result<Shares, Refusal>>
    requires some { plan.ops ≢ [] }
    requires can { R.can_go_back node.old.replica aside.old }
    ensures call { CarriedAlong (state_of R.kept node.old) plan result (state_of R.kept node.new) }
    ensures records { records.new ≡ records.old ++ made_if result }
    ensures can { R.can_go_back node.new.replica aside.new }
    ensures back { R.back node.new.replica aside.new ≡ R.back node.old.replica aside.old }
{
    if most.operations < plan.ops.len() {
        drop(plan);
        return None;
    }
    unless_wanting(carry_ahead(alloc, node, aside, records, plan))
}

/// Takes a delta behind the first call of a row, if it is not too long.
fn take_along<R: Replica, D: Disk + Drop>(
    alloc: Global,
    node: &mut Node<R, D>,
    aside: &mut R,
    records: &mut Records,
    most: Most,
    delta: &Delta,
) -> Option<Result<Shares, Refusal>>
    requires { R.can_go_back node.old.replica aside.old }
    ensures call { WentAhead (state_of R.kept node.old) (steps.Take delta.now) result
        (state_of R.kept node.new) }
    ensures records { records.new ≡ records.old ++ put_if (steps.Take delta.now) result }
    ensures can { R.can_go_back node.new.replica aside.new }
    ensures back { R.back node.new.replica aside.new ≡ R.back node.old.replica aside.old }
{
    if most.operations < delta.ops().len() {
        return None;
    }
    unless_wanting(take_ahead(alloc, node, aside, records, delta))
}

/// Carries out a call behind the first of a row, but for the write. Nothing, and nothing is done,
/// where the call is for another row: it cannot stand in one, it has too many operations, or memory
/// ran out.
pub(crate) fn go_ahead<R: Replica, D: Disk + Drop>(
    alloc: Global,
    node: &mut Node<R, D>,
    aside: &mut R,
    records: &mut Records,
    most: Most,
    step: &Step,
) -> Option<Result<Shares, Refusal>>
    requires runs { parts.is_halted (state_of R.kept node.old) ≡ false }
    requires can { R.can_go_back node.old.replica aside.old }
    ensures call { WentAhead (state_of R.kept node.old) step.now result (state_of R.kept
        node.new) }
    ensures records { records.new ≡ records.old ++ put_if step.now result }
    ensures can { R.can_go_back node.new.replica aside.new }
    ensures back { R.back node.new.replica aside.new ≡ R.back node.old.replica aside.old }
{
    if let Step::Take { delta } = step {
        return take_along(alloc, node, aside, records, most, delta);
    }
    match look(alloc, node, step) {
        Left::Told(reply) => unless_wanting(reply),
        Left::Writes(plan, excuse) => {
            drop(excuse);
            carry_along(alloc, node, aside, records, most, plan)
        }
        Left::Alone => None,
    }
}
