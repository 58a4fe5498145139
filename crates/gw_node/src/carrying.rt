//! A plan is carried out, and a delta is taken: room, delta, journal, replica, local state, in this
//! order. What can be refused is refused before the journal is written; after it nothing can be.

ghost use Rattle.std.specs.Prelude.{◌≡◌, ◌≢◌, ◌⊎◌, ◌++◌, List, [], length, IfOk, IfErr, OnOk, OnErr, unwrap_or};
ghost use Rattle.rep_op.specs.declared.op.Op.{Op};
ghost use Rattle.rep_ops.specs.Deltas.{IsDelta};
ghost use Rattle.rep_ops.specs.Making.{HaveOwnNames, IsDeltaOf};
ghost use Rattle.rep_ops.specs.Spelling.{IsDeltaWithinLimit};
ghost use Rattle.rep_model.specs.Taking.{Fits};
ghost use Rattle.rep_model.specs.Keep.{IsKeptOf};
ghost use Rattle.sn_local.specs.Locals.{IsRoomFor};
ghost use Rattle.gw_node.specs.Parts.{state_of, IsUnchanged};
ghost use Rattle.gw_answer.specs.Answers.{only_sends};
ghost use Rattle.gw_node.specs.Plans.{IsMisfit};
ghost use Rattle.gw_node.specs.inner.Writing.{WrittenAs, WrittenIfMade, WrittenIfAny, refusal_of_journal};
ghost use Rattle.gw_node.specs.Calls.{TakeCall, IsDone};
ghost use Rattle.gw_node.specs.inner.Ahead.{GoesBackAs};
ghost use Rattle.gw_node.specs.inner.Handling.{HaveNoDelta, CarriedOut};
ghost use Rattle.gw_event.specs.Event.{IsWritable};

use super::node::Node;
use gw_answer::{Out, Refusal, Shares, Subjects};
use gw_own::{apply_local_after_delta, keep_owned, note_changes};
use jr_journal::{Disk, Journal, JournalFault};
use octets::{NoMemory, Sequence};
use rep_model::{Replica, TakeFault};
use rep_ops::{Delta, Op, OpsFault};
use sn_local::{Dialogs, LocalChange, Send};
use sn_plan::Plan;
use std::alloc::Global;

/// The delta of these operations.
fn delta_of(alloc: Global, ops: Vec<Op>) -> Result<Delta, Refusal>
    ensures apart { OnOk result (HaveOwnNames ops.items) }
    ensures ok { IfOk result (λ delta. IsDeltaOf ops.items delta) }
    ensures limit { IfOk result (λ delta. IsDeltaWithinLimit delta) }
    ensures err { IfErr result (HaveNoDelta ops.items) }
{
    match Delta::from_ops(alloc, ops) {
        Ok(delta) => Ok(delta),
        Err(OpsFault::Memory) => Err(Refusal::Memory),
        Err(_) => Err(Refusal::Full),
    }
}

/// Makes ready to take a delta.
pub(crate) fn prepare<R: Replica>(
    alloc: Global,
    replica: &mut R,
    delta: &Delta,
) -> Result<R::Staged, Refusal>
    ensures unchanged { R.kept replica.new ≡ R.kept replica.old }
    ensures delta { IsDelta delta.now }
    ensures writable { IsWritable delta.now }
    ensures fits { OnOk result (Fits (R.kept replica.old) delta.now) }
    ensures ready { IfOk result (λ staged. R.ready replica.new staged) }
    ensures taken { IfOk result (λ staged. IsKeptOf (R.kept replica.old ++ delta.now)
        (R.after replica.new staged)) }
    ensures misfit { IfErr result (λ refusal. IsMisfit (R.kept replica.old) delta.now refusal) }
    ensures aside { GoesBackAs R.can_go_back R.back replica.old replica.new }
{
    let _ops = delta.ops();
    match replica.prepare(alloc, delta) {
        Ok(staged) => Ok(staged),
        Err(TakeFault::Conflict { of }) => match Subjects::new(alloc, of) {
            Ok(of) => Err(Refusal::Conflict { of }),
            Err(_) => Err(Refusal::Memory),
        },
        Err(TakeFault::Full { .. }) => Err(Refusal::Full),
        Err(TakeFault::Memory) => Err(Refusal::Memory),
    }
}

/// Writes a delta to the journal.
fn write<D: Disk + Drop>(
    alloc: Global,
    journal: &mut Journal<D>,
    delta: &Delta,
) -> Result<(), JournalFault>
    ensures { WrittenAs journal.old delta.now result journal.new }
{
    journal.append(alloc, delta)
}

/// Writes a delta to the journal, if there is one.
fn write_if_made<D: Disk + Drop>(
    alloc: Global,
    journal: &mut Journal<D>,
    made: &Option<Delta>,
) -> Result<(), JournalFault>
    ensures { WrittenIfMade journal.old made.now result journal.new }
{
    match made {
        Some(delta) => write(alloc, journal, delta),
        None => Ok(()),
    }
}

/// Writes a delta to the journal, if it has operations.
fn write_if_any<D: Disk + Drop>(
    alloc: Global,
    journal: &mut Journal<D>,
    delta: &Delta,
) -> Result<(), JournalFault>
    ensures { WrittenIfAny journal.old delta.now result journal.new }
{
    if delta.is_empty() {
        return Ok(());
    }
    write(alloc, journal, delta)
}

/// The operations of a delta, if there is one.
pub(crate) fn ops_of(made: &Option<Delta>) -> &[Op]
    ensures { result.now ≡ unwrap_or made.now [] }
{
    match made {
        Some(delta) => delta.ops(),
        None => &[],
    }
}

/// A refusal of the journal, with what is answered.
pub(crate) fn refused(fault: JournalFault, excuse: Shares) -> Refusal
    ensures { result ≡ refusal_of_journal fault excuse }
{
    match fault {
        JournalFault::Disk => Refusal::Disk { excuse },
        JournalFault::Halted => Refusal::Halted,
        JournalFault::Memory => Refusal::Memory,
        JournalFault::Foreign | JournalFault::BadRecord { .. } => Refusal::Journal { fault },
    }
}

/// Carries out a plan without operations: what it notes is noted.
pub(crate) fn apply_local<R: Replica, D: Disk + Drop>(
    alloc: Global,
    node: &mut Node<R, D>,
    plan: Plan,
) -> Result<Shares, NoMemory>
    requires { plan.ops ≡ [] }
    ensures ok { IfOk result (λ out. IsDone (state_of R.kept node.old) plan out
        (state_of R.kept node.new)) }
    ensures err { OnErr result (IsUnchanged (state_of R.kept node.old) (state_of R.kept
        node.new)) }
    ensures replica { node.new.replica ≡ node.old.replica }
{
    let Plan {
        ops: _,
        sends,
        local,
    } = plan;
    let tidy = node.tidy;
    node.idle = None;
    node.tidy = false;
    let Ok(()) = node.dialogs.prepare(local.as_slice()) else {
        drop(sends);
        drop(local);
        return Err(NoMemory);
    };
    let Ok(answer) = Shares::new(alloc, Out::of_sends(alloc, sends)) else {
        drop(local);
        return Err(NoMemory);
    };
    node.tidy = note_changes(
        node.config.gateway,
        &node.replica,
        &mut node.dialogs,
        tidy,
        local,
    );
    Ok(answer)
}

/// Makes ready to take the delta of these operations and to note these changes. Nothing of it is
/// done yet.
pub(crate) fn make_ready<R: Replica>(
    alloc: Global,
    replica: &mut R,
    dialogs: &mut Dialogs,
    ops: Vec<Op>,
    local: &[LocalChange],
) -> Result<(R::Staged, Delta), Refusal>
    ensures unchanged { R.kept replica.new ≡ R.kept replica.old }
    ensures local { dialogs.new.local ≡ dialogs.old.local }
    ensures room { OnOk result (IsRoomFor (length local.now) dialogs.new.room) }
    ensures apart { OnOk result (HaveOwnNames ops.items) }
    ensures delta { IfOk result (λ ready. IsDeltaOf ops.items ready.1) }
    ensures limit { IfOk result (λ ready. IsDeltaWithinLimit ready.1) }
    ensures writable { IfOk result (λ ready. IsWritable ready.1) }
    ensures fits { IfOk result (λ ready. Fits (R.kept replica.old) ready.1) }
    ensures ready { IfOk result (λ ready. R.ready replica.new ready.0) }
    ensures taken { IfOk result (λ ready. IsKeptOf (R.kept replica.old ++ ready.1)
        (R.after replica.new ready.0)) }
    ensures err { IfErr result (λ refusal. HaveNoDelta ops.items refusal
        ⊎ ((delta : List Op) × IsDeltaOf ops.items delta
        × IsMisfit (R.kept replica.old) delta refusal)) }
    ensures aside { GoesBackAs R.can_go_back R.back replica.old replica.new }
{
    let Ok(()) = dialogs.prepare(local) else {
        drop(ops);
        return Err(Refusal::Memory);
    };
    let delta = match delta_of(alloc, ops) {
        Ok(delta) => delta,
        Err(refusal) => return Err(refusal),
    };
    match prepare(alloc, replica, &delta) {
        Ok(staged) => Ok((staged, delta)),
        Err(refusal) => {
            drop(delta);
            Err(refusal)
        }
    }
}

/// Shares of what is answered, and of what is where the journal cannot be written.
fn shares_of(alloc: Global, out: Out, excuse: Out) -> Result<(Shares, Shares), NoMemory>
    ensures answer { IfOk result (λ shares. shares.0 ≡ out) }
    ensures excuse { IfOk result (λ shares. shares.1 ≡ excuse) }
{
    let Ok(excuse) = Shares::new(alloc, excuse) else {
        drop(out);
        return Err(NoMemory);
    };
    let Ok(answer) = Shares::new(alloc, out) else {
        drop(excuse);
        return Err(NoMemory);
    };
    Ok((answer, excuse))
}

/// A refusal of a plan, of which nothing is sent or noted.
fn refuse(
    refusal: Refusal,
    sends: Sequence<Send>,
    local: Sequence<LocalChange>,
    excuse: Out,
) -> Refusal
    ensures { result ≡ refusal }
{
    drop(sends);
    drop(local);
    drop(excuse);
    refusal
}

/// Carries out a plan with operations: they become one delta, which is written to the journal and
/// taken, and what the plan notes is noted. `excuse` is answered where the journal cannot be
/// written.
pub(crate) fn write_and_apply<R: Replica, D: Disk + Drop>(
    alloc: Global,
    node: &mut Node<R, D>,
    plan: Plan,
    excuse: Out,
) -> Result<Shares, Refusal>
    requires some { plan.ops ≢ [] }
    requires excuse { excuse ≡ only_sends excuse.sends }
    ensures { CarriedOut (state_of R.kept node.old) plan excuse result (state_of R.kept node.new) }
{
    let Plan { ops, sends, local } = plan;
    let tidy = node.tidy;
    node.idle = None;
    node.tidy = false;
    let (staged, delta) = match make_ready(
        alloc,
        &mut node.replica,
        &mut node.dialogs,
        ops.into_vec(),
        local.as_slice(),
    ) {
        Ok(ready) => ready,
        Err(refusal) => return Err(refuse(refusal, sends, local, excuse)),
    };
    let Ok((answer, excuse)) = shares_of(alloc, Out::of_plan(alloc, sends, delta), excuse) else {
        drop(staged);
        drop(local);
        return Err(Refusal::Memory);
    };
    match write_if_made(alloc, &mut node.journal, &answer.out().made) {
        Ok(()) => {
            drop(excuse);
            node.replica.commit(staged);
            let made = ops_of(&answer.out().made);
            node.tidy = apply_local_after_delta(
                node.config.gateway,
                &node.replica,
                &mut node.dialogs,
                tidy,
                made,
                local,
            );
            Ok(answer)
        }
        Err(fault) => {
            drop(answer);
            drop(staged);
            drop(local);
            Err(refused(fault, excuse))
        }
    }
}

/// Takes a delta: it is written to the journal, and clients that another gateway now owns have no
/// address here any more.
pub(crate) fn write_and_take<R: Replica, D: Disk + Drop>(
    alloc: Global,
    node: &mut Node<R, D>,
    delta: &Delta,
) -> Result<Shares, Refusal>
    ensures { TakeCall (state_of R.kept node.old) delta.now result (state_of R.kept node.new) }
{
    if node.journal.is_halted() {
        return Err(Refusal::Halted);
    }
    let tidy = node.tidy;
    node.idle = None;
    node.tidy = false;
    let ready = prepare(alloc, &mut node.replica, delta)?;
    let nothing = Shares::new(alloc, Out::of_sends(alloc, Sequence::empty(alloc)))?;
    let answer = Shares::new(alloc, Out::of_sends(alloc, Sequence::empty(alloc)))?;
    match write_if_any(alloc, &mut node.journal, delta) {
        Ok(()) => {
            node.replica.commit(ready);
            keep_owned(
                node.config.gateway,
                &node.replica,
                &mut node.dialogs,
                tidy,
                delta.ops(),
            );
            node.tidy = true;
            Ok(answer)
        }
        Err(fault) => Err(refused(fault, nothing)),
    }
}
