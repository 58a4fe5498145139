//! Calls of a shift, with a pass that comes back.

ghost use Rattle.std.specs.Prelude.{◌≡◌, ◌≢◌, ◌≤◌, ℕ, Bool, true, IfOk, IfErr, MatchResult, Err, map};
ghost use Rattle.std.specs.Arc.{arc_value};
ghost use Rattle.gw_answer.specs.Answers.{said, refusal_of_fault};
ghost use Rattle.gw_answer.specs.declared.step.Step.{Step as AnyStep};
ghost use Rattle.gw_shift.specs.Calling.{Made, MadeInRow};
ghost use Rattle.gw_link.specs.Adding.{Adds};
ghost use Rattle.gw_link.specs.inner.Rows.{AllAre};
ghost use Rattle.gw_link.specs.Calling.{says_halted, CannotCall};
ghost use Rattle.gw_link.specs.inner.Calling.{reached_by};
ghost use Rattle.gw_answer.specs.declared.refusal.Refusal.TheVariants as refusals;
ghost use Rattle.gw_link.specs.declared.calling.End.TheVariants.{Memory};

use crate::stage::Stage;
use crate::work::Work;
use gw_shift::gw_node::{Answer, NodeFault, Step};
use gw_shift::{CallFault, Pass};
use jr_disk::Disk;
use octets::NoMemory;
use rep_model::Replica;
use std::fmt;
use std::sync::{Arc, Wait};
use thiserror::Error;

/// Why a thread of a shift stops what it does.
#[derive(Clone, Copy, Debug, PartialEq, Eq, Error)]
pub enum End {
    /// The link is lost: its other end closed it, a read or a write failed, or what came is no
    /// message.
    Lost,
    /// The shift has had all its calls.
    Full,
    /// Memory ran out, also where the gateway said so.
    Memory,
    /// The pass has seen more calls than the shift has.
    Behind,
    /// The gateway is halted, since a write of its journal has failed, and refused to be opened
    /// anew.
    Halted,
    /// The gateway was halted, and was opened anew.
    Reopened,
}

impl fmt::Display for End {
    /// Says why the link ends.
    fn fmt<W: fmt::Write>(&self, f: &mut fmt::Formatter<W>) -> fmt::Result {
        f.write_str(match self {
            End::Lost => "the link is lost",
            End::Full => "the shift has had all its calls",
            End::Memory => "out of memory",
            End::Behind => "a pass has seen more calls than the shift has",
            End::Halted => "the gateway is halted, and refused to be opened anew",
            End::Reopened => "the gateway was halted, and was opened anew",
        })
    }
}

impl From<NoMemory> for End {
    ghost from_gives = { λ _ e. e ≡ Memory };

    fn from(_error: NoMemory) -> End {
        End::Memory
    }
}

/// Makes a call, once it is claimed, under the shift's lock. Says what the gateway answered, or why
/// the call did not reach it. Runs in any thread that has a pass.
#[tactic(auto, using(crate::proofs::Adding::adds_none))]
pub fn call<T: Wait, R: Replica, D: Disk + Drop>(
    work: &Work<'_, T, R, D>,
    pass: Pass,
    step: Arc<Step>,
) -> (Pass, Result<Answer, End>)
    ensures made { IfOk result.1 (λ answer. (number : ℕ) × Made pass (arc_value step) (said answer)
        number result.0) }
    ensures none { IfErr result.1 (λ end. CannotCall end × (result.0 ≡ pass)) }
    ensures adds { (is : AnyStep → Bool) → is (arc_value step) ≡ true → Adds is pass result.0 }
{
    if !work.stage.claim() {
        return (pass, Err(End::Full));
    }
    match work.shift.call(work.rt, work.alloc, pass, step) {
        Ok((pass, out, number)) => {
            work.stage.note_made(number);
            (pass, Ok(Ok(out)))
        }
        Err((pass, fault)) => match refusal_or_end(fault) {
            Ok(refusal) => (pass, Ok(Err(refusal))),
            Err(end) => (pass, Err(end)),
        },
    }
}

/// Makes calls in a row, with one sync, each of which is claimed, under the shift's lock. Says what
/// the gateway answered to the first of them, one at least: the others are for another row. Or says
/// why none of them reached it. Runs in a link's thread.
#[tactic(auto, using(crate::proofs::Adding::adds_none, crate::proofs::Adding::adds_row))]
pub fn call_all<T: Wait, R: Replica, D: Disk + Drop>(
    work: &Work<'_, T, R, D>,
    pass: Pass,
    steps: &[Arc<Step>],
) -> (Pass, Result<Vec<Answer>, End>)
    ensures made { IfOk result.1 (λ answers. (number : ℕ) × MadeInRow pass
        (map arc_value steps.now) (map said answers.items) number result.0) }
    ensures none { IfErr result.1 (λ end. CannotCall end × (result.0 ≡ pass)) }
    ensures adds { (is : AnyStep → Bool) → AllAre is (map arc_value steps.now)
        → Adds is pass result.0 }
{
    let stage = work.stage;
    let claimed = claim_all(stage, steps.len());
    if claimed == 0 {
        return (pass, Err(End::Full));
    }
    match work
        .shift
        .call_all(work.rt, work.alloc, pass, &steps[..claimed])
    {
        Ok((pass, answers, number)) => {
            give_back(stage, claimed - answers.len());
            stage.note_made(number.saturating_add(answers.len() as u64 - 1));
            (pass, Ok(answers))
        }
        Err((pass, fault)) => {
            give_back(stage, claimed - 1);
            (pass, Err(unreached(fault)))
        }
    }
}

/// Claims calls of the shift, at most so many. Says how many were left.
fn claim_all(stage: &Stage, most: usize) -> usize
    ensures { result ≤ most }
{
    for count in 0..most {
        if !stage.claim() {
            return count;
        }
    }
    most
}

/// Gives back so many claims that were not used.
fn give_back(stage: &Stage, count: usize) {
    for _ in 0..count {
        stage.give_back();
    }
}

/// Why no call of a row reached the gateway, whose refusals are answers.
fn unreached(fault: CallFault) -> End
    ensures { CannotCall result }
{
    match refusal_or_end(fault) {
        Err(end) => end,
        Ok(refusal) => {
            drop(refusal);
            End::Memory
        }
    }
}

/// What a refused call means: the gateway's refusal, or why the call did not reach it.
fn refusal_or_end(fault: CallFault) -> Result<NodeFault, End>
    ensures { result ≡ reached_by fault }
{
    match fault {
        CallFault::ShiftFull => Err(End::Full),
        CallFault::Behind { .. } => Err(End::Behind),
        CallFault::Memory => Err(End::Memory),
        CallFault::Node { number: _, fault } => Ok(fault),
    }
}

/// What a refusal of the gateway means for what it was asked: that is dropped. Only want of memory
/// ends anything.
pub fn only_memory(fault: &NodeFault) -> Result<(), NoMemory>
    ensures { MatchResult result (λ _. refusal_of_fault fault.now ≢ refusals.Memory)
        (λ _. refusal_of_fault fault.now ≡ refusals.Memory) }
{
    match fault {
        NodeFault::Memory => Err(NoMemory),
        NodeFault::Frame { .. } | NodeFault::Halted | NodeFault::Disk { .. } => Ok(()),
        NodeFault::Conflict { .. } | NodeFault::Full | NodeFault::Exhausted => Ok(()),
        NodeFault::Journal { .. } => Ok(()),
    }
}

/// Drops what the gateway refused. Only want of memory ends what asked.
pub(crate) fn drop_refusal(fault: NodeFault) -> Result<(), End> {
    let is_dropped = only_memory(&fault);
    drop(fault);
    Ok(is_dropped?)
}

/// Whether the gateway refused since it is halted.
pub fn is_halted(fault: &NodeFault) -> bool
    ensures { result ≡ says_halted (Err (refusal_of_fault fault.now)) }
{
    matches!(fault, NodeFault::Halted)
}
