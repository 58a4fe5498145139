//! What is done with a gateway between two shifts.

ghost use Rattle.std.specs.Prelude.{◌≡◌, true, false, OnOk, OnErr, IfErr, MatchResult};
ghost use Rattle.gw_node.specs.Parts.{state_of};
ghost use Rattle.gw_node.specs.Parts as spec;
ghost use Rattle.gw_answer.specs.Answers.{refusal_of_fault};
ghost use Rattle.gw_node.specs.Opening.{ReopenCall};
ghost use Rattle.gw_node.specs.Carrying.{TakesNothing, TakesAgain};
ghost use Rattle.gw_main.specs.Tending.{OpensAnew, TendingEndsAs, EndsRefused, IsTended, IsNotOpened, TakesOn};

use gw_node::{Node, NodeFault};
use jr_journal::Disk;
use rep_model::Replica;
use std::alloc::Global;

/// What became of a gateway that was tended.
#[derive(Clone, Copy, PartialEq, Eq)]
pub enum Tended {
    /// It goes on as it was. Its journal was written anew, unless its generation is the last.
    Kept,
    /// It goes on as it was, with its journal as it was: memory ran out.
    Starved,
    /// It was halted, and was opened anew from its journal. It knows no bindings, dialogs and
    /// timers. Its journal may be a shorter one.
    Reopened,
    /// The disk failed when the journal was written anew. The gateway was opened anew from what the
    /// disk holds, as above.
    Unwritten,
}

/// Tends a gateway between two shifts. One that is halted is opened anew from its journal. Then the
/// journal is written anew without what no longer counts. It stays as it is if its generation is
/// the last there is, or memory ran out. If the disk failed in that, the gateway is opened anew
/// from what the disk holds. What is said tells these cases apart for a gateway that was not
/// halted.
///
/// A gateway that was tended is not halted. The fault is that of an opening, want of memory too,
/// and the gateway is halted then. On an honest disk it has still taken all that it had taken.
pub fn tend<R: Replica, D: Disk + Drop>(
    alloc: Global,
    node: &mut Node<R, D>,
) -> Result<Tended, NodeFault>
    ensures runs { OnOk result (spec.is_halted (state_of R.kept node.new) ≡ false) }
    ensures halts { OnErr result (spec.is_halted (state_of R.kept node.new) ≡ true) }
    ensures tended { MatchResult result (λ tended. IsTended (state_of R.kept node.old) tended
        (state_of R.kept node.new)) (λ fault. IsNotOpened (state_of R.kept node.old)
        (refusal_of_fault fault)
        (state_of R.kept node.new)) }
    ensures taken { D.honest → TakesOn (state_of R.kept node.old) (state_of R.kept node.new) }
{
    if !node.is_halted() {
        return compact(alloc, node);
    }
    open_anew(alloc, node)?;
    match compact(alloc, node) {
        Ok(Tended::Kept) => Ok(Tended::Reopened),
        Ok(Tended::Starved) => Ok(Tended::Reopened),
        Ok(Tended::Unwritten) => Ok(Tended::Unwritten),
        Ok(Tended::Reopened) => unreachable!(),
        Err(fault) => Err(fault),
    }
}

/// Opens a gateway anew.
fn open_anew<R: Replica, D: Disk + Drop>(
    alloc: Global,
    node: &mut Node<R, D>,
) -> Result<(), NodeFault>
    ensures ok { OnOk result (OpensAnew (state_of R.kept node.old) (state_of R.kept node.new)) }
    ensures err { IfErr result
        (λ fault. ReopenCall (state_of R.kept node.old) (Err (refusal_of_fault fault))
        (state_of R.kept node.new)) }
    ensures again { OnOk result (TakesAgain (state_of R.kept node.old) (state_of R.kept node.new)) }
    ensures nothing { OnErr result (TakesNothing (state_of R.kept node.old)
        (state_of R.kept node.new)) }
{
    match node.reopen(alloc) {
        Ok(_) => Ok(()),
        Err(fault) => Err(fault),
    }
}

/// Writes the journal of a gateway anew that is not halted. If the disk failed in that the gateway
/// is opened anew.
fn compact<R: Replica, D: Disk + Drop>(
    alloc: Global,
    node: &mut Node<R, D>,
) -> Result<Tended, NodeFault>
    requires { spec.is_halted (state_of R.kept node.old) ≡ false }
    ensures runs { OnOk result (spec.is_halted (state_of R.kept node.new) ≡ false) }
    ensures halts { OnErr result (spec.is_halted (state_of R.kept node.new) ≡ true) }
    ensures ends { MatchResult result (λ tended. TendingEndsAs (state_of R.kept node.old) tended
        (state_of R.kept node.new)) (λ fault. EndsRefused (state_of R.kept node.old)
        (refusal_of_fault fault)
        (state_of R.kept node.new)) }
    ensures taken { D.honest → TakesOn (state_of R.kept node.old) (state_of R.kept node.new) }
{
    match node.compact(alloc) {
        Err(NodeFault::Disk { .. }) => match open_anew(alloc, node) {
            Ok(()) => Ok(Tended::Unwritten),
            Err(fault) => Err(fault),
        },
        Err(NodeFault::Memory) => Ok(Tended::Starved),
        Ok(_) | Err(_) => Ok(Tended::Kept),
    }
}
