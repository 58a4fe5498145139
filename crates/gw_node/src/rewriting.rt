//! The journal is written anew, from what is kept; or it is read anew, and the node keeps what it
//! reads.

ghost use Rattle.std.specs.Prelude.{◌≡◌, ◌↔◌, [], IsTrue, IfOk};
ghost use Rattle.rep_model.specs.Held.{IsHeld};
ghost use Rattle.gw_node.specs.Parts.{state_of};
ghost use Rattle.gw_node.specs.inner.Writing.{RewrittenAs};
ghost use Rattle.gw_node.specs.Calls.{CompactCall};
ghost use Rattle.gw_node.specs.Opening.{ReopenCall};
ghost use Rattle.gw_node.specs.inner.Handling.{RefilledAs};
ghost use Rattle.gw_answer.specs.declared.refusal.Refusal.TheVariants as refusals;

use super::carrying::refused;
use super::node::Node;
use super::opening::take_all;
use gw_answer::{Out, Refusal, Shares};
use jr_journal::{Disk, Journal, JournalFault};
use octets::{NoMemory, Sequence};
use rep_model::Replica;
use rep_ops::Delta;
use sn_local::Dialogs;
use std::alloc::Global;

/// What is kept, as deltas.
fn base_of<R: Replica>(alloc: Global, replica: &R) -> Result<Vec<Delta>, NoMemory>
    ensures { IfOk result (λ base. IsHeld (R.kept replica.now) base.items) }
{
    match replica.held(alloc) {
        Ok(base) => Ok(base),
        Err(_) => Err(NoMemory),
    }
}

/// Writes the journal anew.
fn rewrite<D: Disk + Drop>(
    alloc: Global,
    journal: &mut Journal<D>,
    base: &[Delta],
) -> Result<(), JournalFault>
    ensures { RewrittenAs journal.old base.now result journal.new }
{
    journal.compact(alloc, base)
}

/// The journal is to hold what is kept, and nothing else.
pub(crate) fn handle_compact<R: Replica, D: Disk + Drop>(
    alloc: Global,
    node: &mut Node<R, D>,
) -> Result<Shares, Refusal>
    ensures { CompactCall (state_of R.kept node.old) result (state_of R.kept node.new) }
{
    if node.journal.is_halted() {
        return Err(Refusal::Halted);
    }
    let base = base_of(alloc, &node.replica)?;
    let answer = Shares::new(alloc, Out::of_sends(alloc, Sequence::empty(alloc)))?;
    match rewrite(alloc, &mut node.journal, base.as_slice()) {
        Ok(()) => Ok(answer),
        Err(fault) => Err(refused(fault, answer)),
    }
}

/// Whether memory ran out.
fn is_wanting(refusal: &Refusal) -> bool
    ensures { IsTrue result ↔ (refusal.now ≡ refusals.Memory) }
{
    match refusal {
        Refusal::Memory => true,
        Refusal::Frame { .. }
        | Refusal::Halted
        | Refusal::Disk { .. }
        | Refusal::Conflict { .. }
        | Refusal::Full
        | Refusal::Exhausted
        | Refusal::Journal { .. } => false,
    }
}

/// Takes what was read, and nothing but that. `halted`: whether the node had been halted before its
/// journal was read.
fn refill<R: Replica, D: Disk + Drop>(
    alloc: Global,
    node: &mut Node<R, D>,
    replica: R,
    deltas: Vec<Delta>,
    halted: bool,
) -> Result<(), Refusal>
    requires { R.kept replica ≡ [] }
    ensures { RefilledAs (state_of R.kept node.old) deltas.items halted result
        (state_of R.kept node.new) }
{
    let mut replica = replica;
    match take_all(alloc, &mut replica, deltas.as_slice()) {
        Ok(()) => {
            node.idle = None;
            node.tidy = true;
            node.replica = replica;
            node.dialogs = Dialogs::empty(alloc);
            node.records = deltas.len() as u64;
            Ok(())
        }
        Err(refusal) => {
            if halted || !is_wanting(&refusal) {
                node.journal.halt();
            }
            Err(refusal)
        }
    }
}

/// The node is opened again, from what its disk holds.
pub(crate) fn handle_reopen<R: Replica, D: Disk + Drop>(
    alloc: Global,
    node: &mut Node<R, D>,
) -> Result<Shares, Refusal>
    ensures { ReopenCall (state_of R.kept node.old) result (state_of R.kept node.new) }
{
    let Ok(replica) = R::empty(alloc) else {
        return Err(Refusal::Memory);
    };
    let answer = Shares::new(alloc, Out::of_sends(alloc, Sequence::empty(alloc)))?;
    let halted = node.journal.is_halted();
    match node.journal.reopen(alloc) {
        Ok(deltas) => match refill(alloc, node, replica, deltas, halted) {
            Ok(()) => Ok(answer),
            Err(refusal) => Err(refusal),
        },
        Err(fault) => Err(refused(fault, answer)),
    }
}
