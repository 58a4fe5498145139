//! A gateway is opened, and takes what its journal holds.

ghost use Rattle.std.specs.Prelude.{◌≡◌, [], length, IfOk, IfErr, IfSome, OnOk};
ghost use Rattle.std.specs.Arc.{arc_value};
ghost use Rattle.rep_ops.specs.Splitting.{all_of};
ghost use Rattle.jr_journal.specs.Parts as spec;
ghost use Rattle.sn_local.specs.Locals.{no_local};
ghost use Rattle.gw_node.specs.Parts.{state_of, records_of};
ghost use Rattle.gw_answer.specs.Answers.{refusal_of_fault, only_sends};
ghost use Rattle.gw_node.specs.inner.Writing.{refusal_of_journal};
ghost use Rattle.gw_node.specs.Keeping.{Keeps};
ghost use Rattle.gw_node.specs.Opening.{FitInTurn};
ghost use Rattle.gw_node.specs.inner.Opening.{DoNotFit};

use super::carrying::prepare;
use super::node::Node;
use gw_answer::{NodeFault, Out, Refusal};
use jr_journal::{Disk, Journal, JournalFault};
use octets::Sequence;
use rep_model::Replica;
use rep_ops::Delta;
use sn_local::{Config, Dialogs};
use std::alloc::Global;
use std::sync::Arc;

/// Takes deltas, one after the other.
pub(crate) fn take_all<R: Replica>(
    alloc: Global,
    replica: &mut R,
    deltas: &[Delta],
) -> Result<(), Refusal>
    requires { R.kept replica.old ≡ [] }
    ensures ok { OnOk result (Keeps (all_of deltas.now) (R.kept replica.new)) }
    ensures fits { OnOk result (FitInTurn [] deltas.now) }
    ensures none { OnOk result (deltas.now ≡ [] → R.kept replica.new ≡ []) }
    ensures err { IfErr result (DoNotFit deltas.now) }
{
    for delta in deltas {
        match prepare(alloc, replica, delta) {
            Ok(staged) => replica.commit(staged),
            Err(refusal) => return Err(refusal),
        }
    }
    Ok(())
}

/// A node on a journal of which these deltas are the records.
pub(crate) fn start<R: Replica, D: Disk + Drop>(
    alloc: Global,
    config: Config,
    replica: R,
    journal: Journal<D>,
    deltas: Vec<Delta>,
) -> Result<Node<R, D>, (D, NodeFault)>
    requires { R.kept replica ≡ [] }
    ensures config { IfOk result (λ node. (state_of R.kept node).config ≡ config) }
    ensures local { IfOk result (λ node. (state_of R.kept node).local ≡ no_local) }
    ensures journal { IfOk result (λ node. (state_of R.kept node).journal ≡ journal) }
    ensures records { IfOk result (λ node. records_of node ≡ length deltas.items) }
    ensures keeps { IfOk result (λ node. Keeps (all_of deltas.items) (state_of R.kept node).kept) }
    ensures fits { OnOk result (FitInTurn [] deltas.items) }
    ensures none { IfOk result (λ node. deltas.items ≡ [] → (state_of R.kept node).kept ≡ []) }
    ensures disk { IfErr result (λ refused. refused.0 ≡ spec.disk_under journal) }
    ensures err { IfErr result (λ refused. DoNotFit deltas.items (refusal_of_fault refused.1)) }
{
    let mut replica = replica;
    match take_all(alloc, &mut replica, deltas.as_slice()) {
        Ok(()) => Ok(Node {
            config,
            replica,
            dialogs: Dialogs::empty(alloc),
            journal,
            records: deltas.len() as u64,
            idle: None,
            tidy: true,
        }),
        Err(refusal) => Err((journal.into_disk(), refusal.into_one())),
    }
}

/// What is answered where the disk fails: nothing.
pub(crate) fn nothing(alloc: Global) -> Option<Arc<Out>>
    ensures { IfSome result (λ out. arc_value out ≡ only_sends []) }
{
    Arc::new(alloc, Out::of_sends(alloc, Sequence::empty(alloc))).ok()
}

/// A fault of the journal, with what is answered.
pub(crate) fn not_opened(fault: JournalFault, out: Arc<Out>) -> NodeFault
    ensures { refusal_of_fault result ≡ refusal_of_journal fault (arc_value out) }
{
    match fault {
        JournalFault::Disk => NodeFault::Disk { out },
        JournalFault::Halted => NodeFault::Halted,
        JournalFault::Memory => NodeFault::Memory,
        JournalFault::Foreign | JournalFault::BadRecord { .. } => NodeFault::Journal { fault },
    }
}
