//! What must be kept of clients and topics.

ghost use Rattle.std.specs.Prelude.{◌++◌, IfOk};
ghost use Rattle.rep_op.specs.Orders.{AreOfClients};
ghost use Rattle.rep_op.specs.Sets.{Same};
ghost use Rattle.rep_ops.specs.Making.{AreWellMade};
ghost use Rattle.rep_model.specs.Keep.{keep};
ghost use Rattle.rep_retain.specs.Tables.{ops_of};

use crate::Topics;
use octets::NoMemory;
use rep_ops::Op;
use rep_shared::ClientSet;
use std::alloc::Global;

/// The operations that must be kept of both, in any order.
pub(crate) fn both_to_keep<C: ClientSet>(
    alloc: Global,
    clients: &C,
    topics: &Topics,
) -> Result<Vec<Op>, NoMemory>
    requires { AreOfClients (C.kept clients.now) }
    ensures same { IfOk result (λ ops. Same ops.items
        (keep (C.kept clients.now ++ ops_of topics.now))) }
    ensures well { IfOk result (λ ops. AreWellMade ops.items) }
    ensures made { AreWellMade (C.kept clients.now ++ ops_of topics.now) }
{
    topics.are_made();
    let mut ops = clients.to_keep(alloc)?;
    match topics.push_to(alloc, &mut ops) {
        Ok(()) => Ok(ops),
        Err(fault) => {
            drop(ops);
            Err(fault)
        }
    }
}
