//! Operations of clients, and of topics.

ghost use Rattle.std.specs.Prelude.{◌≤◌, length, take, drop};
ghost use Rattle.rep_op.specs.Orders.{AreOfClients, AreOfTopics};
ghost use Rattle.rep_ops.specs.Deltas.{IsDelta};

use rep_op::Op;

/// How many operations of clients stand in front of those of topics. The time is logarithmic.
pub fn clients_in_front(ops: &[Op]) -> usize
    requires { IsDelta ops.now }
    ensures bound { result ≤ length ops.now }
    ensures clients { AreOfClients (take result ops.now) }
    ensures topics { AreOfTopics (drop result ops.now) }
{
    ops.partition_point(|op| op.is_of_client())
}
