//! The name of an operation.

ghost use Rattle.std.specs.Prelude.{◌≡◌, IfOk};
ghost use Rattle.gw_relay.specs.News as spec;

use octets::NoMemory;
use rep_ops::{Op, Subject};
use std::alloc::Global;

/// The name of an operation, and of acknowledgements their range: what tells it from others,
/// without what it says.
pub struct Name {
    /// What it is an operation on.
    pub of: Subject,
    /// 0 a change of a session, 1 a message, 2 acknowledgements, 3 what is retained.
    pub kind: u8,
    /// The gateway of its stamp, or that made its messages, or that retained it.
    pub gateway: u8,
    /// The epoch of its stamp, or the first of its messages, or its clock.
    pub first: u64,
    /// The counter below its stamp, or the last of its messages, or its clock.
    pub last: u64,
}

impl Drop for Name {
    fn drop(self) {
        let Name {
            of,
            kind: _,
            gateway: _,
            first: _,
            last: _,
        } = self;
        drop(of);
    }
}

/// The name of an operation. The only fault is want of memory.
pub fn name_of(alloc: Global, op: &Op) -> Result<Name, NoMemory>
    ensures { IfOk result (λ name. name ≡ spec.name_of_op op.now) }
{
    let of = op.subject(alloc)?;
    match op {
        Op::Session { stamp, counter, .. } => Ok(Name {
            of,
            kind: 0,
            gateway: stamp.gateway,
            first: stamp.epoch,
            last: u64::from(*counter),
        }),
        Op::Put { put, .. } => Ok(Name {
            of,
            kind: 1,
            gateway: put.origin,
            first: put.seq,
            last: put.seq,
        }),
        Op::Ack {
            origin,
            first,
            last,
            ..
        } => Ok(Name {
            of,
            kind: 2,
            gateway: *origin,
            first: *first,
            last: *last,
        }),
        Op::Retain { retained, .. } => Ok(Name {
            of,
            kind: 3,
            gateway: retained.gateway,
            first: retained.clock,
            last: retained.clock,
        }),
    }
}
