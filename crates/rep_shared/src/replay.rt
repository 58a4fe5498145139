//! The session operations of a client: in order, those that wait, and the session after one more.

ghost use Rattle.std.specs.Prelude.{◌≡◌, List, ◌∷◌, IfOk, OnOk};
ghost use Rattle.rep_op.specs.declared.op.Op.{Op};
ghost use Rattle.rep_op.specs.Orders.{operation_cmp};
ghost use Rattle.rep_op.specs.Sets.{operations};
ghost use Rattle.rep_model.specs.Views.{in_order, after_change};
ghost use Rattle.std.specs.Prelude.{count_by};
ghost use Rattle.std.specs.BTreeMap.{keys};
ghost use Rattle.rep_shared.specs.Steps as spec;

use octets::NoMemory;
use rep_ops::{ClientId, Op, Stamp};
use sn_session::{Session, SessionOp};
use sn_tables::SessionFault;
use std::alloc::Global;
use std::cmp::Ordering;
use std::collections::BTreeMap;

/// The session operations of the client in the order of their names, of each name the first.
pub fn operations_in_order(
    alloc: Global,
    ops: &[Op],
    client: &ClientId,
) -> Result<BTreeMap<(Stamp, u8), SessionOp>, NoMemory>
    ensures { IfOk result (λ known. known.entries ≡ in_order operation_cmp
        (operations client.now ops.now)) }
{
    let mut known = BTreeMap::new(alloc);
    let mut i = ops.len();
    while i > 0 {
        i -= 1;
        note_operation(alloc, &mut known, &ops[i], client)?;
    }
    Ok(known)
}

/// Enters an operation in front of those that are known.
fn note_operation(
    alloc: Global,
    known: &mut BTreeMap<(Stamp, u8), SessionOp>,
    op: &Op,
    client: &ClientId,
) -> Result<(), NoMemory>
    ensures { (S : List Op) → known.old.entries ≡ in_order operation_cmp (operations client.now S)
        → OnOk result (known.new.entries ≡ in_order operation_cmp
        (operations client.now (op.now ∷ S))) }
{
    match op {
        Op::Session {
            client: owner,
            stamp,
            counter,
            change,
        } if owner == client => {
            drop(known.insert((*stamp, *counter), change.copied(alloc)?)?);
        }
        _ => {}
    }
    Ok(())
}

/// A session after one more operation; a Take begins it. One that finds its table full leaves it as
/// it was. Fails only for want of memory.
pub fn changed(
    alloc: Global,
    session: Option<Session>,
    change: &SessionOp,
) -> Result<Option<Session>, NoMemory>
    ensures { IfOk result (λ made. made ≡ after_change session change.now) }
{
    match session {
        Some(mut session) => {
            match session.apply(alloc, change) {
                Ok(()) | Err(SessionFault::Full) => Ok(Some(session)),
                Err(SessionFault::Memory) => {
                    drop(session);
                    Err(NoMemory)
                }
            }
        }
        None => match change {
            SessionOp::Take(taken) => Ok(Some(taken.copied(alloc)?)),
            _ => Ok(None),
        },
    }
}

/// How many of the operations wait for earlier ones.
pub fn count_parked(
    known: &BTreeMap<(Stamp, u8), SessionOp>,
    visible: Option<Stamp>,
    prefix: u16,
) -> usize
    ensures { result ≡ count_by (spec.waits visible prefix) (keys known.now) }
{
    known
        .keys()
        .filter(|name| waits(**name, visible, prefix))
        .count()
}

/// Whether an operation of that name waits for earlier ones.
fn waits(name: (Stamp, u8), visible: Option<Stamp>, prefix: u16) -> bool
    ensures { result ≡ spec.waits visible prefix name }
{
    match visible {
        None => true,
        Some(seen) => match name.0.cmp(&seen) {
            Ordering::Less => false,
            Ordering::Equal => name.1 as u16 >= prefix,
            Ordering::Greater => true,
        },
    }
}
