//! The session operations of a client that are there without a gap, and the session that they make.

ghost use Rattle.std.specs.Prelude.{◌≡◌, length, IfOk};
ghost use Rattle.std.specs.FinMap.{find};
ghost use Rattle.rep_op.specs.Orders.{operation_cmp};
ghost use Rattle.rep_model.specs.Views.{history_at, session_made};

use octets::NoMemory;
use rep_ops::{MAX_OPERATIONS, Stamp};
use rep_shared::changed;
use sn_session::{Session, SessionOp};
use std::alloc::Global;
use std::collections::BTreeMap;

/// How many operations of the stamp there are from 0 on without a gap, and the session that they
/// make.
pub(crate) fn replay(
    alloc: Global,
    known: &BTreeMap<(Stamp, u8), SessionOp>,
    visible: Option<Stamp>,
) -> Result<(u16, Option<Session>), NoMemory>
    ensures prefix { IfOk result (λ made. made.0
        ≡ length (history_at (λ name. find operation_cmp name known.now.entries) visible)) }
    ensures session { IfOk result (λ made. made.1 ≡ session_made
        (history_at (λ name. find operation_cmp name known.now.entries) visible)) }
{
    let Some(stamp) = visible else {
        return Ok((0, None));
    };
    let mut session = None;
    for counter in 0..MAX_OPERATIONS {
        let Some(change) = known.get(&(stamp, counter as u8)) else {
            return Ok((counter, session));
        };
        session = changed(alloc, session, change)?;
    }
    Ok((MAX_OPERATIONS, session))
}
