//! The session that operations without a gap make, gone on with.

ghost use Rattle.std.specs.Prelude.{◌≡◌, ◌++◌, ◌≤◌, length, Some, IfOk, T};
ghost use Rattle.std.specs.FinMap.{find, is_sorted};
ghost use Rattle.std.specs.Option.{option_copied};
ghost use Rattle.rep_op.specs.Orders.{operation_cmp};
ghost use Rattle.rep_op.specs.declared.op.TheConstants.{MAX_OPERATIONS};
ghost use Rattle.rep_model.specs.Views.{session_made};
ghost use Rattle.rep_log.specs.Logs.{history_in};
ghost use Rattle.rep_shared.specs.inner.Replays.{IsReplayed};

use super::named_ops::{NamedOp, find_op};
use octets::NoMemory;
use rep_ops::{MAX_OPERATIONS, Stamp};
use rep_shared::changed;
use sn_session::{Session, SessionOp};
use std::alloc::Global;

/// The operation of that name among some, or among others.
pub(crate) fn find_among<'a>(
    first: &'a [NamedOp],
    more: &'a [NamedOp],
    stamp: Stamp,
    counter: u8,
) -> Option<&'a SessionOp>
    requires first { T (is_sorted operation_cmp first.now) }
    requires more { T (is_sorted operation_cmp more.now) }
    ensures { option_copied result
        ≡ find operation_cmp (stamp, counter) (first.now ++ more.now) }
{
    match find_op(first, stamp, counter) {
        Some(change) => Some(change),
        None => find_op(more, stamp, counter),
    }
}

/// Goes on with a session of `from` operations as far as there is no gap.
pub(crate) fn go_on(
    alloc: Global,
    first: &[NamedOp],
    more: &[NamedOp],
    stamp: Stamp,
    from: u16,
    session: Option<Session>,
) -> Result<(u16, Option<Session>), NoMemory>
    requires first { T (is_sorted operation_cmp first.now) }
    requires more { T (is_sorted operation_cmp more.now) }
    requires replayed { (from ≤ MAX_OPERATIONS) × IsReplayed
        (λ k. find operation_cmp (stamp, k) (first.now ++ more.now)) session from }
    ensures prefix { IfOk result (λ made. made.0
        ≡ length (history_in (first.now ++ more.now) (Some stamp))) }
    ensures session { IfOk result (λ made. made.1 ≡ session_made
        (history_in (first.now ++ more.now) (Some stamp))) }
{
    let mut session = session;
    let mut prefix = from;
    while prefix < MAX_OPERATIONS {
        let Some(change) = find_among(first, more, stamp, prefix as u8) else {
            return Ok((prefix, session));
        };
        session = changed(alloc, session, change)?;
        prefix += 1;
    }
    Ok((prefix, session))
}
