//! What must be kept of all clients.

ghost use Rattle.std.specs.Prelude.{◌≡◌, ◌++◌, filter, IfOk, OnOk};
ghost use Rattle.rep_model.specs.Keep.{keep};
ghost use Rattle.rep_model.specs.Keep as keeps;
ghost use Rattle.rep_plain.specs.inner.Rows.{kept_rows};
ghost use Rattle.rep_plain.specs.inner.Steps as spec;
ghost use Rattle.rep_plain.specs.Tables.{rows_of, IsPlainEntry, AreEntries};

use super::entry::Entry;
use super::news::push_copy;
use super::ranges::{Range, is_covered, ranges_of};
use super::table::Table;
use octets::NoMemory;
use rep_ops::{ClientId, Op, Stamp};
use std::alloc::Global;

/// The operations that must be kept, client by client.
pub(crate) fn kept_ops(alloc: Global, table: &Table) -> Result<Vec<Op>, NoMemory>
    requires { AreEntries table.now.entries }
    ensures { IfOk result (λ kept. kept.items ≡ kept_rows (rows_of table.now.entries)) }
{
    let mut kept = Vec::new(alloc);
    for (client, entry) in table {
        add_kept(alloc, &mut kept, client, entry)?;
    }
    Ok(kept)
}

/// Copies the operations of a client that must be kept after the others.
fn add_kept(
    alloc: Global,
    kept: &mut Vec<Op>,
    client: &ClientId,
    entry: &Entry,
) -> Result<(), NoMemory>
    requires { IsPlainEntry client.now entry.now }
    ensures { OnOk result (kept.new.items ≡ kept.old.items ++ keep entry.now.ops.items) }
{
    let ops = entry.ops.as_slice();
    let ranges = ranges_of(alloc, ops, client)?;
    push_kept(alloc, kept, ops, entry.seen.stamp, ranges.as_slice())
}

/// Copies the operations after the others that the visible stamp and the acknowledgements leave.
fn push_kept(
    alloc: Global,
    kept: &mut Vec<Op>,
    ops: &[Op],
    visible: Option<Stamp>,
    ranges: &[Range],
) -> Result<(), NoMemory>
    ensures { OnOk result (kept.new.items ≡ kept.old.items ++ filter
        (spec.must_stay visible ranges.now) ops.now) }
{
    for op in ops {
        if must_stay(op, visible, ranges) {
            push_copy(alloc, kept, op)?;
        }
    }
    Ok(())
}

/// Whether an operation must be kept, by the visible stamp and the acknowledgements of its client.
fn must_stay(op: &Op, visible: Option<Stamp>, ranges: &[Range]) -> bool
    ensures { result ≡ spec.must_stay visible ranges.now op.now }
{
    match op {
        Op::Session { stamp, .. } => !is_below(*stamp, visible),
        Op::Put { put, .. } => !is_covered(ranges, put.seq, put.origin),
        Op::Ack { .. } | Op::Retain { .. } => true,
    }
}

/// Whether a stamp is below the visible one.
fn is_below(stamp: Stamp, visible: Option<Stamp>) -> bool
    ensures { result ≡ keeps.is_below stamp visible }
{
    match visible {
        Some(seen) => stamp < seen,
        None => false,
    }
}
