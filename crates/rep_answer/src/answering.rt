//! The answer to a digest.

ghost use Rattle.std.specs.Prelude.{◌≡◌, ◌≤◌, ℕ, List, ◌||◌, ◌++◌, ◌∷◌, [], Some, map, if◌then◌else◌, IsTrue, IfOk, IfErr, OnOk};
ghost use Rattle.std.specs.List.{flat_map};
ghost use Rattle.rep_ops.specs.Making.{AreWellMade};
ghost use Rattle.rep_ops.specs.Splitting.{all_of};
ghost use Rattle.rep_op.specs.WellMade as made;
ghost use Rattle.rep_model.specs.Ranges as range_list;
ghost use Rattle.rep_answer.specs.Answers.{IsAnswer};
ghost use Rattle.rep_answer.specs.Answers as spec;
ghost use Rattle.rep_digest.specs.WellMade.{IsDigestEntry, AreClients};
ghost use Rattle.rep_answer.specs.Answers.{entry_of};
ghost use Rattle.rep_answer.specs.inner.Steps.{before, outside, outside_from, ack_of_range, left_by_entry, left_by_digest, IsLeftByDigest};
ghost use Rattle.rep_answer.specs.inner.Steps as steps;

use super::cover::{
    acknowledged_in, beginning_by, ending_from, find_entry, in_ranges, sees, waiting_in,
};
use super::topic::covers_retain;
use octets::NoMemory;
use rep_digest::{ClientEntry, Digest};
use rep_model::Replica;
use rep_ops::{ClientId, Delta, Op, OpsFault, deltas_of};
use std::alloc::Global;

/// The operations that a replica must keep and that a digest does not cover, as deltas in the order
/// of their names, each but the last as full as 8,388,608 octets allow. `Memory` is the only fault.
pub fn answer<R: Replica>(
    alloc: Global,
    replica: &R,
    digest: &Digest,
) -> Result<Vec<Delta>, OpsFault>
    ensures ok { IfOk result (λ deltas. IsAnswer digest.now (R.kept replica.now) deltas.items) }
    ensures err { IfErr result (λ fault. fault ≡ OpsFault.Memory) }
{
    let ops = left_of_replica(alloc, replica, digest)?;
    Ok(deltas_of(alloc, ops)?)
}

/// What a digest leaves of the operations that a replica must keep.
fn left_of_replica<R: Replica>(
    alloc: Global,
    replica: &R,
    digest: &Digest,
) -> Result<Vec<Op>, NoMemory>
    ensures { IfOk result (λ ops. AreWellMade ops.items
        × IsLeftByDigest digest.now (R.kept replica.now) ops.items) }
{
    let _clients = digest.clients();
    let Ok(held) = replica.held(alloc) else {
        return Err(NoMemory);
    };
    left_of_deltas(alloc, digest, held.as_slice())
}

/// What a digest leaves of the operations of deltas.
fn left_of_deltas(alloc: Global, digest: &Digest, deltas: &[Delta]) -> Result<Vec<Op>, NoMemory>
    ensures { IfOk result
        (λ ops. ops.items ≡ flat_map (left_by_digest digest.now) (all_of deltas.now)) }
{
    let mut left = Vec::new(alloc);
    for delta in deltas {
        add_left(alloc, &mut left, digest, delta.ops())?;
    }
    Ok(left)
}

/// Copies what a digest leaves of operations after the others.
fn add_left(alloc: Global, left: &mut Vec<Op>, digest: &Digest, ops: &[Op]) -> Result<(), NoMemory>
    requires { AreWellMade ops.now }
    ensures { OnOk result (left.new.items ≡ left.old.items ++ flat_map
        (left_by_digest digest.now) ops.now) }
{
    for op in ops {
        add_left_of(alloc, left, digest, op)?;
    }
    Ok(())
}

/// Copies what a digest leaves of an operation after the others.
fn add_left_of(alloc: Global, left: &mut Vec<Op>, digest: &Digest, op: &Op) -> Result<(), NoMemory>
    requires { IsTrue (made.is_well_made op.now) }
    ensures { OnOk result (left.new.items ≡ left.old.items ++ left_by_digest digest.now op.now) }
{
    match op {
        Op::Session { client, .. } => add_left_in(alloc, left, digest.clients(), client, op),
        Op::Put { client, .. } => add_left_in(alloc, left, digest.clients(), client, op),
        Op::Ack { client, .. } => add_left_in(alloc, left, digest.clients(), client, op),
        Op::Retain { topic, retained } => {
            if !covers_retain(digest.topics(), topic, retained) {
                add_copy(alloc, left, op)?;
            }
            Ok(())
        }
    }
}

/// Copies what the entries of clients leave of an operation of a client after the others.
fn add_left_in(
    alloc: Global,
    left: &mut Vec<Op>,
    entries: &[ClientEntry],
    client: &ClientId,
    op: &Op,
) -> Result<(), NoMemory>
    requires clients { AreClients entries.now }
    requires made { IsTrue (made.is_well_made op.now) }
    ensures { OnOk result (left.new.items
        ≡ left.old.items ++ left_by_entry (entry_of client.now entries.now) op.now) }
{
    match find_entry(entries, client) {
        None => add_copy(alloc, left, op),
        Some(entry) => add_left_by(alloc, left, entry, op),
    }
}

/// Copies what an entry leaves of an operation after the others.
fn add_left_by(
    alloc: Global,
    left: &mut Vec<Op>,
    entry: &ClientEntry,
    op: &Op,
) -> Result<(), NoMemory>
    requires entry { IsDigestEntry entry.now }
    requires made { IsTrue (made.is_well_made op.now) }
    ensures { OnOk result
        (left.new.items ≡ left.old.items ++ left_by_entry (Some entry.now) op.now) }
{
    match op {
        Op::Session { stamp, counter, .. } => {
            add_unless(alloc, left, sees(entry, *stamp, *counter), op)
        }
        Op::Put { put, .. } => add_unless(alloc, left, covers(entry, put.origin, put.seq), op),
        Op::Ack {
            client,
            origin,
            first,
            last,
        } => {
            let ranges = beginning_by(*last, acknowledged_in(entry, *origin));
            let ranges = ending_from(*first, ranges);
            add_outside(alloc, left, client, *origin, (*first, *last), ranges)?;
            Ok(())
        }
        Op::Retain { .. } => add_copy(alloc, left, op),
    }
}

/// Copies an operation after the others, unless it is there.
fn add_unless(alloc: Global, left: &mut Vec<Op>, is_there: bool, op: &Op) -> Result<(), NoMemory>
    ensures { OnOk result (left.new.items
        ≡ left.old.items ++ (if is_there then [] else op.now ∷ [])) }
{
    if is_there {
        return Ok(());
    }
    add_copy(alloc, left, op)
}

/// Copies an operation after the others.
fn add_copy(alloc: Global, left: &mut Vec<Op>, op: &Op) -> Result<(), NoMemory>
    ensures { OnOk result (left.new.items ≡ left.old.items ++ op.now ∷ []) }
{
    left.push(op.copied(alloc)?)?;
    Ok(())
}

/// Whether a message waits or is acknowledged.
fn covers(entry: &ClientEntry, origin: u8, seq: u64) -> bool
    requires { IsDigestEntry entry.now }
    ensures { result
        ≡ (range_list.in_ranges seq (spec.waiting_in origin (Some entry.now))
        || range_list.in_ranges seq
        (spec.acknowledged_in origin (Some entry.now))) }
{
    in_ranges(seq, waiting_in(entry, origin)) || in_ranges(seq, acknowledged_in(entry, origin))
}

/// Puts what of a range of acknowledgements is in none of the ranges after the others.
fn add_outside(
    alloc: Global,
    left: &mut Vec<Op>,
    client: &ClientId,
    origin: u8,
    range: (u64, u64),
    ranges: &[(u64, u64)],
) -> Result<(), NoMemory>
    requires { range.0 ≤ range.1 }
    ensures { OnOk result (left.new.items ≡ left.old.items ++ map (ack_of_range client.now origin)
        (outside range ranges.now)) }
{
    let mut rest = Some(range);
    for covered in ranges {
        rest = add_part(alloc, left, client, origin, rest, *covered)?;
    }
    match rest {
        None => Ok(()),
        Some(range) => add_range(alloc, left, client, origin, range),
    }
}

/// Puts what of the rest of a range is before another after the others. The result is what of the
/// rest is behind that other.
fn add_part(
    alloc: Global,
    left: &mut Vec<Op>,
    client: &ClientId,
    origin: u8,
    rest: Option<(u64, u64)>,
    covered: (u64, u64),
) -> Result<Option<(u64, u64)>, NoMemory>
    ensures { IfOk result (λ next. (more : List (ℕ × ℕ)) → left.new.items ++ map
        (ack_of_range client.now origin) (outside_from next more) ≡ left.old.items ++ map
        (ack_of_range client.now origin) (outside_from rest (covered ∷ more))) }
{
    let Some(range) = rest else {
        return Ok(None);
    };
    add_before(alloc, left, client, origin, range, covered)?;
    Ok(behind(range, covered))
}

/// Puts what of a range is before another after the others, if that other reaches into the range.
fn add_before(
    alloc: Global,
    left: &mut Vec<Op>,
    client: &ClientId,
    origin: u8,
    range: (u64, u64),
    covered: (u64, u64),
) -> Result<(), NoMemory>
    ensures { OnOk result (left.new.items ≡ left.old.items ++ map (ack_of_range client.now origin)
        (before range covered)) }
{
    if range.0 < covered.0 && covered.0 <= range.1 && range.0 <= covered.1 {
        add_range(alloc, left, client, origin, (range.0, covered.0 - 1))?;
    }
    Ok(())
}

/// What of a range is after another.
fn behind(range: (u64, u64), covered: (u64, u64)) -> Option<(u64, u64)>
    ensures { result ≡ steps.behind range covered }
{
    if range.1 < covered.0 || covered.1 < range.0 {
        Some(range)
    } else if covered.1 < range.1 {
        Some((covered.1 + 1, range.1))
    } else {
        None
    }
}

/// Puts the acknowledgements of a range after the others.
fn add_range(
    alloc: Global,
    left: &mut Vec<Op>,
    client: &ClientId,
    origin: u8,
    range: (u64, u64),
) -> Result<(), NoMemory>
    ensures { OnOk result
        (left.new.items ≡ left.old.items ++ ack_of_range client.now origin range ∷ []) }
{
    left.push(Op::Ack {
        client: client.copied(alloc)?,
        origin,
        first: range.0,
        last: range.1,
    })?;
    Ok(())
}
