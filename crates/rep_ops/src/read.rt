//! Reading a delta.

ghost use Rattle.std.specs.Prelude.{◌≡◌, ◌<◌, [], Err, length};
ghost use Rattle.rep_ops.specs.Spelling.{max_octets};
ghost use Rattle.rep_read.specs.Reading.{ReadsAs, op_at};
ghost use Rattle.rep_ops.specs.Reading.{listed_at, values_at, text_at, needed_at, delta_at, reading_by};
ghost use Rattle.rep_ops.specs.inner.Known.{known_at};
ghost use Rattle.rep_ops.specs.Reading as spec;

use super::size::MAX_OCTETS;
use super::version::is_two_needed;
use rep_op::{Op, OpsFault, Version, name_order};
use rep_read::{read_four, read_octet, read_op};
use std::alloc::Global;
use std::cmp::Ordering;

/// Whether the second is no range that overlaps or touches the first.
fn is_apart(a: &Op, b: &Op) -> bool
    ensures { result ≡ spec.is_apart a.now b.now }
{
    match (a, b) {
        (
            Op::Ack {
                client,
                origin,
                last,
                ..
            },
            Op::Ack {
                client: other,
                origin: later,
                first: start,
                ..
            },
        ) => client != other || origin != later || *last < *start && *start - *last > 1,
        _ => true,
    }
}

/// Whether an operation may stand after these.
fn may_follow(ops: &[Op], op: &Op) -> bool
    ensures { result ≡ spec.may_follow ops.now op.now }
{
    match ops.last() {
        None => true,
        Some(last) => match name_order(last, op) {
            Ordering::Less => is_apart(last, op),
            Ordering::Equal => false,
            Ordering::Greater => false,
        },
    }
}

/// So many operations of a text of this version.
fn read_ops(
    alloc: Global,
    version: Version,
    count: u32,
    bytes: &[u8],
) -> Result<(Vec<Op>, &[u8]), OpsFault>
    ensures { ReadsAs (λ x. (x.0.items, x.1.now)) result
        (listed_at (op_at version) spec.may_follow count [] bytes.now) }
{
    let mut ops = Vec::new(alloc);
    let mut rest = bytes;
    for _ in 0..count {
        let (op, after) = read_op(alloc, version, rest)?;
        if !may_follow(ops.as_slice(), &op) {
            drop(op);
            drop(ops);
            return Err(OpsFault::Order);
        }
        ops.push(op)?;
        rest = after;
    }
    Ok((ops, rest))
}

/// The count, and so many operations of a text of this version.
fn read_values(alloc: Global, version: Version, bytes: &[u8]) -> Result<(Vec<Op>, &[u8]), OpsFault>
    ensures { ReadsAs (λ x. (x.0.items, x.1.now)) result
        (values_at (op_at version) spec.may_follow bytes.now) }
{
    let (count, rest) = read_four(bytes)?;
    read_ops(alloc, version, count, rest)
}

/// The operations of a text of version 2, which one of them needs.
#[tactic(auto, unfolding(crate::specs::Reading::needed_at))]
fn read_needed(alloc: Global, bytes: &[u8]) -> Result<(Vec<Op>, &[u8]), OpsFault>
    ensures { ReadsAs (λ x. (x.0.items, x.1.now)) result (needed_at bytes.now) }
{
    let (ops, rest) = read_values(alloc, Version::Two, bytes)?;
    if !is_two_needed(ops.as_slice()) {
        return Err(OpsFault::Version);
    }
    Ok((ops, rest))
}

/// The operations of a text, after its version.
#[tactic(auto, unfolding(crate::specs::Reading::delta_at))]
fn read_text(alloc: Global, bytes: &[u8]) -> Result<(Vec<Op>, &[u8]), OpsFault>
    ensures { ReadsAs (λ x. (x.0.items, x.1.now)) result (delta_at bytes.now) }
{
    let (version, rest) = read_octet(bytes)?;
    match version {
        1 => read_values(alloc, Version::One, rest),
        2 => read_needed(alloc, rest),
        _ => Err(OpsFault::Version),
    }
}

/// The operations of a text of version 1, after its version.
#[tactic(auto, unfolding(crate::specs::Reading::text_at))]
fn read_text_one(alloc: Global, bytes: &[u8]) -> Result<(Vec<Op>, &[u8]), OpsFault>
    ensures { ReadsAs (λ x. (x.0.items, x.1.now)) result
        (text_at (op_at Version.One) spec.may_follow bytes.now) }
{
    let (version, rest) = read_octet(bytes)?;
    if version != 1 {
        return Err(OpsFault::Version);
    }
    read_values(alloc, Version::One, rest)
}

/// The operations of a text, after its version, as what knows this version and those before it
/// reads them.
fn read_known(alloc: Global, known: Version, bytes: &[u8]) -> Result<(Vec<Op>, &[u8]), OpsFault>
    ensures { ReadsAs (λ x. (x.0.items, x.1.now)) result (known_at known bytes.now) }
{
    match known {
        Version::One => read_text_one(alloc, bytes),
        Version::Two => read_text(alloc, bytes),
    }
}

/// The operations of the delta that the octets spell, as what knows this version and those before
/// it reads them.
#[tactic(auto, unfolding(crate::specs::Reading::whole_at))]
pub fn read_delta(alloc: Global, known: Version, bytes: &[u8]) -> Result<Vec<Op>, OpsFault>
    ensures reads { ReadsAs (λ v. v.items) result (reading_by (known_at known) bytes.now) }
    ensures limit { max_octets < length bytes.now → result ≡ Err OpsFault.Limit }
{
    if bytes.len() > MAX_OCTETS {
        return Err(OpsFault::Limit);
    }
    let (ops, rest) = read_known(alloc, known, bytes)?;
    if !rest.is_empty() {
        return Err(OpsFault::Trailing);
    }
    Ok(ops)
}
