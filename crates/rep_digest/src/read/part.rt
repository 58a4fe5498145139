//! The parts of an entry.

ghost use Rattle.std.specs.Prelude.{◌≡◌, []};
ghost use Rattle.rep_read.specs.Reading.{ReadsAs, range_at, many_at};
ghost use Rattle.rep_digest.specs.Reading.{ranges_at, origin_at, seen_at};

use crate::entry::OriginEntry;
use octets::Sequence;
use rep_ops::{
    MAX_OPERATIONS, OpsFault, read_counted_eight, read_counted_octet, read_eight, read_four,
    read_octet, read_two,
};
use std::alloc::Global;

/// A range.
#[tactic(auto, unfolding(rep_read::specs::Reading::range_at))]
fn read_range(bytes: &[u8]) -> Result<((u64, u64), &[u8]), OpsFault>
    ensures { ReadsAs (λ x. (x.0, x.1.now)) result (range_at bytes.now) }
{
    let (first, rest) = read_counted_eight(bytes)?;
    let (last, rest) = read_eight(rest)?;
    if first > last {
        return Err(OpsFault::Kind);
    }
    Ok(((first, last), rest))
}

/// So many ranges.
fn read_each_range(
    alloc: Global,
    count: u32,
    bytes: &[u8],
) -> Result<(Vec<(u64, u64)>, &[u8]), OpsFault>
    ensures { ReadsAs (λ x. (x.0.items, x.1.now)) result (many_at range_at count [] bytes.now) }
{
    let mut ranges = Vec::new(alloc);
    let mut rest = bytes;
    for _ in 0..count {
        let (range, after) = read_range(rest)?;
        ranges.push(range)?;
        rest = after;
    }
    Ok((ranges, rest))
}

/// Ranges.
#[tactic(auto, unfolding(crate::specs::Reading::ranges_at))]
fn read_ranges(alloc: Global, bytes: &[u8]) -> Result<(Sequence<(u64, u64)>, &[u8]), OpsFault>
    ensures { ReadsAs (λ x. (x.0, x.1.now)) result (ranges_at bytes.now) }
{
    let (count, rest) = read_four(bytes)?;
    let (ranges, rest) = read_each_range(alloc, count, rest)?;
    Ok((Sequence::new(ranges), rest))
}

/// An origin.
#[tactic(auto, unfolding(crate::specs::Reading::origin_at))]
pub fn read_origin(alloc: Global, bytes: &[u8]) -> Result<(OriginEntry, &[u8]), OpsFault>
    ensures { ReadsAs (λ x. (x.0, x.1.now)) result (origin_at bytes.now) }
{
    let (origin, rest) = read_counted_octet(bytes)?;
    let (acknowledged, rest) = read_ranges(alloc, rest)?;
    let (waiting, rest) = read_ranges(alloc, rest)?;
    let entry = OriginEntry {
        origin,
        acknowledged,
        waiting,
    };
    if !entry.has_ranges() {
        drop(entry);
        return Err(OpsFault::Kind);
    }
    Ok((entry, rest))
}

/// Epoch, gateway and prefix: all 0, or none of them.
#[tactic(auto, unfolding(crate::specs::Reading::seen_at))]
pub fn read_seen(bytes: &[u8]) -> Result<((u64, u8, u16), &[u8]), OpsFault>
    ensures { ReadsAs (λ x. ((x.0.0, (x.0.1, x.0.2)), x.1.now)) result (seen_at bytes.now) }
{
    let (epoch, rest) = read_eight(bytes)?;
    let (gateway, rest) = read_octet(rest)?;
    let (prefix, rest) = read_two(rest)?;
    if !is_seen(epoch, gateway, prefix) {
        return Err(OpsFault::Kind);
    }
    Ok(((epoch, gateway, prefix), rest))
}

ghost use Rattle.rep_digest.specs.Reading as spec;

/// Whether all are 0, or none of them, and the prefix not over its limit.
fn is_seen(epoch: u64, gateway: u8, prefix: u16) -> bool
    ensures { result ≡ spec.is_seen (epoch, (gateway, prefix)) }
{
    if epoch == 0 {
        gateway == 0 && prefix == 0
    } else {
        gateway >= 1 && prefix >= 1 && prefix <= MAX_OPERATIONS
    }
}
