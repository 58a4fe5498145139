//! Numbers as ranges: one more among others, and how many stand above a gap. What a range costs
//! does not depend on its length.

ghost use Rattle.std.specs.Prelude.{◌≡◌, ◌+◌, IfOk, nat_lt, nat_le, if◌then◌else◌, max, sum_by};
ghost use Rattle.rep_model.specs.Limits.{size_of, above_a_gap};
ghost use Rattle.rep_model.specs.Limits as limits;
ghost use Rattle.rep_shared.specs.Steps.{capped};

use octets::NoMemory;
use std::alloc::Global;

/// Ranges in ascending order with one more; those that overlap or touch become one. Fails only for
/// want of memory.
pub fn with_range(
    alloc: Global,
    range: (u64, u64),
    ranges: &[(u64, u64)],
) -> Result<Vec<(u64, u64)>, NoMemory>
    ensures { IfOk result (λ made. made.items ≡ limits.with_range range ranges.now) }
{
    let mut made = Vec::new(alloc);
    let mut open = range;
    let mut i = 0;
    while i < ranges.len() && !ends_before(open, ranges[i]) {
        if ends_before(ranges[i], open) {
            made.push(ranges[i])?;
        } else {
            open = united(open, ranges[i]);
        }
        i += 1;
    }
    made.push(open)?;
    made.extend_from_slice(&ranges[i..])?;
    Ok(made)
}

/// Whether at least one number stands between the end of a range and the begin of the other.
fn ends_before(range: (u64, u64), other: (u64, u64)) -> bool
    ensures { result ≡ nat_lt (range.1 + 1) other.0 }
{
    range.1 < other.0 && other.0 - range.1 > 1
}

/// The range from the lesser begin to the greater end.
fn united(range: (u64, u64), other: (u64, u64)) -> (u64, u64)
    ensures { result ≡ (if nat_le range.0 other.0 then range.0 else other.0, max range.1 other.1) }
{
    let first = if range.0 <= other.0 { range.0 } else { other.0 };
    (first, range.1.max(other.1))
}

/// How many numbers are above one that is in none of the ranges.
pub fn above_gap(ranges: &[(u64, u64)]) -> u64
    ensures { result ≡ capped (above_a_gap ranges.now) }
{
    match ranges {
        [first, rest @ ..] if first.0 <= 1 => sum_of_sizes(rest),
        _ => sum_of_sizes(ranges),
    }
}

/// How many numbers are in the ranges.
fn sum_of_sizes(ranges: &[(u64, u64)]) -> u64
    ensures { result ≡ capped (sum_by size_of ranges.now) }
{
    let mut count = 0u64;
    for range in ranges {
        count = count.saturating_add(size(*range));
    }
    count
}

/// How many numbers are in a range.
fn size(range: (u64, u64)) -> u64
    ensures { result ≡ capped (size_of range) }
{
    if range.0 <= range.1 {
        (range.1 - range.0).saturating_add(1)
    } else {
        0
    }
}
