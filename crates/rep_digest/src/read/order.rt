//! Whether an entry is in order, and where it may stand.

ghost use Rattle.std.specs.Prelude.{◌≡◌};
ghost use Rattle.std.specs.List.{list_all};
ghost use Rattle.rep_digest.specs.Reading.{ranges_apart};
ghost use Rattle.rep_digest.specs.Reading as spec;

use crate::entry::{ClientEntry, OriginEntry, RetainedEntry};
use rep_op::topic_order;
use std::cmp::Ordering;

/// Whether each range leaves out a number after the one before it.
fn are_apart(ranges: &[(u64, u64)]) -> bool
    ensures { result ≡ ranges_apart ranges.now }
{
    let mut left = ranges;
    while let [range, next, ..] = left {
        if next.0 <= range.1 || next.0 - range.1 < 2 {
            return false;
        }
        left = &left[1..];
    }
    true
}

/// Whether both lists of ranges are in order.
fn is_apart(origin: &OriginEntry) -> bool
    ensures { result ≡ spec.are_apart origin.now }
{
    are_apart(origin.acknowledged.as_slice()) && are_apart(origin.waiting.as_slice())
}

/// Whether the origins strictly ascend.
fn origins_ascend(origins: &[OriginEntry]) -> bool
    ensures { result ≡ spec.origins_ascend origins.now }
{
    let mut left = origins;
    while let [origin, next, ..] = left {
        if next.origin <= origin.origin {
            return false;
        }
        left = &left[1..];
    }
    true
}

/// Whether the ranges of all origins are in order.
fn are_all_apart(origins: &[OriginEntry]) -> bool
    ensures { result ≡ list_all spec.are_apart origins.now }
{
    origins.iter().all(|origin| is_apart(origin))
}

/// Whether an entry may stand after these.
pub fn entry_may_follow(entries: &[ClientEntry], entry: &ClientEntry) -> bool
    ensures { result ≡ spec.entry_may_follow entries.now entry.now }
{
    is_ordered(entry) && is_behind(entries, entry)
}

/// Whether origins and ranges of an entry are in order.
fn is_ordered(entry: &ClientEntry) -> bool
    ensures { result ≡ spec.is_ordered entry.now }
{
    are_all_apart(entry.origins.as_slice()) && origins_ascend(entry.origins.as_slice())
}

ghost use Rattle.rep_ops.specs.Reading.{follows_last};

/// Whether the client comes after those of the entries.
fn is_behind(entries: &[ClientEntry], entry: &ClientEntry) -> bool
    ensures { result ≡ follows_last spec.is_client_next entries.now entry.now }
{
    match entries.last() {
        None => true,
        Some(last) => is_client_next(last, entry),
    }
}

/// Whether the client of the second comes after that of the first.
fn is_client_next(entry: &ClientEntry, next: &ClientEntry) -> bool
    ensures { result ≡ spec.is_client_next entry.now next.now }
{
    entry.client < next.client
}

/// Whether the entry of a topic may stand after these.
pub fn topic_may_follow(entries: &[RetainedEntry], entry: &RetainedEntry) -> bool
    ensures { result ≡ spec.topic_may_follow entries.now entry.now }
{
    match entries.last() {
        None => true,
        Some(last) => is_next_topic(last, entry),
    }
}

/// Whether the topic of the second comes after that of the first.
fn is_next_topic(entry: &RetainedEntry, next: &RetainedEntry) -> bool
    ensures { result ≡ spec.is_next_topic entry.now next.now }
{
    topic_order(&entry.topic, &next.topic).is_lt()
}
