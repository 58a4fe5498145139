//! What of a delta is new.

ghost use Rattle.std.specs.Prelude.{◌≡◌, not};
ghost use Rattle.std.specs.List.{list_any};
ghost use Rattle.std.specs.Ordering.{is_lt};
ghost use Rattle.sn_tables.specs.inner.Tables.{IsPlace};
ghost use Rattle.rep_op.specs.declared.op.Op.TheVariants.{Retain as OfRetain};
ghost use Rattle.rep_op.specs.Orders.{topic_name_cmp, clock_of, clock_cmp};
ghost use Rattle.rep_model.specs.Keep as keeps;
ghost use Rattle.rep_model.specs.Limits as limits;
ghost use Rattle.rep_digest.specs.WellMade.{TopicsAscend};
ghost use Rattle.gw_relay.specs.News as spec;

use crate::name::Name;
use rep_digest::{ClientEntry, Digest, OriginEntry, RetainedEntry};
use rep_op::topic_order;
use rep_ops::{ClientId, Op, Retained, Stamp, Subject};
use sn_topic::TopicName;

/// Whether a delta has an operation that is not known: no digest covers it, and it was not noted.
pub fn brings_news(digest: &Digest, notes: &[Name], ops: &[Op]) -> bool
    ensures { result ≡ list_any (λ op. not (spec.is_op_known digest.now notes.now op)) ops.now }
{
    ops.iter().any(|op| !is_op_known(digest, notes, op))
}

/// The same where there is no digest: whether one of the operations was not noted.
pub fn brings_unnoted(notes: &[Name], ops: &[Op]) -> bool
    ensures { result ≡ list_any (λ op. not (spec.is_noted notes.now op)) ops.now }
{
    ops.iter().any(|op| !is_noted(notes, op))
}

/// Whether a digest covers an operation, or it was noted since.
pub fn is_op_known(digest: &Digest, notes: &[Name], op: &Op) -> bool
    ensures { result ≡ spec.is_op_known digest.now notes.now op.now }
{
    is_covered(digest, op) || is_noted(notes, op)
}

/// Whether a digest covers an operation.
pub fn is_covered(digest: &Digest, op: &Op) -> bool
    ensures { result ≡ spec.is_covered digest.now op.now }
{
    has_of_clients(digest, op) || has_of_topics(digest, op)
}

/// Whether an entry of a client covers an operation.
fn has_of_clients(digest: &Digest, op: &Op) -> bool
    ensures { result ≡ list_any (spec.is_covered_by op.now) digest.now.clients }
{
    if !op.is_of_client() {
        return false;
    }
    digest
        .clients()
        .iter()
        .any(|entry| is_covered_by(entry, op))
}

/// Whether an entry of a topic covers an operation.
fn has_of_topics(digest: &Digest, op: &Op) -> bool
    ensures { result ≡ list_any (spec.is_retained_by op.now) digest.now.topics }
{
    match op {
        Op::Session { .. } => false,
        Op::Put { .. } => false,
        Op::Ack { .. } => false,
        Op::Retain { topic, retained } => has_topic(digest.topics(), topic, retained),
    }
}

/// Whether one of the entries is of the topic, and covers what was retained of it. The time is
/// logarithmic.
fn has_topic(entries: &[RetainedEntry], topic: &TopicName, retained: &Retained) -> bool
    requires { TopicsAscend entries.now }
    ensures { result ≡ list_any (spec.is_retained_by (OfRetain topic.now retained.now))
        entries.now }
{
    match place(entries, topic) {
        Ok(at) => entry_is_as_late(&entries[at], retained),
        Err(_) => false,
    }
}

/// Where the entry of a topic is, or where it would go.
fn place(entries: &[RetainedEntry], topic: &TopicName) -> Result<usize, usize>
    requires { TopicsAscend entries.now }
    ensures { IsPlace (λ entry. topic_name_cmp entry.topic topic.now) entries.now result }
{
    entries.binary_search_by(|entry| topic_order(&entry.topic, topic))
}

/// Whether what an entry names is as late as this, or later.
fn entry_is_as_late(entry: &RetainedEntry, retained: &Retained) -> bool
    ensures { result ≡ spec.entry_is_as_late entry.now (clock_of retained.now) }
{
    !is_before(entry, retained)
}

/// Whether what an entry names came before this.
fn is_before(entry: &RetainedEntry, retained: &Retained) -> bool
    ensures { result ≡ is_lt (clock_cmp (entry.now.clock, entry.now.gateway)
        (clock_of retained.now)) }
{
    entry.clock < retained.clock
        || (entry.clock == retained.clock && entry.gateway < retained.gateway)
}

/// Whether an entry is of the client of an operation, and covers that.
fn is_covered_by(entry: &ClientEntry, op: &Op) -> bool
    ensures { result ≡ spec.is_covered_by op.now entry.now }
{
    match op {
        Op::Session {
            client,
            stamp,
            counter,
            ..
        } => entry.client == *client && entry_sees(entry, *stamp, *counter),
        Op::Put { client, put } => entry.client == *client && has_put(entry, put.origin, put.seq),
        Op::Ack {
            client,
            origin,
            first,
            last,
        } => entry.client == *client && has_acks(entry, *origin, *first, *last),
        Op::Retain { .. } => false,
    }
}

/// Whether the entry sees a session operation: below its stamp, or at it among those without a gap.
fn entry_sees(entry: &ClientEntry, stamp: Stamp, counter: u8) -> bool
    ensures { result ≡ spec.entry_sees entry.now stamp counter }
{
    is_below(stamp, entry.stamp) || is_in_prefix(entry.stamp, entry.prefix, stamp, counter)
}

/// Whether a stamp is below the visible one.
fn is_below(stamp: Stamp, visible: Option<Stamp>) -> bool
    ensures { result ≡ keeps.is_below stamp visible }
{
    match visible {
        Some(seen) => stamp < seen,
        None => false,
    }
}

/// Whether an operation is among the first of the visible stamp.
fn is_in_prefix(visible: Option<Stamp>, prefix: u16, stamp: Stamp, counter: u8) -> bool
    ensures { result ≡ limits.is_in_prefix visible prefix (stamp, counter) }
{
    match visible {
        Some(seen) => stamp == seen && (counter as u16) < prefix,
        None => false,
    }
}

/// Whether a message waits or is acknowledged.
fn has_put(entry: &ClientEntry, origin: u8, seq: u64) -> bool
    ensures { result ≡ list_any (spec.has_put origin seq) entry.now.origins }
{
    entry
        .origins
        .as_slice()
        .iter()
        .any(|said| has_put_of(said, origin, seq))
}

/// Whether what is said of an origin has a message of it.
fn has_put_of(said: &OriginEntry, origin: u8, seq: u64) -> bool
    ensures { result ≡ spec.has_put origin seq said.now }
{
    said.origin == origin
        && (has_range(said.waiting.as_slice(), seq, seq)
            || has_range(said.acknowledged.as_slice(), seq, seq))
}

/// Whether all messages from the first to the last are acknowledged, in one range.
fn has_acks(entry: &ClientEntry, origin: u8, first: u64, last: u64) -> bool
    ensures { result ≡ list_any (spec.has_acks origin first last) entry.now.origins }
{
    entry
        .origins
        .as_slice()
        .iter()
        .any(|said| has_acks_of(said, origin, first, last))
}

/// Whether what is said of an origin has acknowledgements of it, in one range.
fn has_acks_of(said: &OriginEntry, origin: u8, first: u64, last: u64) -> bool
    ensures { result ≡ spec.has_acks origin first last said.now }
{
    said.origin == origin && has_range(said.acknowledged.as_slice(), first, last)
}

/// Whether one of the ranges has all numbers from the first to the last.
fn has_range(ranges: &[(u64, u64)], first: u64, last: u64) -> bool
    ensures { result ≡ list_any (spec.holds first last) ranges.now }
{
    ranges.iter().any(|range| holds(*range, first, last))
}

/// Whether a range has all numbers from the first to the last.
fn holds(range: (u64, u64), first: u64, last: u64) -> bool
    ensures { result ≡ spec.holds first last range }
{
    range.0 <= first && last <= range.1
}

/// Whether an operation can only come from the gateway of this number, whose digest does not have
/// it: a change that it made or a message that it put is not known, or one is acknowledged that is
/// above all that it knows. So its journal is not the newest one, or its number was used before.
pub fn is_lost(digest: &Digest, notes: &[Name], gateway: u8, op: &Op) -> bool
    ensures { result ≡ spec.is_lost digest.now notes.now gateway op.now }
{
    match op {
        Op::Session { stamp, .. } => stamp.gateway == gateway && !is_op_known(digest, notes, op),
        Op::Put { put, .. } => put.origin == gateway && !is_op_known(digest, notes, op),
        Op::Ack {
            client,
            origin,
            first: _,
            last,
        } => *origin == gateway && !reaches(digest, client, *origin, *last),
        Op::Retain { retained, .. } => retained.gateway == gateway
            && !is_op_known(digest, notes, op),
    }
}

/// Whether a digest has a message of an origin, for a client, from this number on.
fn reaches(digest: &Digest, client: &ClientId, origin: u8, last: u64) -> bool
    ensures { result ≡ spec.reaches client.now origin last digest.now }
{
    digest.clients().iter().any(|entry| entry.client == *client
        && entry_reaches(entry, origin, last))
}

/// Whether an entry has a message of an origin from this number on.
fn entry_reaches(entry: &ClientEntry, origin: u8, last: u64) -> bool
    ensures { result ≡ list_any (spec.origin_reaches origin last) entry.now.origins }
{
    entry
        .origins
        .as_slice()
        .iter()
        .any(|said| origin_reaches(said, origin, last))
}

/// Whether what is said of an origin has a message of it from this number on.
fn origin_reaches(said: &OriginEntry, origin: u8, last: u64) -> bool
    ensures { result ≡ spec.origin_reaches origin last said.now }
{
    said.origin == origin
        && (range_reaches(said.waiting.as_slice(), last)
            || range_reaches(said.acknowledged.as_slice(), last))
}

/// Whether one of the ranges goes up to this number, at least.
fn range_reaches(ranges: &[(u64, u64)], last: u64) -> bool
    ensures { result ≡ list_any (spec.goes_to last) ranges.now }
{
    ranges.iter().any(|range| goes_to(*range, last))
}

/// Whether a range goes up to this number, at least.
fn goes_to(range: (u64, u64), last: u64) -> bool
    ensures { result ≡ spec.goes_to last range }
{
    last <= range.1
}

/// Whether an operation was noted.
pub fn is_noted(notes: &[Name], op: &Op) -> bool
    ensures { result ≡ spec.is_noted notes.now op.now }
{
    notes.iter().any(|note| is_of(note, op))
}

/// Whether the name is that of the operation.
fn is_of(name: &Name, op: &Op) -> bool
    ensures { result ≡ spec.is_of op.now name.now }
{
    match op {
        Op::Session {
            client,
            stamp,
            counter,
            ..
        } => {
            has_name_parts(name, 0, stamp.gateway, stamp.epoch, u64::from(*counter))
                && is_client(client, &name.of)
        }
        Op::Put { client, put } => {
            has_name_parts(name, 1, put.origin, put.seq, put.seq) && is_client(client, &name.of)
        }
        Op::Ack {
            client,
            origin,
            first,
            last,
        } => has_name_parts(name, 2, *origin, *first, *last) && is_client(client, &name.of),
        Op::Retain { topic, retained } => {
            has_name_parts(name, 3, retained.gateway, retained.clock, retained.clock)
                && is_of_topic(topic, &name.of)
        }
    }
}

/// Whether a name has these parts.
fn has_name_parts(name: &Name, kind: u8, gateway: u8, first: u64, last: u64) -> bool
    ensures { result ≡ spec.has_name_parts kind gateway first last name.now }
{
    name.first == first && name.last == last && name.gateway == gateway && name.kind == kind
}

/// Whether it is this client.
fn is_client(client: &ClientId, of: &Subject) -> bool
    ensures { result ≡ spec.is_client client.now of.now }
{
    match of {
        Subject::Client(own) => own == client,
        Subject::Topic(_) => false,
    }
}

/// Whether it is this topic.
fn is_of_topic(topic: &TopicName, of: &Subject) -> bool
    ensures { result ≡ spec.is_of_topic topic.now of.now }
{
    match of {
        Subject::Client(_) => false,
        Subject::Topic(own) => own == topic,
    }
}
