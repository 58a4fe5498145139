//! The order of names, and names in common.

ghost use Rattle.std.specs.Prelude.{◌≡◌, ◌↔◌, IsTrue};
ghost use Rattle.rep_op.specs.Orders.{ShareName, name_cmp, topic_name_cmp, clock_of, clock_cmp};

use super::op::{Op, Retained};
use sn_topic::TopicName;
use std::cmp::Ordering;

/// How two topics are ordered: by their octets.
pub fn topic_order(a: &TopicName, b: &TopicName) -> Ordering
    ensures { result ≡ topic_name_cmp a.now b.now }
{
    a.bytes().cmp(&b.bytes())
}

/// How what was retained of a topic is ordered: by clock, then gateway. The greatest counts.
pub fn clock_order(a: &Retained, b: &Retained) -> Ordering
    ensures { result ≡ clock_cmp (clock_of a.now) (clock_of b.now) }
{
    a.clock.cmp(&b.clock).then(a.gateway.cmp(&b.gateway))
}

/// How the names of two operations are ordered.
pub fn name_order(a: &Op, b: &Op) -> Ordering
    ensures { result ≡ name_cmp a.now b.now }
{
    match (a, b) {
        (
            Op::Session {
                client,
                stamp,
                counter,
                ..
            },
            Op::Session {
                client: other,
                stamp: later,
                counter: next,
                ..
            },
        ) => client
            .cmp(other)
            .then(stamp.cmp(later).then(counter.cmp(next))),
        (Op::Session { .. }, _) => Ordering::Less,
        (_, Op::Session { .. }) => Ordering::Greater,
        (
            Op::Put { client, put },
            Op::Put {
                client: other,
                put: later,
            },
        ) => { client.cmp(other).then(put.origin.cmp(&later.origin).then(put.seq.cmp(&later.seq))) }
        (Op::Put { .. }, _) => Ordering::Less,
        (_, Op::Put { .. }) => Ordering::Greater,
        (
            Op::Ack {
                client,
                origin,
                first,
                ..
            },
            Op::Ack {
                client: other,
                origin: later,
                first: start,
                ..
            },
        ) => client
            .cmp(other)
            .then(origin.cmp(later).then(first.cmp(start))),
        (Op::Ack { .. }, _) => Ordering::Less,
        (_, Op::Ack { .. }) => Ordering::Greater,
        (
            Op::Retain { topic, retained },
            Op::Retain {
                topic: other,
                retained: later,
            },
        ) => topic_order(topic, other).then(clock_order(retained, later)),
    }
}

/// Whether two operations have a name in common.
pub fn share_name(a: &Op, b: &Op) -> bool
    ensures { IsTrue result ↔ ShareName a.now b.now }
{
    match (a, b) {
        (
            Op::Session {
                client,
                stamp,
                counter,
                ..
            },
            Op::Session {
                client: other,
                stamp: later,
                counter: next,
                ..
            },
        ) => client == other && stamp == later && counter == next,
        (
            Op::Put { client, put },
            Op::Put {
                client: other,
                put: later,
            },
        ) => { client == other && put.origin == later.origin && put.seq == later.seq }
        (
            Op::Ack {
                client,
                origin,
                first,
                last,
            },
            Op::Ack {
                client: other,
                origin: later,
                first: start,
                last: end,
            },
        ) => client == other && origin == later && first <= end && start <= last,
        (
            Op::Retain { topic, retained },
            Op::Retain {
                topic: other,
                retained: later,
            },
        ) => {
            topic == other && retained.clock == later.clock && retained.gateway == later.gateway
        }
        _ => false,
    }
}
