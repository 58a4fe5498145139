//! Whether two operations, two deltas or two lists of deltas are equal.

ghost use Rattle.std.specs.Prelude.{◌≡◌, ◌↔◌, IsTrue};

use super::change::same_change;
use super::view::same_put;
use rep_model::rep_ops::{ClientId, Delta, Op, Retained, Subject};
use sn_topic::TopicName;

/// Whether two clients are one.
pub fn same_client(a: &ClientId, b: &ClientId) -> bool
    ensures { IsTrue result ↔ (a.now ≡ b.now) }
{
    a == b
}

/// Whether two topics are one.
pub fn same_topic(a: &TopicName, b: &TopicName) -> bool
    ensures { IsTrue result ↔ (a.now ≡ b.now) }
{
    a == b
}

/// Whether what is retained of two topics is equal.
pub fn same_retained(a: &Retained, b: &Retained) -> bool
    ensures { IsTrue result ↔ (a.now ≡ b.now) }
{
    a == b
}

/// Whether two refusals are about the same client or topic.
pub fn same_subject(a: &Subject, b: &Subject) -> bool
    ensures { IsTrue result ↔ (a.now ≡ b.now) }
{
    a == b
}

/// Whether two operations are equal.
fn same_op(a: &Op, b: &Op) -> bool
    ensures { IsTrue result ↔ (a.now ≡ b.now) }
{
    match (a, b) {
        (
            Op::Session {
                client,
                stamp,
                counter,
                change,
            },
            Op::Session {
                client: of,
                stamp: under,
                counter: at,
                change: other,
            },
        ) => {
            same_client(client, of) && stamp == under && counter == at && same_change(change, other)
        }
        (
            Op::Put { client, put },
            Op::Put {
                client: of,
                put: other,
            },
        ) => { same_client(client, of) && same_put(put, other) }
        (
            Op::Ack {
                client,
                origin,
                first,
                last,
            },
            Op::Ack {
                client: of,
                origin: by,
                first: from,
                last: to,
            },
        ) => same_client(client, of) && origin == by && first == from && last == to,
        (
            Op::Retain { topic, retained },
            Op::Retain {
                topic: of,
                retained: other,
            },
        ) => same_topic(topic, of) && same_retained(retained, other),
        _ => false,
    }
}

/// Whether two lists of operations are equal.
fn same_ops(a: &[Op], b: &[Op]) -> bool
    ensures { IsTrue result ↔ (a.now ≡ b.now) }
{
    let mut left = a;
    let mut right = b;
    'ops: while let (Some((x, xs)), Some((y, ys))) = (left.split_first(), right.split_first()) {
        if !same_op(x, y) {
            return false;
        }
        left = xs;
        right = ys;
    }
    left.is_empty() && right.is_empty()
}

/// Whether two deltas are equal.
pub fn same_delta(a: &Delta, b: &Delta) -> bool
    ensures { IsTrue result ↔ (a.now ≡ b.now) }
{
    same_ops(a.ops(), b.ops())
}

/// Whether two lists of deltas are equal.
pub fn same_deltas(a: &[Delta], b: &[Delta]) -> bool
    ensures { IsTrue result ↔ (a.now ≡ b.now) }
{
    let mut left = a;
    let mut right = b;
    'deltas: while let (Some((x, xs)), Some((y, ys))) = (left.split_first(), right.split_first()) {
        if !same_delta(x, y) {
            return false;
        }
        left = xs;
        right = ys;
    }
    left.is_empty() && right.is_empty()
}
