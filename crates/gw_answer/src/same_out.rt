//! Whether what two nodes answered is equal, whoever has a share of it. No memory is taken.

ghost use Rattle.std.specs.Prelude.{◌≡◌, ◌↔◌, IsTrue};

use super::out::Out;
use rep_digest::{ClientEntry, Digest, OriginEntry, RetainedEntry};
use rep_ops::Delta;
use rep_same::rep_model::ClientView;
use rep_same::{same_client, same_delta, same_deltas, same_topic, same_view};
use sn_local::Send;

/// Whether two lists of ranges are equal.
fn same_ranges(a: &[(u64, u64)], b: &[(u64, u64)]) -> bool
    ensures { IsTrue result ↔ (a.now ≡ b.now) }
{
    let mut left = a;
    let mut right = b;
    'pairs: while let (Some((x, xs)), Some((y, ys))) = (left.split_first(), right.split_first()) {
        if x.0 != y.0 || x.1 != y.1 {
            return false;
        }
        left = xs;
        right = ys;
    }
    left.is_empty() && right.is_empty()
}

/// Whether two digests say the same of an origin.
fn same_origin(a: &OriginEntry, b: &OriginEntry) -> bool
    ensures { IsTrue result ↔ (a.now ≡ b.now) }
{
    a.origin == b.origin
        && same_ranges(a.acknowledged.as_slice(), b.acknowledged.as_slice())
        && same_ranges(a.waiting.as_slice(), b.waiting.as_slice())
}

/// Whether two digests say the same of some origins.
fn same_origins(a: &[OriginEntry], b: &[OriginEntry]) -> bool
    ensures { IsTrue result ↔ (a.now ≡ b.now) }
{
    let mut left = a;
    let mut right = b;
    'origins: while let (Some((x, xs)), Some((y, ys))) = (left.split_first(), right.split_first()) {
        if !same_origin(x, y) {
            return false;
        }
        left = xs;
        right = ys;
    }
    left.is_empty() && right.is_empty()
}

/// Whether two digests say the same of a client.
fn same_entry(a: &ClientEntry, b: &ClientEntry) -> bool
    ensures { IsTrue result ↔ (a.now ≡ b.now) }
{
    same_client(&a.client, &b.client)
        && a.stamp == b.stamp
        && a.prefix == b.prefix
        && same_origins(a.origins.as_slice(), b.origins.as_slice())
}

/// Whether two lists of entries of a digest are equal.
fn same_entries(a: &[ClientEntry], b: &[ClientEntry]) -> bool
    ensures { IsTrue result ↔ (a.now ≡ b.now) }
{
    let mut left = a;
    let mut right = b;
    'entries: while let (Some((x, xs)), Some((y, ys))) = (left.split_first(), right.split_first()) {
        if !same_entry(x, y) {
            return false;
        }
        left = xs;
        right = ys;
    }
    left.is_empty() && right.is_empty()
}

/// Whether two digests say the same of a topic.
fn same_retained(a: &RetainedEntry, b: &RetainedEntry) -> bool
    ensures { IsTrue result ↔ (a.now ≡ b.now) }
{
    same_topic(&a.topic, &b.topic) && a.clock == b.clock && a.gateway == b.gateway
}

/// Whether two lists of entries of topics are equal.
fn same_topics(a: &[RetainedEntry], b: &[RetainedEntry]) -> bool
    ensures { IsTrue result ↔ (a.now ≡ b.now) }
{
    let mut left = a;
    let mut right = b;
    'entries: while let (Some((x, xs)), Some((y, ys))) = (left.split_first(), right.split_first()) {
        if !same_retained(x, y) {
            return false;
        }
        left = xs;
        right = ys;
    }
    left.is_empty() && right.is_empty()
}

/// Whether two digests are equal.
pub(crate) fn same_digest(a: &Digest, b: &Digest) -> bool
    ensures { IsTrue result ↔ (a.now ≡ b.now) }
{
    same_entries(a.clients(), b.clients()) && same_topics(a.topics(), b.topics())
}

/// Whether two datagrams that are to be sent are equal.
fn same_send(a: &Send, b: &Send) -> bool
    ensures { IsTrue result ↔ (a.now ≡ b.now) }
{
    a == b
}

/// Whether two lists of datagrams are equal.
fn same_sends(a: &[Send], b: &[Send]) -> bool
    ensures { IsTrue result ↔ (a.now ≡ b.now) }
{
    let mut left = a;
    let mut right = b;
    'sends: while let (Some((x, xs)), Some((y, ys))) = (left.split_first(), right.split_first()) {
        if !same_send(x, y) {
            return false;
        }
        left = xs;
        right = ys;
    }
    left.is_empty() && right.is_empty()
}

fn same_made(a: &Option<Delta>, b: &Option<Delta>) -> bool
    ensures { IsTrue result ↔ (a.now ≡ b.now) }
{
    match (a, b) {
        (None, None) => true,
        (Some(x), Some(y)) => same_delta(x, y),
        _ => false,
    }
}

fn same_asked(a: &Option<Digest>, b: &Option<Digest>) -> bool
    ensures { IsTrue result ↔ (a.now ≡ b.now) }
{
    match (a, b) {
        (None, None) => true,
        (Some(x), Some(y)) => same_digest(x, y),
        _ => false,
    }
}

fn same_shown(a: &Option<ClientView>, b: &Option<ClientView>) -> bool
    ensures { IsTrue result ↔ (a.now ≡ b.now) }
{
    match (a, b) {
        (None, None) => true,
        (Some(x), Some(y)) => same_view(x, y),
        _ => false,
    }
}

/// Whether two answers are equal.
pub(crate) fn same_out(a: &Out, b: &Out) -> bool
    ensures { IsTrue result ↔ (a.now ≡ b.now) }
{
    same_sends(a.sends.as_slice(), b.sends.as_slice())
        && same_made(&a.made, &b.made)
        && same_deltas(a.answer.as_slice(), b.answer.as_slice())
        && same_asked(&a.digest, &b.digest)
        && same_shown(&a.view, &b.view)
}
