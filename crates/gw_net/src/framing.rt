//! The message in front of a stream.

ghost use Rattle.std.specs.Prelude.{◌≡◌, Ok, Err, MatchOption};
ghost use Rattle.std.specs.Int.{w32};
ghost use Rattle.rep_read.specs.Reading.{number_at};
ghost use Rattle.rep_ops.specs.Reading as reading;
ghost use Rattle.rep_digest.specs.Reading as digests;
ghost use Rattle.gw_net.specs.declared.message.LinkMessage.TheVariants.{Digest as OfDigest, Delta as OfDelta};
ghost use Rattle.gw_net.specs.Messages.{hello_at, read_or_none, message_at};
ghost use Rattle.gw_net.specs.Streams.{front_sized};
ghost use Rattle.gw_net.specs.Streams as spec;
ghost use Rattle.gw_net.specs.inner.Streams.{IsFront, IsBody};

use super::fault::LinkFault;
use super::message::LinkMessage;
use octets::read_u32;
use rep_digest::Digest;
use rep_ops::{Delta, MAX_OCTETS, OpsFault};
use std::alloc::Global;

/// The message in front of the octets, and the octets after it; nothing where octets are wanting.
///
/// `Kind` as soon as the kind is there, `TooLong` as soon as the length is, `Body` when the body is
/// whole.
#[tactic(auto, unfolding(crate::specs::Streams::front))]
pub fn front(alloc: Global, bytes: &[u8]) -> Result<Option<(LinkMessage, &[u8])>, LinkFault>
    ensures { IsFront (λ x. (x.0, x.1.now)) result (spec.front bytes.now) }
{
    let (kind, rest) = match bytes {
        [] => return Ok(None),
        [kind, rest @ ..] => (*kind, rest),
    };
    if kind < 1 || kind > 3 {
        return Err(LinkFault::Kind);
    }
    sized(alloc, kind, rest)
}

/// The message after its kind.
fn sized(alloc: Global, kind: u8, bytes: &[u8]) -> Result<Option<(LinkMessage, &[u8])>, LinkFault>
    ensures { IsFront (λ x. (x.0, x.1.now)) result (front_sized kind (number_at w32 bytes.now)) }
{
    match size_at(bytes) {
        None => Ok(None),
        Some((size, rest)) => whole(alloc, kind, size, rest),
    }
}

/// The length, and the octets after it; nothing where octets are wanting.
fn size_at(bytes: &[u8]) -> Option<(u32, &[u8])>
    ensures { MatchOption result (number_at w32 bytes.now ≡ Err OpsFault.Truncated)
        (λ read. number_at w32 bytes.now ≡ Ok (read.0, read.1.now)) }
{
    match read_u32(bytes) {
        None => None,
        Some(read) => Some(read),
    }
}

/// The message after its kind and length.
fn whole(
    alloc: Global,
    kind: u8,
    size: u32,
    bytes: &[u8],
) -> Result<Option<(LinkMessage, &[u8])>, LinkFault>
    ensures { IsFront (λ x. (x.0, x.1.now)) result (front_sized kind (Ok (size, bytes.now))) }
{
    if size as usize > MAX_OCTETS {
        return Err(LinkFault::TooLong);
    }
    if bytes.len() < size as usize {
        return Ok(None);
    }
    let (body, rest) = bytes.split_at(size as usize);
    match read_body(alloc, kind, body) {
        Ok(message) => Ok(Some((message, rest))),
        Err(fault) => Err(fault),
    }
}

/// The message that a body of a kind is.
#[tactic(auto, unfolding(crate::specs::Messages::message_at))]
fn read_body(alloc: Global, kind: u8, body: &[u8]) -> Result<LinkMessage, LinkFault>
    ensures { IsBody result (message_at kind body.now) }
{
    match kind {
        1 => read_hello(body),
        2 => read_digest(alloc, body),
        _ => read_delta(alloc, body),
    }
}

/// The number of a gateway.
fn read_hello(body: &[u8]) -> Result<LinkMessage, LinkFault>
    ensures { IsBody result (hello_at body.now) }
{
    match body {
        [gateway] if *gateway >= 1 => Ok(LinkMessage::Hello(*gateway)),
        _ => Err(LinkFault::Body),
    }
}

/// A digest.
fn read_digest(alloc: Global, body: &[u8]) -> Result<LinkMessage, LinkFault>
    ensures { IsBody result (read_or_none (λ d. OfDigest d) (digests.digest_reading body.now)) }
{
    match Digest::decode(alloc, body) {
        Ok(digest) => Ok(LinkMessage::Digest(digest)),
        Err(OpsFault::Memory) => Err(LinkFault::Memory),
        Err(_) => Err(LinkFault::Body),
    }
}

/// A delta.
fn read_delta(alloc: Global, body: &[u8]) -> Result<LinkMessage, LinkFault>
    ensures { IsBody result (read_or_none (λ d. OfDelta d) (reading.delta_reading body.now)) }
{
    match Delta::decode(alloc, body) {
        Ok(delta) => Ok(LinkMessage::Delta(delta)),
        Err(OpsFault::Memory) => Err(LinkFault::Memory),
        Err(_) => Err(LinkFault::Body),
    }
}
