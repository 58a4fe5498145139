//! Operations.

ghost use Rattle.std.specs.Prelude.{◌≡◌, nat_le};
ghost use Rattle.rep_read.specs.Reading.{ReadsAs, session_op_at, later_at, content_at, put_op_at, range_at, ack_at, retain_op_at, last_kind, op_at};

use super::field::{
    read_body, read_client, read_counted_eight, read_counted_octet, read_eight, read_octet,
    read_topic,
};
use super::part::{level_of, read_flag};
use super::session::read_change;
use rep_op::{Op, OpsFault, Put, Retained, Stamp, Version};
use sn_session::Message;
use sn_tables::QosLevel;
use std::alloc::Global;

/// The session operation after its kind.
#[tactic(auto, unfolding(crate::specs::Reading::session_op_at))]
fn read_session_op(alloc: Global, bytes: &[u8]) -> Result<(Op, &[u8]), OpsFault>
    ensures { ReadsAs (λ x. (x.0, x.1.now)) result (session_op_at bytes.now) }
{
    let (client, rest) = read_client(alloc, bytes)?;
    let (epoch, rest) = read_counted_eight(rest)?;
    let (gateway, rest) = read_counted_octet(rest)?;
    let (counter, rest) = read_octet(rest)?;
    let (change, rest) = read_change(alloc, counter, rest)?;
    let op = Op::Session {
        client,
        stamp: Stamp { epoch, gateway },
        counter,
        change,
    };
    Ok((op, rest))
}

/// Whether a message was retained, and when it expires, as far as the version says it.
#[tactic(auto, unfolding(crate::specs::Reading::later_at))]
fn read_later(version: Version, bytes: &[u8]) -> Result<((bool, u64), &[u8]), OpsFault>
    ensures { ReadsAs (λ x. (x.0, x.1.now)) result (later_at version bytes.now) }
{
    match version {
        Version::One => Ok(((false, 0), bytes)),
        Version::Two => {
            let (retain, rest) = read_flag(bytes)?;
            let (expires, rest) = read_eight(rest)?;
            Ok(((retain, expires), rest))
        }
    }
}

/// The quality of service of a message, what version 2 says of it, and its octets.
type Content = (QosLevel, (bool, u64), Message);

/// What stands after the topic of a message.
#[tactic(auto, unfolding(crate::specs::Reading::content_at, crate::specs::Reading::qos_at))]
fn read_content(alloc: Global, version: Version, bytes: &[u8]) -> Result<(Content, &[u8]), OpsFault>
    ensures { ReadsAs (λ x. ((x.0.0, (x.0.1, x.0.2)), x.1.now)) result
        (content_at version bytes.now) }
{
    let (number, rest) = read_octet(bytes)?;
    let qos = level_of(number)?;
    let (later, rest) = read_later(version, rest)?;
    let (body, rest) = read_body(alloc, rest)?;
    Ok(((qos, later, body), rest))
}

/// The put after its kind.
#[tactic(auto, unfolding(crate::specs::Reading::put_op_at))]
fn read_put(alloc: Global, version: Version, bytes: &[u8]) -> Result<(Op, &[u8]), OpsFault>
    ensures { ReadsAs (λ x. (x.0, x.1.now)) result (put_op_at version bytes.now) }
{
    let (client, rest) = read_client(alloc, bytes)?;
    let (origin, rest) = read_counted_octet(rest)?;
    let (seq, rest) = read_counted_eight(rest)?;
    let (topic, rest) = read_topic(alloc, rest)?;
    let ((qos, (retain, expires), body), rest) = read_content(alloc, version, rest)?;
    let put = Put {
        origin,
        seq,
        topic,
        qos,
        retain,
        expires,
        body,
    };
    Ok((Op::Put { client, put }, rest))
}

/// The first and the last of a range.
#[tactic(auto, unfolding(crate::specs::Reading::range_at))]
fn read_range(bytes: &[u8]) -> Result<((u64, u64), &[u8]), OpsFault>
    ensures { ReadsAs (λ x. (x.0, x.1.now)) result (range_at bytes.now) }
{
    let (first, rest) = read_counted_eight(bytes)?;
    let (last, rest) = read_eight(rest)?;
    if last < first {
        return Err(OpsFault::Kind);
    }
    Ok(((first, last), rest))
}

/// The acknowledgements after their kind.
#[tactic(auto, unfolding(crate::specs::Reading::ack_at))]
fn read_ack(alloc: Global, bytes: &[u8]) -> Result<(Op, &[u8]), OpsFault>
    ensures { ReadsAs (λ x. (x.0, x.1.now)) result (ack_at bytes.now) }
{
    let (client, rest) = read_client(alloc, bytes)?;
    let (origin, rest) = read_counted_octet(rest)?;
    let ((first, last), rest) = read_range(rest)?;
    let op = Op::Ack {
        client,
        origin,
        first,
        last,
    };
    Ok((op, rest))
}

/// What is retained, after its kind.
#[tactic(auto, unfolding(crate::specs::Reading::retain_op_at, crate::specs::Reading::qos_at))]
fn read_retain(alloc: Global, bytes: &[u8]) -> Result<(Op, &[u8]), OpsFault>
    ensures { ReadsAs (λ x. (x.0, x.1.now)) result (retain_op_at bytes.now) }
{
    let (topic, rest) = read_topic(alloc, bytes)?;
    let (clock, rest) = read_counted_eight(rest)?;
    let (gateway, rest) = read_counted_octet(rest)?;
    let (number, rest) = read_octet(rest)?;
    let qos = level_of(number)?;
    let (body, rest) = read_body(alloc, rest)?;
    let retained = Retained {
        clock,
        gateway,
        qos,
        body,
    };
    Ok((Op::Retain { topic, retained }, rest))
}

/// Whether the version knows what is retained.
fn knows_four(version: Version) -> bool
    ensures { result ≡ nat_le 4 (last_kind version) }
{
    match version {
        Version::One => false,
        Version::Two => true,
    }
}

/// An operation of a text of this version.
#[tactic(auto, unfolding(crate::specs::Reading::op_at))]
pub fn read_op(alloc: Global, version: Version, bytes: &[u8]) -> Result<(Op, &[u8]), OpsFault>
    ensures { ReadsAs (λ x. (x.0, x.1.now)) result (op_at version bytes.now) }
{
    let (kind, rest) = read_octet(bytes)?;
    match kind {
        1 => read_session_op(alloc, rest),
        2 => read_put(alloc, version, rest),
        3 => read_ack(alloc, rest),
        4 if knows_four(version) => read_retain(alloc, rest),
        _ => Err(OpsFault::Kind),
    }
}
