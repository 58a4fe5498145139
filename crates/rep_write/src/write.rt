//! Writing an operation, one function for each type of its spelling.

#![tactic(auto, using(crate::proofs::Writing::keeps_itself, crate::proofs::Writing::keeps_more, crate::proofs::Writing::keeps_through))]

ghost use Rattle.std.specs.Prelude.{IsTrue, ◌∷◌, ◌++◌};
ghost use Rattle.byteorder.specs.Endian.{big_bytes};
ghost use Rattle.rep_op.specs.Ranges.{is_change};
ghost use Rattle.rep_op.specs.WellMade as spec;
ghost use Rattle.rep_op.specs.Sessions.{text_octets, change_octets};
ghost use Rattle.rep_op.specs.Spelling.{client_octets, later_octets, put_octets, retained_octets, op_octets};
ghost use Rattle.rep_write.specs.Writing.{Writes};

use super::write_session::{write_change, write_number, write_octet, write_text, write_two};
use octets::{NoMemory, append_u64};
use rep_op::{ClientId, Op, Put, Retained, Stamp, Version};
use sn_session::SessionOp;
use sn_topic::TopicName;

/// Writes a client.
pub fn write_client(out: &mut Vec<u8>, client: &ClientId) -> Result<(), NoMemory>
    ensures { Writes (client_octets client.now) out.old.items out.new.items result }
{
    let name = client.bytes();
    out.push(name.len() as u8)?;
    out.extend_from_slice(name)?;
    Ok(())
}

/// Writes what only version 2 says of a message.
fn write_later(
    out: &mut Vec<u8>,
    version: Version,
    retain: bool,
    expires: u64,
) -> Result<(), NoMemory>
    ensures { Writes (later_octets version retain expires) out.old.items out.new.items result }
{
    match version {
        Version::One => {}
        Version::Two => {
            out.push(retain as u8)?;
            append_u64(out, expires)?;
        }
    }
    Ok(())
}

/// Writes what stands after the topic of a message.
fn write_content(out: &mut Vec<u8>, version: Version, put: &Put) -> Result<(), NoMemory>
    requires { IsTrue (spec.is_put put.now) }
    ensures { Writes (put.now.qos ∷ (later_octets version put.now.retain put.now.expires
        ++ text_octets put.now.body)) out.old.items out.new.items result }
{
    write_octet(out, put.qos.number())?;
    write_later(out, version, put.retain, put.expires)?;
    write_text(out, put.body.as_slice())
}

/// Writes a message.
fn write_put(out: &mut Vec<u8>, version: Version, put: &Put) -> Result<(), NoMemory>
    requires { IsTrue (spec.is_put put.now) }
    ensures { Writes (put_octets version put.now) out.old.items out.new.items result }
{
    write_number(out, put.origin, put.seq)?;
    write_text(out, put.topic.bytes())?;
    write_content(out, version, put)
}

/// Writes what is retained.
fn write_retained(out: &mut Vec<u8>, kept: &Retained) -> Result<(), NoMemory>
    requires { IsTrue (spec.is_retained kept.now) }
    ensures { Writes (retained_octets kept.now) out.old.items out.new.items result }
{
    append_u64(out, kept.clock)?;
    write_two(out, kept.gateway, kept.qos.number())?;
    write_text(out, kept.body.as_slice())?;
    Ok(())
}

/// Writes of what kind an operation is, and of which client.
fn write_kind(out: &mut Vec<u8>, kind: u8, client: &ClientId) -> Result<(), NoMemory>
    ensures { Writes (kind ∷ client_octets client.now) out.old.items out.new.items result }
{
    write_octet(out, kind)?;
    write_client(out, client)
}

/// Writes a change of a session with its stamp and its counter.
fn write_stamped(
    out: &mut Vec<u8>,
    stamp: &Stamp,
    counter: u8,
    change: &SessionOp,
) -> Result<(), NoMemory>
    requires { IsTrue (is_change change.now) }
    ensures { Writes (big_bytes 8 stamp.now.epoch
        ++ stamp.now.gateway ∷ counter ∷ change_octets change.now)
        out.old.items out.new.items result }
{
    append_u64(out, stamp.epoch)?;
    write_two(out, stamp.gateway, counter)?;
    write_change(out, change)?;
    Ok(())
}

/// Writes whose messages are acknowledged, from the first to the last.
fn write_range(out: &mut Vec<u8>, origin: u8, first: u64, last: u64) -> Result<(), NoMemory>
    ensures { Writes ((origin ∷ big_bytes 8 first) ++ big_bytes 8 last)
        out.old.items out.new.items result }
{
    write_number(out, origin, first)?;
    append_u64(out, last)?;
    Ok(())
}

/// Writes that something is retained, and its topic.
fn write_topic(out: &mut Vec<u8>, topic: &TopicName) -> Result<(), NoMemory>
    ensures { Writes (4 ∷ text_octets topic.now) out.old.items out.new.items result }
{
    write_octet(out, 4)?;
    write_text(out, topic.bytes())
}

/// Writes an operation as this version spells it.
pub fn write_op(out: &mut Vec<u8>, version: Version, op: &Op) -> Result<(), NoMemory>
    requires { IsTrue (spec.is_well_made op.now) }
    ensures { Writes (op_octets version op.now) out.old.items out.new.items result }
{
    match op {
        Op::Session {
            client,
            stamp,
            counter,
            change,
        } => {
            write_kind(out, 1, client)?;
            write_stamped(out, stamp, *counter, change)
        }
        Op::Put { client, put } => {
            write_kind(out, 2, client)?;
            write_put(out, version, put)
        }
        Op::Ack {
            client,
            origin,
            first,
            last,
        } => {
            write_kind(out, 3, client)?;
            write_range(out, *origin, *first, *last)
        }
        Op::Retain { topic, retained } => {
            write_topic(out, topic)?;
            write_retained(out, retained)
        }
    }
}
