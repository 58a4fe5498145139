//! Records as they are written.

ghost use Rattle.std.specs.Prelude.{◌≡◌, ◌≤◌, ◌++◌, length, take, drop, IfOk, OnOk};
ghost use Rattle.byteorder.specs.Endian.{big_bytes};
ghost use Rattle.rep_ops.specs.Spelling.{max_octets};
ghost use Rattle.jr_journal.specs.Records.{delta_bytes, written};
ghost use Rattle.jr_journal.specs.Readable.{IsReadable};

use crate::piece::RECORD;
use byteorder::{BigEndian, ByteOrder};
use octets::NoMemory;
use rep_ops::Delta;
use std::alloc::Global;

/// How many bytes of a record are made room for at first. Most records need no more, so that the
/// list is seldom moved as it grows.
const FIRST_ROOM: usize = 256;

/// How many bytes stand before a record's delta: its tag and its length.
const BEFORE: usize = 5;

/// Appends the bytes of a delta.
#[tactic(auto, using(crate::proofs::Readable::readable, crate::proofs::Readable::spelled))]
fn append_delta(out: &mut Vec<u8>, delta: &Delta) -> Result<(), NoMemory>
    ensures ok { OnOk result (out.new.items ≡ out.old.items ++ delta_bytes delta.now) }
    ensures readable { OnOk result (IsReadable delta.now) }
    ensures size { OnOk result (length (delta_bytes delta.now) ≤ max_octets) }
{
    let _ops = delta.ops();
    delta.append_to(out)
}

/// Writes the length of a record's delta after its tag.
fn set_length(bytes: &mut [u8], size: u32)
    requires { 5 ≤ length bytes.old }
    ensures { bytes.new ≡ take 1 bytes.old ++ (big_bytes 4 size ++ drop 5 bytes.old) }
{
    BigEndian::write_u32(&mut bytes[1..], size);
}

/// Appends a record: its tag, its length, the delta's bytes. These are written once, where they
/// stay; the length is told when they are there. On an error a part of it may stand there.
pub(crate) fn append_record(out: &mut Vec<u8>, delta: &Delta) -> Result<(), NoMemory>
    ensures ok { OnOk result (out.new.items ≡ out.old.items ++ written delta.now) }
    ensures readable { OnOk result (IsReadable delta.now) }
{
    let start = out.len();
    out.extend_from_slice(&[RECORD, 0, 0, 0, 0])?;
    append_delta(out, delta)?;
    let size = out.len() - start - BEFORE;
    set_length(&mut out[start..], size as u32);
    Ok(())
}

/// A record by itself.
pub(crate) fn record_of(alloc: Global, delta: &Delta) -> Result<Vec<u8>, NoMemory>
    ensures ok { IfOk result (λ bytes. bytes.items ≡ written delta.now) }
    ensures readable { OnOk result (IsReadable delta.now) }
{
    let mut bytes = Vec::with_capacity(alloc, FIRST_ROOM)?;
    append_record(&mut bytes, delta)?;
    Ok(bytes)
}
