//! Writing a delta.

#![tactic(auto, using(rep_write::proofs::Writing::keeps_itself, rep_write::proofs::Writing::keeps_more, rep_write::proofs::Writing::keeps_through))]

ghost use Rattle.std.specs.Prelude.{◌<◌, ◌^◌, length};
ghost use Rattle.std.specs.List.{flat_map};
ghost use Rattle.rep_op.specs.Spelling.{op_octets};
ghost use Rattle.rep_write.specs.Writing.{Writes};
ghost use Rattle.rep_ops.specs.Making.{AreWellMade};
ghost use Rattle.rep_ops.specs.Spelling.{spelled_in, delta_spelling, IsDeltaWithinLimit};

use super::version::version_of;
use rep_op::{Op, Version};
use rep_write::write_op;
use sn_session::octets::{NoMemory, append_u32};

/// Writes operations one after the other.
fn write_ops(out: &mut Vec<u8>, version: Version, ops: &[Op]) -> Result<(), NoMemory>
    requires { AreWellMade ops.now }
    ensures { Writes (flat_map (op_octets version) ops.now) out.old.items out.new.items result }
{
    for op in ops {
        write_op(out, version, op)?;
    }
    Ok(())
}

/// Writes the text of operations in this version.
fn write_text(out: &mut Vec<u8>, version: Version, ops: &[Op]) -> Result<(), NoMemory>
    requires made { AreWellMade ops.now }
    requires few { length ops.now < 2 ^ 32 }
    ensures { Writes (spelled_in version ops.now) out.old.items out.new.items result }
{
    out.push(version.octet())?;
    append_u32(out, ops.len() as u32)?;
    write_ops(out, version, ops)?;
    Ok(())
}

/// Writes the delta of these operations.
pub fn write_delta(out: &mut Vec<u8>, ops: &[Op]) -> Result<(), NoMemory>
    requires made { AreWellMade ops.now }
    requires size { IsDeltaWithinLimit ops.now }
    ensures { Writes (delta_spelling ops.now) out.old.items out.new.items result }
{
    write_text(out, version_of(ops), ops)
}
