//! How many octets a delta is spelled in, and whether its operations are well made.

ghost use Rattle.std.specs.Prelude.{◌≡◌, ◌≤◌, ◌↔◌, length, IsTrue};
ghost use Rattle.rep_op.specs.Values.{AreValues};
ghost use Rattle.rep_op.specs.WellMade as spec;
ghost use Rattle.rep_op.specs.Spelling.{op_octets, put_octets, later_octets};
ghost use Rattle.rep_ops.specs.Making.{AreWellMade};
ghost use Rattle.rep_ops.specs.Spelling.{spelled_in, max_octets, IsDeltaWithinLimit};

use super::session_size::change_size;
use super::version::version_of;
use rep_op::{Op, Put, Version, is_value, is_well_made};

/// The most octets of a delta.
pub const MAX_OCTETS: usize = 8_388_608;

/// Whether a delta may hold the operations.
pub fn are_well_made(ops: &[Op]) -> bool
    ensures made { IsTrue result ↔ AreWellMade ops.now }
    ensures values { IsTrue result → AreValues ops.now }
{
    for op in ops {
        is_value(op);
        if !is_well_made(op) {
            return false;
        }
    }
    true
}

/// How many octets a version spends on what only version 2 says of a message.
fn later_size(version: Version, put: &Put) -> usize
    ensures size { result ≡ length (later_octets version put.now.retain put.now.expires) }
    ensures small { result ≤ 9 }
{
    match version {
        Version::One => 0,
        Version::Two => 9,
    }
}

/// How many octets a message is spelled in.
fn put_size(version: Version, put: &Put) -> usize
    requires { IsTrue (spec.is_put put.now) }
    ensures size { result ≡ length (put_octets version put.now) }
    ensures small { result ≤ 4375 }
{
    14 + later_size(version, put) + put.topic.bytes().len() + put.body.len()
}

/// How many octets an operation is spelled in by this version.
pub fn op_size(version: Version, op: &Op) -> usize
    requires { IsTrue (spec.is_well_made op.now) }
    ensures size { result ≡ length (op_octets version op.now) }
    ensures small { result ≤ 150000 }
{
    match op {
        Op::Session { client, change, .. } => 12 + client.bytes().len() + change_size(change),
        Op::Put { client, put } => 2 + client.bytes().len() + put_size(version, put),
        Op::Ack { client, .. } => 19 + client.bytes().len(),
        Op::Retain { topic, retained } => 15 + topic.bytes().len() + retained.body.len(),
    }
}

/// Whether the operations are spelled in at most 8 MiB by this version.
fn is_within(version: Version, ops: &[Op]) -> bool
    requires { AreWellMade ops.now }
    ensures { IsTrue result ↔ (length (spelled_in version ops.now) ≤ max_octets) }
{
    let mut size = 5;
    for op in ops {
        size += op_size(version, op);
        if size > MAX_OCTETS {
            return false;
        }
    }
    true
}

/// Whether the delta of the operations is spelled in at most 8 MiB.
pub fn is_within_limit(ops: &[Op]) -> bool
    requires { AreWellMade ops.now }
    ensures { IsTrue result ↔ IsDeltaWithinLimit ops.now }
{
    is_within(version_of(ops), ops)
}
