//! The versions of the format, and which of them an operation needs.

ghost use Rattle.std.specs.Prelude.{◌≡◌};
ghost use Rattle.rep_op.specs.Versions as spec;

use super::op::Op;

/// A version of the format in which operations are spelled.
#[derive(Clone, Copy, PartialEq, Eq)]
pub enum Version {
    /// Version 1: it cannot say that a message was retained or expires, nor what is retained.
    One,
    /// Version 2: it says of each message whether it was retained, and when it expires.
    Two,
}

impl Version {
    /// The octet that a text of the version begins with.
    pub fn octet(self) -> u8
        ensures { result ≡ spec.version_octet self }
    {
        match self {
            Version::One => 1,
            Version::Two => 2,
        }
    }
}

/// Whether only version 2 can say the operation.
pub fn needs_two(op: &Op) -> bool
    ensures { result ≡ spec.needs_two op.now }
{
    match op {
        Op::Session { .. } => false,
        Op::Put { put, .. } => put.retain || put.expires > 0,
        Op::Ack { .. } => false,
        Op::Retain { .. } => true,
    }
}
