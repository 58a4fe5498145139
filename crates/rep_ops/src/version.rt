//! The version in which a delta is spelled.

ghost use Rattle.std.specs.Prelude.{◌≡◌};
ghost use Rattle.std.specs.List.{list_any};
ghost use Rattle.rep_op.specs.Versions as versions;
ghost use Rattle.rep_ops.specs.Spelling as spec;

use rep_op::{Op, Version, needs_two};

/// Whether only version 2 can say one of the operations.
pub fn is_two_needed(ops: &[Op]) -> bool
    ensures { result ≡ list_any versions.needs_two ops.now }
{
    ops.iter().any(|op| needs_two(op))
}

/// The version in which the delta of these operations is spelled.
pub fn version_of(ops: &[Op]) -> Version
    ensures { result ≡ spec.version_of ops.now }
{
    if is_two_needed(ops) {
        Version::Two
    } else {
        Version::One
    }
}
