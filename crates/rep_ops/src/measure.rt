//! How many octets a delta is spelled in to which operations are added one by one.

ghost use Rattle.std.specs.Prelude.{◌≡◌, ◌≤◌, ◌+◌, ◌||◌, [], ◌∷◌, ◌++◌, List, length, IsTrue};
ghost use Rattle.rep_op.specs.Versions as versions;
ghost use Rattle.rep_op.specs.Spelling.{op_octets};
ghost use Rattle.rep_op.specs.WellMade as spec;
ghost use Rattle.rep_op.specs.declared.op.Op.{Op};
ghost use Rattle.rep_ops.specs.Spelling.{delta_spelling};
ghost use Rattle.rep_ops.specs.inner.Measures.{IsMeasure};

use super::size::op_size;
use rep_op::{Op, Version, needs_two};

/// The octets of a delta without operations.
const NO_OCTETS: usize = 5;

/// How many octets operations are spelled in by each version, and whether they need version 2.
#[derive(Clone, Copy)]
pub struct Measure {
    one: usize,
    two: usize,
    is_two: bool,
}

/// How many octets version 2 spells an operation in that version 1 spells in so many.
fn size_in_two(op: &Op, in_one: usize) -> usize
    requires made { IsTrue (spec.is_well_made op.now) }
    requires size { in_one ≡ length (op_octets Version.One op.now) }
    requires small { in_one ≤ 150000 }
    ensures size { result ≡ length (op_octets Version.Two op.now) }
    ensures small { result ≤ 150000 }
{
    match op {
        Op::Session { .. } => in_one,
        Op::Put { .. } => op_size(Version::Two, op),
        Op::Ack { .. } => in_one,
        Op::Retain { .. } => in_one,
    }
}

impl Measure {
    /// The measure of no operations.
    pub fn of_none() -> Measure
        ensures { IsMeasure result [] }
    {
        Measure {
            one: NO_OCTETS,
            two: NO_OCTETS,
            is_two: false,
        }
    }

    /// The measure of one operation.
    pub fn of_one(op: &Op) -> Measure
        requires { IsTrue (spec.is_well_made op.now) }
        ensures measure { IsMeasure result (op.now ∷ []) }
        ensures small { length (delta_spelling (op.now ∷ [])) ≤ 150005 }
    {
        Measure::of_none().with_op(op)
    }

    /// Whether version 2 is needed with one operation more.
    fn is_two_with(self, op: &Op) -> bool
        ensures { result ≡ (self.is_two || versions.needs_two op.now) }
    {
        self.is_two || needs_two(op)
    }

    /// The measure with one operation more.
    pub fn with_op(self, op: &Op) -> Measure
        requires made { IsTrue (spec.is_well_made op.now) }
        requires one { self.one ≤ 16777216 }
        requires two { self.two ≤ 16777216 }
        ensures measure { (ops : List Op) → IsMeasure self ops
            → IsMeasure result (ops ++ op.now ∷ []) }
        ensures one { result.one ≤ self.one + 150000 }
        ensures two { result.two ≤ self.two + 150000 }
    {
        let first = op_size(Version::One, op);
        let second = size_in_two(op, first);
        let is_two = self.is_two_with(op);
        Measure {
            one: self.one + first,
            two: self.two + second,
            is_two,
        }
    }

    /// How many octets the delta of the operations is spelled in.
    pub fn octets(self) -> usize
        ensures { (ops : List Op) → IsMeasure self ops → result ≡ length (delta_spelling ops) }
    {
        if self.is_two { self.two } else { self.one }
    }
}
