//! A set as deltas: as few as can be where each is at most 8,388,608 octets.

ghost use Rattle.std.specs.Prelude.{◌≡◌, [], ◌∷◌, ◌++◌, IfOk, OnOk};
ghost use Rattle.rep_op.specs.Values.{AreValues};
ghost use Rattle.rep_ops.specs.Deltas.{IsDelta};
ghost use Rattle.rep_ops.specs.Making.{AreWellMade, IsDeltaOf};
ghost use Rattle.rep_ops.specs.Spelling.{IsDeltaWithinLimit};
ghost use Rattle.rep_ops.specs.Splitting.{IsSplit, AreDeltasOf};

use super::delta::Delta;
use super::join::{join_names, push, sort_stably};
use super::measure::Measure;
use super::size::MAX_OCTETS;
use rep_op::{Op, is_value};
use sn_session::octets::NoMemory;
use std::alloc::Global;
use std::mem;

/// The deltas that together are the set of these operations, in the order of their names: of one
/// name the first counts, and ranges of acknowledgements that overlap or touch are one. A new delta
/// begins where the next operation does not fit into 8,388,608 octets. Of no operations there is no
/// delta.
///
/// `Memory` is the only fault.
pub fn deltas_of(alloc: Global, ops: Vec<Op>) -> Result<Vec<Delta>, NoMemory>
    requires { AreWellMade ops.items }
    ensures { IfOk result (λ deltas. AreDeltasOf ops.items deltas.items) }
{
    split(alloc, whole(alloc, ops)?)
}

/// The operations of the delta that is the set of these, however large; of one name the first
/// counts.
fn whole(alloc: Global, ops: Vec<Op>) -> Result<Vec<Op>, NoMemory>
    requires { AreWellMade ops.items }
    ensures { IfOk result (λ d. IsDeltaOf ops.items d.items) }
{
    let mut sorted = ops;
    sort_stably(&mut sorted)?;
    join_names(alloc, sorted)
}

/// Makes a part a delta, after those that are there, and begins another part.
fn close(alloc: Global, deltas: &mut Vec<Delta>, part: &mut Vec<Op>) -> Result<(), NoMemory>
    requires delta { IsDelta part.now.items }
    requires limit { IsDeltaWithinLimit part.now.items }
    requires values { AreValues part.now.items }
    ensures deltas { OnOk result (deltas.new.items ≡ deltas.old.items ++ part.old.items ∷ []) }
    ensures part { OnOk result (part.new.items ≡ []) }
{
    let ops = mem::replace(part, Vec::new(alloc));
    deltas.push(Delta { ops })?;
    Ok(())
}

/// The operations of a delta, in parts that fit.
fn split(alloc: Global, ops: Vec<Op>) -> Result<Vec<Delta>, NoMemory>
    requires { IsDelta ops.items }
    ensures { IfOk result (λ deltas. IsSplit ops.items deltas.items) }
{
    let mut deltas = Vec::new(alloc);
    let mut part = Vec::new(alloc);
    let mut measure = Measure::of_none();
    for op in ops {
        is_value(&op);
        let mut longer = measure.with_op(&op);
        let size = longer.octets();
        if size > MAX_OCTETS {
            if let Err(fault) = close(alloc, &mut deltas, &mut part) {
                drop(op);
                return Err(fault);
            }
            longer = Measure::of_one(&op);
        }
        push(&mut part, op)?;
        measure = longer;
    }
    if !part.is_empty() {
        close(alloc, &mut deltas, &mut part)?;
    }
    Ok(deltas)
}
