//! Session operations of one client, in the order of their names, so that none is looked for one by
//! one.

ghost use Rattle.std.specs.Prelude.{◌≡◌, ◌+◌, ◌++◌, ◌≤◌, ℕ, List, [], count_by, filter, length, not, None, Some, IfOk, OnOk, T, vec_capacity};
ghost use Rattle.std.specs.FinMap.{find, put, is_sorted};
ghost use Rattle.std.specs.Map.{keys_of};
ghost use Rattle.std.specs.List.Sorted.{IsSearchInRange};
ghost use Rattle.std.specs.Option.{option_copied};
ghost use Rattle.sn_session.specs.declared.change.SessionOp.{SessionOp as OfChange};
ghost use Rattle.sn_tables.specs.inner.Tables.{IsPlace};
ghost use Rattle.rep_op.specs.declared.op.Stamp.{Stamp as OfStamp};
ghost use Rattle.rep_op.specs.Orders.{operation_cmp};
ghost use Rattle.rep_model.specs.Keep as spec;
ghost use Rattle.rep_shared.specs.Steps.{waits};

use super::behind::append_reusing;
use octets::NoMemory;
use rep_ops::Stamp;
use sn_session::SessionOp;
use std::alloc::Global;
use std::marker::Model;

/// A session operation under its name: stamp and counter.
pub type NamedOp = ((Stamp, u8), SessionOp);

/// Session operations under their names. Contracts see them in the order of the names.
#[derive(Drop)]
pub struct Known {
    ops: Vec<NamedOp>,
}

impl Model for Known {
    ghost use Rattle.std.specs.Prelude.{List, ℕ, T};
    ghost use Rattle.std.specs.FinMap.{is_sorted};
    ghost use Rattle.sn_session.specs.declared.change.SessionOp.{SessionOp};
    ghost use Rattle.rep_op.specs.declared.op.Stamp.{Stamp};
    ghost use Rattle.rep_op.specs.Orders.{operation_cmp};

    ghost Value = { List ((Stamp × ℕ) × SessionOp) };

    ghost view = { λ k. k.ops.items };

    ghost invariant = { λ k. T (is_sorted operation_cmp k.ops.items) };
}

impl Known {
    /// No operation.
    pub fn new(alloc: Global) -> Known
        ensures { result ≡ [] }
    {
        Known {
            ops: Vec::new(alloc),
        }
    }

    /// The operations, in the order of their names.
    pub fn as_slice(&self) -> &[NamedOp]
        ensures items { result.now ≡ self.now }
        ensures ordered { T (is_sorted operation_cmp self.now) }
    {
        self.ops.as_slice()
    }

    /// The operation of that name. The time is logarithmic.
    pub fn get(&self, stamp: Stamp, counter: u8) -> Option<&SessionOp>
        ensures { option_copied result ≡ find operation_cmp (stamp, counter) self.now }
    {
        find_op(self.as_slice(), stamp, counter)
    }

    /// One operation more, in its place, of a name that is new.
    pub fn insert(&mut self, name: (Stamp, u8), change: SessionOp) -> Result<(), NoMemory>
        requires { find operation_cmp name self.old ≡ None }
        ensures { OnOk result (self.new ≡ put operation_cmp name change self.old) }
    {
        match place_of(self.ops.as_slice(), name.0, name.1 as u16) {
            Err(at) => self.ops.insert(at, (name, change))?,
            Ok(_) => unreachable!(),
        }
        Ok(())
    }

    /// Equal operations.
    pub fn copied(&self, alloc: Global) -> Result<Known, NoMemory>
        ensures { IfOk result (λ made. made ≡ self.now) }
    {
        let ops = copy_ops(alloc, self.ops.as_slice())?;
        Ok(Known { ops })
    }

    /// Forgets what is below the stamp.
    pub fn forget_below(&mut self, stamp: Stamp)
        ensures { self.new ≡ filter (λ e. not (spec.is_below e.0.0 (Some stamp))) self.old }
    {
        self.ops.retain(|op| !(op.0.0 < stamp));
    }

    /// These operations, of which equal ones are made, and others after them, which are moved.
    pub fn joined(alloc: Global, first: &[NamedOp], more: Known) -> Result<Known, NoMemory>
        requires { T (is_sorted operation_cmp (first.now ++ more)) }
        ensures { IfOk result (λ made. made ≡ first.now ++ more) }
    {
        let Known { ops: mut behind } = more;
        let mut ops = copy_ops(alloc, first)?;
        ops.append(&mut behind)?;
        Ok(Known { ops })
    }

    /// Moves operations after those that are there: these stay where they are, if there is room
    /// for all, and go to `room` else, which is empty.
    pub fn move_behind(&mut self, more: Known, room: Vec<NamedOp>)
        requires empty { room.items ≡ [] }
        requires room { length self.old + length more ≤ vec_capacity room }
        requires ordered { T (is_sorted operation_cmp (self.old ++ more)) }
        ensures { self.new ≡ self.old ++ more }
    {
        append_reusing(&mut self.ops, more.ops, room);
    }
}

/// Equal operations.
fn copy_ops(alloc: Global, ops: &[NamedOp]) -> Result<Vec<NamedOp>, NoMemory>
    ensures { IfOk result (λ made. made.items ≡ ops.now) }
{
    let mut made = Vec::with_capacity(alloc, ops.len())?;
    for op in ops {
        made.push((op.0, op.1.copied(alloc)?))?;
    }
    Ok(made)
}

/// Where an operation of that name stands among operations in order, or where it would go. The time
/// is logarithmic.
fn place_of(ops: &[NamedOp], stamp: Stamp, counter: u16) -> Result<usize, usize>
    requires { T (is_sorted operation_cmp ops.now) }
    ensures place { IsPlace (λ op. operation_cmp op.0 (stamp, counter)) ops.now result }
    ensures bound { IsSearchInRange result (length ops.now) }
{
    ops.binary_search_by(|op| op.0.0.cmp(&stamp).then((op.0.1 as u16).cmp(&counter)))
}

/// The operation of that name among operations in order. The time is logarithmic.
pub(crate) fn find_op<'a>(ops: &'a [NamedOp], stamp: Stamp, counter: u8) -> Option<&'a SessionOp>
    requires { T (is_sorted operation_cmp ops.now) }
    ensures { option_copied result ≡ find operation_cmp (stamp, counter) ops.now }
{
    match place_of(ops, stamp, counter as u16) {
        Ok(at) => Some(&ops[at].1),
        Err(_) => None,
    }
}

/// Of the operations, which stand in order, those from a stamp on; contracts see that none of these
/// is left out. The time is logarithmic.
pub(crate) fn from_stamp(ops: &[NamedOp], stamp: Stamp) -> &[NamedOp]
    requires { T (is_sorted operation_cmp ops.now) }
    ensures kept { filter (λ e. not (spec.is_below e.0.0 (Some stamp))) result.now
        ≡ filter (λ e. not (spec.is_below e.0.0 (Some stamp))) ops.now }
    ensures ordered { (more : List ((OfStamp × ℕ) × OfChange))
        → T (is_sorted operation_cmp (ops.now ++ more))
        → T (is_sorted operation_cmp (result.now ++ more)) }
{
    match place_of(ops, stamp, 0) {
        Ok(at) => &ops[at..],
        Err(at) => &ops[at..],
    }
}

/// How many of the operations, which stand in order, wait for earlier ones. The time is
/// logarithmic.
pub(crate) fn count_waiting(ops: &[NamedOp], visible: Option<Stamp>, prefix: u16) -> usize
    requires { T (is_sorted operation_cmp ops.now) }
    ensures { result ≡ count_by (waits visible prefix) (keys_of ops.now) }
{
    match visible {
        None => ops.len(),
        Some(seen) => count_from(ops, seen, prefix),
    }
}

/// How many of the operations, which stand in order, have this name or come after it. The time is
/// logarithmic.
fn count_from(ops: &[NamedOp], stamp: Stamp, counter: u16) -> usize
    requires { T (is_sorted operation_cmp ops.now) }
    ensures { result ≡ count_by (waits (Some stamp) counter) (keys_of ops.now) }
{
    match place_of(ops, stamp, counter) {
        Ok(at) => ops.len() - at,
        Err(at) => ops.len() - at,
    }
}
