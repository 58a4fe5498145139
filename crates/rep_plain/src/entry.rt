//! What the replica holds of one client.

ghost use Rattle.std.specs.Prelude.{◌≡◌, IfOk, [], length, List, ℕ};
ghost use Rattle.rep_model.specs.Views.{view};
ghost use Rattle.rep_model.specs.Limits as limits;
ghost use Rattle.rep_shared.specs.Steps.{capped};

use super::ranges::{exceptions, ranges_of};
use super::reading::visible_stamp;
use super::replay::replay;
use super::waiting::waiting;
use octets::NoMemory;
use rep_model::{ClientView, Puts};
use rep_ops::{ClientId, Op};
use rep_shared::{count_parked, operations_in_order};
use std::alloc::Global;

/// The operations of one client, and what they come to.
pub struct Entry {
    /// The operations in the order in which they came.
    pub(crate) ops: Vec<Op>,
    /// The view that they give.
    pub(crate) seen: ClientView,
    /// How many session operations wait for earlier ones.
    pub(crate) parked: usize,
    /// How many acknowledgements stand above a number that is not acknowledged.
    pub(crate) exceptions: u64,
}

impl Drop for Entry {
    fn drop(self) {
        let Entry {
            ops,
            seen,
            parked: _,
            exceptions: _,
        } = self;
        drop(ops);
        drop(seen);
    }
}

impl Entry {
    ghost use Rattle.rep_plain.specs.Entries.{IsWorkedOut};

    /// The place of a client of which nothing is known.
    pub(crate) fn empty(alloc: Global) -> Entry
        ensures ops { result.ops.items ≡ [] }
        ensures worked_out { (c : List ℕ) → IsWorkedOut c result }
        ensures open { (length result.seen.pending ≡ 0) × (result.parked ≡ 0)
            × (result.exceptions ≡ 0) }
    {
        Entry {
            ops: Vec::new(alloc),
            seen: ClientView {
                stamp: None,
                prefix: 0,
                session: None,
                pending: Puts::new(Vec::new(alloc)),
            },
            parked: 0,
            exceptions: 0,
        }
    }

    /// What the operations of the client come to.
    pub(crate) fn work_out(
        alloc: Global,
        client: &ClientId,
        ops: Vec<Op>,
    ) -> Result<Entry, NoMemory>
        ensures ops { IfOk result (λ entry. entry.ops.items ≡ ops.items) }
        ensures worked_out { IfOk result (λ entry. IsWorkedOut client.now entry) }
    {
        match view_and_counts(alloc, client, ops.as_slice()) {
            Ok((seen, parked, exceptions)) => Ok(Entry {
                ops,
                seen,
                parked,
                exceptions,
            }),
            Err(fault) => {
                drop(ops);
                Err(fault)
            }
        }
    }
}

/// The view that the operations give, how many of them wait for earlier ones, and how many
/// acknowledgements stand above a number that is not acknowledged.
fn view_and_counts(
    alloc: Global,
    client: &ClientId,
    ops: &[Op],
) -> Result<(ClientView, usize, u64), NoMemory>
    ensures seen { IfOk result (λ made. made.0 ≡ view client.now ops.now) }
    ensures parked { IfOk result (λ made. made.1 ≡ length (limits.parked client.now ops.now)) }
    ensures exceptions { IfOk result (λ made.
        made.2 ≡ capped (limits.exceptions client.now ops.now)) }
{
    let stamp = visible_stamp(ops, client);
    let ranges = ranges_of(alloc, ops, client)?;
    let exceptions = exceptions(alloc, ranges.as_slice())?;
    let pending = waiting(alloc, ops, client, ranges.as_slice());
    drop(ranges);
    let pending = pending?;
    let known = operations_in_order(alloc, ops, client)?;
    let (prefix, session) = replay(alloc, &known, stamp)?;
    let parked = count_parked(&known, stamp, prefix);
    drop(known);
    let seen = ClientView {
        stamp,
        prefix,
        session,
        pending,
    };
    Ok((seen, parked, exceptions))
}
