//! What is said of a client, worked out of its view and its acknowledgements.
//!
//! The origins are gathered in a list that ascends, in which each is found by binary search. Their
//! definition, `drafted_origins`, goes through the numbers 1 to 255 instead, which is easier to
//! read. Each step here is proved to lead from one such list to the next.

ghost use Rattle.std.specs.Prelude.{◌≡◌, ◌+◌, ◌==◌, ◌&&◌, nat_le, ◌++◌, ◌∷◌, [], List, IfOk, OnOk};
ghost use Rattle.rep_op.specs.declared.op.Put.{Put};
ghost use Rattle.rep_digest.specs.declared.groups.Acknowledged.{Acknowledged};
ghost use Rattle.rep_digest.specs.inner.Steps.{with_number, drafted_origins, AreDrafted, drafted_entry};

use super::entry::{ClientEntry, OriginEntry};
use super::groups::Acknowledged;
use super::origins::place;
use octets::{NoMemory, Sequence};
use rep_model::ClientView;
use rep_ops::{ClientId, Put};
use std::alloc::Global;

/// What is said of a client.
pub fn entry_of(
    alloc: Global,
    client: &ClientId,
    view: &ClientView,
    acks: &[Acknowledged],
) -> Result<ClientEntry, NoMemory>
    ensures { IfOk result (λ entry. entry ≡ drafted_entry client.now view.now acks.now) }
{
    Ok(ClientEntry {
        client: client.copied(alloc)?,
        stamp: view.stamp,
        prefix: view.prefix,
        origins: origins_of(alloc, acks, view.pending.as_slice())?,
    })
}

/// The origins of which something is said.
fn origins_of(
    alloc: Global,
    acks: &[Acknowledged],
    pending: &[Put],
) -> Result<Sequence<OriginEntry>, NoMemory>
    ensures { IfOk result (λ origins. origins ≡ drafted_origins acks.now pending.now) }
{
    let mut origins = Vec::new(alloc);
    note_acknowledged(alloc, &mut origins, acks)?;
    note_waiting(alloc, &mut origins, pending)?;
    Ok(Sequence::new(origins))
}

/// Puts acknowledgements after those of their origins.
fn note_acknowledged(
    alloc: Global,
    origins: &mut Vec<OriginEntry>,
    acks: &[Acknowledged],
) -> Result<(), NoMemory>
    requires { AreDrafted origins.old.items }
    ensures { (A : List Acknowledged) (P : List Put) → origins.old.items ≡ drafted_origins A P
        → OnOk result (origins.new.items ≡ drafted_origins (A ++ acks.now) P) }
{
    for range in acks {
        note_range(alloc, origins, *range)?;
    }
    Ok(())
}

/// Puts messages that wait after those of their origins.
fn note_waiting(
    alloc: Global,
    origins: &mut Vec<OriginEntry>,
    pending: &[Put],
) -> Result<(), NoMemory>
    requires { AreDrafted origins.old.items }
    ensures { (A : List Acknowledged) (P : List Put) → origins.old.items ≡ drafted_origins A P
        → OnOk result (origins.new.items ≡ drafted_origins A (P ++ pending.now)) }
{
    for put in pending {
        note_put(alloc, origins, put)?;
    }
    Ok(())
}

/// Puts a range of acknowledgements after those of its origin. The time is logarithmic, but for an
/// origin that is new.
fn note_range(
    alloc: Global,
    origins: &mut Vec<OriginEntry>,
    range: Acknowledged,
) -> Result<(), NoMemory>
    requires { AreDrafted origins.old.items }
    ensures { (A : List Acknowledged) (P : List Put) → origins.old.items ≡ drafted_origins A P
        → OnOk result (origins.new.items ≡ drafted_origins (A ++ range ∷ []) P) }
{
    if !is_gateway(range.origin) {
        return Ok(());
    }
    let numbers = (range.first, range.last);
    match place(origins.as_slice(), range.origin) {
        Ok(at) => {
            let entry = &mut origins[at];
            entry.acknowledged.push(numbers)?;
        }
        Err(at) => {
            let entry = OriginEntry {
                origin: range.origin,
                acknowledged: one_range(alloc, numbers)?,
                waiting: Sequence::empty(alloc),
            };
            origins.insert(at, entry)?;
        }
    }
    Ok(())
}

/// Puts the number of a message after those of its origin. The time is logarithmic, but for an
/// origin that is new.
fn note_put(alloc: Global, origins: &mut Vec<OriginEntry>, put: &Put) -> Result<(), NoMemory>
    requires { AreDrafted origins.old.items }
    ensures { (A : List Acknowledged) (P : List Put) → origins.old.items ≡ drafted_origins A P
        → OnOk result (origins.new.items ≡ drafted_origins A (P ++ put.now ∷ [])) }
{
    if !is_gateway(put.origin) {
        return Ok(());
    }
    match place(origins.as_slice(), put.origin) {
        Ok(at) => {
            let entry = &mut origins[at];
            add_number(&mut entry.waiting, put.seq)?;
        }
        Err(at) => {
            let entry = OriginEntry {
                origin: put.origin,
                acknowledged: Sequence::empty(alloc),
                waiting: one_range(alloc, (put.seq, put.seq))?,
            };
            origins.insert(at, entry)?;
        }
    }
    Ok(())
}

/// Whether a gateway can have the number: 1 to 255.
fn is_gateway(number: u8) -> bool
    ensures { result ≡ (nat_le 1 number && nat_le number 255) }
{
    number >= 1
}

/// A range alone.
fn one_range(alloc: Global, range: (u64, u64)) -> Result<Sequence<(u64, u64)>, NoMemory>
    ensures { IfOk result (λ ranges. ranges ≡ range ∷ []) }
{
    let mut ranges = Sequence::empty(alloc);
    ranges.push(range)?;
    Ok(ranges)
}

/// Puts a number after the others: in the last range where it touches it.
fn add_number(ranges: &mut Sequence<(u64, u64)>, number: u64) -> Result<(), NoMemory>
    ensures { OnOk result (ranges.new ≡ with_number ranges.old number) }
{
    let count = ranges.len();
    if count > 0 {
        let last = ranges.as_slice()[count - 1];
        if touches(last.1, number) {
            ranges.replace(count - 1, (last.0, number));
            return Ok(());
        }
    }
    ranges.push((number, number))?;
    Ok(())
}

/// Whether the number comes right after the other.
fn touches(last: u64, number: u64) -> bool
    ensures { result ≡ (last + 1 == number) }
{
    last < number && number - last == 1
}
