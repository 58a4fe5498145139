//! The acknowledged messages of a client. Those that are acknowledged in order are one range,
//! however many they are: a first range that begins at 1 ends at the watermark, and the others are
//! the exceptions above it.

ghost use Rattle.std.specs.Prelude.{◌≡◌, ◌+◌, ◌≤◌, ◌<◌, ◌==◌, ◌++◌, ◌∷◌, [], map, not, length, ℕ, List, ◌||◌, IfOk, OnOk};
ghost use Rattle.std.specs.List.{list_any};
ghost use Rattle.std.specs.BTreeMap.{values};
ghost use Rattle.rep_op.specs.declared.op.Op.TheVariants.{Ack};
ghost use Rattle.rep_model.specs.Ranges.{in_ranges};
ghost use Rattle.rep_model.specs.Ranges as range_list;
ghost use Rattle.rep_shared.specs.Steps.{capped};
ghost use Rattle.rep_log.specs.Kept.{of_acks};
ghost use Rattle.rep_log.specs.Mail.{covers};
ghost use Rattle.rep_log.specs.Origins.{origins_of, ranges_of_origin, ranges_in, AreOrigins, origins_above_gaps};

use octets::NoMemory;
use rep_ops::{ClientId, Op};
use rep_shared::{above_gap, with_range};
use std::alloc::Global;
use std::collections::BTreeMap;
use std::marker::Model;

/// The acknowledged sequence numbers of each origin, as ranges in ascending order that do not
/// touch. Contracts see the origins in ascending order, each with its ranges.
pub struct Acks {
    origins: BTreeMap<u8, Vec<(u64, u64)>>,
}

impl Drop for Acks {
    fn drop(self) {
        let Acks { origins } = self;
        drop(origins);
    }
}

impl Model for Acks {
    ghost use Rattle.std.specs.Prelude.{List, ℕ};

    ghost Value = { List (ℕ × List (ℕ × ℕ)) };

    ghost use Rattle.rep_log.specs.Origins.{origins_of, AreOrigins};

    ghost view = { λ a. origins_of a.origins.entries };

    ghost invariant = { λ a. AreOrigins (origins_of a.origins.entries) };
}

impl Acks {
    ghost use Rattle.std.specs.Prelude.{[]};

    /// No acknowledgement.
    pub fn new(alloc: Global) -> Acks
        ensures { result ≡ [] }
    {
        Acks {
            origins: BTreeMap::new(alloc),
        }
    }

    /// The acknowledged numbers of an origin.
    pub fn numbers(&self, origin: u8) -> &[(u64, u64)]
        ensures numbers { result.now ≡ ranges_of_origin origin self.now }
        ensures origins { AreOrigins self.now }
    {
        match self.origins.get(&origin) {
            Some(ranges) => ranges.as_slice(),
            None => &[],
        }
    }

    /// Whether a message is acknowledged.
    pub fn covers(&self, seq: u64, origin: u8) -> bool
        ensures { result ≡ list_any (covers (seq, origin)) (ranges_in self.now) }
    {
        any_within(self.numbers(origin), seq)
    }

    /// The acknowledgements of the messages first to last of an origin more.
    pub fn add(&mut self, alloc: Global, origin: u8, first: u64, last: u64) -> Result<(), NoMemory>
        requires { (1 ≤ origin) × (1 ≤ first) × (first ≤ last) }
        ensures origins { OnOk result (AreOrigins self.new) }
        ensures covers { OnOk result ((name : ℕ × ℕ)
            → list_any (covers name) (ranges_in self.new)
            ≡ (list_any (covers name) (ranges_in self.old)
            || covers name (origin, (first, last)))) }
    {
        let more = with_range(alloc, (first, last), self.numbers(origin))?;
        self.origins.insert(origin, more)?;
        Ok(())
    }

    /// Whether some message is acknowledged.
    pub fn has_ranges(&self) -> bool
        ensures { result ≡ list_any (λ o. not (length o.1 == 0)) self.now }
    {
        any_range(&self.origins)
    }

    /// Puts the client's acknowledgements after the operations.
    pub fn push_to(
        &self,
        alloc: Global,
        kept: &mut Vec<Op>,
        client: &ClientId,
    ) -> Result<(), NoMemory>
        ensures { OnOk result (kept.new.items
            ≡ kept.old.items ++ of_acks client.now (ranges_in self.now)) }
    {
        push_origins(alloc, kept, client, &self.origins)
    }

    /// Equal acknowledgements.
    pub fn copied(&self, alloc: Global) -> Result<Acks, NoMemory>
        ensures { IfOk result (λ made. made ≡ self.now) }
    {
        let origins = copy_origins(alloc, &self.origins)?;
        Ok(Acks { origins })
    }

    /// How many acknowledgements stand above a number of their origin that is not acknowledged.
    pub fn exceptions(&self) -> u64
        ensures { result ≡ capped (origins_above_gaps self.now 255) }
    {
        let mut count = 0u64;
        for below in 0..self.last_origin() {
            count = above_gap(self.numbers(below + 1)).saturating_add(count);
        }
        count
    }

    /// The greatest origin with acknowledgements, or 0.
    fn last_origin(&self) -> u8
        ensures { (origin : ℕ) → result < origin → ranges_of_origin origin self.now ≡ [] }
    {
        match self.origins.last_key_value() {
            Some((origin, _)) => *origin,
            None => 0,
        }
    }
}

/// Whether an origin has ranges.
fn any_range(origins: &BTreeMap<u8, Vec<(u64, u64)>>) -> bool
    ensures { result ≡ list_any (λ v. not (length v.items == 0)) (values origins.now) }
{
    origins.values().any(|ranges| !ranges.as_slice().is_empty())
}

/// Puts an acknowledgement of the client after the operations.
fn push_ack(
    alloc: Global,
    kept: &mut Vec<Op>,
    client: &ClientId,
    origin: u8,
    range: (u64, u64),
) -> Result<(), NoMemory>
    ensures { OnOk result (kept.new.items
        ≡ kept.old.items ++ Ack client.now origin range.0 range.1 ∷ []) }
{
    let op = Op::Ack {
        client: client.copied(alloc)?,
        origin,
        first: range.0,
        last: range.1,
    };
    kept.push(op)?;
    Ok(())
}

/// Puts the client's acknowledgements of all origins after the operations.
fn push_origins(
    alloc: Global,
    kept: &mut Vec<Op>,
    client: &ClientId,
    origins: &BTreeMap<u8, Vec<(u64, u64)>>,
) -> Result<(), NoMemory>
    ensures { OnOk result (kept.new.items
        ≡ kept.old.items ++ of_acks client.now (ranges_in (origins_of origins.now.entries))) }
{
    for (origin, ranges) in origins {
        push_ranges(alloc, kept, client, *origin, ranges.as_slice())?;
    }
    Ok(())
}

/// Puts the client's acknowledgements of an origin after the operations.
fn push_ranges(
    alloc: Global,
    kept: &mut Vec<Op>,
    client: &ClientId,
    origin: u8,
    ranges: &[(u64, u64)],
) -> Result<(), NoMemory>
    ensures { OnOk result (kept.new.items
        ≡ kept.old.items ++ of_acks client.now (map (λ r. (origin, r)) ranges.now)) }
{
    for range in ranges {
        push_ack(alloc, kept, client, origin, *range)?;
    }
    Ok(())
}

/// Equal ranges of each origin.
fn copy_origins(
    alloc: Global,
    origins: &BTreeMap<u8, Vec<(u64, u64)>>,
) -> Result<BTreeMap<u8, Vec<(u64, u64)>>, NoMemory>
    ensures { IfOk result (λ made. origins_of made.entries ≡ origins_of origins.now.entries) }
{
    let mut made = BTreeMap::new(alloc);
    for (origin, ranges) in origins {
        let copied = copy_ranges(alloc, ranges.as_slice())?;
        made.insert(*origin, copied)?;
    }
    Ok(made)
}

/// Equal ranges.
fn copy_ranges(alloc: Global, ranges: &[(u64, u64)]) -> Result<Vec<(u64, u64)>, NoMemory>
    ensures { IfOk result (λ made. made.items ≡ ranges.now) }
{
    let mut made = Vec::new(alloc);
    made.extend_from_slice(ranges)?;
    Ok(made)
}

/// Whether the number is in one of the ranges.
fn any_within(ranges: &[(u64, u64)], number: u64) -> bool
    ensures { result ≡ in_ranges number ranges.now }
{
    ranges.iter().any(|range| is_within(number, *range))
}

/// Whether the number is in the range.
fn is_within(number: u64, range: (u64, u64)) -> bool
    ensures { result ≡ range_list.is_within number range }
{
    range.0 <= number && number <= range.1
}
