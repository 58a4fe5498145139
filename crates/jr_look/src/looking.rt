//! What there is to show.

use crate::stop::Stop;
use jr_journal::{HEADER, JournalFault, SEAL, Slot};
use jr_read::{Misfit, Reading, generation, owner, read, take_all};
use rep_model::{Replica, TakeFault};
use rep_ops::Delta;
use rep_state::Folded;
use std::alloc::Global;
use std::mem;

/// Why an opening would refuse.
#[derive(Drop)]
pub enum Fault {
    /// The journal's own opening refuses.
    Journal(JournalFault),
    /// A record does not fit to those before it.
    Record(Misfit),
}

/// A record that the end of the slot that is read cuts.
#[derive(Clone, Copy)]
pub struct Torn {
    /// Its first octet.
    pub at: usize,
    /// How many octets there are of it.
    pub octets: usize,
}

/// What there is to show.
pub struct Findings {
    /// The number of the gateway that would open it, if the journal tells one or one was given.
    pub gateway: Option<u8>,
    /// The number that a header tells: that of the first slot, or of the second where the first is
    /// too short.
    pub told: Option<u8>,
    /// How many octets the first slot has.
    pub first: usize,
    /// How many octets the second slot has.
    pub second: usize,
    /// The generations that the headers of the first and the second slot tell, where they are
    /// whole.
    pub generations: [Option<u64>; 2],
    /// There is no journal yet: an opening begins one.
    pub is_fresh: bool,
    /// The records that an opening reads, or where it refuses a record those in front.
    pub reading: Option<Reading>,
    /// What the end cuts.
    pub torn: Option<Torn>,
    /// Why an opening would refuse.
    pub fault: Option<Fault>,
    /// What the records come to.
    pub replica: Option<Folded>,
}

impl Drop for Findings {
    fn drop(self) {
        let Findings {
            gateway: _,
            told: _,
            first: _,
            second: _,
            generations: _,
            is_fresh: _,
            reading,
            torn: _,
            fault,
            replica,
        } = self;
        drop(reading);
        drop(fault);
        drop(replica);
    }
}

impl Findings {
    /// Nothing yet. `asked` is the number of the gateway, if one was given.
    pub(crate) fn none(asked: Option<u8>) -> Findings {
        Findings {
            gateway: asked,
            told: None,
            first: 0,
            second: 0,
            generations: [None, None],
            is_fresh: false,
            reading: None,
            torn: None,
            fault: None,
            replica: None,
        }
    }
}

/// What there is to show of two slots.
pub(crate) fn look_at(
    alloc: Global,
    seen: &mut Findings,
    first: &[u8],
    second: &[u8],
) -> Result<(), Stop> {
    seen.told = owner(first).or(owner(second));
    seen.gateway = seen.gateway.or(seen.told);
    seen.first = first.len();
    seen.second = second.len();
    seen.generations = [generation(first), generation(second)];
    read_records(alloc, seen, first, second)
}

/// Reads the records, or finds why an opening would refuse.
fn read_records(
    alloc: Global,
    seen: &mut Findings,
    first: &[u8],
    second: &[u8],
) -> Result<(), Stop> {
    let gateway = seen.gateway.unwrap_or(0);
    match read(alloc, gateway, first, second) {
        Ok(reading) => settle(alloc, seen, reading),
        Err(JournalFault::Memory) => Err(Stop::Memory),
        Err(fault) => {
            keep_reading(seen, front(alloc, gateway, first, second, fault));
            keep_fault(seen, Fault::Journal(fault));
            Ok(())
        }
    }
}

/// The records that are shown.
fn keep_reading(seen: &mut Findings, reading: Option<Reading>) {
    drop(mem::replace(&mut seen.reading, reading));
}

/// Why an opening would refuse.
fn keep_fault(seen: &mut Findings, fault: Fault) {
    drop(mem::replace(&mut seen.fault, Some(fault)));
}

/// What can be shown if a record is bad; nothing if the fault is another.
fn front(
    alloc: Global,
    gateway: u8,
    first: &[u8],
    second: &[u8],
    fault: JournalFault,
) -> Option<Reading> {
    match fault {
        JournalFault::BadRecord {
            slot: Slot::First,
            at,
        } => {
            let other = sound(alloc, gateway, Slot::Second, second);
            newest(alloc, gateway, Slot::First, until(first, at), other)
        }
        JournalFault::BadRecord {
            slot: Slot::Second,
            at,
        } => {
            let other = sound(alloc, gateway, Slot::First, first);
            newest(alloc, gateway, Slot::Second, until(second, at), other)
        }
        _ => None,
    }
}

/// What can be shown if a record is bad: the other slot if that is sound and newer, or if
/// the bad record stands in front of its slot's seal, so that nothing there counts yet; else the
/// records in front of it, which are in these octets.
fn newest(
    alloc: Global,
    gateway: u8,
    slot: Slot,
    octets: &[u8],
    other: Option<Reading>,
) -> Option<Reading> {
    let own = alone(alloc, gateway, slot, octets);
    if is_newer(&other, &own) {
        drop(own);
        other
    } else if own.is_some() {
        drop(other);
        own
    } else {
        drop(own);
        drop(other);
        base(alloc, gateway, slot, octets)
    }
}

/// Whether the first is there, and the second is not or has a smaller generation.
fn is_newer(other: &Option<Reading>, own: &Option<Reading>) -> bool {
    match (other, own) {
        (Some(other), Some(own)) => other.generation > own.generation,
        (Some(_), None) => true,
        (None, _) => false,
    }
}

/// What an opening reads of a slot, if the other one is empty and this one has records.
fn sound(alloc: Global, gateway: u8, slot: Slot, octets: &[u8]) -> Option<Reading> {
    let found = alone(alloc, gateway, slot, octets);
    if has_records(&found) {
        found
    } else {
        drop(found);
        None
    }
}

/// Whether something was read, and has records.
fn has_records(found: &Option<Reading>) -> bool {
    match found {
        Some(reading) => !reading.places.is_empty(),
        None => false,
    }
}

/// These octets as a base that ends with them, where there is nothing else to show.
fn base(alloc: Global, gateway: u8, slot: Slot, octets: &[u8]) -> Option<Reading> {
    let mut sealed = Vec::new(alloc);
    let found = if seal(&mut sealed, octets) {
        alone(alloc, gateway, slot, sealed.as_slice())
    } else {
        None
    };
    drop(sealed);
    found
}

/// Adds these octets and a seal, unless memory runs out.
fn seal(sealed: &mut Vec<u8>, octets: &[u8]) -> bool {
    sealed.extend_from_slice(octets).is_ok() && sealed.push(SEAL).is_ok()
}

/// What an opening reads of a slot, where the other one is empty.
fn alone(alloc: Global, gateway: u8, slot: Slot, octets: &[u8]) -> Option<Reading> {
    let found = match slot {
        Slot::First => read(alloc, gateway, octets, &[]),
        Slot::Second => read(alloc, gateway, &[], octets),
    };
    found.ok()
}

/// The octets in front of a place, or all where there are fewer.
fn until(octets: &[u8], at: usize) -> &[u8] {
    if at > octets.len() {
        return octets;
    }
    let (front, _) = octets.split_at(at);
    front
}

/// The records are read, and are taken one after the other.
fn settle(alloc: Global, seen: &mut Findings, reading: Reading) -> Result<(), Stop> {
    find_end(seen, &reading);
    let taken = take_records(alloc, seen, reading.records.as_slice());
    keep_reading(seen, Some(reading));
    taken
}

/// Whether there is no journal yet, and what the end cuts.
fn find_end(seen: &mut Findings, reading: &Reading) {
    let size = match reading.slot {
        Slot::First => seen.first,
        Slot::Second => seen.second,
    };
    if seen.second == 0 && seen.first <= HEADER {
        seen.is_fresh = true;
    } else if reading.whole < size {
        seen.torn = Some(Torn {
            at: reading.whole,
            octets: size - reading.whole,
        });
    }
}

/// The records are taken one after the other.
fn take_records(alloc: Global, seen: &mut Findings, records: &[Delta]) -> Result<(), Stop> {
    match Folded::empty(alloc) {
        Ok(mut replica) => {
            let taken = take_all(alloc, &mut replica, records);
            keep_replica(seen, replica, taken)
        }
        Err(_) => Err(Stop::Memory),
    }
}

/// What the records come to; unless one does not fit, or memory ran out.
fn keep_replica(
    seen: &mut Findings,
    replica: Folded,
    taken: Result<(), Misfit>,
) -> Result<(), Stop> {
    match taken {
        Ok(()) => {
            drop(mem::replace(&mut seen.replica, Some(replica)));
            Ok(())
        }
        Err(misfit) => {
            drop(replica);
            refuse(seen, misfit)
        }
    }
}

/// A record does not fit, or memory ran out.
fn refuse(seen: &mut Findings, misfit: Misfit) -> Result<(), Stop> {
    let is_memory = matches!(&misfit.fault, TakeFault::Memory);
    keep_fault(seen, Fault::Record(misfit));
    if is_memory { Err(Stop::Memory) } else { Ok(()) }
}
