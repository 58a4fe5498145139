//! Where the records of a slot stand.

ghost use Rattle.std.specs.Prelude.{◌≡◌, ◌⊎◌, ◌+◌, ◌<◌, ◌≤◌, [], length, take, drop, IfOk, IfNone, IfSome};
ghost use Rattle.std.specs.Int.{w32, from_be_bytes};
ghost use Rattle.jr_read.specs.Places.{ArePlaced};
ghost use Rattle.jr_read.specs.inner.Places.{Holds, after_seal};

use jr_journal::{HEADER, SEAL};
use octets::read_u32;
use rep_ops::Delta;
use std::alloc::{AllocError, Global};

/// Where a record stands in its slot.
#[derive(Clone, Copy, PartialEq, Eq)]
pub struct Place {
    /// Its first octet.
    pub at: usize,
    /// How many octets it has, its tag and its length with them.
    pub octets: usize,
}

/// What stands after the header.
fn behind_header(slot: &[u8]) -> &[u8]
    ensures { result.now ≡ drop 13 slot.now }
{
    if slot.len() < HEADER {
        return &[];
    }
    let (_, pieces) = slot.split_at(HEADER);
    pieces
}

/// What stands after a seal, where there is one in front.
fn behind_seal(left: &[u8]) -> &[u8]
    ensures { result.now ≡ after_seal left.now }
{
    match left.split_first() {
        None => left,
        Some((first, rest)) => { if *first == SEAL { rest } else { left } }
    }
}

/// A number, and the octets after it; none where the number is cut.
fn read_length(octets: &[u8]) -> Option<(u32, &[u8])>
    ensures none { IfNone result (length octets.now < 4) }
    ensures some { IfSome result (λ read. read.0 ≡ from_be_bytes w32 (take 4 octets.now)) }
{
    read_u32(octets)
}

/// How many octets the record has that stands in front.
fn record_size(left: &[u8]) -> usize
    requires { 5 ≤ length left.now }
    ensures { result ≡ 5 + from_be_bytes w32 (take 4 (drop 1 left.now)) }
{
    let (_, rest) = left.split_at(1);
    match read_length(rest) {
        None => 5,
        Some((size, _)) => 5 + size as usize,
    }
}

/// Where the records of a slot stand, of which these are the deltas.
pub(crate) fn places_of(
    alloc: Global,
    slot: &[u8],
    deltas: &[Delta],
) -> Result<Vec<Place>, AllocError>
    requires { (deltas.now ≡ []) ⊎ Holds (drop 13 slot.now) deltas.now }
    ensures { IfOk result (λ places. ArePlaced slot.now places.items deltas.now) }
{
    let mut places = Vec::new(alloc);
    let mut left = behind_header(slot);
    for _delta in deltas {
        let start = behind_seal(left);
        let octets = record_size(start);
        places.push(Place {
            at: slot.len() - start.len(),
            octets,
        })?;
        let (_, rest) = start.split_at(octets);
        left = rest;
    }
    Ok(places)
}
