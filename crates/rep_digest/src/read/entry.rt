//! An entry.

ghost use Rattle.std.specs.Prelude.{◌≡◌, []};
ghost use Rattle.rep_read.specs.Reading.{ReadsAs, many_at};
ghost use Rattle.rep_digest.specs.Reading.{origin_at, origins_at, client_entry_at};
ghost use Rattle.rep_digest.specs.Reading as spec;

use super::part::{read_origin, read_seen};
use crate::entry::{ClientEntry, OriginEntry};
use octets::Sequence;
use rep_ops::{OpsFault, Stamp, read_client, read_two};
use std::alloc::Global;

/// So many origins.
fn read_each_origin(
    alloc: Global,
    count: u16,
    bytes: &[u8],
) -> Result<(Vec<OriginEntry>, &[u8]), OpsFault>
    ensures { ReadsAs (λ x. (x.0.items, x.1.now)) result (many_at origin_at count [] bytes.now) }
{
    let mut origins = Vec::new(alloc);
    let mut rest = bytes;
    for _ in 0..count {
        let (origin, after) = read_origin(alloc, rest)?;
        origins.push(origin)?;
        rest = after;
    }
    Ok((origins, rest))
}

/// Origins.
#[tactic(auto, unfolding(crate::specs::Reading::origins_at))]
fn read_origins(alloc: Global, bytes: &[u8]) -> Result<(Sequence<OriginEntry>, &[u8]), OpsFault>
    ensures { ReadsAs (λ x. (x.0, x.1.now)) result (origins_at bytes.now) }
{
    let (count, rest) = read_two(bytes)?;
    let (origins, rest) = read_each_origin(alloc, count, rest)?;
    Ok((Sequence::new(origins), rest))
}

/// The stamp of an epoch and a gateway: none where the epoch is 0.
fn stamp_from(epoch: u64, gateway: u8, prefix: u16) -> Option<Stamp>
    ensures { result ≡ spec.stamp_from (epoch, (gateway, prefix)) }
{
    if epoch == 0 {
        None
    } else {
        Some(Stamp { epoch, gateway })
    }
}

/// An entry.
#[tactic(auto, unfolding(crate::specs::Reading::client_entry_at))]
pub fn read_entry(alloc: Global, bytes: &[u8]) -> Result<(ClientEntry, &[u8]), OpsFault>
    ensures { ReadsAs (λ x. (x.0, x.1.now)) result (client_entry_at bytes.now) }
{
    let (client, rest) = read_client(alloc, bytes)?;
    let ((epoch, gateway, prefix), rest) = read_seen(rest)?;
    let (origins, rest) = read_origins(alloc, rest)?;
    let entry = ClientEntry {
        client,
        stamp: stamp_from(epoch, gateway, prefix),
        prefix,
        origins,
    };
    Ok((entry, rest))
}
