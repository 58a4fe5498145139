//! The packet in front of a stream.

ghost use Rattle.std.specs.Prelude.{◌≡◌, ◌<◌, ◌-◌, ◌∷◌, ◌⊎◌, length, drop, IfOk, IfErr, MatchOption};
ghost use Rattle.mq_stream.specs.declared.front.TheConstants.{MAX_HELD};
ghost use Rattle.mq_stream.specs.Pieces.{IsFaulty, IsHead, IsPiece, LacksPacket};

use mq_packet::{Header, Packet, PacketFault, decode, remaining};
use octets::NoMemory;
use std::alloc::Global;

/// The most octets after Remaining Length that are held of a packet. It has room for the longest
/// topic, a packet id and 8,189 octets of a message.
pub const MAX_HELD: usize = 73_728;

/// The packet in front of a stream, how many octets after it are still to be passed over, and what
/// follows.
#[derive(Drop)]
pub(crate) struct InFront<'a> {
    pub packet: Packet,
    pub over: u32,
    pub rest: &'a [u8],
}

/// What is left of octets that are passed over, and the octets after them.
pub(crate) fn passed(over: u32, octets: &[u8]) -> (u32, &[u8])
    ensures over { result.0 ≡ over - length octets.now }
    ensures rest { result.1.now ≡ drop over octets.now }
{
    if octets.len() < over as usize {
        return (over - octets.len() as u32, &[]);
    }
    (0, &octets[over as usize..])
}

/// The packet in front of the octets; nothing where octets are wanting. A first octet that no
/// packet begins with is a fault at once.
#[tactic(auto, using(crate::proofs::Whole::first_faulty, crate::proofs::Whole::length_faulty))]
pub(crate) fn front(alloc: Global, octets: &[u8]) -> Result<Option<InFront<'_>>, PacketFault>
    ensures ok { IfOk result (λ found. MatchOption found (LacksPacket octets.now)
        (λ f. IsPiece octets.now f.packet f.over f.rest.now)) }
    ensures err { IfErr result (λ e. (e ≡ PacketFault.Memory) ⊎ IsFaulty octets.now e) }
{
    let [first, after @ ..] = octets else {
        return Ok(None);
    };
    let _known = Header::from_octet(*first)?;
    match remaining(after) {
        Err(PacketFault::Short) => Ok(None),
        Err(fault) => Err(fault),
        Ok((said, body)) => whole(alloc, *first, said, octets, body),
    }
}

/// The packet that says so many octets, which begin with the body.
fn whole<'a>(
    alloc: Global,
    first: u8,
    said: u32,
    octets: &'a [u8],
    body: &'a [u8],
) -> Result<Option<InFront<'a>>, PacketFault>
    requires { IsHead octets.now first said body.now }
    ensures ok { IfOk result (λ found. MatchOption found (LacksPacket octets.now)
        (λ f. IsPiece octets.now f.packet f.over f.rest.now)) }
    ensures err { IfErr result (λ e. (e ≡ PacketFault.Memory) ⊎ IsFaulty octets.now e) }
{
    if MAX_HELD < said as usize {
        return cut(alloc, first, said, octets, body);
    }
    let size = said as usize;
    if body.len() < size {
        return Ok(None);
    }
    let (own, rest) = octets.split_at(octets.len() - body.len() + size);
    let packet = decode(alloc, own)?;
    let over = 0;
    Ok(Some(InFront { packet, over, rest }))
}

/// The packet of which more is said than is held.
fn cut<'a>(
    alloc: Global,
    first: u8,
    said: u32,
    _octets: &[u8],
    body: &'a [u8],
) -> Result<Option<InFront<'a>>, PacketFault>
    requires head { IsHead _octets.now first said body.now }
    requires long { MAX_HELD < said }
    ensures ok { IfOk result (λ found. MatchOption found (LacksPacket _octets.now)
        (λ f. IsPiece _octets.now f.packet f.over f.rest.now)) }
    ensures err { IfErr result (λ e. (e ≡ PacketFault.Memory) ⊎ IsFaulty _octets.now e) }
{
    if body.len() < MAX_HELD {
        return Ok(None);
    }
    let (held, rest) = body.split_at(MAX_HELD);
    let own = shortened(alloc, first, held)?;
    let packet = decode(alloc, own.as_slice())?;
    let over = said - MAX_HELD as u32;
    Ok(Some(InFront { packet, over, rest }))
}

/// The octets of a packet with this body, of which Remaining Length says that it has `MAX_HELD`
/// octets: 4 times 16,384 and 64 times 128.
fn shortened(alloc: Global, first: u8, held: &[u8]) -> Result<Vec<u8>, NoMemory>
    ensures { IfOk result (λ own. own.items ≡ first ∷ 128 ∷ 192 ∷ 4 ∷ held.now) }
{
    let mut own = Vec::from_slice(alloc, &[first, 0x80, 0xc0, 0x04])?;
    own.extend_from_slice(held)?;
    Ok(own)
}
