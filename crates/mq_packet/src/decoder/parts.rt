//! Parts of bodies that several packets share.

ghost use Rattle.std.specs.Prelude.{◌≡◌, MatchOption, Some, None};
ghost use Rattle.mq_packet.specs.inner.Reading as spec;
ghost use Rattle.mq_packet.specs.inner.Reading.{ReadsPacket, read_no_body, read_data, read_id, read_only_id};

use crate::fault::PacketFault;
use crate::packet::{Packet, Qos};
use byteorder::{BigEndian, ByteOrder};

/// The number in two octets.
pub(super) fn number_of_two(high: u8, low: u8) -> u16
    ensures { result ≡ spec.number_of_two high low }
{
    BigEndian::read_u16(&[high, low])
}

/// A string or data after its length, and what follows.
pub(super) fn data(octets: &[u8]) -> Option<(&[u8], &[u8])>
    ensures { MatchOption result (read_data octets.now ≡ None)
        (λ read. read_data octets.now ≡ Some (read.0.now, read.1.now)) }
{
    let [high, low, rest @ ..] = octets else {
        return None;
    };
    let size = usize::from(number_of_two(*high, *low));
    if size <= rest.len() {
        Some(rest.split_at(size))
    } else {
        None
    }
}

/// A packet id, and what follows.
pub(super) fn id(octets: &[u8]) -> Option<(u16, &[u8])>
    ensures { MatchOption result (read_id octets.now ≡ None)
        (λ read. read_id octets.now ≡ Some (read.0, read.1.now)) }
{
    let [high, low, rest @ ..] = octets else {
        return None;
    };
    let id = number_of_two(*high, *low);
    if id == 0 { None } else { Some((id, rest)) }
}

/// A packet id and nothing else.
pub(super) fn only_id(octets: &[u8]) -> Option<u16>
    ensures { result ≡ read_only_id octets.now }
{
    let (id, rest) = id(octets)?;
    if rest.is_empty() { Some(id) } else { None }
}

/// A quality of service by its number.
pub(super) fn qos_of_number(octet: u8) -> Option<Qos>
    ensures { result ≡ spec.qos_of_number octet }
{
    match octet {
        0 => Some(Qos::Zero),
        1 => Some(Qos::One),
        _ => None,
    }
}

/// This packet, which has no body.
pub(super) fn bare(body: &[u8], packet: Packet) -> Result<Packet, PacketFault>
    ensures { ReadsPacket (read_no_body body.now packet) result }
{
    match body {
        [] => Ok(packet),
        _ => Err(PacketFault::Body),
    }
}
