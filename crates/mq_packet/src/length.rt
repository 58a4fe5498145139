//! Remaining Length (MQTT 3.1.1 section 2.2.3).

ghost use Rattle.std.specs.Prelude.{◌≡◌, ◌+◌, ◌*◌, ◌-◌, ◌<◌, ◌≤◌, IfOk, IfErr};
ghost use Rattle.mq_packet.specs.Faults.{IsLengthFault};
ghost use Rattle.mq_packet.specs.Grammar.{IsSaid};

use crate::fault::PacketFault;

/// The size that Remaining Length says, of the octets after the first of a packet, and what follows
/// it. So a stream that begins with a packet says how long the packet is. The faults are Short, if
/// the octets end before Remaining Length does, and TooLong.
pub fn remaining(octets: &[u8]) -> Result<(u32, &[u8]), PacketFault>
    ensures ok { IfOk result (λ said. IsSaid octets.now said.0 said.1.now) }
    ensures err { IfErr result (IsLengthFault octets.now) }
{
    let [a, rest @ ..] = octets else {
        return Err(PacketFault::Short);
    };
    if *a < MORE {
        return Ok((u32::from(*a), rest));
    }
    let [b, rest @ ..] = rest else {
        return Err(PacketFault::Short);
    };
    if *b < MORE {
        return Ok((joined(*a, u32::from(*b)), rest));
    }
    let [c, rest @ ..] = rest else {
        return Err(PacketFault::Short);
    };
    if *c < MORE {
        return Ok((joined(*a, joined(*b, u32::from(*c))), rest));
    }
    let [d, rest @ ..] = rest else {
        return Err(PacketFault::Short);
    };
    if *d < MORE {
        return Ok((joined(*a, joined(*b, joined(*c, u32::from(*d)))), rest));
    }
    Err(PacketFault::TooLong)
}

/// An octet that is at least this says that another one follows.
const MORE: u8 = 128;

/// The number of an octet that others follow.
fn joined(low: u8, high: u32) -> u32
    requires open { 128 ≤ low }
    requires fits { high < 2097152 }
    ensures { result + 128 ≡ low + 128 * high }
{
    u32::from(low - MORE) + 128 * high
}
