//! From a packet to its octets (MQTT 3.1.1 sections 2 and 3).

ghost use Rattle.std.specs.Prelude.{◌≡◌, ◌<◌, ◌++◌, ◌↔◌, ◌⊎◌, OnOk, OnErr, Err};
ghost use Rattle.mq_packet.specs.declared.packet.TheConstants.{MAX_REMAINING};
ghost use Rattle.mq_packet.specs.Bodies.{IsAllowedPacket};
ghost use Rattle.mq_packet.specs.Grammar.{SpellsPacket, packet_size, packet_spelling};

use crate::fault::EncodeFault;
use crate::packet::Packet;
use std::alloc::Global;

mod body;
mod fronts;
mod whole;

use body::{append_packet, is_message};

/// Appends the canonical spelling of a packet: Remaining Length has as few octets as it can.
pub fn encode(alloc: Global, packet: &Packet, out: &mut Vec<u8>) -> Result<(), EncodeFault>
    ensures ok { OnOk result (out.new.items ≡ out.old.items ++ packet_spelling packet.now) }
    ensures spelled { OnOk result (SpellsPacket (packet_spelling packet.now) packet.now) }

    // A value that is not allowed is found first, and needs no memory.
    ensures body { (result ≡ Err EncodeFault.Body) ↔ ¬ (IsAllowedPacket packet.now) }

    // TooLong is said of packets that are too long and of no other, and of all of them unless
    // memory runs out.
    ensures too_long { result ≡ Err EncodeFault.TooLong → IsAllowedPacket packet.now
        × (MAX_REMAINING < packet_size packet.now) }
    ensures refused { IsAllowedPacket packet.now → MAX_REMAINING < packet_size packet.now
        → (result ≡ Err EncodeFault.TooLong) ⊎ (result ≡ Err EncodeFault.Memory) }

    ensures err { OnErr result (out.new.items ≡ out.old.items) }
{
    if !is_message(packet) {
        return Err(EncodeFault::Body);
    }
    append_packet(alloc, out, packet)
}
