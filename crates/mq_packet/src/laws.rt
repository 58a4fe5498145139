//! What follows from the grammar, whatever a program does with it.

ghost use Rattle.std.specs.Prelude.{◌≡◌, ℕ, ◌≤◌, List, length};
ghost use Rattle.mq_packet.specs.declared.fault.PacketFault.{PacketFault};
ghost use Rattle.mq_packet.specs.declared.packet.Packet.{Packet};
ghost use Rattle.mq_packet.specs.declared.packet.TheConstants.{MAX_REMAINING};
ghost use Rattle.mq_packet.specs.Bodies.{IsAllowedPacket, IsPacketValue};
ghost use Rattle.mq_packet.specs.Faults.{IsFirstPacketFault};
ghost use Rattle.mq_packet.specs.Grammar.{SpellsPacket, packet_size, packet_spelling};

/// No octets spell two packets.
pub fn one_meaning()
    ensures { (octets : List ℕ) (p q : Packet) → IsPacketValue p → IsPacketValue q
        → SpellsPacket octets p
        → SpellsPacket octets q → p ≡ q }
{}

/// A packet that has a spelling has its canonical one, and each has one whose parts have values
/// that MQTT 3.1.1 allows and whose body fits. No spelling is shorter, and only one is as short: so
/// what is read from octets that are as few as can be is written as these octets.
pub fn one_spelling()
    ensures canonical { (octets : List ℕ) (p : Packet) → SpellsPacket octets p
        → SpellsPacket (packet_spelling p) p }
    ensures spelled { (p : Packet) → IsAllowedPacket p → packet_size p ≤ MAX_REMAINING
        → SpellsPacket (packet_spelling p) p }
    ensures shortest { (octets : List ℕ) (p : Packet) → SpellsPacket octets p
        → length (packet_spelling p) ≤ length octets }
    ensures back { (octets : List ℕ) (p : Packet) → SpellsPacket octets p
        → length octets ≡ length (packet_spelling p) → octets ≡ packet_spelling p }
{}

/// Octets are refused for one reason alone, and none but want of memory refuses octets that spell a
/// packet.
pub fn one_fault()
    ensures one { (octets : List ℕ) (d e : PacketFault) → IsFirstPacketFault octets d
        → IsFirstPacketFault octets e → d ≡ e }
    ensures no_packet { (octets : List ℕ) (e : PacketFault) (p : Packet)
        → IsFirstPacketFault octets e
        → IsPacketValue p → SpellsPacket octets p → e ≡ PacketFault.Memory }
{}
