//! What holds of every stream, whatever a program does with it.

ghost use Rattle.std.specs.Prelude.{ℕ, List, ◌++◌};
ghost use Rattle.mq_packet.specs.declared.packet.Packet.{Packet};
ghost use Rattle.mq_stream.specs.Pieces.{ReadsPackets};

/// What is read of a stream, and then of its rest with more octets, is what is read of all of them:
/// so it does not matter how a stream is cut. The function does nothing; its contract is the law.
pub fn one_stream()
    ensures { (over left last : ℕ) (first second rest tail : List ℕ) (packets more : List Packet)
        → ReadsPackets over first packets left rest
        → ReadsPackets left (rest ++ second) more last tail
        → ReadsPackets over (first ++ second) (packets ++ more) last tail }
{}
