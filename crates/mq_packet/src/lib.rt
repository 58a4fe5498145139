//! The packets of MQTT 3.1.1 that a bridge and its broker send each other.
//!
//! A packet is an octet with its type and flags, Remaining Length, and a body (MQTT 3.1.1 section
//! 2). `decode` reads the octets of one packet as a `Packet`, or says by a `PacketFault` what is
//! wrong with them. `encode` writes a `Packet` in its canonical form: Remaining Length has as few
//! octets as it can. `remaining` says how long the packet is that begins an octet stream.
//!
//! Only what a bridge needs is here: nothing of quality of service 2, and one filter in each
//! SUBSCRIBE and UNSUBSCRIBE. `PacketFault` says how the rest is refused.
//!
//! The grammar is in specs/: `Headers` has the first octet of each packet, `Bodies` its body,
//! `Text` what strings may hold, and `Grammar` Remaining Length and the word `SpellsPacket` that
//! both calls are proved by. `Faults` says what a refusal means. `laws` has what follows from the
//! grammar alone: no octets spell two packets, and refused octets have one fault.
#![tactic(auto)]

mod decoder;
mod encoder;
mod fault;
mod header;
mod laws;
mod length;
mod marks;
mod packet;
mod text;

pub use decoder::decode;
pub use encoder::encode;
pub use fault::{EncodeFault, PacketFault};
pub use header::Header;
pub use laws::{one_fault, one_meaning, one_spelling};
pub use length::remaining;
pub use packet::{Delivery, Login, MAX_DATA, MAX_REMAINING, Packet, Qos, Will};
pub use text::{is_filter_text, is_text, is_topic_text};
