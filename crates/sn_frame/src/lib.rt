//! The frames of MQTT-SN 1.2: from a datagram to a message, and back.
//!
//! One datagram holds one frame: Length, MsgType and a body (MQTT-SN 1.2 section 5.2). `decode`
//! reads it as a `Frame`, which has a variant for each `MsgType`, or says by a `FrameFault` what is
//! wrong with it. `encode` writes a `Frame` in its canonical form, that is with a Length of one
//! octet wherever the total fits. `Flags` is the octet of bit fields that many messages carry
//! (section 5.3.4).
//!
//! The grammar stands in specs/: `Bodies` has the body of each message, `Grammar` the two forms of
//! Length and the word `Spells` that both calls are proved by, and `Faults` what a refusal means.
//! `laws` has what follows from the grammar alone: no octets spell two frames, and a refused
//! datagram has one fault.
#![tactic(auto)]

mod decoder;
mod encoder;
mod fault;
mod flags;
mod frame;
mod laws;
mod msg_type;

pub use decoder::decode;
pub use encoder::encode;
pub use fault::{EncodeFault, FrameFault};
pub use flags::{Flags, Qos, TopicIdType};
pub use frame::{Frame, MAX_FRAME, Will};
pub use laws::{one_fault, one_meaning};
pub use msg_type::MsgType;
