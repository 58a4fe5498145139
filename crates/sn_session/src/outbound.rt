//! The exchange by which a gateway hands one message to a client.

/// How far an exchange is.
#[derive(Clone, Copy, PartialEq, Eq)]
pub enum Phase {
    /// The topic's id was sent by a REGISTER and waits for its REGACK.
    Registering,
    /// The message was sent by a PUBLISH and waits for its PUBACK or PUBREC.
    Published,
    /// The message was released by a PUBREL and waits for its PUBCOMP.
    Released,
}

/// The exchange that a gateway has begun with a client; it has one at a time.
#[derive(Clone, Copy, PartialEq, Eq)]
pub struct Outbound {
    /// The gateway that the message came from.
    pub origin: u8,
    /// The number of the message among those of that gateway for the client.
    pub seq: u64,
    /// The message id of the exchange's frames.
    pub msg_id: u16,
    /// How far it is.
    pub phase: Phase,
}
