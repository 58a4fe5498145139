//! How long the name of a client may be.

/// The most octets of a client's id, which has one at least (MQTT-SN 1.2 section 5.3.1).
pub const MAX_CLIENT_ID: usize = 23;
