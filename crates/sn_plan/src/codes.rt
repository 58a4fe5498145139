//! The return codes of answers (MQTT-SN 1.2 section 5.3.10).

/// The client's wish is done.
pub const ACCEPTED: u8 = 0;

/// There is no room.
pub const CONGESTION: u8 = 1;

/// The topic id stands for no topic.
pub const INVALID_ID: u8 = 2;

/// What is asked for is not valid, or not done here.
pub const NOT_SUPPORTED: u8 = 3;
