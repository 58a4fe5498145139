//! Where a client is.

/// Where a client is (MQTT-SN 1.2 section 6.14).
#[derive(Clone, Copy, PartialEq, Eq)]
pub enum Presence {
    /// It is connected and its messages are sent to it.
    Active,
    /// It sleeps; its messages are buffered.
    Asleep,
    /// It woke up by a PINGREQ and is being sent what was buffered.
    Awake,
    /// It has disconnected.
    Disconnected,
    /// Nothing was heard of it for too long.
    Lost,
}
