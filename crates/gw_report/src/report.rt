//! A report of a gateway.

use super::event::Event;
use super::glimpse::Seen;
use super::numbers::Numbers;
use octets::Sequence;

/// Whether a gateway is well.
#[derive(Clone, Copy)]
pub struct Health {
    /// Whether the clock's last round began too long ago.
    pub is_late: bool,
    /// Whether the gateway is halted.
    pub is_halted: bool,
    /// Whether a write failed not long ago.
    pub has_failed: bool,
}

/// What can be told of a running gateway, copied at one time.
pub struct Report {
    /// Its numbers.
    pub numbers: Numbers,
    /// The clients that it knows, in the order of their ids.
    pub clients: Sequence<Seen>,
    /// The last events, oldest first.
    pub events: Sequence<Event>,
    /// Whether it is well.
    pub health: Health,
}

impl Drop for Report {
    fn drop(self) {
        let Report {
            numbers,
            clients,
            events,
            health: _,
        } = self;
        drop(numbers);
        drop(clients);
        drop(events);
    }
}
