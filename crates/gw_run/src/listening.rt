//! A gateway that was started listens to its peers before it serves.

use gw_link::Relay;
use gw_relay::may_serve;
use gw_wire::millisecond;
use std::sync::Wait;
use std::sync::atomic::{AtomicBool, AtomicU64, Ordering};
use std::time::Clock;

/// Whether the gateway listens to the peers that it dials, and does not serve yet: what it tells a
/// client that wakes is then what they know. The reader's thread looks whether that is over, and
/// any thread reads what it found, without a lock.
pub struct Listening {
    is_on: AtomicBool,
    /// How many peers it dials.
    peers: AtomicU64,
    /// The millisecond in which it began to listen.
    began: AtomicU64,
    /// How many messages it had heard at the last look.
    heard: AtomicU64,
    /// The millisecond in which a look found a new one, or one that was worked on.
    last: AtomicU64,
}

impl Drop for Listening {
    fn drop(self) {
        let Listening {
            is_on,
            peers,
            began,
            heard,
            last,
        } = self;
        drop(is_on);
        drop(peers);
        drop(began);
        drop(heard);
        drop(last);
    }
}

impl Listening {
    /// It does not listen.
    pub(crate) fn new() -> Listening {
        Listening {
            is_on: AtomicBool::new(false),
            peers: AtomicU64::new(0),
            began: AtomicU64::new(0),
            heard: AtomicU64::new(0),
            last: AtomicU64::new(0),
        }
    }

    /// Begins to listen to so many peers.
    pub fn begin<C: Clock>(&self, clock: &C, peers: usize) {
        let now = millisecond(clock);
        self.peers.store(peers as u64, Ordering::SeqCst);
        self.began.store(now, Ordering::SeqCst);
        self.last.store(now, Ordering::SeqCst);
        self.is_on.store(true, Ordering::SeqCst);
    }

    /// Whether it listens, by the last look.
    pub fn is_on(&self) -> bool {
        self.is_on.load(Ordering::SeqCst)
    }

    /// Looks whether it goes on listening.
    pub fn look<T: Wait + Clock>(&self, rt: &T, relay: &Relay) -> bool {
        if !self.is_on() {
            return false;
        }
        let now = millisecond(rt);
        let (heard, asked, is_working) = relay.heard(rt);
        if self.heard.swap(heard, Ordering::SeqCst) != heard || is_working {
            self.last.store(now, Ordering::SeqCst);
        }
        let quiet = now.saturating_sub(self.last.load(Ordering::SeqCst));
        let listened = now.saturating_sub(self.began.load(Ordering::SeqCst));
        if may_serve(self.peers.load(Ordering::SeqCst), asked, quiet, listened) {
            relay.look_for_lost(rt, 0);
            self.is_on.store(false, Ordering::SeqCst);
        }
        self.is_on()
    }
}
