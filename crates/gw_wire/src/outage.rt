//! While nothing can be sent.

ghost use Rattle.std.specs.Prelude.{◌≡◌};
ghost use Rattle.gw_wire.specs.Outages as spec;

use super::clock::millisecond;
use super::traits::Post;
use sn_local::Addr;
use std::alloc::Global;
use std::mem;
use std::sync::atomic::{AtomicBool, AtomicU64, Ordering};
use std::sync::{Mutex, Wait};
use std::time::Clock;

/// For how many milliseconds the clock of a field stands still at most, while nothing can be sent.
pub const LONGEST_OUTAGE: u64 = 600_000;

/// How many milliseconds of an outage pass before it is told, and then told again.
pub const OUTAGE_LINE_PAUSE: u64 = 60_000;

/// Whether the clock stands still for an outage, by the milliseconds in which that began and of
/// now.
pub fn is_outage(began: u64, now: u64) -> bool
    ensures { result ≡ spec.is_outage began now }
{
    now.saturating_sub(began) < LONGEST_OUTAGE
}

/// Whether an outage is to be told, by the milliseconds in which it began or was told, and of now.
pub fn is_long(since: u64, now: u64) -> bool
    ensures { result ≡ spec.is_long since now }
{
    now.saturating_sub(since) >= OUTAGE_LINE_PAUSE
}

/// A datagram that could not be sent.
#[derive(Drop)]
struct Letter {
    to: Addr,
    bytes: Vec<u8>,
}

/// Whether a gateway can send at all. If a datagram that counts as a try could not be sent, the
/// network may be down: what a client does not answer then says nothing of it. So no time passes
/// for any client before that datagram, or another one, is sent. After `LONGEST_OUTAGE` time passes
/// all the same, until one was sent and the next one cannot be: it may be for an address that is
/// nobody's. Workers and the clock's thread share it. Its lock is held to put or take that
/// datagram, and not to send it.
pub struct Outage {
    is_on: AtomicBool,
    /// The millisecond in which the clock first stood still, since the last one was sent; or 0.
    began: AtomicU64,
    /// The millisecond in which it was last told.
    told: AtomicU64,
    unsent: Mutex<Option<Letter>>,
}

impl Drop for Outage {
    fn drop(self) {
        let Outage {
            is_on,
            began,
            told,
            unsent,
        } = self;
        drop(is_on);
        drop(began);
        drop(told);
        drop(unsent);
    }
}

impl Outage {
    /// Nothing was sent yet.
    pub fn none() -> Outage {
        Outage {
            is_on: AtomicBool::new(false),
            began: AtomicU64::new(0),
            told: AtomicU64::new(0),
            unsent: Mutex::new(None),
        }
    }

    /// Notes that a datagram was sent. Any thread does, without a lock.
    pub fn note_sent(&self) {
        if self.is_on.load(Ordering::SeqCst) || self.began.load(Ordering::SeqCst) != 0 {
            self.is_on.store(false, Ordering::SeqCst);
            self.began.store(0, Ordering::SeqCst);
        }
    }

    /// Notes that this datagram could not be sent. If memory for a copy is refused, that is not
    /// noted. Any thread does.
    pub fn note_unsent<T: Wait>(&self, rt: &T, alloc: Global, to: Addr, bytes: &[u8]) {
        if self.is_on.load(Ordering::SeqCst) {
            return;
        }
        let mut copy = Vec::new(alloc);
        if copy.extend_from_slice(bytes).is_err() {
            return;
        }
        drop(mem::replace(&mut *self.unsent.lock(rt), Some(Letter { to, bytes: copy })));
        self.is_on.store(true, Ordering::SeqCst);
    }

    /// Whether the clock stands still for an outage: the datagram that could not be sent still
    /// cannot be. Only one thread may ask at a time: the clock's does.
    pub fn lasts<T: Wait + Clock, P: Post>(&self, rt: &T, post: &P) -> bool {
        if !self.is_on.load(Ordering::SeqCst) {
            return false;
        }
        let now = millisecond(rt);
        if self.began.load(Ordering::SeqCst) == 0 {
            self.began.store(now, Ordering::SeqCst);
        }
        if !self.is_on.load(Ordering::SeqCst) {
            // sent meanwhile
            self.began.store(0, Ordering::SeqCst);
            return false;
        }
        if is_outage(self.began.load(Ordering::SeqCst), now) && !self.is_sent(rt, post) {
            return true;
        }
        self.is_on.store(false, Ordering::SeqCst);
        false
    }

    /// Whether the datagram that could not be sent can be sent now.
    fn is_sent<T: Wait, P: Post>(&self, rt: &T, post: &P) -> bool {
        let Some(letter) = self.unsent.lock(rt).take() else {
            return true;
        };
        if post.send(letter.to, letter.bytes.as_slice()).is_ok() {
            return true;
        }
        drop(mem::replace(&mut *self.unsent.lock(rt), Some(letter)));
        false
    }

    /// Whether it is to be told now that nothing can be sent. From now on it was.
    pub fn is_to_tell<C: Clock>(&self, clock: &C) -> bool {
        let began = self.began.load(Ordering::SeqCst);
        if began == 0 {
            return false;
        }
        let now = millisecond(clock);
        if !is_long(began.max(self.told.load(Ordering::SeqCst)), now) {
            return false;
        }
        self.told.store(now, Ordering::SeqCst);
        true
    }
}
