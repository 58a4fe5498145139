//! A bell by which the reader wakes workers that found the queue empty.
//!
//! A worker that finds it empty sleeps until the bell rings. To wake it costs more than the call of
//! a small datagram, so a worker that has just worked first looks for a ring for some tens of
//! microseconds: a client that waits for its answer sends its next datagram by then. One worker
//! looks at a time, and a ring for which one looks wakes nobody.
//!
//! Each ring brings a worker to the queue after it:
//!
//! - The count of rings and what is said beside it change under the lock alone.
//! - A worker reads the count before it goes to the queue. It says that it looks, and it falls
//!   asleep, only where the count is still the same under the lock. So a ring from before finds it
//!   awake, and it goes to the queue once more.
//! - The first ring after a worker's word that it looks takes that word back, under the lock, and
//!   wakes nobody. That worker does not sleep: it sees the other count while it looks, or finds it
//!   under the lock before it would sleep. Either way it goes to the queue.
//! - Any other ring wakes one who sleeps. Where nobody sleeps, all are awake and go to the queue
//!   before they sleep.
//! - A worker whose look has ended takes its word back itself where the count is the same: no ring
//!   has come, so the word is its own.
//!
//! The bell also counts what was put into the queue and what was taken from it. By the second the
//! reader knows whether there is room for more: a worker counts after it has taken, so there is
//! never less room than that says. By both a worker knows whether it may take several datagrams at
//! once. The reader counts after it has put, and each that takes counts while it has the turn, so
//! that never more is said to wait than waits.
//!
//! Beside the bell stands the turn of the workers: who has it takes numbers and makes their calls,
//! so that the calls are made in the order of the numbers. A worker that took a number and then
//! waited for the gateway would be overtaken there by one with a later number.

use crate::queue::{has_room, may_take_more};
use std::hint::spin_loop;
use std::sync::atomic::{AtomicU64, Ordering};
use std::sync::{Condvar, Mutex, MutexGuard, Wait};

/// How often a worker looks for a ring before it sleeps. A look lasts some ten to fifty
/// nanoseconds.
const LOOKS: u32 = 1_000;

#[derive(Drop)]
struct Rings {
    closed: bool,
    /// A worker looks, and nothing has rung since it said so.
    watched: bool,
}

/// Counts the rings, and says when there will be no more.
pub struct Bell {
    rings: Mutex<Rings>,
    /// How often it has rung, and one more where it is closed. Who looks reads it without the lock.
    count: AtomicU64,
    rung: Condvar,
    /// Who has it takes numbers and makes their calls.
    turn: Mutex<()>,
    /// How many workers there are.
    workers: u64,
    /// How many datagrams were put into the queue.
    put: AtomicU64,
    /// How many datagrams were taken from the queue.
    taken: AtomicU64,
}

impl Drop for Bell {
    fn drop(self) {
        let Bell {
            rings,
            count,
            rung,
            turn,
            workers: _,
            put,
            taken,
        } = self;
        drop(rings);
        drop(count);
        drop(rung);
        drop(turn);
        drop(put);
        drop(taken);
    }
}

/// What was heard at one moment.
#[derive(Clone, Copy)]
pub struct Heard {
    /// How often it had rung.
    pub count: u64,
    /// There will be no more rings.
    pub closed: bool,
}

impl Bell {
    /// A bell that has not rung, for so many workers.
    pub(crate) fn new(workers: u64) -> Bell {
        Bell {
            rings: Mutex::new(Rings {
                closed: false,
                watched: false,
            }),
            count: AtomicU64::new(0),
            rung: Condvar::new(),
            turn: Mutex::new(()),
            workers,
            put: AtomicU64::new(0),
            taken: AtomicU64::new(0),
        }
    }

    /// Counts a datagram that was put into the queue. The reader does, without a lock.
    pub(crate) fn note_put(&self) {
        self.put.fetch_add(1, Ordering::SeqCst);
    }

    /// Whether the worker that has the turn, and has taken so many datagrams, may take one more at
    /// once. It asks without a lock.
    pub(crate) fn may_take_more(&self, had: usize) -> bool {
        let put = self.put.load(Ordering::SeqCst);
        let taken = self.taken.load(Ordering::SeqCst);
        may_take_more(had as u64, put, taken, self.workers)
    }

    /// How many datagrams wait in the queue, as far as was counted.
    pub(crate) fn waiting(&self) -> u64 {
        let put = self.put.load(Ordering::SeqCst);
        put.saturating_sub(self.taken.load(Ordering::SeqCst))
    }

    /// Counts a datagram that was taken from the queue. The worker that has the turn does.
    pub(crate) fn note_taken(&self) {
        self.taken.fetch_add(1, Ordering::SeqCst);
    }

    /// Whether the queue has room, into which so many datagrams were put. Any thread may ask; only
    /// for the one that puts them it stays so.
    pub(crate) fn has_room(&self, put: u64) -> bool {
        has_room(put, self.taken.load(Ordering::SeqCst))
    }

    /// Waits for the turn to take numbers and make their calls. It is over when what comes back is
    /// unlocked. A worker waits for it, and holds no other lock then.
    pub(crate) fn take_turn<R: Wait>(&self, rt: &R) -> MutexGuard<'_, ()> {
        self.turn.lock(rt)
    }

    /// Wakes one worker that sleeps, unless one looks for the ring. The reader rings. The bell's
    /// lock is free by then: who wakes takes it first.
    pub(crate) fn ring<R: Wait>(&self, rt: &R) {
        if !self.is_watched(rt) {
            self.rung.notify_one();
        }
    }

    /// Counts one ring more, under the bell's lock. Says whether a worker has looked for it, which
    /// is said of no further ring.
    fn is_watched<R: Wait>(&self, rt: &R) -> bool {
        let mut rings = self.rings.lock(rt);
        let is_watched = rings.watched;
        rings.watched = false;
        self.count.fetch_add(1, Ordering::SeqCst);
        is_watched
    }

    /// Wakes all workers for good, under the bell's lock. The reader does, at its end.
    pub(crate) fn close<R: Wait>(&self, rt: &R) {
        let mut rings = self.rings.lock(rt);
        rings.closed = true;
        rings.watched = false;
        self.count.fetch_add(1, Ordering::SeqCst);
        self.rung.notify_all();
    }

    /// What a worker remembers before it looks into the queue, read under the bell's lock.
    pub(crate) fn heard<R: Wait>(&self, rt: &R) -> Heard {
        let rings = self.rings.lock(rt);
        Heard {
            count: self.count.load(Ordering::SeqCst),
            closed: rings.closed,
        }
    }

    /// Waits for a ring since then, in a worker's thread and without the turn. A worker that has
    /// just worked looks for one before it sleeps, unless another does. Asleep it holds no lock.
    pub(crate) fn wait_past<R: Wait>(&self, rt: &R, heard: Heard, has_worked: bool) {
        let is_looking = has_worked && self.begin_look(rt, heard);
        if is_looking && self.has_rung_soon(heard) {
            return;
        }
        let mut rings = self.rings.lock(rt);
        if is_looking && !self.has_rung(heard) {
            rings.watched = false;
        }
        let rings = self
            .rung
            .wait_while(rt, rings, |_rings| !self.has_rung(heard));
        let _ = rings.closed;
    }

    /// Says that a worker looks, if no other does and nothing has rung since then, under the bell's
    /// lock.
    fn begin_look<R: Wait>(&self, rt: &R, heard: Heard) -> bool {
        let mut rings = self.rings.lock(rt);
        if rings.watched || self.has_rung(heard) {
            return false;
        }
        rings.watched = true;
        true
    }

    /// Whether it rings within a short while. It looks without the lock.
    fn has_rung_soon(&self, heard: Heard) -> bool {
        for _ in 0..LOOKS {
            if self.has_rung(heard) {
                return true;
            }
            spin_loop();
        }
        false
    }

    /// Whether it has rung, or was closed, since then.
    fn has_rung(&self, heard: Heard) -> bool {
        self.count.load(Ordering::SeqCst) != heard.count
    }
}
