//! How far a shift is.

use gw_relay::is_much;
use std::sync::atomic::{AtomicU64, Ordering};
use std::sync::{Condvar, CondvarTimeouts, Mutex, Wait};
use std::time::{Clock, Duration};

/// How far a shift is.
#[derive(Clone, Copy, PartialEq, Eq)]
pub enum Phase {
    /// Datagrams become calls.
    Serving,
    /// No more do: the shift has had all its calls, or something failed.
    Closing,
    /// The gateway makes no more deltas in this shift.
    Quiet,
}

/// Tells the threads of a shift how far it is, lets them wait for that, and gives out its calls:
/// who makes one has claimed it before. All of them share it. What takes `rt` takes its lock for a
/// moment, and holds no lock while it waits; what does not takes none.
pub struct Stage {
    phase: Mutex<Phase>,
    changed: Condvar,
    /// How many calls the shift has.
    steps: u64,
    /// How often one was asked for.
    claims: AtomicU64,
    /// How many octets of datagrams, answers, digests and deltas its history keeps.
    kept: AtomicU64,
    /// The greatest number of a call that the clock or a link has made.
    made: AtomicU64,
}

impl Drop for Stage {
    fn drop(self) {
        let Stage {
            phase,
            changed,
            steps: _,
            claims,
            kept,
            made,
        } = self;
        drop(phase);
        drop(changed);
        drop(claims);
        drop(kept);
        drop(made);
    }
}

impl Stage {
    /// The begin of a shift of so many calls, of which so many are claimed.
    pub fn new(steps: u64, claimed: u64) -> Stage {
        Stage {
            phase: Mutex::new(Phase::Serving),
            changed: Condvar::new(),
            steps,
            claims: AtomicU64::new(claimed),
            kept: AtomicU64::new(0),
            made: AtomicU64::new(0),
        }
    }

    /// Claims one of the shift's calls. Says whether one was left.
    pub fn claim(&self) -> bool {
        self.claims.fetch_add(1, Ordering::SeqCst) < self.steps
    }

    /// Gives back a claim that was not used.
    pub fn give_back(&self) {
        let _ = self.claims.fetch_sub(1, Ordering::SeqCst);
    }

    /// Whether all of the shift's calls are claimed.
    pub fn is_full(&self) -> bool {
        self.claims.load(Ordering::SeqCst) >= self.steps
    }

    /// Notes that the history keeps a datagram, answer, digest or delta of so many octets. If it
    /// keeps more of them than it should, closes the shift.
    pub fn keep<T: Wait>(&self, rt: &T, octets: usize) {
        let before = self.kept.fetch_add(octets as u64, Ordering::SeqCst);
        if is_much(before.saturating_add(octets as u64)) {
            self.close(rt);
        }
    }

    /// Notes that a call has this number in the history.
    pub(crate) fn note_made(&self, number: u64) {
        let _ = self.made.fetch_max(number, Ordering::SeqCst);
    }

    /// How many calls the history has at least.
    pub(crate) fn made(&self) -> u64 {
        self.made.load(Ordering::SeqCst)
    }

    /// How far it is now.
    pub fn phase<T: Wait>(&self, rt: &T) -> Phase {
        *self.phase.lock(rt)
    }

    /// Goes on to a phase, and wakes all who wait.
    pub fn go_to<T: Wait>(&self, rt: &T, phase: Phase) {
        *self.phase.lock(rt) = phase;
        self.changed.notify_all();
    }

    /// Stops serving, unless that has happened.
    pub fn close<T: Wait>(&self, rt: &T) {
        let mut phase = self.phase.lock(rt);
        if *phase == Phase::Serving {
            *phase = Phase::Closing;
        }
        self.changed.notify_all();
    }

    /// Waits so many milliseconds, or until the phase is another than this.
    pub fn wait<T: Wait + Clock>(&self, rt: &T, from: Phase, milliseconds: u64) {
        let (phase, _) = self.changed.wait_timeout_while(
            rt,
            self.phase.lock(rt),
            Duration::from_millis(milliseconds),
            |phase| *phase == from,
        );
        let _ = *phase;
    }
}
