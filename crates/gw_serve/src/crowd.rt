//! Those who come back: clients of which each waits for its answer send again when they have it.
//!
//! What one row answers comes again at the same time. A worker that has the turn by then would find
//! the first of them alone, write that one, and keep the others waiting for its sync: on a slow disk
//! every second sync would write one message. So a worker that has the turn waits a moment first, if
//! fewer wait than were answered just now and waited beside them. A moment is short beside what the
//! calls of the last row took.

ghost use Rattle.std.specs.Prelude.{◌≡◌};
ghost use Rattle.gw_serve.specs.inner.Room as spec;

use crate::bell::Bell;
use std::sync::atomic::{AtomicU64, Ordering};
use std::thread;
use std::time::{Clock, Duration, Instant};

/// A worker waits for no longer than this part of the time of the last row's calls.
pub const MOST_PART: u64 = 8;

/// For the next datagram it waits for no longer than this part of that time.
pub const PART_FOR_ONE: u64 = 32;

/// How often it looks at most.
const MOST_LOOKS: u32 = 100_000;

/// Whether a worker waits on, if so many wait of so many that are expected, if it has waited for so
/// many microseconds, for the next one for so many of them, and the last row took so many.
pub fn waits_on(waiting: u64, expected: u64, waited: u64, still: u64, lasted: u64) -> bool
    ensures { result ≡ spec.waits_on waiting expected waited still lasted }
{
    0 < waiting
        && waiting < expected
        && waited < lasted / MOST_PART
        && still < lasted / PART_FOR_ONE
}

/// What the last row says of the next one.
pub struct Crowd {
    /// How many datagrams it may have: as many as the last row, and as many as waited after its
    /// calls.
    expected: AtomicU64,
    /// How many microseconds the calls of the last row took.
    lasted: AtomicU64,
}

impl Drop for Crowd {
    fn drop(self) {
        let Crowd { expected, lasted } = self;
        drop(expected);
        drop(lasted);
    }
}

impl Crowd {
    /// Before the first row.
    pub(crate) fn new() -> Crowd {
        Crowd {
            expected: AtomicU64::new(0),
            lasted: AtomicU64::new(0),
        }
    }

    /// Notes the calls of a row: how many they were, how many wait now, and when they began.
    pub(crate) fn note<T: Clock>(
        &self,
        clock: &T,
        count: usize,
        waiting: u64,
        start: Option<Instant>,
    ) {
        let expected = waiting.saturating_add(count as u64);
        self.expected.store(expected, Ordering::SeqCst);
        let lasted = match (start, moment(clock)) {
            (Some(start), Some(end)) => micros(end.duration_since(start)),
            _ => 0,
        };
        self.lasted.store(lasted, Ordering::SeqCst);
    }

    /// Waits a moment for those who may come back. For a worker that has the turn.
    pub(crate) fn wait<T: Clock>(&self, clock: &T, bell: &Bell) {
        let expected = self.expected.load(Ordering::SeqCst);
        let lasted = self.lasted.load(Ordering::SeqCst);
        let mut waiting = bell.waiting();
        if !waits_on(waiting, expected, 0, 0, lasted) {
            return;
        }
        let Some(start) = moment(clock) else {
            return;
        };
        let mut grown = start;
        for _ in 0..MOST_LOOKS {
            let here = bell.waiting();
            let Some(now) = moment(clock) else {
                return;
            };
            if waiting < here {
                waiting = here;
                grown = now;
            }
            let waited = micros(now.duration_since(start));
            let still = micros(now.duration_since(grown));
            if !waits_on(waiting, expected, waited, still, lasted) {
                return;
            }
            thread::yield_now();
        }
    }
}

/// The moment, if the clock tells it.
pub(crate) fn moment<T: Clock>(clock: &T) -> Option<Instant> {
    Instant::now(clock).ok()
}

/// The microseconds of a time.
fn micros(time: Duration) -> u64 {
    time.as_secs()
        .saturating_mul(1_000_000)
        .saturating_add(time.subsec_micros() as u64)
}
