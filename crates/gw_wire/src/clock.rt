//! The clock of a field, which stands still while its gateway does, and the moments of the field.

ghost use Rattle.std.specs.Prelude.{◌≡◌, ◌≤◌, ◌+◌, ◌-◌};
ghost use Rattle.gw_wire.specs.declared.clock.TheConstants.{LONGEST_BREATH};
ghost use Rattle.gw_wire.specs.Clock as spec;

use std::sync::atomic::{AtomicU64, Ordering};
use std::time::Clock;

/// How many milliseconds lie between two looks at most, if nothing stood still.
pub const LONGEST_BREATH: u64 = 2_000;

/// How many seconds lie between the moment and the date at most. If there are more the date was
/// set, or the gateway stood still.
pub const LARGEST_DRIFT: u64 = 60;

/// The first second of the year 2026, since 1970. A machine that tells an earlier date has no date
/// yet: nobody set its clock since it was switched on.
pub const FIRST_DATE: u64 = 1_767_225_600;

/// What a look at the machine's clock found, in milliseconds.
#[derive(Clone, Copy, PartialEq, Eq)]
pub struct Look {
    /// What that clock says.
    pub at: u64,
    /// How much of it the gateway stood still.
    pub lost: u64,
}

/// What a look finds at a moment of the machine's clock, after another look. If more lies between
/// them than a breath, the gateway stood still: none of that counts. So the field's time, which is
/// the machine's without what was lost, never goes back, and goes on by a breath at most.
pub fn look_after(last: Look, at: u64) -> Look
    requires { last.lost ≤ last.at }
    ensures look { result ≡ spec.look_after last at }
    ensures within { result.lost ≤ result.at }
    ensures forward { last.at - last.lost ≤ result.at - result.lost }
    ensures steady { result.at - result.lost ≤ last.at - last.lost + LONGEST_BREATH }
{
    if at <= last.at {
        return last;
    }
    if stood_still(last, at) {
        return Look {
            at,
            lost: last.lost + (at - last.at),
        };
    }
    Look {
        at,
        lost: last.lost,
    }
}

/// Whether the gateway stood still between a look and a moment of the machine's clock.
pub fn stood_still(last: Look, at: u64) -> bool
    ensures { result ≡ spec.stood_still last at }
{
    at.saturating_sub(last.at) > LONGEST_BREATH
}

/// Whether the moment and the date are too far apart, both in seconds since 1970.
pub fn is_astray(moment: u64, date: u64) -> bool
    ensures { result ≡ spec.is_astray moment date }
{
    moment.saturating_sub(date) > LARGEST_DRIFT || date.saturating_sub(moment) > LARGEST_DRIFT
}

/// Whether a date was set, in seconds since 1970.
pub fn is_date(date: u64) -> bool
    ensures { result ≡ spec.is_date date }
{
    date >= FIRST_DATE
}

/// The date of the machine, in seconds since 1970; 0 if it cannot be read. Whoever administers the
/// machine sets it, so that it may go back.
pub fn date<C: Clock>(clock: &C) -> u64 {
    match clock.since_1970() {
        Ok(since) => since.as_secs(),
        Err(_) => 0,
    }
}

/// The second of the machine's clock that nobody sets, from any beginning; 0 if it cannot be read.
pub fn second<C: Clock>(clock: &C) -> u64 {
    match clock.monotonic() {
        Ok(since) => since.as_secs(),
        Err(_) => 0,
    }
}

/// The millisecond of the machine's clock that nobody sets; 0 where it cannot be read.
pub fn millisecond<C: Clock>(clock: &C) -> u64 {
    match clock.monotonic() {
        Ok(since) => since
            .as_secs()
            .saturating_mul(1_000)
            .saturating_add(u64::from(since.subsec_millis())),
        Err(_) => 0,
    }
}

/// The clock of a field: seconds in which its gateway did not stand still, from any beginning. One
/// thread looks at the machine's clock, several times a second. All others read what it saw: while
/// that thread cannot go on, no time passes for any client.
///
/// Its moments are what goes into messages and comes from other gateways: seconds since 1970, by
/// the date as it was when `set` was called, and by the seconds of this clock from then on. So no
/// step of the date moves a timer, and no standing still; both part moments from the date.
pub struct FieldClock {
    at: AtomicU64,
    lost: AtomicU64,
    /// The field's time in milliseconds: one number, so that whoever reads beside a look finds the
    /// time before it or after it.
    time: AtomicU64,
    /// How many seconds since 1970 had passed when the field's time began, by the date that was
    /// set; modulo 2^64, since that may be before 1970.
    began: AtomicU64,
    /// How many milliseconds were lost when that was set.
    lost_before: AtomicU64,
}

impl Drop for FieldClock {
    fn drop(self) {
        let FieldClock {
            at,
            lost,
            time,
            began,
            lost_before,
        } = self;
        drop(at);
        drop(lost);
        drop(time);
        drop(began);
        drop(lost_before);
    }
}

impl FieldClock {
    /// A clock at which nobody has looked.
    pub fn new() -> FieldClock {
        FieldClock {
            at: AtomicU64::new(0),
            lost: AtomicU64::new(0),
            time: AtomicU64::new(0),
            began: AtomicU64::new(0),
            lost_before: AtomicU64::new(0),
        }
    }

    /// Looks at the machine's clock. Says the second, or nothing if the gateway stood still since
    /// the last look. Only one thread may look at a time.
    pub fn look<C: Clock>(&self, clock: &C) -> Option<u64> {
        let at = millisecond(clock);
        let last = self.last();
        let has_stood = stood_still(last, at);
        let found = look_after(last, at);
        self.lost.store(found.lost, Ordering::SeqCst);
        self.at.store(found.at, Ordering::SeqCst);
        self.time.store(found.at - found.lost, Ordering::SeqCst);
        if has_stood {
            return None;
        }
        Some(self.second())
    }

    /// The second that the last look found.
    pub fn second(&self) -> u64 {
        self.time.load(Ordering::SeqCst) / 1_000
    }

    /// The moment of that second.
    pub fn moment(&self) -> u64 {
        self.moment_of(self.second())
    }

    /// The moment of a second of this clock.
    pub fn moment_of(&self, second: u64) -> u64 {
        second.wrapping_add(self.began.load(Ordering::SeqCst))
    }

    /// From now on moments go by this date, in seconds since 1970. A gateway whose moments leap so
    /// is to be opened anew: its timers are of the moments before.
    pub fn set(&self, date: u64) {
        self.began
            .store(date.wrapping_sub(self.second()), Ordering::SeqCst);
        self.lost_before
            .store(self.lost.load(Ordering::SeqCst), Ordering::SeqCst);
    }

    /// Whether the date is far from what the machine's own clock makes of it: it was set since
    /// moments go by it, or the machine was suspended. While the gateway stood still, both went on.
    /// Not if the date cannot be read.
    pub fn has_leapt<C: Clock>(&self, clock: &C) -> bool {
        let today = date(clock);
        today > 0 && is_astray(self.unbroken(), today)
    }

    /// The moment that it would be if the gateway had not stood still since moments go by the date.
    fn unbroken(&self) -> u64 {
        let lost = self.lost.load(Ordering::SeqCst);
        let since = lost.saturating_sub(self.lost_before.load(Ordering::SeqCst));
        self.moment().saturating_add(since / 1_000)
    }

    /// What the last look found, for the thread that looks.
    fn last(&self) -> Look
        ensures { result.lost ≤ result.at }
    {
        let at = self.at.load(Ordering::SeqCst);
        let lost = self.lost.load(Ordering::SeqCst).min(at);
        Look { at, lost }
    }
}
