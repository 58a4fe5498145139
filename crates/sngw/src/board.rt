//! What is counted of the running gateway, for whoever watches it. It outlives a shift.
//!
//! Threads that serve add to numbers, each in one step, and wait for nobody. Two lists are put here
//! whole, and taken away whole: the last glance, and the calls of closed shifts. No lock of these
//! is held together with another one.

use gw_main::options::Settings;
use gw_report::{Glimpse, Sample};
use gw_run::Pool;
use gw_wire::millisecond;
use octets::Sequence;
use sn_frame::MsgType;
use std::alloc::Global;
use std::mem;
use std::net::TcpStream;
use std::sync::atomic::{AtomicU64, Ordering};
use std::sync::{Mutex, Wait};

/// How many milliseconds pass between two glances.
const GLANCE_INTERVAL_MS: u64 = 5_000;

/// Of how many shifts the calls wait at most.
const MOST_SHIFTS: usize = 64;

/// A number that stands by itself.
#[derive(Clone, Copy)]
pub enum Number {
    /// Not 0 once the watcher tells the troubles of links.
    Watcher,
    /// Datagrams that came.
    Received,
    /// Datagrams that came, and became no call.
    Dropped,
    /// Datagrams that could not be sent.
    Unsent,
    /// Calls at `link` that were closed at once.
    TurnedAway,
    /// The shift.
    Shift,
    /// The calls of the last shift that was closed.
    ShiftCalls,
    /// The last time between two shifts, in milliseconds.
    Turn,
    /// The longest of them since it was forgotten.
    LongestTurn,
    /// The time that the last compaction took, in milliseconds.
    Compaction,
    /// The longest of them since it was forgotten.
    LongestCompaction,
    /// Journals that were written anew.
    Compacted,
    /// Journals that could not be.
    NotCompacted,
    /// Openings in a shift.
    Reopened,
    /// Openings between two shifts.
    ReopenedBetween,
    /// Not 0 while the gateway is silent, since its writes fail.
    Halted,
    /// The millisecond after that in which a write failed last; 0 if none did.
    Failed,
    /// The millisecond of the last glance.
    Glanced,
    /// Shifts and compactions in which a write failed.
    Failures,
    /// The millisecond in which the shift began to close.
    Closing,
}

/// The first place after the numbers that stand by themselves: datagrams that came, by type.
const CAME: usize = 20;

/// How many types of frames there may be; the last place is for all others.
const TYPES: usize = 32;

/// The first place of datagrams that went out, by type.
const WENT: usize = CAME + TYPES;

/// The first place of gateways: not 0 if that gateway was there since the program began.
const FIRST_GATEWAY: usize = WENT + TYPES;

/// How many numbers a gateway may have, with 0.
const GATEWAYS: usize = 256;

/// The first place of peers: how many dials made no link.
const DIALS: usize = FIRST_GATEWAY + GATEWAYS;

/// What the threads of the program share.
pub struct Shared {
    /// The links, and the gateway's clock.
    pub pool: Pool<TcpStream>,
    /// What is counted.
    pub board: Board,
}

impl Drop for Shared {
    fn drop(self) {
        let Shared { pool, board } = self;
        drop(pool);
        drop(board);
    }
}

/// The clients at a glance, and how many messages of each gateway are known.
#[derive(Drop)]
pub struct Field {
    /// The clients, in the order of their ids.
    pub clients: Vec<Glimpse>,
    /// Gateways, each with how many messages of it are known here.
    pub known: Vec<(u8, u64)>,
    /// The second of the gateway's clock.
    pub second: u64,
    /// The moment of that second.
    pub moment: u64,
}

/// What is counted of the running gateway.
pub struct Board {
    /// Whether anybody watches. If nobody does, no more is done than to count.
    pub is_watched: bool,
    /// All numbers, each at its place.
    counts: Vec<AtomicU64>,
    /// The last glance, until it is taken away.
    field: Mutex<Option<Field>>,
    /// The calls of closed shifts, until they are taken away.
    calls: Mutex<Vec<Sequence<Sample>>>,
}

impl Drop for Board {
    fn drop(self) {
        let Board {
            is_watched: _,
            counts,
            field,
            calls,
        } = self;
        drop(counts);
        drop(field);
        drop(calls);
    }
}

/// Puts so many numbers, each 0. Whether there was memory for them.
fn add_zeros(all: &mut Vec<AtomicU64>, many: usize) -> bool {
    for _ in 0..many {
        if all.push(AtomicU64::new(0)).is_err() {
            return false;
        }
    }
    true
}

/// Whether anybody is to watch.
fn is_watched(settings: &Settings) -> bool {
    settings.status.is_some() || settings.log > 0
}

impl Board {
    /// Nothing was counted. `None` if memory ran out.
    pub(crate) fn of(alloc: Global, settings: &Settings) -> Option<Board> {
        let mut counts = Vec::new(alloc);
        if add_zeros(&mut counts, DIALS.saturating_add(settings.peers.len())) {
            return Some(Board {
                is_watched: is_watched(settings),
                counts,
                field: Mutex::new(None),
                calls: Mutex::new(Vec::new(alloc)),
            });
        }
        drop(counts);
        None
    }

    /// One more.
    pub(crate) fn add(&self, number: Number) {
        self.add_at(number as usize);
    }

    /// It is this now.
    pub(crate) fn set(&self, number: Number, now: u64) {
        self.set_at(number as usize, now);
    }

    /// What it is.
    pub(crate) fn get(&self, number: Number) -> u64 {
        self.get_at(number as usize)
    }

    /// The last time of its kind, and the longest if it is longer. One thread notes them.
    pub(crate) fn note_time(&self, last: Number, longest: Number, milliseconds: u64) {
        self.set(last, milliseconds);
        if milliseconds > self.get(longest) {
            self.set(longest, milliseconds);
        }
    }

    /// One more at a place, if there is one.
    fn add_at(&self, place: usize) {
        if let Some(count) = self.counts.get(place) {
            let _ = count.fetch_add(1, Ordering::SeqCst);
        }
    }

    /// This is at a place now, if there is one.
    fn set_at(&self, place: usize, now: u64) {
        if let Some(count) = self.counts.get(place) {
            count.store(now, Ordering::SeqCst);
        }
    }

    /// What is at a place; 0 if there is none.
    fn get_at(&self, place: usize) -> u64 {
        match self.counts.get(place) {
            Some(count) => count.load(Ordering::SeqCst),
            None => 0,
        }
    }

    /// A datagram came.
    pub(crate) fn note_came(&self, datagram: &[u8]) {
        self.add(Number::Received);
        self.add_at(CAME.saturating_add(kind_of(datagram)));
    }

    /// A datagram went out, or could not be sent.
    pub(crate) fn note_sent(&self, datagram: &[u8], is_sent: bool) {
        if is_sent {
            self.add_at(WENT.saturating_add(kind_of(datagram)));
        } else {
            self.add(Number::Unsent);
        }
    }

    /// How many datagrams of a type came, or went out; without a type, of none.
    pub(crate) fn frames(&self, is_coming: bool, frame: Option<MsgType>) -> u64 {
        let first = if is_coming { CAME } else { WENT };
        self.get_at(first.saturating_add(place_of(frame)))
    }

    /// A gateway is there.
    pub(crate) fn note_gateway(&self, number: u8) {
        self.set_at(FIRST_GATEWAY.saturating_add(usize::from(number)), 1);
    }

    /// Whether a gateway was there since the program began.
    pub(crate) fn has_gateway(&self, number: u8) -> bool {
        self.get_at(FIRST_GATEWAY.saturating_add(usize::from(number))) > 0
    }

    /// A dial of this peer made no link.
    pub(crate) fn note_no_dial(&self, peer: usize) {
        self.add_at(DIALS.saturating_add(peer));
    }

    /// How many dials of this peer made no link.
    pub(crate) fn dials_failed(&self, peer: usize) -> u64 {
        self.get_at(DIALS.saturating_add(peer))
    }

    /// A write failed.
    pub(crate) fn count_failure(&self, clock: &HostRuntime) {
        self.add(Number::Failures);
        self.note_failed(clock);
    }

    /// A write has failed, and the gateway may not yet write again.
    pub(crate) fn note_failed(&self, clock: &HostRuntime) {
        self.set(Number::Failed, millisecond(clock).saturating_add(1));
    }

    /// Whether it is time for a glance. From now on it was.
    pub(crate) fn may_glance(&self, clock: &HostRuntime) -> bool {
        let now = millisecond(clock);
        if now.saturating_sub(self.get(Number::Glanced)) < GLANCE_INTERVAL_MS {
            return false;
        }
        self.set(Number::Glanced, now);
        true
    }

    /// This is the last glance.
    pub(crate) fn put_field<T: Wait>(&self, rt: &T, field: Field) {
        drop(mem::replace(&mut *self.field.lock(rt), Some(field)));
    }

    /// The last glance, unless it was taken away.
    pub(crate) fn take_field<T: Wait>(&self, rt: &T) -> Option<Field> {
        self.field.lock(rt).take()
    }

    /// These are the calls of a shift that was closed. If memory runs out they are not counted.
    pub(crate) fn put_calls<T: Wait>(&self, rt: &T, calls: Sequence<Sample>) {
        let mut all = self.calls.lock(rt);
        if all.len() < MOST_SHIFTS {
            let _ = all.push(calls);
        } else {
            drop(calls);
        }
    }

    /// The calls of a shift that was closed, if some were not taken away.
    pub(crate) fn take_calls<T: Wait>(&self, rt: &T) -> Option<Sequence<Sample>> {
        self.calls.lock(rt).pop()
    }
}

/// The place of a type among the types; without one, the last.
fn place_of(frame: Option<MsgType>) -> usize {
    match frame {
        None => TYPES - 1,
        Some(frame) => usize::from(frame.octet()).min(TYPES - 1),
    }
}

/// The place of a datagram's type: its second octet, or its fourth after a length of three (5.2.1).
fn kind_of(datagram: &[u8]) -> usize {
    match datagram {
        [1, _, _, kind, ..] => place_of(MsgType::from_octet(*kind)),
        [_, kind, ..] => place_of(MsgType::from_octet(*kind)),
        _ => TYPES - 1,
    }
}
