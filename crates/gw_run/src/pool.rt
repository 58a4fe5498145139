//! What outlives a shift: the links of a gateway, and when its clock last ticked or has to wait.

use crate::listening::Listening;
use gw_link::{Link, Origin, Relay};
use gw_relay::is_behind;
use gw_wire::{FieldClock, Outage};
use std::alloc::Global;
use std::sync::atomic::{AtomicU64, Ordering};
use std::sync::{Condvar, Mutex, Wait};
use std::time::{Clock, Duration};

/// How many links that others dialled may be open at once.
pub const MOST_ACCEPTED: usize = 8;

/// The largest piece that is read at once.
const LARGEST_PIECE: usize = 65_536;

/// How many seconds an empty seat waits for a link before it looks again.
const SEAT_WAIT_SECONDS: u64 = 5;

struct Links<S: Drop> {
    /// Those that wait for a seat.
    waiting: Vec<Link<S>>,
    /// Those that have talked to the end of the shift.
    talked: Vec<Link<S>>,
    /// For each peer of the settings, whether a link that was dialled is open.
    dialled: Vec<bool>,
    /// For each of them, whether the last one that was closed had said its number.
    spoken: Vec<bool>,
    /// How many that were accepted are open.
    accepted: usize,
    /// Whether the gateway makes no more deltas in this shift.
    is_quiet: bool,
    /// Room for what is read, of which no seat has need.
    pieces: Vec<Vec<u8>>,
}

impl<S: Drop> Drop for Links<S> {
    fn drop(self) {
        let Links {
            waiting,
            talked,
            dialled,
            spoken,
            accepted: _,
            is_quiet: _,
            pieces,
        } = self;
        drop(waiting);
        drop(talked);
        drop(dialled);
        drop(spoken);
        drop(pieces);
    }
}

/// What outlives a shift: the links that wait for a seat, how many are open, and the second in
/// which the clock last ticked. Threads of shifts, of seats and of doors share it. A method that
/// takes `rt` holds the pool's lock for a moment; only a link that is closed for want of memory
/// makes it take the relay's beside it.
pub struct Pool<S: Drop> {
    links: Mutex<Links<S>>,
    /// A link seeks a seat, or the shift is quiet.
    changed: Condvar,
    /// What the links share.
    pub relay: Relay,
    /// The clock by which the gateway counts: no time passes while it stands still.
    pub clock: FieldClock,
    /// Whether it can send: no time passes while it cannot.
    pub outage: Outage,
    /// Whether the gateway listens, and does not serve yet.
    pub listening: Listening,
    /// The second after that in which the reader's queue was full, if it has not read to the end
    /// since; else 0.
    backlog: AtomicU64,
    ticked: AtomicU64,
    /// How often the clock's thread has begun a round.
    pub rounds: AtomicU64,
}

impl<S: Drop> Drop for Pool<S> {
    fn drop(self) {
        let Pool {
            links,
            changed,
            relay,
            clock,
            outage,
            listening,
            backlog,
            ticked,
            rounds,
        } = self;
        drop(links);
        drop(changed);
        drop(relay);
        drop(clock);
        drop(outage);
        drop(listening);
        drop(backlog);
        drop(ticked);
        drop(rounds);
    }
}

/// Puts the same word so often after others. Whether there was memory for it.
fn add_all(words: &mut Vec<bool>, word: bool, many: usize) -> bool {
    for _ in 0..many {
        if words.push(word).is_err() {
            return false;
        }
    }
    true
}

impl<S: Drop> Pool<S> {
    /// No link is open. These gateways may be linked: all, where none is named. `None` where memory
    /// ran out.
    pub fn new(alloc: Global, peers: usize, numbers: &[u8]) -> Option<Pool<S>> {
        let mut allowed = Vec::new(alloc);
        let mut dialled = Vec::new(alloc);
        let mut spoken = Vec::new(alloc);
        let is_whole = allowed.extend_from_slice(numbers).is_ok()
            && add_all(&mut dialled, false, peers)
            && add_all(&mut spoken, true, peers);
        if is_whole {
            return Some(Pool::of(alloc, allowed, dialled, spoken));
        }
        drop(allowed);
        drop(dialled);
        drop(spoken);
        None
    }

    /// No link is open. These gateways may be linked, and so it stands with the peers.
    fn of(alloc: Global, allowed: Vec<u8>, dialled: Vec<bool>, spoken: Vec<bool>) -> Pool<S> {
        Pool {
            links: Mutex::new(Links {
                waiting: Vec::new(alloc),
                talked: Vec::new(alloc),
                dialled,
                spoken,
                accepted: 0,
                is_quiet: false,
                pieces: Vec::new(alloc),
            }),
            changed: Condvar::new(),
            relay: Relay::new(alloc, allowed),
            clock: FieldClock::new(),
            outage: Outage::none(),
            listening: Listening::new(),
            backlog: AtomicU64::new(0),
            ticked: AtomicU64::new(0),
            rounds: AtomicU64::new(0),
        }
    }

    /// The reader's queue is full.
    pub fn note_full(&self) {
        if self.backlog.load(Ordering::SeqCst) == 0 {
            let next = self.clock.second().saturating_add(1);
            self.backlog.store(next, Ordering::SeqCst);
        }
    }

    /// The reader has read all that has come.
    pub fn note_read(&self) {
        if self.backlog.load(Ordering::SeqCst) != 0 {
            self.backlog.store(0, Ordering::SeqCst);
        }
    }

    /// Whether the clock waits in this second, since the reader has not read all that has come.
    pub(crate) fn is_behind(&self, second: u64) -> bool {
        match self.backlog.load(Ordering::SeqCst) {
            0 => false,
            next => is_behind(Some(next - 1), second),
        }
    }

    /// Whether the clock has not ticked in this second. From now on it has.
    pub(crate) fn may_tick(&self, second: u64) -> bool {
        self.ticked.swap(second, Ordering::SeqCst) != second
    }

    /// The clock has not done in this second what it had to: it may tick once more.
    pub(crate) fn tick_again(&self, second: u64) {
        self.ticked
            .store(second.saturating_sub(1), Ordering::SeqCst);
    }

    /// Whether one more link of this origin may be open.
    pub fn may_open<T: Wait>(&self, rt: &T, origin: Origin) -> bool {
        let links = self.links.lock(rt);
        match origin {
            Origin::Accepted => links.accepted < MOST_ACCEPTED,
            Origin::Dialled(peer) => match links.dialled.get(peer) {
                Some(open) => !*open,
                None => false,
            },
        }
    }

    /// Whether the last link of this origin that was closed had said its number.
    pub fn has_spoken<T: Wait>(&self, rt: &T, origin: Origin) -> bool {
        let links = self.links.lock(rt);
        match origin {
            Origin::Accepted => true,
            Origin::Dialled(peer) => match links.spoken.get(peer) {
                Some(spoken) => *spoken,
                None => true,
            },
        }
    }

    /// A link was made: it waits for a seat. Where memory ran out it is closed.
    pub fn open<T: Wait>(&self, rt: &T, link: Link<S>) {
        let mut links = self.links.lock(rt);
        let origin = link.origin;
        if put_after(&mut links.waiting, link) {
            note(&mut links, origin, true);
        }
        self.changed.notify_one();
    }

    /// A shift begins: each link that talked to the end of the last one waits for a seat again.
    pub fn begin_shift<T: Wait>(&self, rt: &T) {
        self.relay.begin_shift(rt);
        let talked = self.rouse(rt);
        for _ in 0..talked {
            self.seek_seat(rt);
        }
    }

    /// The shift is not quiet. Says how many links talked to the end of the last one.
    fn rouse<T: Wait>(&self, rt: &T) -> usize {
        let mut links = self.links.lock(rt);
        links.is_quiet = false;
        links.talked.len()
    }

    /// The gateway makes no more deltas in this shift: a seat that is empty has nothing to wait
    /// for.
    pub fn be_quiet<T: Wait>(&self, rt: &T) {
        self.links.lock(rt).is_quiet = true;
        self.changed.notify_all();
    }

    /// Waits until a link seeks a seat, or the shift is quiet.
    pub(crate) fn wait<T: Wait + Clock>(&self, rt: &T) {
        let (links, _) = self.changed.wait_timeout_while(
            rt,
            self.links.lock(rt),
            Duration::from_secs(SEAT_WAIT_SECONDS),
            |links| links.waiting.is_empty() && !links.is_quiet,
        );
        let _ = links.accepted;
    }

    /// Room for what is read. `None` if memory runs out.
    pub(crate) fn piece<T: Wait>(&self, rt: &T, alloc: Global) -> Option<Vec<u8>> {
        let kept = self.links.lock(rt).pieces.pop();
        if kept.is_some() {
            return kept;
        }
        Vec::from_elem(alloc, 0u8, LARGEST_PIECE).ok()
    }

    /// A seat needs its room no more: another link will.
    pub(crate) fn put_piece<T: Wait>(&self, rt: &T, piece: Vec<u8>) {
        let _ = self.links.lock(rt).pieces.push(piece);
    }

    /// A link that has talked waits for a seat again. Where memory ran out it is closed.
    fn seek_seat<T: Wait>(&self, rt: &T) {
        let mut links = self.links.lock(rt);
        if let Some(link) = links.talked.pop() {
            let (origin, place) = (link.origin, link.place);
            if !put_after(&mut links.waiting, link) {
                note(&mut links, origin, false);
                self.relay.leave(rt, place);
            }
        }
    }

    /// A link that waits for a seat, if there is one.
    pub(crate) fn take<T: Wait>(&self, rt: &T) -> Option<Link<S>> {
        self.links.lock(rt).waiting.pop()
    }

    /// A link has talked to the end of the shift, and has no seat before the next one. Where memory
    /// ran out it is closed.
    pub(crate) fn give_back<T: Wait>(&self, rt: &T, link: Link<S>) {
        let mut links = self.links.lock(rt);
        let (origin, place) = (link.origin, link.place);
        if !put_after(&mut links.talked, link) {
            note(&mut links, origin, false);
            self.relay.leave(rt, place);
        }
    }

    /// Closes each link that has no seat. The other ends dial again, or are dialled, and say anew
    /// what they have. One that is made meanwhile is closed too: were they counted before, it would
    /// be closed in the place of another, which would stay.
    pub fn close_all<T: Wait>(&self, rt: &T) {
        self.begin_shift(rt);
        for _ in rt.forever() {
            let Some(link) = self.take(rt) else {
                return;
            };
            self.lose(rt, link);
        }
        unreachable!()
    }

    /// A link is closed.
    pub(crate) fn lose<T: Wait>(&self, rt: &T, link: Link<S>) {
        let (origin, place) = (link.origin, link.place);
        link.drop();
        self.relay.leave(rt, place);
        let mut links = self.links.lock(rt);
        note(&mut links, origin, false);
        note_spoken(&mut links, origin, place.is_some());
    }
}

/// Puts a link after others. False if memory ran out: then the link is closed.
fn put_after<S: Drop>(links: &mut Vec<Link<S>>, link: Link<S>) -> bool {
    links.push(link).is_ok()
}

/// Notes whether a link of this origin that was closed had said its number.
fn note_spoken<S: Drop>(links: &mut Links<S>, origin: Origin, has_spoken: bool) {
    if let Origin::Dialled(peer) = origin {
        if let Some(spoken) = links.spoken.get_mut(peer) {
            *spoken = has_spoken;
        }
    }
}

/// Notes that a link of this origin is open, or is no more.
fn note<S: Drop>(links: &mut Links<S>, origin: Origin, is_open: bool) {
    match origin {
        Origin::Accepted if is_open => links.accepted = links.accepted.saturating_add(1),
        Origin::Accepted => links.accepted = links.accepted.saturating_sub(1),
        Origin::Dialled(peer) => {
            if let Some(open) = links.dialled.get_mut(peer) {
                *open = is_open;
            }
        }
    }
}
