//! What is remembered of the gateway from one second to the next, for what is reported of it. Only
//! the watcher's thread has it.

use crate::board::{Field, Number, Shared};
use crate::counting::{no_numbers, renew_numbers};
use crate::program::Program;
use gw_link::{LinkNumbers, Origin};
use gw_report::{Glimpse, Health, Report, Sample, Seen};
use gw_run::MOST_ACCEPTED;
use gw_wire::{date, millisecond};
use octets::Sequence;
use rep_ops::ClientId;
use std::alloc::Global;
use std::mem;
use std::sync::Wait;
use std::sync::atomic::Ordering;

/// After how many milliseconds without a round the clock is late.
const LATE: u64 = 5_000;

/// For how many milliseconds a failed write counts.
const LATELY: u64 = 30_000;

/// How many milliseconds the longest times are kept.
const AN_HOUR: u64 = 3_600_000;

/// How many links are asked for, and remembered, at most.
pub(crate) const MOST_LINKS: usize = 264;

/// Of how many shifts the calls are added at once.
const MOST_SHIFTS: usize = 64;

/// A link as it was last seen, with the millisecond in which it was first.
#[derive(Clone, Copy)]
pub struct KnownLink {
    pub numbers: LinkNumbers,
    /// Its place among those that were accepted, which no other has while it is up.
    pub slot: usize,
    pub since: u64,
    pub is_up: bool,
    /// Whether it was told that it is made, and that it is gone.
    pub is_told_made: bool,
    pub is_told_gone: bool,
}

/// What is remembered from one gathering to the next.
#[derive(Drop)]
pub struct Gathered {
    /// The millisecond in which the program began, and the second since 1970.
    pub began: u64,
    pub start: u64,
    /// The millisecond in which the longest times were last forgotten.
    forgot: u64,
    /// How many rounds the clock had begun, and the millisecond in which that number last changed;
    /// the longest time between two changes.
    rounds: u64,
    pub changed: u64,
    pub longest: u64,
    /// The millisecond in which the clock began, once it has.
    ticking: Option<u64>,
    /// For how many seconds the clock stood still.
    pub stood: u64,
    /// The links, those that are gone too, in the order in which they were made.
    pub links: Vec<KnownLink>,
    /// The clients of the last glance but one, and whether there was one.
    pub before: Vec<Seen>,
    pub has_before: bool,
    has_glanced: bool,
    /// Clients that were told to have all messages that may wait, and nearly all topic ids.
    pub full: Vec<ClientId>,
    pub many_topics: Vec<ClientId>,
    /// Whether the last gathering brought a glance.
    pub is_new: bool,
    /// The second of the last glance.
    second: u64,
    /// How many messages of each gateway were known at it.
    pub known: Vec<(u8, u64)>,
    /// The calls of all closed shifts.
    pub calls: Vec<Sample>,
    /// How many events were not written.
    pub lost: u64,
}

/// Nothing is reported.
pub(crate) fn no_report(alloc: Global) -> Report {
    Report {
        numbers: no_numbers(alloc),
        clients: Sequence::empty(alloc),
        events: Sequence::empty(alloc),
        health: Health {
            is_late: false,
            is_halted: false,
            has_failed: false,
        },
    }
}

/// Nothing was gathered.
pub(crate) fn none_gathered(rt: &HostRuntime, alloc: Global) -> Gathered {
    let now = millisecond(rt);
    let start = date(rt);
    Gathered {
        began: now,
        start,
        forgot: now,
        rounds: 0,
        changed: now,
        longest: 0,
        ticking: None,
        stood: 0,
        links: Vec::new(alloc),
        before: Vec::new(alloc),
        has_before: false,
        has_glanced: false,
        full: Vec::new(alloc),
        many_topics: Vec::new(alloc),
        is_new: false,
        second: 0,
        known: Vec::new(alloc),
        calls: Vec::new(alloc),
        lost: 0,
    }
}

/// Gathers what is reported. What needs memory that is refused stays as it was. Runs in the
/// watcher's thread; it takes the relay's lock and those of the board, one at a time.
pub(crate) fn gather<T: Wait>(
    program: &Program<'_, T>,
    gathered: &mut Gathered,
    report: &mut Report,
) {
    let rt = program.rt;
    let alloc = program.alloc;
    let shared = program.shared;
    let now = millisecond(program.host);
    look_at_clock(shared, gathered, now);
    forget_longest(shared, gathered, now);
    add_calls(rt, shared, gathered);
    find_links(rt, alloc, shared, gathered, now);
    find_clients(rt, alloc, shared, gathered, report);
    report.health = health_of(shared, gathered, now);
    renew_numbers(program, gathered, report, now);
}

/// Sees whether the clock's thread goes on. It begins a round several times a second.
pub(crate) fn look_at_rounds(shared: &Shared, gathered: &mut Gathered, now: u64) {
    let rounds = shared.pool.rounds.load(Ordering::SeqCst);
    if rounds != gathered.rounds {
        gathered.rounds = rounds;
        gathered.longest = gathered.longest.max(now.saturating_sub(gathered.changed));
        gathered.changed = now;
    }
}

/// Sees for how long the clock stood still.
fn look_at_clock(shared: &Shared, gathered: &mut Gathered, now: u64) {
    let second = shared.pool.clock.second();
    match gathered.ticking {
        None => {
            if second > 0 {
                gathered.ticking = Some(now.saturating_sub(second.saturating_mul(1_000)));
            }
        }
        Some(began) => {
            let passed = now.saturating_sub(began) / 1_000;
            let stood = passed.saturating_sub(second.saturating_add(2));
            gathered.stood = gathered.stood.max(stood);
        }
    }
}

/// Forgets the longest times once in an hour.
fn forget_longest(shared: &Shared, gathered: &mut Gathered, now: u64) {
    if now.saturating_sub(gathered.forgot) > AN_HOUR {
        gathered.forgot = now;
        gathered.longest = 0;
        shared.board.set(Number::LongestTurn, 0);
        shared.board.set(Number::LongestCompaction, 0);
    }
}

/// Adds the calls of shifts that were closed.
fn add_calls<T: Wait>(rt: &T, shared: &Shared, gathered: &mut Gathered) {
    for _ in 0..MOST_SHIFTS {
        match shared.board.take_calls(rt) {
            Some(calls) => add_shift(gathered, calls.into_vec()),
            None => return,
        }
    }
}

/// Adds the calls of a shift: each shift has as many samples, in the same order.
fn add_shift(gathered: &mut Gathered, calls: Vec<Sample>) {
    let mut calls = calls;
    add_before(calls.as_mut_slice(), gathered.calls.as_slice());
    drop(mem::replace(&mut gathered.calls, calls));
}

/// Adds to each sample that before at its place, if there is one.
fn add_before(calls: &mut [Sample], before: &[Sample]) {
    let mut left = before;
    for sample in calls {
        if let Some((first, rest)) = left.split_first() {
            sample.value = sample.value.saturating_add(first.value);
            left = rest;
        }
    }
}

/// Sees which links are up. If memory runs out, they are those of the last time.
fn find_links<T: Wait>(rt: &T, alloc: Global, shared: &Shared, gathered: &mut Gathered, now: u64) {
    match shared.pool.relay.links(rt, alloc, MOST_LINKS) {
        Ok(links) => {
            look_at_links(&mut gathered.links, links.as_slice(), now);
            drop(links);
        }
        Err(_) => {}
    }
}

/// Notes which links are up.
fn look_at_links(all: &mut Vec<KnownLink>, links: &[LinkNumbers], now: u64) {
    for known in all.as_mut_slice() {
        known.is_up = false;
    }
    for link in links {
        if !is_known(all.as_mut_slice(), link) {
            add_link(all, *link, now);
        }
    }
}

/// Whether a link was up before. If it was, it still is.
fn is_known(all: &mut [KnownLink], link: &LinkNumbers) -> bool {
    for known in all {
        if known.numbers.place == link.place {
            known.numbers = *link;
            known.is_up = true;
            return true;
        }
    }
    false
}

/// Notes a link that is new. If memory runs out, it is left out.
fn add_link(all: &mut Vec<KnownLink>, link: LinkNumbers, now: u64) {
    if all.len() >= MOST_LINKS {
        forget_gone(all);
    }
    let mut known = no_link(now);
    known.numbers = link;
    known.slot = free_slot(all.as_slice());
    known.is_up = true;
    let _ = all.push(known);
}

/// Forgets the first link that is gone.
fn forget_gone(all: &mut Vec<KnownLink>) {
    let mut place = 0usize;
    for known in all.as_slice() {
        if !known.is_up {
            break;
        }
        place = place.saturating_add(1);
    }
    if place < all.len() {
        let _ = all.remove(place);
    }
}

/// A link that never was.
pub(crate) fn no_link(now: u64) -> KnownLink {
    KnownLink {
        numbers: LinkNumbers::new(0, Origin::Accepted, 0),
        slot: MOST_ACCEPTED,
        since: now,
        is_up: false,
        is_told_made: false,
        is_told_gone: false,
    }
}

/// The first place of an accepted link at which none is up.
fn free_slot(all: &[KnownLink]) -> usize {
    for slot in 0..MOST_ACCEPTED {
        if !is_taken(all, slot) {
            return slot;
        }
    }
    MOST_ACCEPTED
}

/// Whether a link that was accepted is up at a place.
fn is_taken(all: &[KnownLink], slot: usize) -> bool {
    for known in all {
        if known.is_up && is_at(known, slot) {
            return true;
        }
    }
    false
}

/// Whether a link was accepted, and has this place.
pub(crate) fn is_at(known: &KnownLink, slot: usize) -> bool {
    match known.numbers.origin {
        Origin::Accepted => known.slot == slot,
        Origin::Dialled(_) => false,
    }
}

/// Takes the last glance, if there is a new one.
fn find_clients<T: Wait>(
    rt: &T,
    alloc: Global,
    shared: &Shared,
    gathered: &mut Gathered,
    report: &mut Report,
) {
    gathered.is_new = false;
    match shared.board.take_field(rt) {
        Some(field) => take_clients(alloc, gathered, report, field),
        None => {}
    }
}

/// Puts the clients of a glance into the report. If memory runs out, they are those of the last.
fn take_clients(alloc: Global, gathered: &mut Gathered, report: &mut Report, field: Field) {
    let Field {
        clients,
        known,
        second,
        moment,
    } = field;
    drop(mem::replace(&mut gathered.known, known));
    let passed = second.saturating_sub(gathered.second);
    let mut seen = Vec::new(alloc);
    if see_all(
        &mut seen,
        report.clients.as_slice(),
        clients,
        moment,
        passed,
    ) {
        gathered.second = second;
        put_clients(gathered, report, seen);
    } else {
        drop(seen);
    }
}

/// Puts these clients into the report. Those that were there are remembered.
fn put_clients(gathered: &mut Gathered, report: &mut Report, seen: Vec<Seen>) {
    let old = mem::replace(&mut report.clients, Sequence::new(seen));
    drop(mem::replace(&mut gathered.before, old.into_vec()));
    gathered.has_before = gathered.has_glanced;
    gathered.has_glanced = true;
    gathered.is_new = true;
}

/// Puts the clients of a glance of this moment after others, with what earlier ones add to them.
/// Whether there was memory for all.
fn see_all(
    seen: &mut Vec<Seen>,
    old: &[Seen],
    clients: Vec<Glimpse>,
    moment: u64,
    passed: u64,
) -> bool {
    let mut is_whole = true;
    for glimpse in clients {
        if !see(seen, seen_now(old, glimpse, moment, passed)) {
            is_whole = false;
        }
    }
    is_whole
}

/// Puts a client after others. Whether there was memory for it.
fn see(seen: &mut Vec<Seen>, one: Seen) -> bool {
    seen.push(one).is_ok()
}

/// A client at this moment, with what earlier glances add to it.
fn seen_now(old: &[Seen], glimpse: Glimpse, moment: u64, passed: u64) -> Seen {
    let since = since_of(old, &glimpse, passed);
    let silence = match glimpse.local {
        None => None,
        Some(local) => Some(moment.saturating_sub(local.heard)),
    };
    Seen {
        glimpse,
        silence,
        since,
    }
}

/// For how many seconds the first message of a client has been the same.
fn since_of(old: &[Seen], glimpse: &Glimpse, passed: u64) -> Option<u64> {
    let first = glimpse.first?;
    let Some(before) = seen_in(old, &glimpse.client) else {
        return Some(0);
    };
    match before.glimpse.first {
        Some(last) if last.seq == first.seq && last.origin == first.origin => {
            Some(before.since.unwrap_or(0).saturating_add(passed))
        }
        _ => Some(0),
    }
}

/// What was last seen of a client: those that were seen are in the order of their ids.
pub(crate) fn seen_in<'a>(old: &'a [Seen], client: &ClientId) -> Option<&'a Seen> {
    let found = old.binary_search_by(|seen| seen.glimpse.client.cmp(client));
    match found {
        Ok(place) => old.get(place),
        Err(_) => None,
    }
}

/// Whether the gateway is well.
fn health_of(shared: &Shared, gathered: &Gathered, now: u64) -> Health {
    let failed = shared.board.get(Number::Failed);
    Health {
        is_late: now.saturating_sub(gathered.changed) > LATE,
        is_halted: shared.board.get(Number::Halted) > 0,
        has_failed: failed > 0 && now.saturating_sub(failed) < LATELY,
    }
}
