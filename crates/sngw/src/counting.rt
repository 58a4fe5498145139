//! The numbers of a report, from what is counted and gathered.
//!
//! They are counted apart: if memory runs out, the report keeps those of the last time. The
//! watcher's thread counts them, and takes no lock for that.

use crate::board::{Board, Number};
use crate::gathering::{Gathered, KnownLink, is_at, no_link};
use crate::keeping::length_of;
use crate::program::Program;
use gw_link::{LinkCounts, Origin};
use gw_main::options::Settings;
use gw_report::{DeltaFault, Glimpse, Label, Link, Numbers, Place, Report, Sample, Seen, Singles};
use gw_run::MOST_ACCEPTED;
use octets::Sequence;
use sn_frame::MsgType;
use sn_plan::MAX_PENDING;
use sn_session::Presence;
use std::alloc::Global;
use std::fs::File;
use std::io::Read;
use std::mem;

/// How many messages wait for a client that soon gets no others.
const NEAR_FULL: usize = MAX_PENDING / 4 * 3;

/// How many topic ids a client has that soon gets no others.
pub(crate) const MANY_TOPICS: usize = 240;

/// How many octets a page of memory has.
const PAGE_OCTETS: u64 = 4_096;

/// How many octets of `/proc/self/statm` are read.
const STATM: usize = 128;

/// How many octets may be the type of a frame.
const TYPES: u8 = 32;

/// The presences of clients, in the order in which they are reported.
const PRESENCES: [Presence; 5] = [
    Presence::Active,
    Presence::Asleep,
    Presence::Awake,
    Presence::Disconnected,
    Presence::Lost,
];

/// No number.
pub(crate) fn no_numbers(alloc: Global) -> Numbers {
    Numbers {
        singles: Singles::default(),
        frames_received: Sequence::empty(alloc),
        datagrams_sent: Sequence::empty(alloc),
        calls: Sequence::empty(alloc),
        compactions: Sequence::empty(alloc),
        reopenings: Sequence::empty(alloc),
        clients: Sequence::empty(alloc),
        journal_octets: Sequence::empty(alloc),
        links: Sequence::empty(alloc),
        link_refused: Sequence::empty(alloc),
        messages_known: Sequence::empty(alloc),
    }
}

/// Puts the numbers of now into the report. If memory runs out, they are those of the last time.
/// Runs in the watcher's thread, and waits for no lock.
pub(crate) fn renew_numbers<T>(
    program: &Program<'_, T>,
    gathered: &Gathered,
    report: &mut Report,
    now: u64,
) {
    let mut numbers = no_numbers(program.alloc);
    if count_all(program, gathered, report, &mut numbers, now) {
        drop(mem::replace(&mut report.numbers, numbers));
    } else {
        drop(numbers);
    }
}

/// Counts all numbers. Whether there was memory for them.
fn count_all<T>(
    program: &Program<'_, T>,
    gathered: &Gathered,
    report: &Report,
    numbers: &mut Numbers,
    now: u64,
) -> bool {
    let seen = report.clients.as_slice();
    let board = &program.shared.board;
    count_singles(program.host, &mut numbers.singles, board, gathered, now);
    count_clients(&mut numbers.singles, program.settings.gateway, seen);
    count_parts(program, gathered, seen, numbers)
        && count_links(program.settings, board, gathered, numbers, now)
}

/// The numbers with a label, without those of links. Whether there was memory for them.
fn count_parts<T>(
    program: &Program<'_, T>,
    gathered: &Gathered,
    seen: &[Seen],
    numbers: &mut Numbers,
) -> bool {
    let board = &program.shared.board;
    add_frames(&mut numbers.frames_received, board, true)
        && add_frames(&mut numbers.datagrams_sent, board, false)
        && add_all(&mut numbers.calls, gathered.calls.as_slice())
        && add_compactions(&mut numbers.compactions, board)
        && add_reopenings(&mut numbers.reopenings, board)
        && add_presences(&mut numbers.clients, seen)
        && add_lengths(program, &mut numbers.journal_octets)
        && add_origins(&mut numbers.messages_known, gathered.known.as_slice())
}

/// One number more. Whether there was memory for it.
fn add(all: &mut Sequence<Sample>, label: Label, value: u64) -> bool {
    all.push(Sample { label, value }).is_ok()
}

/// The numbers without a label, but for those of clients.
fn count_singles(
    rt: &HostRuntime,
    singles: &mut Singles,
    board: &Board,
    gathered: &Gathered,
    now: u64,
) {
    count_served(singles, board);
    count_tended(singles, board);
    singles.up_seconds = now.saturating_sub(gathered.began) / 1_000;
    singles.tick_age_seconds = now.saturating_sub(gathered.changed);
    singles.tick_seconds_max = gathered.longest;
    singles.stood_still_seconds = gathered.stood;
    singles.events_lost = gathered.lost;
    singles.start_time = gathered.start;
    singles.resident_memory = resident(rt);
}

/// The numbers of datagrams, of shifts and of links.
fn count_served(singles: &mut Singles, board: &Board) {
    singles.shift = board.get(Number::Shift);
    singles.shift_calls = board.get(Number::ShiftCalls);
    singles.datagrams_received = board.get(Number::Received);
    singles.datagrams_dropped = board.get(Number::Dropped);
    singles.datagrams_unsent = board.get(Number::Unsent);
    singles.links_turned_away = board.get(Number::TurnedAway);
}

/// The numbers of how the gateway was tended.
fn count_tended(singles: &mut Singles, board: &Board) {
    singles.turn_seconds = board.get(Number::Turn);
    singles.turn_seconds_max = board.get(Number::LongestTurn);
    singles.compaction_seconds = board.get(Number::Compaction);
    singles.compaction_seconds_max = board.get(Number::LongestCompaction);
    singles.halted = board.get(Number::Halted);
}

/// The numbers of all clients.
fn count_clients(singles: &mut Singles, gateway: u8, seen: &[Seen]) {
    for one in seen {
        let glimpse = &one.glimpse;
        singles.set_mark = singles.set_mark.wrapping_add(mark_of(glimpse));
        count_if(&mut singles.clients_owned, is_owned(gateway, glimpse));
        count_if(&mut singles.clients_bound, glimpse.local.is_some());
        count_waiting(singles, glimpse);
        count_session(singles, one);
    }
}

/// One more, if this holds.
fn count_if(count: &mut u64, holds: bool) {
    if holds {
        *count = count.saturating_add(1);
    }
}

/// The numbers of what waits for a client.
fn count_waiting(singles: &mut Singles, glimpse: &Glimpse) {
    let waiting = glimpse.waiting as u64;
    singles.waiting_messages = singles.waiting_messages.saturating_add(waiting);
    singles.waiting_most = singles.waiting_most.max(waiting);
    count_if(&mut singles.clients_near_full, glimpse.waiting >= NEAR_FULL);
    count_if(&mut singles.clients_full, glimpse.waiting >= MAX_PENDING);
}

/// The numbers of a client's session.
fn count_session(singles: &mut Singles, one: &Seen) {
    if let Some(session) = one.glimpse.session {
        count_if(&mut singles.topics_near_full, session.topics >= MANY_TOPICS);
        if session.presence == Presence::Active {
            let since = one.since.unwrap_or(0);
            singles.stuck_seconds_most = singles.stuck_seconds_most.max(since);
        }
    }
}

/// Whether a gateway owns a client.
pub(crate) fn is_owned(gateway: u8, glimpse: &Glimpse) -> bool {
    match glimpse.stamp {
        None => false,
        Some(stamp) => stamp.gateway == gateway,
    }
}

/// A hash of what the set says of a client (after FNV-1a): the same at all gateways that keep the
/// same. Next numbers are left out: each gateway knows of other origins.
fn mark_of(glimpse: &Glimpse) -> u64 {
    let mut mark = 0xcbf2_9ce4_8422_2325;
    for octet in glimpse.client.bytes() {
        mark = mixed(mark, u64::from(*octet));
    }
    if let Some(stamp) = glimpse.stamp {
        mark = mixed(mixed(mark, stamp.epoch), u64::from(stamp.gateway));
    }
    mark = mixed(mark, u64::from(glimpse.prefix));
    mark = mixed(mark, glimpse.waiting as u64);
    if let Some(first) = glimpse.first {
        mark = mixed(mixed(mark, first.seq), u64::from(first.origin));
    }
    mark
}

/// A hash and one more number.
fn mixed(mark: u64, number: u64) -> u64 {
    (mark ^ number).wrapping_mul(0x0100_0000_01b3)
}

/// How many datagrams came by type, or went out. Whether there was memory for them.
fn add_frames(all: &mut Sequence<Sample>, board: &Board, is_coming: bool) -> bool {
    for octet in 0..TYPES {
        if let Some(frame) = MsgType::from_octet(octet) {
            let count = board.frames(is_coming, Some(frame));
            if !add(all, Label::Frame(frame), count) {
                return false;
            }
        }
    }
    add(all, Label::OtherFrame, board.frames(is_coming, None))
}

/// The same numbers. Whether there was memory for them.
fn add_all(all: &mut Sequence<Sample>, samples: &[Sample]) -> bool {
    for sample in samples {
        if !add(all, sample.label, sample.value) {
            return false;
        }
    }
    true
}

/// How often the journal was written anew, and how often it could not be. Whether there was memory
/// for that.
fn add_compactions(all: &mut Sequence<Sample>, board: &Board) -> bool {
    add(all, Label::Done, board.get(Number::Compacted))
        && add(all, Label::Failed, board.get(Number::NotCompacted))
}

/// How often the gateway was opened again in a shift, and between two. Whether there was memory for
/// that.
fn add_reopenings(all: &mut Sequence<Sample>, board: &Board) -> bool {
    let between = board.get(Number::ReopenedBetween);
    add(all, Label::InPlace, board.get(Number::Reopened)) && add(all, Label::BetweenShifts, between)
}

/// How many clients there are by presence. Whether there was memory for them.
fn add_presences(all: &mut Sequence<Sample>, seen: &[Seen]) -> bool {
    for presence in PRESENCES.iter() {
        let count = count_present(seen, Some(*presence));
        if !add(all, Label::Presence(*presence), count) {
            return false;
        }
    }
    add(all, Label::NoSession, count_present(seen, None))
}

/// How many clients have this presence, or no session.
fn count_present(seen: &[Seen], presence: Option<Presence>) -> u64 {
    let mut count = 0u64;
    for one in seen {
        count_if(&mut count, is_same(presence_of(one), presence));
    }
    count
}

/// Where a client is, if it has a session.
pub(crate) fn presence_of(seen: &Seen) -> Option<Presence> {
    match seen.glimpse.session {
        None => None,
        Some(session) => Some(session.presence),
    }
}

/// Whether two clients are where the other is.
pub(crate) fn is_same(presence: Option<Presence>, other: Option<Presence>) -> bool {
    presence == other
}

/// How many messages of each gateway are known. Whether there was memory for them.
fn add_origins(all: &mut Sequence<Sample>, known: &[(u8, u64)]) -> bool {
    for entry in known {
        if !add(all, Label::Origin(entry.0), entry.1) {
            return false;
        }
    }
    true
}

/// The lengths of both files of the journal; 0 for one of which the system does not tell. Whether
/// there was memory for them.
fn add_lengths<T>(program: &Program<'_, T>, all: &mut Sequence<Sample>) -> bool {
    let path = program.settings.journal.as_str();
    let first = length_of(program.host, program.alloc, path, 0).unwrap_or(0);
    let second = length_of(program.host, program.alloc, path, 1).unwrap_or(0);
    add(all, Label::FirstSlot, first) && add(all, Label::SecondSlot, second)
}

/// The places of links: one for each peer, and those for whoever dials. Whether there was memory
/// for them.
fn count_links(
    settings: &Settings,
    board: &Board,
    gathered: &Gathered,
    numbers: &mut Numbers,
    now: u64,
) -> bool {
    for peer in 0..settings.peers.len() {
        let known = last_dialled(gathered, peer, now);
        let failed = board.dials_failed(peer);
        if !add_place(numbers, Place::Dialled(small(peer)), known, failed, now) {
            return false;
        }
    }
    for slot in 0..MOST_ACCEPTED {
        let known = last_accepted(gathered, slot, now);
        if !add_place(numbers, Place::Accepted(small(slot)), known, 0, now) {
            return false;
        }
    }
    true
}

/// The number of a place: there are few.
fn small(place: usize) -> u16 {
    (place % 65_536) as u16
}

/// The last link that was dialled to a peer.
fn last_dialled(gathered: &Gathered, peer: usize, now: u64) -> KnownLink {
    let mut last = no_link(now);
    for known in gathered.links.as_slice() {
        if known.numbers.origin == Origin::Dialled(peer) {
            last = *known;
        }
    }
    last
}

/// The last link that was accepted and had this place.
fn last_accepted(gathered: &Gathered, slot: usize, now: u64) -> KnownLink {
    let mut last = no_link(now);
    for known in gathered.links.as_slice() {
        if is_at(known, slot) {
            last = *known;
        }
    }
    last
}

/// A place of a link in numbers. Whether there was memory for them.
fn add_place(
    numbers: &mut Numbers,
    place: Place,
    known: KnownLink,
    dials_failed: u64,
    now: u64,
) -> bool {
    let counts = known.numbers.counts;
    numbers
        .links
        .push(link_of(place, known, dials_failed, now))
        .is_ok()
        && add_refusals(&mut numbers.link_refused, place, counts)
}

/// A place at which this link is, or was last.
fn link_of(place: Place, known: KnownLink, dials_failed: u64, now: u64) -> Link {
    let counts = known.numbers.counts;
    Link {
        place,
        up: u64::from(known.is_up),
        number: u64::from(known.numbers.other),
        since_seconds: now.saturating_sub(known.since) / 1_000,
        heard_seconds: seconds_since(known.numbers.heard, now),
        waiting_octets: counts.waiting,
        told: counts.told,
        taken: counts.taken,
        answer_operations: counts.answered,
        received_octets: counts.received,
        sent_octets: counts.sent,
        dials_failed,
    }
}

/// How many seconds ago this second was; 0 if it is none.
fn seconds_since(second: u64, now: u64) -> u64 {
    if second > 0 {
        (now / 1_000).saturating_sub(second)
    } else {
        0
    }
}

/// How many deltas were refused at a place, by fault. Whether there was memory for them.
fn add_refusals(all: &mut Sequence<Sample>, place: Place, counts: LinkCounts) -> bool {
    let conflict = Label::Fault(place, DeltaFault::Conflict);
    let limit = Label::Fault(place, DeltaFault::Full);
    let other = Label::Fault(place, DeltaFault::Other);
    add(all, conflict, counts.conflicts)
        && add(all, limit, counts.limits)
        && add(all, other, counts.others)
}

/// How many octets of memory the process has; 0 if the system does not tell.
fn resident(rt: &HostRuntime) -> u64 {
    match File::open(rt, "/proc/self/statm") {
        Ok(mut file) => {
            let mut octets = [0u8; STATM];
            let pages = pages_of(&mut file, &mut octets);
            drop(file);
            pages.saturating_mul(PAGE_OCTETS)
        }
        Err(_) => 0,
    }
}

/// The second number of a file, which is read into these octets; 0 if it cannot be read.
fn pages_of(file: &mut File, octets: &mut [u8]) -> u64 {
    match file.read(octets) {
        Ok(size) => pages_in(&octets[..size]),
        Err(_) => 0,
    }
}

/// The second number of a text.
fn pages_in(text: &[u8]) -> u64 {
    let mut number = 0u64;
    let mut blanks = 0u64;
    for octet in text {
        if *octet == b' ' {
            blanks = blanks.saturating_add(1);
        } else if blanks == 1 && octet.is_ascii_digit() {
            number = number
                .saturating_mul(10)
                .saturating_add(u64::from(octet.saturating_sub(b'0')));
        }
    }
    number
}
