//! What happened, as events: on the page, and as lines of standard error if the settings ask for
//! them. Without that the troubles of links have the lines that an unwatched gateway prints.
//!
//! Links, the clock and the threads that serve only count. What happened is seen here by comparing
//! two gatherings, so an event is late by a second, or by a glance.

use crate::board::{Board, Number};
use crate::counting::{MANY_TOPICS, is_owned, is_same, presence_of};
use crate::doors::{outage_line, trouble_line};
use crate::gathering::{Gathered, KnownLink, seen_in};
use crate::program::Program;
use gw_link::Trouble;
use gw_main::options::Settings;
use gw_page::entry;
use gw_report::{Alarm, Detail, Event, Note, Report, Seen, Warning, What};
use gw_wire::{millisecond, second};
use octets::Sequence;
use rep_ops::ClientId;
use sn_flow::MAX_CLIENTS;
use sn_plan::MAX_PENDING;
use sn_session::Presence;
use std::alloc::Global;
use std::mem;
use std::sync::Wait;
use std::time::Clock;

/// How many events are kept for the page.
const MOST_EVENTS: usize = 256;

/// How many troubles of links are told at once.
const MOST_TROUBLES: usize = 16;

/// How many milliseconds pass before it is told again that datagrams were dropped.
const DROPS_INTERVAL_MS: u64 = 60_000;

/// How many milliseconds pass before it is told again who is at a limit.
const AN_HOUR: u64 = 3_600_000;

/// How many milliseconds a turn may take that is not told.
const LONG_TURN: u64 = 1_000;

/// How many clients are near the most that there may be.
const NEAR_FULL: usize = MAX_CLIENTS / 4 * 3;

/// The level of events of single clients.
const DEBUG: u8 = 7;

/// What was told, or seen, at the last gathering.
#[derive(Clone, Copy)]
pub struct Happened {
    reopened: u64,
    not_compacted: u64,
    shift: u64,
    failures: u64,
    /// For how many seconds in all the clock stood still, as it was told, and at the last
    /// gathering.
    stood: u64,
    standing: u64,
    /// How many datagrams were told as dropped, and when.
    dropped: u64,
    told: u64,
    /// Whether it was told that many clients are there, and when it was last told again who is at
    /// a limit.
    are_many: bool,
    again: u64,
}

/// Nothing has happened.
pub(crate) fn nothing_happened() -> Happened {
    Happened {
        reopened: 0,
        not_compacted: 0,
        shift: 0,
        failures: 0,
        stood: 0,
        standing: 0,
        dropped: 0,
        told: 0,
        are_many: false,
        again: 0,
    }
}

/// What is to be told.
#[derive(Drop)]
struct News {
    alloc: Global,
    told: Vec<What>,
    /// For how much of it there was no memory.
    lost: u64,
}

/// Tells what happened since the last time. Runs in the watcher's thread, and holds no lock while
/// it compares.
pub(crate) fn tell_all<T: Wait + Clock>(
    program: &Program<'_, T>,
    gathered: &mut Gathered,
    happened: &mut Happened,
    report: &mut Report,
) {
    let now = millisecond(program.host);
    let moment = now.saturating_sub(gathered.began) / 1_000;
    let mut news = News {
        alloc: program.alloc,
        told: Vec::new(program.alloc),
        lost: 0,
    };
    find_links(&mut news, gathered.links.as_mut_slice());
    find_troubles(program, &mut news);
    find_all(program, &mut news, gathered, happened, report, now);
    let lost = tell(program, moment, news, report);
    gathered.lost = gathered.lost.saturating_add(lost);
}

/// What is to be told of the gateway and of clients.
fn find_all<T>(
    program: &Program<'_, T>,
    news: &mut News,
    gathered: &mut Gathered,
    happened: &mut Happened,
    report: &Report,
    now: u64,
) {
    let board = &program.shared.board;
    find_gateway(news, board, gathered.stood, happened);
    find_dropped(news, board, happened, now);
    if gathered.is_new {
        let clients = report.clients.as_slice();
        find_clients(news, program.settings, gathered, happened, clients, now);
    }
}

/// Says what is bad enough, and puts all of it to the events of the page. How many could not be
/// told.
fn tell<T: Wait>(program: &Program<'_, T>, moment: u64, news: News, report: &mut Report) -> u64 {
    let News { alloc, told, lost } = news;
    let mut events = mem::replace(&mut report.events, Sequence::empty(alloc)).into_vec();
    let untold = tell_each(program, moment, told, &mut events);
    drop(mem::replace(&mut report.events, Sequence::new(events)));
    lost.saturating_add(untold)
}

/// Says each of these, and puts it to the events of the page. How many could not be told.
fn tell_each<T: Wait>(
    program: &Program<'_, T>,
    moment: u64,
    told: Vec<What>,
    events: &mut Vec<Event>,
) -> u64 {
    let mut lost = 0u64;
    for what in told {
        let event = Event { moment, what };
        let is_said = say(program, &event);
        let is_kept = keep(events, event);
        count_unless(&mut lost, is_said && is_kept);
    }
    lost
}

/// One more, unless this holds.
fn count_unless(count: &mut u64, holds: bool) {
    if !holds {
        *count = count.saturating_add(1);
    }
}

/// Says an event on standard error, if it is of the level of the settings or worse. Whether its
/// line was not left out.
fn say<T: Wait>(program: &Program<'_, T>, event: &Event) -> bool {
    if event.level().number() > program.settings.log {
        return true;
    }
    let line = entry(program.alloc, event).ok();
    program.said.err.try_say(program.rt, line)
}

/// Keeps an event for the page. If there are too many, the oldest of a single client gives way, or
/// else the oldest of all. Whether there was memory for it.
fn keep(events: &mut Vec<Event>, event: Event) -> bool {
    let place = first_detail(events.as_slice());
    if events.len() >= MOST_EVENTS && place < events.len() {
        drop(events.remove(place));
    }
    events.push(event).is_ok()
}

/// The place of the first event of a single client; the first place if there is none.
fn first_detail(events: &[Event]) -> usize {
    let mut place = 0usize;
    for event in events {
        if matches!(event.what, What::Detail(_)) {
            return place;
        }
        place = place.saturating_add(1);
    }
    0
}

/// This is to be told.
fn note(news: &mut News, what: What) {
    count_unless(&mut news.lost, news.told.push(what).is_ok());
}

/// This warning is to be told.
fn warn(news: &mut News, warning: Warning) {
    note(news, What::Warning(warning));
}

/// Which links were made, and which are gone.
fn find_links(news: &mut News, links: &mut [KnownLink]) {
    for known in links {
        let number = known.numbers.other;
        if known.is_up && !known.is_told_made {
            known.is_told_made = true;
            note(news, What::Note(Note::LinkMade { number }));
        }
        if !known.is_up && !known.is_told_gone {
            known.is_told_gone = true;
            warn(news, Warning::LinkLost { number });
        }
    }
}

/// The troubles of links, and that nothing can be sent. If the settings ask for no events, each has
/// a line.
fn find_troubles<T: Wait + Clock>(program: &Program<'_, T>, news: &mut News) {
    let rt = program.rt;
    let pool = &program.shared.pool;
    let is_printed = program.settings.log == 0;
    if pool.outage.is_to_tell(rt) {
        if is_printed {
            program.said.err.say(rt, outage_line(news.alloc));
        }
        warn(news, Warning::NothingSent);
    }
    for _ in 0..MOST_TROUBLES {
        let Some(told) = pool.relay.report(rt, second(program.host)) else {
            return;
        };
        if is_printed {
            program.said.err.say(rt, trouble_line(news.alloc, told));
        }
        note(news, event_of(told.trouble, told.number, told.count));
    }
}

/// A trouble as an event.
fn event_of(trouble: Trouble, number: u8, times: u64) -> What {
    match trouble {
        Trouble::SameNumber => What::Alarm(Alarm::SameNumber { number, times }),
        Trouble::Conflict => What::Alarm(Alarm::Conflict { number, times }),
        Trouble::Stranger => What::Warning(Warning::Stranger { number, times }),
        Trouble::TooMuch => What::Warning(Warning::DeltaFull { number, times }),
        Trouble::Twice => What::Alarm(Alarm::Twice { number, times }),
        Trouble::TurnedAway => What::Warning(Warning::TurnedAway { times }),
    }
}

/// What happened to the gateway, whose clock stood still for so many seconds in all.
fn find_gateway(news: &mut News, board: &Board, stood: u64, happened: &mut Happened) {
    if growth(&mut happened.failures, board.get(Number::Failures)) > 0 {
        note(news, What::Alarm(Alarm::Halted));
    }
    if growth(&mut happened.reopened, reopenings(board)) > 0 {
        warn(news, Warning::Reopened);
    }
    if growth(&mut happened.not_compacted, board.get(Number::NotCompacted)) > 0 {
        warn(news, Warning::NotCompacted);
    }
    find_standing(news, stood, happened);
    find_turn(news, board, happened);
}

/// For how long the clock stood still, once it goes on.
fn find_standing(news: &mut News, stood: u64, happened: &mut Happened) {
    if growth(&mut happened.standing, stood) > 0 {
        return;
    }
    let seconds = growth(&mut happened.stood, stood);
    if seconds > 0 {
        warn(news, Warning::StoodStill { seconds });
    }
}

/// By how much a number has grown since it was last looked at.
fn growth(last: &mut u64, now: u64) -> u64 {
    let growth = now.saturating_sub(*last);
    *last = now;
    growth
}

/// How often the gateway was opened again.
fn reopenings(board: &Board) -> u64 {
    let between = board.get(Number::ReopenedBetween);
    board.get(Number::Reopened).saturating_add(between)
}

/// A shift that took long to turn.
fn find_turn(news: &mut News, board: &Board, happened: &mut Happened) {
    let shift = board.get(Number::Shift);
    let thousandths = board.get(Number::Turn);
    if growth(&mut happened.shift, shift) > 0 && thousandths > LONG_TURN {
        let calls = board.get(Number::ShiftCalls);
        let closed = Note::ShiftClosed {
            shift,
            calls,
            thousandths,
        };
        note(news, What::Note(closed));
    }
}

/// How many datagrams were dropped, once in a minute.
fn find_dropped(news: &mut News, board: &Board, happened: &mut Happened, now: u64) {
    let dropped = board.get(Number::Dropped);
    let is_time = happened.told == 0 || now.saturating_sub(happened.told) > DROPS_INTERVAL_MS;
    if dropped > happened.dropped && is_time {
        let times = growth(&mut happened.dropped, dropped);
        happened.told = now;
        warn(news, Warning::Dropped { times });
    }
}

/// What happened to clients between two glances, and once in an hour again who is at a limit.
fn find_clients(
    news: &mut News,
    settings: &Settings,
    gathered: &mut Gathered,
    happened: &mut Happened,
    clients: &[Seen],
    now: u64,
) {
    let is_again = has_passed(now, happened);
    if is_again {
        forget_told(gathered, happened, news.alloc);
    }
    let count = clients.len();
    if count >= NEAR_FULL && !happened.are_many {
        happened.are_many = true;
        let clients = count as u64;
        warn(news, Warning::ClientsNearFull { clients });
    }
    for seen in clients {
        find_client(news, settings, gathered, seen);
    }
    drop(mem::replace(&mut gathered.before, Vec::new(news.alloc)));
}

/// Who is at a limit is to be told again.
fn forget_told(gathered: &mut Gathered, happened: &mut Happened, alloc: Global) {
    happened.are_many = false;
    drop(mem::replace(&mut gathered.full, Vec::new(alloc)));
    drop(mem::replace(&mut gathered.many_topics, Vec::new(alloc)));
}

/// Whether it is to be told again who is at a limit. From now on it was.
fn has_passed(now: u64, happened: &mut Happened) -> bool {
    let has_passed = now.saturating_sub(happened.again) > AN_HOUR;
    if has_passed {
        happened.again = now;
    }
    has_passed
}

/// What happened to a client.
#[derive(Clone, Copy)]
enum Fate {
    Full,
    Topics(u64),
    Connected,
    Lost,
    Taken(u8),
}

/// What is to be told of a client.
fn find_client(news: &mut News, settings: &Settings, gathered: &mut Gathered, seen: &Seen) {
    find_limits(news, seen, gathered);
    if settings.log >= DEBUG && gathered.has_before {
        let before = seen_in(gathered.before.as_slice(), &seen.glimpse.client);
        find_presence(news, settings.gateway, seen, before);
    }
}

/// Something is to be told of a client.
fn befall(news: &mut News, client: &ClientId, fate: Fate) {
    match client.copied(news.alloc) {
        Ok(client) => note(news, what_of(client, fate)),
        Err(_) => count_unless(&mut news.lost, false),
    }
}

/// What happened to a client, as an event.
fn what_of(client: ClientId, fate: Fate) -> What {
    match fate {
        Fate::Full => What::Warning(Warning::ClientFull { client }),
        Fate::Topics(topics) => What::Warning(Warning::TopicsNearFull { client, topics }),
        Fate::Connected => What::Detail(Detail::Connected { client }),
        Fate::Lost => What::Detail(Detail::Lost { client }),
        Fate::Taken(number) => What::Detail(Detail::TakenOver { client, number }),
    }
}

/// A client at a limit, unless that was told.
fn find_limits(news: &mut News, seen: &Seen, gathered: &mut Gathered) {
    let client = &seen.glimpse.client;
    let topics = topics_of(seen);
    let alloc = news.alloc;
    if seen.glimpse.waiting >= MAX_PENDING && is_new(alloc, &mut gathered.full, client) {
        befall(news, client, Fate::Full);
    }
    if topics >= MANY_TOPICS && is_new(alloc, &mut gathered.many_topics, client) {
        befall(news, client, Fate::Topics(topics as u64));
    }
}

/// Whether a client is not among those that were told, which are in the order of their ids. From
/// now on it is, unless memory runs out.
fn is_new(alloc: Global, told: &mut Vec<ClientId>, client: &ClientId) -> bool {
    let found = told.as_slice().binary_search_by(|one| one.cmp(client));
    match found {
        Ok(_) => false,
        Err(place) => {
            if let Ok(client) = client.copied(alloc) {
                let _ = told.insert(place, client);
            }
            true
        }
    }
}

/// How many topic ids a client has.
fn topics_of(seen: &Seen) -> usize {
    match seen.glimpse.session {
        None => 0,
        Some(session) => session.topics,
    }
}

/// A client that came, was lost, or went to another gateway.
fn find_presence(news: &mut News, gateway: u8, seen: &Seen, before: Option<&Seen>) {
    let (was, was_owned) = match before {
        None => (None, false),
        Some(before) => (presence_of(before), is_owned(gateway, &before.glimpse)),
    };
    let client = &seen.glimpse.client;
    let is_now = presence_of(seen);
    if is_same(is_now, Some(Presence::Active)) && !is_here(was) {
        befall(news, client, Fate::Connected);
    }
    if is_lost(is_now) && !is_lost(was) {
        befall(news, client, Fate::Lost);
    }
    if was_owned {
        find_taken(news, gateway, seen);
    }
}

/// A client that was owned, and may belong to another gateway now.
fn find_taken(news: &mut News, gateway: u8, seen: &Seen) {
    if let Some(stamp) = seen.glimpse.stamp {
        if stamp.gateway != gateway {
            befall(news, &seen.glimpse.client, Fate::Taken(stamp.gateway));
        }
    }
}

/// Whether a client was taken for lost.
fn is_lost(presence: Option<Presence>) -> bool {
    is_same(presence, Some(Presence::Lost))
}

/// Whether a client is connected, or asleep.
fn is_here(presence: Option<Presence>) -> bool {
    match presence {
        Some(Presence::Active | Presence::Asleep | Presence::Awake) => true,
        Some(Presence::Disconnected | Presence::Lost) | None => false,
    }
}
