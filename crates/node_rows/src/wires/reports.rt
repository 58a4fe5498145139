//! A report that is made up: its numbers count up, and each label and each event is there once.

use crate::page::Page;
use crate::stop::Stop;
use crate::words::Words;
use gw_report::{
    Alarm, CallAnswer, CallKind, DeltaFault, Detail, Event, First, Glimpse, Health, Label, Link,
    LocalGlimpse, Note, Numbers, Place, Report, Sample, Seen, SessionGlimpse, Singles, Warning,
    What,
};
use octets::Sequence;
use rep_op::{ClientId, OpsFault, Stamp};
use sn_frame::MsgType;
use sn_local::Addr;
use sn_session::{Phase, Presence};
use std::alloc::Global;
use std::mem;

/// What a row says of its report.
#[derive(Drop)]
pub(crate) struct Sketch {
    /// The clients.
    clients: Vec<Seen>,
    /// Whether the gateway is halted, its clock late, and a write failed.
    is_ill: bool,
}

impl Sketch {
    /// Nobody is there, and all is well.
    pub(crate) fn new(alloc: Global) -> Sketch {
        Sketch {
            clients: Vec::new(alloc),
            is_ill: false,
        }
    }
}

/// `ill`: nothing is well.
pub(crate) fn be_ill(page: &mut Page, sketch: &mut Sketch, words: &mut Words) {
    if words.end(page) {
        sketch.is_ill = true;
    }
}

/// `client OCTETS`: a client that is asleep, of which all is known. `stranger OCTETS`: one of which
/// nothing is known but its id.
pub(crate) fn add_client(
    page: &mut Page,
    sketch: &mut Sketch,
    words: &mut Words,
    is_stranger: bool,
) {
    let octets = words.digits();
    if words.end(page) {
        match client_id(page, octets.as_slice()) {
            Some(client) if is_stranger => add_seen(page, sketch, unknown(client)),
            Some(client) => add_seen(page, sketch, known(client)),
            None => {}
        }
    }
    drop(octets);
}

/// One client more.
fn add_seen(page: &mut Page, sketch: &mut Sketch, seen: Seen) {
    let is_short = sketch.clients.push(seen).is_err();
    page.stop_if_short(is_short);
}

/// The client of this id.
fn client_id(page: &mut Page, octets: &[u8]) -> Option<ClientId> {
    match ClientId::new(page.alloc(), octets) {
        Ok(client) => Some(client),
        Err(fault) => {
            page.stop(stop_of(&fault));
            None
        }
    }
}

/// Why there is no such client.
fn stop_of(fault: &OpsFault) -> Stop {
    match fault {
        OpsFault::Memory => Stop::Memory,
        _ => Stop::Line,
    }
}

/// A client of which nothing is known but its id.
fn unknown(client: ClientId) -> Seen {
    Seen {
        glimpse: Glimpse {
            client,
            stamp: None,
            prefix: 0,
            session: None,
            waiting: 0,
            first: None,
            local: None,
        },
        silence: None,
        since: None,
    }
}

/// A client of which all is known.
fn known(client: ClientId) -> Seen {
    Seen {
        glimpse: Glimpse {
            client,
            stamp: Some(Stamp {
                epoch: 7,
                gateway: 2,
            }),
            prefix: 9,
            session: Some(asleep()),
            waiting: 12,
            first: Some(First { seq: 17, origin: 2 }),
            local: Some(at_home()),
        },
        silence: Some(4012),
        since: Some(812),
    }
}

/// A session of a client that is asleep.
fn asleep() -> SessionGlimpse {
    SessionGlimpse {
        presence: Presence::Asleep,
        clean: false,
        duration: 600,
        topics: 3,
        subscriptions: 1,
        received: 2,
        exchange: Some(Phase::Published),
    }
}

/// A client at 10.0.0.7, port 4410.
fn at_home() -> LocalGlimpse {
    LocalGlimpse {
        address: Addr {
            host: 167772167,
            port: 4410,
        },
        heard: 5,
        tries: 2,
    }
}

/// The report that a row says, whose clients go with it.
pub(crate) fn report_of(page: &mut Page, sketch: &mut Sketch) -> Report {
    let clients = mem::replace(&mut sketch.clients, Vec::new(page.alloc()));
    let mut report = blank(page.alloc(), Sequence::new(clients), sketch.is_ill);
    add_numbers(page, &mut report.numbers);
    add_links(page, &mut report.numbers);
    add_events(page, &mut report.events);
    report
}

/// A report without a number that has a label, and without an event.
fn blank(alloc: Global, clients: Sequence<Seen>, is_ill: bool) -> Report {
    Report {
        numbers: numbers(alloc),
        clients,
        events: Sequence::empty(alloc),
        health: Health {
            is_late: is_ill,
            is_halted: is_ill,
            has_failed: is_ill,
        },
    }
}

/// Numbers that count up.
fn singles() -> Singles {
    Singles {
        up_seconds: 1,
        shift: 2,
        shift_calls: 3,
        datagrams_received: 4,
        datagrams_dropped: 5,
        datagrams_unsent: 27,
        turn_seconds: 6,
        turn_seconds_max: 7,
        compaction_seconds: 8,
        compaction_seconds_max: 9,
        halted: 10,
        tick_age_seconds: 11,
        tick_seconds_max: 12,
        stood_still_seconds: 13,
        links_turned_away: 14,
        clients_owned: 15,
        clients_bound: 16,
        waiting_messages: 17,
        waiting_most: 18,
        clients_near_full: 19,
        clients_full: 20,
        topics_near_full: 21,
        stuck_seconds_most: 22,
        set_mark: 18446744073709551615,
        events_lost: 24,
        resident_memory: 25,
        start_time: 26,
    }
}

/// Those, and none that has a label.
fn numbers(alloc: Global) -> Numbers {
    Numbers {
        singles: singles(),
        frames_received: Sequence::empty(alloc),
        datagrams_sent: Sequence::empty(alloc),
        calls: Sequence::empty(alloc),
        compactions: Sequence::empty(alloc),
        reopenings: Sequence::empty(alloc),
        clients: Sequence::empty(alloc),
        journal_octets: Sequence::empty(alloc),
        links: Sequence::empty(alloc),
        link_refused: Sequence::empty(alloc),
        messages_known: Sequence::empty(alloc),
    }
}

/// Some labels of each name, two at most.
fn add_numbers(page: &mut Page, numbers: &mut Numbers) {
    let frame = Label::Frame(MsgType::Connect);
    let done = Label::Call(CallKind::Frame, CallAnswer::Done);
    let refused = Label::Call(CallKind::Take, CallAnswer::Conflict);
    let asleep = Label::Presence(Presence::Asleep);
    let reply = Label::Frame(MsgType::PingResp);
    add_two(page, &mut numbers.frames_received, frame, Label::OtherFrame);
    add_one(page, &mut numbers.datagrams_sent, reply, 40);
    add_two(page, &mut numbers.calls, done, refused);
    add_two(page, &mut numbers.compactions, Label::Done, Label::Failed);
    add_two(
        page,
        &mut numbers.reopenings,
        Label::InPlace,
        Label::BetweenShifts,
    );
    add_two(page, &mut numbers.clients, asleep, Label::NoSession);
    add_two(
        page,
        &mut numbers.journal_octets,
        Label::FirstSlot,
        Label::SecondSlot,
    );
    add_two(
        page,
        &mut numbers.messages_known,
        Label::Origin(1),
        Label::Origin(255),
    );
}

/// The numbers of these two labels, counting up.
fn add_two(page: &mut Page, samples: &mut Sequence<Sample>, first: Label, second: Label) {
    add_one(page, samples, first, 40);
    add_one(page, samples, second, 41);
}

/// The number of this label.
fn add_one(page: &mut Page, samples: &mut Sequence<Sample>, label: Label, value: u64) {
    let is_short = samples.push(Sample { label, value }).is_err();
    page.stop_if_short(is_short);
}

/// Two places of links, and two kinds of refused deltas.
fn add_links(page: &mut Page, numbers: &mut Numbers) {
    let (dialled, accepted) = (Place::Dialled(0), Place::Accepted(7));
    add_link(page, &mut numbers.links, link(dialled, 1));
    add_link(page, &mut numbers.links, link(accepted, 0));
    let conflict = Label::Fault(dialled, DeltaFault::Conflict);
    let other = Label::Fault(accepted, DeltaFault::Other);
    add_two(page, &mut numbers.link_refused, conflict, other);
}

/// One place of a link more.
fn add_link(page: &mut Page, links: &mut Sequence<Link>, link: Link) {
    let is_short = links.push(link).is_err();
    page.stop_if_short(is_short);
}

/// A place of a link.
fn link(place: Place, up: u64) -> Link {
    Link {
        place,
        up,
        number: 2,
        since_seconds: 3,
        heard_seconds: 4,
        waiting_octets: 5,
        told: 6,
        taken: 7,
        answer_operations: 8,
        received_octets: 9,
        sent_octets: 10,
        dials_failed: 11,
    }
}

/// Each event once.
fn add_events(page: &mut Page, events: &mut Sequence<Event>) {
    add_alarms(page, events);
    add_warnings(page, events);
    add_counts(page, events);
    add_notes(page, events);
    add_details(page, events);
}

/// One event more.
fn add(page: &mut Page, events: &mut Sequence<Event>, what: What) {
    let is_short = events.push(Event { moment: 5, what }).is_err();
    page.stop_if_short(is_short);
}

/// One warning more.
fn warn(page: &mut Page, events: &mut Sequence<Event>, warning: Warning) {
    add(page, events, What::Warning(warning));
}

/// What happens to a client.
#[derive(Clone, Copy)]
enum Fate {
    Full,
    Topics,
    Connected,
    Lost,
    Taken,
}

/// One event more, of the client `s"1`.
fn befall(page: &mut Page, events: &mut Sequence<Event>, fate: Fate) {
    match client_id(page, b"s\"1") {
        Some(client) => add(page, events, what_of(client, fate)),
        None => {}
    }
}

/// The event of a client.
fn what_of(client: ClientId, fate: Fate) -> What {
    match fate {
        Fate::Full => What::Warning(Warning::ClientFull { client }),
        Fate::Topics => What::Warning(Warning::TopicsNearFull {
            client,
            topics: 240,
        }),
        Fate::Connected => What::Detail(Detail::Connected { client }),
        Fate::Lost => What::Detail(Detail::Lost { client }),
        Fate::Taken => What::Detail(Detail::TakenOver { client, number: 3 }),
    }
}

/// Events on which somebody must act.
fn add_alarms(page: &mut Page, events: &mut Sequence<Event>) {
    let (number, times) = (2, 3);
    add(
        page,
        events,
        What::Alarm(Alarm::SameNumber { number, times }),
    );
    add(page, events, What::Alarm(Alarm::Conflict { number, times }));
    add(page, events, What::Alarm(Alarm::Twice { number, times }));
    add(page, events, What::Alarm(Alarm::Halted));
}

/// Events at which somebody should look.
fn add_warnings(page: &mut Page, events: &mut Sequence<Event>) {
    befall(page, events, Fate::Full);
    befall(page, events, Fate::Topics);
    warn(page, events, Warning::ClientsNearFull { clients: 768 });
    warn(page, events, Warning::Reopened);
    warn(page, events, Warning::NotCompacted);
}

/// Warnings of links, of datagrams and of the clock.
fn add_counts(page: &mut Page, events: &mut Sequence<Event>) {
    let (number, times) = (2, 3);
    warn(page, events, Warning::Stranger { number, times });
    warn(page, events, Warning::DeltaFull { number, times });
    warn(page, events, Warning::TurnedAway { times });
    warn(page, events, Warning::LinkLost { number });
    warn(page, events, Warning::Dropped { times });
    warn(page, events, Warning::NothingSent);
    warn(page, events, Warning::StoodStill { seconds: 5 });
}

/// Events of a field as it should be.
fn add_notes(page: &mut Page, events: &mut Sequence<Event>) {
    add(page, events, What::Note(Note::LinkMade { number: 2 }));
    let closed = Note::ShiftClosed {
        shift: 2,
        calls: 4096,
        thousandths: 1500,
    };
    add(page, events, What::Note(closed));
}

/// Events of single clients.
fn add_details(page: &mut Page, events: &mut Sequence<Event>) {
    befall(page, events, Fate::Connected);
    befall(page, events, Fate::Lost);
    befall(page, events, Fate::Taken);
}
