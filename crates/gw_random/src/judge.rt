//! A run compared with the definitions.

use super::disk::{follow_fault, follow_restart, is_written, may_go_on};
use super::field::{Field, Played, added_at};
use super::moments::{is_late, moments_differ};
use super::row::follow_row;
use super::seat::{Seat, acknowledges, are_same, waits};
use gw_world::{Answer, Event, Out};
use octets::{NoMemory, Sequence};
use rep_model::{ClientView, Replica};
use rep_ops::{ClientId, Delta, Put, Retained};
use rep_same::same_deltas;
use sn_topic::TopicName;
use std::alloc::Global;

/// What differs.
#[derive(Clone, Copy, PartialEq, Eq)]
pub(crate) enum What {
    /// The run stops where it must not.
    Stopped,
    /// A delta contradicts what was taken, or is refused.
    Refused,
    /// A gateway does not show the views of its set.
    Views,
    /// What is retained is not what the set says.
    Retained,
    /// A write fails that was not to fail, or one does not that was.
    Disk,
    /// A gateway goes on after a write that failed, or refuses before one does.
    Halted,
    /// A journal has not the records that it must have.
    Records,
    /// A message that waited waits no more, and was not acknowledged.
    Vanished,
    /// A message has another moment than its step gives.
    Moment,
    /// A message is acknowledged before its moment.
    Early,
    /// A message waits on after its moment.
    Late,
    /// Gateways that exchanged what they have do not have the same.
    Sets,
    /// Gateways that have the same do not show the same.
    Apart,
}

/// Where a run differs from the definitions.
#[derive(Clone, Copy)]
pub(crate) struct Difference {
    /// The index of the event.
    pub(crate) at: usize,
    /// The gateway.
    pub(crate) gateway: u8,
    /// What differs.
    pub(crate) what: What,
}

impl What {
    /// What differs, in words.
    pub(crate) fn words(self) -> &'static str {
        match self {
            What::Stopped => "the run stops",
            What::Refused => "a delta is refused",
            What::Views => "what is shown is not what the set says",
            What::Retained => "what is retained is not what the set says",
            What::Disk => "a write fails that was not to fail, or one does not that was",
            What::Halted => "a gateway goes on after a failed write, or stops before one",
            What::Records => "a journal has not the records that it must have",
            What::Vanished => "a message waits no more that was not acknowledged",
            What::Moment => "a message has not the moment of its step",
            What::Early => "a message expires before its moment",
            What::Late => "a message waits on after its moment",
            What::Sets => "gateways have exchanged all and have not the same",
            What::Apart => "gateways have the same and do not show the same",
        }
    }
}

/// A run that is compared with the definitions.
#[derive(Clone, Copy)]
pub(crate) struct Run<'a> {
    /// The gateways.
    pub(crate) field: &'a Field,
    /// The events that were played.
    pub(crate) events: &'a [Event],
    /// What they answered.
    pub(crate) played: &'a Played,
}

/// A run, and the event up to which it is compared.
#[derive(Clone, Copy)]
pub(crate) struct Progress<'a> {
    /// The run.
    pub(crate) run: Run<'a>,
    /// The index of the event.
    pub(crate) at: usize,
    /// How many deltas are listed after it, or after the call of it that is compared.
    pub(crate) listed: u64,
}

/// The seats of a field's gateways.
#[derive(Drop)]
struct Seats {
    seats: Vec<Seat>,
    /// How many deltas there are.
    listed: u64,
}

/// Where a run differs, if it does. The events are those that were played.
pub(crate) fn judged<R: Replica>(
    alloc: Global,
    field: &Field,
    events: &[Event],
    played: &Played,
) -> Result<Option<Difference>, NoMemory> {
    let mut seats = Seats::empty(alloc, field.gateways)?;
    let run = Run {
        field,
        events,
        played,
    };
    let found = seats.judge::<R>(alloc, run);
    drop(seats);
    found
}

/// The delta of this number; the first has number 1.
pub(crate) fn delta_at(played: &Played, number: u64) -> Option<&Delta> {
    let index = usize::try_from(number.checked_sub(1)?).ok()?;
    played.deltas.as_slice().get(index)
}

/// The views of an answer.
pub(crate) fn views_at(played: &Played, at: usize) -> Option<&Sequence<(ClientId, ClientView)>> {
    match played.answers.as_slice().get(at)? {
        Answer::Views(views, _) => Some(views),
        Answer::Node(_) | Answer::Row(_) | Answer::Records(_) | Answer::Nothing => None,
    }
}

impl Seats {
    /// Gateways that have made and taken nothing.
    fn empty(alloc: Global, gateways: u8) -> Result<Seats, NoMemory> {
        let mut seats = Vec::new(alloc);
        for _ in 0..gateways {
            seats.push(Seat::empty(alloc)?)?;
        }
        Ok(Seats { seats, listed: 0 })
    }

    /// Where a run differs, while it goes on or at its end.
    fn judge<R: Replica>(
        &mut self,
        alloc: Global,
        run: Run<'_>,
    ) -> Result<Option<Difference>, NoMemory> {
        if let Some(difference) = self.follow_all::<R>(alloc, run)? {
            return Ok(Some(difference));
        }
        let at = run.events.len();
        let gateway = run.field.gateways;
        let settled = self.settled(alloc, run.played)?;
        Ok(settled.map(|what| Difference { at, gateway, what }))
    }

    /// Goes on by all events, up to the first after which something differs.
    fn follow_all<R: Replica>(
        &mut self,
        alloc: Global,
        run: Run<'_>,
    ) -> Result<Option<Difference>, NoMemory> {
        for (at, event) in run.events.iter().enumerate() {
            if let Some(what) = self.follow::<R>(alloc, run, at, event)? {
                let gateway = event.gateway();
                return Ok(Some(Difference { at, gateway, what }));
            }
        }
        Ok(None)
    }

    /// Goes on by one event. What differs, if something does.
    fn follow<R: Replica>(
        &mut self,
        alloc: Global,
        run: Run<'_>,
        at: usize,
        event: &Event,
    ) -> Result<Option<What>, NoMemory> {
        let count = added_at(run.played.answers.as_slice(), at);
        let listed = self.listed.saturating_add(count);
        self.listed = listed;
        let place = usize::from(event.gateway().saturating_sub(1));
        match self.seats.get_mut(place) {
            Some(seat) => follow_at::<R>(alloc, Progress { run, at, listed }, seat, event),
            None => Ok(Some(What::Stopped)),
        }
    }

    /// What differs between gateways that have exchanged all, if something does.
    fn settled(&self, alloc: Global, played: &Played) -> Result<Option<What>, NoMemory> {
        let Some((first, rest)) = self.seats.as_slice().split_first() else {
            return Ok(None);
        };
        let held = held_of(alloc, first)?;
        settled_with(alloc, played, first, held.as_slice(), rest)
    }
}

/// What differs between a gateway, which holds these deltas, and others, if something does.
fn settled_with(
    alloc: Global,
    played: &Played,
    first: &Seat,
    held: &[Delta],
    rest: &[Seat],
) -> Result<Option<What>, NoMemory> {
    for seat in rest {
        if !holds(alloc, seat, held)? {
            return Ok(Some(What::Sets));
        }
        if !show_same(played, first, seat) {
            return Ok(Some(What::Apart));
        }
    }
    Ok(None)
}

/// Whether these deltas are what must be kept of a gateway's set.
fn holds(alloc: Global, seat: &Seat, held: &[Delta]) -> Result<bool, NoMemory> {
    let own = held_of(alloc, seat)?;
    Ok(same_deltas(held, own.as_slice()))
}

/// What must be kept of a gateway's set.
pub(crate) fn held_of(alloc: Global, seat: &Seat) -> Result<Vec<Delta>, NoMemory> {
    match seat.plain.held(alloc) {
        Ok(held) => Ok(held),
        Err(_) => Err(NoMemory),
    }
}

/// Whether two gateways showed the same last, where both were shown.
fn show_same(played: &Played, one: &Seat, other: &Seat) -> bool {
    let (Some(one), Some(other)) = (one.shown, other.shown) else {
        return true;
    };
    match (views_at(played, one), views_at(played, other)) {
        (Some(one), Some(other)) => are_same(one.as_slice(), other.as_slice()),
        _ => true,
    }
}

/// A gateway answered to the event up to which the run is compared. What differs, if something does.
fn follow_at<R: Replica>(
    alloc: Global,
    progress: Progress<'_>,
    seat: &mut Seat,
    event: &Event,
) -> Result<Option<What>, NoMemory> {
    let run = progress.run;
    let at = progress.at;
    let Some(answer) = run.played.answers.as_slice().get(at) else {
        return Ok(None);
    };
    match answer {
        Answer::Node(Ok(out)) => {
            follow_out(alloc, seat, run.played, progress.listed, event, out)
        }
        Answer::Node(Err(fault)) => follow_fault::<R>(alloc, progress, seat, 0, event, fault),
        Answer::Views(views, topics) => {
            let (views, topics) = (views.as_slice(), topics.as_slice());
            Ok(follow_shown(run.events, seat, run.played, at, views, topics))
        }
        Answer::Row(answers) => {
            follow_row::<R>(alloc, progress, seat, event, answers.as_slice())
        }
        Answer::Records(told) => follow_restart(alloc, seat, event, *told),
        Answer::Nothing => Ok(arranged(seat, at, event)),
    }
}

/// The number of the delta that an event made or took. So many deltas are listed then.
fn number_of(listed: u64, event: &Event, out: &Out) -> Option<u64> {
    match event {
        Event::Take { delta, .. } => Some(*delta),
        _ => {
            if out.made.is_some() {
                Some(listed)
            } else {
                None
            }
        }
    }
}

/// A gateway did what it was to do.
pub(crate) fn follow_out(
    alloc: Global,
    seat: &mut Seat,
    played: &Played,
    listed: u64,
    event: &Event,
    out: &Out,
) -> Result<Option<What>, NoMemory> {
    if !may_go_on(seat, event) {
        return Ok(Some(What::Halted));
    }
    match number_of(listed, event, out) {
        Some(number) => {
            seat.latest.push(number)?;
            let delta = delta_at(played, number);
            follow_delta(alloc, seat, played, event, out, delta)
        }
        None => is_written(alloc, seat, event, None),
    }
}

/// A gateway made or took this delta.
fn follow_delta(
    alloc: Global,
    seat: &mut Seat,
    played: &Played,
    event: &Event,
    out: &Out,
    delta: Option<&Delta>,
) -> Result<Option<What>, NoMemory> {
    let Some(delta) = delta else {
        return Ok(Some(What::Stopped));
    };
    if let Some(what) = moments_differ(seat, played, event, out, delta) {
        return Ok(Some(what));
    }
    if seat.take(alloc, delta)? {
        is_written(alloc, seat, event, Some(delta))
    } else {
        Ok(Some(What::Refused))
    }
}

/// A failure is arranged.
fn arranged(seat: &mut Seat, at: usize, event: &Event) -> Option<What> {
    match event {
        Event::WriteFails { bytes, sync, .. } => {
            seat.drive.arrange(at, *bytes, *sync);
            None
        }
        _ => Some(What::Stopped),
    }
}

/// Whether a message waits no more, and what the gateway has since does not acknowledge it.
fn vanished(seat: &Seat, played: &Played, views: &[(ClientId, ClientView)]) -> bool {
    let Some(shown) = seat.shown else {
        return false;
    };
    let Some(before) = views_at(played, shown) else {
        return false;
    };
    for (client, view) in before.as_slice() {
        if has_vanished(seat, played, client, view, views) {
            return true;
        }
    }
    false
}

/// Whether a message waits no more that waited for this client, and what the gateway has since does
/// not acknowledge it.
fn has_vanished(
    seat: &Seat,
    played: &Played,
    client: &ClientId,
    before: &ClientView,
    views: &[(ClientId, ClientView)],
) -> bool {
    for put in before.pending.as_slice() {
        if !waits(views, client, put) && !is_acknowledged(seat, played, client, put) {
            return true;
        }
    }
    false
}

/// Whether what the gateway has made, taken or found since it was shown acknowledges a message.
fn is_acknowledged(seat: &Seat, played: &Played, client: &ClientId, put: &Put) -> bool {
    for number in seat.latest.as_slice() {
        if acknowledges(delta_at(played, *number), client, put) {
            return true;
        }
    }
    is_acknowledged_by(seat.joined.as_slice(), client, put)
}

/// Whether one of these deltas acknowledges a message.
fn is_acknowledged_by(deltas: &[Delta], client: &ClientId, put: &Put) -> bool {
    for delta in deltas {
        if acknowledges(Some(delta), client, put) {
            return true;
        }
    }
    false
}

/// A gateway is shown, with what it retains of topics.
fn follow_shown(
    events: &[Event],
    seat: &mut Seat,
    played: &Played,
    at: usize,
    views: &[(ClientId, ClientView)],
    topics: &[(TopicName, Retained)],
) -> Option<What> {
    if !seat.retains(topics) {
        return Some(What::Retained);
    }
    if is_late(events, played, at, views) {
        return Some(What::Late);
    }
    follow_views(seat, played, at, views)
}

/// A gateway is shown.
fn follow_views(
    seat: &mut Seat,
    played: &Played,
    at: usize,
    views: &[(ClientId, ClientView)],
) -> Option<What> {
    if vanished(seat, played, views) {
        return Some(What::Vanished);
    }
    seat.shown = Some(at);
    seat.latest.clear();
    seat.joined.clear();
    if seat.shows(views) {
        None
    } else {
        Some(What::Views)
    }
}
