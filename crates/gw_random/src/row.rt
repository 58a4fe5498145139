//! Calls that come to a gateway together: each as an event by itself, and what they come to.

use super::disk::{append_delta, follow_fault};
use super::field::{Played, has_made, made_by_row};
use super::judge::{Progress, What, delta_at, follow_out};
use super::seat::Seat;
use gw_world::{Answer, Call, Event, NodeFault, Out};
use octets::NoMemory;
use rep_model::Replica;
use rep_ops::Delta;
use std::alloc::Global;
use std::sync::Arc;

/// A call of several as an event by itself.
pub(crate) fn by_itself(alloc: Global, gateway: u8, call: &Call) -> Result<Event, NoMemory> {
    match call {
        Call::Frame { from, bytes, now } => Ok(Event::Frame {
            gateway,
            from: *from,
            bytes: bytes.copied(alloc)?,
            now: *now,
        }),
        Call::Tick { now } => Ok(Event::Tick { gateway, now: *now }),
        Call::Take { delta } => Ok(Event::Take {
            gateway,
            delta: *delta,
        }),
    }
}

/// The event as a call of several, if it is one.
pub(crate) fn as_call(event: Event) -> Option<Call> {
    match event {
        Event::Frame {
            gateway: _,
            from,
            bytes,
            now,
        } => Some(Call::Frame { from, bytes, now }),
        Event::Tick { gateway: _, now } => Some(Call::Tick { now }),
        Event::Take { gateway: _, delta } => Some(Call::Take { delta }),
        other => {
            drop(other);
            None
        }
    }
}

/// The calls of an event that come together; none where it is another event.
pub(crate) fn calls_of(event: &Event) -> &[Call] {
    match event {
        Event::Together { calls, .. } => calls.as_slice(),
        _ => &[],
    }
}

/// A gateway answered to calls that came together. What differs, if something does.
pub(crate) fn follow_row<R: Replica>(
    alloc: Global,
    progress: Progress<'_>,
    seat: &mut Seat,
    event: &Event,
    answers: &[Result<Arc<Out>, NodeFault>],
) -> Result<Option<What>, NoMemory> {
    let calls = calls_of(event);
    if calls.len() != answers.len() {
        return Ok(Some(What::Stopped));
    }
    let run = progress.run;
    let at = progress.at;
    let mut listed = progress.listed.saturating_sub(made_by_row(answers));
    for place in 0..calls.len() {
        if has_made(&answers[place]) {
            listed = listed.saturating_add(1);
        }
        let own = by_itself(alloc, event.gateway(), &calls[place])?;
        let after = Progress { run, at, listed };
        let found = follow_call::<R>(alloc, after, seat, place, &own, &answers[place]);
        drop(own);
        if let Some(what) = found? {
            return Ok(Some(what));
        }
    }
    Ok(None)
}

/// A gateway answered to the call in this place. What differs, if something does.
fn follow_call<R: Replica>(
    alloc: Global,
    progress: Progress<'_>,
    seat: &mut Seat,
    place: usize,
    own: &Event,
    answer: &Result<Arc<Out>, NodeFault>,
) -> Result<Option<What>, NoMemory> {
    match answer {
        Ok(out) => follow_out(alloc, seat, progress.run.played, progress.listed, own, out),
        Err(fault) => follow_fault::<R>(alloc, progress, seat, place, own, fault),
    }
}

/// Appends what an event with this answer puts into the journal, from the call in this place on;
/// nothing where that call puts nothing there.
pub(crate) fn append_put(
    alloc: Global,
    deltas: &mut Vec<Delta>,
    played: &Played,
    event: &Event,
    answer: &Answer,
    place: usize,
) -> Result<(), NoMemory> {
    match (event, answer) {
        (Event::Take { delta, .. }, Answer::Node(Ok(_))) => {
            append_delta(alloc, deltas, delta_at(played, *delta))
        }
        (_, Answer::Node(Ok(out))) => append_delta(alloc, deltas, out.made.as_ref()),
        (_, Answer::Row(answers)) => {
            append_row(
                alloc,
                deltas,
                played,
                calls_of(event),
                answers.as_slice(),
                place,
            )
        }
        _ => Ok(()),
    }
}

/// Appends what calls with these answers put into the journal, from the one in this place on.
fn append_row(
    alloc: Global,
    deltas: &mut Vec<Delta>,
    played: &Played,
    calls: &[Call],
    answers: &[Result<Arc<Out>, NodeFault>],
    place: usize,
) -> Result<(), NoMemory> {
    for (index, call) in calls.iter().enumerate() {
        if index > place && deltas.is_empty() {
            return Ok(());
        }
        match answers.get(index) {
            Some(answer) if index >= place => append_by(alloc, deltas, played, call, answer)?,
            _ => {}
        }
    }
    Ok(())
}

/// Appends what a call with this answer puts into the journal.
fn append_by(
    alloc: Global,
    deltas: &mut Vec<Delta>,
    played: &Played,
    call: &Call,
    answer: &Result<Arc<Out>, NodeFault>,
) -> Result<(), NoMemory> {
    let Ok(out) = answer else {
        return Ok(());
    };
    match call {
        Call::Take { delta } => append_delta(alloc, deltas, delta_at(played, *delta)),
        Call::Frame { .. } | Call::Tick { .. } => append_delta(alloc, deltas, out.made.as_ref()),
    }
}
