//! At the end gateways exchange what they have.

use super::copying::{append, append_copies};
use super::field::{Field, added_at};
use gw_world::{Answer, Event};
use octets::NoMemory;
use rep_model::Replica;
use std::alloc::Global;

/// The events, and after them an exchange: each gateway is opened again, asks each other, and
/// takes what is answered. Nothing where the events cannot be played.
pub(crate) fn with_exchange<R: Replica>(
    alloc: Global,
    field: &Field,
    events: &[Event],
) -> Result<Option<Vec<Event>>, NoMemory> {
    let mut all = with_questions(alloc, field, events)?;
    let Some(takes) = answered::<R>(alloc, field, all.as_slice(), events.len())? else {
        return Ok(None);
    };
    append_copies(alloc, &mut all, takes.as_slice())?;
    Ok(Some(all))
}

/// The events, and after them each gateway is opened again, and asks each other.
fn with_questions(alloc: Global, field: &Field, events: &[Event]) -> Result<Vec<Event>, NoMemory> {
    let mut all = Vec::new(alloc);
    append_copies(alloc, &mut all, events)?;
    append_restarts(&mut all, field.gateways, events)?;
    append_questions(&mut all, field.gateways)?;
    Ok(all)
}

/// What gateways take once these events are played, of which the last, from this index on, are
/// their questions. Nothing where they cannot be played.
fn answered<R: Replica>(
    alloc: Global,
    field: &Field,
    events: &[Event],
    from: usize,
) -> Result<Option<Vec<Event>>, NoMemory> {
    let Some(played) = field.play::<R>(alloc, events)? else {
        return Ok(None);
    };
    let takes = takes(alloc, events, played.answers.as_slice(), from);
    drop(played);
    Ok(Some(takes?))
}

/// Each gateway is opened again. Where failures were arranged for it, none is left.
fn append_restarts(all: &mut Vec<Event>, gateways: u8, events: &[Event]) -> Result<(), NoMemory> {
    for gateway in 1..=gateways {
        let fails = events.iter().any(|event| is_failure(event, gateway));
        append_restart(all, gateway, fails)?;
    }
    Ok(())
}

/// A gateway is opened again; twice where failures were arranged for it.
fn append_restart(all: &mut Vec<Event>, gateway: u8, fails: bool) -> Result<(), NoMemory> {
    let keep = u64::MAX;
    append(all, Event::Restart { gateway, keep })?;
    if fails {
        append(all, Event::Compact { gateway })?;
        append(all, Event::Restart { gateway, keep })?;
    }
    Ok(())
}

/// Whether an event arranges a failure for this gateway.
fn is_failure(event: &Event, number: u8) -> bool {
    match event {
        Event::WriteFails { gateway, .. } => *gateway == number,
        _ => false,
    }
}

/// Each gateway asks each other.
fn append_questions(all: &mut Vec<Event>, gateways: u8) -> Result<(), NoMemory> {
    for gateway in 1..=gateways {
        for peer in 1..=gateways {
            if gateway != peer {
                all.push(Event::Answer { gateway, peer })?;
            }
        }
    }
    Ok(())
}

/// Each gateway takes what its questions from this index on were answered.
fn takes(
    alloc: Global,
    events: &[Event],
    answers: &[Answer],
    from: usize,
) -> Result<Vec<Event>, NoMemory> {
    let mut takes = Vec::new(alloc);
    match append_answered(&mut takes, events, answers, from) {
        Ok(()) => Ok(takes),
        Err(fault) => {
            drop(takes);
            Err(fault)
        }
    }
}

/// Appends what gateways take that the events from this index on were answered.
fn append_answered(
    takes: &mut Vec<Event>,
    events: &[Event],
    answers: &[Answer],
    from: usize,
) -> Result<(), NoMemory> {
    let mut listed = 0u64;
    for (index, event) in events.iter().enumerate() {
        let count = added_at(answers, index);
        if index >= from {
            append_takes(takes, event.gateway(), listed, count)?;
        }
        listed = listed.saturating_add(count);
    }
    Ok(())
}

/// A gateway takes so many deltas of the list after these.
fn append_takes(
    takes: &mut Vec<Event>,
    gateway: u8,
    listed: u64,
    count: u64,
) -> Result<(), NoMemory> {
    for index in 1..=count {
        let delta = listed.saturating_add(index);
        takes.push(Event::Take { gateway, delta })?;
    }
    Ok(())
}
