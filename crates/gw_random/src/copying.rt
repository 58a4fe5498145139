//! Equal events, and events with what each leaves shown.

use gw_world::{Call, Event};
use octets::{NoMemory, Octets, Sequence};
use sn_local::Addr;
use std::alloc::Global;

/// An equal event.
fn copy_event(alloc: Global, event: &Event) -> Result<Event, NoMemory> {
    match event {
        Event::Frame {
            gateway,
            from,
            bytes,
            now,
        } => copy_frame(alloc, *gateway, *from, bytes, *now),
        Event::Tick { gateway, now } => Ok(Event::Tick {
            gateway: *gateway,
            now: *now,
        }),
        Event::Take { gateway, delta } => Ok(Event::Take {
            gateway: *gateway,
            delta: *delta,
        }),
        Event::Together { gateway, calls } => copy_row(alloc, *gateway, calls.as_slice()),
        Event::Answer { gateway, peer } => Ok(Event::Answer {
            gateway: *gateway,
            peer: *peer,
        }),
        Event::WriteFails {
            gateway,
            bytes,
            sync,
        } => Ok(Event::WriteFails {
            gateway: *gateway,
            bytes: *bytes,
            sync: *sync,
        }),
        Event::Compact { gateway } => Ok(Event::Compact { gateway: *gateway }),
        Event::Restart { gateway, keep } => Ok(Event::Restart {
            gateway: *gateway,
            keep: *keep,
        }),
        Event::Show { gateway } => Ok(Event::Show { gateway: *gateway }),
    }
}

/// An equal call.
pub(crate) fn copy_call(alloc: Global, call: &Call) -> Result<Call, NoMemory> {
    match call {
        Call::Frame { from, bytes, now } => Ok(Call::Frame {
            from: *from,
            bytes: bytes.copied(alloc)?,
            now: *now,
        }),
        Call::Tick { now } => Ok(Call::Tick { now: *now }),
        Call::Take { delta } => Ok(Call::Take { delta: *delta }),
    }
}

/// Equal calls that come together.
fn copy_row(alloc: Global, gateway: u8, calls: &[Call]) -> Result<Event, NoMemory> {
    let mut made = Sequence::empty(alloc);
    for call in calls {
        made.push(copy_call(alloc, call)?)?;
    }
    Ok(Event::Together {
        gateway,
        calls: made,
    })
}

/// A datagram with equal octets.
fn copy_frame(
    alloc: Global,
    gateway: u8,
    from: Addr,
    bytes: &Octets,
    now: u64,
) -> Result<Event, NoMemory> {
    Ok(Event::Frame {
        gateway,
        from,
        bytes: bytes.copied(alloc)?,
        now,
    })
}

/// Appends equal events.
pub(crate) fn append_copies(
    alloc: Global,
    made: &mut Vec<Event>,
    events: &[Event],
) -> Result<(), NoMemory> {
    for event in events {
        append_copy(alloc, made, event)?;
    }
    Ok(())
}

/// Appends an equal event.
pub(crate) fn append_copy(
    alloc: Global,
    made: &mut Vec<Event>,
    event: &Event,
) -> Result<(), NoMemory> {
    append(made, copy_event(alloc, event)?)
}

/// Appends an event.
pub(crate) fn append(made: &mut Vec<Event>, event: Event) -> Result<(), NoMemory> {
    made.push(event)?;
    Ok(())
}

/// Appends that a gateway is shown.
pub(crate) fn append_show(made: &mut Vec<Event>, gateway: u8) -> Result<(), NoMemory> {
    append(made, Event::Show { gateway })
}

/// The events, each with what its gateways show after it.
pub(crate) fn with_shows(alloc: Global, events: &[Event]) -> Result<Vec<Event>, NoMemory> {
    let mut made = Vec::new(alloc);
    for event in events {
        append_shown(alloc, &mut made, event)?;
    }
    Ok(made)
}

/// Appends an equal event, and what its gateways show after it.
fn append_shown(alloc: Global, made: &mut Vec<Event>, event: &Event) -> Result<(), NoMemory> {
    append_copy(alloc, made, event)?;
    append_show(made, event.gateway())?;
    match event.peer() {
        Some(peer) => append_show(made, peer),
        None => Ok(()),
    }
}
