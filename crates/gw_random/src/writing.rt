//! Events as lines that the simulator reads.

use gw_world::{Call, Event};
use std::alloc::{AllocError, Global};

/// A topic that each gateway has a predefined id of.
pub(crate) const PREDEFINED: &[u8] = b"far/off";

/// Its id.
pub(crate) const PREDEFINED_ID: u16 = 700;

/// For how many seconds messages wait that a gateway of this number makes; 0 for no such time.
pub(crate) fn lifetime_of(gateway: u8) -> u32 {
    match gateway % 3 {
        1 => 30,
        2 => 4,
        _ => 0,
    }
}

/// The lines of a script: so many gateways, and then these events.
pub(crate) fn script(alloc: Global, gateways: u8, events: &[Event]) -> Result<String, AllocError> {
    let mut text = String::new(alloc);
    for number in 1..=gateways {
        gateway_lines(alloc, &mut text, number)?;
    }
    for event in events {
        event_line(alloc, &mut text, event)?;
    }
    Ok(text)
}

/// The lines of a gateway, of its lifetime and of its predefined topic id.
fn gateway_lines(alloc: Global, text: &mut String, number: u8) -> Result<(), AllocError> {
    let id = PREDEFINED_ID;
    let lifetime = lifetime_of(number);
    plain_line(text, "gateway", number)?;
    writeln!(text, "lifetime {number} {lifetime}")?;
    write!(text, "predefine {number} {id} ")?;
    digits_line(alloc, text, PREDEFINED)
}

/// The line of an event.
fn event_line(alloc: Global, text: &mut String, event: &Event) -> Result<(), AllocError> {
    match event {
        Event::Frame {
            gateway,
            from,
            bytes,
            now,
        } => frame_line(alloc, text, *gateway, from.port, *now, bytes.as_slice()),
        Event::Tick { gateway, now } => numbered_line(text, "tick", *gateway, *now),
        Event::Take { gateway, delta } => numbered_line(text, "take", *gateway, *delta),
        Event::Together { gateway, calls } => row_lines(alloc, text, *gateway, calls.as_slice()),
        other => further_line(text, other),
    }
}

/// The line of calls that come together, and a line for each of them.
fn row_lines(
    alloc: Global,
    text: &mut String,
    gateway: u8,
    calls: &[Call],
) -> Result<(), AllocError> {
    numbered_line(text, "together", gateway, calls.len() as u64)?;
    for call in calls {
        call_line(alloc, text, gateway, call)?;
    }
    Ok(())
}

/// The line of a call that comes together with others.
fn call_line(alloc: Global, text: &mut String, gateway: u8, call: &Call) -> Result<(), AllocError> {
    match call {
        Call::Frame { from, bytes, now } => {
            frame_line(alloc, text, gateway, from.port, *now, bytes.as_slice())
        }
        Call::Tick { now } => numbered_line(text, "tick", gateway, *now),
        Call::Take { delta } => numbered_line(text, "take", gateway, *delta),
    }
}

/// The line of an event that is no datagram, no moment and no delta, nor several.
fn further_line(text: &mut String, event: &Event) -> Result<(), AllocError> {
    match event {
        Event::WriteFails {
            gateway,
            bytes,
            sync,
        } => fail_line(text, *gateway, *bytes, *sync),
        Event::Restart { gateway, keep } => restart_line(text, *gateway, *keep),
        Event::Answer { gateway, peer } => {
            numbered_line(text, "answer", *gateway, u64::from(*peer))
        }
        Event::Compact { gateway } => plain_line(text, "compact", *gateway),
        _ => plain_line(text, "show", event.gateway()),
    }
}

/// A line of a word, a gateway and a number.
fn numbered_line(
    text: &mut String,
    word: &str,
    gateway: u8,
    number: u64,
) -> Result<(), AllocError> {
    writeln!(text, "{word} {gateway} {number}")
}

/// A line of a word and a gateway.
fn plain_line(text: &mut String, word: &str, gateway: u8) -> Result<(), AllocError> {
    writeln!(text, "{word} {gateway}")
}

/// The line of a datagram.
fn frame_line(
    alloc: Global,
    text: &mut String,
    gateway: u8,
    port: u16,
    now: u64,
    bytes: &[u8],
) -> Result<(), AllocError> {
    write!(text, "frame {gateway} {port} {now} ")?;
    digits_line(alloc, text, bytes)
}

/// The digits of octets, or a hyphen for none, up to the line's end.
fn digits_line(alloc: Global, text: &mut String, bytes: &[u8]) -> Result<(), AllocError> {
    if bytes.is_empty() {
        return text.push_str("-\n");
    }
    let digits = hex::encode(alloc, bytes)?;
    writeln!(text, "{digits}")
}

/// The line of a write that is to fail.
fn fail_line(text: &mut String, gateway: u8, bytes: u64, sync: bool) -> Result<(), AllocError> {
    if sync {
        writeln!(text, "fail {gateway} sync")
    } else {
        numbered_line(text, "fail", gateway, bytes)
    }
}

/// The line of a gateway that is opened again.
fn restart_line(text: &mut String, gateway: u8, keep: u64) -> Result<(), AllocError> {
    if keep == u64::MAX {
        writeln!(text, "restart {gateway} all")
    } else {
        numbered_line(text, "restart", gateway, keep)
    }
}
