//! Moments from which on messages need not wait, in a run.

use super::field::Played;
use super::judge::{What, views_at};
use super::row::calls_of;
use super::seat::{Seat, acknowledges};
use super::writing::lifetime_of;
use gw_world::{Answer, Call, Event, NodeFault, Out};
use rep_model::ClientView;
use rep_ops::{ClientId, Delta, Op, Put};
use std::sync::Arc;

/// What differs in the moments of a delta that an event made or took, if something does.
pub(crate) fn moments_differ(
    seat: &Seat,
    played: &Played,
    event: &Event,
    out: &Out,
    delta: &Delta,
) -> Option<What> {
    if !has_moments(event, delta) {
        return Some(What::Moment);
    }
    if is_early(seat, played, event, out, delta) {
        Some(What::Early)
    } else {
        None
    }
}

/// Whether each message of a delta has the moment that its step gives, if a step made it.
fn has_moments(event: &Event, delta: &Delta) -> bool {
    let Some(now) = second_of(event) else {
        return true;
    };
    let expires = expires_of(event.gateway(), now);
    for op in delta.ops() {
        if !has_moment(op, expires) {
            return false;
        }
    }
    true
}

/// The second of a step of the gateway's own, if the event is one.
fn second_of(event: &Event) -> Option<u64> {
    match event {
        Event::Frame { now, .. } => Some(*now),
        Event::Tick { now, .. } => Some(*now),
        _ => None,
    }
}

/// The moment that a step of this second gives its messages; 0 for none.
fn expires_of(gateway: u8, now: u64) -> u64 {
    match u64::from(lifetime_of(gateway)) {
        0 => 0,
        lifetime => now.checked_add(lifetime).unwrap_or(0),
    }
}

/// Whether an operation is no message, or one of this moment.
fn has_moment(op: &Op, expires: u64) -> bool {
    match op {
        Op::Put { put, .. } => put.expires == expires,
        Op::Session { .. } | Op::Ack { .. } | Op::Retain { .. } => true,
    }
}

/// Whether a tick that sends nothing acknowledges a message whose moment is not there yet.
fn is_early(seat: &Seat, played: &Played, event: &Event, out: &Out, delta: &Delta) -> bool {
    let Event::Tick { now, .. } = event else {
        return false;
    };
    let Some(shown) = seat.shown else {
        return false;
    };
    let Some(before) = views_at(played, shown) else {
        return false;
    };
    out.sends.is_empty() && has_early(before.as_slice(), delta, *now)
}

/// Whether a delta acknowledges one of the messages that wait whose moment is not there yet.
fn has_early(before: &[(ClientId, ClientView)], delta: &Delta, now: u64) -> bool {
    for (client, view) in before {
        if is_early_for(client, view, delta, now) {
            return true;
        }
    }
    false
}

/// Whether a delta acknowledges such a message of this client.
fn is_early_for(client: &ClientId, view: &ClientView, delta: &Delta, now: u64) -> bool {
    for put in view.pending.as_slice() {
        if !is_past(put, now) && acknowledges(Some(delta), client, put) {
            return true;
        }
    }
    false
}

/// Whether the moment of a message is there.
fn is_past(put: &Put, now: u64) -> bool {
    put.expires > 0 && put.expires <= now
}

/// Whether a tick before the event of this index had nothing to do, though more than one message of
/// a client of its gateway was past. One may be: that which the client is in the middle of. So may
/// all of a client of which messages of one origin are far apart.
pub(crate) fn is_late(
    events: &[Event],
    played: &Played,
    at: usize,
    views: &[(ClientId, ClientView)],
) -> bool {
    let Some((gateway, now)) = quiet_tick(events, played, at) else {
        return false;
    };
    for (_, view) in views {
        if is_of(view, gateway) && count_past(view, now) > 1 && !is_stretched(view) {
            return true;
        }
    }
    false
}

/// The gateway and the second of a tick right before the event of this index, which is the same
/// gateway's, if it had nothing to do. It may be the last of calls that came together.
fn quiet_tick(events: &[Event], played: &Played, at: usize) -> Option<(u8, u64)> {
    let before = at.checked_sub(1)?;
    let event = events.get(before)?;
    let now = last_tick(event)?;
    if events.get(at)?.gateway() != event.gateway() {
        return None;
    }
    if is_quiet(played.answers.as_slice().get(before)?) {
        Some((event.gateway(), now))
    } else {
        None
    }
}

/// The second of the tick that an event is, or that its last call is.
fn last_tick(event: &Event) -> Option<u64> {
    if let Event::Tick { now, .. } = event {
        return Some(*now);
    }
    match calls_of(event).last() {
        Some(Call::Tick { now }) => Some(*now),
        _ => None,
    }
}

/// Whether an answer, or the last of those to calls that came together, tells of nothing done.
fn is_quiet(answer: &Answer) -> bool {
    match answer {
        Answer::Node(answer) => is_nothing(answer),
        Answer::Row(answers) => match answers.as_slice().last() {
            Some(answer) => is_nothing(answer),
            None => false,
        },
        Answer::Views(_, _) | Answer::Records(_) | Answer::Nothing => false,
    }
}

/// Whether a gateway had nothing to do.
fn is_nothing(answer: &Result<Arc<Out>, NodeFault>) -> bool {
    match answer {
        Ok(out) => out.sends.is_empty() && out.made.is_none(),
        Err(_) => false,
    }
}

/// Whether the gateway owns the client.
fn is_of(view: &ClientView, gateway: u8) -> bool {
    match view.stamp {
        Some(stamp) => stamp.gateway == gateway,
        None => false,
    }
}

/// How many messages of a client are past.
fn count_past(view: &ClientView, now: u64) -> usize {
    let mut count = 0usize;
    for put in view.pending.as_slice() {
        if is_past(put, now) {
            count = count.saturating_add(1);
        }
    }
    count
}

/// Whether two messages of a client have one origin, and numbers that are 1,024 or more apart.
fn is_stretched(view: &ClientView) -> bool {
    for first in view.pending.as_slice() {
        if any_far_after(view, first) {
            return true;
        }
    }
    false
}

/// Whether a message of a client has a number of the same origin that is 1,024 or more later.
fn any_far_after(view: &ClientView, first: &Put) -> bool {
    for put in view.pending.as_slice() {
        if put.origin == first.origin && put.seq.saturating_sub(first.seq) >= 1_024 {
            return true;
        }
    }
    false
}
