//! A script that differs, made short.

use super::copying::{append, append_copy, copy_call, with_shows};
use super::exchange::with_exchange;
use super::field::{Field, added};
use super::judge::{Difference, What, judged};
use gw_world::{Answer, Call, Event};
use octets::{NoMemory, Sequence};
use rep_model::Replica;
use std::alloc::Global;
use std::mem;

/// How often all events are looked at.
const PASSES: u8 = 4;

/// What came of a script.
#[derive(Drop)]
pub(crate) enum Verdict {
    /// It cannot be played.
    Stuck,
    /// All is as the definitions say.
    Same,
    /// It differs. These are all events, the exchange too.
    Differs {
        /// The events.
        events: Vec<Event>,
        /// Where it differs; the index is among these events.
        difference: Difference,
    },
}

/// The same, without the events.
#[derive(Clone, Copy)]
enum Outcome {
    /// They cannot be played.
    Stuck,
    /// All is as the definitions say.
    Same,
    /// They differ; the index is among the events without shows.
    Differs(Difference),
}

/// An event of a script, and the deltas that it adds.
#[derive(Clone, Copy)]
struct Part {
    /// The index of the event.
    index: usize,
    /// How many deltas there are before it.
    first: u64,
    /// How many it adds.
    count: u64,
}

/// A script that differs.
pub(crate) struct Short {
    /// The script, without an exchange.
    pub(crate) events: Vec<Event>,
    /// The script, with the exchange where it differs there.
    pub(crate) all: Vec<Event>,
    /// Where it differs.
    pub(crate) difference: Difference,
}

impl Drop for Short {
    fn drop(self) {
        let Short {
            events,
            all,
            difference: _,
        } = self;
        drop(events);
        drop(all);
    }
}

/// What comes of a script.
pub(crate) fn examined<R: Replica>(
    alloc: Global,
    field: &Field,
    events: &[Event],
) -> Result<Verdict, NoMemory> {
    let Some(all) = with_exchange::<R>(alloc, field, events)? else {
        return Ok(Verdict::Stuck);
    };
    match compared::<R>(alloc, field, all.as_slice())? {
        Outcome::Stuck => Ok(Verdict::Stuck),
        Outcome::Same => Ok(Verdict::Same),
        Outcome::Differs(difference) => Ok(Verdict::Differs {
            events: all,
            difference,
        }),
    }
}

/// What comes of events, each with what its gateways show after it.
fn compared<R: Replica>(
    alloc: Global,
    field: &Field,
    events: &[Event],
) -> Result<Outcome, NoMemory> {
    let shown = with_shows(alloc, events)?;
    let outcome = compared_shown::<R>(alloc, field, shown.as_slice());
    drop(shown);
    outcome
}

/// What comes of events that show what gateways show.
fn compared_shown<R: Replica>(
    alloc: Global,
    field: &Field,
    shown: &[Event],
) -> Result<Outcome, NoMemory> {
    let Some(played) = field.play::<R>(alloc, shown)? else {
        return Ok(Outcome::Stuck);
    };
    let found = judged::<R>(alloc, field, shown, &played);
    drop(played);
    match found? {
        None => Ok(Outcome::Same),
        Some(found) => Ok(Outcome::Differs(Difference {
            at: place_of(shown, found.at),
            ..found
        })),
    }
}

/// The index among all events of one that stands there among those with shows.
fn place_of(shown: &[Event], at: usize) -> usize {
    let mut place = 0usize;
    for event in shown.iter().take(at.saturating_add(1)) {
        match event {
            Event::Show { .. } => {}
            _ => place = place.saturating_add(1),
        }
    }
    place.saturating_sub(1)
}

/// The script made as short as it can be by leaving out one event after the other, from the back.
pub(crate) fn shortened<R: Replica>(
    alloc: Global,
    field: &Field,
    script: Vec<Event>,
    all: Vec<Event>,
    difference: Difference,
) -> Result<Short, NoMemory> {
    let mut short = Short {
        events: cut_after(script, difference.at),
        all,
        difference,
    };
    match pass_all::<R>(alloc, field, &mut short) {
        Ok(()) => Ok(short),
        Err(fault) => {
            drop(short);
            Err(fault)
        }
    }
}

/// Looks at all events, again and again where that makes the script shorter.
fn pass_all<R: Replica>(alloc: Global, field: &Field, short: &mut Short) -> Result<(), NoMemory> {
    for _ in 0..PASSES {
        let before = short.events.len();
        pass::<R>(alloc, field, short)?;
        if short.events.len() >= before {
            break;
        }
    }
    Ok(())
}

/// The events up to this index.
fn cut_after(events: Vec<Event>, at: usize) -> Vec<Event> {
    let mut kept = events;
    kept.truncate(at.saturating_add(1));
    kept
}

/// Leaves out each event once, where the script still differs without it.
fn pass<R: Replica>(alloc: Global, field: &Field, short: &mut Short) -> Result<(), NoMemory> {
    let mut parts = Vec::new(alloc);
    let done = match append_parts::<R>(alloc, &mut parts, field, short.events.as_slice()) {
        Ok(()) => leave_out_each::<R>(alloc, field, short, parts.as_slice()),
        Err(fault) => Err(fault),
    };
    drop(parts);
    done
}

/// Leaves out each of these parts once, from the back.
fn leave_out_each<R: Replica>(
    alloc: Global,
    field: &Field,
    short: &mut Short,
    parts: &[Part],
) -> Result<(), NoMemory> {
    for part in parts.iter().rev() {
        leave_out_or_keep::<R>(alloc, field, short, *part)?;
    }
    Ok(())
}

/// Leaves an event out with the deltas that it adds, or else as if it added none. Whether it is
/// left out.
fn leave_out_or_keep<R: Replica>(
    alloc: Global,
    field: &Field,
    short: &mut Short,
    part: Part,
) -> Result<bool, NoMemory> {
    let is_left_out = leave_out::<R>(alloc, field, short, part)?;
    if is_left_out || part.count == 0 {
        return Ok(is_left_out);
    }
    leave_out::<R>(alloc, field, short, Part { count: 0, ..part })
}

/// Appends the parts of a script, none if it cannot be played.
fn append_parts<R: Replica>(
    alloc: Global,
    parts: &mut Vec<Part>,
    field: &Field,
    events: &[Event],
) -> Result<(), NoMemory> {
    match field.play::<R>(alloc, events)? {
        Some(played) => {
            let done = append_counted(parts, played.answers.as_slice());
            drop(played);
            done
        }
        None => Ok(()),
    }
}

/// Appends a part for each of these answers.
fn append_counted(parts: &mut Vec<Part>, answers: &[Answer]) -> Result<(), NoMemory> {
    let mut first = 0u64;
    for (index, answer) in answers.iter().enumerate() {
        let count = added(answer);
        append_part(parts, index, first, count)?;
        first = first.saturating_add(count);
    }
    Ok(())
}

/// Appends the part of the event of this index, which follows so many deltas and adds so many.
fn append_part(
    parts: &mut Vec<Part>,
    index: usize,
    first: u64,
    count: u64,
) -> Result<(), NoMemory> {
    parts.push(Part {
        index,
        first,
        count,
    })?;
    Ok(())
}

/// Leaves an event out, if the script still differs in the same way without it.
fn leave_out<R: Replica>(
    alloc: Global,
    field: &Field,
    short: &mut Short,
    part: Part,
) -> Result<bool, NoMemory> {
    let fewer = without(alloc, short.events.as_slice(), part)?;
    match examined::<R>(alloc, field, fewer.as_slice()) {
        Ok(verdict) => Ok(replace(short, fewer, verdict)),
        Err(fault) => {
            drop(fewer);
            Err(fault)
        }
    }
}

/// Takes these events in place of a script, if they differ in the same way. Whether they do.
fn replace(short: &mut Short, fewer: Vec<Event>, verdict: Verdict) -> bool {
    match verdict {
        Verdict::Differs { events, difference } => replace_by(short, fewer, events, difference),
        Verdict::Stuck | Verdict::Same => {
            drop(fewer);
            false
        }
    }
}

/// Takes these events, without and with the exchange, in place of a script, if the same differs in
/// them. Whether it does.
fn replace_by(
    short: &mut Short,
    fewer: Vec<Event>,
    all: Vec<Event>,
    difference: Difference,
) -> bool {
    if difference.what != short.difference.what {
        drop(all);
        drop(fewer);
        return false;
    }
    let shorter = Short {
        events: cut_after(fewer, difference.at),
        all,
        difference,
    };
    drop(mem::replace(short, shorter));
    true
}

/// The events without one, and without its deltas: these are taken no more, and later ones have
/// other numbers.
fn without(alloc: Global, events: &[Event], part: Part) -> Result<Vec<Event>, NoMemory> {
    let mut made = Vec::new(alloc);
    for (at, event) in events.iter().enumerate() {
        if at != part.index {
            push_moved(alloc, &mut made, event, part)?;
        }
    }
    Ok(made)
}

/// Appends an event, with the number that its delta then has.
fn push_moved(
    alloc: Global,
    made: &mut Vec<Event>,
    event: &Event,
    part: Part,
) -> Result<(), NoMemory> {
    match event {
        Event::Take { gateway, delta } => match moved(*delta, part.first, part.count) {
            Some(delta) => append(
                made,
                Event::Take {
                    gateway: *gateway,
                    delta,
                },
            ),
            None => Ok(()),
        },
        Event::Together { gateway, calls } => {
            push_moved_row(alloc, made, *gateway, calls.as_slice(), part)
        }
        _ => append_copy(alloc, made, event),
    }
}

/// Appends calls that come together, with the numbers that their deltas then have, if any is left.
fn push_moved_row(
    alloc: Global,
    made: &mut Vec<Event>,
    gateway: u8,
    calls: &[Call],
    part: Part,
) -> Result<(), NoMemory> {
    let mut kept = Sequence::empty(alloc);
    for call in calls {
        push_moved_call(alloc, &mut kept, call, part)?;
    }
    if kept.is_empty() {
        drop(kept);
        return Ok(());
    }
    append(
        made,
        Event::Together {
            gateway,
            calls: kept,
        },
    )
}

/// Appends a call, with the number that its delta then has.
fn push_moved_call(
    alloc: Global,
    kept: &mut Sequence<Call>,
    call: &Call,
    part: Part,
) -> Result<(), NoMemory> {
    let Call::Take { delta } = call else {
        kept.push(copy_call(alloc, call)?)?;
        return Ok(());
    };
    if let Some(delta) = moved(*delta, part.first, part.count) {
        kept.push(Call::Take { delta })?;
    }
    Ok(())
}

/// The number that a delta has without those that are left out, if it is none of these.
fn moved(delta: u64, first: u64, count: u64) -> Option<u64> {
    if delta > first.saturating_add(count) {
        return Some(delta.saturating_sub(count));
    }
    if delta <= first { Some(delta) } else { None }
}
