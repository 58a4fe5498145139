//! What goes out over a link. Said is what waits to go out: a link belongs to one seat's thread,
//! and to say something takes no lock.

ghost use Rattle.std.specs.Prelude.{◌≡◌, IfOk};
ghost use Rattle.gw_link.specs.Adding.{Adds, is_of_link};

use crate::calling::{End, call, drop_refusal};
use crate::counts::add;
use crate::hearing::second_of;
use crate::link::Link;
use crate::outgoing::{is_behind, say, say_spelled, spelled};
use crate::relay::{Relay, weight_of_digest};
use crate::trouble::Trouble;
use crate::work::Work;
use gw_net::LinkMessage;
use gw_relay::{PIECE, fits, goes_on, is_quiet};
use gw_shift::gw_node::{Answer, Out, Step};
use gw_shift::{CallFault, Pass};
use jr_disk::Disk;
use octets::NoMemory;
use rep_digest::Digest;
use rep_model::Replica;
use rep_ops::{Delta, Op, OpsFault};
use std::alloc::Global;
use std::sync::{Arc, Wait};
use std::time::Clock;

/// How many deltas are asked of the shift at once.
const AT_ONCE: usize = 64;

/// How often a read finds nothing, ten milliseconds each, before that counts as a quiet time: some
/// thirty seconds.
const MOST_QUIET_READS: u32 = 3_000;

/// How many quiet times there are before this end says its digest again: some five minutes of reads
/// that find nothing. That asks for what the other end took from a third gateway meanwhile,
/// which may be lost for good, and for what this gateway had to refuse.
const MOST_REPEATS: u32 = 10;

/// How many operations the first piece of an answer has at most.
const FIRST_PIECE: usize = 64;

/// How often a piece that is too long is halved.
const MOST_HALVES: u32 = 64;

/// Says the number of this gateway.
fn say_hello<S: Drop>(alloc: Global, link: &mut Link<S>, gateway: u8) -> Result<(), End> {
    if gateway == 0 {
        return Err(End::Lost);
    }
    say(alloc, link, LinkMessage::Hello(gateway))
}

/// An equal digest, by its octets. These are read again, so nothing but memory can be wanting.
fn equal(alloc: Global, digest: &Digest) -> Result<Digest, NoMemory>
    ensures { IfOk result (λ made. made ≡ digest.now) }
{
    let _entries = digest.clients();
    let mut octets = Vec::new(alloc);
    digest.append_to(&mut octets)?;
    match Digest::decode(alloc, octets.as_slice()) {
        Ok(digest) => Ok(digest),
        Err(OpsFault::Memory) => Err(NoMemory),
        Err(_) => unreachable!(),
    }
}

/// Says a digest.
fn say_digest<S: Drop>(alloc: Global, link: &mut Link<S>, digest: &Digest) -> Result<(), End> {
    let digest = equal(alloc, digest)?;
    say(alloc, link, LinkMessage::Digest(digest))
}

/// Says what the other end lacks, in pieces. Nothing else is to go out then, where that is
/// anything: its octets do not count among those that wait.
pub(crate) fn say_answer<S: Drop>(
    alloc: Global,
    link: &mut Link<S>,
    deltas: &[Delta],
) -> Result<(), End> {
    if deltas.is_empty() {
        return Ok(());
    }
    let mut pieces = 0usize;
    for delta in deltas {
        pieces = pieces.saturating_add(say_pieces(alloc, link, delta.ops())?);
    }
    link.answering = pieces;
    link.behind = 0;
    add(&mut link.counts.told, pieces);
    Ok(())
}

/// Says operations in pieces, and how many these are: each that went out is taken by itself, so
/// that after a link that broke the next one goes on from there.
fn say_pieces<S: Drop>(alloc: Global, link: &mut Link<S>, ops: &[Op]) -> Result<usize, End> {
    let mut left = ops;
    let mut most = FIRST_PIECE;
    let mut pieces = 0usize;
    for _ in 0..ops.len() {
        if left.is_empty() {
            return Ok(pieces);
        }
        let before = link.behind;
        let count = say_piece(alloc, link, left, most)?;
        left = behind(left, count);
        // about as many again, and more where they were small
        most = if link.behind.saturating_sub(before) > PIECE / 2 {
            count
        } else {
            count.saturating_mul(2)
        };
        pieces = pieces.saturating_add(1);
    }
    Ok(pieces)
}

/// Says the first operations, at most so many of them, as one piece, and how many these are.
fn say_piece<S: Drop>(
    alloc: Global,
    link: &mut Link<S>,
    ops: &[Op],
    most: usize,
) -> Result<usize, End> {
    let mut count = most.min(ops.len()).max(1);
    for _ in 0..MOST_HALVES {
        let piece = delta_of(alloc, front(ops, count))?;
        let octets = spelled(alloc, LinkMessage::Delta(piece))?;
        if fits(octets.len(), count) {
            say_spelled(link, octets)?;
            return Ok(count);
        }
        drop(octets);
        count = (count / 2).max(1);
    }
    Err(End::Lost)
}

/// The first operations, so many.
fn front(ops: &[Op], count: usize) -> &[Op] {
    if count >= ops.len() {
        return ops;
    }
    ops.split_at(count).0
}

/// The operations after the first ones, so many.
fn behind(ops: &[Op], count: usize) -> &[Op] {
    if count >= ops.len() {
        return &[];
    }
    ops.split_at(count).1
}

/// The delta of some operations of a delta. Nothing but memory can be wanting.
fn delta_of(alloc: Global, ops: &[Op]) -> Result<Delta, NoMemory> {
    let mut copies = Vec::new(alloc);
    for op in ops {
        copies.push(op.copied(alloc)?)?;
    }
    match Delta::from_ops(alloc, copies) {
        Ok(delta) => Ok(delta),
        Err(_) => Err(NoMemory),
    }
}

/// Whether the digest is to be said: once the other end has said its number, and again from time to
/// time, where all that was said before went out.
fn is_due<S: Drop>(link: &Link<S>) -> bool {
    if link.greeted {
        return link.repeats >= MOST_REPEATS && link.is_told();
    }
    true
}

/// Says who this is, with whom it is linked, and what it has; the last once the other end has said
/// its number, so that whoever does not costs nothing. All is said again from time to time. A link
/// whose other end has the number of this gateway is at an end: it is this gateway itself, or one
/// that may not be there. Runs in a seat's thread; the shift's lock is held to work out the digest.
pub(crate) fn greet<T: Wait + Clock, R: Replica, D: Disk + Drop, S: Drop>(
    work: &Work<'_, T, R, D>,
    pass: Pass,
    link: &mut Link<S>,
    gateway: u8,
    relay: &Relay,
) -> (Pass, Result<(), End>)
    ensures { Adds is_of_link pass result.0 }
{
    match introduce(work.rt, work.alloc, link, gateway, relay) {
        Err(end) => return (pass, Err(end)),
        Ok(false) => return (pass, Ok(())),
        Ok(true) => {}
    }
    let Ok(step) = Arc::new(work.alloc, Step::Digest) else {
        return (pass, Err(End::Memory));
    };
    let (pass, answered) = call(work, pass, step);
    let said = match out_of(answered) {
        Ok(out) => say_greeting(work, link, relay, out),
        Err(end) => Err(end),
    };
    (pass, said)
}

/// What the gateway worked out, unless it refused.
fn out_of(answered: Result<Answer, End>) -> Result<Option<Arc<Out>>, End> {
    match answered {
        Err(end) => Err(end),
        Ok(Ok(out)) => Ok(Some(out)),
        Ok(Err(fault)) => {
            drop_refusal(fault)?;
            Ok(None)
        }
    }
}

/// Says the number of this gateway and with whom it is linked. Whether its digest is to be worked
/// out.
fn introduce<T: Wait + Clock, S: Drop>(
    rt: &T,
    alloc: Global,
    link: &mut Link<S>,
    gateway: u8,
    relay: &Relay,
) -> Result<bool, End> {
    if link.other == Some(gateway) {
        relay.note_trouble(rt, Trouble::SameNumber, gateway);
        return Err(End::Lost);
    }
    if !link.named {
        link.named = true;
        link.spoke = second_of(rt);
        say_hello(alloc, link, gateway)?;
    }
    let Some(other) = link.other else {
        return Ok(false);
    };
    if !relay.may_link(rt, other) {
        relay.note_trouble(rt, Trouble::Stranger, other);
        return Err(End::Lost);
    }
    let place = take_place(rt, link, other, relay)?;
    let Some(changes) = relay.changes(rt, place) else {
        return Err(End::Lost);
    };
    if is_to_speak(link, changes, second_of(rt)) {
        say_linked(rt, alloc, link, gateway, other, relay)?;
        link.changes = changes;
    }
    Ok(is_due(link) || relay.is_long(rt))
}

/// The place of a link among those whose other ends have said their numbers.
fn take_place<T: Wait, S: Drop>(
    rt: &T,
    link: &mut Link<S>,
    other: u8,
    relay: &Relay,
) -> Result<u64, End> {
    if let Some(place) = link.place {
        return Ok(place);
    }
    match relay.join(rt, other, link.origin) {
        None => Err(End::Memory),
        Some(place) => {
            link.place = Some(place);
            Ok(place)
        }
    }
}

/// Whether this end is to say its number again: a link came or went, or it has not for long. A
/// quiet time is counted.
fn is_to_speak<S: Drop>(link: &mut Link<S>, changes: u64, second: u64) -> bool {
    let mut is_due = changes != link.changes;
    if link.is_told() {
        if link.silence >= MOST_QUIET_READS {
            link.silence = 0;
            link.repeats = link.repeats.saturating_add(1);
            is_due = true;
        }
        if is_quiet(link.spoke, second) {
            is_due = true;
        }
    }
    if is_due {
        link.spoke = second;
    }
    is_due
}

/// Says the number of this gateway once more, and then the others that it is linked with.
fn say_linked<T: Wait, S: Drop>(
    rt: &T,
    alloc: Global,
    link: &mut Link<S>,
    gateway: u8,
    other: u8,
    relay: &Relay,
) -> Result<(), End> {
    let linked = relay.linked(rt, alloc, other)?;
    if has_lost(link, linked.as_slice()) {
        link.repeats = MOST_REPEATS;
    }
    say_hello(alloc, link, gateway)?;
    for number in linked.as_slice() {
        say_hello(alloc, link, *number)?;
    }
    link.said = linked;
    Ok(())
}

/// Whether this end has no link any more with a gateway with which the other end is linked, or was.
/// What that one told may have come there and not here: it is asked for.
fn has_lost<S: Drop>(link: &Link<S>, linked: &[u8]) -> bool {
    for number in link.said.as_slice() {
        if !linked.contains(number) && link.ever.as_slice().contains(number) {
            return true;
        }
    }
    false
}

/// Says the digest where that is due. A gateway whose digest would be too large says none. The
/// history keeps it in either case.
fn say_greeting<T: Wait, R: Replica, D: Disk + Drop, S: Drop>(
    work: &Work<'_, T, R, D>,
    link: &mut Link<S>,
    relay: &Relay,
    out: Option<Arc<Out>>,
) -> Result<(), End> {
    if is_due(link) {
        link.greeted = true;
        link.repeats = 0;
        say_digest_of(work.alloc, link, &out)?;
    }
    work.stage.keep(work.rt, octets_of_digest(&out));
    relay.learn(work.rt, out);
    Ok(())
}

/// Some measure of the octets of the digest that was worked out, if it was.
fn octets_of_digest(out: &Option<Arc<Out>>) -> usize {
    if let Some(out) = out.as_ref() {
        if let Some(digest) = out.digest.as_ref() {
            return weight_of_digest(digest);
        }
    }
    0
}

/// Says the digest that was worked out, if it was.
fn say_digest_of<S: Drop>(
    alloc: Global,
    link: &mut Link<S>,
    out: &Option<Arc<Out>>,
) -> Result<(), End> {
    if let Some(out) = out.as_ref() {
        if let Some(digest) = out.digest.as_ref() {
            say_digest(alloc, link, digest)?;
        }
    }
    Ok(())
}

/// Tells of each delta that the gateway made in this shift and that was not told of. The next look
/// goes on after the calls that are known to have made none. Runs in a seat's thread; the shift's
/// lock is held to find them, and not to copy them.
pub(crate) fn tell_all<T: Wait, R: Replica, D: Disk + Drop, S: Drop>(
    work: &Work<'_, T, R, D>,
    pass: &Pass,
    link: &mut Link<S>,
    relay: &Relay,
) -> Result<(), End> {
    for _ in work.rt.forever() {
        let known = work.stage.made();
        let made = made_after(work, pass, link.told)?;
        if made.is_empty() {
            drop(made);
            link.told = link.told.max(known);
            return Ok(());
        }
        tell_some(work.rt, work.alloc, link, made, relay)?;
    }
    unreachable!()
}

/// The deltas of some calls after this one, with the numbers of these.
fn made_after<T: Wait, R: Replica, D: Disk + Drop>(
    work: &Work<'_, T, R, D>,
    pass: &Pass,
    told: u64,
) -> Result<Vec<(u64, Delta)>, End> {
    match work.shift.after(work.rt, work.alloc, pass, told, AT_ONCE) {
        Ok(made) => Ok(made),
        Err(CallFault::Behind { .. }) => Err(End::Behind),
        Err(CallFault::Memory) => Err(End::Memory),
        Err(CallFault::ShiftFull | CallFault::Node { .. }) => unreachable!(),
    }
}

/// Tells of these deltas, which calls of these numbers made.
fn tell_some<T: Wait, S: Drop>(
    rt: &T,
    alloc: Global,
    link: &mut Link<S>,
    made: Vec<(u64, Delta)>,
    relay: &Relay,
) -> Result<(), End> {
    for (number, delta) in made {
        if is_behind(link) {
            return Err(End::Lost);
        }
        relay.note_made(rt, alloc, number, &delta);
        say_delta(alloc, link, delta)?;
        link.told = number;
    }
    Ok(())
}

/// Says a delta, and counts it.
fn say_delta<S: Drop>(alloc: Global, link: &mut Link<S>, delta: Delta) -> Result<(), End> {
    add(&mut link.counts.told, 1);
    say(alloc, link, LinkMessage::Delta(delta))
}

/// Hands on what other gateways told and what was new here, if it goes on to the other end. Runs in
/// a seat's thread; the relay's lock is held for one delta at a time.
pub(crate) fn hand_all<T: Wait, S: Drop>(
    rt: &T,
    alloc: Global,
    link: &mut Link<S>,
    relay: &Relay,
) -> Result<(), End> {
    let Some(other) = link.other else {
        return Ok(());
    };
    let Some(place) = link.place else {
        return Ok(());
    };
    for _ in rt.forever() {
        let Some((giver, step)) = relay.next(rt, place)? else {
            return Ok(());
        };
        if goes_on(giver, other, link.linked.as_slice()) {
            hand(alloc, link, &step)?;
        }
    }
    unreachable!()
}

/// Hands on a delta.
fn hand<S: Drop>(alloc: Global, link: &mut Link<S>, step: &Step) -> Result<(), End> {
    if is_behind(link) {
        return Err(End::Lost);
    }
    match step {
        Step::Take { delta } => say_delta(alloc, link, delta.copied(alloc)?),
        _ => Ok(()),
    }
}
