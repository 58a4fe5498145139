//! What has come over a link. It is heard in the thread of the link's seat, and the shift's lock is
//! held for calls alone.

ghost use Rattle.std.specs.Prelude.{◌≡◌, ◌++◌, ◌∷◌, [], true, IfOk, OnOk, map};
ghost use Rattle.std.specs.Arc.{arc_value};
ghost use Rattle.gw_link.specs.Adding.{Adds, is_of_link};
ghost use Rattle.gw_link.specs.inner.Rows.{AllAre};
ghost use Rattle.gw_link.specs.inner.Calling as spec;

use crate::calling::{End, call, call_all, drop_refusal};
use crate::counts::{count_answer, is_delta, note_read};
use crate::link::{Heard, Link};
use crate::outgoing::is_nothing;
use crate::relay::{Relay, weight, weight_of_digest};
use crate::saying::say_answer;
use crate::trouble::trouble_of;
use crate::work::Work;
use gw_net::{LinkFault, LinkMessage};
use gw_relay::is_gone;
use gw_shift::Pass;
use gw_shift::gw_node::{Answer, NodeFault, Out, Step};
use jr_disk::Disk;
use rep_model::Replica;
use rep_ops::Delta;
use std::alloc::Global;
use std::io::Read;
use std::sync::{Arc, Wait};
use std::time::Clock;

/// How often a read may find nothing before the other end has said its number: some ten seconds.
const MOST_SILENT_READS: u32 = 1_000;

/// How many deltas are taken in a row at most.
const MOST_IN_A_ROW: usize = 64;

/// Deltas that are taken in a row.
#[derive(Drop)]
struct Row {
    /// The calls.
    steps: Vec<Arc<Step>>,
    /// A share of each that brings what is new here.
    news: Vec<Option<Arc<Step>>>,
}

/// What a message says.
enum Said {
    /// The other end's number.
    Number(u8),
    /// What it has: it asks for what it lacks.
    Asks(Heard),
    /// Operations.
    Tells(Heard),
}

/// Reads what has come, if anything does within the stream's time. It is this second now. Runs in a
/// seat's thread, without a lock.
pub(crate) fn listen<S: Read + Drop>(
    alloc: Global,
    link: &mut Link<S>,
    piece: &mut [u8],
    second: u64,
) -> Result<(), End> {
    match link.stream.read(piece) {
        Ok(0) => Err(End::Lost),
        Ok(size) => {
            note_read(link, size, second);
            take_in(alloc, link, &piece[..size])
        }
        Err(error) if is_nothing(&error) => wait_on(link, second),
        Err(_) => Err(End::Lost),
    }
}

/// Nothing came. An end that does not say its number for too long is given up: it keeps another
/// from its place. So is one of which nothing was heard for longer than it would be silent. A link
/// that is mute is at an end.
fn wait_on<S: Drop>(link: &mut Link<S>, second: u64) -> Result<(), End> {
    if link.mute {
        return Err(End::Lost);
    }
    link.silence = link.silence.saturating_add(1);
    if link.other.is_none() && link.silence > MOST_SILENT_READS {
        return Err(End::Lost);
    }
    match link.heard {
        None => link.heard = Some(second),
        Some(heard) => {
            if is_gone(heard, second) {
                return Err(End::Lost);
            }
        }
    }
    Ok(())
}

/// Takes a piece of the stream. What is no message ends the link, once what came before it was
/// heard.
fn take_in<S: Drop>(alloc: Global, link: &mut Link<S>, piece: &[u8]) -> Result<(), End> {
    match link.incoming.feed(alloc, piece) {
        Err(LinkFault::Memory) => Err(End::Memory),
        Err(_) => Err(End::Lost),
        Ok(fed) => {
            link.failed = fed.fault.is_some();
            wait_all(alloc, link, fed.messages)
        }
    }
}

/// Puts deltas after those that wait. A digest takes the place of one that was not answered yet.
fn wait_all<S: Drop>(
    alloc: Global,
    link: &mut Link<S>,
    messages: Vec<LinkMessage>,
) -> Result<(), End> {
    for message in messages {
        match heard(alloc, message)? {
            Said::Number(number) => take_number(link, number)?,
            Said::Asks(asked) => link.asked = Some(asked),
            Said::Tells(told) => {
                if link.waiting.push_back(told).is_err() {
                    return Err(End::Memory);
                }
            }
        }
    }
    Ok(())
}

/// The first number is that of the other end. Any other is a gateway that it is linked with; where
/// it says its own again, those are said anew.
fn take_number<S: Drop>(link: &mut Link<S>, number: u8) -> Result<(), End> {
    match link.other {
        None => link.other = Some(number),
        Some(other) if other == number => link.linked.clear(),
        Some(_) => {
            add_once(&mut link.linked, number)?;
            add_once(&mut link.ever, number)?;
        }
    }
    Ok(())
}

/// Puts a number after others, unless it is among them.
fn add_once(numbers: &mut Vec<u8>, number: u8) -> Result<(), End> {
    if numbers.as_slice().contains(&number) || numbers.push(number).is_ok() {
        return Ok(());
    }
    Err(End::Memory)
}

/// What a message says, as the call that it asks for. A number asks for none.
fn heard(alloc: Global, message: LinkMessage) -> Result<Said, End> {
    match message {
        LinkMessage::Hello(number) => Ok(Said::Number(number)),
        LinkMessage::Digest(digest) => match Arc::new(alloc, Step::Answer { digest }) {
            Ok(step) => Ok(Said::Asks(Heard { step })),
            Err(_) => Err(End::Memory),
        },
        LinkMessage::Delta(delta) => match Arc::new(alloc, Step::Take { delta }) {
            Ok(step) => Ok(Said::Tells(Heard { step })),
            Err(_) => Err(End::Memory),
        },
    }
}

/// Takes the deltas that came, as many as wait in a row with one sync. What the gateway refuses is
/// dropped, also if it is halted; if the shift has had all its calls the rest waits for the next
/// one. Before both ends have said who they are, nothing is heard but that. Runs in a seat's
/// thread; the shift's lock is held for each row.
#[tactic(auto, using(crate::proofs::Adding::adds_more, crate::proofs::Adding::adds_none))]
pub(crate) fn hear_all<T: Wait, R: Replica, D: Disk + Drop, S: Drop>(
    work: &Work<'_, T, R, D>,
    pass: Pass,
    link: &mut Link<S>,
    relay: &Relay,
) -> (Pass, Result<(), End>)
    ensures { Adds is_of_link pass result.0 }
{
    let mut pass = pass;
    for _ in work.rt.forever() {
        let row = match row_of(work.rt, work.alloc, link, relay) {
            Ok(row) => row,
            Err(end) => return (pass, Err(end)),
        };
        if row.steps.is_empty() {
            drop(row);
            return (pass, Ok(()));
        }
        let (after, heard) = hear_row(work, pass, link, row, relay);
        pass = after;
        if let Err(end) = heard {
            return (pass, Err(end));
        }
    }
    unreachable!()
}

/// The deltas that wait, the first of them, up to one by which the link is lost. It is lost at once
/// if that is the first.
fn row_of<T: Wait, S: Drop>(
    rt: &T,
    alloc: Global,
    link: &Link<S>,
    relay: &Relay,
) -> Result<Row, End>
    ensures { IfOk result (λ row. AllAre is_of_link (map arc_value row.steps.items)) }
{
    let mut row = Row {
        steps: Vec::new(alloc),
        news: Vec::new(alloc),
    };
    for index in 0..link.waiting.len().min(MOST_IN_A_ROW) {
        let Some(heard) = link.waiting.get(index) else {
            break;
        };
        match news_of(rt, link, &heard.step, relay) {
            Ok(news) => put_in(&mut row, heard, news)?,
            Err(end) if index == 0 => return Err(end),
            Err(_) => break,
        }
    }
    Ok(row)
}

/// Puts a delta into a row, with a share of it if it brings what is new here.
fn put_in(row: &mut Row, heard: &Heard, news: Option<Arc<Step>>) -> Result<(), End>
    ensures { OnOk result ((step : _) × (row.new.steps.items ≡ row.old.steps.items ++ step ∷ [])
        × (is_of_link (arc_value step) ≡ true)) }
{
    let Ok(step) = heard.step.clone() else {
        return Err(End::Memory);
    };
    if row.news.push(news).is_err() || row.steps.push(step).is_err() {
        return Err(End::Memory);
    }
    Ok(())
}

/// Hears deltas in a row. Those that were taken wait no more.
fn hear_row<T: Wait, R: Replica, D: Disk + Drop, S: Drop>(
    work: &Work<'_, T, R, D>,
    pass: Pass,
    link: &mut Link<S>,
    row: Row,
    relay: &Relay,
) -> (Pass, Result<(), End>)
    requires { AllAre is_of_link (map arc_value row.steps.items) }
    ensures { Adds is_of_link pass result.0 }
{
    let Row { steps, news } = row;
    relay.note_working(work.rt);
    let (pass, answered) = call_all(work, pass, steps.as_slice());
    let heard = follow_row(work, link, relay, steps, news, answered);
    relay.note_worked(work.rt);
    (pass, heard)
}

/// Does what follows on the gateway's answers to a row of deltas. Runs without the shift's lock.
fn follow_row<T: Wait, R: Replica, D: Disk + Drop, S: Drop>(
    work: &Work<'_, T, R, D>,
    link: &mut Link<S>,
    relay: &Relay,
    steps: Vec<Arc<Step>>,
    news: Vec<Option<Arc<Step>>>,
    answered: Result<Vec<Answer>, End>,
) -> Result<(), End> {
    let answers = match answered {
        Ok(answers) => answers,
        Err(end) => return Err(end),
    };
    for (answer, (step, share)) in answers.into_iter().zip(steps.into_iter().zip(news)) {
        relay.note_heard(work.rt, link.place, &step);
        work.stage.keep(work.rt, octets_of(&step));
        drop(step);
        let followed = follow_answer(work, link, relay, share, true, Ok(answer));
        relay.note_worked(work.rt);
        followed?;
        let _ = link.waiting.pop_front();
    }
    Ok(())
}

/// Answers the digest that came, once what was said so far went out, and for each gateway once in
/// some seconds: who asks and does not listen, or asks and asks, is not answered without end. Runs
/// in a seat's thread; the shift's lock is held for the call.
pub(crate) fn answer<T: Wait + Clock, R: Replica, D: Disk + Drop, S: Drop>(
    work: &Work<'_, T, R, D>,
    pass: Pass,
    link: &mut Link<S>,
    relay: &Relay,
) -> (Pass, Result<(), End>)
    ensures { Adds is_of_link pass result.0 }
{
    let second = second_of(work.rt);
    if !may_answer(work.rt, link, relay, second) {
        return (pass, Ok(()));
    }
    let Some(asked) = link.asked.as_ref() else {
        return (pass, Ok(()));
    };
    let Ok(step) = asked.step.clone() else {
        return (pass, Err(End::Lost));
    };
    let (pass, heard) = hear(work, pass, link, step, relay);
    match heard {
        Err(End::Full) => (pass, Err(End::Full)),
        Ok(()) => {
            note_tried(work.rt, link, relay, second);
            (pass, Ok(()))
        }
        Err(end) => {
            note_tried(work.rt, link, relay, second);
            (pass, Err(alone(end)))
        }
    }
}

/// The digest that came was answered in this second, or could not be: who asks again at once waits
/// in either case.
fn note_tried<T: Wait, S: Drop>(rt: &T, link: &mut Link<S>, relay: &Relay, second: u64) {
    link.asked = None;
    relay.note_answer(rt, link.other.unwrap_or(0), second);
}

/// The second of the clock that nobody sets.
pub(crate) fn second_of<T: Clock>(rt: &T) -> u64 {
    match rt.monotonic() {
        Ok(since) => since.as_secs(),
        Err(_) => 0,
    }
}

/// Whether a digest that came may be answered now.
fn may_answer<T: Wait, S: Drop>(rt: &T, link: &Link<S>, relay: &Relay, second: u64) -> bool {
    match link.other {
        None => false,
        Some(other) => {
            link.asked.is_some() && link.is_told() && relay.may_answer(rt, other, second)
        }
    }
}

/// How a link ends where an answer could not be given. Want of memory for an answer ends this link
/// and nothing else: who asks for less is answered, and so is this one once there is more.
fn alone(end: End) -> End
    ensures { result ≡ spec.alone end }
{
    match end {
        End::Memory => End::Lost,
        other => other,
    }
}

/// Hears one message.
fn hear<T: Wait, R: Replica, D: Disk + Drop, S: Drop>(
    work: &Work<'_, T, R, D>,
    pass: Pass,
    link: &mut Link<S>,
    step: Arc<Step>,
    relay: &Relay,
) -> (Pass, Result<(), End>)
    requires { is_of_link (arc_value step) ≡ true }
    ensures { Adds is_of_link pass result.0 }
{
    relay.note_heard(work.rt, link.place, &step);
    let (pass, heard) = work_on(work, pass, link, step, relay);
    relay.note_worked(work.rt);
    (pass, heard)
}

/// Works on a message, unless the link is lost by it.
fn work_on<T: Wait, R: Replica, D: Disk + Drop, S: Drop>(
    work: &Work<'_, T, R, D>,
    pass: Pass,
    link: &mut Link<S>,
    step: Arc<Step>,
    relay: &Relay,
) -> (Pass, Result<(), End>)
    requires { is_of_link (arc_value step) ≡ true }
    ensures { Adds is_of_link pass result.0 }
{
    match news_of(work.rt, link, &step, relay) {
        Ok(news) => ask(work, pass, link, step, news, relay),
        Err(end) => {
            drop(step);
            (pass, Err(end))
        }
    }
}

/// Asks the gateway what a message asks for. A delta that brings what is new here is handed on.
fn ask<T: Wait, R: Replica, D: Disk + Drop, S: Drop>(
    work: &Work<'_, T, R, D>,
    pass: Pass,
    link: &mut Link<S>,
    step: Arc<Step>,
    news: Option<Arc<Step>>,
    relay: &Relay,
) -> (Pass, Result<(), End>)
    requires { is_of_link (arc_value step) ≡ true }
    ensures { Adds is_of_link pass result.0 }
{
    work.stage.keep(work.rt, octets_of(&step));
    let is_taken = is_delta(&step);
    let (pass, answered) = call(work, pass, step);
    let heard = follow_answer(work, link, relay, news, is_taken, answered);
    (pass, heard)
}

/// Does what follows on the gateway's answer, and counts it: a refusal that an operator should hear
/// of is noted. Runs without the shift's lock.
fn follow_answer<T: Wait, R: Replica, D: Disk + Drop, S: Drop>(
    work: &Work<'_, T, R, D>,
    link: &mut Link<S>,
    relay: &Relay,
    news: Option<Arc<Step>>,
    is_taken: bool,
    answered: Result<Answer, End>,
) -> Result<(), End> {
    count_answer(&mut link.counts, is_taken, &answered);
    match answered {
        Err(end) => {
            drop(news);
            Err(end)
        }
        Ok(Err(fault)) => {
            drop(news);
            note_refusal(work.rt, link, relay, &fault);
            drop_refusal(fault)
        }
        Ok(Ok(out)) => {
            let followed = follow(work, link, relay, news, &out);
            drop(out);
            followed
        }
    }
}

/// Notes a refusal that an operator should hear of.
fn note_refusal<T: Wait, S: Drop>(rt: &T, link: &Link<S>, relay: &Relay, fault: &NodeFault) {
    if let Some(trouble) = trouble_of(fault) {
        relay.note_trouble(rt, trouble, link.other.unwrap_or(0));
    }
}

/// How many octets the history keeps of what comes, some more or less.
fn octets_of(step: &Step) -> usize {
    match step {
        Step::Take { delta } => weight(delta.ops()),
        Step::Answer { digest } => weight_of_digest(digest),
        _ => 0,
    }
}

/// A share of what comes, where it brings anything that is new here. The link is lost where that is
/// what this gateway must have made itself, and it was just started.
fn news_of<T: Wait, S: Drop>(
    rt: &T,
    link: &Link<S>,
    step: &Arc<Step>,
    relay: &Relay,
) -> Result<Option<Arc<Step>>, End> {
    if relay.note_lost(rt, link.other.unwrap_or(0), step) {
        return Err(End::Lost);
    }
    if !relay.is_news(rt, step) {
        return Ok(None);
    }
    match step.clone() {
        Ok(share) => Ok(Some(share)),
        Err(_) => Err(End::Memory),
    }
}

/// Hands on what was heard if it is new, and says what the other end lacks. Runs without the
/// shift's lock; it takes the relay's to hand on.
fn follow<T: Wait, R: Replica, D: Disk + Drop, S: Drop>(
    work: &Work<'_, T, R, D>,
    link: &mut Link<S>,
    relay: &Relay,
    news: Option<Arc<Step>>,
    out: &Arc<Out>,
) -> Result<(), End> {
    if let Some(step) = news {
        relay.hand_on(work.rt, work.alloc, link.other.unwrap_or(0), step);
    }
    let octets = weight_of_answer(out.answer.as_slice());
    work.stage.keep(work.rt, octets);
    look_for_room(work.alloc, octets)?;
    say_answer(work.alloc, link, out.answer.as_slice())
}

/// Whether there is room for so many octets, asked for at once: where there is none, nothing is
/// taken of what is left, which the other threads need.
fn look_for_room(alloc: Global, octets: usize) -> Result<(), End> {
    let mut room: Vec<u8> = Vec::new(alloc);
    if octets > 0 && room.reserve(octets).is_err() {
        return Err(End::Memory);
    }
    Ok(())
}

/// Some measure of the octets of an answer.
fn weight_of_answer(deltas: &[Delta]) -> usize {
    let mut octets = 0usize;
    for delta in deltas {
        octets = octets.saturating_add(weight(delta.ops()));
    }
    octets
}
