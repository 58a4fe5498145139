//! What is to go out over a link. It goes out as the stream takes it, and what comes is read and
//! heard meanwhile: two ends that have much to say to each other would else wait for each other.

ghost use Rattle.gw_net.specs.Messages.{IsNumbered};

use crate::calling::End;
use crate::counts::add;
use crate::link::Link;
use crate::stage::Phase;
use gw_net::{LinkMessage, link_out};
use std::alloc::Global;
use std::io::{Error, ErrorKind, Write};

/// How many octets may wait for a stream to take them before no more deltas are told and the link
/// is given up. Those of an answer do not count: who lacks much would else be given up at the end
/// of each shift, and asked to begin anew.
const MOST_BEHIND: usize = 67_108_864;

/// How often in turn a stream may take nothing before the link is given up: who takes in a long
/// delta reads nothing meanwhile. Each time it is waited for as long as the stream's time says.
const MOST_STALLED_WRITES: u32 = 1_500;

/// How many octets are written at once.
const AT_ONCE: usize = 65_536;

/// How often in turn is written before what came is heard.
const MOST_WRITES: u32 = 32;

/// The same at the end of a shift, which waits for its links.
const LAST_WRITES: u32 = 2;

/// What a stream did with octets.
enum Outcome {
    /// It took all that it was given, so many.
    Took(usize),
    /// It took so many of them.
    Less(usize),
    /// It took none in its time.
    Nothing,
    /// It takes no more.
    Closed,
}

/// Whether a read or a write found nothing to do in its time.
pub(crate) fn is_nothing(error: &Error) -> bool {
    let kind = error.kind();
    kind == ErrorKind::WouldBlock || kind == ErrorKind::TimedOut || kind == ErrorKind::Interrupted
}

/// Puts a message after those that are to go out. The number of a hello is not 0.
pub(crate) fn say<S: Drop>(
    alloc: Global,
    link: &mut Link<S>,
    message: LinkMessage,
) -> Result<(), End>
    requires { IsNumbered message }
{
    say_spelled(link, spelled(alloc, message)?)
}

/// The octets of a message. The number of a hello is not 0.
pub(crate) fn spelled(alloc: Global, message: LinkMessage) -> Result<Vec<u8>, End>
    requires { IsNumbered message }
{
    let mut octets = Vec::new(alloc);
    let written = link_out(alloc, &mut octets, &message);
    drop(message);
    match written {
        Ok(()) => Ok(octets),
        Err(_) => {
            drop(octets);
            Err(End::Memory)
        }
    }
}

/// Puts the octets of a message after those that are to go out.
pub(crate) fn say_spelled<S: Drop>(link: &mut Link<S>, octets: Vec<u8>) -> Result<(), End> {
    let size = octets.len();
    if link.outgoing.push_back(octets).is_err() {
        return Err(End::Memory);
    }
    link.behind = link.behind.saturating_add(size);
    Ok(())
}

/// Whether so much waits to go out that the other end cannot be told more.
pub(crate) fn is_behind<S: Drop>(link: &Link<S>) -> bool {
    link.behind > MOST_BEHIND
}

/// Lets go out what the stream takes in some writes, fewer at a shift's end. A stream that took
/// less than it was given has no more room, and is not waited for. If it took nothing for too long
/// the link is lost. If it takes no more the link is mute. Runs in a seat's thread, without a lock.
pub(crate) fn write_some<S: Write + Drop>(link: &mut Link<S>, phase: Phase) -> Result<(), End> {
    let most = if phase == Phase::Quiet {
        LAST_WRITES
    } else {
        MOST_WRITES
    };
    for _ in 0..most {
        let Some(first) = link.outgoing.front() else {
            return Ok(());
        };
        match write_once(&mut link.stream, first.as_slice(), link.written) {
            Outcome::Took(size) => {
                link.stalls = 0;
                advance(link, size);
            }
            Outcome::Less(size) => {
                link.stalls = 0;
                advance(link, size);
                return Ok(());
            }
            Outcome::Nothing => return count_stall(link),
            Outcome::Closed => {
                stop_sending(link);
                return Ok(());
            }
        }
    }
    Ok(())
}

/// Nothing goes out any more: what was to go out is let go. The other end may be gone for ever, and
/// what it said before that may be nowhere else, so it is heard.
fn stop_sending<S: Drop>(link: &mut Link<S>) {
    link.mute = true;
    link.outgoing.clear();
    link.answering = 0;
    link.behind = 0;
    link.written = 0;
}

/// Writes once, after so many octets that went out.
fn write_once<S: Write>(stream: &mut S, octets: &[u8], written: usize) -> Outcome {
    if written >= octets.len() {
        return Outcome::Took(0);
    }
    let end = octets.len().min(written.saturating_add(AT_ONCE));
    match stream.write(&octets[written..end]) {
        Ok(0) => Outcome::Closed,
        Ok(size) if size < end - written => Outcome::Less(size),
        Ok(size) => Outcome::Took(size),
        Err(error) => {
            if is_nothing(&error) {
                Outcome::Nothing
            } else {
                Outcome::Closed
            }
        }
    }
}

/// So many octets more of the first message went out. Behind the last one it is done with.
fn advance<S: Drop>(link: &mut Link<S>, size: usize) {
    add(&mut link.counts.sent, size);
    let written = link.written.saturating_add(size);
    match link.outgoing.front() {
        Some(first) if written < first.len() => link.written = written,
        _ => {
            forget_first(link);
            link.written = 0;
        }
    }
}

/// The first message went out.
fn forget_first<S: Drop>(link: &mut Link<S>) {
    if let Some(first) = link.outgoing.pop_front() {
        if link.answering > 0 {
            link.answering = link.answering.saturating_sub(1);
        } else {
            link.behind = link.behind.saturating_sub(first.len());
        }
    }
}

/// The stream took nothing once more.
fn count_stall<S: Drop>(link: &mut Link<S>) -> Result<(), End> {
    link.stalls = link.stalls.saturating_add(1);
    if link.stalls > MOST_STALLED_WRITES {
        return Err(End::Lost);
    }
    Ok(())
}
