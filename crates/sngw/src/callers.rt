//! Those who ask the page: each request is read, answered and closed, and none waits for another.
//!
//! A few are served side by side, each for some seconds at most. Whoever comes while there is no
//! room waits in the listener, and nobody waits for whoever does not read.

use gw_page::{may_grow, page};
use gw_report::Report;
use gw_wire::millisecond;
use std::alloc::Global;
use std::io::{Error, ErrorKind, Read, Write};
use std::mem;
use std::net::{Shutdown, TcpListener, TcpStream};

/// How many are served side by side.
const MOST_CALLERS: usize = 32;

/// How many milliseconds a caller has to ask.
const TIME_TO_ASK: u64 = 2_000;

/// How many milliseconds a caller has in all.
const TIME_IN_ALL: u64 = 4_000;

/// How many milliseconds the other end has to close, once all went out.
const TIME_TO_CLOSE: u64 = 500;

/// The largest piece that is read at once.
const PIECE: usize = 4_096;

/// How many octets are written at once.
const LARGEST_WRITE: usize = 65_536;

/// Somebody who asks the page. Only the watcher's thread has callers, and serves them without a
/// lock.
pub struct Caller {
    stream: TcpStream,
    /// The millisecond in which the call was taken.
    began: u64,
    /// What came of the request.
    request: Vec<u8>,
    /// Whether nothing more will come.
    has_ended: bool,
    /// The answer, once all was asked.
    answer: Option<Vec<u8>>,
    /// How many octets of it went out.
    written: usize,
    /// The millisecond in which all of it had: the other end may read it before this one closes.
    told: Option<u64>,
    /// Whether the connection is to be closed.
    is_done: bool,
}

impl Drop for Caller {
    fn drop(self) {
        let Caller {
            stream,
            began: _,
            request,
            has_ended: _,
            answer,
            written: _,
            told: _,
            is_done: _,
        } = self;
        drop(stream);
        drop(request);
        drop(answer);
    }
}

/// Takes those who call, as many as there is room for.
pub(crate) fn take_calls(
    rt: &HostRuntime,
    alloc: Global,
    listener: &TcpListener,
    callers: &mut Vec<Caller>,
) {
    for _ in callers.len()..MOST_CALLERS {
        match listener.accept() {
            Ok((stream, _)) => take_call(alloc, callers, stream, millisecond(rt)),
            Err(_) => return,
        }
    }
}

/// Takes a call, if it can be served beside others.
fn take_call(alloc: Global, callers: &mut Vec<Caller>, stream: TcpStream, began: u64) {
    if stream.set_nonblocking(true).is_ok() {
        let _ = callers.push(Caller {
            stream,
            began,
            request: Vec::new(alloc),
            has_ended: false,
            answer: None,
            written: 0,
            told: None,
            is_done: false,
        });
    } else {
        drop(stream);
    }
}

/// Goes on with all callers, and closes those that are served. Whether one is left.
pub(crate) fn serve_calls(
    rt: &HostRuntime,
    alloc: Global,
    callers: &mut Vec<Caller>,
    piece: &mut [u8],
    report: &Report,
) -> bool {
    let now = millisecond(rt);
    for caller in callers.as_mut_slice() {
        serve(alloc, caller, piece, report, now);
    }
    close_done(callers);
    !callers.is_empty()
}

/// Closes the connections that are to be closed.
fn close_done(callers: &mut Vec<Caller>) {
    let mut place = callers.len();
    for _ in 0..MOST_CALLERS {
        place = place.saturating_sub(1);
        if place < callers.len() && callers[place].is_done {
            drop(callers.swap_remove(place));
        }
    }
}

/// Goes on with a caller: what came is read, and what can go out is written.
fn serve(alloc: Global, caller: &mut Caller, piece: &mut [u8], report: &Report, now: u64) {
    let age = now.saturating_sub(caller.began);
    if age > TIME_IN_ALL {
        caller.is_done = true;
        return;
    }
    if caller.answer.is_none() {
        listen(caller, piece);
        if caller.has_ended || age > TIME_TO_ASK || !may_grow(caller.request.as_slice()) {
            answer(alloc, caller, report);
        }
    }
    match caller.told {
        None => tell(caller, now),
        Some(told) => wait_for_end(caller, piece, now.saturating_sub(told)),
    }
}

/// Answers what came. If memory runs out, the connection is closed.
fn answer(alloc: Global, caller: &mut Caller, report: &Report) {
    match page(alloc, caller.request.as_slice(), report) {
        Ok(octets) => drop(mem::replace(&mut caller.answer, Some(octets))),
        Err(_) => caller.is_done = true,
    }
}

/// How many octets a read or a write moved. `None` if the connection moves no more.
fn moved(done: Result<usize, Error>) -> Option<usize> {
    match done {
        Ok(0) => None,
        Ok(size) => Some(size),
        Err(error) => { if is_nothing(&error) { Some(0) } else { None } }
    }
}

/// Whether a read or a write found nothing to do.
fn is_nothing(error: &Error) -> bool {
    let kind = error.kind();
    kind == ErrorKind::WouldBlock || kind == ErrorKind::TimedOut || kind == ErrorKind::Interrupted
}

/// Reads what came, no more than a request may have.
fn listen(caller: &mut Caller, piece: &mut [u8]) {
    match moved(caller.stream.read(piece)) {
        None => caller.has_ended = true,
        Some(size) => {
            let size = size.min(piece.len());
            if caller.request.extend_from_slice(&piece[..size]).is_err() {
                caller.is_done = true;
            }
        }
    }
}

/// Writes what the other end takes of the answer, and then says that this is all.
fn tell(caller: &mut Caller, now: u64) {
    match tell_some(caller) {
        None => caller.is_done = true,
        Some(false) => {}
        Some(true) => {
            caller.told = Some(now);
            if caller.stream.shutdown(Shutdown::Write).is_err() {
                caller.is_done = true;
            }
        }
    }
}

/// Writes once what is left of the answer, if there is one. Whether all of it went out; `None` if
/// nothing more can.
fn tell_some(caller: &mut Caller) -> Option<bool> {
    let Caller {
        stream,
        answer,
        written,
        ..
    } = caller;
    match answer.as_ref() {
        None => Some(false),
        Some(answer) => {
            let size = moved(write_from(stream, answer.as_slice(), *written))?;
            *written = written.saturating_add(size);
            Some(*written >= answer.len())
        }
    }
}

/// Writes once, after so many octets that went out.
fn write_from(stream: &mut TcpStream, octets: &[u8], written: usize) -> Result<usize, Error> {
    if written >= octets.len() {
        return Ok(0);
    }
    let end = octets.len().min(written.saturating_add(LARGEST_WRITE));
    stream.write(&octets[written..end])
}

/// Drops what still comes, until the other end closes or had its time: closed before, the answer
/// might be lost.
fn wait_for_end(caller: &mut Caller, piece: &mut [u8], waited: u64) {
    if moved(caller.stream.read(piece)).is_none() || waited > TIME_TO_CLOSE {
        caller.is_done = true;
    }
}

/// Room for what is read at once. `None` if memory ran out.
pub(crate) fn room_for_piece(alloc: Global) -> Option<Vec<u8>> {
    Vec::from_elem(alloc, 0u8, PIECE).ok()
}
