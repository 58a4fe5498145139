//! A datagram over UDP sockets of this machine.

use crate::page::Page;
use crate::stop::{Stop, missing};
use crate::wires::serving::{Crew, Outcome, Shared, Sides, serve_all, unserved};
use gw_shift::Pass;
use gw_wire::{FieldClock, OpenGate, Post, Socket, Wire, address};
use jr_journal::MemoryDisk;
use mio::net::UdpSocket;
use rep_plain::Plain;
use sn_local::Addr;
use std::alloc::Global;
use std::net::SocketAddr;
use std::sync::Wait;
use std::sync::atomic::{AtomicBool, Ordering};
use std::thread::Threads;
use std::time::Clock;
use std::{io, thread};

/// How often an asker looks for its answer.
const LOOKS: u64 = 10_000_000;

/// How many turns serving has, each of 100 milliseconds at most.
const TURNS: u64 = 600;

/// A free port of this machine.
const HOME: Addr = Addr {
    host: 0x7f00_0001,
    port: 0,
};

/// The octets that an answer has at most.
const ROOM: usize = 64;

/// What is asked: a first datagram, and another one once it is answered.
pub(crate) struct Questions {
    pub(crate) first: Vec<u8>,
    pub(crate) second: Vec<u8>,
}

impl Drop for Questions {
    fn drop(self) {
        let Questions { first, second } = self;
        drop(first);
        drop(second);
    }
}

/// The socket of somebody who asks, and what is asked.
#[derive(Drop)]
struct Asker<'a> {
    socket: UdpSocket,
    /// The address of the gateway.
    at: SocketAddr,
    questions: &'a Questions,
    /// Room for what is answered.
    room: Vec<u8>,
}

/// Asks, prints the first answer, and tells how serving ended.
pub(crate) fn over_sockets<T: Threads + Wait + Sync + Clock>(
    rt: &T,
    page: &mut Page,
    shift: &Shared,
    passes: Vec<Pass>,
    questions: &Questions,
) -> Outcome {
    match Socket::bind(&page.host(), page.alloc(), HOME) {
        Ok(mut socket) => {
            let outcome = over_socket(rt, page, shift, passes, &mut socket, questions);
            drop(socket);
            outcome
        }
        Err(error) => unasked(page, passes, error),
    }
}

/// The outcome where there is no socket.
fn unasked(page: &mut Page, passes: Vec<Pass>, error: io::Error) -> Outcome {
    page.stop(missing(&error));
    drop(error);
    unserved(page.alloc(), passes, None)
}

/// The same once the gateway has its socket.
fn over_socket<T: Threads + Wait + Sync + Clock>(
    rt: &T,
    page: &mut Page,
    shift: &Shared,
    passes: Vec<Pass>,
    socket: &mut Socket,
    questions: &Questions,
) -> Outcome {
    match UdpSocket::bind(&page.host(), address(HOME)) {
        Ok(asking) => {
            let asker = Asker {
                socket: asking,
                at: socket.local,
                questions,
                room: room(page),
            };
            over_both(rt, page, Crew { shift, passes }, socket, asker)
        }
        Err(error) => unasked(page, passes, error),
    }
}

/// The same once both have a socket. A row ends if nothing was answered, or not all came.
fn over_both<T: Threads + Wait + Sync + Clock>(
    rt: &T,
    page: &mut Page,
    crew: Crew<'_>,
    socket: &mut Socket,
    asker: Asker<'_>,
) -> Outcome {
    let (answer, outcome) = asked(rt, page.alloc(), crew, socket, asker);
    print_answer(page, &answer);
    drop(answer);
    if outcome.cause.is_none() && came(&outcome) < 2 {
        page.stop(Stop::TooLate);
    }
    outcome
}

/// How many datagrams came.
fn came(outcome: &Outcome) -> usize {
    outcome.taken.len().saturating_add(outcome.left.len())
}

/// Room for what is answered.
fn room(page: &mut Page) -> Vec<u8> {
    match Vec::from_elem(page.alloc(), 0u8, ROOM) {
        Ok(room) => room,
        Err(_) => {
            page.stop(Stop::Memory);
            Vec::new(page.alloc())
        }
    }
}

/// What was answered; the row ends if nothing was.
fn print_answer(page: &mut Page, answer: &Option<Vec<u8>>) {
    match answer {
        Some(octets) => {
            page.octets("answered ", octets.as_slice());
            page.end();
        }
        None => page.stop(Stop::TooLate),
    }
}

/// The first answer to what is asked over a socket, and how serving ended.
fn asked<T: Threads + Wait + Sync + Clock>(
    rt: &T,
    alloc: Global,
    crew: Crew<'_>,
    socket: &mut Socket,
    asker: Asker<'_>,
) -> (Option<Vec<u8>>, Outcome) {
    let clock = FieldClock::new();
    let _ = clock.look(rt);
    let (mut ears, mouth) = socket.sides(&clock);
    side_by_side(rt, alloc, crew, &mut ears, &mouth, asker)
}

/// One thread asks, others serve.
fn side_by_side<T, W, P>(
    rt: &T,
    alloc: Global,
    crew: Crew<'_>,
    wire: &mut W,
    post: &P,
    asker: Asker<'_>,
) -> (Option<Vec<u8>>, Outcome)
where
    T: Threads + Wait + Sync + Clock,
    W: Wire,
    P: Post + Sync,
{
    let Crew { shift, passes } = crew;
    let Asker {
        socket: asking,
        at,
        questions,
        room,
    } = asker;
    let first = questions.first.as_slice();
    let second = questions.second.as_slice();
    let socket = &asking;
    // Whether nobody serves any more.
    let over = AtomicBool::new(false);
    let is_over = &over;
    let both = thread::join(
        rt,
        || -> Option<Vec<u8>> { ask_both(socket, at, first, second, room, is_over) },
        || -> Outcome {
            let gate = &OpenGate;
            let turns = TURNS;
            let sides = Sides {
                wire,
                post,
                gate,
                turns,
            };
            let outcome = serve_all(rt, alloc, Crew { shift, passes }, sides);
            is_over.store(true, Ordering::Release);
            outcome
        },
    );
    drop(asking);
    both
}

/// Sends both, the second after the answer to the first, which is handed back.
fn ask_both(
    socket: &UdpSocket,
    at: SocketAddr,
    first: &[u8],
    second: &[u8],
    room: Vec<u8>,
    is_over: &AtomicBool,
) -> Option<Vec<u8>> {
    let answer = ask(socket, at, first, room, is_over);
    let _ = socket.send_to(second, at);
    answer
}

/// Sends a datagram, and waits for the next that comes, for as long as somebody serves.
fn ask(
    socket: &UdpSocket,
    at: SocketAddr,
    bytes: &[u8],
    mut room: Vec<u8>,
    is_over: &AtomicBool,
) -> Option<Vec<u8>> {
    if socket.send_to(bytes, at).is_err() {
        return None;
    }
    for _ in 0..LOOKS {
        if let Ok((size, _)) = socket.recv_from(room.as_mut_slice()) {
            room.truncate(size);
            return Some(room);
        }
        if is_over.load(Ordering::Acquire) {
            return None;
        }
        thread::yield_now();
    }
    None
}
