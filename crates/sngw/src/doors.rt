//! How links are made: peers are dialled, others are accepted.
//!
//! Each door has a thread, from the begin of the program to its end. It takes the pool's lock to
//! put a link there, and none while it dials or waits.

use crate::board::{Number, Shared};
use crate::program::Program;
use gw_link::{Link, Origin, Phase, Report, Trouble};
use gw_main::options::Settings;
use gw_relay::next_pause;
use gw_run::{MOST_ACCEPTED, Pool};
use gw_wire::{address, second};
use sn_local::Addr;
use std::alloc::Global;
use std::net::{TcpListener, TcpStream};
use std::sync::Wait;
use std::thread;
use std::thread::Threads;
use std::time::{Clock, Duration};

/// How many milliseconds a read of a link waits. So often a link looks for deltas to tell, and
/// whether its shift is over.
const READ_TIMEOUT_MS: u64 = 10;

/// How many milliseconds a write of a link waits. What the other end has not taken by then waits,
/// and what it says is read.
const WRITE_TIMEOUT_MS: u64 = 10;

/// How many milliseconds a peer has to take a call: one that is far away is linked too.
const DIAL_TIMEOUT_MS: u64 = 10_000;

/// How many milliseconds pass before a peer is dialled again.
const REDIAL_WAIT_MS: u64 = 1_000;

/// How many milliseconds pass before it is looked again whether somebody dials.
const ACCEPT_WAIT_MS: u64 = 50;

/// How many lines are told at once.
const MOST_LINES: usize = 16;

/// Where links come from: a peer, or whoever dials.
#[derive(Clone, Copy)]
pub struct Door {
    origin: Origin,
    at: Addr,
}

/// A door for each peer, and one for those who dial. `None` where memory ran out.
pub(crate) fn doors_of(alloc: Global, settings: &Settings) -> Option<Vec<Door>> {
    let mut doors = Vec::new(alloc);
    let accepting = Door {
        origin: Origin::Accepted,
        at: settings.link,
    };
    if doors.push(accepting).is_err() {
        return None;
    }
    for peer in 0..settings.peers.len() {
        let dialling = Door {
            origin: Origin::Dialled(peer),
            at: settings.peers[peer],
        };
        if doors.push(dialling).is_err() {
            return None;
        }
    }
    Some(doors)
}

/// Keeps the doors open until the program's work is over, each in a thread of its own.
pub(crate) fn keep_all<T>(program: &Program<'_, T>, doors: &mut [Door], listener: &TcpListener)
where
    T: Threads + Wait + Sync + Clock,
{
    let count = doors.len();
    if count > 0 {
        let at = |_place: usize, door: &mut Door| {
            match door.origin {
                Origin::Accepted => accept_all(program, listener),
                Origin::Dialled(_) => dial_all(program, *door),
            }
        };
        thread::for_each_mut(program.rt, doors, count, &at);
    }
}

/// Dials a peer whenever no link to it is open: at once if the last one worked, and with growing
/// pauses if it takes the call and does not say its number. Runs in the peer's door's thread, and
/// holds no lock while it dials.
fn dial_all<T: Wait + Clock>(program: &Program<'_, T>, door: Door) {
    let mut dials = Dials {
        pause: 0,
        left: 0,
        has_called: false,
    };
    let rt = program.rt;
    for _ in rt.forever() {
        if program.over.phase(rt) != Phase::Serving {
            return;
        }
        if program.shared.pool.may_open(rt, door.origin) {
            dial_in_turn(program, door, &mut dials);
        }
        program.over.wait(rt, Phase::Serving, REDIAL_WAIT_MS);
    }
    unreachable!()
}

/// How a peer was dialled.
#[derive(Clone, Copy)]
struct Dials {
    /// How many seconds it is not dialled after a link that ended.
    pause: u64,
    /// How many of them are left.
    left: u64,
    /// Whether it took the last call.
    has_called: bool,
}

/// Dials a peer to which no link is open, unless it is to be left alone for some seconds more.
fn dial_in_turn<T: Wait>(program: &Program<'_, T>, door: Door, dials: &mut Dials) {
    let pool = &program.shared.pool;
    if dials.has_called {
        dials.pause = next_pause(dials.pause, pool.has_spoken(program.rt, door.origin));
        dials.left = dials.pause;
        dials.has_called = false;
    }
    if dials.left == 0 {
        dials.has_called = dial(program, door);
        if !dials.has_called {
            note_no_dial(program.shared, door.origin);
        }
    }
    dials.left = dials.left.saturating_sub(1);
}

/// Dials a peer. Whether it took the call.
fn dial<T: Wait>(program: &Program<'_, T>, door: Door) -> bool {
    let pool = &program.shared.pool;
    let found = TcpStream::connect_timeout(
        program.host,
        &address(door.at),
        Duration::from_millis(DIAL_TIMEOUT_MS),
    );
    match found {
        Ok(stream) => {
            open(program.rt, program.alloc, stream, door.origin, pool);
            true
        }
        Err(_) => false,
    }
}

/// Counts a dial of a peer that did not take the call.
fn note_no_dial(shared: &Shared, origin: Origin) {
    if let Origin::Dialled(peer) = origin {
        shared.board.note_no_dial(peer);
    }
}

/// Accepts those who dial, as many as may be, and tells the troubles, unless the watcher does. Runs
/// in the thread of the door for all who dial.
fn accept_all<T: Wait + Clock>(program: &Program<'_, T>, listener: &TcpListener) {
    let rt = program.rt;
    for _ in rt.forever() {
        if program.over.phase(rt) != Phase::Serving {
            return;
        }
        if program.shared.board.get(Number::Watcher) == 0 {
            tell_all(program);
        }
        match listener.accept() {
            Ok((stream, _)) => accept(rt, program.alloc, stream, program.shared),
            Err(_) => program.over.wait(rt, Phase::Serving, ACCEPT_WAIT_MS),
        }
    }
    unreachable!()
}

/// Accepts one who has dialled, if one more may be linked.
fn accept<T: Wait>(rt: &T, alloc: Global, stream: TcpStream, shared: &Shared) {
    if shared.pool.may_open(rt, Origin::Accepted) {
        open(rt, alloc, stream, Origin::Accepted, &shared.pool);
    } else {
        shared.board.add(Number::TurnedAway);
        shared.pool.relay.note_trouble(rt, Trouble::TurnedAway, 0);
        drop(stream);
    }
}

/// Puts a connection among the links, where its times can be set.
fn open<T: Wait>(rt: &T, alloc: Global, stream: TcpStream, origin: Origin, pool: &Pool<TcpStream>) {
    let is_set = stream.set_nonblocking(false).is_ok()
        && stream.set_nodelay(true).is_ok()
        && stream
            .set_read_timeout(Some(Duration::from_millis(READ_TIMEOUT_MS)))
            .is_ok()
        && stream
            .set_write_timeout(Some(Duration::from_millis(WRITE_TIMEOUT_MS)))
            .is_ok();
    if is_set {
        pool.open(rt, Link::new(alloc, stream, origin));
    }
}

/// Tells the troubles that are to be told, each in a line of standard error: that nothing can be
/// sent, and those of links.
fn tell_all<T: Wait + Clock>(program: &Program<'_, T>) {
    let rt = program.rt;
    let pool = &program.shared.pool;
    let err = program.said.err;
    if pool.outage.is_to_tell(rt) {
        err.say(rt, outage_line(program.alloc));
    }
    for _ in 0..MOST_LINES {
        match pool.relay.report(rt, second(program.host)) {
            None => return,
            Some(report) => err.say(rt, trouble_line(program.alloc, report)),
        }
    }
}

/// The line that tells that nothing could be sent. `None` if memory runs out.
pub(crate) fn outage_line(alloc: Global) -> Option<String> {
    let line = format!(in alloc;
        "listen: for a minute nothing could be sent; no time passes for clients"
    );
    line.ok()
}

/// The line that tells a trouble. `None` if memory runs out.
pub(crate) fn trouble_line(alloc: Global, report: Report) -> Option<String> {
    let Report {
        trouble,
        number,
        count,
    } = report;
    let number = number_in(trouble, number);
    let before = words_before(trouble);
    let after = words_after(trouble);
    let line = format!(in alloc; "link: {before}{number}{after}: {count} times");
    line.ok()
}

/// The number in the line that tells a trouble: of links if no more may be, else the gateway's.
fn number_in(trouble: Trouble, number: u8) -> u64 {
    match trouble {
        Trouble::TurnedAway => MOST_ACCEPTED as u64,
        _ => u64::from(number),
    }
}

/// What stands before that number.
fn words_before(trouble: Trouble) -> &'static str {
    match trouble {
        Trouble::SameNumber => "another gateway has the number ",
        Trouble::TurnedAway => "",
        _ => "gateway ",
    }
}

/// What stands after it.
fn words_after(trouble: Trouble) -> &'static str {
    match trouble {
        Trouble::SameNumber => " of this one, and is not linked",
        Trouble::Stranger => " is not among numbers, and is not linked",
        Trouble::Conflict => " told what contradicts what is kept, and was refused",
        Trouble::TooMuch => " told more than may be kept, and was refused",
        Trouble::TurnedAway => " that dialled are linked, and another was turned away",
        Trouble::Twice => " was linked once more while it was linked",
    }
}
