//! Calls of one gateway on a disk in memory, made directly and through a shift, so that the two can
//! be compared in one run.

use crate::calls::{call_thrice, close_by, open_node, over, shared_step, told};
use crate::page::Page;
use crate::seats::{Seat, add_seated, call_all, seat_all};
use crate::shifts;
use crate::stop::Stop;
use gw_node::{Answer, Node, NodeFault, Step};
use gw_shift::{Closed, Ended, Pass, Shift};
use jr_journal::MemoryDisk;
use octets::{Octets, Sequence};
use rep_plain::Plain;
use sn_local::{Addr, Config};
use std::sync::{Arc, Wait};
use std::thread::Threads;
use std::time::{Clock, Instant};

/// A gateway on a disk in memory.
type Gateway<R> = Node<R, MemoryDisk>;

/// At most so many threads make calls.
pub(crate) const MOST: u32 = 8;

/// How many calls a round has.
const CALLS: usize = 4096;

/// The client's port of host 0.
const CLIENT: Addr = Addr { host: 0, port: 7 };

const CONNECT: [u8; 8] = [8, 4, 4, 1, 0, 60, 0x73, 0x31];

const SEARCHGW: [u8; 3] = [3, 1, 0];

const SLEEP: [u8; 4] = [4, 0x18, 1, 0x2c];

/// Makes so many rounds of calls by so many threads, each round of a gateway of its own; with 0
/// threads the calls are made directly. Prints the calls, and on standard error the microseconds
/// that they took.
pub(crate) fn run<T>(rt: &T, page: &mut Page, name: &str, threads: usize, rounds: u16)
where
    T: Threads + Wait + Sync + Clock,
{
    let step = step_of(page, name);
    if let Some(step) = &step {
        let micros = all(rt, page, step, threads, rounds);
        tell(page, name, threads, rounds, micros);
    }
    drop(step);
}

/// Prints the calls, and on standard error the microseconds that they took.
fn tell(page: &mut Page, name: &str, threads: usize, rounds: u16, micros: u64) {
    let calls = u64::from(rounds) * 4096;
    print_work(page, name, threads, rounds);
    page.number(": ", calls);
    page.text(" calls\n");
    let mut times = Page::new(page.host());
    print_work(&mut times, name, threads, rounds);
    times.number(" ", calls);
    times.number(" ", micros);
    tell_times(&times);
    drop(times);
}

/// Prints a work, the threads and the rounds.
fn print_work(page: &mut Page, name: &str, threads: usize, rounds: u16) {
    page.text(name);
    page.length(" ", threads);
    page.number(" ", u64::from(rounds));
}

/// A line on standard error.
fn tell_times(times: &Page) {
    let _ = eprintln!(&times.host(); "{}", times.printed());
}

/// The call of a work, to be shared.
fn step_of(page: &mut Page, name: &str) -> Option<Arc<Step>> {
    match name {
        "search" => shared(page, &SEARCHGW),
        "sleep" => shared(page, &SLEEP),
        _ => {
            page.stop(Stop::Line);
            None
        }
    }
}

/// The call that brings this datagram, to be shared.
fn shared(page: &mut Page, datagram: &[u8]) -> Option<Arc<Step>> {
    match Octets::from_slice(page.alloc(), datagram) {
        Ok(bytes) => shared_frame(page, bytes),
        Err(_) => {
            page.stop(Stop::Memory);
            None
        }
    }
}

/// The call that brings these octets, to be shared.
fn shared_frame(page: &mut Page, bytes: Octets) -> Option<Arc<Step>> {
    let step = Step::Frame {
        from: CLIENT,
        bytes,
        now: 0,
    };
    let shared = shared_step(page.alloc(), step);
    page.stop_if_short(shared.is_none());
    shared
}

/// The microseconds that all rounds took.
fn all<T>(rt: &T, page: &mut Page, step: &Arc<Step>, threads: usize, rounds: u16) -> u64
where
    T: Threads + Wait + Sync + Clock,
{
    let mut micros = 0_u64;
    for _ in 0..rounds {
        micros = micros.wrapping_add(round(rt, page, step, threads));
    }
    micros
}

/// The microseconds that a round took.
fn round<T>(rt: &T, page: &mut Page, step: &Arc<Step>, threads: usize) -> u64
where
    T: Threads + Wait + Sync + Clock,
{
    match gateway(page) {
        Some(node) => round_of(rt, page, node, step, threads),
        None => 0,
    }
}

/// The microseconds that a round of this gateway took.
fn round_of<T>(
    rt: &T,
    page: &mut Page,
    node: Gateway<Plain>,
    step: &Arc<Step>,
    threads: usize,
) -> u64
where
    T: Threads + Wait + Sync + Clock,
{
    if threads == 0 {
        direct(page, node, step)
    } else {
        by_threads(rt, page, node, step, threads)
    }
}

/// Gateway 1 on an empty disk, with a client that has connected.
fn gateway(page: &mut Page) -> Option<Gateway<Plain>> {
    match told(page.alloc(), 1, 0, Sequence::empty(page.alloc())) {
        Some(config) => opened(page, config),
        None => {
            page.stop(Stop::Memory);
            None
        }
    }
}

/// A gateway on an empty disk, with a client that has connected.
fn opened(page: &mut Page, config: Config) -> Option<Gateway<Plain>> {
    match open_node::<Plain>(page.alloc(), config, MemoryDisk::new(page.alloc())) {
        Ok(node) => Some(greeted(page, node)),
        Err((disk, fault)) => {
            note_unopened(page, disk, fault);
            None
        }
    }
}

/// Notes why a gateway is not opened.
fn note_unopened(page: &mut Page, disk: MemoryDisk, fault: NodeFault) {
    page.stop(stop_of(&fault, disk.starved()));
    drop(fault);
    drop(disk);
}

/// The gateway once the client has connected.
fn greeted(page: &mut Page, node: Gateway<Plain>) -> Gateway<Plain> {
    let mut node = node;
    let answer = node.frame(page.alloc(), CLIENT, &CONNECT, 0);
    check(page, &answer, node.starved());
    drop(answer);
    node
}

/// Why a work stops: memory ran out, also in its disk, or a call was refused.
fn stop_of(fault: &NodeFault, is_starved: bool) -> Stop {
    if is_starved || matches!(fault, NodeFault::Memory) {
        return Stop::Memory;
    }
    Stop::Work
}

/// Notes a call that was refused.
fn check(page: &mut Page, answer: &Answer, is_starved: bool) {
    if let Err(fault) = answer {
        page.stop(stop_of(fault, is_starved));
    }
}

/// The microseconds since a moment; 0 if the clock failed.
fn since(page: &mut Page, start: &Option<Instant>) -> u64 {
    if let Some(start) = start {
        if let Ok(taken) = start.elapsed(&page.host()) {
            return (taken.as_micros() % 1_000_000_000_000) as u64;
        }
    }
    page.stop(Stop::Work);
    0
}

/// The calls, made by the one that owns the gateway: the microseconds that they took.
fn direct(page: &mut Page, node: Gateway<Plain>, step: &Step) -> u64 {
    let mut node = node;
    let micros = timed(page, &mut node, step);
    drop(node);
    micros
}

/// The microseconds that the calls of this gateway took.
fn timed(page: &mut Page, node: &mut Gateway<Plain>, step: &Step) -> u64 {
    let start = Instant::now(&page.host()).ok();
    for _ in 0..CALLS {
        call(page, node, step);
    }
    since(page, &start)
}

/// A call, which is not refused.
fn call(page: &mut Page, node: &mut Gateway<Plain>, step: &Step) {
    let answers = call_thrice(page.alloc(), node, step);
    check(page, &answers.0, node.starved());
    drop(answers);
}

/// The calls, made by threads that share the gateway: the microseconds that they took. The shift is
/// closed.
fn by_threads<T>(
    rt: &T,
    page: &mut Page,
    node: Gateway<Plain>,
    step: &Arc<Step>,
    threads: usize,
) -> u64
where
    T: Threads + Wait + Sync + Clock,
{
    let each = CALLS / threads.max(1);
    match shifts::open(page, node, threads, 4096) {
        Some((shift, passes)) => at_once(rt, page, shift, passes, step, each),
        None => 0,
    }
}

/// The passes of a shift make so many calls each, all at once: the microseconds that these take.
/// The shift is closed.
fn at_once<T>(
    rt: &T,
    page: &mut Page,
    shift: Shift<Plain, MemoryDisk>,
    passes: Vec<Pass>,
    step: &Arc<Step>,
    each: usize,
) -> u64
where
    T: Threads + Wait + Sync + Clock,
{
    let mut seats = Vec::new(page.alloc());
    seat_all(page, &mut seats, passes);
    let micros = timed_at_once(rt, page, &shift, seats.as_mut_slice(), step, each);
    close(page, shift, seats, each);
    micros
}

/// The microseconds that the calls of all seats took, so many of each.
fn timed_at_once<T>(
    rt: &T,
    page: &mut Page,
    shift: &Shift<Plain, MemoryDisk>,
    seats: &mut [Seat],
    step: &Arc<Step>,
    each: usize,
) -> u64
where
    T: Threads + Wait + Sync + Clock,
{
    let start = Instant::now(&page.host()).ok();
    let is_short = call_all(rt, page.alloc(), shift, seats, step, each);
    let micros = since(page, &start);
    page.stop_if_short(is_short);
    micros
}

/// Closes a shift with the passes of all seats, each of which has made so many calls.
fn close(page: &mut Page, shift: Shift<Plain, MemoryDisk>, seats: Vec<Seat>, each: usize) {
    let calls = each.saturating_mul(seats.len());
    let passes = risen(page, seats);
    close_with(page, over(shift), passes, calls);
}

/// The passes of all seats.
fn risen(page: &mut Page, seats: Vec<Seat>) -> Vec<Pass> {
    let mut passes = Vec::new(page.alloc());
    for seat in seats {
        add_seated(page, &mut passes, seat);
    }
    passes
}

/// Closes a shift that is over with these passes, which have made so many calls.
fn close_with(page: &mut Page, over: Ended<Plain, MemoryDisk>, passes: Vec<Pass>, calls: usize) {
    match close_by(over, passes) {
        Ok(closed) => check_closed(page, closed, calls),
        Err(refused) => {
            drop(refused);
            page.stop(Stop::Work);
        }
    }
}

/// A closed shift has so many calls, and no memory was refused in its disk.
fn check_closed(page: &mut Page, closed: Closed<Plain, MemoryDisk>, calls: usize) {
    page.stop_if_short(closed.node.starved());
    if closed.history.len() != calls {
        page.stop(Stop::Work);
    }
    drop(closed);
}
