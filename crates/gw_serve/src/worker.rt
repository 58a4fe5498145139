//! A worker: it takes numbers, makes their calls, and sends the replies when the calls are done.

ghost use Rattle.std.specs.Prelude.{◌≡◌, ◌≤◌, ◌+◌, vec_len, vec_capacity, None, [], IfSome};
ghost use Rattle.crossbeam_channel.specs.Ends.{receives_on};
ghost use Rattle.gw_serve.specs.declared.queue.TheConstants.{CAPACITY};
ghost use Rattle.gw_serve.specs.declared.worker.Trouble.TheVariants as troubles;
ghost use Rattle.gw_serve.specs.inner.Handling.{IsHandled};
ghost use Rattle.gw_serve.specs.inner.Rows.{IsTakenRow, IsEmptyRow};
ghost use Rattle.gw_serve.specs.inner.Work.{IsFresh, IsWorked};

use crate::bell::Bell;
use crate::crowd::{Crowd, moment};
use crate::queue::{CAPACITY, Receiver, Ticket};
use crate::row::{End, Row, call_row, leave_rest, take_row, tell_all};
use gw_shift::{Pass, Shift};
use gw_wire::{Gate, Post};
use jr_disk::Disk;
use rep_model::Replica;
use std::alloc::Global;
use std::sync::atomic::{AtomicBool, Ordering};
use std::sync::{MutexGuard, Wait};
use std::time::Clock;
use thiserror::Error;

/// Why serving ended early.
#[derive(Clone, Copy, Debug, PartialEq, Eq, Error)]
pub enum Cause {
    /// A receive failed.
    #[error("a receive failed")]
    Wire,
    /// Memory ran out, also where the gateway said so.
    #[error("out of memory")]
    Memory,
    /// A pass had seen more calls than the shift has.
    #[error("a pass has seen more calls than the shift has")]
    Behind,
}

/// Why a worker ended early.
#[derive(Clone, Copy, PartialEq, Eq)]
pub enum Trouble {
    /// Memory ran out.
    Memory,
    /// Its pass had seen more calls than the shift has.
    Behind,
}

/// A datagram's number, and that of the call that it became.
#[derive(Clone, Copy, PartialEq, Eq)]
pub struct Taken {
    /// The number of the datagram.
    pub datagram: u64,
    /// The number of the call in the shift's history.
    pub step: u64,
}

/// A worker's place: its rights, and what it did.
#[derive(Drop)]
pub struct Seat {
    /// Its right to call the shift.
    pub pass: Pass,
    /// Its right to take from the queue.
    pub ticket: Ticket,
    /// What became calls.
    pub taken: Vec<Taken>,
    /// The numbers of the others.
    pub left: Vec<u64>,
    /// Why it ended early.
    pub fault: Option<Trouble>,
}

impl Seat {
    /// A seat in which nothing was done.
    pub fn new(alloc: Global, pass: Pass, ticket: Ticket) -> Seat
        ensures pass { result.pass ≡ pass }
        ensures ticket { result.ticket ≡ ticket }
        ensures fresh { (result.taken.items ≡ []) × (result.left.items ≡ [])
            × (result.fault ≡ None) }
    {
        Seat {
            pass,
            ticket,
            taken: Vec::new(alloc),
            left: Vec::new(alloc),
            fault: None,
        }
    }
}

/// What the reader and all workers share while serving lasts. The shift is lent for longer.
pub struct Shared<'s, 'a, T: Wait, R: Replica, D: Disk, P: Post, G: Gate> {
    /// The waiting of the threads.
    pub rt: &'a T,
    /// The memory.
    pub alloc: Global,
    /// The shift that the calls are of.
    pub shift: &'s Shift<R, D>,
    /// By which the reader wakes workers.
    pub bell: Bell,
    /// What the last row says of the next one.
    pub crowd: Crowd,
    /// Whether the reader is to stop.
    pub stop: AtomicBool,
    /// By which the replies go out.
    pub post: &'a P,
    /// What hears of each reply.
    pub gate: &'a G,
}

impl<'s, 'a, T: Wait, R: Replica, D: Disk, P: Post, G: Gate> Drop
    for Shared<'s, 'a, T, R, D, P, G> {
    fn drop(self) {
        let Shared {
            rt: _,
            alloc: _,
            shift: _,
            bell,
            crowd,
            stop,
            post: _,
            gate: _,
        } = self;
        drop(bell);
        drop(crowd);
        drop(stop);
    }
}

/// Works until the queue is closed and empty. If it failed, the reader is to stop. Runs in a
/// worker's thread.
pub fn work<T: Wait + Clock, R: Replica, D: Disk + Drop, P: Post, G: Gate>(
    shared: &Shared<'_, '_, T, R, D, P, G>,
    receiver: &Receiver,
    seat: Seat,
) -> Seat
    requires { IsFresh (receives_on receiver.now) seat }
    ensures { IsWorked (receives_on receiver.now) seat.pass result }
{
    let seat = take_all(shared, receiver, seat);
    if seat.fault.is_some() {
        shared.stop.store(true, Ordering::SeqCst);
    }
    seat
}

/// Takes numbers until the queue is closed and empty. Room for all that may be taken at once is
/// made before, so each that was taken is told of, unless the worker must end with a fault. Runs in
/// a worker's thread. It takes the turn to take numbers and make their calls, and waits for the
/// bell without it.
fn take_all<T: Wait + Clock, R: Replica, D: Disk + Drop, P: Post, G: Gate>(
    shared: &Shared<'_, '_, T, R, D, P, G>,
    receiver: &Receiver,
    seat: Seat,
) -> Seat
    requires { IsFresh (receives_on receiver.now) seat }
    ensures { IsWorked (receives_on receiver.now) seat.pass result }
{
    let Seat {
        mut pass,
        mut ticket,
        mut taken,
        mut left,
        fault: _,
    } = seat;
    let rt = shared.rt;
    let bell = &shared.bell;
    let mut has_worked = false;
    for _ in rt.forever() {
        let Some(mut row) = room_for(shared.alloc, &mut taken, &mut left) else {
            return seat_of(pass, ticket, taken, left, Some(Trouble::Memory));
        };
        let heard = bell.heard(rt);
        let turn = bell.take_turn(rt);
        shared.crowd.wait(rt, bell);
        let Ok(()) = take_row(shared, receiver, &mut ticket, &mut row) else {
            drop(turn);
            drop(row);
            return seat_of(pass, ticket, taken, left, Some(Trouble::Memory));
        };
        if row.numbers.is_empty() {
            let _ = MutexGuard::unlock(turn);
            drop(row);
            if heard.closed {
                return seat_of(pass, ticket, taken, left, None);
            }
            bell.wait_past(rt, heard, has_worked);
            has_worked = false;
        } else {
            let (after, trouble) = handle(shared, pass, row, turn, &mut taken, &mut left);
            pass = after;
            has_worked = true;
            if trouble.is_some() {
                return seat_of(pass, ticket, taken, left, trouble);
            }
        }
    }
    unreachable!()
}

/// A seat of these parts.
fn seat_of(
    pass: Pass,
    ticket: Ticket,
    taken: Vec<Taken>,
    left: Vec<u64>,
    fault: Option<Trouble>,
) -> Seat
    ensures { result ≡ record {
      pass = pass;
      ticket = ticket;
      taken = taken;
      left = left;
      fault = fault;
    } }
{
    Seat {
        pass,
        ticket,
        taken,
        left,
        fault,
    }
}

/// Room for as many numbers more as may be taken at once, in either list and in a row.
fn room_for(alloc: Global, taken: &mut Vec<Taken>, left: &mut Vec<u64>) -> Option<Row>
    ensures same { (taken.new.items ≡ taken.old.items) × (left.new.items ≡ left.old.items) }
    ensures room { IfSome result (λ row. IsEmptyRow row
        × (vec_len taken.new + CAPACITY ≤ vec_capacity taken.new)
        × (vec_len left.new + CAPACITY ≤ vec_capacity left.new)) }
{
    let Ok(()) = taken.reserve(CAPACITY) else {
        return None;
    };
    let Ok(()) = left.reserve(CAPACITY) else {
        return None;
    };
    match Row::new(alloc) {
        Ok(row) => Some(row),
        Err(_) => None,
    }
}

/// Makes the calls of a row, with the turn and under the shift's lock, and then sends their
/// replies, with neither. What the shift does not make is left, and the reader is to stop. Runs in
/// a worker's thread.
fn handle<T: Wait + Clock, R: Replica, D: Disk + Drop, P: Post, G: Gate>(
    shared: &Shared<'_, '_, T, R, D, P, G>,
    pass: Pass,
    mut row: Row,
    turn: MutexGuard<'_, ()>,
    taken: &mut Vec<Taken>,
    left: &mut Vec<u64>,
) -> (Pass, Option<Trouble>)
    requires row { IsTakenRow row }
    requires room { (vec_len taken.old + CAPACITY ≤ vec_capacity taken.old)
        × (vec_len left.old + CAPACITY ≤ vec_capacity left.old) }
    ensures { IsHandled pass row.numbers.items taken.old.items left.old.items result.1
        taken.new.items left.new.items result.0 }
{
    let start = moment(shared.rt);
    let (pass, end) = call_row(shared, pass, &mut row);
    let waiting = shared.bell.waiting();
    shared
        .crowd
        .note(shared.rt, row.numbers.len(), waiting, start);
    let _ = MutexGuard::unlock(turn);
    let Row {
        numbers,
        steps,
        called,
    } = row;
    drop(steps);
    let count = called.len();
    let is_wanting = tell_all(shared.post, shared.gate, called, taken);
    match end {
        End::Failed(trouble) => (pass, Some(trouble)),
        End::Done => (pass, trouble_if(is_wanting)),
        End::Full => {
            leave_rest(numbers.as_slice(), count, left);
            shared.stop.store(true, Ordering::SeqCst);
            (pass, trouble_if(is_wanting))
        }
    }
}

/// That memory ran out, if it did.
fn trouble_if(is_wanting: bool) -> Option<Trouble>
    ensures { IfSome result (λ trouble. trouble ≡ troubles.Memory) }
{
    if is_wanting {
        Some(Trouble::Memory)
    } else {
        None
    }
}
