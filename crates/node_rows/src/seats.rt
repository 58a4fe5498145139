//! Passes in their seats, and calls that they make: one pass, or several at the same time.

use crate::page::Page;
use crate::passing::is_memory;
use gw_node::{Answer, Out, Step};
use gw_shift::{CallFault, Pass, Shift};
use jr_journal::Disk;
use rep_model::Replica;
use std::alloc::Global;
use std::sync::atomic::{AtomicBool, AtomicU64, Ordering};
use std::sync::{Arc, Wait};
use std::thread::{Threads, join};
use std::{mem, thread};

/// How often a thread looks whether the others have come too.
const TURNS: u64 = 100_000;

/// A seat, and the pass that sits in it.
pub(crate) type Seat = Option<Pass>;

/// What a call of a pass was answered, with its number, or why it has no answer.
pub(crate) type Called = Result<(Arc<Out>, u64), CallFault>;

/// What calls in a row were answered, with the number of the first, or why none was made.
pub(crate) type RowCalled = Result<(Vec<Answer>, u64), CallFault>;

/// Threads that begin at once, and what they note.
struct Start {
    /// How many there are to be.
    threads: u64,
    /// How many have come.
    come: AtomicU64,
    /// Memory ran out in one of them.
    is_short: AtomicBool,
}

impl Drop for Start {
    fn drop(self) {
        let Start {
            threads: _,
            come,
            is_short,
        } = self;
        drop(come);
        drop(is_short);
    }
}

impl Start {
    /// So many threads, of which none has come.
    fn new(threads: usize) -> Start {
        Start {
            threads: threads as u64,
            come: AtomicU64::new(0),
            is_short: AtomicBool::new(false),
        }
    }

    /// Waits until all have come. If the system refuses a thread, another one plays its part after
    /// its own: so nobody waits for long.
    fn wait(&self) {
        let _before = self.come.fetch_add(1, Ordering::SeqCst);
        for _ in 0..TURNS {
            if self.come.load(Ordering::SeqCst) >= self.threads {
                return;
            }
            thread::yield_now();
        }
    }

    /// Notes if memory ran out in a thread, whose calls brought this.
    fn note(&self, turn: Turn) {
        if turn.is_short {
            self.is_short.store(true, Ordering::SeqCst);
        }
        drop(turn);
    }
}

/// What the calls of a pass brought, one after the other.
#[derive(Drop)]
pub(crate) struct Turn {
    /// How many were answered.
    pub(crate) answered: u64,
    /// The number of the answered call before the latest, and that of the latest; 0 for none.
    pub(crate) before: u64,
    pub(crate) number: u64,
    /// The latest answer.
    pub(crate) out: Option<Arc<Out>>,
    /// Memory ran out.
    pub(crate) is_short: bool,
}

impl Turn {
    /// No call.
    pub(crate) fn new() -> Turn {
        Turn {
            answered: 0,
            before: 0,
            number: 0,
            out: None,
            is_short: false,
        }
    }

    /// Notes what a call brought; nothing if nobody sits there to make it.
    fn note(&mut self, called: Option<Called>) {
        match called {
            Some(Ok((out, number))) => self.note_answer(out, number),
            Some(Err(fault)) => {
                self.is_short = self.is_short || is_memory(&fault);
                drop(fault);
            }
            None => {}
        }
    }

    /// Notes an answer, and the number of its call.
    fn note_answer(&mut self, out: Arc<Out>, number: u64) {
        self.answered = self.answered.saturating_add(1);
        self.before = self.number;
        self.number = number;
        drop(mem::replace(&mut self.out, Some(out)));
    }
}

/// Seats passes after those that are seated.
pub(crate) fn seat_all(page: &mut Page, seats: &mut Vec<Seat>, passes: Vec<Pass>) {
    for pass in passes {
        add_seat(page, seats, pass);
    }
}

/// Seats a pass after those that are seated.
fn add_seat(page: &mut Page, seats: &mut Vec<Seat>, pass: Pass) {
    let pushed = seats.push(Some(pass));
    let is_short = pushed.is_err();
    drop(pushed);
    page.stop_if_short(is_short);
}

/// Puts the pass that sat in a seat, if there was one, after those that are there.
pub(crate) fn add_seated(page: &mut Page, passes: &mut Vec<Pass>, seat: Seat) {
    match seat {
        Some(pass) => add_pass(page, passes, pass),
        None => {}
    }
}

/// Puts a pass after those that are there.
fn add_pass(page: &mut Page, passes: &mut Vec<Pass>, pass: Pass) {
    let pushed = passes.push(pass);
    let is_short = pushed.is_err();
    drop(pushed);
    page.stop_if_short(is_short);
}

/// The pass in a seat gets up.
fn get_up(seat: &mut Seat) -> Seat {
    seat.take()
}

/// A pass sits down in a seat.
fn sit(seat: &mut Seat, pass: Seat) {
    drop(mem::replace(seat, pass));
}

/// The pass at a place gets up.
pub(crate) fn rise(seats: &mut [Seat], place: usize) -> Seat {
    match seats.get_mut(place) {
        Some(seat) => get_up(seat),
        None => None,
    }
}

/// The pass that got up from a place sits down there again.
pub(crate) fn sit_down(seats: &mut [Seat], place: usize, pass: Seat) {
    match seats.get_mut(place) {
        Some(seat) => sit(seat, pass),
        None => drop(pass),
    }
}

/// Whether a pass sits at a place.
pub(crate) fn sits(seats: &[Seat], place: usize) -> bool {
    matches!(seats.get(place), Some(Some(_)))
}

/// The pass in a seat makes a call, and sits down again. Nothing if nobody sits there.
pub(crate) fn call<W: Wait, R: Replica, D: Disk + Drop>(
    rt: &W,
    alloc: Global,
    shift: &Shift<R, D>,
    seat: &mut Seat,
    step: &Arc<Step>,
) -> Option<Called> {
    match get_up(seat) {
        Some(pass) => Some(call_by(rt, alloc, shift, seat, pass, step)),
        None => None,
    }
}

/// A pass that got up from a seat makes a call, and sits down again.
fn call_by<W: Wait, R: Replica, D: Disk + Drop>(
    rt: &W,
    alloc: Global,
    shift: &Shift<R, D>,
    seat: &mut Seat,
    pass: Pass,
    step: &Arc<Step>,
) -> Called {
    match step.clone() {
        Ok(step) => returned(seat, shift.call(rt, alloc, pass, step)),
        Err(_) => {
            sit(seat, Some(pass));
            Err(CallFault::Memory)
        }
    }
}

/// A pass that made a call sits down again: what the call brought.
fn returned(seat: &mut Seat, made: Result<(Pass, Arc<Out>, u64), (Pass, CallFault)>) -> Called {
    match made {
        Ok((pass, out, number)) => {
            sit(seat, Some(pass));
            Ok((out, number))
        }
        Err((pass, fault)) => {
            sit(seat, Some(pass));
            Err(fault)
        }
    }
}

/// The pass in a seat makes calls in a row, and sits down again. Nothing if nobody sits there, or if
/// there is no call.
pub(crate) fn call_row<W: Wait, R: Replica, D: Disk + Drop>(
    rt: &W,
    alloc: Global,
    shift: &Shift<R, D>,
    seat: &mut Seat,
    steps: &[Arc<Step>],
) -> Option<RowCalled> {
    if steps.is_empty() {
        return None;
    }
    match get_up(seat) {
        Some(pass) => Some(row_returned(seat, shift.call_all(rt, alloc, pass, steps))),
        None => None,
    }
}

/// A pass that made calls in a row sits down again: what the calls brought.
fn row_returned(
    seat: &mut Seat,
    made: Result<(Pass, Vec<Answer>, u64), (Pass, CallFault)>,
) -> RowCalled {
    match made {
        Ok((pass, answers, number)) => {
            sit(seat, Some(pass));
            Ok((answers, number))
        }
        Err((pass, fault)) => {
            sit(seat, Some(pass));
            Err(fault)
        }
    }
}

/// The pass in a seat makes a call so many times.
pub(crate) fn call_often<W: Wait, R: Replica, D: Disk + Drop>(
    rt: &W,
    alloc: Global,
    shift: &Shift<R, D>,
    seat: &mut Seat,
    step: &Arc<Step>,
    calls: usize,
) -> Turn {
    let mut turn = Turn::new();
    for _ in 0..calls {
        turn.note(call(rt, alloc, shift, seat, step));
    }
    turn
}

/// The passes in the seats make a call so many times each, each pass in a thread of its own and all
/// at once. Whether memory ran out.
pub(crate) fn call_all<T, R, D>(
    rt: &T,
    alloc: Global,
    shift: &Shift<R, D>,
    seats: &mut [Seat],
    step: &Arc<Step>,
    calls: usize,
) -> bool
where
    T: Threads + Wait + Sync,
    R: Replica + Send,
    R::Staged: Send,
    D: Disk + Drop + Send,
{
    let threads = seats.len();
    let start = Start::new(threads);
    if threads > 0 {
        let take_turn = |_place: usize, seat: &mut Seat| {
            start.wait();
            start.note(call_often(rt, alloc, shift, seat, step, calls))
        };
        thread::for_each_mut(rt, seats, threads, &take_turn);
    }
    start.is_short.load(Ordering::SeqCst)
}

/// The pass that sat in a seat makes two calls, one after the other.
fn two_calls<W: Wait, R: Replica, D: Disk + Drop>(
    rt: &W,
    alloc: Global,
    shift: &Shift<R, D>,
    seat: Seat,
    first: &Arc<Step>,
    second: &Arc<Step>,
) -> (Seat, Turn) {
    let mut seat = seat;
    let mut turn = call_often(rt, alloc, shift, &mut seat, first, 1);
    turn.note(call(rt, alloc, shift, &mut seat, second));
    (seat, turn)
}

/// The pass that sat in a seat makes a call.
fn one_call<W: Wait, R: Replica, D: Disk + Drop>(
    rt: &W,
    alloc: Global,
    shift: &Shift<R, D>,
    seat: Seat,
    step: &Arc<Step>,
) -> (Seat, Turn) {
    let mut seat = seat;
    let turn = call_often(rt, alloc, shift, &mut seat, step, 1);
    (seat, turn)
}

/// A pass makes two calls and another pass makes one, each in a thread of its own.
pub(crate) fn side_by_side<T, R, D>(
    rt: &T,
    alloc: Global,
    shift: &Shift<R, D>,
    seats: (Seat, Seat),
    steps: (&Arc<Step>, &Arc<Step>, &Arc<Step>),
) -> ((Seat, Turn), (Seat, Turn))
where
    T: Threads + Wait + Sync,
    R: Replica + Send,
    R::Staged: Send,
    D: Disk + Drop + Send,
{
    let (a, b) = seats;
    let (first, second, third) = steps;
    join(
        rt,
        || -> (Seat, Turn) { two_calls(rt, alloc, shift, a, first, second) },
        || -> (Seat, Turn) { one_call(rt, alloc, shift, b, third) },
    )
}
