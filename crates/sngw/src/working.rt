//! The threads of one shift.
//!
//! The thread of shifts becomes the reader's, once the others have begun: the clock's, one for each
//! seat of links, the glance's if anybody watches, and workers (gw_serve). It waits for all of them
//! before it closes the shift. No function here takes a lock.

ghost use Rattle.std.specs.Prelude.{◌<◌, ◌≤◌};
ghost use Rattle.gw_shift.specs.declared.shift.TheConstants.{MAX_STEPS};

use crate::board::{Board, Number, Shared};
use crate::glancing::glance_all;
use crate::held_over::Inlet;
use crate::posting::Outlet;
use crate::program::{Gateway, GatewayShift, GatewayWork, Program};
use crate::stop::Stop;
use crate::watched::Watched;
use gw_link::{End, Phase, Stage, Work};
use gw_main::Tended;
use gw_main::options::Settings;
use gw_node::Step;
use gw_run::{MOST_ACCEPTED, Seat, sit, tick_all};
use gw_serve::{Cause, serve};
use gw_shift::{Closed, Entry, MAX_STEPS, Pass, Shift, tally};
use gw_wire::{FieldClock, OpenGate, Post, Wire, millisecond};
use std::alloc::Global;
use std::sync::Wait;
use std::thread::Threads;
use std::time::Clock;
use std::{mem, thread};

/// The passes of a shift, by what they are for.
#[derive(Drop)]
struct Crew {
    /// For datagrams.
    serving: Vec<Pass>,
    /// For ticks.
    ticking: Vec<Option<Seat>>,
    /// For links.
    linking: Vec<Option<Seat>>,
}

/// What a crew has made.
#[derive(Drop)]
struct Made {
    /// The passes that made calls.
    passes: Vec<Pass>,
    /// Whether one of the calls opened the gateway anew.
    tended: Tended,
}

/// A shift that was closed.
#[derive(Drop)]
pub struct Worked {
    /// The gateway.
    pub node: Gateway,
    /// How many calls were made.
    pub steps: usize,
    /// Whether one of them opened it anew.
    pub tended: Tended,
    /// Whether one of them put something into the journal.
    pub has_written: bool,
    /// Whether one of them put there what this gateway made.
    pub has_recorded: bool,
}

/// Works the shift of this number, and gives the gateway back. A datagram that came late, or is
/// there already, has a call before clock and links ask for any. If a shift has one call alone, it
/// has that in every other shift, so that nobody is kept from it. Runs in the thread of shifts,
/// which waits here for all threads of the shift.
pub(crate) fn work<T>(
    program: &Program<'_, T>,
    node: Gateway,
    inlet: &mut Inlet,
    number: u64,
) -> Result<Worked, Stop>
where
    T: Threads + Wait + Sync + Clock,
{
    let rt = program.rt;
    let alloc = program.alloc;
    let settings = program.settings;
    let workers = usize::from(settings.workers).max(1);
    let links = settings.peers.len().saturating_add(MOST_ACCEPTED);
    let steps = steps_of(settings);
    let count = workers.saturating_add(1).saturating_add(links);
    let opened = Shift::open(alloc, node, count, steps).ok();
    let Some((shift, passes)) = opened else {
        return Err(Stop::Memory);
    };
    let made = match crew_of(alloc, passes, workers) {
        Some(mut crew) => {
            let made = work_by(program, &shift, &mut crew, inlet, number);
            drop(crew);
            made
        }
        None => Err(Stop::Memory),
    };
    close(rt, alloc, shift, made, program.shared)
}

/// Works a shift with a crew, and gives the passes that made its calls.
fn work_by<T>(
    program: &Program<'_, T>,
    shift: &GatewayShift,
    crew: &mut Crew,
    inlet: &mut Inlet,
    number: u64,
) -> Result<Made, Stop>
where
    T: Threads + Wait + Sync + Clock,
{
    let pool = &program.shared.pool;
    let steps = steps_of(program.settings);
    let is_claimed = !pool.listening.is_on()
        && (steps > 1 || number % 2 == 0)
        && has_first(inlet, &pool.clock);
    inlet.late.note_claim(is_claimed);
    let stage = Stage::new(steps, u64::from(is_claimed));
    pool.begin_shift(program.rt);
    let work = Work {
        rt: program.rt,
        alloc: program.alloc,
        shift,
        stage: &stage,
    };
    work_all(program, &work, crew, inlet)?;
    made_by(program.alloc, crew)
}

/// Whether a datagram came late, or is there already.
fn has_first(inlet: &mut Inlet, clock: &FieldClock) -> bool {
    let (ears, _) = inlet.socket.sides(clock);
    inlet.late.look(&ears);
    inlet.late.is_there()
}

/// How many calls a shift has.
fn steps_of(settings: &Settings) -> u64
    ensures { (0 < result) × (result ≤ MAX_STEPS) }
{
    u64::from(settings.steps).clamp(1, MAX_STEPS)
}

/// So many passes serve, one ticks, and the others are for links.
fn crew_of(alloc: Global, passes: Vec<Pass>, workers: usize) -> Option<Crew> {
    let mut crew = Crew {
        serving: Vec::new(alloc),
        ticking: Vec::new(alloc),
        linking: Vec::new(alloc),
    };
    for pass in passes {
        if crew.serving.len() < workers {
            crew.serving.push(pass).ok()?;
        } else if crew.ticking.is_empty() {
            crew.ticking.push(Some(Seat { pass, end: None })).ok()?;
        } else {
            crew.linking.push(Some(Seat { pass, end: None })).ok()?;
        }
    }
    Some(crew)
}

/// Serves links beside ticks beside datagrams, until the shift is over. Once the last two are, the
/// gateway makes no more deltas, and the links tell what is left. Links have threads of their own.
fn work_all<T>(
    program: &Program<'_, T>,
    work: &GatewayWork<'_, T>,
    crew: &mut Crew,
    inlet: &mut Inlet,
) -> Result<(), Stop>
where
    T: Threads + Wait + Sync + Clock,
{
    let Crew {
        serving,
        ticking,
        linking,
    } = crew;
    let mut talking = || {
        sit_and_look(program, work, linking.as_mut_slice());
    };
    let mut working = || -> Result<(), Stop> {
        let served = serve_and_tick(program, work, serving, ticking.as_mut_slice(), inlet);
        work.stage.go_to(work.rt, Phase::Quiet);
        program.shared.pool.be_quiet(work.rt);
        served
    };
    let ((), served) = thread::join_mut(work.rt, &mut talking, &mut working);
    served
}

/// Serves links, and beside them glances at the clients if anybody watches. If no thread can be
/// made for that, it is left out.
fn sit_and_look<T>(program: &Program<'_, T>, work: &GatewayWork<'_, T>, seats: &mut [Option<Seat>])
where
    T: Threads + Wait + Sync + Clock,
{
    if !program.shared.board.is_watched {
        sit_all(program, work, seats);
        return;
    }
    let mut sitting = || sit_all(program, work, seats);
    let mut looking = || glance_all(program, work);
    let ((), ()) = thread::join_mut(work.rt, &mut looking, &mut sitting);
}

/// Lets links talk at all seats, each in a thread of its own.
fn sit_all<T>(program: &Program<'_, T>, work: &GatewayWork<'_, T>, seats: &mut [Option<Seat>])
where
    T: Threads + Wait + Sync + Clock,
{
    let count = seats.len();
    if count > 0 {
        let at = |_place: usize, slot: &mut Option<Seat>| {
            if let Some(seat) = slot.take() {
                let gateway = program.settings.gateway;
                *slot = Some(sit(work, seat, &program.shared.pool, gateway));
            }
        };
        thread::for_each_mut(work.rt, seats, count, &at);
    }
}

/// Serves ticks beside datagrams.
fn serve_and_tick<T>(
    program: &Program<'_, T>,
    work: &GatewayWork<'_, T>,
    passes: &mut Vec<Pass>,
    seats: &mut [Option<Seat>],
    inlet: &mut Inlet,
) -> Result<(), Stop>
where
    T: Threads + Wait + Sync + Clock,
{
    let Inlet {
        socket,
        late,
        fence,
        admission,
    } = inlet;
    let shared = program.shared;
    let (mut ears, mouth) = socket.sides(&shared.pool.clock);
    let mut watched = Watched::new(program, &mut ears, mouth, work.stage, late, admission);
    serve_beside(
        program,
        work,
        passes,
        seats,
        &mut watched,
        &Outlet::new(work.rt, work.alloc, &mouth, work.stage, fence, shared),
    )
}

/// Serves ticks beside datagrams, at the two sides of the socket. The clock has a thread of its
/// own; this one reads.
fn serve_beside<T, W, P>(
    program: &Program<'_, T>,
    work: &GatewayWork<'_, T>,
    passes: &mut Vec<Pass>,
    seats: &mut [Option<Seat>],
    wire: &mut W,
    post: &P,
) -> Result<(), Stop>
where
    T: Threads + Wait + Sync + Clock,
    W: Wire,
    P: Post + Sync,
{
    let mut ticking = || tick_at(program, work, seats, post);
    let mut serving = || -> Result<(), Stop> {
        let board = &program.shared.board;
        let served = serve_all(board, work, passes, wire, post);
        board.set(Number::Closing, millisecond(program.host));
        work.stage.close(work.rt);
        served
    };
    let ((), served) = thread::join_mut(work.rt, &mut ticking, &mut serving);
    served
}

/// Ticks at the seat. Runs in the clock's thread.
fn tick_at<T: Wait + Clock, P: Post>(
    program: &Program<'_, T>,
    work: &GatewayWork<'_, T>,
    seats: &mut [Option<Seat>],
    post: &P,
) {
    for slot in seats {
        if let Some(seat) = slot.take() {
            let (pass, end) = tick_all(work, seat.pass, post, &program.shared.pool);
            *slot = Some(Seat { pass, end });
        }
    }
}

/// Serves datagrams until the shift has had all its calls, or is to close. Neither is a fault. What
/// is left over counts as dropped. Runs in the reader's thread.
fn serve_all<T, W, P>(
    board: &Board,
    work: &GatewayWork<'_, T>,
    passes: &mut Vec<Pass>,
    wire: &mut W,
    post: &P,
) -> Result<(), Stop>
where
    T: Threads + Wait + Sync + Clock,
    W: Wire,
    P: Post + Sync,
{
    let rt = work.rt;
    let alloc = work.alloc;
    let given = mem::replace(passes, Vec::new(alloc));
    if given.is_empty() {
        return Ok(());
    }
    match serve(
        rt,
        alloc,
        work.shift,
        given,
        wire,
        post,
        &OpenGate,
        u64::MAX,
    ) {
        Ok(served) => {
            count_left(board, served.left.as_slice());
            *passes = served.passes;
            Ok(())
        }
        Err(fault) => {
            *passes = fault.passes;
            match fault.cause {
                Cause::Wire => Err(Stop::Socket),
                Cause::Memory => Err(Stop::Memory),
                Cause::Behind => Err(Stop::History),
            }
        }
    }
}

/// Counts the datagrams of these numbers as dropped: they came, and became no call.
fn count_left(board: &Board, left: &[u64]) {
    for _ in left {
        board.add(Number::Dropped);
    }
}

/// What a crew has made. Passes that made no call are left out: nothing of the history is theirs,
/// and to compare what each of them holds of the opening would take as long as for the others.
fn made_by(alloc: Global, crew: &mut Crew) -> Result<Made, Stop> {
    let tended = tended_in(crew.ticking.as_slice());
    let mut passes = Vec::new(alloc);
    for pass in mem::replace(&mut crew.serving, Vec::new(alloc)) {
        keep(&mut passes, pass)?;
    }
    gather(&mut passes, crew.ticking.as_mut_slice())?;
    gather(&mut passes, crew.linking.as_mut_slice())?;
    Ok(Made { passes, tended })
}

/// Ends the shift, and compares its history with what its threads hold. If the crew failed, the
/// shift is dropped.
fn close<T: Wait>(
    rt: &T,
    alloc: Global,
    shift: GatewayShift,
    made: Result<Made, Stop>,
    shared: &Shared,
) -> Result<Worked, Stop> {
    let Made { passes, tended } = match made {
        Ok(made) => made,
        Err(stop) => {
            drop(shift);
            return Err(stop);
        }
    };
    let closed = shift.end().close(passes).ok();
    let Some(Closed { node, history }) = closed else {
        return Err(Stop::History);
    };
    let steps = history.len();
    let has_written = has_written(history.as_slice());
    let has_recorded = has_recorded(history.as_slice());
    count_calls(rt, alloc, history.as_slice(), shared);
    drop(history);
    Ok(Worked {
        node,
        steps,
        tended,
        has_written,
        has_recorded,
    })
}

/// Counts the calls of a closed shift, if anybody watches. If memory runs out they are not counted.
fn count_calls<T: Wait>(rt: &T, alloc: Global, history: &[Entry], shared: &Shared) {
    if shared.board.is_watched {
        match tally(alloc, history) {
            Ok(calls) => shared.board.put_calls(rt, calls),
            Err(_) => {}
        }
    }
}

/// Whether one of the calls put something into the journal.
fn has_written(history: &[Entry]) -> bool {
    for call in history {
        if let Ok(out) = &call.answer {
            if out.made.is_some() || matches!(*call.step, Step::Take { .. } | Step::Reopen) {
                return true;
            }
        }
    }
    false
}

/// Whether one of the calls put into the journal what the gateway made: then it can write.
fn has_recorded(history: &[Entry]) -> bool {
    for call in history {
        if let Ok(out) = &call.answer {
            if out.made.is_some() {
                return true;
            }
        }
    }
    false
}

/// What became of the gateway in the shift: the clock opens anew one that is halted.
fn tended_in(ticking: &[Option<Seat>]) -> Tended {
    for slot in ticking {
        if let Some(seat) = slot {
            if seat.end == Some(End::Reopened) {
                return Tended::Reopened;
            }
        }
    }
    Tended::Kept
}

/// Takes the passes from their seats, unless one was left for a cause that ends the program. That
/// the gateway is halted, and refused to be opened anew, is none: that is tried once more after
/// the shift.
fn gather(passes: &mut Vec<Pass>, seats: &mut [Option<Seat>]) -> Result<(), Stop> {
    for slot in seats {
        if let Some(seat) = slot.take() {
            match seat.end {
                None
                | Some(End::Full)
                | Some(End::Lost)
                | Some(End::Halted)
                | Some(End::Reopened) => {}
                Some(End::Memory) => return Err(Stop::Memory),
                Some(End::Behind) => return Err(Stop::History),
            }
            keep(passes, seat.pass)?;
        }
    }
    Ok(())
}

/// Puts a pass to those that are compared, unless it made no call.
fn keep(passes: &mut Vec<Pass>, pass: Pass) -> Result<(), Stop> {
    if pass.is_unused() {
        return Ok(());
    }
    if passes.push(pass).is_err() {
        return Err(Stop::Memory);
    }
    Ok(())
}
