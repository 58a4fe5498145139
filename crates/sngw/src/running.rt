//! Shifts one after the other.
//!
//! All of it runs in the program's first thread, that of shifts, but for what `keep_and_show`
//! begins: the threads of the doors and of the watcher. No lock is held over a shift, or while the
//! gateway is tended.

use crate::admission::Admission;
use crate::board::{Board, Number, Shared};
use crate::dates::{begin_dates, by_date};
use crate::doors::{Door, doors_of, keep_all};
use crate::held_over::{Inlet, Late};
use crate::keeping::{Keeper, is_written};
use crate::posting::Fence;
use crate::program::{Gateway, Program, Task};
use crate::stop::Stop;
use crate::watcher::show_all;
use crate::working::{Worked, work};
use gw_link::{Phase, Stage};
use gw_main::options::Settings;
use gw_main::{Tended, begin_fault_number, tend};
use gw_run::Pool;
use gw_wire::{Socket, address, millisecond};
use sn_local::Addr;
use std::alloc::Global;
use std::io::ErrorKind;
use std::net::{TcpListener, TcpStream};
use std::sync::{Mutex, Wait};
use std::thread::Threads;
use std::time::{Clock, Duration};
use std::{mem, thread};

/// Works the shifts of a task with a gateway. The sockets are open from before the first to after
/// the last.
pub(crate) fn run<T>(task: &Task<'_, T>, node: Gateway) -> Result<(), Stop>
where
    T: Threads + Wait + Sync + Clock,
{
    match open_all(task.host, task.alloc, task.settings) {
        Ok(opened) => run_opened(task, node, opened),
        Err(stop) => {
            drop(node);
            Err(stop)
        }
    }
}

/// Works the shifts of a task with a gateway, by what it is reached by.
fn run_opened<T>(task: &Task<'_, T>, node: Gateway, mut opened: Opened) -> Result<(), Stop>
where
    T: Threads + Wait + Sync + Clock,
{
    begin_dates(task.host, &opened.shared.pool.clock, task.today);
    let place = Mutex::new(Some(node));
    let over = Stage::new(0, 0);
    let program = Program {
        rt: task.rt,
        host: task.host,
        alloc: task.alloc,
        settings: task.settings,
        shared: &opened.shared,
        over: &over,
        said: task.said,
    };
    let worked = run_beside(
        &program,
        &place,
        &mut opened.inlet,
        task.shifts,
        opened.doors.as_mut_slice(),
        &opened.listeners,
    );
    drop(program);
    drop(place);
    drop(opened);
    worked
}

/// What a gateway is reached by: open from before its first shift to after its last.
#[derive(Drop)]
struct Opened {
    inlet: Inlet,
    doors: Vec<Door>,
    shared: Shared,
    listeners: Listeners,
}

/// What the gateway listens at.
struct Listeners {
    /// Where other gateways dial.
    link: TcpListener,
    /// Where it is watched, if it is.
    status: Option<TcpListener>,
}

impl Drop for Listeners {
    fn drop(self) {
        let Listeners { link, status } = self;
        drop(link);
        drop(status);
    }
}

/// Opens all that a gateway is reached by.
fn open_all(rt: &HostRuntime, alloc: Global, settings: &Settings) -> Result<Opened, Stop> {
    let socket = socket_of(rt, alloc, settings)?;
    match listeners_of(rt, settings) {
        Ok(listeners) => open_beside(alloc, settings, socket, listeners),
        Err(stop) => {
            drop(socket);
            Err(stop)
        }
    }
}

/// What is opened beside a socket and listeners.
fn open_beside(
    alloc: Global,
    settings: &Settings,
    socket: Socket,
    listeners: Listeners,
) -> Result<Opened, Stop> {
    match shared_of(alloc, settings) {
        Ok(shared) => open_over(alloc, settings, socket, listeners, shared),
        Err(stop) => {
            drop(socket);
            drop(listeners);
            Err(stop)
        }
    }
}

/// The doors, and all that is open.
fn open_over(
    alloc: Global,
    settings: &Settings,
    socket: Socket,
    listeners: Listeners,
    shared: Shared,
) -> Result<Opened, Stop> {
    match doors_of(alloc, settings) {
        Some(doors) => opened_of(alloc, settings, socket, listeners, shared, doors),
        None => {
            drop(socket);
            drop(listeners);
            drop(shared);
            Err(Stop::Memory)
        }
    }
}

/// All that is open.
fn opened_of(
    alloc: Global,
    settings: &Settings,
    socket: Socket,
    listeners: Listeners,
    shared: Shared,
    doors: Vec<Door>,
) -> Result<Opened, Stop> {
    match inlet_of(alloc, settings, socket) {
        Ok(inlet) => Ok(Opened {
            inlet,
            doors,
            shared,
            listeners,
        }),
        Err(stop) => {
            drop(doors);
            drop(listeners);
            drop(shared);
            Err(stop)
        }
    }
}

/// The socket of datagrams.
fn socket_of(rt: &HostRuntime, alloc: Global, settings: &Settings) -> Result<Socket, Stop> {
    match Socket::bind(rt, alloc, settings.listen) {
        Ok(socket) => Ok(socket),
        Err(error) => Err(no_socket(rt, "listen", error.kind())),
    }
}

/// What the threads of the program share.
fn shared_of(alloc: Global, settings: &Settings) -> Result<Shared, Stop> {
    match Pool::new(alloc, settings.peers.len(), settings.numbers.as_slice()) {
        Some(pool) => shared_by(alloc, settings, pool),
        None => Err(Stop::Memory),
    }
}

/// What they share beside these links.
fn shared_by(alloc: Global, settings: &Settings, pool: Pool<TcpStream>) -> Result<Shared, Stop> {
    match Board::of(alloc, settings) {
        Some(board) => Ok(Shared { pool, board }),
        None => {
            drop(pool);
            Err(Stop::Memory)
        }
    }
}

/// The listeners of links and of the page.
fn listeners_of(rt: &HostRuntime, settings: &Settings) -> Result<Listeners, Stop> {
    match listener_at(rt, "link", settings.link) {
        Ok(link) => listeners_with(rt, settings, link),
        Err(stop) => Err(stop),
    }
}

/// That of links, and that of the page.
fn listeners_with(
    rt: &HostRuntime,
    settings: &Settings,
    link: TcpListener,
) -> Result<Listeners, Stop> {
    match status_listener(rt, settings.status) {
        Ok(status) => Ok(Listeners { link, status }),
        Err(stop) => {
            drop(link);
            Err(stop)
        }
    }
}

/// The listener of the page, if the settings name its address.
fn status_listener(rt: &HostRuntime, at: Option<Addr>) -> Result<Option<TcpListener>, Stop> {
    match at {
        None => Ok(None),
        Some(at) => match listener_at(rt, "status", at) {
            Ok(listener) => Ok(Some(listener)),
            Err(stop) => Err(stop),
        },
    }
}

/// The listener at an address, which this key of the settings names.
fn listener_at(rt: &HostRuntime, key: &str, at: Addr) -> Result<TcpListener, Stop> {
    match TcpListener::bind(rt, address(at)) {
        Ok(listener) => without_waiting(listener),
        Err(error) => Err(no_socket(rt, key, error.kind())),
    }
}

/// A listener that waits for nobody.
fn without_waiting(listener: TcpListener) -> Result<TcpListener, Stop> {
    if listener.set_nonblocking(true).is_ok() {
        return Ok(listener);
    }
    drop(listener);
    Err(Stop::Socket)
}

/// Where datagrams come from, and go to.
fn inlet_of(alloc: Global, settings: &Settings, socket: Socket) -> Result<Inlet, Stop> {
    let Some(late) = Late::none(alloc) else {
        return Err(Stop::Memory);
    };
    let Some(fence) = Fence::new(alloc) else {
        return Err(Stop::Memory);
    };
    let Some(admission) = Admission::of(alloc, settings) else {
        return Err(Stop::Memory);
    };
    Ok(Inlet {
        socket,
        late,
        fence,
        admission,
    })
}

/// Says which address of the settings cannot be had, and why.
fn no_socket(rt: &HostRuntime, key: &str, kind: ErrorKind) -> Stop {
    let _ = eprintln!(rt; "{key}: {kind}");
    Stop::Socket
}

/// Works the shifts in this thread, and keeps the doors open in others.
fn run_beside<T>(
    program: &Program<'_, T>,
    place: &Mutex<Option<Gateway>>,
    inlet: &mut Inlet,
    shifts: u64,
    doors: &mut [Door],
    listeners: &Listeners,
) -> Result<(), Stop>
where
    T: Threads + Wait + Sync + Clock,
{
    let mut keeping = || {
        keep_and_show(program, doors, listeners);
    };
    let mut shifting = || -> Result<(), Stop> { work_through(program, place, inlet, shifts) };
    let ((), worked) = thread::join_mut(program.rt, &mut keeping, &mut shifting);
    worked
}

/// Keeps the doors open, and beside that shows the gateway if it is watched, until the program's
/// work is over. If no thread can be made for the page, nothing is shown.
fn keep_and_show<T>(program: &Program<'_, T>, doors: &mut [Door], listeners: &Listeners)
where
    T: Threads + Wait + Sync + Clock,
{
    if !program.shared.board.is_watched {
        keep_all(program, doors, &listeners.link);
        return;
    }
    let mut showing = || {
        show_all(program, &listeners.status);
    };
    let mut keeping = || {
        keep_all(program, doors, &listeners.link);
    };
    let ((), ()) = thread::join_mut(program.rt, &mut showing, &mut keeping);
}

/// Works so many shifts, and then ends the doors. Runs in the thread of shifts.
fn work_through<T>(
    program: &Program<'_, T>,
    place: &Mutex<Option<Gateway>>,
    inlet: &mut Inlet,
    shifts: u64,
) -> Result<(), Stop>
where
    T: Threads + Wait + Sync + Clock,
{
    let worked = work_all(program, place, inlet, shifts);
    program.over.go_to(program.rt, Phase::Quiet);
    worked
}

/// Works so many shifts, each with a line when it is over. If the gateway was opened anew in a
/// shift, that is told before its line. After it the gateway is tended if it was halted, or its
/// journal has grown. While its writes fail it is silent between its tries: clients look for
/// another one.
fn work_all<T>(
    program: &Program<'_, T>,
    place: &Mutex<Option<Gateway>>,
    inlet: &mut Inlet,
    shifts: u64,
) -> Result<(), Stop>
where
    T: Threads + Wait + Sync + Clock,
{
    let pool = &program.shared.pool;
    let mut keeper = Keeper::of(program.settings.journal.as_str());
    write_first(program, place, inlet, &mut keeper)?;
    begin_dates(program.host, &pool.clock, pool.clock.moment());
    listen_first(program.rt, program.settings, pool);
    for number in 0..shifts {
        work_one(program, place, inlet, number, &mut keeper)?;
    }
    Ok(())
}

/// Works the shift of this number, from 0 on, with the gateway of its place, whose lock is held
/// only to take it. If none is there, nothing is done.
fn work_one<T>(
    program: &Program<'_, T>,
    place: &Mutex<Option<Gateway>>,
    inlet: &mut Inlet,
    number: u64,
    keeper: &mut Keeper<'_>,
) -> Result<(), Stop>
where
    T: Threads + Wait + Sync + Clock,
{
    let Some(node) = place.lock(program.rt).take() else {
        return Ok(());
    };
    let second = program.shared.pool.clock.second();
    know_clients(program.alloc, program.settings, &node, inlet, second);
    let worked = work(program, node, inlet, number)?;
    let number = number.saturating_add(1);
    end_in_place(program, place, worked, inlet, number, keeper)
}

/// Ends the shift of this number, from 1 on, and puts the gateway back into its place. If the date
/// was set meanwhile, the gateway is opened anew by it first.
fn end_in_place<T: Wait>(
    program: &Program<'_, T>,
    place: &Mutex<Option<Gateway>>,
    mut worked: Worked,
    inlet: &mut Inlet,
    number: u64,
    keeper: &mut Keeper<'_>,
) -> Result<(), Stop> {
    let rt = program.rt;
    let steps = worked.steps;
    let ended = end_shift(program, &mut worked, inlet, number, keeper);
    if let Err(stop) = ended {
        put_back(rt, place, worked.node);
        return Err(stop);
    }
    let node = by_date(program, worked.node, inlet)?;
    put_back(rt, place, node);
    note_turn(program.host, program.shared, number, steps);
    Ok(())
}

/// Tells of the shift of this number, from 1 on, which is over, and tends the gateway.
fn end_shift<T: Wait>(
    program: &Program<'_, T>,
    worked: &mut Worked,
    inlet: &mut Inlet,
    number: u64,
    keeper: &mut Keeper<'_>,
) -> Result<(), Stop> {
    let rt = program.rt;
    if let Some(other) = program.shared.pool.relay.found_by(rt) {
        return Err(used(program, other));
    }
    let steps = worked.steps;
    if worked.tended == Tended::Reopened {
        program.shared.board.add(Number::Reopened);
    }
    begin_anew(program, &worked.node, worked.tended);
    let line = format!(in program.alloc; "shift {number} steps {steps}");
    program.said.out.say(rt, line.ok());
    go_on(program, worked, inlet, keeper)
}

/// Counts a shift that is over, and how long it took since it had begun to close.
fn note_turn(rt: &HostRuntime, shared: &Shared, number: u64, steps: usize) {
    let board = &shared.board;
    let closing = board.get(Number::Closing);
    board.set(Number::ShiftCalls, steps as u64);
    board.note_time(
        Number::Turn,
        Number::LongestTurn,
        millisecond(rt).saturating_sub(closing),
    );
    board.set(Number::Shift, number);
}

/// Puts a gateway into its place.
fn put_back<T: Wait>(rt: &T, place: &Mutex<Option<Gateway>>, node: Gateway) {
    drop(mem::replace(&mut *place.lock(rt), Some(node)));
}

/// Tends a gateway after its shift, if it was halted, or its journal has grown. If its writes fail
/// again, it is silent for some seconds.
fn go_on<T: Wait>(
    program: &Program<'_, T>,
    worked: &mut Worked,
    inlet: &mut Inlet,
    keeper: &mut Keeper<'_>,
) -> Result<(), Stop> {
    let host = program.host;
    let shared = program.shared;
    let has_failed = worked.tended == Tended::Reopened || worked.node.is_halted();
    if has_failed {
        shared.board.count_failure(host);
    }
    if has_failed || (worked.has_written && keeper.is_grown(host, program.alloc)) {
        tend_behind(program, &mut worked.node, keeper)?;
    }
    let silence = keeper.silence_after(worked.has_recorded, has_failed);
    if silence > 0 {
        shared.board.set(Number::Halted, 1);
        be_silent(host, inlet, shared, silence);
        shared.board.set(Number::Halted, 0);
        shared.board.note_failed(host);
    }
    Ok(())
}

/// From now on the clients that the gateway knows are no newcomers. If memory runs out, some of
/// them are taken for newcomers.
fn know_clients(
    alloc: Global,
    settings: &Settings,
    node: &Gateway,
    inlet: &mut Inlet,
    second: u64,
) {
    if settings.newcomers > 0 {
        if let Ok(clients) = node.clients(alloc) {
            inlet.admission.know(second, clients);
        }
    }
}

/// From now on the gateway listens to the peers that it dials, and serves once they were heard.
fn listen_first<T: Wait + Clock>(rt: &T, settings: &Settings, pool: &Pool<TcpStream>) {
    if !settings.peers.is_empty() {
        pool.relay.look_for_lost(rt, settings.gateway);
        pool.listening.begin(rt, settings.peers.len());
    }
}

/// Says that another gateway has what this one must have made, and has not.
fn used<T: Wait>(program: &Program<'_, T>, other: u8) -> Stop {
    let own = program.settings.gateway;
    let line = format!(in program.alloc;
        "link: gateway {other} has what gateway {own} made, and this journal does not: it is not the newest one, or the number was used before"
    );
    program.said.err.say(program.rt, line.ok());
    Stop::Number
}

/// Writes anew what was read at the start, before anything is answered for. What an earlier program
/// left may have octets that its last sync did not keep, which the system would call kept: after
/// this nothing rests on them. A gateway that cannot write, or has no memory for that, says at each
/// try how it stands, and is silent until it can.
fn write_first<T: Wait>(
    program: &Program<'_, T>,
    place: &Mutex<Option<Gateway>>,
    inlet: &mut Inlet,
    keeper: &mut Keeper<'_>,
) -> Result<(), Stop> {
    let Some(mut node) = place.lock(program.rt).take() else {
        return Ok(());
    };
    let written = write_anew(program, &mut node, inlet, keeper);
    put_back(program.rt, place, node);
    written
}

/// Tries to write what was read until it is written.
fn write_anew<T: Wait>(
    program: &Program<'_, T>,
    node: &mut Gateway,
    inlet: &mut Inlet,
    keeper: &mut Keeper<'_>,
) -> Result<(), Stop> {
    if node.records() == 0 {
        return Ok(());
    }
    for _ in program.rt.forever() {
        if write_once(program, node, inlet, keeper)? {
            return Ok(());
        }
    }
    unreachable!()
}

/// Tries it once, and waits if it is not written. True if it is.
fn write_once<T: Wait>(
    program: &Program<'_, T>,
    node: &mut Gateway,
    inlet: &mut Inlet,
    keeper: &mut Keeper<'_>,
) -> Result<bool, Stop> {
    let tended = tend_behind(program, node, keeper)?;
    if tended == Tended::Starved {
        tell(program, node);
    }
    let is_done = is_written(tended);
    if is_done {
        keeper.note_written();
        program.shared.board.set(Number::Halted, 0);
    } else {
        wait_halted(program.host, inlet, program.shared, keeper);
    }
    Ok(is_done)
}

/// Notes that the gateway cannot write, and waits. What has come meanwhile is dropped.
fn wait_halted(rt: &HostRuntime, inlet: &mut Inlet, shared: &Shared, keeper: &mut Keeper<'_>) {
    let silence = keeper.wait_longer();
    shared.board.set(Number::Halted, 1);
    shared.board.note_failed(rt);
    be_silent(rt, inlet, shared, silence);
}

/// Waits so many seconds. What has come meanwhile is dropped.
fn be_silent(rt: &HostRuntime, inlet: &mut Inlet, shared: &Shared, seconds: u64) {
    if seconds > 0 {
        thread::sleep(rt, Duration::from_secs(seconds));
        inlet.drop_all(&shared.pool.clock, &shared.board);
    }
}

/// Tends the gateway after a shift.
fn tend_behind<T: Wait>(
    program: &Program<'_, T>,
    node: &mut Gateway,
    keeper: &mut Keeper<'_>,
) -> Result<Tended, Stop> {
    let rt = program.host;
    let before = keeper.lengths(rt, program.alloc);
    let began = millisecond(rt);
    match tend(program.alloc, node) {
        Ok(tended) => {
            let took = millisecond(rt).saturating_sub(began);
            note_tended(rt, program.shared, tended, took);
            begin_anew(program, node, tended);
            keeper.note_tended(rt, program.alloc, before, tended);
            Ok(tended)
        }
        Err(fault) => Err(Stop::Reopening(begin_fault_number(&fault))),
    }
}

/// Counts what became of a gateway that was tended in so many milliseconds.
fn note_tended(rt: &HostRuntime, shared: &Shared, tended: Tended, milliseconds: u64) {
    let board = &shared.board;
    board.note_time(Number::Compaction, Number::LongestCompaction, milliseconds);
    match tended {
        Tended::Kept => board.add(Number::Compacted),
        Tended::Starved => board.add(Number::NotCompacted),
        Tended::Reopened => {
            board.add(Number::Compacted);
            board.add(Number::ReopenedBetween);
        }
        Tended::Unwritten => {
            board.add(Number::NotCompacted);
            board.add(Number::ReopenedBetween);
            board.count_failure(rt);
        }
    }
}

/// If a gateway was opened anew, says how it stands as at the start, and closes the links. It may
/// have read what it never told, and over a new link the other end asks for that.
fn begin_anew<T: Wait>(program: &Program<'_, T>, node: &Gateway, tended: Tended) {
    if tended == Tended::Reopened || tended == Tended::Unwritten {
        program.shared.pool.close_all(program.rt);
        tell(program, node);
    }
}

/// Says how the gateway stands. If memory runs out the line is left out.
pub(crate) fn tell<T: Wait>(program: &Program<'_, T>, node: &Gateway) {
    let line = state_of(program.alloc, node);
    program.said.out.say(program.rt, line);
}

/// The line that says how a gateway stands. `None` if memory runs out.
fn state_of(alloc: Global, node: &Gateway) -> Option<String> {
    let count = node.clients(alloc).ok()?.len();
    let (gateway, records) = (node.gateway(), node.records());
    format!(in alloc; "gateway {gateway} records {records} clients {count}").ok()
}
