//! The thread that shows the gateway: it gathers what is reported, says events, and answers those
//! who ask the page.
//!
//! It asks for memory and for sockets as it goes. If it gets none, what it shows is late, and the
//! gateway goes on.

use crate::board::Number;
use crate::callers::{Caller, room_for_piece, serve_calls, take_calls};
use crate::gathering::{Gathered, gather, look_at_rounds, no_report, none_gathered};
use crate::happenings::{Happened, nothing_happened, tell_all};
use crate::program::Program;
use gw_link::Phase;
use gw_report::Report;
use gw_wire::millisecond;
use std::alloc::Global;
use std::net::TcpListener;
use std::sync::Wait;
use std::time::Clock;

/// How many milliseconds pass before it is looked again whether somebody calls, while somebody is
/// served and while nobody is.
const BUSY_WAIT_MS: u64 = 5;

const IDLE_WAIT_MS: u64 = 50;

/// How many milliseconds pass before what is reported is gathered again.
const GATHER_INTERVAL_MS: u64 = 1_000;

/// What the thread holds.
struct Watcher {
    report: Report,
    gathered: Gathered,
    happened: Happened,
    callers: Vec<Caller>,
    /// Room for what is read at once.
    piece: Vec<u8>,
    /// The millisecond in which it was last gathered.
    looked: u64,
}

impl Drop for Watcher {
    fn drop(self) {
        let Watcher {
            report,
            gathered,
            happened: _,
            callers,
            piece,
            looked: _,
        } = self;
        drop(report);
        drop(gathered);
        drop(callers);
        drop(piece);
    }
}

/// Shows the gateway until the program's work is over. Runs in the watcher's thread, and holds no
/// lock while it reads or writes.
pub(crate) fn show_all<T: Wait + Clock>(program: &Program<'_, T>, listener: &Option<TcpListener>) {
    let rt = program.rt;
    for _ in rt.forever() {
        if program.over.phase(rt) != Phase::Serving {
            return;
        }
        match watcher_of(program.host, program.alloc) {
            Some(watcher) => {
                show(program, listener, watcher);
                return;
            }
            None => program.over.wait(rt, Phase::Serving, GATHER_INTERVAL_MS),
        }
    }
    unreachable!()
}

/// What the thread holds before it has gathered anything. `None` if memory ran out.
fn watcher_of(rt: &HostRuntime, alloc: Global) -> Option<Watcher> {
    match room_for_piece(alloc) {
        Some(piece) => Some(Watcher {
            looked: 0,
            happened: nothing_happened(),
            piece,
            callers: Vec::new(alloc),
            gathered: none_gathered(rt, alloc),
            report: no_report(alloc),
        }),
        None => None,
    }
}

/// Shows the gateway, by what the thread holds.
fn show<T: Wait + Clock>(
    program: &Program<'_, T>,
    listener: &Option<TcpListener>,
    watcher: Watcher,
) {
    let mut watcher = watcher;
    program.shared.board.set(Number::Watcher, 1);
    watch(program, listener, &mut watcher);
    drop(watcher);
}

/// Gathers once in a second, and serves those who call meanwhile.
fn watch<T: Wait + Clock>(
    program: &Program<'_, T>,
    listener: &Option<TcpListener>,
    watcher: &mut Watcher,
) {
    let rt = program.rt;
    for _ in rt.forever() {
        if program.over.phase(rt) != Phase::Serving {
            return;
        }
        look(program, watcher);
        if let Some(listener) = listener {
            take_calls(program.host, program.alloc, listener, &mut watcher.callers);
        }
        let is_serving = serve_calls(
            program.host,
            program.alloc,
            &mut watcher.callers,
            watcher.piece.as_mut_slice(),
            &watcher.report,
        );
        let pause = if is_serving {
            BUSY_WAIT_MS
        } else {
            IDLE_WAIT_MS
        };
        program.over.wait(rt, Phase::Serving, pause);
    }
    unreachable!()
}

/// Gathers what is reported, and tells what happened, unless it has just done so.
fn look<T: Wait + Clock>(program: &Program<'_, T>, watcher: &mut Watcher) {
    let now = millisecond(program.host);
    look_at_rounds(program.shared, &mut watcher.gathered, now);
    if now.saturating_sub(watcher.looked) < GATHER_INTERVAL_MS {
        return;
    }
    watcher.looked = now;
    gather(program, &mut watcher.gathered, &mut watcher.report);
    tell_all(
        program,
        &mut watcher.gathered,
        &mut watcher.happened,
        &mut watcher.report,
    );
}
