//! A shift of the row's gateway is opened, served and closed.

ghost use Rattle.std.specs.Prelude.{◌<◌, ◌≤◌};

use crate::calls;
use crate::page::Page;
use crate::stop::Stop;
use gw_node::Node;
use gw_serve::{Cause, Taken, serve};
use gw_shift::{CloseFault, Entry, Pass, Shift};
use gw_wire::{Gate, Post, Wire};
use jr_journal::MemoryDisk;
use rep_plain::Plain;
use std::alloc::Global;
use std::sync::Wait;
use std::thread::Threads;
use std::time::Clock;

/// The row's gateway.
pub(crate) type Gateway = Node<Plain, MemoryDisk>;

/// A shift of it.
pub(crate) type Shared = Shift<Plain, MemoryDisk>;

/// A shift that is to be served, and its passes.
#[derive(Drop)]
pub(crate) struct Crew<'a> {
    pub(crate) shift: &'a Shift<Plain, MemoryDisk>,
    pub(crate) passes: Vec<Pass>,
}

/// What serving goes by.
#[derive(Drop)]
pub(crate) struct Sides<'a, W: Wire, P: Post, G: Gate> {
    /// Over which datagrams come.
    pub(crate) wire: &'a mut W,
    /// By which answers go out.
    pub(crate) post: &'a P,
    /// What hears of each answer.
    pub(crate) gate: &'a G,
    /// How many turns the reader has.
    pub(crate) turns: u64,
}

/// What serving handed back.
#[derive(Drop)]
pub(crate) struct Outcome {
    pub(crate) passes: Vec<Pass>,
    /// The datagrams that became calls. None are told where it ended early.
    pub(crate) taken: Vec<Taken>,
    /// The numbers of the others.
    pub(crate) left: Vec<u64>,
    /// Why it ended early.
    pub(crate) cause: Option<Cause>,
}

/// A shift that is over.
#[derive(Drop)]
pub(crate) struct Over {
    pub(crate) node: Node<Plain, MemoryDisk>,
    pub(crate) history: Vec<Entry>,
    /// Why it is not closed.
    pub(crate) fault: Option<CloseFault>,
}

/// A shift of a gateway for so many workers and so many calls. There is none if memory ran out.
pub(crate) fn shift_of(
    page: &mut Page,
    node: Node<Plain, MemoryDisk>,
    workers: u64,
    steps: u64,
) -> Option<(Shift<Plain, MemoryDisk>, Vec<Pass>)> {
    let opened = Shift::open(page.alloc(), node, passes_of(workers), steps_of(steps)).ok();
    if opened.is_none() {
        page.stop(Stop::Memory);
    }
    opened
}

/// How many passes a shift has.
fn passes_of(workers: u64) -> usize
    ensures { 0 < result }
{
    workers.clamp(1, 8) as usize
}

/// How many calls a shift has.
fn steps_of(steps: u64) -> u64
    ensures { (0 < result) × (result ≤ 4096) }
{
    steps.clamp(1, 4_096)
}

/// Serves, and tells how that ended.
pub(crate) fn serve_all<T, W, P, G>(
    rt: &T,
    alloc: Global,
    crew: Crew<'_>,
    sides: Sides<'_, W, P, G>,
) -> Outcome
where
    T: Threads + Wait + Sync + Clock,
    W: Wire,
    P: Post + Sync,
    G: Gate + Sync,
{
    let Crew { shift, passes } = crew;
    if passes.is_empty() {
        return unserved(alloc, passes, None);
    }
    let Sides {
        wire,
        post,
        gate,
        turns,
    } = sides;
    match serve(rt, alloc, shift, passes, wire, post, gate, turns) {
        Ok(served) => Outcome {
            passes: served.passes,
            taken: served.taken,
            left: served.left,
            cause: None,
        },
        Err(fault) => unserved(alloc, fault.passes, Some(fault.cause)),
    }
}

/// The outcome with these passes, of which no datagram is told.
pub(crate) fn unserved(alloc: Global, passes: Vec<Pass>, cause: Option<Cause>) -> Outcome {
    Outcome {
        passes,
        taken: Vec::new(alloc),
        left: Vec::new(alloc),
        cause,
    }
}

/// The passes that serving handed back.
pub(crate) fn passes_back(outcome: Outcome) -> Vec<Pass> {
    let Outcome {
        passes,
        taken,
        left,
        cause: _,
    } = outcome;
    drop(taken);
    drop(left);
    passes
}

/// Ends a shift, and closes it with these passes.
pub(crate) fn close(shift: Shift<Plain, MemoryDisk>, passes: Vec<Pass>) -> Over {
    match calls::close_by(calls::over(shift), passes) {
        Ok(closed) => Over {
            node: closed.node,
            history: closed.history,
            fault: None,
        },
        Err((ended, passes, fault)) => {
            drop(passes);
            Over {
                node: ended.node,
                history: ended.history,
                fault: Some(fault),
            }
        }
    }
}

/// The gateway of a shift that is over.
pub(crate) fn node_of(over: Over) -> Node<Plain, MemoryDisk> {
    let Over {
        node,
        history,
        fault,
    } = over;
    drop(history);
    drop(fault);
    node
}
