//! Serving.

ghost use Rattle.std.specs.Prelude.{◌≤◌, ◌+◌, length, IfSome};

use crate::refusals::said::{Said, Stop};
use crate::refusals::shifts::{Shared, begun};
use gw_serve::{Cause, ServeFault, Served, serve};
use gw_shift::Pass;
use gw_wire::{Arrival, Came, OpenGate, Post, Tally, Unsent, Wire, WireFault};
use jr_journal::{Failures, MemoryDisk};
use rep_state::Folded;
use sn_local::Addr;
use std::sync::Wait;
use std::thread::{self, Threads};
use std::time::Clock;

/// A wire that brings one SEARCHGW, and then nothing. It takes no memory.
struct Brief {
    is_left: bool,
    failures: Failures,
    arrivals: Tally,
    drops: Tally,
}

impl Drop for Brief {
    fn drop(self) {
        let Brief {
            is_left: _,
            failures,
            arrivals,
            drops,
        } = self;
        drop(failures);
        drop(arrivals);
        drop(drops);
    }
}

impl Brief {
    /// The datagram is to come.
    fn new() -> Brief {
        Brief {
            is_left: true,
            failures: Failures::none(),
            arrivals: Tally::none(),
            drops: Tally::none(),
        }
    }
}

impl Wire for Brief {
    ghost failures = { λ wire. wire.failures.count };

    ghost arrivals = { λ wire. wire.arrivals.count };

    ghost drops = { λ wire. wire.drops.count };

    fn recv(&mut self, buffer: &mut [u8]) -> Result<Came, WireFault> {
        if !self.is_left {
            thread::yield_now();
            return Ok(Came::Nothing);
        }
        self.is_left = false;
        match arrived(b"\x03\x01\x00", buffer) {
            None => Ok(Came::Nothing),
            Some(arrival) => {
                self.arrivals = Tally::next(&self.arrivals);
                Ok(Came::Datagram(arrival))
            }
        }
    }

    fn note_dropped(&mut self) {
        self.drops = Tally::next(&self.drops);
    }

    fn rest(&mut self) {
        thread::yield_now();
    }
}

/// A datagram, put into the front of a buffer. Nothing where it is too long.
fn arrived(bytes: &[u8], buffer: &mut [u8]) -> Option<Arrival>
    ensures { IfSome result (λ arrival. arrival.size ≤ length buffer.new) }
{
    let size = bytes.len();
    if size > buffer.len() {
        return None;
    }
    buffer[..size].copy_from_slice(bytes);
    Some(Arrival {
        from: Addr { host: 0, port: 9 },
        size,
        moment: 0,
    })
}

/// A post that sends nothing.
struct Mute;

impl Post for Mute {
    fn send(&self, _to: Addr, _bytes: &[u8]) -> Result<(), Unsent> {
        Ok(())
    }
}

/// Plays the row.
pub(crate) fn play_row<T: Threads + Wait + Sync + Clock>(rt: &T, said: &mut Said) {
    play_on(rt, said);
}

/// Plays the row of a gateway with these replicas.
fn play_on<T>(rt: &T, said: &mut Said)
where
    T: Threads + Wait + Sync + Clock,
{
    if let Some((shift, passes)) = begun(said) {
        serve_in(rt, said, &shift, passes);
        drop(shift);
    }
}

/// Serves, and serves again if that is refused memory. It has its own loop: what a trait's call is
/// given is not known to be `Sync`.
fn serve_in<T>(rt: &T, said: &mut Said, shift: &Shared<Folded>, mut passes: Vec<Pass>)
where
    T: Threads + Wait + Sync + Clock,
{
    said.ask();
    for _ in 0..2 {
        if said.is_asking() {
            passes = serve_once(rt, said, shift, passes);
        }
    }
    drop(passes);
    if !said.is_answered() {
        said.stop(Stop::Other);
    }
}

/// Serves the datagram with one worker. If that is refused, its pass comes back.
fn serve_once<T>(rt: &T, said: &mut Said, shift: &Shared<Folded>, passes: Vec<Pass>) -> Vec<Pass>
where
    T: Threads + Wait + Sync + Clock,
{
    if passes.is_empty() {
        said.stop(Stop::Other);
        return passes;
    }
    let mut wire = Brief::new();
    let answer = serve(
        rt, said.alloc, shift, passes, &mut wire, &Mute, &OpenGate, 200,
    );
    drop(wire);
    match answer {
        Ok(served) => show_served(said, served),
        Err(fault) => look(said, fault),
    }
}

/// Prints what serving did. No pass is needed any more.
fn show_served(said: &mut Said, served: Served<'_, Folded, MemoryDisk>) -> Vec<Pass> {
    said.number("passes", served.passes.len());
    said.number("taken", served.taken.len());
    said.number("left", served.left.len());
    drop(served);
    said.answer();
    Vec::new(said.alloc)
}

/// Looks at what a refusal leaves: the pass.
fn look(said: &mut Said, fault: ServeFault<'_, Folded, MemoryDisk>) -> Vec<Pass> {
    let ServeFault { passes, cause, .. } = fault;
    said.keep(passes.len() == 1);
    said.refuse(cause == Cause::Memory);
    passes
}
