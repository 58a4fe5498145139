//! The one reader: it numbers what comes and puts it into the queue. While that is full it reads
//! nothing: what comes waits in the socket. It ends if the wire says that it is over.

ghost use Rattle.std.specs.Prelude.{◌≡◌, ◌≢◌, ◌<◌, ◌≤◌, ◌+◌, [], Some, None, IfOk, IfErr, IfSome};
ghost use Rattle.crossbeam_channel.specs.Claims.{view, IsSeatAt};
ghost use Rattle.crossbeam_channel.specs.Ends.{sends_on};
ghost use Rattle.gw_serve.specs.Count.{one_to};
ghost use Rattle.gw_serve.specs.inner.Intakes.{came_by, datagram_in};
ghost use Rattle.gw_serve.specs.inner.Queue.{hand};
ghost use Rattle.gw_serve.specs.declared.worker.Cause.TheVariants as causes;

use crate::bell::Bell;
use crate::queue::{Datagram, Sender, Sends, Ticket};
use crate::worker::{Cause, Shared};
use gw_wire::{Came, Gate, Post, Wire};
use jr_disk::Disk;
use rep_model::Replica;
use std::alloc::Global;
use std::sync::Wait;
use std::sync::atomic::{AtomicBool, Ordering};

/// How often the reader waits a moment for room, before it reads on: then what it reads is dropped
/// if there still is none.
const MOST_RESTS: u32 = 10_000;

/// How the reading ended.
#[derive(Drop)]
pub struct Reading {
    /// How many numbers were given.
    pub count: u64,
    /// Why it ended early.
    pub fault: Option<Cause>,
}

/// What a receive brought.
#[derive(Drop)]
pub enum Intake {
    /// A datagram, under a number.
    Numbered(Datagram),
    /// Nothing.
    Nothing,
    /// No more is to be received.
    Over,
}

/// Reads for so many turns, or until it is to stop or no more is to be received. Runs in the
/// reader's thread, and holds no lock while it waits.
pub fn read_all<T: Wait, R: Replica, D: Disk + Drop, W: Wire, P: Post, G: Gate>(
    shared: &Shared<'_, '_, T, R, D, P, G>,
    sender: &Sender,
    ticket: &mut Ticket,
    wire: &mut W,
    buffer: &mut [u8],
    turns: u64,
) -> Reading
    requires channel { IsSeatAt (sends_on sender.now) ticket.old }
    requires part { 0 < (view ticket.old).parts }
    requires fresh { (view ticket.old).sent ≡ [] }
    ensures channel { IsSeatAt (sends_on sender.now) ticket.new }
    ensures numbers { view ticket.new ≡ hand (view ticket.old).parts (one_to result.count)
        (view ticket.old).taken }
    ensures datagrams { result.fault ≡ None → (W.drops wire.old ≤ W.drops wire.new)
        × (W.arrivals wire.old + result.count + W.drops wire.new
        ≡ W.arrivals wire.new + W.drops wire.old) }
    ensures wire { result.fault ≡ Some causes.Wire → W.failures wire.old < W.failures wire.new }
    ensures behind { result.fault ≢ Some causes.Behind }
{
    let rt = shared.rt;
    let bell = &shared.bell;
    let mut count: u64 = 0;
    let mut fault = None;
    for turn in 0..turns {
        let _ = turn;
        if shared.stop.load(Ordering::SeqCst) {
            break;
        }
        await_room(wire, bell, count, &shared.stop);
        match take_in(shared.alloc, wire, buffer, count + 1) {
            Err(cause) => {
                fault = Some(cause);
                break;
            }
            Ok(Intake::Over) => break,
            Ok(Intake::Nothing) => {}
            Ok(Intake::Numbered(datagram)) => {
                if sender.try_send_as::<Sends, T>(rt, ticket, datagram).is_ok() {
                    count += 1;
                    bell.note_put();
                    bell.ring(rt);
                } else {
                    wire.note_dropped();
                }
            }
        }
    }
    bell.close(rt);
    Reading { count, fault }
}

/// Waits until the queue has room, into which so many datagrams were put, or the reader is to stop.
/// It gives up after some ten seconds.
fn await_room<W: Wire>(wire: &mut W, bell: &Bell, put: u64, stop: &AtomicBool)
    ensures failures { W.failures wire.new ≡ W.failures wire.old }
    ensures datagrams { (W.arrivals wire.new ≡ W.arrivals wire.old)
        × (W.drops wire.new ≡ W.drops wire.old) }
{
    for _ in 0..MOST_RESTS {
        if may_go_on(bell, put, stop) {
            return;
        }
        wire.rest();
    }
}

/// Whether the queue has room, into which so many datagrams were put, or the reader is to stop.
fn may_go_on(bell: &Bell, put: u64, stop: &AtomicBool) -> bool {
    bell.has_room(put) || stop.load(Ordering::SeqCst)
}

/// Receives what comes, under a number.
fn take_in<W: Wire>(
    alloc: Global,
    wire: &mut W,
    buffer: &mut [u8],
    number: u64,
) -> Result<Intake, Cause>
    ensures number { IfOk result (λ r. IfSome (datagram_in r) (λ d. d.number ≡ number)) }
    ensures datagrams { IfOk result (λ r. (W.drops wire.new ≡ W.drops wire.old)
        × (W.arrivals wire.new ≡ W.arrivals wire.old + came_by r)) }
    ensures wire { IfErr result (λ c. c ≡ causes.Wire → W.failures wire.old < W.failures wire.new) }
    ensures more { W.failures wire.old ≤ W.failures wire.new }
    ensures behind { IfErr result (λ c. c ≢ causes.Behind) }
{
    match wire.recv(buffer) {
        Err(_) => Err(Cause::Wire),
        Ok(Came::Over) => Ok(Intake::Over),
        Ok(Came::Nothing) => Ok(Intake::Nothing),
        Ok(Came::Datagram(arrival)) => match Vec::from_slice(alloc, &buffer[..arrival.size]) {
            Err(_) => Err(Cause::Memory),
            Ok(bytes) => Ok(Intake::Numbered(Datagram {
                number,
                from: arrival.from,
                bytes,
                moment: arrival.moment,
            })),
        },
    }
}
