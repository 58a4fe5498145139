//! A link during a shift.

ghost use Rattle.gw_link.specs.Adding.{Adds, is_of_link};

use crate::calling::End;
use crate::counts::counts_of;
use crate::hearing::{answer, hear_all, listen, second_of};
use crate::link::Link;
use crate::outgoing::write_some;
use crate::relay::Relay;
use crate::saying::{greet, hand_all, tell_all};
use crate::stage::Phase;
use crate::work::Work;
use gw_shift::Pass;
use jr_disk::Disk;
use rep_model::Replica;
use std::io::{Read, Write};
use std::sync::Wait;
use std::time::Clock;

/// How many milliseconds a link that may make no more calls waits for the end of the shift.
const CLOSING_WAIT_MS: u64 = 20;

/// Talks over a link until the shift is over. `Full` says that each delta of the shift was told or
/// waits to go out, and the link stays open: what its stream has not taken goes out in the next
/// shift. Any other end says why the link, or more, is at an end.
///
/// Runs in a seat's thread. It takes the shift's lock for a call and the relay's for what links
/// share, and none while it reads or writes.
#[tactic(auto, using(crate::proofs::Adding::adds_more, crate::proofs::Adding::adds_none))]
pub fn talk<T: Wait + Clock, R: Replica, D: Disk + Drop, S: Read + Write + Drop>(
    work: &Work<'_, T, R, D>,
    pass: Pass,
    link: &mut Link<S>,
    gateway: u8,
    piece: &mut [u8],
    relay: &Relay,
) -> (Pass, End)
    ensures { Adds is_of_link pass result.0 }
{
    let mut pass = pass;
    for _ in work.rt.forever() {
        let phase = work.stage.phase(work.rt);
        let (after, turned) = take_turn(work, pass, link, gateway, phase, relay);
        pass = after;
        if let Err(end) = wait_or_listen(work, link, piece, phase, turned) {
            return (pass, end);
        }
    }
    unreachable!()
}

/// Hears what has come, and tells what is new: once what was said before went out, or at the
/// shift's end. Runs in a seat's thread.
#[tactic(auto, using(crate::proofs::Adding::adds_more, crate::proofs::Adding::adds_none))]
fn take_turn<T: Wait + Clock, R: Replica, D: Disk + Drop, S: Write + Drop>(
    work: &Work<'_, T, R, D>,
    pass: Pass,
    link: &mut Link<S>,
    gateway: u8,
    phase: Phase,
    relay: &Relay,
) -> (Pass, Result<(), End>)
    ensures { Adds is_of_link pass result.0 }
{
    let (pass, heard) = hear_in_turn(work, pass, link, gateway, relay);
    match heard {
        Ok(()) | Err(End::Full) => match tell(work, &pass, link, phase, relay) {
            Ok(()) => (pass, heard),
            Err(end) => (pass, Err(end)),
        },
        Err(end) => (pass, Err(end)),
    }
}

/// Says who this is, takes the deltas that came, and answers the digest that did. A link that is
/// mute only takes deltas.
#[tactic(auto, using(crate::proofs::Adding::adds_more, crate::proofs::Adding::adds_none))]
fn hear_in_turn<T: Wait + Clock, R: Replica, D: Disk + Drop, S: Drop>(
    work: &Work<'_, T, R, D>,
    pass: Pass,
    link: &mut Link<S>,
    gateway: u8,
    relay: &Relay,
) -> (Pass, Result<(), End>)
    ensures { Adds is_of_link pass result.0 }
{
    if link.mute {
        return hear_all(work, pass, link, relay);
    }
    let (pass, greeted) = greet(work, pass, link, gateway, relay);
    if greeted.is_err() {
        return (pass, greeted);
    }
    if !link.greeted {
        return (pass, Ok(()));
    }
    let (pass, heard) = hear_all(work, pass, link, relay);
    if heard.is_err() {
        return (pass, heard);
    }
    answer(work, pass, link, relay)
}

/// Lets whoever watches the gateway see what was counted of a link.
fn show<T: Wait, S: Drop>(rt: &T, link: &Link<S>, relay: &Relay) {
    if let Some(place) = link.place {
        relay.note_counts(rt, place, link.heard.unwrap_or(0), counts_of(link));
    }
}

/// Tells what is new, if that is due, and lets go out what the stream takes. A stream that took
/// nothing lately is not waited for at the shift's end. Runs in a seat's thread, without a lock
/// while it writes.
fn tell<T: Wait, R: Replica, D: Disk + Drop, S: Write + Drop>(
    work: &Work<'_, T, R, D>,
    pass: &Pass,
    link: &mut Link<S>,
    phase: Phase,
    relay: &Relay,
) -> Result<(), End> {
    show(work.rt, link, relay);
    if link.mute {
        return Ok(());
    }
    // a link begins with its greeting; the answer to the peer's digest has what was made before
    if link.greeted && (link.is_told() || phase == Phase::Quiet) {
        tell_all(work, pass, link, relay)?;
        hand_all(work.rt, work.alloc, link, relay)?;
    }
    if phase == Phase::Quiet && link.stalls > 0 {
        return Ok(());
    }
    write_some(link, phase)
}

/// Reads on, or waits if no more calls may be made. At the shift's end that is an end too. Runs in
/// a seat's thread, without a lock.
fn wait_or_listen<T: Wait + Clock, R: Replica, D: Disk + Drop, S: Read + Drop>(
    work: &Work<'_, T, R, D>,
    link: &mut Link<S>,
    piece: &mut [u8],
    phase: Phase,
    turned: Result<(), End>,
) -> Result<(), End> {
    match turned {
        Ok(()) | Err(End::Full) if phase == Phase::Quiet => Err(End::Full),
        Ok(()) if link.failed => Err(End::Lost),
        Ok(()) => listen(work.alloc, link, piece, second_of(work.rt)),
        Err(End::Full) => {
            work.stage.close(work.rt);
            work.stage.wait(work.rt, Phase::Closing, CLOSING_WAIT_MS);
            Ok(())
        }
        Err(end) => Err(end),
    }
}
