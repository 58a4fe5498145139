//! The wire, which ends with the shift.

ghost use Rattle.std.specs.Prelude.{◌≡◌, ◌+◌};

use crate::admission::{Admission, CONGESTION, Verdict};
use crate::board::Number;
use crate::held_over::Late;
use crate::program::Program;
use gw_link::{Phase, Stage};
use gw_wire::{Arrival, Came, Post, Tally, Wire, WireFault};
use jr_disk::Failures;
use std::sync::Wait;
use std::time::Clock;

/// How many milliseconds the reader rests that has no room for more.
const FULL_WAIT_MS: u64 = 1;

/// How often the reader rests, and how many seconds its clock goes on meanwhile, before the shift
/// is closed since nobody takes what it read.
const MOST_RESTS: u32 = 4_000;

/// The seconds of that.
const MOST_RESTS_SECONDS: u64 = 4;

/// How many milliseconds pass before it is looked again whether the gateway listens.
const LISTEN_WAIT_MS: u64 = 10;

/// A wire that is over when its shift is to close, and closes it when all its calls are claimed.
/// What comes is a call's, which is claimed for it and given back if it is dropped; what comes when
/// none is left is the first datagram of the next shift, and what comes after that waits in the
/// socket. Only the reader's thread has it.
#[derive(Drop)]
pub struct Watched<'a, T: Wait + Clock, W: Wire, P: Post> {
    /// What outlives the shift: whether the gateway listens first, and what is counted.
    program: &'a Program<'a, T>,
    wire: &'a mut W,
    /// By which clients are answered that are not let in.
    mouth: P,
    stage: &'a Stage,
    /// The datagram that came too late for its shift.
    late: &'a mut Late,
    /// Which clients are let in.
    admission: &'a mut Admission,
    /// How often the reader rested since it last read.
    rests: u32,
    /// The second in which it first did.
    rested: u64,
    /// How many receives have failed.
    pub failures: Failures,
    /// How many datagrams came.
    pub arrivals: Tally,
    /// How many datagrams were dropped.
    pub drops: Tally,
}

impl<'a, T: Wait + Clock, W: Wire, P: Post> Watched<'a, T, W, P> {
    /// A wire that has not failed.
    pub(crate) fn new(
        program: &'a Program<'a, T>,
        wire: &'a mut W,
        mouth: P,
        stage: &'a Stage,
        late: &'a mut Late,
        admission: &'a mut Admission,
    ) -> Watched<'a, T, W, P> {
        Watched {
            program,
            wire,
            mouth,
            stage,
            late,
            admission,
            rests: 0,
            rested: 0,
            failures: Failures::none(),
            arrivals: Tally::none(),
            drops: Tally::none(),
        }
    }

    /// Whether the gateway listens to its peers, and reads no datagram yet. If one of them has told
    /// what it must have made itself, and has lost, the shift is to close, and nothing is read.
    fn listens(&self) -> bool {
        let rt = self.program.rt;
        let pool = &self.program.shared.pool;
        let is_on = pool.listening.look(rt, &pool.relay);
        if pool.relay.found_by(rt).is_some() {
            self.stage.close(rt);
            return true;
        }
        is_on
    }

    /// Whether a datagram becomes no call. A CONNECT of a client that is not let in is answered. If
    /// that client may be known meanwhile, the shift is to close, and the next one looks.
    fn holds_back(&mut self, arrival: &Arrival, datagram: &[u8]) -> bool
        ensures failures { self.new.failures ≡ self.old.failures }
        ensures datagrams { (self.new.arrivals ≡ self.old.arrivals)
            × (self.new.drops ≡ self.old.drops) }
    {
        let shared = self.program.shared;
        let second = shared.pool.clock.second();
        let verdict = self.admission.verdict(self.program.alloc, second, datagram);
        match verdict {
            Verdict::Comes => false,
            Verdict::Dropped => {
                shared.board.note_came(datagram);
                shared.board.add(Number::Dropped);
                true
            }
            Verdict::TurnedAway(code) => {
                shared.board.note_came(datagram);
                self.turn_away(arrival, second, code);
                true
            }
        }
    }

    /// Answers, in this second, the CONNECT of a client that is not let in.
    fn turn_away(&self, arrival: &Arrival, second: u64, code: u8) {
        let answer = [3, 5, code];
        let is_sent = self.mouth.send(arrival.from, &answer).is_ok();
        self.program.shared.board.note_sent(&answer, is_sent);
        if code == CONGESTION && self.admission.is_old(second) {
            self.stage.close(self.program.rt);
        }
    }

    /// Whether the shift is over, which it is once all its calls are claimed.
    fn is_over(&self) -> bool {
        if self.stage.is_full() {
            self.stage.close(self.program.rt);
        }
        self.stage.phase(self.program.rt) != Phase::Serving
    }

    /// Whether there is a call for the datagram that came late.
    fn has_call(&mut self) -> bool
        ensures failures { self.new.failures ≡ self.old.failures }
        ensures datagrams { (self.new.arrivals ≡ self.old.arrivals)
            × (self.new.drops ≡ self.old.drops) }
    {
        self.late.take_claim() || self.stage.claim()
    }
}

impl<'a, T: Wait + Clock, W: Wire, P: Post> Wire for Watched<'a, T, W, P> {
    ghost failures = { λ w. w.failures.count };

    ghost arrivals = { λ w. w.arrivals.count };

    ghost drops = { λ w. w.drops.count };

    /// Over once the shift is to close. It holds no lock while it waits for a datagram.
    fn recv(&mut self, buffer: &mut [u8]) -> Result<Came, WireFault> {
        self.rests = 0;
        let rt = self.program.rt;
        let shared = self.program.shared;
        let is_listening = shared.pool.listening.is_on() && self.listens();
        if !is_listening && self.late.is_there() && self.has_call() {
            let Some(arrival) = self.late.give(buffer) else {
                return Ok(Came::Nothing);
            };
            if self.holds_back(&arrival, &buffer[..arrival.size]) {
                self.stage.give_back();
                return Ok(Came::Nothing);
            }
            shared.board.note_came(&buffer[..arrival.size]);
            self.arrivals = Tally::next(&self.arrivals);
            return Ok(Came::Datagram(arrival));
        }
        if self.is_over() {
            return Ok(Came::Over);
        }
        if is_listening {
            self.stage.wait(rt, Phase::Serving, LISTEN_WAIT_MS);
            return Ok(Came::Nothing);
        }
        match self.wire.recv(buffer) {
            Ok(Came::Over) => Ok(Came::Over),
            Ok(Came::Nothing) => {
                shared.pool.note_read();
                Ok(Came::Nothing)
            }
            Ok(Came::Datagram(arrival)) => {
                if self.holds_back(&arrival, &buffer[..arrival.size]) {
                    return Ok(Came::Nothing);
                }
                if self.stage.claim() {
                    shared.board.note_came(&buffer[..arrival.size]);
                    self.stage.keep(rt, arrival.size);
                    self.arrivals = Tally::next(&self.arrivals);
                    return Ok(Came::Datagram(arrival));
                }
                self.late.keep(arrival, buffer);
                self.stage.close(rt);
                Ok(Came::Over)
            }
            Err(_) => {
                self.failures = Failures::next(&self.failures);
                Err(WireFault)
            }
        }
    }

    fn note_dropped(&mut self) {
        self.drops = Tally::next(&self.drops);
        self.program.shared.board.add(Number::Dropped);
        self.stage.give_back();
    }

    /// If nothing was taken for seconds, though the clock's own calls were made, the system has
    /// refused the threads that take datagrams: the next shift asks for new ones.
    fn rest(&mut self) {
        let pool = &self.program.shared.pool;
        let second = pool.clock.second();
        if self.rests == 0 {
            self.rested = second;
            pool.note_full();
        }
        self.rests = self.rests.saturating_add(1);
        if self.rests > MOST_RESTS && second > self.rested.saturating_add(MOST_RESTS_SECONDS) {
            self.stage.close(self.program.rt);
        }
        self.stage
            .wait(self.program.rt, Phase::Serving, FULL_WAIT_MS);
    }
}
