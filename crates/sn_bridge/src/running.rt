//! One turn after the other: what came goes through the machine, and what that gives goes out.

use crate::ends::{Gate, Line, Looked, dial};
use crate::parsing::Setup;
use crate::refused::{Owed, keep};
use crate::spool::{Found, Kept, Spool, open};
use crate::stop::Stop;
use crate::telling::{
    Refusal, Told, refusal_in_frame, refusal_in_packet, soon_ended, spool_failed,
};
use br_core::{Action, Bridge, Command, Event, Item, Moment, Why, begun, step};
use mio::{Events, Poll, Registry};
use mq_packet::Packet;
use octets::Sequence;
use sn_frame::{EncodeFault, Frame, FrameFault, decode, encode};
use std::alloc::Global;
use std::io::Write;
use std::mem;
use std::net::SocketAddr;
use std::time::{Clock, Duration};

/// How many milliseconds a turn waits for something to come; so often time goes by.
const TURN_WAIT_MS: u64 = 100;

/// The most octets of a datagram, and of one read of the connection.
const BUFFER: usize = 65_535;

/// How many datagrams of a lane, and reads of the connection, a turn takes at most.
const MOST_READS: usize = 64;

/// How many milliseconds pass between two tries to write a line of what no side will have.
const PATIENCE: u64 = 1_000;

/// A connection that ends within so many milliseconds has ended soon.
const SOON: u64 = 3_000;

/// After how many such connections in turn it is told.
const MOST_SHORT: u32 = 3;

/// What the program has in hand.
struct Turning<'a> {
    setup: &'a Setup,
    bridge: Bridge,
    poll: Poll,
    lanes: Vec<Gate>,
    down: Gate,
    line: Option<Line>,
    /// Whether the connection has ended since the machine was told.
    is_lost: bool,
    owed: Vec<Owed>,
    /// The readings that the bridge answers for.
    spool: Option<Spool>,
    /// The millisecond from which on a line is tried again that could not be written.
    rest: u64,
    /// The millisecond by which time goes by next.
    due: u64,
    /// Whether more may be there than was read.
    is_busy: bool,
    /// What was refused last and is to be told.
    refusal: Option<Refusal>,
    /// The millisecond in which the broker took the connection.
    opened: u64,
    /// How many connections in turn the broker has ended soon.
    short: u32,
}

impl Drop for Turning<'_> {
    fn drop(self) {
        let Turning {
            setup: _,
            bridge,
            poll,
            lanes,
            down,
            line,
            is_lost: _,
            owed,
            spool,
            rest: _,
            due: _,
            is_busy: _,
            refusal,
            opened: _,
            short: _,
        } = self;
        drop(bridge);
        drop(poll);
        drop(lanes);
        drop(down);
        drop(line);
        drop(owed);
        drop(spool);
        drop(refusal);
    }
}

/// The millisecond of the clock that nobody sets.
fn millisecond(clock: &HostRuntime) -> u64 {
    match clock.monotonic() {
        Ok(since) => since
            .as_secs()
            .saturating_mul(1_000)
            .saturating_add(u64::from(since.subsec_millis())),
        Err(_) => 0,
    }
}

/// The moment of the clock that nobody sets.
fn moment(clock: &HostRuntime) -> Moment {
    Moment::of(millisecond(clock) / 1_000)
}

/// Opens the sockets of all lanes, and runs until memory runs out.
pub(crate) fn run<E: Write>(
    rt: &HostRuntime,
    alloc: Global,
    setup: &Setup,
    err: &mut E,
) -> Result<(), Stop> {
    let found = found_in(rt, alloc, setup, err)?;
    match opened(rt, alloc, setup) {
        Ok(run) => run_from(rt, alloc, run, found, err),
        Err(stop) => {
            drop(found);
            Err(stop)
        }
    }
}

/// Runs until memory runs out.
fn run_from<E: Write>(
    rt: &HostRuntime,
    alloc: Global,
    mut run: Turning<'_>,
    found: Option<Found>,
    err: &mut E,
) -> Result<(), Stop> {
    let done = run.begin(rt, alloc, found, err);
    drop(run);
    done
}

/// The spool of the settings, with what it has kept; nothing if they name none.
fn found_in<E: Write>(
    rt: &HostRuntime,
    alloc: Global,
    setup: &Setup,
    err: &mut E,
) -> Result<Option<Found>, Stop> {
    match &setup.spool {
        None => Ok(None),
        Some(path) => Ok(Some(open(rt, alloc, path.as_str(), err)?)),
    }
}

/// The sockets of so many lanes.
fn open_lanes(
    net: &HostRuntime,
    alloc: Global,
    registry: &Registry,
    gateways: &[SocketAddr],
    count: usize,
) -> Result<Vec<Gate>, Stop> {
    let mut lanes = Vec::new(alloc);
    for place in 0..count {
        lanes.push(Gate::open(net, registry, place, gateways)?)?;
    }
    Ok(lanes)
}

/// The sockets of all lanes.
#[derive(Drop)]
struct Gates {
    lanes: Vec<Gate>,
    down: Gate,
}

/// The sockets of all lanes.
fn gates_of(
    net: &HostRuntime,
    alloc: Global,
    registry: &Registry,
    setup: &Setup,
) -> Result<Gates, Stop> {
    let gateways = setup.gateways.as_slice();
    let count = setup.settings.lanes.len();
    let lanes = open_lanes(net, alloc, registry, gateways, count)?;
    match Gate::open(net, registry, count, gateways) {
        Ok(down) => Ok(Gates { lanes, down }),
        Err(stop) => {
            drop(lanes);
            Err(stop)
        }
    }
}

/// A bridge that begins.
fn opened<'a>(rt: &HostRuntime, alloc: Global, setup: &'a Setup) -> Result<Turning<'a>, Stop> {
    let Ok(poll) = Poll::new(rt) else {
        return Err(Stop::Socket);
    };
    match gates_of(rt, alloc, poll.registry(), setup) {
        Ok(gates) => opened_with(alloc, setup, poll, gates),
        Err(stop) => {
            drop(poll);
            Err(stop)
        }
    }
}

/// A bridge that begins with these sockets.
fn opened_with<'a>(
    alloc: Global,
    setup: &'a Setup,
    poll: Poll,
    gates: Gates,
) -> Result<Turning<'a>, Stop> {
    match begun(alloc, &setup.settings) {
        Ok(bridge) => Ok(turning_of(alloc, setup, poll, gates, bridge)),
        Err(_) => {
            drop(poll);
            drop(gates);
            Err(Stop::Memory)
        }
    }
}

/// What the program has in hand as it begins.
fn turning_of<'a>(
    alloc: Global,
    setup: &'a Setup,
    poll: Poll,
    gates: Gates,
    bridge: Bridge,
) -> Turning<'a> {
    let Gates { lanes, down } = gates;
    Turning {
        setup,
        bridge,
        poll,
        lanes,
        down,
        line: None,
        is_lost: false,
        owed: Vec::new(alloc),
        spool: None,
        rest: 0,
        due: 0,
        is_busy: false,
        refusal: None,
        opened: 0,
        short: 0,
    }
}

/// The frame that a datagram spells, if it spells one.
fn frame_of(alloc: Global, octets: &[u8]) -> Result<Option<Frame>, Stop> {
    match decode(alloc, octets) {
        Ok(frame) => Ok(Some(frame)),
        Err(FrameFault::Memory) => Err(Stop::Memory),
        Err(_) => Ok(None),
    }
}

/// The octets of a frame, if it has some.
fn written(alloc: Global, frame: &Frame) -> Result<Vec<u8>, Stop> {
    let mut octets = Vec::new(alloc);
    match encode(alloc, frame, &mut octets) {
        Ok(()) | Err(EncodeFault::Body) | Err(EncodeFault::TooLong) => Ok(octets),
        Err(EncodeFault::Memory) => Err(Stop::Memory),
    }
}

impl<'a> Turning<'a> {
    /// What the spool has kept goes on its way again; then turn after turn.
    fn begin<E: Write>(
        &mut self,
        rt: &HostRuntime,
        alloc: Global,
        found: Option<Found>,
        err: &mut E,
    ) -> Result<(), Stop> {
        if let Some(found) = found {
            self.resume(rt, alloc, found)?;
        }
        self.turns(rt, alloc, err)
    }

    /// The machine hears of all readings that the spool has kept, and from which number on it
    /// counts.
    fn resume(&mut self, rt: &HostRuntime, alloc: Global, found: Found) -> Result<(), Stop> {
        let Found { spool, items, next } = found;
        drop(mem::replace(&mut self.spool, Some(spool)));
        self.find_all(rt, alloc, items)?;
        self.take_in(rt, alloc, Event::Resumed { number: next })
    }

    /// Readings that the spool has kept go through the machine.
    fn find_all(&mut self, rt: &HostRuntime, alloc: Global, items: Vec<Item>) -> Result<(), Stop> {
        for item in items {
            self.take_in(rt, alloc, Event::Found { item })?;
        }
        Ok(())
    }

    /// Turn after turn.
    fn turns<E: Write>(
        &mut self,
        rt: &HostRuntime,
        alloc: Global,
        err: &mut E,
    ) -> Result<(), Stop> {
        let mut events = Events::with_capacity(alloc, 64)?;
        let mut buffer = vec![in alloc; 0_u8; BUFFER]?;
        let mut told = Told::nothing();
        for _ in 0..u64::MAX {
            self.wait(&mut events);
            self.turn(rt, alloc, buffer.as_mut_slice(), err)?;
            told.look(&self.bridge, self.refusal, err);
            self.refusal = None;
        }
        Ok(())
    }

    /// Waits until something comes, or for a while.
    fn wait(&mut self, events: &mut Events) {
        let wait = if self.is_busy { 0 } else { TURN_WAIT_MS };
        let _ = self.poll.poll(events, Some(Duration::from_millis(wait)));
        self.is_busy = false;
    }

    /// What is there on all sides, and the time; then what is to be written and sent. Readings of a
    /// turn go into the spool with one sync, and only then their lanes acknowledge them.
    fn turn<E: Write>(
        &mut self,
        rt: &HostRuntime,
        alloc: Global,
        buffer: &mut [u8],
        err: &mut E,
    ) -> Result<(), Stop> {
        self.hear_all(rt, alloc, buffer)?;
        self.end_lost(rt, alloc)?;
        self.pass_time(rt, alloc)?;
        self.write_all(rt, alloc, err)
    }

    /// What is there on all sides.
    fn hear_all(&mut self, rt: &HostRuntime, alloc: Global, buffer: &mut [u8]) -> Result<(), Stop> {
        self.hear_lanes(rt, alloc, buffer)?;
        self.hear_down(rt, alloc, buffer)?;
        self.hear_broker(rt, alloc, buffer)
    }

    /// What the gateways of all lanes sent.
    fn hear_lanes(
        &mut self,
        rt: &HostRuntime,
        alloc: Global,
        buffer: &mut [u8],
    ) -> Result<(), Stop> {
        for place in 0..self.lanes.len() {
            self.hear_lane(rt, alloc, place, buffer)?;
        }
        Ok(())
    }

    /// What is to be written and sent.
    fn write_all<E: Write>(
        &mut self,
        rt: &HostRuntime,
        alloc: Global,
        err: &mut E,
    ) -> Result<(), Stop> {
        self.write_spool(rt, alloc)?;
        self.write_owed(rt, alloc, err)?;
        self.flush();
        Ok(())
    }

    /// The machine hears that the connection to the broker has ended, if it has.
    fn end_lost(&mut self, rt: &HostRuntime, alloc: Global) -> Result<(), Stop> {
        if !self.is_lost {
            return Ok(());
        }
        self.is_lost = false;
        self.count_short(millisecond(rt));
        self.close();
        self.take_in(rt, alloc, Event::BrokerLost)
    }

    /// There is no connection any more. Lines that are owed are not: their commands come again.
    fn close(&mut self) {
        self.line = None;
        self.owed.truncate(0);
    }

    /// Time goes by, if a while has passed.
    fn pass_time(&mut self, rt: &HostRuntime, alloc: Global) -> Result<(), Stop> {
        let now = millisecond(rt);
        if now < self.due {
            return Ok(());
        }
        self.due = now.saturating_add(TURN_WAIT_MS);
        self.take_in(rt, alloc, Event::Tick)
    }

    /// Keeps what was refused, if something was.
    fn note(&mut self, found: Option<Refusal>) {
        if found.is_some() {
            self.refusal = found;
        }
    }

    /// A connection has ended: the third one in turn that the broker ended soon is told.
    fn count_short(&mut self, now: u64) {
        let is_open = match &self.line {
            None => false,
            Some(line) => line.is_open,
        };
        if !is_open {
            return;
        }
        if now.saturating_sub(self.opened) > SOON {
            self.short = 0;
            return;
        }
        self.short = self.short.saturating_add(1);
        if self.short >= MOST_SHORT {
            self.short = 0;
            self.note(Some(soon_ended()));
        }
    }

    /// An event goes through the machine, and what that gives is done.
    fn take(&mut self, rt: &HostRuntime, alloc: Global, event: &Event) -> Result<(), Stop> {
        let settings = &self.setup.settings;
        step(alloc, settings, event, moment(rt), &mut self.bridge)?;
        let out = mem::replace(&mut self.bridge.out, Sequence::empty(alloc));
        let done = self.carry_out_all(rt, alloc, out.as_slice());
        drop(out);
        done
    }

    /// The same of an event that is not needed after that.
    fn take_in(&mut self, rt: &HostRuntime, alloc: Global, event: Event) -> Result<(), Stop> {
        let done = self.take(rt, alloc, &event);
        drop(event);
        done
    }

    /// What a lane's gateway sent.
    fn hear_lane(
        &mut self,
        rt: &HostRuntime,
        alloc: Global,
        lane: usize,
        buffer: &mut [u8],
    ) -> Result<(), Stop> {
        for _ in 0..MOST_READS {
            let Some(gate) = self.lanes.as_slice().get(lane) else {
                return Ok(());
            };
            let Some((size, is_its)) = gate.receive(self.setup.gateways.as_slice(), buffer) else {
                return Ok(());
            };
            if is_its {
                self.take_frame(rt, alloc, Some(lane), buffer.split_at(size).0)?;
            }
        }
        self.is_busy = true;
        Ok(())
    }

    /// What the gateway of the lane for commands sent.
    fn hear_down(
        &mut self,
        rt: &HostRuntime,
        alloc: Global,
        buffer: &mut [u8],
    ) -> Result<(), Stop> {
        for _ in 0..MOST_READS {
            let gateways = self.setup.gateways.as_slice();
            let Some((size, is_its)) = self.down.receive(gateways, buffer) else {
                return Ok(());
            };
            if is_its {
                self.take_frame(rt, alloc, None, buffer.split_at(size).0)?;
            }
        }
        self.is_busy = true;
        Ok(())
    }

    /// The frame of a datagram for a lane, or for the lane for commands.
    fn take_frame(
        &mut self,
        rt: &HostRuntime,
        alloc: Global,
        lane: Option<usize>,
        datagram: &[u8],
    ) -> Result<(), Stop> {
        let Some(frame) = frame_of(alloc, datagram)? else {
            return Ok(());
        };
        self.note(refusal_in_frame(&frame));
        let event = match lane {
            None => Event::Commands { frame },
            Some(lane) => Event::Field { lane, frame },
        };
        self.take_in(rt, alloc, event)
    }

    /// What a look at the connection finds.
    fn look(&mut self, alloc: Global, buffer: &mut [u8]) -> Result<Looked, Stop> {
        match &mut self.line {
            None => Ok(Looked::Nothing),
            Some(line) => line.look(alloc, buffer),
        }
    }

    /// What the broker sent.
    fn hear_broker(
        &mut self,
        rt: &HostRuntime,
        alloc: Global,
        buffer: &mut [u8],
    ) -> Result<(), Stop> {
        for _ in 0..MOST_READS {
            let found = self.look(alloc, buffer)?;
            if !self.take_look(rt, alloc, found)? {
                return Ok(());
            }
        }
        self.is_busy = true;
        Ok(())
    }

    /// What a look found goes through the machine. Says whether more may be there.
    fn take_look(&mut self, rt: &HostRuntime, alloc: Global, found: Looked) -> Result<bool, Stop> {
        match found {
            Looked::Nothing => Ok(false),
            Looked::Opened => {
                self.opened = millisecond(rt);
                self.take_in(rt, alloc, Event::BrokerOpen)?;
                Ok(true)
            }
            Looked::Over => {
                self.is_lost = true;
                Ok(false)
            }
            Looked::Came { fed } => {
                let is_over = fed.fault.is_some();
                self.take_packets(rt, alloc, fed.packets)?;
                if is_over {
                    self.is_lost = self.line.is_some();
                }
                Ok(!is_over)
            }
        }
    }

    /// Packets of the broker, one after the other.
    fn take_packets(
        &mut self,
        rt: &HostRuntime,
        alloc: Global,
        packets: Vec<Packet>,
    ) -> Result<(), Stop> {
        for packet in packets {
            self.take_packet(rt, alloc, packet)?;
        }
        Ok(())
    }

    /// A packet of the broker.
    fn take_packet(&mut self, rt: &HostRuntime, alloc: Global, packet: Packet) -> Result<(), Stop> {
        self.note(refusal_in_packet(&packet));
        self.take_in(rt, alloc, Event::Broker { packet })
    }

    /// Does all that is to be done, in its order.
    fn carry_out_all(
        &mut self,
        rt: &HostRuntime,
        alloc: Global,
        actions: &[Action],
    ) -> Result<(), Stop> {
        for action in actions {
            self.carry_out(rt, alloc, action)?;
        }
        Ok(())
    }

    /// Does one thing that is to be done.
    fn carry_out(&mut self, rt: &HostRuntime, alloc: Global, action: &Action) -> Result<(), Stop> {
        match action {
            Action::ToField { lane, frame } => self.send(alloc, *lane, frame),
            Action::ToCommands { frame } => self.send_down(alloc, frame),
            Action::ToBroker { packet } => self.say(alloc, packet),
            Action::Reading { packet, .. } => self.say(alloc, packet),
            Action::Refuse { line, command, why } => self.owe(alloc, *line, command, *why),
            Action::Store { item } => self.store(alloc, item),
            Action::Forget { number } => self.forget(*number),
            other => {
                self.connect(rt, alloc, other);
                Ok(())
            }
        }
    }

    /// Turns to another gateway, dials the broker or hangs up, if it is that which is to be done.
    fn connect(&mut self, rt: &HostRuntime, alloc: Global, action: &Action) {
        let gateways = self.setup.gateways.as_slice();
        match action {
            Action::NextGateway { lane } => {
                if let Some(gate) = self.lanes.as_mut_slice().get_mut(*lane) {
                    gate.turn(gateways);
                }
            }
            Action::NextCommands => self.down.turn(gateways),
            Action::Dial => self.dial(rt, alloc),
            Action::HangUp => {
                self.flush();
                self.is_lost = false;
                self.close();
            }
            _ => {}
        }
    }

    /// A packet goes to the broker, if there is a connection.
    fn say(&mut self, alloc: Global, packet: &Packet) -> Result<(), Stop> {
        match &mut self.line {
            None => Ok(()),
            Some(line) => line.say(alloc, packet),
        }
    }

    /// Sends a frame to the gateway of a lane.
    fn send(&self, alloc: Global, lane: usize, frame: &Frame) -> Result<(), Stop> {
        let octets = written(alloc, frame)?;
        if let Some(gate) = self.lanes.as_slice().get(lane) {
            gate.send(self.setup.gateways.as_slice(), octets.as_slice());
        }
        Ok(())
    }

    /// Sends a frame to the gateway of the lane for commands.
    fn send_down(&self, alloc: Global, frame: &Frame) -> Result<(), Stop> {
        let octets = written(alloc, frame)?;
        self.down
            .send(self.setup.gateways.as_slice(), octets.as_slice());
        Ok(())
    }

    /// A line of what no side will have is owed.
    fn owe(&mut self, alloc: Global, line: u64, command: &Command, why: Why) -> Result<(), Stop> {
        let command = command.copied(alloc)?;
        self.owed.push(Owed { line, command, why })?;
        Ok(())
    }

    /// A reading is to go into the spool.
    fn store(&mut self, alloc: Global, item: &Item) -> Result<(), Stop> {
        match &mut self.spool {
            None => Ok(()),
            Some(spool) => spool.store(alloc, item),
        }
    }

    /// The spool may forget a reading.
    fn forget(&mut self, number: u64) -> Result<(), Stop> {
        match &mut self.spool {
            None => Ok(()),
            Some(spool) => spool.forget(number),
        }
    }

    /// What became of the spool in this turn.
    fn kept(&mut self, rt: &HostRuntime, alloc: Global) -> Result<Kept, Stop> {
        let (now, next) = (millisecond(rt), self.bridge.number);
        match &mut self.spool {
            None => Ok(Kept::Nothing),
            Some(spool) => spool.write(rt, alloc, now, next),
        }
    }

    /// Writes what is to go into the spool, and tells the machine what became of it.
    fn write_spool(&mut self, rt: &HostRuntime, alloc: Global) -> Result<(), Stop> {
        match self.kept(rt, alloc)? {
            Kept::Nothing => Ok(()),
            Kept::Below { number } => self.take_in(rt, alloc, Event::Stored { below: number }),
            Kept::Failed { fault } => {
                self.note(Some(spool_failed(fault)));
                self.take_in(rt, alloc, Event::StoreFailed)
            }
        }
    }

    /// Dials the broker.
    fn dial(&mut self, rt: &HostRuntime, alloc: Global) {
        match dial(rt, alloc, self.poll.registry(), self.setup.broker) {
            Ok(line) => self.line = Some(line),
            Err(_) => {
                self.line = None;
                self.is_lost = true;
            }
        }
    }

    /// Sends what waits for the broker, as far as it goes.
    fn flush(&mut self) {
        if let Some(line) = &mut self.line {
            if !line.flush() {
                self.is_lost = true;
            }
        }
    }

    /// Writes the first line that is owed. Where that fails it is owed still, and nothing is
    /// acknowledged.
    fn write_owed<E: Write>(
        &mut self,
        rt: &HostRuntime,
        alloc: Global,
        err: &mut E,
    ) -> Result<(), Stop> {
        let Some(path) = &self.setup.refused else {
            return Ok(());
        };
        let now = millisecond(rt);
        if now < self.rest {
            return Ok(());
        }
        let Some(owed) = self.owed.as_slice().first() else {
            return Ok(());
        };
        let line = owed.line;
        if !keep(rt, path.as_str(), owed, err) {
            self.rest = now.saturating_add(PATIENCE);
            return Ok(());
        }
        drop(self.owed.remove(0));
        self.is_busy = true;
        self.take_in(rt, alloc, Event::Kept { line })
    }
}
