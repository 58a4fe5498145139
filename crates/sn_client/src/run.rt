//! A run: exchanges over the socket, and what is printed of them.

ghost use Rattle.std.specs.Prelude.{◌≤◌, IfOk};

use crate::asking::{begin, told_will};
use crate::pace::Pace;
use crate::talk::{Awaited, Outcome, Talk, acknowledgement};
use crate::telling::{Hex, Told};
use crate::wire::Wire;
use crate::words::{Command, Settings};
use octets::NoMemory;
use sn_frame::{EncodeFault, Frame, FrameFault, decode, encode};
use std::alloc::{AllocError, Global};
use std::time::{Clock, Duration, Instant, SystemTime};
use std::{fmt, io};

/// The most octets of a datagram.
const DATAGRAM: usize = 65_535;

/// A connection with the session that is there.
const CONNECT: Command<'static> = Command::Connect {
    clean: false,
    keep_alive: 0,
    will: None,
};

/// Why a run failed.
pub(crate) enum Fault {
    /// The socket, the clock or the output failed.
    Io(io::Error),
    /// The client's port cannot be had.
    Port { port: u16, error: io::Error },
    /// What was asked for fits no frame.
    Frame(EncodeFault),
    /// Memory ran out.
    Memory,
}

impl Drop for Fault {
    fn drop(self) {
        match self {
            Fault::Io(inner) => drop(inner),
            Fault::Port { port: _, error } => drop(error),
            Fault::Frame(inner) => drop(inner),
            Fault::Memory => {}
        }
    }
}

impl fmt::Display for Fault {
    fn fmt<W: fmt::Write>(&self, f: &mut fmt::Formatter<W>) -> fmt::Result {
        match self {
            Fault::Io(error) => write!(f, "{error}"),
            Fault::Port { port, error } => write!(
                f,
                "port {port}: {error}; one run of a client at a time, or another --port"
            ),
            Fault::Frame(fault) => write!(f, "{fault}"),
            Fault::Memory => f.write_str("out of memory"),
        }
    }
}

impl From<io::Error> for Fault {
    fn from(error: io::Error) -> Fault {
        Fault::Io(error)
    }
}

impl From<EncodeFault> for Fault {
    fn from(fault: EncodeFault) -> Fault {
        match fault {
            EncodeFault::TooLong | EncodeFault::Body => Fault::Frame(fault),
            EncodeFault::Memory => Fault::Memory,
        }
    }
}

impl From<AllocError> for Fault {
    fn from(_error: AllocError) -> Fault {
        Fault::Memory
    }
}

impl From<NoMemory> for Fault {
    fn from(_error: NoMemory) -> Fault {
        Fault::Memory
    }
}

/// An exchange that goes on.
#[derive(Drop)]
struct Run<'a> {
    wire: &'a Wire,
    talk: Talk,
    pace: Pace,
    hex: bool,
    /// Whether a command follows this exchange, which hears what comes after the answer.
    is_followed: bool,
}

/// A message id that is not 0, and seldom that of a run before.
fn message_id(clock: &impl Clock) -> io::Result<u16>
    ensures { IfOk result (λ id. 1 ≤ id) }
{
    let now = SystemTime::now(clock)?;
    let since = now
        .duration_since(SystemTime::UNIX_EPOCH)
        .unwrap_or(Duration::ZERO);
    Ok((since.as_millis() % 65_535) as u16 + 1)
}

/// A duration as a number of milliseconds.
fn millis(duration: Duration) -> u64 {
    u64::try_from(duration.as_millis()).unwrap_or(u64::MAX)
}

/// What the settings ask for, by a socket of its own.
pub(crate) fn converse(rt: &HostRuntime, settings: &Settings<'_>) -> Result<Outcome, Fault> {
    let wire = opened(rt, settings)?;
    let outcome = converse_by(rt, settings, &wire);
    drop(wire);
    outcome
}

/// The socket that the settings ask for.
fn opened(rt: &HostRuntime, settings: &Settings<'_>) -> Result<Wire, Fault> {
    match Wire::open(rt, settings.port, settings.gateway) {
        Ok(wire) => Ok(wire),
        Err(error) => Err(Fault::Port {
            port: settings.port,
            error,
        }),
    }
}

/// The command that was asked for, after a connection where one is asked for.
fn converse_by(rt: &HostRuntime, settings: &Settings<'_>, wire: &Wire) -> Result<Outcome, Fault> {
    introduce(rt, settings, wire)?;
    if settings.connect {
        let outcome = exchange(rt, settings, wire, &CONNECT, true)?;
        if outcome != Outcome::Accepted {
            return Ok(outcome);
        }
    }
    exchange(rt, settings, wire, &settings.command, false)
}

/// Says who speaks, and with whom.
fn introduce(rt: &HostRuntime, settings: &Settings<'_>, wire: &Wire) -> io::Result<()> {
    let (client, gateway, port) = (settings.client, settings.gateway, wire.port()?);
    println!(rt; "-- client {client:?} at port {port}, gateway {gateway}")
}

/// One exchange, which another follows or not.
fn exchange(
    rt: &HostRuntime,
    settings: &Settings<'_>,
    wire: &Wire,
    command: &Command<'_>,
    is_followed: bool,
) -> Result<Outcome, Fault> {
    let mut run = Run {
        wire,
        talk: talk_of(rt, settings, command)?,
        pace: Pace::of(if is_followed {
            settings.wait
        } else {
            settings.seconds
        }),
        hex: settings.hex,
        is_followed,
    };
    let outcome = run.exchange(rt, command);
    drop(run);
    outcome
}

/// The beginning of an exchange for a command.
fn talk_of(
    rt: &HostRuntime,
    settings: &Settings<'_>,
    command: &Command<'_>,
) -> Result<Talk, Fault> {
    let id = message_id(rt)?;
    Ok(begin(rt.alloc(), settings.client, command, id)?)
}

impl Run<'_> {
    /// The exchange, to its end.
    fn exchange(&mut self, rt: &HostRuntime, command: &Command<'_>) -> Result<Outcome, Fault> {
        self.carry_on(rt, command)?;
        Ok(self.conclude(rt)?)
    }

    /// Speaks and hears, with room for a datagram.
    fn carry_on(&mut self, rt: &HostRuntime, command: &Command<'_>) -> Result<(), Fault> {
        let mut buffer = vec![in rt.alloc(); 0_u8; DATAGRAM]?;
        let done = self.speak_and_hear(rt, command, buffer.as_mut_slice());
        drop(buffer);
        done
    }

    /// Says how the exchange has ended where nothing says that it did.
    fn conclude(&self, rt: &HostRuntime) -> io::Result<Outcome> {
        let outcome = self.concluded();
        if outcome == Outcome::Unanswered {
            let why = self.silence();
            println!(rt; "-- {why}")?;
        }
        Ok(outcome)
    }

    /// Speaks and hears until the exchange is over.
    fn speak_and_hear(
        &mut self,
        rt: &HostRuntime,
        command: &Command<'_>,
        buffer: &mut [u8],
    ) -> Result<(), Fault> {
        let start = Instant::now(rt)?;
        for _ in 0..u64::MAX {
            if self.go_on(rt, command, buffer, start)? {
                break;
            }
        }
        Ok(())
    }

    /// Speaks and hears once more. Whether the exchange is over in place of that.
    fn go_on(
        &mut self,
        rt: &HostRuntime,
        command: &Command<'_>,
        buffer: &mut [u8],
        start: Instant,
    ) -> Result<bool, Fault> {
        let moment = millis(start.elapsed(rt)?);
        if self.is_over(moment) {
            return Ok(true);
        }
        self.take_turns(rt, command, buffer, moment)?;
        Ok(false)
    }

    /// Speaks and hears once.
    fn take_turns(
        &mut self,
        rt: &HostRuntime,
        command: &Command<'_>,
        buffer: &mut [u8],
        moment: u64,
    ) -> Result<(), Fault> {
        self.speak(rt, moment)?;
        self.hear(rt, command, buffer, moment)
    }

    /// Whether the exchange is over. One that is followed by another is over with its answer: what
    /// comes after that is heard there.
    fn is_over(&self, moment: u64) -> bool {
        if self.is_followed && self.talk.outcome.is_some() {
            return true;
        }
        self.pace.is_over(&self.talk, moment)
    }

    /// How the exchange has ended. A frame that was still to go when the time was up never went.
    fn concluded(&self) -> Outcome {
        match self.pace.sent {
            None => Outcome::Unanswered,
            Some(_) => self.talk.conclude(self.pace.came),
        }
    }

    /// What is said where the exchange has no answer.
    fn silence(&self) -> &'static str {
        match self.talk.awaited {
            Awaited::Anything => "nothing came",
            _ if self.pace.came => "what came is no answer: nothing says whether this was done",
            _ => "no answer came: nothing says whether a gateway has heard this",
        }
    }

    /// Sends the pending frame, where it is due.
    fn speak(&mut self, rt: &HostRuntime, moment: u64) -> Result<(), Fault> {
        if !self.pace.is_due(&self.talk, moment) {
            return Ok(());
        }
        if self.pace.sent.is_some() {
            self.talk.repeat();
        }
        self.send_pending(rt)?;
        self.pace.note_sent(moment);
        Ok(())
    }

    /// Sends the pending frame.
    fn send_pending(&self, rt: &HostRuntime) -> Result<(), Fault> {
        say(rt, self.wire, &self.talk.pending, self.hex)
    }

    /// Takes a datagram, if one comes within a while.
    fn hear(
        &mut self,
        rt: &HostRuntime,
        command: &Command<'_>,
        buffer: &mut [u8],
        moment: u64,
    ) -> Result<(), Fault> {
        match self.wire.receive(buffer)? {
            None => Ok(()),
            Some(size) => self.heed(rt, command, &buffer[..size], moment),
        }
    }

    /// What a datagram leads to.
    fn heed(
        &mut self,
        rt: &HostRuntime,
        command: &Command<'_>,
        octets: &[u8],
        moment: u64,
    ) -> Result<(), Fault> {
        let spelled = frame_of(rt.alloc(), octets);
        let done = match &spelled {
            Ok(frame) => self.heed_frame(rt, command, frame, octets, moment),
            Err(fault) => tell_fault(rt, fault, octets),
        };
        drop(spelled);
        done
    }

    /// What the frame of a datagram leads to.
    fn heed_frame(
        &mut self,
        rt: &HostRuntime,
        command: &Command<'_>,
        frame: &Frame,
        octets: &[u8],
        moment: u64,
    ) -> Result<(), Fault> {
        tell(rt, "<-", frame, octets, self.hex)?;
        self.answer(rt, command, frame, moment)
    }

    /// What a frame that came leads to.
    fn answer(
        &mut self,
        rt: &HostRuntime,
        command: &Command<'_>,
        frame: &Frame,
        moment: u64,
    ) -> Result<(), Fault> {
        self.acknowledge(rt, frame)?;
        self.tell_will(rt, command, frame)?;
        if is_farewell(frame, self.talk.awaited) {
            println!(rt;
                "-- the gateway has no connection with this client at this port: connect"
            )?;
        }
        self.take(frame, moment);
        Ok(())
    }

    /// Sends what acknowledges a frame, if anything does.
    fn acknowledge(&self, rt: &HostRuntime, frame: &Frame) -> Result<(), Fault> {
        let reply = reply_to(frame);
        let said = say(rt, self.wire, &reply, self.hex);
        drop(reply);
        said
    }

    /// Sends what a frame asks of a will, if it asks.
    fn tell_will(
        &self,
        rt: &HostRuntime,
        command: &Command<'_>,
        frame: &Frame,
    ) -> Result<(), Fault> {
        let told = told_will(rt.alloc(), command, frame)?;
        let said = say(rt, self.wire, &told, self.hex);
        drop(told);
        said
    }

    /// The exchange goes on, or ends, by a frame.
    fn take(&mut self, frame: &Frame, moment: u64) {
        if matches!(self.talk.awaited, Awaited::Waking) {
            self.pace.wait_from(moment);
        }
        let goes_on = self.talk.take(frame);
        self.pace.note_came(moment, goes_on);
    }
}

/// Whether a frame ends the connection, where no end was asked for.
fn is_farewell(frame: &Frame, awaited: Awaited) -> bool {
    matches!(frame, Frame::Disconnect { .. }) && !matches!(awaited, Awaited::Farewell)
}

/// Sends a frame, if there is one, and tells it.
fn say(rt: &HostRuntime, wire: &Wire, frame: &Option<Frame>, hex: bool) -> Result<(), Fault> {
    match frame {
        None => Ok(()),
        Some(frame) => send(rt, wire, frame, hex),
    }
}

/// Sends a frame, and tells it.
fn send(rt: &HostRuntime, wire: &Wire, frame: &Frame, hex: bool) -> Result<(), Fault> {
    let octets = written(rt.alloc(), frame)?;
    let sent = tell_and_send(rt, wire, frame, octets.as_slice(), hex);
    drop(octets);
    Ok(sent?)
}

/// Tells a frame, and sends its octets.
fn tell_and_send(
    rt: &HostRuntime,
    wire: &Wire,
    frame: &Frame,
    octets: &[u8],
    hex: bool,
) -> io::Result<()> {
    tell(rt, "->", frame, octets, hex)?;
    wire.send(octets)
}

/// What a frame is acknowledged by. Nothing is said of it, so that who asks carries no clause on.
fn reply_to(frame: &Frame) -> Option<Frame> {
    acknowledgement(frame)
}

/// The frame that a datagram spells. Nothing is said of it, so that who asks carries no clause on.
fn frame_of(alloc: Global, octets: &[u8]) -> Result<Frame, FrameFault> {
    decode(alloc, octets)
}

/// The octets of a frame.
fn written(alloc: Global, frame: &Frame) -> Result<Vec<u8>, EncodeFault> {
    let mut octets = Vec::new(alloc);
    encode(alloc, frame, &mut octets)?;
    Ok(octets)
}

/// Prints a frame in words, and its octets where they are asked for.
fn tell(rt: &HostRuntime, way: &str, frame: &Frame, octets: &[u8], hex: bool) -> io::Result<()> {
    let told = Told(frame);
    println!(rt; "{way} {told}")?;
    if hex { tell_octets(rt, octets) } else { Ok(()) }
}

/// Prints the octets of a frame.
fn tell_octets(rt: &HostRuntime, octets: &[u8]) -> io::Result<()> {
    let digits = Hex(octets);
    println!(rt; "   {digits}")
}

/// Prints why a datagram spells no frame.
fn tell_fault(rt: &HostRuntime, fault: &FrameFault, octets: &[u8]) -> Result<(), Fault> {
    if matches!(fault, FrameFault::Memory) {
        return Err(Fault::Memory);
    }
    let (number, digits) = (fault.number(), Hex(octets));
    println!(rt; "<- no frame: F{number}: {fault}: {digits}")?;
    Ok(())
}
