//! What is told on standard error.

use br_core::{Bridge, Phase, Side};
use mq_packet::{Packet, Qos};
use sn_frame::Frame;
use std::io::Write;

/// What is refused.
#[derive(Clone, Copy, PartialEq, Eq)]
pub(crate) enum What {
    /// The client, by the broker.
    Client,
    /// A filter, by the broker.
    Filter,
    /// Each connection, soon after the broker took it.
    Connection,
    /// The CONNECT of a lane, by its gateway.
    Lane,
    /// A name, by the gateway of a lane.
    Name,
    /// A command, by the gateway.
    Command,
    /// Readings, by the spool.
    Spool,
}

/// What is refused, and the code that says so.
#[derive(Clone, Copy, PartialEq, Eq)]
pub(crate) struct Refusal {
    what: What,
    code: u8,
}

/// A refusal by a code; code 0 is none.
fn refused(what: What, code: u8) -> Option<Refusal> {
    if code == 0 {
        None
    } else {
        Some(Refusal { what, code })
    }
}

/// What a frame refuses. A gateway that has forgotten an id (code 2) is given the name again.
pub(crate) fn refusal_in_frame(frame: &Frame) -> Option<Refusal> {
    match frame {
        Frame::ConnAck { code } => refused(What::Lane, *code),
        Frame::SubAck { code, .. } => refused(What::Name, *code),
        Frame::RegAck { code, .. } => refused(What::Command, *code),
        Frame::PubAck { code, .. } => refused(What::Command, if *code == 2 { 0 } else { *code }),
        _ => None,
    }
}

/// What a packet refuses.
pub(crate) fn refusal_in_packet(packet: &Packet) -> Option<Refusal> {
    match packet {
        Packet::ConnAck { code, .. } => refused(What::Client, *code),
        Packet::SubAck { granted, .. } => refusal_of_filter(*granted),
        _ => None,
    }
}

/// Whether a filter is refused, or granted at quality of service 0 only.
fn refusal_of_filter(granted: Option<Qos>) -> Option<Refusal> {
    let code = match granted {
        Some(Qos::One) => return None,
        Some(Qos::Zero) => 0,
        None => 128,
    };
    let what = What::Filter;
    Some(Refusal { what, code })
}

/// The broker ends each connection soon.
pub(crate) fn soon_ended() -> Refusal {
    let what = What::Connection;
    Refusal { what, code: 0 }
}

/// The spool could not be written, by the number of a journal's fault.
pub(crate) fn spool_failed(code: u8) -> Refusal {
    let what = What::Spool;
    Refusal { what, code }
}

/// Who refuses what, in words.
fn words_of(what: What) -> &'static str {
    match what {
        What::Client => "the broker refuses the client",
        What::Filter => "the broker refuses a filter",
        What::Connection => "the broker ends each connection; another program may have the client",
        What::Lane => "the gateway refuses a lane",
        What::Name => "the gateway refuses a name",
        What::Command => "the gateway refuses a command",
        What::Spool => "the spool cannot be written",
    }
}

/// What was told last.
#[derive(Clone, Copy, Drop)]
pub(crate) struct Told {
    is_up: bool,
    listening: usize,
    is_connected: bool,
    is_storing: bool,
    refusal: Option<Refusal>,
}

/// How many lanes listen.
fn listening(bridge: &Bridge) -> usize {
    let mut count: usize = 0;
    for lane in bridge.lanes.as_slice() {
        if lane.phase == Phase::Listening {
            count = count.saturating_add(1);
        }
    }
    count
}

impl Told {
    /// Nothing was told yet.
    pub(crate) fn nothing() -> Told {
        Told {
            is_up: false,
            listening: 0,
            is_connected: false,
            is_storing: false,
            refusal: None,
        }
    }

    /// Tells of a refusal, unless it was the last that was told.
    fn tell<E: Write>(&mut self, refusal: Option<Refusal>, err: &mut E) {
        let Some(new) = refusal else {
            return;
        };
        if self.refusal == Some(new) {
            return;
        }
        self.refusal = Some(new);
        let (words, code) = (words_of(new.what), new.code);
        let _ = writeln!(err, "sn_bridge: {words}, code {code}");
    }

    /// Tells what has changed since: the broker, how many lanes listen, the lane for commands, the
    /// spool, and what was refused.
    pub(crate) fn look<E: Write>(
        &mut self,
        bridge: &Bridge,
        refusal: Option<Refusal>,
        err: &mut E,
    ) {
        self.tell_broker(bridge.side == Side::Up, err);
        self.tell_lanes(listening(bridge), bridge.lanes.len(), err);
        self.tell_commands(bridge.down.phase == Phase::Listening, err);
        self.tell_spool(bridge.is_storing, err);
        self.tell(refusal, err);
    }

    /// Tells whether the broker is there.
    fn tell_broker<E: Write>(&mut self, is_up: bool, err: &mut E) {
        if is_up != self.is_up {
            self.is_up = is_up;
            let word = if is_up { "there" } else { "away" };
            let _ = writeln!(err, "sn_bridge: the broker is {word}");
        }
    }

    /// Tells how many lanes listen.
    fn tell_lanes<E: Write>(&mut self, lanes: usize, all: usize, err: &mut E) {
        if lanes != self.listening {
            self.listening = lanes;
            let _ = writeln!(err, "sn_bridge: {lanes} of {all} lanes listen");
        }
    }

    /// Tells whether the spool takes readings.
    fn tell_spool<E: Write>(&mut self, is_storing: bool, err: &mut E) {
        if is_storing != self.is_storing {
            self.is_storing = is_storing;
            let word = if is_storing { "takes" } else { "refuses" };
            let _ = writeln!(err, "sn_bridge: the spool {word} readings");
        }
    }

    /// Tells whether the lane for commands is connected.
    fn tell_commands<E: Write>(&mut self, is_connected: bool, err: &mut E) {
        if is_connected != self.is_connected {
            self.is_connected = is_connected;
            let word = if is_connected { "connected" } else { "away" };
            let _ = writeln!(err, "sn_bridge: the lane for commands is {word}");
        }
    }
}
