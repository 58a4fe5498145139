//! A script from a seed.

ghost use Rattle.std.specs.Prelude.{◌<◌, vec_len, IfSome};

use super::copying::append;
use super::draw::Draw;
use super::field::{Field, added};
use super::frames::{Kind, frame_of, octets_of, reply};
use super::listed::Listed;
use super::row::{as_call, calls_of};
use gw_world::{Answer, Call, Event, NodeFault, Out};
use octets::{NoMemory, Octets, Sequence};
use rep_model::Replica;
use sn_frame::{Frame, decode};
use sn_local::{Addr, Send};
use std::alloc::Global;
use std::sync::Arc;

/// How many rounds a script has. Between two of them it is played, so that the next can answer.
const ROUNDS: u8 = 12;

/// How many events a round has at least.
const LEAST: u8 = 10;

/// How many calls come together at most.
const MOST_CALLS: u8 = 8;

/// How many answers clients keep in mind.
const IN_MIND: usize = 16;

/// The port of the first client.
const FIRST_PORT: u16 = 100;

/// What the inventor of a script knows of its field.
struct Invention {
    draw: Draw,
    /// How many gateways there are.
    gateways: u8,
    /// The gateway that each client was at last.
    homes: Vec<u8>,
    /// The moment, in seconds.
    now: u64,
    /// The frames that clients answer with.
    replies: Vec<Event>,
    /// Which deltas there are.
    listed: Listed,
    /// A gateway that is to be opened again after so many events.
    due: Option<(u8, u8)>,
}

impl Drop for Invention {
    fn drop(self) {
        let Invention {
            draw: _,
            gateways: _,
            homes,
            now: _,
            replies,
            listed,
            due: _,
        } = self;
        drop(homes);
        drop(replies);
        drop(listed);
    }
}

/// The script of a seed.
pub(crate) fn invented<R: Replica>(
    alloc: Global,
    field: &Field,
    seed: u64,
) -> Result<Vec<Event>, NoMemory> {
    let mut events = Vec::new(alloc);
    let mut invention = Invention::begun(alloc, field.gateways, seed)?;
    invention.arrivals(alloc, &mut events)?;
    invention.rounds::<R>(alloc, field, &mut events)?;
    Ok(events)
}

/// The gateways that clients are at first.
fn first_homes(alloc: Global, draw: &mut Draw, gateways: u8) -> Result<Vec<u8>, NoMemory> {
    let mut homes = Vec::new(alloc);
    for _ in 0..draw.octet_below(4).saturating_add(2) {
        homes.push(draw.octet_below(gateways).saturating_add(1))?;
    }
    Ok(homes)
}

/// The frame that a client was sent.
fn decoded(alloc: Global, bytes: &[u8]) -> Result<Frame, NoMemory> {
    match decode(alloc, bytes) {
        Ok(frame) => Ok(frame),
        Err(_) => Err(NoMemory),
    }
}

/// The delta that a gateway is to take, if the event is that.
fn taken_by(event: &Event) -> Option<u64> {
    match event {
        Event::Take { delta, .. } => Some(*delta),
        _ => None,
    }
}

/// The delta that a gateway is to take, if the call is that.
fn taken_by_call(call: Option<&Call>) -> Option<u64> {
    match call {
        Some(Call::Take { delta }) => Some(*delta),
        _ => None,
    }
}

/// The octets of what a client answers to a frame, if it answers.
fn reply_octets(alloc: Global, draw: &mut Draw, sent: &Frame) -> Result<Option<Octets>, NoMemory> {
    match reply(alloc, draw, sent)? {
        Some(frame) => Ok(Some(spelled(alloc, frame)?)),
        None => Ok(None),
    }
}

/// The octets of a frame that a client sends.
fn spelled(alloc: Global, frame: Frame) -> Result<Octets, NoMemory> {
    let octets = octets_of(alloc, &frame);
    drop(frame);
    octets
}

impl Invention {
    /// Nothing has happened.
    fn begun(alloc: Global, gateways: u8, seed: u64) -> Result<Invention, NoMemory> {
        let mut draw = Draw::new(seed);
        let homes = first_homes(alloc, &mut draw, gateways)?;
        Ok(Invention {
            draw,
            gateways,
            homes,
            now: 0,
            replies: Vec::new(alloc),
            listed: Listed::empty(alloc),
            due: None,
        })
    }

    /// All rounds, each played after it. The last is the first that cannot be played.
    fn rounds<R: Replica>(
        &mut self,
        alloc: Global,
        field: &Field,
        events: &mut Vec<Event>,
    ) -> Result<(), NoMemory> {
        for _ in 0..ROUNDS {
            let seen = events.len();
            self.round(alloc, events)?;
            if !self.looks_back::<R>(alloc, field, events.as_slice(), seen)? {
                break;
            }
        }
        Ok(())
    }

    /// The events are played, and those from this index on are learned from. False where they
    /// cannot be played.
    fn looks_back<R: Replica>(
        &mut self,
        alloc: Global,
        field: &Field,
        events: &[Event],
        seen: usize,
    ) -> Result<bool, NoMemory> {
        let Some(played) = field.play::<R>(alloc, events)? else {
            return Ok(false);
        };
        let learned = self.learn_all(alloc, events, played.answers.as_slice(), seen);
        drop(played);
        learned?;
        Ok(true)
    }

    /// What the answers to the events from this index on tell the inventor.
    fn learn_all(
        &mut self,
        alloc: Global,
        events: &[Event],
        answers: &[Answer],
        seen: usize,
    ) -> Result<(), NoMemory> {
        for index in seen..events.len() {
            self.learn_at(alloc, events, answers, index)?;
        }
        Ok(())
    }

    /// What the answer to the event of this index tells the inventor.
    fn learn_at(
        &mut self,
        alloc: Global,
        events: &[Event],
        answers: &[Answer],
        index: usize,
    ) -> Result<(), NoMemory> {
        let Some(event) = events.get(index) else {
            return Ok(());
        };
        match answers.get(index) {
            Some(answer) => self.learn(alloc, event, answer),
            None => Ok(()),
        }
    }

    /// A gateway.
    fn gateway(&mut self) -> u8 {
        self.draw.octet_below(self.gateways).saturating_add(1)
    }

    /// How many clients there are.
    fn clients(&self) -> u8 {
        u8::try_from(self.homes.len()).unwrap_or(1)
    }

    /// A client.
    fn client(&mut self) -> u8 {
        let count = self.clients();
        self.draw.octet_below(count)
    }

    /// Where a client is. It may have roamed.
    fn home(&mut self, client: u8, roams: bool) -> u8 {
        let other = self.gateway();
        match self.homes.get_mut(usize::from(client)) {
            Some(home) => {
                if roams {
                    *home = other;
                }
                *home
            }
            None => other,
        }
    }

    /// A frame that comes from a client; at times from the address of another.
    fn frame(
        &mut self,
        alloc: Global,
        client: u8,
        gateway: u8,
        frame: &Frame,
    ) -> Result<Event, NoMemory> {
        let sender = if self.draw.is_once_in(40) {
            self.client()
        } else {
            client
        };
        Ok(Event::Frame {
            gateway,
            from: Addr {
                host: 0,
                port: FIRST_PORT.saturating_add(u16::from(sender)),
            },
            bytes: octets_of(alloc, frame)?,
            now: self.now,
        })
    }

    /// Each client connects.
    fn arrivals(&mut self, alloc: Global, events: &mut Vec<Event>) -> Result<(), NoMemory> {
        for client in 0..self.clients() {
            self.arrives(alloc, events, client)?;
        }
        Ok(())
    }

    /// A client connects.
    fn arrives(
        &mut self,
        alloc: Global,
        events: &mut Vec<Event>,
        client: u8,
    ) -> Result<(), NoMemory> {
        let gateway = self.home(client, false);
        let event = self.speaks(alloc, client, gateway, Kind::Connect)?;
        append(events, event)
    }

    /// A client sends a frame of this kind to a gateway.
    fn speaks(
        &mut self,
        alloc: Global,
        client: u8,
        gateway: u8,
        kind: Kind,
    ) -> Result<Event, NoMemory> {
        let frame = frame_of(alloc, &mut self.draw, client, kind)?;
        let event = self.frame(alloc, client, gateway, &frame);
        drop(frame);
        event
    }

    /// A client sends something of itself.
    fn sends(&mut self, alloc: Global) -> Result<Event, NoMemory> {
        let client = self.client();
        let roams = self.draw.is_once_in(3);
        let (kind, roams) = match self.draw.octet_below(12) {
            0 => (Kind::Connect, roams),
            1 => (Kind::Ping, roams),
            _ => (Kind::Any, false),
        };
        let gateway = self.home(client, roams);
        self.speaks(alloc, client, gateway, kind)
    }

    /// A round of events.
    fn round(&mut self, alloc: Global, events: &mut Vec<Event>) -> Result<(), NoMemory> {
        for _ in 0..self.draw.octet_below(LEAST).saturating_add(LEAST) {
            self.goes_on(alloc, events)?;
        }
        Ok(())
    }

    /// One more event.
    fn goes_on(&mut self, alloc: Global, events: &mut Vec<Event>) -> Result<(), NoMemory> {
        let event = self.next(alloc)?;
        append(events, event)
    }

    /// Some time goes by.
    fn wait(&mut self) {
        let seconds = if self.draw.is_once_in(30) { 90 } else { 4 };
        self.now = self.now.saturating_add(self.draw.below(seconds));
    }

    /// One event; where a gateway is due, mostly one at it.
    fn next(&mut self, alloc: Global) -> Result<Event, NoMemory> {
        let Some((gateway, left)) = self.due else {
            return self.event(alloc);
        };
        if left == 0 {
            self.due = None;
            return Ok(self.opens_again(gateway));
        }
        self.due = Some((gateway, left.saturating_sub(1)));
        if self.draw.is_once_in(3) {
            return self.event(alloc);
        }
        if self.draw.is_once_in(3) {
            return self.row(alloc, gateway);
        }
        self.wait();
        self.writes(alloc, gateway)
    }

    /// Calls that come to a gateway together.
    fn row(&mut self, alloc: Global, gateway: u8) -> Result<Event, NoMemory> {
        let mut calls = Vec::new(alloc);
        for _ in 0..self.draw.octet_below(MOST_CALLS).saturating_add(1) {
            self.comes(alloc, gateway, &mut calls)?;
        }
        Ok(Event::Together {
            gateway,
            calls: Sequence::new(calls),
        })
    }

    /// One more call comes to a gateway with others.
    fn comes(&mut self, alloc: Global, gateway: u8, calls: &mut Vec<Call>) -> Result<(), NoMemory> {
        if self.draw.is_once_in(4) {
            self.wait();
        }
        let event = self.called(alloc, gateway)?;
        if let Some(call) = as_call(event) {
            calls.push(call)?;
        }
        Ok(())
    }

    /// An event at a gateway that may come together with others.
    fn called(&mut self, alloc: Global, gateway: u8) -> Result<Event, NoMemory> {
        match self.draw.octet_below(8) {
            0 | 1 => Ok(self.takes(gateway)),
            2 => Ok(self.ticks(gateway)),
            3 | 4 => self.answers_at(alloc, gateway),
            _ => self.visits(alloc, gateway),
        }
    }

    /// A client sends what it has to answer to a gateway, or else something of itself.
    fn answers_at(&mut self, alloc: Global, gateway: u8) -> Result<Event, NoMemory> {
        match self.reply_at(gateway) {
            Some(index) => Ok(self.replies.remove(index)),
            None => self.visits(alloc, gateway),
        }
    }

    /// The index of a frame that a client answers to a gateway.
    fn reply_at(&self, gateway: u8) -> Option<usize>
        ensures { IfSome result (λ index. index < vec_len self.entry.now.replies) }
    {
        for index in 0..self.replies.len() {
            if self.replies[index].gateway() == gateway {
                return Some(index);
            }
        }
        None
    }

    /// A client sends something of itself to a gateway, at which it mostly is.
    fn visits(&mut self, alloc: Global, gateway: u8) -> Result<Event, NoMemory> {
        let drawn = self.client();
        let client = self.guest(gateway, drawn);
        if self.draw.is_once_in(5) {
            self.moves(client, gateway);
            return self.speaks(alloc, client, gateway, Kind::Connect);
        }
        self.speaks(alloc, client, gateway, Kind::Any)
    }

    /// A client that is at a gateway, from the one of this number on; this one where none is.
    fn guest(&self, gateway: u8, client: u8) -> u8 {
        for next in client..self.clients() {
            if self.homes.get(usize::from(next)).copied() == Some(gateway) {
                return next;
            }
        }
        client
    }

    /// A client is at a gateway now.
    fn moves(&mut self, client: u8, gateway: u8) {
        if let Some(home) = self.homes.get_mut(usize::from(client)) {
            *home = gateway;
        }
    }

    /// An event at a gateway that it may write for.
    fn writes(&mut self, alloc: Global, gateway: u8) -> Result<Event, NoMemory> {
        match self.draw.octet_below(8) {
            0..=2 => Ok(self.takes(gateway)),
            3 => Ok(self.ticks(gateway)),
            4 => Ok(Event::Compact { gateway }),
            _ => {
                let client = self.client();
                let connects = self.draw.is_once_in(4);
                let kind = if connects { Kind::Connect } else { Kind::Any };
                self.speaks(alloc, client, gateway, kind)
            }
        }
    }

    /// A gateway is opened again after a write that failed.
    fn opens_again(&mut self, gateway: u8) -> Event {
        let keep = match self.draw.octet_below(4) {
            0 => 0,
            1 => self.draw.below(120),
            _ => u64::MAX,
        };
        Event::Restart { gateway, keep }
    }

    /// One event.
    fn event(&mut self, alloc: Global) -> Result<Event, NoMemory> {
        self.wait();
        let gateway = self.gateway();
        match self.draw.octet_below(38) {
            0..=8 => self.answers(alloc),
            9..=16 => self.sends(alloc),
            17..=25 => Ok(self.takes(gateway)),
            32..=37 => self.row(alloc, gateway),
            seldom => Ok(self.seldom(gateway, seldom)),
        }
    }

    /// A client sends what it has to answer, or else something of itself.
    fn answers(&mut self, alloc: Global) -> Result<Event, NoMemory> {
        match self.replies.pop() {
            Some(event) => Ok(event),
            None => self.sends(alloc),
        }
    }

    /// An event that is seldom, by the number that was drawn.
    fn seldom(&mut self, gateway: u8, drawn: u8) -> Event {
        match drawn {
            26 => self.asks(gateway),
            27 => Event::Compact { gateway },
            28 => self.restarts(gateway),
            29 => self.failed_write(gateway),
            _ => self.ticks(gateway),
        }
    }

    /// Time goes by at a gateway.
    fn ticks(&mut self, gateway: u8) -> Event {
        Event::Tick {
            gateway,
            now: self.now,
        }
    }

    /// A gateway takes a delta, if there is one.
    fn takes(&mut self, gateway: u8) -> Event {
        match self.listed.choose(&mut self.draw, gateway) {
            Some(delta) => Event::Take { gateway, delta },
            None => self.ticks(gateway),
        }
    }

    /// A gateway asks another, or itself.
    fn asks(&mut self, gateway: u8) -> Event {
        Event::Answer {
            gateway,
            peer: self.gateway(),
        }
    }

    /// A gateway is opened again.
    fn restarts(&mut self, gateway: u8) -> Event {
        let keep = if self.draw.is_once_in(2) {
            u64::MAX
        } else {
            self.draw.below(120)
        };
        Event::Restart { gateway, keep }
    }

    /// The next write of a gateway is to fail.
    fn failed_write(&mut self, gateway: u8) -> Event {
        let left = self.draw.octet_below(6).saturating_add(2);
        if self.due.is_none() {
            self.due = Some((gateway, left));
        }
        let sync = self.draw.is_once_in(3);
        let bytes = if sync { 0 } else { self.draw.below(80) };
        Event::WriteFails {
            gateway,
            bytes,
            sync,
        }
    }

    /// A gateway is halted: it is to be opened again soon, and the delta that it was to take it has
    /// not.
    fn note_halt(&mut self, gateway: u8, taken: Option<u64>, fault: &NodeFault) {
        match fault {
            NodeFault::Halted | NodeFault::Disk { .. } => {}
            _ => return,
        }
        if self.due.is_none() {
            self.due = Some((gateway, 2));
        }
        if let Some(delta) = taken {
            self.listed.forget(gateway, delta);
        }
    }

    /// What an answer to a call tells the inventor. The delta is the one that was to be taken.
    fn learn_call(
        &mut self,
        alloc: Global,
        gateway: u8,
        taken: Option<u64>,
        answer: &Result<Arc<Out>, NodeFault>,
    ) -> Result<(), NoMemory> {
        match answer {
            Ok(out) => self.hear(alloc, gateway, out),
            Err(fault) => {
                self.note_halt(gateway, taken, fault);
                Ok(())
            }
        }
    }

    /// What the answers to calls that came together tell the inventor.
    fn learn_row(
        &mut self,
        alloc: Global,
        event: &Event,
        answers: &[Result<Arc<Out>, NodeFault>],
    ) -> Result<(), NoMemory> {
        let calls = calls_of(event);
        for (index, answer) in answers.iter().enumerate() {
            let taken = taken_by_call(calls.get(index));
            self.learn_call(alloc, event.gateway(), taken, answer)?;
        }
        Ok(())
    }

    /// What an answer tells the inventor: which deltas there are, and what clients were sent.
    fn learn(&mut self, alloc: Global, event: &Event, answer: &Answer) -> Result<(), NoMemory> {
        let gateway = event.gateway();
        self.list(event.peer().unwrap_or(gateway), added(answer))?;
        match answer {
            Answer::Node(answer) => self.learn_call(alloc, gateway, taken_by(event), answer),
            Answer::Row(answers) => self.learn_row(alloc, event, answers.as_slice()),
            Answer::Views(_, _) | Answer::Records(_) | Answer::Nothing => Ok(()),
        }
    }

    /// So many deltas more, which this gateway has.
    fn list(&mut self, holder: u8, count: u64) -> Result<(), NoMemory> {
        for _ in 0..count {
            self.listed.add(holder)?;
        }
        Ok(())
    }

    /// Clients make up their minds what to answer to what they were sent.
    fn hear(&mut self, alloc: Global, gateway: u8, out: &Out) -> Result<(), NoMemory> {
        if self.replies.len() > IN_MIND {
            self.replies.clear();
        }
        for send in out.sends.as_slice() {
            self.hear_one(alloc, gateway, send)?;
        }
        Ok(())
    }

    /// A client makes up its mind what to answer to a datagram.
    fn hear_one(&mut self, alloc: Global, gateway: u8, send: &Send) -> Result<(), NoMemory> {
        match self.reply_to(alloc, send.bytes.as_slice())? {
            Some(bytes) => self.keep_in_mind(gateway, send.to, bytes),
            None => Ok(()),
        }
    }

    /// A client has this to answer.
    fn keep_in_mind(&mut self, gateway: u8, from: Addr, bytes: Octets) -> Result<(), NoMemory> {
        append(
            &mut self.replies,
            Event::Frame {
                gateway,
                from,
                bytes,
                now: self.now,
            },
        )
    }

    /// What a client answers to this, if it answers.
    fn reply_to(&mut self, alloc: Global, bytes: &[u8]) -> Result<Option<Octets>, NoMemory> {
        let sent = decoded(alloc, bytes)?;
        let reply = reply_octets(alloc, &mut self.draw, &sent);
        drop(sent);
        reply
    }
}
