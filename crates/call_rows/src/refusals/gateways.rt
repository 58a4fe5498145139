//! One gateway.

use crate::refusals::calls::{Calls, Made, Shown, beside, given, is_one_of, is_same, is_word};
use crate::refusals::deltas::{client, delta, octets_of, spelled};
use crate::refusals::locals::{HERE, config};
use crate::refusals::said::{Said, Stop};
use gw_node::{Answer, Node, NodeFault, Out, Step};
use jr_journal::MemoryDisk;
use octets::{NoMemory, Octets};
use rep_digest::Digest;
use rep_model::Replica;
use sn_local::Config;
use std::alloc::Global;
use std::marker::PhantomData;
use std::mem;

/// The first CONNECT of client s1, and its SUBSCRIBE to `t/#`.
const CONNECT: &str = "08040401003c7331";

pub(crate) const SUBSCRIBE: &str = "0812200002742f23";

/// What they are answered if the disk fails.
const NOT_CONNECTED: &[u8] = b"\x03\x05\x01";

pub(crate) const NOT_SUBSCRIBED: &[u8] = b"\x08\x13\x20\x00\x00\x00\x02\x01";

/// What gateway 2 makes of the first CONNECT of client s3.
const OTHER: [&str; 2] = [
    "0100000001",
    "0102733300000000000000010200000001003c00010000000000000000",
];

/// What gateway 1 retained of a topic.
const RETAINED: [&str; 2] = ["0200000001", "040003742f6100000000000000010101000178"];

/// A gateway on a disk in memory.
pub(crate) type Gateway<R> = Node<R, MemoryDisk>;

/// What the opening of a gateway gives.
type Opened<R> = Result<Gateway<R>, (MemoryDisk, NodeFault)>;

/// A disk on which a gateway is opened.
#[derive(Drop)]
pub(crate) struct Openings<R: Replica> {
    disk: MemoryDisk,
    replica: PhantomData<R>,
}

impl<R: Replica> Made for Openings<R> {
    fn make(said: &mut Said, _call: &str, is_second: bool) -> Option<Openings<R>> {
        let disk = if is_second {
            gateway::<R>(said, true)?.into_disk()
        } else {
            MemoryDisk::new(said.alloc)
        };
        Some(Openings {
            disk,
            replica: PhantomData,
        })
    }
}

impl<R: Replica> Calls for Openings<R> {
    fn call_once(&mut self, said: &mut Said, _call: &str) {
        if let Some(config) = config(said) {
            let disk = replaced(&mut self.disk, MemoryDisk::new(said.alloc));
            let opened = open::<R>(said.alloc, config, disk);
            self.look(said, opened);
        }
    }
}

impl<R: Replica> Openings<R> {
    /// Looks at an opening. If it was refused, the disk came back.
    fn look(&mut self, said: &mut Said, opened: Opened<R>) {
        match opened {
            Ok(node) => show_opened(said, node),
            Err((disk, fault)) => {
                look_closed(said, disk.starved(), &fault);
                drop(fault);
                drop(replaced(&mut self.disk, disk));
            }
        }
    }
}

/// The disk that was in this place, where there is another one now.
fn replaced(place: &mut MemoryDisk, disk: MemoryDisk) -> MemoryDisk {
    mem::replace(place, disk)
}

/// Opens a gateway on a disk.
fn open<R: Replica>(alloc: Global, config: Config, disk: MemoryDisk) -> Opened<R> {
    Node::open(alloc, config, disk)
}

/// Prints how many records a gateway has read, and what it keeps.
fn show_opened<R: Replica>(said: &mut Said, node: Gateway<R>) {
    said.number("records", node.records() as usize);
    show_kept(said, &node);
    drop(node);
    said.answer();
}

/// Looks at a refused opening.
fn look_closed(said: &mut Said, is_starved: bool, fault: &NodeFault) {
    match fault {
        NodeFault::Disk { out } => {
            said.keep(is_starved && is_excuse(out, b""));
            said.starve();
        }
        fault => said.refuse(matches!(fault, NodeFault::Memory)),
    }
}

/// A gateway, a call of it, and what it keeps.
pub(crate) struct Gateways<R: Replica> {
    node: Gateway<R>,
    step: Step,
    stood: Vec<u8>,
    /// Whether the client is connected.
    is_connected: bool,
}

impl<R: Replica> Drop for Gateways<R> {
    fn drop(self) {
        let Gateways {
            node,
            step,
            stood,
            is_connected: _,
        } = self;
        drop(node);
        drop(step);
        drop(stood);
    }
}

impl<R: Replica> Made for Gateways<R> {
    fn make(said: &mut Said, call: &str, is_second: bool) -> Option<Gateways<R>> {
        let is_connected = is_second || !is_one_of(call, "Node::frame Node::retained");
        match gateway(said, is_connected) {
            Some(node) => Some(ready(said, node, call, is_connected)),
            None => None,
        }
    }
}

/// A gateway of which this call is made.
fn ready<R: Replica>(
    said: &mut Said,
    mut node: Gateway<R>,
    call: &str,
    is_connected: bool,
) -> Gateways<R> {
    if is_word(call, "Node::retained") {
        retain(said, &mut node);
    }
    Gateways {
        stood: kept(said, &node),
        node,
        step: step(said, call, is_connected),
        is_connected,
    }
}

/// A gateway takes what is retained of a topic.
fn retain<R: Replica>(said: &mut Said, node: &mut Gateway<R>) {
    let retained = step_of(said, &RETAINED);
    call_beside(said, node, retained);
}

impl<R: Replica> Calls for Gateways<R> {
    fn call_once(&mut self, said: &mut Said, call: &str) {
        match call {
            "Node::held" => {
                let held = self.node.held(said.alloc);
                given(said, held, NoMemory);
            }
            "Node::clients" => {
                let clients = self.node.clients(said.alloc);
                given(said, clients, NoMemory);
            }
            "Node::retained" => {
                let retained = self.node.retained(said.alloc);
                given(said, retained, NoMemory);
            }
            "Node::glance" => {
                let found = self.node.glance(said.alloc, b"", 9);
                given(said, found, NoMemory);
            }
            call => self.answer_once(said, call),
        }
    }
}

impl<R: Replica> Gateways<R> {
    /// Makes a call, and looks at the answer.
    fn answer_once(&mut self, said: &mut Said, call: &str) {
        let answer = self.answered(said, call);
        match &answer {
            Ok(out) => self.show(said, out),
            Err(fault) => self.look(said, fault),
        }
        drop(answer);
    }

    /// What the gateway answers to the call.
    fn answered(&mut self, said: &mut Said, call: &str) -> Answer {
        if is_word(call, "Node::step") {
            called_thrice(said, &mut self.node, &self.step)
        } else {
            called(said.alloc, &mut self.node, &self.step)
        }
    }

    /// Prints an answer, and what the gateway keeps then.
    fn show(&self, said: &mut Said, out: &Out) {
        show_out(said, out);
        show_kept(said, &self.node);
        said.answer();
    }

    /// Looks at a refusal: all is as it was, but that the gateway halts if its disk fails.
    fn look(&mut self, said: &mut Said, fault: &NodeFault) {
        match fault {
            NodeFault::Disk { out } => self.look_halted(said, out),
            fault => self.look_going(said, fault),
        }
        let stands = kept(said, &self.node);
        said.keep(is_same(stands.as_slice(), self.stood.as_slice()));
        drop(stands);
        self.revive(said);
    }

    /// Looks at a gateway that goes on, as its disk did not fail.
    fn look_going(&self, said: &mut Said, fault: &NodeFault) {
        said.keep(!self.node.is_halted());
        said.refuse(matches!(fault, NodeFault::Memory));
    }

    /// Looks at a gateway whose disk failed, and at what it answered.
    fn look_halted(&self, said: &mut Said, out: &Out) {
        let excuse = match &self.step {
            Step::Frame { .. } if self.is_connected => NOT_SUBSCRIBED,
            Step::Frame { .. } => NOT_CONNECTED,
            _ => b"",
        };
        said.keep(self.node.starved() && self.node.is_halted());
        said.keep(is_excuse(out, excuse));
        said.starve();
    }

    /// Puts a gateway as it was in the place of a halted one.
    fn revive(&mut self, said: &mut Said) {
        if self.node.is_halted() {
            if let Some(node) = gateway(said, self.is_connected) {
                drop(mem::replace(&mut self.node, node));
            }
        }
    }
}

/// A call as a value.
fn step(said: &mut Said, call: &str, is_connected: bool) -> Step {
    match call {
        "Node::frame" if !is_connected => frame(said, CONNECT),
        "Node::frame" | "Node::step" => frame(said, SUBSCRIBE),
        "Node::take" => step_of(said, &OTHER),
        "Node::tick" => Step::Tick { now: 1_000 },
        "Node::compact" => Step::Compact,
        "Node::reopen" => Step::Reopen,
        call => asking(said, call),
    }
}

/// A call that asks, as a value.
fn asking(said: &mut Said, call: &str) -> Step {
    match call {
        "Node::view" => match client(said) {
            Some(client) => Step::View { client },
            None => Step::Digest,
        },
        "Node::answer" => match empty_digest(said) {
            Some(digest) => Step::Answer { digest },
            None => Step::Digest,
        },
        _ => Step::Digest,
    }
}

/// The digest of a replica that has taken nothing.
fn empty_digest(said: &mut Said) -> Option<Digest> {
    let read = Digest::decode(said.alloc, b"\x01\x00\x00\x00\x00");
    beside(said, read)
}

/// A datagram from the client's address.
pub(crate) fn frame(said: &mut Said, digits: &str) -> Step {
    let octets = octets_of(said, &[digits]);
    match Octets::new(octets) {
        Ok(bytes) => Step::Frame {
            from: HERE,
            bytes,
            now: 1,
        },
        Err(_) => {
            said.stop(Stop::Memory);
            Step::Digest
        }
    }
}

/// A delta that is taken.
fn step_of(said: &mut Said, parts: &[&str]) -> Step {
    Step::Take {
        delta: delta(said, parts),
    }
}

/// The call of the method that a call as a value stands for.
fn called<R: Replica>(alloc: Global, node: &mut Gateway<R>, step: &Step) -> Answer {
    match step {
        Step::Frame { from, bytes, now } => node.frame(alloc, *from, bytes.as_slice(), *now),
        Step::Tick { now } => node.tick(alloc, *now),
        Step::Compact => node.compact(alloc),
        Step::Reopen => node.reopen(alloc),
        step => told(alloc, node, step),
    }
}

/// The same of the calls that bring or ask for what gateways tell one another.
fn told<R: Replica>(alloc: Global, node: &mut Gateway<R>, step: &Step) -> Answer {
    match step {
        Step::Take { delta } => node.take(alloc, delta),
        Step::View { client } => node.view(alloc, client),
        Step::Answer { digest } => node.answer(alloc, digest),
        _ => node.digest(alloc),
    }
}

/// A call as a value, which answers three times.
fn called_thrice<R: Replica>(said: &mut Said, node: &mut Gateway<R>, step: &Step) -> Answer {
    let (first, second, third) = answers(said.alloc, node, step);
    said.keep(are_alike(&first, &second, &third));
    drop(second);
    drop(third);
    first
}

/// What is answered to a call as a value.
fn answers<R: Replica>(
    alloc: Global,
    node: &mut Gateway<R>,
    step: &Step,
) -> (Answer, Answer, Answer) {
    node.step(alloc, step)
}

/// Whether all of these are refusals, or none of them is.
fn are_alike(first: &Answer, second: &Answer, third: &Answer) -> bool {
    let is_ok = first.is_ok();
    second.is_ok() == is_ok && third.is_ok() == is_ok
}

/// Makes a call beside the row's.
fn call_beside<R: Replica>(said: &mut Said, node: &mut Gateway<R>, step: Step) {
    let answer = called(said.alloc, node, &step);
    drop(step);
    said.stop_if_short(answer.is_err());
    drop(answer);
}

/// A gateway without clients, or one at which the client is connected.
pub(crate) fn gateway<R: Replica>(said: &mut Said, is_connected: bool) -> Option<Gateway<R>> {
    let mut node = new(said)?;
    if is_connected {
        let connect = frame(said, CONNECT);
        call_beside(said, &mut node, connect);
    }
    Some(node)
}

/// A gateway without clients.
fn new<R: Replica>(said: &mut Said) -> Option<Gateway<R>> {
    let config = config(said)?;
    let opened = open::<R>(said.alloc, config, MemoryDisk::new(said.alloc));
    beside(said, opened)
}

/// The octets of what a gateway must keep.
pub(crate) fn kept<R: Replica>(said: &mut Said, node: &Gateway<R>) -> Vec<u8> {
    match node.held(said.alloc) {
        Ok(deltas) => spelled(said, deltas),
        Err(_fault) => {
            said.stop(Stop::Memory);
            Vec::new(said.alloc)
        }
    }
}

/// Prints the octets of what a gateway must keep.
pub(crate) fn show_kept<R: Replica>(said: &mut Said, node: &Gateway<R>) {
    let octets = kept(said, node);
    said.octets(octets.as_slice());
    drop(octets);
}

/// Whether this is sent instead of the answer, and nothing else is said.
pub(crate) fn is_excuse(out: &Out, excuse: &[u8]) -> bool {
    if out.made.is_some() {
        return false;
    }
    match out.sends.as_slice() {
        [] => excuse.is_empty(),
        [send] => is_same(send.bytes.as_slice(), excuse),
        _ => false,
    }
}

/// Prints what is sent and what was made, answered or asked for.
pub(crate) fn show_out(said: &mut Said, out: &Out) {
    for send in out.sends.as_slice() {
        said.octets(send.bytes.as_slice());
    }
    if let Some(delta) = &out.made {
        delta.show(said);
    }
    for delta in out.answer.as_slice() {
        delta.show(said);
    }
    show_asked(said, out);
}

/// Prints what was asked for.
fn show_asked(said: &mut Said, out: &Out) {
    if let Some(digest) = &out.digest {
        digest.show(said);
    }
    if let Some(view) = &out.view {
        said.number("pending", view.pending.as_slice().len());
    }
}
