//! Names of clients, and deltas.

use crate::refusals::calls::{Calls, Made, Shown, beside, front, given, is_word, written};
use crate::refusals::said::{Said, Stop};
use rep_ops::{ClientId, Delta, Op, OpsFault};

/// What gateway 1 makes of the first CONNECT of client s1, with a keep alive of 60 seconds.
pub(crate) const FIRST: [&str; 2] = [
    "0100000001",
    "0102733100000000000000010100000001003c00010000000000000000",
];

/// A name that is copied.
#[derive(Drop)]
pub(crate) struct Clients {
    client: ClientId,
}

impl Made for Clients {
    fn make(said: &mut Said, _call: &str, _is_second: bool) -> Option<Clients> {
        let client = client(said)?;
        Some(Clients { client })
    }
}

impl Calls for Clients {
    fn call_once(&mut self, said: &mut Said, call: &str) {
        let made = if is_word(call, "ClientId::new") {
            ClientId::new(said.alloc, b"s1")
        } else {
            self.client.copy(said.alloc)
        };
        given(said, made, OpsFault::Memory);
    }
}

/// What is copied, read and written.
pub(crate) struct Deltas {
    delta: Delta,
    octets: Vec<u8>,
    out: Vec<u8>,
}

impl Drop for Deltas {
    fn drop(self) {
        let Deltas { delta, octets, out } = self;
        drop(delta);
        drop(octets);
        drop(out);
    }
}

impl Made for Deltas {
    fn make(said: &mut Said, _call: &str, _is_second: bool) -> Option<Deltas> {
        Some(Deltas {
            delta: delta(said, &FIRST),
            octets: octets_of(said, &FIRST),
            out: front(said),
        })
    }
}

impl Calls for Deltas {
    fn call_once(&mut self, said: &mut Said, call: &str) {
        if is_word(call, "Delta::encode") {
            self.write(said);
        } else {
            let made = self.made(said, call);
            given(said, made, OpsFault::Memory);
        }
    }
}

impl Deltas {
    /// Makes, reads or copies a delta.
    fn made(&self, said: &mut Said, call: &str) -> Result<Delta, OpsFault> {
        match call {
            "Delta::from_ops" => {
                let ops = acks(said);
                Delta::from_ops(said.alloc, ops)
            }
            "Delta::decode" => Delta::decode(said.alloc, self.octets.as_slice()),
            "Delta::decode_one" => Delta::decode_one(said.alloc, self.octets.as_slice()),
            _ => self.delta.copy(said.alloc),
        }
    }

    /// Writes the delta.
    fn write(&mut self, said: &mut Said) {
        let done = self.delta.encode(said.alloc, &mut self.out);
        if written(said, done, OpsFault::Memory, self.out.as_slice()) {
            said.octets(self.out.as_slice());
        }
    }
}

impl Shown for ClientId {
    fn show(&self, said: &mut Said) {
        said.octets(self.bytes());
    }
}

impl Shown for Delta {
    fn show(&self, said: &mut Said) {
        let mut octets = Vec::new(said.alloc);
        let is_short = self.append_to(&mut octets).is_err();
        said.stop_if_short(is_short);
        said.octets(octets.as_slice());
        drop(octets);
    }
}

/// Prints how many deltas there are, and each of them.
impl Shown for Vec<Delta> {
    fn show(&self, said: &mut Said) {
        said.number("deltas", self.len());
        for delta in self.as_slice() {
            delta.show(said);
        }
    }
}

/// The octets of deltas, one after the other.
pub(crate) fn spelled(said: &mut Said, deltas: Vec<Delta>) -> Vec<u8> {
    let mut octets = Vec::new(said.alloc);
    for delta in deltas.as_slice() {
        let is_short = delta.append_to(&mut octets).is_err();
        said.stop_if_short(is_short);
    }
    drop(deltas);
    octets
}

/// The client.
pub(crate) fn client(said: &mut Said) -> Option<ClientId> {
    let made = ClientId::new(said.alloc, b"s1");
    beside(said, made)
}

/// Acknowledgements that join.
fn acks(said: &mut Said) -> Vec<Op> {
    let mut ops = Vec::new(said.alloc);
    add_ack(said, &mut ops, 3, 3);
    add_ack(said, &mut ops, 1, 2);
    ops
}

/// An acknowledgement of messages of gateway 2 comes after the others.
fn add_ack(said: &mut Said, ops: &mut Vec<Op>, first: u64, last: u64) {
    if let Some(client) = client(said) {
        push(said, ops, ack(client, first, last));
    }
}

/// An acknowledgement of messages of gateway 2.
fn ack(client: ClientId, first: u64, last: u64) -> Op {
    Op::Ack {
        client,
        origin: 2,
        first,
        last,
    }
}

/// An operation comes after the others.
fn push(said: &mut Said, ops: &mut Vec<Op>, op: Op) {
    let pushed = ops.push(op);
    let is_short = pushed.is_err();
    drop(pushed);
    said.stop_if_short(is_short);
}

/// The octets that hexadecimal digits spell.
pub(crate) fn octets_of(said: &mut Said, parts: &[&str]) -> Vec<u8> {
    let mut octets = Vec::new(said.alloc);
    for part in parts {
        add_octets(said, &mut octets, part);
    }
    octets
}

/// The octets that hexadecimal digits spell come after the others.
fn add_octets(said: &mut Said, octets: &mut Vec<u8>, digits: &str) {
    match hex::decode(said.alloc, digits.as_bytes()) {
        Ok(found) => {
            let is_short = octets.extend_from_slice(found.as_slice()).is_err();
            drop(found);
            said.stop_if_short(is_short);
        }
        Err(_fault) => said.stop(Stop::Memory),
    }
}

/// The delta of operations, made beside the call.
pub(crate) fn delta_of(said: &mut Said, ops: Vec<Op>) -> Option<Delta> {
    let made = Delta::from_ops(said.alloc, ops);
    beside(said, made)
}

/// The delta that hexadecimal digits spell.
pub(crate) fn delta(said: &mut Said, parts: &[&str]) -> Delta {
    let octets = octets_of(said, parts);
    match Delta::decode(said.alloc, octets.as_slice()) {
        Ok(delta) => delta,
        Err(_) => {
            said.stop(Stop::Memory);
            Delta::empty(said.alloc)
        }
    }
}
