//! Packets of MQTT, and a connection over which they come.

use crate::refusals::calls::{Calls, Made, Shown, beside, front, given, octets_or_none, written};
use crate::refusals::deltas::octets_of;
use crate::refusals::said::{Said, Stop};
use mq_packet::{Delivery, EncodeFault, Packet, PacketFault, Qos, decode, encode};
use mq_stream::{Fed, PacketIn};
use octets::Octets;

/// A PUBLISH at quality of service 0, and a SUBSCRIBE (MQTT 3.1.1 sections 3.3 and 3.8).
const PUBLISH: [&str; 2] = ["3005000174", "6162"];

const SUBSCRIBE: [&str; 2] = ["82080007", "0003742f2301"];

/// A packet as octets and as a value; octets after which one is written; and a connection.
pub(crate) struct Packets {
    octets: Vec<u8>,
    packet: Packet,
    out: Vec<u8>,
    stream: PacketIn,
}

impl Drop for Packets {
    fn drop(self) {
        let Packets {
            octets,
            packet,
            out,
            stream,
        } = self;
        drop(octets);
        drop(packet);
        drop(out);
        drop(stream);
    }
}

impl Made for Packets {
    fn make(said: &mut Said, _call: &str, is_second: bool) -> Option<Packets> {
        let packet = packet(said, is_second)?;
        Some(Packets {
            octets: octets_of(said, if is_second { &SUBSCRIBE } else { &PUBLISH }),
            packet,
            out: front(said),
            stream: PacketIn::new(said.alloc),
        })
    }
}

impl Calls for Packets {
    fn call_once(&mut self, said: &mut Said, call: &str) {
        match call {
            "decode" => {
                let read = decode(said.alloc, self.octets.as_slice());
                given(said, read, PacketFault::Memory);
            }
            "encode" => {
                let done = encode(said.alloc, &self.packet, &mut self.out);
                if written(said, done, EncodeFault::Memory, self.out.as_slice()) {
                    said.octets(self.out.as_slice());
                }
            }
            _ => self.feed(said),
        }
    }
}

impl Packets {
    /// The octets come in over the connection.
    fn feed(&mut self, said: &mut Said) {
        let fed = self.stream.feed(said.alloc, self.octets.as_slice());
        said.keep(fed.is_ok() || self.stream.waiting.is_empty());
        show_or_refuse(said, fed);
    }
}

/// Octets of a text.
fn text(said: &mut Said, octets: &[u8]) -> Option<Octets> {
    let made = Vec::from_slice(said.alloc, octets);
    let octets = octets_or_none(said, made);
    beside(said, Octets::new(octets))
}

/// The PUBLISH, or the SUBSCRIBE.
fn packet(said: &mut Said, is_second: bool) -> Option<Packet> {
    if is_second {
        let filter = text(said, b"t/#")?;
        Some(Packet::Subscribe {
            id: 7,
            filter,
            qos: Qos::One,
        })
    } else {
        publish(said)
    }
}

/// The PUBLISH.
fn publish(said: &mut Said) -> Option<Packet> {
    let topic = text(said, b"t")?;
    match text(said, b"ab") {
        Some(body) => Some(Packet::Publish {
            delivery: Delivery::Once,
            retain: false,
            topic,
            body,
        }),
        None => {
            drop(topic);
            None
        }
    }
}

/// Prints what a call gives that has no fault but want of memory.
pub(crate) fn show_or_refuse<T: Shown, F: Drop>(said: &mut Said, answer: Result<T, F>) {
    match &answer {
        Ok(given) => {
            given.show(said);
            said.answer();
        }
        Err(_) => said.refuse(true),
    }
    drop(answer);
}

/// Prints the message or the filter.
impl Shown for Packet {
    fn show(&self, said: &mut Said) {
        match self {
            Packet::Publish { body, .. } => said.octets(body.as_slice()),
            Packet::Subscribe { filter, .. } => said.octets(filter.as_slice()),
            _ => said.stop(Stop::Other),
        }
    }
}

/// Prints how many packets there are.
impl Shown for Fed {
    fn show(&self, said: &mut Said) {
        said.keep(self.fault.is_none());
        said.number("packets", self.packets.len());
    }
}
