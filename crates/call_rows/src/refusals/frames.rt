//! Frames.

use crate::refusals::calls::{
    Calls, Made, Shown, beside, front, given, is_word, octets_or_none, written,
};
use crate::refusals::deltas::octets_of;
use crate::refusals::said::{Said, Stop};
use octets::Octets;
use sn_frame::{EncodeFault, Flags, Frame, FrameFault, decode, encode};

/// A PINGREQ with one octet of Length, and with three (MQTT-SN 1.2 section 5.2.1).
const SHORT: [&str; 2] = ["0a16", "6162636465666768"];

const LONG: [&str; 2] = ["01000c16", "6162636465666768"];

/// A datagram that is read; and a PUBLISH with so many octets of message, of which the first one
/// needs three octets of Length and the second one does not. It is written after two octets.
pub(crate) struct Frames {
    datagram: Vec<u8>,
    frame: Frame,
    out: Vec<u8>,
}

impl Drop for Frames {
    fn drop(self) {
        let Frames {
            datagram,
            frame,
            out,
        } = self;
        drop(datagram);
        drop(frame);
        drop(out);
    }
}

impl Made for Frames {
    fn make(said: &mut Said, _call: &str, is_second: bool) -> Option<Frames> {
        let (digits, size) = if is_second {
            (&LONG, 248)
        } else {
            (&SHORT, 249)
        };
        let body = body(said, size)?;
        let frame = Frame::Publish {
            flags: Flags { bits: 0 },
            topic: 1,
            msg_id: 0,
            body,
        };
        Some(Frames {
            datagram: octets_of(said, digits),
            frame,
            out: front(said),
        })
    }
}

impl Calls for Frames {
    fn call_once(&mut self, said: &mut Said, call: &str) {
        if is_word(call, "decode") {
            let read = decode(said.alloc, self.datagram.as_slice());
            given(said, read, FrameFault::Memory);
        } else {
            let done = encode(said.alloc, &self.frame, &mut self.out);
            show_written(said, done, self.out.as_slice());
        }
    }
}

/// A message of so many octets.
fn body(said: &mut Said, size: usize) -> Option<Octets> {
    let made = Vec::from_elem(said.alloc, 0x61u8, size);
    let octets = octets_or_none(said, made);
    beside(said, Octets::new(octets))
}

/// Prints whom a PINGREQ is of.
impl Shown for Frame {
    fn show(&self, said: &mut Said) {
        match self {
            Frame::PingReq { client } => said.octets(client.as_slice()),
            _ => said.stop(Stop::Other),
        }
    }
}

/// Prints the first six octets, and how many there are.
fn show_written(said: &mut Said, done: Result<(), EncodeFault>, out: &[u8]) {
    if written(said, done, EncodeFault::Memory, out) {
        if out.len() >= 6 {
            said.octets(&out[..6]);
        }
        said.number("octets", out.len());
    }
}
