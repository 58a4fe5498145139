//! Links.

use crate::refusals::calls::{Calls, Made, Shown, given, is_word};
use crate::refusals::deltas::{FIRST, delta, octets_of};
use crate::refusals::page::Page;
use crate::refusals::said::Said;
use gw_net::{Fed, LinkFault, LinkIn, LinkMessage, LinkOutFault, link_out};
use std::alloc::Global;

/// A hello of gateway 2, an empty digest, and the first delta, which is cut.
const PIECE: [&str; 3] = ["010000000102", "02000000050100000000", "0300000022"];

const REST: [&str; 3] = [
    "0100000001",
    "010273310000000000000001",
    "0100000001003c00010000000000000000",
];

/// A link, the piece that comes in over it, and the message that goes out.
pub(crate) struct Links {
    link: LinkIn,
    piece: Vec<u8>,
    message: LinkMessage,
}

impl Drop for Links {
    fn drop(self) {
        let Links {
            link,
            piece,
            message,
        } = self;
        drop(link);
        drop(piece);
        drop(message);
    }
}

impl Made for Links {
    fn make(said: &mut Said, _call: &str, is_second: bool) -> Option<Links> {
        Some(if is_second {
            fed(said)
        } else {
            Links {
                link: LinkIn::new(),
                piece: octets_of(said, &PIECE),
                message: LinkMessage::Hello(2),
            }
        })
    }
}

/// A link over which the first piece came in, the second piece, and a delta that goes out.
fn fed(said: &mut Said) -> Links {
    let mut link = LinkIn::new();
    feed(said, &mut link);
    Links {
        link,
        piece: octets_of(said, &REST),
        message: LinkMessage::Delta(delta(said, &FIRST)),
    }
}

/// The first piece comes in over a link, beside the call.
fn feed(said: &mut Said, link: &mut LinkIn) {
    let piece = octets_of(said, &PIECE);
    let fed = link.feed(said.alloc, piece.as_slice());
    drop(piece);
    said.stop_if_short(fed.is_err());
    drop(fed);
}

impl Calls for Links {
    fn call_once(&mut self, said: &mut Said, call: &str) {
        if is_word(call, "link_out") {
            send(said, &self.message);
        } else {
            let fed = self.link.feed(said.alloc, self.piece.as_slice());
            given(said, fed, LinkFault::Memory);
        }
    }
}

impl Shown for Fed {
    fn show(&self, said: &mut Said) {
        said.keep(self.fault.is_none());
        for message in self.messages.as_slice() {
            show_message(said, message);
        }
    }
}

/// Prints a message.
fn show_message(said: &mut Said, message: &LinkMessage) {
    match message {
        LinkMessage::Hello(gateway) => said.number("hello", *gateway as usize),
        LinkMessage::Digest(digest) => digest.show(said),
        LinkMessage::Delta(delta) => delta.show(said),
    }
}

/// A message goes out. If that is refused, nothing of it did.
fn send(said: &mut Said, message: &LinkMessage) {
    let mut page = Page::new();
    match go_out(said.alloc, &mut page, message) {
        Ok(()) => {
            said.octets(page.as_slice());
            said.answer();
        }
        Err(fault) => {
            said.keep(page.as_slice().is_empty());
            said.refuse(fault == LinkOutFault::Memory);
        }
    }
}

/// A message goes out. Nobody says a hello of gateway 0.
fn go_out(alloc: Global, page: &mut Page, message: &LinkMessage) -> Result<(), LinkOutFault> {
    match message {
        LinkMessage::Hello(0) => Err(LinkOutFault::Write { written: 0 }),
        LinkMessage::Hello(_) => link_out(alloc, page, message),
        LinkMessage::Digest(_) => link_out(alloc, page, message),
        LinkMessage::Delta(_) => link_out(alloc, page, message),
    }
}
