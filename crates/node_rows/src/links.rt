//! Lines about digests, and about a link.

use crate::calls::read_digest;
use crate::page::Page;
use crate::printing::{print_delta, print_digest, print_known, print_length, print_octets};
use crate::stop::Stop;
use crate::words::Words;
use gw_net::{Fed, LinkFault, LinkIn, LinkMessage, LinkOutFault, link_out};
use rep_ops::OpsFault;
use std::alloc::Global;
use std::fmt::Display;
use std::io::{self, Write};

/// A writer that takes so many octets, and then fails.
#[derive(Drop)]
struct Full {
    room: usize,
}

impl Write for Full {
    fn write(&mut self, buf: &[u8]) -> io::Result<usize> {
        let count = buf.len().min(self.room);
        if count == 0 {
            return Err(io::Error::from(io::ErrorKind::Other));
        }
        self.room -= count;
        Ok(count)
    }

    fn flush(&mut self) -> io::Result<()> {
        Ok(())
    }
}

/// `digest OCTETS ..`: of how many clients they spell a digest, and of what topics.
pub(crate) fn digest(page: &mut Page, words: &mut Words) {
    let octets = words.octets();
    if words.end(page) {
        print_spelled(page, &octets);
    }
    drop(octets);
}

/// `beginnings OCTETS ..`: the same of each beginning of them but the whole.
pub(crate) fn beginnings(page: &mut Page, words: &mut Words) {
    let octets = words.octets();
    if words.end(page) {
        print_beginnings(page, &octets);
    }
    drop(octets);
}

/// The digests that the beginnings of octets spell.
fn print_beginnings(page: &mut Page, octets: &[u8]) {
    for end in 0..octets.len() {
        page.length("", end);
        page.text(": ");
        print_spelled(page, &octets[..end]);
    }
}

/// The digest that octets spell.
fn print_spelled(page: &mut Page, octets: &[u8]) {
    match read_digest(page.alloc(), octets) {
        Ok(digest) => {
            print_known(page, &digest);
            drop(digest);
        }
        Err(OpsFault::Memory) => page.stop(Stop::Memory),
        Err(fault) => print_refused(page, &fault),
    }
}

/// Why something is refused.
fn print_refused<F: Display>(page: &mut Page, fault: &F) {
    page.shown("refused: ", fault);
    page.end();
}

/// The message that words say; a hello of gateway 0, which nobody may say, where they say none.
fn message(words: &mut Words) -> LinkMessage {
    match words.word() {
        "hello" => LinkMessage::Hello(words.gateway()),
        "delta" => LinkMessage::Delta(words.delta()),
        kind => {
            words.require(kind == "digest");
            digest_message(words)
        }
    }
}

/// The digest that words say.
fn digest_message(words: &mut Words) -> LinkMessage {
    match words.digest() {
        Some(digest) => LinkMessage::Digest(digest),
        None => LinkMessage::Hello(0),
    }
}

/// A message goes out; nothing for a hello of gateway 0.
fn go_out<W: Write>(
    alloc: Global,
    writer: &mut W,
    message: &LinkMessage,
) -> Option<Result<(), LinkOutFault>> {
    match message {
        LinkMessage::Hello(0) => None,
        LinkMessage::Hello(_) => Some(link_out(alloc, writer, message)),
        LinkMessage::Digest(_) => Some(link_out(alloc, writer, message)),
        LinkMessage::Delta(_) => Some(link_out(alloc, writer, message)),
    }
}

/// `say MESSAGE`: it goes out after what went out before.
pub(crate) fn say(page: &mut Page, said: &mut Vec<u8>, words: &mut Words) {
    let message = message(words);
    if words.end(page) {
        match go_out(page.alloc(), said, &message) {
            None => page.stop(Stop::Line),
            Some(Ok(())) => print_octets(page, "went out ", said),
            Some(Err(_)) => page.stop(Stop::Memory),
        }
    }
    drop(message);
}

/// `within COUNT MESSAGE`: it goes to a writer that fails after so many octets.
pub(crate) fn within(page: &mut Page, words: &mut Words) {
    let room = words.count();
    let message = message(words);
    if words.end(page) {
        let gone = go_out(page.alloc(), &mut Full { room }, &message);
        print_gone(page, gone);
    }
    drop(message);
}

/// Whether a message went out.
fn print_gone(page: &mut Page, gone: Option<Result<(), LinkOutFault>>) {
    match gone {
        None => page.stop(Stop::Line),
        Some(Ok(())) => page.text("went out\n"),
        Some(Err(LinkOutFault::Memory)) => page.stop(Stop::Memory),
        Some(Err(fault)) => print_refused(page, &fault),
    }
}

/// `feed OCTETS ..`: a piece comes in.
pub(crate) fn feed(page: &mut Page, link: &mut LinkIn, words: &mut Words) {
    let octets = words.octets();
    if words.end(page) {
        print_piece(page, link, &octets);
    }
    drop(octets);
}

/// What these octets give where they come in.
fn print_piece(page: &mut Page, link: &mut LinkIn, octets: &[u8]) {
    match link.feed(page.alloc(), octets) {
        Ok(fed) => {
            print_fed(page, &fed);
            drop(fed);
        }
        Err(LinkFault::Memory) => page.stop(Stop::Memory),
        Err(fault) => print_refused(page, &fault),
    }
}

/// The messages that are whole now, and the fault after them.
fn print_fed(page: &mut Page, fed: &Fed) {
    print_length(page, "messages ", fed.messages.len());
    for message in &fed.messages {
        print_message(page, message);
    }
    if let Some(fault) = &fed.fault {
        page.shown("fault: ", fault);
        page.end();
    }
}

/// What came over a link.
fn print_message(page: &mut Page, message: &LinkMessage) {
    match message {
        LinkMessage::Hello(gateway) => {
            page.number("hello ", u64::from(*gateway));
            page.end();
        }
        LinkMessage::Digest(digest) => print_digest(page, digest),
        LinkMessage::Delta(delta) => print_delta(page, delta),
    }
}
