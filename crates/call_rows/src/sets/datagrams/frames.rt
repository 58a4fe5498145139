//! Lines about datagrams.

use crate::sets::calls::{read_frame, write_frame};
use crate::sets::datagrams::fields::{field, octets};
use crate::sets::datagrams::refusals::{not_written, refused_frame};
use crate::sets::datagrams::shown::print_digits;
use crate::sets::datagrams::words::{message_name, print_told};
use crate::sets::page::Page;
use crate::sets::runs::Answers;
use crate::sets::stop::Stop;
use crate::sets::words::Words;
use octets::Octets;
use sn_frame::{Frame, FrameFault, Will};
use std::mem;

/// The most octets of a body after a Length of one octet (MQTT-SN 1.2 section 5.2.1).
const SHORT_BODY: usize = 253;

/// `frame OCTETS ..`: the frame that a datagram spells, which is kept.
pub(crate) fn frame(page: &mut Page, kept: &mut Option<Frame>, words: &mut Words<'_>) {
    let datagram = octets(words);
    let mut frame = if words.end() {
        read(page, &datagram)
    } else {
        None
    };
    drop(datagram);
    mem::swap(kept, &mut frame);
    drop(frame);
}

/// The frame that a datagram spells, which is printed; prints why there is none.
fn read(page: &mut Page, datagram: &[u8]) -> Option<Frame> {
    match read_frame(page.alloc, datagram) {
        Ok(frame) => {
            print_frame(page, &frame);
            Some(frame)
        }
        Err(fault) => {
            refused_frame(page, fault);
            None
        }
    }
}

/// A frame in words, and what it is written as.
fn print_frame(page: &mut Page, frame: &Frame) {
    print_told(page, frame);
    let mut out = Vec::new(page.alloc);
    match write_frame(page.alloc, frame, &mut out) {
        Ok(()) => print_written(page, &out),
        Err(fault) => not_written(page, fault),
    }
    drop(out);
}

/// What a frame is written as.
fn print_written(page: &mut Page, octets: &[u8]) {
    page.text("  written ");
    print_digits(page, octets);
    page.end();
}

/// `with OCTETS ..`: the frame that was read, with this octet string in place of its own.
pub(crate) fn with(page: &mut Page, kept: &mut Option<Frame>, words: &mut Words<'_>) {
    match Octets::new(octets(words)) {
        Ok(other) => print_with(page, kept, words, other),
        Err(_) => page.run_out(),
    }
}

/// Prints the frame that was read, with another octet string.
fn print_with(page: &mut Page, kept: &mut Option<Frame>, words: &mut Words<'_>, other: Octets) {
    match kept {
        Some(frame) => print_changed(page, words, frame, other),
        None => {
            words.fail(Stop::Line);
            drop(other);
        }
    }
}

/// Prints a frame with another octet string, if it has one, and the words of the line were right.
fn print_changed(page: &mut Page, words: &mut Words<'_>, frame: &mut Frame, mut other: Octets) {
    match string_of(frame) {
        Some(own) => mem::swap(own, &mut other),
        None => words.fail(Stop::Line),
    }
    drop(other);
    if words.end() {
        print_frame(page, frame);
    }
}

/// The octet string of a frame: its client, address, will's topic or message, topic or data.
fn string_of(frame: &mut Frame) -> Option<&mut Octets> {
    match frame {
        Frame::GwInfo { address, .. } => Some(address),
        Frame::Connect { client, .. } | Frame::PingReq { client } => Some(client),
        Frame::WillTopic { will } | Frame::WillTopicUpd { will } => topic_of(will),
        Frame::WillMsg { message } | Frame::WillMsgUpd { message } => Some(message),
        Frame::Register { name, .. } => Some(name),
        Frame::Publish { body, .. } => Some(body),
        Frame::Subscribe { topic, .. } | Frame::Unsubscribe { topic, .. } => Some(topic),
        _ => None,
    }
}

/// The topic of a will, if there is a will.
fn topic_of(will: &mut Option<Will>) -> Option<&mut Octets> {
    match will {
        Some(will) => Some(&mut will.topic),
        None => None,
    }
}

/// What a datagram is, in a word: the name of its message, or the number of its fault.
fn brief(said: &mut Page, datagram: &[u8]) {
    match read_frame(said.alloc, datagram) {
        Ok(frame) => {
            said.text(message_name(&frame));
            drop(frame);
        }
        Err(fault) => brief_fault(said, fault),
    }
}

/// The number of a fault.
fn brief_fault(said: &mut Page, fault: FrameFault) {
    if matches!(fault, FrameFault::Memory) {
        said.run_out();
    }
    said.text("refused ");
    said.value(fault.number());
    drop(fault);
}

/// What an octet in the place of MsgType and a body are; after it what they are with a Length of
/// three octets, where that is something else.
fn both_forms(said: &mut Page, kind: u8, body: &[u8]) {
    let size = (body.len() % 256) as u8;
    behind(said, &[size.saturating_add(2), kind], body);
    let [high, low] = u16::from(size).saturating_add(4).to_be_bytes();
    let mut long = Page::new(said.alloc);
    behind(&mut long, &[1, high, low, kind], body);
    add_long(said, &long);
    drop(long);
}

/// Adds what is said of the datagram with a Length of three octets, where that is something else.
fn add_long(said: &mut Page, long: &Page) {
    said.keep_fault(long);
    if said.as_str() != long.as_str() {
        said.text(", but ");
        said.text(long.as_str());
        said.text(" with a Length of three octets");
    }
}

/// What a datagram of this head and this body is, in a word.
fn behind(said: &mut Page, head: &[u8], body: &[u8]) {
    let mut datagram = Vec::new(said.alloc);
    add(said, &mut datagram, head);
    add(said, &mut datagram, body);
    brief(said, &datagram);
    drop(datagram);
}

/// Puts octets after others.
fn add(said: &mut Page, octets: &mut Vec<u8>, more: &[u8]) {
    if octets.extend_from_slice(more).is_err() {
        said.run_out();
    }
}

/// Prints from which number of octets on an answer stands, if it is another than the one before it.
fn tell(page: &mut Page, answers: &mut Answers, end: usize) {
    if answers.turn(page) {
        page.labelled("from", end);
        answers.print(page);
    }
}

/// Prints from which octet in the place of MsgType on an answer stands, if it is another than the
/// one before it.
fn tell_type(page: &mut Page, answers: &mut Answers, kind: u8) {
    if answers.turn(page) {
        page.text("from ");
        page.hexadecimal(&[kind]);
        answers.print(page);
    }
}

/// The body that the words write which are left; it is to fit after a Length of one octet.
fn short_body(words: &mut Words<'_>) -> Vec<u8> {
    let body = octets(words);
    if body.len() > SHORT_BODY {
        words.fail(Stop::Line);
    }
    body
}

/// `types OCTETS ..`: what this body is after each octet in the place of MsgType.
pub(crate) fn types(page: &mut Page, words: &mut Words<'_>) {
    let body = short_body(words);
    if words.end() {
        each_type(page, &body);
    }
    drop(body);
}

/// What a body is after each octet in the place of MsgType.
fn each_type(page: &mut Page, body: &[u8]) {
    let mut answers = Answers::new(page.alloc);
    for kind in 0..=255u8 {
        both_forms(&mut answers.said, kind, body);
        tell_type(page, &mut answers, kind);
    }
    drop(answers);
}

/// `bodies KIND OCTETS ..`: what each beginning of this body is after an octet in the place of
/// MsgType.
pub(crate) fn bodies(page: &mut Page, words: &mut Words<'_>) {
    let kind = field(words);
    let body = short_body(words);
    match kind.as_slice() {
        [kind] => {
            if words.end() {
                each_body(page, *kind, &body);
            }
        }
        _ => words.fail(Stop::Line),
    }
    drop(kind);
    drop(body);
}

/// What each beginning of a body is.
fn each_body(page: &mut Page, kind: u8, body: &[u8]) {
    let mut answers = Answers::new(page.alloc);
    for end in 0..=body.len() {
        both_forms(&mut answers.said, kind, &body[..end]);
        tell(page, &mut answers, end);
    }
    drop(answers);
}

/// `beginnings OCTETS ..`: what each beginning of a datagram is, and the whole.
pub(crate) fn beginnings(page: &mut Page, words: &mut Words<'_>) {
    let datagram = octets(words);
    if words.end() {
        each_beginning(page, &datagram);
    }
    drop(datagram);
}

/// What each beginning of a datagram is, and the whole.
fn each_beginning(page: &mut Page, datagram: &[u8]) {
    let mut answers = Answers::new(page.alloc);
    for end in 0..=datagram.len() {
        brief(&mut answers.said, &datagram[..end]);
        tell(page, &mut answers, end);
    }
    drop(answers);
}
