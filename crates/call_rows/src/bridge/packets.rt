//! Lines about packets.

use crate::bridge::said::{packet_name, print_said};
use crate::sets::datagrams::fields::octets;
use crate::sets::datagrams::shown::print_digits;
use crate::sets::page::Page;
use crate::sets::runs::Answers;
use crate::sets::stop::Stop;
use crate::sets::words::Words;
use mq_packet::{EncodeFault, Packet, PacketFault};
use octets::Octets;
use std::alloc::Global;
use std::mem;

/// The packet that octets spell. It says nothing of the call: its clauses would stay in view.
pub(crate) fn read(alloc: Global, given: &[u8]) -> Result<Packet, PacketFault> {
    mq_packet::decode(alloc, given)
}

/// Appends the octets of a packet, and says nothing of the call.
fn write(alloc: Global, packet: &Packet, out: &mut Vec<u8>) -> Result<(), EncodeFault> {
    mq_packet::encode(alloc, packet, out)
}

/// `packet OCTETS ..`: the packet that octets spell, which is kept.
pub(crate) fn packet(page: &mut Page, kept: &mut Option<Packet>, words: &mut Words<'_>) {
    let given = octets(words);
    let mut packet = if words.end() {
        read_shown(page, &given)
    } else {
        None
    };
    drop(given);
    mem::swap(kept, &mut packet);
    drop(packet);
}

/// The packet that octets spell, which is printed; prints why there is none.
fn read_shown(page: &mut Page, given: &[u8]) -> Option<Packet> {
    match read(page.alloc, given) {
        Ok(packet) => {
            print_packet(page, &packet, given);
            Some(packet)
        }
        Err(fault) => {
            refused(page, fault);
            None
        }
    }
}

/// A packet in words, and what it is written as if that is something else.
fn print_packet(page: &mut Page, packet: &Packet, given: &[u8]) {
    print_said(page, packet);
    page.end();
    let mut out = Vec::new(page.alloc);
    match write(page.alloc, packet, &mut out) {
        Ok(()) => print_written(page, &out, given),
        Err(fault) => not_written(page, fault),
    }
    drop(out);
}

/// Octets that are not those that were given.
fn print_written(page: &mut Page, out: &[u8], given: &[u8]) {
    if out != given {
        page.text("  written ");
        print_digits(page, out);
        page.end();
    }
}

/// The line of octets that are refused; if memory ran out, the page remembers it.
fn refused(page: &mut Page, fault: PacketFault) {
    if matches!(fault, PacketFault::Memory) {
        page.run_out();
    }
    page.text("refused ");
    page.value(fault.number());
    page.text(": ");
    page.value(fault);
    page.end();
}

/// The line of a packet that is not written.
fn not_written(page: &mut Page, fault: EncodeFault) {
    if matches!(fault, EncodeFault::Memory) {
        page.run_out();
    }
    page.text("  not written: ");
    page.value(fault);
    page.end();
}

/// `with OCTETS ..`: what is written of the packet that was read, with other octets.
pub(crate) fn with(page: &mut Page, kept: &mut Option<Packet>, words: &mut Words<'_>) {
    match Octets::new(octets(words)) {
        Ok(other) => print_with(page, kept, words, other),
        Err(_) => page.run_out(),
    }
}

/// Prints the packet that was read, with other octets.
fn print_with(page: &mut Page, kept: &mut Option<Packet>, words: &mut Words<'_>, other: Octets) {
    match kept {
        Some(packet) => print_replaced(page, words, replaced(packet, other)),
        None => {
            words.fail(Stop::Line);
            drop(other);
        }
    }
}

/// Prints a packet with other octets, if there is one, and the words of the line were right.
fn print_replaced(page: &mut Page, words: &mut Words<'_>, packet: Option<Packet>) {
    match &packet {
        Some(packet) => {
            if words.end() {
                print_packet(page, packet, &[]);
            }
        }
        None => words.fail(Stop::Line),
    }
    drop(packet);
}

/// A packet with another client, topic or filter; without a will, a user and a message.
fn replaced(packet: &Packet, other: Octets) -> Option<Packet> {
    match packet {
        Packet::Connect {
            clean,
            keep_alive,
            ..
        } => Some(Packet::Connect {
            clean: *clean,
            keep_alive: *keep_alive,
            client: other,
            will: None,
            login: None,
        }),
        Packet::Subscribe { id, qos, .. } => Some(Packet::Subscribe {
            id: *id,
            filter: other,
            qos: *qos,
        }),
        Packet::Unsubscribe { id, .. } => Some(Packet::Unsubscribe {
            id: *id,
            filter: other,
        }),
        _ => {
            drop(other);
            None
        }
    }
}

/// What octets are, in a word: the name of their packet, or the number of their fault.
fn brief(said: &mut Page, given: &[u8]) {
    match read(said.alloc, given) {
        Ok(packet) => {
            said.text(packet_name(&packet));
            drop(packet);
        }
        Err(fault) => brief_fault(said, fault),
    }
}

/// The number of a fault.
pub(crate) fn brief_fault(said: &mut Page, fault: PacketFault) {
    if matches!(fault, PacketFault::Memory) {
        said.run_out();
    }
    said.text("refused ");
    said.value(fault.number());
}

/// `firsts OCTETS ..`: what these octets are after each first octet.
pub(crate) fn firsts(page: &mut Page, words: &mut Words<'_>) {
    let rest = octets(words);
    if words.end() {
        try_firsts(page, &rest);
    }
    drop(rest);
}

/// What these octets are after each first octet.
fn try_firsts(page: &mut Page, rest: &[u8]) {
    let mut answers = Answers::new(page.alloc);
    for first in 0..=255u8 {
        try_first(page, &mut answers, first, rest);
    }
    drop(answers);
}

/// What these octets are after a first one.
fn try_first(page: &mut Page, answers: &mut Answers, first: u8, rest: &[u8]) {
    brief_after(&mut answers.said, first, rest);
    if answers.turn(page) {
        page.text("from ");
        page.hexadecimal(&[first]);
        answers.print(page);
    }
}

/// The same in a word.
fn brief_after(said: &mut Page, first: u8, rest: &[u8]) {
    let mut given = Vec::new(said.alloc);
    if given.push(first).is_ok() && given.extend_from_slice(rest).is_ok() {
        brief(said, &given);
    } else {
        said.run_out();
    }
    drop(given);
}

/// `cuts OCTETS ..`: what each beginning of octets is, and the whole.
pub(crate) fn cuts(page: &mut Page, words: &mut Words<'_>) {
    let given = octets(words);
    if words.end() {
        try_cuts(page, &given);
    }
    drop(given);
}

/// What each beginning of octets is.
fn try_cuts(page: &mut Page, given: &[u8]) {
    let mut answers = Answers::new(page.alloc);
    for end in 0..=given.len() {
        try_cut(page, &mut answers, end, given);
    }
    drop(answers);
}

/// What the first of these octets are.
fn try_cut(page: &mut Page, answers: &mut Answers, end: usize, given: &[u8]) {
    let (front, _) = given.split_at(end.min(given.len()));
    brief(&mut answers.said, front);
    if answers.turn(page) {
        page.text("from ");
        page.value(end);
        answers.print(page);
    }
}

/// `left OCTETS ..`: what Remaining Length says, and how many octets follow it.
pub(crate) fn left(page: &mut Page, words: &mut Words<'_>) {
    let given = octets(words);
    if words.end() {
        print_left(page, &given);
    }
    drop(given);
}

/// What Remaining Length says, and how many octets follow it.
fn print_left(page: &mut Page, given: &[u8]) {
    match mq_packet::remaining(given) {
        Ok((said, rest)) => {
            page.value(said);
            page.text(" octets, ");
            page.value(rest.len());
            page.line(" are there");
        }
        Err(fault) => refused(page, fault),
    }
}
