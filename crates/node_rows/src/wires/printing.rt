//! What is printed of a shift that was served.

use crate::calls::clients;
use crate::page::Page;
use crate::stop::Stop;
use crate::wires::outside::Note;
use crate::wires::serving::{Gateway, Outcome, Over};
use crate::wires::wire::Coming;
use gw_node::{Answer, NodeFault, Step};
use gw_serve::{Cause, Taken};
use gw_shift::{CloseFault, Entry};
use rep_ops::ClientId;
use sn_local::{Addr, Send as Sending};

/// How serving ended, and with how many passes, unless memory ran out.
pub(crate) fn print_outcome(page: &mut Page, outcome: &Outcome) {
    match outcome.cause {
        None => page.text("served"),
        Some(Cause::Memory) => page.stop(Stop::Memory),
        Some(cause) => page.shown("", &cause),
    }
    page.shown(", passes ", &outcome.passes.len());
    page.end();
}

/// What became of the datagrams: by their numbers, or, where serving ended early, the calls of the
/// history.
pub(crate) fn print_calls(page: &mut Page, outcome: &Outcome, history: &[Entry], count: usize) {
    if outcome.cause.is_none() {
        print_numbers(page, outcome, history, count);
        print_count(page, outcome);
    } else {
        for entry in history {
            print_call(page, entry);
        }
    }
}

/// What became of the datagrams of the first so many numbers.
fn print_numbers(page: &mut Page, outcome: &Outcome, history: &[Entry], count: usize) {
    for place in 0..count {
        let number = place as u64 + 1;
        if let Some(taken) = taken_of(outcome.taken.as_slice(), number) {
            print_taken(page, taken, history);
        }
        if outcome.left.as_slice().contains(&number) {
            page.shown("datagram ", &number);
            page.text(" left\n");
        }
    }
}

/// How many datagrams became calls, and how many did not.
pub(crate) fn print_count(page: &mut Page, outcome: &Outcome) {
    page.shown("taken ", &outcome.taken.len());
    page.shown(", left ", &outcome.left.len());
    page.end();
}

/// The call of a datagram.
fn taken_of(all: &[Taken], number: u64) -> Option<Taken> {
    for taken in all {
        if taken.datagram == number {
            return Some(*taken);
        }
    }
    None
}

/// The call that a datagram became, as the history has it.
fn print_taken(page: &mut Page, taken: Taken, history: &[Entry]) {
    page.shown("datagram ", &taken.datagram);
    page.text(" is ");
    match entry_of(history, taken.step) {
        Some(entry) => print_call(page, entry),
        None => page.text("no call\n"),
    }
}

/// The call of a number, from 1 on.
fn entry_of(history: &[Entry], number: u64) -> Option<&Entry> {
    if number == 0 {
        return None;
    }
    history.get((number - 1) as usize)
}

/// A call, and what was answered to it.
fn print_call(page: &mut Page, entry: &Entry) {
    print_step(page, &entry.step);
    print_answer(page, &entry.answer);
    page.end();
}

/// A call.
fn print_step(page: &mut Page, step: &Step) {
    match step {
        Step::Frame { from, bytes, now } => {
            print_at(page, "frame ", *from);
            page.shown(" ", now);
            page.octets(" ", bytes.as_slice());
        }
        _ => page.text("another call"),
    }
}

/// An address after a text.
fn print_at(page: &mut Page, text: &str, at: Addr) {
    page.shown(text, &at.host);
    page.shown(":", &at.port);
}

/// What was answered, unless memory ran out.
pub(crate) fn print_answer(page: &mut Page, answer: &Answer) {
    match answer {
        Ok(out) => print_sends(page, out.sends.as_slice()),
        Err(NodeFault::Memory) => page.stop(Stop::Memory),
        Err(fault) => {
            page.text(", refused ");
            page.text(fault_word(fault));
        }
    }
}

/// Why a gateway refused.
fn fault_word(fault: &NodeFault) -> &'static str {
    match fault {
        NodeFault::Frame { .. } => "frame",
        NodeFault::Disk { .. } => "disk",
        NodeFault::Halted => "halted",
        _ => "otherwise",
    }
}

/// The datagrams of an answer.
fn print_sends(page: &mut Page, sends: &[Sending]) {
    for send in sends {
        print_to(page, send.to, send.bytes.as_slice());
    }
}

/// A datagram that goes somewhere.
fn print_to(page: &mut Page, to: Addr, bytes: &[u8]) {
    print_at(page, ", to ", to);
    page.octets(" ", bytes);
}

/// What was asked of the outside: for each datagram, and how many things in all.
pub(crate) fn print_notes(page: &mut Page, coming: &[Coming], notes: &[Note]) {
    let mut number = 0u64;
    for come in coming {
        if let Coming::Datagram { host, .. } = come {
            number = number.saturating_add(1);
            print_notes_of(page, number, *host, notes);
        }
    }
    page.shown("outside ", &notes.len());
    page.end();
}

/// What was asked of the outside for the datagram of this number, and what was sent to its host.
fn print_notes_of(page: &mut Page, number: u64, host: u32, notes: &[Note]) {
    page.shown("outside for ", &number);
    for note in notes {
        print_note(page, number, host, note);
    }
    page.end();
}

/// One thing that was asked, where it is for that datagram.
fn print_note(page: &mut Page, number: u64, host: u32, note: &Note) {
    match note {
        Note::Before(of) if *of == number => page.text(", before"),
        Note::Behind(of) if *of == number => page.text(", behind"),
        Note::GaveUp(of) if *of == number => page.text(", held too long"),
        Note::Sent { to, bytes } if to.host == host => print_to(page, *to, bytes.as_slice()),
        _ => {}
    }
}

/// Whether the shift was closed, with how many calls, and which clients the gateway knows. The
/// program ends if memory was refused in the disk, which then did not fail as arranged.
pub(crate) fn print_over(page: &mut Page, over: &Over) {
    page.stop_if_short(over.node.starved());
    print_close(page, &over.fault);
    page.length(" calls ", over.history.len());
    page.text(", clients");
    print_clients(page, &over.node);
    page.end();
}

/// Whether a shift was closed.
fn print_close(page: &mut Page, fault: &Option<CloseFault>) {
    match fault {
        None => page.text("closed,"),
        Some(fault) => {
            page.shown("not closed: ", fault);
            page.text(";");
        }
    }
}

/// The clients that a gateway knows.
fn print_clients(page: &mut Page, node: &Gateway) {
    match clients(page.alloc(), node) {
        Ok(clients) => {
            print_ids(page, clients.as_slice());
            drop(clients);
        }
        Err(_) => page.stop(Stop::Memory),
    }
}

/// The ids of clients.
fn print_ids(page: &mut Page, clients: &[ClientId]) {
    for client in clients {
        page.octets(" ", client.bytes());
    }
}
