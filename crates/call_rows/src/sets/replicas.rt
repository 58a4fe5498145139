//! Lines about a replica.

use crate::sets::deltas::made;
use crate::sets::page::Page;
use crate::sets::printing::{print_deltas, print_view, print_waiting};
use crate::sets::row::Row;
use crate::sets::values::print_take_fault;
use crate::sets::words::Words;
use crate::sets::{calls, topics};
use rep_model::{ClientView, Puts, Replica};
use rep_ops::{Delta, Op};

/// Plays a line about a replica; leaves those about what is retained, and all others, to the next.
pub(crate) fn play<R: Replica>(
    page: &mut Page,
    row: &mut Row,
    replica: &mut R,
    words: &mut Words<'_>,
) {
    match words.first {
        "join" => join(page, replica, row.used(words.alloc)),
        "view" | "copied" | "waiting" => ask(page, replica, words),
        "next" => next(page, replica, words),
        "clients" => clients(page, replica),
        "held" | "parts" => held(page, replica, words.first),
        _ => topics::play(page, row, replica, words),
    }
}

/// `join`: the replica takes the operations in one delta.
fn join<R: Replica>(page: &mut Page, replica: &mut R, ops: Vec<Op>) {
    if let Some(delta) = made(page, ops) {
        join_delta(page, replica, &delta);
        drop(delta);
    }
}

/// The replica takes a delta.
pub(crate) fn join_delta<R: Replica>(page: &mut Page, replica: &mut R, delta: &Delta) {
    match calls::take(page.alloc, replica, delta) {
        Ok(()) => page.line("joined"),
        Err(fault) => {
            print_take_fault(page, &fault);
            drop(fault);
        }
    }
}

/// Lines that ask what the replica knows of a client.
fn ask<R: Replica>(page: &mut Page, replica: &R, words: &mut Words<'_>) {
    let name = words.octets();
    if let Some(client) = words.last_client(name) {
        print_known(page, words.first, replica.view_of(&client));
        drop(client);
    }
}

/// What is known of a client, if it is named.
fn print_known(page: &mut Page, what: &str, known: Option<&ClientView>) {
    match known {
        None => page.line("not named"),
        Some(view) => print_asked(page, what, view),
    }
}

/// `view CLIENT`: what the replica knows of a client. `copied CLIENT`: the same of a copy, and the
/// messages of a copy of its messages. `waiting CLIENT`: how many messages wait for it.
fn print_asked(page: &mut Page, what: &str, view: &ClientView) {
    match what {
        "view" => print_view(page, view),
        "copied" => print_copy(page, view),
        _ => page.counted("waiting", view.pending.len()),
    }
}

/// A copy of a view, and a copy of the copy's messages.
fn print_copy(page: &mut Page, view: &ClientView) {
    match view.copied(page.alloc) {
        Ok(copy) => {
            print_copied(page, &copy);
            drop(copy);
        }
        Err(_) => page.run_out(),
    }
}

/// A view, and a copy of its messages.
fn print_copied(page: &mut Page, view: &ClientView) {
    print_view(page, view);
    match view.pending.copied(page.alloc) {
        Ok(messages) => {
            print_messages(page, &messages);
            drop(messages);
        }
        Err(_) => page.run_out(),
    }
}

/// Messages, after a line with their number.
fn print_messages(page: &mut Page, messages: &Puts) {
    page.labelled("messages", messages.len());
    page.text(", none: ");
    page.value(messages.is_empty());
    page.end();
    print_waiting(page, messages.as_slice());
}

/// `next CLIENT GATEWAY`: the epoch of the client's next Take, and the number of the gateway's next
/// message for it.
pub(crate) fn next<R: Replica>(page: &mut Page, replica: &R, words: &mut Words<'_>) {
    let (name, gateway) = (words.octets(), words.octet());
    if let Some(client) = words.last_client(name) {
        print_next(page, "epoch", replica.next_epoch(&client));
        print_next(page, "message", replica.next_seq(&client, gateway));
        drop(client);
    }
}

/// The next number of something.
pub(crate) fn print_next(page: &mut Page, what: &str, number: Option<u64>) {
    page.either(number.is_some(), "next", "no next");
    page.word(what);
    if let Some(number) = number {
        page.word(number);
    }
    page.end();
}

/// `clients`: how many clients the replica knows.
fn clients<R: Replica>(page: &mut Page, replica: &R) {
    match replica.clients(page.alloc) {
        Ok(clients) => {
            page.counted("clients", clients.len());
            drop(clients);
        }
        Err(_) => page.run_out(),
    }
}

/// `held`: the deltas of what must be kept. `parts`: how many operations and octets each of these
/// has, and its version.
fn held<R: Replica>(page: &mut Page, replica: &R, what: &str) {
    match replica.held(page.alloc) {
        Ok(deltas) => {
            print_held(page, what, &deltas);
            drop(deltas);
        }
        Err(_) => page.run_out(),
    }
}

/// Deltas of what must be kept, or what each of them has.
fn print_held(page: &mut Page, what: &str, deltas: &[Delta]) {
    if what == "held" {
        print_deltas(page, "held in", deltas);
    } else {
        for delta in deltas {
            print_part(page, delta);
        }
    }
}

/// How many operations and octets a delta has, and its version.
fn print_part(page: &mut Page, delta: &Delta) {
    let mut octets = Vec::new(page.alloc);
    if calls::write_delta(page.alloc, delta, &mut octets).is_err() {
        page.run_out();
    }
    page.labelled("part of", delta.ops().len());
    print_measure(page, &octets);
    drop(octets);
}

/// How many octets a delta has, and its version, which they begin with.
fn print_measure(page: &mut Page, octets: &[u8]) {
    page.text(", octets ");
    page.value(octets.len());
    page.text(", version ");
    match octets {
        [version, ..] => page.value(*version),
        [] => page.value(0u8),
    }
    page.end();
}
