//! Lines about readings in a journal.

use crate::sets::datagrams::shown::print_text;
use crate::sets::page::Page;
use crate::sets::stop::Stop;
use crate::sets::words::Words;
use br_core::Item;
use br_spool::{Held, SpoolFault, delta_of, held_in};
use mq_packet::Qos;
use octets::{NoMemory, Octets};
use rep_ops::{Delta, Op};
use std::alloc::Global;

/// The reading of this number.
pub(crate) fn reading(alloc: Global, number: u64) -> Result<Item, NoMemory> {
    let topic = Octets::from_slice(alloc, b"f/t/0")?;
    match Octets::from_slice(alloc, b"hi") {
        Ok(body) => Ok(item_of(number, topic, body)),
        Err(fault) => {
            drop(topic);
            Err(fault)
        }
    }
}

/// A reading of lane 0, at quality of service 1.
fn item_of(number: u64, topic: Octets, body: Octets) -> Item {
    Item {
        number,
        lane: 0,
        topic,
        qos: Qos::One,
        retain: false,
        body,
    }
}

/// Adds a number to others.
fn push(words: &mut Words<'_>, numbers: &mut Vec<u64>, number: u64) {
    if numbers.push(number).is_err() {
        words.fail(Stop::Memory);
    }
}

/// Adds the number that the next word is, unless it is a slash. Whether it is one.
fn add_or_end(words: &mut Words<'_>, numbers: &mut Vec<u64>) -> bool {
    let word = words.word();
    let is_over = word == "/";
    if !is_over {
        let number = words.number_of(word);
        push(words, numbers, number);
    }
    is_over
}

/// The numbers in front of a slash, which is read too.
fn numbers_to_slash(words: &mut Words<'_>) -> Vec<u64> {
    let mut numbers = Vec::new(words.alloc);
    let mut is_over = false;
    for _ in 0..words.left() {
        if !is_over {
            is_over = add_or_end(words, &mut numbers);
        }
    }
    if !is_over {
        words.fail(Stop::Line);
    }
    numbers
}

/// The numbers that are left.
fn numbers_left(words: &mut Words<'_>) -> Vec<u64> {
    let mut numbers = Vec::new(words.alloc);
    for _ in 0..words.left() {
        let number = words.number();
        push(words, &mut numbers, number);
    }
    numbers
}

/// `spool FROM BELOW NUMBER .. / NUMBER ..`: what is written of these readings, and of those that
/// need not be kept; and what is found in it.
pub(crate) fn play(page: &mut Page, words: &mut Words<'_>) {
    let from = words.number();
    let below = words.number();
    let stores = numbers_to_slash(words);
    let forgets = numbers_left(words);
    if words.end() {
        print_spool(page, from, below, &stores, &forgets);
    }
    drop(stores);
    drop(forgets);
}

/// What is written of readings, and what is found in it.
fn print_spool(page: &mut Page, from: u64, below: u64, stores: &[u64], forgets: &[u64]) {
    let mut items = Vec::new(page.alloc);
    add_readings(page, &mut items, stores);
    if !page.is_short() {
        let made = made_of(page.alloc, from, below, &items, forgets);
        print_made(page, made);
    }
    drop(items);
}

/// Adds the readings of these numbers.
fn add_readings(page: &mut Page, items: &mut Vec<Item>, numbers: &[u64]) {
    for number in numbers {
        add_reading(page, items, *number);
    }
}

/// Adds the reading of a number.
fn add_reading(page: &mut Page, items: &mut Vec<Item>, number: u64) {
    match reading(page.alloc, number) {
        Ok(item) => keep(page, items, item),
        Err(_) => page.run_out(),
    }
}

/// Adds a reading.
fn keep(page: &mut Page, items: &mut Vec<Item>, item: Item) {
    let pushed = items.push(item);
    let is_short = pushed.is_err();
    drop(pushed);
    if is_short {
        page.run_out();
    }
}

/// The delta of readings. It says nothing of the call: its clauses would stay in view.
fn made_of(
    alloc: Global,
    from: u64,
    below: u64,
    items: &[Item],
    forgets: &[u64],
) -> Result<Delta, SpoolFault> {
    delta_of(alloc, from, below, items, forgets)
}

/// A delta, or why there is none; if memory ran out, the page remembers it.
fn print_made(page: &mut Page, made: Result<Delta, SpoolFault>) {
    match made {
        Ok(delta) => print_delta(page, delta),
        Err(fault) => refused(page, fault),
    }
}

/// The line of readings that make no delta.
fn refused(page: &mut Page, fault: SpoolFault) {
    if matches!(fault, SpoolFault::Memory) {
        page.run_out();
    }
    page.text("refused: ");
    page.value(fault);
    page.end();
}

/// The operations of a delta, and the readings that are found in it.
fn print_delta(page: &mut Page, delta: Delta) {
    for op in delta.ops() {
        print_op(page, op);
    }
    let mut deltas = Vec::new(page.alloc);
    let pushed = deltas.push(delta);
    let is_short = pushed.is_err();
    drop(pushed);
    if is_short {
        page.run_out();
    } else {
        print_found(page, &deltas);
    }
    drop(deltas);
}

/// An operation.
fn print_op(page: &mut Page, op: &Op) {
    match op {
        Op::Put { client, put } => {
            page.text("put ");
            print_text(page, client.bytes());
            print_last(page, put.seq);
        }
        Op::Ack {
            client,
            first,
            last,
            ..
        } => {
            page.text("ack ");
            print_text(page, client.bytes());
            page.text(" ");
            page.value(*first);
            print_last(page, *last);
        }
        Op::Session { .. } | Op::Retain { .. } => page.line("no reading"),
    }
}

/// The last number of a line.
fn print_last(page: &mut Page, number: u64) {
    page.text(" ");
    page.value(number);
    page.end();
}

/// The readings of deltas.
fn print_found(page: &mut Page, deltas: &[Delta]) {
    match held_in(page.alloc, deltas) {
        Ok(held) => {
            print_held(page, &held);
            drop(held);
        }
        Err(_) => page.run_out(),
    }
}

/// Readings, and the number of the next one.
fn print_held(page: &mut Page, held: &Held) {
    for item in held.items.as_slice() {
        print_item(page, item);
    }
    page.text("next");
    print_last(page, held.next);
}

/// A reading.
pub(crate) fn print_item(page: &mut Page, item: &Item) {
    page.value(item.number);
    page.text(" ");
    print_text(page, item.topic.as_slice());
    page.text(": ");
    print_text(page, item.body.as_slice());
    page.end();
}
