//! The operations of a delta of about 8 MiB: 100 clients, each with a Take, three changes of
//! presence, 20 puts with bodies of 4,096 octets and five ranges of acknowledgements.

use crate::page::Page;
use crate::works::making::{self, STAMP, push};
use crate::works::numbers::{Numbers, body};
use rep_ops::{ClientId, Op};
use sn_session::{Presence, SessionOp};
use sn_tables::QosLevel;

const CLIENTS: u8 = 100;

const CHANGES: u8 = 3;

const PUTS: u64 = 20;

const RANGES: u64 = 5;

/// The octets of a put's body.
const BODY: usize = 4096;

/// All of them.
pub(crate) fn operations(page: &mut Page) -> Vec<Op> {
    let mut ops = Vec::new(page.alloc());
    let mut numbers = Numbers::new();
    for client in 0..CLIENTS {
        let taker = client_of(page, client);
        making::add_take(page, &mut ops, taker);
        add_changes(page, &mut ops, client, CHANGES);
        add_puts(page, &mut ops, client, &mut numbers);
        add_acks(page, &mut ops, client);
    }
    ops
}

/// One change of one client's session.
pub(crate) fn presence(page: &mut Page) -> Vec<Op> {
    let mut ops = Vec::new(page.alloc());
    add_changes(page, &mut ops, 0, 1);
    ops
}

/// The digits of a number below 100.
fn digits(number: u8) -> [u8; 2] {
    [b'0' + number / 10 % 10, b'0' + number % 10]
}

/// The client of this number.
fn client_of(page: &mut Page, number: u8) -> Option<ClientId> {
    making::client(page, &digits(number))
}

/// So many changes of the client's session.
fn add_changes(page: &mut Page, ops: &mut Vec<Op>, client: u8, changes: u8) {
    for counter in 1..=changes {
        match client_of(page, client) {
            Some(client) => push(page, ops, change(client, counter)),
            None => {}
        }
    }
}

/// A change of a client's session.
fn change(client: ClientId, counter: u8) -> Op {
    Op::Session {
        client,
        stamp: STAMP,
        counter,
        change: SessionOp::Presence {
            presence: Presence::Asleep,
            duration: u16::from(counter) * 60,
        },
    }
}

/// The messages for the client.
fn add_puts(page: &mut Page, ops: &mut Vec<Op>, client: u8, numbers: &mut Numbers) {
    for seq in 1..=PUTS {
        add_put(page, ops, client, seq, numbers);
    }
}

/// A message for the client.
fn add_put(page: &mut Page, ops: &mut Vec<Op>, client: u8, seq: u64, numbers: &mut Numbers) {
    let [tens, ones] = digits(client);
    let topic = [
        b'f', b'i', b'e', b'l', b'd', b'/', tens, ones, b'/', b's', b'o', b'i', b'l',
    ];
    let body = body(page, numbers, BODY, 0);
    let put = making::put(page, (1, seq), &topic, level(client), body);
    let client = client_of(page, client);
    making::add_put(page, ops, client, put);
}

/// The acknowledgements of the client, of five messages each.
fn add_acks(page: &mut Page, ops: &mut Vec<Op>, client: u8) {
    for range in 0..RANGES {
        match client_of(page, client) {
            Some(client) => push(page, ops, ack(client, 1 + range * 10)),
            None => {}
        }
    }
}

/// Five acknowledgements from a first one on.
fn ack(client: ClientId, first: u64) -> Op {
    Op::Ack {
        client,
        origin: 2,
        first,
        last: first.saturating_add(4),
    }
}

/// A quality of service, by turns.
fn level(client: u8) -> QosLevel {
    match client % 3 {
        0 => QosLevel::zero(),
        1 => QosLevel::one(),
        _ => QosLevel::two(),
    }
}
