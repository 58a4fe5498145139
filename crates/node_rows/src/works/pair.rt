//! Two gateways of which one was away: each has 1,000 clients with a session and 20 messages of
//! four origins, with bodies of 64 octets. One message in a hundred has not come to the one that
//! was away.

use crate::calls::{delta_of, take_delta};
use crate::page::Page;
use crate::stop::{Stop, unworked};
use crate::works::making::{self, add_put, add_take};
use crate::works::numbers::{Numbers, body};
use rep_model::{Replica, TakeFault};
use rep_ops::{ClientId, Delta, Op};
use rep_plain::Plain;
use sn_tables::QosLevel;

const CLIENTS: u16 = 1000;

const MESSAGES: u16 = 20;

const ORIGINS: u16 = 4;

/// The octets of a message's body.
const BODY: usize = 64;

/// The gateway that has all.
pub(crate) fn peer(page: &mut Page) -> Option<Plain> {
    let ops = operations(page, false);
    taken(page, ops)
}

/// The gateway that was away.
pub(crate) fn asker(page: &mut Page) -> Option<Plain> {
    let ops = operations(page, true);
    taken(page, ops)
}

/// A gateway that has taken these operations.
fn taken(page: &mut Page, ops: Vec<Op>) -> Option<Plain> {
    match delta_of(page.alloc(), ops) {
        Ok(delta) => {
            let replica = taker(page, &delta);
            drop(delta);
            replica
        }
        Err(fault) => {
            page.stop(unworked(&fault));
            None
        }
    }
}

/// A gateway that has taken this delta.
fn taker(page: &mut Page, delta: &Delta) -> Option<Plain> {
    match Plain::empty(page.alloc()) {
        Ok(replica) => {
            let mut replica = replica;
            take_all(page, &mut replica, delta);
            Some(replica)
        }
        Err(_) => {
            page.stop(Stop::Memory);
            None
        }
    }
}

/// A gateway takes a delta.
fn take_all(page: &mut Page, replica: &mut Plain, delta: &Delta) {
    match take_delta(page.alloc(), replica, delta) {
        Ok(()) => {}
        Err(TakeFault::Memory) => page.stop(Stop::Memory),
        Err(_) => page.stop(Stop::Work),
    }
}

/// All operations, or all but one message in a hundred.
fn operations(page: &mut Page, was_away: bool) -> Vec<Op> {
    let mut ops = Vec::new(page.alloc());
    for client in 0..CLIENTS {
        let taker = client_of(page, client);
        add_take(page, &mut ops, taker);
        add_puts(page, &mut ops, client, was_away && client % 5 == 0);
    }
    ops
}

/// The messages for the client, or all but one.
fn add_puts(page: &mut Page, ops: &mut Vec<Op>, client: u16, lacks_one: bool) {
    for message in 0..MESSAGES {
        if !lacks_one || message != 7 {
            add_message(page, ops, client, message);
        }
    }
}

/// The last decimal digit of a number.
fn digit(number: u16) -> u8 {
    b'0' + (number % 10) as u8
}

/// The client of this number.
fn client_of(page: &mut Page, number: u16) -> Option<ClientId> {
    making::client(
        page,
        &[digit(number / 100), digit(number / 10), digit(number)],
    )
}

/// A message for the client.
fn add_message(page: &mut Page, ops: &mut Vec<Op>, client: u16, message: u16) {
    let origin = 1 + (message % ORIGINS) as u8;
    let seq = 1 + u64::from(message / ORIGINS);
    let mask = (client.wrapping_add(message) % 256) as u8;
    let mut numbers = Numbers::new();
    let body = body(page, &mut numbers, BODY, mask);
    let put = making::put(page, (origin, seq), b"field/soil", QosLevel::one(), body);
    let client = client_of(page, client);
    add_put(page, ops, client, put);
}
