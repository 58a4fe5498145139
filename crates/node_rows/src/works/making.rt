//! Operations that put clients and messages there.

use crate::page::Page;
use crate::stop::Stop;
use octets::Octets;
use rep_ops::{ClientId, Op, Put, Stamp};
use sn_session::{Message, Session, SessionOp};
use sn_tables::QosLevel;
use sn_topic::TopicName;
use std::alloc::Global;

/// The stamp of every session.
pub(crate) const STAMP: Stamp = Stamp {
    epoch: 1,
    gateway: 1,
};

/// The client whose name ends with these digits.
pub(crate) fn client(page: &mut Page, digits: &[u8]) -> Option<ClientId> {
    let mut name = Vec::new(page.alloc());
    page.add(&mut name, b"sensor-");
    page.add(&mut name, digits);
    let client = named(page, &name);
    drop(name);
    client
}

/// The client of this name; nothing if memory ran out.
fn named(page: &mut Page, name: &[u8]) -> Option<ClientId> {
    match ClientId::new(page.alloc(), name) {
        Ok(client) => Some(client),
        Err(_) => {
            page.stop(Stop::Memory);
            None
        }
    }
}

/// Puts the beginning of a client's session after the operations that are there.
pub(crate) fn add_take(page: &mut Page, ops: &mut Vec<Op>, client: Option<ClientId>) {
    match client {
        Some(client) => {
            let op = take(page.alloc(), client);
            push(page, ops, op);
        }
        None => {}
    }
}

/// A session of 60 seconds begins.
fn take(alloc: Global, client: ClientId) -> Op {
    let mut session = Session::empty(alloc);
    session.duration = 60;
    Op::Session {
        client,
        stamp: STAMP,
        counter: 0,
        change: SessionOp::Take(session),
    }
}

/// A message on a topic, with this body; nothing if memory ran out.
pub(crate) fn put(
    page: &mut Page,
    (origin, seq): (u8, u64),
    topic: &[u8],
    qos: QosLevel,
    body: Vec<u8>,
) -> Option<Put> {
    match message(body) {
        Some(body) => put_of(page, (origin, seq), topic, qos, body),
        None => {
            page.stop(Stop::Memory);
            None
        }
    }
}

/// A message of these octets; nothing if memory ran out.
fn message(octets: Vec<u8>) -> Option<Message> {
    match Octets::new(octets) {
        Ok(octets) => Message::new(octets),
        Err(_) => None,
    }
}

/// The message on a topic; nothing if memory ran out.
fn put_of(
    page: &mut Page,
    (origin, seq): (u8, u64),
    topic: &[u8],
    qos: QosLevel,
    body: Message,
) -> Option<Put> {
    match TopicName::new(page.alloc(), topic) {
        Ok(topic) => Some(Put {
            origin,
            seq,
            topic,
            qos,
            retain: false,
            expires: 0,
            body,
        }),
        Err(_) => {
            drop(body);
            page.stop(Stop::Memory);
            None
        }
    }
}

/// Puts a message for a client after the operations that are there, unless memory ran out.
pub(crate) fn add_put(
    page: &mut Page,
    ops: &mut Vec<Op>,
    client: Option<ClientId>,
    put: Option<Put>,
) {
    match client {
        Some(client) => add_put_for(page, ops, client, put),
        None => drop(put),
    }
}

/// Puts a message for this client after the operations that are there, unless memory ran out.
fn add_put_for(page: &mut Page, ops: &mut Vec<Op>, client: ClientId, put: Option<Put>) {
    match put {
        Some(put) => push(page, ops, Op::Put { client, put }),
        None => drop(client),
    }
}

/// Puts an operation after those that are there.
pub(crate) fn push(page: &mut Page, ops: &mut Vec<Op>, op: Op) {
    let pushed = ops.push(op);
    let is_short = pushed.is_err();
    drop(pushed);
    page.stop_if_short(is_short);
}
