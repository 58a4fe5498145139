//! Operations that are made up of a number. What stands under a name follows from the name, so that
//! no two contradict each other.

use crate::sets::calls;
use crate::sets::operations::{Messages, Said, add_ack, add_put, add_retain, add_session_op};
use crate::sets::stop::Stop;
use crate::sets::words::Words;
use rep_ops::{Delta, Op, OpsFault, Stamp};
use sn_session::{Presence, Session, SessionOp};
use sn_tables::QosLevel;
use std::alloc::Global;

/// The next of a sequence of numbers.
pub(crate) fn next(seed: u64) -> u64 {
    seed.wrapping_mul(6364136223846793005)
        .wrapping_add(1442695040888963407)
}

/// The name of a client by its number.
pub(crate) fn client(number: u64) -> [u8; 2] {
    [b'c', (number % 256) as u8]
}

/// Adds a session operation.
fn add_change(words: &mut Words<'_>, ops: &mut Vec<Op>, client: &[u8], number: u64) {
    let stamp = Stamp {
        epoch: number % 3 + 1,
        gateway: gateway(number),
    };
    let counter = (number / 16 % 5) as u8;
    let change = change(words.alloc, stamp, counter);
    add_session_op(words, ops, client, stamp, counter, change);
}

/// One of two gateways.
fn gateway(number: u64) -> u8 {
    (number / 4 % 2) as u8 + 1
}

/// What stands under a stamp and a counter.
fn change(alloc: Global, stamp: Stamp, counter: u8) -> SessionOp {
    if counter == 0 {
        let mut session = Session::empty(alloc);
        session.duration = (stamp.epoch % 100) as u16 * 10 + u16::from(stamp.gateway);
        return SessionOp::Take(session);
    }
    SessionOp::Presence {
        presence: Presence::Asleep,
        duration: u16::from(counter) * 7,
    }
}

/// Adds a message, or that the client has some.
fn add_message(words: &mut Words<'_>, ops: &mut Vec<Op>, client: &[u8], number: u64) {
    let (origin, seq) = ((number / 1024 % 2) as u8 + 1, number / 4096 % 9 + 1);
    if number / 64 % 9 == 7 {
        add_ack(words, ops, client, origin, seq, seq + number / 65536 % 3);
        return;
    }
    let messages = Messages {
        client,
        origin,
        topic: b"t",
        qos: QosLevel::one(),
        retain: false,
        expires: 0,
        body: b"x",
    };
    add_put(words, ops, &messages, seq);
}

/// Adds what is retained of a topic: under clock 3 nothing, which ends what was retained.
fn add_said(words: &mut Words<'_>, ops: &mut Vec<Op>, number: u64) {
    let (clock, gateway) = (number / 16 % 4 + 1, gateway(number));
    let octet = [gateway];
    let said = Said {
        clock,
        gateway,
        qos: QosLevel::one(),
        body: if clock == 3 { &[] } else { octet.as_slice() },
    };
    add_retain(words, ops, &[b't', (number % 3) as u8], &said);
}

/// Adds an operation.
fn add_made_up(words: &mut Words<'_>, ops: &mut Vec<Op>, number: u64) {
    let client = client(number / 7 % 3);
    match number / 64 % 9 {
        0..=3 => add_change(words, ops, &client, number / 1024),
        4..=7 => add_message(words, ops, &client, number),
        _ => add_said(words, ops, number / 1024),
    }
}

/// A delta of so many operations, where they make one.
pub(crate) fn delta(words: &mut Words<'_>, seed: u64, size: u64) -> Option<Delta> {
    let mut ops = Vec::new(words.alloc);
    let mut number = seed;
    for _ in 0..size {
        number = next(number);
        add_made_up(words, &mut ops, number / 65536);
    }
    match calls::delta_of(words.alloc, ops) {
        Ok(delta) => Some(delta),
        Err(fault) => refused(words, fault),
    }
}

/// There is no delta. If memory ran out, keeps that.
fn refused(words: &mut Words<'_>, fault: OpsFault) -> Option<Delta> {
    if matches!(fault, OpsFault::Memory) {
        words.fail(Stop::Memory);
    }
    None
}
