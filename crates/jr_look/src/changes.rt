//! Operations in words.

use crate::clients::{exchange, session, will};
use crate::page::Page;
use rep_ops::{Op, Put, Retained, Stamp};
use sn_session::{Outbound, Presence, Session, SessionOp, WillTopic};
use sn_tables::QosLevel;

/// The lines of an operation.
pub(crate) fn operation(page: &mut Page, op: &Op) {
    if op.is_of_client() {
        page.name("  client ", op.client().bytes());
        page.text(" ");
    } else {
        page.text("  ");
    }
    operation_of(page, op);
}

/// The lines of an operation after its client, if it has one.
fn operation_of(page: &mut Page, op: &Op) {
    match op {
        Op::Session {
            stamp,
            counter,
            change,
            ..
        } => {
            stamped(page, stamp, *counter);
            session_change(page, change);
        }
        Op::Put { put, .. } => waiting(page, put),
        Op::Ack {
            origin,
            first,
            last,
            ..
        } => acknowledged(page, *origin, *first, *last),
        Op::Retain { topic, retained } => retains(page, topic.bytes(), retained),
    }
}

/// The stamp of a session's change, and which change it is.
fn stamped(page: &mut Page, stamp: &Stamp, counter: u8) {
    page.value("stamp ", stamp.epoch);
    page.value(".", stamp.gateway);
    page.value(" change ", counter);
    page.text(": ");
}

/// The rest of the line of an acknowledgement.
fn acknowledged(page: &mut Page, origin: u8, first: u64, last: u64) {
    page.value("has messages ", first);
    page.value(" to ", last);
    page.value(" of gateway ", origin);
    page.text("\n");
}

/// The line of what is retained of a topic.
pub(crate) fn retains(page: &mut Page, topic: &[u8], retained: &Retained) {
    page.name("topic ", topic);
    page.value(" retained under clock ", retained.clock);
    page.value(".", retained.gateway);
    page.value(": qos ", retained.qos.number());
    page.body(", ", retained.body.as_slice());
    page.text("\n");
}

/// The rest of the line of a message that waits.
pub(crate) fn waiting(page: &mut Page, put: &Put) {
    page.value("waits for message ", put.seq);
    page.value(" of gateway ", put.origin);
    page.name(": ", put.topic.bytes());
    page.value(" qos ", put.qos.number());
    page.body(", ", put.body.as_slice());
    page.text(if put.retain { ", retained" } else { "" });
    if put.expires > 0 {
        page.value(", expires ", put.expires);
    }
    page.text("\n");
}

/// The rest of the line of a session's change.
fn session_change(page: &mut Page, change: &SessionOp) {
    match change {
        SessionOp::Take(taken) => taken_over(page, taken),
        SessionOp::Presence { presence, duration } => moved(page, *presence, *duration),
        SessionOp::Register { id, name, known } => registered(page, *id, name.bytes(), *known),
        SessionOp::Subscribe { filter, qos } => subscribed(page, filter.bytes(), *qos),
        SessionOp::Unsubscribe { filter } => unsubscribed(page, filter.bytes()),
        SessionOp::WillTopic(topic) => will_topic(page, topic),
        SessionOp::WillMsg(message) => will_message(page, message.as_slice()),
        SessionOp::Received { id } => message_id(page, *id, "received"),
        SessionOp::Released { id } => message_id(page, *id, "released"),
        SessionOp::Outbound { exchange, next_id } => exchange_line(page, exchange, *next_id),
    }
}

/// The client has a gateway that gives it this session.
fn taken_over(page: &mut Page, taken: &Session) {
    page.text("taken over as ");
    session(page, taken);
}

/// The client is elsewhere.
fn moved(page: &mut Page, presence: Presence, duration: u16) {
    page.text(presence_word(presence));
    page.value(", ", duration);
    page.text(" seconds\n");
}

/// Where the client is.
pub(crate) fn presence_word(presence: Presence) -> &'static str {
    match presence {
        Presence::Active => "active",
        Presence::Asleep => "asleep",
        Presence::Awake => "awake",
        Presence::Disconnected => "disconnected",
        Presence::Lost => "lost",
    }
}

/// An id stands for a topic.
pub(crate) fn registered(page: &mut Page, id: u16, topic: &[u8], known: bool) {
    page.value("topic id ", id);
    page.name(" is ", topic);
    page.text(if known {
        ", known to the client\n"
    } else {
        ", not known to the client\n"
    });
}

/// The client asks for topics.
pub(crate) fn subscribed(page: &mut Page, filter: &[u8], qos: QosLevel) {
    page.name("subscribed to ", filter);
    page.value(" qos ", qos.number());
    page.text("\n");
}

/// The client no longer asks for topics.
fn unsubscribed(page: &mut Page, filter: &[u8]) {
    page.name("no longer subscribed to ", filter);
    page.text("\n");
}

/// The will has another topic.
fn will_topic(page: &mut Page, topic: &Option<WillTopic>) {
    match topic {
        None => page.text("no will\n"),
        Some(topic) => will(page, topic.topic.bytes(), topic.qos, topic.retain),
    }
}

/// The will has another message.
pub(crate) fn will_message(page: &mut Page, message: &[u8]) {
    page.body("the will's message is ", message);
    page.text("\n");
}

/// What was done with a message id.
fn message_id(page: &mut Page, id: u16, done: &str) {
    page.value("message id ", id);
    page.word(" was ", done);
    page.text("\n");
}

/// The exchange goes on, or is over.
fn exchange_line(page: &mut Page, begun: &Option<Outbound>, next_id: u16) {
    match begun {
        None => page.text("no exchange"),
        Some(outbound) => exchange(page, outbound),
    }
    page.value(", the next message id is ", next_id);
    page.text("\n");
}
