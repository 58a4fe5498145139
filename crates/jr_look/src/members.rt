//! Operations and sessions as JSON.

use crate::changes::presence_word;
use crate::clients::phase_word;
use crate::page::Page;
use rep_ops::{Op, Put, Retained, Stamp};
use sn_session::{Outbound, Presence, Session, SessionOp, Will, WillTopic};
use sn_tables::QosLevel;

/// An operation, as an item of a list.
pub(crate) fn operation(page: &mut Page, op: &Op) {
    page.item("{");
    if op.is_of_client() {
        page.quoted("\"client\":", op.client().bytes());
        page.text(",");
    }
    members(page, op);
    page.text("}");
}

/// The members of an operation after its client, if it has one.
fn members(page: &mut Page, op: &Op) {
    match op {
        Op::Session {
            stamp,
            counter,
            change,
            ..
        } => {
            stamped(page, stamp, *counter);
            session_change(page, change);
        }
        Op::Put { put, .. } => {
            page.text("\"change\":\"put\",");
            waiting(page, put);
        }
        Op::Ack {
            origin,
            first,
            last,
            ..
        } => acknowledged(page, *origin, *first, *last),
        Op::Retain { topic, retained } => {
            page.quoted("\"topic\":", topic.bytes());
            page.text(",\"change\":\"retain\",");
            kept(page, retained);
        }
    }
}

/// The stamp of a session's change, and which change it is.
fn stamped(page: &mut Page, stamp: &Stamp, counter: u8) {
    page.value("\"epoch\":", stamp.epoch);
    page.value(",\"gateway\":", stamp.gateway);
    page.value(",\"counter\":", counter);
    page.text(",\"change\":");
}

/// The members of an acknowledgement.
fn acknowledged(page: &mut Page, origin: u8, first: u64, last: u64) {
    page.value("\"change\":\"ack\",\"origin\":", origin);
    page.value(",\"first\":", first);
    page.value(",\"last\":", last);
}

/// The members of what is retained of a topic.
pub(crate) fn kept(page: &mut Page, retained: &Retained) {
    page.value("\"clock\":", retained.clock);
    page.value(",\"gateway\":", retained.gateway);
    page.value(",\"qos\":", retained.qos.number());
    page.quoted(",\"body\":", retained.body.as_slice());
}

/// The members of a message that waits.
pub(crate) fn waiting(page: &mut Page, put: &Put) {
    page.value("\"origin\":", put.origin);
    page.value(",\"seq\":", put.seq);
    page.quoted(",\"topic\":", put.topic.bytes());
    page.value(",\"qos\":", put.qos.number());
    page.quoted(",\"body\":", put.body.as_slice());
    if put.retain {
        page.text(",\"retain\":true");
    }
    if put.expires > 0 {
        page.value(",\"expires\":", put.expires);
    }
}

/// A session's change, and its members.
fn session_change(page: &mut Page, change: &SessionOp) {
    match change {
        SessionOp::Take(taken) => {
            page.text("\"take\",");
            session_of(page, taken);
        }
        SessionOp::Presence { presence, duration } => moved(page, *presence, *duration),
        SessionOp::Register { id, name, known } => {
            page.text("\"register\",");
            registered(page, *id, name.bytes(), *known);
        }
        SessionOp::Subscribe { filter, qos } => {
            page.text("\"subscribe\",");
            subscribed(page, filter.bytes(), *qos);
        }
        SessionOp::Unsubscribe { filter } => {
            page.quoted("\"unsubscribe\",\"filter\":", filter.bytes());
        }
        SessionOp::WillTopic(topic) => will_topic(page, topic),
        SessionOp::WillMsg(message) => {
            page.quoted("\"will_message\",\"message\":", message.as_slice());
        }
        SessionOp::Received { id } => page.value("\"received\",\"id\":", *id),
        SessionOp::Released { id } => page.value("\"released\",\"id\":", *id),
        SessionOp::Outbound { exchange, next_id } => outbound(page, exchange, *next_id),
    }
}

/// The client is elsewhere.
fn moved(page: &mut Page, presence: Presence, duration: u16) {
    page.word("\"presence\",\"presence\":\"", presence_word(presence));
    page.value("\",\"duration\":", duration);
}

/// The members of a topic id.
fn registered(page: &mut Page, id: u16, topic: &[u8], known: bool) {
    page.value("\"id\":", id);
    page.quoted(",\"topic\":", topic);
    page.value(",\"known\":", known);
}

/// The members of a subscription.
fn subscribed(page: &mut Page, filter: &[u8], qos: QosLevel) {
    page.quoted("\"filter\":", filter);
    page.value(",\"qos\":", qos.number());
}

/// The will has another topic.
fn will_topic(page: &mut Page, topic: &Option<WillTopic>) {
    match topic {
        None => page.text("\"will_topic\",\"topic\":null"),
        Some(told) => {
            page.text("\"will_topic\",");
            under(page, told.topic.bytes(), told.qos, told.retain);
        }
    }
}

/// Under which topic a will is published, and how.
fn under(page: &mut Page, topic: &[u8], qos: QosLevel, retain: bool) {
    page.quoted("\"topic\":", topic);
    page.value(",\"qos\":", qos.number());
    page.value(",\"retain\":", retain);
}

/// The exchange goes on, or is over.
fn outbound(page: &mut Page, begun: &Option<Outbound>, next_id: u16) {
    page.text("\"exchange\"");
    exchange(page, begun);
    page.value(",\"next_id\":", next_id);
}

/// The member of an exchange.
fn exchange(page: &mut Page, begun: &Option<Outbound>) {
    match begun {
        None => page.text(",\"exchange\":null"),
        Some(outbound) => {
            page.value(",\"exchange\":{\"origin\":", outbound.origin);
            page.value(",\"seq\":", outbound.seq);
            page.value(",\"id\":", outbound.msg_id);
            page.word(",\"phase\":\"", phase_word(outbound.phase));
            page.text("\"}");
        }
    }
}

/// The member of a session.
pub(crate) fn session_of(page: &mut Page, seen: &Session) {
    standing(page, seen);
    topics(page, seen);
    subscriptions(page, seen);
    will(page, &seen.will);
    received(page, seen);
    exchange(page, &seen.outbound);
    page.text("}");
}

/// The begin of a session: where its client is.
fn standing(page: &mut Page, seen: &Session) {
    page.word("\"session\":{\"presence\":\"", presence_word(seen.presence));
    page.value("\",\"clean\":", seen.clean);
    page.value(",\"duration\":", seen.duration);
    page.value(",\"next_id\":", seen.next_id);
}

/// The topic ids of a session.
fn topics(page: &mut Page, seen: &Session) {
    page.begin(",\"topics\":[");
    for entry in seen.topics.as_slice() {
        page.item("{");
        registered(page, entry.id, entry.name.bytes(), entry.known);
        page.text("}");
    }
    page.end();
}

/// The subscriptions of a session.
fn subscriptions(page: &mut Page, seen: &Session) {
    page.begin(",\"subscriptions\":[");
    for entry in seen.subscriptions.as_slice() {
        page.item("{");
        subscribed(page, entry.filter.bytes(), entry.qos);
        page.text("}");
    }
    page.end();
}

/// The member of a will.
fn will(page: &mut Page, told: &Option<Will>) {
    match told {
        None => page.text(",\"will\":null"),
        Some(told) => {
            page.text(",\"will\":{");
            under(page, told.topic.bytes(), told.qos, told.retain);
            page.quoted(",\"message\":", told.message.as_slice());
            page.text("}");
        }
    }
}

/// The message ids that were received.
fn received(page: &mut Page, seen: &Session) {
    page.begin(",\"received\":[");
    for id in seen.received.as_slice() {
        page.item("");
        page.value("", *id);
    }
    page.end();
}
