//! Operations, sessions and views as lines.

use crate::sets::page::Page;
use crate::sets::values::{phase_word, presence_word};
use rep_model::ClientView;
use rep_ops::{ClientId, Delta, Op, Put, Retained, Stamp};
use sn_session::{Outbound, Session, SessionOp, Will, WillTopic};
use sn_tables::{QosLevel, Subscription, TopicEntry};
use sn_topic::TopicName;

/// The operations of a delta, after a line with their number.
pub(crate) fn print_delta(page: &mut Page, delta: &Delta) {
    let ops = delta.ops();
    if delta.is_empty() {
        page.line("empty delta");
    } else {
        page.counted("delta of", ops.len());
    }
    for op in ops {
        print_op(page, op);
    }
}

/// Deltas, after a line with their number.
pub(crate) fn print_deltas(page: &mut Page, what: &str, deltas: &[Delta]) {
    page.counted(what, deltas.len());
    for delta in deltas {
        print_delta(page, delta);
    }
}

/// The lines of an operation.
fn print_op(page: &mut Page, op: &Op) {
    match op {
        Op::Session {
            client,
            stamp,
            counter,
            change,
        } => print_session_op(page, client, *stamp, *counter, change),
        Op::Put { client, put } => print_put_op(page, client, put),
        Op::Ack {
            client,
            origin,
            first,
            last,
        } => print_ack(page, client, *origin, *first, *last),
        Op::Retain { topic, retained } => print_retained(page, topic, retained),
    }
}

/// The lines of a change of a client's session.
fn print_session_op(
    page: &mut Page,
    client: &ClientId,
    stamp: Stamp,
    counter: u8,
    change: &SessionOp,
) {
    page.word("op");
    page.octets(client.bytes());
    page.dotted(stamp.epoch, u64::from(stamp.gateway));
    page.word(counter);
    print_change(page, change);
}

/// The line of a message for a client.
fn print_put_op(page: &mut Page, client: &ClientId, put: &Put) {
    page.word("put");
    page.octets(client.bytes());
    print_put(page, put);
}

/// The rest of a message's line.
fn print_put(page: &mut Page, put: &Put) {
    page.dotted(u64::from(put.origin), put.seq);
    page.octets(put.topic.bytes());
    page.word(put.qos.number());
    page.octets(put.body.as_slice());
    if put.retain {
        page.word("retained");
    }
    print_moment(page, put.expires);
    page.end();
}

/// The moment from which on a message need not wait, if it has one.
fn print_moment(page: &mut Page, expires: u64) {
    if expires > 0 {
        page.word("expires");
        page.word(expires);
    }
}

/// The line of messages that a client has.
fn print_ack(page: &mut Page, client: &ClientId, origin: u8, first: u64, last: u64) {
    page.word("ack");
    page.octets(client.bytes());
    page.word(origin);
    page.word(first);
    page.word(last);
    page.end();
}

/// The line of what is retained of a topic.
pub(crate) fn print_retained(page: &mut Page, topic: &TopicName, retained: &Retained) {
    page.word("retain");
    page.octets(topic.bytes());
    page.dotted(retained.clock, u64::from(retained.gateway));
    page.word(retained.qos.number());
    page.octets(retained.body.as_slice());
    page.end();
}

/// The rest of the line of a change; the lines of a session after `take`.
fn print_change(page: &mut Page, change: &SessionOp) {
    match change {
        SessionOp::Take(session) => {
            page.line(" take");
            print_session(page, session);
        }
        SessionOp::Register { id, name, known } => {
            print_topic(page, "register", *id, name, *known);
        }
        SessionOp::Subscribe { filter, qos } => {
            print_filter(page, "subscribe", filter.bytes(), *qos);
        }
        SessionOp::Unsubscribe { filter } => page.named("unsubscribe", filter.bytes()),
        SessionOp::WillMsg(message) => page.named("message", message.as_slice()),
        _ => print_small_change(page, change),
    }
}

/// The rest of the line of a change of where a client is, of a will's topic, and of message ids.
fn print_small_change(page: &mut Page, change: &SessionOp) {
    match change {
        SessionOp::Presence { presence, duration } => {
            page.word("presence");
            page.counted(presence_word(*presence), *duration);
        }
        SessionOp::WillTopic(asked) => print_will_topic(page, asked),
        SessionOp::Received { id } => page.counted("received", *id),
        SessionOp::Released { id } => page.counted("released", *id),
        SessionOp::Outbound { exchange, next_id } => print_exchange(page, exchange, *next_id),
        _ => page.end(),
    }
}

/// A topic id after a word.
fn print_topic(page: &mut Page, what: &str, id: u16, name: &TopicName, known: bool) {
    page.labelled(what, id);
    page.octets(name.bytes());
    page.either(known, "known", "new");
    page.end();
}

/// A filter after a word.
fn print_filter(page: &mut Page, what: &str, filter: &[u8], qos: QosLevel) {
    page.word(what);
    page.octets(filter);
    page.word(qos.number());
    page.end();
}

/// A will's topic.
fn print_will_topic(page: &mut Page, asked: &Option<WillTopic>) {
    page.word("will");
    match asked {
        None => page.word("none"),
        Some(asked) => print_will_on(page, &asked.topic, asked.qos, asked.retain),
    }
    page.end();
}

/// A will's topic and quality of service, and whether it is to be retained.
fn print_will_on(page: &mut Page, topic: &TopicName, qos: QosLevel, retain: bool) {
    page.octets(topic.bytes());
    page.word(qos.number());
    page.either(retain, "retained", "fleeting");
}

/// An exchange and the id of the next.
fn print_exchange(page: &mut Page, exchange: &Option<Outbound>, next_id: u16) {
    page.word("exchange");
    match exchange {
        None => page.word("none"),
        Some(begun) => {
            page.dotted(u64::from(begun.origin), begun.seq);
            page.word(begun.msg_id);
            page.word(phase_word(begun.phase));
        }
    }
    page.word(next_id);
    page.end();
}

/// The lines of a session.
pub(crate) fn print_session(page: &mut Page, session: &Session) {
    print_place(page, session);
    print_topics(page, session.topics.as_slice());
    print_filters(page, session.subscriptions.as_slice());
    print_will(page, &session.will);
    print_received(page, session.received.as_slice());
    page.text("  ");
    print_exchange(page, &session.outbound, session.next_id);
}

/// Where the client of a session is, and how it connected.
fn print_place(page: &mut Page, session: &Session) {
    page.word("  session");
    page.word(presence_word(session.presence));
    page.either(session.clean, "clean", "kept");
    page.word(session.duration);
    page.end();
}

/// The topic ids of a session.
fn print_topics(page: &mut Page, topics: &[TopicEntry]) {
    for entry in topics {
        print_topic(page, "  topic", entry.id, &entry.name, entry.known);
    }
}

/// The subscriptions of a session.
fn print_filters(page: &mut Page, subscriptions: &[Subscription]) {
    for entry in subscriptions {
        print_filter(page, "  filter", entry.filter.bytes(), entry.qos);
    }
}

/// The will of a session, if it has one.
fn print_will(page: &mut Page, will: &Option<Will>) {
    if let Some(will) = will {
        page.word("  will");
        print_will_on(page, &will.topic, will.qos, will.retain);
        page.octets(will.message.as_slice());
        page.end();
    }
}

/// The message ids that a session has received.
fn print_received(page: &mut Page, ids: &[u16]) {
    for id in ids {
        page.counted("  received", *id);
    }
}

/// The lines of a view.
pub(crate) fn print_view(page: &mut Page, view: &ClientView) {
    print_stamp(page, view.stamp);
    page.counted("prefix", view.prefix);
    if let Some(session) = &view.session {
        print_session(page, session);
    }
    print_waiting(page, view.pending.as_slice());
}

/// The stamp of a view.
fn print_stamp(page: &mut Page, stamp: Option<Stamp>) {
    page.word("stamp");
    match stamp {
        None => page.word("none"),
        Some(stamp) => page.dotted(stamp.epoch, u64::from(stamp.gateway)),
    }
}

/// The messages that wait.
pub(crate) fn print_waiting(page: &mut Page, puts: &[Put]) {
    for put in puts {
        page.word("  put");
        print_put(page, put);
    }
}
