//! Lines that add operations. What these have in common is read first, borrowed from the line; each
//! operation is made of it, and added at once.

use crate::sets::changes::{last_change, taken};
use crate::sets::stop::Stop;
use crate::sets::words::Words;
use rep_ops::{Op, Put, Retained, Stamp};
use sn_session::{Session, SessionOp};
use sn_tables::QosLevel;
use sn_topic::TopicName;

/// Messages for a client that are the same but for their numbers.
#[derive(Clone, Copy)]
pub(crate) struct Messages<'a> {
    pub(crate) client: &'a [u8],
    pub(crate) origin: u8,
    pub(crate) topic: &'a [u8],
    pub(crate) qos: QosLevel,
    pub(crate) retain: bool,
    pub(crate) expires: u64,
    pub(crate) body: &'a [u8],
}

/// What is retained of one topic or several.
#[derive(Clone, Copy)]
pub(crate) struct Said<'a> {
    pub(crate) clock: u64,
    pub(crate) gateway: u8,
    pub(crate) qos: QosLevel,
    pub(crate) body: &'a [u8],
}

/// Plays a line that adds changes of sessions; leaves all others to the lines about messages.
pub(crate) fn play(words: &mut Words<'_>, session: &Session, ops: &mut Vec<Op>) {
    match words.first {
        "op" => session_op(words, session, ops),
        "ops" => session_ops(words, session, ops),
        "takes" => takes(words, session, ops),
        _ => play_messages(words, ops),
    }
}

/// Plays a line that adds messages, or that clients have them, or what is retained of topics.
fn play_messages(words: &mut Words<'_>, ops: &mut Vec<Op>) {
    match words.first {
        "put" => put(words, ops),
        "puts" => puts(words, ops),
        "ack" => ack(words, ops),
        "acks" => acks(words, ops),
        "retain" => retain(words, ops),
        _ => retains(words, ops),
    }
}

/// Adds an operation.
fn push(words: &mut Words<'_>, ops: &mut Vec<Op>, op: Op) {
    let pushed = ops.push(op);
    let is_short = pushed.is_err();
    drop(pushed);
    if is_short {
        words.fail(Stop::Memory);
    }
}

/// `op CLIENT EPOCH.GATEWAY COUNTER CHANGE`: a change of a session.
fn session_op(words: &mut Words<'_>, session: &Session, ops: &mut Vec<Op>) {
    let name = words.octets();
    let (stamp, counter) = (words.stamp(), words.octet());
    add_read(words, session, ops, name, stamp, (counter, counter));
}

/// `ops CLIENT EPOCH.GATEWAY FIRST LAST CHANGE`: the same change under each counter from the first
/// to the last.
fn session_ops(words: &mut Words<'_>, session: &Session, ops: &mut Vec<Op>) {
    let name = words.octets();
    let (stamp, first, last) = (words.stamp(), words.octet(), words.octet());
    add_read(words, session, ops, name, stamp, (first, last));
}

/// Adds the change that the other words say, under these counters.
fn add_read(
    words: &mut Words<'_>,
    session: &Session,
    ops: &mut Vec<Op>,
    name: &[u8],
    stamp: Stamp,
    counters: (u8, u8),
) {
    if let Some(change) = last_change(words, session) {
        add_changes(words, ops, name, stamp, counters, &change);
        drop(change);
    }
}

/// Adds a change under each counter from a first to a last.
fn add_changes(
    words: &mut Words<'_>,
    ops: &mut Vec<Op>,
    name: &[u8],
    stamp: Stamp,
    (first, last): (u8, u8),
    change: &SessionOp,
) {
    for counter in first..=last {
        add_change(words, ops, name, stamp, counter, change);
    }
}

/// Adds a change of a session under a counter.
fn add_change(
    words: &mut Words<'_>,
    ops: &mut Vec<Op>,
    name: &[u8],
    stamp: Stamp,
    counter: u8,
    change: &SessionOp,
) {
    match change.copied(words.alloc) {
        Ok(change) => add_session_op(words, ops, name, stamp, counter, change),
        Err(_) => words.fail(Stop::Memory),
    }
}

/// Adds a change of a session under a counter.
pub(crate) fn add_session_op(
    words: &mut Words<'_>,
    ops: &mut Vec<Op>,
    name: &[u8],
    stamp: Stamp,
    counter: u8,
    change: SessionOp,
) {
    match words.client_of(name) {
        Some(client) => {
            let op = Op::Session {
                client,
                stamp,
                counter,
                change,
            };
            push(words, ops, op);
        }
        None => drop(change),
    }
}

/// `put CLIENT ORIGIN.NUMBER TOPIC QOS BODY`, or with `retained`, `expires SECOND` or both after: a
/// message for a client.
fn put(words: &mut Words<'_>, ops: &mut Vec<Op>) {
    let client = words.octets();
    let (origin, seq) = words.message_number();
    let messages = Messages {
        client,
        origin,
        topic: words.octets(),
        qos: words.level(),
        body: words.octets(),
        retain: words.takes("retained"),
        expires: moment(words),
    };
    if words.end() {
        add_put(words, ops, &messages, seq);
    }
}

/// The moment from which on a message need not wait; 0 if the line says none.
fn moment(words: &mut Words<'_>) -> u64 {
    if words.takes("expires") {
        words.number()
    } else {
        0
    }
}

/// `puts CLIENT ORIGIN FIRST LAST TOPIC QOS SIZE`: messages of so many octets, each the letter `a`.
fn puts(words: &mut Words<'_>, ops: &mut Vec<Op>) {
    let (client, origin) = (words.octets(), words.octet());
    let (first, last) = (words.number(), words.number());
    let (topic, qos, letters) = (words.octets(), words.level(), words.letters());
    let messages = Messages {
        client,
        origin,
        topic,
        qos,
        body: letters.as_slice(),
        retain: false,
        expires: 0,
    };
    add_puts(words, ops, &messages, first, last);
    drop(letters);
}

/// Adds messages from a first number to a last, if the words of the line were right.
fn add_puts(
    words: &mut Words<'_>,
    ops: &mut Vec<Op>,
    messages: &Messages<'_>,
    first: u64,
    last: u64,
) {
    if words.end() {
        for seq in first..=last {
            add_put(words, ops, messages, seq);
        }
    }
}

/// Adds a message of this number.
pub(crate) fn add_put(words: &mut Words<'_>, ops: &mut Vec<Op>, messages: &Messages<'_>, seq: u64) {
    if let Some(topic) = words.topic_of(messages.topic) {
        add_put_on(words, ops, messages, seq, topic);
    }
}

/// Adds a message of this number on a topic.
fn add_put_on(
    words: &mut Words<'_>,
    ops: &mut Vec<Op>,
    messages: &Messages<'_>,
    seq: u64,
    topic: TopicName,
) {
    match words.message_of(messages.body) {
        Some(body) => {
            let put = Put {
                origin: messages.origin,
                seq,
                topic,
                qos: messages.qos,
                retain: messages.retain,
                expires: messages.expires,
                body,
            };
            add_put_for(words, ops, messages.client, put);
        }
        None => drop(topic),
    }
}

/// Adds a message for a client.
fn add_put_for(words: &mut Words<'_>, ops: &mut Vec<Op>, name: &[u8], put: Put) {
    match words.client_of(name) {
        Some(client) => push(words, ops, Op::Put { client, put }),
        None => drop(put),
    }
}

/// `ack CLIENT ORIGIN FIRST LAST`: messages that a client has.
fn ack(words: &mut Words<'_>, ops: &mut Vec<Op>) {
    let (name, origin) = (words.octets(), words.octet());
    let (first, last) = (words.number(), words.number());
    if words.end() {
        add_ack(words, ops, name, origin, first, last);
    }
}

/// Adds that a client has messages.
pub(crate) fn add_ack(
    words: &mut Words<'_>,
    ops: &mut Vec<Op>,
    name: &[u8],
    origin: u8,
    first: u64,
    last: u64,
) {
    if let Some(client) = words.client_of(name) {
        let op = Op::Ack {
            client,
            origin,
            first,
            last,
        };
        push(words, ops, op);
    }
}

/// `retain TOPIC CLOCK.GATEWAY QOS BODY`: what is retained of a topic.
fn retain(words: &mut Words<'_>, ops: &mut Vec<Op>) {
    let topic = words.octets();
    let (clock, gateway) = words.clock();
    let said = Said {
        clock,
        gateway,
        qos: words.level(),
        body: words.octets(),
    };
    if words.end() {
        add_retain(words, ops, topic, &said);
    }
}

/// `retains FIRST LAST CLOCK.GATEWAY QOS SIZE`: of so many topics so many octets, each the letter
/// `a`. A topic's name is its number in four hexadecimal digits.
fn retains(words: &mut Words<'_>, ops: &mut Vec<Op>) {
    let (first, last) = (words.small_number(), words.small_number());
    let (clock, gateway) = words.clock();
    let (qos, letters) = (words.level(), words.letters());
    let said = Said {
        clock,
        gateway,
        qos,
        body: letters.as_slice(),
    };
    add_retains(words, ops, first, last, &said);
    drop(letters);
}

/// Adds what is retained of the topics from a first number to a last, if the words of the line were
/// right.
fn add_retains(words: &mut Words<'_>, ops: &mut Vec<Op>, first: u16, last: u16, said: &Said<'_>) {
    if words.end() {
        for number in first..=last {
            add_numbered(words, ops, number, said);
        }
    }
}

/// Adds what is retained of the topic of a number.
fn add_numbered(words: &mut Words<'_>, ops: &mut Vec<Op>, number: u16, said: &Said<'_>) {
    match hex::encode(words.alloc, number.to_be_bytes().as_slice()) {
        Ok(name) => {
            add_retain(words, ops, name.as_bytes(), said);
            drop(name);
        }
        Err(_) => words.fail(Stop::Memory),
    }
}

/// Adds what is retained of a topic.
pub(crate) fn add_retain(words: &mut Words<'_>, ops: &mut Vec<Op>, topic: &[u8], said: &Said<'_>) {
    if let Some(body) = words.message_of(said.body) {
        let retained = Retained {
            clock: said.clock,
            gateway: said.gateway,
            qos: said.qos,
            body,
        };
        add_retained(words, ops, topic, retained);
    }
}

/// Adds what is retained of a topic.
fn add_retained(words: &mut Words<'_>, ops: &mut Vec<Op>, topic: &[u8], retained: Retained) {
    match words.topic_of(topic) {
        Some(topic) => push(words, ops, Op::Retain { topic, retained }),
        None => drop(retained),
    }
}

/// `acks COUNT`: so many clients have message 1 of gateway 1. A client's name is its number from 0
/// on in two octets.
fn acks(words: &mut Words<'_>, ops: &mut Vec<Op>) {
    let clients = words.small_number();
    if words.end() {
        for number in 0..clients {
            add_ack(words, ops, number.to_be_bytes().as_slice(), 1, 1, 1);
        }
    }
}

/// `takes COUNT`: so many clients are taken by gateway 1 with the row's session, in epoch 1. Their
/// names are those of `acks`.
fn takes(words: &mut Words<'_>, session: &Session, ops: &mut Vec<Op>) {
    let clients = words.small_number();
    if words.end() {
        for number in 0..clients {
            add_take(words, session, ops, number);
        }
    }
}

/// Adds that the client of a number is taken.
fn add_take(words: &mut Words<'_>, session: &Session, ops: &mut Vec<Op>, number: u16) {
    let stamp = Stamp {
        epoch: 1,
        gateway: 1,
    };
    if let Some(change) = taken(words, session) {
        let name = number.to_be_bytes();
        add_session_op(words, ops, &name, stamp, 0, change);
    }
}
