//! Changes of a session as words of a line.

use crate::sets::stop::Stop;
use crate::sets::values::{phase, presence};
use crate::sets::words::{Words, octets_of};
use sn_session::{Outbound, Session, SessionOp, WillTopic};

/// The change that the words say, if all were right, and none is left; `take` holds the session that
/// was described.
pub(crate) fn last_change(words: &mut Words<'_>, session: &Session) -> Option<SessionOp> {
    let change = change(words, session);
    if words.end() {
        change
    } else {
        drop(change);
        None
    }
}

/// The change that the words say.
fn change(words: &mut Words<'_>, session: &Session) -> Option<SessionOp> {
    match words.word() {
        "take" => taken(words, session),
        "presence" => Some(SessionOp::Presence {
            presence: presence(words),
            duration: words.small_number(),
        }),
        "register" => registered(words),
        "subscribe" => subscribed(words),
        "unsubscribe" => unsubscribed(words),
        other => later_change(words, other),
    }
}

/// Wills, ids that were received, exchanges.
fn later_change(words: &mut Words<'_>, first: &str) -> Option<SessionOp> {
    match first {
        "will" => will_topic(words),
        "message" => will_message(words),
        "received" => Some(SessionOp::Received {
            id: words.small_number(),
        }),
        "released" => Some(SessionOp::Released {
            id: words.small_number(),
        }),
        "exchange" => Some(exchange(words)),
        _ => {
            words.fail(Stop::Line);
            None
        }
    }
}

/// A gateway takes the client over.
pub(crate) fn taken(words: &mut Words<'_>, session: &Session) -> Option<SessionOp> {
    match session.copied(words.alloc) {
        Ok(copy) => Some(SessionOp::Take(copy)),
        Err(_) => {
            words.fail(Stop::Memory);
            None
        }
    }
}

/// `register ID NAME known` or `new`
fn registered(words: &mut Words<'_>) -> Option<SessionOp> {
    let (id, name) = (words.small_number(), words.octets());
    let known = words.one_of("new known") == 1;
    match words.topic_of(name) {
        Some(name) => Some(SessionOp::Register { id, name, known }),
        None => None,
    }
}

/// `subscribe FILTER QOS`
fn subscribed(words: &mut Words<'_>) -> Option<SessionOp> {
    let (filter, qos) = (words.octets(), words.level());
    match words.filter_of(filter) {
        Some(filter) => Some(SessionOp::Subscribe { filter, qos }),
        None => None,
    }
}

/// `unsubscribe FILTER`
fn unsubscribed(words: &mut Words<'_>) -> Option<SessionOp> {
    let filter = words.octets();
    match words.filter_of(filter) {
        Some(filter) => Some(SessionOp::Unsubscribe { filter }),
        None => None,
    }
}

/// `will none`, or `will TOPIC QOS retained` or `fleeting`
fn will_topic(words: &mut Words<'_>) -> Option<SessionOp> {
    let name = words.word();
    if name == "none" && words.left() == 0 {
        return Some(SessionOp::WillTopic(None));
    }
    match will_on(words, octets_of(name)) {
        Some(will) => Some(SessionOp::WillTopic(Some(will))),
        None => None,
    }
}

/// A will's topic.
fn will_on(words: &mut Words<'_>, name: &[u8]) -> Option<WillTopic> {
    let qos = words.level();
    let retain = words.one_of("fleeting retained") == 1;
    match words.topic_of(name) {
        Some(topic) => Some(WillTopic { topic, qos, retain }),
        None => None,
    }
}

/// `message BODY`
fn will_message(words: &mut Words<'_>) -> Option<SessionOp> {
    let body = words.octets();
    match words.message_of(body) {
        Some(message) => Some(SessionOp::WillMsg(message)),
        None => None,
    }
}

/// `exchange none NEXT`, or `exchange ORIGIN.NUMBER ID PHASE NEXT`
fn exchange(words: &mut Words<'_>) -> SessionOp {
    SessionOp::Outbound {
        exchange: begun(words),
        next_id: words.small_number(),
    }
}

/// The exchange that was begun, if any.
fn begun(words: &mut Words<'_>) -> Option<Outbound> {
    let message = words.word();
    if message == "none" {
        return None;
    }
    let (origin, seq) = words.message_number_of(message);
    Some(Outbound {
        origin,
        seq,
        msg_id: words.small_number(),
        phase: phase(words),
    })
}
