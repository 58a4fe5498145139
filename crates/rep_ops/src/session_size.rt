//! How many octets a session and a change are spelled in.

ghost use Rattle.std.specs.Prelude.{◌≡◌, ◌≤◌, length, IsTrue};
ghost use Rattle.byteorder.specs.Endian.{big_bytes};
ghost use Rattle.rep_op.specs.Ranges.{is_will, is_session, is_change};
ghost use Rattle.rep_op.specs.Sessions.{table_octets, option_octets, topic_octets, subscription_octets, session_will_octets, will_topic_octets, exchange_octets, session_octets, change_octets};

use sn_session::sn_tables::{Received, Subscriptions, Topics};
use sn_session::{Outbound, Session, SessionOp, Will, WillTopic};

/// How many octets topic ids are spelled in.
fn topics_size(topics: &Topics) -> usize
    ensures size { result ≡ length (table_octets topic_octets topics.now) }
    ensures small { result ≤ 66818 }
{
    let mut size = 2;
    for entry in topics.as_slice() {
        size += 5 + entry.name.bytes().len();
    }
    size
}

/// How many octets subscriptions are spelled in.
fn subscriptions_size(subscriptions: &Subscriptions) -> usize
    ensures size { result ≡ length (table_octets subscription_octets subscriptions.now) }
    ensures small { result ≤ 66306 }
{
    let mut size = 2;
    for entry in subscriptions.as_slice() {
        size += 3 + entry.filter.bytes().len();
    }
    size
}

/// How many octets received message ids are spelled in.
fn received_size(received: &Received) -> usize
    ensures size { result ≡ length (table_octets (big_bytes 2) received.now) }
    ensures small { result ≤ 514 }
{
    2 + 2 * received.len()
}

/// How many octets a will is spelled in.
fn will_size(will: &Option<Will>) -> usize
    requires { IsTrue (is_will will.now) }
    ensures size { result ≡ length (option_octets session_will_octets will.now) }
    ensures small { result ≤ 4359 }
{
    match will {
        None => 1,
        Some(will) => 7 + will.topic.bytes().len() + will.message.len(),
    }
}

/// How many octets a will's topic is spelled in.
fn will_topic_size(asked: &Option<WillTopic>) -> usize
    ensures size { result ≡ length (option_octets will_topic_octets asked.now) }
    ensures small { result ≤ 261 }
{
    match asked {
        None => 1,
        Some(asked) => 5 + asked.topic.bytes().len(),
    }
}

/// How many octets an exchange is spelled in.
fn exchange_size(exchange: &Option<Outbound>) -> usize
    ensures size { result ≡ length (option_octets exchange_octets exchange.now) }
    ensures small { result ≤ 13 }
{
    match exchange {
        None => 1,
        Some(_) => 13,
    }
}

/// How many octets a session is spelled in.
fn session_size(session: &Session) -> usize
    requires { IsTrue (is_session session.now) }
    ensures size { result ≡ length (session_octets session.now) }
    ensures small { result ≤ 138016 }
{
    let tables = topics_size(&session.topics) + subscriptions_size(&session.subscriptions);
    let rest = received_size(&session.received) + exchange_size(&session.outbound);
    6 + tables + will_size(&session.will) + rest
}

/// How many octets a change is spelled in.
pub fn change_size(change: &SessionOp) -> usize
    requires { IsTrue (is_change change.now) }
    ensures size { result ≡ length (change_octets change.now) }
    ensures small { result ≤ 138017 }
{
    match change {
        SessionOp::Take(session) => 1 + session_size(session),
        SessionOp::Presence { .. } => 4,
        SessionOp::Register { name, .. } => 6 + name.bytes().len(),
        SessionOp::Subscribe { filter, .. } => 4 + filter.bytes().len(),
        SessionOp::Unsubscribe { filter } => 3 + filter.bytes().len(),
        SessionOp::WillTopic(asked) => 1 + will_topic_size(asked),
        SessionOp::WillMsg(message) => 3 + message.len(),
        SessionOp::Received { .. } | SessionOp::Released { .. } => 3,
        SessionOp::Outbound { exchange, .. } => 3 + exchange_size(exchange),
    }
}
