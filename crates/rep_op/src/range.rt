//! Whether the values of a session and of a change are in range.

ghost use Rattle.std.specs.Prelude.{◌≡◌};
ghost use Rattle.std.specs.List.{list_all};
ghost use Rattle.rep_op.specs.Ranges as spec;

use sn_session::{MAX_MESSAGE, Outbound, Session, SessionOp, Will, WillTopic};
use sn_tables::{Subscription, TopicEntry};
use sn_topic::is_topic_id;

/// Whether the values of a will are in range.
fn is_will(will: &Option<Will>) -> bool
    ensures { result ≡ spec.is_will will.now }
{
    match will {
        None => true,
        Some(will) => will.qos.number() <= 2 && will.message.len() <= MAX_MESSAGE,
    }
}

/// Whether the values of a will's topic are in range.
fn is_will_topic(asked: &Option<WillTopic>) -> bool
    ensures { result ≡ spec.is_will_topic asked.now }
{
    match asked {
        None => true,
        Some(asked) => asked.qos.number() <= 2,
    }
}

/// Whether the values of an exchange are in range.
fn is_exchange(exchange: &Option<Outbound>) -> bool
    ensures { result ≡ spec.is_exchange exchange.now }
{
    match exchange {
        None => true,
        Some(exchange) => exchange.origin >= 1 && exchange.seq >= 1,
    }
}

/// Whether no topic id is reserved.
fn are_topics(entries: &[TopicEntry]) -> bool
    ensures { result ≡ list_all spec.is_topic entries.now }
{
    entries.iter().all(|entry| is_topic_id(entry.id))
}

/// Whether the qualities of service of subscriptions are in range.
fn are_subscriptions(entries: &[Subscription]) -> bool
    ensures { result ≡ list_all spec.is_subscription entries.now }
{
    entries.iter().all(|entry| entry.qos.number() <= 2)
}

/// Whether the values of a session are in range.
fn is_session(session: &Session) -> bool
    ensures { result ≡ spec.is_session session.now }
{
    session.next_id >= 1
        && are_topics(session.topics.as_slice())
        && are_subscriptions(session.subscriptions.as_slice())
        && is_will(&session.will)
        && is_exchange(&session.outbound)
}

/// Whether the values of a change are in range.
pub fn is_change(change: &SessionOp) -> bool
    ensures { result ≡ spec.is_change change.now }
{
    match change {
        SessionOp::Take(session) => is_session(session),
        SessionOp::Register { id, .. } => is_topic_id(*id),
        SessionOp::Subscribe { qos, .. } => qos.number() <= 2,
        SessionOp::WillTopic(asked) => is_will_topic(asked),
        SessionOp::WillMsg(message) => message.len() <= MAX_MESSAGE,
        SessionOp::Outbound { exchange, next_id } => *next_id >= 1 && is_exchange(exchange),
        SessionOp::Presence { .. }
        | SessionOp::Unsubscribe { .. }
        | SessionOp::Received { .. }
        | SessionOp::Released { .. } => true,
    }
}
