//! What the types of an operation promise of its parts.

ghost use Rattle.std.specs.Prelude.{◌<◌, ◌^◌};
ghost use Rattle.std.specs.List.{AllByRecursion};
ghost use Rattle.rep_op.specs.Values.{IsEntryValue, IsSubscriptionValue, IsWillValue, IsWillTopicValue, IsExchangeValue, IsSessionValue, IsChangeValue, IsOpValue};

use super::op::{Op, Put, Retained};
use sn_session::{Outbound, Session, SessionOp, Will, WillTopic};
use sn_tables::{Subscription, TopicEntry};

/// What the types of a topic id promise.
fn entry_is_value(entry: &TopicEntry)
    ensures { IsEntryValue entry.now }
{
    let TopicEntry { id, name, .. } = entry;
    let _id = *id;
    let _name = name.bytes();
}

/// What the types of a subscription promise.
fn subscription_is_value(subscription: &Subscription)
    ensures { IsSubscriptionValue subscription.now }
{
    let _filter = subscription.filter.bytes();
}

/// What the types of topic ids promise.
fn entries_are_values(entries: &[TopicEntry])
    ensures { AllByRecursion IsEntryValue entries.now }
{
    for entry in entries {
        entry_is_value(entry);
    }
}

/// What the types of subscriptions promise.
fn subscriptions_are_values(entries: &[Subscription])
    ensures { AllByRecursion IsSubscriptionValue entries.now }
{
    for entry in entries {
        subscription_is_value(entry);
    }
}

/// What the type of message ids promises.
fn ids_are_values(ids: &[u16])
    ensures { AllByRecursion (λ id. id < 2 ^ 16) ids.now }
{
    for id in ids {
        let _id = *id;
    }
}

/// What the types of a will promise.
fn will_is_value(will: &Option<Will>)
    ensures { IsWillValue will.now }
{
    if let Some(will) = will {
        let _topic = will.topic.bytes();
    }
}

/// What the types of a will's topic promise.
fn will_topic_is_value(asked: &Option<WillTopic>)
    ensures { IsWillTopicValue asked.now }
{
    if let Some(asked) = asked {
        let _topic = asked.topic.bytes();
    }
}

/// What the types of an exchange promise.
fn exchange_is_value(exchange: &Option<Outbound>)
    ensures { IsExchangeValue exchange.now }
{
    if let Some(exchange) = exchange {
        let Outbound {
            origin,
            seq,
            msg_id,
            ..
        } = exchange;
        let _origin = *origin;
        let _seq = *seq;
        let _msg_id = *msg_id;
    }
}

/// What the types of a session promise.
fn session_is_value(session: &Session)
    ensures { IsSessionValue session.now }
{
    let _duration = session.duration;
    let _next_id = session.next_id;
    entries_are_values(session.topics.as_slice());
    subscriptions_are_values(session.subscriptions.as_slice());
    will_is_value(&session.will);
    ids_are_values(session.received.as_slice());
    exchange_is_value(&session.outbound);
}

/// What the types of a change promise.
fn change_is_value(change: &SessionOp)
    ensures { IsChangeValue change.now }
{
    match change {
        SessionOp::Take(session) => session_is_value(session),
        SessionOp::Presence { duration, .. } => {
            let _number = *duration;
        }
        SessionOp::Register { id, name, .. } => {
            let _id = *id;
            let _name = name.bytes();
        }
        SessionOp::Subscribe { filter, .. } | SessionOp::Unsubscribe { filter } => {
            let _filter = filter.bytes();
        }
        SessionOp::WillTopic(asked) => will_topic_is_value(asked),
        SessionOp::WillMsg(_) => {}
        SessionOp::Received { id } | SessionOp::Released { id } => {
            let _id = *id;
        }
        SessionOp::Outbound { exchange, next_id } => {
            let _next_id = *next_id;
            exchange_is_value(exchange);
        }
    }
}

/// What the types of an operation promise of its parts.
pub fn is_value(op: &Op)
    ensures { IsOpValue op.now }
{
    match op {
        Op::Session {
            client,
            stamp,
            counter,
            change,
        } => {
            let _name = client.bytes();
            let _epoch = stamp.epoch;
            let _gateway = stamp.gateway;
            let _counter = *counter;
            change_is_value(change);
        }
        Op::Put { client, put } => {
            let _name = client.bytes();
            let Put {
                origin,
                seq,
                topic,
                expires,
                ..
            } = put;
            let _topic = topic.bytes();
            let _origin = *origin;
            let _seq = *seq;
            let _expires = *expires;
        }
        Op::Ack {
            client,
            origin,
            first,
            last,
        } => {
            let _name = client.bytes();
            let _origin = *origin;
            let _first = *first;
            let _last = *last;
        }
        Op::Retain { topic, retained } => {
            let _topic = topic.bytes();
            let Retained { clock, gateway, .. } = retained;
            let _clock = *clock;
            let _gateway = *gateway;
        }
    }
}
