//! What is retained of a publication, for those who subscribe later.

ghost use Rattle.std.specs.Prelude.{◌≡◌, is_some, length, nat_lt, IfOk};
ghost use Rattle.rep_model.specs.Topics as topics;
ghost use Rattle.sn_plan.specs.declared.limits.TheConstants.{MAX_TOPICS};
ghost use Rattle.sn_local.specs.Seen.{seen_of};
ghost use Rattle.sn_publish.specs.Retaining as spec;

use octets::NoMemory;
use rep_model::Replica;
use sn_plan::{MAX_TOPICS, Posted};
use sn_session::{Message, Will};
use sn_tables::QosLevel;
use sn_topic::TopicName;
use std::alloc::Global;

/// Whether something was ever retained of the topic.
fn is_there<R: Replica>(replica: &R, topic: &TopicName) -> bool
    ensures { result ≡ is_some (topics.retained topic.now (R.kept replica.now)) }
{
    match replica.retained(topic) {
        None => false,
        Some(_) => true,
    }
}

/// Whether one more topic is let in.
fn has_room<R: Replica>(replica: &R) -> bool
    ensures { result ≡ nat_lt (length (topics.all_retained (R.kept replica.now))) MAX_TOPICS }
{
    match replica.topic_at(MAX_TOPICS - 1) {
        None => true,
        Some(_) => false,
    }
}

/// Whether the topic has a place: something was retained of it before, or one more topic is let in.
fn has_place<R: Replica>(replica: &R, topic: &TopicName) -> bool
    ensures { result ≡ spec.has_place (seen_of (R.kept replica.now)) topic.now }
{
    is_there(replica, topic) || has_room(replica)
}

/// What is retained of a publication, where that is asked for and its topic has a place.
pub fn retained_of<R: Replica>(
    alloc: Global,
    replica: &R,
    asked: bool,
    topic: &TopicName,
    qos: QosLevel,
    body: &Message,
) -> Result<Option<Posted>, NoMemory>
    ensures { IfOk result (λ posted. posted ≡ spec.retained_of (seen_of (R.kept replica.now))
        asked topic.now qos body.now) }
{
    if asked && has_place(replica, topic) {
        return Ok(Some(Posted {
            topic: topic.copied(alloc)?,
            qos,
            body: body.copied(alloc)?,
        }));
    }
    Ok(None)
}

/// What is retained of a will that is published.
pub fn retained_of_will<R: Replica>(
    alloc: Global,
    replica: &R,
    will: &Will,
) -> Result<Option<Posted>, NoMemory>
    ensures { IfOk result (λ posted. posted ≡ spec.retained_of_will (seen_of (R.kept replica.now))
        will.now) }
{
    retained_of(
        alloc,
        replica,
        will.retain,
        &will.topic,
        will.qos,
        &will.message,
    )
}
