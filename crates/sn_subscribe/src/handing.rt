//! What a subscriber is handed of what is retained (MQTT-SN 1.2 section 6.9).

ghost use Rattle.std.specs.Prelude.{◌≡◌, map, IfOk};
ghost use Rattle.sn_local.specs.Seen.{seen_of};
ghost use Rattle.sn_subscribe.specs.Handing as spec;

use octets::NoMemory;
use rep_model::Replica;
use rep_ops::Retained;
use sn_plan::{MAX_PENDING, Posted};
use sn_tables::QosLevel;
use sn_topic::{Filter, TopicName};
use std::alloc::Global;

/// What is retained of a topic, at this quality of service at most.
fn at_most(qos: QosLevel, topic: TopicName, retained: Retained) -> Posted
    ensures { result ≡ spec.at_most qos (topic, retained) }
{
    let Retained {
        clock: _,
        gateway: _,
        qos: own,
        body,
    } = retained;
    Posted {
        topic,
        qos: own.min(qos),
        body,
    }
}

/// All of this, at this quality of service at most.
fn all_at_most(
    alloc: Global,
    qos: QosLevel,
    offered: Vec<(TopicName, Retained)>,
) -> Result<Vec<Posted>, NoMemory>
    ensures { IfOk result (λ handed. handed.items ≡ map (spec.at_most qos) offered.items) }
{
    let mut handed = Vec::new(alloc);
    for (topic, retained) in offered {
        handed.push(at_most(qos, topic, retained))?;
    }
    Ok(handed)
}

/// What a client that subscribes to the filter is handed, as long as fewer than 1,024 messages wait
/// for it. Where nothing more can wait, nothing is looked for.
pub fn handed_for<R: Replica>(
    alloc: Global,
    replica: &R,
    asked: &Filter,
    qos: QosLevel,
    waiting: usize,
) -> Result<Vec<Posted>, NoMemory>
    ensures { IfOk result (λ handed. handed.items ≡ spec.handed_for (seen_of (R.kept replica.now))
        asked.now qos waiting) }
{
    let room = MAX_PENDING.saturating_sub(waiting);
    if room == 0 {
        return Ok(Vec::new(alloc));
    }
    let Ok(mut offered) = replica.retained_matching(alloc, asked) else {
        return Err(NoMemory);
    };
    offered.truncate(room);
    all_at_most(alloc, qos, offered)
}
