//! The parts of a session.

ghost use Rattle.std.specs.Prelude.{◌≡◌, true, false, IfOk, IfErr};
ghost use Rattle.sn_tables.specs.Levels.{is_qos};
ghost use Rattle.rep_read.specs.Reading.{ReadsAs, flag_at, presence_at, phase_at, filter_at, entry_at, subscription_at, will_topic_at, will_at, exchange_at, some_will_at, some_topic_at, some_exchange_at};

use super::field::{
    read_body, read_counted_eight, read_counted_octet, read_octet, read_octets, read_topic,
    read_topic_id, read_two,
};
use rep_op::OpsFault;
use sn_session::{Outbound, Phase, Presence, Will, WillTopic};
use sn_tables::{QosLevel, Subscription, TopicEntry};
use sn_topic::{Filter, MAX_TOPIC};
use std::alloc::Global;

/// A flag, 0 or 1.
#[tactic(auto, unfolding(crate::specs::Reading::flag_at))]
pub fn read_flag(bytes: &[u8]) -> Result<(bool, &[u8]), OpsFault>
    ensures { ReadsAs (λ x. (x.0, x.1.now)) result (flag_at bytes.now) }
{
    let (octet, rest) = read_octet(bytes)?;
    match octet {
        0 => Ok((false, rest)),
        1 => Ok((true, rest)),
        _ => Err(OpsFault::Kind),
    }
}

/// A presence.
#[tactic(auto, unfolding(crate::specs::Reading::presence_at))]
pub fn read_presence(bytes: &[u8]) -> Result<(Presence, &[u8]), OpsFault>
    ensures { ReadsAs (λ x. (x.0, x.1.now)) result (presence_at bytes.now) }
{
    let (octet, rest) = read_octet(bytes)?;
    match octet {
        0 => Ok((Presence::Active, rest)),
        1 => Ok((Presence::Asleep, rest)),
        2 => Ok((Presence::Awake, rest)),
        3 => Ok((Presence::Disconnected, rest)),
        4 => Ok((Presence::Lost, rest)),
        _ => Err(OpsFault::Kind),
    }
}

/// A phase.
#[tactic(auto, unfolding(crate::specs::Reading::phase_at))]
fn read_phase(bytes: &[u8]) -> Result<(Phase, &[u8]), OpsFault>
    ensures { ReadsAs (λ x. (x.0, x.1.now)) result (phase_at bytes.now) }
{
    let (octet, rest) = read_octet(bytes)?;
    match octet {
        0 => Ok((Phase::Registering, rest)),
        1 => Ok((Phase::Published, rest)),
        2 => Ok((Phase::Released, rest)),
        _ => Err(OpsFault::Kind),
    }
}

/// A filter.
#[tactic(auto, unfolding(crate::specs::Reading::filter_at))]
pub fn read_filter(alloc: Global, bytes: &[u8]) -> Result<(Filter, &[u8]), OpsFault>
    ensures { ReadsAs (λ x. (x.0, x.1.now)) result (filter_at bytes.now) }
{
    let (size, rest) = read_two(bytes)?;
    if size == 0 || size as usize > MAX_TOPIC {
        return Err(OpsFault::Kind);
    }
    let (name, rest) = read_octets(size as usize, rest)?;
    Ok((Filter::new(alloc, name)?, rest))
}

/// The quality of service of this number.
pub fn level_of(number: u8) -> Result<QosLevel, OpsFault>
    ensures ok { IfOk result (λ qos. (qos ≡ number) × (is_qos number ≡ true)) }
    ensures err { IfErr result (λ fault. (fault ≡ OpsFault.Kind) × (is_qos number ≡ false)) }
{
    match QosLevel::new(number) {
        Some(qos) => Ok(qos),
        None => Err(OpsFault::Kind),
    }
}

/// A topic id and its name.
#[tactic(auto, unfolding(crate::specs::Reading::entry_at))]
pub fn read_entry(alloc: Global, bytes: &[u8]) -> Result<(TopicEntry, &[u8]), OpsFault>
    ensures { ReadsAs (λ x. (x.0, x.1.now)) result (entry_at bytes.now) }
{
    let (id, rest) = read_topic_id(bytes)?;
    let (known, rest) = read_flag(rest)?;
    let (name, rest) = read_topic(alloc, rest)?;
    Ok((TopicEntry { id, name, known }, rest))
}

/// A subscription.
#[tactic(auto, unfolding(crate::specs::Reading::subscription_at, crate::specs::Reading::qos_at))]
pub fn read_subscription(alloc: Global, bytes: &[u8]) -> Result<(Subscription, &[u8]), OpsFault>
    ensures { ReadsAs (λ x. (x.0, x.1.now)) result (subscription_at bytes.now) }
{
    let (filter, rest) = read_filter(alloc, bytes)?;
    let (number, rest) = read_octet(rest)?;
    let qos = level_of(number)?;
    Ok((Subscription { filter, qos }, rest))
}

/// A will's topic.
#[tactic(auto, unfolding(crate::specs::Reading::will_topic_at, crate::specs::Reading::qos_at))]
fn read_will_topic(alloc: Global, bytes: &[u8]) -> Result<(WillTopic, &[u8]), OpsFault>
    ensures { ReadsAs (λ x. (x.0, x.1.now)) result (will_topic_at bytes.now) }
{
    let (number, rest) = read_octet(bytes)?;
    let qos = level_of(number)?;
    let (retain, rest) = read_flag(rest)?;
    let (topic, rest) = read_topic(alloc, rest)?;
    let asked = WillTopic { topic, qos, retain };
    Ok((asked, rest))
}

/// A will.
#[tactic(auto, unfolding(crate::specs::Reading::will_at))]
fn read_will(alloc: Global, bytes: &[u8]) -> Result<(Will, &[u8]), OpsFault>
    ensures { ReadsAs (λ x. (x.0, x.1.now)) result (will_at bytes.now) }
{
    let (asked, rest) = read_will_topic(alloc, bytes)?;
    let (message, rest) = read_body(alloc, rest)?;
    let will = Will {
        topic: asked.topic,
        qos: asked.qos,
        retain: asked.retain,
        message,
    };
    Ok((will, rest))
}

/// An exchange.
#[tactic(auto, unfolding(crate::specs::Reading::exchange_at))]
fn read_exchange(bytes: &[u8]) -> Result<(Outbound, &[u8]), OpsFault>
    ensures { ReadsAs (λ x. (x.0, x.1.now)) result (exchange_at bytes.now) }
{
    let (origin, rest) = read_counted_octet(bytes)?;
    let (seq, rest) = read_counted_eight(rest)?;
    let (msg_id, rest) = read_two(rest)?;
    let (phase, rest) = read_phase(rest)?;
    let exchange = Outbound {
        origin,
        seq,
        msg_id,
        phase,
    };
    Ok((exchange, rest))
}

/// A will, or none.
#[tactic(auto, unfolding(crate::specs::Reading::some_will_at))]
pub fn read_some_will(alloc: Global, bytes: &[u8]) -> Result<(Option<Will>, &[u8]), OpsFault>
    ensures { ReadsAs (λ x. (x.0, x.1.now)) result (some_will_at bytes.now) }
{
    let (there, rest) = read_flag(bytes)?;
    if !there {
        return Ok((None, rest));
    }
    let (will, rest) = read_will(alloc, rest)?;
    Ok((Some(will), rest))
}

/// A will's topic, or none.
#[tactic(auto, unfolding(crate::specs::Reading::some_topic_at))]
pub fn read_some_topic(alloc: Global, bytes: &[u8]) -> Result<(Option<WillTopic>, &[u8]), OpsFault>
    ensures { ReadsAs (λ x. (x.0, x.1.now)) result (some_topic_at bytes.now) }
{
    let (there, rest) = read_flag(bytes)?;
    if !there {
        return Ok((None, rest));
    }
    let (asked, rest) = read_will_topic(alloc, rest)?;
    Ok((Some(asked), rest))
}

/// An exchange, or none.
#[tactic(auto, unfolding(crate::specs::Reading::some_exchange_at))]
pub fn read_some_exchange(bytes: &[u8]) -> Result<(Option<Outbound>, &[u8]), OpsFault>
    ensures { ReadsAs (λ x. (x.0, x.1.now)) result (some_exchange_at bytes.now) }
{
    let (there, rest) = read_flag(bytes)?;
    if !there {
        return Ok((None, rest));
    }
    let (exchange, rest) = read_exchange(rest)?;
    Ok((Some(exchange), rest))
}
