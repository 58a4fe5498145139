//! What a frame asks for by its flags and its topic field (MQTT-SN 1.2 sections 5.3.4, 5.3.11 and
//! 5.3.12).

ghost use Rattle.std.specs.Prelude.{◌≡◌, IfOk};
ghost use Rattle.std.specs.Option.{option_copied};
ghost use Rattle.sn_topic.specs.Topics as topics;
ghost use Rattle.sn_plan.specs.Asking as spec;

use super::codes::{INVALID_ID, NOT_SUPPORTED};
use octets::NoMemory;
use sn_frame::{Flags, Qos, TopicIdType};
use sn_tables::QosLevel;
use sn_topic::{Filter, Predefined, TopicFault, TopicName};
use std::alloc::Global;

/// What a SUBSCRIBE or UNSUBSCRIBE asks for.
#[derive(Drop)]
pub enum Asked {
    /// The topics that this filter asks for.
    Topics(Filter),
    /// Nothing that there is: the return code says why.
    Refused(u8),
}

/// The quality of service that is asked for, if it is 0, 1 or 2.
pub fn qos_asked(qos: Qos) -> Option<QosLevel>
    ensures { result ≡ spec.qos_asked qos }
{
    match qos {
        Qos::Zero => Some(QosLevel::zero()),
        Qos::One => Some(QosLevel::one()),
        Qos::Two => Some(QosLevel::two()),
        Qos::MinusOne => None,
    }
}

/// Whether what is published is to be retained.
pub fn retain_asked(flags: Flags) -> bool
    ensures { result ≡ spec.retain_asked flags.bits }
{
    flags.retain()
}

/// The topic name of these octets, if they are one.
pub fn name_asked(alloc: Global, octets: &[u8]) -> Result<Option<TopicName>, NoMemory>
    ensures { IfOk result (λ name. name ≡ topics.name_asked octets.now) }
{
    match TopicName::new(alloc, octets) {
        Ok(name) => Ok(Some(name)),
        Err(TopicFault::Memory) => Err(NoMemory),
        Err(_) => Ok(None),
    }
}

/// The filter of these octets, if they are one.
fn in_full(alloc: Global, octets: &[u8]) -> Result<Asked, NoMemory>
    ensures { IfOk result (λ asked. asked ≡ spec.in_full octets.now) }
{
    match Filter::new(alloc, octets) {
        Ok(filter) => Ok(Asked::Topics(filter)),
        Err(TopicFault::Memory) => Err(NoMemory),
        Err(_) => Ok(Asked::Refused(NOT_SUPPORTED)),
    }
}

/// The name of two octets, which has no wildcard.
fn in_short(alloc: Global, octets: &[u8]) -> Result<Asked, NoMemory>
    ensures { IfOk result (λ asked. asked ≡ spec.in_short octets.now) }
{
    match name_asked(alloc, octets)? {
        None => Ok(Asked::Refused(NOT_SUPPORTED)),
        Some(_) => in_full(alloc, octets),
    }
}

/// The name that a predefined id stands for.
fn by_id(alloc: Global, name: Option<&TopicName>) -> Result<Asked, NoMemory>
    ensures { IfOk result (λ asked. asked ≡ spec.by_id (option_copied name.entry)) }
{
    match name {
        None => Ok(Asked::Refused(INVALID_ID)),
        Some(name) => in_full(alloc, name.bytes()),
    }
}

/// The topic id in a field of two octets.
pub fn id_in(field: &[u8]) -> u16
    ensures { result ≡ spec.id_in field.now }
{
    match field {
        [high, low, ..] => u16::from(*high) * 256 + u16::from(*low),
        _ => 0,
    }
}

/// The topics that a topic field of this type asks for.
pub fn topics_asked(
    alloc: Global,
    predefined: &Predefined,
    kind: TopicIdType,
    field: &[u8],
) -> Result<Asked, NoMemory>
    ensures { IfOk result (λ asked. asked ≡ spec.topics_asked predefined.now kind field.now) }
{
    match kind {
        TopicIdType::Normal => in_full(alloc, field),
        TopicIdType::Predefined => by_id(alloc, predefined.name(id_in(field))),
        TopicIdType::Short => in_short(alloc, field),
        TopicIdType::Reserved => Ok(Asked::Refused(NOT_SUPPORTED)),
    }
}
