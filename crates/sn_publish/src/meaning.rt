//! What a PUBLISH of a client is about.

ghost use Rattle.std.specs.Prelude.{◌≡◌, IfOk};
ghost use Rattle.std.specs.Option.{option_copied, option_map};
ghost use Rattle.sn_publish.specs.Publishing.{entry_name};
ghost use Rattle.sn_publish.specs.Publishing as spec;
ghost use Rattle.sn_topic.specs.Topics as topic_names;
ghost use Rattle.sn_tables.specs.Topics.{topic_of};

use octets::NoMemory;
use sn_frame::TopicIdType;
use sn_plan::name_asked;
use sn_session::Session;
use sn_topic::{Predefined, TopicName};
use std::alloc::Global;

/// What a PUBLISH is about.
#[derive(Drop)]
pub enum Meant {
    /// This topic.
    Topic(TopicName),
    /// Nothing that there is: the return code says why.
    Refused(u8),
}

/// The topic of this name.
fn topic_or_refused(alloc: Global, name: Option<&TopicName>) -> Result<Meant, NoMemory>
    ensures { IfOk result (λ meant. meant ≡ spec.topic_or_refused (option_copied name.entry)) }
{
    match name {
        None => Ok(Meant::Refused(2)),
        Some(name) => Ok(Meant::Topic(name.copied(alloc)?)),
    }
}

/// The topic of an id of the session.
fn by_entry(alloc: Global, session: &Session, id: u16) -> Result<Meant, NoMemory>
    ensures { IfOk result (λ meant. meant ≡ spec.topic_or_refused
        (option_map entry_name (topic_of id session.now.topics))) }
{
    match session.topic_of(id) {
        None => topic_or_refused(alloc, None),
        Some(entry) => topic_or_refused(alloc, Some(&entry.name)),
    }
}

/// The topic of a short name.
fn by_short(alloc: Global, topic: u16) -> Result<Meant, NoMemory>
    ensures { IfOk result
        (λ meant. meant ≡ spec.topic_or_refused (topic_names.name_asked (spec.short_name topic))) }
{
    let octets = [(topic / 256) as u8, (topic % 256) as u8];
    match name_asked(alloc, &octets)? {
        None => Ok(Meant::Refused(2)),
        Some(name) => Ok(Meant::Topic(name)),
    }
}

/// The topic that a topic field of this type stands for (MQTT-SN 1.2 section 5.3.11): `Refused`
/// with code 2 where it stands for none, and with code 3 where the type has no meaning.
pub fn topic_meant(
    alloc: Global,
    predefined: &Predefined,
    session: &Session,
    kind: TopicIdType,
    topic: u16,
) -> Result<Meant, NoMemory>
    ensures { IfOk result
        (λ meant. meant ≡ spec.topic_meant predefined.now session.now kind topic) }
{
    match kind {
        TopicIdType::Normal => by_entry(alloc, session, topic),
        TopicIdType::Predefined => topic_or_refused(alloc, predefined.name(topic)),
        TopicIdType::Short => by_short(alloc, topic),
        TopicIdType::Reserved => Ok(Meant::Refused(3)),
    }
}
