//! How a topic is named in a PUBLISH (MQTT-SN 1.2 sections 5.3.11 and 5.3.12).

ghost use Rattle.std.specs.Prelude.{◌≡◌, ◌≤◌, IfOk};
ghost use Rattle.std.specs.Option.{option_copied};
ghost use Rattle.sn_frame.specs.declared.frame.TheConstants.{MAX_FRAME};
ghost use Rattle.sn_frame.specs.Bodies.{IsMessage};
ghost use Rattle.sn_frame.specs.FlagBits as flag_bits;
ghost use Rattle.sn_frame.specs.Grammar.{total_of};
ghost use Rattle.sn_exchange.specs.Forms as spec;

use octets::NoMemory;
use rep_ops::Put;
use sn_frame::{Flags, Frame, TopicIdType};
use sn_session::Session;
use sn_tables::{QosLevel, TopicEntry};
use sn_topic::{Predefined, TopicName};
use std::alloc::Global;

/// How a topic is named: what the topic field holds, and the field.
#[derive(Clone, Copy, PartialEq, Eq)]
pub struct Form {
    /// How the topic is named: by a registered id, a predefined id, or its two octets.
    pub kind: TopicIdType,
    /// The id, or the two octets as a number.
    pub topic: u16,
}

/// By the id of this entry.
fn by_entry(entry: &TopicEntry) -> Form
    ensures { result ≡ spec.by_entry entry.now }
{
    Form {
        kind: TopicIdType::Normal,
        topic: entry.id,
    }
}

/// By the id of the entry, where the client knows it.
fn known_form(entry: Option<&TopicEntry>) -> Option<Form>
    ensures { result ≡ spec.known_form (option_copied entry.entry) }
{
    match entry {
        None => None,
        Some(entry) => {
            if entry.known {
                Some(by_entry(entry))
            } else {
                None
            }
        }
    }
}

/// By the name itself, where it has two octets.
fn short_name_form(name: &[u8]) -> Option<Form>
    ensures { result ≡ spec.short_name_form name.now }
{
    match name {
        [high, low] => Some(Form {
            kind: TopicIdType::Short,
            topic: u16::from(*high) * 256 + u16::from(*low),
        }),
        _ => None,
    }
}

/// By the least predefined id of the name, where there is one.
fn predefined_form(predefined: &Predefined, name: &TopicName) -> Option<Form>
    ensures { result ≡ spec.predefined_form predefined.now name.now }
{
    match predefined.id(name) {
        None => None,
        Some(topic) => Some(Form {
            kind: TopicIdType::Predefined,
            topic,
        }),
    }
}

/// How the client knows the topic. Where it does not, the topic needs registering.
pub fn form_of(predefined: &Predefined, session: &Session, name: &TopicName) -> Option<Form>
    ensures { result ≡ spec.form_of predefined.now session.now name.now }
{
    if let Some(form) = known_form(session.topic_named(name)) {
        return Some(form);
    }
    if let Some(form) = short_name_form(name.bytes()) {
        return Some(form);
    }
    predefined_form(predefined, name)
}

/// How a topic is named whose PUBLISH was sent: also by the id of an entry that the client may have
/// forgotten since.
pub fn form_again(predefined: &Predefined, session: &Session, name: &TopicName) -> Option<Form>
    ensures { result ≡ spec.form_again predefined.now session.now name.now }
{
    if let Some(form) = form_of(predefined, session, name) {
        return Some(form);
    }
    match session.topic_named(name) {
        None => None,
        Some(entry) => Some(by_entry(entry)),
    }
}

/// The bits of a quality of service of 0, 1 or 2.
fn qos_bits(qos: QosLevel) -> u8
    ensures value { result ≡ spec.qos_bits qos }
    ensures limit { result ≤ 64 }
{
    if qos.number() == 0 {
        0
    } else if qos.number() == 1 {
        32
    } else {
        64
    }
}

/// The bits of what the topic field holds.
fn kind_bits(kind: TopicIdType) -> u8
    ensures value { result ≡ flag_bits.kind_bits kind }
    ensures limit { result ≤ 3 }
{
    match kind {
        TopicIdType::Normal => 0,
        TopicIdType::Predefined => 1,
        TopicIdType::Short => 2,
        TopicIdType::Reserved => 3,
    }
}

/// The DUP bit.
fn dup_bit(again: bool) -> u8
    ensures value { result ≡ spec.dup_bit again }
    ensures limit { result ≤ 128 }
{
    if again { 128 } else { 0 }
}

/// The Retain bit.
fn retain_bit(retain: bool) -> u8
    ensures value { result ≡ spec.retain_bit retain }
    ensures limit { result ≤ 16 }
{
    if retain { 16 } else { 0 }
}

/// The PUBLISH of a message, with Retain if the client gets it since it was retained.
pub fn publication(
    alloc: Global,
    again: bool,
    put: &Put,
    msg_id: u16,
    form: Form,
) -> Result<Frame, NoMemory>
    ensures ok { IfOk result (λ frame. frame ≡ spec.publication again put.now msg_id form) }
    ensures message { IfOk result (λ frame. IsMessage frame) }
    ensures size { IfOk result (λ frame. total_of frame ≤ MAX_FRAME) }
{
    let flags = Flags {
        bits: dup_bit(again) + qos_bits(put.qos) + retain_bit(put.retain) + kind_bits(form.kind),
    };
    // A message has a size that fits every frame.
    let _size = put.body.len();
    let body = put.body.to_octets(alloc)?;
    Ok(Frame::Publish {
        flags,
        topic: form.topic,
        msg_id,
        body,
    })
}
