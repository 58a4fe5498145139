//! The frames by which a command asks (MQTT-SN 1.2 sections 5.4 and 6.1 to 6.14).

ghost use Rattle.std.specs.Prelude.{◌≡◌, ◌≤◌, ◌≢◌, ◌↔◌, IfOk, IsTrue, IsBitSet};
ghost use Rattle.sn_frame.specs.FlagBits.{qos_of, kind_of};
ghost use Rattle.sn_frame.specs.FlagBits as flag_bits;
ghost use Rattle.sn_client.specs.inner.Asking as spec;
ghost use Rattle.sn_client.specs.inner.Exchanges.{IsAsked};

use crate::talk::{Awaited, Publication, Talk};
use crate::words::{Command, Topic, WillWords};
use octets::{NoMemory, Octets, append_u16};
use sn_frame::{Flags, Frame, Qos, TopicIdType, Will};
use std::alloc::Global;

/// The protocol id of MQTT-SN 1.2 (section 5.3.8).
const PROTOCOL: u8 = 1;

/// The bits of a quality of service.
fn qos_flag_bits(qos: Qos) -> u8
    ensures value { result ≡ spec.qos_flag_bits qos }
    ensures most { result ≤ 96 }
{
    match qos {
        Qos::Zero => 0,
        Qos::One => 32,
        Qos::Two => 64,
        Qos::MinusOne => 96,
    }
}

/// The bits of a topic's type.
fn kind_bits(kind: TopicIdType) -> u8
    ensures value { result ≡ flag_bits.kind_bits kind }
    ensures most { result ≤ 3 }
{
    match kind {
        TopicIdType::Normal => 0,
        TopicIdType::Predefined => 1,
        TopicIdType::Short => 2,
        TopicIdType::Reserved => 3,
    }
}

/// The bit that says that a publication is to be kept.
fn retain_flag_bit(retain: bool) -> u8
    ensures value { result ≡ spec.retain_flag_bit retain }
    ensures most { result ≤ 16 }
{
    if retain { 16 } else { 0 }
}

/// The flags of a frame that is sent for the first time.
#[tactic(auto, using(crate::proofs::FlagLemmas::flags_qos, crate::proofs::FlagLemmas::flags_kind, crate::proofs::FlagLemmas::flags_retain))]
fn flags_of(qos: Qos, retain: bool, kind: TopicIdType) -> Flags
    ensures value { result ≡ spec.flags_of qos retain kind }
    ensures qos { qos_of result.bits ≡ qos }
    ensures kind { kind_of result.bits ≡ kind }
    ensures retain { IsTrue retain ↔ IsBitSet result.bits 4 }
{
    Flags {
        bits: qos_flag_bits(qos) + retain_flag_bit(retain) + kind_bits(kind),
    }
}

/// The flags of a CONNECT.
fn connect_flags(clean: bool, will: bool) -> Flags
    ensures value { result ≡ spec.connect_flags clean will }
    ensures clean { IsTrue clean ↔ IsBitSet result.bits 2 }
    ensures will { IsTrue will ↔ IsBitSet result.bits 3 }
{
    let bits = match (clean, will) {
        (false, false) => 0,
        (true, false) => 4,
        (false, true) => 8,
        (true, true) => 12,
    };
    Flags { bits }
}

/// The message id of a publication: 0 where none is wanted, and else another than that of a
/// registration before it.
fn publish_id(qos: Qos, msg_id: u16) -> u16
    ensures value { result ≡ spec.publish_id qos msg_id }
    ensures other { 1 ≤ msg_id → result ≢ msg_id }
{
    match qos {
        Qos::Zero | Qos::MinusOne => 0,
        Qos::One | Qos::Two if msg_id == 65535 => 1,
        Qos::One | Qos::Two => msg_id + 1,
    }
}

/// The exchange of a command, with a message id that is not 0: what is awaited has the message id
/// of what is sent.
pub(crate) fn begin(
    alloc: Global,
    client: &str,
    command: &Command<'_>,
    msg_id: u16,
) -> Result<Talk, NoMemory>
    ensures { IfOk result (λ talk. IsAsked talk) }
{
    match command {
        Command::Publish {
            topic,
            text,
            qos,
            retain,
        } => publish(alloc, *topic, text, *qos, *retain, msg_id),
        Command::Subscribe { topic, qos } => subscribe(alloc, *topic, *qos, msg_id),
        Command::Unsubscribe { topic } => unsubscribe(alloc, *topic, msg_id),
        Command::Connect {
            clean,
            keep_alive,
            will,
        } => connect(alloc, client, *clean, *keep_alive, will.is_some()),
        Command::Wake => wake(alloc, client),
        _ => Ok(begin_plain(command)),
    }
}

/// The exchange of a command whose frame says nothing of the client or of a topic.
fn begin_plain(command: &Command<'_>) -> Talk
    ensures { IsAsked result }
{
    match command {
        Command::Search => Talk::of(Some(Frame::SearchGw { radius: 0 }), Awaited::Gateway),
        Command::Sleep { seconds } => goodbye(Some(*seconds)),
        Command::Listen => Talk::of(None, Awaited::Anything),
        _ => goodbye(None),
    }
}

/// The end of a connection, or a sleep of so many seconds (sections 6.12 and 6.14).
fn goodbye(duration: Option<u16>) -> Talk
    ensures { IsAsked result }
{
    Talk::of(Some(Frame::Disconnect { duration }), Awaited::Farewell)
}

/// The end of a client's sleep (section 6.14).
fn wake(alloc: Global, client: &str) -> Result<Talk, NoMemory>
    ensures { IfOk result (λ talk. IsAsked talk) }
{
    let client = Octets::from_slice(alloc, client.as_bytes())?;
    Ok(Talk::of(Some(Frame::PingReq { client }), Awaited::Waking))
}

/// A connection (section 6.2).
fn connect(
    alloc: Global,
    client: &str,
    clean: bool,
    keep_alive: u16,
    will: bool,
) -> Result<Talk, NoMemory>
    ensures { IfOk result (λ talk. IsAsked talk) }
{
    let client = Octets::from_slice(alloc, client.as_bytes())?;
    let frame = Frame::Connect {
        flags: connect_flags(clean, will),
        protocol: PROTOCOL,
        duration: keep_alive,
        client,
    };
    Ok(Talk::of(Some(frame), Awaited::Connection))
}

/// A subscription (section 6.9).
fn subscribe(alloc: Global, topic: Topic<'_>, qos: Qos, msg_id: u16) -> Result<Talk, NoMemory>
    ensures { IfOk result (λ talk. IsAsked talk) }
{
    let frame = Frame::Subscribe {
        flags: flags_of(qos, false, type_of(topic)),
        msg_id,
        topic: field(alloc, topic)?,
    };
    Ok(Talk::of(Some(frame), Awaited::Subscription { msg_id }))
}

/// The end of a subscription (section 6.9).
fn unsubscribe(alloc: Global, topic: Topic<'_>, msg_id: u16) -> Result<Talk, NoMemory>
    ensures { IfOk result (λ talk. IsAsked talk) }
{
    let frame = Frame::Unsubscribe {
        flags: flags_of(Qos::Zero, false, type_of(topic)),
        msg_id,
        topic: field(alloc, topic)?,
    };
    Ok(Talk::of(Some(frame), Awaited::Withdrawal { msg_id }))
}

/// A publication (sections 6.6 and 6.8), after a registration where the topic's name stands in
/// full (section 6.5).
fn publish(
    alloc: Global,
    topic: Topic<'_>,
    text: &str,
    qos: Qos,
    retain: bool,
    msg_id: u16,
) -> Result<Talk, NoMemory>
    ensures { IfOk result (λ talk. IsAsked talk) }
{
    let publication = Publication {
        qos,
        flags: flags_of(qos, retain, type_of(topic)),
        msg_id: publish_id(qos, msg_id),
        body: Octets::from_slice(alloc, text.as_bytes())?,
    };
    match topic {
        Topic::Full(name) => register(alloc, publication, name, msg_id),
        Topic::Short(number) | Topic::Predefined(number) => {
            Ok(Talk::publishing(publication, number))
        }
    }
}

/// A registration, and the publication after it.
fn register(
    alloc: Global,
    publication: Publication,
    name: &str,
    msg_id: u16,
) -> Result<Talk, NoMemory>
    ensures { IfOk result (λ talk. IsAsked talk) }
{
    let name = Octets::from_slice(alloc, name.as_bytes())?;
    Ok(Talk::registering(publication, name, msg_id))
}

/// The topic field of a SUBSCRIBE.
fn field(alloc: Global, topic: Topic<'_>) -> Result<Octets, NoMemory> {
    match topic {
        Topic::Full(name) => Octets::from_slice(alloc, name.as_bytes()),
        Topic::Short(number) | Topic::Predefined(number) => {
            let mut octets = Vec::new(alloc);
            append_u16(&mut octets, number)?;
            Octets::new(octets)
        }
    }
}

/// The type of a topic.
fn type_of(topic: Topic<'_>) -> TopicIdType {
    match topic {
        Topic::Full(_) => TopicIdType::Normal,
        Topic::Short(_) => TopicIdType::Short,
        Topic::Predefined(_) => TopicIdType::Predefined,
    }
}

/// What a gateway that asks for a will is told (section 6.2).
pub(crate) fn told_will(
    alloc: Global,
    command: &Command<'_>,
    frame: &Frame,
) -> Result<Option<Frame>, NoMemory> {
    match command {
        Command::Connect {
            will: Some(will),
            ..
        } => part_of_will(alloc, *will, frame),
        _ => Ok(None),
    }
}

/// What of a will a frame asks for.
fn part_of_will(
    alloc: Global,
    will: WillWords<'_>,
    frame: &Frame,
) -> Result<Option<Frame>, NoMemory> {
    match frame {
        Frame::WillTopicReq => Ok(Some(Frame::WillTopic {
            will: Some(topic_of_will(alloc, will)?),
        })),
        Frame::WillMsgReq => Ok(Some(Frame::WillMsg {
            message: Octets::from_slice(alloc, will.message.as_bytes())?,
        })),
        _ => Ok(None),
    }
}

/// The topic of a will, and its flags.
fn topic_of_will(alloc: Global, will: WillWords<'_>) -> Result<Will, NoMemory> {
    Ok(Will {
        flags: flags_of(will.qos, will.retain, TopicIdType::Normal),
        topic: Octets::from_slice(alloc, will.topic.as_bytes())?,
    })
}
