//! WILLTOPICUPD and WILLMSGUPD (MQTT-SN 1.2 section 6.4).

ghost use Rattle.std.specs.Prelude.{◌≡◌, ◌≤◌, IfOk, OnOk, if◌then◌else◌, None, Some};
ghost use Rattle.sn_frame.specs.declared.frame.TheConstants.{MAX_FRAME};
ghost use Rattle.sn_frame.specs.Bodies.{IsMessage};
ghost use Rattle.sn_frame.specs.Grammar.{total_of};
ghost use Rattle.sn_plan.specs.Drafts.{nothing, changed, sent};
ghost use Rattle.sn_flow.specs.Connection.{has_bit};
ghost use Rattle.sn_flow.specs.WillUpdate.{topic_accepted, topic_set, message_accepted};
ghost use Rattle.sn_flow.specs.WillUpdate as spec;

use octets::{NoMemory, Octets};
use sn_frame::{Flags, Frame, Will};
use sn_local::Addr;
use sn_plan::{ACCEPTED, Draft, NOT_SUPPORTED, finished, name_asked, qos_asked};
use sn_session::{Message, Session, SessionOp, WillTopic};
use sn_tables::QosLevel;
use sn_topic::TopicName;
use std::alloc::Global;

/// Whether the will is to be retained.
fn is_retained(flags: Flags) -> bool
    ensures { result ≡ has_bit flags.bits 4 }
{
    flags.retain()
}

/// The topic of a will, where its name and its quality of service are valid.
fn topic_from(name: Option<TopicName>, qos: Option<QosLevel>, retain: bool) -> Option<WillTopic>
    ensures { result ≡ spec.topic_from name qos retain }
{
    match (name, qos) {
        (Some(topic), Some(qos)) => Some(WillTopic { topic, qos, retain }),
        _ => None,
    }
}

/// The topic that is asked for with these flags and octets.
pub fn topic_asked(alloc: Global, will: &Will) -> Result<Option<WillTopic>, NoMemory>
    ensures { IfOk result (λ topic. topic ≡ spec.topic_asked will.now) }
{
    let name = name_asked(alloc, will.topic.as_slice())?;
    Ok(topic_from(name, qos_asked(will.flags.qos()), is_retained(will.flags)))
}

/// The will has this topic from now on, or none.
fn accept_topic(alloc: Global, to: Addr, topic: Option<WillTopic>) -> Result<Draft, NoMemory>
    ensures { IfOk result (λ draft. draft ≡ topic_accepted to topic) }
{
    let mut draft = Draft::new(alloc);
    let answer = Frame::WillTopicResp { code: ACCEPTED };
    let done = write_change(alloc, &mut draft, to, SessionOp::WillTopic(topic), answer);
    finished(draft, done)
}

/// Writes a change and its answer into a draft of nothing.
fn write_change(
    alloc: Global,
    draft: &mut Draft,
    to: Addr,
    change: SessionOp,
    answer: Frame,
) -> Result<(), NoMemory>
    requires nothing { draft.old ≡ nothing }
    requires message { IsMessage answer }
    requires size { total_of answer ≤ MAX_FRAME }
    ensures { OnOk result (draft.new ≡ sent to answer (changed change nothing)) }
{
    if draft.change(change).is_err() {
        drop(answer);
        return Err(NoMemory);
    }
    draft.send(alloc, to, answer)
}

/// Gives the will this topic; refuses where there is none.
fn set_topic(alloc: Global, to: Addr, topic: Option<WillTopic>) -> Result<Draft, NoMemory>
    ensures { IfOk result (λ draft. draft ≡ topic_set to topic) }
{
    match topic {
        None => Draft::reply(
            alloc,
            to,
            Frame::WillTopicResp {
                code: NOT_SUPPORTED,
            },
        ),
        Some(topic) => accept_topic(alloc, to, Some(topic)),
    }
}

/// WILLTOPICUPD: the client gives its will another topic, or deletes it. WILLTOPICRESP says whether
/// it is done: a topic that is no name, or a quality of service of bits 11, is refused.
pub fn will_topic_update(alloc: Global, to: Addr, will: &Option<Will>) -> Result<Draft, NoMemory>
    ensures { IfOk result (λ draft. draft ≡ spec.will_topic_update to will.now) }
{
    match will {
        None => accept_topic(alloc, to, None),
        Some(will) => {
            let topic = topic_asked(alloc, will)?;
            set_topic(alloc, to, topic)
        }
    }
}

/// The message that the will gets; nothing where there is no will, or the message is too long.
fn message_for(alloc: Global, session: &Session, octets: &[u8]) -> Result<Option<Message>, NoMemory>
    ensures { IfOk result (λ message. message ≡ (if spec.has_no_place session.now octets.now
        then None else Some octets.now)) }
{
    if session.will.is_none() {
        return Ok(None);
    }
    Ok(Message::new(Octets::from_slice(alloc, octets)?))
}

/// The will has this message from now on.
fn accept_message(alloc: Global, to: Addr, message: Message) -> Result<Draft, NoMemory>
    ensures { IfOk result (λ draft. draft ≡ message_accepted to message) }
{
    let mut draft = Draft::new(alloc);
    let answer = Frame::WillMsgResp { code: ACCEPTED };
    let done = write_change(alloc, &mut draft, to, SessionOp::WillMsg(message), answer);
    finished(draft, done)
}

/// WILLMSGUPD: the client gives its will another message. WILLMSGRESP says whether it is done: a
/// message of more than 4,096 octets is refused, and so is any without a will.
pub fn will_msg_update(
    alloc: Global,
    to: Addr,
    session: &Session,
    message: &[u8],
) -> Result<Draft, NoMemory>
    ensures { IfOk result (λ draft. draft ≡ spec.will_msg_update to session.now message.now) }
{
    match message_for(alloc, session, message)? {
        Some(message) => accept_message(alloc, to, message),
        None => Draft::reply(
            alloc,
            to,
            Frame::WillMsgResp {
                code: NOT_SUPPORTED,
            },
        ),
    }
}
