//! PUBLISH and PUBREL from a client (MQTT-SN 1.2 sections 6.6, 6.8 and 6.10).

ghost use Rattle.std.specs.Prelude.{◌≡◌, IfOk, OnOk};
ghost use Rattle.sn_frame.specs.FlagBits.{qos_of};
ghost use Rattle.sn_local.specs.Seen.{seen_of};
ghost use Rattle.sn_plan.specs.Asking.{retain_asked as is_retain_asked};
ghost use Rattle.sn_plan.specs.Drafts.{changed, changed_if, nothing, put_all, sent};
ghost use Rattle.sn_plan.specs.Scenes.{seen_in};
ghost use Rattle.sn_frame.specs.declared.frame.Frame.TheVariants.{PubAck, PubComp, PubRec};
ghost use Rattle.sn_session.specs.declared.change.SessionOp.TheVariants.{Received};
ghost use Rattle.sn_publish.specs.declared.meaning.Meant.TheVariants.{Topic};
ghost use Rattle.sn_publish.specs.Recipients as recipients;
ghost use Rattle.sn_publish.specs.Publishing as spec;

use super::meaning::{Meant, topic_meant};
use super::recipients::puts_for;
use super::retaining::retained_of;
use octets::{NoMemory, Octets};
use rep_model::Replica;
use sn_frame::{Flags, Frame, Qos};
use sn_local::Addr;
use sn_plan::{Draft, Scene, retain_asked};
use sn_session::{Message, Session, SessionOp};
use sn_tables::QosLevel;
use sn_topic::TopicName;
use std::alloc::Global;

/// A PUBLISH, as its frame says it.
#[derive(Clone, Copy)]
pub struct Publication<'a> {
    /// Its flags.
    pub flags: Flags,
    /// Its topic field.
    pub topic: u16,
    /// Its message id.
    pub msg_id: u16,
    /// What is published.
    pub body: &'a Octets,
}

/// The messages of a publication, as a draft.
fn puts_draft<R: Replica>(
    alloc: Global,
    replica: &R,
    name: &TopicName,
    qos: QosLevel,
    body: &Message,
) -> Result<Draft, NoMemory>
    ensures { IfOk result
        (λ draft. draft ≡ put_all (recipients.puts_for (seen_of (R.kept replica.now))
        name.now qos body.now) nothing) }
{
    let puts = puts_for(alloc, replica, name, qos, body)?;
    let mut draft = Draft::new(alloc);
    match draft.put_all(puts) {
        Ok(()) => Ok(draft),
        Err(_) => {
            drop(draft);
            Err(NoMemory)
        }
    }
}

/// A message for each recipient; and it is retained, where that is asked for.
fn posted<R: Replica>(
    alloc: Global,
    replica: &R,
    asked: bool,
    name: &TopicName,
    qos: QosLevel,
    body: &Message,
) -> Result<Draft, NoMemory>
    ensures { IfOk result (λ draft. draft ≡ spec.posted (seen_of (R.kept replica.now)) asked
        name.now qos body.now) }
{
    let mut draft = puts_draft(alloc, replica, name, qos, body)?;
    match retained_of(alloc, replica, asked, name, qos, body) {
        Ok(retain) => {
            draft.retain_if(retain);
            Ok(draft)
        }
        Err(_) => {
            drop(draft);
            Err(NoMemory)
        }
    }
}

/// At most once: the recipients get it.
fn publish_at_0<R: Replica>(
    alloc: Global,
    replica: &R,
    asked: bool,
    name: &TopicName,
    body: &Message,
) -> Result<Draft, NoMemory>
    ensures { IfOk result (λ draft. draft ≡ spec.publish_at_0 (seen_of (R.kept replica.now)) asked
        name.now body.now) }
{
    posted(alloc, replica, asked, name, QosLevel::zero(), body)
}

/// A PUBACK with this code.
fn puback(alloc: Global, to: Addr, topic_id: u16, msg_id: u16, code: u8) -> Result<Draft, NoMemory>
    ensures { IfOk result (λ draft. draft ≡ sent to (PubAck topic_id msg_id code) nothing) }
{
    let answer = Frame::PubAck {
        topic_id,
        msg_id,
        code,
    };
    Draft::reply(alloc, to, answer)
}

/// And then the message id is received, and a PUBREC says so.
fn receive(alloc: Global, to: Addr, msg_id: u16, draft: &mut Draft) -> Result<(), NoMemory>
    ensures { OnOk result (draft.new ≡ sent to (PubRec msg_id)
        (changed (Received msg_id) draft.old)) }
{
    draft.change(SessionOp::Received { id: msg_id })?;
    match draft.send(alloc, to, Frame::PubRec { msg_id }) {
        Ok(()) => Ok(()),
        Err(_) => Err(NoMemory),
    }
}

/// At least once: the recipients get it, and PUBACK says so.
fn publish_at_1<R: Replica>(
    alloc: Global,
    scene: &Scene<'_, R>,
    publication: &Publication<'_>,
    body: &Message,
    name: &TopicName,
) -> Result<Draft, NoMemory>
    ensures { IfOk result (λ draft. draft ≡ spec.publish_at_1 (seen_in R.kept scene.now)
        (is_retain_asked publication.now.flags.bits) scene.now.from publication.now.topic
        publication.now.msg_id body.now name.now) }
{
    let asked = retain_asked(publication.flags);
    let mut draft = posted(alloc, scene.replica, asked, name, QosLevel::one(), body)?;
    let answer = Frame::PubAck {
        topic_id: publication.topic,
        msg_id: publication.msg_id,
        code: 0,
    };
    match draft.send(alloc, scene.from, answer) {
        Ok(()) => Ok(draft),
        Err(_) => {
            drop(draft);
            Err(NoMemory)
        }
    }
}

/// Exactly once: the recipients get it, where they have not got it under this message id, and
/// PUBREC says so.
fn publish_at_2<R: Replica>(
    alloc: Global,
    scene: &Scene<'_, R>,
    session: &Session,
    publication: &Publication<'_>,
    body: &Message,
    name: &TopicName,
) -> Result<Draft, NoMemory>
    ensures { IfOk result (λ draft. draft ≡ spec.publish_at_2 (seen_in R.kept scene.now)
        (is_retain_asked publication.now.flags.bits) scene.now.from session.now
        publication.now.topic publication.now.msg_id body.now name.now) }
{
    let to = scene.from;
    let msg_id = publication.msg_id;
    if session.is_received(msg_id) {
        return Draft::reply(alloc, to, Frame::PubRec { msg_id });
    }
    if session.received.has_no_room(msg_id) {
        return puback(alloc, to, publication.topic, msg_id, 1);
    }
    let asked = retain_asked(publication.flags);
    let mut draft = posted(alloc, scene.replica, asked, name, QosLevel::two(), body)?;
    match receive(alloc, to, msg_id, &mut draft) {
        Ok(()) => Ok(draft),
        Err(fault) => {
            drop(draft);
            Err(fault)
        }
    }
}

/// A publication at this quality of service.
fn publish_at<R: Replica>(
    alloc: Global,
    scene: &Scene<'_, R>,
    session: &Session,
    publication: &Publication<'_>,
    body: &Message,
    name: &TopicName,
) -> Result<Draft, NoMemory>
    ensures { IfOk result (λ draft. draft ≡ spec.publish_at (seen_in R.kept scene.now)
        (is_retain_asked publication.now.flags.bits) scene.now.from session.now
        publication.now.topic publication.now.msg_id body.now name.now
        (qos_of publication.now.flags.bits)) }
{
    let asked = retain_asked(publication.flags);
    match publication.flags.qos() {
        Qos::Zero => publish_at_0(alloc, scene.replica, asked, name, body),
        Qos::One => publish_at_1(alloc, scene, publication, body, name),
        Qos::Two => publish_at_2(alloc, scene, session, publication, body, name),
        Qos::MinusOne => publish_at_0(alloc, scene.replica, asked, name, body),
    }
}

/// A publication on this topic. A message of more than 4,096 octets is refused.
fn publish_on<R: Replica>(
    alloc: Global,
    scene: &Scene<'_, R>,
    session: &Session,
    publication: &Publication<'_>,
    name: &TopicName,
) -> Result<Draft, NoMemory>
    ensures { IfOk result (λ draft. draft ≡ spec.publish_meant (seen_in R.kept scene.now)
        (is_retain_asked publication.now.flags.bits) scene.now.from session.now
        publication.now.topic publication.now.msg_id publication.now.body.now
        (qos_of publication.now.flags.bits)
        (spec.within_limit publication.now.body.now (Topic name.now))) }
{
    match Message::new(publication.body.copied(alloc)?) {
        None => puback(alloc, scene.from, publication.topic, publication.msg_id, 3),
        Some(body) => {
            let draft = publish_at(alloc, scene, session, publication, &body, name);
            drop(body);
            draft
        }
    }
}

/// A publication on what its topic field is about. A message of more than 4,096 octets is refused.
fn publish_meant<R: Replica>(
    alloc: Global,
    scene: &Scene<'_, R>,
    session: &Session,
    publication: &Publication<'_>,
    meant: Meant,
) -> Result<Draft, NoMemory>
    ensures { IfOk result (λ draft. draft ≡ spec.publish_meant (seen_in R.kept scene.now)
        (is_retain_asked publication.now.flags.bits) scene.now.from session.now
        publication.now.topic publication.now.msg_id publication.now.body.now
        (qos_of publication.now.flags.bits) (spec.within_limit publication.now.body.now meant)) }
{
    match meant {
        Meant::Refused(code) => puback(
            alloc,
            scene.from,
            publication.topic,
            publication.msg_id,
            code,
        ),
        Meant::Topic(name) => {
            let draft = publish_on(alloc, scene, session, publication, &name);
            drop(name);
            draft
        }
    }
}

/// PUBLISH of a connected client: the recipients get a message, which is retained where the client
/// asks for that, and the client an answer at the quality of service that it asks for, or a refusal
/// by PUBACK.
pub fn publish<R: Replica>(
    alloc: Global,
    scene: &Scene<'_, R>,
    session: &Session,
    publication: &Publication<'_>,
) -> Result<Draft, NoMemory>
    ensures { IfOk result (λ draft. draft ≡ spec.publish scene.now.config.now.predefined
        (seen_in R.kept scene.now) scene.now.from session.now publication.now.flags.bits
        publication.now.topic publication.now.msg_id publication.now.body.now) }
{
    let predefined = &scene.config.predefined;
    let kind = publication.flags.kind();
    let meant = topic_meant(alloc, predefined, session, kind, publication.topic)?;
    publish_meant(alloc, scene, session, publication, meant)
}

/// A publication without a connection, on this topic. A message of more than 4,096 octets is for
/// nobody.
fn spread_on<R: Replica>(
    alloc: Global,
    replica: &R,
    asked: bool,
    body: &Octets,
    name: &TopicName,
) -> Result<Draft, NoMemory>
    ensures { IfOk result (λ draft. draft ≡ spec.spread_meant (seen_of (R.kept replica.now)) asked
        body.now (spec.within_limit body.now (Topic name.now))) }
{
    match Message::new(body.copied(alloc)?) {
        None => Ok(Draft::new(alloc)),
        Some(body) => {
            let draft = publish_at_0(alloc, replica, asked, name, &body);
            drop(body);
            draft
        }
    }
}

/// A publication without a connection, on what its topic field is about. A message of more than
/// 4,096 octets is for nobody.
fn spread_meant<R: Replica>(
    alloc: Global,
    replica: &R,
    asked: bool,
    body: &Octets,
    meant: Meant,
) -> Result<Draft, NoMemory>
    ensures { IfOk result (λ draft. draft ≡ spec.spread_meant (seen_of (R.kept replica.now)) asked
        body.now (spec.within_limit body.now meant)) }
{
    match meant {
        Meant::Refused(_) => Ok(Draft::new(alloc)),
        Meant::Topic(name) => {
            let draft = spread_on(alloc, replica, asked, body, &name);
            drop(name);
            draft
        }
    }
}

/// PUBLISH without a connection, by a predefined id or a short name. The recipients get it at most
/// once, and nothing is answered.
pub fn publish_unconnected<R: Replica>(
    alloc: Global,
    scene: &Scene<'_, R>,
    publication: &Publication<'_>,
) -> Result<Draft, NoMemory>
    ensures { IfOk result (λ draft. draft ≡ spec.publish_unconnected
        scene.now.config.now.predefined (seen_in R.kept scene.now) publication.now.flags.bits
        publication.now.topic publication.now.body.now) }
{
    let predefined = &scene.config.predefined;
    let flags = publication.flags;
    let session = Session::empty(alloc);
    let meant = topic_meant(alloc, predefined, &session, flags.kind(), publication.topic);
    drop(session);
    spread_meant(
        alloc,
        scene.replica,
        retain_asked(flags),
        publication.body,
        meant?,
    )
}

/// The change of the session, where the message id was received.
fn release(session: &Session, msg_id: u16) -> Option<SessionOp>
    ensures { result ≡ spec.release session.now msg_id }
{
    if session.is_received(msg_id) {
        Some(SessionOp::Released { id: msg_id })
    } else {
        None
    }
}

/// And then the message id is released, where it was received, and a PUBCOMP says so.
fn complete(
    alloc: Global,
    to: Addr,
    session: &Session,
    msg_id: u16,
    draft: &mut Draft,
) -> Result<(), NoMemory>
    ensures { OnOk result (draft.new ≡ sent to (PubComp msg_id)
        (changed_if (spec.release session.now msg_id) draft.old)) }
{
    draft.change_if(release(session, msg_id))?;
    match draft.send(alloc, to, Frame::PubComp { msg_id }) {
        Ok(()) => Ok(()),
        Err(_) => Err(NoMemory),
    }
}

/// PUBREL: the client will not send the message of this id again. PUBCOMP is always the answer.
pub fn pubrel(alloc: Global, to: Addr, session: &Session, msg_id: u16) -> Result<Draft, NoMemory>
    ensures { IfOk result (λ draft. draft ≡ spec.pubrel to session.now msg_id) }
{
    let mut draft = Draft::new(alloc);
    match complete(alloc, to, session, msg_id, &mut draft) {
        Ok(()) => Ok(draft),
        Err(fault) => {
            drop(draft);
            Err(fault)
        }
    }
}
