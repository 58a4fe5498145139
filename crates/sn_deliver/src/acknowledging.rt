//! PUBACK, PUBREC, PUBCOMP and REGACK of a client (MQTT-SN 1.2 sections 6.5, 6.6 and 6.10).

ghost use Rattle.std.specs.Prelude.{◌≡◌, IfOk, OnOk};
ghost use Rattle.std.specs.Option.{option_copied};
ghost use Rattle.sn_plan.specs.Drafts.{nothing};
ghost use Rattle.sn_deliver.specs.Acknowledging as spec;

use octets::NoMemory;
use rep_ops::Put;
use sn_exchange::{Form, Peer, Visit, form_again, message_of, open_exchange, put_named, send};
use sn_frame::{Frame, TopicIdType};
use sn_local::LocalChange;
use sn_plan::{Draft, finished};
use sn_session::{Outbound, Phase, Session, SessionOp};
use sn_tables::TopicEntry;
use sn_topic::{Predefined, TopicName};
use std::alloc::Global;

/// Whether two phases are one.
fn same_phase(a: Phase, b: Phase) -> bool
    ensures { result ≡ spec.same_phase a b }
{
    match a {
        Phase::Registering => match b {
            Phase::Registering => true,
            Phase::Published => false,
            Phase::Released => false,
        },
        Phase::Published => match b {
            Phase::Registering => false,
            Phase::Published => true,
            Phase::Released => false,
        },
        Phase::Released => match b {
            Phase::Registering => false,
            Phase::Published => false,
            Phase::Released => true,
        },
    }
}

/// The exchange, where it is in this phase and has this message id.
fn if_awaits(phase: Phase, msg_id: u16, exchange: Option<Outbound>) -> Option<Outbound>
    ensures { result ≡ spec.if_awaits phase msg_id exchange }
{
    match exchange {
        None => None,
        Some(exchange) => {
            if same_phase(exchange.phase, phase) && exchange.msg_id == msg_id {
                Some(exchange)
            } else {
                None
            }
        }
    }
}

/// The open exchange, where it is in this phase and has this message id.
fn awaiting(session: &Session, pending: &[Put], phase: Phase, msg_id: u16) -> Option<Outbound>
    ensures { result ≡ spec.awaiting session.now pending.now phase msg_id }
{
    if_awaits(phase, msg_id, open_exchange(session, &[], pending))
}

/// The message of an exchange.
fn put_of_exchange(pending: &[Put], exchange: Option<Outbound>) -> Option<&Put>
    ensures { option_copied result ≡ spec.put_of_exchange pending.now exchange }
{
    match exchange {
        None => None,
        Some(exchange) => put_named(message_of(exchange), pending),
    }
}

/// The message of the open exchange, where that is in this phase and has this message id.
fn put_awaiting<'a>(
    session: &Session,
    pending: &'a [Put],
    phase: Phase,
    msg_id: u16,
) -> Option<&'a Put>
    ensures { option_copied result ≡ spec.put_awaiting session.now pending.now phase msg_id }
{
    put_of_exchange(pending, awaiting(session, pending, phase, msg_id))
}

/// And then the exchange is over.
fn over(session: &Session, draft: &mut Draft) -> Result<(), NoMemory>
    ensures { OnOk result (draft.new ≡ spec.over session.now draft.old) }
{
    draft.change(SessionOp::Outbound {
        exchange: None,
        next_id: session.next_id,
    })?;
    Ok(())
}

/// The message is done with.
fn done(session: &Session, put: &Put, draft: &mut Draft) -> Result<(), NoMemory>
    requires { draft.old ≡ nothing }
    ensures { OnOk result (draft.new ≡ spec.done session.now put.now) }
{
    draft.ack(put.seq, put.origin)?;
    over(session, draft)
}

/// And then the client has this id for the name, or has it no more.
fn tell(alloc: Global, entry: &TopicEntry, known: bool, draft: &mut Draft) -> Result<(), NoMemory>
    ensures { OnOk result (draft.new ≡ spec.id_told entry.now known draft.old) }
{
    draft.change(SessionOp::Register {
        id: entry.id,
        name: entry.name.copied(alloc)?,
        known,
    })?;
    Ok(())
}

/// The entry, where the topic field holds an id of the session.
fn entry_by_kind(entry: Option<&TopicEntry>, kind: TopicIdType) -> Option<&TopicEntry>
    ensures { option_copied result ≡ spec.entry_by_kind (option_copied entry.entry) kind }
{
    match kind {
        TopicIdType::Normal => entry,
        TopicIdType::Predefined => None,
        TopicIdType::Short => None,
        TopicIdType::Reserved => None,
    }
}

/// The entry, where the form is an id of the session.
fn entry_if_normal(entry: Option<&TopicEntry>, form: Option<Form>) -> Option<&TopicEntry>
    ensures { option_copied result ≡ spec.entry_if_normal (option_copied entry.entry) form }
{
    match form {
        None => None,
        Some(form) => entry_by_kind(entry, form.kind),
    }
}

/// The entry of a topic that is published under its id.
fn entry_published<'a>(
    predefined: &Predefined,
    session: &'a Session,
    name: &TopicName,
) -> Option<&'a TopicEntry>
    ensures { option_copied result ≡ spec.entry_published predefined.now session.now name.now }
{
    let form = form_again(predefined, session, name);
    entry_if_normal(session.topic_named(name), form)
}

/// The client does not know the id: it is forgotten, and the message goes on waiting. By another
/// form the message is done with.
fn forget(
    alloc: Global,
    session: &Session,
    put: &Put,
    entry: Option<&TopicEntry>,
    draft: &mut Draft,
) -> Result<(), NoMemory>
    requires { draft.old ≡ nothing }
    ensures { OnOk result (draft.new ≡ spec.forgotten session.now put.now
        (option_copied entry.entry)) }
{
    match entry {
        None => done(session, put, draft),
        Some(entry) => {
            tell(alloc, entry, false, draft)?;
            over(session, draft)
        }
    }
}

/// PUBACK with this code for this message.
fn puback_put(
    alloc: Global,
    predefined: &Predefined,
    session: &Session,
    code: u8,
    put: &Put,
    draft: &mut Draft,
) -> Result<(), NoMemory>
    requires { draft.old ≡ nothing }
    ensures { OnOk result (draft.new ≡ spec.puback_put predefined.now session.now
        code put.now) }
{
    if code == 0 {
        if put.qos.number() == 1 {
            return done(session, put, draft);
        }
        return Ok(());
    }
    if code == 1 {
        return Ok(());
    }
    if code == 2 {
        let entry = entry_published(predefined, session, &put.topic);
        return forget(alloc, session, put, entry, draft);
    }
    done(session, put, draft)
}

/// PUBACK with this code for this message, if there is one.
fn puback_of(
    alloc: Global,
    predefined: &Predefined,
    session: &Session,
    code: u8,
    put: Option<&Put>,
    draft: &mut Draft,
) -> Result<(), NoMemory>
    requires { draft.old ≡ nothing }
    ensures { OnOk result (draft.new ≡ spec.puback_of predefined.now session.now code
        (option_copied put.entry)) }
{
    match put {
        None => Ok(()),
        Some(put) => puback_put(alloc, predefined, session, code, put, draft),
    }
}

/// PUBACK.
fn puback(
    alloc: Global,
    visit: &Visit<'_>,
    msg_id: u16,
    code: u8,
    draft: &mut Draft,
) -> Result<(), NoMemory>
    requires { draft.old ≡ nothing }
    ensures { OnOk result (draft.new ≡ spec.puback visit.now.predefined.now visit.now.session.now
        visit.now.pending.now msg_id code) }
{
    let put = put_awaiting(visit.session, visit.pending, Phase::Published, msg_id);
    puback_of(alloc, visit.predefined, visit.session, code, put, draft)
}

/// And then the PUBREL of the open exchange.
fn send_pubrel(alloc: Global, peer: &Peer, msg_id: u16, draft: &mut Draft) -> Result<(), NoMemory>
    ensures { OnOk result (draft.new ≡ spec.pubrel_sent peer.now msg_id draft.old) }
{
    send(alloc, peer, Frame::PubRel { msg_id }, draft)?;
    draft.note(LocalChange::Resent {
        client: peer.client.copied(alloc)?,
        moment: peer.moment,
    })?;
    Ok(())
}

/// The message is with the client, and the exchange waits for PUBCOMP.
fn released(session: &Session, exchange: Outbound, draft: &mut Draft) -> Result<(), NoMemory>
    requires { draft.old ≡ nothing }
    ensures { OnOk result (draft.new ≡ spec.released session.now exchange) }
{
    draft.ack(exchange.seq, exchange.origin)?;
    draft.change(SessionOp::Outbound {
        exchange: Some(Outbound {
            origin: exchange.origin,
            seq: exchange.seq,
            msg_id: exchange.msg_id,
            phase: Phase::Released,
        }),
        next_id: session.next_id,
    })?;
    Ok(())
}

/// Whether there is a message at quality of service 2.
fn is_at_two(put: Option<&Put>) -> bool
    ensures { result ≡ spec.is_at_two (option_copied put.entry) }
{
    match put {
        None => false,
        Some(put) => put.qos.number() == 2,
    }
}

/// The exchange of a message at quality of service 2, where it waits for this PUBREC.
fn awaiting_pubrec(session: &Session, pending: &[Put], msg_id: u16) -> Option<Outbound>
    ensures { result ≡ spec.awaiting_pubrec session.now pending.now msg_id }
{
    if is_at_two(put_awaiting(session, pending, Phase::Published, msg_id)) {
        awaiting(session, pending, Phase::Published, msg_id)
    } else {
        None
    }
}

/// PUBREC that no message waits for; of an exchange that waits for PUBCOMP it is a repetition.
fn pubrec_again(
    alloc: Global,
    peer: &Peer,
    msg_id: u16,
    exchange: Option<Outbound>,
    draft: &mut Draft,
) -> Result<(), NoMemory>
    requires { draft.old ≡ nothing }
    ensures { OnOk result (draft.new ≡ spec.pubrec_again peer.now msg_id exchange) }
{
    match exchange {
        None => send(alloc, peer, Frame::PubRel { msg_id }, draft),
        Some(_) => send_pubrel(alloc, peer, msg_id, draft),
    }
}

/// PUBREC of this exchange, if there is one.
fn pubrec_of(
    alloc: Global,
    visit: &Visit<'_>,
    msg_id: u16,
    exchange: Option<Outbound>,
    draft: &mut Draft,
) -> Result<(), NoMemory>
    requires { draft.old ≡ nothing }
    ensures { OnOk result (draft.new ≡ spec.pubrec_of visit.now.peer.now visit.now.session.now
        visit.now.pending.now msg_id exchange) }
{
    match exchange {
        None => {
            let released = awaiting(visit.session, visit.pending, Phase::Released, msg_id);
            pubrec_again(alloc, visit.peer, msg_id, released, draft)
        }
        Some(exchange) => {
            released(visit.session, exchange, draft)?;
            send_pubrel(alloc, visit.peer, msg_id, draft)
        }
    }
}

/// PUBREC. PUBREL is always the answer.
fn pubrec(alloc: Global, visit: &Visit<'_>, msg_id: u16, draft: &mut Draft) -> Result<(), NoMemory>
    requires { draft.old ≡ nothing }
    ensures { OnOk result (draft.new ≡ spec.pubrec visit.now.peer.now visit.now.session.now
        visit.now.pending.now msg_id) }
{
    let exchange = awaiting_pubrec(visit.session, visit.pending, msg_id);
    pubrec_of(alloc, visit, msg_id, exchange, draft)
}

/// PUBCOMP of this exchange, if there is one.
fn pubcomp_of(
    session: &Session,
    exchange: Option<Outbound>,
    draft: &mut Draft,
) -> Result<(), NoMemory>
    requires { draft.old ≡ nothing }
    ensures { OnOk result (draft.new ≡ spec.pubcomp_of session.now exchange) }
{
    if exchange.is_some() {
        return over(session, draft);
    }
    Ok(())
}

/// PUBCOMP.
fn pubcomp(
    session: &Session,
    pending: &[Put],
    msg_id: u16,
    draft: &mut Draft,
) -> Result<(), NoMemory>
    requires { draft.old ≡ nothing }
    ensures { OnOk result (draft.new ≡ spec.pubcomp session.now pending.now msg_id) }
{
    let exchange = awaiting(session, pending, Phase::Released, msg_id);
    pubcomp_of(session, exchange, draft)
}

/// The client knows the id of the topic from now on.
fn id_known(
    alloc: Global,
    session: &Session,
    entry: Option<&TopicEntry>,
    draft: &mut Draft,
) -> Result<(), NoMemory>
    requires { draft.old ≡ nothing }
    ensures { OnOk result (draft.new ≡ spec.id_known session.now
        (option_copied entry.entry)) }
{
    match entry {
        None => Ok(()),
        Some(entry) => {
            tell(alloc, entry, true, draft)?;
            over(session, draft)
        }
    }
}

/// REGACK with this code for this message.
fn regack_put(
    alloc: Global,
    session: &Session,
    code: u8,
    put: &Put,
    draft: &mut Draft,
) -> Result<(), NoMemory>
    requires { draft.old ≡ nothing }
    ensures { OnOk result (draft.new ≡ spec.regack_put session.now code put.now) }
{
    if code == 0 {
        return id_known(alloc, session, session.topic_named(&put.topic), draft);
    }
    if code == 1 {
        return Ok(());
    }
    done(session, put, draft)
}

/// REGACK with this code for this message, if there is one.
fn regack_of(
    alloc: Global,
    session: &Session,
    code: u8,
    put: Option<&Put>,
    draft: &mut Draft,
) -> Result<(), NoMemory>
    requires { draft.old ≡ nothing }
    ensures { OnOk result (draft.new ≡ spec.regack_of session.now code
        (option_copied put.entry)) }
{
    match put {
        None => Ok(()),
        Some(put) => regack_put(alloc, session, code, put, draft),
    }
}

/// REGACK.
fn regack(
    alloc: Global,
    session: &Session,
    pending: &[Put],
    msg_id: u16,
    code: u8,
    draft: &mut Draft,
) -> Result<(), NoMemory>
    requires { draft.old ≡ nothing }
    ensures { OnOk result (draft.new ≡ spec.regack session.now pending.now msg_id code) }
{
    let put = put_awaiting(session, pending, Phase::Registering, msg_id);
    regack_of(alloc, session, code, put, draft)
}

/// Writes an acknowledgement into a draft of nothing.
fn write_acknowledgement(
    alloc: Global,
    visit: &Visit<'_>,
    frame: &Frame,
    draft: &mut Draft,
) -> Result<(), NoMemory>
    requires { draft.old ≡ nothing }
    ensures { OnOk result (draft.new ≡ spec.acknowledge visit.now.predefined.now
        visit.now.peer.now visit.now.session.now visit.now.pending.now frame.now) }
{
    match frame {
        Frame::PubAck { msg_id, code, .. } => puback(alloc, visit, *msg_id, *code, draft),
        Frame::PubRec { msg_id } => pubrec(alloc, visit, *msg_id, draft),
        Frame::PubComp { msg_id } => pubcomp(visit.session, visit.pending, *msg_id, draft),
        Frame::RegAck { msg_id, code, .. } => {
            regack(alloc, visit.session, visit.pending, *msg_id, *code, draft)
        }
        _ => Ok(()),
    }
}

/// An acknowledgement of a connected client: PUBACK, PUBREC, PUBCOMP or REGACK. What nothing waits
/// for does nothing, but PUBREC is always answered.
pub fn acknowledge(alloc: Global, visit: &Visit<'_>, frame: &Frame) -> Result<Draft, NoMemory>
    ensures { IfOk result (λ draft. draft ≡ spec.acknowledge visit.now.predefined.now
        visit.now.peer.now visit.now.session.now visit.now.pending.now frame.now) }
{
    let mut draft = Draft::new(alloc);
    let done = write_acknowledgement(alloc, visit, frame, &mut draft);
    finished(draft, done)
}
