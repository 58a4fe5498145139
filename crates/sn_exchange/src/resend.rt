//! Resend: the frame of the open exchange is sent again, under the same message id (MQTT-SN 1.2
//! section 6.13).

ghost use Rattle.std.specs.Prelude.{◌≡◌, ◌≤◌, IfOk, OnOk};
ghost use Rattle.std.specs.Option.{option_copied};
ghost use Rattle.sn_frame.specs.declared.frame.TheConstants.{MAX_FRAME};
ghost use Rattle.sn_frame.specs.Bodies.{IsMessage};
ghost use Rattle.sn_frame.specs.Grammar.{total_of};
ghost use Rattle.sn_exchange.specs.Resending as spec;

use super::delivery::{deliver_if, deliver_left, send};
use super::exchange::{message_of, open_exchange, put_left, session_after};
use super::form::{Form, form_again, publication};
use super::peer::{Peer, Visit};
use octets::{NoMemory, Octets};
use rep_ops::Put;
use sn_frame::Frame;
use sn_local::LocalChange;
use sn_plan::Draft;
use sn_session::{Outbound, Phase, Session, SessionOp};
use sn_tables::TopicEntry;
use std::alloc::Global;

/// And then a frame of the exchange, again. Answers that it stops.
fn again(alloc: Global, peer: &Peer, frame: Frame, draft: &mut Draft) -> Result<bool, NoMemory>
    requires message { IsMessage frame }
    requires size { total_of frame ≤ MAX_FRAME }
    ensures { IfOk result (λ stops. (stops, draft.new) ≡ spec.again peer.now frame draft.old) }
{
    send(alloc, peer, frame, draft)?;
    draft.note(LocalChange::Resent {
        client: peer.client.copied(alloc)?,
        moment: peer.moment,
    })?;
    Ok(true)
}

/// And then the end of the exchange. Answers that Delivery follows.
fn give_up(session: &Session, draft: &mut Draft) -> Result<bool, NoMemory>
    ensures { IfOk result (λ stops. (stops, draft.new) ≡ spec.given_up session.now
        draft.old) }
{
    draft.change(SessionOp::Outbound {
        exchange: None,
        next_id: session.next_id,
    })?;
    Ok(false)
}

/// And then the REGISTER with the id of this entry.
fn register_by(
    alloc: Global,
    visit: &Visit<'_>,
    put: &Put,
    msg_id: u16,
    entry: Option<&TopicEntry>,
    draft: &mut Draft,
) -> Result<bool, NoMemory>
    ensures { IfOk result (λ stops. (stops, draft.new) ≡ spec.register_by visit.now.peer.now
        visit.now.session.now put.now msg_id (option_copied entry.entry) draft.old) }
{
    match entry {
        None => give_up(visit.session, draft),
        Some(entry) => {
            let frame = Frame::Register {
                topic_id: entry.id,
                msg_id,
                name: Octets::from_slice(alloc, put.topic.bytes())?,
            };
            again(alloc, visit.peer, frame, draft)
        }
    }
}

/// And then the REGISTER for this message.
fn register_again(
    alloc: Global,
    visit: &Visit<'_>,
    msg_id: u16,
    put: Option<&Put>,
    draft: &mut Draft,
) -> Result<bool, NoMemory>
    ensures { IfOk result (λ stops. (stops, draft.new) ≡ spec.register_again visit.now.peer.now
        visit.now.session.now msg_id (option_copied put.entry) draft.old) }
{
    match put {
        None => give_up(visit.session, draft),
        Some(put) => {
            let entry = visit.session.topic_named(&put.topic);
            register_by(alloc, visit, put, msg_id, entry, draft)
        }
    }
}

/// And then the PUBLISH with DUP, in this form.
fn publish_by(
    alloc: Global,
    visit: &Visit<'_>,
    put: &Put,
    msg_id: u16,
    form: Option<Form>,
    draft: &mut Draft,
) -> Result<bool, NoMemory>
    ensures { IfOk result (λ stops. (stops, draft.new) ≡ spec.publish_by visit.now.peer.now
        visit.now.session.now put.now msg_id form draft.old) }
{
    match form {
        None => give_up(visit.session, draft),
        Some(form) => {
            let frame = publication(alloc, true, put, msg_id, form)?;
            again(alloc, visit.peer, frame, draft)
        }
    }
}

/// And then the PUBLISH of this message, with DUP.
fn publish_again(
    alloc: Global,
    visit: &Visit<'_>,
    msg_id: u16,
    put: Option<&Put>,
    draft: &mut Draft,
) -> Result<bool, NoMemory>
    ensures { IfOk result (λ stops. (stops, draft.new) ≡ spec.publish_again
        visit.now.predefined.now visit.now.peer.now visit.now.session.now msg_id
        (option_copied put.entry) draft.old) }
{
    match put {
        None => give_up(visit.session, draft),
        Some(put) => {
            let form = form_again(visit.predefined, visit.session, &put.topic);
            publish_by(alloc, visit, put, msg_id, form, draft)
        }
    }
}

/// And then the frame of an exchange of this phase. Answers whether it stops there.
fn resend_in(
    alloc: Global,
    visit: &Visit<'_>,
    msg_id: u16,
    phase: Phase,
    put: Option<&Put>,
    draft: &mut Draft,
) -> Result<bool, NoMemory>
    ensures { IfOk result (λ stops. (stops, draft.new) ≡ spec.resend_in visit.now.predefined.now
        visit.now.peer.now visit.now.session.now msg_id phase (option_copied put.entry)
        draft.old) }
{
    match phase {
        Phase::Registering => register_again(alloc, visit, msg_id, put, draft),
        Phase::Published => publish_again(alloc, visit, msg_id, put, draft),
        Phase::Released => again(alloc, visit.peer, Frame::PubRel { msg_id }, draft),
    }
}

/// And then Resend of an exchange. Where its topic has neither form nor entry, the exchange ends
/// and Delivery follows.
fn resend(
    alloc: Global,
    visit: &Visit<'_>,
    exchange: Outbound,
    draft: &mut Draft,
) -> Result<(), NoMemory>
    ensures { OnOk result (draft.new ≡ spec.resend visit.now.predefined.now visit.now.peer.now
        visit.now.session.now visit.now.pending.now exchange draft.old) }
{
    let put = put_left(draft.acks(), visit.pending, message_of(exchange));
    let stops = resend_in(alloc, visit, exchange.msg_id, exchange.phase, put, draft)?;
    if stops {
        return Ok(());
    }
    deliver_left(alloc, visit, draft)
}

/// And then Resend, where there is an open exchange, else Delivery.
fn resend_if(
    alloc: Global,
    visit: &Visit<'_>,
    exchange: Option<Outbound>,
    draft: &mut Draft,
) -> Result<(), NoMemory>
    ensures { OnOk result (draft.new ≡ spec.resend_if visit.now.predefined.now visit.now.peer.now
        visit.now.session.now visit.now.pending.now exchange draft.old) }
{
    match exchange {
        None => deliver_if(alloc, visit, draft),
        Some(exchange) => resend(alloc, visit, exchange, draft),
    }
}

/// And then Resend, where an exchange is open, else Delivery.
fn resend_or_deliver(alloc: Global, visit: &Visit<'_>, draft: &mut Draft) -> Result<(), NoMemory>
    ensures { OnOk result (draft.new ≡ spec.resend_or_deliver visit.now.predefined.now
        visit.now.peer.now visit.now.session.now visit.now.pending.now draft.old) }
{
    let exchange = open_exchange(visit.session, draft.acks(), visit.pending);
    resend_if(alloc, visit, exchange, draft)
}

/// And then Resend, where an exchange is open, else Delivery: by the session as the step so far has
/// changed it. A session that did not change is not copied.
pub fn then_resend(alloc: Global, visit: &Visit<'_>, draft: &mut Draft) -> Result<(), NoMemory>
    ensures { OnOk result (draft.new ≡ spec.then_resend visit.now.predefined.now
        visit.now.peer.now visit.now.session.now visit.now.pending.now draft.old) }
{
    if draft.changes().is_empty() {
        return resend_or_deliver(alloc, visit, draft);
    }
    let session = session_after(alloc, visit.session, draft)?;
    let after = Visit {
        predefined: visit.predefined,
        peer: visit.peer,
        session: &session,
        pending: visit.pending,
    };
    resend_or_deliver(alloc, &after, draft)
}
