//! REGISTER (MQTT-SN 1.2 section 6.5), and the topic id of a name.

ghost use Rattle.std.specs.Prelude.{◌≡◌, IfOk};
ghost use Rattle.sn_frame.specs.declared.frame.Frame.TheVariants.{RegAck};
ghost use Rattle.sn_plan.specs.Drafts.{nothing, sent};
ghost use Rattle.sn_subscribe.specs.Registration as spec;

use super::drafting::answered;
use octets::NoMemory;
use sn_frame::Frame;
use sn_local::Addr;
use sn_plan::{ACCEPTED, CONGESTION, Draft, NOT_SUPPORTED, name_asked};
use sn_session::{Session, SessionOp};
use sn_tables::TopicEntry;
use sn_topic::TopicName;
use std::alloc::Global;

/// The topic id of a name, and the change that the session needs for it, if it needs one.
#[derive(Drop)]
pub struct NamedId {
    /// The topic id.
    pub id: u16,
    /// The change that enters it into the session, where it is not there yet.
    pub change: Option<SessionOp>,
}

/// The id of an entry of the name, which the client knows from now on.
fn entry_id(alloc: Global, name: &TopicName, entry: &TopicEntry) -> Result<NamedId, NoMemory>
    ensures { IfOk result (λ named. named ≡ spec.entry_id name.now entry.now) }
{
    if entry.known {
        return Ok(NamedId {
            id: entry.id,
            change: None,
        });
    }
    new_id(alloc, name, entry.id)
}

/// A new id of the name.
fn new_id(alloc: Global, name: &TopicName, id: u16) -> Result<NamedId, NoMemory>
    ensures { IfOk result (λ named. named ≡ spec.new_id name.now id) }
{
    let name = name.copied(alloc)?;
    Ok(NamedId {
        id,
        change: Some(SessionOp::Register {
            id,
            name,
            known: true,
        }),
    })
}

/// The id of the name, and the change that the session needs for it: that of its entry, or else the
/// least free one; nothing where no id is free.
pub fn id_for(
    alloc: Global,
    session: &Session,
    name: &TopicName,
) -> Result<Option<NamedId>, NoMemory>
    ensures { IfOk result (λ named. named ≡ spec.id_for session.now name.now) }
{
    if let Some(entry) = session.topic_named(name) {
        return Ok(Some(entry_id(alloc, name, entry)?));
    }
    match session.free_id() {
        None => Ok(None),
        Some(id) => Ok(Some(new_id(alloc, name, id)?)),
    }
}

/// Answers with that id, and changes the session where it needs a change.
fn registered(
    alloc: Global,
    to: Addr,
    msg_id: u16,
    named: Option<NamedId>,
) -> Result<Draft, NoMemory>
    ensures { IfOk result (λ draft. draft ≡ spec.registered to msg_id named) }
{
    match named {
        None => refuse(alloc, to, msg_id, CONGESTION),
        Some(named) => {
            let NamedId { id, change } = named;
            let answer = Frame::RegAck {
                topic_id: id,
                msg_id,
                code: ACCEPTED,
            };
            answered(alloc, to, change, answer)
        }
    }
}

/// Refuses a REGISTER by this code.
fn refuse(alloc: Global, to: Addr, msg_id: u16, code: u8) -> Result<Draft, NoMemory>
    ensures { IfOk result (λ draft. draft ≡ sent to (RegAck 0 msg_id code) nothing) }
{
    let answer = Frame::RegAck {
        topic_id: 0,
        msg_id,
        code,
    };
    Draft::reply(alloc, to, answer)
}

/// REGISTER: the client names a topic and asks for its id, which it knows from then on. REGACK has
/// the id, or says why there is none: the octets are no topic name, or 256 ids are in use.
pub fn register(
    alloc: Global,
    to: Addr,
    session: &Session,
    msg_id: u16,
    name: &[u8],
) -> Result<Draft, NoMemory>
    ensures { IfOk result (λ draft. draft ≡ spec.register to session.now msg_id name.now) }
{
    match name_asked(alloc, name)? {
        None => refuse(alloc, to, msg_id, NOT_SUPPORTED),
        Some(name) => {
            let named = id_for(alloc, session, &name)?;
            registered(alloc, to, msg_id, named)
        }
    }
}
