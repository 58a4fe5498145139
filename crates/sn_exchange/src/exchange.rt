//! The open exchange of a client, and the messages that are left.

ghost use Rattle.std.specs.Prelude.{◌≡◌, fold, OnOk, IfOk};
ghost use Rattle.std.specs.Option.{option_copied};
ghost use Rattle.sn_session.specs.Session.{applied};
ghost use Rattle.rep_op.specs.Orders as orders;
ghost use Rattle.sn_plan.specs.Drafts as drafts;
ghost use Rattle.sn_exchange.specs.Exchanges as spec;

use octets::NoMemory;
use rep_ops::Put;
use sn_plan::{Draft, apply};
use sn_session::{Outbound, Phase, Presence, Session, SessionOp};
use std::alloc::Global;

/// Changes the session by these operations, one after the other.
fn apply_all(alloc: Global, session: &mut Session, changes: &[SessionOp]) -> Result<(), NoMemory>
    ensures { OnOk result (session.new ≡ fold applied session.old changes.now) }
{
    for change in changes {
        apply(session, alloc, change)?;
    }
    Ok(())
}

/// The session after the changes of a draft.
pub fn session_after(alloc: Global, session: &Session, draft: &Draft) -> Result<Session, NoMemory>
    ensures { IfOk result (λ made. made ≡ drafts.session_after session.now draft.now) }
{
    let mut made = session.copied(alloc)?;
    apply_all(alloc, &mut made, draft.changes())?;
    Ok(made)
}

/// Whether two names of messages are one.
fn same_name(a: (u64, u8), b: (u64, u8)) -> bool
    ensures { result ≡ spec.same_name a b }
{
    a.0 == b.0 && a.1 == b.1
}

/// Whether a message is acknowledged in this step.
pub fn is_done(acks: &[(u64, u8)], name: (u64, u8)) -> bool
    ensures { result ≡ spec.is_done acks.now name }
{
    acks.iter().any(|ack| same_name(*ack, name))
}

/// The name of a message: sequence number and origin.
pub fn name_of(put: &Put) -> (u64, u8)
    ensures { result ≡ orders.name_of put.now }
{
    (put.seq, put.origin)
}

/// Whether a message that waits is left.
pub fn is_left(acks: &[(u64, u8)], put: &Put) -> bool
    ensures { result ≡ spec.is_left acks.now put.now }
{
    !is_done(acks, name_of(put))
}

/// Whether a message that waits is left, where the messages are asked for in their order. `turn` is
/// the place of the acknowledgement that comes next, if they come in that order too, as those of a
/// CONNECT with CleanSession do: then none is looked for.
pub fn is_left_in_turn(acks: &[(u64, u8)], turn: &mut usize, put: &Put) -> bool
    ensures { result ≡ spec.is_left acks.now put.now }
{
    if *turn < acks.len() && same_name(acks[*turn], name_of(put)) {
        *turn += 1;
        return false;
    }
    is_left(acks, put)
}

/// The message of a name.
pub fn put_named(name: (u64, u8), pending: &[Put]) -> Option<&Put>
    ensures { option_copied result ≡ spec.put_named name pending.now }
{
    for put in pending {
        if same_name(name_of(put), name) {
            return Some(put);
        }
    }
    None
}

/// The message of a name, where it is left.
pub fn put_left<'a>(acks: &[(u64, u8)], pending: &'a [Put], name: (u64, u8)) -> Option<&'a Put>
    ensures { option_copied result ≡ spec.put_left acks.now pending.now name }
{
    if is_done(acks, name) {
        return None;
    }
    put_named(name, pending)
}

/// The name of the message of an exchange.
pub fn message_of(exchange: Outbound) -> (u64, u8)
    ensures { result ≡ spec.message_of exchange }
{
    (exchange.seq, exchange.origin)
}

/// Whether an exchange of this phase is open, with its message where that is left.
fn is_open_in(session: &Session, phase: Phase, put: Option<&Put>) -> bool
    ensures { result ≡ spec.is_open_in session.now phase (option_copied put.entry) }
{
    match phase {
        Phase::Registering => match put {
            None => false,
            Some(put) => session.topic_named(&put.topic).is_some(),
        },
        Phase::Published => match put {
            None => false,
            Some(put) => 0 < put.qos.number(),
        },
        Phase::Released => true,
    }
}

/// Whether an exchange is open. One that waits for PUBCOMP is, whatever waits: its message is not
/// looked for.
fn is_open_among(session: &Session, acks: &[(u64, u8)], pending: &[Put], exchange: Outbound) -> bool
    ensures { result ≡ spec.is_open_in session.now exchange.phase
        (spec.put_left acks.now pending.now (spec.message_of exchange)) }
{
    match exchange.phase {
        Phase::Released => is_open_in(session, Phase::Released, None),
        phase => {
            let put = put_left(acks, pending, message_of(exchange));
            is_open_in(session, phase, put)
        }
    }
}

/// The exchange, if it is open.
fn if_open(
    session: &Session,
    acks: &[(u64, u8)],
    pending: &[Put],
    exchange: Option<Outbound>,
) -> Option<Outbound>
    ensures { result ≡ spec.if_open session.now acks.now pending.now exchange }
{
    match exchange {
        None => None,
        Some(exchange) => {
            if is_open_among(session, acks, pending, exchange) {
                Some(exchange)
            } else {
                None
            }
        }
    }
}

/// The open exchange. One that is not open counts as none.
pub fn open_exchange(session: &Session, acks: &[(u64, u8)], pending: &[Put]) -> Option<Outbound>
    ensures { result ≡ spec.open_exchange session.now acks.now pending.now }
{
    if_open(session, acks, pending, session.outbound)
}

/// Whether a client is sent its messages: it is Active or Awake.
pub fn is_served(presence: Presence) -> bool
    ensures { result ≡ spec.is_served presence }
{
    match presence {
        Presence::Active => true,
        Presence::Asleep => false,
        Presence::Awake => true,
        Presence::Disconnected => false,
        Presence::Lost => false,
    }
}

/// Whether a client is Awake.
pub fn is_awake(presence: Presence) -> bool
    ensures { result ≡ spec.is_awake presence }
{
    match presence {
        Presence::Active => false,
        Presence::Asleep => false,
        Presence::Awake => true,
        Presence::Disconnected => false,
        Presence::Lost => false,
    }
}
