//! Who gets a publication, and at which quality of service (MQTT-SN 1.2 section 6.10). A
//! publication goes from candidate to candidate, and passes over clients that are not subscribed to
//! its topic.

ghost use Rattle.std.specs.Prelude.{◌≡◌, filter, IfOk};
ghost use Rattle.std.specs.Option.{option_map};
ghost use Rattle.sn_local.specs.Seen.{seen_of};
ghost use Rattle.rep_model.specs.Views.{view};
ghost use Rattle.sn_publish.specs.Recipients.{message_for};
ghost use Rattle.sn_publish.specs.Recipients as spec;

use octets::NoMemory;
use rep_model::rep_ops::{ClientId, Put};
use rep_model::{ClientView, Replica};
use sn_plan::{MAX_PENDING, NewPut, is_up};
use sn_session::{Message, Presence, Session, Will};
use sn_tables::QosLevel;
use sn_topic::TopicName;
use std::alloc::Global;

/// At this quality of service, where there is room and the client is there or gets the message at
/// least once.
fn admitted(pending: &[Put], presence: Presence, qos: QosLevel) -> Option<QosLevel>
    ensures { result ≡ spec.admitted pending.now presence qos }
{
    if pending.len() < MAX_PENDING && (is_up(presence) || 0 < qos.number()) {
        Some(qos)
    } else {
        None
    }
}

/// At the smaller of the two qualities of service.
fn effective_qos(
    pending: &[Put],
    qos: QosLevel,
    session: &Session,
    asked: QosLevel,
) -> Option<QosLevel>
    ensures { result ≡ spec.effective_qos pending.now qos session.now asked }
{
    admitted(pending, session.presence, qos.min(asked))
}

/// At the quality of service that the client subscribed to, at most.
fn qos_in(pending: &[Put], topic: &TopicName, qos: QosLevel, session: &Session) -> Option<QosLevel>
    ensures { result ≡ spec.qos_in pending.now topic.now qos session.now }
{
    match session.subscribed_qos(topic) {
        None => None,
        Some(asked) => effective_qos(pending, qos, session, asked),
    }
}

/// The quality of service at which a client gets the publication; nothing where it is no recipient.
fn qos_for(topic: &TopicName, qos: QosLevel, view: &ClientView) -> Option<QosLevel>
    ensures { result ≡ spec.qos_for topic.now qos view.now }
{
    match &view.session {
        None => None,
        Some(session) => qos_in(view.pending.as_slice(), topic, qos, session),
    }
}

/// The message for a client of this view, where it is a recipient.
fn put_at(
    alloc: Global,
    topic: &TopicName,
    qos: QosLevel,
    body: &Message,
    client: &ClientId,
    view: &ClientView,
) -> Result<Option<NewPut>, NoMemory>
    ensures { IfOk result (λ put.
        put ≡ option_map (message_for topic.now body.now client.now)
        (spec.qos_for topic.now qos view.now)) }
{
    match qos_for(topic, qos, view) {
        None => Ok(None),
        Some(qos) => Ok(Some(NewPut {
            client: client.copied(alloc)?,
            topic: topic.copied(alloc)?,
            qos,
            body: body.copied(alloc)?,
        })),
    }
}

/// A message for each recipient of the publication, in the order of the clients. Only candidates
/// are asked: whoever the replica passes over is not subscribed, and is no recipient.
pub fn puts_for<R: Replica>(
    alloc: Global,
    replica: &R,
    topic: &TopicName,
    qos: QosLevel,
    body: &Message,
) -> Result<Vec<NewPut>, NoMemory>
    ensures { IfOk result (λ puts. puts.items ≡ spec.puts_for (seen_of (R.kept replica.now))
        topic.now qos body.now) }
{
    let mut puts = Vec::new(alloc);
    let mut place = 0;
    while let Some((behind, client, view)) = replica.next_candidate(topic, place) {
        if let Some(put) = put_at(alloc, topic, qos, body, client, view)? {
            puts.push(put)?;
        }
        place = behind;
    }
    Ok(puts)
}

/// Whether it is another client.
fn is_another(client: &ClientId, other: &ClientId) -> bool
    ensures { result ≡ spec.is_another client.now other.now }
{
    *other != *client
}

/// Leaves out what is for a client.
fn leave_out(puts: &mut Vec<NewPut>, client: &ClientId)
    ensures { puts.new.items
        ≡ filter (λ put. spec.is_another client.now put.client) puts.old.items }
{
    puts.retain(|put| is_another(client, &put.client));
}

/// A message for each recipient of a will, but not for the client whose will it is.
pub fn puts_of_will<R: Replica>(
    alloc: Global,
    replica: &R,
    client: &ClientId,
    will: &Will,
) -> Result<Vec<NewPut>, NoMemory>
    ensures { IfOk result (λ puts. puts.items ≡ spec.puts_of_will (seen_of (R.kept replica.now))
        client.now will.now) }
{
    let mut puts = puts_for(alloc, replica, &will.topic, will.qos, &will.message)?;
    leave_out(&mut puts, client);
    Ok(puts)
}
