//! Writing a session and a change of one.

#![tactic(auto, using(crate::proofs::Writing::keeps_itself, crate::proofs::Writing::keeps_more, crate::proofs::Writing::keeps_through))]

ghost use Rattle.std.specs.Prelude.{◌≡◌, ◌<◌, ◌^◌, ◌++◌, ◌∷◌, [], length, drop, IsTrue};
ghost use Rattle.std.specs.List.{flat_map};
ghost use Rattle.byteorder.specs.Endian.{big_bytes};
ghost use Rattle.rep_op.specs.Ranges.{is_will, is_session, is_change};
ghost use Rattle.rep_op.specs.Sessions.{text_octets, flag_octet, presence_octet, phase_octet, table_octets, option_octets, topic_octets, subscription_octets, session_will_octets, will_topic_octets, exchange_octets, session_octets, change_octets};
ghost use Rattle.rep_write.specs.Writing.{Writes};

use octets::{NoMemory, append_u16, append_u64};
use sn_session::{Outbound, Phase, Presence, Session, SessionOp, Will, WillTopic};
use sn_tables::{QosLevel, Received, Subscription, Subscriptions, TopicEntry, Topics};
use sn_topic::{Filter, TopicName};

/// The octet of a presence.
fn presence_code(presence: Presence) -> u8
    ensures { result ≡ presence_octet presence }
{
    match presence {
        Presence::Active => 0,
        Presence::Asleep => 1,
        Presence::Awake => 2,
        Presence::Disconnected => 3,
        Presence::Lost => 4,
    }
}

/// The octet of a phase.
fn phase_code(phase: Phase) -> u8
    ensures { result ≡ phase_octet phase }
{
    match phase {
        Phase::Registering => 0,
        Phase::Published => 1,
        Phase::Released => 2,
    }
}

/// Writes an octet.
pub fn write_octet(out: &mut Vec<u8>, octet: u8) -> Result<(), NoMemory>
    ensures { Writes (octet ∷ []) out.old.items out.new.items result }
{
    out.push(octet)?;
    Ok(())
}

/// Writes two octets.
pub fn write_two(out: &mut Vec<u8>, first: u8, second: u8) -> Result<(), NoMemory>
    ensures { Writes (first ∷ second ∷ []) out.old.items out.new.items result }
{
    out.extend_from_slice(&[first, second])?;
    Ok(())
}

/// Writes an origin and a sequence number.
pub fn write_number(out: &mut Vec<u8>, origin: u8, seq: u64) -> Result<(), NoMemory>
    ensures { Writes (origin ∷ big_bytes 8 seq) out.old.items out.new.items result }
{
    write_octet(out, origin)?;
    append_u64(out, seq)?;
    Ok(())
}

/// Writes a text.
pub fn write_text(out: &mut Vec<u8>, text: &[u8]) -> Result<(), NoMemory>
    requires { length text.now < 2 ^ 16 }
    ensures { Writes (text_octets text.now) out.old.items out.new.items result }
{
    append_u16(out, text.len() as u16)?;
    out.extend_from_slice(text)?;
    Ok(())
}

/// Writes a topic id, whether the client knows it, and its name.
fn write_named(out: &mut Vec<u8>, id: u16, known: bool, name: &TopicName) -> Result<(), NoMemory>
    ensures { Writes (big_bytes 2 id ++ flag_octet known ∷ text_octets name.now)
        out.old.items out.new.items result }
{
    append_u16(out, id)?;
    out.push(known as u8)?;
    write_text(out, name.bytes())?;
    Ok(())
}

/// Writes a topic id.
fn write_entry(out: &mut Vec<u8>, entry: &TopicEntry) -> Result<(), NoMemory>
    ensures { Writes (topic_octets entry.now) out.old.items out.new.items result }
{
    write_named(out, entry.id, entry.known, &entry.name)
}

/// Writes topic ids one after the other.
fn write_entries(out: &mut Vec<u8>, entries: &[TopicEntry]) -> Result<(), NoMemory>
    ensures { Writes (flat_map topic_octets entries.now) out.old.items out.new.items result }
{
    for entry in entries {
        write_entry(out, entry)?;
    }
    Ok(())
}

/// Writes topic ids.
fn write_topics(out: &mut Vec<u8>, topics: &Topics) -> Result<(), NoMemory>
    ensures { Writes (table_octets topic_octets topics.now) out.old.items out.new.items result }
{
    append_u16(out, topics.len() as u16)?;
    write_entries(out, topics.as_slice())?;
    Ok(())
}

/// Writes a filter and a quality of service.
fn write_filter(out: &mut Vec<u8>, filter: &Filter, qos: QosLevel) -> Result<(), NoMemory>
    ensures { Writes (text_octets filter.now ++ qos ∷ []) out.old.items out.new.items result }
{
    write_text(out, filter.bytes())?;
    out.push(qos.number())?;
    Ok(())
}

/// Writes a subscription.
fn write_subscription(out: &mut Vec<u8>, entry: &Subscription) -> Result<(), NoMemory>
    ensures { Writes (subscription_octets entry.now) out.old.items out.new.items result }
{
    write_filter(out, &entry.filter, entry.qos)
}

/// Writes subscriptions one after the other.
fn write_each_subscription(out: &mut Vec<u8>, entries: &[Subscription]) -> Result<(), NoMemory>
    ensures { Writes (flat_map subscription_octets entries.now) out.old.items out.new.items result }
{
    for entry in entries {
        write_subscription(out, entry)?;
    }
    Ok(())
}

/// Writes subscriptions.
fn write_subscriptions(out: &mut Vec<u8>, entries: &Subscriptions) -> Result<(), NoMemory>
    ensures { Writes (table_octets subscription_octets entries.now) out.old.items
        out.new.items result }
{
    append_u16(out, entries.len() as u16)?;
    write_each_subscription(out, entries.as_slice())?;
    Ok(())
}

/// Writes message ids one after the other.
fn write_ids(out: &mut Vec<u8>, ids: &[u16]) -> Result<(), NoMemory>
    ensures { Writes (flat_map (big_bytes 2) ids.now) out.old.items out.new.items result }
{
    for id in ids {
        append_u16(out, *id)?;
    }
    Ok(())
}

/// Writes received message ids.
fn write_received(out: &mut Vec<u8>, received: &Received) -> Result<(), NoMemory>
    ensures { Writes (table_octets (big_bytes 2) received.now) out.old.items out.new.items result }
{
    append_u16(out, received.len() as u16)?;
    write_ids(out, received.as_slice())?;
    Ok(())
}

/// Writes that there is a will, and all of it but its message.
fn write_asked(
    out: &mut Vec<u8>,
    qos: QosLevel,
    retain: bool,
    topic: &TopicName,
) -> Result<(), NoMemory>
    ensures { Writes (1 ∷ qos ∷ flag_octet retain ∷ text_octets topic.now) out.old.items
        out.new.items result }
{
    out.extend_from_slice(&[1, qos.number(), retain as u8])?;
    write_text(out, topic.bytes())
}

/// Writes a will.
fn write_will(out: &mut Vec<u8>, will: &Option<Will>) -> Result<(), NoMemory>
    requires { IsTrue (is_will will.now) }
    ensures { Writes (option_octets session_will_octets will.now) out.old.items out.new.items
        result }
{
    match will {
        None => write_octet(out, 0),
        Some(will) => {
            write_asked(out, will.qos, will.retain, &will.topic)?;
            write_text(out, will.message.as_slice())?;
            Ok(())
        }
    }
}

/// Writes a will's topic.
fn write_will_topic(out: &mut Vec<u8>, asked: &Option<WillTopic>) -> Result<(), NoMemory>
    ensures { Writes (option_octets will_topic_octets asked.now) out.old.items
        out.new.items result }
{
    match asked {
        None => write_octet(out, 0),
        Some(asked) => write_asked(out, asked.qos, asked.retain, &asked.topic),
    }
}

/// Writes that there is an exchange, and the exchange.
fn write_some_exchange(out: &mut Vec<u8>, exchange: &Outbound) -> Result<(), NoMemory>
    ensures { Writes (1 ∷ exchange_octets exchange.now) out.old.items out.new.items result }
{
    write_octet(out, 1)?;
    write_number(out, exchange.origin, exchange.seq)?;
    append_u16(out, exchange.msg_id)?;
    write_octet(out, phase_code(exchange.phase))?;
    Ok(())
}

/// Writes an exchange.
fn write_exchange(out: &mut Vec<u8>, exchange: &Option<Outbound>) -> Result<(), NoMemory>
    ensures { Writes (option_octets exchange_octets exchange.now) out.old.items
        out.new.items result }
{
    match exchange {
        None => write_octet(out, 0),
        Some(exchange) => write_some_exchange(out, exchange),
    }
}

/// Writes where the client is, and the numbers of a session.
fn write_head(out: &mut Vec<u8>, session: &Session) -> Result<(), NoMemory>
    ensures { Writes ((presence_octet session.now.presence ∷ flag_octet session.now.clean ∷ []) ++
        big_bytes 2 session.now.duration ++ big_bytes 2 session.now.next_id) out.old.items
        out.new.items result }
{
    out.extend_from_slice(&[presence_code(session.presence), session.clean as u8])?;
    append_u16(out, session.duration)?;
    append_u16(out, session.next_id)?;
    Ok(())
}

/// Writes the parts of a session that stand after its subscriptions.
fn write_later_parts(out: &mut Vec<u8>, session: &Session) -> Result<(), NoMemory>
    requires { IsTrue (is_will session.now.will) }
    ensures { Writes (option_octets session_will_octets session.now.will
        ++ table_octets (big_bytes 2) session.now.received
        ++ option_octets exchange_octets session.now.outbound) out.old.items
        out.new.items result }
{
    write_will(out, &session.will)?;
    write_received(out, &session.received)?;
    write_exchange(out, &session.outbound)?;
    Ok(())
}

/// Writes a session.
fn write_session(out: &mut Vec<u8>, session: &Session) -> Result<(), NoMemory>
    requires { IsTrue (is_session session.now) }
    ensures { Writes (session_octets session.now) out.old.items out.new.items result }
{
    write_head(out, session)?;
    write_topics(out, &session.topics)?;
    write_subscriptions(out, &session.subscriptions)?;
    write_later_parts(out, session)?;
    Ok(())
}

/// The tag of a change.
fn change_code(change: &SessionOp) -> u8
    ensures { change_octets change.now ≡ result ∷ drop 1 (change_octets change.now) }
{
    match change {
        SessionOp::Take(_) => 0,
        SessionOp::Presence { .. } => 1,
        SessionOp::Register { .. } => 2,
        SessionOp::Subscribe { .. } => 3,
        SessionOp::Unsubscribe { .. } => 4,
        SessionOp::WillTopic(_) => 5,
        SessionOp::WillMsg(_) => 6,
        SessionOp::Received { .. } => 7,
        SessionOp::Released { .. } => 8,
        SessionOp::Outbound { .. } => 9,
    }
}

/// Writes a presence and a duration.
fn write_presence(out: &mut Vec<u8>, presence: Presence, duration: u16) -> Result<(), NoMemory>
    ensures { Writes (presence_octet presence ∷ big_bytes 2 duration) out.old.items
        out.new.items result }
{
    write_octet(out, presence_code(presence))?;
    append_u16(out, duration)?;
    Ok(())
}

/// Writes a message id.
fn write_id(out: &mut Vec<u8>, id: u16) -> Result<(), NoMemory>
    ensures { Writes (big_bytes 2 id) out.old.items out.new.items result }
{
    append_u16(out, id)?;
    Ok(())
}

/// Writes a next message id and an exchange.
fn write_outbound(
    out: &mut Vec<u8>,
    next_id: u16,
    exchange: &Option<Outbound>,
) -> Result<(), NoMemory>
    ensures { Writes (big_bytes 2 next_id ++ option_octets exchange_octets exchange.now)
        out.old.items out.new.items result }
{
    write_id(out, next_id)?;
    write_exchange(out, exchange)
}

/// Writes the fields of a change.
fn write_fields(out: &mut Vec<u8>, change: &SessionOp) -> Result<(), NoMemory>
    requires { IsTrue (is_change change.now) }
    ensures { Writes (drop 1 (change_octets change.now)) out.old.items out.new.items result }
{
    match change {
        SessionOp::Take(session) => write_session(out, session),
        SessionOp::Presence { presence, duration } => write_presence(out, *presence, *duration),
        SessionOp::Register { id, name, known } => write_named(out, *id, *known, name),
        SessionOp::Subscribe { filter, qos } => write_filter(out, filter, *qos),
        SessionOp::Unsubscribe { filter } => write_text(out, filter.bytes()),
        SessionOp::WillTopic(asked) => write_will_topic(out, asked),
        SessionOp::WillMsg(message) => write_text(out, message.as_slice()),
        SessionOp::Received { id } | SessionOp::Released { id } => write_id(out, *id),
        SessionOp::Outbound { exchange, next_id } => write_outbound(out, *next_id, exchange),
    }
}

/// Writes a change of a session.
pub fn write_change(out: &mut Vec<u8>, change: &SessionOp) -> Result<(), NoMemory>
    requires { IsTrue (is_change change.now) }
    ensures { Writes (change_octets change.now) out.old.items out.new.items result }
{
    write_octet(out, change_code(change))?;
    write_fields(out, change)
}
