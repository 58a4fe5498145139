//! The way of a command into the field: one at a time, in the order in which the broker sent them.

ghost use Rattle.std.specs.Prelude.{◌≡◌, IfOk, OnOk, option_copied};
ghost use Rattle.sn_topic.specs.Levels as levels;
ghost use Rattle.br_core.specs.Commands as spec;
ghost use Rattle.br_core.specs.inner.Parts as inner;

use crate::action::{Action, Why};
use crate::item::Command;
use crate::settings::DownFilter;
use crate::sides::{does, next_id, once_more};
use crate::state::{
    Bridge, Doing, Down, KEEP_ALIVE, LAST_NUMBER, MAX_BODY, MAX_COMMANDS, MAX_NAMES, Moment,
    NamedTopic, Phase, TRIES,
};
use br_map::asks_for;
use mq_packet::Packet;
use octets::{NoMemory, Octets, Sequence};
use sn_frame::{Flags, Frame};
use sn_topic::MAX_TOPIC;
use std::alloc::Global;
use std::mem;

/// A publication of the broker.
#[derive(Clone, Copy)]
pub(crate) struct Message<'a> {
    /// Its packet id; 0 if it wants no acknowledgement.
    pub(crate) id: u16,
    /// Whether the broker has kept it.
    pub(crate) retain: bool,
    /// Its topic.
    pub(crate) topic: &'a Octets,
    /// The message.
    pub(crate) body: &'a Octets,
}

/// A frame to the gateway of the lane for commands.
fn says(frame: Frame, bridge: &mut Bridge) -> Result<(), NoMemory>
    ensures { OnOk result (bridge.new ≡ spec.says_down frame bridge.old.down bridge.old) }
{
    does(bridge, Action::ToCommands { frame })
}

/// CONNECT with a clean session (MQTT-SN 1.2 section 6.2): no id is used up.
fn connecting(
    alloc: Global,
    client: &Octets,
    m: Moment,
    bridge: &mut Bridge,
) -> Result<(), NoMemory>
    ensures { OnOk result (bridge.new ≡ spec.connecting client.now m bridge.old.down bridge.old) }
{
    let frame = Frame::Connect {
        flags: Flags { bits: 4 },
        protocol: 1,
        duration: KEEP_ALIVE,
        client: client.copied(alloc)?,
    };
    bridge.down.phase = Phase::Connecting;
    bridge.down.tries = once_more(bridge.down.tries);
    bridge.down.due = m.retry;
    bridge.down.ids = Sequence::empty(alloc);
    says(frame, bridge)
}

/// The filter that asks for a topic.
fn filter_for<'a>(topic: &[u8], downs: &'a [DownFilter]) -> Option<&'a DownFilter>
    ensures { option_copied result ≡ spec.filter_for topic.now downs.now }
{
    for entry in downs {
        if asks_for(entry.filter.as_slice(), topic) {
            return Some(entry);
        }
    }
    None
}

/// What is left of a topic without what is stripped, or nothing.
fn stripped<'a>(strip: &[u8], topic: &'a [u8]) -> &'a [u8]
    ensures { result.now ≡ spec.stripped strip.now topic.now }
{
    if topic.len() < strip.len() {
        return &[];
    }
    let (front, rest) = topic.split_at(strip.len());
    if front == strip { rest } else { &[] }
}

/// Whether `+` or `#` is there.
fn has_wildcard(octets: &[u8]) -> bool
    ensures { result ≡ levels.has_wildcard octets.now }
{
    octets.iter().any(|octet| *octet == b'+' || *octet == b'#')
}

/// Whether the field has such a topic.
fn is_no_topic(topic: &[u8]) -> bool
    ensures { result ≡ spec.is_no_topic topic.now }
{
    topic.is_empty() || MAX_TOPIC < topic.len() || has_wildcard(topic)
}

/// Why the field cannot carry a command.
fn obstacle(command: &Command) -> Option<Why>
    ensures { result ≡ spec.obstacle command.now }
{
    if is_no_topic(command.topic.as_slice()) {
        Some(Why::Topic)
    } else if MAX_BODY < command.body.len() {
        Some(Why::Body)
    } else {
        None
    }
}

/// A command waits for its turn, under a topic of the field.
fn queued(
    alloc: Global,
    message: Message<'_>,
    topic: &[u8],
    bridge: &mut Bridge,
) -> Result<(), NoMemory>
    ensures { OnOk result (bridge.new ≡ spec.queued message.entry.id message.entry.topic.now
        topic.now message.entry.body.now bridge.old) }
{
    let command = Command {
        id: message.id,
        from: message.topic.copied(alloc)?,
        topic: Octets::from_slice(alloc, topic)?,
        body: message.body.copied(alloc)?,
    };
    bridge.down.queue.push(command)?;
    Ok(())
}

/// The broker is told that a publication was taken, if it wants to be (MQTT 3.1.1 section 3.4).
fn broker_told(id: u16, bridge: &mut Bridge) -> Result<(), NoMemory>
    ensures { OnOk result (bridge.new ≡ spec.broker_told id bridge.old) }
{
    if id == 0 {
        return Ok(());
    }
    let packet = Packet::PubAck { id };
    does(bridge, Action::ToBroker { packet })
}

/// A publication of the broker waits for its turn. A message that the broker kept is acknowledged
/// at once, unless the filter hands such messages on.
fn command_asked(
    alloc: Global,
    entry: Option<&DownFilter>,
    message: Message<'_>,
    bridge: &mut Bridge,
) -> Result<(), NoMemory>
    ensures { OnOk result
        (bridge.new ≡ spec.command_asked (option_copied entry.entry) message.entry.id
        message.entry.retain message.entry.topic.now message.entry.body.now bridge.old) }
{
    let Some(entry) = entry else {
        return queued(alloc, message, &[], bridge);
    };
    if message.retain && !entry.retained {
        return broker_told(message.id, bridge);
    }
    let rest = stripped(entry.strip.as_slice(), message.topic.as_slice());
    queued(alloc, message, rest, bridge)
}

/// Whether a packet id waits.
fn is_waiting(id: u16, queue: &[Command]) -> bool
    ensures { result ≡ spec.is_waiting id queue.now }
{
    queue.iter().any(|command| command.id == id)
}

/// Whether a packet id waits already; id 0 is none.
fn is_queued(id: u16, queue: &[Command]) -> bool
    ensures { result ≡ spec.is_queued id queue.now }
{
    if id == 0 {
        false
    } else {
        is_waiting(id, queue)
    }
}

/// Whether there is no room for a command, or there was none for one before it.
fn is_queue_full(down: &Down) -> bool
    ensures { result ≡ spec.is_queue_full down.now }
{
    down.is_behind || MAX_COMMANDS <= down.queue.len()
}

/// A command for which there is no room is passed over. If the broker waits for its
/// acknowledgement, it sends it again in its next connection.
fn passes_over(id: u16, bridge: &mut Bridge)
    ensures { bridge.new ≡ spec.passed_over id bridge.old }
{
    if id != 0 {
        bridge.down.is_behind = true;
    }
}

/// A publication of the broker comes. What comes again while it waits is the same command. Without
/// room it is passed over, and so is all that comes after it: so commands keep their order.
pub(crate) fn commanded(
    alloc: Global,
    downs: &[DownFilter],
    message: Message<'_>,
    bridge: &mut Bridge,
) -> Result<(), NoMemory>
    ensures { OnOk result (bridge.new ≡ spec.commanded downs.now message.entry.id
        message.entry.retain message.entry.topic.now message.entry.body.now bridge.old) }
{
    if is_queued(message.id, bridge.down.queue.as_slice()) {
        return Ok(());
    }
    if is_queue_full(&bridge.down) {
        passes_over(message.id, bridge);
        return Ok(());
    }
    let entry = filter_for(message.topic.as_slice(), downs);
    command_asked(alloc, entry, message, bridge)
}

/// The topic id of a topic.
fn id_of(topic: &[u8], ids: &[NamedTopic]) -> Option<u16>
    ensures { result ≡ spec.id_of topic.now ids.now }
{
    for entry in ids {
        if entry.topic.as_slice() == topic {
            return Some(entry.id);
        }
    }
    None
}

/// A name of two octets is its own id (MQTT-SN 1.2 section 5.3.11).
fn short_name_id(topic: &[u8]) -> Option<u16>
    ensures { result ≡ spec.short_name_id topic.now }
{
    match topic {
        [high, low] => Some(u16::from(*high) * 256 + u16::from(*low)),
        _ => None,
    }
}

/// The flags of a PUBLISH at quality of service 1 (MQTT-SN 1.2 section 5.3.4).
fn publish_flags(dup: bool, short: bool) -> Flags
    ensures { result ≡ spec.publish_flags dup short }
{
    let again = if dup { 0x80 } else { 0 };
    let kind = if short { 2 } else { 0 };
    Flags {
        bits: again + 0x20 + kind,
    }
}

/// The message id of what is sent: that of the last time, if it is sent again.
fn sent_id(dup: bool, id: u16) -> u16
    ensures { result ≡ spec.sent_id dup id }
{
    if dup { id } else { next_id(id) }
}

/// PUBLISH of a command under a topic id (MQTT-SN 1.2 section 6.6).
fn publishing(
    dup: bool,
    short: bool,
    topic: u16,
    m: Moment,
    command: Command,
    bridge: &mut Bridge,
) -> Result<(), NoMemory>
    ensures { OnOk result (bridge.new ≡ spec.publishing dup short topic m command bridge.old.down
        bridge.old) }
{
    let msg_id = sent_id(dup, bridge.down.msg_id);
    bridge.down.doing = Doing::Publishing;
    bridge.down.tries = once_more(bridge.down.tries);
    bridge.down.due = m.retry;
    bridge.down.msg_id = msg_id;
    let frame = Frame::Publish {
        flags: publish_flags(dup, short),
        topic,
        msg_id,
        body: command.body,
    };
    says(frame, bridge)
}

/// REGISTER of a command's name (MQTT-SN 1.2 section 6.5); a session that has no id left begins
/// anew.
fn command_registering(m: Moment, command: Command, bridge: &mut Bridge) -> Result<(), NoMemory>
    ensures { OnOk result
        (bridge.new ≡ spec.command_registering m command bridge.old.down bridge.old) }
{
    if MAX_NAMES <= bridge.down.ids.len() {
        drop(command);
        away(m, bridge);
        return Ok(());
    }
    let msg_id = next_id(bridge.down.msg_id);
    bridge.down.doing = Doing::Registering;
    bridge.down.tries = once_more(bridge.down.tries);
    bridge.down.due = m.retry;
    bridge.down.msg_id = msg_id;
    let frame = Frame::Register {
        topic_id: 0,
        msg_id,
        name: command.topic,
    };
    says(frame, bridge)
}

/// The connection is over, and another one is due.
fn away(m: Moment, bridge: &mut Bridge)
    ensures { bridge.new ≡ spec.away m bridge.old.down bridge.old }
{
    bridge.down.phase = Phase::Away;
    bridge.down.tries = 0;
    bridge.down.due = m.at;
}

/// A command goes out under its id, or its name is registered first.
fn sent(dup: bool, m: Moment, command: Command, bridge: &mut Bridge) -> Result<(), NoMemory>
    ensures { OnOk result
        (bridge.new ≡ spec.sent_as (spec.short_name_id command.topic) dup m command
        bridge.old.down bridge.old) }
{
    if let Some(id) = short_name_id(command.topic.as_slice()) {
        return publishing(dup, true, id, m, command, bridge);
    }
    match id_of(command.topic.as_slice(), bridge.down.ids.as_slice()) {
        Some(id) => publishing(dup, false, id, m, command, bridge),
        None => command_registering(m, command, bridge),
    }
}

/// Nobody will have a command: a line says so.
fn refusing(why: Why, command: Command, bridge: &mut Bridge) -> Result<(), NoMemory>
    ensures { OnOk result (bridge.new ≡ spec.refusing why command bridge.old.down bridge.old) }
{
    let line = bridge.down.line;
    if line == LAST_NUMBER {
        drop(command);
        return Ok(());
    }
    bridge.down.doing = Doing::Refusing { line };
    bridge.down.line = line + 1;
    does(bridge, Action::Refuse { line, command, why })
}

/// A command that the field can carry is sent, or waits until the lane is connected.
fn sent_in(dup: bool, m: Moment, command: Command, bridge: &mut Bridge) -> Result<(), NoMemory>
    ensures { OnOk result (bridge.new ≡ spec.sent_in bridge.old.down.phase dup m command
        bridge.old.down bridge.old) }
{
    let phase = bridge.down.phase;
    match phase {
        Phase::Listening => sent(dup, m, command, bridge),
        Phase::Away | Phase::Connecting | Phase::Subscribing { .. } | Phase::Asleep => {
            drop(command);
            Ok(())
        }
    }
}

/// A command is begun: what the field cannot carry is refused.
fn begun_by(dup: bool, m: Moment, command: Command, bridge: &mut Bridge) -> Result<(), NoMemory>
    ensures { OnOk result (bridge.new ≡ spec.begun_by (spec.obstacle command) dup m command
        bridge.old.down bridge.old) }
{
    match obstacle(&command) {
        Some(why) => refusing(why, command, bridge),
        None => sent_in(dup, m, command, bridge),
    }
}

/// A copy of the first command.
fn first(alloc: Global, bridge: &Bridge) -> Result<Option<Command>, NoMemory>
    ensures { IfOk result (λ found. found ≡ inner.first_command bridge.now.down.queue) }
{
    match bridge.down.queue.as_slice() {
        [] => Ok(None),
        [command, ..] => Ok(Some(command.copied(alloc)?)),
    }
}

/// The first command is begun.
fn command_begun(alloc: Global, dup: bool, m: Moment, bridge: &mut Bridge) -> Result<(), NoMemory>
    ensures { OnOk result
        (bridge.new ≡ spec.command_begun bridge.old.down.queue dup m bridge.old.down
        bridge.old) }
{
    match first(alloc, bridge)? {
        None => Ok(()),
        Some(command) => begun_by(dup, m, command, bridge),
    }
}

/// The first command is begun, if none is.
pub(crate) fn command_begins(alloc: Global, m: Moment, bridge: &mut Bridge) -> Result<(), NoMemory>
    ensures { OnOk result (bridge.new ≡ spec.command_begins m bridge.old) }
{
    let doing = bridge.down.doing;
    match doing {
        Doing::Nothing => command_begun(alloc, false, m, bridge),
        Doing::Registering | Doing::Publishing | Doing::Refusing { .. } => Ok(()),
    }
}

/// Takes the first command out of the queue.
fn taken_first(alloc: Global, bridge: &mut Bridge) -> Option<Command>
    ensures first { result ≡ inner.first_command bridge.old.down.queue }
    ensures rest { bridge.new ≡ inner.without_first bridge.old }
{
    let mut queue = mem::replace(&mut bridge.down.queue, Sequence::empty(alloc)).into_vec();
    let first = if queue.is_empty() {
        None
    } else {
        Some(queue.remove(0))
    };
    bridge.down.queue = Sequence::new(queue);
    first
}

/// The first command is done: the broker is told.
fn done_with(alloc: Global, bridge: &mut Bridge) -> Result<(), NoMemory>
    ensures { OnOk result (bridge.new ≡ spec.done_with bridge.old.down.queue bridge.old) }
{
    bridge.down.doing = Doing::Nothing;
    bridge.down.tries = 0;
    match taken_first(alloc, bridge) {
        None => Ok(()),
        Some(command) => {
            let id = command.id;
            drop(command);
            broker_told(id, bridge)
        }
    }
}

/// The first command is done: the broker is told, and the next one is begun.
fn command_done(alloc: Global, m: Moment, bridge: &mut Bridge) -> Result<(), NoMemory>
    ensures { OnOk result (bridge.new ≡ spec.command_done m bridge.old) }
{
    done_with(alloc, bridge)?;
    command_begins(alloc, m, bridge)
}

/// Congestion: it is sent again later.
fn later(m: Moment, bridge: &mut Bridge)
    ensures { bridge.new ≡ spec.later m bridge.old }
{
    bridge.down.due = m.retry;
    bridge.down.tries = 0;
}

/// The gateway's answer to a command: accepted; congestion; no such id, and the session begins
/// anew, so that none of its ids is used up; or it takes none.
fn answered_first(alloc: Global, code: u8, m: Moment, bridge: &mut Bridge) -> Result<(), NoMemory>
    ensures { OnOk result (bridge.new ≡ spec.answered_first bridge.old.down.queue code m
        bridge.old) }
{
    let Some(command) = first(alloc, bridge)? else {
        return Ok(());
    };
    match code {
        0 => {
            drop(command);
            command_done(alloc, m, bridge)
        }
        1 => {
            drop(command);
            later(m, bridge);
            Ok(())
        }
        2 => {
            drop(command);
            away(m, bridge);
            Ok(())
        }
        _ => refusing(Why::Gateway, command, bridge),
    }
}

/// The topic id of the first command's name is known.
fn command_named(
    alloc: Global,
    id: u16,
    command: &Command,
    bridge: &mut Bridge,
) -> Result<(), NoMemory>
    ensures { OnOk result (bridge.new ≡ spec.command_named id command.now bridge.old) }
{
    let topic = command.topic.copied(alloc)?;
    bridge.down.ids.push(NamedTopic { id, topic })?;
    bridge.down.tries = 0;
    Ok(())
}

/// The gateway's answer to a REGISTER: an id; congestion; or no such topic.
fn named_first(
    alloc: Global,
    topic_id: u16,
    code: u8,
    m: Moment,
    bridge: &mut Bridge,
) -> Result<(), NoMemory>
    ensures { OnOk result (bridge.new ≡ spec.named_first bridge.old.down.queue topic_id code m
        bridge.old) }
{
    let Some(command) = first(alloc, bridge)? else {
        return Ok(());
    };
    match code {
        0 => {
            if let Err(fault) = command_named(alloc, topic_id, &command, bridge) {
                drop(command);
                return Err(fault);
            }
            publishing(false, false, topic_id, m, command, bridge)
        }
        1 => {
            drop(command);
            later(m, bridge);
            Ok(())
        }
        _ => refusing(Why::Gateway, command, bridge),
    }
}

/// What comes while nothing is awaited shows that the gateway is there.
fn command_lane_heard(m: Moment, bridge: &mut Bridge)
    ensures { bridge.new ≡ spec.command_lane_heard m bridge.old }
{
    let doing = bridge.down.doing;
    match doing {
        Doing::Publishing | Doing::Registering => {}
        Doing::Nothing | Doing::Refusing { .. } => {
            if bridge.down.tries != 0 {
                bridge.down.tries = 0;
                bridge.down.due = m.ping;
            }
        }
    }
}

/// PUBACK: the answer to what was sent last, if that was a PUBLISH.
fn acked(
    alloc: Global,
    msg_id: u16,
    code: u8,
    m: Moment,
    bridge: &mut Bridge,
) -> Result<(), NoMemory>
    ensures { OnOk result (bridge.new ≡ spec.acked_at bridge.old.down.doing msg_id code m
        bridge.old) }
{
    let doing = bridge.down.doing;
    match doing {
        Doing::Publishing => {
            if msg_id == bridge.down.msg_id {
                answered_first(alloc, code, m, bridge)
            } else {
                Ok(())
            }
        }
        Doing::Nothing | Doing::Registering | Doing::Refusing { .. } => {
            command_lane_heard(m, bridge);
            Ok(())
        }
    }
}

/// REGACK: the answer to what was sent last, if that was a REGISTER.
fn registered(
    alloc: Global,
    topic_id: u16,
    msg_id: u16,
    code: u8,
    m: Moment,
    bridge: &mut Bridge,
) -> Result<(), NoMemory>
    ensures { OnOk result (bridge.new ≡ spec.named_at bridge.old.down.doing topic_id msg_id code m
        bridge.old) }
{
    let doing = bridge.down.doing;
    match doing {
        Doing::Registering => {
            if msg_id == bridge.down.msg_id {
                named_first(alloc, topic_id, code, m, bridge)
            } else {
                Ok(())
            }
        }
        Doing::Nothing | Doing::Publishing | Doing::Refusing { .. } => {
            command_lane_heard(m, bridge);
            Ok(())
        }
    }
}

/// A frame of the gateway while the lane is connected.
fn listening_frame(
    alloc: Global,
    m: Moment,
    frame: &Frame,
    bridge: &mut Bridge,
) -> Result<(), NoMemory>
    ensures { OnOk result (bridge.new ≡ spec.listening_frame m frame.now bridge.old) }
{
    match frame {
        Frame::PubAck { msg_id, code, .. } => acked(alloc, *msg_id, *code, m, bridge),
        Frame::RegAck {
            topic_id,
            msg_id,
            code,
        } => registered(alloc, *topic_id, *msg_id, *code, m, bridge),
        Frame::Disconnect { .. } => {
            away(m, bridge);
            Ok(())
        }
        _ => {
            command_lane_heard(m, bridge);
            Ok(())
        }
    }
}

/// A command that the last connection did not bring to its end begins again; a line that is being
/// written stays so.
fn unfinished(doing: Doing) -> Doing
    ensures { result ≡ spec.unfinished doing }
{
    match doing {
        Doing::Refusing { line } => Doing::Refusing { line },
        Doing::Nothing | Doing::Registering | Doing::Publishing => Doing::Nothing,
    }
}

/// CONNACK 0: commands go out.
fn connected(alloc: Global, m: Moment, frame: &Frame, bridge: &mut Bridge) -> Result<(), NoMemory>
    ensures { OnOk result (bridge.new ≡ spec.connected m frame.now bridge.old) }
{
    let Frame::ConnAck { code } = frame else {
        return Ok(());
    };
    if *code != 0 {
        return Ok(());
    }
    bridge.down.phase = Phase::Listening;
    bridge.down.tries = 0;
    bridge.down.due = m.ping;
    bridge.down.doing = unfinished(bridge.down.doing);
    command_begins(alloc, m, bridge)
}

/// A frame of the gateway of the lane for commands.
pub(crate) fn down_frame(
    alloc: Global,
    m: Moment,
    frame: &Frame,
    bridge: &mut Bridge,
) -> Result<(), NoMemory>
    ensures { OnOk result (bridge.new ≡ spec.down_frame m frame.now bridge.old) }
{
    let phase = bridge.down.phase;
    match phase {
        Phase::Connecting => connected(alloc, m, frame, bridge),
        Phase::Listening => listening_frame(alloc, m, frame, bridge),
        Phase::Away | Phase::Subscribing { .. } | Phase::Asleep => Ok(()),
    }
}

/// What was sent last is sent again, or the gateway is asked whether it is there.
fn again_at(alloc: Global, m: Moment, bridge: &mut Bridge) -> Result<(), NoMemory>
    ensures { OnOk result (bridge.new ≡ spec.again_at bridge.old.down.doing m bridge.old) }
{
    let doing = bridge.down.doing;
    match doing {
        Doing::Publishing => command_begun(alloc, true, m, bridge),
        Doing::Registering => command_begun(alloc, false, m, bridge),
        Doing::Nothing | Doing::Refusing { .. } => {
            let client = Octets::from_slice(alloc, &[])?;
            bridge.down.tries = once_more(bridge.down.tries);
            bridge.down.due = m.retry;
            says(Frame::PingReq { client }, bridge)
        }
    }
}

/// What is due is sent again.
fn command_again(
    alloc: Global,
    client: &Octets,
    m: Moment,
    bridge: &mut Bridge,
) -> Result<(), NoMemory>
    ensures { OnOk result
        (bridge.new ≡ spec.command_again bridge.old.down.phase client.now m bridge.old) }
{
    let phase = bridge.down.phase;
    match phase {
        Phase::Listening => again_at(alloc, m, bridge),
        Phase::Away | Phase::Connecting | Phase::Subscribing { .. } | Phase::Asleep => {
            connecting(alloc, client, m, bridge)
        }
    }
}

/// Time goes by.
pub(crate) fn down_tick(
    alloc: Global,
    client: &Octets,
    m: Moment,
    bridge: &mut Bridge,
) -> Result<(), NoMemory>
    ensures { OnOk result (bridge.new ≡ spec.down_tick client.now m bridge.old) }
{
    if m.at < bridge.down.due {
        return Ok(());
    }
    if TRIES <= bridge.down.tries {
        away(m, bridge);
        return does(bridge, Action::NextCommands);
    }
    command_again(alloc, client, m, bridge)
}

/// A line is on the disk: it counts if it is that of the first command.
pub(crate) fn kept(alloc: Global, line: u64, m: Moment, bridge: &mut Bridge) -> Result<(), NoMemory>
    ensures { OnOk result (bridge.new ≡ spec.kept line m bridge.old) }
{
    let doing = bridge.down.doing;
    match doing {
        Doing::Refusing { line: own } => {
            if own == line {
                command_done(alloc, m, bridge)
            } else {
                Ok(())
            }
        }
        Doing::Nothing | Doing::Registering | Doing::Publishing => Ok(()),
    }
}
