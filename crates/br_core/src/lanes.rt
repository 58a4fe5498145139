//! What a lane does: a client of the field that brings readings (MQTT-SN 1.2 sections 6.2 to 6.14).
//! `lane` is a copy of it, which goes back into its place among the lanes.

ghost use Rattle.std.specs.Prelude.{◌≡◌, ◌<◌, ◌∷◌, ◌&&◌, not, if◌then◌else◌, length, IfOk, OnOk};
ghost use Rattle.sn_frame.specs.FlagBits.{kind_of, qos_of};
ghost use Rattle.br_core.specs.declared.state.TheConstants.{LAST_NUMBER};
ghost use Rattle.br_core.specs.Lanes as spec;
ghost use Rattle.br_core.specs.inner.Parts as inner;

use crate::action::Action;
use crate::item::Item;
use crate::settings::{LaneSettings, Settings, UpName};
use crate::sides::{does, is_broker_up, next_id, once_more, takes};
use crate::state::{
    Bridge, KEEP_ALIVE, LAST_NUMBER, Lane, MAX_BODY, MAX_IDS, Moment, Named, Open, Phase, SLEEP,
    TRIES,
};
use mq_packet::Qos;
use octets::{NoMemory, Octets, Sequence};
use sn_frame::{Flags, Frame, Qos as FieldQos, TopicIdType};
use std::alloc::Global;
use std::mem;

/// What a lane works with, beside the lane itself and the bridge.
#[derive(Clone, Copy)]
pub(crate) struct Scene<'a> {
    /// The memory.
    pub(crate) alloc: Global,
    /// The settings of the lane.
    pub(crate) own: &'a LaneSettings,
    /// Its place among the lanes.
    pub(crate) place: usize,
    /// The moment.
    pub(crate) m: Moment,
}

/// A PUBLISH of the gateway of a lane.
#[derive(Clone, Copy)]
struct Message<'a> {
    /// Its quality of service, and which kind of topic id it has.
    flags: Flags,
    /// The topic id.
    topic_id: u16,
    /// The message id.
    msg_id: u16,
    /// The message.
    body: &'a Octets,
}

/// A PUBLISH under one of the names of its lane.
#[derive(Clone, Copy)]
struct Reading<'a> {
    /// Which of the lane's names it has.
    name: usize,
    /// The name.
    up: &'a UpName,
    /// The topic id.
    topic_id: u16,
    /// The message id.
    msg_id: u16,
    /// The message.
    body: &'a Octets,
}

/// A lane in its place.
fn seated(place: usize, lane: Lane, bridge: &mut Bridge)
    requires { place < length bridge.old.lanes }
    ensures { bridge.new ≡ spec.seated place lane bridge.old }
{
    bridge.lanes.replace(place, lane);
}

/// A lane in its place, and a frame to its gateway.
fn says(place: usize, frame: Frame, lane: Lane, bridge: &mut Bridge) -> Result<(), NoMemory>
    requires { place < length bridge.old.lanes }
    ensures { OnOk result (bridge.new ≡ spec.says place frame lane bridge.old) }
{
    seated(place, lane, bridge);
    does(bridge, Action::ToField { lane: place, frame })
}

/// CONNECT (section 6.2). The session is kept; ids of the last connection are not.
fn connecting(scene: Scene<'_>, lane: Lane, bridge: &mut Bridge) -> Result<(), NoMemory>
    requires { scene.place < length bridge.old.lanes }
    ensures { OnOk result (bridge.new ≡ spec.connecting scene.entry.own.now scene.entry.place
        scene.entry.m lane bridge.old) }
{
    let tries = once_more(lane.tries);
    let msg_id = lane.msg_id;
    drop(lane);
    let frame = Frame::Connect {
        flags: Flags { bits: 0 },
        protocol: 1,
        duration: KEEP_ALIVE,
        client: scene.own.client.copied(scene.alloc)?,
    };
    let begun = Lane {
        phase: Phase::Connecting,
        tries,
        due: scene.m.retry,
        msg_id,
        ids: Sequence::empty(scene.alloc),
        last: None,
    };
    says(scene.place, frame, begun, bridge)
}

/// The flags of a SUBSCRIBE (section 5.3.4).
fn subscribe_flags(up: &UpName) -> Flags
    ensures { result ≡ spec.subscribe_flags up.now }
{
    let qos = match up.qos {
        Qos::Zero => 0,
        Qos::One => 0x20,
    };
    let kind = if up.name.len() == 2 { 2 } else { 0 };
    Flags { bits: qos + kind }
}

/// SUBSCRIBE of the name of this number (section 6.9); after the last one the lane listens.
fn subscribing(
    scene: Scene<'_>,
    next: usize,
    mut lane: Lane,
    bridge: &mut Bridge,
) -> Result<(), NoMemory>
    requires { scene.place < length bridge.old.lanes }
    ensures { OnOk result (bridge.new ≡ spec.subscribing scene.entry.own.now scene.entry.place next
        scene.entry.m lane bridge.old) }
{
    let Some(up) = scene.own.names.as_slice().get(next) else {
        lane.phase = Phase::Listening;
        lane.tries = 0;
        lane.due = scene.m.ping;
        seated(scene.place, lane, bridge);
        return Ok(());
    };
    let topic = match up.name.copied(scene.alloc) {
        Ok(topic) => topic,
        Err(fault) => {
            drop(lane);
            return Err(fault);
        }
    };
    let frame = Frame::Subscribe {
        flags: subscribe_flags(up),
        msg_id: lane.msg_id,
        topic,
    };
    lane.phase = Phase::Subscribing { next };
    lane.tries = once_more(lane.tries);
    lane.due = scene.m.retry;
    lane.msg_id = next_id(lane.msg_id);
    says(scene.place, frame, lane, bridge)
}

/// Which of the names a topic id is.
fn name_at(id: u16, ids: &[Named]) -> Option<usize>
    ensures { result ≡ spec.name_at id ids.now }
{
    for entry in ids {
        if entry.id == id {
            return Some(entry.name);
        }
    }
    None
}

/// Where a name is among those of the lane.
fn name_place(name: &[u8], names: &[UpName]) -> Option<usize>
    ensures { result ≡ spec.name_place name.now names.now }
{
    for at in 0..names.len() {
        if names[at].name.as_slice() == name {
            return Some(at);
        }
    }
    None
}

/// Which of the names a topic field of PUBLISH means (section 5.3.11).
fn name_meant(kind: TopicIdType, topic: u16, names: &[UpName], ids: &[Named]) -> Option<usize>
    ensures { result ≡ spec.name_meant kind topic names.now ids.now }
{
    match kind {
        TopicIdType::Normal => name_at(topic, ids),
        TopicIdType::Short => name_place(&[(topic / 256) as u8, (topic % 256) as u8], names),
        TopicIdType::Predefined | TopicIdType::Reserved => None,
    }
}

/// A reading of a lane.
fn item_of(scene: Scene<'_>, number: u64, qos: Qos, reading: Reading<'_>) -> Result<Item, NoMemory>
    ensures { IfOk result (λ item. item ≡ spec.item_of number scene.entry.place qos
        reading.entry.up.now reading.entry.body.now) }
{
    Ok(Item {
        number,
        lane: scene.place,
        topic: reading.up.topic.copied(scene.alloc)?,
        qos,
        retain: reading.up.retain,
        body: reading.body.copied(scene.alloc)?,
    })
}

/// Whether the spool can keep these octets, if there is one. No gateway has more.
fn body_fits(settings: &Settings, body: &Octets) -> bool
    ensures { result ≡ spec.body_fits settings.now body.now }
{
    !settings.spools || body.len() <= MAX_BODY
}

/// Whether one more reading is taken, which has these octets.
fn reading_has_room(settings: &Settings, body: &Octets, bridge: &Bridge) -> bool
    ensures { result ≡ spec.reading_has_room settings.now body.now bridge.now }
{
    body_fits(settings, body) && bridge.waiting.len() < settings.room && bridge.number < LAST_NUMBER
}

/// A reading of this quality of service gets the next number.
fn reading_counted(
    settings: &Settings,
    scene: Scene<'_>,
    qos: Qos,
    reading: Reading<'_>,
    bridge: &mut Bridge,
) -> Result<(), NoMemory>
    requires { bridge.old.number < LAST_NUMBER }
    ensures { OnOk result (bridge.new ≡ spec.reading_counted settings.now scene.entry.place qos
        reading.entry.up.now reading.entry.body.now bridge.old) }
{
    let item = item_of(scene, bridge.number, qos, reading)?;
    bridge.number += 1;
    takes(scene.alloc, settings, item, bridge)
}

/// A reading of this quality of service goes into the spool under its number, if there is one.
fn stored(
    settings: &Settings,
    scene: Scene<'_>,
    number: u64,
    qos: Qos,
    reading: Reading<'_>,
    bridge: &mut Bridge,
) -> Result<(), NoMemory>
    ensures { OnOk result (bridge.new ≡ spec.stored settings.now (spec.item_of number
        scene.entry.place qos reading.entry.up.now reading.entry.body.now) bridge.old) }
{
    if !settings.spools {
        return Ok(());
    }
    let item = item_of(scene, number, qos, reading)?;
    does(bridge, Action::Store { item })
}

/// What a lane has brought and may not acknowledge yet.
fn open_of(alloc: Global, number: u64, reading: Reading<'_>) -> Result<Open, NoMemory>
    ensures { IfOk result (λ held. held ≡ spec.open_of number reading.entry.name
        reading.entry.topic_id reading.entry.msg_id reading.entry.body.now) }
{
    Ok(Open {
        number,
        name: reading.name,
        topic_id: reading.topic_id,
        msg_id: reading.msg_id,
        body: reading.body.copied(alloc)?,
        is_answered: false,
    })
}

/// Whether it is the same message again: the same name, message id and octets.
fn is_same(reading: Reading<'_>, held: &Open) -> bool
    ensures { result ≡ spec.is_same reading.entry.name reading.entry.msg_id reading.entry.body.now
        held.now }
{
    held.name == reading.name
        && held.msg_id == reading.msg_id
        && held.body.as_slice() == reading.body.as_slice()
}

/// A message of quality of service 1 is brought, and waits for its acknowledgement. Without room it
/// is as if it had not come, and the lane falls asleep: its gateway keeps it.
fn brings(
    settings: &Settings,
    scene: Scene<'_>,
    reading: Reading<'_>,
    mut lane: Lane,
    bridge: &mut Bridge,
) -> Result<(), NoMemory>
    requires { scene.place < length bridge.old.lanes }
    ensures { OnOk result (bridge.new ≡ spec.brings settings.now scene.entry.place
        reading.entry.name reading.entry.up.now reading.entry.topic_id reading.entry.msg_id
        reading.entry.body.now lane bridge.old) }
{
    if !reading_has_room(settings, reading.body, bridge) {
        return falls_asleep(scene.place, lane, bridge);
    }
    let number = bridge.number;
    let held = match open_of(scene.alloc, number, reading) {
        Ok(held) => held,
        Err(fault) => {
            drop(lane);
            return Err(fault);
        }
    };
    drop(mem::replace(&mut lane.last, Some(held)));
    seated(scene.place, lane, bridge);
    reading_counted(settings, scene, Qos::One, reading, bridge)?;
    stored(settings, scene, number, Qos::One, reading, bridge)
}

/// The same message again: one that was answered is acknowledged again, one that waits is not
/// brought twice.
fn again_at(
    place: usize,
    topic_id: u16,
    msg_id: u16,
    mut held: Open,
    mut lane: Lane,
    bridge: &mut Bridge,
) -> Result<(), NoMemory>
    requires { place < length bridge.old.lanes }
    ensures { OnOk result (bridge.new ≡ spec.again_at held.is_answered place topic_id msg_id held
        lane bridge.old) }
{
    let is_answered = held.is_answered;
    held.topic_id = topic_id;
    drop(mem::replace(&mut lane.last, Some(held)));
    if is_answered {
        let code = 0;
        let frame = Frame::PubAck {
            topic_id,
            msg_id,
            code,
        };
        says(place, frame, lane, bridge)
    } else {
        seated(place, lane, bridge);
        Ok(())
    }
}

/// The lane's open message, if this is the same again.
fn same_open(
    alloc: Global,
    last: &Option<Open>,
    reading: Reading<'_>,
) -> Result<Option<Open>, NoMemory>
    ensures { IfOk result (λ same. same ≡ inner.same_open last.now reading.entry.name
        reading.entry.msg_id reading.entry.body.now) }
{
    match last {
        None => Ok(None),
        Some(held) => {
            if is_same(reading, held) {
                Ok(Some(held.copied(alloc)?))
            } else {
                Ok(None)
            }
        }
    }
}

/// A message of quality of service 1 comes, for the first time or again.
fn brings_if(
    settings: &Settings,
    scene: Scene<'_>,
    reading: Reading<'_>,
    lane: Lane,
    bridge: &mut Bridge,
) -> Result<(), NoMemory>
    requires { scene.place < length bridge.old.lanes }
    ensures { OnOk result (bridge.new ≡ spec.brings_if lane.last settings.now scene.entry.place
        reading.entry.name reading.entry.up.now reading.entry.topic_id reading.entry.msg_id
        reading.entry.body.now lane bridge.old) }
{
    match same_open(scene.alloc, &lane.last, reading) {
        Ok(Some(held)) => {
            let topic_id = reading.topic_id;
            let msg_id = reading.msg_id;
            again_at(scene.place, topic_id, msg_id, held, lane, bridge)
        }
        Ok(None) => brings(settings, scene, reading, lane, bridge),
        Err(fault) => {
            drop(lane);
            Err(fault)
        }
    }
}

/// Whether a reading of quality of service 0 goes on: the broker is there, and there is room. Else
/// it takes no number, which the spool would have to count.
fn reading_goes_on(settings: &Settings, body: &Octets, bridge: &Bridge) -> bool
    ensures { result ≡ spec.reading_goes_on settings.now body.now bridge.now }
{
    is_broker_up(bridge.side) && reading_has_room(settings, body, bridge)
}

/// A reading of quality of service 0 goes on, if it may.
fn passes(
    settings: &Settings,
    scene: Scene<'_>,
    reading: Reading<'_>,
    lane: Lane,
    bridge: &mut Bridge,
) -> Result<(), NoMemory>
    requires { scene.place < length bridge.old.lanes }
    ensures { OnOk result (bridge.new ≡ spec.passes settings.now scene.entry.place
        reading.entry.up.now reading.entry.body.now lane bridge.old) }
{
    let passes_now = reading_goes_on(settings, reading.body, bridge);
    seated(scene.place, lane, bridge);
    if passes_now {
        reading_counted(settings, scene, Qos::Zero, reading, bridge)
    } else {
        Ok(())
    }
}

/// The code that refuses a topic which is no id: congestion while names are subscribed to, since
/// the gateway then publishes it by its id, and code 2 would drop it.
fn refusal_at(phase: Phase) -> u8
    ensures { result ≡ spec.refusal_at phase }
{
    match phase {
        Phase::Subscribing { .. } => 1,
        Phase::Away | Phase::Connecting | Phase::Listening | Phase::Asleep => 2,
    }
}

/// The code that refuses a topic: after code 2 the gateway registers an id again.
fn refusal_code(kind: TopicIdType, phase: Phase) -> u8
    ensures { result ≡ spec.refusal_code kind phase }
{
    match kind {
        TopicIdType::Normal => 2,
        TopicIdType::Predefined | TopicIdType::Short | TopicIdType::Reserved => refusal_at(phase),
    }
}

/// A PUBLISH under a topic that is none of the lane's is refused.
fn unknown(
    place: usize,
    message: Message<'_>,
    lane: Lane,
    bridge: &mut Bridge,
) -> Result<(), NoMemory>
    requires { place < length bridge.old.lanes }
    ensures { let bits = message.entry.flags.bits in
        OnOk result (bridge.new ≡ spec.unknown_at (qos_of bits) (kind_of bits) place
        message.entry.topic_id message.entry.msg_id lane bridge.old) }
{
    let qos = message.flags.qos();
    match qos {
        FieldQos::One => {
            let code = refusal_code(message.flags.kind(), lane.phase);
            let frame = Frame::PubAck {
                topic_id: message.topic_id,
                msg_id: message.msg_id,
                code,
            };
            says(place, frame, lane, bridge)
        }
        FieldQos::Zero | FieldQos::Two | FieldQos::MinusOne => {
            seated(place, lane, bridge);
            Ok(())
        }
    }
}

/// A PUBLISH under a name of the lane, by its quality of service: 2 was never asked for.
fn published(
    settings: &Settings,
    scene: Scene<'_>,
    qos: FieldQos,
    reading: Reading<'_>,
    lane: Lane,
    bridge: &mut Bridge,
) -> Result<(), NoMemory>
    requires { scene.place < length bridge.old.lanes }
    ensures { OnOk result (bridge.new ≡ spec.publication_at qos settings.now scene.entry.place
        reading.entry.name reading.entry.up.now reading.entry.topic_id reading.entry.msg_id
        reading.entry.body.now lane bridge.old) }
{
    match qos {
        FieldQos::Zero => passes(settings, scene, reading, lane, bridge),
        FieldQos::One => brings_if(settings, scene, reading, lane, bridge),
        FieldQos::Two | FieldQos::MinusOne => {
            seated(scene.place, lane, bridge);
            Ok(())
        }
    }
}

/// PUBLISH (section 6.6).
fn lane_publication(
    settings: &Settings,
    scene: Scene<'_>,
    message: Message<'_>,
    lane: Lane,
    bridge: &mut Bridge,
) -> Result<(), NoMemory>
    requires { scene.place < length bridge.old.lanes }
    ensures { OnOk result (bridge.new ≡ spec.lane_publication settings.now scene.entry.own.now
        scene.entry.place message.entry.flags message.entry.topic_id message.entry.msg_id
        message.entry.body.now lane bridge.old) }
{
    let kind = message.flags.kind();
    let topic_id = message.topic_id;
    let names = scene.own.names.as_slice();
    let Some(name) = name_meant(kind, topic_id, names, lane.ids.as_slice()) else {
        return unknown(scene.place, message, lane, bridge);
    };
    let Some(up) = names.get(name) else {
        return unknown(scene.place, message, lane, bridge);
    };
    let reading = Reading {
        name,
        up,
        topic_id,
        msg_id: message.msg_id,
        body: message.body,
    };
    published(settings, scene, message.flags.qos(), reading, lane, bridge)
}

/// The list with another one in front.
fn in_front(alloc: Global, id: u16, name: usize, ids: &[Named]) -> Result<Sequence<Named>, NoMemory>
    ensures { IfOk result (λ more. more ≡ record { id = id; name = name } ∷ ids.now) }
{
    let mut more = Vec::from_slice(alloc, &[Named { id, name }])?;
    more.extend_from_slice(ids)?;
    Ok(Sequence::new(more))
}

/// The lane has one more topic id. On an error it is dropped.
fn with_id(alloc: Global, id: u16, name: usize, lane: Lane) -> Result<Lane, NoMemory>
    ensures { IfOk result
        (λ more. more ≡ record lane { ids = record { id = id; name = name } ∷ lane.ids }) }
{
    let mut lane = lane;
    match in_front(alloc, id, name, lane.ids.as_slice()) {
        Ok(ids) => {
            drop(mem::replace(&mut lane.ids, ids));
            Ok(lane)
        }
        Err(fault) => {
            drop(lane);
            Err(fault)
        }
    }
}

/// The connection is over, and another one is due.
fn goes_away(place: usize, m: Moment, mut lane: Lane, bridge: &mut Bridge)
    requires { place < length bridge.old.lanes }
    ensures { bridge.new ≡ spec.goes_away place m lane bridge.old }
{
    lane.phase = Phase::Away;
    lane.tries = 0;
    lane.due = m.at;
    seated(place, lane, bridge);
}

/// REGISTER of one of the names gives its topic id (section 6.10); another name is none of the
/// lane's. A lane that has as many ids as it holds connects anew.
fn name_registered(
    scene: Scene<'_>,
    topic_id: u16,
    msg_id: u16,
    name: &Octets,
    lane: Lane,
    bridge: &mut Bridge,
) -> Result<(), NoMemory>
    requires { scene.place < length bridge.old.lanes }
    ensures { OnOk result (bridge.new ≡ spec.name_registered (spec.name_place name.now
        scene.entry.own.now.names) scene.entry.place scene.entry.m topic_id msg_id lane
        bridge.old) }
{
    let Some(at) = name_place(name.as_slice(), scene.own.names.as_slice()) else {
        let code = 3;
        let frame = Frame::RegAck {
            topic_id,
            msg_id,
            code,
        };
        return says(scene.place, frame, lane, bridge);
    };
    if MAX_IDS <= lane.ids.len() {
        goes_away(scene.place, scene.m, lane, bridge);
        return Ok(());
    }
    let lane = with_id(scene.alloc, topic_id, at, lane)?;
    let code = 0;
    let frame = Frame::RegAck {
        topic_id,
        msg_id,
        code,
    };
    says(scene.place, frame, lane, bridge)
}

/// A frame that comes while the lane is connected.
fn awake_frame(
    settings: &Settings,
    scene: Scene<'_>,
    frame: &Frame,
    lane: Lane,
    bridge: &mut Bridge,
) -> Result<(), NoMemory>
    requires { scene.place < length bridge.old.lanes }
    ensures { OnOk result (bridge.new ≡ spec.awake_frame settings.now scene.entry.own.now
        scene.entry.place scene.entry.m frame.now lane bridge.old) }
{
    match frame {
        Frame::Publish {
            flags,
            topic,
            msg_id,
            body,
        } => {
            let message = Message {
                flags: *flags,
                topic_id: *topic,
                msg_id: *msg_id,
                body,
            };
            lane_publication(settings, scene, message, lane, bridge)
        }
        Frame::Register {
            topic_id,
            msg_id,
            name,
        } => name_registered(scene, *topic_id, *msg_id, name, lane, bridge),
        Frame::Disconnect { .. } => {
            goes_away(scene.place, scene.m, lane, bridge);
            Ok(())
        }
        _ => {
            seated(scene.place, lane, bridge);
            Ok(())
        }
    }
}

/// CONNACK 0 begins the subscriptions.
fn connected(
    scene: Scene<'_>,
    frame: &Frame,
    mut lane: Lane,
    bridge: &mut Bridge,
) -> Result<(), NoMemory>
    requires { scene.place < length bridge.old.lanes }
    ensures { OnOk result (bridge.new ≡ spec.connected scene.entry.own.now scene.entry.place
        scene.entry.m frame.now lane bridge.old) }
{
    let Frame::ConnAck { code } = frame else {
        drop(lane);
        return Ok(());
    };
    if *code != 0 {
        drop(lane);
        return Ok(());
    }
    lane.tries = 0;
    subscribing(scene, 0, lane, bridge)
}

/// SUBACK 0 of the name gives its topic id, unless the name is short, and goes on to the next.
fn lane_subscribed(
    scene: Scene<'_>,
    next: usize,
    topic_id: u16,
    code: u8,
    mut lane: Lane,
    bridge: &mut Bridge,
) -> Result<(), NoMemory>
    requires seat { scene.place < length bridge.old.lanes }
    requires fits { next < LAST_NUMBER }
    ensures { OnOk result
        (bridge.new ≡ spec.lane_subscribed scene.entry.own.now scene.entry.place next
        scene.entry.m topic_id code lane bridge.old) }
{
    if code != 0 {
        drop(lane);
        return Ok(());
    }
    lane.tries = 0;
    if topic_id == 0 {
        return subscribing(scene, next + 1, lane, bridge);
    }
    let lane = with_id(scene.alloc, topic_id, next, lane)?;
    subscribing(scene, next + 1, lane, bridge)
}

/// Whether a SUBACK answers the SUBSCRIBE that was sent last.
fn is_its(next: usize, msg_id: u16, lane: &Lane) -> bool
    ensures { result ≡ spec.is_its next msg_id lane.now }
{
    next_id(msg_id) == lane.msg_id && next < usize::MAX
}

/// A frame that comes while a name is subscribed to.
fn naming_frame(
    settings: &Settings,
    scene: Scene<'_>,
    next: usize,
    frame: &Frame,
    lane: Lane,
    bridge: &mut Bridge,
) -> Result<(), NoMemory>
    requires { scene.place < length bridge.old.lanes }
    ensures { OnOk result (bridge.new ≡ spec.naming_frame settings.now scene.entry.own.now
        scene.entry.place next scene.entry.m frame.now lane bridge.old) }
{
    match frame {
        Frame::SubAck {
            topic_id,
            msg_id,
            code,
            ..
        } => {
            if is_its(next, *msg_id, &lane) {
                lane_subscribed(scene, next, *topic_id, *code, lane, bridge)
            } else {
                drop(lane);
                Ok(())
            }
        }
        _ => awake_frame(settings, scene, frame, lane, bridge),
    }
}

/// What comes shows that the gateway is there: the next sign of life is due later, if one was asked
/// for.
fn lane_heard(m: Moment, mut lane: Lane) -> Lane
    ensures { result ≡ spec.lane_heard m lane }
{
    if lane.tries != 0 {
        lane.tries = 0;
        lane.due = m.ping;
    }
    lane
}

/// A frame of the gateway, by the phase.
pub(crate) fn lane_frame(
    settings: &Settings,
    scene: Scene<'_>,
    frame: &Frame,
    lane: Lane,
    bridge: &mut Bridge,
) -> Result<(), NoMemory>
    requires { scene.place < length bridge.old.lanes }
    ensures { OnOk result (bridge.new ≡ spec.lane_frame settings.now scene.entry.place
        scene.entry.m frame.now scene.entry.own.now lane bridge.old) }
{
    let phase = lane.phase;
    match phase {
        Phase::Away | Phase::Asleep => {
            drop(lane);
            Ok(())
        }
        Phase::Connecting => connected(scene, frame, lane, bridge),
        Phase::Subscribing { next } => naming_frame(settings, scene, next, frame, lane, bridge),
        Phase::Listening => awake_frame(settings, scene, frame, lane_heard(scene.m, lane), bridge),
    }
}

/// A sign of life (section 6.11).
fn pings(
    place: usize,
    m: Moment,
    mut lane: Lane,
    client: Octets,
    bridge: &mut Bridge,
) -> Result<(), NoMemory>
    requires { place < length bridge.old.lanes }
    ensures { OnOk result (bridge.new ≡ spec.pings place m lane client bridge.old) }
{
    lane.tries = once_more(lane.tries);
    lane.due = m.retry;
    says(place, Frame::PingReq { client }, lane, bridge)
}

/// What is due is sent again.
fn lane_again(scene: Scene<'_>, lane: Lane, bridge: &mut Bridge) -> Result<(), NoMemory>
    requires { scene.place < length bridge.old.lanes }
    ensures { OnOk result
        (bridge.new ≡ spec.lane_again lane.phase scene.entry.own.now scene.entry.place
        scene.entry.m lane bridge.old) }
{
    let phase = lane.phase;
    match phase {
        Phase::Away | Phase::Connecting => connecting(scene, lane, bridge),
        Phase::Subscribing { next } => subscribing(scene, next, lane, bridge),
        Phase::Listening => {
            match Octets::from_slice(scene.alloc, &[]) {
                Ok(client) => pings(scene.place, scene.m, lane, client, bridge),
                Err(fault) => {
                    drop(lane);
                    Err(fault)
                }
            }
        }
        Phase::Asleep => {
            drop(lane);
            Ok(())
        }
    }
}

/// The gateway does not answer: the next one is tried at once.
fn gives_up(place: usize, m: Moment, lane: Lane, bridge: &mut Bridge) -> Result<(), NoMemory>
    requires { place < length bridge.old.lanes }
    ensures { OnOk result (bridge.new ≡ spec.gives_up place m lane bridge.old) }
{
    goes_away(place, m, lane, bridge);
    does(bridge, Action::NextGateway { lane: place })
}

/// Time goes by.
pub(crate) fn lane_tick(scene: Scene<'_>, lane: Lane, bridge: &mut Bridge) -> Result<(), NoMemory>
    requires { scene.place < length bridge.old.lanes }
    ensures { OnOk result (bridge.new ≡ spec.lane_tick scene.entry.place scene.entry.m
        scene.entry.own.now lane bridge.old) }
{
    if scene.m.at < lane.due {
        drop(lane);
        return Ok(());
    }
    if TRIES <= lane.tries {
        return gives_up(scene.place, scene.m, lane, bridge);
    }
    lane_again(scene, lane, bridge)
}

/// A lane that may not acknowledge falls asleep (section 6.14).
pub(crate) fn falls_asleep(
    place: usize,
    mut lane: Lane,
    bridge: &mut Bridge,
) -> Result<(), NoMemory>
    requires { place < length bridge.old.lanes }
    ensures { OnOk result (bridge.new ≡ spec.asleep_in lane.phase place lane bridge.old) }
{
    let phase = lane.phase;
    if phase == Phase::Asleep {
        drop(lane);
        return Ok(());
    }
    lane.phase = Phase::Asleep;
    lane.tries = 0;
    if phase == Phase::Away {
        seated(place, lane, bridge);
        return Ok(());
    }
    let duration = Some(SLEEP);
    says(place, Frame::Disconnect { duration }, lane, bridge)
}

/// A lane that sleeps wakes: it connects.
pub(crate) fn wakes(scene: Scene<'_>, lane: Lane, bridge: &mut Bridge) -> Result<(), NoMemory>
    requires { scene.place < length bridge.old.lanes }
    ensures { OnOk result (bridge.new ≡ spec.wakes scene.entry.place scene.entry.m
        scene.entry.own.now lane bridge.old) }
{
    let phase = lane.phase;
    match phase {
        Phase::Asleep => connecting(scene, lane, bridge),
        Phase::Away | Phase::Connecting | Phase::Subscribing { .. } | Phase::Listening => {
            drop(lane);
            Ok(())
        }
    }
}

/// Whether the gateway takes an acknowledgement now.
fn is_lane_awake(phase: Phase) -> bool
    ensures { result ≡ spec.is_lane_awake phase }
{
    match phase {
        Phase::Subscribing { .. } | Phase::Listening => true,
        Phase::Away | Phase::Connecting | Phase::Asleep => false,
    }
}

/// The lane's open message may be acknowledged.
fn answered(
    place: usize,
    mut held: Open,
    mut lane: Lane,
    bridge: &mut Bridge,
) -> Result<(), NoMemory>
    requires { place < length bridge.old.lanes }
    ensures { OnOk result
        (bridge.new ≡ spec.answered_at (spec.is_lane_awake lane.phase) place held lane
        bridge.old) }
{
    let topic_id = held.topic_id;
    let msg_id = held.msg_id;
    held.is_answered = true;
    drop(mem::replace(&mut lane.last, Some(held)));
    if is_lane_awake(lane.phase) {
        let code = 0;
        let frame = Frame::PubAck {
            topic_id,
            msg_id,
            code,
        };
        says(place, frame, lane, bridge)
    } else {
        seated(place, lane, bridge);
        Ok(())
    }
}

/// A copy of a lane's open message, if there is one.
fn open_copied(alloc: Global, last: &Option<Open>) -> Result<Option<Open>, NoMemory>
    ensures { IfOk result (λ made. made ≡ last.now) }
{
    match last {
        None => Ok(None),
        Some(held) => Ok(Some(held.copied(alloc)?)),
    }
}

/// The lane's open message may be acknowledged, if that is due and it was not.
fn answered_if(
    is_due: bool,
    place: usize,
    held: Open,
    lane: Lane,
    bridge: &mut Bridge,
) -> Result<(), NoMemory>
    requires { place < length bridge.old.lanes }
    ensures { OnOk result (bridge.new ≡ (if is_due && not held.is_answered
        then spec.answered_at (spec.is_lane_awake lane.phase) place held lane bridge.old
        else bridge.old)) }
{
    if is_due && !held.is_answered {
        answered(place, held, lane, bridge)
    } else {
        drop(held);
        drop(lane);
        Ok(())
    }
}

/// The broker has acknowledged a reading: if it is the lane's open one, so may the lane.
pub(crate) fn answers(
    alloc: Global,
    number: u64,
    place: usize,
    lane: Lane,
    bridge: &mut Bridge,
) -> Result<(), NoMemory>
    requires { place < length bridge.old.lanes }
    ensures { OnOk result (bridge.new ≡ spec.answers_open lane.last number place lane bridge.old) }
{
    match open_copied(alloc, &lane.last) {
        Ok(Some(held)) => answered_if(held.number == number, place, held, lane, bridge),
        Ok(None) => {
            drop(lane);
            Ok(())
        }
        Err(fault) => {
            drop(lane);
            Err(fault)
        }
    }
}

/// The spool has all readings of smaller numbers than this one: if the lane's open one is among
/// them, it may be acknowledged.
pub(crate) fn keeps(
    alloc: Global,
    below: u64,
    place: usize,
    lane: Lane,
    bridge: &mut Bridge,
) -> Result<(), NoMemory>
    requires { place < length bridge.old.lanes }
    ensures { OnOk result (bridge.new ≡ spec.keeps_open lane.last below place lane bridge.old) }
{
    match open_copied(alloc, &lane.last) {
        Ok(Some(held)) => answered_if(held.number < below, place, held, lane, bridge),
        Ok(None) => {
            drop(lane);
            Ok(())
        }
        Err(fault) => {
            drop(lane);
            Err(fault)
        }
    }
}
