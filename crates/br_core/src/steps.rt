//! The step of the whole bridge.

ghost use Rattle.std.specs.Prelude.{◌≡◌, ◌<◌, length, IfOk, OnOk};
ghost use Rattle.br_core.specs.Begins as begins_spec;
ghost use Rattle.br_core.specs.Commands as commands_spec;
ghost use Rattle.br_core.specs.Lanes as lanes_spec;
ghost use Rattle.br_core.specs.Steps as spec;
ghost use Rattle.br_core.specs.inner.Works.{worked};
ghost use Rattle.br_core.specs.declared.state.TheConstants.{LAST_NUMBER};

use crate::action::Action;
use crate::commands::{Message, command_begins, commanded, down_frame, down_tick, kept};
use crate::event::Event;
use crate::item::Item;
use crate::lanes::{Scene, answers, falls_asleep, keeps, lane_frame, lane_tick, wakes};
use crate::queue::Queue;
use crate::settings::{DownFilter, LaneSettings, Settings};
use crate::sides::{
    all_again, does, free_packet_id, is_broker_up, item_in_flight, next_id, sends, takes,
};
use crate::state::{
    BROKER_KEEP_ALIVE, Bridge, Doing, Down, LAST_NUMBER, Lane, Moment, Phase, Side,
};
use mq_packet::{Delivery, Login, Packet, Qos, Will};
use octets::{NoMemory, Octets, Sequence};
use sn_frame::Frame;
use std::alloc::Global;

/// So many lanes before anything has come.
fn new_lanes(alloc: Global, settings: &Settings) -> Result<Sequence<Lane>, NoMemory>
    ensures { IfOk result (λ lanes. lanes ≡ (begins_spec.begun settings.now).lanes) }
{
    let mut lanes = Vec::new(alloc);
    for own in settings.lanes.as_slice() {
        lanes.push(Lane::new(alloc))?;
    }
    Ok(Sequence::new(lanes))
}

/// A bridge that begins: nothing has come, and all lanes sleep until the broker is there.
pub fn begun(alloc: Global, settings: &Settings) -> Result<Bridge, NoMemory>
    ensures { IfOk result (λ bridge. bridge ≡ begins_spec.begun settings.now) }
{
    Ok(Bridge {
        lanes: new_lanes(alloc, settings)?,
        down: Down {
            phase: Phase::Away,
            tries: 0,
            due: 0,
            msg_id: 1,
            ids: Sequence::empty(alloc),
            doing: Doing::Nothing,
            line: 0,
            queue: Sequence::empty(alloc),
            is_behind: false,
        },
        side: Side::Closed,
        due: 0,
        tries: 0,
        is_subscribed: false,
        is_storing: false,
        waiting: Queue::empty(alloc),
        flight: Sequence::empty(alloc),
        number: 0,
        packet_id: 1,
        out: Sequence::empty(alloc),
    })
}

/// A frame of the gateway of a lane.
fn frame_at(
    alloc: Global,
    settings: &Settings,
    place: usize,
    m: Moment,
    frame: &Frame,
    bridge: &mut Bridge,
) -> Result<(), NoMemory>
    ensures { OnOk result (bridge.new ≡ spec.at_lane settings.now place
        (lanes_spec.lane_frame settings.now place m frame.now) bridge.old) }
{
    let Some(own) = settings.lanes.as_slice().get(place) else {
        return Ok(());
    };
    let Some(lane) = bridge.lanes.as_slice().get(place) else {
        return Ok(());
    };
    let lane = lane.copied(alloc)?;
    let scene = Scene {
        alloc,
        own,
        place,
        m,
    };
    lane_frame(settings, scene, frame, lane, bridge)
}

/// What a lane does without a frame of its gateway.
#[derive(Clone, Copy)]
enum Work {
    /// Time goes by.
    Tick { m: Moment },
    /// It falls asleep.
    Sleep,
    /// It wakes.
    Wake { m: Moment },
    /// The broker has acknowledged the reading of this number.
    Answer { number: u64 },
    /// The spool has the readings of all smaller numbers.
    Keep { below: u64 },
}

/// A lane does this.
fn works(
    alloc: Global,
    work: Work,
    own: &LaneSettings,
    place: usize,
    lane: Lane,
    bridge: &mut Bridge,
) -> Result<(), NoMemory>
    requires { place < length bridge.old.lanes }
    ensures { OnOk result (bridge.new ≡ worked work place own.now lane bridge.old) }
{
    match work {
        Work::Tick { m } => {
            let scene = Scene {
                alloc,
                own,
                place,
                m,
            };
            lane_tick(scene, lane, bridge)
        }
        Work::Sleep => falls_asleep(place, lane, bridge),
        Work::Wake { m } => {
            let scene = Scene {
                alloc,
                own,
                place,
                m,
            };
            wakes(scene, lane, bridge)
        }
        Work::Answer { number } => answers(alloc, number, place, lane, bridge),
        Work::Keep { below } => keeps(alloc, below, place, lane, bridge),
    }
}

/// The lane at this place does this, if there is one.
fn work_at(
    alloc: Global,
    settings: &Settings,
    place: usize,
    work: Work,
    bridge: &mut Bridge,
) -> Result<(), NoMemory>
    ensures { OnOk result (bridge.new ≡ spec.at_lane settings.now place (worked work place)
        bridge.old) }
{
    let Some(own) = settings.lanes.as_slice().get(place) else {
        return Ok(());
    };
    let Some(lane) = bridge.lanes.as_slice().get(place) else {
        return Ok(());
    };
    let lane = lane.copied(alloc)?;
    works(alloc, work, own, place, lane, bridge)
}

/// All lanes do this, one after the other.
fn all_work(
    alloc: Global,
    settings: &Settings,
    work: Work,
    bridge: &mut Bridge,
) -> Result<(), NoMemory>
    ensures { OnOk result (bridge.new ≡ spec.each_lane settings.now
        (λ place. worked work place) bridge.old) }
{
    for place in 0..settings.lanes.len() {
        work_at(alloc, settings, place, work, bridge)?;
    }
    Ok(())
}

/// Whether what lanes bring can be acknowledged soon: by the broker, or by the spool.
fn may_listen(bridge: &Bridge) -> bool
    ensures { result ≡ spec.may_listen bridge.now }
{
    is_broker_up(bridge.side) || bridge.is_storing
}

/// Lanes fall asleep if they may not acknowledge.
fn lanes_rest(alloc: Global, settings: &Settings, bridge: &mut Bridge) -> Result<(), NoMemory>
    ensures { OnOk result (bridge.new ≡ spec.lanes_rest settings.now bridge.old) }
{
    if may_listen(bridge) {
        return Ok(());
    }
    all_work(alloc, settings, Work::Sleep, bridge)
}

/// Whether lanes that sleep may wake: they can acknowledge, and half of the room is free.
fn may_wake(settings: &Settings, bridge: &Bridge) -> bool
    ensures { result ≡ spec.may_wake settings.now bridge.now }
{
    may_listen(bridge) && bridge.waiting.len() <= settings.room / 2
}

/// Lanes that sleep wake, if they may.
fn rouses(
    alloc: Global,
    settings: &Settings,
    m: Moment,
    bridge: &mut Bridge,
) -> Result<(), NoMemory>
    ensures { OnOk result (bridge.new ≡ spec.rouses settings.now m bridge.old) }
{
    if !may_wake(settings, bridge) {
        return Ok(());
    }
    all_work(alloc, settings, Work::Wake { m }, bridge)
}

/// What waits is sent, if the broker is there.
fn sends_all(alloc: Global, settings: &Settings, bridge: &mut Bridge) -> Result<(), NoMemory>
    ensures { OnOk result (bridge.new ≡ spec.sends_all settings.now bridge.old) }
{
    let side = bridge.side;
    match side {
        Side::Up => sends(alloc, settings, bridge),
        Side::Closed | Side::Connecting | Side::Subscribing { .. } => Ok(()),
    }
}

/// The broker's topic tells that the bridge is there.
fn says_here(alloc: Global, settings: &Settings, bridge: &mut Bridge) -> Result<(), NoMemory>
    ensures { OnOk result (bridge.new ≡ spec.says_here settings.now bridge.old) }
{
    let packet = Packet::Publish {
        delivery: Delivery::Once,
        retain: true,
        topic: settings.state.copied(alloc)?,
        body: settings.here.copied(alloc)?,
    };
    does(bridge, Action::ToBroker { packet })
}

/// The broker is there: what is in flight goes out again, what waits is sent, lanes wake.
fn up(alloc: Global, settings: &Settings, m: Moment, bridge: &mut Bridge) -> Result<(), NoMemory>
    ensures { OnOk result (bridge.new ≡ spec.up settings.now m bridge.old) }
{
    bridge.side = Side::Up;
    bridge.due = m.ping;
    bridge.tries = 0;
    says_here(alloc, settings, bridge)?;
    all_again(alloc, bridge)?;
    sends(alloc, settings, bridge)?;
    all_work(alloc, settings, Work::Wake { m }, bridge)
}

/// SUBSCRIBE of the filter of this number (MQTT 3.1.1 section 3.8); after the last one publications
/// go both ways.
fn subscribing(
    alloc: Global,
    settings: &Settings,
    next: usize,
    m: Moment,
    bridge: &mut Bridge,
) -> Result<(), NoMemory>
    ensures { OnOk result (bridge.new ≡ spec.subscribing settings.now next m bridge.old) }
{
    let Some(entry) = settings.downs.as_slice().get(next) else {
        bridge.is_subscribed = true;
        return up(alloc, settings, m, bridge);
    };
    let filter = entry.filter.copied(alloc)?;
    let id = free_packet_id(bridge.packet_id, bridge.flight.as_slice());
    bridge.side = Side::Subscribing { next };
    bridge.due = m.retry;
    bridge.packet_id = next_id(id);
    let qos = Qos::One;
    let packet = Packet::Subscribe { id, filter, qos };
    does(bridge, Action::ToBroker { packet })
}

/// The connection is over: what is in flight stays so, and what the broker sent comes again from
/// it.
fn connection_ended(alloc: Global, due: u64, bridge: &mut Bridge)
    ensures { bridge.new ≡ spec.connection_ended due bridge.old }
{
    bridge.side = Side::Closed;
    bridge.due = due;
    bridge.tries = 0;
    bridge.down.queue = Sequence::empty(alloc);
    bridge.down.doing = Doing::Nothing;
    bridge.down.is_behind = false;
}

/// The connection is over, and lanes fall asleep, if they may not acknowledge.
fn connection_lost(
    alloc: Global,
    settings: &Settings,
    due: u64,
    bridge: &mut Bridge,
) -> Result<(), NoMemory>
    ensures { OnOk result (bridge.new ≡ spec.connection_lost settings.now due bridge.old) }
{
    connection_ended(alloc, due, bridge);
    lanes_rest(alloc, settings, bridge)
}

/// The bridge ends the connection, which is dialled again when it is due.
fn hangs_up(
    alloc: Global,
    settings: &Settings,
    due: u64,
    bridge: &mut Bridge,
) -> Result<(), NoMemory>
    ensures { OnOk result (bridge.new ≡ spec.hangs_up settings.now due bridge.old) }
{
    connection_lost(alloc, settings, due, bridge)?;
    does(bridge, Action::HangUp)
}

/// Whether one of the filters hands on what the broker had kept.
fn wants_kept(downs: &[DownFilter]) -> bool
    ensures { result ≡ spec.wants_kept downs.now }
{
    downs.iter().any(|entry| entry.retained)
}

/// CONNACK (MQTT 3.1.1 section 3.2): the filters are subscribed to. A broker that went back to what
/// it had saved may have lost some. But they are not if the broker knows the session, this run has
/// subscribed to all of them, and one hands on what the broker had kept, which would come again. Or
/// the broker does not want us, and is asked again in a minute.
fn broker_welcomed(
    alloc: Global,
    settings: &Settings,
    session: bool,
    code: u8,
    m: Moment,
    bridge: &mut Bridge,
) -> Result<(), NoMemory>
    ensures { OnOk result
        (bridge.new ≡ spec.broker_welcomed settings.now session code m bridge.old) }
{
    if code != 0 {
        return hangs_up(alloc, settings, m.minute, bridge);
    }
    if session && bridge.is_subscribed && wants_kept(settings.downs.as_slice()) {
        return up(alloc, settings, m, bridge);
    }
    bridge.is_subscribed = false;
    subscribing(alloc, settings, 0, m, bridge)
}

/// The spool need not keep a reading any longer, if there is a spool.
fn forgets(settings: &Settings, number: u64, bridge: &mut Bridge) -> Result<(), NoMemory>
    ensures { OnOk result (bridge.new ≡ spec.forgets settings.now number bridge.old) }
{
    if !settings.spools {
        return Ok(());
    }
    does(bridge, Action::Forget { number })
}

/// PUBACK of the broker (MQTT 3.1.1 section 3.4): the lane may acknowledge the reading, and what
/// waits is sent.
fn answered(
    alloc: Global,
    settings: &Settings,
    id: u16,
    bridge: &mut Bridge,
) -> Result<(), NoMemory>
    ensures { OnOk result (bridge.new ≡ spec.broker_acked settings.now id bridge.old) }
{
    let Some(item) = item_in_flight(alloc, id, bridge) else {
        return Ok(());
    };
    let number = item.number;
    let lane = item.lane;
    drop(item);
    forgets(settings, number, bridge)?;
    work_at(alloc, settings, lane, Work::Answer { number }, bridge)?;
    sends_all(alloc, settings, bridge)
}

/// The packet id of a publication; 0 where it wants no acknowledgement.
fn delivery_id(delivery: Delivery) -> u16
    ensures { result ≡ spec.delivery_id delivery }
{
    match delivery {
        Delivery::Once => 0,
        Delivery::Acknowledged { id, .. } => id,
    }
}

/// PUBLISH of the broker (MQTT 3.1.1 section 3.3): a command.
fn broker_publication(
    alloc: Global,
    settings: &Settings,
    message: Message<'_>,
    m: Moment,
    bridge: &mut Bridge,
) -> Result<(), NoMemory>
    ensures { OnOk result (bridge.new ≡ commands_spec.command_begins m (commands_spec.commanded
        settings.now.downs message.entry.id message.entry.retain message.entry.topic.now
        message.entry.body.now bridge.old)) }
{
    commanded(alloc, settings.downs.as_slice(), message, bridge)?;
    command_begins(alloc, m, bridge)
}

/// A packet of the broker while publications go both ways.
fn up_packet(
    alloc: Global,
    settings: &Settings,
    m: Moment,
    packet: &Packet,
    bridge: &mut Bridge,
) -> Result<(), NoMemory>
    ensures { OnOk result (bridge.new ≡ spec.up_packet settings.now m packet.now bridge.old) }
{
    match packet {
        Packet::PubAck { id } => answered(alloc, settings, *id, bridge),
        Packet::Publish {
            delivery,
            retain,
            topic,
            body,
        } => {
            let message = Message {
                id: delivery_id(*delivery),
                retain: *retain,
                topic,
                body,
            };
            broker_publication(alloc, settings, message, m, bridge)
        }
        _ => Ok(()),
    }
}

/// Whether a filter is granted as it was asked for. At quality of service 0 commands could be lost.
fn is_granted(granted: Option<Qos>) -> bool
    ensures { result ≡ spec.is_granted granted }
{
    match granted {
        Some(Qos::One) => true,
        Some(Qos::Zero) | None => false,
    }
}

/// SUBACK of the filter (MQTT 3.1.1 section 3.9): the next one; a filter that is not granted ends
/// the connection.
fn named(
    alloc: Global,
    settings: &Settings,
    granted: bool,
    next: usize,
    m: Moment,
    bridge: &mut Bridge,
) -> Result<(), NoMemory>
    requires { next < LAST_NUMBER }
    ensures { OnOk result (bridge.new ≡ spec.named_at granted settings.now next m bridge.old) }
{
    if granted {
        subscribing(alloc, settings, next + 1, m, bridge)
    } else {
        hangs_up(alloc, settings, m.minute, bridge)
    }
}

/// A packet of the broker while a filter is subscribed to.
fn naming_packet(
    alloc: Global,
    settings: &Settings,
    next: usize,
    m: Moment,
    packet: &Packet,
    bridge: &mut Bridge,
) -> Result<(), NoMemory>
    ensures { OnOk result (bridge.new ≡ spec.naming_packet settings.now next m packet.now
        bridge.old) }
{
    match packet {
        Packet::SubAck { id, granted } => {
            if next_id(*id) == bridge.packet_id && next < usize::MAX {
                named(alloc, settings, is_granted(*granted), next, m, bridge)
            } else {
                Ok(())
            }
        }
        _ => up_packet(alloc, settings, m, packet, bridge),
    }
}

/// The first packet of a connection is a CONNACK.
fn new_packet(
    alloc: Global,
    settings: &Settings,
    m: Moment,
    packet: &Packet,
    bridge: &mut Bridge,
) -> Result<(), NoMemory>
    ensures { OnOk result (bridge.new ≡ spec.new_packet settings.now m packet.now bridge.old) }
{
    match packet {
        Packet::ConnAck { session, code } => {
            broker_welcomed(alloc, settings, *session, *code, m, bridge)
        }
        _ => hangs_up(alloc, settings, m.retry, bridge),
    }
}

/// What comes shows that the broker is there: the next sign of life is due later, if one was asked
/// for.
fn broker_heard(m: Moment, bridge: &mut Bridge)
    ensures { bridge.new ≡ spec.broker_heard m bridge.old }
{
    if bridge.tries != 0 {
        bridge.tries = 0;
        bridge.due = m.ping;
    }
}

/// A packet of the broker, by how far the connection is.
fn packet_in(
    alloc: Global,
    settings: &Settings,
    m: Moment,
    packet: &Packet,
    bridge: &mut Bridge,
) -> Result<(), NoMemory>
    ensures { OnOk result (bridge.new ≡ spec.packet_in bridge.old.side settings.now m packet.now
        bridge.old) }
{
    let side = bridge.side;
    match side {
        Side::Closed => Ok(()),
        Side::Connecting => new_packet(alloc, settings, m, packet, bridge),
        Side::Subscribing { next } => naming_packet(alloc, settings, next, m, packet, bridge),
        Side::Up => {
            broker_heard(m, bridge);
            up_packet(alloc, settings, m, packet, bridge)
        }
    }
}

/// A copy of the will.
fn will_of(alloc: Global, will: &Option<Will>) -> Result<Option<Will>, NoMemory>
    ensures { IfOk result (λ made. made ≡ will.now) }
{
    let Some(will) = will else {
        return Ok(None);
    };
    Ok(Some(Will {
        topic: will.topic.copied(alloc)?,
        message: will.message.copied(alloc)?,
        qos: will.qos,
        retain: will.retain,
    }))
}

/// A copy of a password.
fn password_of(alloc: Global, password: &Option<Octets>) -> Result<Option<Octets>, NoMemory>
    ensures { IfOk result (λ made. made ≡ password.now) }
{
    match password {
        None => Ok(None),
        Some(password) => Ok(Some(password.copied(alloc)?)),
    }
}

/// A copy of the login.
fn login_of(alloc: Global, login: &Option<Login>) -> Result<Option<Login>, NoMemory>
    ensures { IfOk result (λ made. made ≡ login.now) }
{
    let Some(login) = login else {
        return Ok(None);
    };
    Ok(Some(Login {
        user: login.user.copied(alloc)?,
        password: password_of(alloc, &login.password)?,
    }))
}

/// The connection is there: CONNECT (MQTT 3.1.1 section 3.1), and the broker keeps the session.
fn connection_opened(
    alloc: Global,
    settings: &Settings,
    m: Moment,
    bridge: &mut Bridge,
) -> Result<(), NoMemory>
    ensures { OnOk result (bridge.new ≡ spec.connection_opened settings.now m bridge.old) }
{
    let packet = Packet::Connect {
        clean: false,
        keep_alive: BROKER_KEEP_ALIVE,
        client: settings.client.copied(alloc)?,
        will: will_of(alloc, &settings.will)?,
        login: login_of(alloc, &settings.login)?,
    };
    bridge.side = Side::Connecting;
    bridge.due = m.retry;
    bridge.tries = 0;
    does(bridge, Action::ToBroker { packet })
}

/// The broker is asked whether it is there (MQTT 3.1.1 section 3.12), or given up.
fn asks_broker(
    alloc: Global,
    settings: &Settings,
    m: Moment,
    bridge: &mut Bridge,
) -> Result<(), NoMemory>
    ensures { OnOk result (bridge.new ≡ spec.asks_broker settings.now m bridge.old) }
{
    if bridge.tries != 0 {
        return hangs_up(alloc, settings, m.soon, bridge);
    }
    bridge.tries = 1;
    bridge.due = m.retry;
    let packet = Packet::PingReq;
    does(bridge, Action::ToBroker { packet })
}

/// Whether all commands that were taken are done, and others were passed over.
fn has_passed_over(down: &Down) -> bool
    ensures { result ≡ spec.has_passed_over down.now }
{
    down.is_behind && down.queue.is_empty()
}

/// Time goes by for the broker's side: it is dialled, asked whether it is there, or given up. What
/// was passed over comes again from a new connection.
fn side_tick(
    alloc: Global,
    settings: &Settings,
    m: Moment,
    bridge: &mut Bridge,
) -> Result<(), NoMemory>
    ensures { OnOk result (bridge.new ≡ spec.side_tick settings.now m bridge.old) }
{
    if has_passed_over(&bridge.down) {
        return hangs_up(alloc, settings, m.soon, bridge);
    }
    if m.at < bridge.due {
        return Ok(());
    }
    let side = bridge.side;
    match side {
        Side::Closed => {
            bridge.due = m.retry;
            does(bridge, Action::Dial)
        }
        Side::Up => asks_broker(alloc, settings, m, bridge),
        Side::Connecting | Side::Subscribing { .. } => hangs_up(alloc, settings, m.soon, bridge),
    }
}

/// Readings of smaller numbers than this one came before the bridge began.
fn counts_on(number: u64, bridge: &mut Bridge)
    ensures { bridge.new ≡ spec.counts_on number bridge.old }
{
    if bridge.number <= number {
        bridge.number = number;
    }
}

/// Whether a reading that the spool has kept comes in its order.
fn comes_in_order(item: &Item, bridge: &Bridge) -> bool
    ensures { result ≡ spec.comes_in_order item.now bridge.now }
{
    bridge.number <= item.number && item.number < LAST_NUMBER
}

/// A reading that came before the bridge began goes on its way again.
fn reading_found(
    alloc: Global,
    settings: &Settings,
    item: &Item,
    bridge: &mut Bridge,
) -> Result<(), NoMemory>
    ensures { OnOk result (bridge.new ≡ spec.reading_found settings.now item.now bridge.old) }
{
    if !comes_in_order(item, bridge) {
        return Ok(());
    }
    bridge.number = item.number + 1;
    takes(alloc, settings, item.copied(alloc)?, bridge)
}

/// Whether the spool may say that it has all readings of smaller numbers: there is one, and they
/// came.
fn may_keep(settings: &Settings, below: u64, bridge: &Bridge) -> bool
    ensures { result ≡ spec.may_keep settings.now below bridge.now }
{
    settings.spools && below <= bridge.number
}

/// The spool takes readings, and has those of smaller numbers than this one: lanes may acknowledge
/// them.
fn stored(
    alloc: Global,
    settings: &Settings,
    below: u64,
    bridge: &mut Bridge,
) -> Result<(), NoMemory>
    ensures { OnOk result (bridge.new ≡ spec.stored settings.now below bridge.old) }
{
    if !may_keep(settings, below, bridge) {
        return Ok(());
    }
    bridge.is_storing = true;
    all_work(alloc, settings, Work::Keep { below }, bridge)
}

/// The spool takes no readings: lanes fall asleep, if the broker is away too.
fn store_failed(alloc: Global, settings: &Settings, bridge: &mut Bridge) -> Result<(), NoMemory>
    ensures { OnOk result (bridge.new ≡ spec.store_failed settings.now bridge.old) }
{
    bridge.is_storing = false;
    lanes_rest(alloc, settings, bridge)
}

/// Time goes by.
fn ticks(alloc: Global, settings: &Settings, m: Moment, bridge: &mut Bridge) -> Result<(), NoMemory>
    ensures { OnOk result (bridge.new ≡ spec.ticks settings.now m bridge.old) }
{
    rouses(alloc, settings, m, bridge)?;
    all_work(alloc, settings, Work::Tick { m }, bridge)?;
    down_tick(alloc, &settings.commands, m, bridge)?;
    side_tick(alloc, settings, m, bridge)
}

/// The step of an event: what it makes of the bridge, with what is to be done in `out`.
///
/// If memory runs out, the bridge has to be given up. One that begins anew loses nothing that was
/// acknowledged: both sides send again what was not, and the spool has the rest.
pub fn step(
    alloc: Global,
    settings: &Settings,
    event: &Event,
    m: Moment,
    bridge: &mut Bridge,
) -> Result<(), NoMemory>
    ensures { OnOk result (bridge.new ≡ spec.step settings.now event.now m bridge.old) }
{
    bridge.out = Sequence::empty(alloc);
    match event {
        Event::Field { lane, frame } => frame_at(alloc, settings, *lane, m, frame, bridge),
        Event::Commands { frame } => down_frame(alloc, m, frame, bridge),
        Event::Broker { packet } => packet_in(alloc, settings, m, packet, bridge),
        Event::BrokerOpen => connection_opened(alloc, settings, m, bridge),
        Event::BrokerLost => connection_lost(alloc, settings, m.soon, bridge),
        Event::Kept { line } => kept(alloc, *line, m, bridge),
        Event::Resumed { number } => {
            counts_on(*number, bridge);
            Ok(())
        }
        Event::Found { item } => reading_found(alloc, settings, item, bridge),
        Event::Stored { below } => stored(alloc, settings, *below, bridge),
        Event::StoreFailed => store_failed(alloc, settings, bridge),
        Event::Tick => ticks(alloc, settings, m, bridge),
    }
}
