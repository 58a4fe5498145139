//! The bridge of a line, and events that go through it.

use crate::sets::words::Words;
use br_core::{
    Action, Bridge, DownFilter, Event, LaneSettings, MAX_WAITING, Moment, Settings, UpName, begun,
    step,
};
use mq_packet::{Packet, Qos};
use octets::{NoMemory, Octets, Sequence};
use sn_frame::{Flags, Frame};
use std::alloc::Global;
use std::mem;

/// The latest second of a line.
const LATEST: u64 = 1_000_000_000;

/// A bridge of the rows, and the second.
pub(crate) struct Stage {
    pub(crate) settings: Settings,
    pub(crate) bridge: Bridge,
    pub(crate) second: u64,
}

impl Drop for Stage {
    fn drop(self) {
        let Stage {
            settings,
            bridge,
            second: _,
        } = self;
        drop(settings);
        drop(bridge);
    }
}

/// How many lanes a bridge has, its window, and the room of its spool, if it has one.
#[derive(Clone, Copy)]
pub(crate) struct Size {
    lanes: u16,
    window: u16,
    room: Option<u16>,
}

/// The size that words say.
pub(crate) fn size_of(words: &mut Words<'_>) -> Size {
    Size {
        lanes: words.small_number(),
        window: words.small_number(),
        room: room_in(words),
    }
}

/// The room of a spool, if there is one more word.
fn room_in(words: &mut Words<'_>) -> Option<u16> {
    if words.left() == 0 {
        None
    } else {
        Some(words.small_number())
    }
}

/// The octets of a text.
fn of(alloc: Global, text: &str) -> Result<Octets, NoMemory> {
    Octets::from_slice(alloc, text.as_bytes())
}

/// The octets of two texts.
fn pair(alloc: Global, first: &str, second: &str) -> Result<(Octets, Octets), NoMemory> {
    let first = of(alloc, first)?;
    match of(alloc, second) {
        Ok(second) => Ok((first, second)),
        Err(fault) => {
            drop(first);
            Err(fault)
        }
    }
}

/// A text and a number after it.
fn numbered(alloc: Global, text: &str, number: u16) -> Result<String, NoMemory> {
    Ok(format!(in alloc; "{text}{number}")?)
}

/// The broker's topic of a field's topic: `f/` is in front.
fn broker_topic(alloc: Global, name: &str) -> Result<String, NoMemory> {
    Ok(format!(in alloc; "f/{name}")?)
}

/// Adds a name of a lane.
fn add_name(alloc: Global, names: &mut Sequence<UpName>, name: &str) -> Result<(), NoMemory> {
    let topic = broker_topic(alloc, name)?;
    let parts = pair(alloc, name, topic.as_str());
    drop(topic);
    match parts {
        Ok((name, topic)) => push_name(names, name, topic),
        Err(fault) => Err(fault),
    }
}

/// Adds a name and its topic.
fn push_name(names: &mut Sequence<UpName>, name: Octets, topic: Octets) -> Result<(), NoMemory> {
    names.push(UpName {
        name,
        topic,
        qos: Qos::One,
        retain: false,
    })?;
    Ok(())
}

/// Adds the name of a lane that has its place.
fn add_long(alloc: Global, names: &mut Sequence<UpName>, place: u16) -> Result<(), NoMemory> {
    let name = numbered(alloc, "t/", place)?;
    let added = add_name(alloc, names, name.as_str());
    drop(name);
    added
}

/// Adds the names of a lane: `t/` and its place; the first lane has the short name `qa` too.
fn add_names(alloc: Global, names: &mut Sequence<UpName>, place: u16) -> Result<(), NoMemory> {
    add_long(alloc, names, place)?;
    if place == 0 {
        add_name(alloc, names, "qa")
    } else {
        Ok(())
    }
}

/// The names of a lane.
fn names_of(alloc: Global, place: u16) -> Result<Sequence<UpName>, NoMemory> {
    let mut names = Sequence::empty(alloc);
    match add_names(alloc, &mut names, place) {
        Ok(()) => Ok(names),
        Err(fault) => {
            drop(names);
            Err(fault)
        }
    }
}

/// The client id of a lane.
fn client_of(alloc: Global, place: u16) -> Result<Octets, NoMemory> {
    let client = numbered(alloc, "b-u", place)?;
    let made = of(alloc, client.as_str());
    drop(client);
    made
}

/// The lane of this place.
fn lane(alloc: Global, place: u16) -> Result<LaneSettings, NoMemory> {
    let client = client_of(alloc, place)?;
    match names_of(alloc, place) {
        Ok(names) => Ok(LaneSettings { client, names }),
        Err(fault) => {
            drop(client);
            Err(fault)
        }
    }
}

/// Adds a lane.
fn add_lane(alloc: Global, lanes: &mut Sequence<LaneSettings>, place: u16) -> Result<(), NoMemory> {
    lanes.push(lane(alloc, place)?)?;
    Ok(())
}

/// Adds so many lanes.
fn add_lanes(
    alloc: Global,
    lanes: &mut Sequence<LaneSettings>,
    count: u16,
) -> Result<(), NoMemory> {
    for place in 0..count {
        add_lane(alloc, lanes, place)?;
    }
    Ok(())
}

/// So many lanes.
fn lanes_of(alloc: Global, count: u16) -> Result<Sequence<LaneSettings>, NoMemory> {
    let mut lanes = Sequence::empty(alloc);
    match add_lanes(alloc, &mut lanes, count) {
        Ok(()) => Ok(lanes),
        Err(fault) => {
            drop(lanes);
            Err(fault)
        }
    }
}

/// Adds a filter of commands, whose front is taken away.
fn add_down(
    alloc: Global,
    downs: &mut Sequence<DownFilter>,
    filter: &str,
    strip: &str,
    retained: bool,
) -> Result<(), NoMemory> {
    let (filter, strip) = pair(alloc, filter, strip)?;
    downs.push(DownFilter {
        filter,
        strip,
        retained,
    })?;
    Ok(())
}

/// Adds the filters of commands: below `c/`, and kept ones too below `k/`.
fn add_downs(alloc: Global, downs: &mut Sequence<DownFilter>) -> Result<(), NoMemory> {
    add_down(alloc, downs, "c/#", "c/", false)?;
    add_down(alloc, downs, "k/#", "k/", true)
}

/// The filters of commands.
fn downs_of(alloc: Global) -> Result<Sequence<DownFilter>, NoMemory> {
    let mut downs = Sequence::empty(alloc);
    match add_downs(alloc, &mut downs) {
        Ok(()) => Ok(downs),
        Err(fault) => {
            drop(downs);
            Err(fault)
        }
    }
}

/// What goes up and comes down.
#[derive(Drop)]
struct Ways {
    lanes: Sequence<LaneSettings>,
    downs: Sequence<DownFilter>,
}

/// What goes up by so many lanes and comes down.
fn ways_of(alloc: Global, count: u16) -> Result<Ways, NoMemory> {
    let lanes = lanes_of(alloc, count)?;
    match downs_of(alloc) {
        Ok(downs) => Ok(Ways { lanes, downs }),
        Err(fault) => {
            drop(lanes);
            Err(fault)
        }
    }
}

/// The client ids, and what is said of the bridge.
#[derive(Drop)]
struct Ids {
    clients: (Octets, Octets),
    told: (Octets, Octets),
}

/// The client ids, and what is said of the bridge.
fn ids_of(alloc: Global) -> Result<Ids, NoMemory> {
    let clients = pair(alloc, "b-d0", "b")?;
    match pair(alloc, "s", "here") {
        Ok(told) => Ok(Ids { clients, told }),
        Err(fault) => {
            drop(clients);
            Err(fault)
        }
    }
}

/// How many readings wait at most.
fn room_of(room: Option<u16>) -> usize {
    match room {
        None => MAX_WAITING,
        Some(room) => usize::from(room),
    }
}

/// Settings of their parts.
fn settings_of(size: Size, ways: Ways, ids: Ids) -> Settings {
    let Ways { lanes, downs } = ways;
    let Ids { clients, told } = ids;
    let (commands, client) = clients;
    let (state, here) = told;
    Settings {
        lanes,
        commands,
        downs,
        client,
        will: None,
        login: None,
        state,
        here,
        window: usize::from(size.window),
        room: room_of(size.room),
        spools: size.room.is_some(),
    }
}

/// The settings of a bridge of this size.
fn settings_for(alloc: Global, size: Size) -> Result<Settings, NoMemory> {
    let ways = ways_of(alloc, size.lanes)?;
    match ids_of(alloc) {
        Ok(ids) => Ok(settings_of(size, ways, ids)),
        Err(fault) => {
            drop(ways);
            Err(fault)
        }
    }
}

/// A bridge of this size.
pub(crate) fn new_stage(alloc: Global, size: Size) -> Result<Stage, NoMemory> {
    let settings = settings_for(alloc, size)?;
    match begun(alloc, &settings) {
        Ok(bridge) => Ok(Stage {
            settings,
            bridge,
            second: 0,
        }),
        Err(fault) => {
            drop(settings);
            Err(fault)
        }
    }
}

/// An event goes through the machine; what is to be done.
pub(crate) fn taken(
    alloc: Global,
    stage: &mut Stage,
    event: &Event,
) -> Result<Sequence<Action>, NoMemory> {
    let moment = Moment::of(stage.second.min(LATEST));
    step(alloc, &stage.settings, event, moment, &mut stage.bridge)?;
    Ok(mem::replace(&mut stage.bridge.out, Sequence::empty(alloc)))
}

/// An event goes through the machine, and nobody asks what is to be done.
pub(crate) fn pass(alloc: Global, stage: &mut Stage, event: Event) -> Result<(), NoMemory> {
    let done = taken(alloc, stage, &event);
    drop(event);
    match done {
        Ok(actions) => {
            drop(actions);
            Ok(())
        }
        Err(fault) => Err(fault),
    }
}

/// A frame of a lane's gateway comes.
fn hear(alloc: Global, stage: &mut Stage, lane: usize, frame: Frame) -> Result<(), NoMemory> {
    pass(alloc, stage, Event::Field { lane, frame })
}

/// A frame that says that a name is subscribed to.
fn sub_ack(topic_id: u16, msg_id: u16) -> Frame {
    Frame::SubAck {
        flags: Flags { bits: 0x20 },
        topic_id,
        msg_id,
        code: 0,
    }
}

/// A lane connects and subscribes to all its names, the first of which gets id 5.
fn lane_ready(alloc: Global, stage: &mut Stage, lane: usize) -> Result<(), NoMemory> {
    hear(alloc, stage, lane, Frame::ConnAck { code: 0 })?;
    hear(alloc, stage, lane, sub_ack(5, 1))?;
    hear(alloc, stage, lane, sub_ack(0, 2))
}

/// All lanes connect and subscribe.
fn lanes_ready(alloc: Global, stage: &mut Stage) -> Result<(), NoMemory> {
    for lane in 0..stage.settings.lanes.len() {
        lane_ready(alloc, stage, lane)?;
    }
    Ok(())
}

/// The gateway says yes to the lane for commands, and the broker to the connection.
fn sides_ready(alloc: Global, stage: &mut Stage) -> Result<(), NoMemory> {
    pass(alloc, stage, Event::Tick)?;
    gateway_ready(alloc, stage)?;
    pass(alloc, stage, Event::BrokerOpen)?;
    broker_ready(alloc, stage)
}

/// The gateway says yes to the lane for commands.
fn gateway_ready(alloc: Global, stage: &mut Stage) -> Result<(), NoMemory> {
    let frame = Frame::ConnAck { code: 0 };
    pass(alloc, stage, Event::Commands { frame })
}

/// The broker says yes to the connection.
fn broker_ready(alloc: Global, stage: &mut Stage) -> Result<(), NoMemory> {
    let packet = Packet::ConnAck {
        session: true,
        code: 0,
    };
    pass(alloc, stage, Event::Broker { packet })
}

/// All say yes to a bridge.
fn make_ready(alloc: Global, stage: &mut Stage) -> Result<(), NoMemory> {
    stage.bridge.is_subscribed = true;
    sides_ready(alloc, stage)?;
    lanes_ready(alloc, stage)
}

/// A bridge of this size to which the broker and the gateway have said yes.
pub(crate) fn ready_stage(alloc: Global, size: Size) -> Result<Stage, NoMemory> {
    let mut stage = new_stage(alloc, size)?;
    match make_ready(alloc, &mut stage) {
        Ok(()) => Ok(stage),
        Err(fault) => {
            drop(stage);
            Err(fault)
        }
    }
}
