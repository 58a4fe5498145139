//! What a document asks for.

use crate::entries::{downs_in, look_for_loops, ups_in};
use crate::keys::{address_of, list_at, number_at, octets_of, text_at, text_if, text_of};
use crate::reading::password_at;
use crate::stop::Stop;
use br_core::{DownFilter, LaneSettings, MAX_WAITING, Settings, UpName};
use br_spool::MAX_ROOM;
use mq_packet::{Login, Qos, Will, is_text};
use octets::{Octets, Sequence};
use sn_topic::MAX_TOPIC;
use std::alloc::Global;
use std::net::SocketAddr;
use toml::{Table, Value};

/// How many names with an id a lane has at most: a session has 256 ids.
const MOST_IDS: usize = 250;

/// The least room of a spool.
const LEAST_ROOM: u64 = 1_024;

/// The most octets of the bridge's name.
const MOST_OF_NAME: usize = 16;

/// The most octets of a client id that each broker takes (MQTT 3.1.1 section 3.1.3.1).
const MOST_OF_CLIENT: usize = 23;

/// What a document asks for.
pub(crate) struct Setup {
    /// What is carried.
    pub settings: Settings,
    /// Where gateways are: the first, and those that are tried when it does not answer.
    pub gateways: Vec<SocketAddr>,
    /// Where the broker is.
    pub broker: SocketAddr,
    /// The file of what no side will have.
    pub refused: Option<String>,
    /// The path of the spool.
    pub spool: Option<String>,
}

impl Drop for Setup {
    fn drop(self) {
        let Setup {
            settings,
            gateways,
            broker,
            refused,
            spool,
        } = self;
        drop(settings);
        drop(gateways);
        drop(broker);
        drop(refused);
        drop(spool);
    }
}

/// The name of the bridge: 1 to 16 octets of a to z, 0 to 9 and `-`.
fn name_in(document: &Table) -> Result<&str, Stop> {
    let name = text_at(document, "name", "name")?;
    let octets = name.as_bytes();
    let is_good = octets
        .iter()
        .all(|octet| matches!(*octet, b'a'..=b'z' | b'0'..=b'9' | b'-'));
    if !is_good || octets.is_empty() || octets.len() > MOST_OF_NAME {
        return Err(Stop::Key("name"));
    }
    Ok(name)
}

/// Whether all addresses are of one kind: a lane has one socket for all of them.
fn are_alike(all: &[SocketAddr]) -> bool {
    match all {
        [] => true,
        [first, ..] => all.iter().all(|one| one.is_ipv4() == first.is_ipv4()),
    }
}

/// The address of a gateway.
fn gateway_of(item: &Value) -> Result<SocketAddr, Stop> {
    address_of(text_of(item, "gateways")?, "gateways")
}

/// Adds the address of a gateway.
fn add_gateway(all: &mut Vec<SocketAddr>, item: &Value) -> Result<(), Stop> {
    all.push(gateway_of(item)?)?;
    Ok(())
}

/// Adds the addresses of all gateways, of which there is one at least, all of one kind.
fn add_gateways(all: &mut Vec<SocketAddr>, document: &Table) -> Result<(), Stop> {
    for item in list_at(document, "gateways", "gateways")? {
        add_gateway(all, item)?;
    }
    if all.is_empty() || !are_alike(all.as_slice()) {
        return Err(Stop::Key("gateways"));
    }
    Ok(())
}

/// The addresses of the gateways.
fn gateways_in(alloc: Global, document: &Table) -> Result<Vec<SocketAddr>, Stop> {
    let mut all = Vec::new(alloc);
    match add_gateways(&mut all, document) {
        Ok(()) => Ok(all),
        Err(stop) => {
            drop(all);
            Err(stop)
        }
    }
}

/// The address of the broker.
fn broker_in(document: &Table) -> Result<SocketAddr, Stop> {
    address_of(text_at(document, "broker", "broker")?, "broker")
}

/// Where the bridge connects to.
#[derive(Drop)]
struct Places {
    gateways: Vec<SocketAddr>,
    broker: SocketAddr,
}

/// Where the bridge connects to.
fn places_in(alloc: Global, document: &Table) -> Result<Places, Stop> {
    let gateways = gateways_in(alloc, document)?;
    match broker_in(document) {
        Ok(broker) => Ok(Places { gateways, broker }),
        Err(stop) => {
            drop(gateways);
            Err(stop)
        }
    }
}

/// The client id at the broker.
fn client_in(alloc: Global, document: &Table) -> Result<Octets, Stop> {
    let client = text_at(document, "client", "client")?;
    let octets = client.as_bytes();
    if octets.is_empty() || octets.len() > MOST_OF_CLIENT || !is_text(octets) {
        return Err(Stop::Key("client"));
    }
    octets_of(alloc, client)
}

/// The password that a document names the file of.
fn password_in(rt: &HostRuntime, alloc: Global, document: &Table) -> Result<Option<Octets>, Stop> {
    let Some(path) = text_if(document, "password", "password")? else {
        return Ok(None);
    };
    match password_at(rt, alloc, path)? {
        None => Err(Stop::Key("password")),
        Some(password) => Ok(Some(Octets::new(password)?)),
    }
}

/// Nobody in particular connects to the broker: then there is no password either.
fn no_login_in(document: &Table) -> Result<Option<Login>, Stop> {
    match document.get("password") {
        None => Ok(None),
        Some(_) => Err(Stop::Key("user")),
    }
}

/// Who connects to the broker.
fn login_in(rt: &HostRuntime, alloc: Global, document: &Table) -> Result<Option<Login>, Stop> {
    match text_if(document, "user", "user")? {
        None => no_login_in(document),
        Some(user) => Ok(Some(login_of(rt, alloc, document, user)?)),
    }
}

/// A user of this name connects.
fn login_of(rt: &HostRuntime, alloc: Global, document: &Table, user: &str) -> Result<Login, Stop> {
    let user = user_of(alloc, user)?;
    match password_in(rt, alloc, document) {
        Ok(password) => Ok(Login { user, password }),
        Err(stop) => {
            drop(user);
            Err(stop)
        }
    }
}

/// The octets of a user's name.
fn user_of(alloc: Global, user: &str) -> Result<Octets, Stop> {
    if is_text(user.as_bytes()) {
        octets_of(alloc, user)
    } else {
        Err(Stop::Key("user"))
    }
}

/// The topic at the broker that tells whether the bridge is there.
fn state_topic(alloc: Global, name: &str) -> Result<Octets, Stop> {
    let topic = format!(in alloc; "bridge/{name}/state")?;
    octets_of(alloc, topic.as_str())
}

/// What the broker publishes when the connection breaks.
fn will_of(alloc: Global, name: &str) -> Result<Will, Stop> {
    Ok(Will {
        topic: state_topic(alloc, name)?,
        message: Octets::from_slice(alloc, b"away")?,
        qos: Qos::One,
        retain: true,
    })
}

/// The id of a lane in the field.
fn lane_id(alloc: Global, name: &str, place: usize) -> Result<Octets, Stop> {
    let id = format!(in alloc; "{name}-u{place}")?;
    octets_of(alloc, id.as_str())
}

/// A lane without a name yet.
fn new_lane(alloc: Global, name: &str, place: usize) -> Result<LaneSettings, Stop> {
    Ok(LaneSettings {
        client: lane_id(alloc, name, place)?,
        names: Sequence::empty(alloc),
    })
}

/// So many lanes.
fn new_lanes(alloc: Global, name: &str, count: usize) -> Result<Vec<LaneSettings>, Stop> {
    let mut lanes = Vec::new(alloc);
    for place in 0..count {
        lanes.push(new_lane(alloc, name, place)?)?;
    }
    Ok(lanes)
}

/// Gives each lane its names, one after the other. A lane has at most 250 names with an id.
fn shared(mut lanes: Vec<LaneSettings>, ups: Vec<UpName>) -> Result<Vec<LaneSettings>, Stop> {
    let count = lanes.len();
    let mut place = 0;
    for up in ups {
        if place >= count {
            place = 0;
        }
        let Some(lane) = lanes.as_mut_slice().get_mut(place) else {
            return Err(Stop::Key("lanes"));
        };
        if lane.names.len() >= MOST_IDS {
            return Err(Stop::Key("lanes"));
        }
        lane.names.push(up)?;
        place = place.saturating_add(1);
    }
    Ok(lanes)
}

/// The file of what no side will have, which must be there where commands come down.
fn refused_in(alloc: Global, document: &Table, has_downs: bool) -> Result<Option<String>, Stop> {
    match text_if(document, "refused", "refused")? {
        Some(path) => Ok(Some(String::from_str(alloc, path)?)),
        None => {
            if has_downs {
                Err(Stop::Key("refused"))
            } else {
                Ok(None)
            }
        }
    }
}

/// Refuses the key of what is not there yet: a page.
fn look_for_later(document: &Table) -> Result<(), Stop> {
    match document.get("status") {
        None => Ok(()),
        Some(_) => Err(Stop::Key("status")),
    }
}

/// How much readings may wait, and whether they go into a spool.
#[derive(Clone, Copy)]
struct Room {
    room: u64,
    spools: bool,
}

/// How many lanes there are, how many publications may be unacknowledged, and the room.
#[derive(Clone, Copy)]
struct Counts {
    lanes: u64,
    window: u64,
    room: Room,
}

/// The room of a document. Without a spool there is no key for it.
fn room_in(document: &Table) -> Result<Room, Stop> {
    if text_if(document, "spool", "spool")?.is_some() {
        let room = number_at(document, "room", LEAST_ROOM, MAX_ROOM, MAX_ROOM)?;
        let spools = true;
        return Ok(Room { room, spools });
    }
    match document.get("room") {
        None => Ok(Room {
            room: MAX_WAITING as u64,
            spools: false,
        }),
        Some(_) => Err(Stop::Key("room")),
    }
}

/// Refuses topics that a spool cannot keep: those of more than 256 octets.
fn look_for_long(spools: bool, ups: &[UpName]) -> Result<(), Stop> {
    if spools && ups.iter().any(|up| up.topic.len() > MAX_TOPIC) {
        return Err(Stop::Key("up.to"));
    }
    Ok(())
}

/// The path of the spool, if there is one.
fn spool_in(alloc: Global, document: &Table) -> Result<Option<String>, Stop> {
    match text_if(document, "spool", "spool")? {
        None => Ok(None),
        Some(path) => Ok(Some(String::from_str(alloc, path)?)),
    }
}

/// Who connects to the broker, and the client id there.
#[derive(Drop)]
struct Account {
    client: Octets,
    login: Option<Login>,
}

/// Names that go up, and filters whose messages come down.
#[derive(Drop)]
struct Entries {
    ups: Vec<UpName>,
    downs: Vec<DownFilter>,
}

/// What tells whether the bridge is there: what is published, and what the broker publishes when
/// the connection breaks.
#[derive(Drop)]
struct Presence {
    state: Octets,
    here: Octets,
    will: Will,
}

/// What the bridge says under its name.
#[derive(Drop)]
struct Identity {
    commands: Octets,
    presence: Presence,
}

/// The paths of two files, if there are some.
#[derive(Drop)]
struct Paths {
    refused: Option<String>,
    spool: Option<String>,
}

/// What is carried, and the files for that.
#[derive(Drop)]
struct Carried {
    settings: Settings,
    paths: Paths,
}

/// Who connects to the broker, and the client id there.
fn account_in(rt: &HostRuntime, alloc: Global, document: &Table) -> Result<Account, Stop> {
    let client = client_in(alloc, document)?;
    match login_in(rt, alloc, document) {
        Ok(login) => Ok(Account { client, login }),
        Err(stop) => Err(stop),
    }
}

/// All entries. Nothing that comes down by them goes up again, and nothing that goes up comes down.
fn entries_in(alloc: Global, document: &Table, spools: bool) -> Result<Entries, Stop> {
    let ups = ups_in(alloc, document)?;
    look_for_long(spools, ups.as_slice())?;
    let downs = downs_in(alloc, document)?;
    let apart = look_for_loops(alloc, downs.as_slice(), ups.as_slice());
    match apart {
        Ok(()) => Ok(Entries { ups, downs }),
        Err(stop) => Err(stop),
    }
}

/// The id of the lane for commands.
fn commands_id(alloc: Global, name: &str) -> Result<Octets, Stop> {
    let id = format!(in alloc; "{name}-d0")?;
    octets_of(alloc, id.as_str())
}

/// What the bridge says under its name.
fn identity_of(alloc: Global, name: &str) -> Result<Identity, Stop> {
    let commands = commands_id(alloc, name)?;
    match presence_of(alloc, name) {
        Ok(presence) => Ok(Identity { commands, presence }),
        Err(stop) => {
            drop(commands);
            Err(stop)
        }
    }
}

/// What tells whether the bridge is there.
fn presence_of(alloc: Global, name: &str) -> Result<Presence, Stop> {
    let will = will_of(alloc, name)?;
    match state_of(alloc, name) {
        Ok((state, here)) => Ok(Presence { state, here, will }),
        Err(stop) => {
            drop(will);
            Err(stop)
        }
    }
}

/// The topic that tells whether the bridge is there, and what it says then.
fn state_of(alloc: Global, name: &str) -> Result<(Octets, Octets), Stop> {
    let state = state_topic(alloc, name)?;
    match Octets::from_slice(alloc, b"here") {
        Ok(here) => Ok((state, here)),
        Err(_) => {
            drop(state);
            Err(Stop::Memory)
        }
    }
}

/// The names that go up, shared by so many lanes.
fn lanes_of(
    alloc: Global,
    name: &str,
    count: u64,
    ups: Vec<UpName>,
) -> Result<Sequence<LaneSettings>, Stop> {
    match new_lanes(alloc, name, count as usize) {
        Ok(lanes) => Ok(Sequence::new(shared(lanes, ups)?)),
        Err(stop) => {
            drop(ups);
            Err(stop)
        }
    }
}

/// How many lanes there are, and the like: `lanes`, `window`, `spool`, `room`, and the key of what
/// is not there.
fn counts_in(document: &Table) -> Result<Counts, Stop> {
    let lanes = number_at(document, "lanes", 1, 16, 1)?;
    let window = number_at(document, "window", 1, 64, 16)?;
    let room = room_in(document)?;
    look_for_later(document)?;
    Ok(Counts {
        lanes,
        window,
        room,
    })
}

/// What is carried, of its parts.
fn settings_of(
    lanes: Sequence<LaneSettings>,
    downs: Vec<DownFilter>,
    account: Account,
    identity: Identity,
    counts: Counts,
) -> Settings {
    let Account { client, login } = account;
    let Identity { commands, presence } = identity;
    let Presence { state, here, will } = presence;
    Settings {
        lanes,
        commands,
        downs: Sequence::new(downs),
        client,
        will: Some(will),
        login,
        state,
        here,
        window: counts.window as usize,
        room: counts.room.room as usize,
        spools: counts.room.spools,
    }
}

/// What is carried: `client`, `user`, `password`, `lanes`, `window`, `spool`, `room`, the key of
/// what is not there, `up` and `down`.
fn settings_in(
    rt: &HostRuntime,
    alloc: Global,
    document: &Table,
    name: &str,
) -> Result<Settings, Stop> {
    let account = account_in(rt, alloc, document)?;
    match counts_in(document) {
        Ok(counts) => settings_by(alloc, document, name, account, counts),
        Err(stop) => {
            drop(account);
            Err(stop)
        }
    }
}

/// What is carried by this account.
fn settings_by(
    alloc: Global,
    document: &Table,
    name: &str,
    account: Account,
    counts: Counts,
) -> Result<Settings, Stop> {
    match entries_in(alloc, document, counts.room.spools) {
        Ok(entries) => settings_with(alloc, name, account, counts, entries),
        Err(stop) => {
            drop(account);
            Err(stop)
        }
    }
}

/// What is carried by these entries.
fn settings_with(
    alloc: Global,
    name: &str,
    account: Account,
    counts: Counts,
    entries: Entries,
) -> Result<Settings, Stop> {
    match identity_of(alloc, name) {
        Ok(identity) => settings_under(alloc, name, account, counts, entries, identity),
        Err(stop) => {
            drop(account);
            drop(entries);
            Err(stop)
        }
    }
}

/// What is carried under this name.
fn settings_under(
    alloc: Global,
    name: &str,
    account: Account,
    counts: Counts,
    entries: Entries,
    identity: Identity,
) -> Result<Settings, Stop> {
    let Entries { ups, downs } = entries;
    match lanes_of(alloc, name, counts.lanes, ups) {
        Ok(lanes) => Ok(settings_of(lanes, downs, account, identity, counts)),
        Err(stop) => {
            drop(downs);
            drop(account);
            drop(identity);
            Err(stop)
        }
    }
}

/// The paths of both files.
fn paths_in(alloc: Global, document: &Table, has_downs: bool) -> Result<Paths, Stop> {
    let refused = refused_in(alloc, document, has_downs)?;
    match spool_in(alloc, document) {
        Ok(spool) => Ok(Paths { refused, spool }),
        Err(stop) => {
            drop(refused);
            Err(stop)
        }
    }
}

/// What is carried, and the files for that.
fn carried_in(
    rt: &HostRuntime,
    alloc: Global,
    document: &Table,
    name: &str,
) -> Result<Carried, Stop> {
    let settings = settings_in(rt, alloc, document, name)?;
    match paths_in(alloc, document, !settings.downs.is_empty()) {
        Ok(paths) => Ok(Carried { settings, paths }),
        Err(stop) => {
            drop(settings);
            Err(stop)
        }
    }
}

/// What a document asks for, of its parts.
fn setup_of(places: Places, carried: Carried) -> Setup {
    let Places { gateways, broker } = places;
    let Carried { settings, paths } = carried;
    let Paths { refused, spool } = paths;
    Setup {
        settings,
        gateways,
        broker,
        refused,
        spool,
    }
}

/// What a document asks for, the first bad key named: `name`, `gateways`, `broker`, `client`,
/// `user`, `password`, `lanes`, `window`, `spool`, `room`, the key of what is not there, `up`,
/// `down`, and `refused`.
pub(crate) fn setup_in(rt: &HostRuntime, alloc: Global, document: &Table) -> Result<Setup, Stop> {
    let name = name_in(document)?;
    let places = places_in(alloc, document)?;
    match carried_in(rt, alloc, document, name) {
        Ok(carried) => Ok(setup_of(places, carried)),
        Err(stop) => {
            drop(places);
            Err(stop)
        }
    }
}
