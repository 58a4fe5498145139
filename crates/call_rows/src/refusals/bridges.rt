//! A bridge to MQTT: its topics, its machine and its spool.

use crate::refusals::calls::{Calls, Made, Shown, beside, given, is_word};
use crate::refusals::packets::show_or_refuse;
use crate::refusals::said::Said;
use crate::refusals::topics::topic;
use br_core::{Bridge, Command, Event, Item, LaneSettings, Moment, Queue, Settings, begun, step};
use br_map::{Prefix, PrefixFault, apart_below};
use br_spool::{Held, SpoolFault, delta_of, held_in};
use mq_packet::Qos;
use octets::{NoMemory, Octets, Sequence};
use rep_ops::Delta;
use sn_topic::TopicName;
use std::alloc::Global;
use std::mem;

/// A prefix of a broker's topics, and a field's topic.
pub(crate) struct Maps {
    prefix: Prefix,
    name: TopicName,
}

impl Drop for Maps {
    fn drop(self) {
        let Maps { prefix, name } = self;
        drop(prefix);
        drop(name);
    }
}

impl Made for Maps {
    fn make(said: &mut Said, _call: &str, _is_second: bool) -> Option<Maps> {
        let prefix = prefix(said)?;
        match topic(said) {
            Some(name) => Some(Maps { prefix, name }),
            None => {
                drop(prefix);
                None
            }
        }
    }
}

impl Calls for Maps {
    fn call_once(&mut self, said: &mut Said, call: &str) {
        match call {
            "apart_below" => {
                let answer = apart_below(said.alloc, &self.prefix, b"a/#", b"b/#");
                show_or_refuse(said, answer);
            }
            "Prefix::new" => {
                let made = Prefix::new(said.alloc, b"f/");
                given(said, made, PrefixFault::Memory);
            }
            _ => {
                let made = self.prefix.topic_of(said.alloc, &self.name);
                show_or_refuse(said, made);
            }
        }
    }
}

/// A prefix.
fn prefix(said: &mut Said) -> Option<Prefix> {
    let made = Prefix::new(said.alloc, b"f/");
    beside(said, made)
}

/// A bridge with one lane, a reading, a command, and a queue in which nothing waits.
#[derive(Drop)]
pub(crate) struct Bridges {
    settings: Settings,
    bridge: Bridge,
    item: Item,
    command: Command,
    queue: Queue<u64>,
}

impl Made for Bridges {
    fn make(said: &mut Said, _call: &str, _is_second: bool) -> Option<Bridges> {
        let made = bridge_parts(said.alloc);
        beside(said, made)
    }
}

/// All of it.
fn bridge_parts(alloc: Global) -> Result<Bridges, NoMemory> {
    let settings = settings(alloc)?;
    match begun(alloc, &settings) {
        Ok(bridge) => parts_beside(alloc, settings, bridge),
        Err(fault) => {
            drop(settings);
            Err(fault)
        }
    }
}

/// A bridge, and what lies beside it.
fn parts_beside(alloc: Global, settings: Settings, bridge: Bridge) -> Result<Bridges, NoMemory> {
    match item_and_command(alloc) {
        Ok((item, command)) => Ok(Bridges {
            settings,
            bridge,
            item,
            command,
            queue: Queue::empty(alloc),
        }),
        Err(fault) => {
            drop(settings);
            drop(bridge);
            Err(fault)
        }
    }
}

/// A reading and a command.
fn item_and_command(alloc: Global) -> Result<(Item, Command), NoMemory> {
    let item = item(alloc)?;
    match command(alloc) {
        Ok(command) => Ok((item, command)),
        Err(fault) => {
            drop(item);
            Err(fault)
        }
    }
}

impl Calls for Bridges {
    fn call_once(&mut self, said: &mut Said, call: &str) {
        match call {
            "Item::copied" => {
                let copy = self.item.copied(said.alloc);
                show_or_refuse(said, copy);
            }
            "Command::copied" => {
                let copy = self.command.copied(said.alloc);
                show_or_refuse(said, copy);
            }
            "begun" => {
                let bridge = begun(said.alloc, &self.settings);
                show_or_refuse(said, bridge);
            }
            "step" => self.step_once(said),
            _ => self.push_once(said),
        }
    }
}

impl Bridges {
    /// Time goes by. A bridge that is refused memory is given up, and another one begins.
    fn step_once(&mut self, said: &mut Said) {
        let moment = Moment::of(1);
        let done = step(
            said.alloc,
            &self.settings,
            &Event::Tick,
            moment,
            &mut self.bridge,
        );
        if done.is_ok() {
            said.number("actions", self.bridge.out.len());
            said.answer();
        } else {
            said.refuse(true);
            self.begin(said);
        }
    }

    /// Another bridge begins.
    fn begin(&mut self, said: &mut Said) {
        let made = begun(said.alloc, &self.settings);
        if let Some(bridge) = beside(said, made) {
            drop(mem::replace(&mut self.bridge, bridge));
        }
    }

    /// A number goes into the queue.
    fn push_once(&mut self, said: &mut Said) {
        if self.queue.push(5).is_ok() {
            said.number("queue", self.queue.len());
            said.answer();
        } else {
            said.keep(self.queue.is_empty());
            said.refuse(true);
        }
    }
}

/// The settings of a bridge with one lane, which has no name.
fn settings(alloc: Global) -> Result<Settings, NoMemory> {
    let lanes = lanes(alloc)?;
    match ids(alloc) {
        Ok((clients, told)) => Ok(settings_of(alloc, lanes, clients, told)),
        Err(fault) => {
            drop(lanes);
            Err(fault)
        }
    }
}

/// Settings of their parts.
fn settings_of(
    alloc: Global,
    lanes: Sequence<LaneSettings>,
    clients: (Octets, Octets),
    told: (Octets, Octets),
) -> Settings {
    let (commands, client) = clients;
    let (state, here) = told;
    Settings {
        lanes,
        commands,
        downs: Sequence::empty(alloc),
        client,
        will: None,
        login: None,
        state,
        here,
        window: 1,
        room: 1,
        spools: false,
    }
}

/// The client ids, and what is said of the bridge.
fn ids(alloc: Global) -> Result<((Octets, Octets), (Octets, Octets)), NoMemory> {
    let clients = pair(alloc, b"d", b"b")?;
    match pair(alloc, b"s", b"h") {
        Ok(told) => Ok((clients, told)),
        Err(fault) => {
            drop(clients);
            Err(fault)
        }
    }
}

/// Two octet strings.
fn pair(alloc: Global, first: &[u8], second: &[u8]) -> Result<(Octets, Octets), NoMemory> {
    let first = Octets::from_slice(alloc, first)?;
    match Octets::from_slice(alloc, second) {
        Ok(second) => Ok((first, second)),
        Err(fault) => {
            drop(first);
            Err(fault)
        }
    }
}

/// One lane without a name.
fn lanes(alloc: Global) -> Result<Sequence<LaneSettings>, NoMemory> {
    let mut lanes = Sequence::empty(alloc);
    lanes.push(LaneSettings {
        client: Octets::from_slice(alloc, b"l")?,
        names: Sequence::empty(alloc),
    })?;
    Ok(lanes)
}

/// A reading.
fn item(alloc: Global) -> Result<Item, NoMemory> {
    Ok(Item {
        number: 1,
        lane: 0,
        topic: Octets::from_slice(alloc, b"f/t")?,
        qos: Qos::One,
        retain: false,
        body: Octets::from_slice(alloc, b"hi")?,
    })
}

/// A command.
fn command(alloc: Global) -> Result<Command, NoMemory> {
    Ok(Command {
        id: 1,
        from: Octets::from_slice(alloc, b"c/t")?,
        topic: Octets::from_slice(alloc, b"t")?,
        body: Octets::from_slice(alloc, b"on")?,
    })
}

/// Readings, and the deltas of a spool that has them.
pub(crate) struct Spools {
    items: Vec<Item>,
    deltas: Vec<Delta>,
}

impl Drop for Spools {
    fn drop(self) {
        let Spools { items, deltas } = self;
        drop(items);
        drop(deltas);
    }
}

impl Made for Spools {
    fn make(said: &mut Said, _call: &str, _is_second: bool) -> Option<Spools> {
        let made = spool_parts(said.alloc);
        beside(said, made)
    }
}

/// Both.
fn spool_parts(alloc: Global) -> Result<Spools, SpoolFault> {
    let mut items = Vec::new(alloc);
    items.push(item(alloc)?)?;
    let mut deltas = Vec::new(alloc);
    deltas.push(delta_of(alloc, 1, 2, items.as_slice(), &[0])?)?;
    Ok(Spools { items, deltas })
}

impl Calls for Spools {
    fn call_once(&mut self, said: &mut Said, call: &str) {
        if is_word(call, "delta_of") {
            let made = delta_of(said.alloc, 1, 2, self.items.as_slice(), &[0]);
            show_made(said, made);
        } else {
            let held = held_in(said.alloc, self.deltas.as_slice());
            show_or_refuse(said, held);
        }
    }
}

/// Prints how many operations the delta has that a call makes.
fn show_made(said: &mut Said, made: Result<Delta, SpoolFault>) {
    match &made {
        Ok(delta) => {
            said.number("operations", delta.ops().len());
            said.answer();
        }
        Err(fault) => said.refuse(*fault == SpoolFault::Memory),
    }
    drop(made);
}

impl Shown for Octets {
    fn show(&self, said: &mut Said) {
        said.octets(self.as_slice());
    }
}

impl Shown for bool {
    fn show(&self, said: &mut Said) {
        said.number("yes", *self as usize);
    }
}

impl Shown for Prefix {
    fn show(&self, said: &mut Said) {
        said.octets(self.bytes());
    }
}

impl Shown for Item {
    fn show(&self, said: &mut Said) {
        said.octets(self.body.as_slice());
    }
}

impl Shown for Command {
    fn show(&self, said: &mut Said) {
        said.octets(self.body.as_slice());
    }
}

/// Prints how many lanes there are.
impl Shown for Bridge {
    fn show(&self, said: &mut Said) {
        said.number("lanes", self.lanes.len());
    }
}

/// Prints how many readings there are, and the next number.
impl Shown for Held {
    fn show(&self, said: &mut Said) {
        said.number("items", self.items.len());
        said.number("next", self.next as usize);
    }
}
