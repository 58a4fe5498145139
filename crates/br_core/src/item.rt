//! What is on its way.

ghost use Rattle.std.specs.Prelude.{◌≡◌, IfOk};

use mq_packet::Qos;
use octets::{NoMemory, Octets};
use std::alloc::Global;

/// A reading on its way to the broker.
#[derive(Drop)]
pub struct Item {
    /// Which reading it is: each one that a lane brings has a number of its own.
    pub number: u64,
    /// The lane that brought it, by its place.
    pub lane: usize,
    /// The broker's topic.
    pub topic: Octets,
    /// The quality of service towards the broker.
    pub qos: Qos,
    /// Whether the broker is to keep it.
    pub retain: bool,
    /// The message.
    pub body: Octets,
}

impl Item {
    /// An equal reading, which shares the octets.
    pub fn copied(&self, alloc: Global) -> Result<Item, NoMemory>
        ensures { IfOk result (λ made. made ≡ self.now) }
    {
        Ok(Item {
            number: self.number,
            lane: self.lane,
            topic: self.topic.copied(alloc)?,
            qos: self.qos,
            retain: self.retain,
            body: self.body.copied(alloc)?,
        })
    }
}

/// A reading that was sent to the broker and is not acknowledged.
#[derive(Drop)]
pub struct Flight {
    /// Its packet id.
    pub id: u16,
    /// The reading.
    pub item: Item,
}

/// A command on its way into the field.
#[derive(Drop)]
pub struct Command {
    /// The broker's packet id; 0 where the broker wants no acknowledgement.
    pub id: u16,
    /// The broker's topic.
    pub from: Octets,
    /// The field's topic; empty where the settings have none for it.
    pub topic: Octets,
    /// The message.
    pub body: Octets,
}

impl Command {
    /// An equal command, which shares the octets.
    pub fn copied(&self, alloc: Global) -> Result<Command, NoMemory>
        ensures { IfOk result (λ made. made ≡ self.now) }
    {
        Ok(Command {
            id: self.id,
            from: self.from.copied(alloc)?,
            topic: self.topic.copied(alloc)?,
            body: self.body.copied(alloc)?,
        })
    }
}
