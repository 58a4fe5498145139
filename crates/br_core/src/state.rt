//! What a bridge knows.

ghost use Rattle.std.specs.Prelude.{◌≡◌, ◌<◌, ◌^◌, IfOk};

use crate::action::Action;
use crate::item::{Command, Flight, Item};
use crate::queue::Queue;
use octets::{NoMemory, Octets, Sequence};
use std::alloc::Global;

/// The keep-alive of a lane, in seconds.
pub const KEEP_ALIVE: u16 = 60;

/// The keep-alive of the connection to the broker, in seconds.
pub const BROKER_KEEP_ALIVE: u16 = 30;

/// After how many seconds a frame or a packet without an answer is sent again.
pub const RETRY: u64 = 10;

/// How often it is sent before the gateway counts as gone.
pub const TRIES: u8 = 4;

/// How many seconds pass between two signs of life to one side.
pub const PING: u64 = 20;

/// For how many seconds a lane falls asleep: as long as a frame can say.
pub const SLEEP: u16 = 65_535;

/// How many readings wait at most without a spool.
pub const MAX_WAITING: usize = 1_024;

/// How many commands wait at most: no further one is taken from the broker.
pub const MAX_COMMANDS: usize = 1_024;

/// How many names the lane for commands registers before it connects anew. A session has 256 ids.
pub const MAX_NAMES: usize = 250;

/// How many topic ids a lane has before it connects anew. A session has 256 ids; one that is
/// registered again counts again.
pub const MAX_IDS: usize = 1_024;

/// The most octets of a message in the field.
pub const MAX_BODY: usize = 4_096;

/// The last number of a reading or a line: what would be counted after it is not taken.
pub const LAST_NUMBER: u64 = 18_446_744_073_709_551_615;

/// A moment, and those that are counted from it, in seconds since any begin.
#[derive(Clone, Copy)]
pub struct Moment {
    /// The moment.
    pub at: u64,
    /// A second later.
    pub soon: u64,
    /// When what is sent now is sent again.
    pub retry: u64,
    /// When a sign of life is due.
    pub ping: u64,
    /// A minute later.
    pub minute: u64,
}

impl Moment {
    ghost use Rattle.br_core.specs.Begins as spec;

    /// The moment of this second.
    pub fn of(at: u64) -> Moment
        requires { at < 2 ^ 63 }
        ensures { result ≡ spec.moment_of at }
    {
        Moment {
            at,
            soon: at + 1,
            retry: at + RETRY,
            ping: at + PING,
            minute: at + 60,
        }
    }
}

/// How far the connection of a lane is.
#[derive(Clone, Copy, PartialEq, Eq)]
pub enum Phase {
    /// It has none.
    Away,
    /// CONNECT was sent.
    Connecting,
    /// SUBSCRIBE of this one of its names was sent.
    Subscribing { next: usize },
    /// It takes what comes.
    Listening,
    /// It sleeps: the gateway keeps what comes.
    Asleep,
}

/// A topic id of the gateway, and which of the lane's names it is.
#[derive(Clone, Copy)]
pub struct Named {
    /// The topic id.
    pub id: u16,
    /// The place of the name among those of the lane.
    pub name: usize,
}

/// The last message of quality of service 1 that a lane has brought since its last CONNECT.
pub struct Open {
    /// The number of its reading.
    pub number: u64,
    /// Which of the lane's names it has.
    pub name: usize,
    /// The topic id of its last PUBLISH.
    pub topic_id: u16,
    /// Its message id.
    pub msg_id: u16,
    /// The message.
    pub body: Octets,
    /// Whether it may be acknowledged: the broker has acknowledged the reading.
    pub is_answered: bool,
}

impl Drop for Open {
    fn drop(self) {
        let Open {
            number: _,
            name: _,
            topic_id: _,
            msg_id: _,
            body,
            is_answered: _,
        } = self;
        drop(body);
    }
}

impl Open {
    /// An equal one, which shares the message.
    pub fn copied(&self, alloc: Global) -> Result<Open, NoMemory>
        ensures { IfOk result (λ made. made ≡ self.now) }
    {
        Ok(Open {
            number: self.number,
            name: self.name,
            topic_id: self.topic_id,
            msg_id: self.msg_id,
            body: self.body.copied(alloc)?,
            is_answered: self.is_answered,
        })
    }
}

/// A lane. Its client and its names are in the settings.
pub struct Lane {
    /// How far its connection is.
    pub phase: Phase,
    /// How often what was sent last was sent.
    pub tries: u8,
    /// When it is due again, in seconds.
    pub due: u64,
    /// The message id of the next SUBSCRIBE.
    pub msg_id: u16,
    /// The topic ids of the connection.
    pub ids: Sequence<Named>,
    /// The last message of quality of service 1.
    pub last: Option<Open>,
}

impl Drop for Lane {
    fn drop(self) {
        let Lane {
            phase: _,
            tries: _,
            due: _,
            msg_id: _,
            ids,
            last,
        } = self;
        drop(ids);
        drop(last);
    }
}

impl Lane {
    ghost use Rattle.br_core.specs.Begins as spec;

    /// A lane before anything has come: it sleeps until the broker is there.
    pub fn new(alloc: Global) -> Lane
        ensures { result ≡ spec.new_lane }
    {
        Lane {
            phase: Phase::Asleep,
            tries: 0,
            due: 0,
            msg_id: 1,
            ids: Sequence::empty(alloc),
            last: None,
        }
    }

    /// An equal lane.
    pub fn copied(&self, alloc: Global) -> Result<Lane, NoMemory>
        ensures { IfOk result (λ made. made ≡ self.now) }
    {
        let last = match &self.last {
            None => None,
            Some(last) => Some(last.copied(alloc)?),
        };
        Ok(Lane {
            phase: self.phase,
            tries: self.tries,
            due: self.due,
            msg_id: self.msg_id,
            ids: Sequence::new(Vec::from_slice(alloc, self.ids.as_slice())?),
            last,
        })
    }
}

/// A topic of the field, and the id that the gateway gave for it.
pub struct NamedTopic {
    /// The topic id.
    pub id: u16,
    /// The topic.
    pub topic: Octets,
}

impl Drop for NamedTopic {
    fn drop(self) {
        let NamedTopic { id: _, topic } = self;
        drop(topic);
    }
}

/// What is done with the first command.
#[derive(Clone, Copy)]
pub enum Doing {
    /// Nothing yet.
    Nothing,
    /// REGISTER was sent.
    Registering,
    /// PUBLISH was sent.
    Publishing,
    /// Its line of what no side will have is written, the line of this number.
    Refusing { line: u64 },
}

/// The lane for commands. It has no subscription.
pub struct Down {
    /// How far its connection is.
    pub phase: Phase,
    /// How often what was sent last was sent.
    pub tries: u8,
    /// When it is due again, in seconds.
    pub due: u64,
    /// The message id of the last REGISTER or PUBLISH.
    pub msg_id: u16,
    /// The topic ids of the connection.
    pub ids: Sequence<NamedTopic>,
    /// What is done with the first command.
    pub doing: Doing,
    /// The number of the next line of what no side will have.
    pub line: u64,
    /// The commands, in the order in which the broker sent them.
    pub queue: Sequence<Command>,
    /// Whether the broker has sent a command for which there was no room: it comes again from a new
    /// connection.
    pub is_behind: bool,
}

impl Drop for Down {
    fn drop(self) {
        let Down {
            phase: _,
            tries: _,
            due: _,
            msg_id: _,
            ids,
            doing: _,
            line: _,
            queue,
            is_behind: _,
        } = self;
        drop(ids);
        drop(queue);
    }
}

/// How far the connection to the broker is.
#[derive(Clone, Copy, PartialEq, Eq)]
pub enum Side {
    /// There is none.
    Closed,
    /// CONNECT was sent.
    Connecting,
    /// SUBSCRIBE of this one of the filters was sent.
    Subscribing { next: usize },
    /// Publications go both ways.
    Up,
}

/// What a bridge knows.
pub struct Bridge {
    /// The lanes for readings.
    pub lanes: Sequence<Lane>,
    /// The lane for commands.
    pub down: Down,
    /// How far the connection to the broker is.
    pub side: Side,
    /// When the broker is dialled, or asked whether it is there, in seconds.
    pub due: u64,
    /// How often it was asked without an answer.
    pub tries: u8,
    /// Whether all filters were subscribed to since the bridge began. A session that an earlier run
    /// left may have some of them only.
    pub is_subscribed: bool,
    /// Whether the spool takes readings.
    pub is_storing: bool,
    /// Readings that were not sent yet.
    pub waiting: Queue<Item>,
    /// Readings that were sent and are not acknowledged.
    pub flight: Sequence<Flight>,
    /// The number of the next reading.
    pub number: u64,
    /// The packet id of the next publication.
    pub packet_id: u16,
    /// What is to be done, in its order. `step` begins with an empty list.
    pub out: Sequence<Action>,
}

impl Drop for Bridge {
    fn drop(self) {
        let Bridge {
            lanes,
            down,
            side,
            due: _,
            tries: _,
            is_subscribed: _,
            is_storing: _,
            waiting,
            flight,
            number: _,
            packet_id: _,
            out,
        } = self;
        drop(lanes);
        drop(down);
        drop(side);
        drop(waiting);
        drop(flight);
        drop(out);
    }
}
