//! Stamps, puts and operations.

ghost use Rattle.std.specs.Prelude.{◌≡◌, true, IfOk};
ghost use Rattle.rep_op.specs.Orders.{client_of};
ghost use Rattle.rep_op.specs.Orders as spec;
ghost use Rattle.rep_op.specs.declared.op.Op.TheVariants.{Session as OfSession, Put as OfPut, Ack, Retain as OfRetain};

use super::client_id::ClientId;
use octets::NoMemory;
use sn_session::{Message, SessionOp};
use sn_tables::QosLevel;
use sn_topic::TopicName;
use std::alloc::Global;
use std::cmp::Ordering;

/// The most operations of a session under one stamp: their counters are 0 to 255.
pub const MAX_OPERATIONS: u16 = 256;

/// Who writes a client's session, and since when. Stamps are ordered by epoch, then gateway.
#[derive(Clone, Copy, PartialEq, Eq, PartialOrd, Ord)]
pub struct Stamp {
    /// Counts the owners of the client: the greater epoch wins.
    pub epoch: u64,
    /// The only gateway that writes under the stamp; of two with one epoch the greater wins.
    pub gateway: u8,
}

/// A message that waits for a client.
#[derive(PartialEq, Eq)]
pub struct Put {
    /// The gateway that made it.
    pub origin: u8,
    /// Counts that gateway's messages for the client, from 1.
    pub seq: u64,
    /// The name that it was published under.
    pub topic: TopicName,
    /// Its quality of service.
    pub qos: QosLevel,
    /// Whether the client gets it since it was retained, and not since it was published.
    pub retain: bool,
    /// The moment from which on it need not wait; 0 for none.
    pub expires: u64,
    /// What was published.
    pub body: Message,
}

impl Drop for Put {
    fn drop(self) {
        let Put {
            origin: _,
            seq: _,
            topic,
            qos: _,
            retain: _,
            expires: _,
            body,
        } = self;
        drop(topic);
        drop(body);
    }
}

/// What is retained of a topic, to be handed to whoever subscribes to it later.
#[derive(Drop, PartialEq, Eq)]
pub struct Retained {
    /// Counts what was retained of the topic, from 1: the greatest counts.
    pub clock: u64,
    /// The gateway that retained it; of two with one clock the greater counts.
    pub gateway: u8,
    /// The quality of service that it was published at.
    pub qos: QosLevel,
    /// What was published; if it is empty, nothing is retained.
    pub body: Message,
}

/// What an operation is about.
#[derive(Debug, PartialEq, Eq)]
pub enum Subject {
    /// A client.
    Client(ClientId),
    /// A topic.
    Topic(TopicName),
}

impl Drop for Subject {
    fn drop(self) {
        match self {
            Subject::Client(inner) => drop(inner),
            Subject::Topic(inner) => drop(inner),
        }
    }
}

impl Subject {
    /// An equal one.
    pub fn copied(&self, alloc: Global) -> Result<Subject, NoMemory>
        ensures { IfOk result (λ made. made ≡ self.now) }
    {
        match self {
            Subject::Client(client) => Ok(Subject::Client(client.copied(alloc)?)),
            Subject::Topic(topic) => Ok(Subject::Topic(topic.copied(alloc)?)),
        }
    }
}

/// An operation on the state of a client, or of a topic.
#[derive(PartialEq, Eq)]
pub enum Op {
    /// A change of the session, named by client, stamp and counter. Counter 0 is a Take.
    Session {
        client: ClientId,
        stamp: Stamp,
        counter: u8,
        change: SessionOp,
    },
    /// A message, named by client, origin and sequence number.
    Put {
        client: ClientId,
        put: Put,
    },
    /// The acknowledgements of the messages first to last of an origin.
    Ack {
        client: ClientId,
        origin: u8,
        first: u64,
        last: u64,
    },
    /// What is retained of a topic, named by topic, clock and gateway.
    Retain {
        topic: TopicName,
        retained: Retained,
    },
}

impl Drop for Op {
    fn drop(self) {
        match self {
            Op::Session {
                client,
                stamp: _,
                counter: _,
                change,
            } => {
                drop(client);
                drop(change);
            }
            Op::Put { client, put } => {
                drop(client);
                drop(put);
            }
            Op::Ack {
                client,
                origin: _,
                first: _,
                last: _,
            } => drop(client),
            Op::Retain { topic, retained } => {
                drop(topic);
                drop(retained);
            }
        }
    }
}

impl Put {
    /// An equal message.
    pub fn copied(&self, alloc: Global) -> Result<Put, NoMemory>
        ensures { IfOk result (λ made. made ≡ self.now) }
    {
        Ok(Put {
            origin: self.origin,
            seq: self.seq,
            topic: self.topic.copied(alloc)?,
            qos: self.qos,
            retain: self.retain,
            expires: self.expires,
            body: self.body.copied(alloc)?,
        })
    }
}

impl Retained {
    /// An equal one.
    pub fn copied(&self, alloc: Global) -> Result<Retained, NoMemory>
        ensures { IfOk result (λ made. made ≡ self.now) }
    {
        Ok(Retained {
            clock: self.clock,
            gateway: self.gateway,
            qos: self.qos,
            body: self.body.copied(alloc)?,
        })
    }
}

impl Op {
    /// Whose state it is an operation on, if it is not of a topic.
    pub fn client(&self) -> &ClientId
        requires { spec.is_of_client self.now ≡ true }
        ensures { result.now ≡ client_of self.now }
    {
        match self {
            Op::Session { client, .. } => client,
            Op::Put { client, .. } => client,
            Op::Ack { client, .. } => client,
            Op::Retain { .. } => unreachable!(),
        }
    }

    /// Whether it is an operation of a client, and not of a topic.
    pub fn is_of_client(&self) -> bool
        ensures { result ≡ spec.is_of_client self.now }
    {
        match self {
            Op::Session { .. } | Op::Put { .. } | Op::Ack { .. } => true,
            Op::Retain { .. } => false,
        }
    }

    /// The client or the topic that it is about.
    pub fn subject(&self, alloc: Global) -> Result<Subject, NoMemory>
        ensures { IfOk result (λ made. made ≡ spec.subject_of self.now) }
    {
        match self {
            Op::Session { client, .. } | Op::Put { client, .. } | Op::Ack { client, .. } => {
                Ok(Subject::Client(client.copied(alloc)?))
            }
            Op::Retain { topic, .. } => Ok(Subject::Topic(topic.copied(alloc)?)),
        }
    }

    /// An equal operation.
    pub fn copied(&self, alloc: Global) -> Result<Op, NoMemory>
        ensures { IfOk result (λ made. made ≡ self.now) }
    {
        match self {
            Op::Session {
                client,
                stamp,
                counter,
                change,
            } => copied_change(alloc, client, *stamp, *counter, change),
            Op::Put { client, put } => copied_put(alloc, client, put),
            Op::Ack {
                client,
                origin,
                first,
                last,
            } => copied_range(alloc, client, *origin, *first, *last),
            Op::Retain { topic, retained } => copied_retain(alloc, topic, retained),
        }
    }
}

/// A change of a session, of equal parts.
fn copied_change(
    alloc: Global,
    client: &ClientId,
    stamp: Stamp,
    counter: u8,
    change: &SessionOp,
) -> Result<Op, NoMemory>
    ensures { IfOk result (λ made. made ≡ OfSession client.now stamp counter change.now) }
{
    Ok(Op::Session {
        client: client.copied(alloc)?,
        stamp,
        counter,
        change: change.copied(alloc)?,
    })
}

/// A message of a client, of equal parts.
fn copied_put(alloc: Global, client: &ClientId, put: &Put) -> Result<Op, NoMemory>
    ensures { IfOk result (λ made. made ≡ OfPut client.now put.now) }
{
    Ok(Op::Put {
        client: client.copied(alloc)?,
        put: put.copied(alloc)?,
    })
}

/// The acknowledgements of this range, of an equal client.
fn copied_range(
    alloc: Global,
    client: &ClientId,
    origin: u8,
    first: u64,
    last: u64,
) -> Result<Op, NoMemory>
    ensures { IfOk result (λ made. made ≡ Ack client.now origin first last) }
{
    Ok(Op::Ack {
        client: client.copied(alloc)?,
        origin,
        first,
        last,
    })
}

/// What is retained of a topic, of equal parts.
fn copied_retain(alloc: Global, topic: &TopicName, retained: &Retained) -> Result<Op, NoMemory>
    ensures { IfOk result (λ made. made ≡ OfRetain topic.now retained.now) }
{
    Ok(Op::Retain {
        topic: topic.copied(alloc)?,
        retained: retained.copied(alloc)?,
    })
}
