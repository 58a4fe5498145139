//! What a gateway knows of a client.

ghost use Rattle.std.specs.Prelude.{◌≡◌, ◌≤◌, IfOk, IfErr, IfSome, option_copied};
ghost use Rattle.sn_session.specs.Session.{empty_session};
ghost use Rattle.sn_tables.specs.Topics.{IsLeastUnused, IsLeastIdOf};
ghost use Rattle.sn_tables.specs.Topics as topic_list;
ghost use Rattle.sn_tables.specs.Subscriptions.{asked_qos, IsGreatest};
ghost use Rattle.sn_tables.specs.Subscriptions as subscription_list;
ghost use Rattle.sn_tables.specs.Received as received_list;

use crate::outbound::Outbound;
use crate::presence::Presence;
use crate::will::Will;
use octets::NoMemory;
use sn_tables::sn_topic::{Filter, TopicName};
use sn_tables::{QosLevel, Received, SessionFault, Subscriptions, TopicEntry, Topics};
use std::alloc::Global;

/// What a gateway knows of a client.
#[derive(PartialEq, Eq)]
pub struct Session {
    /// Where the client is.
    pub presence: Presence,
    /// Whether it connected with a clean session.
    pub clean: bool,
    /// The keep alive of its CONNECT, or how long it said that it sleeps, in seconds.
    pub duration: u16,
    /// The message id of the next exchange that the gateway begins; never 0.
    pub next_id: u16,
    /// The topic ids that gateway and client agreed on.
    pub topics: Topics,
    /// What the client asked for.
    pub subscriptions: Subscriptions,
    /// What is published when the client is lost.
    pub will: Option<Will>,
    /// The ids of messages of quality of service 2 that the client sent and has not released.
    pub received: Received,
    /// The exchange that the gateway has begun.
    pub outbound: Option<Outbound>,
}

impl Drop for Session {
    fn drop(self) {
        let Session {
            presence,
            clean: _,
            duration: _,
            next_id: _,
            topics,
            subscriptions,
            will,
            received,
            outbound: _,
        } = self;
        drop(presence);
        drop(topics);
        drop(subscriptions);
        drop(will);
        drop(received);
    }
}

impl Session {
    /// The session of a client of which nothing is known.
    pub fn empty(alloc: Global) -> Session
        ensures { result ≡ empty_session }
    {
        Session {
            presence: Presence::Active,
            clean: false,
            duration: 0,
            next_id: 1,
            topics: Topics::empty(alloc),
            subscriptions: Subscriptions::empty(alloc),
            will: None,
            received: Received::empty(alloc),
            outbound: None,
        }
    }

    /// The entry of a topic id.
    pub fn topic_of(&self, id: u16) -> Option<&TopicEntry>
        ensures { option_copied result ≡ topic_list.topic_of id self.now.topics }
    {
        self.topics.topic_of(id)
    }

    /// The entry of a topic name; of several that with the least id.
    pub fn topic_named(&self, name: &TopicName) -> Option<&TopicEntry>
        ensures { option_copied result ≡ topic_list.topic_named name.now self.now.topics }
    {
        self.topics.topic_named(name)
    }

    /// The least id of a topic name.
    pub fn topic_id(&self, name: &TopicName) -> Option<u16>
        ensures value { result ≡ topic_list.topic_id name.now self.now.topics }
        ensures least { IfSome result (IsLeastIdOf name.now self.now.topics) }
    {
        self.topics.topic_id(name)
    }

    /// The least topic id from 1 on that is not in use; nothing where 256 are. So it is at most
    /// 257.
    pub fn free_id(&self) -> Option<u16>
        ensures value { result ≡ topic_list.free_id self.now.topics }
        ensures least { IfSome result (IsLeastUnused self.now.topics) }
        ensures limit { IfSome result (λ id. id ≤ 257) }
    {
        self.topics.free_id()
    }

    /// The quality of service of a filter that the client subscribed to.
    pub fn subscription(&self, filter: &Filter) -> Option<QosLevel>
        ensures { result ≡ subscription_list.filter_qos filter.now self.now.subscriptions }
    {
        self.subscriptions.qos_of(filter)
    }

    /// The greatest quality of service of the filters that ask for a topic; nothing where none
    /// does.
    pub fn subscribed_qos(&self, name: &TopicName) -> Option<QosLevel>
        ensures value { result ≡ subscription_list.subscribed_qos name.now self.now.subscriptions }
        ensures greatest { IfSome result (IsGreatest (asked_qos name.now self.now.subscriptions)) }
    {
        self.subscriptions.subscribed_qos(name)
    }

    /// Whether a message of this id was received and is not released.
    pub fn is_received(&self, id: u16) -> bool
        ensures { result ≡ received_list.is_received id self.now.received }
    {
        self.received.contains(id)
    }

    /// An equal session.
    pub fn copied(&self, alloc: Global) -> Result<Session, NoMemory>
        ensures { IfOk result (λ made. made ≡ self.now) }
    {
        Ok(Session {
            presence: self.presence,
            clean: self.clean,
            duration: self.duration,
            next_id: self.next_id,
            topics: self.topics.copied(alloc)?,
            subscriptions: self.subscriptions.copied(alloc)?,
            received: self.received.copied(alloc)?,
            will: copied_will(&self.will, alloc)?,
            outbound: self.outbound,
        })
    }

    /// The same, where want of memory is a `SessionFault`.
    pub fn copy(&self, alloc: Global) -> Result<Session, SessionFault>
        ensures ok { IfOk result (λ made. made ≡ self.now) }
        ensures err { IfErr result (λ fault. fault ≡ SessionFault.Memory) }
    {
        Ok(self.copied(alloc)?)
    }
}

/// An equal will, if there is one.
fn copied_will(will: &Option<Will>, alloc: Global) -> Result<Option<Will>, NoMemory>
    ensures { IfOk result (λ made. made ≡ will.now) }
{
    match will {
        None => Ok(None),
        Some(will) => Ok(Some(will.copied(alloc)?)),
    }
}
