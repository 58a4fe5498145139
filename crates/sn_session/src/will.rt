//! The will of a client: what is published when the client is lost (MQTT-SN 1.2 section 6.3).

ghost use Rattle.std.specs.Prelude.{◌≡◌, false, IfOk, IfErr, OnOk, OnErr, is_none, Some, None};
ghost use Rattle.sn_session.specs.Wills.{with_will_topic, with_will_message};

use super::message::Message;
use octets::NoMemory;
use sn_tables::sn_topic::TopicName;
use sn_tables::{QosLevel, SessionFault};
use std::alloc::Global;
use std::mem;

/// What a client says of its will by WILLTOPIC or WILLTOPICUPD.
#[derive(Drop, PartialEq, Eq)]
pub struct WillTopic {
    /// Where the will is published.
    pub topic: TopicName,
    /// Its quality of service.
    pub qos: QosLevel,
    /// Whether it is to be retained.
    pub retain: bool,
}

/// A will.
#[derive(PartialEq, Eq)]
pub struct Will {
    /// Where it is published.
    pub topic: TopicName,
    /// Its quality of service.
    pub qos: QosLevel,
    /// Whether it is to be retained.
    pub retain: bool,
    /// What is published.
    pub message: Message,
}

impl Drop for Will {
    fn drop(self) {
        let Will {
            topic,
            qos: _,
            retain: _,
            message,
        } = self;
        drop(topic);
        drop(message);
    }
}

impl WillTopic {
    /// An equal value.
    pub fn copied(&self, alloc: Global) -> Result<WillTopic, NoMemory>
        ensures { IfOk result (λ made. made ≡ self.now) }
    {
        Ok(WillTopic {
            topic: self.topic.copied(alloc)?,
            qos: self.qos,
            retain: self.retain,
        })
    }

    /// The will with this topic and an empty message.
    fn new_will(&self, alloc: Global) -> Result<Will, NoMemory>
        ensures { IfOk result (λ made. Some made ≡ with_will_topic (Some self.now) None) }
    {
        Ok(Will {
            topic: self.topic.copied(alloc)?,
            qos: self.qos,
            retain: self.retain,
            message: Message::empty(alloc)?,
        })
    }
}

impl Will {
    /// An equal will.
    pub fn copied(&self, alloc: Global) -> Result<Will, NoMemory>
        ensures { IfOk result (λ made. made ≡ self.now) }
    {
        Ok(Will {
            topic: self.topic.copied(alloc)?,
            qos: self.qos,
            retain: self.retain,
            message: self.message.copied(alloc)?,
        })
    }
}

/// Sets the topic of a will: a new will has an empty message, one that is there keeps its message.
/// No topic deletes the will, and takes no memory. On an error it is as it was.
pub fn set_topic(
    will: &mut Option<Will>,
    alloc: Global,
    asked: &Option<WillTopic>,
) -> Result<(), SessionFault>
    ensures ok { OnOk result (will.new ≡ with_will_topic asked.now will.old) }
    ensures err { OnErr result (will.new ≡ will.old) }
    ensures fault { IfErr result (λ fault. fault ≡ SessionFault.Memory) }
    ensures light { OnErr result (is_none asked.now ≡ false) }
{
    let Some(asked) = asked else {
        drop(mem::replace(will, None));
        return Ok(());
    };
    match will {
        None => drop(mem::replace(will, Some(asked.new_will(alloc)?))),
        Some(will) => {
            drop(mem::replace(&mut will.topic, asked.topic.copied(alloc)?));
            will.qos = asked.qos;
            will.retain = asked.retain;
        }
    }
    Ok(())
}

/// Sets the message of a will, if there is one. On an error it is as it was.
pub fn set_message(
    will: &mut Option<Will>,
    alloc: Global,
    message: &Message,
) -> Result<(), SessionFault>
    ensures ok { OnOk result (will.new ≡ with_will_message message.now will.old) }
    ensures err { OnErr result (will.new ≡ will.old) }
    ensures fault { IfErr result (λ fault. fault ≡ SessionFault.Memory) }
{
    match will {
        None => {}
        Some(will) => will.message = message.copied(alloc)?,
    }
    Ok(())
}
