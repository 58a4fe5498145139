//! One exchange, without a socket: what a frame means for what is awaited, and what is sent for it
//! (MQTT-SN 1.2 sections 6.2 to 6.14).

ghost use Rattle.std.specs.Prelude.{◌≡◌, option_map};
ghost use Rattle.sn_client.specs.inner.Talking.{outcome_status, repeated, turn_of};
ghost use Rattle.sn_client.specs.inner.Talking as spec;
ghost use Rattle.sn_client.specs.inner.Exchanges.{beginning, frame_by_id, outcome_of, planned_of, publishing_of, turned};
ghost use Rattle.sn_client.specs.inner.Exchanges as exchanges;
ghost use Rattle.sn_client.specs.declared.talk.Awaited.TheVariants as waits;
ghost use Rattle.sn_frame.specs.declared.frame.Frame.TheVariants as frames;

use octets::Octets;
use sn_frame::{Flags, Frame, Qos};
use std::mem;

mod replies;
mod turns;

pub(crate) use replies::acknowledgement;
use replies::again_bits;
pub(crate) use turns::turn_of;

/// What a run waits for, and under which message id.
#[derive(Clone, Copy)]
pub(crate) enum Awaited {
    /// GWINFO.
    Gateway,
    /// CONNACK.
    Connection,
    /// REGACK.
    Registration { msg_id: u16 },
    /// SUBACK.
    Subscription { msg_id: u16 },
    /// UNSUBACK.
    Withdrawal { msg_id: u16 },
    /// PUBACK, at QoS 1.
    Publication { msg_id: u16 },
    /// PUBREC, at QoS 2.
    Receipt { msg_id: u16 },
    /// PUBCOMP.
    Completion { msg_id: u16 },
    /// PUBACK where it refuses, at QoS 0 and -1: nothing says that all is well.
    Refusal { msg_id: u16 },
    /// DISCONNECT.
    Farewell,
    /// PINGRESP.
    Waking,
    /// Whatever comes.
    Anything,
}

/// How a run ends.
#[derive(Clone, Copy, PartialEq, Eq)]
pub(crate) enum Outcome {
    /// What was asked for was accepted.
    Accepted,
    /// It was refused.
    Refused,
    /// No answer came.
    Unanswered,
}

/// What a frame leads to.
#[derive(Clone, Copy)]
pub(crate) enum Turn {
    /// Nothing: it is no answer to what is awaited.
    Stay,
    /// The publication, by this id.
    Publish { topic_id: u16 },
    /// The release of this message id.
    Release { msg_id: u16 },
    /// The end of the exchange.
    End { outcome: Outcome },
}

/// A publication, as it is sent once its topic has an id.
#[derive(Drop)]
pub(crate) struct Publication {
    /// How often it is to arrive.
    pub qos: Qos,
    /// Its flags, with the type of its topic.
    pub flags: Flags,
    /// Its message id; 0 at QoS 0 and -1.
    pub msg_id: u16,
    /// What is published.
    pub body: Octets,
}

/// An exchange that goes on.
pub(crate) struct Talk {
    /// What is awaited.
    pub awaited: Awaited,
    /// What was sent last for it, and is sent again until an answer comes.
    pub pending: Option<Frame>,
    /// What is published once the topic has an id.
    pub planned: Option<Publication>,
    /// How the exchange has ended, if it has.
    pub outcome: Option<Outcome>,
}

impl Drop for Talk {
    fn drop(self) {
        let Talk {
            awaited,
            pending,
            planned,
            outcome,
        } = self;
        drop(awaited);
        drop(pending);
        drop(planned);
        drop(outcome);
    }
}

impl Outcome {
    /// The status of the program.
    pub(crate) fn status(self) -> u8
        ensures { result ≡ outcome_status self }
    {
        match self {
            Outcome::Accepted => 0,
            Outcome::Refused => 1,
            Outcome::Unanswered => 2,
        }
    }
}

impl Publication {
    /// The frame, where the topic has this id.
    fn by_id(self, topic: u16) -> Frame
        ensures { result ≡ frame_by_id self topic }
    {
        Frame::Publish {
            flags: self.flags,
            topic,
            msg_id: self.msg_id,
            body: self.body,
        }
    }
}

/// What is awaited after a publication.
pub(crate) fn awaited_at(qos: Qos, msg_id: u16) -> Awaited
    ensures { result ≡ spec.awaited_at qos msg_id }
{
    match qos {
        Qos::One => Awaited::Publication { msg_id },
        Qos::Two => Awaited::Receipt { msg_id },
        Qos::Zero | Qos::MinusOne => Awaited::Refusal { msg_id },
    }
}

/// How a publication has ended when it is sent: where nothing answers it, it is taken for accepted.
pub(crate) fn outcome_at(qos: Qos) -> Option<Outcome>
    ensures { result ≡ spec.outcome_at qos }
{
    match qos {
        Qos::One | Qos::Two => None,
        Qos::Zero | Qos::MinusOne => Some(Outcome::Accepted),
    }
}

/// How an exchange has ended where one more answer comes. Its frame may have been sent again, so
/// what was accepted stays accepted; where nothing accepts, and it was only taken for that, a
/// refusal counts.
fn outcome_after(awaited: Awaited, had: Option<Outcome>, outcome: Outcome) -> Outcome
    ensures { result ≡ exchanges.outcome_after awaited had outcome }
{
    match (awaited, had) {
        (Awaited::Refusal { .. }, _) => outcome,
        (_, Some(Outcome::Accepted)) => Outcome::Accepted,
        _ => outcome,
    }
}

impl Talk {
    /// An exchange that begins with a frame.
    pub(crate) fn of(pending: Option<Frame>, awaited: Awaited) -> Talk
        ensures { result ≡ beginning pending awaited }
    {
        Talk {
            awaited,
            pending,
            planned: None,
            outcome: None,
        }
    }

    /// An exchange that is a publication whose topic has an id or a short name.
    pub(crate) fn publishing(publication: Publication, topic: u16) -> Talk
        ensures { result ≡ publishing_of publication topic }
    {
        let awaited = awaited_at(publication.qos, publication.msg_id);
        let outcome = outcome_at(publication.qos);
        Talk {
            awaited,
            pending: Some(publication.by_id(topic)),
            planned: None,
            outcome,
        }
    }

    /// An exchange that is a publication after the registration of its topic's name (section 6.5).
    pub(crate) fn registering(publication: Publication, name: Octets, msg_id: u16) -> Talk
        ensures { result ≡ exchanges.registering publication name msg_id }
    {
        let frame = Frame::Register {
            topic_id: 0,
            msg_id,
            name,
        };
        Talk {
            awaited: Awaited::Registration { msg_id },
            pending: Some(frame),
            planned: Some(publication),
            outcome: None,
        }
    }

    /// A frame came. Whether there is another to be sent.
    pub(crate) fn take(&mut self, frame: &Frame) -> bool
        ensures { self.new ≡ turned (turn_of self.old.awaited frame.now) self.old }
    {
        match turn_of(self.awaited, frame) {
            Turn::Stay => false,
            Turn::Publish { topic_id } => self.publish(topic_id),
            Turn::Release { msg_id } => self.release(msg_id),
            Turn::End { outcome } => {
                self.outcome = Some(outcome_after(self.awaited, self.outcome, outcome));
                false
            }
        }
    }

    /// The publication was received: its message id is released.
    fn release(&mut self, msg_id: u16) -> bool
        ensures { self.new ≡ record self.old {
          awaited = waits.Completion msg_id;
          pending = Some (frames.PubRel msg_id);
        } }
    {
        let release = Some(Frame::PubRel { msg_id });
        drop(mem::replace(&mut self.pending, release));
        self.awaited = Awaited::Completion { msg_id };
        true
    }

    /// The topic has an id: the publication is sent.
    fn publish(&mut self, topic_id: u16) -> bool
        ensures { self.new ≡ planned_of self.old.planned topic_id self.old }
    {
        match self.planned.take() {
            None => false,
            Some(publication) => {
                drop(mem::replace(self, Talk::publishing(publication, topic_id)));
                true
            }
        }
    }

    /// The frame that was sent last is to be sent again.
    pub(crate) fn repeat(&mut self)
        ensures { self.new ≡ record self.old { pending = option_map repeated self.old.pending } }
    {
        if let Some(Frame::Publish { flags, .. }) = &mut self.pending {
            flags.bits = again_bits(flags.bits);
        }
    }

    /// How the run has ended, where something came or nothing did.
    pub(crate) fn conclude(&self, came: bool) -> Outcome
        ensures { result ≡ outcome_of self.now.outcome self.now.awaited came }
    {
        match self.outcome {
            Some(outcome) => outcome,
            None => match self.awaited {
                Awaited::Anything if came => Outcome::Accepted,
                _ => Outcome::Unanswered,
            },
        }
    }
}
