//! What a client is told where its frame came to nothing for want of a disk.

ghost use Rattle.std.specs.Prelude.{◌≡◌, ◌≤◌, IfOk, IfSome};
ghost use Rattle.sn_frame.specs.declared.frame.TheConstants.{MAX_FRAME};
ghost use Rattle.sn_frame.specs.Bodies.{IsMessage};
ghost use Rattle.sn_frame.specs.Grammar.{total_of};
ghost use Rattle.gw_event.specs.Excuses as spec;

use octets::{NoMemory, Sequence};
use sn_frame::{Flags, Frame, Qos};
use sn_local::{Addr, Send};
use sn_plan::{CONGESTION, Draft, plan_without};
use std::alloc::Global;

/// Whether the first of these datagrams accepts a connection.
fn accepts(sends: &[Send]) -> bool
    ensures { result ≡ spec.accepts sends.now }
{
    match sends.first() {
        Some(send) => send.bytes.as_slice() == [3, 5, 0].as_slice(),
        None => false,
    }
}

/// The refusal of a publication, where it is answered.
fn unpublished(qos: Qos, topic: u16, msg_id: u16) -> Option<Frame>
    ensures { result ≡ spec.unpublished qos topic msg_id }
{
    match qos {
        Qos::One | Qos::Two => Some(Frame::PubAck {
            topic_id: topic,
            msg_id,
            code: CONGESTION,
        }),
        Qos::Zero | Qos::MinusOne => None,
    }
}

/// The refusal of a frame, in the place of these datagrams.
fn excuse_of(frame: &Frame, sends: &[Send]) -> Option<Frame>
    ensures excuse { result ≡ spec.excuse_of frame.now sends.now }
    ensures sound { IfSome result (λ excuse. IsMessage excuse × (total_of excuse ≤ MAX_FRAME)) }
{
    match frame {
        Frame::Register { msg_id, .. } => Some(Frame::RegAck {
            topic_id: 0,
            msg_id: *msg_id,
            code: CONGESTION,
        }),
        Frame::Subscribe { flags, msg_id, .. } => Some(Frame::SubAck {
            flags: Flags {
                bits: flags.bits & 0x60,
            },
            topic_id: 0,
            msg_id: *msg_id,
            code: CONGESTION,
        }),
        Frame::Publish {
            flags,
            topic,
            msg_id,
            ..
        } => unpublished(flags.qos(), *topic, *msg_id),
        Frame::WillTopicUpd { .. } => Some(Frame::WillTopicResp { code: CONGESTION }),
        Frame::WillMsgUpd { .. } => Some(Frame::WillMsgResp { code: CONGESTION }),
        _ => {
            if accepts(sends) {
                Some(Frame::ConnAck { code: CONGESTION })
            } else {
                None
            }
        }
    }
}

/// What is sent to an address in the place of these datagrams.
pub fn excuses(
    alloc: Global,
    from: Addr,
    frame: &Frame,
    sends: &[Send],
) -> Result<Sequence<Send>, NoMemory>
    ensures { IfOk result (λ made. made ≡ spec.excuses from frame.now sends.now) }
{
    match excuse_of(frame, sends) {
        None => Ok(Sequence::empty(alloc)),
        Some(excuse) => Ok(plan_without(alloc, Draft::reply(alloc, from, excuse)?).sends),
    }
}
