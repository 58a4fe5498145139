//! The two forms of a frame (MQTT-SN 1.2 section 5.2.1).

ghost use Rattle.std.specs.Prelude.{◌≡◌, ◌≢◌, ◌<◌, ◌+◌, ◌^◌, length, ◌++◌, ◌↔◌, OnOk, OnErr, Err};
ghost use Rattle.sn_frame.specs.declared.frame.TheConstants.{MAX_FRAME};
ghost use Rattle.sn_frame.specs.Bodies as spec;
ghost use Rattle.sn_frame.specs.Grammar.{IsFramed, spelling, total_of};
ghost use Rattle.sn_frame.specs.Types.{octet_of};

use crate::encoder::parts::octets_of;
use crate::fault::EncodeFault;
use crate::frame::{Frame, MAX_FRAME};
use crate::msg_type::MsgType;
use std::alloc::AllocError;

/// The most octets that a body after a Length of one octet has.
const SHORT_BODY: usize = 253;

/// The most octets that a body after a Length of three octets has.
const LONG_BODY: usize = MAX_FRAME - 4;

/// Which message a frame is.
fn type_of(frame: &Frame) -> MsgType
    ensures { result ≡ spec.type_of frame.now }
{
    match frame {
        Frame::Advertise { .. } => MsgType::Advertise,
        Frame::SearchGw { .. } => MsgType::SearchGw,
        Frame::GwInfo { .. } => MsgType::GwInfo,
        Frame::Connect { .. } => MsgType::Connect,
        Frame::ConnAck { .. } => MsgType::ConnAck,
        Frame::WillTopicReq => MsgType::WillTopicReq,
        Frame::WillTopic { .. } => MsgType::WillTopic,
        Frame::WillMsgReq => MsgType::WillMsgReq,
        Frame::WillMsg { .. } => MsgType::WillMsg,
        Frame::Register { .. } => MsgType::Register,
        Frame::RegAck { .. } => MsgType::RegAck,
        Frame::Publish { .. } => MsgType::Publish,
        Frame::PubAck { .. } => MsgType::PubAck,
        Frame::PubComp { .. } => MsgType::PubComp,
        Frame::PubRec { .. } => MsgType::PubRec,
        Frame::PubRel { .. } => MsgType::PubRel,
        Frame::Subscribe { .. } => MsgType::Subscribe,
        Frame::SubAck { .. } => MsgType::SubAck,
        Frame::Unsubscribe { .. } => MsgType::Unsubscribe,
        Frame::UnsubAck { .. } => MsgType::UnsubAck,
        Frame::PingReq { .. } => MsgType::PingReq,
        Frame::PingResp => MsgType::PingResp,
        Frame::Disconnect { .. } => MsgType::Disconnect,
        Frame::WillTopicUpd { .. } => MsgType::WillTopicUpd,
        Frame::WillTopicResp { .. } => MsgType::WillTopicResp,
        Frame::WillMsgUpd { .. } => MsgType::WillMsgUpd,
        Frame::WillMsgResp { .. } => MsgType::WillMsgResp,
    }
}

/// Appends the canonical spelling of a frame whose body is made of these parts, or nothing.
pub(super) fn append_spelling(
    out: &mut Vec<u8>,
    frame: &Frame,
    front: &[u8],
    tail: &[u8],
) -> Result<(), EncodeFault>
    requires { spec.body_of frame.now ≡ front.now ++ tail.now }
    ensures ok { OnOk result (out.new.items ≡ out.old.items ++ spelling frame.now) }
    ensures framed { OnOk result (IsFramed (spelling frame.now) (octet_of (spec.type_of frame.now))
        (spec.body_of frame.now)) }
    ensures body { result ≢ Err EncodeFault.Body }
    ensures too_long { (result ≡ Err EncodeFault.TooLong) ↔ (MAX_FRAME < total_of frame.now) }
    ensures err { OnErr result (out.new.items ≡ out.old.items) }
{
    let octet = type_of(frame).octet();
    let size = front.len() + tail.len();
    if size <= SHORT_BODY {
        append_parts(out, &[size as u8 + 2, octet], front, tail)?;
    } else if size <= LONG_BODY {
        let [high, low] = octets_of(size as u16 + 4);
        append_parts(out, &[1, high, low, octet], front, tail)?;
    } else {
        return Err(EncodeFault::TooLong);
    }
    Ok(())
}

/// Appends all three, or nothing: the room for all of them is reserved first.
fn append_parts(out: &mut Vec<u8>, head: &[u8], front: &[u8], tail: &[u8]) -> Result<(), AllocError>
    requires { length head.now + length front.now + length tail.now < 2 ^ 64 }
    ensures ok { OnOk result (out.new.items ≡ out.old.items ++ (head.now ++ front.now
        ++ tail.now)) }
    ensures err { OnErr result (out.new.items ≡ out.old.items) }
{
    out.reserve(head.len() + front.len() + tail.len())?;
    out.extend_from_slice(head)?;
    out.extend_from_slice(front)?;
    out.extend_from_slice(tail)
}
