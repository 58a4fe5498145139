//! What a frame from the gateway is acknowledged by, and how a frame is sent again.

ghost use Rattle.std.specs.Prelude.{◌≡◌, IfSome};
ghost use Rattle.sn_client.specs.inner.Talking.{acknowledgement_of, msg_id_of, repeated_bits};
ghost use Rattle.sn_client.specs.inner.Talking as spec;

use sn_frame::{Frame, Qos};

/// The return code that says accepted (MQTT-SN 1.2 section 5.3.10).
const ACCEPTED: u8 = 0;

/// The acknowledgement of a publication.
fn acknowledgement_at(qos: Qos, topic_id: u16, msg_id: u16) -> Option<Frame>
    ensures { result ≡ spec.acknowledgement_at qos topic_id msg_id }
{
    match qos {
        Qos::One => Some(Frame::PubAck {
            topic_id,
            msg_id,
            code: ACCEPTED,
        }),
        Qos::Two => Some(Frame::PubRec { msg_id }),
        Qos::Zero | Qos::MinusOne => None,
    }
}

/// What a frame from the gateway is acknowledged by, if by anything: a REGISTER, a PUBLISH at QoS 1
/// or 2, a PUBREL.
pub(crate) fn acknowledgement(frame: &Frame) -> Option<Frame>
    ensures value { result ≡ acknowledgement_of frame.now }

    // The message id is that of the frame.
    ensures same { IfSome result (λ reply. msg_id_of reply ≡ msg_id_of frame.now) }
{
    match frame {
        Frame::Register {
            topic_id,
            msg_id,
            ..
        } => Some(Frame::RegAck {
            topic_id: *topic_id,
            msg_id: *msg_id,
            code: ACCEPTED,
        }),
        Frame::Publish {
            flags,
            topic,
            msg_id,
            ..
        } => acknowledgement_at(flags.qos(), *topic, *msg_id),
        Frame::PubRel { msg_id } => Some(Frame::PubComp { msg_id: *msg_id }),
        _ => None,
    }
}

/// Flags that say that a PUBLISH was sent before (MQTT-SN 1.2 section 5.3.4).
pub(super) fn again_bits(bits: u8) -> u8
    ensures { result ≡ repeated_bits bits }
{
    if bits / 128 == 0 { bits + 128 } else { bits }
}
