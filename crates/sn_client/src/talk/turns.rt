//! What a frame means for what is awaited. An answer counts under the message id that was sent, and
//! under no other.

ghost use Rattle.std.specs.Prelude.{◌≡◌};
ghost use Rattle.sn_client.specs.inner.Talking.{msg_id_of, id_awaited, OnProgress};
ghost use Rattle.sn_client.specs.inner.Talking as spec;

use super::{Awaited, Outcome, Turn};
use sn_frame::Frame;

/// The end of an exchange that went well.
const DONE: Turn = Turn::End {
    outcome: Outcome::Accepted,
};

/// The end of an exchange that was refused.
const REFUSED: Turn = Turn::End {
    outcome: Outcome::Refused,
};

/// A turn that counts under one message id alone.
fn turn_under(msg_id: u16, came: u16, turn: Turn) -> Turn
    ensures { result ≡ spec.turn_under msg_id came turn }
{
    if came == msg_id { turn } else { Turn::Stay }
}

/// What a return code says.
fn turn_by_code(code: u8) -> Turn
    ensures { result ≡ spec.turn_by_code code }
{
    if code == 0 { DONE } else { REFUSED }
}

/// What a return code says where only a refusal ends the exchange.
fn turn_by_refusal(code: u8) -> Turn
    ensures { result ≡ spec.turn_by_refusal code }
{
    if code == 0 { Turn::Stay } else { REFUSED }
}

/// What a REGACK says.
fn turn_by_reg_ack(topic_id: u16, code: u8) -> Turn
    ensures { result ≡ spec.turn_by_reg_ack topic_id code }
{
    if code == 0 {
        Turn::Publish { topic_id }
    } else {
        REFUSED
    }
}

/// What a frame leads to. A DISCONNECT that answers none says that the gateway has no connection
/// with the client.
fn turn_by_type(awaited: Awaited, frame: &Frame) -> Turn
    ensures { result ≡ spec.turn_of awaited frame.now }
{
    match (awaited, frame) {
        (Awaited::Gateway, Frame::GwInfo { .. }) => DONE,
        (Awaited::Connection, Frame::ConnAck { code }) => turn_by_code(*code),
        (
            Awaited::Registration { msg_id },
            Frame::RegAck {
                topic_id,
                msg_id: came,
                code,
            },
        ) => { turn_under(msg_id, *came, turn_by_reg_ack(*topic_id, *code)) }
        (
            Awaited::Subscription { msg_id },
            Frame::SubAck {
                msg_id: came,
                code,
                ..
            },
        ) => { turn_under(msg_id, *came, turn_by_code(*code)) }
        (Awaited::Withdrawal { msg_id }, Frame::UnsubAck { msg_id: came }) => {
            turn_under(msg_id, *came, DONE)
        }
        (
            Awaited::Publication { msg_id },
            Frame::PubAck {
                msg_id: came,
                code,
                ..
            },
        ) => { turn_under(msg_id, *came, turn_by_code(*code)) }
        (
            Awaited::Receipt { msg_id },
            Frame::PubAck {
                msg_id: came,
                code,
                ..
            },
        ) => { turn_under(msg_id, *came, turn_by_refusal(*code)) }
        (
            Awaited::Refusal { msg_id },
            Frame::PubAck {
                msg_id: came,
                code,
                ..
            },
        ) => { turn_under(msg_id, *came, turn_by_refusal(*code)) }
        (Awaited::Receipt { msg_id }, Frame::PubRec { msg_id: came }) => {
            turn_under(msg_id, *came, Turn::Release { msg_id })
        }
        (Awaited::Completion { msg_id }, Frame::PubComp { msg_id: came }) => {
            turn_under(msg_id, *came, DONE)
        }
        (Awaited::Waking, Frame::PingResp) => DONE,
        (Awaited::Farewell, Frame::Disconnect { .. }) => DONE,
        (_, Frame::Disconnect { .. }) => REFUSED,
        _ => Turn::Stay,
    }
}

/// What a frame leads to.
pub(crate) fn turn_of(awaited: Awaited, frame: &Frame) -> Turn
    ensures value { result ≡ spec.turn_of awaited frame.now }

    // What moves the exchange on, or ends it well, has the message id of what is awaited.
    ensures own { OnProgress result (msg_id_of frame.now ≡ id_awaited awaited) }
{
    turn_by_type(awaited, frame)
}
