//! Bodies that one message alone has.

ghost use Rattle.sn_frame.specs.inner.Reading.{ReadsFrame, WantsNone, read_advertise, read_gw_info, read_connect, read_register, read_publish, read_sub_ack, read_ping_req, read_disconnect};

use crate::decoder::parts::number;
use crate::fault::FrameFault;
use crate::flags::Flags;
use crate::frame::Frame;
use octets::{MAX_CLIENT_ID, Octets};
use std::alloc::Global;

/// ADVERTISE.
pub(super) fn advertise(body: &[u8]) -> Result<Frame, FrameFault>
    ensures gives { ReadsFrame (read_advertise body.now) result }
    ensures light { WantsNone result }
{
    match body {
        [gateway, high, low] => Ok(Frame::Advertise {
            gateway: *gateway,
            duration: number(*high, *low),
        }),
        _ => Err(FrameFault::Body),
    }
}

/// GWINFO.
pub(super) fn gw_info(alloc: Global, body: &[u8]) -> Result<Frame, FrameFault>
    ensures { ReadsFrame (read_gw_info body.now) result }
{
    match body {
        [gateway, address @ ..] => {
            Ok(Frame::GwInfo {
                gateway: *gateway,
                address: Octets::from_slice(alloc, address)?,
            })
        }
        _ => Err(FrameFault::Body),
    }
}

/// CONNECT.
pub(super) fn connect(alloc: Global, body: &[u8]) -> Result<Frame, FrameFault>
    ensures { ReadsFrame (read_connect body.now) result }
{
    match body {
        [bits, protocol, high, low, client @ ..] if (1..=MAX_CLIENT_ID).contains(&client.len()) =>
            Ok(Frame::Connect {
                flags: Flags { bits: *bits },
                protocol: *protocol,
                duration: number(*high, *low),
                client: Octets::from_slice(alloc, client)?,
            }),
        _ => Err(FrameFault::Body),
    }
}

/// REGISTER.
pub(super) fn register(alloc: Global, body: &[u8]) -> Result<Frame, FrameFault>
    ensures { ReadsFrame (read_register body.now) result }
{
    match body {
        [t1, t0, m1, m0, name @ ..] => Ok(Frame::Register {
            topic_id: number(*t1, *t0),
            msg_id: number(*m1, *m0),
            name: Octets::from_slice(alloc, name)?,
        }),
        _ => Err(FrameFault::Body),
    }
}

/// PUBLISH.
pub(super) fn publish(alloc: Global, body: &[u8]) -> Result<Frame, FrameFault>
    ensures { ReadsFrame (read_publish body.now) result }
{
    match body {
        [bits, t1, t0, m1, m0, message @ ..] => Ok(Frame::Publish {
            flags: Flags { bits: *bits },
            topic: number(*t1, *t0),
            msg_id: number(*m1, *m0),
            body: Octets::from_slice(alloc, message)?,
        }),
        _ => Err(FrameFault::Body),
    }
}

/// SUBACK.
pub(super) fn sub_ack(body: &[u8]) -> Result<Frame, FrameFault>
    ensures gives { ReadsFrame (read_sub_ack body.now) result }
    ensures light { WantsNone result }
{
    match body {
        [bits, t1, t0, m1, m0, code] => Ok(Frame::SubAck {
            flags: Flags { bits: *bits },
            topic_id: number(*t1, *t0),
            msg_id: number(*m1, *m0),
            code: *code,
        }),
        _ => Err(FrameFault::Body),
    }
}

/// PINGREQ.
pub(super) fn ping_req(alloc: Global, body: &[u8]) -> Result<Frame, FrameFault>
    ensures { ReadsFrame (read_ping_req body.now) result }
{
    if body.len() > MAX_CLIENT_ID {
        return Err(FrameFault::Body);
    }
    Ok(Frame::PingReq {
        client: Octets::from_slice(alloc, body)?,
    })
}

/// DISCONNECT.
pub(super) fn disconnect(body: &[u8]) -> Result<Frame, FrameFault>
    ensures gives { ReadsFrame (read_disconnect body.now) result }
    ensures light { WantsNone result }
{
    match body {
        [] => Ok(Frame::Disconnect { duration: None }),
        [high, low] => Ok(Frame::Disconnect {
            duration: Some(number(*high, *low)),
        }),
        _ => Err(FrameFault::Body),
    }
}
