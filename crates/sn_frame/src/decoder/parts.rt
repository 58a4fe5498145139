//! Bodies, and parts of bodies, that several messages share.

ghost use Rattle.std.specs.Prelude.{◌≡◌, IfOk, IfErr, true};
ghost use Rattle.sn_frame.specs.inner.Reading.{ReadsFrame, WantsNone, has_octets, read_bare, read_octet, read_number, read_ids, read_filter, read_will};
ghost use Rattle.sn_frame.specs.inner.Reading as spec;

use crate::fault::FrameFault;
use crate::flags::Flags;
use crate::frame::{Frame, Will};
use byteorder::{BigEndian, ByteOrder};
use octets::{NoMemory, Octets};
use std::alloc::Global;

/// The number in two octets.
pub(super) fn number(high: u8, low: u8) -> u16
    ensures { result ≡ spec.number high low }
{
    BigEndian::read_u16(&[high, low])
}

/// This frame, which has no body.
pub(super) fn bare(body: &[u8], frame: Frame) -> Result<Frame, FrameFault>
    ensures gives { ReadsFrame (read_bare body.now frame) result }
    ensures light { WantsNone result }
{
    match body {
        [] => Ok(frame),
        _ => Err(FrameFault::Body),
    }
}

/// A body of one octet.
pub(super) fn one_octet(body: &[u8]) -> Result<u8, FrameFault>
    ensures gives { ReadsFrame (read_octet body.now) result }
    ensures light { WantsNone result }
{
    match body {
        [octet] => Ok(*octet),
        _ => Err(FrameFault::Body),
    }
}

/// A body of one number.
pub(super) fn one_number(body: &[u8]) -> Result<u16, FrameFault>
    ensures gives { ReadsFrame (read_number body.now) result }
    ensures light { WantsNone result }
{
    match body {
        [high, low] => Ok(number(*high, *low)),
        _ => Err(FrameFault::Body),
    }
}

/// A topic id, a message id and a return code.
pub(super) fn ids_and_code(body: &[u8]) -> Result<(u16, u16, u8), FrameFault>
    ensures gives { ReadsFrame (read_ids body.now) result }
    ensures light { WantsNone result }
{
    match body {
        [t1, t0, m1, m0, code] => Ok((number(*t1, *t0), number(*m1, *m0), *code)),
        _ => Err(FrameFault::Body),
    }
}

/// Flags, a message id and a topic that has the size that the flags ask for.
pub(super) fn subscription(alloc: Global, body: &[u8]) -> Result<(Flags, u16, Octets), FrameFault>
    ensures { ReadsFrame (read_filter body.now) result }
{
    match body {
        [bits, high, low, topic @ ..] => {
            let flags = Flags { bits: *bits };
            if !flags.kind().fits(topic) {
                return Err(FrameFault::Body);
            }
            Ok((
                flags,
                number(*high, *low),
                Octets::from_slice(alloc, topic)?,
            ))
        }
        _ => Err(FrameFault::Body),
    }
}

/// A will's flags and topic, or nothing.
pub(super) fn optional_will(alloc: Global, body: &[u8]) -> Result<Option<Will>, NoMemory>
    ensures ok { IfOk result (λ will. will ≡ read_will body.now) }
    ensures light { IfErr result (λ _. has_octets body.now ≡ true) }
{
    match body {
        [] => Ok(None),
        [bits, topic @ ..] => Ok(Some(Will {
            flags: Flags { bits: *bits },
            topic: Octets::from_slice(alloc, topic)?,
        })),
    }
}
