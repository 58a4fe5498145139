//! What stands in a body in front of its octet string, and bodies that have none.

ghost use Rattle.std.specs.Prelude.{◌≡◌, ◌∷◌, ◌++◌, []};
ghost use Rattle.byteorder.specs.Endian.{big_bytes};

use crate::flags::Flags;
use byteorder::{BigEndian, ByteOrder};

/// A number as two octets.
pub(super) fn octets_of(n: u16) -> [u8; 2]
    ensures { result ≡ big_bytes 2 n }
{
    let mut octets = [0; 2];
    BigEndian::write_u16(&mut octets, n);
    octets
}

/// The body of ADVERTISE.
pub(super) fn advertise(gateway: u8, duration: u16) -> [u8; 3]
    ensures { result ≡ gateway ∷ big_bytes 2 duration }
{
    let [high, low] = octets_of(duration);
    [gateway, high, low]
}

/// Flags, protocol and duration of CONNECT.
pub(super) fn connect(flags: Flags, protocol: u8, duration: u16) -> [u8; 4]
    ensures { result ≡ flags.bits ∷ protocol ∷ big_bytes 2 duration }
{
    let [high, low] = octets_of(duration);
    [flags.bits, protocol, high, low]
}

/// A topic id and a message id.
pub(super) fn ids(topic_id: u16, msg_id: u16) -> [u8; 4]
    ensures { result ≡ big_bytes 2 topic_id ++ big_bytes 2 msg_id }
{
    let [t1, t0] = octets_of(topic_id);
    let [m1, m0] = octets_of(msg_id);
    [t1, t0, m1, m0]
}

/// A topic id, a message id and a return code.
pub(super) fn ids_and_code(topic_id: u16, msg_id: u16, code: u8) -> [u8; 5]
    ensures { result ≡ big_bytes 2 topic_id ++ big_bytes 2 msg_id ++ (code ∷ []) }
{
    let [t1, t0] = octets_of(topic_id);
    let [m1, m0] = octets_of(msg_id);
    [t1, t0, m1, m0, code]
}

/// Flags, topic and message id of PUBLISH.
pub(super) fn publish(flags: Flags, topic: u16, msg_id: u16) -> [u8; 5]
    ensures { result ≡ (flags.bits ∷ big_bytes 2 topic) ++ big_bytes 2 msg_id }
{
    let [t1, t0] = octets_of(topic);
    let [m1, m0] = octets_of(msg_id);
    [flags.bits, t1, t0, m1, m0]
}

/// Flags and message id of SUBSCRIBE and UNSUBSCRIBE.
pub(super) fn subscription(flags: Flags, msg_id: u16) -> [u8; 3]
    ensures { result ≡ flags.bits ∷ big_bytes 2 msg_id }
{
    let [high, low] = octets_of(msg_id);
    [flags.bits, high, low]
}

/// The body of SUBACK.
pub(super) fn sub_ack(flags: Flags, topic_id: u16, msg_id: u16, code: u8) -> [u8; 6]
    ensures { result ≡ (flags.bits ∷ big_bytes 2 topic_id) ++ big_bytes 2 msg_id ++ (code ∷ []) }
{
    let [t1, t0] = octets_of(topic_id);
    let [m1, m0] = octets_of(msg_id);
    [flags.bits, t1, t0, m1, m0, code]
}
