//! A mixed stream of datagrams (MQTT-SN 1.2 section 5.4).

use crate::page::Page;
use crate::works::numbers::Numbers;

/// How many datagrams the stream has.
const COUNT: usize = 10_000;

/// A kind of datagram: the octet of the message's type, the first octet of the body, the fewest
/// octets of the body, and how many more it may have.
type Shape = (u8, u8, u8, u8);

/// Each message of MQTT-SN 1.2, and those that publish more than once: a kind in four octets.
const SHAPES: &[u8; 128] = b"\
    \x00\x01\x03\x00\
    \x01\x01\x01\x00\
    \x02\x01\x01\x04\
    \x04\x0c\x05\x16\
    \x05\x00\x01\x00\
    \x06\x00\x00\x00\
    \x07\x30\x02\x3c\
    \x08\x00\x00\x00\
    \x09\x41\x00\xfa\
    \x0a\x00\x05\x3c\
    \x0b\x00\x05\x00\
    \x0c\x00\x05\xfa\
    \x0c\x21\x05\xfa\
    \x0c\x22\x05\xfa\
    \x0c\x40\x05\x28\
    \x0d\x00\x05\x00\
    \x0e\x00\x02\x00\
    \x0f\x00\x02\x00\
    \x10\x00\x02\x00\
    \x12\x20\x04\x3c\
    \x12\x21\x05\x00\
    \x13\x20\x06\x00\
    \x14\x20\x04\x3c\
    \x15\x00\x02\x00\
    \x16\x73\x00\x17\
    \x17\x00\x00\x00\
    \x18\x00\x00\x00\
    \x18\x00\x02\x00\
    \x1a\x10\x02\x3c\
    \x1b\x00\x01\x00\
    \x1c\x41\x00\xfa\
    \x1d\x00\x01\x00";

/// The stream. One datagram in four has the long form of Length where the short one would do.
pub(crate) fn stream(page: &mut Page) -> Vec<Vec<u8>> {
    let mut numbers = Numbers::new();
    let mut made = Vec::new(page.alloc());
    for _ in 0..COUNT {
        let shape = shape(numbers.next());
        let datagram = datagram(page, &mut numbers, shape);
        let is_short = made.push(datagram).is_err();
        page.stop_if_short(is_short);
    }
    made
}

/// The kind of datagram that a number picks.
fn shape(number: u16) -> Shape {
    let shapes = SHAPES;
    let at = usize::from(number % 32) * 4;
    (shapes[at], shapes[at + 1], shapes[at + 2], shapes[at + 3])
}

/// A datagram of this kind.
fn datagram(page: &mut Page, numbers: &mut Numbers, shape: Shape) -> Vec<u8> {
    let (msg_type, first, least, more) = shape;
    let size = u16::from(least) + numbers.next() % (u16::from(more) + 1);
    let is_long = numbers.next() % 4 == 0;
    let mut made = Vec::new(page.alloc());
    add_length(page, &mut made, size, is_long);
    page.add(&mut made, &[msg_type]);
    if size > 0 {
        page.add(&mut made, &[first]);
    }
    for _ in 1..size {
        page.add(&mut made, &[numbers.octet()]);
    }
    made
}

/// The Length of a datagram whose body has so many octets, in its long form if the short one would
/// not do.
fn add_length(page: &mut Page, made: &mut Vec<u8>, size: u16, is_long: bool) {
    if is_long || size > 253 {
        let [high, low] = size.saturating_add(4).to_be_bytes();
        page.add(made, &[1, high, low]);
    } else {
        page.add(made, &[(size + 2) as u8]);
    }
}
