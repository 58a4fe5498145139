//! Flags, what they say of a topic, and return codes.

use crate::sets::datagrams::shown::print_text;
use crate::sets::page::Page;
use sn_frame::{Flags, Qos, TopicIdType};

/// A quality of service.
fn qos_word(qos: Qos) -> &'static str {
    match qos {
        Qos::Zero => "0",
        Qos::One => "1",
        Qos::Two => "2",
        Qos::MinusOne => "-1",
    }
}

/// What a topic field holds.
fn kind_word(kind: TopicIdType) -> &'static str {
    match kind {
        TopicIdType::Normal => "normal",
        TopicIdType::Predefined => "predefined",
        TopicIdType::Short => "short",
        TopicIdType::Reserved => "reserved",
    }
}

/// What a return code says (section 5.3.10).
fn code_word(code: u8) -> &'static str {
    match code {
        0 => "accepted",
        1 => "congestion",
        2 => "invalid topic id",
        3 => "not supported",
        _ => "reserved",
    }
}

/// Prints an octet of bit fields (section 5.3.4) after a space.
pub(crate) fn print_flags(page: &mut Page, flags: Flags) {
    page.text(" Flags ");
    page.hexadecimal(&[flags.bits]);
    print_bit(page, " (DUP ", flags.dup());
    print_part(page, ", QoS ", qos_word(flags.qos()));
    print_bit(page, ", Retain ", flags.retain());
    print_bit(page, ", Will ", flags.will());
    print_bit(page, ", CleanSession ", flags.clean());
    print_part(page, ", TopicIdType ", kind_word(flags.kind()));
    page.text(")");
}

/// Prints the name of a bit, and the bit as a digit.
fn print_bit(page: &mut Page, name: &str, is_set: bool) {
    page.text(name);
    page.value(u8::from(is_set));
}

/// Prints the name of some bits, and what they say.
fn print_part(page: &mut Page, name: &str, said: &str) {
    page.text(name);
    page.text(said);
}

/// Prints a return code (section 5.3.10).
pub(crate) fn print_code(page: &mut Page, code: u8) {
    page.text("ReturnCode ");
    page.value(code);
    print_part(page, " (", code_word(code));
    page.text(")");
}

/// Prints what the topic field of PUBLISH has (section 5.4.12): an id, or a name of two octets.
pub(crate) fn print_topic(page: &mut Page, kind: TopicIdType, number: u16) {
    if matches!(kind, TopicIdType::Short) {
        page.text("TopicName ");
        print_text(page, number.to_be_bytes().as_slice());
    } else {
        print_id(page, number);
    }
}

/// Prints a topic id.
fn print_id(page: &mut Page, id: u16) {
    page.text("TopicId ");
    page.value(id);
}

/// Prints what the topic field of SUBSCRIBE or UNSUBSCRIBE has (section 5.4.15): a name, or an id of
/// two octets.
pub(crate) fn print_octets_topic(page: &mut Page, kind: TopicIdType, octets: &[u8]) {
    match (kind, octets) {
        (TopicIdType::Predefined, [high, low]) => {
            print_id(page, u16::from_be_bytes([*high, *low]));
        }
        _ => {
            page.text("TopicName ");
            print_text(page, octets);
        }
    }
}
