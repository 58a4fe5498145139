//! Packets in the words of MQTT 3.1.1 section 3.

use crate::sets::datagrams::shown::print_text;
use crate::sets::page::Page;
use mq_packet::{Delivery, Login, Packet, Qos, Will};
use octets::Octets;

/// The name of a packet's type (section 2.2.1).
pub(crate) fn packet_name(packet: &Packet) -> &'static str {
    match packet {
        Packet::Connect { .. } => "CONNECT",
        Packet::ConnAck { .. } => "CONNACK",
        Packet::Publish { .. } => "PUBLISH",
        Packet::PubAck { .. } => "PUBACK",
        Packet::Subscribe { .. } => "SUBSCRIBE",
        Packet::SubAck { .. } => "SUBACK",
        Packet::Unsubscribe { .. } => "UNSUBSCRIBE",
        Packet::UnsubAck { .. } => "UNSUBACK",
        Packet::PingReq => "PINGREQ",
        Packet::PingResp => "PINGRESP",
        Packet::Disconnect => "DISCONNECT",
    }
}

/// Prints a packet with all its fields.
pub(crate) fn print_said(page: &mut Page, packet: &Packet) {
    page.text(packet_name(packet));
    match packet {
        Packet::Connect {
            clean,
            keep_alive,
            client,
            will,
            login,
        } => {
            print_client(page, *clean, client, *keep_alive);
            print_will(page, will);
            print_login(page, login);
        }
        Packet::Publish {
            delivery,
            retain,
            topic,
            body,
        } => {
            print_way(page, *delivery);
            print_if(page, *retain, " RETAIN");
            print_message(page, " ", topic, body);
        }
        _ => print_request(page, packet),
    }
}

/// Prints a flag, if it is set.
fn print_if(page: &mut Page, is_set: bool, word: &str) {
    if is_set {
        page.text(word);
    }
}

/// Prints who connects, and how.
fn print_client(page: &mut Page, is_clean: bool, client: &Octets, keep_alive: u16) {
    print_if(page, is_clean, " clean");
    page.text(" ");
    print_text(page, client.as_slice());
    page.text(", ");
    page.value(keep_alive);
    page.text(" s");
}

/// Prints a topic and a message.
fn print_message(page: &mut Page, front: &str, topic: &Octets, body: &Octets) {
    page.text(front);
    print_text(page, topic.as_slice());
    page.text(": ");
    print_text(page, body.as_slice());
}

/// Prints a quality of service.
fn print_qos(page: &mut Page, qos: Qos) {
    match qos {
        Qos::Zero => page.text(" QoS 0"),
        Qos::One => page.text(" QoS 1"),
    }
}

/// Prints how a publication is delivered.
fn print_way(page: &mut Page, delivery: Delivery) {
    match delivery {
        Delivery::Once => print_qos(page, Qos::Zero),
        Delivery::Acknowledged { id, dup } => {
            print_qos(page, Qos::One);
            print_if(page, dup, " DUP");
            print_number(page, id);
        }
    }
}

/// Prints a number.
fn print_number(page: &mut Page, number: u16) {
    page.text(" ");
    page.value(number);
}

/// Prints the fields of a will, if there is one.
fn print_will(page: &mut Page, will: &Option<Will>) {
    if let Some(will) = will {
        page.text(", will");
        print_qos(page, will.qos);
        print_if(page, will.retain, " RETAIN");
        print_message(page, " ", &will.topic, &will.message);
    }
}

/// Prints the fields of a login, if there is one.
fn print_login(page: &mut Page, login: &Option<Login>) {
    if let Some(login) = login {
        page.text(", user ");
        print_text(page, login.user.as_slice());
        print_password(page, &login.password);
    }
}

/// Prints a password, if there is one.
fn print_password(page: &mut Page, password: &Option<Octets>) {
    if let Some(password) = password {
        page.text(", password ");
        print_text(page, password.as_slice());
    }
}

/// Prints the fields of a packet that asks for topics, or of another one.
fn print_request(page: &mut Page, packet: &Packet) {
    match packet {
        Packet::Subscribe { id, filter, qos } => {
            print_filter(page, *id, filter);
            print_qos(page, *qos);
        }
        Packet::Unsubscribe { id, filter } => print_filter(page, *id, filter),
        _ => print_answer(page, packet),
    }
}

/// Prints a packet id and a filter.
fn print_filter(page: &mut Page, id: u16, filter: &Octets) {
    print_number(page, id);
    page.text(" ");
    print_text(page, filter.as_slice());
}

/// Prints the fields of a packet that answers. The others have none.
fn print_answer(page: &mut Page, packet: &Packet) {
    match packet {
        Packet::ConnAck { session, code } => {
            print_number(page, u16::from(*code));
            print_if(page, *session, " with a session");
        }
        Packet::PubAck { id } => print_number(page, *id),
        Packet::UnsubAck { id } => print_number(page, *id),
        Packet::SubAck { id, granted } => {
            print_number(page, *id);
            print_granted(page, *granted);
        }
        _ => {}
    }
}

/// Prints what was granted, if something was.
fn print_granted(page: &mut Page, granted: Option<Qos>) {
    match granted {
        Some(qos) => print_qos(page, qos),
        None => page.text(" refused"),
    }
}
