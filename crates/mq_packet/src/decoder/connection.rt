//! The body of CONNECT (MQTT 3.1.1 section 3.1).

ghost use Rattle.std.specs.Prelude.{◌≡◌, IfOk, MatchOption, Some, None};
ghost use Rattle.mq_packet.specs.inner.Reading as spec;
ghost use Rattle.mq_packet.specs.inner.Reading.{ReadsPacket, ConnectStrings, connection, login_made, past_protocol, read_connect_packet, read_connection, read_data_if, read_marked, read_parts, will_made};

use crate::decoder::parts::{data, number_of_two};
use crate::fault::PacketFault;
use crate::marks::{Marks, read_marks};
use crate::packet::{Login, Packet, Qos, Will};
use crate::text::{is_text, is_topic_text};
use octets::{NoMemory, Octets};
use std::alloc::Global;

/// The name of the protocol with its length, and the protocol level (sections 3.1.2.1 and 3.1.2.2).
const PROTOCOL: [u8; 7] = [0, 4, b'M', b'Q', b'T', b'T', 4];

/// The strings of CONNECT. One that the flags say is not there is empty.
#[derive(Clone, Copy)]
struct Strings<'a> {
    client: &'a [u8],
    topic: &'a [u8],
    message: &'a [u8],
    user: &'a [u8],
    password: &'a [u8],
}

/// CONNECT.
pub(super) fn connect(alloc: Global, body: &[u8]) -> Result<Packet, PacketFault>
    ensures { ReadsPacket (read_connect_packet body.now) result }
{
    match after_protocol(body) {
        None => Err(PacketFault::Body),
        Some(rest) => marked(alloc, rest),
    }
}

/// What follows the name and the level of the protocol.
fn after_protocol(body: &[u8]) -> Option<&[u8]>
    ensures { MatchOption result (past_protocol body.now ≡ None)
        (λ rest. past_protocol body.now ≡ Some rest.now) }
{
    if body.len() < PROTOCOL.len() {
        return None;
    }
    let (protocol, rest) = body.split_at(PROTOCOL.len());
    if protocol == PROTOCOL.as_slice() {
        Some(rest)
    } else {
        None
    }
}

/// CONNECT after the protocol: flags, time, strings.
fn marked(alloc: Global, rest: &[u8]) -> Result<Packet, PacketFault>
    ensures { ReadsPacket (read_marked rest.now) result }
{
    let [bits, high, low, payload @ ..] = rest else {
        return Err(PacketFault::Body);
    };
    match read_marks(*bits) {
        None => Err(PacketFault::Body),
        Some(marks) => with_marks(alloc, marks, number_of_two(*high, *low), payload),
    }
}

/// CONNECT of these flags and this time, of its strings.
fn with_marks(
    alloc: Global,
    marks: Marks,
    keep_alive: u16,
    payload: &[u8],
) -> Result<Packet, PacketFault>
    ensures { ReadsPacket (read_connection marks keep_alive payload.now) result }
{
    let Some(strings) = strings_of(marks, payload) else {
        return Err(PacketFault::Body);
    };
    if !are_good(marks, strings) {
        return Err(PacketFault::Body);
    }
    Ok(made(alloc, marks, keep_alive, strings)?)
}

/// A string or data if it is there, else nothing, and what follows.
fn data_if(is_there: bool, octets: &[u8]) -> Option<(&[u8], &[u8])>
    ensures { MatchOption result (read_data_if is_there octets.now ≡ None)
        (λ read. read_data_if is_there octets.now ≡ Some (read.0.now, read.1.now)) }
{
    if is_there {
        data(octets)
    } else {
        Some((&octets[..0], octets))
    }
}

/// The strings that the flags say are there, up to the end.
fn strings_of(marks: Marks, payload: &[u8]) -> Option<Strings<'_>>
    ensures { MatchOption result (read_parts marks payload.now ≡ None)
        (λ s. let parts : ConnectStrings =
        (s.client.now, s.topic.now, s.message.now, s.user.now, s.password.now) in
        read_parts marks payload.now ≡ Some parts) }
{
    let has_will = marks.will.is_some();
    let (client, rest) = data(payload)?;
    let (topic, rest) = data_if(has_will, rest)?;
    let (message, rest) = data_if(has_will, rest)?;
    let (user, rest) = data_if(marks.login.is_some(), rest)?;
    let (password, rest) = data_if(has_password(marks.login), rest)?;
    if !rest.is_empty() {
        return None;
    }
    Some(Strings {
        client,
        topic,
        message,
        user,
        password,
    })
}

/// Whether a password follows the user.
fn has_password(login: Option<bool>) -> bool
    ensures { result ≡ spec.has_password login }
{
    match login {
        None => false,
        Some(password) => password,
    }
}

/// Whether the strings that have to be text or a topic are.
fn are_good(marks: Marks, strings: Strings<'_>) -> bool
    ensures { result ≡ spec.are_good marks (
      strings.entry.client.now,
      strings.entry.topic.now,
      strings.entry.message.now,
      strings.entry.user.now,
      strings.entry.password.now,
    ) }
{
    is_text(strings.client)
        && (marks.will.is_none() || is_topic_text(strings.topic))
        && (marks.login.is_none() || is_text(strings.user))
}

/// CONNECT of these flags and strings.
fn made(
    alloc: Global,
    marks: Marks,
    keep_alive: u16,
    strings: Strings<'_>,
) -> Result<Packet, NoMemory>
    ensures { let parts : ConnectStrings = (
      strings.entry.client.now,
      strings.entry.topic.now,
      strings.entry.message.now,
      strings.entry.user.now,
      strings.entry.password.now,
    ) in
        IfOk result (λ packet. packet ≡ connection marks keep_alive parts) }
{
    let will = will_of(alloc, marks.will, strings.topic, strings.message)?;
    let login = match login_of(alloc, marks.login, strings.user, strings.password) {
        Ok(login) => login,
        Err(fault) => {
            drop(will);
            return Err(fault);
        }
    };
    match Octets::from_slice(alloc, strings.client) {
        Ok(client) => Ok(Packet::Connect {
            clean: marks.clean,
            keep_alive,
            client,
            will,
            login,
        }),
        Err(fault) => {
            drop(will);
            drop(login);
            Err(fault)
        }
    }
}

/// The will of these flags and strings.
fn will_of(
    alloc: Global,
    marks: Option<(Qos, bool)>,
    topic: &[u8],
    message: &[u8],
) -> Result<Option<Will>, NoMemory>
    ensures { IfOk result (λ will. will ≡ will_made marks topic.now message.now) }
{
    let Some((qos, retain)) = marks else {
        return Ok(None);
    };
    let topic = Octets::from_slice(alloc, topic)?;
    let message = Octets::from_slice(alloc, message)?;
    Ok(Some(Will {
        topic,
        message,
        qos,
        retain,
    }))
}

/// The login of these flags and strings.
fn login_of(
    alloc: Global,
    marks: Option<bool>,
    user: &[u8],
    password: &[u8],
) -> Result<Option<Login>, NoMemory>
    ensures { IfOk result (λ login. login ≡ login_made marks user.now password.now) }
{
    let Some(has_password) = marks else {
        return Ok(None);
    };
    let user = Octets::from_slice(alloc, user)?;
    let password = if has_password {
        Some(Octets::from_slice(alloc, password)?)
    } else {
        None
    };
    Ok(Some(Login { user, password }))
}
