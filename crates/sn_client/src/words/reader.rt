//! The words that were matched, read one after the other. What is wrong with the first that says
//! nothing is kept, and all after it are read as if nothing were: who reads asks once, at the end.

ghost use Rattle.std.specs.Prelude.{◌≤◌};

use super::{Slip, Topic};
use clap::ArgMatches;
use octets::{MAX_CLIENT_ID, read_u16};
use sn_frame::Qos;
use sn_topic::{Filter, TopicFault, TopicName};
use std::alloc::Global;
use std::net::{IpAddr, Ipv4Addr, SocketAddr};

/// Reads words that were matched.
#[derive(Clone, Copy)]
pub(super) struct Reader<'m, 'a> {
    alloc: Global,
    matches: &'m ArgMatches<'a>,
    /// What is wrong with the first word that says nothing.
    slip: Option<Slip>,
}

impl<'m, 'a> Reader<'m, 'a> {
    /// A reader of these words.
    pub(super) fn new(alloc: Global, matches: &'m ArgMatches<'a>) -> Reader<'m, 'a> {
        Reader {
            alloc,
            matches,
            slip: None,
        }
    }

    /// What is wrong with the first word that says nothing, if one does not.
    pub(super) fn slip(&self) -> Option<Slip> {
        self.slip
    }

    /// A word says nothing.
    fn note(&mut self, slip: Slip) {
        if self.slip.is_none() {
            self.slip = Some(slip);
        }
    }

    /// A word says nothing, for this reason.
    pub(super) fn refuse(&mut self, fault: &'static str) {
        self.note(Slip::Word(fault));
    }

    /// Whether an option without a value is there.
    pub(super) fn flag(&self, id: &str) -> bool {
        self.matches.get_flag(id)
    }

    /// A word that may be left out.
    pub(super) fn text(&self, id: &str) -> Option<&'a str> {
        self.matches.get_str(id)
    }

    /// A word.
    pub(super) fn word(&mut self, id: &str) -> &'a str {
        match self.text(id) {
            Some(word) => word,
            None => {
                self.refuse("a word is missing");
                ""
            }
        }
    }

    /// A number that may be left out.
    fn number_or_none(&self, id: &str) -> Option<u16> {
        self.matches.get_one::<u16>(id)
    }

    /// A number.
    pub(super) fn number(&mut self, id: &str) -> u16 {
        match self.number_or_none(id) {
            Some(number) => number,
            None => {
                self.refuse("a number from 0 to 65535 is missing");
                0
            }
        }
    }

    /// The client's id: 1 to 23 octets.
    pub(super) fn client(&mut self) -> &'a str {
        match self.text("id") {
            Some(word) => {
                self.check_client(word);
                word
            }
            None => {
                self.refuse("--id is missing: the client's id, as s1");
                ""
            }
        }
    }

    /// Looks whether a client may have this id.
    fn check_client(&mut self, word: &str) {
        if word.is_empty() {
            self.refuse("--id is empty");
        } else if word.len() > MAX_CLIENT_ID {
            self.refuse("--id has more than 23 octets");
        }
    }

    /// The address of the gateway.
    pub(super) fn gateway(&mut self) -> SocketAddr {
        match self.text("gateway") {
            Some(word) => self.address(word),
            None => self.no_address(
                "--gateway is missing: where a gateway listens, as 127.0.0.1:18841",
            ),
        }
    }

    /// The address that a word is.
    fn address(&mut self, word: &str) -> SocketAddr {
        match word.parse::<SocketAddr>() {
            Ok(address) => address,
            Err(_) => self.no_address(
                "--gateway is no address with a port, as 127.0.0.1:18841; names of hosts are not taken",
            ),
        }
    }

    /// An address that nobody has, in place of one that no word says.
    fn no_address(&mut self, fault: &'static str) -> SocketAddr {
        self.refuse(fault);
        SocketAddr::new(IpAddr::V4(Ipv4Addr::UNSPECIFIED), 0)
    }

    /// The client's own port.
    pub(super) fn port(&self, client: &str) -> u16 {
        match self.number_or_none("port") {
            Some(port) => port,
            None => port_of(client),
        }
    }

    /// A quality of service.
    pub(super) fn qos(&mut self) -> Qos {
        match self.text("qos").and_then(level) {
            Some(qos) => qos,
            None => {
                self.refuse("--qos is none of -1, 0, 1 and 2");
                Qos::Zero
            }
        }
    }

    /// The topic of a publication, or a predefined id.
    pub(super) fn topic(&mut self, name: &'a str) -> Topic<'a> {
        if self.flag("predefined") {
            self.topic_of_id(name)
        } else {
            self.check_name(name);
            in_form(name)
        }
    }

    /// A filter, or a predefined id. A filter with a wildcard is never a short name.
    pub(super) fn filter(&mut self) -> Topic<'a> {
        let word = self.word("filter");
        if self.flag("predefined") {
            self.topic_of_id(word)
        } else if self.has_wildcard(word) {
            Topic::Full(word)
        } else {
            in_form(word)
        }
    }

    /// A predefined id.
    fn topic_of_id(&mut self, word: &str) -> Topic<'a> {
        match word.parse::<u16>() {
            Ok(id) => Topic::Predefined(id),
            Err(_) => {
                self.refuse("a predefined id is a number from 0 to 65535");
                Topic::Predefined(0)
            }
        }
    }

    /// Looks whether a topic's name is one.
    pub(super) fn check_name(&mut self, word: &str) {
        match TopicName::new(self.alloc, word.as_bytes()) {
            Ok(name) => drop(name),
            Err(fault) => self.note(slip_of(
                fault,
                "TOPIC is no name: 1 to 256 octets without a wildcard",
            )),
        }
    }

    /// Whether a filter has a wildcard.
    fn has_wildcard(&mut self, word: &str) -> bool {
        match Filter::new(self.alloc, word.as_bytes()) {
            Ok(filter) => filter.has_wildcard(),
            Err(fault) => {
                self.note(slip_of(
                    fault,
                    "FILTER is none: + or # alone in a level, and # in the last",
                ));
                false
            }
        }
    }
}

/// What is wrong with a word that is no name or no filter, for this reason unless memory ran out.
fn slip_of(fault: TopicFault, words: &'static str) -> Slip {
    match fault {
        TopicFault::Memory => Slip::Memory,
        _ => Slip::Word(words),
    }
}

/// A port that is the same whenever the id is, outside of those that the system gives to others.
fn port_of(client: &str) -> u16
    ensures least { 20000 ≤ result }
    ensures most { result ≤ 29999 }
{
    let mut sum = 0_u16;
    for octet in client.as_bytes() {
        sum = sum.wrapping_mul(31).wrapping_add(u16::from(*octet));
    }
    20_000 + sum % 10_000
}

/// The quality of service that a word names.
fn level(word: &str) -> Option<Qos> {
    match word {
        "0" => Some(Qos::Zero),
        "1" => Some(Qos::One),
        "2" => Some(Qos::Two),
        "-1" => Some(Qos::MinusOne),
        _ => None,
    }
}

/// A name as it goes into a frame: one of two octets takes the place of an id.
fn in_form<'a>(word: &'a str) -> Topic<'a> {
    match read_u16(word.as_bytes()) {
        Some((number, [])) => Topic::Short(number),
        _ => Topic::Full(word),
    }
}
