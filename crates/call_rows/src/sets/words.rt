//! The words of a line, read one after the other.
//!
//! What reads a word does not fail: a word that is missing or wrong gives a plain value, as 0 or no
//! octets, and the first fault is kept. A line reads all its words, asks `end` once whether they
//! were right, and only then does what it says. What owns memory has no plain value: there is none
//! of it, and the fault is kept too.

use crate::sets::stop::Stop;
use octets::Octets;
use rep_ops::{ClientId, Stamp};
use sn_session::Message;
use sn_tables::QosLevel;
use sn_topic::{Filter, TopicName};
use std::alloc::Global;

/// A line, of which so many words are read.
#[derive(Clone, Copy)]
pub(crate) struct Words<'a> {
    pub(crate) alloc: Global,
    line: &'a str,
    /// The line's first word, which says what kind of line it is.
    pub(crate) first: &'a str,
    /// How many words are read.
    read: usize,
    /// Why the line is not played, if it is not.
    pub(crate) stop: Option<Stop>,
}

/// The words of a line, of which the first is read.
pub(crate) fn words_of<'a>(alloc: Global, line: &'a str) -> Words<'a> {
    let first = match line.split_once(' ') {
        Some((first, _)) => first,
        None => line,
    };
    Words {
        alloc,
        line,
        first,
        read: 1,
        stop: None,
    }
}

impl<'a> Words<'a> {
    /// Keeps a fault, if it is the first.
    pub(crate) fn fail(&mut self, stop: Stop) {
        if self.stop.is_none() {
            self.stop = Some(stop);
        }
    }

    /// How many words are left.
    pub(crate) fn left(&self) -> usize {
        self.line.split(' ').count().saturating_sub(self.read)
    }

    /// Whether the words that were read are right.
    pub(crate) fn are_right(&self) -> bool {
        self.stop.is_none()
    }

    /// Whether all words were right, and none is left.
    pub(crate) fn end(&mut self) -> bool {
        if self.left() > 0 {
            self.fail(Stop::Line);
        }
        self.are_right()
    }

    /// The next word.
    pub(crate) fn word(&mut self) -> &'a str {
        let place = self.read;
        self.read = place.saturating_add(1);
        match self.line.split(' ').nth(place) {
            Some(word) => word,
            None => {
                self.fail(Stop::Line);
                ""
            }
        }
    }

    /// Reads once more from a word on that was read: after so many others.
    pub(crate) fn return_to(&mut self, read: usize) {
        self.read = read;
    }

    /// Whether the line's first word is one of these, which spaces part.
    pub(crate) fn begin_with(&self, choices: &str) -> bool {
        place_of(self.first, choices).is_some()
    }

    /// The place of the next word among these, which spaces part.
    pub(crate) fn one_of(&mut self, choices: &str) -> usize {
        match place_of(self.word(), choices) {
            Some(place) => place,
            None => {
                self.fail(Stop::Line);
                0
            }
        }
    }

    /// Whether this word is the next, which is read then.
    pub(crate) fn takes(&mut self, word: &str) -> bool {
        let place = self.read;
        let is_next = match self.line.split(' ').nth(place) {
            Some(next) => next == word,
            None => false,
        };
        if is_next {
            self.read = place.saturating_add(1);
        }
        is_next
    }

    /// A number.
    pub(crate) fn number(&mut self) -> u64 {
        let word = self.word();
        self.number_of(word)
    }

    /// The number that a text writes.
    pub(crate) fn number_of(&mut self, text: &str) -> u64 {
        match text.parse::<u64>() {
            Ok(number) => number,
            Err(_) => {
                self.fail(Stop::Line);
                0
            }
        }
    }

    /// How many, or a place.
    pub(crate) fn count(&mut self) -> usize {
        self.number() as usize
    }

    /// How many, or a word in place of that, which stands for so many; whether it is the word.
    pub(crate) fn count_or(&mut self, other: &str, stands_for: usize) -> (usize, bool) {
        let word = self.word();
        if word == other {
            return (stands_for, true);
        }
        (self.number_of(word) as usize, false)
    }

    /// A number below 65,536.
    pub(crate) fn small_number(&mut self) -> u16 {
        let number = self.number();
        self.limit(number, 65_536);
        (number % 65_536) as u16
    }

    /// A number below 256.
    pub(crate) fn octet(&mut self) -> u8 {
        let number = self.number();
        self.octet_of(number)
    }

    /// A number as an octet.
    fn octet_of(&mut self, number: u64) -> u8 {
        self.limit(number, 256);
        (number % 256) as u8
    }

    /// Keeps the fault of a number that is no less than a limit.
    fn limit(&mut self, number: u64, limit: u64) {
        if number >= limit {
            self.fail(Stop::Line);
        }
    }

    /// A quality of service: 0, 1 or 2.
    pub(crate) fn level(&mut self) -> QosLevel {
        match QosLevel::new(self.octet()) {
            Some(level) => level,
            None => {
                self.fail(Stop::Line);
                QosLevel::zero()
            }
        }
    }

    /// Two numbers with a dot between them.
    fn dotted(&mut self) -> (u64, u64) {
        let word = self.word();
        self.dotted_of(word)
    }

    /// Two numbers with a dot between them.
    fn dotted_of(&mut self, text: &str) -> (u64, u64) {
        match text.split_once('.') {
            Some((first, second)) => (self.number_of(first), self.number_of(second)),
            None => {
                self.fail(Stop::Line);
                (0, 0)
            }
        }
    }

    /// A clock and a gateway with a dot between them.
    pub(crate) fn clock(&mut self) -> (u64, u8) {
        let (clock, gateway) = self.dotted();
        (clock, self.octet_of(gateway))
    }

    /// An epoch and a gateway with a dot between them.
    pub(crate) fn stamp(&mut self) -> Stamp {
        let (epoch, gateway) = self.clock();
        Stamp { epoch, gateway }
    }

    /// The number of a message: its gateway and its number there, with a dot between them.
    pub(crate) fn message_number(&mut self) -> (u8, u64) {
        let word = self.word();
        self.message_number_of(word)
    }

    /// The number of a message that a text writes.
    pub(crate) fn message_number_of(&mut self, text: &str) -> (u8, u64) {
        let (origin, seq) = self.dotted_of(text);
        (self.octet_of(origin), seq)
    }

    /// The octets that a word is, none for `-`.
    pub(crate) fn octets(&mut self) -> &'a [u8] {
        octets_of(self.word())
    }

    /// So many octets, each the letter `a`.
    pub(crate) fn letters(&mut self) -> Vec<u8> {
        let size = self.count();
        match vec![in self.alloc; b'a'; size] {
            Ok(letters) => letters,
            Err(_) => self.no_octets(),
        }
    }

    /// No octets, as memory ran out.
    fn no_octets(&mut self) -> Vec<u8> {
        self.fail(Stop::Memory);
        Vec::new(self.alloc)
    }

    /// The octets that a word of hexadecimal digits writes.
    pub(crate) fn digits(&mut self) -> Vec<u8> {
        let word = self.word();
        self.digits_of(word)
    }

    /// The octets that hexadecimal digits write, two for each.
    pub(crate) fn digits_of(&mut self, text: &str) -> Vec<u8> {
        match hex::decode(self.alloc, text.as_bytes()) {
            Ok(octets) => octets,
            Err(hex::FromHexError::OutOfMemory) => self.no_octets(),
            Err(_) => {
                self.fail(Stop::Line);
                Vec::new(self.alloc)
            }
        }
    }

    /// Puts octets after others.
    pub(crate) fn extend(&mut self, octets: &mut Vec<u8>, more: &[u8]) {
        if octets.extend_from_slice(more).is_err() {
            self.fail(Stop::Memory);
        }
    }

    /// The client of this name, if all words were right, and none is left.
    pub(crate) fn last_client(&mut self, name: &[u8]) -> Option<ClientId> {
        if self.end() {
            self.client_of(name)
        } else {
            None
        }
    }

    /// The client of this name.
    pub(crate) fn client_of(&mut self, name: &[u8]) -> Option<ClientId> {
        match ClientId::new(self.alloc, name) {
            Ok(client) => Some(client),
            Err(fault) => {
                self.fail(Stop::from(fault));
                None
            }
        }
    }

    /// The topic of this name, if all words were right, and none is left.
    pub(crate) fn last_topic(&mut self, name: &[u8]) -> Option<TopicName> {
        if self.end() {
            self.topic_of(name)
        } else {
            None
        }
    }

    /// The topic of this name.
    pub(crate) fn topic_of(&mut self, name: &[u8]) -> Option<TopicName> {
        match TopicName::new(self.alloc, name) {
            Ok(topic) => Some(topic),
            Err(fault) => {
                self.fail(Stop::from(fault));
                None
            }
        }
    }

    /// The filter of these octets, if all words were right, and none is left.
    pub(crate) fn last_filter(&mut self, octets: &[u8]) -> Option<Filter> {
        if self.end() {
            self.filter_of(octets)
        } else {
            None
        }
    }

    /// The filter of these octets.
    pub(crate) fn filter_of(&mut self, octets: &[u8]) -> Option<Filter> {
        match Filter::new(self.alloc, octets) {
            Ok(filter) => Some(filter),
            Err(fault) => {
                self.fail(Stop::from(fault));
                None
            }
        }
    }

    /// The message of these octets.
    pub(crate) fn message_of(&mut self, body: &[u8]) -> Option<Message> {
        match Octets::from_slice(self.alloc, body) {
            Ok(octets) => self.message_in(octets),
            Err(_) => {
                self.fail(Stop::Memory);
                None
            }
        }
    }

    /// The message of these octets.
    fn message_in(&mut self, octets: Octets) -> Option<Message> {
        let message = Message::new(octets);
        if message.is_none() {
            self.fail(Stop::Message);
        }
        message
    }
}

/// The octets that a word is, none for `-`.
pub(crate) fn octets_of(word: &str) -> &[u8] {
    match word {
        "-" => &[],
        _ => word.as_bytes(),
    }
}

/// The place of a word among some, which spaces part.
fn place_of(word: &str, choices: &str) -> Option<usize> {
    let mut place = 0usize;
    for choice in choices.split(' ') {
        if choice == word {
            return Some(place);
        }
        place = place.saturating_add(1);
    }
    None
}
