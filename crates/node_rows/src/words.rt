//! The words of a line, which are read one after the other.
//!
//! A function that plays a line reads all words that it needs, in a straight line, and asks
//! `Words::end` once before it does anything. Where a word is missing or wrong, reading gives a
//! plain value, as 0, and the cursor keeps the first fault. So a line that is wrong does nothing.

use crate::calls::{read_client, read_delta, read_digest};
use crate::names::Names;
use crate::page::Page;
use crate::stop::{Stop, misread};
use rep_digest::Digest;
use rep_ops::{ClientId, Delta};
use sn_local::Addr;
use std::alloc::Global;

/// The words of a line that are left, the names for octets, and what was wrong so far.
#[derive(Drop)]
pub(crate) struct Words<'a, 'n> {
    alloc: Global,
    names: &'n Names,
    rest: &'a [&'a str],
    fault: Option<Stop>,
}

impl<'a, 'n> Words<'a, 'n> {
    /// These words, of which none is read.
    pub(crate) fn new(alloc: Global, names: &'n Names, rest: &'a [&'a str]) -> Words<'a, 'n> {
        Words {
            alloc,
            names,
            rest,
            fault: None,
        }
    }

    /// Where memory comes from.
    pub(crate) fn alloc(&self) -> Global {
        self.alloc
    }

    /// Notes a fault. The first one stays.
    pub(crate) fn fail(&mut self, fault: Stop) {
        if self.fault.is_none() {
            self.fault = Some(fault);
        }
    }

    /// Notes that the line is none of the language, unless this holds.
    pub(crate) fn require(&mut self, holds: bool) {
        if !holds {
            self.fail(Stop::Line);
        }
    }

    /// Notes that memory ran out, if it did.
    pub(crate) fn fail_if_short(&mut self, is_short: bool) {
        if is_short {
            self.fail(Stop::Memory);
        }
    }

    /// Whether all that was read is right and no word is left. If not, the page has the reason.
    pub(crate) fn end(&mut self, page: &mut Page) -> bool {
        self.require(self.rest.is_empty());
        match self.fault {
            None => true,
            Some(fault) => {
                page.stop(fault);
                false
            }
        }
    }

    /// Whether a word is left.
    pub(crate) fn has_more(&self) -> bool {
        !self.rest.is_empty()
    }

    /// The next word.
    pub(crate) fn word(&mut self) -> &'a str {
        match self.rest {
            [word, rest @ ..] => {
                self.rest = rest;
                word
            }
            [] => {
                self.fail(Stop::Line);
                ""
            }
        }
    }

    /// Takes the next word if it is this one.
    pub(crate) fn takes(&mut self, wanted: &str) -> bool {
        match self.rest {
            [word, rest @ ..] if *word == wanted => {
                self.rest = rest;
                true
            }
            _ => false,
        }
    }

    /// A number below 65,536.
    pub(crate) fn number(&mut self) -> u16 {
        match self.word().parse::<u16>() {
            Ok(number) => number,
            Err(_) => {
                self.fail(Stop::Line);
                0
            }
        }
    }

    /// A number below 4,294,967,296.
    pub(crate) fn large(&mut self) -> u32 {
        match self.word().parse::<u32>() {
            Ok(number) => number,
            Err(_) => {
                self.fail(Stop::Line);
                0
            }
        }
    }

    /// A number below 2^64.
    pub(crate) fn whole(&mut self) -> u64 {
        match self.word().parse::<u64>() {
            Ok(number) => number,
            Err(_) => {
                self.fail(Stop::Line);
                0
            }
        }
    }

    /// The octets of the next word, which is hexadecimal digits.
    pub(crate) fn digits(&mut self) -> Vec<u8> {
        let word = self.word();
        let mut octets = Vec::new(self.alloc);
        self.add_digits(&mut octets, word);
        octets
    }

    /// A number below 65,536 that counts something.
    pub(crate) fn count(&mut self) -> usize {
        usize::from(self.number())
    }

    /// A moment.
    pub(crate) fn moment(&mut self) -> u64 {
        u64::from(self.number())
    }

    /// A port of host 0.
    pub(crate) fn address(&mut self) -> Addr {
        Addr {
            host: 0,
            port: self.number(),
        }
    }

    /// The numbers of all words that are left.
    pub(crate) fn counts(&mut self) -> Vec<usize> {
        let mut counts = Vec::new(self.alloc);
        for _ in 0..self.rest.len() {
            let count = self.count();
            let is_short = counts.push(count).is_err();
            self.fail_if_short(is_short);
        }
        counts
    }

    /// The number of a gateway.
    pub(crate) fn gateway(&mut self) -> u8 {
        let number = self.number();
        self.require(number < 256);
        (number % 256) as u8
    }

    /// A client: a word, or octets after `0x`.
    pub(crate) fn client(&mut self) -> Option<ClientId> {
        let word = self.word();
        match word.strip_prefix("0x") {
            None => self.named(word.as_bytes()),
            Some(digits) => self.spelled(digits),
        }
    }

    /// The client whose name hexadecimal digits write.
    fn spelled(&mut self, digits: &str) -> Option<ClientId> {
        let mut name = Vec::new(self.alloc);
        self.add_digits(&mut name, digits);
        let client = self.named(&name);
        drop(name);
        client
    }

    /// The client of this name.
    fn named(&mut self, name: &[u8]) -> Option<ClientId> {
        match read_client(self.alloc, name) {
            Ok(client) => Some(client),
            Err(fault) => {
                self.fail(misread(&fault));
                None
            }
        }
    }

    /// The octets of all words that are left.
    pub(crate) fn octets(&mut self) -> Vec<u8> {
        self.repeated(1)
    }

    /// The octets of all words that are left, so many times.
    pub(crate) fn repeated(&mut self, times: u16) -> Vec<u8> {
        let mut octets = Vec::new(self.alloc);
        for time in 0..times {
            self.add_all(&mut octets, time);
        }
        self.rest = &[];
        octets
    }

    /// Puts the octets of all words that are left after those that are there, for this time.
    fn add_all(&mut self, octets: &mut Vec<u8>, time: u16) {
        for word in self.rest {
            self.add_word(octets, word, time);
        }
    }

    /// Puts the octets of a word after those that are there.
    fn add_word(&mut self, octets: &mut Vec<u8>, word: &str, time: u16) {
        match word {
            "-" => {}
            "%" => self.add(octets, &time.to_be_bytes()),
            "%%" => self.add_written(octets, time),
            word => self.add_spelled(octets, word),
        }
    }

    /// Puts a number, written in four hexadecimal digits, after the octets that are there.
    fn add_written(&mut self, octets: &mut Vec<u8>, number: u16) {
        match format!(in self.alloc; "{number:04x}") {
            Ok(digits) => {
                self.add(octets, digits.as_bytes());
                drop(digits);
            }
            Err(_) => self.fail(Stop::Memory),
        }
    }

    /// Puts the octets of a name or of digits after those that are there.
    fn add_spelled(&mut self, octets: &mut Vec<u8>, word: &str) {
        match self.names.found(word) {
            Some(named) => self.add(octets, named),
            None => self.add_digits(octets, word),
        }
    }

    /// Puts the octets that hexadecimal digits write after those that are there.
    fn add_digits(&mut self, octets: &mut Vec<u8>, digits: &str) {
        match hex::decode(self.alloc, digits.as_bytes()) {
            Ok(written) => {
                self.add(octets, &written);
                drop(written);
            }
            Err(hex::FromHexError::OutOfMemory) => self.fail(Stop::Memory),
            Err(_) => self.fail(Stop::Line),
        }
    }

    /// Puts octets after those that are there.
    fn add(&mut self, octets: &mut Vec<u8>, more: &[u8]) {
        let is_short = octets.extend_from_slice(more).is_err();
        self.fail_if_short(is_short);
    }

    /// The delta that the words that are left spell; an empty one if they spell none.
    pub(crate) fn delta(&mut self) -> Delta {
        let octets = self.octets();
        let read = read_delta(self.alloc, &octets);
        drop(octets);
        match read {
            Ok(delta) => delta,
            Err(fault) => {
                self.fail(misread(&fault));
                Delta::empty(self.alloc)
            }
        }
    }

    /// The digest that the words that are left spell.
    pub(crate) fn digest(&mut self) -> Option<Digest> {
        let octets = self.octets();
        let read = read_digest(self.alloc, &octets);
        drop(octets);
        match read {
            Ok(digest) => Some(digest),
            Err(fault) => {
                self.fail(misread(&fault));
                None
            }
        }
    }
}
