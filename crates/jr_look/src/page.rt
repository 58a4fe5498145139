//! The page: what is printed.
//!
//! What prints does not fail. A page remembers instead that memory ran out; `main` asks it once, at
//! the end, and prints none of it then.

use std::alloc::Global;
use std::fmt::Display;
use std::str;

/// How many octets of a message are shown in words.
const SHOWN: usize = 64;

/// What is printed.
#[derive(Drop)]
pub(crate) struct Page {
    text: String,
    /// Whether the list that is printed has an item, which a comma parts from the next.
    has_item: bool,
    /// Whether memory ran out.
    is_short: bool,
}

impl Page {
    /// An empty page.
    pub(crate) fn new(alloc: Global) -> Page {
        Page {
            text: String::new(alloc),
            has_item: false,
            is_short: false,
        }
    }

    /// All that is printed; nothing if memory ran out.
    pub(crate) fn whole(&self) -> Option<&str> {
        if self.is_short {
            None
        } else {
            Some(self.text.as_str())
        }
    }

    /// Prints a text.
    pub(crate) fn text(&mut self, text: &str) {
        if self.text.push_str(text).is_err() {
            self.is_short = true;
        }
    }

    /// Prints a word after a text.
    pub(crate) fn word(&mut self, front: &str, word: &str) {
        self.text(front);
        self.text(word);
    }

    /// Prints a value after a text.
    pub(crate) fn value<D: Display + Drop>(&mut self, front: &str, value: D) {
        self.text(front);
        if self.text.write_fmt(value).is_err() {
            self.is_short = true;
        }
    }

    /// Prints a name after a text: in quotes if it is text too, else in hexadecimal digits.
    pub(crate) fn name(&mut self, front: &str, name: &[u8]) {
        self.text(front);
        match str::from_utf8(name) {
            Ok(name) => self.spelled(name),
            Err(_) => self.digits("0x", name),
        }
    }

    /// Prints a text in quotes.
    fn spelled(&mut self, text: &str) {
        if write!(self.text, "{text:?}").is_err() {
            self.is_short = true;
        }
    }

    /// Prints after a text how many octets a message has, and its first octets in hexadecimal
    /// digits.
    pub(crate) fn body(&mut self, front: &str, octets: &[u8]) {
        self.text(front);
        if octets.is_empty() {
            self.text("no octets");
        } else {
            self.value("octets ", octets.len());
            self.beginning(octets);
        }
    }

    /// Prints the first octets of a message in hexadecimal digits, and what stands for the others.
    fn beginning(&mut self, octets: &[u8]) {
        if octets.len() <= SHOWN {
            self.digits(": ", octets);
        } else {
            let (front, _) = octets.split_at(SHOWN);
            self.digits(": ", front);
            self.text("..");
        }
    }

    /// Prints octets in hexadecimal digits and in quotes after a text.
    pub(crate) fn quoted(&mut self, front: &str, octets: &[u8]) {
        self.text(front);
        self.digits("\"", octets);
        self.text("\"");
    }

    /// Prints octets in hexadecimal digits after a text.
    fn digits(&mut self, front: &str, octets: &[u8]) {
        self.text(front);
        for octet in octets {
            self.octet(*octet);
        }
    }

    /// Prints an octet in hexadecimal digits.
    fn octet(&mut self, octet: u8) {
        if write!(self.text, "{octet:02x}").is_err() {
            self.is_short = true;
        }
    }

    /// Begins a list with a text.
    pub(crate) fn begin(&mut self, text: &str) {
        self.text(text);
        self.has_item = false;
    }

    /// Begins an item of a list with a text: after a comma, but for the first.
    pub(crate) fn item(&mut self, text: &str) {
        if self.has_item {
            self.text(",");
        }
        self.has_item = true;
        self.text(text);
    }

    /// Ends a list, which may be part of an item of another one.
    pub(crate) fn end(&mut self) {
        self.text("]");
        self.has_item = true;
    }
}
