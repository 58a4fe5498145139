//! The page: what is printed, line by line.
//!
//! What prints does not fail. A page remembers instead that memory ran out; `main` asks it once,
//! after the last line, and prints none of it then.

use crate::sets::stop::Stop;
use std::alloc::Global;
use std::fmt::Display;
use std::str;

/// What is printed.
#[derive(Drop)]
pub(crate) struct Page {
    pub(crate) alloc: Global,
    text: String,
    /// Whether the line has a word, which a space parts from the next.
    is_begun: bool,
    /// Whether memory ran out, here or where something to be printed was made.
    is_short: bool,
}

impl Page {
    /// An empty page.
    pub(crate) fn new(alloc: Global) -> Page {
        Page {
            alloc,
            text: String::new(alloc),
            is_begun: false,
            is_short: false,
        }
    }

    /// The page is empty, and has forgotten whether memory ran out.
    pub(crate) fn clear(&mut self) {
        self.text.clear();
        self.is_begun = false;
        self.is_short = false;
    }

    /// Remembers that memory ran out.
    pub(crate) fn run_out(&mut self) {
        self.is_short = true;
    }

    /// Remembers that memory ran out, if another page does.
    pub(crate) fn keep_fault(&mut self, other: &Page) {
        if other.is_short {
            self.is_short = true;
        }
    }

    /// Whether memory ran out.
    pub(crate) fn is_short(&self) -> bool {
        self.is_short
    }

    /// All that is printed.
    pub(crate) fn as_str(&self) -> &str {
        self.text.as_str()
    }

    /// Prints a text as it stands, with no space in front.
    pub(crate) fn text(&mut self, text: &str) {
        if self.text.push_str(text).is_err() {
            self.is_short = true;
        }
    }

    /// Prints a value as it stands, with no space in front.
    pub(crate) fn value<D: Display + Drop>(&mut self, value: D) {
        if self.text.write_fmt(value).is_err() {
            self.is_short = true;
        }
    }

    /// Prints a word or a number: after a space, but where a line begins.
    pub(crate) fn word<D: Display + Drop>(&mut self, word: D) {
        self.part();
        self.value(word);
    }

    /// Prints the space in front of a word.
    fn part(&mut self) {
        if self.is_begun {
            self.text(" ");
        }
        self.is_begun = true;
    }

    /// Prints one of two words.
    pub(crate) fn either(&mut self, is_first: bool, first: &str, second: &str) {
        self.part();
        if is_first {
            self.text(first);
        } else {
            self.text(second);
        }
    }

    /// Prints two numbers with a dot between them.
    pub(crate) fn dotted(&mut self, first: u64, second: u64) {
        self.word(first);
        self.text(".");
        self.value(second);
    }

    /// Prints octets as a word: `-` for none, hexadecimal digits after `0x` where they are no text.
    pub(crate) fn octets(&mut self, octets: &[u8]) {
        self.part();
        match str::from_utf8(octets) {
            Ok("") => self.text("-"),
            Ok(text) => self.text(text),
            Err(_) => {
                self.text("0x");
                self.hexadecimal(octets);
            }
        }
    }

    /// Prints octets in hexadecimal digits as a word, `-` for none.
    pub(crate) fn digits(&mut self, octets: &[u8]) {
        self.part();
        if octets.is_empty() {
            self.text("-");
        }
        self.hexadecimal(octets);
    }

    /// Prints octets in hexadecimal digits, with no space in front.
    pub(crate) fn hexadecimal(&mut self, octets: &[u8]) {
        match hex::encode(self.alloc, octets) {
            Ok(digits) => {
                self.text(digits.as_str());
                drop(digits);
            }
            Err(_) => self.is_short = true,
        }
    }

    /// Ends the line.
    pub(crate) fn end(&mut self) {
        self.text("\n");
        self.is_begun = false;
    }

    /// Prints a line.
    pub(crate) fn line(&mut self, text: &str) {
        self.text(text);
        self.end();
    }

    /// Prints some words, and a word or a number.
    pub(crate) fn labelled<D: Display + Drop>(&mut self, what: &str, value: D) {
        self.word(what);
        self.word(value);
    }

    /// Prints a line of some words and a number.
    pub(crate) fn counted<D: Display + Drop>(&mut self, what: &str, number: D) {
        self.labelled(what, number);
        self.end();
    }

    /// Prints a line of some words and octets as a word.
    pub(crate) fn named(&mut self, what: &str, name: &[u8]) {
        self.word(what);
        self.octets(name);
        self.end();
    }

    /// Prints that something is refused, and why.
    pub(crate) fn refused(&mut self, why: &str) {
        self.labelled("refused", why);
        self.end();
    }

    /// Prints a line that is not played, and why; if memory ran out, remembers that.
    pub(crate) fn stopped(&mut self, stop: Stop, line: &str) {
        match stop {
            Stop::Memory => self.run_out(),
            Stop::Line | Stop::Message => {
                self.text(stop.reason());
                self.text(": ");
                self.line(line);
            }
        }
    }
}
