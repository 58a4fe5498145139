//! The page: all that the program prints, and why it prints no more.
//!
//! A function that plays a line returns nothing. What it prints goes to the page, and so does the
//! reason if the line is none of the language or memory runs out. `main.rt` looks at the page after
//! each line, and writes it at the end if nothing but lines were refused.

use crate::stop::Stop;
use std::alloc::Global;
use std::fmt::Display;

/// All that the program prints, and why it prints no more.
pub(crate) struct Page {
    host: HostRuntime,
    alloc: Global,
    printed: String,
    /// The first reason.
    reason: Option<Stop>,
}

impl Drop for Page {
    fn drop(self) {
        let Page {
            host,
            alloc: _,
            printed,
            reason: _,
        } = self;
        drop(host);
        drop(printed);
    }
}

impl Page {
    /// An empty page.
    pub(crate) fn new(host: HostRuntime) -> Page {
        let alloc = host.alloc();
        Page {
            host,
            alloc,
            printed: String::new(alloc),
            reason: None,
        }
    }

    /// The machine.
    pub(crate) fn host(&self) -> HostRuntime {
        self.host
    }

    /// Where memory comes from.
    pub(crate) fn alloc(&self) -> Global {
        self.alloc
    }

    /// All that is printed.
    pub(crate) fn printed(&self) -> &str {
        self.printed.as_str()
    }

    /// Why no more is printed, if there is a reason.
    pub(crate) fn reason(&self) -> Option<Stop> {
        self.reason
    }

    /// Notes a reason. The first one stays.
    pub(crate) fn stop(&mut self, reason: Stop) {
        if self.reason.is_none() {
            self.reason = Some(reason);
        }
    }

    /// Notes that memory ran out, if it did.
    pub(crate) fn stop_if_short(&mut self, is_short: bool) {
        if is_short {
            self.stop(Stop::Memory);
        }
    }

    /// Whether the line that was played is none of the language. The next one is played.
    pub(crate) fn forgive(&mut self) -> bool {
        let is_refused = matches!(self.reason, Some(Stop::Line));
        if is_refused {
            self.reason = None;
        }
        is_refused
    }

    /// Prints a text.
    pub(crate) fn text(&mut self, text: &str) {
        let is_short = self.printed.push_str(text).is_err();
        self.stop_if_short(is_short);
    }

    /// Prints a text, and something that prints itself after it.
    pub(crate) fn shown<D: Display>(&mut self, text: &str, shown: &D) {
        self.text(text);
        let is_short = write!(self.printed, "{shown}").is_err();
        self.stop_if_short(is_short);
    }

    /// Prints a text, and a number after it.
    pub(crate) fn number(&mut self, text: &str, number: u64) {
        self.shown(text, &number);
    }

    /// The same with a length.
    pub(crate) fn length(&mut self, text: &str, length: usize) {
        self.shown(text, &length);
    }

    /// Prints a text, and octets after it, each in two hexadecimal digits; `-` for none.
    pub(crate) fn octets(&mut self, text: &str, octets: &[u8]) {
        self.text(text);
        if octets.is_empty() {
            self.text("-");
        }
        for octet in octets {
            self.octet(*octet);
        }
    }

    /// Prints an octet in two hexadecimal digits.
    fn octet(&mut self, octet: u8) {
        let is_short = write!(self.printed, "{octet:02x}").is_err();
        self.stop_if_short(is_short);
    }

    /// Prints a text, and a checksum after it in sixteen hexadecimal digits.
    pub(crate) fn checksum(&mut self, text: &str, sum: u64) {
        self.text(text);
        let is_short = write!(self.printed, "{sum:016x}").is_err();
        self.stop_if_short(is_short);
    }

    /// Ends the line.
    pub(crate) fn end(&mut self) {
        self.text("\n");
    }

    /// Puts octets after those of a list.
    pub(crate) fn add(&mut self, octets: &mut Vec<u8>, more: &[u8]) {
        let is_short = octets.extend_from_slice(more).is_err();
        self.stop_if_short(is_short);
    }
}
