//! What a row prints, how often memory was refused to it, and why it ends.
//!
//! No function of a row hands a fault on. It notes in `Said` what was refused or unwanted, goes on
//! with a plain value in place of what it could not have, as no octets, and the first reason to end
//! the row stays. From then on nothing counts that the row makes or prints: no call is made, and a
//! row that begins again begins with an empty page.

use crate::refusals::page::Page;
use std::alloc::Global;
use std::io::Write;

/// Why a row ends before its time.
#[derive(Clone, Copy)]
pub(crate) enum Stop {
    /// There is no such row.
    Row,
    /// A call answers something else than the row wants.
    Other,
    /// Memory was refused beside the call.
    Memory,
}

/// What is printed of a row, and how it went so far. Nothing here takes memory.
#[derive(Drop)]
pub(crate) struct Said {
    /// Where the row has its memory from.
    pub(crate) alloc: Global,
    /// What is printed.
    pub(crate) page: Page,
    /// How often the call answered Memory.
    pub(crate) refused: u32,
    /// How often it answered that its disk failed.
    pub(crate) disk: u32,
    /// How often memory was refused beside the call.
    pub(crate) beside: u32,
    /// Whether the call has answered as the row wants.
    is_answered: bool,
    /// Why the row ends.
    stop: Option<Stop>,
}

impl Said {
    /// Nothing is said yet.
    pub(crate) fn new(alloc: Global) -> Said {
        Said {
            alloc,
            page: Page::new(),
            refused: 0,
            disk: 0,
            beside: 0,
            is_answered: false,
            stop: None,
        }
    }

    /// Why the row ends, if it ends before its time.
    pub(crate) fn reason(&self) -> Option<Stop> {
        self.stop
    }

    /// Ends the row. The first reason stays.
    pub(crate) fn stop(&mut self, stop: Stop) {
        if self.stop.is_none() {
            self.stop = Some(stop);
        }
    }

    /// Ends the row if memory was refused beside its call.
    pub(crate) fn stop_if_short(&mut self, is_short: bool) {
        if is_short {
            self.stop(Stop::Memory);
        }
    }

    /// Whether memory was refused beside the call. The row is to begin again, and nothing is said.
    pub(crate) fn begin_again(&mut self) -> bool {
        let is_short = matches!(self.stop, Some(Stop::Memory));
        if is_short {
            self.beside = self.beside.saturating_add(1);
            self.page.clear();
            self.stop = None;
        }
        is_short
    }

    /// A call is to be made.
    pub(crate) fn ask(&mut self) {
        self.is_answered = false;
    }

    /// The call has answered as the row wants.
    pub(crate) fn answer(&mut self) {
        self.is_answered = true;
    }

    /// Whether the call has answered as the row wants.
    pub(crate) fn is_answered(&self) -> bool {
        self.is_answered
    }

    /// Whether the call is still to be made: it has not answered, and nothing ends the row.
    pub(crate) fn is_asking(&self) -> bool {
        !self.is_answered && self.stop.is_none()
    }

    /// The call answers a fault: Memory, or one that the row does not want.
    pub(crate) fn refuse(&mut self, is_memory: bool) {
        if is_memory {
            self.refused = self.refused.saturating_add(1);
        } else {
            self.stop(Stop::Other);
        }
    }

    /// The call answers that its disk failed, which was refused memory.
    pub(crate) fn starve(&mut self) {
        self.disk = self.disk.saturating_add(1);
    }

    /// Prints `changed`, unless all is as it must be.
    pub(crate) fn keep(&mut self, same: bool) {
        if !same {
            self.page.append(b"changed\n");
        }
    }

    /// Prints a word and a number.
    pub(crate) fn number(&mut self, word: &str, number: usize) {
        let _ = writeln!(&mut self.page, "{word} {number}");
    }

    /// Prints octets.
    pub(crate) fn octets(&mut self, octets: &[u8]) {
        self.page.hexadecimal(octets);
        self.page.push(b'\n');
    }
}
