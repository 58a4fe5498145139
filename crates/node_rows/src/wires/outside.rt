//! Where replies go, and who is told of them: each thing is noted.

use gw_wire::{Gate, Post, Unsent};
use octets::Octets;
use sn_local::Addr;
use std::alloc::Global;
use std::sync::atomic::{AtomicBool, Ordering};
use std::sync::{Mutex, Wait};
use std::thread;

/// How often a reply that is held looks whether it may go.
const TURNS: u64 = 10_000_000;

/// One thing that was asked of the outside.
#[derive(Drop)]
pub(crate) enum Note {
    /// The replies to the datagram of this number are about to be sent.
    Before(u64),
    /// A datagram was sent.
    Sent {
        /// Where it went.
        to: Addr,
        /// Its octets.
        bytes: Octets,
    },
    /// The replies to the datagram of this number were sent.
    Behind(u64),
    /// They were held too long.
    GaveUp(u64),
}

/// Which replies are held until which others are out, by the numbers of their datagrams.
#[derive(Clone, Copy)]
pub(crate) struct Hold {
    /// These are held.
    pub(crate) first: u64,
    /// Until these are out.
    pub(crate) second: u64,
}

/// A post and a gate.
#[derive(Drop)]
pub(crate) struct Outside<'a, T: Wait> {
    rt: &'a T,
    alloc: Global,
    /// Each send fails.
    fails: bool,
    hold: Option<Hold>,
    is_out: AtomicBool,
    /// Memory ran out, so that a note is missing.
    is_short: AtomicBool,
    notes: Mutex<Vec<Note>>,
}

impl<'a, T: Wait> Outside<'a, T> {
    /// A post and a gate that were asked nothing.
    pub(crate) fn new(rt: &'a T, alloc: Global, fails: bool, hold: Option<Hold>) -> Outside<'a, T> {
        Outside {
            rt,
            alloc,
            fails,
            hold,
            is_out: AtomicBool::new(false),
            is_short: AtomicBool::new(false),
            notes: Mutex::new(Vec::new(alloc)),
        }
    }

    /// Whether memory ran out, so that a note is missing.
    pub(crate) fn is_short(&self) -> bool {
        self.is_short.load(Ordering::SeqCst)
    }

    /// What they were asked, in this order.
    pub(crate) fn into_notes(self) -> Vec<Note> {
        self.notes.into_inner()
    }

    /// Notes something.
    fn note(&self, note: Note) {
        if self.notes.lock(self.rt).push(note).is_err() {
            self.is_short.store(true, Ordering::SeqCst);
        }
    }

    /// Waits until the others are out. Says whether they are.
    fn comes_out(&self) -> bool {
        for _ in 0..TURNS {
            if self.is_out.load(Ordering::SeqCst) {
                return true;
            }
            thread::yield_now();
        }
        false
    }
}

impl<'a, T: Wait> Post for Outside<'a, T> {
    fn send(&self, to: Addr, bytes: &[u8]) -> Result<(), Unsent> {
        if self.fails {
            return Err(Unsent);
        }
        let Ok(bytes) = Octets::from_slice(self.alloc, bytes) else {
            self.is_short.store(true, Ordering::SeqCst);
            return Err(Unsent);
        };
        self.note(Note::Sent { to, bytes });
        Ok(())
    }
}

impl<'a, T: Wait> Gate for Outside<'a, T> {
    fn before_send(&self, number: u64) {
        self.note(Note::Before(number));
        if let Some(hold) = self.hold {
            if hold.first == number && !self.comes_out() {
                self.note(Note::GaveUp(number));
            }
        }
    }

    fn sent(&self, number: u64) {
        self.note(Note::Behind(number));
        if let Some(hold) = self.hold {
            if hold.second == number {
                self.is_out.store(true, Ordering::SeqCst);
            }
        }
    }
}
