//! Journals on a disk in memory.

use crate::refusals::calls::{Calls, Made, Shown, beside, is_word, octets_or_none};
use crate::refusals::deltas::{FIRST, delta};
use crate::refusals::said::{Said, Stop};
use jr_journal::{Disk, Journal, JournalFault, MemoryDisk, Records, Slot};
use rep_ops::Delta;
use std::mem;

/// A disk on which a journal is opened.
#[derive(Drop)]
pub(crate) struct Disks {
    disk: MemoryDisk,
}

impl Made for Disks {
    fn make(said: &mut Said, _call: &str, is_second: bool) -> Option<Disks> {
        let disk = if is_second {
            journal(said, true)?.into_disk()
        } else {
            MemoryDisk::new(said.alloc)
        };
        Some(Disks { disk })
    }
}

impl Calls for Disks {
    fn call_once(&mut self, said: &mut Said, _call: &str) {
        let disk = mem::replace(&mut self.disk, MemoryDisk::new(said.alloc));
        match Journal::open(said.alloc, disk, 1) {
            Ok((journal, deltas)) => {
                deltas.show(said);
                show(said, journal);
            }
            Err((disk, fault)) => {
                self.disk = disk;
                look_closed(said, self.disk.starved(), &fault);
            }
        }
    }
}

/// Looks at a refused opening.
fn look_closed(said: &mut Said, is_starved: bool, fault: &JournalFault) {
    match fault {
        JournalFault::Disk => {
            said.keep(is_starved);
            said.starve();
        }
        fault => said.refuse(matches!(fault, JournalFault::Memory)),
    }
}

/// Records that are to be written at once, and the delta of one more.
pub(crate) struct Batches {
    records: Records,
    delta: Delta,
}

impl Drop for Batches {
    fn drop(self) {
        let Batches { records, delta } = self;
        drop(records);
        drop(delta);
    }
}

impl Made for Batches {
    fn make(said: &mut Said, _call: &str, _is_second: bool) -> Option<Batches> {
        Some(Batches {
            records: records(said),
            delta: delta(said, &FIRST),
        })
    }
}

impl Calls for Batches {
    fn call_once(&mut self, said: &mut Said, _call: &str) {
        let stood = self.records.size();
        match self.records.push(said.alloc, &self.delta) {
            Ok(()) => {
                said.number("octets", self.records.size());
                said.answer();
            }
            Err(_) => {
                said.keep(self.records.size() == stood);
                said.refuse(true);
            }
        }
    }
}

/// A journal, and what is appended to it or is its new base. After a call it is closed.
pub(crate) struct Journals {
    journal: Option<Journal<MemoryDisk>>,
    delta: Delta,
    base: Vec<Delta>,
    records: Records,
}

impl Drop for Journals {
    fn drop(self) {
        let Journals {
            journal,
            delta,
            base,
            records,
        } = self;
        drop(journal);
        drop(delta);
        drop(base);
        drop(records);
    }
}

impl Made for Journals {
    fn make(said: &mut Said, call: &str, _is_second: bool) -> Option<Journals> {
        let journal = journal(said, !is_word(call, "Journal::append"))?;
        Some(Journals {
            journal: Some(journal),
            delta: delta(said, &FIRST),
            base: base(said),
            records: records(said),
        })
    }
}

impl Calls for Journals {
    fn call_once(&mut self, said: &mut Said, call: &str) {
        if let Some(mut journal) = self.journal.take() {
            match self.called(said, &mut journal, call) {
                Ok(()) => show(said, journal),
                Err(fault) => {
                    look(said, &mut journal, &fault);
                    self.journal = Some(journal);
                }
            }
        }
    }
}

impl Journals {
    /// Appends a record or several, or compacts to one, or opens the journal again and prints how
    /// many records it has.
    fn called(
        &self,
        said: &mut Said,
        journal: &mut Journal<MemoryDisk>,
        call: &str,
    ) -> Result<(), JournalFault> {
        match call {
            "Journal::append" => journal.append(said.alloc, &self.delta),
            "Journal::append_all" => journal.append_all(&self.records),
            "Journal::compact" => journal.compact(said.alloc, self.base.as_slice()),
            _ => {
                let read = journal.reopen(said.alloc)?;
                said.number("records", read.len());
                Ok(())
            }
        }
    }
}

/// Looks at what a refusal must leave: a journal halts if its disk fails, and only then. It is
/// opened again.
fn look(said: &mut Said, journal: &mut Journal<MemoryDisk>, fault: &JournalFault) {
    match fault {
        JournalFault::Disk => {
            said.keep(journal.starved() && journal.is_halted());
            said.starve();
            let opened = journal.reopen(said.alloc);
            said.stop_if_short(opened.is_err());
        }
        fault => {
            said.keep(!journal.is_halted());
            said.refuse(matches!(fault, JournalFault::Memory));
        }
    }
}

/// A journal with one record, or without.
fn journal(said: &mut Said, is_recorded: bool) -> Option<Journal<MemoryDisk>> {
    let opened = Journal::open(said.alloc, MemoryDisk::new(said.alloc), 1);
    let (mut journal, _) = beside(said, opened)?;
    if is_recorded {
        let delta = delta(said, &FIRST);
        let appended = journal.append(said.alloc, &delta);
        said.stop_if_short(appended.is_err());
    }
    Some(journal)
}

/// The first delta.
fn base(said: &mut Said) -> Vec<Delta> {
    let mut deltas = Vec::new(said.alloc);
    let delta = delta(said, &FIRST);
    let is_short = deltas.push(delta).is_err();
    said.stop_if_short(is_short);
    deltas
}

/// Two records of the first delta.
fn records(said: &mut Said) -> Records {
    let mut records = Records::empty(said.alloc);
    let delta = delta(said, &FIRST);
    for _ in 0..2 {
        let is_short = records.push(said.alloc, &delta).is_err();
        said.stop_if_short(is_short);
    }
    records
}

/// Prints the octets of both slots of a journal that was called.
fn show(said: &mut Said, journal: Journal<MemoryDisk>) {
    let mut disk = journal.into_disk();
    show_slot(said, &mut disk, Slot::First);
    show_slot(said, &mut disk, Slot::Second);
    said.answer();
}

/// Prints the octets of a slot.
fn show_slot(said: &mut Said, disk: &mut MemoryDisk, slot: Slot) {
    let size = disk.len(slot).unwrap_or(0);
    let made = Vec::from_elem(said.alloc, 0u8, size);
    let mut octets = octets_or_none(said, made);
    if disk.read_at(slot, 0, &mut octets).is_err() {
        said.stop(Stop::Other);
    }
    said.octets(octets.as_slice());
}
