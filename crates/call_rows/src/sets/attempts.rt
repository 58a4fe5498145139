//! Lines that try a journal at one place after the other, each on a disk of its own.

use crate::sets::calls;
use crate::sets::journals::{Held, Store, both, octets_of, put, records_of};
use crate::sets::page::Page;
use crate::sets::retries::call_all;
use crate::sets::runs::Runs;
use crate::sets::values::{print_journal_fault, slot, slot_word};
use crate::sets::words::Words;
use jr_journal::{Journal, JournalFault, MemoryDisk, OnceCall, OnceDisk, Records, Slot};
use rep_ops::Delta;

/// What is tried at each place.
#[derive(Clone, Copy)]
pub(crate) enum Trial<'a> {
    /// An append of a record that stops after so many octets.
    Append(&'a Delta),
    /// A write of several records that stops after so many octets.
    Write(&'a Records),
    /// A compaction that stops after so many octets.
    Compaction(&'a [Delta]),
    /// The calls of a journal, of which one fails after so many of its kind.
    Calls(OnceCall, &'a [Delta]),
}

/// A disk with these octets in its slots, synced.
fn disk_with(page: &mut Page, held: &Held) -> MemoryDisk {
    let mut disk = MemoryDisk::new(page.alloc);
    put(page, &mut disk, Slot::First, &held.first);
    put(page, &mut disk, Slot::Second, &held.second);
    disk
}

/// The journal on a disk, and how many records it has; prints why there is none.
fn opened(said: &mut Page, disk: MemoryDisk, gateway: u8) -> Option<(Journal<MemoryDisk>, usize)> {
    match calls::open(said.alloc, disk, gateway) {
        Ok((journal, deltas)) => {
            let count = deltas.len();
            drop(deltas);
            Some((journal, count))
        }
        Err((disk, fault)) => {
            print_refusal(said, fault, disk.starved());
            drop(disk);
            None
        }
    }
}

/// How many records an opening reads, and in which slot, or why none.
pub(crate) fn opening(said: &mut Page, disk: MemoryDisk, gateway: u8) {
    if let Some((journal, count)) = opened(said, disk, gateway) {
        print_read(said, count, journal.slot());
        drop(journal);
    }
}

/// A number of records in a slot.
fn print_read(said: &mut Page, count: usize, slot: Slot) {
    said.labelled("records", count);
    said.labelled("in", slot_word(slot));
}

/// A refusal.
fn print_refusal(said: &mut Page, fault: JournalFault, is_starved: bool) {
    said.word("refused");
    print_journal_fault(said, fault, is_starved);
}

/// How many records an opening reads, and what their slot holds after it.
fn opening_whole(said: &mut Page, disk: MemoryDisk, gateway: u8) {
    if let Some((journal, count)) = opened(said, disk, gateway) {
        let slot = journal.slot();
        print_read(said, count, slot);
        print_held(said, journal.into_disk(), slot);
    }
}

/// What a slot holds.
fn print_held(said: &mut Page, mut disk: MemoryDisk, slot: Slot) {
    let octets = octets_of(said, &mut disk, slot);
    said.text(",");
    said.digits(&octets);
    drop(octets);
    drop(disk);
}

/// `openings GATEWAY SLOT`: an opening where each beginning of the octets stands after what the
/// slot has.
pub(crate) fn openings(page: &mut Page, store: &mut Store, octets: &[u8], words: &mut Words<'_>) {
    let (gateway, slot) = (words.octet(), slot(words));
    let held = both(page, store, words);
    if words.end() {
        open_each(page, &held, gateway, slot, octets);
    }
    drop(held);
}

/// The openings after each beginning of the octets.
fn open_each(page: &mut Page, held: &Held, gateway: u8, slot: Slot, octets: &[u8]) {
    let mut runs = Runs::new(page.alloc);
    for end in 0..=octets.len() {
        opening_behind(&mut runs.answers.said, held, gateway, slot, &octets[..end]);
        runs.add(page, end);
    }
    runs.finish(page);
    drop(runs);
}

/// An opening where octets stand after what the slot has.
fn opening_behind(said: &mut Page, held: &Held, gateway: u8, slot: Slot, octets: &[u8]) {
    let mut disk = disk_with(said, held);
    put(said, &mut disk, slot, octets);
    opening_whole(said, disk, gateway);
}

/// `appends GATEWAY COUNT`: a record of the operations whose append stops after each number of
/// octets up to this one; then a crash that leaves all that went out, and an opening.
pub(crate) fn appends(page: &mut Page, store: &mut Store, words: &mut Words<'_>, delta: &Delta) {
    let gateway = words.octet();
    tried(page, store, words, gateway, &Trial::Append(delta));
}

/// `writes GATEWAY COUNT`: the same of the operations, each a record, that are written at once.
pub(crate) fn writes(page: &mut Page, store: &mut Store, words: &mut Words<'_>, base: &[Delta]) {
    let gateway = words.octet();
    let records = records_of(page, base);
    tried(page, store, words, gateway, &Trial::Write(&records));
    drop(records);
}

/// `compactions GATEWAY COUNT`: the same of compactions to the operations.
pub(crate) fn compactions(
    page: &mut Page,
    store: &mut Store,
    words: &mut Words<'_>,
    base: &[Delta],
) {
    let gateway = words.octet();
    tried(page, store, words, gateway, &Trial::Compaction(base));
}

/// What a trial gives at each place up to the last, which the next word is, each on a disk as the
/// row's.
pub(crate) fn tried(
    page: &mut Page,
    store: &mut Store,
    words: &mut Words<'_>,
    gateway: u8,
    trial: &Trial<'_>,
) {
    let most = words.count();
    let held = both(page, store, words);
    if words.end() {
        try_each(page, &held, gateway, most, trial);
    }
    drop(held);
}

/// What a trial gives at each place.
fn try_each(page: &mut Page, held: &Held, gateway: u8, most: usize, trial: &Trial<'_>) {
    let mut runs = Runs::new(page.alloc);
    for far in 0..=most {
        let disk = disk_with(page, held);
        tried_at(&mut runs.answers.said, disk, gateway, far, trial);
        runs.add(page, far);
    }
    runs.finish(page);
    drop(runs);
}

/// What a trial gives at a place.
fn tried_at(said: &mut Page, disk: MemoryDisk, gateway: u8, far: usize, trial: &Trial<'_>) {
    match trial {
        Trial::Append(delta) => append_on(said, stopped(disk, far), gateway, delta),
        Trial::Write(records) => write_on(said, stopped(disk, far), gateway, records),
        Trial::Compaction(base) => compact_on(said, stopped(disk, far), gateway, base),
        Trial::Calls(call, base) => {
            call_all(said, OnceDisk::over(disk, *call, far), gateway, base);
        }
    }
}

/// A disk whose next append stops after so many octets.
fn stopped(mut disk: MemoryDisk, far: usize) -> MemoryDisk {
    disk.fail_next(far, false);
    disk
}

/// One such append.
fn append_on(said: &mut Page, disk: MemoryDisk, gateway: u8, delta: &Delta) {
    if let Some((mut journal, _count)) = opened(said, disk, gateway) {
        let outcome = calls::append(said.alloc, &mut journal, delta);
        behind_crash(said, journal.into_disk(), gateway, outcome);
    }
}

/// One such write of several records.
fn write_on(said: &mut Page, disk: MemoryDisk, gateway: u8, records: &Records) {
    if let Some((mut journal, _count)) = opened(said, disk, gateway) {
        let outcome = calls::append_all(&mut journal, records);
        behind_crash(said, journal.into_disk(), gateway, outcome);
    }
}

/// One such compaction.
fn compact_on(said: &mut Page, disk: MemoryDisk, gateway: u8, base: &[Delta]) {
    if let Some((mut journal, _count)) = opened(said, disk, gateway) {
        let outcome = calls::compact(said.alloc, &mut journal, base);
        behind_crash(said, journal.into_disk(), gateway, outcome);
    }
}

/// What a write answered, which is to be refused, and an opening after a crash that leaves all.
fn behind_crash(
    said: &mut Page,
    mut disk: MemoryDisk,
    gateway: u8,
    outcome: Result<(), JournalFault>,
) {
    match outcome {
        Ok(()) => said.word("not refused"),
        Err(fault) => print_refusal(said, fault, disk.starved()),
    }
    said.text(",");
    disk.crash(usize::MAX);
    opening(said, disk, gateway);
}
