//! Lines about a journal and its disk.

use crate::sets::attempts::openings;
use crate::sets::calls;
use crate::sets::deltas::made;
use crate::sets::page::Page;
use crate::sets::printing::print_deltas;
use crate::sets::stop::Stop;
use crate::sets::values::{print_journal_fault, slot, slot_word};
use crate::sets::words::Words;
use jr_journal::{Disk, Journal, JournalFault, MemoryDisk, Records, Slot};
use rep_ops::{Delta, Op};
use std::alloc::Global;
use std::mem;

/// A disk, or the journal on it while that is open.
pub(crate) struct Store {
    /// The disk while no journal is open on it.
    disk: MemoryDisk,
    journal: Option<Journal<MemoryDisk>>,
}

impl Drop for Store {
    fn drop(self) {
        let Store { disk, journal } = self;
        drop(disk);
        drop(journal);
    }
}

/// An empty disk.
pub(crate) fn empty(alloc: Global) -> Store {
    Store {
        disk: MemoryDisk::new(alloc),
        journal: None,
    }
}

/// Another disk stands in the place of a store's.
fn put_disk(store: &mut Store, disk: MemoryDisk) {
    drop(mem::replace(&mut store.disk, disk));
}

/// Plays a line about a journal or its disk.
pub(crate) fn play(page: &mut Page, store: &mut Store, octets: &[u8], words: &mut Words<'_>) {
    match words.first {
        "open" => open(page, store, words),
        "close" => close(store, words),
        "openings" => openings(page, store, octets, words),
        _ => play_as_it_is(page, store, octets, words),
    }
}

/// Plays a line about the journal if that is open, and else one about the disk.
fn play_as_it_is(page: &mut Page, store: &mut Store, octets: &[u8], words: &mut Words<'_>) {
    match &mut store.journal {
        Some(journal) => play_journal(page, journal, words),
        None => play_disk(page, &mut store.disk, octets, words),
    }
}

/// Plays a line about an open journal.
fn play_journal(page: &mut Page, journal: &mut Journal<MemoryDisk>, words: &mut Words<'_>) {
    match words.first {
        "reopen" => reopen(page, journal),
        "halt" => journal.halt(),
        "halted" => halted(page, journal),
        "place" => place(page, journal.slot()),
        _ => words.fail(Stop::Line),
    }
}

/// Plays a line about a disk on which no journal is open.
fn play_disk(page: &mut Page, disk: &mut MemoryDisk, octets: &[u8], words: &mut Words<'_>) {
    match words.first {
        "store" => store_octets(page, disk, octets, words),
        "fail" => fail(disk, words),
        "crash" => crash(disk, words),
        "slots" => slots(page, disk),
        _ => words.fail(Stop::Line),
    }
}

/// Puts octets after those of a slot, and makes them durable.
pub(crate) fn put(page: &mut Page, disk: &mut MemoryDisk, slot: Slot, octets: &[u8]) {
    if disk.append(slot, octets).is_err() || disk.sync(slot).is_err() {
        page.run_out();
    }
}

/// All octets of a slot.
pub(crate) fn octets_of(page: &mut Page, disk: &mut MemoryDisk, slot: Slot) -> Vec<u8> {
    let mut octets = zeros(page, disk, slot);
    if disk.read_at(slot, 0, &mut octets).is_err() {
        page.run_out();
    }
    octets
}

/// As many octets as a slot has, each 0.
fn zeros(page: &mut Page, disk: &mut MemoryDisk, slot: Slot) -> Vec<u8> {
    let size = disk.len(slot).unwrap_or(0);
    match vec![in page.alloc; 0u8; size] {
        Ok(octets) => octets,
        Err(_) => {
            page.run_out();
            Vec::new(page.alloc)
        }
    }
}

/// `store SLOT`: the octets stand after those of a slot, synced.
fn store_octets(page: &mut Page, disk: &mut MemoryDisk, octets: &[u8], words: &mut Words<'_>) {
    let slot = slot(words);
    if words.end() {
        put(page, disk, slot, octets);
    }
}

/// `fail COUNT` or `fail sync`: the next append goes out so far, or goes out and is not synced.
fn fail(disk: &mut MemoryDisk, words: &mut Words<'_>) {
    let (far, is_of_sync) = words.count_or("sync", 0);
    if words.end() {
        disk.fail_next(far, is_of_sync);
    }
}

/// `crash COUNT` or `crash all`: of what is not synced so many octets of each slot are left.
fn crash(disk: &mut MemoryDisk, words: &mut Words<'_>) {
    let (kept, _) = words.count_or("all", usize::MAX);
    if words.end() {
        disk.crash(kept);
    }
}

/// Says why a journal refuses.
fn refused(page: &mut Page, fault: JournalFault, is_starved: bool) {
    page.word("refused");
    print_journal_fault(page, fault, is_starved);
    page.end();
}

/// `open GATEWAY`: the journal of a gateway is opened.
fn open(page: &mut Page, store: &mut Store, words: &mut Words<'_>) {
    let gateway = words.octet();
    want_closed(store, words);
    if words.end() {
        open_closed(page, store, gateway);
    }
}

/// The line is wrong if a journal is open.
fn want_closed(store: &Store, words: &mut Words<'_>) {
    if store.journal.is_some() {
        words.fail(Stop::Line);
    }
}

/// The journal of a gateway is opened, which is closed.
fn open_closed(page: &mut Page, store: &mut Store, gateway: u8) {
    let disk = mem::replace(&mut store.disk, MemoryDisk::new(page.alloc));
    match calls::open(page.alloc, disk, gateway) {
        Ok((journal, deltas)) => {
            drop(mem::replace(&mut store.journal, Some(journal)));
            print_records(page, deltas);
        }
        Err((disk, fault)) => {
            refused(page, fault, disk.starved());
            put_disk(store, disk);
        }
    }
}

/// The records that an opening has read.
fn print_records(page: &mut Page, deltas: Vec<Delta>) {
    print_deltas(page, "records", &deltas);
    drop(deltas);
}

/// `append`: the delta of the operations is a new record.
pub(crate) fn append(page: &mut Page, store: &mut Store, words: &mut Words<'_>, delta: &Delta) {
    match &mut store.journal {
        Some(journal) => match calls::append(page.alloc, journal, delta) {
            Ok(()) => page.line("appended"),
            Err(fault) => refused(page, fault, journal.starved()),
        },
        None => words.fail(Stop::Line),
    }
}

/// Adds a delta for each operation: whether each makes one.
pub(crate) fn add_records(page: &mut Page, base: &mut Vec<Delta>, ops: Vec<Op>) -> bool {
    let count = ops.len();
    for op in ops {
        add_record(page, base, op);
    }
    base.len() == count
}

/// Adds the delta of an operation, if there is one.
fn add_record(page: &mut Page, base: &mut Vec<Delta>, op: Op) {
    match vec![in page.alloc; op] {
        Ok(ops) => add_delta(page, base, ops),
        Err(_) => page.run_out(),
    }
}

/// Adds the delta of operations, if there is one.
fn add_delta(page: &mut Page, base: &mut Vec<Delta>, ops: Vec<Op>) {
    if let Some(delta) = made(page, ops) {
        push(page, base, delta);
    }
}

/// Adds a delta.
fn push(page: &mut Page, base: &mut Vec<Delta>, delta: Delta) {
    let pushed = base.push(delta);
    let is_short = pushed.is_err();
    drop(pushed);
    if is_short {
        page.run_out();
    }
}

/// Deltas as records that are to be written at once. If memory ran out, the page remembers that.
pub(crate) fn records_of(page: &mut Page, deltas: &[Delta]) -> Records {
    let mut records = Records::empty(page.alloc);
    for delta in deltas {
        if records.push(page.alloc, delta).is_err() {
            page.run_out();
        }
    }
    records
}

/// `together`: the operations, each a new record, are written at once.
pub(crate) fn together(page: &mut Page, store: &mut Store, words: &mut Words<'_>, base: &[Delta]) {
    match &mut store.journal {
        Some(journal) => append_all_to(page, journal, base),
        None => words.fail(Stop::Line),
    }
}

/// The deltas are new records, which are written at once.
fn append_all_to(page: &mut Page, journal: &mut Journal<MemoryDisk>, base: &[Delta]) {
    let records = records_of(page, base);
    match calls::append_all(journal, &records) {
        Ok(()) => page.line("appended"),
        Err(fault) => refused(page, fault, journal.starved()),
    }
    drop(records);
}

/// `compact`: the operations, each a record, take the place of all records.
pub(crate) fn compact(page: &mut Page, store: &mut Store, words: &mut Words<'_>, base: &[Delta]) {
    match &mut store.journal {
        Some(journal) => match calls::compact(page.alloc, journal, base) {
            Ok(()) => page.line("compacted"),
            Err(fault) => refused(page, fault, journal.starved()),
        },
        None => words.fail(Stop::Line),
    }
}

/// `reopen`: the journal is opened once more as it stands.
fn reopen(page: &mut Page, journal: &mut Journal<MemoryDisk>) {
    match calls::reopen(page.alloc, journal) {
        Ok(deltas) => print_records(page, deltas),
        Err(fault) => refused(page, fault, journal.starved()),
    }
}

/// `place`: the slot that the journal writes.
fn place(page: &mut Page, slot: Slot) {
    page.labelled("goes on in", slot_word(slot));
    page.end();
}

/// `halted`: whether the journal has stopped, and whether memory was refused in its disk.
fn halted(page: &mut Page, journal: &Journal<MemoryDisk>) {
    page.text("halted: ");
    page.value(journal.is_halted());
    page.text(", ");
    print_starved(page, journal.starved());
}

/// Whether memory was refused in a disk.
fn print_starved(page: &mut Page, is_starved: bool) {
    page.text("starved: ");
    page.value(is_starved);
    page.end();
}

/// `close`: the journal is closed, and the disk is as it stands.
fn close(store: &mut Store, words: &mut Words<'_>) {
    match store.journal.take() {
        None => words.fail(Stop::Line),
        Some(journal) => put_disk(store, journal.into_disk()),
    }
}

/// `slots`: the octets of both slots, and whether memory was refused in the disk.
fn slots(page: &mut Page, disk: &mut MemoryDisk) {
    print_slot(page, disk, Slot::First);
    print_slot(page, disk, Slot::Second);
    print_starved(page, disk.starved());
}

/// The octets of a slot.
fn print_slot(page: &mut Page, disk: &mut MemoryDisk, slot: Slot) {
    let octets = octets_of(page, disk, slot);
    page.word(slot_word(slot));
    page.digits(&octets);
    page.end();
    drop(octets);
}

/// What both slots of a disk hold.
#[derive(Drop)]
pub(crate) struct Held {
    pub(crate) first: Vec<u8>,
    pub(crate) second: Vec<u8>,
}

/// What both slots of a disk hold, on which no journal is to be open.
pub(crate) fn both(page: &mut Page, store: &mut Store, words: &mut Words<'_>) -> Held {
    want_closed(store, words);
    Held {
        first: octets_of(page, &mut store.disk, Slot::First),
        second: octets_of(page, &mut store.disk, Slot::Second),
    }
}
