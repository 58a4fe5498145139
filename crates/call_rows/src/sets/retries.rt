//! A line that tries a journal on disks of which one call fails. Whether memory was refused in a
//! disk is looked at in the end.

use crate::sets::attempts::{Trial, opening, tried};
use crate::sets::calls;
use crate::sets::journals::Store;
use crate::sets::page::Page;
use crate::sets::values::print_journal_fault;
use crate::sets::words::Words;
use jr_journal::{Journal, MemoryDisk, OnceCall, OnceDisk};
use rep_ops::Delta;

/// The kind of the call that fails.
fn call(words: &mut Words<'_>) -> OnceCall {
    match words.one_of("sync cut read") {
        0 => OnceCall::Sync,
        1 => OnceCall::Cut,
        _ => OnceCall::Read,
    }
}

/// `retries GATEWAY CALL COUNT`: the journal is opened, opened once more and compacted to the
/// operations, where one call fails after each number of calls of its kind up to this one; what is
/// refused is tried once again.
pub(crate) fn retries(page: &mut Page, store: &mut Store, words: &mut Words<'_>, base: &[Delta]) {
    let (gateway, call) = (words.octet(), call(words));
    tried(page, store, words, gateway, &Trial::Calls(call, base));
}

/// What the three calls answer, and what is opened of the disk that they leave.
pub(crate) fn call_all(said: &mut Page, disk: OnceDisk, gateway: u8, base: &[Delta]) {
    said.word("open");
    if let Some(journal) = open(said, disk, gateway) {
        call_others(said, journal, gateway, base);
    }
}

/// What the two other calls answer, and what is opened of the disk that they leave.
fn call_others(said: &mut Page, mut journal: Journal<OnceDisk>, gateway: u8, base: &[Delta]) {
    reopen(said, &mut journal);
    compact(said, &mut journal, base);
    let disk = journal.into_disk().into_inner();
    spare(said, &disk);
    said.text("; then");
    opening(said, disk, gateway);
}

/// Remembers if memory was refused in a disk, which then did not fail as arranged.
fn spare(said: &mut Page, disk: &MemoryDisk) {
    if disk.starved() {
        said.run_out();
    }
}

/// The journal is opened once more, and again where that is refused.
fn reopen(said: &mut Page, journal: &mut Journal<OnceDisk>) {
    if !reopens(said, journal) {
        reopens(said, journal);
    }
}

/// The journal is compacted; where that is refused, it is opened once more, and compacted again.
fn compact(said: &mut Page, journal: &mut Journal<OnceDisk>, base: &[Delta]) {
    if !compacts(said, journal, base) {
        reopens(said, journal);
        compacts(said, journal, base);
    }
}

/// An opening, and another where it is refused.
fn open(said: &mut Page, disk: OnceDisk, gateway: u8) -> Option<Journal<OnceDisk>> {
    match calls::open(said.alloc, disk, gateway) {
        Ok((journal, deltas)) => {
            print_count(said, deltas);
            Some(journal)
        }
        Err((disk, fault)) => {
            print_journal_fault(said, fault, false);
            open_again(said, disk, gateway)
        }
    }
}

/// How many records an opening has read.
fn print_count(said: &mut Page, deltas: Vec<Delta>) {
    said.word(deltas.len());
    drop(deltas);
}

/// The opening after one that was refused.
fn open_again(said: &mut Page, disk: OnceDisk, gateway: u8) -> Option<Journal<OnceDisk>> {
    match calls::open(said.alloc, disk, gateway) {
        Ok((journal, deltas)) => {
            print_count(said, deltas);
            Some(journal)
        }
        Err((disk, fault)) => {
            let disk = disk.into_inner();
            print_journal_fault(said, fault, disk.starved());
            drop(disk);
            None
        }
    }
}

/// The journal is opened once more: whether that went well.
fn reopens(said: &mut Page, journal: &mut Journal<OnceDisk>) -> bool {
    said.text("; reopen");
    match calls::reopen(said.alloc, journal) {
        Ok(deltas) => {
            print_count(said, deltas);
            true
        }
        Err(fault) => {
            print_journal_fault(said, fault, false);
            false
        }
    }
}

/// The journal is compacted: whether that went well.
fn compacts(said: &mut Page, journal: &mut Journal<OnceDisk>, base: &[Delta]) -> bool {
    said.text("; compact");
    match calls::compact(said.alloc, journal, base) {
        Ok(()) => true,
        Err(fault) => {
            print_journal_fault(said, fault, false);
            false
        }
    }
}
