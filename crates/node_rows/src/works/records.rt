//! The journal at work.

use crate::calls::{append, delta_of, open_journal};
use crate::page::Page;
use crate::stop::{Stop, unworked};
use crate::works::operations::presence;
use jr_journal::{Journal, JournalFault, MemoryDisk};
use rep_ops::Delta;

/// Appends so many records of one change of a session to a new journal on a disk in memory, each
/// synced, and says how many it appended.
pub(crate) fn run(page: &mut Page, rounds: u32) {
    let ops = presence(page);
    match delta_of(page.alloc(), ops) {
        Ok(delta) => {
            append_to_new(page, &delta, rounds);
            drop(delta);
        }
        Err(fault) => page.stop(unworked(&fault)),
    }
}

/// Appends the delta so often to a new journal.
fn append_to_new(page: &mut Page, delta: &Delta, rounds: u32) {
    match open_journal(page.alloc(), MemoryDisk::new(page.alloc()), 1) {
        Ok((journal, held)) => {
            drop(held);
            append_all(page, journal, delta, rounds);
        }
        Err((disk, fault)) => {
            page.stop(stop_of(fault, disk.starved()));
            drop(disk);
        }
    }
}

/// Appends the delta so often to this journal.
fn append_all(page: &mut Page, journal: Journal<MemoryDisk>, delta: &Delta, rounds: u32) {
    let mut journal = journal;
    for _ in 0..rounds {
        if let Err(fault) = append(page.alloc(), &mut journal, delta) {
            page.stop(stop_of(fault, journal.starved()));
        }
    }
    drop(journal);
    page.number("records: ", u64::from(rounds));
    page.text(" appended, each synced\n");
}

/// Why a work stops: memory ran out, also in its disk, or a call was refused.
fn stop_of(fault: JournalFault, is_starved: bool) -> Stop {
    if is_starved || matches!(fault, JournalFault::Memory) {
        return Stop::Memory;
    }
    Stop::Work
}
