//! The journal between shifts: when it is written anew, and when a gateway that cannot write tries
//! again.

use gw_main::{Tended, changed_length, is_grown, next_wait};
use std::alloc::Global;
use std::fs::metadata;

/// What is known of a journal between shifts. Only the thread of shifts has it.
#[derive(Drop)]
pub struct Keeper<'a> {
    /// The path of the journal.
    path: &'a str,
    /// How many octets it had after it was last written anew.
    base: u64,
    /// How many octets both files had then.
    both: u64,
    /// How many seconds the gateway waited for its last try; nothing where its writes go out.
    waits: Option<u64>,
}

impl<'a> Keeper<'a> {
    /// The journal at a path, of which nothing is known yet.
    pub(crate) fn of(path: &'a str) -> Keeper<'a> {
        Keeper {
            path,
            base: 0,
            both: 0,
            waits: None,
        }
    }

    /// The lengths of both files, in octets. Nothing if the system does not tell them.
    pub(crate) fn lengths(&self, rt: &HostRuntime, alloc: Global) -> Option<(u64, u64)> {
        let first = length_of(rt, alloc, self.path, 0)?;
        let second = length_of(rt, alloc, self.path, 1)?;
        Some((first, second))
    }

    /// Whether it has grown enough to be written anew. If the system does not tell, it has.
    pub(crate) fn is_grown(&self, rt: &HostRuntime, alloc: Global) -> bool {
        match self.lengths(rt, alloc) {
            None => true,
            Some((first, second)) => {
                let both = first.saturating_add(second);
                is_grown(self.base, both.saturating_sub(self.both))
            }
        }
    }

    /// The gateway was tended, before which the files had these lengths. A journal that could not
    /// be written anew counts as if it had been: it has to grow as much again before the next try.
    pub(crate) fn note_tended(
        &mut self,
        rt: &HostRuntime,
        alloc: Global,
        before: Option<(u64, u64)>,
        tended: Tended,
    ) {
        let Some(after) = self.lengths(rt, alloc) else {
            return;
        };
        self.both = after.0.saturating_add(after.1);
        self.base = match before {
            Some(before) if is_written(tended) => changed_length(before, after),
            _ => after.0.max(after.1),
        };
    }

    /// A shift is over. Says for how many seconds the gateway is to be silent: for none if no write
    /// failed in it.
    pub(crate) fn silence_after(&mut self, has_recorded: bool, has_failed: bool) -> u64 {
        self.waits = next_wait(self.waits, has_recorded, has_failed);
        if !has_failed {
            return 0;
        }
        self.waits.unwrap_or(0)
    }

    /// A try before the first shift failed. Says for how many seconds the gateway is to be silent.
    pub(crate) fn wait_longer(&mut self) -> u64 {
        self.waits = Some(self.waits.unwrap_or(0));
        self.silence_after(false, true)
    }

    /// The gateway can write.
    pub(crate) fn note_written(&mut self) {
        self.waits = None;
    }
}

/// Whether the journal of a gateway that was tended may have been written anew.
pub(crate) fn is_written(tended: Tended) -> bool {
    match tended {
        Tended::Kept | Tended::Reopened => true,
        Tended::Starved | Tended::Unwritten => false,
    }
}

/// The length of a file of a journal, in octets.
pub(crate) fn length_of(rt: &HostRuntime, alloc: Global, path: &str, slot: u8) -> Option<u64> {
    match name_of(alloc, path, slot) {
        None => None,
        Some(name) => {
            let length = length_at(rt, name.as_str());
            drop(name);
            length
        }
    }
}

/// The name of a file of a journal. `None` if memory runs out.
fn name_of(alloc: Global, path: &str, slot: u8) -> Option<String> {
    let name = format!(in alloc; "{path}.{slot}");
    name.ok()
}

/// The length of a file, in octets.
fn length_at(rt: &HostRuntime, name: &str) -> Option<u64> {
    match metadata(rt, name) {
        Ok(found) => Some(found.len()),
        Err(_) => None,
    }
}
