//! What a gateway's journal must hold, and the failures that are arranged for it.

use octets::NoMemory;
use rep_ops::Delta;
use std::alloc::Global;

/// A failure that is arranged.
#[derive(Clone, Copy)]
pub(crate) struct Failure {
    /// After so many bytes.
    bytes: u64,
    /// Or in the sync after them all.
    sync: bool,
    /// The index of the first event that arranged one since the last that came.
    pub(crate) first: usize,
}

/// What a restart left of the deltas that were refused.
#[derive(Clone, Copy)]
pub(crate) enum Left {
    /// The journal has so many first ones of them, beside what it had before.
    More(usize),
    /// It has what it must not have, or has not what it must have.
    Wrong,
}

/// What a gateway's journal must hold.
#[derive(Drop)]
pub(crate) struct Drive {
    /// How many records it has.
    pub(crate) records: u64,
    /// The failure that is arranged, if one is.
    pub(crate) failure: Option<Failure>,
    /// The failure that halted the gateway, if one did.
    pub(crate) met: Option<Failure>,
    /// The deltas that were refused then, in the order in which they were to be written; none where
    /// it was a compaction.
    pub(crate) refused: Vec<Delta>,
}

/// How many octets the record of a delta has: a letter, four of a length, and those of the delta.
fn record_size(alloc: Global, delta: &Delta) -> Result<u64, NoMemory> {
    let mut octets = Vec::new(alloc);
    let written = delta.append_to(&mut octets);
    let size = (octets.len() as u64).saturating_add(5);
    drop(octets);
    match written {
        Ok(()) => Ok(size),
        Err(_) => Err(NoMemory),
    }
}

/// How many octets the records of deltas have.
fn size_of_all(alloc: Global, deltas: &[Delta]) -> Result<u64, NoMemory> {
    let mut size = 0u64;
    for delta in deltas {
        size = size.saturating_add(record_size(alloc, delta)?);
    }
    Ok(size)
}

/// How many first ones of the records of deltas so many octets hold, each whole.
fn count_whole(alloc: Global, deltas: &[Delta], octets: u64) -> Result<usize, NoMemory> {
    let mut end = 0u64;
    for (count, delta) in deltas.iter().enumerate() {
        end = end.saturating_add(record_size(alloc, delta)?);
        if end > octets {
            return Ok(count);
        }
    }
    Ok(deltas.len())
}

impl Drive {
    /// A journal without records.
    pub(crate) fn empty(alloc: Global) -> Drive {
        Drive {
            records: 0,
            failure: None,
            met: None,
            refused: Vec::new(alloc),
        }
    }

    /// Whether a write has failed since the gateway was opened.
    pub(crate) fn is_halted(&self) -> bool {
        self.met.is_some()
    }

    /// The event of this index arranges a failure.
    pub(crate) fn arrange(&mut self, at: usize, bytes: u64, sync: bool) {
        let first = match self.failure {
            Some(failure) => failure.first,
            None => at,
        };
        self.failure = Some(Failure { bytes, sync, first });
    }

    /// One more record is written. False where that was to fail.
    pub(crate) fn write(&mut self) -> bool {
        self.records = self.records.saturating_add(1);
        self.failure.is_none()
    }

    /// The journal is written anew, with so many records. False where that was to fail.
    pub(crate) fn compact(&mut self, base: u64) -> bool {
        self.records = base;
        self.failure.is_none()
    }

    /// The failure that is arranged comes.
    pub(crate) fn fail(&mut self, refused: Vec<Delta>) {
        self.met = self.failure;
        self.failure = None;
        self.refused = refused;
    }

    /// What a restart left that kept so many bytes and told so many records. A journal written anew
    /// has `base` records.
    pub(crate) fn left(
        &self,
        alloc: Global,
        keep: u64,
        told: u64,
        base: u64,
    ) -> Result<Left, NoMemory> {
        let Some(failure) = self.met else {
            return Ok(left_if(told == self.records, 0));
        };
        if self.refused.is_empty() {
            return Ok(left_if(told == self.records || told == base, 0));
        }
        let count = self.whole(alloc, failure, keep)?;
        let all = self.records.saturating_add(count as u64);
        Ok(left_if(told == all, count))
    }

    /// How many first ones of the deltas that were refused the journal has whole, where the failure
    /// let their octets out and a restart kept so many of these.
    fn whole(&self, alloc: Global, failure: Failure, keep: u64) -> Result<usize, NoMemory> {
        let refused = self.refused.as_slice();
        let all = size_of_all(alloc, refused)?;
        let out = if failure.sync {
            all
        } else {
            failure.bytes.min(all)
        };
        count_whole(alloc, refused, out.min(keep))
    }

    /// The gateway is opened again, and its journal has so many records.
    pub(crate) fn reopen(&mut self, told: u64) {
        self.records = told;
        self.met = None;
    }
}

/// So many deltas, where that is right.
fn left_if(is_right: bool, count: usize) -> Left {
    if is_right {
        Left::More(count)
    } else {
        Left::Wrong
    }
}
