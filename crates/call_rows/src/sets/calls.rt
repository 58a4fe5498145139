//! Calls of the libraries. These functions say nothing of them: what a library promises would stay
//! in view at each exit after the call, and no row needs it.

use jr_journal::{Disk, Journal, JournalFault, Records};
use rep_model::{Replica, TakeFault};
use rep_ops::{Delta, Op, OpsFault, Retained};
use sn_frame::{EncodeFault, Frame, FrameFault};
use sn_topic::{Filter, TopicName};
use std::alloc::Global;

/// The frame that a datagram spells.
pub(crate) fn read_frame(alloc: Global, datagram: &[u8]) -> Result<Frame, FrameFault> {
    sn_frame::decode(alloc, datagram)
}

/// Puts the octets of a frame after those that are there.
pub(crate) fn write_frame(
    alloc: Global,
    frame: &Frame,
    out: &mut Vec<u8>,
) -> Result<(), EncodeFault> {
    sn_frame::encode(alloc, frame, out)
}

/// The delta of operations.
pub(crate) fn delta_of(alloc: Global, ops: Vec<Op>) -> Result<Delta, OpsFault> {
    Delta::from_ops(alloc, ops)
}

/// The delta that octets spell.
pub(crate) fn read_delta(alloc: Global, bytes: &[u8]) -> Result<Delta, OpsFault> {
    Delta::decode(alloc, bytes)
}

/// The delta that octets of version 1 spell.
pub(crate) fn read_older(alloc: Global, bytes: &[u8]) -> Result<Delta, OpsFault> {
    Delta::decode_one(alloc, bytes)
}

/// Puts the octets of a delta after those that are there.
pub(crate) fn write_delta(alloc: Global, delta: &Delta, out: &mut Vec<u8>) -> Result<(), OpsFault> {
    delta.encode(alloc, out)
}

/// A replica takes a delta.
pub(crate) fn take<R: Replica>(
    alloc: Global,
    replica: &mut R,
    delta: &Delta,
) -> Result<(), TakeFault> {
    match replica.prepare(alloc, delta) {
        Ok(staged) => {
            replica.commit(staged);
            Ok(())
        }
        Err(fault) => Err(fault),
    }
}

/// What is retained of the topics that a filter asks for.
pub(crate) fn matching<R: Replica>(
    alloc: Global,
    replica: &R,
    asked: &Filter,
) -> Result<Vec<(TopicName, Retained)>, TakeFault> {
    replica.retained_matching(alloc, asked)
}

/// The topic at a place, with what is retained of it, and the place after it.
pub(crate) fn topic_at<R: Replica>(
    replica: &R,
    place: usize,
) -> Option<(usize, &TopicName, &Retained)> {
    replica.topic_at(place)
}

/// The journal of a gateway is opened.
pub(crate) fn open<D: Disk + Drop>(
    alloc: Global,
    disk: D,
    gateway: u8,
) -> Result<(Journal<D>, Vec<Delta>), (D, JournalFault)> {
    Journal::open(alloc, disk, gateway)
}

/// A delta is a new record.
pub(crate) fn append<D: Disk + Drop>(
    alloc: Global,
    journal: &mut Journal<D>,
    delta: &Delta,
) -> Result<(), JournalFault> {
    journal.append(alloc, delta)
}

/// Records are written at once.
pub(crate) fn append_all<D: Disk + Drop>(
    journal: &mut Journal<D>,
    records: &Records,
) -> Result<(), JournalFault> {
    journal.append_all(records)
}

/// Records take the place of all.
pub(crate) fn compact<D: Disk + Drop>(
    alloc: Global,
    journal: &mut Journal<D>,
    base: &[Delta],
) -> Result<(), JournalFault> {
    journal.compact(alloc, base)
}

/// A journal is opened once more as it stands.
pub(crate) fn reopen<D: Disk + Drop>(
    alloc: Global,
    journal: &mut Journal<D>,
) -> Result<Vec<Delta>, JournalFault> {
    journal.reopen(alloc)
}
