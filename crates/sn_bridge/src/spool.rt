//! The readings that the bridge answers for, in a journal of two files.
//!
//! The spool is a gateway of its own without clients: what it takes is on the disk when `take`
//! returns. Readings that are to go into it, and numbers of those that it may forget, wait until
//! the end of a turn: then as many as a delta takes become one, with one sync. If that fails, they
//! wait on, and nothing was answered for.

ghost use Rattle.std.specs.Prelude.{◌≡◌, ◌≢◌, ◌<◌, ◌≤◌, All, IfSome, MatchOption, length, slice_get};
ghost use Rattle.std.specs.List.{AllWithin};

use crate::stop::Stop;
use br_core::Item;
use br_spool::{Held, SPOOL, SpoolFault, delta_of, held_in};
use file_disk::{FileDisk, FileDiskFault};
use gw_main::{Tended, begin_fault_number, changed_length, is_grown, next_try, tend};
use gw_node::{Node, NodeFault};
use jr_disk::{Disk, Slot};
use octets::Sequence;
use rep_ops::Delta;
use rep_state::Folded;
use sn_local::Config;
use sn_topic::Predefined;
use std::alloc::Global;
use std::fs::metadata;
use std::io::Write;

/// After how many milliseconds numbers that may be forgotten are written, if no reading is.
const LATE: u64 = 1_000;

/// How many numbers that may be forgotten are written at once.
const MOST_FORGOTTEN: usize = 16_384;

/// How many readings are written at once: all of them have room in a delta.
const MOST_STORED: usize = 1_024;

/// How many numbers they have at most, with those of readings that no spool keeps.
const MOST_NUMBERS: u64 = 16_384;

/// How many milliseconds pass between two looks at how long the files are.
const LOOK: u64 = 10_000;

/// The spool.
pub(crate) struct Spool {
    node: Node<Folded, FileDisk>,
    path: String,
    /// Readings that are to go into it, in the order of their numbers.
    stores: Vec<Item>,
    /// Numbers of readings that it may forget.
    forgets: Vec<u64>,
    /// Each smaller number is in the journal, as a reading or as an acknowledgement.
    below: u64,
    /// Whether it takes readings: it was written anew since the start, and its last write went out.
    is_ready: bool,
    /// How many seconds the next try waits if the last one failed.
    waits: u64,
    /// The millisecond of the next try.
    due: u64,
    /// The millisecond by which numbers are written that may be forgotten.
    late: u64,
    /// The millisecond of the next look at the files.
    look: u64,
    /// How many octets the journal had after it was last written anew, and both files together.
    base: u64,
    both: u64,
}

impl Drop for Spool {
    fn drop(self) {
        let Spool {
            node,
            path,
            stores,
            forgets,
            below: _,
            is_ready: _,
            waits: _,
            due: _,
            late: _,
            look: _,
            base: _,
            both: _,
        } = self;
        drop(node);
        drop(path);
        drop(stores);
        drop(forgets);
    }
}

/// What became of the spool in a turn.
#[derive(Clone, Copy, PartialEq, Eq)]
pub(crate) enum Kept {
    /// There was nothing to be written, or a try is not due yet.
    Nothing,
    /// All readings of smaller numbers are in it, synced.
    Below { number: u64 },
    /// It could not be written. The number says why, as of a journal.
    Failed { fault: u8 },
}

/// What a spool holds as it is opened.
#[derive(Drop)]
pub(crate) struct Found {
    pub(crate) spool: Spool,
    pub(crate) items: Vec<Item>,
    pub(crate) next: u64,
}

/// The two files of a spool. That none was there is told.
fn disk_at<E: Write>(
    rt: &HostRuntime,
    alloc: Global,
    path: &str,
    err: &mut E,
) -> Result<FileDisk, Stop> {
    match FileDisk::at(rt, alloc, path) {
        Ok(mut disk) => {
            tell_begun(&mut disk, path, err);
            Ok(disk)
        }
        Err(FileDiskFault::Memory) => Err(Stop::Memory),
        Err(fault) => {
            let _ = writeln!(err, "{path}.0, {path}.1: {fault}");
            Err(Stop::Spool(1))
        }
    }
}

/// Tells that a spool is begun, if both files are empty.
fn tell_begun<E: Write>(disk: &mut FileDisk, path: &str, err: &mut E) {
    if disk.len(Slot::First) == Ok(0) && disk.len(Slot::Second) == Ok(0) {
        let _ = writeln!(err, "{path}.0, {path}.1: no spool is there, one is begun");
    }
}

/// What the gateway is told that a spool is.
fn config_of(alloc: Global) -> Result<Config, Stop> {
    let Ok(predefined) = Predefined::new(alloc, Vec::new(alloc)) else {
        return Err(Stop::Memory);
    };
    Ok(Config {
        gateway: SPOOL,
        advertise: 0,
        field: Sequence::empty(alloc),
        predefined,
        lifetime: 0,
    })
}

/// The gateway of a spool on its disk.
fn node_on(alloc: Global, disk: FileDisk) -> Result<Node<Folded, FileDisk>, Stop> {
    let config = config_of(alloc)?;
    match Node::open(alloc, config, disk) {
        Ok(node) => Ok(node),
        Err((disk, fault)) => {
            drop(disk);
            let number = begin_fault_number(&fault);
            drop(fault);
            Err(Stop::Spool(number))
        }
    }
}

/// Why readings make no delta, as the program's end.
fn stop_of(fault: SpoolFault) -> Stop {
    match fault {
        SpoolFault::Memory => Stop::Memory,
        SpoolFault::Reading | SpoolFault::Delta => Stop::Spool(3),
    }
}

/// Opens the spool at a path, with the readings that it has kept, in the order of their numbers.
pub(crate) fn open<E: Write>(
    rt: &HostRuntime,
    alloc: Global,
    path: &str,
    err: &mut E,
) -> Result<Found, Stop> {
    let disk = disk_at(rt, alloc, path, err)?;
    let node = node_on(alloc, disk)?;
    match held_by(alloc, &node) {
        Ok(held) => {
            tell_count(held.items.len(), err);
            found_of(alloc, node, path, held)
        }
        Err(stop) => {
            drop(node);
            Err(stop)
        }
    }
}

/// Tells how many readings the spool has.
fn tell_count<E: Write>(count: usize, err: &mut E) {
    let _ = writeln!(err, "sn_bridge: the spool has {count} readings");
}

/// A spool that was opened, and what it holds.
fn found_of(
    alloc: Global,
    node: Node<Folded, FileDisk>,
    path: &str,
    held: Held,
) -> Result<Found, Stop> {
    let Held { items, next } = held;
    match new_spool(alloc, node, path, next) {
        Ok(spool) => Ok(Found { spool, items, next }),
        Err(stop) => {
            drop(items);
            Err(stop)
        }
    }
}

/// What the gateway of a spool holds.
fn held_by(alloc: Global, node: &Node<Folded, FileDisk>) -> Result<Held, Stop> {
    let deltas = node.held(alloc)?;
    Ok(held_in(alloc, deltas.as_slice())?)
}

/// Where the reading of a number is among these.
fn place_of(number: u64, items: &[Item]) -> Option<usize>
    ensures place { MatchOption result (All (λ item. item.number ≢ number) items.now)
        (λ at. at < length items.now) }
    ensures number { IfSome result
        (λ at. IfSome (slice_get items.now at) (λ item. item.number ≡ number)) }
{
    for at in 0..items.len() {
        if items[at].number == number {
            return Some(at);
        }
    }
    None
}

/// How many of these readings, in the order of their numbers, have smaller ones than this.
fn count_below(number: u64, items: &[Item]) -> usize
    ensures within { result ≤ length items.now }
    ensures before { AllWithin (λ item. item.number < number) items.now 0 result }
    ensures next { IfSome (slice_get items.now result) (λ item. number ≤ item.number) }
{
    for at in 0..items.len() {
        if items[at].number >= number {
            return at;
        }
    }
    items.len()
}

/// Takes so many numbers away in front.
fn cut_front(numbers: &mut Vec<u64>, count: usize) {
    let all = numbers.len();
    if count >= all {
        numbers.truncate(0);
        return;
    }
    numbers.as_mut_slice().copy_within(count.., 0);
    numbers.truncate(all - count);
}

/// A spool that was opened, and has to be written anew before it takes readings.
fn new_spool(
    alloc: Global,
    node: Node<Folded, FileDisk>,
    path: &str,
    below: u64,
) -> Result<Spool, Stop> {
    match String::from_str(alloc, path) {
        Ok(path) => Ok(spool_at(alloc, node, path, below)),
        Err(_) => {
            drop(node);
            Err(Stop::Memory)
        }
    }
}

/// The same, of this path.
fn spool_at(alloc: Global, node: Node<Folded, FileDisk>, path: String, below: u64) -> Spool {
    Spool {
        node,
        path,
        stores: Vec::new(alloc),
        forgets: Vec::new(alloc),
        below,
        is_ready: false,
        waits: 0,
        due: 0,
        late: 0,
        look: 0,
        base: 0,
        both: 0,
    }
}

/// The number by which a refused write is told.
fn number_of_refusal(fault: NodeFault) -> u8 {
    let number = begin_fault_number(&fault);
    drop(fault);
    number
}

/// Whether what was tended can be written.
fn is_written(tended: Tended) -> bool {
    match tended {
        Tended::Kept | Tended::Reopened => true,
        Tended::Starved | Tended::Unwritten => false,
    }
}

/// The length of a file of a journal, in octets; nothing if the system does not tell it.
fn length_of(rt: &HostRuntime, alloc: Global, path: &str, slot: u8) -> Option<u64> {
    let name = format!(in alloc; "{path}.{slot}").ok()?;
    match metadata(rt, name.as_str()) {
        Ok(found) => Some(found.len()),
        Err(_) => None,
    }
}

impl Spool {
    /// A reading is to go into the spool.
    pub(crate) fn store(&mut self, alloc: Global, item: &Item) -> Result<(), Stop> {
        self.stores.push(item.copied(alloc)?)?;
        Ok(())
    }

    /// A reading need not be kept. One that was not written yet is not written.
    pub(crate) fn forget(&mut self, number: u64) -> Result<(), Stop> {
        match place_of(number, self.stores.as_slice()) {
            Some(at) => drop(self.stores.remove(at)),
            None => self.forgets.push(number)?,
        }
        Ok(())
    }

    /// The lengths of both files.
    fn lengths(&self, rt: &HostRuntime, alloc: Global) -> Option<(u64, u64)> {
        let first = length_of(rt, alloc, self.path.as_str(), 0)?;
        let second = length_of(rt, alloc, self.path.as_str(), 1)?;
        Some((first, second))
    }

    /// Whether the journal has grown enough to be written anew.
    fn is_grown(&self, rt: &HostRuntime, alloc: Global) -> bool {
        match self.lengths(rt, alloc) {
            None => false,
            Some((first, second)) => {
                let both = first.saturating_add(second);
                is_grown(self.base, both.saturating_sub(self.both))
            }
        }
    }

    /// Writes the journal anew, or opens it again if a write has failed. Says whether it can be
    /// written then, or by which number it is told that it cannot.
    fn tend(&mut self, rt: &HostRuntime, alloc: Global) -> Result<(), u8> {
        let before = self.lengths(rt, alloc);
        match tend(alloc, &mut self.node) {
            Err(fault) => Err(number_of_refusal(fault)),
            Ok(tended) => {
                self.note_lengths(rt, alloc, before);
                if is_written(tended) { Ok(()) } else { Err(1) }
            }
        }
    }

    /// The journal was written anew, before which the files had these lengths.
    fn note_lengths(&mut self, rt: &HostRuntime, alloc: Global, before: Option<(u64, u64)>) {
        let Some(after) = self.lengths(rt, alloc) else {
            return;
        };
        self.both = after.0.saturating_add(after.1);
        self.base = match before {
            Some(before) => changed_length(before, after),
            None => after.0.max(after.1),
        };
    }

    /// A write has failed: the next try is due later, and what waits goes on waiting.
    fn fails(&mut self, now: u64, fault: u8) -> Kept {
        self.is_ready = false;
        self.waits = next_try(self.waits);
        self.due = now.saturating_add(self.waits.saturating_mul(1_000));
        Kept::Failed { fault }
    }

    /// Whether there is something to be written, below the number of the next reading.
    fn has_news(&self, now: u64, next: u64) -> bool {
        if !self.stores.is_empty() || !self.is_ready {
            return true;
        }
        let has_more = self.below < next || !self.forgets.is_empty();
        has_more && now >= self.late
    }

    /// Below which number readings are written at once: a delta has room for so many.
    fn reach(&self, next: u64) -> u64 {
        let far = next.min(self.below.saturating_add(MOST_NUMBERS));
        match self.stores.as_slice().get(MOST_STORED) {
            None => far,
            Some(item) => far.min(item.number),
        }
    }

    /// The delta of what waits, with the readings below a number.
    fn delta(&self, alloc: Global, reach: u64) -> Result<Delta, Stop> {
        let count = self.forgets.len().min(MOST_FORGOTTEN);
        let (forgets, _) = self.forgets.as_slice().split_at(count);
        let stores = self.stores.as_slice();
        let (items, _) = stores.split_at(count_below(reach, stores));
        match delta_of(alloc, self.below, reach, items, forgets) {
            Ok(delta) => Ok(delta),
            Err(fault) => Err(stop_of(fault)),
        }
    }

    /// What waited is written, with the readings below a number.
    fn note_written(&mut self, now: u64, reach: u64) {
        cut_front(&mut self.forgets, MOST_FORGOTTEN);
        self.stores.retain(|item| item.number >= reach);
        self.below = reach;
        self.waits = 0;
        self.late = now.saturating_add(LATE);
    }

    /// Makes the journal ready, if it is not, and shorter, if it has grown.
    fn make_ready(&mut self, rt: &HostRuntime, alloc: Global, now: u64) -> Result<(), u8> {
        if self.is_ready && now < self.look {
            return Ok(());
        }
        self.look = now.saturating_add(LOOK);
        if self.is_ready && !self.is_grown(rt, alloc) {
            return Ok(());
        }
        self.tend(rt, alloc)?;
        self.is_ready = true;
        Ok(())
    }

    /// Writes what waits, as much as a delta takes, and syncs it, if the time has come: `next` is
    /// the number of the next reading. After a failure the spool takes no readings until a later
    /// try goes well.
    pub(crate) fn write(
        &mut self,
        rt: &HostRuntime,
        alloc: Global,
        now: u64,
        next: u64,
    ) -> Result<Kept, Stop> {
        if now < self.due || !self.has_news(now, next) {
            return Ok(Kept::Nothing);
        }
        if let Err(fault) = self.make_ready(rt, alloc, now) {
            return Ok(self.fails(now, fault));
        }
        let reach = self.reach(next);
        let delta = self.delta(alloc, reach)?;
        let answer = self.node.take(alloc, &delta);
        drop(delta);
        match answer {
            Ok(answer) => {
                drop(answer);
                self.note_written(now, reach);
                Ok(Kept::Below { number: reach })
            }
            Err(NodeFault::Memory) => Err(Stop::Memory),
            Err(fault) => {
                let number = number_of_refusal(fault);
                Ok(self.fails(now, number))
            }
        }
    }
}
