//! Lines about a disk, and a gateway that is opened on it.

use crate::calls::{clients, open_node, slot_octets, told};
use crate::page::Page;
use crate::printing::{print_length, print_octets};
use crate::stop::Stop;
use crate::words::Words;
use gw_node::{Node, NodeFault};
use jr_journal::{MemoryDisk, Slot};
use octets::Sequence;
use rep_model::Replica;
use sn_local::Config;
use std::alloc::Global;
use std::mem;

/// A disk, or the gateway on it while that is open.
pub(crate) struct Store<R: Replica> {
    /// The disk while no gateway is open on it.
    disk: MemoryDisk,
    pub(crate) node: Option<Node<R, MemoryDisk>>,
}

impl<R: Replica> Drop for Store<R> {
    fn drop(self) {
        let Store { disk, node } = self;
        drop(disk);
        drop(node);
    }
}

impl<R: Replica> Store<R> {
    /// An empty disk.
    pub(crate) fn new(alloc: Global) -> Store<R> {
        Store {
            disk: MemoryDisk::new(alloc),
            node: None,
        }
    }

    /// Takes the gateway that is open.
    pub(crate) fn taken(&mut self) -> Option<Node<R, MemoryDisk>> {
        self.node.take()
    }

    /// The gateway that is open is this one.
    pub(crate) fn hold(&mut self, node: Node<R, MemoryDisk>) {
        drop(mem::replace(&mut self.node, Some(node)));
    }

    /// Closes the gateway that is open.
    fn close(&mut self) {
        match self.taken() {
            Some(node) => self.keep(node.into_disk()),
            None => {}
        }
    }

    /// Takes the disk, and an empty one is there; a gateway that is open on it is closed.
    fn take_disk(&mut self, alloc: Global) -> MemoryDisk {
        self.close();
        mem::replace(&mut self.disk, MemoryDisk::new(alloc))
    }

    /// Keeps a disk in place of the one that is there.
    fn keep(&mut self, disk: MemoryDisk) {
        drop(mem::replace(&mut self.disk, disk));
    }
}

/// `open GATEWAY` or `open GATEWAY SECONDS PORT`: a gateway is opened.
pub(crate) fn open<R: Replica>(page: &mut Page, store: &mut Store<R>, words: &mut Words) {
    let config = config(words);
    if words.end(page) {
        start(page, store, config);
    } else {
        drop(config);
    }
}

/// Opens a gateway that is told this, in place of the one that is open.
fn start<R: Replica>(page: &mut Page, store: &mut Store<R>, config: Option<Config>) {
    match config {
        Some(config) => start_with(page, store, config),
        None => page.stop(Stop::Memory),
    }
}

/// What the gateway is told: its number, and if it advertises itself how often, and to which port.
fn config(words: &mut Words) -> Option<Config> {
    let gateway = words.gateway();
    let mut advertise = 0;
    let mut field = Sequence::empty(words.alloc());
    if words.has_more() {
        advertise = words.number();
        let is_short = field.push(words.address()).is_err();
        words.fail_if_short(is_short);
    }
    told(words.alloc(), gateway, advertise, field)
}

/// Opens a gateway on the disk, and prints the records that it read, or the number of its refusal.
fn start_with<R: Replica>(page: &mut Page, store: &mut Store<R>, config: Config) {
    let disk = store.take_disk(page.alloc());
    match open_node(page.alloc(), config, disk) {
        Ok(node) => started(page, store, node),
        Err((disk, fault)) => not_started(page, store, disk, fault),
    }
}

/// Prints the records that a gateway read, which is open from here on.
fn started<R: Replica>(page: &mut Page, store: &mut Store<R>, node: Node<R, MemoryDisk>) {
    let records = node.records();
    store.hold(node);
    page.number("records ", records);
    page.end();
}

/// Prints the number of a refusal, with which the disk came back.
fn not_started<R: Replica>(
    page: &mut Page,
    store: &mut Store<R>,
    disk: MemoryDisk,
    fault: NodeFault,
) {
    let is_starved = disk.starved();
    store.keep(disk);
    print_refused(page, &fault, is_starved);
    drop(fault);
}

/// The number of a refused opening.
fn print_refused(page: &mut Page, fault: &NodeFault, is_starved: bool) {
    page.stop_if_short(is_starved || matches!(fault, NodeFault::Memory));
    page.number("refused N", u64::from(fault.number()));
    page.end();
}

/// `fail COUNT` or `fail sync`: the next append goes out so far, or goes out and is not synced.
pub(crate) fn fail<R: Replica>(page: &mut Page, store: &mut Store<R>, words: &mut Words) {
    let is_sync = words.takes("sync");
    let far = if is_sync { 0 } else { words.count() };
    if words.end(page) {
        store.close();
        store.disk.fail_next(far, is_sync);
    }
}

/// `slots`: the octets of both slots.
pub(crate) fn slots<R: Replica>(page: &mut Page, store: &mut Store<R>, words: &mut Words) {
    if words.end(page) {
        store.close();
        print_slot(page, &mut store.disk, "first ", Slot::First);
        print_slot(page, &mut store.disk, "second ", Slot::Second);
    }
}

/// The octets of a slot.
fn print_slot(page: &mut Page, disk: &mut MemoryDisk, text: &str, slot: Slot) {
    match slot_octets(page.alloc(), disk, slot) {
        Some(octets) => {
            print_octets(page, text, &octets);
            drop(octets);
        }
        None => page.stop(Stop::Memory),
    }
}

/// `state`: the records of the opening, whether the gateway has halted, and how many clients it
/// knows.
pub(crate) fn state<R: Replica>(page: &mut Page, node: &Node<R, MemoryDisk>, words: &mut Words) {
    if words.end(page) {
        page.number("records ", node.records());
        page.shown(", halted: ", &node.is_halted());
        match clients(page.alloc(), node) {
            Ok(clients) => {
                print_length(page, ", clients ", clients.len());
                drop(clients);
            }
            Err(_) => page.stop(Stop::Memory),
        }
    }
}
