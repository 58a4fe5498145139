//! Replicas, and views of clients.

use crate::refusals::calls::{Calls, Made, Shown, beside, given, is_same, is_word};
use crate::refusals::deltas::{FIRST, client, delta, spelled};
use crate::refusals::said::{Said, Stop};
use crate::refusals::topics::filter;
use gw_report::Glimpse;
use rep_model::{ClientView, Replica, TakeFault};
use rep_ops::{ClientId, Delta, OpsFault, Retained};
use sn_topic::TopicName;

/// What is taken after the first connection: a subscription of client s1 and its next Take; a
/// change of client s2, whose Take is not there; client s3, of gateway 2; a message for s1 and one
/// for s3; messages that s1 has; and what is retained of a topic.
const NEXT: [&str; 10] = [
    "0200000009",
    "0102733100000000000000010101030003742f2301",
    "0102733100000000000000020100000001003c00010000000000000000",
    "01027332000000000000000502010101012c",
    "0102733300000000000000010200000001003c00010000000000000000",
    "020273310100000000000000010003742f6101000000000000000000000178",
    "020273330200000000000000010003742f6101000000000000000000000178",
    "030273310200000000000000010000000000000002",
    "030273310200000000000000040000000000000004",
    "040003742f6100000000000000010101000178",
];

/// A replica, a delta that it takes, and the octets of what it keeps.
pub(crate) struct Replicas<R: Replica> {
    replica: R,
    next: Delta,
    stood: Vec<u8>,
}

impl<R: Replica> Drop for Replicas<R> {
    fn drop(self) {
        let Replicas {
            replica,
            next,
            stood,
        } = self;
        drop(replica);
        drop(next);
        drop(stood);
    }
}

impl<R: Replica> Made for Replicas<R> {
    fn make(said: &mut Said, call: &str, _is_second: bool) -> Option<Replicas<R>> {
        match replica_with(said, !is_word(call, "prepare") && !is_word(call, "save")) {
            Some(replica) => Some(Replicas {
                next: delta(said, &NEXT),
                stood: kept(said, &replica),
                replica,
            }),
            None => None,
        }
    }
}

impl<R: Replica> Calls for Replicas<R> {
    fn call_once(&mut self, said: &mut Said, call: &str) {
        match call {
            "empty" => show_empty::<R>(said),
            "prepare" => self.take(said),
            "aside" => self.set_aside(said),
            "save" => self.go_back(said),
            "ClientView::copy" => copy_view(said, &self.replica),
            call => self.read(said, call),
        }
    }
}

impl<R: Replica> Replicas<R> {
    /// Takes the delta. If that is refused, what is kept is as it was.
    fn take(&mut self, said: &mut Said) {
        match self.replica.prepare(said.alloc, &self.next) {
            Ok(staged) => {
                self.replica.commit(staged);
                show(said, &self.replica);
                said.answer();
            }
            Err(fault) => {
                self.look(said);
                said.refuse(matches!(&fault, TakeFault::Memory));
                drop(fault);
            }
        }
    }

    /// Looks whether what is kept is as it was.
    fn look(&self, said: &mut Said) {
        let stands = kept(said, &self.replica);
        said.keep(is_same(stands.as_slice(), self.stood.as_slice()));
        drop(stands);
    }

    /// Makes a place for what deltas replace, and puts back what lies there: nothing.
    fn set_aside(&mut self, said: &mut Said) {
        match self.replica.aside(said.alloc) {
            Ok(aside) => {
                self.replica.put_back(aside);
                show(said, &self.replica);
                said.answer();
            }
            Err(fault) => {
                said.refuse(matches!(&fault, TakeFault::Memory));
                drop(fault);
            }
        }
    }

    /// Takes the delta, and goes back. What is kept is then as it was; so it is after a refusal.
    fn go_back(&mut self, said: &mut Said) {
        let gone = save(said, &mut self.replica, &self.next);
        said.stop_if_short(gone.is_err());
        drop(gone);
        self.look(said);
        if said.is_answered() {
            show(said, &self.replica);
        }
    }

    /// Asks for the clients, for what is kept, or for what is retained of all topics.
    fn read(&self, said: &mut Said, call: &str) {
        match call {
            "clients" => {
                let clients = self.replica.clients(said.alloc);
                given(said, clients, TakeFault::Memory);
            }
            "held" => {
                let held = self.replica.held(said.alloc);
                given(said, held, TakeFault::Memory);
            }
            _ => match_all(said, &self.replica),
        }
    }
}

/// Puts aside what a delta replaces, takes the delta, and goes back. A fault is of what is beside.
fn save<R: Replica>(said: &mut Said, replica: &mut R, delta: &Delta) -> Result<(), TakeFault> {
    let staged = replica.prepare(said.alloc, delta)?;
    let mut aside = replica.aside(said.alloc)?;
    match replica.save(said.alloc, &mut aside, &staged) {
        Ok(()) => {
            replica.commit(staged);
            replica.put_back(aside);
            said.answer();
        }
        Err(fault) => {
            drop(staged);
            drop(aside);
            said.refuse(fault == TakeFault::Memory);
        }
    }
    Ok(())
}

/// Makes an empty replica.
fn show_empty<R: Replica>(said: &mut Said) {
    match R::empty(said.alloc) {
        Ok(replica) => {
            show(said, &replica);
            drop(replica);
            said.answer();
        }
        Err(fault) => {
            said.refuse(matches!(&fault, TakeFault::Memory));
            drop(fault);
        }
    }
}

/// Prints the octets of what a replica must keep.
fn show<R: Replica>(said: &mut Said, replica: &R) {
    let octets = kept(said, replica);
    said.octets(octets.as_slice());
    drop(octets);
}

/// Prints clients.
impl Shown for Vec<ClientId> {
    fn show(&self, said: &mut Said) {
        for client in self.as_slice() {
            said.octets(client.bytes());
        }
    }
}

/// Prints topics, each with what is retained of it.
impl Shown for Vec<(TopicName, Retained)> {
    fn show(&self, said: &mut Said) {
        for (topic, retained) in self.as_slice() {
            said.octets(topic.bytes());
            said.octets(retained.body.as_slice());
        }
    }
}

/// Prints the ids of clients at a glance.
impl Shown for Vec<Glimpse> {
    fn show(&self, said: &mut Said) {
        for glimpse in self.as_slice() {
            said.octets(glimpse.client.bytes());
        }
    }
}

/// Asks what is retained of all topics.
fn match_all<R: Replica>(said: &mut Said, replica: &R) {
    if let Some(all) = filter(said, b"#") {
        let found = replica.retained_matching(said.alloc, &all);
        drop(all);
        given(said, found, TakeFault::Memory);
    }
}

/// An empty replica.
pub(crate) fn new<R: Replica>(said: &mut Said) -> Option<R> {
    let made = R::empty(said.alloc);
    beside(said, made)
}

/// A replica that took the first connection, or more.
pub(crate) fn replica_with<R: Replica>(said: &mut Said, has_more: bool) -> Option<R> {
    let mut replica = new(said)?;
    take_parts(said, &mut replica, &FIRST);
    if has_more {
        take_parts(said, &mut replica, &NEXT);
    }
    Some(replica)
}

/// Takes the delta that hexadecimal digits spell, beside the call.
fn take_parts<R: Replica>(said: &mut Said, replica: &mut R, parts: &[&str]) {
    let delta = delta(said, parts);
    take(said, replica, &delta);
    drop(delta);
}

/// Takes a delta beside the call.
pub(crate) fn take<R: Replica>(said: &mut Said, replica: &mut R, delta: &Delta) {
    match replica.prepare(said.alloc, delta) {
        Ok(staged) => replica.commit(staged),
        Err(_) => said.stop(Stop::Memory),
    }
}

/// The octets of what a replica must keep.
fn kept<R: Replica>(said: &mut Said, replica: &R) -> Vec<u8> {
    match replica.held(said.alloc) {
        Ok(deltas) => spelled(said, deltas),
        Err(fault) => {
            drop(fault);
            said.stop(Stop::Memory);
            Vec::new(said.alloc)
        }
    }
}

/// Copies the view of the client.
fn copy_view<R: Replica>(said: &mut Said, replica: &R) {
    if let Some(client) = client(said) {
        if let Some(view) = replica.view_of(&client) {
            show_copy(said, view);
        }
        drop(client);
    }
}

/// Copies a view, and looks at the copy.
fn show_copy(said: &mut Said, view: &ClientView) {
    let copied = view.copy(said.alloc);
    match &copied {
        Ok(copy) => show_pending(said, view, copy),
        Err(fault) => said.refuse(matches!(fault, OpsFault::Memory)),
    }
    drop(copied);
}

/// Prints how many messages wait in the copy of a view.
fn show_pending(said: &mut Said, view: &ClientView, copy: &ClientView) {
    said.keep(has_same(view, copy));
    said.number("pending", copy.pending.as_slice().len());
    said.answer();
}

/// Whether two views have one session, under one stamp.
fn has_same(view: &ClientView, copy: &ClientView) -> bool {
    copy.session == view.session && copy.stamp == view.stamp
}
