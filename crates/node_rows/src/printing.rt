//! What is printed of answers, views, deltas and digests.

use crate::calls::{write_delta, write_digest};
use crate::page::Page;
use gw_node::{Answer, NodeFault, Out};
use rep_digest::{Digest, RetainedEntry};
use rep_model::ClientView;
use rep_ops::{Delta, Retained};
use sn_local::Send as Sending;
use sn_plan::{Draft, plan_without};
use sn_topic::TopicName;

/// What a gateway answered.
pub(crate) fn print_answer(page: &mut Page, answer: &Answer) {
    match answer {
        Ok(out) => {
            page.text("answer");
            print_out(page, out);
        }
        Err(fault) => print_refusal(page, fault),
    }
    page.end();
}

/// The number of a refusal, and the answer that it brings.
pub(crate) fn print_refusal(page: &mut Page, fault: &NodeFault) {
    page.number("refused N", u64::from(fault.number()));
    if let NodeFault::Disk { out } = fault {
        print_out(page, out);
    }
}

/// The parts of an answer.
pub(crate) fn print_out(page: &mut Page, out: &Out) {
    print_sends(page, out.sends.as_slice());
    if let Some(delta) = &out.made {
        page.length(", made ", delta.ops().len());
    }
    if let Some(view) = &out.view {
        print_view(page, view);
    }
}

/// Datagrams, each with where it goes to.
fn print_sends(page: &mut Page, sends: &[Sending]) {
    for send in sends {
        page.number(", to ", u64::from(send.to.host));
        page.number(":", u64::from(send.to.port));
        page.octets(" ", send.bytes.as_slice());
    }
}

/// The stamp of a view, the duration of its session, and how many messages wait.
fn print_view(page: &mut Page, view: &ClientView) {
    if let Some(stamp) = view.stamp {
        page.number(", stamp ", u64::from(stamp.epoch));
        page.number(".", u64::from(stamp.gateway));
    }
    if let Some(session) = &view.session {
        page.number(", seconds ", u64::from(session.duration));
    }
    page.length(", waiting ", view.pending.len());
}

/// The line of what is retained of a topic.
pub(crate) fn print_retained(page: &mut Page, topic: &TopicName, retained: &Retained) {
    page.number("retain ", u64::from(retained.clock));
    page.number(".", u64::from(retained.gateway));
    page.number(" ", u64::from(retained.qos.number()));
    page.octets(" ", topic.bytes());
    page.octets(" ", retained.body.as_slice());
    page.end();
}

/// Of how many clients a digest is, and what it has of topics.
pub(crate) fn print_known(page: &mut Page, digest: &Digest) {
    page.length("digest of ", digest.clients().len());
    page.end();
    for entry in digest.topics() {
        print_topic(page, entry);
    }
}

/// The line of what a digest has of a topic.
fn print_topic(page: &mut Page, entry: &RetainedEntry) {
    page.octets("topic ", entry.topic.bytes());
    page.number(" ", u64::from(entry.clock));
    page.number(".", u64::from(entry.gateway));
    page.end();
}

/// What is drafted.
pub(crate) fn print_draft(page: &mut Page, draft: Draft) {
    page.length("changes ", draft.changes().len());
    for (number, origin) in draft.acks() {
        page.number(", has ", u64::from(*origin));
        page.number(".", *number);
    }
    let plan = plan_without(page.alloc(), draft);
    print_sends(page, plan.sends.as_slice());
    drop(plan);
    page.end();
}

/// The octets of a digest.
pub(crate) fn print_digest(page: &mut Page, digest: &Digest) {
    let mut octets = Vec::new(page.alloc());
    let is_short = write_digest(page.alloc(), digest, &mut octets).is_err();
    page.stop_if_short(is_short);
    print_octets(page, "digest ", &octets);
    drop(octets);
}

/// The octets of a delta.
pub(crate) fn print_delta(page: &mut Page, delta: &Delta) {
    let mut octets = Vec::new(page.alloc());
    let is_short = write_delta(page.alloc(), delta, &mut octets).is_err();
    page.stop_if_short(is_short);
    print_octets(page, "delta ", &octets);
    drop(octets);
}

/// A line of octets after a text.
pub(crate) fn print_octets(page: &mut Page, text: &str, octets: &[u8]) {
    page.octets(text, octets);
    page.end();
}

/// A line of a length after a text.
pub(crate) fn print_length(page: &mut Page, text: &str, length: usize) {
    page.length(text, length);
    page.end();
}
