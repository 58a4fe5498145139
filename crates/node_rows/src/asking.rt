//! Lines that ask the gateway what it retains, for its digest, and for its answer to a digest.

use crate::calls::{call, retained};
use crate::page::Page;
use crate::printing::{
    print_delta, print_digest, print_known, print_length, print_refusal, print_retained,
};
use crate::stop::{Stop, is_short};
use crate::words::Words;
use gw_node::{Answer, Node, Out, Step};
use jr_journal::MemoryDisk;
use rep_model::Replica;
use rep_ops::{Delta, Retained};
use sn_topic::TopicName;

/// `ask WHAT`: what the gateway says, and changes nothing.
pub(crate) fn ask<R: Replica>(page: &mut Page, node: &mut Node<R, MemoryDisk>, words: &mut Words) {
    match words.word() {
        "retained" => ask_retained(page, node, words),
        what => ask_step(page, node, what, words),
    }
}

/// What the gateway retains of each topic.
fn ask_retained<R: Replica>(page: &mut Page, node: &Node<R, MemoryDisk>, words: &mut Words) {
    if words.end(page) {
        match retained(page.alloc(), node) {
            Ok(all) => {
                print_all(page, all.as_slice());
                drop(all);
            }
            Err(_) => page.stop(Stop::Memory),
        }
    }
}

/// What is retained of topics, after a line with their number.
fn print_all(page: &mut Page, all: &[(TopicName, Retained)]) {
    print_length(page, "retained ", all.len());
    for (topic, retained) in all {
        print_retained(page, topic, retained);
    }
}

/// The call that asks for what a word says.
fn step_of(what: &str, words: &mut Words) -> Step {
    match what {
        "digest" => Step::Digest,
        what => {
            words.require(what == "answer");
            answer_step(words)
        }
    }
}

/// The call for an answer to the digest that the words spell.
fn answer_step(words: &mut Words) -> Step {
    match words.digest() {
        Some(digest) => Step::Answer { digest },
        None => Step::Digest,
    }
}

/// A call of the gateway, and what it says.
fn ask_step<R: Replica>(
    page: &mut Page,
    node: &mut Node<R, MemoryDisk>,
    what: &str,
    words: &mut Words,
) {
    let step = step_of(what, words);
    if words.end(page) {
        make(page, node, &step);
    }
    drop(step);
}

/// Makes a call of the gateway, and prints what it says.
fn make<R: Replica>(page: &mut Page, node: &mut Node<R, MemoryDisk>, step: &Step) {
    let answer = call(page.alloc(), node, step);
    print_said(page, &answer, node.starved());
    drop(answer);
}

/// What a gateway said.
fn print_said(page: &mut Page, answer: &Answer, is_starved: bool) {
    page.stop_if_short(is_short(answer, is_starved));
    match answer {
        Ok(out) => print_told(page, out),
        Err(fault) => {
            print_refusal(page, fault);
            page.end();
        }
    }
}

/// The octets of an answer's digest and of what it is, or else its deltas.
fn print_told(page: &mut Page, out: &Out) {
    match &out.digest {
        Some(digest) => {
            print_digest(page, digest);
            print_known(page, digest);
        }
        None => print_deltas(page, out.answer.as_slice()),
    }
}

/// The octets of deltas, after a line with their number.
fn print_deltas(page: &mut Page, deltas: &[Delta]) {
    print_length(page, "answered in ", deltas.len());
    for delta in deltas {
        print_delta(page, delta);
    }
}
