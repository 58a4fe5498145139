//! A row: what its lines have brought about so far, and the play of one more.

use crate::asking::ask;
use crate::deliveries;
use crate::gateways::{Store, fail, open, slots, state};
use crate::glances::{glance, known};
use crate::links::{beginnings, digest, feed, say, within};
use crate::page::Page;
use crate::steps::{call_as_value, call_once};
use crate::stop::Stop;
use crate::words::Words;
use gw_net::LinkIn;
use gw_node::Node;
use jr_journal::MemoryDisk;
use rep_model::Replica;
use std::alloc::Global;

/// What the lines of a row have brought about.
#[derive(Drop)]
pub(crate) struct Row<R: Replica> {
    pub(crate) store: Store<R>,
    /// The end of the link at which pieces come in.
    link: LinkIn,
    /// What went out.
    said: Vec<u8>,
}

impl<R: Replica> Row<R> {
    /// A row without a line.
    pub(crate) fn new(alloc: Global) -> Row<R> {
        Row {
            store: Store::new(alloc),
            link: LinkIn::new(),
            said: Vec::new(alloc),
        }
    }
}

/// Plays a line whose first word this is.
pub(crate) fn play<R: Replica>(page: &mut Page, row: &mut Row<R>, first: &str, words: &mut Words) {
    if is_of_disk(first) {
        play_disk(page, &mut row.store, first, words);
    } else if is_of_link(first) {
        play_link(page, &mut row.link, &mut row.said, first, words);
    } else {
        play_opened(page, &mut row.store, first, words);
    }
}

/// Whether a line with this first word is about a disk.
fn is_of_disk(first: &str) -> bool {
    match first {
        "open" | "fail" | "slots" => true,
        _ => false,
    }
}

/// Whether a line with this first word is about digests, or about a link.
fn is_of_link(first: &str) -> bool {
    match first {
        "digest" | "beginnings" | "say" | "within" | "feed" => true,
        _ => false,
    }
}

/// Lines about a disk, and a gateway that is opened on it.
fn play_disk<R: Replica>(page: &mut Page, store: &mut Store<R>, first: &str, words: &mut Words) {
    match first {
        "open" => open(page, store, words),
        "fail" => fail(page, store, words),
        _ => slots(page, store, words),
    }
}

/// Lines about digests, and about a link.
fn play_link(
    page: &mut Page,
    link: &mut LinkIn,
    said: &mut Vec<u8>,
    first: &str,
    words: &mut Words,
) {
    match first {
        "digest" => digest(page, words),
        "beginnings" => beginnings(page, words),
        "say" => say(page, said, words),
        "within" => within(page, words),
        _ => feed(page, link, words),
    }
}

/// Lines about the gateway, which is to be open.
fn play_opened<R: Replica>(page: &mut Page, store: &mut Store<R>, first: &str, words: &mut Words) {
    match &mut store.node {
        Some(node) => play_node(page, node, first, words),
        None => page.stop(Stop::Line),
    }
}

/// Lines about the gateway that is open. Each of the functions below knows the words of some lines,
/// and leaves all others to the next.
fn play_node<R: Replica>(
    page: &mut Page,
    node: &mut Node<R, MemoryDisk>,
    first: &str,
    words: &mut Words,
) {
    match first {
        "state" => state(page, node, words),
        "ask" => ask(page, node, words),
        "thrice" => call_as_value(page, node, words),
        "deliver" | "resend" | "hear" | "meaning" => deliveries::play(page, node, first, words),
        first => play_glance(page, node, first, words),
    }
}

/// Lines about its clients at a glance, and calls of it.
fn play_glance<R: Replica>(
    page: &mut Page,
    node: &mut Node<R, MemoryDisk>,
    first: &str,
    words: &mut Words,
) {
    match first {
        "glance" => glance(page, node, words),
        "known" => known(page, node, words),
        first => call_once(page, node, first, words),
    }
}
