//! Lines about what a replica retains of topics.

use crate::sets::calls;
use crate::sets::page::Page;
use crate::sets::printing::print_retained;
use crate::sets::replicas::print_next;
use crate::sets::row::{self, Row};
use crate::sets::words::Words;
use rep_model::{MOST_RETAINED, Replica};
use rep_ops::Retained;
use sn_topic::{Filter, TopicName};

/// Plays a line about what is retained; leaves all others to the lines that want no replica.
pub(crate) fn play<R: Replica>(page: &mut Page, row: &mut Row, replica: &R, words: &mut Words<'_>) {
    match words.first {
        "retained" => retained(page, replica, words),
        "clock" => next_clock(page, replica, words),
        "matching" => matching(page, replica, words),
        "topics" => all(page, replica),
        _ => row::play(page, row, words),
    }
}

/// `retained TOPIC`: what is retained of a topic.
fn retained<R: Replica>(page: &mut Page, replica: &R, words: &mut Words<'_>) {
    let name = words.octets();
    if let Some(topic) = words.last_topic(name) {
        print_known(page, &topic, replica.retained(&topic));
        drop(topic);
    }
}

/// What is retained of a topic, if anything ever was.
fn print_known(page: &mut Page, topic: &TopicName, known: Option<&Retained>) {
    match known {
        None => page.line("never retained"),
        Some(retained) => print_retained(page, topic, retained),
    }
}

/// `clock TOPIC`: the clock of what is retained next of a topic.
fn next_clock<R: Replica>(page: &mut Page, replica: &R, words: &mut Words<'_>) {
    let name = words.octets();
    if let Some(topic) = words.last_topic(name) {
        print_next(page, "clock", replica.next_clock(&topic));
        drop(topic);
    }
}

/// `matching FILTER`: what is retained of the topics that a filter asks for.
fn matching<R: Replica>(page: &mut Page, replica: &R, words: &mut Words<'_>) {
    let asked = words.octets();
    if let Some(asked) = words.last_filter(asked) {
        print_matching(page, replica, &asked);
        drop(asked);
    }
}

/// What is retained of the topics that this filter asks for.
fn print_matching<R: Replica>(page: &mut Page, replica: &R, asked: &Filter) {
    match calls::matching(page.alloc, replica, asked) {
        Ok(found) => {
            print_found(page, &found);
            drop(found);
        }
        Err(_) => page.run_out(),
    }
}

/// What is retained of topics, after a line with their number.
fn print_found(page: &mut Page, found: &[(TopicName, Retained)]) {
    page.counted("matching", found.len());
    for (topic, retained) in found {
        print_retained(page, topic, retained);
    }
}

/// `topics`: what is retained of each topic, one place after the other, and how many places there
/// are.
fn all<R: Replica>(page: &mut Page, replica: &R) {
    let mut place = 0;
    for _ in 0..MOST_RETAINED {
        place = print_at(page, replica, place);
    }
    page.counted("topics", place);
}

/// What is retained of the topic at a place, if one is there, and the place after it.
fn print_at<R: Replica>(page: &mut Page, replica: &R, place: usize) -> usize {
    match calls::topic_at(replica, place) {
        None => place,
        Some((after, topic, retained)) => {
            print_retained(page, topic, retained);
            after
        }
    }
}
