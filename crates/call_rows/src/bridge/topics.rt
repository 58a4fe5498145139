//! Lines about the topics of a field and a broker.

use crate::sets::datagrams::fields::{field, octets};
use crate::sets::datagrams::shown::print_text;
use crate::sets::page::Page;
use crate::sets::stop::Stop;
use crate::sets::words::Words;
use br_map::{Prefix, PrefixFault, apart, apart_below};
use octets::{NoMemory, Octets};
use sn_topic::TopicName;

/// `prefix OCTETS ..`: a prefix.
pub(crate) fn prefix(page: &mut Page, words: &mut Words<'_>) {
    let given = octets(words);
    if words.end() {
        print_prefix(page, &given);
    }
    drop(given);
}

/// The prefix of these octets, or why there is none.
fn print_prefix(page: &mut Page, given: &[u8]) {
    match Prefix::new(page.alloc, given) {
        Ok(prefix) => {
            print_named(page, "prefix ", prefix.bytes());
            drop(prefix);
        }
        Err(fault) => refused(page, fault),
    }
}

/// A line of a word and octets.
fn print_named(page: &mut Page, word: &str, octets: &[u8]) {
    page.text(word);
    print_text(page, octets);
    page.end();
}

/// The line of a prefix that is refused; if memory ran out, the page remembers it.
fn refused(page: &mut Page, fault: PrefixFault) {
    if matches!(fault, PrefixFault::Memory) {
        page.run_out();
    }
    page.text("refused: ");
    page.value(fault);
    page.end();
}

/// The prefix of these octets.
fn prefix_of(words: &mut Words<'_>, octets: &[u8]) -> Option<Prefix> {
    match Prefix::new(words.alloc, octets) {
        Ok(prefix) => Some(prefix),
        Err(fault) => {
            words.fail(stop_of(fault));
            None
        }
    }
}

/// Why a line with a prefix that is refused is not played.
fn stop_of(fault: PrefixFault) -> Stop {
    match fault {
        PrefixFault::Memory => Stop::Memory,
        _ => Stop::Line,
    }
}

/// `topic PREFIX NAME`: the broker's topic of a field's topic.
pub(crate) fn topic(page: &mut Page, words: &mut Words<'_>) {
    let prefix = field(words);
    let given = field(words);
    if let Some(name) = words.last_topic(&given) {
        topic_below(page, words, &prefix, &name);
        drop(name);
    }
    drop(prefix);
    drop(given);
}

/// The broker's topic of a field's topic below a prefix.
fn topic_below(page: &mut Page, words: &mut Words<'_>, prefix: &[u8], name: &TopicName) {
    if let Some(prefix) = prefix_of(words, prefix) {
        print_topic(page, prefix.topic_of(page.alloc, name));
        drop(prefix);
    }
}

/// A broker's topic.
fn print_topic(page: &mut Page, made: Result<Octets, NoMemory>) {
    match made {
        Ok(topic) => {
            print_named(page, "topic ", topic.as_slice());
            drop(topic);
        }
        Err(_) => page.run_out(),
    }
}

/// `strip PREFIX TOPIC`: what is left of a broker's topic.
pub(crate) fn strip(page: &mut Page, words: &mut Words<'_>) {
    let prefix = field(words);
    let topic = field(words);
    if words.end() {
        strip_from(page, words, &prefix, &topic);
    }
    drop(prefix);
    drop(topic);
}

/// What is left of a broker's topic without a prefix.
fn strip_from(page: &mut Page, words: &mut Words<'_>, prefix: &[u8], topic: &[u8]) {
    if let Some(prefix) = prefix_of(words, prefix) {
        print_left(page, prefix.strip(topic));
        drop(prefix);
    }
}

/// What is left, if the topic begins so.
fn print_left(page: &mut Page, left: Option<&[u8]>) {
    match left {
        Some(rest) => print_named(page, "left ", rest),
        None => page.line("elsewhere"),
    }
}

/// What is said of two filters.
fn words_for(is_apart: bool) -> &'static str {
    if is_apart { "apart" } else { "not apart" }
}

/// `apart FILTER FILTER`: whether they have no topic in common, asked both ways.
pub(crate) fn both_apart(page: &mut Page, words: &mut Words<'_>) {
    let first = field(words);
    let second = field(words);
    if words.end() {
        page.text(words_for(apart(&first, &second)));
        page.text(", ");
        page.line(words_for(apart(&second, &first)));
    }
    drop(first);
    drop(second);
}

/// `below PREFIX FILTER FILTER`: the same of the first below the prefix, and of the second.
pub(crate) fn below(page: &mut Page, words: &mut Words<'_>) {
    let prefix = field(words);
    let filter = field(words);
    let other = field(words);
    if words.end() {
        below_prefix(page, words, &prefix, &filter, &other);
    }
    drop(prefix);
    drop(filter);
    drop(other);
}

/// Whether a filter below a prefix and another one have no topic in common.
fn below_prefix(
    page: &mut Page,
    words: &mut Words<'_>,
    prefix: &[u8],
    filter: &[u8],
    other: &[u8],
) {
    if let Some(prefix) = prefix_of(words, prefix) {
        print_below(page, apart_below(page.alloc, &prefix, filter, other));
        drop(prefix);
    }
}

/// Whether they have none.
fn print_below(page: &mut Page, answer: Result<bool, NoMemory>) {
    match answer {
        Ok(is_apart) => page.line(words_for(is_apart)),
        Err(_) => page.run_out(),
    }
}
