//! Lines about topic names, filters and predefined ids.

use crate::sets::datagrams::fields::{field, octets};
use crate::sets::datagrams::refusals::refused_topic;
use crate::sets::datagrams::shown::print_text;
use crate::sets::page::Page;
use crate::sets::stop::Stop;
use crate::sets::words::Words;
use sn_topic::{Filter, Predefined, TopicFault, TopicName, matches};
use std::mem;

/// `name OCTETS ..`: a topic name, as a copy of it tells it.
pub(crate) fn name(page: &mut Page, words: &mut Words<'_>) {
    let octets = octets(words);
    if words.end() {
        name_of_octets(page, &octets);
    }
    drop(octets);
}

/// The topic name of these octets.
fn name_of_octets(page: &mut Page, octets: &[u8]) {
    match TopicName::new(page.alloc, octets) {
        Ok(name) => {
            print_name(page, name.copy(page.alloc));
            drop(name);
        }
        Err(fault) => refused_topic(page, fault),
    }
}

/// A topic name.
fn print_name(page: &mut Page, copy: Result<TopicName, TopicFault>) {
    match copy {
        Ok(name) => {
            page.text("name ");
            print_text(page, name.bytes());
            page.end();
            drop(name);
        }
        Err(_) => page.run_out(),
    }
}

/// `filter OCTETS ..`: a filter, as a copy of it tells it.
pub(crate) fn filter(page: &mut Page, words: &mut Words<'_>) {
    let octets = octets(words);
    if words.end() {
        filter_of_octets(page, &octets);
    }
    drop(octets);
}

/// The filter of these octets.
fn filter_of_octets(page: &mut Page, octets: &[u8]) {
    match Filter::new(page.alloc, octets) {
        Ok(filter) => {
            print_filter(page, filter.copy(page.alloc));
            drop(filter);
        }
        Err(fault) => refused_topic(page, fault),
    }
}

/// A filter, and which wildcards it has.
fn print_filter(page: &mut Page, copy: Result<Filter, TopicFault>) {
    match copy {
        Ok(filter) => {
            page.text("filter ");
            print_text(page, filter.bytes());
            print_wildcards(page, filter.has_wildcard(), filter.begins_with_wildcard());
            drop(filter);
        }
        Err(_) => page.run_out(),
    }
}

/// Which wildcards a filter has.
fn print_wildcards(page: &mut Page, has_one: bool, begins_with_one: bool) {
    match (has_one, begins_with_one) {
        (false, false) => page.line(", no wildcard"),
        (true, false) => page.line(", a wildcard"),
        (true, true) => page.line(", a wildcard at its beginning"),
        (false, true) => page.line(", no wildcard, and one at its beginning"),
    }
}

/// `match FILTER NAME`: whether a filter asks for a name.
pub(crate) fn asked(page: &mut Page, words: &mut Words<'_>) {
    let asked = field(words);
    let given = field(words);
    if let Some(filter) = words.last_filter(&asked) {
        ask(page, words, filter, &given);
    }
    drop(asked);
    drop(given);
}

/// Whether a filter asks for a name.
fn ask(page: &mut Page, words: &mut Words<'_>, filter: Filter, given: &[u8]) {
    if let Some(name) = words.topic_of(given) {
        print_asked(page, &filter, &name);
        drop(name);
    }
    drop(filter);
}

/// A filter, a name, and whether the one asks for the other.
fn print_asked(page: &mut Page, filter: &Filter, name: &TopicName) {
    print_text(page, filter.bytes());
    page.text(" ");
    page.either(matches(filter, name), "asks for", "does not ask for");
    page.text(" ");
    print_text(page, name.bytes());
    page.end();
}

/// `table ID NAME ..`: these are the predefined ids from here on, if they may be.
pub(crate) fn table(page: &mut Page, kept: &mut Option<Predefined>, words: &mut Words<'_>) {
    let mut entries = Vec::new(words.alloc);
    for _ in 0..words.left().div_ceil(2) {
        add_entry(words, &mut entries);
    }
    if words.end() {
        take_table(page, kept, entries);
    } else {
        drop(entries);
    }
}

/// These entries are the predefined ids from here on, if they may be.
fn take_table(page: &mut Page, kept: &mut Option<Predefined>, entries: Vec<(u16, TopicName)>) {
    match Predefined::new(page.alloc, entries) {
        Ok(table) => {
            keep(page, kept, table.copy(page.alloc));
            drop(table);
        }
        Err(fault) => refused_topic(page, fault),
    }
}

/// Adds an id and its name.
fn add_entry(words: &mut Words<'_>, entries: &mut Vec<(u16, TopicName)>) {
    let id = words.small_number();
    let octets = field(words);
    if let Some(name) = words.topic_of(&octets) {
        push(words, entries, (id, name));
    }
    drop(octets);
}

/// Adds an entry.
fn push(words: &mut Words<'_>, entries: &mut Vec<(u16, TopicName)>, entry: (u16, TopicName)) {
    let pushed = entries.push(entry);
    let is_short = pushed.is_err();
    drop(pushed);
    if is_short {
        words.fail(Stop::Memory);
    }
}

/// Keeps a table, and prints its entries.
fn keep(page: &mut Page, kept: &mut Option<Predefined>, copy: Result<Predefined, TopicFault>) {
    match copy {
        Ok(table) => {
            print_table(page, table.entries());
            drop(mem::replace(kept, Some(table)));
        }
        Err(_) => page.run_out(),
    }
}

/// The entries of a table.
fn print_table(page: &mut Page, entries: &[(u16, TopicName)]) {
    page.counted("predefined ids:", entries.len());
    for (id, name) in entries {
        print_entry(page, *id, name);
    }
}

/// An id and its name.
fn print_entry(page: &mut Page, id: u16, name: &TopicName) {
    page.text("  ");
    page.value(id);
    page.text(" ");
    print_text(page, name.bytes());
    page.end();
}

/// `id NAME`: the least predefined id of a name.
pub(crate) fn id(page: &mut Page, kept: &Option<Predefined>, words: &mut Words<'_>) {
    let octets = octets(words);
    if let Some(name) = words.last_topic(&octets) {
        print_text(page, name.bytes());
        print_id(page, id_of(kept, &name));
        drop(name);
    }
    drop(octets);
}

/// The least predefined id of a name.
fn id_of(kept: &Option<Predefined>, name: &TopicName) -> Option<u16> {
    match kept {
        Some(table) => table.id(name),
        None => None,
    }
}

/// An id, if there is one.
fn print_id(page: &mut Page, id: Option<u16>) {
    match id {
        Some(id) => {
            page.text(" has id ");
            page.value(id);
            page.end();
        }
        None => page.line(" has no id"),
    }
}

/// `of ID`: the name of a predefined id.
pub(crate) fn name_of(page: &mut Page, kept: &Option<Predefined>, words: &mut Words<'_>) {
    let id = words.small_number();
    if words.end() {
        page.value(id);
        match kept {
            Some(table) => print_name_of(page, table.name(id)),
            None => print_name_of(page, None),
        }
    }
}

/// The name of an id, if it has one.
fn print_name_of(page: &mut Page, name: Option<&TopicName>) {
    match name {
        Some(name) => {
            page.text(" is ");
            print_text(page, name.bytes());
            page.end();
        }
        None => page.line(" has no name"),
    }
}
