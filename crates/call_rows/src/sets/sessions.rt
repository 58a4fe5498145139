//! Lines that describe a session, change it and ask it.

use crate::sets::changes::last_change;
use crate::sets::page::Page;
use crate::sets::printing::print_session;
use crate::sets::stop::Stop;
use crate::sets::values::presence;
use crate::sets::words::{Words, octets_of, words_of};
use sn_session::{Session, SessionOp};
use sn_tables::{QosLevel, SessionFault, TopicEntry};
use std::mem;

/// Where the number of a change stands that is made under each of several.
const NUMBER: char = '%';

/// How many words stand in front of the change in such a line.
const CHANGE_AT: usize = 3;

/// Plays a line that describes a session, changes it or tells it; leaves all others to the lines
/// that ask it.
pub(crate) fn play(page: &mut Page, session: &mut Session, words: &mut Words<'_>) {
    match words.first {
        "session" => describe(session, words),
        "apply" => apply(page, session, words),
        "applies" => applies(page, session, words),
        "tell" => print_session(page, session),
        "sizes" => sizes(page, session),
        _ => ask(page, session, words),
    }
}

/// Plays a line that asks a session.
fn ask(page: &mut Page, session: &Session, words: &mut Words<'_>) {
    match words.first {
        "id" => id(page, session, words),
        "topic" => topic_of(page, session, words),
        "filter" => qos_of(page, session, words),
        "asked" => asked_qos(page, session, words),
        _ => heard(page, session, words),
    }
}

/// `session WHERE clean SECONDS` or `kept`: the session is one without anything else.
fn describe(session: &mut Session, words: &mut Words<'_>) {
    let place = presence(words);
    let clean = words.one_of("kept clean") == 1;
    let duration = words.small_number();
    if words.end() {
        drop(mem::replace(session, Session::empty(words.alloc)));
        session.presence = place;
        session.clean = clean;
        session.duration = duration;
    }
}

/// `apply CHANGE`: the session changes.
fn apply(page: &mut Page, session: &mut Session, words: &mut Words<'_>) {
    if let Some(change) = last_change(words, session) {
        apply_change(page, session, &change);
        drop(change);
    }
}

/// The session changes, if no table is full.
fn apply_change(page: &mut Page, session: &mut Session, change: &SessionOp) {
    match session.apply(page.alloc, change) {
        Ok(()) => {}
        Err(SessionFault::Memory) => page.run_out(),
        Err(SessionFault::Full) => page.refused("full"),
    }
}

/// `applies FIRST LAST CHANGE`: it changes so under each number from the first to the last.
fn applies(page: &mut Page, session: &mut Session, words: &mut Words<'_>) {
    let (first, last) = (words.small_number(), words.small_number());
    if words.are_right() {
        for number in first..=last {
            words.return_to(CHANGE_AT);
            apply_numbered(page, session, words, number);
        }
    }
}

/// The session changes under a number.
fn apply_numbered(page: &mut Page, session: &mut Session, words: &mut Words<'_>, number: u16) {
    let line = numbered(words, number);
    apply_line(page, session, words, &line);
    drop(line);
}

/// The session changes as another line says.
fn apply_line(page: &mut Page, session: &mut Session, words: &mut Words<'_>, line: &Page) {
    let mut change = words_of(words.alloc, line.as_str());
    apply(page, session, &mut change);
    if let Some(stop) = change.stop {
        words.fail(stop);
    }
    if line.is_short() {
        words.fail(Stop::Memory);
    }
}

/// The line `apply CHANGE`, with a number in the place of its sign where a word ends in that.
fn numbered(words: &mut Words<'_>, number: u16) -> Page {
    let mut line = Page::new(words.alloc);
    line.word("apply");
    for _ in 0..words.left() {
        add_word(&mut line, words.word(), number);
    }
    line
}

/// Adds a word to a line, with a number in the place of its sign where the word ends in that.
fn add_word(line: &mut Page, word: &str, number: u16) {
    match word.strip_suffix(NUMBER) {
        Some(word) => {
            line.word(word);
            line.value(number);
        }
        None => line.word(word),
    }
}

/// `sizes`: how many entries its tables have, and the least topic id that is not in use.
fn sizes(page: &mut Page, session: &Session) {
    print_size(page, "topics", session.topics.len());
    print_size(page, "filters", session.subscriptions.len());
    print_size(page, "received", session.received.len());
    match session.free_id() {
        Some(id) => page.labelled("free id", id),
        None => page.word("no free id"),
    }
    page.end();
}

/// How many entries a table has.
fn print_size(page: &mut Page, table: &str, size: usize) {
    page.labelled(table, size);
    page.text(",");
}

/// `id NAME`: the least topic id of a name, and whether the client knows it.
fn id(page: &mut Page, session: &Session, words: &mut Words<'_>) {
    let asked = words.word();
    if let Some(name) = words.last_topic(octets_of(asked)) {
        page.word(asked);
        print_id(page, session.topic_id(&name), session.topic_named(&name));
        drop(name);
    }
}

/// The least topic id of a name.
fn print_id(page: &mut Page, id: Option<u16>, entry: Option<&TopicEntry>) {
    match id {
        Some(id) => page.labelled("has id", id),
        None => page.word("has no id"),
    }
    if let Some(entry) = entry {
        page.either(entry.known, "known", "new");
    }
    page.end();
}

/// `topic ID`: the name of a topic id.
fn topic_of(page: &mut Page, session: &Session, words: &mut Words<'_>) {
    let id = words.small_number();
    if words.end() {
        page.word(id);
        print_name(page, session.topic_of(id));
    }
}

/// The name of a topic id.
fn print_name(page: &mut Page, entry: Option<&TopicEntry>) {
    match entry {
        Some(entry) => {
            page.word("is");
            page.octets(entry.name.bytes());
            page.either(entry.known, "known", "new");
        }
        None => page.word("has no name"),
    }
    page.end();
}

/// `filter FILTER`: the quality of service of a filter.
fn qos_of(page: &mut Page, session: &Session, words: &mut Words<'_>) {
    let asked = words.word();
    if let Some(filter) = words.last_filter(octets_of(asked)) {
        print_filter(page, asked, session.subscription(&filter));
        drop(filter);
    }
}

/// The quality of service of a filter.
fn print_filter(page: &mut Page, asked: &str, found: Option<QosLevel>) {
    page.either(found.is_some(), "filter", "no filter");
    page.word(asked);
    print_level(page, found);
}

/// The rest of a line, with a quality of service if there is one.
fn print_level(page: &mut Page, found: Option<QosLevel>) {
    if let Some(qos) = found {
        page.labelled("at", qos.number());
    }
    page.end();
}

/// `asked NAME`: the greatest quality of service that is asked for a topic.
fn asked_qos(page: &mut Page, session: &Session, words: &mut Words<'_>) {
    let asked = words.word();
    if let Some(name) = words.last_topic(octets_of(asked)) {
        print_asked(page, asked, session.subscribed_qos(&name));
        drop(name);
    }
}

/// The greatest quality of service that is asked for a topic.
fn print_asked(page: &mut Page, asked: &str, found: Option<QosLevel>) {
    page.word(asked);
    page.either(found.is_some(), "is asked for", "is not asked for");
    print_level(page, found);
}

/// `heard ID`: whether a message of this id was received.
fn heard(page: &mut Page, session: &Session, words: &mut Words<'_>) {
    let id = words.small_number();
    if words.end() {
        page.word(id);
        page.either(session.is_received(id), "was received", "was not received");
        page.end();
    }
}
