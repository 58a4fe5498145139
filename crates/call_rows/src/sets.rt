//! Worked rows of datagrams, topic names and filters, and of operations, deltas, sessions, replicas
//! and journals: what no clause says, as that calls succeed, and octets written out by hand.
//!
//! The rows are played on both replicas, and a last line says that these print the same.
//!
//! A contract lets a call answer want of memory in place of almost anything; a row does not. If
//! memory runs out, also in a disk, the program prints no row: it says so on standard error.
//!
//! Each row stands after a line `== NAME`; empty lines and those that begin with `#` are skipped.
//! Each row begins with nothing: no operation, no octets, the empty session, an
//! empty replica, an empty disk, no frame and no predefined id. The program prints each name, and
//! below it what the lines of the row give; of a line that is none of these, `no such line` and the
//! line. After a line `=== datagrams` rows are of datagrams and topics, and after `=== streams` of
//! streams that fail; the heads of `datagrams.rt` and `streams.rt` have their words. After a line
//! `=== sets` they are as follows.
//!
//! A line is words with one space between them. Numbers are decimal. Octets are words of
//! hexadecimal digits, in as many as is pleasant; after a line `name NAME OCTETS ..`, which may
//! stand anywhere, also the name of some. The name of a client or a topic, a filter and a message
//! are a word each, and stand for the octets of the word; `-` is no octet.
//!
//! The session, and operations, which wait to be used:
//!
//! - `session WHERE clean SECONDS`, or `kept`: a session without anything else; WHERE is `active`,
//!   `asleep`, `awake`, `disconnected` or `lost`.
//! - `apply CHANGE`: it changes, or a table is full.
//! - `applies FIRST LAST CHANGE`: it changes so under each number from the first to the last, which
//!   stands in the place of each `%` that ends a word.
//! - `tell`: the session and all that it has.
//! - `sizes`: how many entries its tables have, and the least topic id that is not in use.
//! - `id NAME`, `topic ID`: the least topic id of a name; the name of a topic id; and whether the
//!   client knows it.
//! - `filter FILTER`, `asked NAME`: the quality of service of a filter; the greatest that is asked
//!   for a topic.
//! - `heard ID`: whether a message of this id was received.
//! - `op CLIENT EPOCH.GATEWAY COUNTER CHANGE`: a change of a client's session.
//! - `ops CLIENT EPOCH.GATEWAY FIRST LAST CHANGE`: the same change under each counter from the
//!   first to the last.
//! - `put CLIENT ORIGIN.NUMBER TOPIC QOS BODY`, or with `retained`, `expires SECOND` or both after:
//!   a message for a client.
//! - `puts CLIENT ORIGIN FIRST LAST TOPIC QOS SIZE`: messages of so many octets, all the letter
//!   `a`.
//! - `ack CLIENT ORIGIN FIRST LAST`: a client has these messages.
//! - `retain TOPIC CLOCK.GATEWAY QOS BODY`: what is retained of a topic.
//! - `retains FIRST LAST CLOCK.GATEWAY QOS SIZE`: of so many topics so many octets, all the letter
//!   `a`; the topics' names are their numbers in four hexadecimal digits.
//! - `acks COUNT`: message 1 of gateway 1 for so many clients, whose names are 0, 1 and so on in
//!   two octets.
//! - `takes COUNT`: the row's session under stamp 1.1 for so many clients of these names.
//!
//! A CHANGE is `take` (the row's session), `presence WHERE SECONDS`, `register ID NAME known` or
//! `new`, `subscribe FILTER QOS`, `unsubscribe FILTER`, `will none`, `will TOPIC QOS retained` or
//! `fleeting`, `message BODY` (the will's), `received ID`, `released ID`, `exchange none NEXT` or
//! `exchange ORIGIN.NUMBER ID PHASE NEXT` with `registering`, `published` or `released`; NEXT is
//! the next message id.
//!
//! Deltas; a delta is printed as a line with the number of its operations, and their lines:
//!
//! - `delta`, `copy`, `none`: the delta of the operations, a copy of it, the delta of no
//!   operations.
//! - `written`: the delta of the operations, and its octets, which stand in place of those that
//!   were there.
//! - `spell`: the octets of the delta of the operations stand after those that are there; nothing
//!   is printed.
//! - `client NAME`: whether a client may have this name.
//! - `octets OCTETS ..`, `behind OCTETS ..`: these octets; these stand behind those that are there.
//! - `set AT HEX`, `fill COUNT`, `cut COUNT`: an octet is another; octets of 0 after, up to so
//!   many; the first so many are left.
//! - `print`, `size`: the octets; how many there are.
//! - `read`, `count`: the delta that they spell; how many operations it has.
//! - `older`: the delta that they spell for what knows version 1 alone.
//! - `altered AT HEX`: how many operations it has where an octet is another; the octets stay.
//! - `beginnings`: the same of each beginning of them but the whole; neighbours that give the same
//!   share a line.
//!
//! The replica:
//!
//! - `join`: it takes the operations in one delta.
//! - `view CLIENT`, `copied CLIENT`: what it knows of a client; the same of a copy, and of a copy
//!   of the messages that wait.
//! - `waiting CLIENT`: how many messages wait.
//! - `next CLIENT GATEWAY`: the epoch of the client's next Take, and the number of the gateway's
//!   next message for it.
//! - `clients`: how many clients it knows.
//! - `held`, `parts`: the deltas of what must be kept; how many operations and octets each has, and
//!   its version.
//! - `retained TOPIC`, `clock TOPIC`: what is retained of a topic; the clock of what is retained
//!   next of it.
//! - `matching FILTER`: what is retained of the topics that a filter asks for.
//! - `topics`: what is retained of each topic, and how many there are.
//! - `fold`, `folded CLIENT GATEWAY`: as `join` and `next`, of a replica that folds; also if the
//!   rows are played on one that keeps all.
//! - `pair SEED TIMES SIZE LEAST`: so many times both replicas take so many operations that are
//!   made up of a number, if they are a delta: whether the two say the same after each, of LEAST or
//!   more.
//! - `back SEED TIMES SIZE LEAST`: the same, where one of the two takes two such deltas before
//!   each, and goes back.
//!
//! The disk, and the journal on it; SLOT is `first` or `second`:
//!
//! - `store SLOT`: the octets stand after those of a slot, synced.
//! - `fail COUNT`, `fail sync`: the next append stops after so many octets; or it goes out and its
//!   sync fails.
//! - `crash COUNT`, `crash all`: of what is not synced so many octets of each slot are left, or
//!   all.
//! - `slots`: the octets of both slots.
//! - `open GATEWAY`: the journal of a gateway is opened: its records.
//! - `append`: the delta of the operations is a new record.
//! - `together`: the operations, each a record by itself, are written at once.
//! - `compact`: the operations, each a record by itself, take the place of all records.
//! - `reopen`: the journal is opened once more as it stands: its records.
//! - `halt`: the journal is stopped.
//! - `halted`: whether it has stopped, and whether memory was refused.
//! - `place`: the slot that it writes.
//! - `close`: the journal is closed.
//! - `openings GATEWAY SLOT`: what is opened where each beginning of the octets stands after what
//!   the slot has: the slot that is read, and its octets.
//! - `appends GATEWAY COUNT`: what is opened after an `append` that stops after each number of
//!   octets up to this one, and a crash that leaves these.
//! - `writes GATEWAY COUNT`, `compactions GATEWAY COUNT`: the same of a `together`, of a `compact`.
//! - `retries GATEWAY CALL COUNT`: what an `open`, a `reopen` and a `compact` answer where one CALL
//!   (`sync`, `cut` or `read`) fails after each number of them up to this one.
//!
//! From `append` to `close` these want the journal open, all others closed. The last five try each
//! place on a disk of its own, with what the row's disk has; neighbours that give the same share a
//! line. With `retries` what is refused is tried once again, a compaction after one more `reopen`;
//! the line has the number of records that each opening reads, and those of an opening of what is
//! left.
//!
//! - `words`: the words of a line, which are read, and the fault of a line that is wrong.
//! - `page`: what is printed, and whether memory ran out.
//! - `row`: what the lines of a row have brought about (`Row`), and the play of one more.
//! - `datagrams`: the same of a row of datagrams and topics.
//! - `streams`: lines about streams.
//! - `names`, `operations`, `changes`: lines that make octets and operations.
//! - `sessions`, `deltas`, `replicas`, `topics`, `pairs`, `backs`, `journals`, `attempts`,
//!   `retries`: lines that are played.
//! - `made_up`: operations that are made up of a number.
//! - `calls`: calls of the libraries.
//! - `values`, `printing`, `runs`: what is printed.
//! - `stop`: why a line is not played.

mod attempts;
mod backs;
pub(crate) mod calls;
mod changes;
pub(crate) mod datagrams;
mod deltas;
mod journals;
mod made_up;
mod names;
mod operations;
pub(crate) mod page;
mod pairs;
mod printing;
mod replicas;
mod retries;
mod row;
pub(crate) mod runs;
mod sessions;
pub(crate) mod stop;
mod streams;
mod topics;
mod values;
pub(crate) mod words;

use crate::sets::names::Names;
use crate::sets::page::Page;
use crate::sets::row::Row;
use crate::sets::stop::Stop;
use crate::sets::words::{Words, words_of};
use rep_model::Replica;
use rep_plain::Plain;
use rep_state::Folded;
use std::alloc::Global;
use std::io::{self, ErrorKind, Write};
use std::mem;

/// What stands in front of a row's name.
const MARK: &str = "== ";

/// What rows are about.
#[derive(Clone, Copy)]
enum Part {
    /// Datagrams and topics.
    Datagrams,
    /// Operations, replicas and journals.
    Sets,
    /// Streams that fail.
    Streams,
}

/// What the lines have brought about.
struct Play<R: Replica> {
    part: Part,
    names: Names,
    begun: Begun<R>,
}

impl<R: Replica> Drop for Play<R> {
    fn drop(self) {
        let Play {
            part: _,
            names,
            begun,
        } = self;
        drop(names);
        drop(begun);
    }
}

/// What the lines of a row have brought about.
#[derive(Drop)]
struct Begun<R: Replica> {
    datagrams: datagrams::Row,
    row: Row,
    replica: R,
}

/// Plays rows on both replicas, and writes what that prints, unless memory runs out.
pub(crate) fn play_rows(rt: &HostRuntime, lines: &[String]) -> io::Result<()> {
    let page = print_both(rt.alloc(), lines);
    let written = write(rt, &page);
    drop(page);
    written
}

/// Writes a page, if memory did not run out.
pub(crate) fn write(rt: &HostRuntime, page: &Page) -> io::Result<()> {
    if page.is_short() {
        return Err(io::Error::from(ErrorKind::OutOfMemory));
    }
    io::writer(rt).write_all(page.as_str().as_bytes())
}

/// What both replicas print, which is the same, and a line that says so; where it is not, what each
/// prints.
fn print_both(alloc: Global, lines: &[String]) -> Page {
    let mut folded = played::<Folded>(alloc, lines);
    let plain = played::<Plain>(alloc, lines);
    compare(&mut folded, &plain);
    drop(plain);
    folded
}

/// Says after what one replica prints whether the other prints the same; where not, what that is.
fn compare(folded: &mut Page, plain: &Page) {
    folded.keep_fault(plain);
    if folded.as_str() == plain.as_str() {
        folded.line("== both replicas");
        folded.line("no difference");
    } else {
        folded.line("== the plain replica prints otherwise");
        folded.text(plain.as_str());
    }
}

/// What the lines print on a replica.
fn played<R: Replica>(alloc: Global, lines: &[String]) -> Page {
    let mut page = Page::new(alloc);
    if let Some(begun) = blank::<R>(&mut page) {
        play_from(&mut page, begun, lines);
    }
    page
}

/// Plays lines from a row on without a line.
fn play_from<R: Replica>(page: &mut Page, begun: Begun<R>, lines: &[String]) {
    let mut play = Play {
        part: Part::Sets,
        names: names::none(page.alloc),
        begun,
    };
    play_lines(page, &mut play, lines);
    drop(play);
}

/// Plays lines, one after the other, until memory runs out.
fn play_lines<R: Replica>(page: &mut Page, play: &mut Play<R>, lines: &[String]) {
    for line in lines {
        if !page.is_short() {
            answer(page, play, line.as_str());
        }
    }
}

/// An empty replica. If memory ran out, the page remembers that.
fn empty<R: Replica>(page: &mut Page) -> Option<R> {
    match R::empty(page.alloc) {
        Ok(replica) => Some(replica),
        Err(_) => {
            page.run_out();
            None
        }
    }
}

/// A row without a line. If memory ran out, the page remembers that.
fn blank<R: Replica>(page: &mut Page) -> Option<Begun<R>> {
    match empty::<R>(page) {
        Some(replica) => blank_with(page, replica),
        None => None,
    }
}

/// A row without a line, with an empty replica.
fn blank_with<R: Replica>(page: &mut Page, replica: R) -> Option<Begun<R>> {
    match empty::<Folded>(page) {
        Some(folded) => Some(Begun {
            datagrams: datagrams::begin(),
            row: row::begin(page.alloc, folded),
            replica,
        }),
        None => {
            drop(replica);
            None
        }
    }
}

/// Plays a line; empty ones and explanations say nothing.
fn answer<R: Replica>(page: &mut Page, play: &mut Play<R>, line: &str) {
    if line.is_empty() || line.starts_with('#') {
        return;
    }
    match line.strip_prefix("=== ") {
        Some(heading) => begin_part(page, play, heading),
        None => play_or_begin(page, play, line),
    }
}

/// Begins a part, and tells a heading that is none.
fn begin_part<R: Replica>(page: &mut Page, play: &mut Play<R>, heading: &str) {
    match heading {
        "datagrams" => play.part = Part::Datagrams,
        "sets" => play.part = Part::Sets,
        "streams" => play.part = Part::Streams,
        _ => page.stopped(Stop::Line, heading),
    }
}

/// Plays a line of a row, or begins one.
fn play_or_begin<R: Replica>(page: &mut Page, play: &mut Play<R>, line: &str) {
    if line.starts_with(MARK) {
        begin_row(page, play);
        page.line(line);
    } else {
        play_line(page, play, line);
    }
}

/// Begins a row.
fn begin_row<R: Replica>(page: &mut Page, play: &mut Play<R>) {
    if let Some(begun) = blank::<R>(page) {
        drop(mem::replace(&mut play.begun, begun));
    }
}

/// Plays a line, and tells one that is none of the language.
fn play_line<R: Replica>(page: &mut Page, play: &mut Play<R>, line: &str) {
    let mut words = words_of(page.alloc, line);
    match play.part {
        Part::Datagrams => datagrams::play(page, &mut play.begun.datagrams, &mut words),
        Part::Sets => play_words(page, play, &mut words),
        Part::Streams => streams::play(page, &mut words),
    }
    if let Some(stop) = words.stop {
        page.stopped(stop, line);
    }
}

/// Plays a line that names octets or makes them, or another of a row.
fn play_words<R: Replica>(page: &mut Page, play: &mut Play<R>, words: &mut Words<'_>) {
    let row = &mut play.begun.row;
    match words.first {
        "name" => names::add(&mut play.names, words),
        "octets" => names::set(&play.names, words, &mut row.octets),
        "behind" => names::extend(&play.names, words, &mut row.octets),
        _ => replicas::play(page, row, &mut play.begun.replica, words),
    }
}
