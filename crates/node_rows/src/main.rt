//! Worked rows of gateways with their journals, of deliveries, of links and of shifts: what no
//! clause says, as that calls succeed, and octets written out by hand. And the work of benchmarks.
//!
//! A contract lets a call answer want of memory in place of almost anything; a row does not. If
//! memory runs out, also in a disk, the program prints no row: it says so on standard error.
//!
//! Standard input holds rows, each after a line `== NAME`; empty lines and those that begin with
//! `#` are skipped. Each row begins with nothing: no gateway, an empty disk, a link on which
//! nothing was said. The program prints each name, and below it what the lines of the row give; of
//! a line that is none of these, `no such line` and the line.
//!
//! A line is words with one space between them. Numbers are decimal, and below 65,536. The name of
//! a client is a word, and stands for the octets of the word; after `0x` it is the octets
//! themselves. OCTETS are words: hexadecimal digits in as many as is pleasant, names of octets, and
//! `-` for none.
//!
//! Names, which stay from row to row:
//!
//! - `name NAME OCTETS ..`: after this line, which may stand anywhere, the name is these octets.
//! - `repeat COUNT OCTETS ..`: these stand after the octets of the latest name so many times; `%`
//!   is the number of the time, from 0 on, in two octets, and `%%` in four hexadecimal digits.
//!
//! A gateway on the row's disk; the first three lines close the one that is open:
//!
//! - `open GATEWAY`: a gateway of this number is opened: the records that it read.
//! - `open GATEWAY SECONDS PORT`: the same of one that advertises itself so often, to a port of
//!   host 0.
//! - `fail COUNT`, `fail sync`: the next append stops after so many octets; or it goes out and its
//!   sync fails.
//! - `slots`: the octets of both slots.
//! - `state`: the records of its opening, whether it has halted, and how many clients it knows.
//! - `glance MOST OCTETS ..`: the clients above these octets at a glance, at most so many.
//! - `known CLIENT GATEWAY`: how many messages of a gateway are known for a client.
//!
//! Calls of the gateway, each with its answer:
//!
//! - `frame PORT MOMENT OCTETS ..`: a datagram comes from a port of host 0.
//! - `take OCTETS ..`: the delta that they spell comes.
//! - `tick MOMENT`: time goes by.
//! - `view CLIENT`: somebody asks for a client's view.
//! - `compact`, `reopen`: the journal is written anew; the gateway is opened again in place.
//! - `thrice CALL`: one of these as a value, with the answer three times.
//!
//! Of an answer are printed the datagrams; the number of operations that were made; of a view its
//! stamp, the duration of the session and how many messages wait. A refusal is printed by its
//! number, as `N3`, with the answer that it brings.
//!
//! What the gateway says and changes nothing:
//!
//! - `ask retained`: what it retains of each topic.
//! - `ask digest`: the octets of its digest, and of what it is.
//! - `ask answer OCTETS ..`: the deltas of its answer to the digest that they spell.
//!
//! Deliveries to a client, of which the gateway has a session, at port 7 of host 0 and moment 3;
//! what is drafted is not carried out:
//!
//! - `deliver CLIENT`, `resend CLIENT`: what waits goes out; what was sent goes out again.
//! - `hear CLIENT OCTETS ..`: the client answers a publication, or releases its own, by this frame.
//! - `meaning CLIENT OCTETS ..`: what a publication is about with these flags, an octet, and this
//!   topic field, two octets: the topic, or a return code.
//!
//! Of a draft are printed how many changes of the session there are, the messages that are
//! acknowledged, and the datagrams.
//!
//! Digests, and a link:
//!
//! - `digest OCTETS ..`: of how many clients they spell a digest, and of what topics.
//! - `beginnings OCTETS ..`: the same of each beginning of them but the whole.
//! - `say hello GATEWAY`, `say digest OCTETS ..`, `say delta OCTETS ..`: a message goes out: all
//!   that went out in this row.
//! - `within COUNT hello GATEWAY` and so on: a message goes to a writer that fails after so many
//!   octets.
//! - `feed OCTETS ..`: a piece comes in: the messages that are whole now, and the fault after
//!   them.
//!
//! All these lines are played on both replicas, and a last line says that they print the same. What
//! stands after a heading is played once, on the plain replica.
//!
//! Behind the heading `=== shifts` rows are of shifts. Each of the lines above may stand there; and
//! in a shift, during which the gateway is not open, those below. PLACE is where a
//! pass sits, from 0 on, in the order in which passes sat down in the row; those of an earlier
//! shift stay in their places:
//!
//! - `shift PASSES STEPS`: a shift of the gateway for so many passes, which sit down, and for 1 to
//!   4,096 calls.
//! - `pass PLACE CALL`: the pass at this place makes a call: its number and its answer. A refusal
//!   by the shift itself is printed by its number, as `K1`.
//! - `often PLACE COUNT CALL`: the pass makes the call so many times.
//! - `together PLACE COUNT CALL`: the passes from this place on make the call so many times each,
//!   each pass in a thread of its own and all at once.
//! - `plan CALL`: one more call for the next `beside`, which takes the latest three, or for the next
//!   `row`, which takes the first of all.
//! - `row PLACE COUNT`: the pass makes these calls in a row, of which so many are made; the others
//!   are planned still. How many were made, and then each call as with `pass`.
//! - `beside FIRST SECOND`: the pass at the first place makes the first two calls, and the pass at
//!   the second place the third, each in a thread of its own: the least and the greatest number of
//!   these calls, the second answer and the third.
//! - `after PLACE NUMBER MOST`: the pass asks for the deltas of the calls above a number, at most
//!   so many: how many there are.
//! - `end`: the shift is over.
//! - `close PLACE ..`: it is closed with the passes at these places: how many calls it has, and the
//!   gateway is open again. If it is refused, the passes sit down behind the others.
//!
//! After the heading `=== wires` rows are of settings, of serving and of links; the head of
//! `wires.rt` has their words.
//!
//! After the heading `=== benchmarks` each line is a work; the head of `works.rt` has them.
//!
//! The files:
//!
//! - `row`: what the lines of a row have brought about (`Row`), and the play of one more.
//! - `words`, `names`: lines that are read, by a cursor over their words.
//! - `page`, `printing`, `passing`: what is printed, and why no more is.
//! - `gateways`, `steps`, `asking`, `glances`, `deliveries`, `links`: lines that are played on both
//!   replicas.
//! - `shifts`, `wires`, `works`: those that are played once.
//! - `seats`: passes in their seats, and calls by threads.
//! - `calls`: calls of the libraries.
//! - `stop`: why a line is not played.
#![tactic(auto)]

mod asking;
mod calls;
mod deliveries;
mod gateways;
mod glances;
mod links;
mod names;
mod page;
mod passing;
mod printing;
mod row;
mod seats;
mod shifts;
mod steps;
mod stop;
mod wires;
mod words;
mod works;

use crate::names::{Names, add, repeat};
use crate::page::Page;
use crate::row::Row;
use crate::shifts::{Shifts, leave};
use crate::stop::{Stop, broken};
use crate::words::Words;
use rep_model::Replica;
use rep_plain::Plain;
use rep_state::Folded;
use std::alloc::{AllocError, Global};
use std::io::{self, Input, Write};
use std::mem;
use std::process::ExitCode;
use std::sync::Wait;
use std::thread::Threads;
use std::time::Clock;

/// What lines may stand here.
#[derive(Clone, Copy)]
enum Part {
    /// Lines that are played on both replicas.
    Rows,
    /// These, and lines about shifts.
    Shifts,
    /// Lines about settings, serving and links.
    Wires,
    /// Works of the benchmarks.
    Works,
}

/// What the lines have brought about on a replica.
struct Play<R: Replica> {
    part: Part,
    names: Names,
    begun: Begun<R>,
}

impl<R: Replica> Drop for Play<R> {
    fn drop(self) {
        let Play {
            part: _,
            names,
            begun,
        } = self;
        drop(names);
        drop(begun);
    }
}

/// What the lines of the row that has begun have brought about.
#[derive(Drop)]
struct Begun<R: Replica> {
    row: Row<R>,
    shifts: Shifts<R>,
    wires: wires::row::Row,
}

fn main(rt: HostRuntime) -> ExitCode {
    let mut page = Page::new(rt);
    play_input(&rt, &mut page);
    write(&rt, &mut page);
    let reason = page.reason();
    drop(page);
    end(&rt, reason)
}

/// The status to end with. Tells the reason, if there is one.
fn end(rt: &HostRuntime, reason: Option<Stop>) -> ExitCode {
    match reason {
        None => ExitCode::SUCCESS,
        Some(stop) => {
            let _ = eprintln!(rt; "node_rows: {stop}");
            ExitCode::FAILURE
        }
    }
}

/// Plays all lines of standard input.
fn play_input<T>(rt: &T, page: &mut Page)
where
    T: Threads + Wait + Sync + Clock,
{
    let mut lines = Vec::new(page.alloc());
    match read_lines(&page.host(), &mut lines) {
        Ok(()) => play_parts(rt, page, lines.as_slice()),
        Err(stop) => page.stop(stop),
    }
    drop(lines);
}

/// The lines of standard input.
fn read_lines(rt: &HostRuntime, lines: &mut Vec<String>) -> Result<(), Stop> {
    let mut read = Ok(());
    for line in rt.lines(rt.alloc()) {
        read = read_line(lines, line);
        if read.is_err() {
            break;
        }
    }
    read
}

/// A line after those that are there.
fn read_line(lines: &mut Vec<String>, line: io::Result<String>) -> Result<(), Stop> {
    match line {
        Ok(line) => push(lines, line),
        Err(error) => {
            let stop = broken(&error);
            drop(error);
            Err(stop)
        }
    }
}

/// Adds a line.
fn push(lines: &mut Vec<String>, line: String) -> Result<(), Stop> {
    let pushed = lines.push(line);
    let is_short = pushed.is_err();
    drop(pushed);
    if is_short { Err(Stop::Memory) } else { Ok(()) }
}

/// Writes the page, unless something else than a line ended the play.
fn write(rt: &HostRuntime, page: &mut Page) {
    if page.reason().is_none() {
        let written = io::writer(rt).write_all(page.printed().as_bytes());
        if let Err(error) = &written {
            page.stop(broken(error));
        }
        drop(written);
    }
}

/// Plays the lines in front of the first heading on both replicas, if there are any, and those from
/// it on once.
fn play_parts<T>(rt: &T, page: &mut Page, lines: &[String])
where
    T: Threads + Wait + Sync + Clock,
{
    let (rows, others) = lines.split_at(front(lines).min(lines.len()));
    if !rows.is_empty() {
        play_both(rt, page, rows);
    }
    play_lines::<T, Plain>(rt, page, others);
}

/// How many lines stand in front of the first heading.
fn front(lines: &[String]) -> usize {
    for (at, line) in lines.iter().enumerate() {
        if line.starts_with("=== ") {
            return at;
        }
    }
    lines.len()
}

/// Plays lines on both replicas: prints what both print, which is the same, and a line that says
/// so; where it is not, what each prints.
fn play_both<T>(rt: &T, page: &mut Page, lines: &[String])
where
    T: Threads + Wait + Sync + Clock,
{
    let mut plain = Page::new(page.host());
    play_lines::<T, Folded>(rt, page, lines);
    play_lines::<T, Plain>(rt, &mut plain, lines);
    compare(page, &plain);
    drop(plain);
}

/// Whether the page of the plain replica is another one.
fn compare(page: &mut Page, plain: &Page) {
    if let Some(reason) = plain.reason() {
        page.stop(reason);
    }
    print_difference(page, plain.printed());
}

/// Whether the plain replica prints otherwise, and what.
fn print_difference(page: &mut Page, plain: &str) {
    if page.printed() == plain {
        page.text("== both replicas\nno difference\n");
    } else {
        page.text("== the plain replica prints otherwise\n");
        page.text(plain);
    }
}

/// Plays lines on a replica, one after the other, until something else than a line ends the play.
fn play_lines<T, R>(rt: &T, page: &mut Page, lines: &[String])
where
    T: Threads + Wait + Sync + Clock,
    R: Replica + Send,
    R::Staged: Send,
{
    let mut play: Play<R> = begin(page.alloc());
    play_all(rt, page, &mut play, lines);
    leave(page, &mut play.begun.shifts);
    drop(play);
}

/// Plays lines, one after the other, until something else than a line ends the play.
fn play_all<T, R>(rt: &T, page: &mut Page, play: &mut Play<R>, lines: &[String])
where
    T: Threads + Wait + Sync + Clock,
    R: Replica + Send,
    R::Staged: Send,
{
    for line in lines {
        if page.reason().is_none() {
            answer(rt, page, play, line.as_str());
        }
    }
}

/// No line has brought anything about.
fn begin<R: Replica>(alloc: Global) -> Play<R> {
    Play {
        part: Part::Rows,
        names: Names::new(alloc),
        begun: blank(alloc),
    }
}

/// No line of a row has brought anything about.
fn blank<R: Replica>(alloc: Global) -> Begun<R> {
    Begun {
        row: Row::new(alloc),
        shifts: Shifts::new(alloc),
        wires: wires::row::Row::new(alloc),
    }
}

/// Plays a line; empty ones and explanations say nothing.
fn answer<T, R>(rt: &T, page: &mut Page, play: &mut Play<R>, line: &str)
where
    T: Threads + Wait + Sync + Clock,
    R: Replica + Send,
    R::Staged: Send,
{
    if !is_silent(line) {
        match line.strip_prefix("== ") {
            Some(name) => begin_row(page, &mut play.begun, name),
            None => answer_words(rt, page, play, line),
        }
    }
}

/// Whether a line says nothing.
fn is_silent(line: &str) -> bool {
    line.is_empty() || line.starts_with('#')
}

/// A row of this name begins.
fn begin_row<R: Replica>(page: &mut Page, begun: &mut Begun<R>, name: &str) {
    leave(page, &mut begun.shifts);
    drop(mem::replace(begun, blank(page.alloc())));
    print_name(page, name);
}

/// Prints the name of a row.
fn print_name(page: &mut Page, name: &str) {
    page.text("== ");
    page.text(name);
    page.end();
}

/// Plays a heading or a line of words; tells a line that is none of the language.
fn answer_words<T, R>(rt: &T, page: &mut Page, play: &mut Play<R>, line: &str)
where
    T: Threads + Wait + Sync + Clock,
    R: Replica + Send,
    R::Staged: Send,
{
    match heading(line) {
        Some(part) => play.part = part,
        None => play_text(rt, page, play, line),
    }
    if page.forgive() {
        print_refused(page, line);
    }
}

/// The part after a heading, if a line is one.
fn heading(line: &str) -> Option<Part> {
    match line {
        "=== shifts" => Some(Part::Shifts),
        "=== wires" => Some(Part::Wires),
        "=== benchmarks" => Some(Part::Works),
        _ => None,
    }
}

/// Tells a line that is none of the language.
fn print_refused(page: &mut Page, line: &str) {
    page.text("no such line: ");
    page.text(line);
    page.end();
}

/// Plays a line of the text of settings, or one of words.
fn play_text<T, R>(rt: &T, page: &mut Page, play: &mut Play<R>, line: &str)
where
    T: Threads + Wait + Sync + Clock,
    R: Replica + Send,
    R::Staged: Send,
{
    match line.strip_prefix("toml ") {
        Some(more) => wires::add(page, &mut play.begun.wires, more),
        None => play_words(rt, page, play, line),
    }
}

/// Plays a line of words.
fn play_words<T, R>(rt: &T, page: &mut Page, play: &mut Play<R>, line: &str)
where
    T: Threads + Wait + Sync + Clock,
    R: Replica + Send,
    R::Staged: Send,
{
    let words = words_of(page.alloc(), line);
    match &words {
        Ok(words) => play_line(rt, page, play, words.as_slice()),
        Err(_) => page.stop(Stop::Memory),
    }
    drop(words);
}

/// The words of a line.
fn words_of(alloc: Global, line: &str) -> Result<Vec<&str>, AllocError> {
    line.split(' ').collect(alloc)
}

/// Plays a line that is about names, or one of the part.
fn play_line<T, R>(rt: &T, page: &mut Page, play: &mut Play<R>, words: &[&str])
where
    T: Threads + Wait + Sync + Clock,
    R: Replica + Send,
    R::Staged: Send,
{
    if !play_name(page, &mut play.names, words) {
        let mut words = Words::new(page.alloc(), &play.names, words);
        play_part(rt, page, play.part, &mut play.begun, &mut words);
    }
}

/// Plays a line if it is about names. Whether it is.
fn play_name(page: &mut Page, names: &mut Names, words: &[&str]) -> bool {
    match words {
        ["name", fields @ ..] => {
            add(page, names, fields);
            true
        }
        ["repeat", fields @ ..] => {
            repeat(page, names, fields);
            true
        }
        _ => false,
    }
}

/// Plays a line of a part.
fn play_part<T, R>(rt: &T, page: &mut Page, part: Part, begun: &mut Begun<R>, words: &mut Words)
where
    T: Threads + Wait + Sync + Clock,
    R: Replica + Send,
    R::Staged: Send,
{
    let first = words.word();
    match part {
        Part::Rows => row::play(page, &mut begun.row, first, words),
        Part::Shifts => shifts::play(rt, page, &mut begun.row, &mut begun.shifts, first, words),
        Part::Wires => wires::row::play(rt, page, &mut begun.wires, first, words),
        Part::Works => works::play(rt, page, first, words),
    }
}
