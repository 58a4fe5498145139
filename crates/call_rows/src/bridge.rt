//! Worked rows of packets of MQTT, and of the topics of a field and a broker: what no clause says,
//! as that calls succeed, and octets written out by hand.
//!
//! A contract lets a call answer want of memory in place of almost anything; a row does not. If
//! memory runs out, the program prints no row: it says so on standard error.
//!
//! Each row stands after a line `== NAME`; empty lines and those that begin with `#` are skipped. The
//! program prints each name, and below it what the lines of the row give; of a
//! line that is none of these, `no such line` and the line.
//!
//! OCTETS are words of hexadecimal digits, in as many as is pleasant; `COUNTxDIGITS` are the octets
//! of the digits, so often; a word after an apostrophe, as `'t/a`, is the octets of its text, and
//! `-` is no octet. A PREFIX, a NAME, a TOPIC and a FILTER are one such word.
//!
//! Packets:
//!
//! - `packet OCTETS ..`: the packet in the words of MQTT 3.1.1 section 3, and below it the octets
//!   that it is written as, if they are others; or the number and the words of the fault.
//! - `with OCTETS ..`: what is written of the packet that was read, with these octets in place of
//!   its client, topic or filter.
//! - `firsts OCTETS ..`: what these octets are after each first octet from 00 to ff.
//! - `cuts OCTETS ..`: what each beginning of these octets is.
//! - `left OCTETS ..`: what Remaining Length says of the octets after the first, and how many
//!   octets follow it.
//!
//! `firsts` and `cuts` print only the name of the packet or the number of the fault, from which
//! first octet or number of octets on.
//!
//! Topics:
//!
//! - `prefix OCTETS ..`: a prefix of a broker's topics, or the words of the fault.
//! - `topic PREFIX NAME`: the broker's topic of a field's topic.
//! - `strip PREFIX TOPIC`: what is left of a broker's topic.
//! - `apart FILTER FILTER`: whether they have no topic in common; asked both ways.
//! - `below PREFIX FILTER FILTER`: the same of the first below the prefix, and of the second.
//!
//! A connection whose octets come in pieces:
//!
//! - `pieces OCTETS .. / OCTETS ..`: the packets after each piece, and how many octets wait.
//!
//! A bridge, whose lane 0 has the names `t/0` and `qa`, lane 1 has `t/1`, and so on. Its names are
//! below `f/` at the broker; commands come below `c/`, and below `k/` kept ones too:
//!
//! - `bridge LANES WINDOW [ROOM]`: a bridge that begins, with a spool if it has room for one.
//!   `ready LANES WINDOW [ROOM]`: one to which all have said yes; the id of each long name is 5.
//! - `known`: it has subscribed to all filters in an earlier connection.
//! - `unkept`: no filter hands on what the broker had kept.
//! - `crowd N`: the broker sends so many commands `c/ab` of quality of service 0; nothing is
//!   printed. `named N`: the gateway registers `t/0` for lane 0 so often; nothing is printed.
//! - `second N`: the second from now on.
//! - `field LANE OCTETS ..`, `commands OCTETS ..`, `broker OCTETS ..`: a frame or a packet comes.
//! - `resumed N`, `found N`, `stored N`, `store-failed`: what the spool says; a reading that it has
//!   kept has the topic `f/t/0` and the octets `hi`.
//! - `opened`, `lost`, `kept LINE`, `tick`: the other events.
//!
//! What is to be done is printed, one line each, or `nothing`.
//!
//! A spool:
//!
//! - `spool FROM BELOW NUMBER .. / NUMBER ..`: what is written of readings of the first numbers,
//!   and of the others, which need not be kept; and what is found in it.
//!
//! - `packets`, `topics`, `machine`, `spool`: lines that are played.
//! - `building`: a bridge of a line.
//! - `said`: what is printed.

mod building;
mod machine;
mod packets;
mod said;
mod spool;
mod topics;

use crate::bridge::building::Stage;
use crate::sets;
use crate::sets::page::Page;
use crate::sets::words::{Words, words_of};
use mq_packet::Packet;
use std::io;

/// Plays rows, and writes what that prints, unless memory runs out.
pub(crate) fn play_rows(rt: &HostRuntime, lines: &[String]) -> io::Result<()> {
    let mut page = Page::new(rt.alloc());
    play_lines(&mut page, lines);
    let written = sets::write(rt, &page);
    drop(page);
    written
}

/// Plays all lines; before the first there is no packet and no bridge.
fn play_lines(page: &mut Page, lines: &[String]) {
    let mut kept = None;
    let mut stage = None;
    for line in lines {
        if !page.is_short() {
            answer(page, &mut kept, &mut stage, line.as_str());
        }
    }
    drop(stage);
    drop(kept);
}

/// Plays a line; empty ones and explanations say nothing, and a row's name is printed.
fn answer(page: &mut Page, kept: &mut Option<Packet>, stage: &mut Option<Stage>, line: &str) {
    if is_silent(line) {
        return;
    }
    if line.starts_with("== ") {
        page.line(line);
    } else {
        play_line(page, kept, stage, line);
    }
}

/// Whether a line says nothing.
fn is_silent(line: &str) -> bool {
    line.is_empty() || line.starts_with('#') || line.starts_with("=== ")
}

/// Plays a line of a row, and tells one that is none of the language.
fn play_line(page: &mut Page, kept: &mut Option<Packet>, stage: &mut Option<Stage>, line: &str) {
    let mut words = words_of(page.alloc, line);
    play_words(page, kept, stage, &mut words);
    if let Some(stop) = words.stop {
        page.stopped(stop, line);
    }
}

/// Plays a line about packets or a spool, or another one.
fn play_words(
    page: &mut Page,
    kept: &mut Option<Packet>,
    stage: &mut Option<Stage>,
    words: &mut Words<'_>,
) {
    match words.first {
        "packet" => packets::packet(page, kept, words),
        "with" => packets::with(page, kept, words),
        "firsts" => packets::firsts(page, words),
        "cuts" => packets::cuts(page, words),
        "left" => packets::left(page, words),
        "spool" => spool::play(page, words),
        _ => play_other(page, stage, words),
    }
}

/// Plays a line about topics or a bridge.
fn play_other(page: &mut Page, stage: &mut Option<Stage>, words: &mut Words<'_>) {
    match words.first {
        "prefix" => topics::prefix(page, words),
        "topic" => topics::topic(page, words),
        "strip" => topics::strip(page, words),
        "apart" => topics::both_apart(page, words),
        "below" => topics::below(page, words),
        _ => machine::play(page, stage, words),
    }
}
