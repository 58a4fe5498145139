//! A row of datagrams and topics: what its lines have brought about so far, and the play of one
//! more.
//!
//! OCTETS are words of hexadecimal digits, in as many as is pleasant; `COUNTxDIGITS` are the octets
//! of the digits, so often; a word after an apostrophe, as `'t/a`, is the octets of its text, and
//! `-` is no octet. A KIND, a FILTER and a NAME are one such word.
//!
//! Datagrams:
//!
//! - `frame OCTETS ..`: the frame in the words of section 5, and below it the octets that it is
//!   written as; or the number and the words of the fault.
//! - `with OCTETS ..`: the same of the frame that was read, with these octets in place of its
//!   ClientId, GwAdd, WillTopic, WillMsg, TopicName or Data.
//! - `types OCTETS ..`: what this body is after each octet from 00 to ff in the place of MsgType.
//! - `bodies KIND OCTETS ..`: what each beginning of this body is after one octet in the place of
//!   MsgType.
//! - `beginnings OCTETS ..`: what each beginning of a datagram is.
//!
//! The last three tell only the name of the message or the number of the fault, from which octet or
//! number of octets on. `types` and `bodies` try each body with either form of Length (section
//! 5.2.1), and say so if the two give different answers.
//!
//! Topics (sections 5.3.11, 5.3.12 and 6.7):
//!
//! - `name OCTETS ..`: a topic name, or the number and the words of the fault.
//! - `filter OCTETS ..`: the same of a filter, and which wildcards it has.
//! - `match FILTER NAME`: whether the filter asks for the name.
//! - `table ID NAME ..`: a table of predefined ids, or the fault.
//! - `id OCTETS ..`: the least predefined id of a name.
//! - `of ID`: the name of a predefined id.
//!
//! - `fields`: octets of a line.
//! - `frames`, `topics`: lines that are played.
//! - `words`, `shown`, `refusals`: what is printed.

pub(crate) mod fields;
mod frames;
mod refusals;
pub(crate) mod shown;
mod topics;
mod words;

use crate::sets::page::Page;
use crate::sets::stop::Stop;
use crate::sets::words::Words;
use sn_frame::Frame;
use sn_topic::Predefined;

/// What the lines of a row have brought about.
#[derive(Drop)]
pub(crate) struct Row {
    /// The frame that the last `frame` has read, with the octets of the last `with` after it.
    frame: Option<Frame>,
    /// The predefined ids of the last `table` that was taken.
    table: Option<Predefined>,
}

/// A row without a line.
pub(crate) fn begin() -> Row {
    Row {
        frame: None,
        table: None,
    }
}

/// Plays a line.
pub(crate) fn play(page: &mut Page, row: &mut Row, words: &mut Words<'_>) {
    match words.first {
        "frame" => frames::frame(page, &mut row.frame, words),
        "with" => frames::with(page, &mut row.frame, words),
        "types" => frames::types(page, words),
        "bodies" => frames::bodies(page, words),
        "beginnings" => frames::beginnings(page, words),
        _ => play_topic(page, &mut row.table, words),
    }
}

/// Plays a line about topics.
fn play_topic(page: &mut Page, table: &mut Option<Predefined>, words: &mut Words<'_>) {
    match words.first {
        "name" => topics::name(page, words),
        "filter" => topics::filter(page, words),
        "match" => topics::asked(page, words),
        "table" => topics::table(page, table, words),
        "id" => topics::id(page, table, words),
        "of" => topics::name_of(page, table, words),
        _ => words.fail(Stop::Line),
    }
}
