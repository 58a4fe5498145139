//! Lines about a script whose reading or writing fails.
//!
//! - `broken COUNT`: a reader gives a script in so many pieces, and then fails: the status, and how
//!   many octets are printed.
//! - `endless`: a source that never ends: what reading it answers, and how many octets were read.
//! - `room COUNT`: the writer takes so many octets, and then fails: the status, and for how many
//!   octets there was room at the end.

use crate::sets::page::Page;
use crate::sets::stop::Stop;
use crate::sets::words::Words;
use gw_play::{Counted, ReadFault, Source, play as play_script, read_all};
use std::io::{self, ErrorKind, Read, Write};

/// A script about one gateway, to which nothing happens.
const SCRIPT: &[u8] = b"gateway 0\n";

/// A reader that gives so many pieces of three line feeds, and then fails.
#[derive(Drop)]
struct Failing {
    left: u8,
}

impl Read for Failing {
    fn read(&mut self, buf: &mut [u8]) -> io::Result<usize> {
        if self.left == 0 || buf.len() < 3 {
            return Err(io::Error::from(ErrorKind::Other));
        }
        self.left -= 1;
        buf[0] = b'\n';
        buf[1] = b'\n';
        buf[2] = b'\n';
        Ok(3)
    }
}

/// A writer that takes so many octets, and then fails.
#[derive(Drop)]
struct Full {
    room: usize,
}

impl Write for Full {
    fn write(&mut self, buf: &[u8]) -> io::Result<usize> {
        let count = buf.len().min(self.room);
        if count == 0 {
            return Err(io::Error::from(ErrorKind::Other));
        }
        self.room -= count;
        Ok(count)
    }

    fn flush(&mut self) -> io::Result<()> {
        Ok(())
    }
}

/// A source of line feeds that never ends.
#[derive(Drop)]
struct Unending {
    made: u64,
}

impl Source for Unending {
    ghost reads = { λ s. s.made };

    fn read(&mut self, buf: &mut [u8]) -> io::Result<usize> {
        if self.made == u64::MAX || buf.is_empty() {
            return Err(io::Error::from(ErrorKind::Other));
        }
        self.made += 1;
        buf[0] = b'\n';
        Ok(1)
    }
}

/// Plays a line.
pub(crate) fn play(page: &mut Page, words: &mut Words<'_>) {
    match words.first {
        "broken" => broken(page, words),
        "endless" => endless(page, words),
        "room" => room(page, words),
        _ => words.fail(Stop::Line),
    }
}

/// A reader fails after so many pieces.
fn broken(page: &mut Page, words: &mut Words<'_>) {
    let left = words.octet();
    if words.end() {
        let mut printed = Vec::new(page.alloc);
        let mut source = Counted::new(Failing { left });
        let status = play_script(page.alloc, &mut source, &mut printed);
        drop(source);
        tell(page, status, printed.len());
        drop(printed);
    }
}

/// A source never ends.
fn endless(page: &mut Page, words: &mut Words<'_>) {
    if words.end() {
        let mut source = Unending { made: 0 };
        let read = read_all(page.alloc, &mut source);
        page.either(
            matches!(&read, Err(ReadFault::Endless)),
            "endless",
            "another answer",
        );
        drop(read);
        page.word(source.made);
        page.end();
    }
}

/// A writer fails after so many octets.
fn room(page: &mut Page, words: &mut Words<'_>) {
    let room = words.count();
    if words.end() {
        let mut writer = Full { room };
        let status = play_script(page.alloc, &mut Counted::new(SCRIPT), &mut writer);
        tell(page, status, writer.room);
    }
}

/// Prints a status, and how many octets.
fn tell(page: &mut Page, status: u8, octets: usize) {
    page.labelled("status", status as u64);
    page.labelled("octets", octets);
    page.end();
}
