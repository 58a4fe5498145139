//! Shows what an opening would read of the journal in two files, and writes nothing to them.
//!
//! - `words`: the words of the command line.
//! - `slots`: the two files.
//! - `looking`: what there is to show (`Findings`).
//! - `page`: what is printed.
//! - `plain`, `changes`, `clients`: a report in words.
//! - `object`, `members`: a report as a JSON object.
//! - `advice`: faults, and what to do.
#![tactic(auto)]

mod advice;
mod changes;
mod clients;
mod looking;
mod members;
mod object;
mod page;
mod plain;
mod slots;
mod stop;
mod words;

use crate::looking::{Findings, look_at};
use crate::page::Page;
use crate::slots::read_slot;
use crate::stop::Stop;
use crate::words::{Options, read_words};
use std::alloc::Global;
use std::io::Write;
use std::process::ExitCode;
use std::{env, io};

/// The exit status where an opening would refuse.
const REFUSED: u8 = 2;

/// The exit status where there is nothing to show.
const STOPPED: u8 = 1;

fn main(rt: HostRuntime) -> ExitCode {
    let errors = rt.stderr();
    let mut out = io::writer(&rt);
    let mut err = io::writer(&errors);
    match look(&rt, rt.alloc(), &mut out) {
        Ok(true) => ExitCode::SUCCESS,
        Ok(false) => ExitCode::from(REFUSED),
        Err(stop) => {
            let _ = writeln!(&mut err, "jr_look: {stop}");
            ExitCode::from(STOPPED)
        }
    }
}

/// Reads, and prints what there is. Says whether an opening would take the journal.
fn look<O: Write>(rt: &HostRuntime, alloc: Global, out: &mut O) -> Result<bool, Stop> {
    match asked(rt, alloc) {
        None => Err(Stop::Arguments),
        Some(asked) => {
            let looked = look_by(rt, alloc, out, &asked);
            drop(asked);
            looked
        }
    }
}

/// What the command line asks for.
fn asked(rt: &HostRuntime, alloc: Global) -> Option<Options> {
    match given(rt, alloc) {
        None => None,
        Some(words) => {
            let options = read_words(alloc, words.as_slice());
            drop(words);
            options
        }
    }
}

/// The words of the command line, the program's name first.
fn given(rt: &HostRuntime, alloc: Global) -> Option<Vec<String>> {
    match env::args(&(rt, alloc)) {
        Ok(words) => words.collect(alloc).ok(),
        Err(_) => None,
    }
}

/// Reads both files, and prints what there is to show.
fn look_by<O: Write>(
    rt: &HostRuntime,
    alloc: Global,
    out: &mut O,
    asked: &Options,
) -> Result<bool, Stop> {
    let mut seen = Findings::none(asked.gateway);
    let shown = match find(rt, alloc, asked.path.as_str(), &mut seen) {
        Ok(()) => show(alloc, out, &seen, asked.is_json),
        Err(stop) => Err(stop),
    };
    drop(seen);
    shown
}

/// Reads both files, and finds what there is to show.
fn find(rt: &HostRuntime, alloc: Global, path: &str, seen: &mut Findings) -> Result<(), Stop> {
    let mut first = Vec::new(alloc);
    let mut second = Vec::new(alloc);
    let found = match read_both(rt, alloc, path, &mut first, &mut second) {
        Ok(()) => look_at(alloc, seen, first.as_slice(), second.as_slice()),
        Err(stop) => Err(stop),
    };
    drop(second);
    drop(first);
    found
}

/// Adds all octets of both files.
fn read_both(
    rt: &HostRuntime,
    alloc: Global,
    path: &str,
    first: &mut Vec<u8>,
    second: &mut Vec<u8>,
) -> Result<(), Stop> {
    match read_slot(rt, alloc, first, path, "0") {
        Ok(()) => read_slot(rt, alloc, second, path, "1"),
        Err(stop) => Err(stop),
    }
}

/// Prints what was found. Says whether an opening would take the journal.
fn show<O: Write>(
    alloc: Global,
    out: &mut O,
    seen: &Findings,
    is_json: bool,
) -> Result<bool, Stop> {
    let mut page = Page::new(alloc);
    if is_json {
        object::report(&mut page, seen);
    } else {
        plain::report(&mut page, seen);
    }
    let written = write(out, &page);
    drop(page);
    match written {
        Ok(()) => Ok(seen.fault.is_none()),
        Err(stop) => Err(stop),
    }
}

/// Writes a page.
fn write<O: Write>(out: &mut O, page: &Page) -> Result<(), Stop> {
    match page.whole() {
        None => Err(Stop::Memory),
        Some(text) => match out.write_all(text.as_bytes()) {
            Ok(()) => Ok(()),
            Err(_) => Err(Stop::Output),
        },
    }
}
