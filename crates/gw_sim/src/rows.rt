//! Worked scripts, each played by itself, on both replicas; and scripts that are made from a seed.
//!
//! A text holds scripts, each after a line `== NAME`. A script is what stands between two such
//! lines, without the line feed in front of the second: so a script that ends with a line feed has
//! an empty line after it. For each script that line is printed, what is printed for the script,
//! and a line with the exit status. Each is played on the folded replica and on the plain one;
//! where these do not print the same, what the plain one prints stands below.
//!
//! A script of the one line `random SEED EVENTS GATEWAYS` stands for scripts that are made from a
//! seed, of so many events in all: each is played, and what gateways show is compared with what the
//! definitions say (`gw_random`). No status is printed for it.

use crate::stop::Stop;
use crate::words::Options;
use gw_play::{Counted, Held, Source, play_with, read_all};
use gw_random::{Found, Report, random_run};
use rep_model::Replica;
use rep_plain::Plain;
use std::alloc::Global;
use std::io::Write;

/// What stands in front of a name.
const MARK: &str = "== ";

/// What ends a script after which there is another.
const NEXT: &str = "\n== ";

/// What a script begins with that stands for scripts from a seed.
const RANDOM: &str = "random ";

/// What stands in front of what the plain replica prints if that is something else.
const OTHERWISE: &[u8] = b"the plain replica prints otherwise:\n";

/// Plays all scripts of a text, and prints what came of them once all are played. The exit status
/// is 0 where the text is one of scripts, whatever came of each of them.
pub(crate) fn play_rows<S: Source, O: Write, E: Write>(
    alloc: Global,
    source: &mut S,
    out: &mut O,
    err: &mut E,
) -> u8 {
    match read_and_play(alloc, source) {
        Ok(printed) => {
            let status = print(printed.as_slice(), out);
            drop(printed);
            status
        }
        Err(stop) => tell_stop(stop, err),
    }
}

/// Prints octets. The exit status.
fn print<O: Write>(octets: &[u8], out: &mut O) -> u8 {
    let written = out.write_all(octets);
    if written.is_ok() { 0 } else { 1 }
}

/// Says why nothing is played. The exit status.
pub(crate) fn tell_stop<E: Write>(stop: Stop, err: &mut E) -> u8 {
    let _ = writeln!(err, "gw_sim: {stop}");
    1
}

/// What is printed for all scripts of a source.
fn read_and_play<S: Source>(alloc: Global, source: &mut S) -> Result<Vec<u8>, Stop> {
    let octets = read_all(alloc, source)?;
    match String::from_utf8(octets) {
        Ok(text) => play_all(alloc, text.as_str()),
        Err(_) => Err(Stop::Text),
    }
}

/// What is printed for all scripts of a text.
fn play_all(alloc: Global, text: &str) -> Result<Vec<u8>, Stop> {
    let Some(scripts) = text.strip_prefix(MARK) else {
        return Err(Stop::Name);
    };
    let mut printed = Vec::new(alloc);
    match play_each(alloc, scripts, &mut printed) {
        Ok(()) => Ok(printed),
        Err(stop) => {
            drop(printed);
            Err(stop)
        }
    }
}

/// Plays these scripts.
fn play_each(alloc: Global, scripts: &str, printed: &mut Vec<u8>) -> Result<(), Stop> {
    let mut rest = scripts;
    for _ in 0..scripts.len() {
        let Some((first, behind)) = rest.split_once(NEXT) else {
            break;
        };
        play_row(alloc, first, printed)?;
        rest = behind;
    }
    play_row(alloc, rest, printed)
}

/// Plays one script, in front of which its name stands in a line.
fn play_row(alloc: Global, row: &str, printed: &mut Vec<u8>) -> Result<(), Stop> {
    let Some((name, script)) = row.split_once('\n') else {
        return Err(Stop::Name);
    };
    if !print_name(name, printed) {
        return Err(Stop::Memory);
    }
    match script.strip_prefix(RANDOM) {
        Some(words) => play_random(alloc, words, printed),
        None => play_on_both(alloc, script, printed),
    }
}

/// Prints the line in front of a script. False if memory ran out.
fn print_name(name: &str, printed: &mut Vec<u8>) -> bool {
    writeln!(printed, "== {name}").is_ok()
}

/// Plays a script on the folded replica, and on the plain one, and prints what comes of it; twice
/// where these differ.
fn play_on_both(alloc: Global, script: &str, printed: &mut Vec<u8>) -> Result<(), Stop> {
    let mut folded = Vec::new(alloc);
    let mut plain = Vec::new(alloc);
    let is_printed = print_played::<Held>(alloc, script, &mut folded)
        && print_played::<Plain>(alloc, script, &mut plain)
        && print_both(folded.as_slice(), plain.as_slice(), printed);
    drop(plain);
    drop(folded);
    unless_short(is_printed)
}

/// Prints what a script prints on a replica, and a line with the exit status. False if memory ran
/// out.
fn print_played<R: Replica>(alloc: Global, script: &str, printed: &mut Vec<u8>) -> bool {
    let status = play_on::<R>(alloc, script, printed);
    writeln!(printed, "status {status}").is_ok()
}

/// Plays a script on a replica. The exit status.
fn play_on<R: Replica>(alloc: Global, script: &str, printed: &mut Vec<u8>) -> u8 {
    let mut source = Counted::new(script.as_bytes());
    play_with::<R, _, _>(alloc, &mut source, printed)
}

/// Prints what the folded replica prints, and what the plain one does where that is something else.
/// False if memory ran out.
fn print_both(folded: &[u8], plain: &[u8], printed: &mut Vec<u8>) -> bool {
    if folded == plain {
        return add(folded, printed);
    }
    add(folded, printed) && add(OTHERWISE, printed) && add(plain, printed)
}

/// Prints these octets after what is printed. False if memory ran out.
fn add(octets: &[u8], printed: &mut Vec<u8>) -> bool {
    printed.extend_from_slice(octets).is_ok()
}

/// What is printed stands in memory until all scripts are played, so that some of it is missing for
/// want of memory alone.
fn unless_short(is_printed: bool) -> Result<(), Stop> {
    if is_printed {
        Ok(())
    } else {
        Err(Stop::Memory)
    }
}

/// Plays scripts from a seed on the folded replica, and prints whether gateways showed what the
/// definitions say.
fn play_random(alloc: Global, words: &str, printed: &mut Vec<u8>) -> Result<(), Stop> {
    match numbers(alloc, words) {
        Ok(asked) => play_asked(alloc, asked, printed),
        Err(stop) => Err(stop),
    }
}

/// The same of so many events and gateways, from this seed.
fn play_asked(alloc: Global, asked: Options, printed: &mut Vec<u8>) -> Result<(), Stop> {
    match random_run::<Held>(alloc, asked.seed, asked.events, asked.gateways) {
        Ok(report) => {
            let is_printed = print_report(&report, printed);
            drop(report);
            unless_short(is_printed)
        }
        Err(fault) => Err(Stop::Seed(fault)),
    }
}

/// Prints a report: one line where nothing differs, else the script, and what differs. False if
/// memory ran out.
fn print_report(report: &Report, printed: &mut Vec<u8>) -> bool {
    match &report.found {
        None => print_same(report.events, report.scripts, printed),
        Some(found) => print_found(found, printed),
    }
}

/// Prints that nothing differs in so many events of so many scripts. False if memory ran out.
fn print_same(events: u64, scripts: u64, printed: &mut Vec<u8>) -> bool {
    writeln!(printed, "events {events}, scripts {scripts}: no difference").is_ok()
}

/// Prints a script, and what differs. False if memory ran out.
fn print_found(found: &Found, printed: &mut Vec<u8>) -> bool {
    add(found.script.as_bytes(), printed)
        && add(found.told.as_bytes(), printed)
        && add(b"\n", printed)
}

/// The seed, the number of events and that of gateways.
fn numbers(alloc: Global, words: &str) -> Result<Options, Stop> {
    let words: Vec<&str> = words.trim_end().split(' ').collect(alloc)?;
    let options = options_of(words.as_slice());
    drop(words);
    match options {
        Some(options) => Ok(options),
        None => Err(Stop::Random),
    }
}

/// What these words say, if they are three numbers.
fn options_of(words: &[&str]) -> Option<Options> {
    let [seed, events, gateways] = words else {
        return None;
    };
    Some(Options {
        seed: number(seed)?,
        events: number(events)?,
        gateways: small_number(gateways)?,
    })
}

/// A number.
fn number(text: &str) -> Option<u64> {
    match text.parse::<u64>() {
        Ok(number) => Some(number),
        Err(_) => None,
    }
}

/// A number below 256.
fn small_number(text: &str) -> Option<u8> {
    match text.parse::<u8>() {
        Ok(number) => Some(number),
        Err(_) => None,
    }
}
