//! A field of gateways, run from a script, or from scripts that are made from a seed.
//!
//! Without arguments the program reads a script from standard input, runs it and prints what each
//! gateway answered on standard output. Nothing is printed before the whole script was read and
//! run: a bad line is printed alone, and so is a refused run.
//!
//! With `--random SEED` it makes scripts from the seed, plays them, and compares what gateways show
//! with what the definitions say. With `--plain` gateways keep their operations in the plain
//! replica, which forgets nothing. With `--rows` it reads many scripts, each after a line with its
//! name, and plays each by itself on both replicas.
//!
//! - `words`: the words of the command line.
//! - `rows`: many scripts in one text.
//! - `stop`: why nothing is played.
#![tactic(auto)]

mod rows;
mod stop;
mod words;

use crate::rows::{play_rows, tell_stop};
use crate::stop::Stop;
use crate::words::{Asked, Form, Options, read_words};
use gw_play::{Counted, Held, Source, play, play_with};
use gw_random::{Found, RandomFault, Report, random_run};
use rep_plain::Plain;
use std::alloc::Global;
use std::io::{ErrorKind, Write};
use std::process::ExitCode;
use std::{env, io};

fn main(rt: HostRuntime) -> ExitCode {
    let alloc = rt.alloc();
    let errors = rt.stderr();
    let mut out = io::writer(&rt);
    let mut err = io::writer(&errors);
    let status = match asked(&rt, alloc) {
        Ok(Asked::Read(form)) => {
            play_read(
                alloc,
                form,
                &mut Counted::new(rt.reader()),
                &mut out,
                &mut err,
            )
        }
        Ok(Asked::Random { plain, options }) => invent(alloc, plain, options, &mut out, &mut err),
        Err(stop) => tell_stop(stop, &mut err),
    };
    ExitCode::from(status)
}

/// What the command line asks for.
fn asked(rt: &HostRuntime, alloc: Global) -> Result<Asked, Stop> {
    let words = given(rt, alloc)?;
    read_words(alloc, words.as_slice())
}

/// The words of the command line, the program's name first.
fn given(rt: &HostRuntime, alloc: Global) -> Result<Vec<String>, Stop> {
    match env::args(&(rt, alloc)) {
        Ok(words) => Ok(words.collect(alloc)?),
        Err(error) if error.kind() == ErrorKind::OutOfMemory => Err(Stop::Memory),
        Err(_) => Err(Stop::Words),
    }
}

/// Plays what a source says. The exit status.
fn play_read<S: Source, O: Write, E: Write>(
    alloc: Global,
    form: Form,
    source: &mut S,
    out: &mut O,
    err: &mut E,
) -> u8 {
    match form {
        Form::Script { plain: false } => play(alloc, source, out),
        Form::Script { plain: true } => play_with::<Plain, _, _>(alloc, source, out),
        Form::Rows => play_rows(alloc, source, out, err),
    }
}

/// Plays random scripts, and prints what came of them. The exit status is 0 where none differs from
/// the definitions.
fn invent<O: Write, E: Write>(
    alloc: Global,
    plain: bool,
    options: Options,
    out: &mut O,
    err: &mut E,
) -> u8 {
    match invented(alloc, plain, options) {
        Ok(report) => {
            let status = tell(&report, options, out, err);
            drop(report);
            status
        }
        Err(fault) => tell_stop(Stop::Seed(fault), err),
    }
}

/// What comes of random scripts on plain replicas, or on folded ones.
fn invented(alloc: Global, plain: bool, options: Options) -> Result<Report, RandomFault> {
    let Options {
        seed,
        events,
        gateways,
    } = options;
    if plain {
        random_run::<Plain>(alloc, seed, events, gateways)
    } else {
        random_run::<Held>(alloc, seed, events, gateways)
    }
}

/// Prints a report: one line where nothing differs, else the script, and on the other writer what
/// differs.
fn tell<O: Write, E: Write>(report: &Report, options: Options, out: &mut O, err: &mut E) -> u8 {
    match &report.found {
        None => tell_same(report.events, report.scripts, options, out),
        Some(found) => {
            tell_found(found, options, out, err);
            1
        }
    }
}

/// Prints that nothing differs in so many events of so many scripts.
fn tell_same<O: Write>(events: u64, scripts: u64, options: Options, out: &mut O) -> u8 {
    let Options { seed, gateways, .. } = options;
    let line = writeln!(
        out,
        "seed {seed}, events {events}, gateways {gateways}, scripts {scripts}: no difference"
    );
    if line.is_ok() { 0 } else { 1 }
}

/// Prints a script, and on the other writer what differs.
fn tell_found<O: Write, E: Write>(found: &Found, options: Options, out: &mut O, err: &mut E) {
    let Options { seed, gateways, .. } = options;
    let _ = out.write_all(found.script.as_bytes());
    let told = found.told.as_str();
    let _ = writeln!(err, "seed {seed}, gateways {gateways}, {told}");
}
