//! The gateway's program: a gateway on a wire, with its journal in two files.
//!
//! It reads its settings, opens the gateway on its journal, and then works shift by shift: in each,
//! threads serve datagrams, the clock ticks, and the links to other gateways talk. When a shift is
//! over the history of its calls and what its threads hold of it are compared, the gateway is
//! tended, and the next one begins. A gateway whose disk has failed is opened anew in place, by the
//! clock in the shift or by tending after it, which also writes its journal anew without what no
//! longer counts. The program may be stopped at any moment: what it answered for is on its disk.
//!
//! Where it ends early the last line on standard error says why, and where a file is the cause the
//! line before names it.
//!
//! - `words`: the words of the command line.
//! - `reading`: the settings file.
//! - `ignored`: keys of it that mean nothing where they stand.
//! - `stop`: why the program ends early (`Stop`).
//! - `program`: what the threads of the program have from its begin to its end.
//! - `running`: shifts one after the other.
//! - `lines`: lines that are printed beside the work.
//! - `dates`: the date of the machine, by which moments go.
//! - `keeping`: when the journal is written anew, and when a gateway that cannot write tries again.
//! - `doors`: how links are made: peers are dialled, others are accepted.
//! - `working`: the threads of one shift.
//! - `watched`: the wire, which ends with the shift.
//! - `held_over`: a datagram that came when its shift had no call left for it.
//! - `posting`: how replies go out.
//! - `admission`: which datagrams become calls, and which clients are let in.
//! - `board`: what is counted for whoever watches the gateway.
//! - `glancing`: the clients at a glance, once in some seconds.
//! - `watcher`: the thread that shows the gateway: `gathering` and `counting` are what is reported,
//!   `happenings` are the events, and `callers` ask the page.
#![tactic(auto)]

mod admission;
mod board;
mod callers;
mod counting;
mod dates;
mod doors;
mod gathering;
mod glancing;
mod happenings;
mod held_over;
mod ignored;
mod keeping;
mod lines;
mod posting;
mod program;
mod reading;
mod running;
mod stop;
mod watched;
mod watcher;
mod words;
mod working;

use crate::dates::hold_lifetime;
use crate::lines::{Lines, Output, Said};
use crate::program::{Gateway, Task};
use crate::reading::settings_at;
use crate::running::run;
use crate::stop::Stop;
use crate::words::{Asked, VERSION, asked_by, asks_version};
use file_disk::{FileDisk, FileDiskFault};
use gw_main::begin;
use gw_main::options::Settings;
use gw_wire::date;
use jr_disk::{Disk, Slot};
use rep_state::Folded;
use std::alloc::Global;
use std::io::Write;
use std::process::ExitCode;
use std::sync::{Arc, Wait};
use std::thread::Threads;
use std::time::Clock;
use std::{env, io, thread};

fn main(rt: HostRuntime) -> ExitCode {
    let errors = rt.stderr();
    let mut err = io::writer(&errors);
    let Some((out, lines)) = outputs(rt, rt.alloc()) else {
        return no_memory(&mut err);
    };
    for printed in [&out, &lines] {
        let is_printed = match printed.clone() {
            Ok(theirs) => thread::spawn(&rt, move || theirs.print_all(&rt)).is_ok(),
            Err(_) => false,
        };
        if !is_printed {
            printed.be_alone(&rt);
        }
    }
    let said = Said {
        out: &*out,
        err: &*lines,
    };
    let started = start(&rt, &rt, rt.alloc(), said, &mut io::writer(&rt), &mut err);
    end(&rt, said, started)
}

/// Tells that there is no memory for lines. The program's status.
fn no_memory<E: Write>(err: &mut E) -> ExitCode {
    let _ = writeln!(err, "sngw: {}", Stop::Memory);
    ExitCode::from(Stop::Memory.status())
}

/// The lines of both outputs. `None` if memory runs out.
fn outputs(host: HostRuntime, alloc: Global) -> Option<(Arc<Lines>, Arc<Lines>)> {
    let out = Arc::new(alloc, Lines::of(host, alloc, Output::Standard)?).ok()?;
    let err = Arc::new(alloc, Lines::of(host, alloc, Output::Errors)?).ok()?;
    Some((out, err))
}

/// The program's status. What was said is printed before, if anybody reads it.
fn end<T: Wait + Clock>(rt: &T, said: Said<'_>, started: Result<(), Stop>) -> ExitCode {
    let status = match started {
        Ok(()) => ExitCode::SUCCESS,
        Err(stop) => {
            if !matches!(stop, Stop::Opening) {
                said.err.say_end(rt, stop);
            }
            ExitCode::from(stop.status())
        }
    };
    said.out.end(rt);
    said.err.end(rt);
    status
}

/// Everything that the program does.
fn start<T, O: Write, E: Write>(
    rt: &T,
    host: &HostRuntime,
    alloc: Global,
    said: Said<'_>,
    out: &mut O,
    err: &mut E,
) -> Result<(), Stop>
where
    T: Threads + Wait + Sync + Clock,
{
    match words_of(host, alloc) {
        Some(words) => start_with(rt, host, alloc, words, said, out, err),
        None => Err(Stop::Arguments),
    }
}

/// Everything that these words ask for.
fn start_with<T, O: Write, E: Write>(
    rt: &T,
    host: &HostRuntime,
    alloc: Global,
    words: Vec<String>,
    said: Said<'_>,
    out: &mut O,
    err: &mut E,
) -> Result<(), Stop>
where
    T: Threads + Wait + Sync + Clock,
{
    if asks_version(words.as_slice()) {
        drop(words);
        let _ = writeln!(out, "sngw {VERSION}");
        return Ok(());
    }
    let asked = asked_by(alloc, words.as_slice());
    drop(words);
    match asked {
        Some(asked) => start_as(rt, host, alloc, asked, said, out, err),
        None => Err(Stop::Arguments),
    }
}

/// Reads the settings, opens a gateway by them, and works as many shifts as were asked for.
fn start_as<T, O: Write, E: Write>(
    rt: &T,
    host: &HostRuntime,
    alloc: Global,
    asked: Asked,
    said: Said<'_>,
    out: &mut O,
    err: &mut E,
) -> Result<(), Stop>
where
    T: Threads + Wait + Sync + Clock,
{
    let settings = settings_at(host, alloc, asked.config.as_str(), err);
    let shifts = asked.shifts;
    drop(asked);
    match settings {
        Ok(mut settings) => {
            let done = start_by(rt, host, alloc, &mut settings, shifts, said, out, err);
            drop(settings);
            done
        }
        Err(stop) => Err(stop),
    }
}

/// Opens a gateway by its settings, and works so many shifts. While the machine has no date, it is
/// opened without a lifetime.
fn start_by<T, O: Write, E: Write>(
    rt: &T,
    host: &HostRuntime,
    alloc: Global,
    settings: &mut Settings,
    shifts: u64,
    said: Said<'_>,
    out: &mut O,
    err: &mut E,
) -> Result<(), Stop>
where
    T: Threads + Wait + Sync + Clock,
{
    match disk_at(host, alloc, settings, err) {
        Ok(disk) => {
            let today = date(host);
            match opened_on(alloc, settings, disk, today, out, err) {
                Some(node) => {
                    let task = Task {
                        rt,
                        host,
                        alloc,
                        settings: &*settings,
                        shifts,
                        today,
                        said,
                    };
                    work(&task, node)
                }
                None => Err(Stop::Opening),
            }
        }
        Err(stop) => Err(stop),
    }
}

/// The gateway of these settings on its disk, without a lifetime if the machine has no date today.
/// `None` if it cannot be opened, which is printed.
fn opened_on<O: Write, E: Write>(
    alloc: Global,
    settings: &mut Settings,
    disk: FileDisk,
    today: u64,
    out: &mut O,
    err: &mut E,
) -> Option<Gateway> {
    let lifetime = hold_lifetime(settings, today, err);
    let node = opened(alloc, settings, disk, out, err);
    settings.lifetime = lifetime;
    node
}

/// The gateway of these settings on its disk. `None` if it cannot be opened, which is printed.
fn opened<O: Write, E: Write>(
    alloc: Global,
    settings: &Settings,
    disk: FileDisk,
    out: &mut O,
    err: &mut E,
) -> Option<Gateway> {
    begin::<Folded, FileDisk, O, E>(alloc, settings, disk, out, err).ok()
}

/// Works the shifts of a task with a gateway.
fn work<T>(task: &Task<'_, T>, node: Gateway) -> Result<(), Stop>
where
    T: Threads + Wait + Sync + Clock,
{
    if task.shifts == 0 {
        drop(node);
        return Ok(());
    }
    run(task, node)
}

/// The words of the command line. `None` if memory ran out.
fn words_of(rt: &HostRuntime, alloc: Global) -> Option<Vec<String>> {
    match env::args(&(rt, alloc)) {
        Ok(words) => words.collect(alloc).ok(),
        Err(_) => None,
    }
}

/// Whether both files are known to have no octets: then there is no journal, and an opening begins
/// one.
fn is_empty(disk: &mut FileDisk) -> bool {
    disk.len(Slot::First) == Ok(0) && disk.len(Slot::Second) == Ok(0)
}

/// The two files of the journal. That none was there is told: where the path is wrong, or nothing
/// is mounted there, a gateway would give names again that it has given.
fn disk_at<E: Write>(
    rt: &HostRuntime,
    alloc: Global,
    settings: &Settings,
    err: &mut E,
) -> Result<FileDisk, Stop> {
    let path = settings.journal.as_str();
    match FileDisk::at(rt, alloc, path) {
        Ok(mut disk) => {
            tell_if_empty(&mut disk, path, settings.log > 0, err);
            Ok(disk)
        }
        Err(fault) => Err(no_disk(path, fault, err)),
    }
}

/// Tells that no journal is there, if both files have no octets. Events are written after their
/// levels; this one is as bad as there are.
fn tell_if_empty<E: Write>(disk: &mut FileDisk, path: &str, has_levels: bool, err: &mut E) {
    if is_empty(disk) {
        let level = if has_levels { "<3>" } else { "" };
        let _ = writeln!(
            err,
            "{level}{path}.0, {path}.1: no journal is there, one is begun"
        );
    }
}

/// Tells why the two files cannot be had, unless memory ran out.
fn no_disk<E: Write>(path: &str, fault: FileDiskFault, err: &mut E) -> Stop {
    match fault {
        FileDiskFault::Memory => Stop::NoMemory,
        fault => {
            let _ = writeln!(err, "{path}.0, {path}.1: {fault}");
            Stop::Disk
        }
    }
}
