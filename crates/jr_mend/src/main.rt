//! Cuts zeros from the end of a journal's file, which some file systems leave after a power cut, as
//! a person would do by hand: only if nothing but zeros is there, and if a gateway goes on without
//! them. Both files are copied before.
//!
//! - `mending`: what is to be cut (`find_cut`).
//! - `files`: the two files.
//! - `stop`: why nothing was mended.
//!
//! The definitions are in `specs/`: `Mending` (what is cut, and what is left).
#![tactic(auto)]

mod files;
mod mending;
mod stop;

use crate::files::{Both, Pair, copy_both, cut_file, end_in_zero, open_both, read_both};
use crate::mending::{Cut, find_cut, number_in};
use crate::stop::Stop;
use std::alloc::Global;
use std::io::Write;
use std::process::ExitCode;
use std::{env, io};

fn main(rt: HostRuntime) -> ExitCode {
    let errors = rt.stderr();
    let mut out = io::writer(&rt);
    let mut err = io::writer(&errors);
    match mend(&rt, rt.alloc(), &mut out) {
        Ok(()) => ExitCode::SUCCESS,
        Err(stop) => {
            let _ = writeln!(&mut err, "jr_mend: {stop}");
            ExitCode::from(stop.status())
        }
    }
}

/// Mends the journal that the command line names, if it is to be mended.
fn mend<O: Write>(rt: &HostRuntime, alloc: Global, out: &mut O) -> Result<(), Stop> {
    let path = path_in(rt, alloc)?;
    let done = mend_at(rt, alloc, path.as_str(), out);
    drop(path);
    done
}

/// Mends the journal at a path, if it is to be mended.
fn mend_at<O: Write>(rt: &HostRuntime, alloc: Global, path: &str, out: &mut O) -> Result<(), Stop> {
    let both = open_both(rt, alloc, path)?;
    match end_in_zero(&both) {
        Ok(true) => read_and_mend(rt, alloc, path, both, out),
        Ok(false) => Ok(()),
        Err(stop) => Err(stop),
    }
}

/// Reads both files, and mends the journal if it is to be mended.
fn read_and_mend<O: Write>(
    rt: &HostRuntime,
    alloc: Global,
    path: &str,
    both: Both,
    out: &mut O,
) -> Result<(), Stop> {
    let pair = read_both(alloc, both)?;
    let done = mend_pair(rt, alloc, path, &pair, out);
    drop(pair);
    done
}

/// Mends a journal that both files were read of, if it is to be mended.
fn mend_pair<O: Write>(
    rt: &HostRuntime,
    alloc: Global,
    path: &str,
    pair: &Pair,
    out: &mut O,
) -> Result<(), Stop> {
    let Some(gateway) = number_in(pair.first.as_slice(), pair.second.as_slice()) else {
        return Ok(());
    };
    let found = find_cut(
        alloc,
        gateway,
        pair.first.as_slice(),
        pair.second.as_slice(),
    );
    match found {
        Ok(None) => Ok(()),
        Ok(Some(cut)) => cut_off(rt, alloc, path, pair, cut, out),
        Err(fault) => Err(Stop::Journal(fault.number())),
    }
}

/// Copies both files, cuts one of them, and says so.
fn cut_off<O: Write>(
    rt: &HostRuntime,
    alloc: Global,
    path: &str,
    pair: &Pair,
    cut: Cut,
    out: &mut O,
) -> Result<(), Stop> {
    copy_both(rt, alloc, path, pair)?;
    let zeros = cut_file(pair, cut)?;
    let _ = writeln!(
        out,
        "{path}.{}: {zeros} zeros were cut, from byte {} on; copies of both files end in .mended",
        cut.ending(),
        cut.at
    );
    Ok(())
}

/// The path of the journal: the only word of the command line.
fn path_in(rt: &HostRuntime, alloc: Global) -> Result<String, Stop> {
    let mut words = Vec::new(alloc);
    let Ok(all) = env::args(&(rt, alloc)) else {
        return Err(Stop::Arguments);
    };
    for word in all {
        words.push(word)?;
    }
    if words.len() != 2 {
        return Err(Stop::Arguments);
    }
    match words.pop() {
        Some(path) => Ok(path),
        None => Err(Stop::Arguments),
    }
}
