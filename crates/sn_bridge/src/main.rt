//! The bridge's program: a field of gateways on one side, an MQTT broker on the other. It is an
//! ordinary client of both: MQTT-SN 1.2 over UDP, MQTT 3.1.1 over TCP.
//!
//! It reads its settings, opens a socket for each lane, and then runs: what comes from both sides
//! goes through `br_core`, and what that gives goes out. All that counts on its disk are the lines
//! of what no side will have, and the spool, if there is one. It may be stopped at any moment: what
//! it acknowledged was acknowledged to it, or is in the spool.
//!
//! Where it ends early the last line on standard error says why.
//!
//! - `words`: the words of the command line.
//! - `reading`: the settings file.
//! - `keys`: what a document says of each key.
//! - `entries`: names that go up, and filters whose messages come down.
//! - `ignored`: keys that mean nothing.
//! - `parsing`: all of them, the first bad one named.
//! - `stop`: why the program ends early (`Stop`).
//! - `ends`: the sockets of the lanes, and the connection to the broker.
//! - `refused`: the lines of what no side will have.
//! - `spool`: the readings that the bridge answers for.
//! - `running`: one turn after the other.
//! - `telling`: what is told on standard error.
#![tactic(auto)]

mod ends;
mod entries;
mod ignored;
mod keys;
mod parsing;
mod reading;
mod refused;
mod running;
mod spool;
mod stop;
mod telling;
mod words;

use crate::reading::setup_at;
use crate::running::run;
use crate::stop::Stop;
use crate::words::asked_by;
use std::alloc::Global;
use std::io::Write;
use std::process::ExitCode;
use std::{env, io};

fn main(rt: HostRuntime) -> ExitCode {
    let errors = rt.stderr();
    let mut err = io::writer(&errors);
    match start(&rt, rt.alloc(), &mut err) {
        Ok(()) => ExitCode::SUCCESS,
        Err(stop) => {
            let _ = writeln!(&mut err, "sn_bridge: {stop}");
            ExitCode::from(stop.status())
        }
    }
}

/// Everything that the program does.
fn start<E: Write>(rt: &HostRuntime, alloc: Global, err: &mut E) -> Result<(), Stop> {
    let Some(path) = asked_of(rt, alloc) else {
        return Err(Stop::Arguments);
    };
    let setup = setup_at(rt, alloc, path.as_str(), err);
    drop(path);
    let setup = setup?;
    let done = run(rt, alloc, &setup, err);
    drop(setup);
    done
}

/// The path of the settings file, by the command line.
fn asked_of(rt: &HostRuntime, alloc: Global) -> Option<String> {
    let mut words = Vec::new(alloc);
    for word in env::args(&(rt, alloc)).ok()? {
        words.push(word).ok()?;
    }
    asked_by(alloc, words.as_slice())
}
