//! A client of MQTT-SN 1.2 for a person at a terminal: each run sends one thing to a gateway, waits
//! for what answers it, and prints in words what goes and what comes.
//!
//!     sn_client --gateway 127.0.0.1:18841 --id s1 connect --clean
//!     sn_client --gateway 127.0.0.1:18841 --id s1 subscribe tele/+ --qos 1
//!     sn_client --gateway 127.0.0.1:18841 --id s1 listen 60
//!
//! The session is at the gateway and belongs to the client's address, so the runs of one client
//! have one port. The status is 0 where what was asked for was accepted, 1 where it was refused, 2
//! where no answer came, 3 where the socket, the clock, the output or memory failed, and 4 where
//! the arguments are no command.
//!
//! - `words`: from the command line to a `Command`.
//! - `asking`: the frames that a command asks by.
//! - `talk`: one exchange, without a socket: what a frame means for what is awaited, and what
//!   answers it.
//! - `telling`: frames in words.
//! - `pace`: when a frame is sent again, and when a run is over.
//! - `wire`: the socket.
//! - `run`: all of it together.
#![tactic(auto)]

mod asking;
mod pace;
mod run;
mod talk;
mod telling;
mod wire;
mod words;

use clap::Error;
use clap::error::ErrorKind;
use run::{Fault, converse};
use std::process::ExitCode;
use words::{Settings, Unread, read};

/// The status of a run whose socket, clock, output or memory failed.
const FAILED: u8 = 3;

/// The status of a run whose arguments are no command.
const NO_COMMAND: u8 = 4;

fn main(rt: HostRuntime) -> ExitCode {
    ExitCode::from(status(&rt))
}

/// The status of a run.
fn status(rt: &HostRuntime) -> u8 {
    match carry_out(rt) {
        Ok(status) => status,
        Err(fault) => {
            let _ = eprintln!(rt; "sn_client: {fault}");
            match &fault {
                Fault::Frame(_) => NO_COMMAND,
                Fault::Io(_) | Fault::Port { .. } | Fault::Memory => FAILED,
            }
        }
    }
}

/// Reads the arguments, and does what they ask for.
fn carry_out(rt: &HostRuntime) -> Result<u8, Fault> {
    let words = given(rt)?;
    let done = obey(rt, words.as_slice());
    drop(words);
    done
}

/// The arguments, the program's name first.
fn given(rt: &HostRuntime) -> Result<Vec<String>, Fault> {
    let words = std::env::args(rt)?;
    Ok(words.collect(rt.alloc())?)
}

/// Does what these words ask for, or says why they ask for nothing.
fn obey(rt: &HostRuntime, words: &[String]) -> Result<u8, Fault> {
    match read(rt.alloc(), words) {
        Ok(settings) => follow(rt, &settings),
        Err(unread) => {
            let said = explain(rt, &unread);
            drop(unread);
            said
        }
    }
}

/// Does what the settings ask for.
fn follow(rt: &HostRuntime, settings: &Settings<'_>) -> Result<u8, Fault> {
    let outcome = converse(rt, settings)?;
    Ok(outcome.status())
}

/// Says why the arguments are no command, or gives the help that they ask for.
fn explain(rt: &HostRuntime, unread: &Unread) -> Result<u8, Fault> {
    match unread {
        Unread::Words(error) => {
            error.print(rt)?;
            Ok(status_of(error))
        }
        Unread::Word(fault) => {
            eprintln!(rt; "sn_client: {fault}; see sn_client --help")?;
            Ok(NO_COMMAND)
        }
    }
}

/// The status of a run that ends with this help or error.
fn status_of(error: &Error) -> u8 {
    if matches!(error.kind(), ErrorKind::OutOfMemory) {
        FAILED
    } else if error.use_stderr() {
        NO_COMMAND
    } else {
        0
    }
}
