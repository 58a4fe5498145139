//! Rows of what no clause says of the libraries' calls: that they succeed, and the octets.
//!
//! Standard input holds lines. Those in front of the first line that begins with `=== ` name calls,
//! each to be played with a growth of memory refused (`refusals`): what a call prints is printed at
//! once. From that line on stand rows of datagrams, sets and streams (`sets`), which are played on
//! both replicas after the last line is read; and after a line `=== bridges` rows of what a bridge
//! to MQTT is made of (`bridge`), which are played once.
//!
//! The heads of `refusals.rt`, `sets.rt` and `bridge.rt` have the words.
#![tactic(auto)]

mod bridge;
mod refusals;
mod sets;

use std::io::{self, ErrorKind, Input};
use std::process::ExitCode;
use std::sync::Wait;
use std::thread::Threads;
use std::time::Clock;

/// What a heading begins with.
const HEADING: &str = "=== ";

/// The heading of rows of bridges.
const BRIDGES: &str = "=== bridges";

fn main(rt: HostRuntime) -> ExitCode {
    match play_input(&rt, &rt) {
        Ok(()) => ExitCode::SUCCESS,
        Err(error) => {
            let _ = eprintln!(&rt; "call_rows: {error}");
            ExitCode::FAILURE
        }
    }
}

/// Plays standard input.
fn play_input<T>(rt: &T, host: &HostRuntime) -> io::Result<()>
where
    T: Threads + Wait + Sync + Clock,
{
    let mut rows = Vec::new(host.alloc());
    let read = read_lines(rt, host, &mut rows);
    let played = play_rows(host, read, &rows);
    drop(rows);
    played
}

/// Plays the rows, if all lines were read.
fn play_rows(rt: &HostRuntime, read: io::Result<()>, rows: &[String]) -> io::Result<()> {
    if read.is_err() {
        read
    } else {
        drop(read);
        play_parts(rt, rows)
    }
}

/// Plays the rows in front of the heading of bridges on both replicas, and those after it once.
fn play_parts(rt: &HostRuntime, rows: &[String]) -> io::Result<()> {
    let (sets, bridges) = rows.split_at(front(rows).min(rows.len()));
    if !sets.is_empty() {
        sets::play_rows(rt, sets)?;
    }
    if bridges.is_empty() {
        Ok(())
    } else {
        bridge::play_rows(rt, bridges)
    }
}

/// How many lines stand in front of the heading of bridges.
fn front(rows: &[String]) -> usize {
    for (at, line) in rows.iter().enumerate() {
        if line.as_str() == BRIDGES {
            return at;
        }
    }
    rows.len()
}

/// Reads all lines, plays those in front of the first heading, and keeps the others.
fn read_lines<T>(rt: &T, host: &HostRuntime, rows: &mut Vec<String>) -> io::Result<()>
where
    T: Threads + Wait + Sync + Clock,
{
    for line in host.lines(host.alloc()) {
        take_read(rt, host, rows, line)?;
    }
    Ok(())
}

/// Plays or keeps a line that is read.
fn take_read<T>(
    rt: &T,
    host: &HostRuntime,
    rows: &mut Vec<String>,
    line: io::Result<String>,
) -> io::Result<()>
where
    T: Threads + Wait + Sync + Clock,
{
    match line {
        Ok(line) => take_line(rt, host, rows, line),
        Err(error) => Err(error),
    }
}

/// Plays or keeps a line.
fn take_line<T>(rt: &T, host: &HostRuntime, rows: &mut Vec<String>, line: String) -> io::Result<()>
where
    T: Threads + Wait + Sync + Clock,
{
    if rows.is_empty() && !line.starts_with(HEADING) {
        let played = refusals::play_line(rt, host, line.as_str());
        drop(line);
        played
    } else {
        keep(rows, line)
    }
}

/// Keeps a line.
fn keep(rows: &mut Vec<String>, line: String) -> io::Result<()> {
    let pushed = rows.push(line);
    let is_short = pushed.is_err();
    drop(pushed);
    if is_short {
        Err(io::Error::from(ErrorKind::OutOfMemory))
    } else {
        Ok(())
    }
}
