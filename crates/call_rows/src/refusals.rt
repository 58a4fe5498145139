//! Rows named after calls, each to be played with a growth of memory refused.
//!
//! `use COUNT` makes so many growths; `all` plays each row; any other line is the name of a row,
//! which is the call's. A row makes what its call needs, calls, and prints the answer and what
//! stands. What it prints is the same wherever one growth is refused:
//!
//! - If the call answers Memory of its own type, the row looks at what must not have changed,
//!   prints `changed` if it has, calls again and goes on. The same holds if it answers that its
//!   disk failed, and memory was refused in that disk.
//! - If it answers something else that the row does not want, the row prints `another answer`.
//! - If memory is refused beside the call, the row begins again.
//!
//! On standard error is a line for each row: how often the call was refused memory, how often the
//! disk, and how often memory was refused beside. Rows of a replica or a gateway are played on both
//! replicas. `no growth` stands after a row whose call asks for no memory.
//!
//! Who refuses a growth is whoever starts the program: `tools/refusals.py`. The writers and wires
//! of the rows take no memory.

mod bridges;
mod calls;
mod daemon;
mod deltas;
mod digests;
mod frames;
mod gateways;
mod journals;
mod links;
mod locals;
mod packets;
mod page;
mod replicas;
mod reports;
mod rows;
mod said;
mod serving;
mod sessions;
mod shifts;
mod steps;
mod together;
mod topics;
mod worlds;

use crate::refusals::calls::{is_one_of, is_word};
use crate::refusals::rows::{NO_GROWTH, ROWS, play_row};
use crate::refusals::said::{Said, Stop};
use std::alloc::Global;
use std::io::{self, ErrorKind, Write};
use std::sync::Wait;
use std::thread::Threads;
use std::time::Clock;

/// Plays a line.
pub(crate) fn play_line<T>(rt: &T, host: &HostRuntime, line: &str) -> io::Result<()>
where
    T: Threads + Wait + Sync + Clock,
{
    if is_word(line, "all") {
        return play_all(rt, host);
    }
    match line.strip_prefix("use ") {
        Some(count) => spend(host.alloc(), count.parse().unwrap_or(0)),
        None => show(rt, host, line),
    }
}

/// Plays each row.
fn play_all<T>(rt: &T, host: &HostRuntime) -> io::Result<()>
where
    T: Threads + Wait + Sync + Clock,
{
    for name in ROWS.split_whitespace() {
        show(rt, host, name)?;
    }
    Ok(())
}

/// Makes growths.
fn spend(alloc: Global, count: u32) -> io::Result<()> {
    for _ in 0..count {
        if Box::new(alloc, 0u64).is_err() {
            return Err(io::Error::from(ErrorKind::OutOfMemory));
        }
    }
    Ok(())
}

/// Plays a row, again if memory was refused beside its call, and prints what it says, and how often
/// memory was refused to it.
fn show<T>(rt: &T, host: &HostRuntime, name: &str) -> io::Result<()>
where
    T: Threads + Wait + Sync + Clock,
{
    let mut said = Said::new(host.alloc());
    play_row(rt, host, &mut said, name);
    if said.begin_again() {
        play_row(rt, host, &mut said, name);
    }
    let told = tell(host, name, &said);
    drop(said);
    told
}

/// Prints what a row says, and how often memory was refused to it.
fn tell(rt: &HostRuntime, name: &str, said: &Said) -> io::Result<()> {
    print(rt, name, said)?;
    let (refused, disk, beside) = (said.refused, said.disk, said.beside);
    eprintln!(rt; "refused {refused} disk {disk} beside {beside}")
}

/// Prints what a row says.
fn print(rt: &HostRuntime, name: &str, said: &Said) -> io::Result<()> {
    let mut out = io::writer(rt);
    out.write_all(b"== ")?;
    out.write_all(name.as_bytes())?;
    out.write_all(b"\n")?;
    out.write_all(said.page.as_slice())?;
    out.write_all(ending(name, said.reason()).as_bytes())
}

/// What stands at the end of a row, also of one whose call asks for no memory.
fn ending(name: &str, reason: Option<Stop>) -> &'static str {
    match reason {
        None if is_one_of(name, NO_GROWTH) => "no growth\n",
        None => "",
        Some(Stop::Row) => "no such row\n",
        Some(Stop::Memory) => "no memory\n",
        Some(Stop::Other) => "another answer\n",
    }
}
