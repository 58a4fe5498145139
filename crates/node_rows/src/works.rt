//! The work of all benchmarks but those of the simulator and the daemon: the two codecs, the
//! journal, digests, and calls of a gateway by threads that share it.
//!
//! Each line names a work and how often it is done, as `frames 100`, `deltas 20`, `records 1000` or
//! `digests 10`. The program makes its own data, the same in each run, and prints counts and a
//! checksum of what the codec wrote. For these it reads no clock. The folder bench/ has the
//! stopwatch, and the same work in C.
//!
//! A line with two numbers, as `search 2 10`, asks for calls: a work, a number of threads and a
//! number of rounds of 4,096 calls. The works: `search`, a SEARCHGW, which writes nothing; `sleep`,
//! a DISCONNECT with a duration, which is a record of the journal each time. With 0 threads the
//! calls are made directly. The calls are told on standard output, and on standard error the
//! microseconds that they took, without opening and closing; a shift is closed and compared with
//! its passes, as always.
//!
//! - `numbers`: a sequence of numbers that is the same in each run (`Numbers`, `checksum`).
//! - `datagrams`: a mixed stream of datagrams.
//! - `frames`: each datagram of the stream decoded and encoded again.
//! - `making`: operations that put clients and messages there.
//! - `operations`: the operations of a delta of about 8 MiB.
//! - `deltas`: that delta encoded and decoded again.
//! - `records`: one change of a session appended to a journal on a disk in memory.
//! - `pair`: two gateways of which one was away.
//! - `digests`: the digest of that one, and the other's answer.
//! - `calls`: calls of one gateway, made directly and through a shift.

mod calls;
mod datagrams;
mod deltas;
mod digests;
mod frames;
mod making;
mod numbers;
mod operations;
mod pair;
mod records;

use crate::page::Page;
use crate::stop::{Stop, unworked};
use crate::words::Words;
use rep_ops::OpsFault;
use std::sync::Wait;
use std::thread::Threads;
use std::time::Clock;

/// Plays a line whose first word this is.
pub(crate) fn play<T>(rt: &T, page: &mut Page, name: &str, words: &mut Words)
where
    T: Threads + Wait + Sync + Clock,
{
    let count = words.large();
    if words.has_more() {
        let rounds = words.number();
        words.require(count <= calls::MOST);
        if words.end(page) {
            calls::run(rt, page, name, count as usize, rounds);
        }
    } else if words.end(page) {
        work(page, name, count);
    }
}

/// A work that is no calls.
fn work(page: &mut Page, name: &str, rounds: u32) {
    match name {
        "frames" => frames::run(page, rounds),
        "deltas" => deltas::run(page, rounds),
        "records" => records::run(page, rounds),
        "digests" => digests::run(page, rounds),
        _ => page.stop(Stop::Line),
    }
}

/// Notes a call of a work that was refused.
fn check(page: &mut Page, given: Result<(), OpsFault>) {
    match given {
        Ok(()) => {}
        Err(fault) => page.stop(unworked(&fault)),
    }
}
