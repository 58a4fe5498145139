//! Lines that are printed beside the work, each output's by a thread of its own: who leaves them
//! unread does not hold the gateway up.

use crate::stop::Stop;
use std::alloc::Global;
use std::collections::VecDeque;
use std::sync::{Condvar, Mutex, Wait};
use std::time::{Clock, Duration};

/// How many lines wait at most.
const MOST_WAITING: usize = 256;

/// How many milliseconds the program waits at its end for an output to take its lines.
const AT_THE_END: u64 = 2_000;

/// Where lines are printed.
#[derive(Clone, Copy, PartialEq, Eq)]
pub(crate) enum Output {
    /// Standard output.
    Standard,
    /// Standard error.
    Errors,
}

/// What is to be printed.
#[derive(Drop)]
enum Line {
    /// A line, without its end.
    Text(String),
    /// Why the program ends.
    End(Stop),
    /// That so many lines were left out.
    LeftOut(u64),
}

#[derive(Drop)]
struct Waiting {
    /// What was not printed yet.
    lines: VecDeque<Line>,
    /// How many were left out after that.
    left_out: u64,
    /// Whether no more come.
    is_over: bool,
    /// Whether no thread prints: then whoever has a line does.
    is_alone: bool,
    /// Whether all were printed, and no more come.
    is_done: bool,
}

/// The lines of an output that wait to be printed. Any thread puts them there, under their lock,
/// and one prints them, without it.
pub(crate) struct Lines {
    host: HostRuntime,
    output: Output,
    waiting: Mutex<Waiting>,
    changed: Condvar,
}

impl Drop for Lines {
    fn drop(self) {
        let Lines {
            host,
            output: _,
            waiting,
            changed,
        } = self;
        drop(host);
        drop(waiting);
        drop(changed);
    }
}

/// The lines of both outputs.
#[derive(Clone, Copy, Drop)]
pub(crate) struct Said<'a> {
    /// Those of standard output.
    pub(crate) out: &'a Lines,
    /// Those of standard error.
    pub(crate) err: &'a Lines,
}

impl Lines {
    /// No line waits. `None` if memory runs out: there is room for all that may wait.
    pub(crate) fn of(host: HostRuntime, alloc: Global, output: Output) -> Option<Lines> {
        let lines = VecDeque::with_capacity(alloc, MOST_WAITING + 1).ok()?;
        Some(Lines {
            host,
            output,
            waiting: Mutex::new(Waiting {
                lines,
                left_out: 0,
                is_over: false,
                is_alone: false,
                is_done: false,
            }),
            changed: Condvar::new(),
        })
    }

    /// The system has refused the thread that was to print: from now on each line is printed by who
    /// has it.
    pub(crate) fn be_alone<T: Wait>(&self, rt: &T) {
        self.waiting.lock(rt).is_alone = true;
    }

    /// A line is to be printed. It is left out, and counted, if too many wait, or there was no
    /// memory for it.
    pub(crate) fn say<T: Wait>(&self, rt: &T, text: Option<String>) {
        let _ = self.put(rt, text.map(Line::Text), MOST_WAITING);
    }

    /// Has a line printed, unless too many wait. Whether it was not left out.
    pub(crate) fn try_say<T: Wait>(&self, rt: &T, text: Option<String>) -> bool {
        self.put(rt, text.map(Line::Text), MOST_WAITING)
    }

    /// Why the program ends is to be printed.
    pub(crate) fn say_end<T: Wait>(&self, rt: &T, stop: Stop) {
        let _ = self.put(rt, Some(Line::End(stop)), MOST_WAITING + 1);
    }

    /// A line is to be printed, if fewer than so many wait. Whether it was not left out.
    fn put<T: Wait>(&self, rt: &T, line: Option<Line>, most: usize) -> bool {
        if !self.is_alone(rt) {
            return self.wait_with(rt, line, most);
        }
        match line {
            Some(line) => {
                self.print(line);
                true
            }
            None => false,
        }
    }

    /// Whether no thread prints.
    fn is_alone<T: Wait>(&self, rt: &T) -> bool {
        self.waiting.lock(rt).is_alone
    }

    /// Puts a line to those that wait, if fewer than so many do. Whether it was not left out.
    fn wait_with<T: Wait>(&self, rt: &T, line: Option<Line>, most: usize) -> bool {
        let mut waiting = self.waiting.lock(rt);
        let is_kept = keep(&mut waiting, line, most);
        if !is_kept {
            waiting.left_out = waiting.left_out.saturating_add(1);
        }
        self.changed.notify_all();
        is_kept
    }

    /// Prints a line.
    fn print(&self, line: Line) {
        match self.output {
            Output::Standard => print_out(&self.host, &line),
            Output::Errors => print_err(&self.host, &line),
        }
        drop(line);
    }

    /// Prints each line, until no more come. Runs in a thread of its own; the lock is held to take
    /// a line, and not to print it.
    pub(crate) fn print_all<T: Wait>(&self, rt: &T) {
        for _ in rt.forever() {
            let Some(line) = self.next(rt) else {
                self.waiting.lock(rt).is_done = true;
                self.changed.notify_all();
                return;
            };
            self.print(line);
        }
        unreachable!()
    }

    /// What is to be printed next. It waits until there is something, or no more come.
    fn next<T: Wait>(&self, rt: &T) -> Option<Line> {
        let mut waiting = self
            .changed
            .wait_while(rt, self.waiting.lock(rt), |waiting| {
                waiting.lines.is_empty() && waiting.left_out == 0 && !waiting.is_over
            });
        if let Some(line) = waiting.lines.pop_front() {
            return Some(line);
        }
        if waiting.left_out == 0 {
            return None;
        }
        let count = waiting.left_out;
        waiting.left_out = 0;
        Some(Line::LeftOut(count))
    }

    /// No more lines come. Waits a moment until all are printed: the program is to end, whether
    /// anybody reads them or not.
    pub(crate) fn end<T: Wait + Clock>(&self, rt: &T) {
        self.waiting.lock(rt).is_over = true;
        self.changed.notify_all();
        let (waiting, _) = self.changed.wait_timeout_while(
            rt,
            self.waiting.lock(rt),
            Duration::from_millis(AT_THE_END),
            |waiting| !waiting.is_done && !waiting.is_alone,
        );
        let _ = waiting.is_done;
    }
}

/// Prints a line to standard output.
fn print_out(rt: &HostRuntime, line: &Line) {
    let _ = match line {
        Line::Text(text) => println!(rt; "{text}"),
        Line::End(stop) => println!(rt; "sngw: {stop}"),
        Line::LeftOut(count) => println!(rt; "lines left out {count}"),
    };
}

/// Prints a line to standard error.
fn print_err(rt: &HostRuntime, line: &Line) {
    let _ = match line {
        Line::Text(text) => eprintln!(rt; "{text}"),
        Line::End(stop) => eprintln!(rt; "sngw: {stop}"),
        Line::LeftOut(count) => eprintln!(rt; "lines left out {count}"),
    };
}

/// Puts a line after those that wait, if fewer than so many do. Says whether it did.
fn keep(waiting: &mut Waiting, line: Option<Line>, most: usize) -> bool {
    let Some(line) = line else {
        return false;
    };
    if waiting.lines.len() >= most {
        drop(line);
        return false;
    }
    waiting.lines.push_back(line).is_ok()
}
