//! Why the program ends early.

ghost use Rattle.std.specs.Prelude.{◌≡◌};
ghost use Rattle.sngw.specs.inner.Stopping.{status_of};

use gw_main::Key;
use std::fmt;

/// Why the program ends early. What it prints of that stands after `sngw: `.
#[derive(Clone, Copy)]
pub enum Stop {
    /// The command line does not parse.
    Arguments,
    /// The settings file cannot be read, or is larger than 1,048,576 octets.
    File,
    /// The settings file is no TOML document, or not UTF-8; or memory ran out.
    Text,
    /// A key is missing, or what stands there is not good.
    Key(Key),
    /// Another gateway has what this one must have made, and its journal does not have.
    Number,
    /// The two files of the journal cannot be opened.
    Disk,
    /// Memory ran out before the journal was opened.
    NoMemory,
    /// The journal cannot be opened. That was printed.
    Opening,
    /// The journal cannot be opened again after a shift, for the fault of this number.
    Reopening(u8),
    /// A socket cannot be had, or a receive failed.
    Socket,
    /// Memory ran out.
    Memory,
    /// History and passes of a shift do not agree.
    History,
}

impl fmt::Display for Stop {
    fn fmt<W: fmt::Write>(&self, f: &mut fmt::Formatter<W>) -> fmt::Result {
        match self {
            Stop::Key(key) => write!(f, "settings {key}"),
            Stop::Reopening(fault) => write!(f, "journal J{fault}"),
            stop => f.write_str(words(*stop)),
        }
    }
}

/// What is printed of a reason, but for what stands in it.
fn words(stop: Stop) -> &'static str {
    match stop {
        Stop::Arguments => "arguments",
        Stop::File => "settings file",
        Stop::Text => "settings text",
        Stop::Key(_) | Stop::Reopening(_) => "",
        Stop::Number => "number",
        Stop::Disk => "journal J1",
        Stop::NoMemory => "journal J4",
        Stop::Opening => "journal",
        Stop::Socket => "socket",
        Stop::Memory => "memory",
        Stop::History => "history",
    }
}

impl Stop {
    /// The program's status.
    pub(crate) fn status(self) -> u8
        ensures { result ≡ status_of self }
    {
        match self {
            Stop::Arguments | Stop::File | Stop::Text | Stop::Key(_) | Stop::Number => 1,
            Stop::Disk | Stop::NoMemory | Stop::Opening | Stop::Reopening(_) => 2,
            Stop::Socket => 3,
            Stop::Memory => 4,
            Stop::History => 5,
        }
    }
}
