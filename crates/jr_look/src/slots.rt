//! The two files of a journal.

use crate::stop::Stop;
use std::alloc::Global;
use std::fs::File;
use std::io::{self, Read};

/// The most octets that are read of a file, 1 GiB.
const MAX_SLOT: u64 = 1_073_741_824;

/// Adds all octets of a slot's file, which is opened for reading alone.
pub(crate) fn read_slot(
    rt: &HostRuntime,
    alloc: Global,
    octets: &mut Vec<u8>,
    path: &str,
    ending: &'static str,
) -> Result<(), Stop> {
    match format!(in alloc; "{path}.{ending}") {
        Ok(name) => {
            let done = read_file(rt, octets, name.as_str(), ending);
            drop(name);
            done
        }
        Err(_) => Err(Stop::Memory),
    }
}

/// Adds all octets of a file.
fn read_file(
    rt: &HostRuntime,
    octets: &mut Vec<u8>,
    name: &str,
    ending: &'static str,
) -> Result<(), Stop> {
    match File::open(rt, name) {
        Ok(file) => read_all(file, octets, ending),
        Err(error) => Err(unreadable(ending, error)),
    }
}

/// Adds all octets of an open file.
fn read_all(file: File, octets: &mut Vec<u8>, ending: &'static str) -> Result<(), Stop> {
    match file.take(MAX_SLOT + 1).read_to_end(octets) {
        Ok(_) if octets.len() as u64 > MAX_SLOT => Err(Stop::Long { ending }),
        Ok(_) => Ok(()),
        Err(error) => Err(unreadable(ending, error)),
    }
}

/// What is said of a file that cannot be read.
fn unreadable(ending: &'static str, error: io::Error) -> Stop {
    let kind = error.kind();
    drop(error);
    Stop::File { ending, kind }
}
