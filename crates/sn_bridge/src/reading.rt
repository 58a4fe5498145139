//! The settings file, and the file of the password.

use crate::ignored::tell_ignored;
use crate::parsing::{Setup, setup_in};
use crate::stop::Stop;
use std::alloc::Global;
use std::fs::File;
use std::io;
use std::io::{ErrorKind, Read, Write};

/// The largest settings file, in octets.
const LARGEST: u64 = 1_048_576;

/// The largest password, in octets: as many as MQTT can say (MQTT 3.1.1 section 3.1.3.5).
const LARGEST_PASSWORD: u64 = 65_535;

/// What the settings of a file ask for. Where they cannot be read, or are no TOML document, a line
/// says where.
pub(crate) fn setup_at<E: Write>(
    rt: &HostRuntime,
    alloc: Global,
    path: &str,
    err: &mut E,
) -> Result<Setup, Stop> {
    let text = text_at(rt, alloc, path, err)?;
    match toml::table_from_str(alloc, text.as_str()) {
        Ok(table) => {
            tell_ignored(path, &table, err);
            setup_in(rt, alloc, &table)
        }
        Err(error) => {
            if error.is_memory() {
                return Err(Stop::Memory);
            }
            let _ = write!(err, "{path}: {error}");
            Err(Stop::Text)
        }
    }
}

/// The text of a file.
fn text_at<E: Write>(
    rt: &HostRuntime,
    alloc: Global,
    path: &str,
    err: &mut E,
) -> Result<String, Stop> {
    match String::from_utf8(octets_at(rt, alloc, path, err)?) {
        Ok(text) => Ok(text),
        Err(_) => {
            let _ = writeln!(err, "{path}: not UTF-8");
            Err(Stop::Text)
        }
    }
}

/// The octets of a file.
fn octets_at<E: Write>(
    rt: &HostRuntime,
    alloc: Global,
    path: &str,
    err: &mut E,
) -> Result<Vec<u8>, Stop> {
    let mut octets = Vec::new(alloc);
    let read = read_whole(rt, path, &mut octets, err);
    match read {
        Ok(()) => Ok(octets),
        Err(stop) => {
            drop(octets);
            Err(stop)
        }
    }
}

/// Reads a file that is not too large. If it cannot be read, a line says why.
fn read_whole<E: Write>(
    rt: &HostRuntime,
    path: &str,
    octets: &mut Vec<u8>,
    err: &mut E,
) -> Result<(), Stop> {
    if let Err(error) = read_into(rt, path, LARGEST, octets) {
        let kind = error.kind();
        let _ = writeln!(err, "{path}: {kind}");
        return Err(unread(kind));
    }
    if octets.len() as u64 > LARGEST {
        let _ = writeln!(err, "{path}: more than {LARGEST} octets");
        return Err(Stop::File);
    }
    Ok(())
}

/// What it is told as that a file could not be read.
fn unread(kind: ErrorKind) -> Stop {
    match kind {
        ErrorKind::OutOfMemory => Stop::Memory,
        _ => Stop::File,
    }
}

/// Reads a file, one octet more than it may have at most.
fn read_into(rt: &HostRuntime, path: &str, most: u64, octets: &mut Vec<u8>) -> io::Result<()> {
    let file = File::open(rt, path)?;
    file.take(most.saturating_add(1)).read_to_end(octets)?;
    Ok(())
}

/// The first line of a file, which is a password; nothing where it cannot be read or is too long.
pub(crate) fn password_at(
    rt: &HostRuntime,
    alloc: Global,
    path: &str,
) -> Result<Option<Vec<u8>>, Stop> {
    let mut octets = Vec::new(alloc);
    if let Err(error) = read_into(rt, path, LARGEST_PASSWORD, &mut octets) {
        return match error.kind() {
            ErrorKind::OutOfMemory => Err(Stop::Memory),
            _ => Ok(None),
        };
    }
    if octets.len() as u64 > LARGEST_PASSWORD {
        return Ok(None);
    }
    let end = octets.iter().position(|octet| *octet == b'\n');
    if let Some(end) = end {
        octets.truncate(end);
    }
    Ok(Some(octets))
}
