//! The settings file.

use crate::ignored::tell_ignored;
use crate::stop::Stop;
use gw_main::options::Settings;
use gw_main::{SettingsFault, settings};
use std::alloc::Global;
use std::fs::File;
use std::io;
use std::io::{ErrorKind, Read, Write};

/// The largest settings file, in octets.
const LARGEST: u64 = 1_048_576;

/// The settings of a file. Where they cannot be read, or are no TOML document, a line says where;
/// where a key is ignored, a line says which.
pub(crate) fn settings_at<E: Write>(
    rt: &HostRuntime,
    alloc: Global,
    path: &str,
    err: &mut E,
) -> Result<Settings, Stop> {
    match text_at(rt, alloc, path, err) {
        Ok(text) => {
            let found = settings_in(alloc, path, text.as_str(), err);
            drop(text);
            found
        }
        Err(stop) => Err(stop),
    }
}

/// The settings in the text of a file.
fn settings_in<E: Write>(
    alloc: Global,
    path: &str,
    text: &str,
    err: &mut E,
) -> Result<Settings, Stop> {
    match settings(alloc, text) {
        Ok(found) => {
            tell_ignored(alloc, path, text, err);
            Ok(found)
        }
        Err(fault) => Err(refused(alloc, path, text, fault, err)),
    }
}

/// Why settings are refused. If their text is no TOML document, a line says where.
fn refused<E: Write>(
    alloc: Global,
    path: &str,
    text: &str,
    fault: SettingsFault,
    err: &mut E,
) -> Stop {
    match fault {
        SettingsFault::Key(key) => Stop::Key(key),
        SettingsFault::Memory => Stop::Text,
        SettingsFault::Text => {
            place(alloc, path, text, err);
            Stop::Text
        }
    }
}

/// Says where a text is no TOML document.
fn place<E: Write>(alloc: Global, path: &str, text: &str, err: &mut E) {
    if let Err(error) = toml::table_from_str(alloc, text) {
        let _ = write!(err, "{path}: {error}");
    }
}

/// The text of a file.
fn text_at<E: Write>(
    rt: &HostRuntime,
    alloc: Global,
    path: &str,
    err: &mut E,
) -> Result<String, Stop> {
    let mut octets = Vec::new(alloc);
    match read_whole(rt, path, &mut octets, err) {
        Ok(()) => text_of(path, octets, err),
        Err(stop) => {
            drop(octets);
            Err(stop)
        }
    }
}

/// Reads a file. If it cannot be read, or is too large, a line says so.
fn read_whole<E: Write>(
    rt: &HostRuntime,
    path: &str,
    octets: &mut Vec<u8>,
    err: &mut E,
) -> Result<(), Stop> {
    match read_into(rt, path, octets) {
        Ok(()) => look_at_size(path, octets.len() as u64, err),
        Err(error) => Err(not_read(path, error.kind(), err)),
    }
}

/// Says so if a file of so many octets is too large.
fn look_at_size<E: Write>(path: &str, size: u64, err: &mut E) -> Result<(), Stop> {
    if size > LARGEST {
        let _ = writeln!(err, "{path}: more than {LARGEST} octets");
        return Err(Stop::File);
    }
    Ok(())
}

/// Octets as a text. If they are none, a line says so.
fn text_of<E: Write>(path: &str, octets: Vec<u8>, err: &mut E) -> Result<String, Stop> {
    match String::from_utf8(octets) {
        Ok(text) => Ok(text),
        Err(_) => Err(not_text(path, err)),
    }
}

/// Says that a file is no text.
fn not_text<E: Write>(path: &str, err: &mut E) -> Stop {
    let _ = writeln!(err, "{path}: not UTF-8");
    Stop::Text
}

/// Says that a file could not be read, and why.
fn not_read<E: Write>(path: &str, kind: ErrorKind, err: &mut E) -> Stop {
    let _ = writeln!(err, "{path}: {kind}");
    unread(kind)
}

/// What it is told as that a file could not be read: want of memory as that of its text.
fn unread(kind: ErrorKind) -> Stop {
    match kind {
        ErrorKind::OutOfMemory => Stop::Text,
        _ => Stop::File,
    }
}

/// Reads a file, one octet more than it may have at most.
fn read_into(rt: &HostRuntime, path: &str, octets: &mut Vec<u8>) -> io::Result<()> {
    let file = File::open(rt, path)?;
    file.take(LARGEST + 1).read_to_end(octets)?;
    Ok(())
}
