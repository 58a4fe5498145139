//! The two files of a journal.

use crate::mending::Cut;
use crate::stop::Stop;
use jr_disk::Slot;
use std::alloc::Global;
use std::fs::{File, TryLockError};
use std::io::{Read, Seek, SeekFrom, Write};

/// The most octets that are read of a file, 1 GiB.
const MAX_SLOT: u64 = 1_073_741_824;

/// Both files, open.
pub struct Both {
    first: File,
    second: File,
}

impl Drop for Both {
    fn drop(self) {
        let Both { first, second } = self;
        drop(first);
        drop(second);
    }
}

/// Both files, and what they hold.
pub struct Pair {
    /// The octets of the first file.
    pub first: Vec<u8>,
    /// The octets of the second file.
    pub second: Vec<u8>,
    both: Both,
}

impl Drop for Pair {
    fn drop(self) {
        let Pair {
            first,
            second,
            both,
        } = self;
        drop(first);
        drop(second);
        drop(both);
    }
}

/// Opens both files, which no other program may have as its journal.
pub(crate) fn open_both(rt: &HostRuntime, alloc: Global, path: &str) -> Result<Both, Stop> {
    let first = open_one(rt, alloc, path, 0)?;
    let second = open_one(rt, alloc, path, 1)?;
    Ok(Both { first, second })
}

/// Whether a file ends in zero. If none does there is nothing to cut, and nothing is read.
pub(crate) fn end_in_zero(both: &Both) -> Result<bool, Stop> {
    Ok(ends_in_zero(&both.first)? || ends_in_zero(&both.second)?)
}

/// Reads both files.
pub(crate) fn read_both(alloc: Global, both: Both) -> Result<Pair, Stop> {
    let first = octets_of(alloc, &both.first)?;
    let second = octets_of(alloc, &both.second)?;
    Ok(Pair {
        first,
        second,
        both,
    })
}

/// Whether the last octet of a file is 0. A file without octets has no end.
fn ends_in_zero(file: &File) -> Result<bool, Stop> {
    let mut place = file;
    let mut octet = [1u8];
    if place.seek(SeekFrom::End(-1)).is_err() {
        return Ok(false);
    }
    if place.read_exact(&mut octet).is_err() || place.seek(SeekFrom::Start(0)).is_err() {
        return Err(Stop::Read);
    }
    Ok(octet[0] == 0)
}

/// Opens a file, and locks it.
fn open_one(rt: &HostRuntime, alloc: Global, path: &str, ending: u8) -> Result<File, Stop> {
    let name = format!(in alloc; "{path}.{ending}")?;
    let opened = File::options()
        .read(true)
        .write(true)
        .open(rt, name.as_str());
    drop(name);
    let file = match opened {
        Ok(file) => file,
        Err(error) => return Err(Stop::File(ending, error.kind())),
    };
    match file.try_lock() {
        Err(TryLockError::WouldBlock) => Err(Stop::InUse),
        Err(TryLockError::Error(_)) | Ok(()) => Ok(file),
    }
}

/// All octets of a file.
fn octets_of(alloc: Global, file: &File) -> Result<Vec<u8>, Stop> {
    let mut octets = Vec::new(alloc);
    if file.take(MAX_SLOT + 1).read_to_end(&mut octets).is_err() {
        return Err(Stop::Read);
    }
    if octets.len() as u64 > MAX_SLOT {
        return Err(Stop::Read);
    }
    Ok(octets)
}

/// Copies both files, for good.
pub(crate) fn copy_both(
    rt: &HostRuntime,
    alloc: Global,
    path: &str,
    pair: &Pair,
) -> Result<(), Stop> {
    copy_one(rt, alloc, path, 0, pair.first.as_slice())?;
    copy_one(rt, alloc, path, 1, pair.second.as_slice())
}

/// Writes octets into the copy of a file.
fn copy_one(
    rt: &HostRuntime,
    alloc: Global,
    path: &str,
    ending: u8,
    octets: &[u8],
) -> Result<(), Stop> {
    let name = format!(in alloc; "{path}.{ending}.mended")?;
    let opened = File::options()
        .write(true)
        .create(true)
        .truncate(true)
        .open(rt, name.as_str());
    drop(name);
    let mut file = match opened {
        Ok(file) => file,
        Err(_) => return Err(Stop::Copy),
    };
    if file.write_all(octets).is_err() || file.sync_all().is_err() {
        return Err(Stop::Copy);
    }
    Ok(())
}

/// Cuts a file, for good. Says how many octets were cut.
pub(crate) fn cut_file(pair: &Pair, cut: Cut) -> Result<usize, Stop> {
    let (file, length) = match cut.slot {
        Slot::First => (&pair.both.first, pair.first.len()),
        Slot::Second => (&pair.both.second, pair.second.len()),
    };
    if file.set_len(cut.at as u64).is_err() || file.sync_all().is_err() {
        return Err(Stop::Write);
    }
    Ok(length.saturating_sub(cut.at))
}
