//! The names of the two files, and how they are opened.

use std::alloc::Global;
use std::fmt;
use std::fs::{File, Files, TryLockError};
use std::io::{self, ErrorKind};
use std::os::fd::AsRawFd;
use std::os::unix::fs::OpenOptionsExt;
use thiserror::Error;

/// The number of the last standard stream.
const LAST_STANDARD: i32 = 2;

/// Who may read and write a file that is made: its owner alone, since messages stand in it as they
/// came.
const OWNER_ALONE: u32 = 0o600;

/// Why the two files could not be had.
#[derive(Clone, Copy, Debug, PartialEq, Eq, Error)]
pub enum FileDiskFault {
    /// A file cannot be opened or made.
    Files(ErrorKind),
    /// Another program has one of them open as its journal.
    InUse,
    /// One of the two files is not there any more. What it held may be newer than what is left, so
    /// a gateway that went on without it would forget what it answered for.
    Lost,
    /// Memory ran out.
    Memory,
}

impl fmt::Display for FileDiskFault {
    /// Says why the disk cannot be opened.
    fn fmt<W: fmt::Write>(&self, f: &mut fmt::Formatter<W>) -> fmt::Result {
        let words = match self {
            FileDiskFault::Files(kind) => {
                return write!(f, "the files of the journal cannot be opened: {kind}");
            }
            FileDiskFault::InUse => "another program has the journal open",
            FileDiskFault::Lost => "one of the two files of the journal is not there any more",
            FileDiskFault::Memory => "out of memory",
        };
        f.write_str(words)
    }
}

/// The file of a slot, where it is there.
pub(crate) fn existing<R: Files<File = File>>(
    rt: &R,
    alloc: Global,
    path: &str,
    ending: &str,
) -> Result<Option<File>, FileDiskFault> {
    let name = name_of(alloc, path, ending)?;
    let opened = opened(rt, name.as_str(), false);
    drop(name);
    match opened {
        Ok(file) => Ok(Some(mine(file)?)),
        Err(error) if error.kind() == ErrorKind::NotFound => Ok(None),
        Err(error) => Err(FileDiskFault::Files(error.kind())),
    }
}

/// The file of a slot, which is made where nothing was found.
fn or_made<R: Files<File = File>>(
    found: Option<File>,
    rt: &R,
    alloc: Global,
    path: &str,
    ending: &str,
) -> Result<File, FileDiskFault> {
    if let Some(file) = found {
        return Ok(file);
    }
    let name = name_of(alloc, path, ending)?;
    let opened = opened(rt, name.as_str(), true);
    drop(name);
    match opened {
        Ok(file) => mine(file),
        Err(error) => Err(FileDiskFault::Files(error.kind())),
    }
}

/// The file of a slot, which is made where nothing was found. Its name is durable then.
pub(crate) fn made_durable<R: Files<File = File>>(
    found: Option<File>,
    rt: &R,
    alloc: Global,
    path: &str,
    ending: &str,
) -> Result<File, FileDiskFault> {
    let file = or_made(found, rt, alloc, path, ending)?;
    sync_folder(rt, path)?;
    Ok(file)
}

/// Whether a file was lost. The name of the first one is made, and made durable, before the second,
/// and that before anything is written: so no crash leaves the second alone, or octets in the first
/// alone.
pub(crate) fn is_lost(first: &Option<File>, second: &Option<File>) -> bool {
    match (first, second) {
        (None, Some(_)) => true,
        (Some(file), None) => !is_empty(file),
        _ => false,
    }
}

/// Whether a file is known to have no octets.
fn is_empty(file: &File) -> bool {
    match file.metadata() {
        Ok(found) => found.len() == 0,
        Err(_) => false,
    }
}

/// The name of a slot's file.
fn name_of(alloc: Global, path: &str, ending: &str) -> Result<String, FileDiskFault> {
    format!(in alloc; "{path}.{ending}").map_err(|_| FileDiskFault::Memory)
}

/// A file, open for reading and for writing at its end.
fn opened<R: Files<File = File>>(rt: &R, name: &str, makes: bool) -> io::Result<File> {
    File::options()
        .read(true)
        .append(true)
        .create(makes)
        .mode(OWNER_ALONE)
        .open(rt, name)
}

/// The file, from now on this program's, where no other one has it open as its journal. Where the
/// file system knows no locks nobody is kept away.
fn mine(file: File) -> Result<File, FileDiskFault> {
    match file.try_lock() {
        Err(TryLockError::WouldBlock) => Err(FileDiskFault::InUse),
        Err(TryLockError::Error(_)) | Ok(()) => apart(file),
    }
}

/// The file under a number of its own, above those of the standard streams. Where one of these was
/// closed when the program began, the file that is opened next has its number, and what the program
/// prints would stand in the journal.
fn apart(file: File) -> Result<File, FileDiskFault> {
    if file.as_raw_fd() > LAST_STANDARD {
        return Ok(file);
    }
    match file.try_clone() {
        Ok(other) => Ok(other),
        Err(error) => Err(FileDiskFault::Files(error.kind())),
    }
}

/// Makes the names of new files durable: the folder is synced.
fn sync_folder<R: Files<File = File>>(rt: &R, path: &str) -> Result<(), FileDiskFault> {
    let folder = match path.rfind('/') {
        None => ".",
        Some(0) => "/",
        Some(at) => &path[..at],
    };
    match synced(rt, folder) {
        Ok(()) => Ok(()),
        Err(error) => Err(FileDiskFault::Files(error.kind())),
    }
}

/// Syncs a folder.
fn synced<R: Files<File = File>>(rt: &R, folder: &str) -> io::Result<()> {
    File::open(rt, folder)?.sync_all()
}
