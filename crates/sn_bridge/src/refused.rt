//! The lines of what no side will have.

use br_core::{Command, Why};
use std::fs::File;
use std::io::{Read, Seek, SeekFrom, Write};
use std::os::unix::fs::OpenOptionsExt;
use std::time::{Duration, SystemTime};
use std::{fmt, io};

/// Who may read and write the file: its owner.
const OWNER_ALONE: u32 = 0o600;

/// How many octets of a message stand in a line.
const MOST_OCTETS: usize = 4_096;

/// A line that is to be written, of this number.
#[derive(Drop)]
pub(crate) struct Owed {
    pub line: u64,
    pub command: Command,
    pub why: Why,
}

/// Octets as hexadecimal digits.
#[derive(Clone, Copy)]
struct Digits<'a>(&'a [u8]);

impl<'a> fmt::Display for Digits<'a> {
    fn fmt<W: fmt::Write>(&self, f: &mut fmt::Formatter<W>) -> fmt::Result {
        for octet in self.0 {
            write!(f, "{octet:02x}")?;
        }
        Ok(())
    }
}

/// Why a line is written, in a word.
fn word_of(why: Why) -> &'static str {
    match why {
        Why::Topic => "topic",
        Why::Body => "size",
        Why::Gateway => "gateway",
    }
}

/// The second of the date.
fn second(clock: &HostRuntime) -> u64 {
    match SystemTime::now(clock) {
        Err(_) => 0,
        Ok(now) => now
            .duration_since(SystemTime::UNIX_EPOCH)
            .unwrap_or(Duration::ZERO)
            .as_secs(),
    }
}

/// The front of octets that stands in a line.
fn front(octets: &[u8]) -> &[u8] {
    if octets.len() <= MOST_OCTETS {
        return octets;
    }
    octets.split_at(MOST_OCTETS).0
}

/// Whether the last line of a file that is not empty is whole.
fn is_whole(file: &File) -> io::Result<bool> {
    let mut place = file;
    let mut last = [0u8];
    place.seek(SeekFrom::End(-1))?;
    place.read_exact(&mut last)?;
    Ok(last[0] == b'\n')
}

/// Makes the name of a new file durable: its folder is synced.
fn sync_folder(rt: &HostRuntime, path: &str) -> io::Result<()> {
    let folder = match path.rfind('/') {
        None => ".",
        Some(0) => "/",
        Some(at) => &path[..at],
    };
    File::open(rt, folder)?.sync_all()
}

/// The file, ready for a line. Before the first one its name is made durable. A line of which a
/// failed write or a crash left the front alone is ended.
fn opened(rt: &HostRuntime, path: &str) -> io::Result<File> {
    let mut file = File::options()
        .read(true)
        .append(true)
        .create(true)
        .mode(OWNER_ALONE)
        .open(rt, path)?;
    if file.metadata()?.len() == 0 {
        sync_folder(rt, path)?;
    } else if !is_whole(&file)? {
        file.write_all(b"\n")?;
    }
    Ok(file)
}

/// Writes a line into the file, and syncs it: second, quality of service, why, the broker's topic
/// and the message in hexadecimal digits.
fn write_line(rt: &HostRuntime, path: &str, owed: &Owed) -> io::Result<()> {
    let mut file = opened(rt, path)?;
    let second = second(rt);
    let qos = if owed.command.id == 0 { 0 } else { 1 };
    let why = word_of(owed.why);
    let topic = Digits(owed.command.from.as_slice());
    let body = Digits(front(owed.command.body.as_slice()));
    writeln!(&mut file, "{second} {qos} {why} {topic} {body}")?;
    file.sync_all()
}

/// Writes a line, and tells that or why it was not. Says whether it is on the disk.
pub(crate) fn keep<E: Write>(rt: &HostRuntime, path: &str, owed: &Owed, err: &mut E) -> bool {
    match write_line(rt, path, owed) {
        Ok(()) => {
            let _ = writeln!(err, "sn_bridge: no side will have a command: see {path}");
            true
        }
        Err(error) => {
            let kind = error.kind();
            let _ = writeln!(err, "sn_bridge: {path}: {kind}");
            false
        }
    }
}
