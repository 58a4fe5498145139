//! Octets that go out to a file, and what of them is taken away again.

ghost use Rattle.std.specs.Prelude.{ℕ, ◌≡◌, ◌≢◌, ◌≤◌, ◌⊎◌, List, length, take, min, OnOk, OnErr, IfErr};
ghost use Rattle.jr_disk.specs.Disk.{SlotBytes, bytes_of, appended, all_synced, cut_to};
ghost use Rattle.file_disk.specs.Files.{file_grown};
ghost use Rattle.file_disk.specs.inner.Cutting.{IsTrusted, IsShortened};

use crate::file::{FileFault, SlotFile};
use jr_disk::Short;

/// What is known of the file of a slot.
#[derive(Clone, Copy, PartialEq, Eq)]
pub(crate) enum Trust {
    /// No sync of it has failed.
    Sound,
    /// The same, and it was cut to nothing, and nothing was written since.
    Fresh,
    /// A sync of it failed. The system tells that once, and would tell a second sync of the same
    /// octets as done.
    Doubtful,
}

/// What became of a file that was to be cut for good.
#[derive(Clone, Copy, PartialEq, Eq)]
pub(crate) enum Shortened {
    /// It is as it was.
    Kept,
    /// It is cut, but a crash may leave it as long as it was.
    Loose,
    /// It is cut for good.
    Done,
}

/// Writes from the front as far as it goes, and says how far.
pub(crate) fn write_front<F: SlotFile>(file: &mut F, bytes: &[u8]) -> usize
    ensures within { result ≤ length bytes.now }
    ensures grown { F.honest
        → F.state file.new ≡ file_grown (F.state file.old) (take result bytes.now) }
{
    let mut written = 0;
    while written < bytes.len() {
        let more = write_once(file, bytes.split_at(written).1);
        if more == 0 {
            return written;
        }
        written += more;
    }
    written
}

/// Writes once: how many of the octets went out, none where the write failed.
fn write_once<F: SlotFile>(file: &mut F, bytes: &[u8]) -> usize
    ensures within { result ≤ length bytes.now }
    ensures grown { F.honest
        → F.state file.new ≡ file_grown (F.state file.old) (take result bytes.now) }
{
    match file.add(bytes) {
        Ok(size) => size,
        Err(_) => 0,
    }
}

/// Cuts a file to a length that it has, for good.
pub(crate) fn shorten<F: SlotFile>(file: &mut F, len: usize) -> Shortened
    ensures { F.honest → len ≤ length (bytes_of (F.state file.old).octets) →
        IsShortened (F.state file.old) len result (F.state file.new) }
{
    if file.shorten(len).is_err() {
        return Shortened::Kept;
    }
    if file.settle().is_err() {
        return Shortened::Loose;
    }
    Shortened::Done
}

/// Takes the last octets, which are so many, away again: a full disk is not to be full of what did
/// not go out whole. How many of them are left, and what is known of the file.
pub(crate) fn take_back<F: SlotFile>(file: &mut F, written: usize, trust: Trust) -> (usize, Trust)
    requires trusted { F.honest → IsTrusted trust (F.state file.old) }
    requires not_fresh { trust ≢ Trust.Fresh }
    ensures within { result.0 ≤ written }
    ensures octets { F.honest → (before : SlotBytes) (bytes : List ℕ) → length bytes ≡ written →
        (F.state file.old).octets ≡ appended before bytes →
        (F.state file.new).octets ≡ appended before (take result.0 bytes) }
    ensures trusted { F.honest → IsTrusted result.1 (F.state file.new) }
{
    if written == 0 {
        return (written, trust);
    }
    let Ok(size) = file.size() else {
        return (written, trust);
    };
    let Some(len) = size.checked_sub(written) else {
        return (written, trust);
    };
    match shorten(file, len) {
        Shortened::Kept => (written, trust),
        Shortened::Loose => (0, Trust::Doubtful),
        Shortened::Done => (0, trust),
    }
}

/// Appends to a file that is not fresh. On an error the first `written` octets went out.
pub(crate) fn append_more<F: SlotFile>(
    file: &mut F,
    bytes: &[u8],
    trust: Trust,
) -> (Result<(), Short>, Trust)
    requires trusted { F.honest → IsTrusted trust (F.state file.old) }
    requires not_fresh { trust ≢ Trust.Fresh }
    ensures within { IfErr result.0 (λ short. short.written ≤ length bytes.now) }
    ensures ok { F.honest → OnOk result.0 ((F.state file.new).octets
        ≡ appended (F.state file.old).octets bytes.now) }
    ensures err { F.honest → IfErr result.0 (λ short. (F.state file.new).octets
        ≡ appended (F.state file.old).octets (take short.written bytes.now)) }
    ensures trusted { F.honest → IsTrusted result.1 (F.state file.new) }
{
    let written = write_front(file, bytes);
    if written == bytes.len() {
        return (Ok(()), trust);
    }
    let (left, trust) = take_back(file, written, trust);
    (Err(Short { written: left }), trust)
}

/// Appends to a fresh file, and makes sure that the disk takes it. If it does not, nothing in the
/// file is owed to anybody: it is cut to nothing once more, and then nothing is left to doubt.
pub(crate) fn append_first<F: SlotFile>(file: &mut F, bytes: &[u8]) -> (Result<(), Short>, Trust)
    requires { F.honest → IsTrusted Trust.Fresh (F.state file.old) }
    ensures within { IfErr result.0 (λ short. short.written ≤ length bytes.now) }
    ensures ok { F.honest → OnOk result.0 ((F.state file.new).octets
        ≡ appended (F.state file.old).octets bytes.now) }
    ensures err { F.honest → IfErr result.0 (λ short. (F.state file.new).octets
        ≡ appended (F.state file.old).octets (take short.written bytes.now)) }
    ensures trusted { F.honest → IsTrusted result.1 (F.state file.new) }
{
    let written = write_front(file, bytes);
    if written == bytes.len() && file.settle().is_ok() {
        return (Ok(()), Trust::Sound);
    }
    match shorten(file, 0) {
        Shortened::Kept => (Err(Short { written }), Trust::Doubtful),
        Shortened::Loose => (Err(Short { written: 0 }), Trust::Doubtful),
        Shortened::Done => (Err(Short { written: 0 }), Trust::Fresh),
    }
}

/// Syncs a file, unless that is in doubt. On an error its octets are as they were.
pub(crate) fn sync_file<F: SlotFile>(file: &mut F, trust: Trust) -> (Result<(), FileFault>, Trust)
    requires { F.honest → IsTrusted trust (F.state file.old) }
    ensures ok { F.honest → OnOk result.0 ((F.state file.new).octets
        ≡ all_synced (F.state file.old).octets) }
    ensures err { F.honest → OnErr result.0 ((F.state file.new).octets
        ≡ (F.state file.old).octets) }
    ensures trusted { F.honest → IsTrusted result.1 (F.state file.new) }
{
    match trust {
        Trust::Sound => sync_sound(file),
        Trust::Fresh => sync_fresh(file),
        Trust::Doubtful => (Err(FileFault), Trust::Doubtful),
    }
}

/// Syncs a file that is sound.
fn sync_sound<F: SlotFile>(file: &mut F) -> (Result<(), FileFault>, Trust)
    requires { F.honest → IsTrusted Trust.Sound (F.state file.old) }
    ensures ok { F.honest → OnOk result.0 ((F.state file.new).octets
        ≡ all_synced (F.state file.old).octets) }
    ensures err { F.honest → OnErr result.0 ((F.state file.new).octets
        ≡ (F.state file.old).octets) }
    ensures trusted { F.honest → IsTrusted result.1 (F.state file.new) }
{
    match file.sync() {
        Ok(()) => (Ok(()), Trust::Sound),
        Err(fault) => (Err(fault), Trust::Doubtful),
    }
}

/// Syncs a file that is fresh. If that fails it is cut to nothing once more.
fn sync_fresh<F: SlotFile>(file: &mut F) -> (Result<(), FileFault>, Trust)
    requires { F.honest → IsTrusted Trust.Fresh (F.state file.old) }
    ensures ok { F.honest → OnOk result.0 ((F.state file.new).octets
        ≡ all_synced (F.state file.old).octets) }
    ensures err { F.honest → OnErr result.0 ((F.state file.new).octets
        ≡ (F.state file.old).octets) }
    ensures trusted { F.honest → IsTrusted result.1 (F.state file.new) }
{
    if file.sync().is_ok() {
        return (Ok(()), Trust::Sound);
    }
    match shorten(file, 0) {
        Shortened::Done => (Err(FileFault), Trust::Fresh),
        Shortened::Kept | Shortened::Loose => (Err(FileFault), Trust::Doubtful),
    }
}

/// The smaller of two.
fn least(a: usize, b: usize) -> usize
    ensures { result ≡ min a b }
{
    if a < b { a } else { b }
}

/// Cuts a file for good. Of one that is cut to nothing nothing is left to doubt.
pub(crate) fn cut_file<F: SlotFile>(
    file: &mut F,
    len: usize,
    trust: Trust,
) -> (Result<(), FileFault>, Trust)
    requires { F.honest → IsTrusted trust (F.state file.old) }
    ensures ok { F.honest → OnOk result.0 ((F.state file.new).octets
        ≡ cut_to (F.state file.old).octets len) }
    ensures err { F.honest → OnErr result.0 (((F.state file.new).octets
        ≡ (F.state file.old).octets)
        ⊎ ((F.state file.new).octets ≡ cut_to (F.state file.old).octets len)) }
    ensures trusted { F.honest → IsTrusted result.1 (F.state file.new) }
{
    let Ok(size) = file.size() else {
        return (Err(FileFault), trust);
    };
    let len = least(len, size);
    match shorten(file, len) {
        Shortened::Done if len == 0 => (Ok(()), Trust::Fresh),
        Shortened::Done if trust != Trust::Doubtful => (Ok(()), Trust::Sound),
        Shortened::Done | Shortened::Kept | Shortened::Loose => (Err(FileFault), Trust::Doubtful),
    }
}
