//! A file in memory.

ghost use Rattle.std.specs.Prelude.{◌≡◌, ◌≤◌, min, false, OnOk, OnErr};
ghost use Rattle.jr_disk.specs.Memory.{no_bytes};

use crate::file::{FileFault, SlotFile};
use crate::files::FileDisk;
use jr_disk::Disk;
use std::alloc::{AllocError, Global};
use std::marker::Model;

/// The smaller of two.
fn least(a: usize, b: usize) -> usize
    ensures { result ≡ min a b }
{
    if a < b { a } else { b }
}

/// Octets, of which the first so many are synced.
#[derive(Drop)]
struct MemoryOctets {
    bytes: Vec<u8>,
    synced: usize,
}

impl Model for MemoryOctets {
    ghost use Rattle.std.specs.Prelude.{◌≤◌, take, drop, length};
    ghost use Rattle.jr_disk.specs.Disk.{SlotBytes};

    ghost Value = { SlotBytes };

    ghost view = { λ s. record {
      synced = take s.synced s.bytes.items;
      unsynced = drop s.synced s.bytes.items;
    } };

    ghost invariant = { λ s. s.synced ≤ length s.bytes.items };
}

impl MemoryOctets {
    ghost use Rattle.jr_disk.specs.Disk.{bytes_of, appended, all_synced, cut_to};

    fn new(alloc: Global) -> MemoryOctets
        ensures { result ≡ no_bytes }
    {
        MemoryOctets {
            bytes: Vec::new(alloc),
            synced: 0,
        }
    }

    fn as_slice(&self) -> &[u8]
        ensures { result.now ≡ bytes_of self.now }
    {
        self.bytes.as_slice()
    }

    /// On an error they are as they were.
    fn append(&mut self, bytes: &[u8]) -> Result<(), AllocError>
        ensures ok { OnOk result (self.new ≡ appended self.old bytes.now) }
        ensures err { OnErr result (self.new ≡ self.old) }
    {
        self.bytes.extend_from_slice(bytes)
    }

    fn sync(&mut self)
        ensures { self.new ≡ all_synced self.old }
    {
        self.synced = self.bytes.len();
    }

    fn cut(&mut self, len: usize)
        ensures { self.new ≡ cut_to self.old len }
    {
        self.bytes.truncate(len);
        self.synced = least(self.synced, self.bytes.len());
    }
}

/// A file in memory. A call fails only where memory was refused, or where a read or a cut goes past
/// its end.
pub struct MemoryFile {
    octets: MemoryOctets,
    loose: bool,
    doubted: bool,
}

impl Drop for MemoryFile {
    fn drop(self) {
        let MemoryFile {
            octets,
            loose: _,
            doubted: _,
        } = self;
        drop(octets);
    }
}

impl Model for MemoryFile {
    ghost use Rattle.file_disk.specs.Files.{FileState};

    ghost Value = { FileState };

    ghost view = { λ f. record { octets = f.octets; loose = f.loose; doubted = f.doubted } };
}

impl MemoryFile {
    /// A file with nothing in it.
    pub fn new(alloc: Global) -> MemoryFile
        ensures { result ≡ record { octets = no_bytes; loose = false; doubted = false } }
    {
        MemoryFile {
            octets: MemoryOctets::new(alloc),
            loose: false,
            doubted: false,
        }
    }
}

impl SlotFile for MemoryFile {
    ghost honest = { Unit {0} };

    ghost state = { λ f. f };

    fn size(&self) -> Result<usize, FileFault> {
        Ok(self.octets.as_slice().len())
    }

    fn read_from(&self, from: usize, buffer: &mut [u8]) -> Result<(), FileFault> {
        let bytes = self.octets.as_slice();
        if from > bytes.len() || buffer.len() > bytes.len() - from {
            return Err(FileFault);
        }
        buffer.copy_from_slice(&bytes[from..from + buffer.len()]);
        Ok(())
    }

    fn add(&mut self, bytes: &[u8]) -> Result<usize, FileFault> {
        if self.octets.append(bytes).is_err() {
            return Err(FileFault);
        }
        Ok(bytes.len())
    }

    fn shorten(&mut self, len: usize) -> Result<(), FileFault> {
        if len > self.octets.as_slice().len() {
            return Err(FileFault);
        }
        self.octets.cut(len);
        self.loose = true;
        Ok(())
    }

    fn settle(&mut self) -> Result<(), FileFault> {
        self.loose = false;
        if self.octets.as_slice().is_empty() {
            self.doubted = false;
        }
        Ok(())
    }

    fn sync(&mut self) -> Result<(), FileFault> {
        self.octets.sync();
        Ok(())
    }
}

/// The law that files in memory are honest, and so is a disk of two of them. The function does
/// nothing; its contract is the law.
pub fn memory_files_are_honest()
    ensures file { ⟦<MemoryFile as SlotFile>⟧.honest }
    ensures disk { ⟦<FileDisk<MemoryFile> as Disk>⟧.honest }
{}
