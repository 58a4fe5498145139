//! The system's files.

ghost use Rattle.std.specs.Prelude.{[], false};

use crate::file::{FileFault, SlotFile};
use std::fs::File;
use std::io::{Read, Seek, SeekFrom, Write};

impl SlotFile for File {
    ghost use Rattle.file_disk.specs.Files.{FileState};

    // No contract says what the system's files hold, so nobody has proved that they are honest.
    ghost honest = { ⊥ };

    ghost state = { λ _. record {
      octets = record { synced = []; unsynced = [] };
      loose = false;
      doubted = false;
    } };

    fn size(&self) -> Result<usize, FileFault> {
        if let Ok(found) = self.metadata() {
            if let Ok(size) = usize::try_from(found.len()) {
                return Ok(size);
            }
        }
        Err(FileFault)
    }

    fn read_from(&self, from: usize, buffer: &mut [u8]) -> Result<(), FileFault> {
        let mut file = self;
        if file.seek(SeekFrom::Start(from as u64)).is_err() {
            return Err(FileFault);
        }
        file.read_exact(buffer).map_err(|_| FileFault)
    }

    fn add(&mut self, bytes: &[u8]) -> Result<usize, FileFault> {
        self.write(bytes).map_err(|_| FileFault)
    }

    fn shorten(&mut self, len: usize) -> Result<(), FileFault> {
        self.set_len(len as u64).map_err(|_| FileFault)
    }

    fn settle(&mut self) -> Result<(), FileFault> {
        self.sync_all().map_err(|_| FileFault)
    }

    fn sync(&mut self) -> Result<(), FileFault> {
        self.sync_data().map_err(|_| FileFault)
    }
}
