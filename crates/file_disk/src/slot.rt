//! One file as a slot of a disk.

ghost use Rattle.std.specs.Prelude.{◌≡◌, ◌≤◌, ◌+◌, ◌⊎◌, length, take, drop, OnOk, OnErr, IfOk, IfErr};
ghost use Rattle.jr_disk.specs.Disk.{SlotBytes, bytes_of, appended, all_synced, cut_to};
ghost use Rattle.file_disk.specs.Files.{IsCertain};
ghost use Rattle.file_disk.specs.inner.Cutting.{IsTrusted};

use crate::cutting::{Trust, append_first, append_more, cut_file, sync_file};
use crate::file::{FileFault, SlotFile};
use jr_disk::Short;
use std::marker::Model;

/// A file as a slot, and what is known of it.
#[derive(Drop)]
pub(crate) struct FileSlot<F: SlotFile> {
    file: F,
    trust: Trust,
}

impl<F: SlotFile> Model for FileSlot<F> {
    ghost Value = { SlotBytes };

    ghost view = { λ s. (F.state s.file).octets };

    ghost invariant = { λ s. F.honest → IsTrusted s.trust (F.state s.file) };
}

impl<F: SlotFile> FileSlot<F> {
    /// A file of which nothing is in doubt.
    pub(crate) fn over(file: F) -> FileSlot<F>
        requires { F.honest → IsCertain (F.state file) }
        ensures { result ≡ (F.state file).octets }
    {
        FileSlot {
            file,
            trust: Trust::Sound,
        }
    }

    pub(crate) fn len(&self) -> Result<usize, FileFault>
        ensures { F.honest → IfOk result (λ n. n ≡ length (bytes_of self.now)) }
    {
        self.file.size()
    }

    pub(crate) fn read_at(&self, from: usize, buffer: &mut [u8]) -> Result<(), FileFault>
        ensures { F.honest → from + length buffer.old ≤ length (bytes_of self.now) →
            OnOk result (buffer.new ≡ take (length buffer.old) (drop from (bytes_of self.now))) }
    {
        self.file.read_from(from, buffer)
    }

    /// On an error the first `written` octets went out.
    pub(crate) fn append(&mut self, bytes: &[u8]) -> Result<(), Short>
        ensures within { IfErr result (λ short. short.written ≤ length bytes.now) }
        ensures ok { F.honest → OnOk result (self.new ≡ appended self.old bytes.now) }
        ensures err { F.honest → IfErr result (λ short. self.new
            ≡ appended self.old (take short.written bytes.now)) }
    {
        let (appended, trust) = match self.trust {
            Trust::Fresh => append_first(&mut self.file, bytes),
            Trust::Sound | Trust::Doubtful => append_more(&mut self.file, bytes, self.trust),
        };
        self.trust = trust;
        appended
    }

    /// On an error the slot is as it was.
    pub(crate) fn sync(&mut self) -> Result<(), FileFault>
        ensures ok { F.honest → OnOk result (self.new ≡ all_synced self.old) }
        ensures err { F.honest → OnErr result (self.new ≡ self.old) }
    {
        let (synced, trust) = sync_file(&mut self.file, self.trust);
        self.trust = trust;
        synced
    }

    /// On an error the slot is as it was, or it is cut.
    pub(crate) fn cut(&mut self, len: usize) -> Result<(), FileFault>
        ensures ok { F.honest → OnOk result (self.new ≡ cut_to self.old len) }
        ensures err { F.honest → OnErr result ((self.new ≡ self.old)
            ⊎ (self.new ≡ cut_to self.old len)) }
    {
        let (cut, trust) = cut_file(&mut self.file, len, self.trust);
        self.trust = trust;
        cut
    }
}
