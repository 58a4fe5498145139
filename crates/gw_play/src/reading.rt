//! Where a script comes from.

ghost use Rattle.std.specs.Prelude.{◌≡◌, ℕ, ◌+◌, ◌≤◌, ◌^◌, IfOk, OnOk, IfSome, Option, None, List};
ghost use Rattle.std.specs.Io.{ReadsAtMost};
ghost use Rattle.std.specs.Io.KnownBytes.{ReadConsumes, IsAtEnd};

use std::alloc::{AllocError, Global};
use std::io::{self, Read};
use thiserror::Error;

/// The most reads that are made of a script.
pub const MAX_READS: u64 = 16_777_216;

/// How many octets a read asks for.
const PIECE: usize = 4096;

/// Why a script was not read to its end.
#[derive(Clone, Copy, Debug, PartialEq, Eq, Error)]
pub enum ReadFault {
    /// A read failed.
    #[error("a read failed")]
    Failed,
    /// The script had not ended after 16,777,216 reads.
    #[error("the script has no end within 16,777,216 reads")]
    Endless,
    /// Memory ran out.
    #[error("out of memory")]
    Memory,
}

impl From<AllocError> for ReadFault {
    ghost use Rattle.gw_play.specs.declared.reading.ReadFault.TheVariants.{Memory};

    ghost from_gives = { λ _ e. e ≡ Memory };

    fn from(_error: AllocError) -> ReadFault {
        ReadFault::Memory
    }
}

/// Where a script comes from.
pub trait Source {
    /// How many reads were made of it.
    ghost reads: { Self → ℕ };

    /// What reads will give, where that is known.
    ghost remaining: { Self → Option (List ℕ) } = { λ _. None };

    /// Reads once. No octet at a buffer that has room is the end.
    fn read(&mut self, buf: &mut [u8]) -> io::Result<usize>
        ensures bound { ReadsAtMost result buf.new }
        ensures bytes { ReadConsumes (remaining self.old) (remaining self.new) result buf.new }
        ensures count { OnOk result (reads self.new ≡ reads self.old + 1) }
        ensures most { reads self.new ≤ reads self.old + 1 };
}

/// A reader whose reads are counted.
#[derive(Drop)]
pub struct Counted<R> {
    reader: R,
    reads: u64,
}

impl<R> Counted<R> {
    /// The reader, of which nothing was read.
    pub fn new(reader: R) -> Counted<R>
        ensures reads { result.reads ≡ 0 }
        ensures reader { result.reader ≡ reader }
    {
        Counted { reader, reads: 0 }
    }
}

impl<R: Read> Source for Counted<R> {
    ghost reads = { λ s. s.reads };

    ghost remaining = { λ s. R.remaining s.reader };

    fn read(&mut self, buf: &mut [u8]) -> io::Result<usize> {
        if self.reads == u64::MAX {
            return Err(io::Error::from(io::ErrorKind::Other));
        }
        self.reads += 1;
        self.reader.read(buf)
    }
}

/// All of a script.
pub fn read_all<S: Source>(alloc: Global, source: &mut S) -> Result<Vec<u8>, ReadFault>
    ensures reads { S.reads source.new ≤ S.reads source.old + 2 ^ 24 }
    ensures all { IfOk result (λ text. IfSome (S.remaining source.old)
        (λ bytes. text.items ≡ bytes)) }
    ensures ended { OnOk result (IsAtEnd (S.remaining source.new)) }
{
    let mut text = Vec::new(alloc);
    let mut piece = [0; PIECE];
    for _ in 0..MAX_READS {
        match source.read(&mut piece) {
            Ok(0) => return Ok(text),
            Ok(count) => text.extend_from_slice(&piece[..count])?,
            Err(_) => return Err(ReadFault::Failed),
        }
    }
    Err(ReadFault::Endless)
}
