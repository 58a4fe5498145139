//! Records that are to be written at once.

ghost use Rattle.std.specs.Prelude.{◌≡◌, ◌++◌, ◌∷◌, [], length, OnOk, OnErr};
ghost use Rattle.std.specs.List.{AllByRecursion};
ghost use Rattle.jr_journal.specs.Records.{written_all};
ghost use Rattle.jr_journal.specs.Readable.{IsReadable};

use crate::record::record_of;
use octets::NoMemory;
use rep_ops::Delta;
use std::alloc::Global;
use std::marker::Model;

/// Records one behind the other, of which none is written yet. Contracts see their deltas.
pub struct Records {
    bytes: Vec<u8>,
}

impl Drop for Records {
    fn drop(self) {
        let Records { bytes } = self;
        drop(bytes);
    }
}

impl Model for Records {
    ghost use Rattle.std.specs.Prelude.{List};
    ghost use Rattle.rep_op.specs.declared.op.Op.{Op};
    ghost use Rattle.jr_journal.specs.Readable.{deltas_in, AreRecords};

    ghost Value = { List (List Op) };

    ghost view = { λ r. deltas_in r.bytes.items };

    ghost invariant = { λ r. AreRecords r.bytes.items };
}

/// Appends bytes. On an error none of them stands there.
fn append_bytes(out: &mut Vec<u8>, bytes: &[u8]) -> Result<(), NoMemory>
    ensures ok { OnOk result (out.new.items ≡ out.old.items ++ bytes.now) }
    ensures err { OnErr result (out.new.items ≡ out.old.items) }
{
    out.extend_from_slice(bytes)?;
    Ok(())
}

impl Records {
    /// No record.
    pub fn empty(alloc: Global) -> Records
        ensures { result ≡ [] }
    {
        Records {
            bytes: Vec::new(alloc),
        }
    }

    /// Puts the record of a delta behind them. If memory runs out, they are as before.
    pub fn push(&mut self, alloc: Global, delta: &Delta) -> Result<(), NoMemory>
        ensures ok { OnOk result (self.new ≡ self.old ++ delta.now ∷ []) }
        ensures err { OnErr result (self.new ≡ self.old) }
    {
        let record = record_of(alloc, delta)?;
        append_bytes(&mut self.bytes, &record)?;
        Ok(())
    }

    /// How many bytes they have.
    pub fn size(&self) -> usize
        ensures { result ≡ length (written_all self.now) }
    {
        self.bytes.len()
    }

    /// Their bytes.
    pub(crate) fn as_slice(&self) -> &[u8]
        ensures bytes { result.now ≡ written_all self.now }
        ensures readable { AllByRecursion IsReadable self.now }
    {
        self.bytes.as_slice()
    }
}
