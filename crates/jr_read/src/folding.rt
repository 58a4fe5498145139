//! Records are taken, one after the other.

ghost use Rattle.std.specs.Prelude.{◌≡◌, [], OnOk, IfErr};
ghost use Rattle.rep_ops.specs.Splitting.{all_of};
ghost use Rattle.rep_model.specs.Keep.{CountsAs};
ghost use Rattle.jr_read.specs.Folding.{IsRecordMisfit};

use rep_model::{Replica, TakeFault};
use rep_ops::Delta;
use std::alloc::Global;

/// A record that was not taken.
pub struct Misfit {
    /// How many records stand before it.
    pub before: usize,
    /// Why it was not taken.
    pub fault: TakeFault,
}

impl Drop for Misfit {
    fn drop(self) {
        let Misfit { before: _, fault } = self;
        drop(fault);
    }
}

/// Takes records, one after the other, until one does not fit to those before it.
pub fn take_all<R: Replica>(alloc: Global, replica: &mut R, records: &[Delta]) -> Result<(), Misfit>
    requires { R.kept replica.old ≡ [] }
    // What is kept counts as all operations of the records together.
    ensures ok { OnOk result (CountsAs (all_of records.now) (R.kept replica.new)) }
    ensures err { IfErr result (λ misfit. IsRecordMisfit records.now misfit) }
{
    for (before, record) in records.iter().enumerate() {
        match replica.prepare(alloc, record) {
            Ok(staged) => replica.commit(staged),
            Err(fault) => return Err(Misfit { before, fault }),
        }
    }
    Ok(())
}
