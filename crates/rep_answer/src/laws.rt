//! The laws of digests and answers. Each function does nothing; its contract is a law, proved for
//! all sets.

ghost use Rattle.std.specs.Prelude.{◌≡◌, ◌++◌, List};
ghost use Rattle.rep_op.specs.declared.op.Op.{Op};
ghost use Rattle.rep_op.specs.Sets.{Same};
ghost use Rattle.rep_model.specs.Keep.{keep, CountsAs};
ghost use Rattle.rep_digest.specs.Digests.{Digested, digest};
ghost use Rattle.rep_answer.specs.Answers.{IsRest, IsAnswer};

/// An answer completes: T with the answer X of S to the digest of T keeps what T with all of S
/// keeps, whatever Y comes later.
pub fn answer_completes()
    ensures { (S T X Y : List Op) → IsRest (digest T) (keep S) X
        → Same (keep ((T ++ X) ++ Y)) (keep ((T ++ S) ++ Y)) }
{}

/// What counts as a set has its digest, and the answer of what counts as a set is the answer of the
/// set.
pub fn digest_laws()
    ensures digest { (S K : List Op) → CountsAs S K → digest K ≡ digest S }
    ensures answer { (d : Digested) (S K : List Op) (deltas : List (List Op)) →
        CountsAs S K → IsAnswer d K deltas → IsAnswer d S deltas }
{}
