//! What follows from the clauses of a node's calls.

ghost use Rattle.std.specs.Prelude.{◌≡◌, ◌⊎◌, ℕ, List, [], ◌∷◌, ◌++◌, None, Result};
ghost use Rattle.rep_op.specs.declared.op.Op.{Op};
ghost use Rattle.rep_op.specs.Sets.{IsConsistent, Within};
ghost use Rattle.rep_ops.specs.Splitting.{all_of};
ghost use Rattle.rep_model.specs.Keep.{CountsAs};
ghost use Rattle.jr_disk.specs.Disk.{Image};
ghost use Rattle.jr_journal.specs.Records.{records};
ghost use Rattle.jr_journal.specs.Faults.{fault_of};
ghost use Rattle.rep_op.specs.declared.op.Subject.{Subject};
ghost use Rattle.gw_answer.specs.declared.out.Out.{Out};
ghost use Rattle.gw_answer.specs.declared.refusal.Refusal.{Refusal};
ghost use Rattle.gw_answer.specs.declared.refusal.Refusal.TheVariants as refusals;
ghost use Rattle.gw_answer.specs.declared.step.Step.{Step};
ghost use Rattle.gw_node.specs.Parts.{State};
ghost use Rattle.gw_node.specs.Calls.{StepCall};
ghost use Rattle.gw_node.specs.Carrying.{StepCarriesOn};
ghost use Rattle.gw_node.specs.Taking.{IsBetween, IsWhole, RecoversTo};
ghost use Rattle.gw_node.specs.Opening.{FitInTurn, HasMisfit, IsOpenFault, IsDiskFault};

use jr_journal::Disk;

/// An image that stands for what a gateway had taken is opened again: each of its records fits to
/// those before it. So where the disk does not fail, only want of memory can refuse the opening.
/// And an image of which nothing is known but what an opening found, that its records fit, and that
/// they contradict nothing, stands for these records: what was opened goes on from there. The
/// function does nothing; its contract is the law.
pub fn opening_laws()
    ensures room { (gateway : ℕ) (S : List Op) (refused : List (List Op)) (i : Image)
        → RecoversTo gateway S refused i → HasMisfit (records gateway i) refusals.Full → ⊥ }
    ensures agreement { (gateway : ℕ) (S : List Op) (refused : List (List Op)) (i : Image)
        (of : Subject) → RecoversTo gateway S refused i → HasMisfit (records gateway i)
        (refusals.Conflict of) → ⊥ }
    ensures memory { (gateway : ℕ) (S : List Op) (refused : List (List Op)) (i : Image)
        (refusal : Refusal) → RecoversTo gateway S refused i → IsOpenFault gateway i refusal
        → (IsDiskFault refusal → ⊥) → refusal ≡ refusals.Memory }
    ensures begins { (gateway : ℕ) (i : Image) → fault_of gateway i ≡ None
        → FitInTurn [] (records gateway i) → IsConsistent (all_of (records gateway i))
        → RecoversTo gateway (all_of (records gateway i)) [] i }
{}

/// A call by itself is refused one delta. What stands for a set with it counts as the set, or as
/// the set with the whole of that delta, and lies within both. The function does nothing; its
/// contract is the law.
pub fn single_refusal()
    ensures whole { (S delta J : List Op) → IsWhole S (delta ∷ []) J
        → CountsAs S J ⊎ CountsAs (S ++ delta) J }
    ensures within { (S delta J : List Op) → IsBetween S (delta ∷ []) J → Within J (S ++ delta) }
{}

/// What a call is answered tells which set the node has taken after it, whatever set it had taken
/// before: that set with what the call made or took; or that set, and the delta that was refused;
/// or that set alone; or, if it was opened again, that set with what the disk had. The function
/// does nothing; its contract is the law.
pub fn calls_carry_on<D: Disk>()
    ensures { (old new : State ⟦<D as Disk>⟧) (step : Step) (answer : Result Out Refusal)
        → StepCall old step answer new → StepCarriesOn old step answer new }
{}
