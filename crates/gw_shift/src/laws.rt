//! Laws of closing.

ghost use Rattle.std.specs.Prelude.{ℕ, List, ◌∷◌, ◌++◌};
ghost use Rattle.rep_op.specs.declared.op.Op.{Op};
ghost use Rattle.gw_shift.specs.Calls.{Call, Holder};
ghost use Rattle.gw_shift.specs.Closing.{Accounts, AreKnown, IsStrange, unused};

/// A fault of closing is told only where there is cause: passes whose calls all stand in the
/// history have no stranger among them.
#[tactic(auto, using(crate::proofs::Strangers::known_not_strange))]
pub fn strangers_are_not_known()
    ensures { (history : List Call) (passes : List Holder) (number : ℕ)
        → IsStrange history passes number → AreKnown history passes → ⊥ }
{}

/// A pass that made no call may be left out of a closing: with it, wherever it stands, the others
/// account for the same history.
#[tactic(auto, using(crate::proofs::Unused::may_go))]
pub fn unused_passes_may_go()
    ensures { (opening : List (List Op)) (history : List Call) (before behind : List Holder)
        (place : ℕ) → Accounts opening history (before ++ behind)
        → Accounts opening history (before ++ unused place opening ∷ behind) }
{}
