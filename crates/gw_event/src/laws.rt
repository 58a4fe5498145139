//! Laws of several calls with one write. The functions do nothing; their contracts are the laws.

ghost use Rattle.std.specs.Prelude.{◌≡◌, ◌↔◌, true, List, [], ◌∷◌, ◌++◌, Result};
ghost use Rattle.std.specs.List.{AllByRecursion};
ghost use Rattle.rep_op.specs.declared.op.Op.{Op};
ghost use Rattle.rep_ops.specs.Splitting.{all_of};
ghost use Rattle.jr_disk.specs.declared.disk.Failure.{Failure};
ghost use Rattle.gw_answer.specs.declared.out.Out.{Out};
ghost use Rattle.gw_answer.specs.declared.refusal.Refusal.{Refusal};
ghost use Rattle.gw_answer.specs.declared.step.Step.{Step};
ghost use Rattle.gw_event.specs.Drives.{Drive, torn, torn_all};
ghost use Rattle.gw_event.specs.Gateways.{Gateway};
ghost use Rattle.gw_event.specs.Event.{Event};
ghost use Rattle.gw_event.specs.Together.{InTurn, CanWrite, put_by_all, halted_all, AreTorn, Together, AreAlike};

/// Calls of which what they make and take goes out in one write. One of them is one event, and such
/// calls behind others are all of them. A halted gateway answers each so. If the write failed, the
/// answers are still those of the calls one by one; they lead to a gateway that differs in nothing
/// but its disk and what was refused. A disk that fails as one delta is written is the same, if
/// that is one of several or alone.
pub fn calls_together()
    ensures one { (old new : Gateway) (call : Step) (answer : Result Out Refusal)
        (made : List (List Op)) → (InTurn old (call ∷ []) (answer ∷ []) new made
        ↔ Event old call answer new made) }
    ensures append { (old mid new : Gateway) (a b : List Step) (x y : List (Result Out Refusal))
        (first more : List (List Op)) → InTurn old a x mid first → InTurn mid b y new more
        → InTurn old (a ++ b) (x ++ y) new (first ++ more) }
    ensures halted { (gateway : Gateway) (calls : List Step) → gateway.drive.halted ≡ true
        → AllByRecursion CanWrite calls → InTurn gateway calls (halted_all calls) gateway [] }
    ensures told { (old new : Gateway) (calls : List Step) (answers : List (Result Out Refusal))
        (made : List (List Op)) → Together old calls answers new made
        → (alone : Gateway) × InTurn old calls answers alone made × AreAlike alone new }
    ensures torn { (plan : Failure) (delta : List Op) (drive : Drive)
        → torn_all plan (delta ∷ []) drive ≡ torn plan delta drive }
{}

/// What calls with one write put into the journal. One such call is the event that it is by itself,
/// also if its write failed. Calls one after the other add to the set what they put there. If their
/// write failed, what was refused is what they would have added. The function does nothing; its
/// contract is the law.
pub fn written_together()
    ensures single { (old new : Gateway) (call : Step) (answer : Result Out Refusal)
        (made : List (List Op)) → (Together old (call ∷ []) (answer ∷ []) new made
        ↔ Event old call answer new made) }
    ensures adds { (old new : Gateway) (calls : List Step) (answers : List (Result Out Refusal))
        (made : List (List Op)) → AllByRecursion CanWrite calls
        → InTurn old calls answers new made
        → new.taken ≡ old.taken ++ all_of (put_by_all calls answers) }
    ensures refused { (old new : Gateway) (call : Step) (answer : Result Out Refusal)
        (behind : List Step) (failure : AreTorn old call answer behind new)
        → failure.there.taken ≡ old.taken ++ all_of new.refused }
{}
