//! The laws. Each function does nothing; its contract is a law, proved for every row of the step
//! table.

ghost use Rattle.std.specs.Prelude.{◌≡◌, ℕ, ◌≤◌, ◌++◌, true, List, [], Some};
ghost use Rattle.sn_topic.specs.Table.{Entries};
ghost use Rattle.sn_session.specs.declared.session.Session.{Session};
ghost use Rattle.sn_frame.specs.declared.frame.Frame.{Frame};
ghost use Rattle.rep_op.specs.declared.op.Op.{Op};
ghost use Rattle.rep_op.specs.Sets.{Same};
ghost use Rattle.rep_ops.specs.Making.{HaveOwnNames, AreWellMade, IsDeltaOf};
ghost use Rattle.rep_model.specs.Views.{view};
ghost use Rattle.sn_local.specs.declared.config.Addr.{Addr};
ghost use Rattle.sn_plan.specs.declared.plan.Plan.{Plan};
ghost use Rattle.sn_local.specs.Bindings.{client_at};
ghost use Rattle.sn_plan.specs.Flush.{HaveNoGap};
ghost use Rattle.sn_local.specs.Locals.{Local, no_local, after_all, owned};
ghost use Rattle.sn_plan.specs.Others.{is_up};
ghost use Rattle.sn_plan.specs.Own.{AddsNothingOwn};
ghost use Rattle.sn_local.specs.Seen.{Seen, seen_of};
ghost use Rattle.sn_deliver.specs.Steps.{step};
ghost use Rattle.sn_tick.specs.Ticking.{tick};
ghost use Rattle.plan_laws.specs.KeepsWell.{KeepsWell};
ghost use Rattle.plan_laws.specs.BoundUp.{IsUp};

/// The operations of every plan, of each frame and of each tick, are well made at a gateway that
/// keeps well, and no two of them have a name in common, acknowledgements neither.
pub fn every_plan()
    ensures steps { (g lifetime : ℕ) (predefined : Entries) (S : List Op) (local : Local)
        (a : Addr) (frame : Frame) (now : ℕ) (plan : Plan) → KeepsWell g S local
        → step g lifetime predefined (seen_of S) local a frame now ≡ Some plan
        → HaveOwnNames plan.ops }
    ensures ticks { (g lifetime advertise : ℕ) (field : List Addr) (predefined : Entries)
        (S : List Op) (local : Local) (now : ℕ) (plan : Plan) → KeepsWell g S local
        → tick g lifetime advertise field predefined (seen_of S) local now ≡ Some plan
        → HaveOwnNames plan.ops }
{}

/// A gateway keeps well, from its start on: when it takes what a step or a tick of its own made,
/// and when it takes a delta that has nothing new under its own stamps.
pub fn keeps_well()
    ensures start { (g : ℕ) → 1 ≤ g → KeepsWell g [] no_local }
    ensures steps { (g lifetime : ℕ) (predefined : Entries) (S : List Op) (local : Local) (a : Addr)
        (frame : Frame) (now : ℕ) (plan : Plan) (delta : List Op) → KeepsWell g S local
        → step g lifetime predefined (seen_of S) local a frame now ≡ Some plan
        → IsDeltaOf plan.ops delta → KeepsWell g (S ++ delta) (after_all local plan.local) }
    ensures ticks { (g lifetime advertise : ℕ) (field : List Addr) (predefined : Entries)
        (S : List Op) (local : Local) (now : ℕ) (plan : Plan) (delta : List Op)
        → KeepsWell g S local
        → tick g lifetime advertise field predefined (seen_of S) local now ≡ Some plan
        → IsDeltaOf plan.ops delta → KeepsWell g (S ++ delta) (after_all local plan.local) }
    ensures taken { (g : ℕ) (S delta : List Op) (local : Local) (seen : Seen)
        → KeepsWell g S local → AreWellMade delta → ((c : List ℕ) → AddsNothingOwn g c S delta)
        → KeepsWell g (S ++ delta) (owned g seen local) }
{}

/// A client that is bound at a gateway is owned by it, and is Active, Asleep or Awake: from its
/// start on, after each step and each tick that it carries out, and after each delta of others
/// that it takes, which ends the bindings of the clients that it owns no more. So a frame from a
/// bound address finds a session, and a client that is up.
pub fn bound_up()
    ensures start { (g : ℕ) → IsUp g [] no_local }
    ensures steps { (g lifetime : ℕ) (predefined : Entries) (S : List Op) (local : Local) (a : Addr)
        (frame : Frame) (now : ℕ) (plan : Plan) (delta : List Op) → HaveNoGap g S → IsUp g S local
        → step g lifetime predefined (seen_of S) local a frame now ≡ Some plan → Same delta plan.ops
        → IsUp g (S ++ delta) (after_all local plan.local) }
    ensures ticks { (g lifetime advertise : ℕ) (field : List Addr) (predefined : Entries)
        (S : List Op) (local : Local) (now : ℕ) (plan : Plan) (delta : List Op) → HaveNoGap g S
        → IsUp g S local
        → tick g lifetime advertise field predefined (seen_of S) local now ≡ Some plan
        → Same delta plan.ops → IsUp g (S ++ delta) (after_all local plan.local) }
    ensures taken { (g : ℕ) (S delta : List Op) (local : Local) → IsUp g S local
        → ((c : List ℕ) → AddsNothingOwn g c S delta)
        → IsUp g (S ++ delta) (owned g (seen_of (S ++ delta)) local) }
    ensures equal { (g : ℕ) (A B : List Op) (local : Local) → Same A B → IsUp g A local
        → IsUp g B local }
    ensures found { (g : ℕ) (S : List Op) (local : Local) (a : Addr) (c : List ℕ) → IsUp g S local
        → client_at a local.bindings ≡ Some c
        → (s : Session) × ((view c S).session ≡ Some s) × (is_up s.presence ≡ true) }
{}
