//! The laws of plans. Each function does nothing; its contract is a law, proved for every draft, so
//! for every row of the step table.

ghost use Rattle.std.specs.Prelude.{◌≡◌, ℕ, ◌++◌, ◌⊎◌, [], List, map, Option, Some, None, option_to_list, IfSome, true, Contains};
ghost use Rattle.std.specs.List.{AllByRecursion};
ghost use Rattle.sn_topic.specs.Table.{Entries};
ghost use Rattle.sn_frame.specs.declared.frame.Frame.{Frame};
ghost use Rattle.sn_frame.specs.declared.frame.Will.{Will};
ghost use Rattle.rep_op.specs.declared.op.Op.{Op};
ghost use Rattle.rep_op.specs.declared.op.Put.{Put};
ghost use Rattle.rep_op.specs.Sets.{is_acknowledged, IsConsistent, Same};
ghost use Rattle.rep_model.specs.Views.{pending_at, view};
ghost use Rattle.rep_model.specs.Topics.{retained};
ghost use Rattle.rep_model.specs.Fresh.{next_clock, next_epoch};
ghost use Rattle.rep_model.specs.Keep.{keep};
ghost use Rattle.rep_model.specs.Taking.{AllAgree};
ghost use Rattle.sn_local.specs.declared.config.Addr.{Addr};
ghost use Rattle.sn_local.specs.declared.local.Binding.{Binding};
ghost use Rattle.sn_plan.specs.declared.draft.Posted.{Posted};
ghost use Rattle.sn_plan.specs.declared.plan.Plan.{Plan};
ghost use Rattle.sn_plan.specs.declared.row.Row.{Row};
ghost use Rattle.sn_local.specs.Bindings.{bound, client_at};
ghost use Rattle.sn_plan.specs.Drafts.{Drafted};
ghost use Rattle.sn_local.specs.Locals.{Local};
ghost use Rattle.sn_plan.specs.Rows.{plan_of_row};
ghost use Rattle.sn_flow.specs.Connection.{connect, disconnect};
ghost use Rattle.sn_flow.specs.Wills.{will_topic, will_msg, will_topic_update, will_msg_update};
ghost use Rattle.sn_subscribe.specs.TopicRows.{register, subscribe, unsubscribe};
ghost use Rattle.sn_plan.specs.Others.{other};
ghost use Rattle.sn_plan.specs.Numbering.{Written, start_of, changes_written, handed_to, kept_as};
ghost use Rattle.sn_local.specs.Seen.{Seen, seen_of};
ghost use Rattle.sn_plan.specs.Plans.{plan_of};
ghost use Rattle.sn_plan.specs.Own.{IsOwnWrite, HasNoneOf, AddsNothingOwn, AreFresh, PutsApart, HasMoment, WaitsOrIsAcked, new_messages, handed_in, retained_in, IsOfDraft, PublishesNothing, MakesNoMessage};
ghost use Rattle.sn_plan.specs.Flush.{IsFlush, HaveNoGap, Shows, session_with};

/// A gateway writes under names of its own: the session operations of a plan are of the client that
/// the plan is for and under stamps with the gateway's number, the messages have the gateway as
/// origin, and the acknowledgements are of that client. So nothing that a gateway writes stands
/// under a stamp of another.
pub fn own_names()
    ensures own { (g : ℕ) (c : List ℕ) (seen : Seen) (d : Drafted) (plan : Plan)
        → plan_of g c seen d ≡ Some plan → AllByRecursion (IsOwnWrite g c) plan.ops }
    ensures apart { (g : ℕ) (c : List ℕ) (seen : Seen) (d : Drafted) (plan : Plan)
        → plan_of g c seen d ≡ Some plan → (other : ℕ) (e : List ℕ) → ¬ (other ≡ g)
        → HasNoneOf other e plan.ops }
{}

/// No step loses a message: what waits for a client waits after the step, or the step itself has
/// the acknowledgement of it. Messages for other clients than the plan's all go on waiting. A draft
/// that changes nothing makes no operations, and then nobody's view changes.
pub fn only_acknowledged()
    ensures leaves { (g : ℕ) (c : List ℕ) (S : List Op) (d : Drafted) (plan : Plan)
        → plan_of g c (seen_of S) d ≡ Some plan → (e : List ℕ) (name : ℕ × ℕ) (put : Put)
        → pending_at e S name ≡ Some put → (pending_at e (S ++ plan.ops) name ≡ Some put)
        ⊎ ((e ≡ c) × (is_acknowledged c plan.ops name ≡ true) × Contains d.acks name) }
    ensures quiet { (g : ℕ) (c : List ℕ) (S : List Op) (d : Drafted) (plan : Plan)
        → plan_of g c (seen_of S) d ≡ Some plan → d.changes ≡ [] → d.acks ≡ [] → d.handed ≡ []
        → d.retain ≡ None → d.puts ≡ [] → plan.ops ≡ [] }
    ensures unchanged { (S : List Op) (plan : Plan) → plan.ops ≡ [] → (e : List ℕ)
        → view e (S ++ plan.ops) ≡ view e S }
{}

/// What a step writes is what the client's view then says. Where the gateway's own operations of
/// the client are flush, the session after the step is the one before it with the changes of the
/// draft applied in order, the visible stamp is the one that the numbering reached, and the prefix
/// its counter. Without changes stamp, prefix and session stay, and those of other clients stay
/// always.
pub fn reads_back()
    ensures written { (g : ℕ) (c : List ℕ) (S : List Op) (d : Drafted) (plan : Plan) → IsFlush g c S
        → plan_of g c (seen_of S) d ≡ Some plan → ¬ (d.changes ≡ []) → (w : Written)
        × (changes_written c g d.changes (start_of g (view c S) (next_epoch c S)) ≡ Some w)
        × Shows g w (view c (S ++ plan.ops)) }
    ensures session { (g : ℕ) (c : List ℕ) (S : List Op) (d : Drafted) (plan : Plan) → IsFlush g c S
        → plan_of g c (seen_of S) d ≡ Some plan
        → (view c (S ++ plan.ops)).session ≡ session_with (view c S).session d.changes }
    ensures unchanged { (g : ℕ) (c : List ℕ) (S : List Op) (d : Drafted) (plan : Plan)
        → plan_of g c (seen_of S) d ≡ Some plan → d.changes ≡ []
        → ((view c (S ++ plan.ops)).stamp ≡ (view c S).stamp)
        × ((view c (S ++ plan.ops)).prefix ≡ (view c S).prefix) }
    ensures others { (g : ℕ) (c : List ℕ) (S : List Op) (d : Drafted) (plan : Plan)
        → plan_of g c (seen_of S) d ≡ Some plan → (e : List ℕ) → ¬ (e ≡ c)
        → ((view e (S ++ plan.ops)).stamp ≡ (view e S).stamp)
        × ((view e (S ++ plan.ops)).prefix ≡ (view e S).prefix)
        × ((view e (S ++ plan.ops)).session ≡ (view e S).session) }
{}

/// No name is used twice: neither is a session operation or message of a plan, or what it retains,
/// written under a name that stands in the set, nor under one that stands before it in the plan. So
/// the set stays consistent, and a gateway never refuses what it made itself for a conflict.
pub fn fresh_names()
    ensures fresh { (g : ℕ) (c : List ℕ) (S : List Op) (d : Drafted) (plan : Plan) → IsFlush g c S
        → PutsApart d → plan_of g c (seen_of S) d ≡ Some plan → AreFresh S plan.ops }
    ensures fits { (g : ℕ) (c : List ℕ) (S : List Op) (d : Drafted) (plan : Plan) → IsFlush g c S
        → PutsApart d → plan_of g c (seen_of S) d ≡ Some plan → (delta : List Op)
        → Same delta plan.ops → AllAgree S delta × AllAgree (keep S) delta }
    ensures consistent { (g : ℕ) (c : List ℕ) (S : List Op) (d : Drafted) (plan : Plan)
        → IsFlush g c S → PutsApart d → plan_of g c (seen_of S) d ≡ Some plan → IsConsistent S
        → IsConsistent (S ++ plan.ops) }
{}

/// Every message of a draft is written, and waits for its client after the step, unless the draft
/// acknowledges it as well. So is what the draft hands, to its own client, in its order. Each of
/// these messages has the moment of the draft, from which on it need not wait. What the draft
/// retains is written, and then it is what is retained of its topic.
pub fn messages_wait()
    ensures all { (g : ℕ) (c : List ℕ) (seen : Seen) (d : Drafted) (plan : Plan)
        → plan_of g c seen d ≡ Some plan → new_messages plan.ops ≡ d.puts }
    ensures handed { (g : ℕ) (c : List ℕ) (seen : Seen) (d : Drafted) (plan : Plan)
        → plan_of g c seen d ≡ Some plan → handed_in plan.ops ≡ map (handed_to c) d.handed }
    ensures moments { (g : ℕ) (c : List ℕ) (seen : Seen) (d : Drafted) (plan : Plan)
        → plan_of g c seen d ≡ Some plan → AllByRecursion (HasMoment d.expires) plan.ops }
    ensures retained { (g : ℕ) (c : List ℕ) (seen : Seen) (d : Drafted) (plan : Plan)
        → plan_of g c seen d ≡ Some plan → retained_in plan.ops ≡ option_to_list d.retain }
    ensures wins { (g : ℕ) (c : List ℕ) (S : List Op) (d : Drafted) (plan : Plan) (m : Posted)
        → plan_of g c (seen_of S) d ≡ Some plan → d.retain ≡ Some m → (clock : ℕ)
        × (next_clock m.topic S ≡ Some clock)
        × (retained m.topic (S ++ plan.ops) ≡ Some (kept_as g m clock)) }
    ensures others { (g : ℕ) (c : List ℕ) (S : List Op) (d : Drafted) (plan : Plan) (t : List ℕ)
        → plan_of g c (seen_of S) d ≡ Some plan → IfSome d.retain (λ m. ¬ (m.topic ≡ t))
        → retained t (S ++ plan.ops) ≡ retained t S }
    ensures waiting { (g : ℕ) (c : List ℕ) (S : List Op) (d : Drafted) (plan : Plan) → IsFlush g c S
        → PutsApart d → plan_of g c (seen_of S) d ≡ Some plan
        → AllByRecursion (WaitsOrIsAcked (S ++ plan.ops) c d.acks) plan.ops }
{}

/// A gateway stays flush: it is at the start, after each step of its own, for the client of the
/// step and for all others, and after it takes what others made, also where its own operations come
/// back to it. Equal sets are flush alike, so it does not matter how the operations travel.
pub fn stays_flush()
    ensures start { (g : ℕ) (c : List ℕ) → IsFlush g c [] }
    ensures step { (g : ℕ) (c : List ℕ) (S : List Op) (d : Drafted) (plan : Plan) → IsFlush g c S
        → plan_of g c (seen_of S) d ≡ Some plan → (e : List ℕ) → IsFlush g e S
        → IsFlush g e (S ++ plan.ops) }
    ensures taken { (g : ℕ) (c : List ℕ) (S D : List Op) → IsFlush g c S
        → AddsNothingOwn g c S D → IsFlush g c (S ++ D) }
    ensures equal { (g : ℕ) (c : List ℕ) (A B : List Op) → Same A B → IsFlush g c A
        → IsFlush g c B }
{}

/// In a field where each gateway has a number of its own, a gateway never learns of its own session
/// operations from another: what a step made stands in the set of the gateway that made it, for
/// ever, and is under no stamp of another. So each delta of the field is one of which `stays_flush`
/// speaks.
pub fn adds_none()
    ensures own { (g : ℕ) (c : List ℕ) (S : List Op) (d : Drafted) (plan : Plan) → IsFlush g c S
        → plan_of g c (seen_of S) d ≡ Some plan → (delta : List Op) → Same delta plan.ops
        → (e : List ℕ) → AddsNothingOwn g e (S ++ delta) delta }
    ensures others { (g : ℕ) (c : List ℕ) (seen : Seen) (d : Drafted) (plan : Plan)
        → plan_of g c seen d ≡ Some plan → (delta : List Op) → Same delta plan.ops → (other : ℕ)
        → ¬ (other ≡ g) → (e : List ℕ) (S : List Op) → AddsNothingOwn other e S delta }
    ensures stays { (g : ℕ) (c : List ℕ) (S D more : List Op) → AddsNothingOwn g c S D
        → AddsNothingOwn g c (S ++ more) D }
    ensures together { (S ops delta : List Op) → Same delta ops → Same (S ++ delta) (S ++ ops) }
{}

/// The rows of connections, wills and topics make no message and retain nothing. That of SUBSCRIBE
/// makes no message but those by which it hands its client what was retained.
pub fn rows_make_no_message()
    ensures connects { (seen : Seen) (local : Local) (a : Addr) (flags protocol duration : ℕ)
        (c : List ℕ) (now : ℕ) → MakesNoMessage (connect seen local a flags protocol
        duration c now) }
    ensures disconnects { (seen : Seen) (local : Local) (a : Addr) (duration : Option ℕ) (now : ℕ)
        → MakesNoMessage (disconnect seen local a duration now) }
    ensures will_topics { (seen : Seen) (local : Local) (a : Addr) (will : Option Will) (now : ℕ)
        → MakesNoMessage (will_topic seen local a will now) }
    ensures will_messages { (seen : Seen) (local : Local) (a : Addr) (message : List ℕ) (now : ℕ)
        → MakesNoMessage (will_msg seen local a message now) }
    ensures topic_updates { (local : Local) (a : Addr) (will : Option Will) (now : ℕ)
        → MakesNoMessage (will_topic_update local a will now) }
    ensures message_updates { (seen : Seen) (local : Local) (a : Addr) (message : List ℕ) (now : ℕ)
        → MakesNoMessage (will_msg_update seen local a message now) }
    ensures registers { (seen : Seen) (local : Local) (a : Addr) (msg_id : ℕ) (name : List ℕ)
        (now : ℕ) → MakesNoMessage (register seen local a msg_id name now) }
    ensures subscribes { (p : Entries) (seen : Seen) (local : Local) (a : Addr) (bits msg_id : ℕ)
        (field : List ℕ) (now : ℕ) → PublishesNothing (subscribe p seen local a bits msg_id
        field now) }
    ensures unsubscribes { (p : Entries) (seen : Seen) (local : Local) (a : Addr) (bits msg_id : ℕ)
        (field : List ℕ) (now : ℕ) → MakesNoMessage (unsubscribe p seen local a bits msg_id
        field now) }
    ensures others { (g : ℕ) (local : Local) (a : Addr) (frame : Frame) (now : ℕ)
        → MakesNoMessage (other g local a frame now) }
{}

/// The laws hold of every row: its plan is the plan of a draft. Where that has at most one message
/// a client, or what was retained for its own alone, a gateway whose set is flush for all clients
/// never refuses for a conflict what it made itself, stays flush when it takes it, and loses a
/// message by it only where the step itself acknowledges it.
pub fn every_row()
    ensures drafted { (g : ℕ) (seen : Seen) (row : Row) (plan : Plan) → PutsApart row.draft
        → plan_of_row g seen row ≡ Some plan → IsOfDraft g seen plan }
    ensures fits { (g : ℕ) (S : List Op) (plan : Plan) → HaveNoGap g S
        → IsOfDraft g (seen_of S) plan
        → (delta : List Op) → Same delta plan.ops → AllAgree S delta × AllAgree (keep S) delta }
    ensures flush { (g : ℕ) (S : List Op) (plan : Plan) → HaveNoGap g S
        → IsOfDraft g (seen_of S) plan → (delta : List Op) → Same delta plan.ops
        → HaveNoGap g (S ++ delta) }
    ensures leaves { (g : ℕ) (S : List Op) (plan : Plan) → IsOfDraft g (seen_of S) plan
        → (delta : List Op) → Same delta plan.ops → (c : List ℕ) (name : ℕ × ℕ) (put : Put)
        → pending_at c S name ≡ Some put → (pending_at c (S ++ delta) name ≡ Some put)
        ⊎ (is_acknowledged c delta name ≡ true) }
{}

/// A binding joins one address and one client: the address is that client's, the binding stands in
/// the list, and no other has the address or the client.
pub fn one_binding()
    ensures client { (a : Addr) (c : List ℕ) (bindings : List Binding)
        → client_at a (bound a c bindings) ≡ Some c }
    ensures alone { (a : Addr) (c : List ℕ) (bindings : List Binding) (binding : Binding)
        → Contains (bound a c bindings) binding → (binding.address ≡ a) ⊎ (binding.client ≡ c)
        → (binding.address ≡ a) × (binding.client ≡ c) }
{}
