//! The laws of a field. Each function does nothing; its contract is a law, proved for all runs.
//!
//! That gateways stay flush (`steady_field`) and that a field stays consistent (`consistent_field`)
//! is one induction. An answered delta leaves a gateway flush because of where its names are at
//! home, and names are at home because gateways are flush.

ghost use Rattle.std.specs.Prelude.{◌≡◌, ℕ, ◌⊎◌, ◌↔◌, true, List, ◌++◌, map, Result, Some, None, Ok, Err, IfSome, IsTrue, Contains, slice_get};
ghost use Rattle.rep_op.specs.declared.op.Op.{Op};
ghost use Rattle.rep_op.specs.declared.op.Subject.{Subject};
ghost use Rattle.rep_op.specs.declared.op.Put.{Put};
ghost use Rattle.rep_ops.specs.Deltas.{IsDelta};
ghost use Rattle.rep_ops.specs.Making.{IsDeltaOf};
ghost use Rattle.rep_op.specs.Sets.{is_acknowledged, IsConsistent, Within, Same};
ghost use Rattle.rep_ops.specs.Splitting.{all_of};
ghost use Rattle.rep_model.specs.Keep.{keep, CountsAs};
ghost use Rattle.rep_model.specs.Views.{view};
ghost use Rattle.rep_model.specs.Topics.{retained, all_retained};
ghost use Rattle.rep_op.specs.declared.op.Retained.{Retained};
ghost use Rattle.rep_op.specs.Orders.{clock_of, clock_cmp};
ghost use Rattle.std.specs.Ordering.{is_lt};
ghost use Rattle.rep_model.specs.Taking.{AllAgree};
ghost use Rattle.sn_local.specs.declared.config.Config.{Config};
ghost use Rattle.sn_plan.specs.declared.plan.Plan.{Plan};
ghost use Rattle.gw_world.specs.declared.event.Event.{Event};
ghost use Rattle.gw_world.specs.declared.event.Answer.{Answer};
ghost use Rattle.gw_world.specs.declared.event.Event.TheVariants.{Together};
ghost use Rattle.gw_world.specs.declared.event.Call.{Call};
ghost use Rattle.gw_world.specs.declared.event.Answer.TheVariants.{Node, Row};
ghost use Rattle.gw_answer.specs.Answers.{said};
ghost use Rattle.gw_answer.specs.declared.fault.NodeFault.{NodeFault};
ghost use Rattle.gw_node.specs.Failures.{failed};
ghost use Rattle.std.specs.List.{AllByRecursion};
ghost use Rattle.std.specs.declared.alloc.Global.{Global};
ghost use Rattle.std.specs.declared.sync.Arc.{Arc};
ghost use Rattle.gw_answer.specs.declared.out.Out.{Out};
ghost use Rattle.gw_answer.specs.declared.fault.NodeFault.TheVariants as faults;
ghost use Rattle.gw_answer.specs.declared.refusal.Refusal.TheVariants as refusals;
ghost use Rattle.gw_event.specs.Occasions.{Occasion};
ghost use Rattle.gw_event.specs.Gateways.{Gateway};
ghost use Rattle.gw_world.specs.Field.{Field, new_field, IsAt, IsDeltaAt, After, Run, gateway_of_event, peer_of, shown, by_itself, AreFieldsAlike};
ghost use Rattle.gw_world.specs.Steps.{AnswerStep};
ghost use Rattle.gw_event.specs.Event.{IsPlan, OwnStep, TakeStep, IsWritable};
ghost use Rattle.gw_world.specs.Steady.{IsSteady};
ghost use Rattle.gw_world.specs.Whole.{listed, everything, maker_of, IsAtOrigin, AreMadeOnce, made_by, MayMake, NoneFails, all_made, brought, HasTakenAll};
ghost use Rattle.field_laws.specs.Settings.{settings};

/// No message vanishes. What a gateway has taken it keeps: its set only grows, whatever comes and
/// whatever fails. So a message that waits for a client at a gateway, at any moment of a run, waits
/// there at every later moment, or its acknowledgement is in the set of that gateway. The same
/// holds at each gateway that has taken all that this one had. What is retained of a topic is still
/// retained then, or something later of the topic is. No gateway leaves the field, and each keeps
/// its place, its number and its other settings.
pub fn nothing_vanishes()
    ensures places { (old new : Field) (more : List Event) (replies : List Answer)
        → Run old more replies new → settings new ≡ settings old }
    ensures grows { (old new : Field) (more : List Event) (replies : List Answer) (i : ℕ)
        (gateway later : Gateway)
        → slice_get old.gateways i ≡ Some gateway → Run old more replies new
        → slice_get new.gateways i ≡ Some later → Within gateway.taken later.taken }
    ensures stays { (configs : List Config) (events more : List Event)
        (answers replies : List Answer)
        (old new : Field) (i : ℕ) (gateway later : Gateway) (c : List ℕ) (put : Put)
        → Run (new_field configs) events answers old → slice_get old.gateways i ≡ Some gateway
        → Contains (view c gateway.taken).pending put
        → Run old more replies new → slice_get new.gateways i ≡ Some later
        → Contains (view c later.taken).pending put
        ⊎ (is_acknowledged c later.taken (put.seq, put.origin) ≡ true) }
    ensures moves { (gateway other : Gateway) (c : List ℕ) (put : Put)
        → Contains (view c gateway.taken).pending put → Within gateway.taken other.taken
        → Contains (view c other.taken).pending put
        ⊎ (is_acknowledged c other.taken (put.seq, put.origin) ≡ true) }
    ensures retained { (old new : Field) (more : List Event) (replies : List Answer) (i : ℕ)
        (gateway later : Gateway) (t : List ℕ) (kept : Retained)
        → slice_get old.gateways i ≡ Some gateway → retained t gateway.taken ≡ Some kept
        → Run old more replies new → slice_get new.gateways i ≡ Some later
        → (last : Retained) × (retained t later.taken ≡ Some last)
        × ((last ≡ kept) ⊎ IsTrue (is_lt (clock_cmp (clock_of kept) (clock_of last)))) }
    ensures retained_moves { (gateway other : Gateway) (t : List ℕ) (kept : Retained)
        → retained t gateway.taken ≡ Some kept → Within gateway.taken other.taken
        → (last : Retained) × (retained t other.taken ≡ Some last)
        × ((last ≡ kept) ⊎ IsTrue (is_lt (clock_cmp (clock_of kept) (clock_of last)))) }
{}

/// Whatever happens in a field, each gateway stays flush, and what it wrote itself comes back to it
/// as it wrote it. So the operations that it makes contradict nothing that it has taken, and no
/// datagram and no tick is ever answered by Conflict.
pub fn steady_field()
    ensures steady { (configs : List Config) (events : List Event) (answers : List Answer)
        (field : Field) → Run (new_field configs) events answers field → IsSteady field }
    ensures agrees { (field : Field) (number i : ℕ) (gateway : Gateway) (occasion : Occasion)
        (now : ℕ) (plan : Plan) (delta : List Op) → IsSteady field → IsAt field number i gateway
        → IsPlan gateway occasion now (Some plan) → IsDeltaOf plan.ops delta
        → AllAgree gateway.taken delta }
    ensures no_conflict { (field : Field) (number i : ℕ) (gateway : Gateway) (occasion : Occasion)
        (now : ℕ) (of : Subject) (new : Gateway) (made : List (List Op)) → IsSteady field
        → IsAt field number i gateway → OwnStep gateway occasion now
        (Err (refusals.Conflict of)) new made → ⊥ }
{}

/// A field never contradicts itself, whatever fails in it. In whatever all its gateways have taken
/// and all deltas of its list hold, no name of a session operation, a message or what is retained
/// stands for two operations, and so in each part of it, however it is put together. Each delta of
/// the list is a delta, with counter 0 exactly at the operations that take a session, and can be
/// written. A delta of the list agrees with what any gateway has taken, and with what it must keep
/// of that; so no delivery of it, and no event of a run at all, is answered by Conflict.
pub fn consistent_field()
    ensures consistent { (configs : List Config) (events : List Event) (answers : List Answer)
        (field : Field)
        → Run (new_field configs) events answers field → IsConsistent (everything field) }
    ensures parts { (configs : List Config) (events : List Event) (answers : List Answer)
        (field : Field) (part : List Op) → Run (new_field configs) events answers field
        → ((op : Op) → Contains part op → Contains (everything field) op) → IsConsistent part }
    ensures well_made { (configs : List Config) (events : List Event) (answers : List Answer)
        (field : Field) (delta : List Op) → Run (new_field configs) events answers field
        → Contains field.deltas delta → IsDelta delta × IsWritable delta }
    ensures agrees { (configs : List Config) (events : List Event) (answers : List Answer)
        (field : Field) (gateway : Gateway) (delta : List Op)
        → Run (new_field configs) events answers field → Contains field.gateways gateway
        → Contains field.deltas delta → AllAgree gateway.taken delta
        × AllAgree (keep gateway.taken) delta }
    ensures no_conflict { (configs : List Config) (events : List Event) (answers : List Answer)
        (field : Field) (number i k : ℕ) (gateway : Gateway) (delta : List Op) (of : Subject)
        (new : Gateway) (made : List (List Op)) → Run (new_field configs) events answers field
        → IsAt field number i gateway → IsDeltaAt field k delta
        → TakeStep gateway delta (Err (refusals.Conflict of)) new made → ⊥ }
    ensures never { (configs : List Config) (events : List Event) (answers : List Answer)
        (field : Field) (of : Subject) → Run (new_field configs) events answers field
        → Contains answers (Node (Err (faults.Conflict of))) → ⊥ }
    ensures never_together { (configs : List Config) (events : List Event) (answers : List Answer)
        (field : Field) (replies : List (Result (Arc Out Global) NodeFault)) (of : Subject)
        → Run (new_field configs) events answers field → Contains answers (Row replies)
        → Contains (map said replies) (Err (refusals.Conflict of)) → ⊥ }
{}

/// No session operation and no message is made twice, and nothing is retained twice under one name.
/// Each that is anywhere in a field stands in the set of the gateway whose number is in its name.
/// What an event adds to a field is named after the gateway that the event is at: nobody else
/// writes under that number. In all deltas that answers tell of as made, a name stands in one
/// place; only answers to datagrams and ticks tell of any; and where no failure is arranged,
/// whatever has a name was told of. The list is what the answers bring, in their order: deltas that
/// were made, and deltas that answer a digest, which repeat what was made before. Where no digest
/// is sent, in the whole list a name stands in one place.
pub fn made_once()
    ensures home { (configs : List Config) (events : List Event) (answers : List Answer)
        (field : Field) (op : Op) → Run (new_field configs) events answers field
        → Contains (everything field) op → IsAtOrigin field op }
    ensures writes { (configs : List Config) (events : List Event) (answers : List Answer)
        (old new : Field) (event : Event) (answer : Answer) (op : Op)
        → Run (new_field configs) events answers old → After old event answer new
        → Contains (everything new) op
        → Contains (everything old) op
        ⊎ IfSome (maker_of op) (λ number. number ≡ gateway_of_event event) }
    ensures once { (configs : List Config) (events : List Event) (answers : List Answer)
        (field : Field)
        → Run (new_field configs) events answers field → AreMadeOnce (all_made answers) }
    ensures makes { (old new : Field) (event : Event) (answer : Answer) (delta : List Op)
        → After old event answer new → Contains (made_by answer) delta → MayMake event }
    ensures told { (configs : List Config) (events : List Event) (answers : List Answer)
        (field : Field) (op : Op) → Run (new_field configs) events answers field → NoneFails events
        → Contains (everything field) op
        → IfSome (maker_of op) (λ number. Contains (all_of (all_made answers)) op) }
    ensures list { (configs : List Config) (events : List Event) (answers : List Answer)
        (field : Field) → Run (new_field configs) events answers field
        → field.deltas ≡ brought answers }
    ensures unasked { (configs : List Config) (events : List Event) (answers : List Answer)
        (field : Field) → Run (new_field configs) events answers field
        → ((event : Event) → Contains events event → peer_of event ≡ None)
        → AreMadeOnce field.deltas }
{}

/// Gateways that have taken the same have the same. Two gateways that have taken the same
/// operations, in whatever order and however often, have equal sets. What a gateway has taken,
/// operation by operation, stands in its set. Two gateways that have, by whatever operations, all
/// that stands in the field have equal sets. Where no failure is arranged, nothing stands in a
/// gateway's set that does not stand in the list; so a gateway that every delta of the list has
/// reached has what the list has, and two of them have equal sets. (A delta that a gateway refused,
/// and read back when it was opened again, is in no list until the gateway answers a digest.) And
/// gateways with equal sets show the same, of clients and of topics.
pub fn settled_field()
    ensures listed { (configs : List Config) (events : List Event) (answers : List Answer)
        (field : Field) (gateway : Gateway) (op : Op) → Run (new_field configs) events answers field
        → NoneFails events → Contains field.gateways gateway
        → Contains gateway.taken op → Contains (listed field) op }
    ensures within { (configs : List Config) (events : List Event) (answers : List Answer)
        (field : Field) (gateway : Gateway) → Run (new_field configs) events answers field
        → NoneFails events
        → Contains field.gateways gateway → Within gateway.taken (listed field) }
    ensures alike { (configs : List Config) (events : List Event) (answers : List Answer)
        (field : Field) (one other : Gateway) → Run (new_field configs) events answers field
        → Contains field.gateways one → Contains field.gateways other
        → ((op : Op) → Contains one.taken op ↔ Contains other.taken op)
        → Same one.taken other.taken }
    ensures reached { (configs : List Config) (events : List Event) (answers : List Answer)
        (field : Field) (gateway : Gateway) (part : List Op)
        → Run (new_field configs) events answers field → Contains field.gateways gateway
        → ((op : Op) → Contains part op → Contains gateway.taken op) → Within part gateway.taken }
    ensures all { (configs : List Config) (events : List Event) (answers : List Answer)
        (field : Field) (gateway : Gateway) → Run (new_field configs) events answers field
        → NoneFails events
        → Contains field.gateways gateway
        → HasTakenAll field gateway → Same gateway.taken (listed field) }
    ensures complete { (configs : List Config) (events : List Event) (answers : List Answer)
        (field : Field) (one other : Gateway) → Run (new_field configs) events answers field
        → Contains field.gateways one → Contains field.gateways other
        → Within (everything field) one.taken → Within (everything field) other.taken
        → Same one.taken other.taken }
    ensures settled { (configs : List Config) (events : List Event) (answers : List Answer)
        (field : Field) (one other : Gateway) → Run (new_field configs) events answers field
        → NoneFails events → Contains field.gateways one → Contains field.gateways other
        → HasTakenAll field one → HasTakenAll field other → Same one.taken other.taken }
    ensures shown { (one other : List Op) → Same one other → shown one ≡ shown other }
    ensures kept { (one other : List Op) → Same one other
        → all_retained one ≡ all_retained other }
{}

/// The answer to its digest completes a gateway. With the deltas that a peer answers, in whatever
/// order and however often they come, a gateway keeps what it would keep with the peer's whole set,
/// whatever it takes later. And in a run: once what was answered has reached the gateway, by these
/// deltas or by others, the set that the peer had when it answered has nothing to add to what the
/// gateway keeps.
pub fn answered_field()
    ensures completes { (asker peer : Gateway) (out : Out) (made : List (List Op)) (later : List Op)
        → AnswerStep asker peer (Ok out) made
        → Same (keep ((asker.taken ++ all_of made) ++ later))
        (keep ((asker.taken ++ peer.taken) ++ later)) }
    ensures however { (asker peer : Gateway) (out : Out) (made : List (List Op))
        (taken later : List Op) → AnswerStep asker peer (Ok out) made
        → ((op : Op) → Contains taken op ↔ Contains (all_of made) op)
        → Same (keep ((asker.taken ++ taken) ++ later))
        (keep ((asker.taken ++ peer.taken) ++ later)) }
    ensures caught_up { (configs : List Config) (events more : List Event)
        (answers replies : List Answer) (old new : Field) (number other i j : ℕ)
        (asker peer later : Gateway) (out : Out) (made : List (List Op))
        → Run (new_field configs) events answers old
        → IsAt old number i asker → IsAt old other j peer → AnswerStep asker peer (Ok out) made
        → Run (record old { deltas = old.deltas ++ made }) more replies new
        → slice_get new.gateways i ≡ Some later
        → Within (all_of made) later.taken → CountsAs (later.taken ++ peer.taken) later.taken }
{}

/// Calls that come together are calls one by one. Where no answer is that the disk failed, they are
/// a run of as many events, with these answers, that leads to the same field, disks included. Where
/// one is, such a run gives these answers as well; what it leads to differs in nothing but that
/// gateway's disk and what it refused. So what is said of events by themselves holds of each call.
pub fn together_field()
    ensures went { (old new : Field) (number : ℕ) (called : List Call)
        (answers : List (Result (Arc Out Global) NodeFault))
        → After old (Together number called) (Row answers) new
        → AllByRecursion (λ answer. failed answer ≡ 0) (map said answers)
        → Run old (map (by_itself number) called) (map Node answers) new }
    ensures told { (old new : Field) (number : ℕ) (called : List Call)
        (answers : List (Result (Arc Out Global) NodeFault))
        → After old (Together number called) (Row answers) new
        → (alone : Field) × Run old (map (by_itself number) called) (map Node answers) alone
        × AreFieldsAlike alone new }
{}
