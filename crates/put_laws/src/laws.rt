//! What a gateway puts, for whom, and until when; what it retains, and what it hands to a client
//! that subscribes. Each function does nothing; its contract is a law.

ghost use Rattle.std.specs.Prelude.{◌≡◌, ℕ, ◌+◌, ◌-◌, ◌^◌, ◌≤◌, ◌<◌, ◌⊎◌, ◌++◌, ◌∷◌, ◌↔◌, true, List, [], length, map, Some, option_to_list, Contains, filter, take};
ghost use Rattle.std.specs.List.{AllByRecursion};
ghost use Rattle.std.specs.List.Sorted.{IsStrictlySortedBy};
ghost use Rattle.sn_topic.specs.Table.{Entries};
ghost use Rattle.sn_session.specs.declared.will.Will.{Will};
ghost use Rattle.sn_frame.specs.declared.flags.Flags.{Flags};
ghost use Rattle.sn_frame.specs.declared.flags.Qos.TheVariants.{One, Two};
ghost use Rattle.sn_frame.specs.declared.frame.Frame.{Frame};
ghost use Rattle.sn_frame.specs.declared.frame.Frame.TheVariants as frames;
ghost use Rattle.sn_frame.specs.FlagBits.{qos_of};
ghost use Rattle.sn_topic.specs.Matching.{is_match};
ghost use Rattle.rep_op.specs.declared.op.Retained.{Retained};
ghost use Rattle.rep_op.specs.declared.op.Op.{Op};
ghost use Rattle.rep_op.specs.Orders.{topic_name_cmp};
ghost use Rattle.rep_model.specs.Topics.{retained, retained_matching};
ghost use Rattle.rep_model.specs.Fresh.{next_clock};
ghost use Rattle.sn_local.specs.declared.config.Addr.{Addr};
ghost use Rattle.sn_local.specs.Lifetimes.{expires_at};
ghost use Rattle.sn_local.specs.Locals.{Local};
ghost use Rattle.sn_local.specs.Seen.{Seen, seen_of};
ghost use Rattle.sn_plan.specs.declared.draft.NewPut.{NewPut};
ghost use Rattle.sn_plan.specs.declared.draft.Posted.{Posted};
ghost use Rattle.sn_plan.specs.declared.limits.TheConstants.{MAX_PENDING};
ghost use Rattle.sn_plan.specs.declared.plan.Plan.{Plan};
ghost use Rattle.sn_plan.specs.Flush.{HaveNoGap};
ghost use Rattle.sn_plan.specs.Numbering.{kept_as};
ghost use Rattle.sn_plan.specs.Own.{HasMoment, IsOneEach, new_messages, handed_in, retained_in};
ghost use Rattle.sn_publish.specs.Recipients.{is_another, puts_for, puts_of_will};
ghost use Rattle.sn_subscribe.specs.Handing.{at_most, handed_for};
ghost use Rattle.sn_deliver.specs.Steps.{step};
ghost use Rattle.sn_tick.specs.Ticking.{tick};
ghost use Rattle.put_laws.specs.Retained.{handed_by, kept_of, kept_by_tick};
ghost use Rattle.put_laws.specs.Puts.{HasReceived, IsAmongRecipients, IsReplyTo, IsWaiting, IsOfGateway, IsPublished, puts_by_tick, puts_of};

/// What a gateway accepts it puts, with that step one message for each recipient, and they wait. A
/// PUBLISH makes the messages of its recipients, a client that is taken for lost those of its will,
/// and no other frame and no other tick makes any. The messages of a publication are those for its
/// recipients, each of them, and no others. Who is one, and at which quality of service, is said by
/// `qos_for`, which passes over a client for which 1,024 messages wait. PUBACK with code 0, at
/// quality of service 1, means that they were made; so does PUBREC, at 2, or that the message id
/// was received before and is not released. No step makes two messages for one client, and each
/// that it makes waits for its client after that step, at a gateway that is flush: each one that
/// the events of a run reach is.
///
/// The law is about the plan of one step. That a plan is taken and synced before its frames go out
/// is said by the calls of `gw_node`, and that a message goes on waiting by `nothing_vanishes` of
/// `field_laws`. Nothing says here that an accepted PUBLISH is answered at all.
pub fn accepted_is_put()
    ensures frames { (g lifetime : ℕ) (predefined : Entries) (seen : Seen) (local : Local)
        (a : Addr) (frame : Frame) (now : ℕ) (plan : Plan)
        → step g lifetime predefined seen local a frame now ≡ Some plan
        → new_messages plan.ops ≡ puts_of predefined seen local a frame }
    ensures ticks { (g lifetime advertise : ℕ) (field : List Addr) (predefined : Entries)
        (seen : Seen) (local : Local) (now : ℕ) (plan : Plan)
        → tick g lifetime advertise field predefined seen local now ≡ Some plan
        → new_messages plan.ops ≡ puts_by_tick g advertise field seen local now }
    ensures puback { (g lifetime : ℕ) (predefined : Entries) (seen : Seen) (local : Local)
        (a : Addr) (flags : Flags) (topic msg_id : ℕ) (body : List ℕ) (now : ℕ) (plan : Plan)
        (t m : ℕ)
        → step g lifetime predefined seen local a (frames.Publish flags topic msg_id body) now
        ≡ Some plan
        → qos_of flags.bits ≡ One → IsReplyTo a (frames.PubAck t m 0) plan.sends
        → IsPublished predefined seen local a flags.bits topic 1 body (new_messages plan.ops) }
    ensures pubrec { (g lifetime : ℕ) (predefined : Entries) (seen : Seen) (local : Local)
        (a : Addr) (flags : Flags) (topic msg_id : ℕ) (body : List ℕ) (now : ℕ) (plan : Plan)
        (m : ℕ)
        → step g lifetime predefined seen local a (frames.Publish flags topic msg_id body) now
        ≡ Some plan
        → qos_of flags.bits ≡ Two → IsReplyTo a (frames.PubRec m) plan.sends
        → IsPublished predefined seen local a flags.bits topic 2 body (new_messages plan.ops)
        ⊎ HasReceived seen local a msg_id }
    ensures recipients { (seen : Seen) (topic : List ℕ) (qos : ℕ) (body : List ℕ) (p : NewPut)
        → Contains (puts_for seen topic qos body) p ↔ IsAmongRecipients seen seen.all topic qos body
        p }
    ensures wills { (seen : Seen) (c : List ℕ) (will : Will) (p : NewPut)
        → Contains (puts_of_will seen c will) p
        ↔ IsAmongRecipients seen
        (filter (is_another c) seen.all) will.topic will.qos will.message p }
    ensures once { (g : ℕ) (S : List Op) (plan : Plan) → IsOfGateway g S plan
        → IsOneEach (new_messages plan.ops) }
    ensures kept { (g : ℕ) (S : List Op) (plan : Plan) → IsOfGateway g S plan → HaveNoGap g S
        → AllByRecursion (IsWaiting (S ++ plan.ops)) plan.ops }
{}

/// What is published with Retain is retained, and handed to whoever subscribes later. A PUBLISH
/// that asks for it and is accepted is retained, as is the will of a client that is taken for lost;
/// a repeat and a refused one are not, and no other frame and no other tick retains anything. What
/// a step retains is then what is retained of its topic, whichever gateway retained it before, and
/// of other topics nothing changes. A SUBSCRIBE that is accepted hands its client what is retained
/// of the topics that it asks for, and no other frame and no tick hands anything: each such topic
/// of which something is retained, once, in ascending order, at the smaller of the two qualities of
/// service, as long as fewer than 1,024 messages wait: where not all find room, the first of them.
/// That what is handed waits for the client is said by `accepted_is_put`, which speaks of every
/// message of a step.
///
/// Of a topic that is new to a gateway that knows 1,024 nothing is retained.
pub fn retained_is_handed()
    ensures frames { (g lifetime : ℕ) (predefined : Entries) (seen : Seen) (local : Local)
        (a : Addr) (frame : Frame) (now : ℕ) (plan : Plan)
        → step g lifetime predefined seen local a frame now ≡ Some plan
        → retained_in plan.ops ≡ option_to_list (kept_of predefined seen local a frame) }
    ensures ticks { (g lifetime advertise : ℕ) (field : List Addr) (predefined : Entries)
        (seen : Seen) (local : Local) (now : ℕ) (plan : Plan)
        → tick g lifetime advertise field predefined seen local now ≡ Some plan
        → retained_in plan.ops ≡ option_to_list (kept_by_tick g advertise field seen local now) }
    ensures wins { (g : ℕ) (S : List Op) (plan : Plan) (m : Posted) → IsOfGateway g S plan
        → retained_in plan.ops ≡ m ∷ [] → (clock : ℕ) × (next_clock m.topic S ≡ Some clock)
        × (retained m.topic (S ++ plan.ops) ≡ Some (kept_as g m clock)) }
    ensures others { (g : ℕ) (S : List Op) (plan : Plan) (t : List ℕ) → IsOfGateway g S plan
        → AllByRecursion (λ (m : Posted). ¬ (m.topic ≡ t)) (retained_in plan.ops)
        → retained t (S ++ plan.ops) ≡ retained t S }
    ensures handed { (g lifetime : ℕ) (predefined : Entries) (seen : Seen) (local : Local)
        (a : Addr) (frame : Frame) (now : ℕ) (plan : Plan)
        → step g lifetime predefined seen local a frame now ≡ Some plan
        → handed_in plan.ops ≡ handed_by predefined seen local a frame }
    ensures ticks_hand { (g lifetime advertise : ℕ) (field : List Addr) (predefined : Entries)
        (seen : Seen) (local : Local) (now : ℕ) (plan : Plan)
        → tick g lifetime advertise field predefined seen local now ≡ Some plan
        → handed_in plan.ops ≡ [] }
    ensures exact { (S : List Op) (asked : List ℕ) (qos waiting : ℕ)
        → handed_for (seen_of S) asked qos waiting
        ≡ map (at_most qos) (take (MAX_PENDING - waiting) (retained_matching asked S)) }
    ensures all { (S : List Op) (asked : List ℕ) (qos waiting : ℕ) (t : List ℕ) (k : Retained)
        → length (retained_matching asked S) + waiting ≤ MAX_PENDING → retained t S ≡ Some k
        → is_match asked t ≡ true → 0 < length k.body
        → Contains (handed_for (seen_of S) asked qos waiting) (at_most qos (t, k)) }
    ensures only { (S : List Op) (asked : List ℕ) (qos waiting : ℕ) (m : Posted)
        → Contains (handed_for (seen_of S) asked qos waiting) m → (k : Retained)
        × (retained m.topic S ≡ Some k) × (is_match asked m.topic ≡ true) × (0 < length k.body)
        × (m ≡ at_most qos (m.topic, k)) }
    ensures few { (S : List Op) (asked : List ℕ) (qos waiting : ℕ) → waiting ≤ MAX_PENDING
        → length (handed_for (seen_of S) asked qos waiting) + waiting ≤ MAX_PENDING }
    ensures ascending { (S : List Op) (asked : List ℕ) (qos waiting : ℕ)
        → IsStrictlySortedBy topic_name_cmp
        (map (λ (m : Posted). m.topic) (handed_for (seen_of S) asked qos waiting)) }
{}

/// Until when a message waits. All messages that a step or a tick makes have the same moment: the
/// one at which the lifetime of their gateway is over, in seconds. Without a lifetime they have
/// none, and wait until they are delivered; so do those whose moment would not fit eight octets. A
/// moment is later than that of the step, so that no message expires in the second in which it is
/// made. What is retained has no moment.
pub fn moments()
    ensures frames { (g lifetime : ℕ) (predefined : Entries) (seen : Seen) (local : Local)
        (a : Addr) (frame : Frame) (now : ℕ) (plan : Plan)
        → step g lifetime predefined seen local a frame now ≡ Some plan
        → AllByRecursion (HasMoment (expires_at lifetime now)) plan.ops }
    ensures ticks { (g lifetime advertise : ℕ) (field : List Addr) (predefined : Entries)
        (seen : Seen) (local : Local) (now : ℕ) (plan : Plan)
        → tick g lifetime advertise field predefined seen local now ≡ Some plan
        → AllByRecursion (HasMoment (expires_at lifetime now)) plan.ops }
    ensures none { (now : ℕ) → expires_at 0 now ≡ 0 }
    ensures later { (lifetime now : ℕ) → 0 < lifetime → now + lifetime < 2 ^ 64
        → (expires_at lifetime now ≡ now + lifetime) × (now < expires_at lifetime now) }
    ensures too_late { (lifetime now : ℕ) → 2 ^ 64 ≤ now + lifetime → expires_at lifetime now ≡ 0 }
{}
