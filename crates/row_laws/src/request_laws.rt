//! The laws of REGISTER, SUBSCRIBE, UNSUBSCRIBE and the updates of wills. Each function does
//! nothing; its contract is a law, proved for all sessions.

ghost use Rattle.std.specs.Prelude.{◌≡◌, ℕ, false, List, Option, Some, IfSome};
ghost use Rattle.sn_topic.specs.Table.{Entries};
ghost use Rattle.sn_session.specs.declared.session.Session.{Session};
ghost use Rattle.sn_tables.specs.Tables.{IsTable};
ghost use Rattle.sn_tables.specs.Topics.{topic_cmp};
ghost use Rattle.sn_tables.specs.Subscriptions.{filter_has_no_room};
ghost use Rattle.sn_frame.specs.declared.frame.Will.{Will};
ghost use Rattle.sn_frame.specs.FlagBits.{qos_of, kind_of};
ghost use Rattle.sn_local.specs.declared.config.Addr.{Addr};
ghost use Rattle.sn_local.specs.Seen.{Seen};
ghost use Rattle.sn_plan.specs.declared.asking.Asked.TheVariants.{Topics};
ghost use Rattle.sn_plan.specs.Drafts.{session_after};
ghost use Rattle.sn_subscribe.specs.declared.registration.NamedId.{NamedId};
ghost use Rattle.sn_plan.specs.Asking.{qos_asked, topics_asked};
ghost use Rattle.sn_subscribe.specs.Registration.{id_for, register};
ghost use Rattle.sn_subscribe.specs.Subscription.{id_asked, subscribe, unsubscribe};
ghost use Rattle.sn_flow.specs.WillUpdate.{will_topic_update, will_msg_update};
ghost use Rattle.row_laws.specs.RequestLaws.{ChangesSessionOnly, HandsNothing, IsIdOf, IsSubscribed, IsUnsubscribed};

/// A client that registers a name, subscribes, unsubscribes or updates its will loses no message by
/// it and gets none that is published: these rows acknowledge nothing, put nothing, retain nothing
/// and change no binding. All but a SUBSCRIBE hand it nothing that was retained.
pub fn requests_keep_messages()
    ensures registers { (a : Addr) (s : Session) (msg_id : ℕ) (name : List ℕ)
        → HandsNothing (register a s msg_id name) }
    ensures subscribes { (p : Entries) (seen : Seen) (waiting : ℕ) (a : Addr) (s : Session)
        (bits msg_id : ℕ) (field : List ℕ)
        → ChangesSessionOnly (subscribe p seen waiting a s bits msg_id field) }
    ensures unsubscribes { (p : Entries) (a : Addr) (s : Session) (bits msg_id : ℕ) (field : List ℕ)
        → HandsNothing (unsubscribe p a s bits msg_id field) }
    ensures will_topic { (a : Addr) (will : Option Will)
        → HandsNothing (will_topic_update a will) }
    ensures will_message { (a : Addr) (s : Session) (message : List ℕ)
        → HandsNothing (will_msg_update a s message) }
{}

/// An id that a client is given stands for the name from then on, and the client knows it.
pub fn given_id_stands()
    ensures { (s : Session) (name : List ℕ) → IsTable topic_cmp s.topics
        → IfSome (id_for s name) (IsIdOf name s) }
{}

/// A SUBSCRIBE that finds room and an id leaves the filter at the quality of service that was asked
/// for.
pub fn subscribe_lasts()
    ensures { (p : Entries) (seen : Seen) (waiting : ℕ) (a : Addr) (s : Session)
        (bits msg_id : ℕ) (field filter : List ℕ) (qos : ℕ) (named : NamedId) →
        qos_asked (qos_of bits) ≡ Some qos → topics_asked p (kind_of bits) field ≡ Topics filter →
        filter_has_no_room filter s.subscriptions ≡ false
        → id_asked s (kind_of bits) field filter ≡ Some named →
        IsSubscribed filter qos
        (session_after s (subscribe p seen waiting a s bits msg_id field)) }
{}

/// After an UNSUBSCRIBE the filter that it asks for is not there.
pub fn unsubscribe_ends()
    ensures { (p : Entries) (a : Addr) (s : Session) (bits msg_id : ℕ) (field filter : List ℕ) →
        topics_asked p (kind_of bits) field ≡ Topics filter →
        IsUnsubscribed filter (session_after s (unsubscribe p a s bits msg_id field)) }
{}
