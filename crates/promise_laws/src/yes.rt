//! What a gateway accepted is made, and stays.

ghost use Rattle.std.specs.Prelude.{◌≡◌, ◌⊎◌, ◌≤◌, ℕ, min, List, Some, Contains};
ghost use Rattle.sn_topic.specs.Table.{Entries};
ghost use Rattle.sn_session.specs.declared.session.Session.{Session};
ghost use Rattle.sn_frame.specs.declared.flags.Flags.{Flags};
ghost use Rattle.sn_frame.specs.declared.flags.Qos.TheVariants.{One, Two};
ghost use Rattle.sn_frame.specs.declared.frame.Frame.{Frame as OfFrame};
ghost use Rattle.sn_frame.specs.declared.frame.Frame.TheVariants as frames;
ghost use Rattle.sn_frame.specs.Bodies.{IsValue};
ghost use Rattle.sn_frame.specs.FlagBits.{qos_of};
ghost use Rattle.sn_frame.specs.Grammar.{Spells};
ghost use Rattle.rep_op.specs.declared.op.Op.{Op};
ghost use Rattle.rep_op.specs.declared.op.Op.TheVariants.{Put as OfPut};
ghost use Rattle.rep_op.specs.declared.op.Put.{Put};
ghost use Rattle.rep_model.specs.declared.view.ClientView.{ClientView};
ghost use Rattle.sn_local.specs.declared.config.Addr.{Addr};
ghost use Rattle.sn_local.specs.declared.config.Config.{Config};
ghost use Rattle.sn_local.specs.Seen.{seen_of};
ghost use Rattle.sn_plan.specs.declared.draft.NewPut.{NewPut};
ghost use Rattle.sn_publish.specs.declared.meaning.Meant.TheVariants.{Topic};
ghost use Rattle.sn_publish.specs.Publishing.{publication_meant};
ghost use Rattle.sn_publish.specs.Recipients.{qos_for};
ghost use Rattle.put_laws.specs.Puts.{HasReceived, IsReplyTo, puts_by_tick, puts_of};
ghost use Rattle.gw_answer.specs.declared.out.Out.{Out};
ghost use Rattle.gw_event.specs.Gateways.{Gateway};
ghost use Rattle.gw_world.specs.declared.event.Event.{Event};
ghost use Rattle.gw_world.specs.declared.event.Event.TheVariants.{Frame, Tick};
ghost use Rattle.gw_world.specs.Field.{Field};
ghost use Rattle.promise_laws.specs.Accepted.{HasAnswered, IsAccepted, IsKeptFrom, IsNewIn, IsServed};
ghost use Rattle.promise_laws.specs.Asked.{AsksFor, IsAbout};

/// What a gateway accepted stays. If it answers a PUBLISH at quality of service 1 with PUBACK 0,
/// each recipient has a message of its own in the delta that this answer reports. The same is so
/// of PUBREC at 2, if the gateway had not received the id. From then on, whatever comes and
/// whatever fails, the message waits or is acknowledged: in the gateway's set, in what a crash
/// leaves of its disk, and in those of each gateway that has the delta. So it is with the
/// messages at quality of service 0 and -1 and those of wills, which have no answer to the client
/// (`frames`, `ticks`), and with each message of a delta that an answer reports (`made`).
pub fn accepted_stays()
    ensures puback { (configs : List Config) (old new : Field) (number i : ℕ) (gateway : Gateway)
        (a : Addr) (octets : List ℕ) (now : ℕ) (out : Out) (flags : Flags)
        (topic msg_id t m : ℕ) (body : List ℕ)
        → HasAnswered configs (Frame number a octets now) out old new i gateway
        → IsValue (frames.Publish flags topic msg_id body)
        → Spells octets (frames.Publish flags topic msg_id body) → qos_of flags.bits ≡ One
        → IsReplyTo a (frames.PubAck t m 0) out.sends
        → IsAccepted gateway a flags.bits topic 1 body out (IsKeptFrom new i) }
    ensures pubrec { (configs : List Config) (old new : Field) (number i : ℕ) (gateway : Gateway)
        (a : Addr) (octets : List ℕ) (now : ℕ) (out : Out) (flags : Flags)
        (topic msg_id m : ℕ) (body : List ℕ)
        → HasAnswered configs (Frame number a octets now) out old new i gateway
        → IsValue (frames.Publish flags topic msg_id body)
        → Spells octets (frames.Publish flags topic msg_id body) → qos_of flags.bits ≡ Two
        → IsReplyTo a (frames.PubRec m) out.sends
        → IsAccepted gateway a flags.bits topic 2 body out (IsKeptFrom new i)
        ⊎ HasReceived (seen_of gateway.taken) gateway.local a msg_id }
    ensures frames { (configs : List Config) (old new : Field) (number i : ℕ) (gateway : Gateway)
        (a : Addr) (octets : List ℕ) (now : ℕ) (out : Out) (frame : OfFrame) (p : NewPut)
        → HasAnswered configs (Frame number a octets now) out old new i gateway → IsValue frame
        → Spells octets frame
        → Contains (puts_of gateway.config.predefined (seen_of gateway.taken) gateway.local a frame)
        p → IsServed gateway out p.client p.topic p.qos p.body (IsKeptFrom new i) }
    ensures ticks { (configs : List Config) (old new : Field) (number i : ℕ) (gateway : Gateway)
        (now : ℕ) (out : Out) (p : NewPut)
        → HasAnswered configs (Tick number now) out old new i gateway
        → Contains (puts_by_tick gateway.config.gateway gateway.config.advertise
        gateway.config.field (seen_of gateway.taken) gateway.local now) p
        → IsServed gateway out p.client p.topic p.qos p.body (IsKeptFrom new i) }
    ensures made { (configs : List Config) (old new : Field) (event : Event) (i : ℕ)
        (gateway : Gateway) (out : Out) (delta : List Op) (c : List ℕ) (put : Put)
        → HasAnswered configs event out old new i gateway → out.made ≡ Some delta
        → Contains delta (OfPut c put)
        → IsNewIn gateway delta c put × IsKeptFrom new i delta c put }
{}

/// The step table passes over nobody. The recipients of a publication are the clients that ask for
/// it and can get it, and no others. Each gets it at a quality of service that is at most that of
/// the publication, and at least the smaller one of this and of any filter of it that matches. And
/// the topic is the one that the PUBLISH is about.
pub fn asked_is_served()
    ensures recipients { (name : List ℕ) (qos : ℕ) (v : ClientView) (asks : AsksFor name qos v)
        → (q : ℕ) × (qos_for name qos v ≡ Some q) × (q ≤ qos)
        × (min qos asks.subscription.qos ≤ q) }
    ensures only { (name : List ℕ) (qos : ℕ) (v : ClientView) (q : ℕ)
        → qos_for name qos v ≡ Some q → AsksFor name qos v }
    ensures about { (predefined : Entries) (s : Session) (bits topic : ℕ) (body name : List ℕ)
        → publication_meant predefined s bits topic body ≡ Topic name
        → IsAbout predefined s bits topic body name }
{}
