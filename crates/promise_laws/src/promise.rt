//! The promise, in one law.

ghost use Rattle.std.specs.Prelude.{◌≡◌, ◌⊎◌, ℕ, List, Some, Contains};
ghost use Rattle.sn_frame.specs.declared.flags.Flags.{Flags};
ghost use Rattle.sn_frame.specs.declared.flags.Qos.TheVariants.{One, Two};
ghost use Rattle.sn_frame.specs.declared.frame.Frame.TheVariants as frames;
ghost use Rattle.sn_frame.specs.Bodies.{IsValue};
ghost use Rattle.sn_frame.specs.FlagBits.{qos_of};
ghost use Rattle.sn_frame.specs.Grammar.{Spells};
ghost use Rattle.rep_op.specs.declared.op.Op.{Op};
ghost use Rattle.rep_op.specs.declared.op.Op.TheVariants.{Put as OfPut};
ghost use Rattle.rep_op.specs.declared.op.Put.{Put};
ghost use Rattle.sn_local.specs.declared.config.Addr.{Addr};
ghost use Rattle.sn_local.specs.declared.config.Config.{Config};
ghost use Rattle.sn_local.specs.Seen.{seen_of};
ghost use Rattle.put_laws.specs.Puts.{HasReceived, IsReplyTo};
ghost use Rattle.gw_answer.specs.declared.out.Out.{Out};
ghost use Rattle.gw_event.specs.Gateways.{Gateway};
ghost use Rattle.gw_world.specs.declared.event.Event.{Event};
ghost use Rattle.gw_world.specs.declared.event.Event.TheVariants.{Frame};
ghost use Rattle.gw_world.specs.declared.event.Answer.{Answer};
ghost use Rattle.gw_world.specs.Field.{Field, Run};
ghost use Rattle.promise_laws.specs.Accepted.{HasAnswered, IsAccepted};
ghost use Rattle.promise_laws.specs.Acknowledged.{IsAcknowledgedIn, IsWrittenBy};
ghost use Rattle.promise_laws.specs.Promised.{WaitsUntilAnswered};

/// The promise: nothing that a gateway accepted vanishes. A gateway accepts a PUBLISH at quality
/// of service 1 with PUBACK 0, and one at 2 with PUBREC, if it had not received the id. Then each
/// recipient has a message of its own, made with this step. However a run goes on, the message
/// waits for its client, at this gateway and at each that has the delta with it. Deltas may be
/// lost, repeated and reordered, writes may fail, and gateways may stop and start again. The
/// message waits until a step after this answer acknowledges it, for a cause that `put_laws`
/// names. So it is on the disks of these gateways too. The same is so of each message of a delta
/// that an answer reports, at any quality of service (`made`). No acknowledgement of it is
/// anywhere in the field without such a step (`only`). A call that came with others, with one write
/// that went well, is such an event too: `field_laws::together_field`.
pub fn nothing_accepted_vanishes()
    ensures puback { (configs : List Config) (old new : Field) (number i : ℕ) (gateway : Gateway)
        (a : Addr) (octets : List ℕ) (now : ℕ) (out : Out) (flags : Flags)
        (topic msg_id t m : ℕ) (body : List ℕ)
        → HasAnswered configs (Frame number a octets now) out old new i gateway
        → IsValue (frames.Publish flags topic msg_id body)
        → Spells octets (frames.Publish flags topic msg_id body) → qos_of flags.bits ≡ One
        → IsReplyTo a (frames.PubAck t m 0) out.sends
        → IsAccepted gateway a flags.bits topic 1 body out (WaitsUntilAnswered new i) }
    ensures pubrec { (configs : List Config) (old new : Field) (number i : ℕ) (gateway : Gateway)
        (a : Addr) (octets : List ℕ) (now : ℕ) (out : Out) (flags : Flags)
        (topic msg_id m : ℕ) (body : List ℕ)
        → HasAnswered configs (Frame number a octets now) out old new i gateway
        → IsValue (frames.Publish flags topic msg_id body)
        → Spells octets (frames.Publish flags topic msg_id body) → qos_of flags.bits ≡ Two
        → IsReplyTo a (frames.PubRec m) out.sends
        → IsAccepted gateway a flags.bits topic 2 body out (WaitsUntilAnswered new i)
        ⊎ HasReceived (seen_of gateway.taken) gateway.local a msg_id }
    ensures made { (configs : List Config) (old new : Field) (event : Event) (i : ℕ)
        (gateway : Gateway) (out : Out) (delta : List Op) (c : List ℕ) (put : Put)
        → HasAnswered configs event out old new i gateway → out.made ≡ Some delta
        → Contains delta (OfPut c put) → WaitsUntilAnswered new i delta c put }
    ensures only { (configs : List Config) (old new last : Field) (event : Event) (i : ℕ)
        (gateway : Gateway) (out : Out) (delta : List Op) (c : List ℕ) (put : Put)
        (more : List Event) (replies : List Answer)
        → HasAnswered configs event out old new i gateway → out.made ≡ Some delta
        → Contains delta (OfPut c put) → Run new more replies last
        → IsAcknowledgedIn last c (put.seq, put.origin)
        → IsWrittenBy new more replies c (put.seq, put.origin) }
{}
