//! Why the acknowledgements of a field are there.

ghost use Rattle.std.specs.Prelude.{◌≡◌, ◌⊎◌, ℕ, true, List, Contains};
ghost use Rattle.rep_op.specs.Sets.{is_acknowledged};
ghost use Rattle.sn_local.specs.declared.config.Config.{Config};
ghost use Rattle.gw_event.specs.Gateways.{Gateway};
ghost use Rattle.gw_world.specs.declared.event.Event.{Event};
ghost use Rattle.gw_world.specs.declared.event.Answer.{Answer};
ghost use Rattle.gw_world.specs.Field.{Field, new_field, Run};
ghost use Rattle.promise_laws.specs.Acknowledged.{IsAcknowledgedIn, IsWrittenBy};

/// Each acknowledgement has a cause, in a run too. Each that is anywhere in a field was written
/// by an event of the run: a datagram or a tick at a gateway at which the message waited, for a
/// cause. It may be one of several calls with one write; the gateway is then as the calls before it
/// leave it. That event was answered with the datagrams of its step. Or the disk failed in it, and
/// an excuse went out instead; when the gateway was opened again, it read back the delta that it
/// had refused. So a message can leave although its client was not sent it, and although a
/// CONNECT was refused.
pub fn acknowledged_in_a_run()
    ensures written { (configs : List Config) (events : List Event) (answers : List Answer)
        (field : Field) (c : List ℕ) (name : ℕ × ℕ)
        → Run (new_field configs) events answers field → IsAcknowledgedIn field c name
        → IsWrittenBy (new_field configs) events answers c name }
    ensures taken { (configs : List Config) (events : List Event) (answers : List Answer)
        (field : Field) (gateway : Gateway) (c : List ℕ) (name : ℕ × ℕ)
        → Run (new_field configs) events answers field → Contains field.gateways gateway
        → is_acknowledged c gateway.taken name ≡ true
        → IsWrittenBy (new_field configs) events answers c name }
    ensures since { (old new : Field) (more : List Event) (replies : List Answer) (c : List ℕ)
        (name : ℕ × ℕ) → Run old more replies new → IsAcknowledgedIn new c name
        → IsAcknowledgedIn old c name ⊎ IsWrittenBy old more replies c name }
{}
