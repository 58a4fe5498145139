//! A message id counts as received only after a PUBLISH with it was accepted.

ghost use Rattle.std.specs.Prelude.{◌≡◌, ℕ, true, List, Some, slice_get};
ghost use Rattle.sn_tables.specs.Received.{is_received};
ghost use Rattle.sn_local.specs.declared.config.Addr.{Addr};
ghost use Rattle.sn_local.specs.declared.config.Config.{Config};
ghost use Rattle.sn_local.specs.Bindings.{client_at};
ghost use Rattle.sn_local.specs.Seen.{seen_of};
ghost use Rattle.sn_plan.specs.Bound.{session_of};
ghost use Rattle.put_laws.specs.Puts.{HasReceived};
ghost use Rattle.gw_answer.specs.declared.out.Out.{Out};
ghost use Rattle.gw_event.specs.Gateways.{Gateway};
ghost use Rattle.gw_world.specs.declared.event.Event.{Event};
ghost use Rattle.gw_world.specs.declared.event.Answer.{Answer};
ghost use Rattle.gw_world.specs.Field.{Field, new_field, Run};
ghost use Rattle.promise_laws.specs.Accepted.{HasAnswered};
ghost use Rattle.promise_laws.specs.Received.{IsAcceptedBy};

/// An id counts as received only after a PUBLISH with it was accepted. If a gateway's session of a
/// client has received a message id, an event of the run accepted a PUBLISH of that client with the
/// id, at quality of service 2, there or at another gateway. That step made a message for each
/// recipient. It was answered with PUBREC; or the disk failed in it, and what it had refused was
/// read back. It may be one of several calls with one write. So if PUBREC goes out because the id was received before, an earlier event of the run
/// made the messages of a PUBLISH with this id (`repeated`).
pub fn received_in_a_run()
    ensures received { (configs : List Config) (events : List Event) (answers : List Answer)
        (field : Field) (i : ℕ) (gateway : Gateway) (c : List ℕ) (id : ℕ)
        → Run (new_field configs) events answers field → slice_get field.gateways i ≡ Some gateway
        → is_received id (session_of (seen_of gateway.taken) c).received ≡ true
        → IsAcceptedBy (new_field configs) events answers c id }
    ensures repeated { (configs : List Config) (event : Event) (out : Out) (old new : Field) (i : ℕ)
        (gateway : Gateway) (a : Addr) (id : ℕ)
        (h : HasAnswered configs event out old new i gateway)
        → HasReceived (seen_of gateway.taken) gateway.local a id
        → (c : List ℕ) × (client_at a gateway.local.bindings ≡ Some c)
        × IsAcceptedBy (new_field configs) h.events h.answers c id }
{}
