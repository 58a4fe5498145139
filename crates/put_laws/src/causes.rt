//! Why a gateway acknowledges a message. The function does nothing; its contract is a law.

ghost use Rattle.std.specs.Prelude.{◌≡◌, ℕ, false, true, List, Some};
ghost use Rattle.sn_topic.specs.Table.{Entries};
ghost use Rattle.sn_frame.specs.declared.frame.Frame.{Frame};
ghost use Rattle.rep_op.specs.Sets.{is_acknowledged};
ghost use Rattle.sn_local.specs.declared.config.Addr.{Addr};
ghost use Rattle.sn_local.specs.Locals.{Local};
ghost use Rattle.sn_local.specs.Seen.{Seen};
ghost use Rattle.sn_plan.specs.declared.plan.Plan.{Plan};
ghost use Rattle.sn_deliver.specs.Steps.{step};
ghost use Rattle.sn_tick.specs.declared.due.Due.TheVariants.{Loss};
ghost use Rattle.sn_tick.specs.Due.{first_due};
ghost use Rattle.sn_tick.specs.Ticking.{tick};
ghost use Rattle.put_laws.specs.Causes.{IsForCause, IsTimely};

/// A step acknowledges a message for a cause that the client gave, or because Delivery is done with
/// it. By a frame only messages are acknowledged that wait for the client that it is from: all of
/// them if it begins a clean session, and is answered that it is accepted; the one of its open
/// exchange, if the frame answers that by its message id; and, while the client is Active or Awake,
/// those that Delivery sends at quality of service 0, or has no topic id for. A tick acknowledges
/// messages of a client that the gateway owns. They are such ones of Delivery, at its address, or
/// such whose moment is there, but for the one that the client is in the middle of. A tick that
/// takes a client for lost acknowledges nothing, so that all that waits for it goes on waiting.
///
/// The law is about the plan of one step, and its frames are those that the plan has. If the write
/// of that step fails, they are not sent; its acknowledgements may be read back all the same when
/// the gateway is opened again. The law does not say when a gateway has to acknowledge.
pub fn acknowledged_for_cause()
    ensures steps { (g lifetime : ℕ) (predefined : Entries) (seen : Seen) (local : Local) (a : Addr)
        (frame : Frame) (now : ℕ) (plan : Plan) (c : List ℕ) (name : ℕ × ℕ)
        → step g lifetime predefined seen local a frame now ≡ Some plan
        → is_acknowledged c plan.ops name ≡ true
        → IsForCause g predefined seen local a frame now plan.sends c name }
    ensures ticks { (g lifetime advertise : ℕ) (field : List Addr) (predefined : Entries)
        (seen : Seen) (local : Local) (now : ℕ) (plan : Plan) (c : List ℕ) (name : ℕ × ℕ)
        → tick g lifetime advertise field predefined seen local now ≡ Some plan
        → is_acknowledged c plan.ops name ≡ true
        → IsTimely g predefined seen local now plan.sends c name }
    ensures losses { (g lifetime advertise : ℕ) (field : List Addr) (predefined : Entries)
        (seen : Seen) (local : Local) (now : ℕ) (plan : Plan) (lost c : List ℕ) (name : ℕ × ℕ)
        → tick g lifetime advertise field predefined seen local now ≡ Some plan
        → first_due g seen local now seen.all ≡ Some (lost, Loss)
        → is_acknowledged c plan.ops name ≡ false }
{}
