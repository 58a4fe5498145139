//! What comes of deltas and of digests: which gateway has what.

ghost use Rattle.std.specs.Prelude.{◌≡◌, ◌⊎◌, ℕ, List, Some, Contains, Result, Ok, slice_get};
ghost use Rattle.std.specs.declared.sync.Arc.{Arc};
ghost use Rattle.std.specs.declared.alloc.Global.{Global};
ghost use Rattle.rep_op.specs.declared.op.Op.{Op};
ghost use Rattle.rep_op.specs.Sets.{Within};
ghost use Rattle.rep_ops.specs.Splitting.{all_of};
ghost use Rattle.rep_model.specs.Keep.{Below, CountsAs};
ghost use Rattle.sn_local.specs.declared.config.Config.{Config};
ghost use Rattle.gw_answer.specs.declared.out.Out.{Out};
ghost use Rattle.gw_answer.specs.declared.fault.NodeFault.{NodeFault};
ghost use Rattle.gw_answer.specs.Answers.{said};
ghost use Rattle.gw_event.specs.Gateways.{Gateway};
ghost use Rattle.gw_world.specs.declared.event.Event.{Event};
ghost use Rattle.gw_world.specs.declared.event.Event.TheVariants.{Take, Answer as Asks};
ghost use Rattle.gw_world.specs.declared.event.Answer.{Answer};
ghost use Rattle.gw_world.specs.declared.event.Answer.TheVariants.{Node};
ghost use Rattle.gw_world.specs.Field.{Field, new_field, IsAt, IsDeltaAt, After, Run, shown};

/// What came to a gateway it has, from then on. A gateway that took a delta has it. One that took
/// the answer of a peer to its digest has all that the peer had when it answered, and so each
/// delta that the peer had. And two gateways that took each other's answers count as one set and
/// show the same: if what one of them took after its own answer, the other has too.
pub fn exchanged_field()
    ensures took { (configs : List Config) (events more : List Event)
        (answers replies : List Answer) (old mid new : Field) (number i k : ℕ)
        (gateway later : Gateway) (delta : List Op)
        (answer : Result (Arc Out Global) NodeFault) (out : Out)
        → Run (new_field configs) events answers old → IsAt old number i gateway
        → IsDeltaAt old k delta → After old (Take number k) (Node answer) mid
        → said answer ≡ Ok out → Run mid more replies new
        → slice_get new.gateways i ≡ Some later → Below delta later.taken }
    ensures answered { (configs : List Config) (events more : List Event)
        (answers replies : List Answer) (old mid new : Field) (number other i j : ℕ)
        (asker peer later : Gateway) (answer : Result (Arc Out Global) NodeFault) (out : Out)
        → Run (new_field configs) events answers old → IsAt old number i asker
        → IsAt old other j peer → After old (Asks number other) (Node answer) mid
        → said answer ≡ Ok out → Run mid more replies new
        → slice_get new.gateways i ≡ Some later → Within (all_of out.answer) later.taken
        → Below peer.taken later.taken }
    ensures passes { (delta S T : List Op) → Below delta S → Below S T → Below delta T }
    ensures exchanged { (configs : List Config) (events between more : List Event)
        (answers replies rest : List Answer) (first second third fourth last : Field)
        (number other i j : ℕ) (one two one_then two_then one_last two_last : Gateway)
        (answer reply : Result (Arc Out Global) NodeFault) (out back : Out)
        → Run (new_field configs) events answers first → IsAt first number i one
        → IsAt first other j two → After first (Asks number other) (Node answer) second
        → said answer ≡ Ok out → Run second between replies third → IsAt third number i one_then
        → IsAt third other j two_then → After third (Asks other number) (Node reply) fourth
        → said reply ≡ Ok back → Run fourth more rest last
        → slice_get last.gateways i ≡ Some one_last → slice_get last.gateways j ≡ Some two_last
        → Within (all_of out.answer) one_last.taken → Within (all_of back.answer) two_last.taken
        → ((op : Op) → Contains one_last.taken op
        → Contains one_then.taken op ⊎ Contains two_last.taken op)
        → ((op : Op) → Contains two_last.taken op
        → Contains two.taken op ⊎ Contains one_last.taken op)
        → CountsAs one_last.taken two_last.taken
        × (shown one_last.taken ≡ shown two_last.taken) }
{}
