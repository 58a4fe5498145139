//! What holds of every spool.

ghost use Rattle.std.specs.Prelude.{◌≡◌, ◌<◌, ◌*◌, ℕ, List, false, Some, Contains};
ghost use Rattle.mq_packet.specs.declared.packet.Qos.TheVariants as levels;
ghost use Rattle.rep_op.specs.declared.op.Op.{Op};
ghost use Rattle.rep_op.specs.declared.op.Put.{Put};
ghost use Rattle.rep_op.specs.Sets.{is_acknowledged, put_at};
ghost use Rattle.rep_ops.specs.Splitting.{all_of};
ghost use Rattle.rep_model.specs.Held.{IsHeld};
ghost use Rattle.rep_model.specs.Keep.{CountsAs};
ghost use Rattle.br_core.specs.declared.item.Item.{Item};
ghost use Rattle.br_spool.specs.declared.place.TheConstants.{LAST_SEQ, QUEUES};
ghost use Rattle.br_spool.specs.Finding.{item_in, next_in, SpeaksOf};
ghost use Rattle.br_spool.specs.Messages.{item_put};
ghost use Rattle.br_spool.specs.Places.{number_at_place, queue_of, number_seq};

/// A reading has one place, at which no other reading is. The function does nothing; its contract
/// is the law.
pub fn one_place()
    ensures { (number : ℕ) → number < LAST_SEQ * QUEUES
        → number_at_place (queue_of number) (number_seq number) ≡ Some number }
{}

/// The message that a reading becomes is this reading again, but for the lane that brought it. The
/// function does nothing; its contract is the law.
pub fn one_reading()
    ensures { (item : Item) → item.number < LAST_SEQ * QUEUES
        → item_in (item_put item) ≡ Some (record item { lane = 0; qos = levels.One }) }
{}

/// What a gateway has taken and nobody has acknowledged is among what it holds, however its set was
/// kept: so an opening that counts as the set, as `Node::open` promises, finds all readings that
/// were synced and not forgotten. The function does nothing; its contract is the law.
pub fn found_again()
    ensures { (taken kept : List Op) (deltas : List (List Op)) → CountsAs taken kept
        → IsHeld kept deltas → (client : List ℕ) (seq origin : ℕ) (put : Put)
        → put_at client taken (seq, origin) ≡ Some put
        → is_acknowledged client taken (seq, origin) ≡ false
        → put_at client (all_of deltas) (seq, origin) ≡ Some put }
{}

/// The next number is above all that the operations of deltas put or acknowledge. The function does
/// nothing; its contract is the law.
pub fn counts_above()
    ensures { (deltas : List (List Op)) (op : Op) (number : ℕ)
        → Contains (all_of deltas) op → SpeaksOf op number → number < next_in deltas }
{}

/// The next number is above all that a gateway ever put or acknowledged, however its set was kept:
/// so a new reading gets a number that the spool never had. The function does nothing; its contract
/// is the law.
pub fn never_again()
    ensures { (taken kept : List Op) (deltas : List (List Op)) → CountsAs taken kept
        → IsHeld kept deltas → (op : Op) (number : ℕ)
        → Contains taken op → SpeaksOf op number → number < next_in deltas }
{}
