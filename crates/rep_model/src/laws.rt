//! The laws of sets and views. Each function does nothing; its contract is a law, proved for all
//! sets.

ghost use Rattle.std.specs.Prelude.{◌≡◌, ℕ, ◌≤◌, ◌++◌, ◌||◌, ◌⊎◌, ◌↔◌, List, [], ◌∷◌, Some, None, true, false, is_some, IsTrue, Contains};
ghost use Rattle.std.specs.Ordering.{is_lt};
ghost use Rattle.std.specs.List.{AllByRecursion};
ghost use Rattle.std.specs.List.Sorted.{IsStrictlySortedBy};
ghost use Rattle.rep_op.specs.Orders.{client_cmp, put_cmp, topic_name_cmp, clock_of, clock_cmp};
ghost use Rattle.rep_op.specs.declared.op.Op.{Op};
ghost use Rattle.rep_op.specs.declared.op.Put.{Put};
ghost use Rattle.rep_op.specs.declared.op.Retained.{Retained};
ghost use Rattle.rep_op.specs.declared.op.Op.TheVariants.{Retain as OfRetain};
ghost use Rattle.rep_op.specs.Sets.{is_acknowledged, retain_at, IsConsistent, Agrees, Within, Same};
ghost use Rattle.rep_model.specs.Views.{pending_at, pending, view, unseen, clients, is_named};
ghost use Rattle.rep_model.specs.Topics.{retained, later_of, topics, has_topic, all_retained, retained_matching};
ghost use Rattle.rep_model.specs.Fresh.{next_epoch, next_seq, next_clock};
ghost use Rattle.rep_model.specs.Keep.{keep, IsKeptOf, CountsAs, Below};
ghost use Rattle.rep_model.specs.Ranges.{is_within, in_ranges, AreApart};
ghost use Rattle.rep_ops.specs.Splitting.{all_of};
ghost use Rattle.rep_model.specs.Held.{IsHeld};
ghost use Rattle.rep_model.specs.Limits.{with_range, acknowledged, first_passed};
ghost use Rattle.rep_model.specs.Roomy.{IsRoomy};

/// What a gateway may forget makes no difference: it forgets, and a client sees what it would have
/// seen, now and after whatever the gateway takes later.
pub fn keep_laws()
    ensures joined { (S Y : List Op) → Same (keep (keep S ++ Y)) (keep (S ++ Y)) }
    ensures seen { (c : List ℕ) (S : List Op) → view c (keep S) ≡ view c S }
    ensures epoch { (c : List ℕ) (S : List Op) → next_epoch c (keep S) ≡ next_epoch c S }
    ensures seq { (c : List ℕ) (gateway : ℕ) (S : List Op)
        → next_seq c gateway (keep S) ≡ next_seq c gateway S }
    ensures retained { (t : List ℕ) (S : List Op) → retained t (keep S) ≡ retained t S }
    ensures clock { (t : List ℕ) (S : List Op) → next_clock t (keep S) ≡ next_clock t S }
    ensures topics { (S : List Op) → topics (keep S) ≡ topics S }
    ensures between { (c : List ℕ) (S K : List Op) → IsKeptOf S K → view c K ≡ view c S }
{}

/// Gateways that exchange what they have end up with the same, in whatever order they do it and
/// however often: to join sets is idempotent, commutative and associative, and the join is the
/// least set above both.
pub fn join_laws()
    ensures idempotent { (A : List Op) → Same (A ++ A) A }
    ensures commutative { (A B : List Op) → IsConsistent (A ++ B) → Same (A ++ B) (B ++ A) }
    ensures associative { (A B C : List Op) → ((A ++ B) ++ C) ≡ (A ++ (B ++ C)) }
    ensures left { (A B : List Op) → Below A (A ++ B) }
    ensures right { (A B : List Op) → IsConsistent (A ++ B) → Below B (A ++ B) }
    ensures least { (A B C : List Op) → Below A C → Below B C → Below (A ++ B) C }
    ensures equal { (c : List ℕ) (A B : List Op) → Same A B → view c A ≡ view c B }
{}

/// No message is lost by a join: what waits for a client in a part of a set waits in the whole set,
/// or the whole set has an acknowledgement of it.
pub fn leaves_only()
    ensures { (S W : List Op) → Within S W → (c : List ℕ) (name : ℕ × ℕ) (put : Put)
        → pending_at c S name ≡ Some put → (pending_at c W name ≡ Some put)
        ⊎ (is_acknowledged c W name ≡ true) }
{}

/// What is retained of a topic is the last: it stands in the set, and nothing later does. Of two
/// sets together it is the later of both. It leaves only by what is retained later: what is retained
/// in a part is retained in the whole, or something later of the topic is. A next clock is free at
/// every gateway, and what is retained under it wins.
pub fn retained_laws()
    ensures last { (t : List ℕ) (S : List Op) (k : Retained) → retained t S ≡ Some k
        → (retain_at t S (clock_of k) ≡ Some k)
        × ((name : ℕ × ℕ) → is_some (retain_at t S name) ≡ true
        → is_lt (clock_cmp (clock_of k) name) ≡ false) }
    ensures some { (t : List ℕ) (S : List Op) → has_topic t S ≡ is_some (retained t S) }
    ensures both { (t : List ℕ) (A B : List Op)
        → retained t (A ++ B) ≡ later_of (retained t A) (retained t B) }
    ensures leaves { (t : List ℕ) (S W : List Op) (k : Retained) → Within S W
        → retained t S ≡ Some k → (later : Retained) × (retained t W ≡ Some later)
        × ((later ≡ k) ⊎ IsTrue (is_lt (clock_cmp (clock_of k) (clock_of later)))) }
    ensures free { (t : List ℕ) (S : List Op) (n gateway : ℕ) → next_clock t S ≡ Some n
        → retain_at t S (n, gateway) ≡ None }
    ensures wins { (t : List ℕ) (S : List Op) (k : Retained) → next_clock t S ≡ Some k.clock
        → retained t (S ++ OfRetain t k ∷ []) ≡ Some k }
{}

/// The topics of a set are listed, ascending, exactly those of which something is retained, or ever
/// was. What a gateway may forget makes no difference to them.
pub fn topic_laws()
    ensures kept { (S : List Op) → topics (keep S) ≡ topics S }
    ensures listed { (t : List ℕ) (S : List Op) → IsTrue (has_topic t S) ↔ Contains (topics S) t }
    ensures ascending { (S : List Op) → IsStrictlySortedBy topic_name_cmp (topics S) }
{}

/// Two consistent sets are consistent together exactly if the operations of one agree with the
/// other. So a gateway that compares what it takes with what it keeps finds each contradiction with
/// that, and no other.
pub fn consistency()
    ensures together { (K D : List Op) → IsConsistent K → IsConsistent D
        → AllByRecursion (Agrees K) D → IsConsistent (K ++ D) }
    ensures agrees { (K D : List Op) → IsConsistent (K ++ D) → AllByRecursion (Agrees K) D }
{}

/// No client is forgotten: the clients of what is kept are those of what was taken. The list of
/// clients has exactly the named ones, in ascending order, each once; of any other client nothing
/// is known.
pub fn client_laws()
    ensures named { (c : List ℕ) (S : List Op) → is_named c (keep S) ≡ is_named c S }
    ensures kept { (S : List Op) → clients (keep S) ≡ clients S }
    ensures listed { (c : List ℕ) (S : List Op) → IsTrue (is_named c S) ↔ Contains (clients S) c }
    ensures ascending { (S : List Op) → IsStrictlySortedBy client_cmp (clients S) }
    ensures unseen { (c : List ℕ) (S : List Op) → is_named c S ≡ false → view c S ≡ unseen }
    ensures first_epoch { (c : List ℕ) (S : List Op) → is_named c S ≡ false
        → next_epoch c S ≡ Some 1 }
    ensures first_seq { (c : List ℕ) (gateway : ℕ) (S : List Op) → is_named c S ≡ false
        → next_seq c gateway S ≡ Some 1 }
{}

/// A replica that keeps as much as counts answers every question as if it had kept all, refuses for
/// the same limit, and still does so after it takes more, whatever it forgets then.
pub fn count_laws()
    ensures itself { (S : List Op) → CountsAs S S }
    ensures taken { (S K Y L : List Op) → CountsAs S K → IsKeptOf (K ++ Y) L → CountsAs (S ++ Y) L }
    ensures seen { (c : List ℕ) (S K : List Op) → CountsAs S K → view c K ≡ view c S }
    ensures named { (c : List ℕ) (S K : List Op) → CountsAs S K → is_named c K ≡ is_named c S }
    ensures clients { (S K : List Op) → CountsAs S K → clients K ≡ clients S }
    ensures epoch { (c : List ℕ) (S K : List Op) → CountsAs S K → next_epoch c K ≡ next_epoch c S }
    ensures retained { (S K : List Op) → CountsAs S K → all_retained K ≡ all_retained S }
    ensures matching { (asked : List ℕ) (S K : List Op) → CountsAs S K
        → retained_matching asked K ≡ retained_matching asked S }
    ensures clock { (t : List ℕ) (S K : List Op) → CountsAs S K → next_clock t K ≡ next_clock t S }
    ensures seq { (c : List ℕ) (gateway : ℕ) (S K : List Op) → CountsAs S K
        → next_seq c gateway K ≡ next_seq c gateway S }
    ensures limit { (S K : List Op) → CountsAs S K → first_passed K ≡ first_passed S }
    ensures limit_with_more { (S K Y : List Op) → CountsAs S K
        → first_passed (K ++ Y) ≡ first_passed (S ++ Y) }
{}

/// Order does not matter: two lists of the same operations, in whatever order and groups they came
/// and however often, are the same set, and equal sets answer every question alike.
pub fn order_laws()
    ensures elements { (A B : List Op) → IsConsistent A
        → ((op : Op) → Contains A op ↔ Contains B op) → Same A B }
    ensures consistent { (A B : List Op) → IsConsistent A
        → ((op : Op) → Contains A op ↔ Contains B op) → IsConsistent B }
    ensures seen { (c : List ℕ) (A B : List Op) → Same A B → view c A ≡ view c B }
    ensures named { (c : List ℕ) (A B : List Op) → Same A B → is_named c A ≡ is_named c B }
    ensures clients { (A B : List Op) → Same A B → clients A ≡ clients B }
    ensures epoch { (c : List ℕ) (A B : List Op) → Same A B → next_epoch c A ≡ next_epoch c B }
    ensures retained { (A B : List Op) → Same A B → all_retained A ≡ all_retained B }
    ensures clock { (t : List ℕ) (A B : List Op) → Same A B → next_clock t A ≡ next_clock t B }
    ensures seq { (c : List ℕ) (gateway : ℕ) (A B : List Op) → Same A B
        → next_seq c gateway A ≡ next_seq c gateway B }
    ensures limit { (A B : List Op) → Same A B → first_passed A ≡ first_passed B }
{}

/// The ranges of acknowledgements say exactly what is acknowledged, and there is one way to write
/// them: in ascending order, neither overlapping nor touching.
pub fn range_laws()
    ensures says { (c : List ℕ) (origin seq : ℕ) (S : List Op)
        → in_ranges seq (acknowledged c origin S) ≡ is_acknowledged c S (seq, origin) }
    ensures apart { (c : List ℕ) (origin : ℕ) (S : List Op) → AreApart (acknowledged c origin S) }
    ensures one_form { (ranges others : List (ℕ × ℕ)) → AreApart ranges → AreApart others
        → ((seq : ℕ) → in_ranges seq ranges ≡ in_ranges seq others) → ranges ≡ others }
    ensures more_says { (range : ℕ × ℕ) (ranges : List (ℕ × ℕ)) (seq : ℕ)
        → in_ranges seq (with_range range ranges) ≡ (is_within seq range || in_ranges seq ranges) }
    ensures more_apart { (range : ℕ × ℕ) (ranges : List (ℕ × ℕ)) → AreApart ranges
        → range.0 ≤ range.1 → AreApart (with_range range ranges) }
{}

/// The messages that wait for a client, as its view lists them: exactly those that are found under
/// their names, in the order of delivery, each once.
pub fn pending_laws()
    ensures listed { (c : List ℕ) (S : List Op) (put : Put)
        → Contains (pending c S) put ↔ (pending_at c S (put.seq, put.origin) ≡ Some put) }
    ensures ascending { (c : List ℕ) (S : List Op)
        → IsStrictlySortedBy (λ (a b : Put). put_cmp (a.seq, a.origin) (b.seq, b.origin))
        (pending c S) }
    ensures leaves { (c : List ℕ) (S W : List Op) (put : Put) → Within S W
        → Contains (view c S).pending put → Contains (view c W).pending put
        ⊎ (is_acknowledged c W (put.seq, put.origin) ≡ true) }
{}

/// A set that is written down as the deltas of what must be kept of it can be read back: together
/// these deltas are what a replica may hold of the set, and where the set passes no limit they can
/// be taken one after the other, since no front part of them passes a limit either.
pub fn base_laws()
    ensures between { (S : List Op) (base : List (List Op)) → IsHeld S base
        → IsKeptOf S (all_of base) }
    ensures counts { (S : List Op) (base : List (List Op)) → IsHeld S base
        → CountsAs S (all_of base) }
    ensures roomy { (S : List Op) (base : List (List Op)) → IsHeld S base → first_passed S ≡ None
        → IsRoomy base }
    ensures kept_roomy { (S K : List Op) (base : List (List Op)) → CountsAs S K → IsHeld K base
        → first_passed S ≡ None → IsRoomy base }
{}
