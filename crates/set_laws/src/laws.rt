//! The laws. Each function does nothing; its contract is a law, proved for all sets.

ghost use Rattle.std.specs.Prelude.{◌≡◌, ℕ, ◌≤◌, ◌++◌, List, true};
ghost use Rattle.rep_op.specs.declared.op.Op.{Op};
ghost use Rattle.rep_op.specs.Sets.{is_acknowledged, IsConsistent};
ghost use Rattle.rep_model.specs.Keep.{CountsAs, Below};
ghost use Rattle.rep_model.specs.Ranges.{in_ranges, AreApart};
ghost use Rattle.rep_model.specs.Limits.{acknowledged, above_a_gap, sum_to, exceptions};
ghost use Rattle.set_laws.specs.Joins.{IsLeastAbove};
ghost use Rattle.set_laws.specs.Exceptions.{count_to, is_above_gap, is_told};

/// Sets of which the same must be kept stand for one thing: each for itself, each for the other,
/// and where a second stands for a first and a third for the second, the third stands for the
/// first. To join does not tell them apart, on either side.
pub fn one_element()
    ensures itself { (A : List Op) → CountsAs A A }
    ensures back { (A K : List Op) → CountsAs A K → CountsAs K A }
    ensures on { (A K L : List Op) → CountsAs A K → CountsAs K L → CountsAs A L }
    ensures joined { (A B K L : List Op) → CountsAs A K → CountsAs B L
        → CountsAs (A ++ B) (K ++ L) }
{}

/// Sets are ordered as parts and wholes are. Each is below itself; what is below a set is below all
/// that the set is below; and two that are below each other stand for one thing, if they do not
/// contradict each other. The order does not tell apart what stands for one thing.
pub fn set_order()
    ensures itself { (A : List Op) → Below A A }
    ensures on { (A B C : List Op) → Below A B → Below B C → Below A C }
    ensures both { (A B : List Op) → IsConsistent (A ++ B) → Below A B → Below B A
        → CountsAs A B }
    ensures alike { (A B K L : List Op) → CountsAs A K → CountsAs B L → Below A B → Below K L }
{}

/// Two sets that do not contradict each other have a least set above both, which is their join; and
/// any other stands for the same thing, if it does not contradict them.
pub fn set_joins()
    ensures least { (A B : List Op) → IsConsistent (A ++ B) → IsLeastAbove A B (A ++ B) }
    ensures alone { (A B J : List Op) → IsConsistent (J ++ (A ++ B)) → IsConsistent (A ++ B)
        → IsLeastAbove A B J → CountsAs J (A ++ B) }
{}

/// What is counted above a gap are the acknowledged numbers above one, from 1 on, that is not
/// acknowledged: these and no others, each once. So it is of ranges, of the acknowledgements of one
/// origin, and of all of a client.
pub fn gap_laws()
    ensures ranges { (ranges : List (ℕ × ℕ)) (last : ℕ) → AreApart ranges
        → ((n : ℕ) → in_ranges n ranges ≡ true → n ≤ last)
        → above_a_gap ranges ≡ count_to (is_above_gap (λ n. in_ranges n ranges)) last }
    ensures origin { (c : List ℕ) (origin : ℕ) (S : List Op) (last : ℕ)
        → ((n : ℕ) → is_acknowledged c S (n, origin) ≡ true → n ≤ last)
        → above_a_gap (acknowledged c origin S)
        ≡ count_to (is_above_gap (is_told c origin S)) last }
    ensures client { (c : List ℕ) (S : List Op) (last : ℕ)
        → ((origin n : ℕ) → is_acknowledged c S (n, origin) ≡ true → n ≤ last)
        → exceptions c S
        ≡ sum_to (λ origin. count_to (is_above_gap (is_told c origin S)) last) 255 }
{}
