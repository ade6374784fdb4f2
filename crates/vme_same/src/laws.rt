//! What holds of two traces that are the same, and of what is reported of others.
//!
//! The functions do nothing: each is a theorem over the definitions, stated by its contract. A
//! history has its newest edge first, so that of a list of edges is the list turned round.
ghost use Rattle.std.specs.Prelude.{◌≡◌, IsPermutation, List, Some, length, reverse, ℕ};
ghost use Rattle.std.specs.List.{Contains};
ghost use Rattle.vme_model.specs.declared.signals.Edge.{Edge};
ghost use Rattle.vme_model.specs.declared.signals.Version.{Version};
ghost use Rattle.vme_model.specs.Accepted.{IsAccepted};
ghost use Rattle.vme_model.specs.Deliveries.{delivered};
ghost use Rattle.vme_model.specs.Numbered.{numbered};
ghost use Rattle.vme_model.specs.Plan.{Plan};
ghost use Rattle.vme_swaps.specs.Alike.{StandAlike};
ghost use Rattle.vme_swaps.specs.Swaps.{AreOneButForSwaps};
ghost use Rattle.vme_reading.specs.Outcomes.{bench};
ghost use Rattle.vme_same.specs.declared.comparisons.Comparison.TheVariants.{Differs, Same};
ghost use Rattle.vme_same.specs.declared.comparisons.Why.{Why};
ghost use Rattle.vme_same.specs.Comparing.{IsComparison};

/// Two traces that are the same are of one version, and are one but for free swaps. Both have the
/// edges that are counted, and these are the same but for their order. They deliver the same, in
/// the same order, and the bus stands alike after them.
pub fn what_is_the_same_is_one_but_for_free_swaps()
    ensures version { (p : Plan) (v w : Version) (es fs : List Edge) (n : ℕ)
        → IsComparison p v w es fs (Same n) → v ≡ w }
    ensures swaps { (p : Plan) (v w : Version) (es fs : List Edge) (n : ℕ)
        → IsComparison p v w es fs (Same n) → AreOneButForSwaps v p (reverse es) (reverse fs) }
    ensures first { (p : Plan) (v w : Version) (es fs : List Edge) (n : ℕ)
        → IsComparison p v w es fs (Same n) → length es ≡ n }
    ensures second { (p : Plan) (v w : Version) (es fs : List Edge) (n : ℕ)
        → IsComparison p v w es fs (Same n) → length fs ≡ n }
    ensures edges { (p : Plan) (v w : Version) (es fs : List Edge) (n : ℕ) → IsAccepted p
        → IsComparison p v w es fs (Same n) → IsPermutation (reverse es) (reverse fs) }
    ensures delivered { (p : Plan) (v w : Version) (es fs : List Edge) (n : ℕ) → IsAccepted p
        → IsComparison p v w es fs (Same n)
        → delivered p (reverse es) ≡ delivered p (reverse fs) }
    ensures stand { (p : Plan) (v w : Version) (es fs : List Edge) (n : ℕ) → IsAccepted p
        → IsComparison p v w es fs (Same n) → StandAlike p (reverse es) (reverse fs) }
{}

/// The edge that is reported beside one that differs is an edge of the first trace, with its number
/// there. The same driver makes both.
pub fn what_is_reported_beside_an_edge_is_of_its_driver()
    ensures driver { (p : Plan) (v w : Version) (es fs : List Edge) (n i : ℕ) (e a : Edge)
        (why : Why) → IsComparison p v w es fs (Differs n e why (Some (i, a)))
        → a.driver ≡ e.driver }
    ensures there { (p : Plan) (v w : Version) (es fs : List Edge) (n i : ℕ) (e a : Edge)
        (why : Why) → IsComparison p v w es fs (Differs n e why (Some (i, a)))
        → Contains (numbered (bench p v) es) (i, a) }
{}
