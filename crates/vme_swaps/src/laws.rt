//! What holds of histories that differ by free swaps.
//!
//! The functions do nothing: each is a theorem over the definitions, stated by its contract. A
//! history has its newest edge first.
ghost use Rattle.std.specs.Prelude.{◌≡◌, ◌∷◌, ◌++◌, ◌↔◌, ◌||◌, false, IsPermutation, List};
ghost use Rattle.vme_model.specs.declared.signals.Edge.{Edge};
ghost use Rattle.vme_model.specs.declared.signals.Version.{Version};
ghost use Rattle.vme_model.specs.Accepted.{IsAccepted};
ghost use Rattle.vme_model.specs.Deliveries.{delivered};
ghost use Rattle.vme_model.specs.Plan.{Plan};
ghost use Rattle.vme_model.specs.Verdict.{IsLegal, State, kept, made};
ghost use Rattle.vme_bus.specs.Answers.{answers};
ghost use Rattle.vme_swaps.specs.Alike.{StandAlike};
ghost use Rattle.vme_swaps.specs.Served.{serves_request};
ghost use Rattle.vme_swaps.specs.Swaps.{AreOneButForSwaps, IsFree};

/// Whatever edges come behind a free swap, they are answered the same in both orders, and the bus
/// stands alike behind them: verdicts, refusals and deliveries are the same. So what is legal
/// behind one order is legal behind the other.
pub fn a_free_swap_changes_no_later_answer()
    ensures answers { (b : State) (first second : Edge) (later : List Edge) →
        IsAccepted b.plan → IsFree b.version b.plan b.history first second
        → answers (made (made b first) second) later
        ≡ answers (made (made b second) first) later }
    ensures stand { (b : State) (first second : Edge) (later : List Edge) →
        IsAccepted b.plan → IsFree b.version b.plan b.history first second
        → StandAlike b.plan (kept (made (made b first) second) later).history
        (kept (made (made b second) first) later).history }
    ensures legal { (version : Version) (p : Plan) (h : List Edge) (a b : Edge)
        (later : List Edge) →
        IsAccepted p → IsFree version p h a b
        → IsLegal version p (later ++ b ∷ a ∷ h) ↔ IsLegal version p (later ++ a ∷ b ∷ h) }
{}

/// A legal history stays legal under any number of free swaps. It keeps its edges and its
/// deliveries, in their order, and the bus stands alike after it.
pub fn free_swaps_change_nothing()
    ensures legal { (version : Version) (p : Plan) (g h : List Edge) →
        IsAccepted p → IsLegal version p g → AreOneButForSwaps version p g h
        → IsLegal version p h }
    ensures edges { (version : Version) (p : Plan) (g h : List Edge) →
        IsAccepted p → IsLegal version p g → AreOneButForSwaps version p g h
        → IsPermutation g h }
    ensures delivered { (version : Version) (p : Plan) (g h : List Edge) →
        IsAccepted p → IsLegal version p g → AreOneButForSwaps version p g h
        → delivered p g ≡ delivered p h }
    ensures stand { (version : Version) (p : Plan) (g h : List Edge) →
        IsAccepted p → IsLegal version p g → AreOneButForSwaps version p g h
        → StandAlike p g h }
{}

/// Free swaps go back: which of the two edges came first does not matter for one, and so for any
/// number of them.
pub fn free_swaps_go_back()
    ensures one { (version : Version) (p : Plan) (h : List Edge) (a b : Edge) →
        IsFree version p h a b → IsFree version p h b a }
    ensures all { (version : Version) (p : Plan) (g h : List Edge) →
        AreOneButForSwaps version p g h → AreOneButForSwaps version p h g }
{}

/// If two edges are legal in both orders, the orders deliver the same. The bus stands alike behind
/// them unless one of the edges is an answer that serves the interrupt request of its own board,
/// and the other one makes that request: it is served only if it comes first.
pub fn legal_orders_differ_by_a_served_request()
    ensures delivered { (version : Version) (p : Plan) (h : List Edge) (a b : Edge) →
        IsAccepted p → IsLegal version p (b ∷ a ∷ h) → IsLegal version p (a ∷ b ∷ h)
        → delivered p (b ∷ a ∷ h) ≡ delivered p (a ∷ b ∷ h) }
    ensures free { (version : Version) (p : Plan) (h : List Edge) (a b : Edge) →
        IsAccepted p → IsLegal version p (b ∷ a ∷ h) → IsLegal version p (a ∷ b ∷ h)
        → IsFree version p h a b
        ↔ ((serves_request p h a b || serves_request p h b a) ≡ false) }
{}
