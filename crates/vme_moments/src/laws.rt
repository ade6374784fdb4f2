//! What holds of every list of edges with moments.
//!
//! The functions do nothing. Each is a theorem, which its contract states.
ghost use Rattle.std.specs.Prelude.{◌≡◌, ◌≢◌, ◌∷◌, ℕ, List, length};
ghost use Rattle.vme_model.specs.declared.signals.Version.{Version};
ghost use Rattle.vme_model.specs.declared.signals.Edge.{Edge};
ghost use Rattle.vme_model.specs.Accepted.{IsAccepted};
ghost use Rattle.vme_model.specs.Plan.{Plan};
ghost use Rattle.vme_model.specs.Safe.{IsSafe};
ghost use Rattle.vme_model.specs.Verdict.{IsLegal};
ghost use Rattle.vme_moments.specs.declared.Seen.{Seen};
ghost use Rattle.vme_moments.specs.declared.slacks.Slacks.{Slacks};
ghost use Rattle.vme_moments.specs.Cuts.{IsCutOf, IsWithin};
ghost use Rattle.vme_moments.specs.Orders.{AreInOrder, IsBeginning, IsFree, IsLegalBeginning, IsLongest, edges_at};

/// If a legal list is cut into moments, and each is shuffled inside, there is a legal order of them
/// that leads to the list, whatever the slack.
pub fn a_legal_run_has_an_order()
    ensures { (version : Version) (plan : Plan) (slacks : Slacks) (history : List Edge)
        (seen : List Seen) → IsLegal version plan history → IsCutOf history seen
        → (order : List ℕ) × (length order ≡ length seen) × (edges_at seen order ≡ history)
        × IsLegalBeginning version plan slacks seen order }
{}

/// A beginning within some slacks is one within greater slacks. So is an order.
pub fn more_slack_allows_more()
    ensures { (less more : Slacks) (seen : List Seen) (places : List ℕ) → IsWithin less more
        → IsBeginning less seen places → IsBeginning more seen places }
{}

/// The edges of a legal beginning, and so those of a legal order, are a legal list and a safe one.
pub fn legal_orders_are_safe()
    ensures legal { (version : Version) (plan : Plan) (slacks : Slacks) (seen : List Seen)
        (places : List ℕ) → IsLegalBeginning version plan slacks seen places
        → IsLegal version plan (edges_at seen places) }
    ensures safe { (version : Version) (plan : Plan) (slacks : Slacks) (seen : List Seen)
        (places : List ℕ) → IsAccepted plan
        → IsLegalBeginning version plan slacks seen places → IsSafe plan (edges_at seen places) }
{}

/// If some order is legal, the longest legal beginning is an order.
pub fn the_longest_is_an_order_if_one_is_legal()
    ensures { (version : Version) (plan : Plan) (slacks : Slacks) (seen : List Seen)
        (places order : List ℕ) → IsLongest version plan slacks seen places
        → IsLegalBeginning version plan slacks seen order → length order ≡ length seen
        → length places ≡ length seen }
{}

/// If the longest legal beginning is no order, some place can come next after it, and the edge of
/// each of these is refused there.
pub fn what_comes_next_is_refused()
    ensures some { (version : Version) (plan : Plan) (slacks : Slacks) (seen : List Seen)
        (places : List ℕ) → AreInOrder seen → length places ≢ length seen
        → IsLongest version plan slacks seen places
        → (place : ℕ) × IsFree slacks seen places place }
    ensures refused { (version : Version) (plan : Plan) (slacks : Slacks) (seen : List Seen)
        (places : List ℕ) (place : ℕ) → IsLongest version plan slacks seen places
        → ¬ IsLegalBeginning version plan slacks seen (place ∷ places) }
{}
