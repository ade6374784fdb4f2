//! What holds of the other order of a race.
//!
//! The functions do nothing: each is a theorem over the definitions, stated by its contract.
ghost use Rattle.std.specs.Prelude.{◌≡◌, ◌∷◌, List, ℕ};
ghost use Rattle.vme_model.specs.declared.signals.Edge.{Edge};
ghost use Rattle.vme_model.specs.declared.signals.Version.{Version};
ghost use Rattle.vme_model.specs.Accepted.{IsAccepted};
ghost use Rattle.vme_model.specs.History.{in_order};
ghost use Rattle.vme_model.specs.Numbered.{edges_in};
ghost use Rattle.vme_model.specs.Plan.{Plan};
ghost use Rattle.vme_races.specs.Other.{HasNoRace, IsLegalButLast, IsOtherOrder};

/// The trace of the other order of a race is legal, but for its last edge: the edges before the one
/// that is met are accepted one after another, and so is the edge that meets it. The one that is
/// met comes last, and has the verdict that the line of the race reports.
pub fn the_other_order_is_legal_but_for_its_last_edge()
    ensures { (p : Plan) (v : Version) (before : List Edge) (e : Edge) (bytes : List ℕ)
        (order : IsOtherOrder p v before e bytes) → IsAccepted p
        → IsLegalButLast p v (in_order (e ∷ edges_in order.rest)) order.met order.outcome bytes }
{}

/// An edge has one other order or none: its trace has no other text, and there is none if the edge
/// is refused or does not race.
pub fn the_other_order_is_the_only_one()
    ensures one { (p : Plan) (v : Version) (before : List Edge) (e : Edge) (a b : List ℕ)
        → IsOtherOrder p v before e a → IsOtherOrder p v before e b → a ≡ b }
    ensures none { (p : Plan) (v : Version) (before : List Edge) (e : Edge) (bytes : List ℕ)
        → IsOtherOrder p v before e bytes → ¬ HasNoRace p v before e }
{}
