//! What holds of a bus of which one of two is known: what covers it, or a part of it, in one of the
//! two covers it in their union.
//!
//! The functions do nothing. Each is a theorem, which its contract states. `a` and `b` are what
//! is known by the one and by the other, and `new` by their union.
ghost use Rattle.std.specs.Prelude.{◌≡◌, ◌⊎◌, ℕ, true, List};
ghost use Rattle.vme_bus.specs.declared.sets.SlotSet.{SlotSet};
ghost use Rattle.vme_captures.specs.declared.signals.Pin.{Pin};
ghost use Rattle.vme_model.specs.Accepted.{IsAccepted};
ghost use Rattle.vme_model.specs.Plan.{Plan};
ghost use Rattle.vme_model.specs.Verdict.{IsLegal};
ghost use Rattle.vme_model.specs.declared.signals.Edge.{Edge};
ghost use Rattle.vme_model.specs.declared.signals.Version.{Version};
ghost use Rattle.vme_model.specs.declared.signals.Wire.{Wire};
ghost use Rattle.vme_standings.specs.Covers.{Covers};
ghost use Rattle.vme_standings.specs.Cycles.{CoversDrivers};
ghost use Rattle.vme_standings.specs.FrontCovers.{CoversFronts};
ghost use Rattle.vme_standings.specs.Phases.{has_phase, is_in_table};
ghost use Rattle.vme_standings.specs.Requests.{CoversRequests};
ghost use Rattle.vme_standings.specs.RequestSets.{may_be};
ghost use Rattle.vme_standings.specs.Unions.{SeeAlike, Unites, UnitesFronts, UnitesPhases, UnitesRequests, UnitesSlots};
ghost use Rattle.vme_standings.specs.declared.fronts.Fronts.{Fronts};
ghost use Rattle.vme_standings.specs.declared.phases.GrantPhase.{GrantPhase};
ghost use Rattle.vme_standings.specs.declared.phases.GrantPhases.{GrantPhases};
ghost use Rattle.vme_standings.specs.declared.requests.Requests.{Requests};
ghost use Rattle.vme_standings.specs.declared.standings.Standings.{Standings};

/// What covers the interrupt requests, who drives a wire, or how far an acknowledge has come,
/// covers them in the union; and a phase of the grants and BBSY* that one of the two has is in it.
pub fn union_covers_what_one_covers()
    ensures requests { (p : Plan) (h : List Edge) (a b new : Requests) → UnitesRequests a b new
        → CoversRequests p h (may_be a) ⊎ CoversRequests p h (may_be b)
        → CoversRequests p h (may_be new) }
    ensures drivers { (h : List Edge) (w : Wire) (a b new : SlotSet) → UnitesSlots a b new
        → CoversDrivers h w a ⊎ CoversDrivers h w b → CoversDrivers h w new }
    ensures fronts { (p : Plan) (h : List Edge) (a b new : Fronts) → UnitesFronts a b new
        → CoversFronts p h a ⊎ CoversFronts p h b → CoversFronts p h new }
    ensures phases { (a b new : GrantPhases) (q : GrantPhase) → UnitesPhases a b new
        → is_in_table q ≡ true → (has_phase a q ≡ true) ⊎ (has_phase b q ≡ true)
        → has_phase new q ≡ true }
{}

/// What covers the whole bus by the first covers it by the union. So does what covers it by the
/// other, if the probes saw the same by both: the union has the levels, what is shown and whether
/// DS* has fallen of the first.
pub fn union_covers_the_bus()
    ensures first { (version : Version) (p : Plan) (pins : List Pin) (h : List Edge)
        (a b new : Standings) → IsAccepted p → IsLegal version p h → Unites a b new
        → Covers p pins h a → Covers p pins h new }
    ensures other { (version : Version) (p : Plan) (pins : List Pin) (h : List Edge)
        (a b new : Standings) → IsAccepted p → IsLegal version p h → Unites a b new
        → SeeAlike a b → Covers p pins h b → Covers p pins h new }
{}
