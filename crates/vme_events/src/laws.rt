//! What holds of numbered edges.
//!
//! The functions do nothing: each is a theorem over the definitions, stated by its contract.
ghost use Rattle.std.specs.Prelude.{◌≡◌, ◌+◌, List, length};
ghost use Rattle.vme_model.specs.declared.signals.Edge.{Edge};
ghost use Rattle.vme_model.specs.Numbered.{edges_in, numbered};
ghost use Rattle.vme_model.specs.Verdict.{State};
ghost use Rattle.vme_events.specs.Places.{AreBelow, by_place};

/// The places of a history grow, and the edge at each is the history's.
pub fn places_grow()
    ensures below { (h : List Edge) → AreBelow (length h + 1) (by_place h) }
    ensures edges { (h : List Edge) → edges_in (by_place h) ≡ h }
{}

/// The numbers of the accepted edges of a trace grow.
pub fn numbers_grow()
    ensures { (b : State) (es : List Edge) → AreBelow (length es + 1) (numbered b es) }
{}
