//! What holds for every guard of the table.
ghost use Rattle.std.specs.Prelude.{◌≤◌, Bool, List, Option};
ghost use Rattle.vme_model.specs.Failing.{tested_but_full};
ghost use Rattle.vme_model.specs.Plan.{Plan};
ghost use Rattle.vme_model.specs.Readings.{Readings};
ghost use Rattle.vme_model.specs.Rules.{guard};
ghost use Rattle.vme_model.specs.Settling.{settling_guard};
ghost use Rattle.vme_model.specs.declared.signals.Cycle.{Cycle};
ghost use Rattle.vme_model.specs.declared.signals.Edge.{Edge};
ghost use Rattle.vme_model.specs.declared.signals.Version.{Version};
ghost use Rattle.vme_model.specs.declared.signals.Wire.{Wire};
ghost use Rattle.vme_rules.specs.Room.{most};

/// A list of five has room for the conditions of a rule's guard, for those of a settling rule's
/// guard, and for all that is tested for an edge before the end of the trace.
///
/// This is a law: the call costs nothing, and gives the fact to the prover.
pub fn five_have_room()
    ensures rule { (version : Version) (r : Readings) (w : Wire) (fall : Bool) (v : Option Cycle) →
        most (guard version r w fall v).1 ≤ 5 }
    ensures settling { (version : Version) (p : Plan) (h : List Edge) (w : Wire) (fall : Bool) →
        most (settling_guard version p h w fall).1 ≤ 5 }
    ensures tested { (version : Version) (p : Plan) (h : List Edge) (e : Edge) →
        most (tested_but_full version p h e) ≤ 5 }
{}
