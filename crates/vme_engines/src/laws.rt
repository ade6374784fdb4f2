//! What the definitions of the engines say together.
ghost use Rattle.std.specs.Prelude.{◌≤◌, List, length};
ghost use Rattle.vme_model.specs.declared.signals.Version.{Version};
ghost use Rattle.vme_model.specs.declared.signals.Edge.{Edge};
ghost use Rattle.vme_model.specs.Plan.{Plan};
ghost use Rattle.vme_model.specs.Accepted.{IsAccepted};
ghost use Rattle.vme_model.specs.History.{in_order};
ghost use Rattle.vme_model.specs.Verdict.{IsLegal};
ghost use Rattle.vme_model.specs.Report.{trace_limit};
ghost use Rattle.vme_model.specs.Text.{text, read_of};
ghost use Rattle.vme_engines.specs.Bringing.{EndsWithItsEvent};
ghost use Rattle.vme_engines.specs.Checking.{IsLegalTrace};

/// The trace of a legal list is what `check` calls legal. Such lists are what `drive` and `run`
/// write.
pub fn the_trace_of_a_legal_list_is_legal()
    ensures { (plan : Plan) (version : Version) (history : List Edge)
        → IsAccepted plan → IsLegal version plan history → length history ≤ trace_limit
        → IsLegalTrace plan (read_of (text version (in_order history))) }
{}

/// A walk whose goal is an event ends with the first edge that counts and brings it, and says that
/// it came; otherwise no edge of it does.
/// `drive --until` writes the edges of such a walk.
pub fn a_walk_ends_with_its_event()
    ensures { EndsWithItsEvent }
{}
