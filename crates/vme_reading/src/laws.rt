//! What the definitions of the reading say together.
ghost use Rattle.std.specs.Prelude.{◌≤◌, List, length};
ghost use Rattle.vme_model.specs.declared.signals.Version.{Version};
ghost use Rattle.vme_model.specs.declared.signals.Edge.{Edge};
ghost use Rattle.vme_model.specs.Plan.{Plan};
ghost use Rattle.vme_model.specs.Accepted.{IsAccepted};
ghost use Rattle.vme_model.specs.History.{in_order};
ghost use Rattle.vme_model.specs.Verdict.{IsLegal};
ghost use Rattle.vme_model.specs.Report.{trace_limit};
ghost use Rattle.vme_model.specs.Text.{text, read_of};
ghost use Rattle.vme_reading.specs.LegalTraces.{IsLegalTrace};

/// The trace of a legal list is what `check` calls legal. Such lists are what `drive` and `run`
/// write.
pub fn the_trace_of_a_legal_list_is_legal()
    ensures { (plan : Plan) (version : Version) (history : List Edge)
        → IsAccepted plan → IsLegal version plan history → length history ≤ trace_limit
        → IsLegalTrace plan (read_of (text version (in_order history))) }
{}
