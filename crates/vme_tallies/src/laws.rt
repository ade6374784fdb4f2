//! What holds of the numbers of every trace.
//!
//! The functions do nothing: each is a theorem over the definitions, stated by its contract.
ghost use Rattle.std.specs.Prelude.{◌≡◌, List, sum_by};
ghost use Rattle.vme_model.specs.declared.signals.Edge.{Edge};
ghost use Rattle.vme_model.specs.Plan.{up_to};
ghost use Rattle.vme_model.specs.Verdict.{State};
ghost use Rattle.vme_tallies.specs.Tally.{accepted, answered, passed_by};

/// Every accepted edge is counted for one rule: those that the rules let pass, G1 to G26, are together
/// all that are accepted.
pub fn rules_share_accepted_edges()
    ensures { (b : State) (es : List Edge) →
        sum_by (λ k. passed_by k (answered b es)) (up_to 26) ≡ accepted (answered b es) }
{}
