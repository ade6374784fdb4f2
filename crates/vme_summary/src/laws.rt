//! What holds of the numbers of every trace.
//!
//! The functions do nothing: each is a theorem over the definitions, stated by its contract.
ghost use Rattle.std.specs.Prelude.{◌≡◌, ◌&&◌, ◌++◌, ℕ, not, List, [], count_by, is_some, length, map, sum_by};
ghost use Rattle.vme_model.specs.declared.refusals.Refused.TheVariants.{Rule};
ghost use Rattle.vme_model.specs.declared.signals.Edge.{Edge};
ghost use Rattle.vme_model.specs.declared.signals.Wire.TheVariants.{Br, Bbsy};
ghost use Rattle.vme_model.specs.declared.signals.Driver.TheVariants.{Slot};
ghost use Rattle.vme_model.specs.Signals.{is_same_wire};
ghost use Rattle.vme_model.specs.Plan.{up_to};
ghost use Rattle.vme_model.specs.Verdict.{State, kept};
ghost use Rattle.vme_model.specs.History.{drive};
ghost use Rattle.vme_summary.specs.Summary.{refusals};
ghost use Rattle.vme_summary.specs.Tally.{is_accepted, accepted, refused, answered, passed_by, refused_for, waits, board_tally};

/// Every accepted edge is counted for one rule: those that the rules let pass, G1 to G26, are
/// together all that are accepted.
pub fn rules_share_accepted_edges()
    ensures { (b : State) (es : List Edge) →
        sum_by (λ k. passed_by k (answered b es)) (up_to 26) ≡ accepted (answered b es) }
{}

/// Every refused edge is counted for one refusal: what the rules G1 to G26 refuse, what the
/// settling rules S1 to S4 do, and E1, E2 and E5, are together all that are refused.
pub fn refusals_share_refused_edges()
    ensures { (b : State) (es : List Edge) →
        sum_by (λ r. refused_for r (answered b es)) (map (λ k. Rule k) (up_to 26) ++ refusals)
        ≡ refused (answered b es) }
{}

/// Every tenure is counted for one board: those of the boards in slots 1 to 21 are together all
/// `bbsy-` that are accepted.
pub fn boards_share_tenures()
    ensures { (b : State) (es : List Edge) →
        sum_by (λ s. (board_tally s (answered b es)).tenures) (up_to 21)
        ≡ count_by (λ a. is_accepted a && (a.edge.fall && is_same_wire a.edge.wire Bbsy))
        (answered b es) }
{}

/// Every tenure had a wait: a board takes the bus only while it asks.
pub fn every_tenure_had_a_wait()
    ensures { (b : State) (es : List Edge) (s : ℕ) → b.history ≡ [] →
        length (waits s (answered b es)) ≡ (board_tally s (answered b es)).tenures }
{}

/// A board is reported to ask exactly while its request is low and its `bbsy` high, and to hold the
/// bus exactly while its `bbsy` is low.
pub fn boards_are_reported_as_they_stand()
    ensures asks { (b : State) (es : List Edge) (s : ℕ) → b.history ≡ [] →
        is_some (board_tally s (answered b es)).asks_since
        ≡ (drive (kept b es).history (Slot s) Br && not (drive (kept b es).history (Slot s) Bbsy)) }
    ensures holds { (b : State) (es : List Edge) (s : ℕ) → b.history ≡ [] →
        is_some (board_tally s (answered b es)).holds_since
        ≡ drive (kept b es).history (Slot s) Bbsy }
{}
