//! What holds for stored edges. The function is a law: a call costs nothing, and gives the facts to
//! the prover.
ghost use Rattle.std.specs.Prelude.{◌≡◌, ◌<◌, ◌^◌, true};
ghost use Rattle.vme_model.specs.Signals.{is_well_formed};
ghost use Rattle.vme_model.specs.declared.signals.Edge.{Edge};
ghost use Rattle.vme_store.specs.Codes.{code_of, edge_of};

/// Every well-formed edge is the one for which its code stands, so no two well-formed edges have
/// the same code.
pub fn codes_are_one_to_one()
    ensures fits { (e : Edge) → is_well_formed e ≡ true → code_of e < 2 ^ 15 }
    ensures read_back { (e : Edge) → is_well_formed e ≡ true → edge_of (code_of e) ≡ e }
    ensures apart { (e f : Edge) → is_well_formed e ≡ true →
        is_well_formed f ≡ true → code_of e ≡ code_of f → e ≡ f }
{}
