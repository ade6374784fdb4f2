//! A chain whose segments are those of a history is read as the definitions read the history.
ghost use Rattle.std.specs.Prelude.{◌≡◌, ℕ, List, take};
ghost use Rattle.vme_model.specs.declared.sets.ChainId.{ChainId};
ghost use Rattle.vme_model.specs.declared.signals.Edge.{Edge};
ghost use Rattle.vme_model.specs.Plan.{Plan, active};
ghost use Rattle.vme_model.specs.Accepted.{IsAccepted};
ghost use Rattle.vme_model.specs.History.{input as input_after, is_past_end as is_past_end_after};
ghost use Rattle.vme_model.specs.Settling.{is_chain_clear};
ghost use Rattle.vme_chain.specs.Segments.{segments_of, input, is_clear, is_past_end};

/// A slot's input is what the definitions say after the history.
pub fn reads_inputs()
    ensures { (p : Plan) (h : List Edge) (c : ChainId) (s : ℕ) →
        input (segments_of p h c) s ≡ input_after p h c s }
{}

/// The chain is clear exactly if it is clear after the history.
pub fn reads_clearness()
    ensures { (p : Plan) (h : List Edge) (c : ChainId) →
        is_clear (segments_of p h c) ≡ is_chain_clear p h c }
{}

/// The last segment is low exactly if it is low after the history.
pub fn reads_the_end()
    ensures { (p : Plan) (h : List Edge) (c : ChainId) →
        is_past_end (segments_of p h c) ≡ is_past_end_after p h c }
{}

/// An accepted plan has at most 21 slots, and so at most 21 of them work a chain.
pub fn holds_every_slot()
    ensures { (p : Plan) (c : ChainId) → IsAccepted p → take 21 (active p c) ≡ active p c }
{}
