//! An accepted edge of a trace that a later one may pass.
ghost use Rattle.std.specs.Prelude.{◌≡◌, ◌∷◌, IfNone, IfSome, IsTrue, true};
ghost use Rattle.vme_model.specs.Signals.{is_well_formed};
ghost use Rattle.vme_model.specs.Verdict.{IsLegal};
ghost use Rattle.vme_swaps.specs.Swaps.{IsFree};
ghost use Rattle.vme_swaps.specs.Stops.{Meets};
ghost use Rattle.vme_swaps.specs.Stops.{is_formed};
ghost use Rattle.vme_races.specs.Kinds.{IsOnPlan, OfKind};

use vme_bus::{BusKind, BusState};
use vme_model::Edge;
use vme_swaps::{StepBack, Stop, step_back};

/// An accepted edge, with its number in the trace and the bus before it.
///
/// What the plan says of the bus is the same for all edges. It is the most of a state, so it is not
/// kept here.
#[derive(Clone, Copy)]
pub(crate) struct Earlier {
    pub(crate) number: u64,
    pub(crate) edge: Edge,
    pub(crate) before: BusKind,
    ghost formed: { is_well_formed edge ≡ true },
}

impl Earlier {
    /// What stops the next edge behind this one. None if it passes: the two may change places. The
    /// state, which is one of the plan, is set to that before this edge.
    pub(crate) fn stop(&self, state: &mut BusState, edge: &Edge) -> Option<Stop>
        ensures passes { IfNone result (OfKind state.old self.now.before (λ v p h.
            IsLegal v p (edge.now ∷ self.now.edge ∷ h) → IsFree v p h self.now.edge edge.now)) }
        ensures stops { IfSome result (λ stop. OfKind state.old self.now.before (λ v p h.
            IsLegal v p (edge.now ∷ self.now.edge ∷ h) → ¬ IsFree v p h self.now.edge edge.now
            × Meets v p edge.now self.now.number self.now.edge h stop)) }
        ensures plan { OfKind state.old self.now.before (λ v p _. IsOnPlan v p state.new) }
        ensures formed { IfSome result (λ stop. IsTrue (is_formed stop)) }
    {
        state.set_kind(&self.before);
        match step_back(state, self.edge, *edge) {
            StepBack::Passes => None,
            StepBack::Waits(refused) => Some(Stop::Waits {
                number: self.number,
                edge: self.edge,
                refused,
            }),
            StepBack::Races(outcome) => Some(Stop::Races {
                number: self.number,
                edge: self.edge,
                outcome,
            }),
        }
    }
}
