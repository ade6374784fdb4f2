//! The conditions that an edge fails, by what a state of the bus answers.
ghost use Rattle.std.specs.Prelude.{◌≡◌, true, Err};
ghost use Rattle.vme_model.specs.Guards.{◌⊓◌};
ghost use Rattle.vme_model.specs.Settling.{settling_guard};
ghost use Rattle.vme_model.specs.Verdict.{verdict_but_full};
ghost use Rattle.vme_model.specs.Failing.{tested_for, tested_but_full, unmet_but_full};
ghost use Rattle.vme_wiring.specs.Asked.{asked_guard, exists};
ghost use Rattle.vme_wiring.specs.Judged.{OfState};

use crate::judges::Judges;
use arrayvec::ArrayVec;
use vme_model::{Condition, Edge, Refused};
use vme_rules::Outcome;

/// What the guard of the rule that names an edge answers, followed by what the guard of its
/// settling rule answers.
fn told_by_both<J: Judges, A: Outcome>(state: &J, edge: Edge) -> A
    ensures { OfState J.is_of state.now (λ version p h. exists p edge ≡ true
        → A.tells result
        (asked_guard version p h edge ⊓ (settling_guard version p h edge.wire edge.fall).1)) }
{
    let rules: A = state.told_by_rule(edge);
    let settles: A = state.told_by_settling(edge);
    rules.and(settles)
}

/// What is tested for an edge that is refused, up to the condition that refuses it.
fn told_refused<J: Judges, A: Outcome>(state: &J, edge: Edge, refused: Refused) -> A
    ensures { OfState J.is_of state.now (λ version p h.
        verdict_but_full version p h edge ≡ Err refused
        → A.tells result (tested_for version p h edge (Err refused))) }
{
    match refused {
        Refused::NoSuchDriver => A::asks(Condition::HasDriver, false),
        Refused::AlreadyThere => A::asks(Condition::OtherState, false),
        Refused::Rule(_) => state.told_by_rule(edge),
        Refused::NotSettled(_) => told_by_both(state, edge),
        Refused::TraceFull => A::free(),
    }
}

/// What is tested for an edge, without the end of the trace. At E1 and E2 it is the one condition
/// that fails. Otherwise it is the conditions of the edge's rule; if they hold, the condition of
/// its settling rule follows. Source: profile.
pub fn told_by<J: Judges, A: Outcome>(state: &J, edge: Edge) -> A
    ensures { OfState J.is_of state.now (λ version p h.
        A.tells result (tested_but_full version p h edge)) }
{
    match state.judge(edge) {
        Ok(()) => told_by_both(state, edge),
        Err(refused) => told_refused(state, edge, refused),
    }
}

/// The conditions that an edge fails, for the first of E1 to E4 that applies. There are none if the
/// state judges the edge `Ok`. Source: profile.
pub fn failing_by<J: Judges>(state: &J, edge: Edge) -> ArrayVec<Condition, 5>
    ensures { OfState J.is_of state.now (λ version p h.
        result.items ≡ unmet_but_full version p h edge) }
{
    told_by(state, edge)
}
