//! The conditions that an edge fails.
ghost use Rattle.std.specs.Prelude.{◌≡◌, true, Err};
ghost use Rattle.vme_model.specs.Guards.{◌⊓◌};
ghost use Rattle.vme_model.specs.Settling.{settling_guard};
ghost use Rattle.vme_model.specs.Verdict.{verdict_but_full};
ghost use Rattle.vme_model.specs.Failing.{tested_for, tested_but_full, unmet_but_full};
ghost use Rattle.vme_histories.specs.Asked.{asked_guard, exists};

use crate::states::BusState;
use arrayvec::ArrayVec;
use vme_model::{Condition, Driver, Edge, Refused};
use vme_rules::Outcome;

impl BusState {
    ghost use Rattle.vme_bus.specs.States.{OfHistory};

    /// What the guard of the rule that names an edge answers, if there is such a driver.
    fn outcome_by_rule<A: Outcome>(&self, edge: Edge) -> A
        ensures { OfHistory self.now (λ version p h. exists p edge ≡ true
            → A.reports result (asked_guard version p h edge)) }
    {
        match edge.driver {
            Driver::Controller => self.controller_rule(edge.wire, edge.fall).1,
            Driver::Slot(slot) => {
                if slot < 22 {
                    self.board_rule(slot, edge.wire, edge.fall, edge.value).1
                } else {
                    A::free()
                }
            }
        }
    }

    /// What the guard of the rule that names an edge answers, followed by what the guard of its
    /// settling rule answers.
    fn outcome_by_both<A: Outcome>(&self, edge: Edge) -> A
        ensures { OfHistory self.now (λ version p h. exists p edge ≡ true
            → A.reports result
            (asked_guard version p h edge ⊓ (settling_guard version p h edge.wire edge.fall).1)) }
    {
        let rules: A = self.outcome_by_rule(edge);
        let (_number, settles): (u8, A) = self.settling(edge.wire, edge.fall);
        rules.and(settles)
    }

    /// What is tested for an edge that is refused, up to the condition that refuses it.
    fn outcome_refused<A: Outcome>(&self, edge: Edge, refused: Refused) -> A
        ensures { OfHistory self.now (λ version p h.
            verdict_but_full version p h edge ≡ Err refused
            → A.reports result (tested_for version p h edge (Err refused))) }
    {
        match refused {
            Refused::NoSuchDriver => A::asks(Condition::HasDriver, false),
            Refused::AlreadyThere => A::asks(Condition::OtherState, false),
            Refused::Rule(_) => self.outcome_by_rule(edge),
            Refused::NotSettled(_) => self.outcome_by_both(edge),
            Refused::TraceFull => A::free(),
        }
    }

    /// What is tested for an edge, without the end of the trace. At E1 and E2 it is the one
    /// condition that fails. Otherwise it is the conditions of the edge's rule; if they hold, the
    /// condition of its settling rule follows. Source: profile.
    pub(crate) fn outcome<A: Outcome>(&self, edge: Edge) -> A
        ensures { OfHistory self.now (λ version p h.
            A.reports result (tested_but_full version p h edge)) }
    {
        match self.judge(edge) {
            Ok(()) => self.outcome_by_both(edge),
            Err(refused) => self.outcome_refused(edge, refused),
        }
    }

    /// The conditions that an edge fails, of the first of E1 to E4 that applies, in the order of
    /// its guard: none if the edge would be accepted. The end of a trace is not among them, since a
    /// state has no length. Source: profile.
    pub fn failing(&self, edge: Edge) -> ArrayVec<Condition, 5>
        ensures { OfHistory self.now (λ version p h.
            result.items ≡ unmet_but_full version p h edge) }
    {
        self.outcome(edge)
    }
}
