//! The verdict on an edge, without the end of the trace.
ghost use Rattle.std.specs.Prelude.{◌≡◌, Some, Ok};
ghost use Rattle.vme_model.specs.Offers.{turned};
ghost use Rattle.vme_model.specs.History.{drive, shown};
ghost use Rattle.vme_model.specs.Settling.{is_unanswerable, settling, settling_guard};
ghost use Rattle.vme_model.specs.Verdict.{check, settled, verdict_but_full};
ghost use Rattle.vme_histories.specs.Asked.{asked, exists};

use crate::wirings::Wiring;
use vme_model::{ChainId, Cycle, Driver, Edge, Refused, Wire};
use vme_rules::Outcome;
use vme_rules::settlings::{as_settles, berr_settles, bg_fall_settles, bg_rise_settles};

impl Wiring {
    ghost use Rattle.vme_wiring.specs.Wired.{OfHistory};

    /// E1 to E3: whether an edge that is well formed has a driver in the plan, and then the answer
    /// of the part that drives the wire.
    #[inline(always)]
    fn ask(&self, edge: Edge) -> Result<(), Refused>
        ensures { OfHistory self.now (λ version p h. result
            ≡ check (exists p edge) Refused.NoSuchDriver (asked version p h edge)) }
    {
        if !edge.is_well_formed() {
            return Err(Refused::NoSuchDriver);
        }
        match edge.driver {
            Driver::Controller => self.arbiter.may(edge, self.shared),
            Driver::Slot(slot) => match self.board(slot) {
                Some(board) => board.may(edge, &self.shared, &self.chains),
                None => Err(Refused::NoSuchDriver),
            },
        }
    }

    /// Whether no board can answer the cycle.
    fn is_beyond_boards(&self, cycle: Cycle) -> bool
        ensures { OfHistory self.now (λ _ p h. result ≡ is_unanswerable p h (Some cycle)) }
    {
        match cycle {
            Cycle::Acknowledge(_) => self.chains.is_past_end(ChainId::Iack),
            Cycle::Access(slot) => self.board(slot).is_none(),
        }
    }

    /// Whether no board can answer what is shown.
    fn is_unanswerable(&self) -> bool
        ensures { OfHistory self.now (λ _ p h. result ≡ is_unanswerable p h (shown p h)) }
    {
        match self.shared.shown {
            Some(cycle) => self.is_beyond_boards(cycle),
            None => false,
        }
    }

    /// The number of the settling rule that names the edge, and what its guard answers. The number
    /// is 0, and the guard has no condition, if no settling rule names the edge.
    #[inline(always)]
    pub(crate) fn settling<A: Outcome>(&self, edge: Edge) -> (u8, A)
        ensures number { OfHistory self.now (λ version p h. result.0
            ≡ (settling_guard version p h edge.wire edge.fall).0) }
        ensures answer { OfHistory self.now (λ version p h.
            A.reports result.1 (settling_guard version p h edge.wire edge.fall).1) }
    {
        match (edge.wire, edge.fall) {
            (Wire::AddressStrobe, true) => (1, as_settles(self.chains.is_acknowledge_clear())),
            (Wire::Berr, true) => (2, berr_settles(self.is_unanswerable())),
            (Wire::Bg(level), false) => {
                let is_past = self.chains.is_past_end(ChainId::of_grant(level));
                (3, bg_rise_settles(self.version, self.shared.bbsy, is_past))
            }
            (Wire::Bg(_), true) => {
                let are_through = !self.lines.bgout.is_low();
                (4, bg_fall_settles(self.version, are_through))
            }
            _ => (0, A::free()),
        }
    }

    /// E4: whether the settling rule that names the edge holds.
    #[inline(always)]
    fn settle(&self, edge: Edge) -> Result<(), Refused>
        ensures { OfHistory self.now (λ version p h. result
            ≡ check (settled version p h edge)
            (Refused.NotSettled (settling version p h edge.wire edge.fall).0) (Ok tt)) }
    {
        let (number, holds) = self.settling(edge);
        if holds {
            Ok(())
        } else {
            Err(Refused::NotSettled(number))
        }
    }

    /// Whether the rules allow an edge, without the end of the trace. Source: docs/RULES.md, E1 to
    /// E4.
    ///
    /// # Errors
    /// The first of E1 to E4 that applies.
    #[inline(always)]
    pub fn judge(&self, edge: Edge) -> Result<(), Refused>
        ensures { OfHistory self.now (λ version p h. result ≡ verdict_but_full version p h edge) }
    {
        match self.ask(edge) {
            Ok(()) => self.settle(edge),
            Err(refused) => Err(refused),
        }
    }

    /// Whether the driver's own wire is low, or its address group on.
    #[inline(always)]
    pub(crate) fn is_driven_low(&self, driver: Driver, wire: Wire) -> bool
        ensures { OfHistory self.now (λ _ _ h. result ≡ drive h driver wire) }
    {
        match driver {
            Driver::Controller => self.arbiter.is_low(wire),
            Driver::Slot(slot) => match self.board(slot) {
                Some(board) => board.is_low(wire),
                None => false,
            },
        }
    }

    /// The edge that has no value and moves the wire to its other state.
    #[inline(always)]
    pub(crate) fn turned(&self, driver: Driver, wire: Wire) -> Edge
        ensures { OfHistory self.now (λ _ _ h. result ≡ turned h driver wire) }
    {
        Edge {
            driver,
            wire,
            fall: !self.is_driven_low(driver, wire),
            value: None,
        }
    }
}
