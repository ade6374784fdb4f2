//! The verdict on an edge, apart from the end of the trace.
ghost use Rattle.std.specs.Prelude.{◌≡◌, ◌&&◌, ◌<◌, ℕ, true, false, Some, Ok};
ghost use Rattle.vme_model.specs.declared.signals.Driver.TheVariants.{Controller, Slot};
ghost use Rattle.vme_model.specs.declared.signals.Part.TheVariants as parts;
ghost use Rattle.vme_model.specs.Signals.{is_well_formed, is_of};
ghost use Rattle.vme_model.specs.Plan.{has_driver, grant_chain};
ghost use Rattle.vme_model.specs.History.{drive, shown, is_past_end};
ghost use Rattle.vme_model.specs.Settling.{is_unanswerable, settling, settling_guard, is_chain_clear, are_grants_through};
ghost use Rattle.vme_model.specs.declared.sets.ChainId.TheVariants as chain;
ghost use Rattle.vme_model.specs.Verdict.{check, is_other_state, settled, verdict_but_full};
ghost use Rattle.vme_histories.specs.Asked.{asked, exists};
ghost use Rattle.vme_bus.specs.Sets.{has};

use crate::layouts::{ACKNOWLEDGE_HEAD, grant_head};
use crate::sets::SlotSet;
use crate::states::{BUS_CLEAR, BUS_ERROR, BusState};
use vme_histories::by_wire;
use vme_model::{ChainId, Cycle, Driver, Edge, Part, Refused, Wire};
use vme_rules::settlings::{as_settles, berr_settles, bg_fall_settles, bg_rise_settles};
use vme_rules::{Outcome, allowed};

/// E2 and E3 of an edge, by whether its wire is low, whether the edge falls, and the number of its
/// rule with what the guard answers.
#[inline(always)]
fn asked(low: bool, fall: bool, ruled: (u8, bool)) -> Result<(), Refused>
    ensures { result ≡ check (is_other_state low fall) Refused.AlreadyThere
        (check ruled.1 (Refused.Rule ruled.0) (Ok tt)) }
{
    // Both at once, by `&`, so that an edge that passes takes one branch: what refuses another is
    // found out behind it.
    if (low != fall) & ruled.1 {
        return Ok(());
    }
    if low == fall {
        return Err(Refused::AlreadyThere);
    }
    allowed(ruled)
}

impl BusState {
    ghost use Rattle.vme_bus.specs.States.{OfHistory};

    /// The slots whose boards have the part that drives the wire.
    #[inline(always)]
    fn drivers(&self, wire: Wire) -> SlotSet
        ensures { OfHistory self.now (λ _ p _. (s : ℕ)
            → has result s ≡ has_driver p (Slot s) wire) }
    {
        match wire {
            Wire::Br => self.layout.requesters,
            Wire::BgOut => self.layout.requesters,
            Wire::Bbsy => self.layout.requesters,
            Wire::Addr => self.layout.requesters,
            Wire::AddressStrobe => self.layout.requesters,
            Wire::DataStrobe => self.layout.requesters,
            Wire::Irq => self.layout.interrupters,
            Wire::IackOut => self.layout.interrupters,
            Wire::Dtack => self.layout.boards,
            Wire::Bg(_) | Wire::Bclr | Wire::Iack | Wire::Berr => SlotSet::NONE,
        }
    }

    /// Whether the backplane has the driver, with such a wire.
    #[inline(always)]
    pub fn has_driver(&self, driver: Driver, wire: Wire) -> bool
        ensures { OfHistory self.now (λ _ p _. result ≡ has_driver p driver wire) }
    {
        match driver {
            Driver::Controller => wire.is_controllers(),
            Driver::Slot(slot) => self.drivers(wire).has(slot),
        }
    }

    /// E1: whether the edge is well formed, and there is such a driver.
    #[inline(always)]
    pub(crate) fn exists(&self, edge: Edge) -> bool
        ensures exists { OfHistory self.now (λ _ p _. result ≡ exists p edge) }
        ensures formed { result ≡ true → is_well_formed edge ≡ true }
    {
        edge.is_well_formed() && self.has_driver(edge.driver, edge.wire)
    }

    /// The slots below 22 that drive the wire low, or their address group on.
    #[inline(always)]
    fn outputs(&self, wire: Wire) -> SlotSet
        ensures { OfHistory self.now (λ _ _ h. (s : ℕ) → s < 22
            → has result s ≡ drive h (Slot s) wire) }
    {
        match wire {
            Wire::Br => self.br,
            Wire::BgOut => self.grants,
            Wire::Bbsy => self.bbsy,
            Wire::Addr => self.addr,
            Wire::AddressStrobe => self.address_strobe,
            Wire::DataStrobe => self.data_strobe,
            Wire::Irq => self.irq,
            Wire::IackOut => self.acknowledges,
            Wire::Dtack => self.dtack,
            Wire::Bg(_) => SlotSet::NONE,
            Wire::Bclr => SlotSet::NONE,
            Wire::Iack => SlotSet::NONE,
            Wire::Berr => SlotSet::NONE,
        }
    }

    /// Whether a slot below 22 drives the wire low, or its address group on.
    #[inline(always)]
    pub(crate) fn is_slot_low(&self, slot: u8, wire: Wire) -> bool
        ensures { slot < 22 → OfHistory self.now (λ _ _ h.
            result ≡ drive h (Slot slot) wire) }
    {
        self.outputs(wire).has(slot)
    }

    /// Whether every board's grant output is high.
    #[inline(always)]
    fn are_grants_through(&self) -> bool
        ensures { OfHistory self.now (λ _ p h. result ≡ are_grants_through p h) }
    {
        !self.grants.of_slots().is_some()
    }

    /// Whether the acknowledge chain is high everywhere.
    #[inline(always)]
    fn is_acknowledge_clear(&self) -> bool
        ensures { OfHistory self.now (λ _ p h. result ≡ is_chain_clear p h chain.Iack) }
    {
        !self.acknowledges.has(ACKNOWLEDGE_HEAD) & !self.acknowledges.of_slots().is_some()
    }

    /// Whether the acknowledge has passed every board.
    #[inline(always)]
    fn is_acknowledge_past(&self) -> bool
        ensures { OfHistory self.now (λ _ p h. result ≡ is_past_end p h chain.Iack) }
    {
        self.acknowledges.has(self.layout.acknowledge_end)
    }

    /// Whether a grant has passed every board of its level.
    #[inline(always)]
    fn is_grant_past(&self, level: u8) -> bool
        ensures { OfHistory self.now (λ _ p h. result ≡ is_past_end p h (grant_chain level)) }
    {
        // Every level beyond 3 is of the last chain.
        self.grants
            .has(self.layout.grant_ends[usize::from(level.min(3))])
    }

    /// Whether nobody can answer what is shown.
    #[inline(always)]
    fn is_unanswerable(&self) -> bool
        ensures { OfHistory self.now (λ _ p h. result ≡ is_unanswerable p h (shown p h)) }
    {
        match self.shown() {
            Some(Cycle::Acknowledge(_)) => self.is_acknowledge_past(),
            Some(Cycle::Access(slot)) => !self.layout.boards.has(slot),
            None => false,
        }
    }

    /// The settling rule that names the edge, and what its guard answers; 0 and a free one if none
    /// does.
    #[inline(always)]
    pub(crate) fn settling<A: Outcome>(&self, wire: Wire, fall: bool) -> (u8, A)
        ensures number { OfHistory self.now (λ version p h.
            result.0 ≡ (settling_guard version p h wire fall).0) }
        ensures answer { OfHistory self.now (λ version p h.
            A.reports result.1 (settling_guard version p h wire fall).1) }
    {
        match (wire, fall) {
            (Wire::AddressStrobe, true) => (1, as_settles(self.is_acknowledge_clear())),
            (Wire::Berr, true) => (2, berr_settles(self.is_unanswerable())),
            (Wire::Bg(level), false) => {
                let is_past = self.is_grant_past(level);
                (3, bg_rise_settles(self.version(), self.bbsy(), is_past))
            }
            (Wire::Bg(_), true) => (
                4,
                bg_fall_settles(self.version(), self.are_grants_through()),
            ),
            _ => (0, A::free()),
        }
    }

    /// Whether the controller drives the wire low.
    #[inline(always)]
    pub(crate) fn is_control_low(&self, wire: Wire) -> bool
        ensures { OfHistory self.now (λ _ _ h. result ≡ drive h Controller wire) }
    {
        match wire {
            Wire::Bg(level) => level < 4 && self.grants.has(grant_head(level)),
            Wire::Bclr => self.controls.has(BUS_CLEAR),
            Wire::Iack => self.acknowledges.has(ACKNOWLEDGE_HEAD),
            Wire::Berr => self.controls.has(BUS_ERROR),
            Wire::Br | Wire::BgOut | Wire::Bbsy => false,
            Wire::Addr | Wire::AddressStrobe | Wire::DataStrobe => false,
            Wire::Irq | Wire::IackOut | Wire::Dtack => false,
        }
    }

    /// Whether the driver drives the wire low.
    #[inline(always)]
    pub(crate) fn is_driven_low(&self, driver: Driver, wire: Wire) -> bool
        ensures { OfHistory self.now (λ _ _ h. result ≡ drive h driver wire) }
    {
        match driver {
            Driver::Controller => self.is_control_low(wire),
            Driver::Slot(slot) => (slot < 22) & self.is_slot_low(slot, wire),
        }
    }

    /// E2 and E3 of an edge of the controller.
    #[inline(always)]
    fn ask_controller(&self, edge: Edge) -> Result<(), Refused>
        requires part { is_of parts.Controller edge.wire ≡ true }
        requires formed { is_well_formed edge ≡ true }
        ensures { OfHistory self.now (λ version p h. exists p edge ≡ true
            → result ≡ asked version p h edge) }
    {
        let ruled = self.controller_rule(edge.wire, edge.fall);
        asked(self.is_control_low(edge.wire), edge.fall, ruled)
    }

    /// E2 and E3 of an edge of a board's requester.
    #[inline(always)]
    fn ask_requester(&self, edge: Edge) -> Result<(), Refused>
        requires part { is_of parts.Requester edge.wire ≡ true }
        requires formed { is_well_formed edge ≡ true }
        ensures { OfHistory self.now (λ version p h. exists p edge ≡ true
            → result ≡ asked version p h edge) }
    {
        let slot = edge.driver.number();
        let ruled = self.requester_rule(slot, edge.wire, edge.fall);
        asked(self.is_slot_low(slot, edge.wire), edge.fall, ruled)
    }

    /// E2 and E3 of an edge of a board's master.
    #[inline(always)]
    fn ask_master(&self, edge: Edge) -> Result<(), Refused>
        requires part { is_of parts.Master edge.wire ≡ true }
        requires formed { is_well_formed edge ≡ true }
        ensures { OfHistory self.now (λ version p h. exists p edge ≡ true
            → result ≡ asked version p h edge) }
    {
        let slot = edge.driver.number();
        let ruled = self.master_rule(slot, edge.wire, edge.fall, edge.value);
        asked(self.is_slot_low(slot, edge.wire), edge.fall, ruled)
    }

    /// E2 and E3 of an edge of a board's interrupter, or of its answer.
    #[inline(always)]
    fn ask_interrupter(&self, edge: Edge) -> Result<(), Refused>
        requires part { is_of parts.Interrupter edge.wire ≡ true }
        requires formed { is_well_formed edge ≡ true }
        ensures { OfHistory self.now (λ version p h. exists p edge ≡ true
            → result ≡ asked version p h edge) }
    {
        let slot = edge.driver.number();
        let ruled = self.interrupter_rule(slot, edge.wire, edge.fall);
        asked(self.is_slot_low(slot, edge.wire), edge.fall, ruled)
    }

    /// E4: the settling rules.
    #[inline(always)]
    fn settle(&self, edge: Edge) -> Result<(), Refused>
        ensures { OfHistory self.now (λ version p h. result
            ≡ check (settled version p h edge)
            (Refused.NotSettled (settling version p h edge.wire edge.fall).0) (Ok tt)) }
    {
        let (number, holds) = self.settling(edge.wire, edge.fall);
        if holds {
            Ok(())
        } else {
            Err(Refused::NotSettled(number))
        }
    }

    /// The first of E1 to E4 that applies to a well-formed edge of the controller.
    #[inline(always)]
    pub(crate) fn judge_controller(&self, edge: Edge) -> Result<(), Refused>
        requires part { is_of parts.Controller edge.wire ≡ true }
        requires formed { is_well_formed edge ≡ true }
        ensures { OfHistory self.now (λ version p h. result ≡ verdict_but_full version p h edge) }
    {
        if !self.has_driver(edge.driver, edge.wire) {
            return Err(Refused::NoSuchDriver);
        }
        match self.ask_controller(edge) {
            Ok(()) => self.settle(edge),
            Err(refused) => Err(refused),
        }
    }

    /// The first of E1 to E4 that applies to a well-formed edge of a board's requester.
    #[inline(always)]
    pub(crate) fn judge_requester(&self, edge: Edge) -> Result<(), Refused>
        requires part { is_of parts.Requester edge.wire ≡ true }
        requires formed { is_well_formed edge ≡ true }
        ensures { OfHistory self.now (λ version p h. result ≡ verdict_but_full version p h edge) }
    {
        if !self.has_driver(edge.driver, edge.wire) {
            return Err(Refused::NoSuchDriver);
        }
        self.ask_requester(edge)
    }

    /// The first of E1 to E4 that applies to a well-formed edge of a board's master.
    #[inline(always)]
    pub(crate) fn judge_master(&self, edge: Edge) -> Result<(), Refused>
        requires part { is_of parts.Master edge.wire ≡ true }
        requires formed { is_well_formed edge ≡ true }
        ensures { OfHistory self.now (λ version p h. result ≡ verdict_but_full version p h edge) }
    {
        if !self.has_driver(edge.driver, edge.wire) {
            return Err(Refused::NoSuchDriver);
        }
        match self.ask_master(edge) {
            Ok(()) => self.settle(edge),
            Err(refused) => Err(refused),
        }
    }

    /// The first of E1 to E4 that applies to a well-formed edge of a board's interrupter, or of its
    /// answer.
    #[inline(always)]
    pub(crate) fn judge_interrupter(&self, edge: Edge) -> Result<(), Refused>
        requires part { is_of parts.Interrupter edge.wire ≡ true }
        requires formed { is_well_formed edge ≡ true }
        ensures { OfHistory self.now (λ version p h. result ≡ verdict_but_full version p h edge) }
    {
        if !self.has_driver(edge.driver, edge.wire) {
            return Err(Refused::NoSuchDriver);
        }
        self.ask_interrupter(edge)
    }

    /// The first of E1 to E4 that applies to an edge.
    #[inline(always)]
    pub fn judge(&self, edge: Edge) -> Result<(), Refused>
        ensures { OfHistory self.now (λ version p h. result ≡ verdict_but_full version p h edge) }
    {
        if !edge.is_well_formed() {
            return Err(Refused::NoSuchDriver);
        }
        match edge.wire.part() {
            Part::Controller => self.judge_controller(edge),
            Part::Requester => self.judge_requester(edge),
            Part::Master => self.judge_master(edge),
            Part::Interrupter => self.judge_interrupter(edge),
        }
    }

    /// The first of E1 to E4 that applies to an edge, as `judge` finds it, in an arm for each wire:
    /// more code, which takes less time if one call is made for each of many edges.
    #[inline(always)]
    pub fn judge_by_wire(&self, edge: Edge) -> Result<(), Refused>
        ensures { OfHistory self.now (λ version p h. result ≡ verdict_but_full version p h edge) }
    {
        by_wire!(edge => self.judge(edge))
    }
}
