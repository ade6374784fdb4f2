//! The rule that names an edge, and what its guard answers.
ghost use Rattle.std.specs.Prelude.{◌≡◌, ◌==◌, ◌&&◌, ◌<◌, ◌||◌, true, false, not, is_some, nat_lt, Option as OptionValue};
ghost use Rattle.std.specs.List.{list_any};
ghost use Rattle.std.specs.Option.{option_and_then, option_map_or};
ghost use Rattle.vme_model.specs.declared.signals.Cycle.{Cycle as CycleValue};
ghost use Rattle.vme_model.specs.declared.signals.Driver.TheVariants.{Controller, Slot};
ghost use Rattle.vme_model.specs.declared.signals.Wire.TheVariants as wire;
ghost use Rattle.vme_model.specs.History.{drive, request_line, last_level, shown};
ghost use Rattle.vme_model.specs.Readings.{readings, grant_in, iack_in, is_pending};
ghost use Rattle.vme_model.specs.declared.boards.Row.{Row as RowValue};
ghost use Rattle.vme_model.specs.Plan.{board, drives};
ghost use Rattle.vme_model.specs.declared.signals.Part.TheVariants as parts;
ghost use Rattle.vme_model.specs.Signals.{has_wire, has_value, is_acknowledge, is_of};
ghost use Rattle.vme_model.specs.Rules.{guard, bus_numbers, pick, is_pick, are_grants_high, clear_guard, burst_guard, release_guard, show_guard, pass_guard, answer_guard};
ghost use Rattle.vme_histories.specs.Shown.{is_access_to};
ghost use Rattle.vme_bus.specs.Asks.{asks_at, IsNumbered};
ghost use Rattle.vme_bus.specs.Records.{cycle_in};

use crate::layouts::grant_head;
use crate::records::kind_in;
use crate::states::BusState;
use vme_arbiter::{AnyPolicy, Policy};
use vme_model::{ArbiterKind, Cycle, Part, Wire};
use vme_rules::Outcome;
use vme_rules::controllers::{
    bclr_falls, bclr_rises, berr_falls, berr_rises, bg_falls, bg_rises, iack_falls, iack_rises,
};
use vme_rules::interrupters::{
    answers, dtack_falls, dtack_rises, iackout_falls, iackout_rises, irq_falls, irq_rises, passes,
};
use vme_rules::masters::{
    addr_goes_off, addr_goes_on, addr_is_free, as_falls, as_rises, below_burst, ds_falls, ds_rises,
    shows,
};
use vme_rules::requesters::{
    bbsy_falls, bbsy_rises, bgout_falls, bgout_rises, br_falls, br_rises, released,
};

impl BusState {
    ghost use Rattle.vme_bus.specs.States.{OfHistory, OfBoard};

    /// Whether each of the controller's grants is high.
    #[inline(always)]
    pub(crate) fn are_grants_high(&self) -> bool
        ensures { OfHistory self.now (λ _ p h. result
            ≡ are_grants_high (readings p h Controller)) }
    {
        let lower = self.grants.has(grant_head(0)) | self.grants.has(grant_head(1));
        let upper = self.grants.has(grant_head(2)) | self.grants.has(grant_head(3));
        !(lower | upper)
    }

    /// The level that the policy picks of those that are requested, if it picks any.
    #[inline(always)]
    fn picked(&self) -> Option<u8>
        ensures { OfHistory self.now (λ _ p h. result
            ≡ pick p.arbiter (request_line p h) (last_level h)) }
    {
        AnyPolicy::from(kind_in(self.kind)).pick(self.requests(), self.last_level)
    }

    /// Whether the policy picks the level.
    #[inline(always)]
    fn is_picked(&self, level: u8) -> bool
        ensures { level < 4 → OfHistory self.now (λ _ p h. result
            ≡ is_pick p.arbiter (request_line p h) (last_level h) level) }
    {
        match self.picked() {
            Some(picked) => picked == level,
            None => false,
        }
    }

    /// Whether a level above the one last granted is requested.
    #[inline(always)]
    fn is_outranked(&self) -> bool
        ensures { OfHistory self.now (λ _ p h. result
            ≡ list_any (λ m. nat_lt (last_level h) m && request_line p h m) bus_numbers) }
    {
        let last = self.last_level;
        let highest = (last < 3) & self.request(3);
        ((last < 1) & self.request(1)) | ((last < 2) & self.request(2)) | highest
    }

    /// What the guard of a falling bus clear answers (G3), which a rising one reads too (G4).
    #[inline(always)]
    fn clearing<A: Outcome>(&self) -> A
        ensures { OfHistory self.now (λ _ p h.
            A.reports result (clear_guard (readings p h Controller))) }
    {
        let is_pri = matches!(kind_in(self.kind), ArbiterKind::Pri);
        bclr_falls(
            is_pri,
            self.bbsy(),
            self.are_grants_high(),
            self.is_outranked(),
        )
    }

    /// Whether an acknowledge is shown.
    #[inline(always)]
    fn is_acknowledged(&self) -> bool
        ensures { OfHistory self.now (λ _ p h. result ≡ is_acknowledge (shown p h)) }
    {
        self.shown().is_some_and(|cycle| cycle.is_acknowledge())
    }

    /// The rule that names an edge of the controller, and what its guard answers (G1 to G8).
    #[inline(always)]
    pub(crate) fn controller_rule<A: Outcome>(&self, wire: Wire, fall: bool) -> (u8, A)
        ensures number { IsNumbered result.0 wire fall (has_wire Controller wire) }
        ensures answer { OfHistory self.now (λ version p h. (v : OptionValue CycleValue)
            → has_wire Controller wire ≡ true
            → A.reports result.1 (guard version (readings p h Controller) wire fall v).1) }
    {
        match (wire, fall) {
            (Wire::Bg(level), true) => {
                let is_picked = self.is_picked(level);
                (1, bg_falls(self.are_grants_high(), self.bbsy(), is_picked))
            }
            (Wire::Bg(_), false) => (2, bg_rises(self.version(), self.bbsy())),
            (Wire::Bclr, true) => (3, self.clearing()),
            (Wire::Bclr, false) => (4, bclr_rises(self.clearing())),
            (Wire::Iack, true) => {
                let is_acknowledged = self.is_acknowledged();
                (
                    5,
                    iack_falls(self.address_strobe(), self.data_strobe(), is_acknowledged),
                )
            }
            (Wire::Iack, false) => (6, iack_rises(self.address_strobe())),
            (Wire::Berr, true) => (7, berr_falls(self.data_strobe(), self.dtack())),
            (Wire::Berr, false) => (8, berr_rises(self.data_strobe())),
            _ => (0, A::free()),
        }
    }

    /// The input of the board's own grant chain, for a board with a requester.
    #[inline(always)]
    pub(crate) fn grant_in(&self, slot: u8) -> bool
        ensures { OfHistory self.now (λ _ p h. result ≡ grant_in p h (Slot slot)) }
    {
        self.granted.has(slot)
    }

    /// The input of the acknowledge chain, for a board with an interrupter.
    #[inline(always)]
    pub(crate) fn iack_in(&self, slot: u8) -> bool
        ensures { OfHistory self.now (λ _ p h. result ≡ iack_in p h (Slot slot)) }
    {
        self.acknowledged.has(slot)
    }

    /// Whether the slot's address group is off or its address strobe low.
    #[inline(always)]
    fn is_address_free(&self, slot: u8) -> bool
        ensures { OfHistory self.now (λ _ _ h. result
            ≡ (not (drive h (Slot slot) wire.Addr) || drive h (Slot slot) wire.AddressStrobe)) }
    {
        !self.addr.has(slot) | self.address_strobe.has(slot)
    }

    /// Whether any bus request line is low.
    #[inline(always)]
    fn is_asked(&self) -> bool
        ensures { OfHistory self.now (λ _ p h. result ≡ list_any (request_line p h) bus_numbers) }
    {
        self.request(0) || self.request(1) || self.request(2) || self.request(3)
    }

    /// What the guard's part on the release answers, for a board with a requester.
    #[inline(always)]
    fn releasing<A: Outcome>(&self, slot: u8) -> A
        ensures { OfBoard self.now slot (λ _ p h r. is_some r.requester ≡ true
            → A.reports result (release_guard (readings p h (Slot slot)))) }
    {
        released(self.is_asked(), self.release(slot))
    }

    /// What the guard answers of a bus that is given up (G14).
    #[inline(always)]
    fn giving_up<A: Outcome>(&self, slot: u8) -> A
        ensures { OfBoard self.now slot (λ version p h r. (v : OptionValue CycleValue)
            → is_some r.requester ≡ true
            → A.reports result (guard version (readings p h (Slot slot)) wire.Bbsy false v).1) }
    {
        let releasing: A = self.releasing(slot);
        let (br, grant_in) = (self.br.has(slot), self.grant_in(slot));
        bbsy_rises(br, grant_in, self.is_address_free(slot), releasing)
    }

    /// The rule that names an edge of a board's requester, and what its guard answers (G9 to G14).
    #[inline(always)]
    pub(crate) fn requester_rule<A: Outcome>(&self, slot: u8, wire: Wire, fall: bool) -> (u8, A)
        requires { slot < 22 }
        ensures number { IsNumbered result.0 wire fall (is_of parts.Requester wire) }
        ensures answer { OfBoard self.now slot (λ version p h r. (v : OptionValue CycleValue)
            → is_of parts.Requester wire ≡ true → is_some r.requester ≡ true
            → A.reports result.1 (guard version (readings p h (Slot slot)) wire fall v).1) }
    {
        match (wire, fall) {
            (Wire::Br, true) => (9, br_falls(self.bbsy.has(slot))),
            (Wire::Br, false) => (10, br_rises(self.version(), self.bbsy.has(slot))),
            (Wire::BgOut, true) => {
                let (br, bbsy) = (self.br.has(slot), self.bbsy.has(slot));
                (11, bgout_falls(self.grant_in(slot), br, bbsy))
            }
            (Wire::BgOut, false) => (12, bgout_rises(self.grant_in(slot))),
            (Wire::Bbsy, true) => {
                let (bgout, br) = (self.grants.has(slot), self.br.has(slot));
                (13, bbsy_falls(self.grant_in(slot), bgout, br))
            }
            (Wire::Bbsy, false) => (14, self.giving_up(slot)),
            _ => (0, A::free()),
        }
    }

    /// What the guard's part on the burst answers, for a board with that requester.
    #[inline(always)]
    fn bursting<A: Outcome>(&self, slot: u8) -> A
        requires { slot < 22 }
        ensures { OfBoard self.now slot (λ _ p h r. is_some r.requester ≡ true
            → A.reports result (burst_guard (readings p h (Slot slot)))) }
    {
        below_burst(self.cycles[usize::from(slot)], self.release(slot))
    }

    /// What the guard's part on what is to be shown answers.
    #[inline(always)]
    fn showing<A: Outcome>(&self, slot: u8, value: Option<Cycle>) -> A
        ensures { OfBoard self.now slot (λ _ p h _. has_value wire.Addr true value ≡ true
            → A.reports result (show_guard (readings p h (Slot slot)) value)) }
    {
        shows(self.handler(slot), self.interrupt_asked(value), value)
    }

    /// What the guard answers of an address group that goes on (G15).
    #[inline(always)]
    fn going_on<A: Outcome>(&self, slot: u8, value: Option<Cycle>) -> A
        requires { slot < 22 }
        ensures { OfBoard self.now slot (λ version p h r.
            is_some r.requester ≡ true → has_value wire.Addr true value ≡ true
            → A.reports result (guard version (readings p h (Slot slot)) wire.Addr true value).1) }
    {
        let free: A = addr_is_free(self.bbsy.has(slot), self.address_strobe());
        // Most edges that are refused fail here, and the rest takes longer.
        if free.is_final() {
            return free;
        }
        let bursting: A = self.bursting(slot);
        let showing: A = self.showing(slot, value);
        addr_goes_on(free, bursting, showing)
    }

    /// The rule that names an edge of a board's master, and what its guard answers (G15 to G20).
    #[inline(always)]
    pub(crate) fn master_rule<A: Outcome>(
        &self,
        slot: u8,
        wire: Wire,
        fall: bool,
        value: Option<Cycle>,
    ) -> (u8, A)
        requires { slot < 22 }
        ensures number { IsNumbered result.0 wire fall (is_of parts.Master wire) }
        ensures answer { OfBoard self.now slot (λ version p h r.
            is_of parts.Master wire ≡ true → is_some r.requester ≡ true
            → has_value wire fall value ≡ true
            → A.reports result.1 (guard version (readings p h (Slot slot)) wire fall value).1) }
    {
        match (wire, fall) {
            (Wire::Addr, true) => (15, self.going_on(slot, value)),
            (Wire::AddressStrobe, true) => {
                (16, as_falls(self.addr.has(slot), self.address_strobe()))
            }
            (Wire::DataStrobe, true) => {
                let (own_strobe, addr) = (self.address_strobe.has(slot), self.addr.has(slot));
                let (dtack, berr) = (self.dtack(), self.berr());
                (
                    17,
                    ds_falls(own_strobe, addr, dtack, berr, self.strobed.has(slot)),
                )
            }
            (Wire::DataStrobe, false) => (18, ds_rises(self.dtack(), self.berr())),
            (Wire::Addr, false) => {
                let (own_strobe, data) = (
                    self.address_strobe.has(slot),
                    self.data_strobe.has(slot),
                );
                (19, addr_goes_off(own_strobe, data, self.strobed.has(slot)))
            }
            (Wire::AddressStrobe, false) => (20, as_rises(self.addr.has(slot))),
            _ => (0, A::free()),
        }
    }

    /// Whether the board has an interrupter of the level.
    #[inline(always)]
    fn has_level(&self, slot: u8, level: u8) -> bool
        ensures { OfHistory self.now (λ _ p _. result ≡ option_map_or (λ i. i.level == level)
            (option_and_then (λ r. r.interrupter) (board p slot)) false) }
    {
        // Every level beyond 7 is of no interrupter.
        (level < 8) & self.layout.interrupts[usize::from(level.min(7))].has(slot)
    }

    /// Whether the board's interrupter asks at the level.
    #[inline(always)]
    fn is_pending(&self, slot: u8, level: u8) -> bool
        ensures { OfHistory self.now (λ _ p h.
            result ≡ is_pending (readings p h (Slot slot)) level) }
    {
        self.has_level(slot, level) & self.irq.has(slot) & !self.served.has(slot)
    }

    /// Whether it asks at the level of the acknowledge that is shown.
    #[inline(always)]
    fn asks(&self, slot: u8) -> bool
        ensures { OfHistory self.now (λ _ p h.
            result ≡ asks_at (readings p h (Slot slot)) (shown p h)) }
    {
        match self.shown() {
            Some(Cycle::Acknowledge(level)) => self.is_pending(slot, level),
            _ => false,
        }
    }

    /// Whether an access to the slot is shown.
    #[inline(always)]
    pub(crate) fn is_accessed(&self, slot: u8) -> bool
        ensures { result ≡ is_access_to slot (cycle_in self.now.shown) }
    {
        match self.shown() {
            Some(Cycle::Access(target)) => slot == target,
            _ => false,
        }
    }

    /// What the guard's part on the acknowledge that is passed answers.
    #[inline(always)]
    fn passing<A: Outcome>(&self, slot: u8) -> A
        ensures { OfHistory self.now (λ _ p h.
            A.reports result (pass_guard (readings p h (Slot slot)) (shown p h))) }
    {
        passes(self.asks(slot), self.shown())
    }

    /// What the guard's part on the cycle that is answered answers.
    #[inline(always)]
    fn answering<A: Outcome>(&self, slot: u8) -> A
        requires { slot < 22 }
        ensures { OfBoard self.now slot (λ _ p h _.
            A.reports result (answer_guard (readings p h (Slot slot)) (shown p h))) }
    {
        let (iack_in, iackout) = (self.iack_in(slot), self.acknowledges.has(slot));
        let (is_pending, is_accessed) = (self.asks(slot), self.is_accessed(slot));
        answers(iack_in, iackout, is_pending, is_accessed, self.shown())
    }

    /// The rule that names an edge of a board's interrupter, or of its answer, and what its guard
    /// answers (G21 to G26).
    #[inline(always)]
    pub(crate) fn interrupter_rule<A: Outcome>(&self, slot: u8, wire: Wire, fall: bool) -> (u8, A)
        requires { slot < 22 }
        ensures number { IsNumbered result.0 wire fall (is_of parts.Interrupter wire) }
        ensures answer { OfBoard self.now slot (λ version p h _. (v : OptionValue CycleValue)
            → is_of parts.Interrupter wire ≡ true
            → A.reports result.1 (guard version (readings p h (Slot slot)) wire fall v).1) }
    {
        match (wire, fall) {
            (Wire::Irq, true) => (21, irq_falls()),
            (Wire::Irq, false) => (22, irq_rises(self.served.has(slot))),
            (Wire::IackOut, true) => {
                let (iack_in, dtack) = (self.iack_in(slot), self.dtack.has(slot));
                let passing = self.passing(slot);
                (
                    23,
                    iackout_falls(iack_in, dtack, self.data_strobe(), passing),
                )
            }
            (Wire::IackOut, false) => (24, iackout_rises(self.address_strobe())),
            (Wire::Dtack, true) => {
                let answering = self.answering(slot);
                (
                    25,
                    dtack_falls(self.data_strobe(), self.address_strobe(), answering),
                )
            }
            (Wire::Dtack, false) => (26, dtack_rises(self.data_strobe())),
            _ => (0, A::free()),
        }
    }

    /// The rule that names an edge of a board, and what its guard answers (G9 to G26).
    #[inline(always)]
    pub(crate) fn board_rule<A: Outcome>(
        &self,
        slot: u8,
        wire: Wire,
        fall: bool,
        value: Option<Cycle>,
    ) -> (u8, A)
        requires { slot < 22 }
        ensures number { (r : RowValue) → IsNumbered result.0 wire fall (drives wire r) }
        ensures answer { OfBoard self.now slot (λ version p h r. drives wire r ≡ true
            → has_value wire fall value ≡ true
            → A.reports result.1 (guard version (readings p h (Slot slot)) wire fall value).1) }
    {
        match wire.part() {
            Part::Requester => self.requester_rule(slot, wire, fall),
            Part::Master => self.master_rule(slot, wire, fall, value),
            Part::Interrupter => self.interrupter_rule(slot, wire, fall),
            Part::Controller => (0, A::free()),
        }
    }
}
