//! Which parts of the boards may have an edge to make, all at once, and a bus whose drivers take
//! turns.
ghost use Rattle.std.specs.Prelude.{◌≡◌, ◌&&◌, ◌||◌, ◌%◌, ◌<◌, ◌≤◌, ℕ, [], Ok, false, if◌then◌else◌, length, not, slice_get};
ghost use Rattle.std.specs.Option.{option_map_or};
ghost use Rattle.vme_model.specs.declared.signals.Driver.TheVariants.{Slot};
ghost use Rattle.vme_model.specs.declared.signals.Wire.TheVariants.{AddressStrobe};
ghost use Rattle.vme_model.specs.History.{line};
ghost use Rattle.vme_model.specs.Offers.{offered};
ghost use Rattle.vme_model.specs.Accepted.{IsAccepted};
ghost use Rattle.vme_model.specs.Report.{trace_limit};
ghost use Rattle.vme_model.specs.Safe.{IsSafe, IsOrderly};
ghost use Rattle.vme_model.specs.Verdict.{made, verdict, IsLegal};
ghost use Rattle.vme_histories.specs.Offered.{offered_but_full, requester_wires, master_wires, interrupter_wires};
ghost use Rattle.vme_histories.specs.Shown.{is_access_to};
ghost use Rattle.vme_histories.specs.Sound.{IsSound};
ghost use Rattle.vme_bus.specs.Records.{cycle_in};
ghost use Rattle.vme_bus.specs.Sets.{has};
ghost use Rattle.vme_bus.specs.Choices.{NoneBeside, IsReady};

use crate::buses::Bus;
use crate::sets::SlotSet;
use crate::states::BusState;
use arrayvec::ArrayVec;
use std::marker::Model;
use vme_histories::{Waiting, choice, put_controller, put_parts};
use vme_model::{Cycle, Driver, Edge, Version};

/// For each part of the boards, the slots where it may have an edge to make. A part has none in
/// any other slot.
#[derive(Clone, Copy)]
pub(crate) struct Ready {
    pub(crate) requesters: SlotSet,
    pub(crate) masters: SlotSet,
    /// The interrupters, and what answers cycles.
    pub(crate) interrupters: SlotSet,
}

impl Ready {
    /// The slots where any part may have an edge to make.
    #[inline(always)]
    fn slots(self) -> SlotSet
        ensures { (s : ℕ) → has result s
            ≡ ((has self.requesters s || has self.masters s) || has self.interrupters s) }
    {
        self.requesters.or(self.masters).or(self.interrupters)
    }

    /// Which parts of a slot's board have no edge to make.
    #[inline(always)]
    fn waiting(self, slot: u8) -> Waiting
        ensures requester { result.requester ≡ not (has self.requesters slot) }
        ensures master { result.master ≡ not (has self.masters slot) }
        ensures interrupter { result.interrupter ≡ not (has self.interrupters slot) }
    {
        Waiting {
            requester: !self.requesters.has(slot),
            master: !self.masters.has(slot),
            interrupter: !self.interrupters.has(slot),
        }
    }
}

impl BusState {
    ghost use Rattle.vme_bus.specs.States.{OfHistory};

    /// The slots whose grant chain's output is not as its input: it is to rise, or the board does
    /// not hold the bus.
    #[inline(always)]
    fn passing_on(&self) -> SlotSet
        ensures { (s : ℕ) → has result s
            ≡ ((if has self.now.grants s
            then not (has self.now.granted s) else has self.now.granted s)
            && not (has self.now.granted s && has self.now.bbsy s)) }
    {
        self.granted
            .xor(self.grants)
            .except(self.granted.and(self.bbsy))
    }

    /// The slots of the set whose address group is off, or their address strobe low.
    #[inline(always)]
    fn free_of(&self, set: SlotSet) -> SlotSet
        ensures { (s : ℕ) → has result s
            ≡ (has set s && not (has self.now.addr s && not (has self.now.address_strobe s))) }
    {
        set.except(self.addr.except(self.address_strobe))
    }

    /// The slots whose requesters may have an edge to make.
    #[inline(always)]
    fn ready_requesters(&self) -> SlotSet
        ensures { OfHistory self.now (λ version p h.
            NoneBeside version p h requester_wires result) }
    {
        let requesters = self.layout.requesters;
        let settled = requesters.except(self.br.xor(self.bbsy));
        let leaving = self.free_of(self.bbsy.except(self.granted));
        let ready = settled.or(self.passing_on()).or(leaving);
        if self.version().is_two() {
            requesters
        } else {
            requesters.and(ready)
        }
    }

    /// The slots that hold the bus, or whose address group or strobes are on.
    #[inline(always)]
    fn holding(&self) -> SlotSet
        ensures { (s : ℕ) → has result s ≡ (has self.now.bbsy s
            || ((has self.now.addr s || has self.now.address_strobe s)
            || has self.now.data_strobe s)) }
    {
        let showing = self.addr.or(self.address_strobe).or(self.data_strobe);
        self.bbsy.or(showing)
    }

    /// The slots whose masters may have an edge to make.
    #[inline(always)]
    fn ready_masters(&self) -> SlotSet
        ensures { OfHistory self.now (λ version p h. NoneBeside version p h master_wires result) }
    {
        if !self.address_strobe() {
            return self.holding();
        }
        let ending = self.address_strobe.except(self.addr);
        if self.dtack() | self.berr() {
            let strobed = self.address_strobe.and(self.strobed);
            ending.or(self.data_strobe).or(strobed)
        } else {
            ending.or(self.address_strobe.except(self.data_strobe))
        }
    }

    /// The slots that pass an acknowledge on, once AS* is high.
    #[inline(always)]
    fn passing_back(&self) -> SlotSet
        ensures { OfHistory self.now (λ _ p h. (s : ℕ) → has result s
            ≡ (not (line p h AddressStrobe)
            && (has self.now.layout.interrupters s && has self.now.acknowledges s))) }
    {
        if self.address_strobe() {
            SlotSet::NONE
        } else {
            self.layout.interrupters.and(self.acknowledges)
        }
    }

    /// The slot that an access is shown to.
    #[inline(always)]
    fn accessed(&self) -> SlotSet
        ensures { (s : ℕ) → s < 22 → has result s ≡ is_access_to s (cycle_in self.now.shown) }
    {
        match self.shown() {
            Some(Cycle::Access(slot)) if slot < 22 => SlotSet::NONE.with(slot),
            _ => SlotSet::NONE,
        }
    }

    /// The slots that an acknowledge has reached, which they do not pass on, or an access, and that
    /// do not answer.
    #[inline(always)]
    fn called(&self) -> SlotSet
        ensures { (s : ℕ) → s < 22 → has result s
            ≡ (((has self.now.acknowledged s && not (has self.now.acknowledges s))
            || (has self.now.layout.boards s && is_access_to s (cycle_in self.now.shown)))
            && not (has self.now.dtack s)) }
    {
        self.acknowledged
            .except(self.acknowledges)
            .or(self.layout.boards.and(self.accessed()))
            .except(self.dtack)
    }

    /// The slots whose interrupters, or what answers cycles, may have an edge to make.
    #[inline(always)]
    fn ready_interrupters(&self) -> SlotSet
        ensures { OfHistory self.now (λ version p h.
            NoneBeside version p h interrupter_wires result) }
    {
        let waiting = self.irq.except(self.served);
        let asking = self.layout.interrupters.except(waiting);
        let own = asking.or(self.passing_back());
        if self.data_strobe() {
            own.or(self.called())
        } else {
            own.or(self.dtack)
        }
    }
}

impl BusState {
    ghost use Rattle.vme_bus.specs.States.{OfHistory};

    /// Which parts of the boards may have an edge to make, by a few operations on sets.
    #[inline(always)]
    fn ready(&self) -> Ready
        ensures { OfHistory self.now (λ version p h. IsReady version p h result) }
    {
        Ready {
            requesters: self.ready_requesters(),
            masters: self.ready_masters(),
            interrupters: self.ready_interrupters(),
        }
    }
}

/// The offer at place `round mod k` of k offers, if there is any.
#[inline(always)]
fn chosen(offers: &[Edge], round: u32) -> Option<Edge>
    ensures { result ≡ slice_get offers.now (round % length offers.now) }
{
    if offers.len() == 1 {
        return Some(offers[0]);
    }
    choice(offers, round)
}

impl Bus {
    /// Which parts of the boards may have an offer.
    #[inline(always)]
    fn ready(&self) -> Ready
        ensures { IsReady self.now.version self.now.plan self.now.history result }
    {
        self.state().ready()
    }

    /// Puts what a driver is offered, without the end of the trace, into an empty list. Of a board
    /// only the parts that are ready are asked.
    #[inline(always)]
    fn put_ready<const N: usize>(
        &self,
        ready: Ready,
        driver: Driver,
        offers: &mut ArrayVec<Edge, N>,
    )
        requires ready { IsReady self.now.version self.now.plan self.now.history ready }
        requires room { 11 ≤ N }
        requires empty { offers.old.items ≡ [] }
        ensures { offers.new.items
            ≡ offered_but_full self.now.version self.now.plan self.now.history driver }
    {
        match driver {
            Driver::Controller => put_controller(self.state(), offers),
            Driver::Slot(slot) => put_parts(self.state(), slot, ready.waiting(slot), offers),
        }
    }

    /// What a driver is offered in a round, without the end of the trace.
    #[inline(always)]
    fn ready_offer_but_full(&self, ready: Ready, driver: Driver, round: u32) -> Option<Edge>
        requires { IsReady self.now.version self.now.plan self.now.history ready }
        ensures { let offers = offered_but_full
            self.now.version self.now.plan self.now.history driver in
            result ≡ slice_get offers (round % length offers) }
    {
        let mut offers: ArrayVec<Edge, 12> = ArrayVec::new();
        self.put_ready(ready, driver, &mut offers);
        chosen(offers.as_slice(), round)
    }

    /// What a driver is offered in a round, if it is offered anything.
    #[inline(always)]
    fn ready_offer(&self, ready: Ready, driver: Driver, round: u32) -> Option<Edge>
        requires { IsReady self.now.version self.now.plan self.now.history ready }
        ensures { result
            ≡ slice_get (offered self.now driver) (round % length (offered self.now driver)) }
    {
        if self.is_full() {
            return None;
        }
        self.ready_offer_but_full(ready, driver, round)
    }
}

/// A bus whose drivers take turns: beside it stands which parts of its boards may have an offer.
///
/// It is the bus, and gets to be another only by `make_offer`, which then looks at all boards at
/// once.
#[derive(Drop)]
pub struct Turns {
    bus: Bus,
    ready: Ready,
}

impl Model for Turns {
    ghost use Rattle.vme_model.specs.Verdict.{State};
    ghost use Rattle.vme_bus.specs.Choices.{IsReady};

    ghost Value = { State };

    ghost view = { λ t. t.bus };

    ghost invariant = { λ t. IsReady t.bus.version t.bus.plan t.bus.history t.ready };
}

impl Turns {
    /// Before the first turn.
    pub fn new(bus: Bus) -> Turns
        ensures { result ≡ bus }
    {
        let ready = bus.ready();
        Turns { bus, ready }
    }

    /// A law: what holds for every bus. The call costs nothing, and gives these facts to the
    /// prover.
    pub fn laws(&self)
        ensures accepted { IsAccepted self.now.plan }
        ensures legal { IsLegal self.now.version self.now.plan self.now.history }
        ensures fits { length self.now.history ≤ self.now.max }
        ensures bounded { self.now.max ≤ trace_limit }
    {
        self.bus.laws();
    }

    /// A law: the history of every bus is safe and orderly. The call costs nothing, and gives these
    /// facts to the prover.
    pub fn safety(&self)
        ensures safe { IsSafe self.now.plan self.now.history }
        ensures orderly { IsOrderly self.now.version self.now.plan self.now.history }
    {
        self.bus.safety();
    }

    /// The version of its rules.
    pub fn version(&self) -> Version
        ensures { result ≡ self.now.version }
    {
        self.bus.version()
    }

    /// How many edges were made.
    #[inline(always)]
    pub fn len(&self) -> u32
        ensures { result ≡ length self.now.history }
    {
        self.bus.len()
    }

    /// Slots that may have an offer: each other slot has none.
    #[inline(always)]
    pub fn movers(&self) -> SlotSet
        ensures { (s : ℕ) → has result s ≡ false → offered self.now (Slot s) ≡ [] }
    {
        self.ready.slots()
    }

    /// What the driver is offered in a round.
    #[inline(always)]
    fn offer(&self, driver: Driver, round: u32) -> Option<Edge>
        ensures { result
            ≡ slice_get (offered self.now driver) (round % length (offered self.now driver)) }
    {
        self.bus.ready_offer(self.ready, driver, round)
    }

    /// Makes the offer that the driver makes in a round, if it has any, and answers it: of k offers
    /// the one at place `round mod k`.
    #[inline(always)]
    pub fn make_offer(&mut self, driver: Driver, round: u32) -> Option<Edge>
        ensures offer { result
            ≡ slice_get (offered self.old driver) (round % length (offered self.old driver)) }
        ensures state { self.new ≡ option_map_or (made self.old) result self.old }
        ensures sound { IsSound self.new }
    {
        let offer = self.offer(driver, round);
        match offer {
            Some(edge) => self.take(edge),
            None => {}
        }
        self.laws();
        self.safety();
        offer
    }

    /// Makes an edge that would be accepted, and looks which parts are ready then.
    #[inline(always)]
    fn take(&mut self, edge: Edge)
        requires { verdict self.old edge ≡ Ok tt }
        ensures { self.new ≡ made self.old edge }
    {
        self.bus.make_by_wire(edge);
        self.ready = self.bus.ready();
    }
}
