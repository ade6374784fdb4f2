//! Which parts of the boards do not wait for an edge of another driver, of all slots at once.
ghost use Rattle.std.specs.Prelude.{◌≡◌, ◌&&◌, ◌<◌, ℕ, not};
ghost use Rattle.vme_wiring.specs.Judged.{requester_waits, master_waits, interrupter_waits};
ghost use Rattle.vme_wiring.specs.Waits.{is_access_to};
ghost use Rattle.vme_bus.specs.Sets.{has};
ghost use Rattle.vme_bus.specs.Records.{cycle_in};
ghost use Rattle.vme_bus.specs.AtWork.{interrupter_rests};

use crate::sets::SlotSet;
use crate::states::BusState;
use vme_model::Cycle;

impl BusState {
    ghost use Rattle.vme_bus.specs.States.{OfHistory};

    /// The slots that request the bus, while no grant has reached them.
    #[inline(always)]
    fn ungranted(&self) -> SlotSet
        ensures { (s : ℕ) → has result s ≡ (has self.now.br s
            && not (has self.now.grants s) && not (has self.now.bbsy s)
            && not (has self.now.granted s)) }
    {
        self.br
            .except(self.grants)
            .except(self.bbsy)
            .except(self.granted)
    }

    /// The slots whose requesters do not wait for a grant.
    #[inline(always)]
    pub(crate) fn requesters_at_work(&self) -> SlotSet
        ensures { OfHistory self.now (λ version p h. (s : ℕ)
            → has result s ≡ not (requester_waits version p h s)) }
    {
        if self.version().is_two() {
            self.layout.requesters
        } else {
            self.layout.requesters.except(self.ungranted())
        }
    }

    /// The slots that hold the bus, or whose address group or strobes are on.
    #[inline(always)]
    pub(crate) fn masters_at_work(&self) -> SlotSet
        ensures { OfHistory self.now (λ _ p h. (s : ℕ)
            → has result s ≡ not (master_waits p h s)) }
    {
        let showing = self.addr.or(self.address_strobe).or(self.data_strobe);
        self.bbsy.or(showing)
    }

    /// The slots whose interrupters request and were not served, while no acknowledge has reached
    /// them.
    #[inline(always)]
    fn unreached(&self) -> SlotSet
        ensures { (s : ℕ) → has result s ≡ (has self.now.irq s
            && not (has self.now.served s) && not (has self.now.acknowledges s)
            && not (has self.now.acknowledged s)) }
    {
        self.irq
            .except(self.served)
            .except(self.acknowledges)
            .except(self.acknowledged)
    }

    /// The slots whose interrupters do not wait to be served.
    #[inline(always)]
    fn interrupters_at_work(&self) -> SlotSet
        ensures { OfHistory self.now (λ _ p h. (s : ℕ)
            → has result s ≡ not (interrupter_rests p h s)) }
    {
        self.layout.interrupters.except(self.unreached())
    }

    /// The slot that an access is shown to.
    #[inline(always)]
    pub(crate) fn accessed(&self) -> SlotSet
        ensures { (s : ℕ) → s < 22 → has result s ≡ is_access_to s (cycle_in self.now.shown) }
    {
        match self.shown() {
            Some(Cycle::Access(slot)) if slot < 22 => SlotSet::NONE.with(slot),
            _ => SlotSet::NONE,
        }
    }

    /// The slots that answer, or may have a cycle to answer or to pass on.
    #[inline(always)]
    pub(crate) fn answering_at_work(&self) -> SlotSet
        ensures { OfHistory self.now (λ _ p h. (s : ℕ)
            → has result s ≡ not (interrupter_waits p h s)) }
    {
        self.interrupters_at_work()
            .or(self.dtack)
            .or(self.layout.boards.and(self.accessed()))
    }
}
