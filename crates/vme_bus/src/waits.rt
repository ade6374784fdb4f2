//! Which parts of a board wait for an edge of another.
ghost use Rattle.std.specs.Prelude.{◌≡◌};
ghost use Rattle.vme_wiring.specs.Judged.{requester_waits, master_waits, interrupter_waits};

use crate::states::BusState;
use vme_wiring::Waiting;

impl BusState {
    ghost use Rattle.vme_bus.specs.States.{OfHistory};

    /// Which parts of a slot's board wait; all where there is no board.
    #[inline(always)]
    pub(crate) fn waiting_parts(&self, slot: u8) -> Waiting
        ensures requester { OfHistory self.now (λ version p h.
            result.requester ≡ requester_waits version p h slot) }
        ensures master { OfHistory self.now (λ _ p h. result.master ≡ master_waits p h slot) }
        ensures interrupter { OfHistory self.now (λ _ p h.
            result.interrupter ≡ interrupter_waits p h slot) }
    {
        Waiting {
            requester: !self.requesters_at_work().has(slot),
            master: !self.masters_at_work().has(slot),
            interrupter: !self.answering_at_work().has(slot),
        }
    }
}
