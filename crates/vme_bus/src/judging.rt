//! What a bus answers as a state that its edges lead to.

use crate::states::BusState;
use vme_histories::Judges;
use vme_model::{Cycle, Driver, Levels, Wire};
use vme_rules::controllers::bg_falls;

impl Judges for BusState {
    ghost use Rattle.vme_bus.specs.States.{IsStateOf};

    ghost is_of = { IsStateOf };

    #[inline(always)]
    fn is_low(&self, driver: Driver, wire: Wire) -> bool {
        self.is_driven_low(driver, wire)
    }

    #[inline(always)]
    fn may_control(&self, wire: Wire) -> bool {
        BusState::may_control(self, wire)
    }

    #[inline(always)]
    fn may_request(&self, slot: u8, wire: Wire) -> bool {
        BusState::may_request(self, slot, wire)
    }

    #[inline(always)]
    fn may_transfer(&self, slot: u8, wire: Wire) -> bool {
        BusState::may_transfer(self, slot, wire)
    }

    #[inline(always)]
    fn may_interrupt(&self, slot: u8, wire: Wire) -> bool {
        BusState::may_interrupt(self, slot, wire)
    }

    #[inline(always)]
    fn may_show(&self, slot: u8, cycle: Cycle) -> bool {
        BusState::may_show(self, slot, cycle)
    }

    #[inline(always)]
    fn may_grant(&self) -> bool {
        bg_falls(self.are_grants_high(), self.bbsy(), true)
    }

    #[inline(always)]
    fn low_interrupts(&self) -> Levels {
        self.interrupts()
    }

    #[inline(always)]
    fn next_board(&self, slot: u8) -> Option<u8> {
        self.board_above(slot).or(self.board_above(0))
    }

    #[inline(always)]
    fn handled(&self, slot: u8) -> Option<Levels> {
        match self.record(slot) {
            Some(seat) => Some(seat.handler()),
            None => None,
        }
    }
}
