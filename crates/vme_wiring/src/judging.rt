//! What a wiring answers as a state of the bus.
ghost use Rattle.std.specs.Prelude.{◌≡◌, ◌&&◌, find, nat_lt, is_some};
ghost use Rattle.vme_model.specs.Plan.{board, up_to};
ghost use Rattle.vme_model.specs.Offers.{turned};
ghost use Rattle.vme_histories.specs.Offered.{is_open};

use crate::wirings::Wiring;
use vme_histories::Judges;
use vme_model::{Cycle, Driver, Edge, Levels, Wire};

impl Judges for Wiring {
    ghost use Rattle.vme_wiring.specs.Wired.{IsWiringOf};

    ghost is_of = { IsWiringOf };

    #[inline(always)]
    fn is_low(&self, driver: Driver, wire: Wire) -> bool {
        self.is_driven_low(driver, wire)
    }

    #[inline(always)]
    fn may_control(&self, wire: Wire) -> bool {
        self.may_turn(Driver::Controller, wire)
    }

    #[inline(always)]
    fn may_request(&self, slot: u8, wire: Wire) -> bool {
        self.may_turn(Driver::Slot(slot), wire)
    }

    #[inline(always)]
    fn may_transfer(&self, slot: u8, wire: Wire) -> bool {
        self.may_turn(Driver::Slot(slot), wire)
    }

    #[inline(always)]
    fn may_interrupt(&self, slot: u8, wire: Wire) -> bool {
        self.may_turn(Driver::Slot(slot), wire)
    }

    #[inline(always)]
    fn may_show(&self, slot: u8, cycle: Cycle) -> bool {
        let edge = Edge {
            driver: Driver::Slot(slot),
            wire: Wire::Addr,
            fall: true,
            value: Some(cycle),
        };
        self.judge(edge).is_ok()
    }

    #[inline(always)]
    fn may_grant(&self) -> bool {
        self.arbiter.may_grant(self.shared)
    }

    #[inline(always)]
    fn low_interrupts(&self) -> Levels {
        self.shared.irq
    }

    fn next_board(&self, slot: u8) -> Option<u8> {
        self.board_above(slot).or(self.board_above(0))
    }

    #[inline(always)]
    fn handled(&self, slot: u8) -> Option<Levels> {
        match self.board(slot) {
            Some(board) => Some(board.row.handler),
            None => None,
        }
    }
}

impl Wiring {
    ghost use Rattle.vme_wiring.specs.Wired.{OfHistory};

    /// Whether the rules allow the edge that has no value and moves the wire to its other state.
    #[inline(always)]
    fn may_turn(&self, driver: Driver, wire: Wire) -> bool
        ensures { OfHistory self.now (λ version p h.
            result ≡ is_open version p h (turned h driver wire)) }
    {
        let turned = self.turned(driver, wire);
        self.judge(turned).is_ok()
    }

    /// Whether the other slot has a board and stands above this slot.
    #[inline(always)]
    fn is_board_above(&self, other: u8, slot: u8) -> bool
        ensures { OfHistory self.now (λ _ p _. result
            ≡ (nat_lt slot other && is_some (board p other))) }
    {
        slot < other && self.board(other).is_some()
    }

    /// The least slot with a board above this slot.
    fn board_above(&self, slot: u8) -> Option<u8>
        ensures { OfHistory self.now (λ _ p _. result
            ≡ find (λ t. nat_lt slot t && is_some (board p t)) (up_to p.slots)) }
    {
        for other in 1..=self.slots {
            if self.is_board_above(other, slot) {
                return Some(other);
            }
        }
        None
    }
}
