//! What a driver is offered.
ghost use Rattle.std.specs.Prelude.{◌≡◌};
ghost use Rattle.vme_histories.specs.Offered.{offered_but_full};

use crate::wirings::Wiring;
use arrayvec::ArrayVec;
use vme_histories::{put_controller, put_parts};
use vme_model::{Driver, Edge};

impl Wiring {
    ghost use Rattle.vme_wiring.specs.Wired.{OfHistory};

    /// What a driver is offered, without the end of the trace: those of the edges considered for it
    /// that the rules allow, in the order of its wires. Source: profile.
    pub fn offers(&self, driver: Driver) -> ArrayVec<Edge, 16>
        ensures { OfHistory self.now (λ version p h. result.items
            ≡ offered_but_full version p h driver) }
    {
        let mut offers = ArrayVec::new();
        match driver {
            Driver::Controller => put_controller(self, &mut offers),
            Driver::Slot(slot) => put_parts(self, slot, self.waiting(slot), &mut offers),
        }
        offers
    }
}
