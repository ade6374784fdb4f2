//! What the marks say of a driver of a bus.
ghost use Rattle.std.specs.Prelude.{◌≡◌, Some};
ghost use Rattle.vme_model.specs.Numbered.{since as since_in};
ghost use Rattle.vme_model.specs.Witnesses.{interrupter_of};
ghost use Rattle.vme_model.specs.Readings.{is_pending, readings};
ghost use Rattle.vme_explain.specs.Traced.{OfTrace};

use crate::Marks;
use vme_bus::Bus;
use vme_model::{Driver, InterrupterRow, Wire};

/// The last edge of a driver's wire; none if it never moved, and of one that no driver has.
pub fn since(bus: &Bus, marks: &Marks, driver: Driver, wire: Wire) -> Option<u64>
    ensures { OfTrace bus.now marks.now (λ k. result ≡ since_in k driver wire) }
{
    bus.laws();
    if driver.has_wire(wire) {
        marks.since(driver, wire)
    } else {
        None
    }
}

/// Whether the driver's interrupter is pending: it asks, and was not served since.
pub(crate) fn is_pending(
    bus: &Bus,
    marks: &Marks,
    driver: Driver,
    interrupter: InterrupterRow,
) -> bool
    requires { interrupter_of bus.now driver ≡ Some interrupter }
    ensures { OfTrace bus.now marks.now (λ _. result
        ≡ is_pending (readings bus.now.plan bus.now.history driver)
        interrupter.level) }
{
    match driver {
        Driver::Controller => false,
        Driver::Slot(slot) => {
            bus.is_low(driver, Wire::Irq) && marks.served_since(slot, interrupter.kind).is_none()
        }
    }
}
