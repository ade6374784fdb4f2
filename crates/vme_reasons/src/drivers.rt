//! What is so of a driver of a bus by the marks.
ghost use Rattle.std.specs.Prelude.{◌≡◌, true, find, Some};
ghost use Rattle.vme_model.specs.declared.signals.Driver.TheVariants.{Slot};
ghost use Rattle.vme_model.specs.Signals.{has_wire};
ghost use Rattle.vme_model.specs.Plan.{up_to};
ghost use Rattle.vme_model.specs.History.{addressing, drive};
ghost use Rattle.vme_model.specs.Numbered.{since as since_in};
ghost use Rattle.vme_model.specs.Witnesses.{interrupter_of};
ghost use Rattle.vme_model.specs.Readings.{is_pending, readings};
ghost use Rattle.vme_model.specs.Stands.{holder};
ghost use Rattle.vme_reasons.specs.Traced.{OfTrace};

use crate::Marks;
use vme_bus::Bus;
use vme_model::{Driver, InterrupterRow, Wire};

/// Whether a driver's wire is low, or its address group on; never one that no driver has.
pub fn is_low(bus: &Bus, marks: &Marks, driver: Driver, wire: Wire) -> bool
    ensures low { OfTrace bus.now marks.now (λ _. result
        ≡ drive bus.now.history driver wire) }
    ensures had { result ≡ true → has_wire driver wire ≡ true }
{
    bus.laws();
    driver.has_wire(wire) && marks.is_low(driver, wire)
}

/// The last edge of a driver's wire; none where it never moved, and of one that no driver has.
pub fn since(bus: &Bus, marks: &Marks, driver: Driver, wire: Wire) -> Option<u64>
    ensures { OfTrace bus.now marks.now (λ k. result ≡ since_in k driver wire) }
{
    bus.laws();
    if driver.has_wire(wire) {
        marks.since(driver, wire)
    } else {
        None
    }
}

/// Whether the driver's interrupter is pending: it asks, and was not served since.
pub(crate) fn is_pending(
    bus: &Bus,
    marks: &Marks,
    driver: Driver,
    interrupter: InterrupterRow,
) -> bool
    requires { interrupter_of bus.now driver ≡ Some interrupter }
    ensures { OfTrace bus.now marks.now (λ _. result
        ≡ is_pending (readings bus.now.plan bus.now.history driver)
        interrupter.level) }
{
    match driver {
        Driver::Controller => false,
        Driver::Slot(slot) => {
            is_low(bus, marks, driver, Wire::Irq)
                && marks.served_since(slot, interrupter.kind).is_none()
        }
    }
}

/// The least slot whose wire is low.
fn first_low(bus: &Bus, marks: &Marks, wire: Wire) -> Option<u8>
    ensures { OfTrace bus.now marks.now (λ _. result
        ≡ find (λ s. drive bus.now.history (Slot s) wire) (up_to bus.now.plan.slots)) }
{
    for below in 0..bus.plan().slots() {
        let slot = below + 1;
        if is_low(bus, marks, Driver::Slot(slot), wire) {
            return Some(slot);
        }
    }
    None
}

/// The slot that holds the bus.
pub(crate) fn holder(bus: &Bus, marks: &Marks) -> Option<u8>
    ensures { OfTrace bus.now marks.now (λ _. result
        ≡ holder bus.now.plan bus.now.history) }
{
    first_low(bus, marks, Wire::Bbsy)
}

/// The slot whose address group is on.
pub(crate) fn addressing(bus: &Bus, marks: &Marks) -> Option<u8>
    ensures { OfTrace bus.now marks.now (λ _. result
        ≡ addressing bus.now.plan bus.now.history) }
{
    first_low(bus, marks, Wire::Addr)
}
