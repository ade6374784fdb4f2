//! What the marks of a bus's edges tell of a driver's wires.
ghost use Rattle.std.specs.Prelude.{◌≡◌, true};
ghost use Rattle.vme_model.specs.Signals.{has_wire};
ghost use Rattle.vme_model.specs.History.{drive};
ghost use Rattle.vme_model.specs.Numbered.{since as since_in};
ghost use Rattle.vme_reasons.specs.Traced.{OfTrace};

use vme_bus::Bus;
use vme_model::{Driver, Wire};
use vme_reasons::Marks;

/// Whether a driver's wire is low, or its address group on; never one that no driver has.
pub(crate) fn is_low(bus: &Bus, marks: &Marks, driver: Driver, wire: Wire) -> bool
    ensures low { OfTrace bus.now marks.now (λ _. result
        ≡ drive bus.now.history driver wire) }
    ensures had { result ≡ true → has_wire driver wire ≡ true }
{
    bus.laws();
    driver.has_wire(wire) && marks.is_low(driver, wire)
}

/// The last edge of a driver's wire; none where it never moved, and of one that no driver has.
pub(crate) fn since(bus: &Bus, marks: &Marks, driver: Driver, wire: Wire) -> Option<u64>
    ensures { OfTrace bus.now marks.now (λ k. result ≡ since_in k driver wire) }
{
    bus.laws();
    if driver.has_wire(wire) {
        marks.since(driver, wire)
    } else {
        None
    }
}
